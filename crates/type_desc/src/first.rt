ghost use Rattle.std.specs.Prelude.{◌≡◌, ◌==◌, ◌&&◌, ◌+◌, ◌≤◌, not, nat_lt, true, false, length, Some, None, IfOk, IfErr, OnOk, OnErr};
ghost use Rattle.byteorder.specs.Endian.{little_number};
ghost use Rattle.ipc_model.specs.calls.Tests.{first_failing};
ghost use Rattle.ipc_model.specs.messages.Items.{tests_of_item, item_of, after_item, is_long_form, is_port_type, type_name_in, bits_in, number_in, descriptor_length, data_length};
ghost use Rattle.type_desc.specs.Values.{item_value};

use crate::descriptor::{
    Fields, SHORT_LENGTH, data_length, descriptor_length, fields_of, has_wrong_type, is_cut,
    is_inline, is_long_form,
};
use crate::item::Item;
use byteorder::{ByteOrder, LittleEndian};
use codes::KernReturn;

/// Splits off the item of a descriptor that passed its own tests.
fn take_item(body: &[u8], is_long: bool, fields: Fields) -> Result<(Item<'_>, &[u8]), KernReturn>
    requires whole { descriptor_length is_long ≤ length body.now }
    requires type_name { fields.type_name ≡ type_name_in body.now is_long }
    requires bits { fields.bits ≡ bits_in body.now is_long }
    requires number { fields.number ≡ number_in body.now is_long }
    requires ports { (is_port_type fields.type_name && not (fields.bits == 32)) ≡ false }
    ensures item { IfOk result (λ found. item_value found.0 ≡ item_of body.now is_long) }
    ensures rest { IfOk result (λ found. found.1.now ≡ after_item body.now is_long) }
    ensures enough { OnOk result (nat_lt (length body.now) (descriptor_length is_long + data_length body.now is_long)
        ≡ false) }
    ensures refused { IfErr result (λ code. code ≡ KernReturn.SendMsgTooSmall) }
    ensures short { OnErr result (nat_lt (length body.now) (descriptor_length is_long + data_length body.now is_long)
        ≡ true) }
{
    let (_, beyond) = body.split_at(descriptor_length(is_long));
    let length = data_length(fields);
    if beyond.len() < length {
        return Err(KernReturn::SendMsgTooSmall);
    }
    let (content, rest) = beyond.split_at(length);
    let item = Item {
        type_name: fields.type_name,
        bits: fields.bits,
        number: fields.number,
        is_long,
        content,
    };
    Ok((item, rest))
}

/// Splits off the first item of a body.
///
/// Otherwise it returns the code of the first test that fails. `SendMsgTooSmall`: the bytes end within the descriptor
/// or within the data, or there are none. `SendInvalidMemory`: the data isn't inline. `SendInvalidType`: the deallocate
/// bit or the unused bit is set, a long descriptor's first word has fields, or ports don't have 32 bits. It allocates
/// nothing, and copies no byte.
pub fn first_item(body: &[u8]) -> Result<(Item<'_>, &[u8]), KernReturn>
    ensures passes { OnOk result (first_failing (tests_of_item body.now) ≡ None) }
    ensures item { IfOk result (λ found. item_value found.0
        ≡ item_of body.now (is_long_form (little_number 4 body.now))) }
    ensures rest { IfOk result (λ found. found.1.now ≡ after_item body.now (is_long_form (little_number 4 body.now))) }
    ensures refused { IfErr result (λ code. first_failing (tests_of_item body.now) ≡ Some code) }
{
    if body.len() < SHORT_LENGTH {
        return Err(KernReturn::SendMsgTooSmall);
    }
    let word = LittleEndian::read_u32(body);
    let is_long = is_long_form(word);
    if is_cut(is_long, body.len()) {
        return Err(KernReturn::SendMsgTooSmall);
    }
    if !is_inline(word) {
        return Err(KernReturn::SendInvalidMemory);
    }
    let fields = fields_of(body, is_long);
    if has_wrong_type(word, is_long, fields) {
        return Err(KernReturn::SendInvalidType);
    }
    take_item(body, is_long, fields)
}
