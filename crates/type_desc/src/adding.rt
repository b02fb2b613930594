ghost use Rattle.std.specs.Prelude.{◌≡◌, ◌<◌, ◌^◌, ◌+◌, ◌*◌, ◌++◌, length, take, drop, flat_map, replicate, OnOk, OnErr};
ghost use Rattle.byteorder.specs.Endian.{little_bytes};
ghost use Rattle.ipc_model.specs.messages.Items.{received_type};
ghost use Rattle.type_desc.specs.Adding.{Keeps, descriptor_with, FitsShort};
ghost use Rattle.type_desc.specs.Values.{item_value};
ghost use Rattle.words.specs.Words.{word};

use crate::descriptor::{INLINE_BIT, LONG_FORM_BIT};
use crate::item::Item;
use byteorder::{ByteOrder, LittleEndian};
use std::alloc::AllocError;
use words::push_word;

/// Appends a number in two bytes. If an allocation fails, nothing changed.
fn push_half(out: &mut Vec<u8>, value: u16) -> Result<(), AllocError>
    ensures ok { OnOk result (out.new.items ≡ out.old.items ++ little_bytes 2 value) }
    ensures err { OnErr result (out.new.items ≡ out.old.items) }
{
    let mut encoding = [0; 2];
    LittleEndian::write_u16(&mut encoding, value);
    out.extend_from_slice(&encoding)
}

/// Appends words. If an allocation fails, some of them may have been appended.
#[tactic(auto, using(crate::specs::Adding::keeps_added))]
pub(crate) fn add_words(out: &mut Vec<u8>, numbers: &[u32]) -> Result<(), AllocError>
    ensures ok { OnOk result (out.new.items ≡ out.old.items ++ flat_map word numbers.now) }
    ensures part { OnErr result (Keeps out.old.items out.new.items) }
{
    let mut rest = numbers;
    while let Some((number, beyond)) = rest.split_first() {
        push_word(out, *number)?;
        rest = beyond;
    }
    Ok(())
}

/// Returns the first `count` numbers, or all if there are fewer.
pub(crate) fn front_of(numbers: &[u32], count: u32) -> &[u32]
    ensures { result.now ≡ take count numbers.now }
{
    let count = count as usize;
    if count < numbers.len() {
        &numbers[..count]
    } else {
        numbers
    }
}

/// Returns the numbers after the first `count`.
pub(crate) fn after_front(numbers: &[u32], count: u32) -> &[u32]
    ensures { result.now ≡ drop count numbers.now }
{
    let count = count as usize;
    if count < numbers.len() {
        &numbers[count..]
    } else {
        &[]
    }
}

/// Returns the type with which a port is received (`MACH_MSG_TYPE_PORT_RECEIVE`, `_SEND` or `_SEND_ONCE`). Types other
/// than those of ports are returned unchanged.
pub(crate) fn received_type(type_name: u16) -> u16
    ensures { result ≡ received_type type_name }
{
    match type_name {
        17 | 19 | 20 => 17,
        18 | 21 => 18,
        _ => type_name,
    }
}

/// Appends zeros. If an allocation fails, nothing changed.
pub(crate) fn push_zeros(out: &mut Vec<u8>, count: usize) -> Result<(), AllocError>
    requires { count < 2 ^ 48 }
    ensures ok { OnOk result (out.new.items ≡ out.old.items ++ replicate count 0) }
    ensures err { OnErr result (out.new.items ≡ out.old.items) }
{
    let length = out.len() + count;
    out.resize(length, 0)
}

/// Returns the word of a short descriptor.
fn short_word(type_name: u16, bits: u16, number: u32) -> u32
    requires type_name { type_name < 2 ^ 8 }
    requires bits { bits < 2 ^ 8 }
    requires number { number < 2 ^ 12 }
    ensures { result ≡ type_name + bits * 2 ^ 8 + number * 2 ^ 16 + 2 ^ 28 }
{
    u32::from(type_name) + u32::from(bits) * 0x100 + number * 0x1_0000 + INLINE_BIT
}

/// Appends a long descriptor. If an allocation fails, part of it may have been appended.
#[tactic(auto, using(crate::specs::Adding::keeps_added))]
fn add_long_descriptor(
    out: &mut Vec<u8>,
    type_name: u16,
    bits: u16,
    number: u32,
) -> Result<(), AllocError>
    ensures ok { OnOk result (out.new.items ≡ out.old.items
        ++ (word (2 ^ 28 + 2 ^ 29) ++ (little_bytes 2 type_name ++ (little_bytes 2 bits ++ word number)))) }
    ensures part { OnErr result (Keeps out.old.items out.new.items) }
{
    push_word(out, INLINE_BIT + LONG_FORM_BIT)?;
    push_half(out, type_name)?;
    push_half(out, bits)?;
    push_word(out, number)?;
    Ok(())
}

impl Item<'_> {
    /// Appends the item's descriptor with another type. If an allocation fails, part of it may have been appended.
    #[tactic(auto, using(crate::specs::Adding::keeps_added))]
    pub(crate) fn add_descriptor(&self, type_name: u16, out: &mut Vec<u8>) -> Result<(), AllocError>
        requires { FitsShort self.now.is_long type_name }
        ensures ok { OnOk result (out.new.items ≡ out.old.items ++ descriptor_with (item_value self.now) type_name) }
        ensures part { OnErr result (Keeps out.old.items out.new.items) }
    {
        if self.is_long {
            add_long_descriptor(out, type_name, self.bits, self.number)?;
            return Ok(());
        }
        push_word(out, short_word(type_name, self.bits, self.number))?;
        Ok(())
    }
}
