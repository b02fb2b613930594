ghost use Rattle.std.specs.Prelude.{◌≡◌, ◌&&◌, ◌||◌, ◌*◌, ◌^◌, ◌≤◌, ◌<◌, nat_lt, true, false, length};
ghost use Rattle.ipc_model.specs.messages.Items.{is_inline, is_long_form, has_other_bit, has_short_fields, has_odd_ports, is_port_type, type_name_in, bits_in, number_in, padded, descriptor_length};

use byteorder::{ByteOrder, LittleEndian};

/// Length of a short descriptor in bytes (`mach_msg_type_t`).
pub(crate) const SHORT_LENGTH: usize = 4;

/// Length of a long descriptor in bytes (`mach_msg_type_long_t`).
pub(crate) const LONG_LENGTH: usize = 12;

/// `msgt_inline`: the data follows the descriptor.
pub(crate) const INLINE_BIT: u32 = 0x1000_0000;

/// `msgt_longform`.
pub(crate) const LONG_FORM_BIT: u32 = 0x2000_0000;

/// `msgt_deallocate`.
const DEALLOCATE_BIT: u32 = 0x4000_0000;

/// `msgt_unused`.
const UNUSED_BIT: u32 = 0x8000_0000;

/// Size of a port's name in bits.
const PORT_BITS: u16 = 32;

/// The type, the size of an element in bits and the number of elements in a descriptor.
#[derive(Clone, Copy)]
pub(crate) struct Fields {
    pub(crate) type_name: u16,
    pub(crate) bits: u16,
    pub(crate) number: u32,
}

pub(crate) fn is_inline(word: u32) -> bool
    ensures { result ≡ is_inline word }
{
    word / INLINE_BIT % 2 == 1
}

pub(crate) fn is_long_form(word: u32) -> bool
    ensures { result ≡ is_long_form word }
{
    word / LONG_FORM_BIT % 2 == 1
}

/// Returns true if the deallocate bit or the unused bit is set.
fn has_other_bit(word: u32) -> bool
    ensures { result ≡ has_other_bit word }
{
    word / DEALLOCATE_BIT % 2 == 1 || word / UNUSED_BIT % 2 == 1
}

pub(crate) fn is_port_type(type_name: u16) -> bool
    ensures { result ≡ is_port_type type_name }
{
    16 <= type_name && type_name <= 21
}

/// Returns true if the first word of a long descriptor has a field set that belongs in the words after it.
fn has_short_fields(word: u32, is_long: bool) -> bool
    ensures { result ≡ has_short_fields word is_long }
{
    is_long && word % INLINE_BIT != 0
}

/// Returns true if the elements are ports but aren't as long as a name.
fn has_odd_ports(fields: Fields) -> bool
    ensures { result ≡ has_odd_ports fields.type_name fields.bits }
{
    is_port_type(fields.type_name) && fields.bits != PORT_BITS
}

/// Returns true if a descriptor's bits or its type are refused.
pub(crate) fn has_wrong_type(word: u32, is_long: bool, fields: Fields) -> bool
    ensures { result ≡ (has_other_bit word || has_short_fields word is_long ||
        has_odd_ports fields.type_name fields.bits) }
{
    has_other_bit(word) || has_short_fields(word, is_long) || has_odd_ports(fields)
}

/// Returns true if the descriptor is long and there are too few bytes for it.
pub(crate) fn is_cut(is_long: bool, length: usize) -> bool
    ensures { result ≡ (is_long && nat_lt length 12) }
{
    is_long && length < LONG_LENGTH
}

/// Returns the fields within a short descriptor's word.
fn short_fields(body: &[u8]) -> Fields
    requires { 4 ≤ length body.now }
    ensures type_name { result.type_name ≡ type_name_in body.now false }
    ensures bits { result.bits ≡ bits_in body.now false }
    ensures number { result.number ≡ number_in body.now false }
{
    let word = LittleEndian::read_u32(body);
    Fields {
        type_name: (word % 0x100) as u16,
        bits: (word / 0x100 % 0x100) as u16,
        number: word / 0x1_0000 % 0x1000,
    }
}

/// Returns the fields after a long descriptor's word.
fn long_fields(body: &[u8]) -> Fields
    requires { 12 ≤ length body.now }
    ensures type_name { result.type_name ≡ type_name_in body.now true }
    ensures bits { result.bits ≡ bits_in body.now true }
    ensures number { result.number ≡ number_in body.now true }
{
    Fields {
        type_name: LittleEndian::read_u16(&body[4..]),
        bits: LittleEndian::read_u16(&body[6..]),
        number: LittleEndian::read_u32(&body[8..]),
    }
}

/// Returns the fields of a descriptor whose bytes are all there.
pub(crate) fn fields_of(body: &[u8], is_long: bool) -> Fields
    requires whole { 4 ≤ length body.now }
    requires uncut { (is_long && nat_lt (length body.now) 12) ≡ false }
    ensures type_name { result.type_name ≡ type_name_in body.now is_long }
    ensures bits { result.bits ≡ bits_in body.now is_long }
    ensures number { result.number ≡ number_in body.now is_long }
{
    if is_long {
        long_fields(body)
    } else {
        short_fields(body)
    }
}

/// Returns the length of a descriptor in bytes.
pub(crate) fn descriptor_length(is_long: bool) -> usize
    ensures value { result ≡ descriptor_length is_long }
    ensures few { result ≤ 12 }
{
    if is_long { LONG_LENGTH } else { SHORT_LENGTH }
}

/// Returns the length of an item's data in bytes, including its padding.
pub(crate) fn data_length(fields: Fields) -> usize
    ensures value { result ≡ padded (fields.number * fields.bits) }
    ensures few { result < 2 ^ 48 }
{
    let bits = fields.number as usize * fields.bits as usize;
    ((bits + 7) / 8 + 3) / 4 * 4
}
