ghost use Rattle.std.specs.Prelude.{◌≡◌, ◌<◌};
ghost use Rattle.script.specs.vocabulary.Items.{zeros, descriptor};

/// The type of an element of an item of bytes.
pub const BYTE_TYPE: u32 = 9;

/// Size in bits of an element of an item of bytes.
pub const BYTE_BITS: u32 = 8;

/// Size in bits of an element of an item of words.
pub const WORD_BITS: u32 = 32;

/// Returns the word of a short, inline descriptor.
pub fn descriptor(type_name: u32, bits: u32, number: u32) -> u32
    requires type_name { type_name < 0x100 }
    requires bits { bits < 0x100 }
    requires number { number < 0x1000 }
    ensures { result ≡ descriptor type_name bits number }
{
    type_name + bits * 0x100 + number * 0x1_0000 + 0x1000_0000
}

/// Returns the zeros that pad `number` bytes of an item to a multiple of four.
pub fn zeros(number: usize) -> &'static [u8]
    ensures { result.now ≡ zeros number }
{
    match number % 4 {
        0 => b"",
        1 => b"\0\0\0",
        2 => b"\0\0",
        _ => b"\0",
    }
}
