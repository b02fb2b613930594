//! Little-endian numbers at the front and at the end of byte strings.
#![tactic(auto)]

ghost use Rattle.std.specs.Prelude.{◌≡◌, ◌<◌, ◌+◌, ◌^◌, ◌++◌, ◌≤◌, length, IfSome, IfNone, OnOk, OnErr};
ghost use Rattle.std.specs.Vec.{vec_len, vec_capacity};
ghost use Rattle.words.specs.Words.{word, long_word};

use byteorder::{ByteOrder, LittleEndian};
use std::alloc::AllocError;

/// Returns the number in the first four bytes and the bytes after it, or `None` if there are fewer bytes.
pub fn take_word(bytes: &[u8]) -> Option<(u32, &[u8])>
    ensures found { IfSome result (λ r. bytes.now ≡ word r.0 ++ r.1.now) }
    ensures fits { IfSome result (λ r. r.0 < 2 ^ 32) }
    ensures none { IfNone result (length bytes.now < 4) }
{
    if bytes.len() < 4 {
        return None;
    }
    let (_, rest) = bytes.split_at(4);
    Some((LittleEndian::read_u32(bytes), rest))
}

/// Returns the number in the first eight bytes and the bytes after it, or `None` if there are fewer bytes.
pub fn take_long_word(bytes: &[u8]) -> Option<(u64, &[u8])>
    ensures found { IfSome result (λ r. bytes.now ≡ long_word r.0 ++ r.1.now) }
    ensures fits { IfSome result (λ r. r.0 < 2 ^ 64) }
    ensures none { IfNone result (length bytes.now < 8) }
{
    if bytes.len() < 8 {
        return None;
    }
    let (_, rest) = bytes.split_at(8);
    Some((LittleEndian::read_u64(bytes), rest))
}

/// Appends a number in four bytes. If an allocation fails, nothing changed. It allocates nothing if there is room.
pub fn push_word(out: &mut Vec<u8>, value: u32) -> Result<(), AllocError>
    ensures ok { OnOk result (out.new.items ≡ out.old.items ++ word value) }
    ensures err { OnErr result (out.new.items ≡ out.old.items) }
    ensures full { OnErr result (vec_capacity out.old < vec_len out.old + 4) }
    ensures room { vec_capacity out.old ≤ vec_capacity out.new }
{
    let mut encoding = [0; 4];
    LittleEndian::write_u32(&mut encoding, value);
    out.extend_from_slice(&encoding)
}

/// Appends a number in eight bytes. If an allocation fails, nothing changed. It allocates nothing if there is room.
pub fn push_long_word(out: &mut Vec<u8>, value: u64) -> Result<(), AllocError>
    ensures ok { OnOk result (out.new.items ≡ out.old.items ++ long_word value) }
    ensures err { OnErr result (out.new.items ≡ out.old.items) }
    ensures full { OnErr result (vec_capacity out.old < vec_len out.old + 8) }
    ensures room { vec_capacity out.old ≤ vec_capacity out.new }
{
    let mut encoding = [0; 8];
    LittleEndian::write_u64(&mut encoding, value);
    out.extend_from_slice(&encoding)
}
