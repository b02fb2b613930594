ghost use Rattle.std.specs.Prelude.{◌≡◌, ◌<◌, ◌≤◌, ◌+◌, ◌-◌, ◌^◌, ◌++◌, ℕ, List, IfSome, IsSomeAnd, length, take, drop};
ghost use Rattle.std.specs.Vec.{vec_capacity};
ghost use Rattle.words.specs.Words.{word, frame_encoding};

use byteorder::{ByteOrder, LittleEndian};
use words::take_word;

/// Splits off the content of the first frame.
pub fn take_frame(bytes: &[u8]) -> Option<(&[u8], &[u8])>
    ensures found { IfSome result (λ r. (bytes.now ≡ frame_encoding r.0.now ++ r.1.now) × (length r.0.now < 2 ^ 32)) }
    ensures only { (content rest : List ℕ) → length content < 2 ^ 32 → bytes.now ≡ frame_encoding content ++ rest
        → IsSomeAnd result (λ r. (r.0.now ≡ content) × (r.1.now ≡ rest)) }
{
    let (length, rest) = take_word(bytes)?;
    let length = length as usize;
    if rest.len() < length {
        return None;
    }
    Some(rest.split_at(length))
}

/// Writes the length of a frame into its four bytes at offset `at`. The frame's content is everything after them.
pub(crate) fn set_length(out: &mut Vec<u8>, at: usize)
    requires room { at + 4 ≤ length out.old.items }
    requires fits { length out.old.items - (at + 4) < 2 ^ 32 }
    ensures encoding { out.new.items ≡ take at out.old.items
        ++ (word (length out.old.items - (at + 4)) ++ drop (at + 4) out.old.items) }
    ensures room { vec_capacity out.new ≡ vec_capacity out.old }
{
    let length = out.len() - (at + 4);
    let (_, frame) = out.as_mut_slice().split_at_mut(at);
    LittleEndian::write_u32(frame, length as u32);
}
