ghost use Rattle.std.specs.Prelude.{◌≡◌, ◌≢◌, ◌+◌, ◌++◌, ◌<◌, ◌≤◌, ◌^◌, OnOk, OnErr, IfSome, IfNone, flat_map, length};
ghost use Rattle.std.specs.Vec.{vec_len, vec_capacity};
ghost use Rattle.words.specs.Words.{word};

use std::alloc::AllocError;
use words::{push_word, take_word};

/// Appends words. If an allocation fails, some of them may have been appended. It allocates nothing if there is room.
pub(crate) fn push_words(out: &mut Vec<u8>, numbers: &[u32]) -> Result<(), AllocError>
    ensures ok { OnOk result (out.new.items ≡ out.old.items ++ flat_map word numbers.now) }
    ensures full { OnErr result (vec_capacity out.old < vec_len out.old + length (flat_map word numbers.now)) }
    ensures room { vec_capacity out.old ≤ vec_capacity out.new }
{
    for &number in numbers {
        push_word(out, number)?;
    }
    Ok(())
}

/// Decodes exactly one word.
pub(crate) fn one_word(bytes: &[u8]) -> Option<u32>
    ensures found { IfSome result (λ a. bytes.now ≡ word a) }
    ensures fits { IfSome result (λ a. a < 2 ^ 32) }
    ensures none { IfNone result (length bytes.now ≢ 4) }
{
    let (a, rest) = take_word(bytes)?;
    if rest.is_empty() { Some(a) } else { None }
}

/// Decodes exactly two words.
pub(crate) fn two_words(bytes: &[u8]) -> Option<(u32, u32)>
    ensures found { IfSome result (λ r. bytes.now ≡ word r.0 ++ word r.1) }
    ensures fits { IfSome result (λ r. (r.0 < 2 ^ 32) × (r.1 < 2 ^ 32)) }
    ensures none { IfNone result (length bytes.now ≢ 8) }
{
    let (a, rest) = take_word(bytes)?;
    let b = one_word(rest)?;
    Some((a, b))
}

/// Decodes exactly three words.
pub(crate) fn three_words(bytes: &[u8]) -> Option<(u32, u32, u32)>
    ensures found { IfSome result (λ r. bytes.now ≡ word r.0 ++ (word r.1 ++ word r.2)) }
    ensures fits { IfSome result (λ r. (r.0 < 2 ^ 32) × (r.1 < 2 ^ 32) × (r.2 < 2 ^ 32)) }
    ensures none { IfNone result (length bytes.now ≢ 12) }
{
    let (a, rest) = take_word(bytes)?;
    let (b, c) = two_words(rest)?;
    Some((a, b, c))
}

/// Decodes exactly five words.
pub(crate) fn five_words(bytes: &[u8]) -> Option<(u32, u32, u32, u32, u32)>
    ensures found { IfSome result (λ r. bytes.now ≡ word r.0 ++ (word r.1 ++ (word r.2 ++ (word r.3 ++ word r.4)))) }
    ensures fits { IfSome result (λ r. (r.0 < 2 ^ 32) × (r.1 < 2 ^ 32) × (r.2 < 2 ^ 32) × (r.3 < 2 ^ 32)
        × (r.4 < 2 ^ 32)) }
    ensures none { IfNone result (length bytes.now ≢ 20) }
{
    let (a, rest) = take_word(bytes)?;
    let (b, rest) = take_word(rest)?;
    let (c, d, e) = three_words(rest)?;
    Some((a, b, c, d, e))
}
