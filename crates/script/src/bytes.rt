ghost use Rattle.script.specs.vocabulary.Spaced.{words_of};
ghost use Rattle.script.specs.Bytes.{bytes_at, optional_bytes_at};
ghost use Rattle.script.specs.Reading.{Gives};

use crate::fault::{Expected, Fault};
use crate::values::after_label;
use crate::vocabulary::take_word;
use hex::FromHexError;
use std::alloc::Global;

/// Reads bytes, as two hexadecimal digits each or `none`, and returns the text after them.
#[tactic(auto, unfolding(crate::specs::Bytes::bytes_at))]
pub(crate) fn read_bytes(alloc: Global, text: &[u8]) -> Result<(Vec<u8>, &[u8]), Fault>
    ensures { Gives (λ r. (r.0.items, words_of r.1.now)) result (bytes_at (words_of text.now)) }
{
    let Some((word, rest)) = take_word(text) else {
        return Err(Fault::expected(Expected::Bytes, text));
    };
    if word == b"none".as_slice() {
        return Ok((Vec::new(alloc), rest));
    }
    match hex::decode(alloc, word) {
        Ok(bytes) => Ok((bytes, rest)),
        Err(FromHexError::OutOfMemory) => Err(Fault::NoMemory),
        Err(_) => Err(Fault::expected(Expected::Bytes, text)),
    }
}

/// Reads the bytes after this label, or returns no bytes if the first word isn't the label.
#[tactic(auto, unfolding(crate::specs::Bytes::optional_bytes_at))]
pub(crate) fn read_optional_bytes<'a>(
    alloc: Global,
    label: &[u8],
    text: &'a [u8],
) -> Result<(Vec<u8>, &'a [u8]), Fault>
    ensures { Gives (λ r. (r.0.items, words_of r.1.now)) result (optional_bytes_at label.now (words_of text.now)) }
{
    match after_label(label, text) {
        Some(rest) => read_bytes(alloc, rest),
        None => Ok((Vec::new(alloc), text)),
    }
}
