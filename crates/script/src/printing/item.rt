ghost use Rattle.std.specs.Prelude.{◌≡◌, ◌<◌, ◌++◌, map, MatchOption, None, Some, OnOk, IfOk};
ghost use Rattle.std.specs.Option.{option_map};
ghost use Rattle.script.specs.vocabulary.Items.{descriptor};
ghost use Rattle.script.specs.vocabulary.Kinds.{value_word};
ghost use Rattle.script.specs.vocabulary.Spaced.{spaced};
ghost use Rattle.script.specs.printing.Items.{element_kind, words_item_words, bytes_item_words, word_front, split_front, stated_number, numbers_in, words_front, bytes_front, item_front, body_words, AddsItem};

use crate::printing::bytes::{push_bytes, push_optional_bytes};
use crate::vocabulary::{
    BYTE_BITS, BYTE_TYPE, Kind, WORD_BITS, descriptor, push_spaced, push_value, zeros,
};
use byteorder::{ByteOrder, LittleEndian};
use std::alloc::AllocError;
use words::take_word;

/// Returns the number of elements in a short descriptor.
fn stated_number(descriptor: u32) -> u32
    ensures reported { result ≡ stated_number descriptor }
    ensures small { result < 0x1000 }
{
    descriptor / 0x1_0000 % 0x1000
}

fn element_kind(type_name: u32) -> Kind
    ensures { result ≡ element_kind type_name }
{
    match type_name {
        16..=21 => Kind::Hexadecimal,
        _ => Kind::Decimal,
    }
}

/// Splits off the number in the first four bytes.
#[tactic(auto, unfolding(crate::specs::printing::Items::word_front))]
fn word_front(bytes: &[u8]) -> Option<(u32, &[u8])>
    ensures { MatchOption result (word_front bytes.now ≡ None) (λ r. word_front bytes.now ≡ Some (r.0, r.1.now)) }
{
    if bytes.len() < 4 {
        return None;
    }
    let (_, beyond) = bytes.split_at(4);
    Some((LittleEndian::read_u32(bytes), beyond))
}

/// Splits off the first `count` bytes, if there are as many.
#[tactic(auto, unfolding(crate::specs::printing::Items::split_front))]
fn split_front(bytes: &[u8], count: usize) -> Option<(&[u8], &[u8])>
    ensures { MatchOption result (split_front count bytes.now ≡ None)
        (λ r. split_front count bytes.now ≡ Some (r.0.now, r.1.now)) }
{
    if bytes.len() < count {
        return None;
    }
    Some(bytes.split_at(count))
}

/// Splits off an item of words: its type and its bytes.
#[tactic(auto, unfolding(crate::specs::printing::Items::words_front))]
fn words_front(body: &[u8]) -> Option<(u32, &[u8], &[u8])>
    ensures { MatchOption result (words_front body.now ≡ None)
        (λ r. words_front body.now ≡ Some (r.0, r.1.now, r.2.now)) }
{
    let (word, beyond) = word_front(body)?;
    let type_name = word % 0x100;
    let number = stated_number(word);
    if word != descriptor(type_name, WORD_BITS, number) {
        return None;
    }
    let (content, beyond) = split_front(beyond, 4 * number as usize)?;
    Some((type_name, content, beyond))
}

/// Splits off an item of bytes.
#[tactic(auto, unfolding(crate::specs::printing::Items::bytes_front))]
fn bytes_front(body: &[u8]) -> Option<(&[u8], &[u8])>
    ensures { MatchOption result (bytes_front body.now ≡ None) (λ r. bytes_front body.now ≡ Some (r.0.now, r.1.now)) }
{
    let (word, beyond) = word_front(body)?;
    let number = stated_number(word);
    if word != descriptor(BYTE_TYPE, BYTE_BITS, number) {
        return None;
    }
    let (bytes, beyond) = split_front(beyond, number as usize)?;
    let zeros = zeros(number as usize);
    let (tail, beyond) = split_front(beyond, zeros.len())?;
    if tail == zeros {
        Some((bytes, beyond))
    } else {
        None
    }
}

/// Appends the numbers in bytes, four bytes each.
#[tactic(auto, using(crate::proofs::vocabulary::WordsOf::spaced_laws))]
fn push_numbers(line: &mut Vec<u8>, kind: Kind, bytes: &[u8]) -> Result<(), AllocError>
    ensures { OnOk result (line.new.items ≡ line.old.items ++ spaced (map (value_word kind) (numbers_in bytes.now))) }
{
    let mut rest = bytes;
    while let Some((number, beyond)) = take_word(rest) {
        push_value(line, kind, number)?;
        rest = beyond;
    }
    Ok(())
}

/// Appends an item of words with these bytes.
#[tactic(auto, using(crate::proofs::vocabulary::WordsOf::spaced_laws), unfolding(crate::specs::printing::Items::words_item_words))]
fn push_words_item(line: &mut Vec<u8>, type_name: u32, bytes: &[u8]) -> Result<(), AllocError>
    ensures { OnOk result (line.new.items ≡ line.old.items
        ++ spaced (words_item_words type_name (numbers_in bytes.now))) }
{
    push_spaced(line, b"item")?;
    push_value(line, Kind::Element, type_name)?;
    push_numbers(line, element_kind(type_name), bytes)
}

/// Appends an item of bytes.
#[tactic(auto, using(crate::proofs::vocabulary::WordsOf::spaced_laws), unfolding(crate::specs::printing::Items::bytes_item_words))]
fn push_bytes_item(line: &mut Vec<u8>, bytes: &[u8]) -> Result<(), AllocError>
    ensures { OnOk result (line.new.items ≡ line.old.items ++ spaced (bytes_item_words bytes.now)) }
{
    push_spaced(line, b"item")?;
    push_spaced(line, b"bytes")?;
    push_bytes(line, bytes)
}

/// Appends the first item of a body, if it has a written form, and returns the bytes after it.
#[tactic(auto, unfolding(crate::specs::printing::Items::item_front))]
fn push_item<'a>(line: &mut Vec<u8>, body: &'a [u8]) -> Result<Option<&'a [u8]>, AllocError>
    ensures { IfOk result (λ reported. AddsItem line.old.items line.new.items
        (option_map (λ beyond. beyond.now) reported)
        (item_front body.now)) }
{
    if let Some((type_name, bytes, beyond)) = words_front(body) {
        push_words_item(line, type_name, bytes)?;
        return Ok(Some(beyond));
    }
    if let Some((bytes, beyond)) = bytes_front(body) {
        push_bytes_item(line, bytes)?;
        return Ok(Some(beyond));
    }
    Ok(None)
}

/// Appends a body: the first items, as long as they have a written form, and the rest as bytes.
pub(crate) fn push_body(line: &mut Vec<u8>, body: &[u8]) -> Result<(), AllocError>
    ensures { OnOk result (line.new.items ≡ line.old.items ++ spaced (body_words body.now)) }
{
    let mut rest = body;
    let mut left = body.len();
    while left > 0 {
        let Some(beyond) = push_item(line, rest)? else {
            return push_optional_bytes(line, b"data", rest);
        };
        rest = beyond;
        left -= 1;
    }
    push_optional_bytes(line, b"data", rest)
}
