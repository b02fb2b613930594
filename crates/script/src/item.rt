ghost use Rattle.std.specs.Prelude.{◌≡◌, ◌<◌, ◌++◌, length, flat_map, Ok, OnOk, IfOk};
ghost use Rattle.ipc_model.specs.messages.Items.{item_encoding};
ghost use Rattle.script.specs.vocabulary.Spaced.{words_of};
ghost use Rattle.script.specs.Bytes.{optional_bytes_at};
ghost use Rattle.script.specs.Items.{words_item, bytes_item, numbers_at, words_item_at, bytes_item_at, item_at, after_bytes, body_at};
ghost use Rattle.script.specs.Reading.{Gives};
ghost use Rattle.std.specs.Prelude.{codes};
ghost use Rattle.words.specs.Words.{word};

use crate::bytes::{read_bytes, read_optional_bytes};
use crate::fault::{Expected, Fault};
use crate::values::{after_label, read_bounded, take_number};
use crate::vocabulary::{BYTE_BITS, BYTE_TYPE, Kind, WORD_BITS, count_words, descriptor, zeros};
use std::alloc::{AllocError, Global};
use words::push_word;

/// Upper bound of an item's elements, exclusive.
const ELEMENTS_END: usize = 0x1000;

/// Reads numbers up to a word that isn't one, and returns the text after them.
fn read_numbers(alloc: Global, text: &[u8]) -> Result<(Vec<u32>, &[u8]), Fault>
    ensures { Gives (λ r. (r.0.items, words_of r.1.now)) result (Ok (numbers_at (words_of text.now))) }
{
    let mut numbers = Vec::new(alloc);
    let mut rest = text;
    while let Some((number, beyond)) = take_number(Kind::Hexadecimal, rest) {
        if numbers.push(number).is_err() {
            return Err(Fault::NoMemory);
        }
        rest = beyond;
    }
    Ok((numbers, rest))
}

/// Appends numbers, four bytes each.
fn push_words(out: &mut Vec<u8>, numbers: &[u32]) -> Result<(), AllocError>
    ensures { OnOk result (out.new.items ≡ out.old.items ++ flat_map word numbers.now) }
{
    let mut rest = numbers;
    while let Some((number, beyond)) = rest.split_first() {
        push_word(out, *number)?;
        rest = beyond;
    }
    Ok(())
}

/// Returns the bytes of an item of words.
fn words_item(alloc: Global, type_name: u32, numbers: &[u32]) -> Result<Vec<u8>, AllocError>
    requires type_name { type_name < 0x100 }
    requires number { length numbers.now < 0x1000 }
    ensures { IfOk result (λ item. item.items ≡ item_encoding (words_item type_name numbers.now)) }
{
    let mut item = Vec::new(alloc);
    push_word(
        &mut item,
        descriptor(type_name, WORD_BITS, numbers.len() as u32),
    )?;
    push_words(&mut item, numbers)?;
    Ok(item)
}

/// Returns the bytes of an item of bytes.
fn bytes_item(alloc: Global, bytes: &[u8]) -> Result<Vec<u8>, AllocError>
    requires { length bytes.now < 0x1000 }
    ensures { IfOk result (λ item. item.items ≡ item_encoding (bytes_item bytes.now)) }
{
    let mut item = Vec::new(alloc);
    push_word(
        &mut item,
        descriptor(BYTE_TYPE, BYTE_BITS, bytes.len() as u32),
    )?;
    item.extend_from_slice(bytes)?;
    item.extend_from_slice(zeros(bytes.len()))?;
    Ok(item)
}

/// Reads an item of words, and returns the text after it.
#[tactic(auto, unfolding(crate::specs::Items::words_item_at))]
fn read_words_item(alloc: Global, text: &[u8]) -> Result<(Vec<u8>, &[u8]), Fault>
    ensures { Gives (λ r. (r.0.items, words_of r.1.now)) result (words_item_at (words_of text.now)) }
{
    let (type_name, rest) = read_bounded(Expected::Item, Kind::Element, 0x100, text)?;
    let (numbers, rest) = read_numbers(alloc, rest)?;
    if numbers.len() >= ELEMENTS_END {
        return Err(Fault::expected(Expected::Item, text));
    }
    match words_item(alloc, type_name, numbers.as_slice()) {
        Ok(item) => Ok((item, rest)),
        Err(_) => Err(Fault::NoMemory),
    }
}

/// Reads an item of bytes, and returns the text after it.
#[tactic(auto, unfolding(crate::specs::Items::bytes_item_at))]
fn read_bytes_item(alloc: Global, text: &[u8]) -> Result<(Vec<u8>, &[u8]), Fault>
    ensures { Gives (λ r. (r.0.items, words_of r.1.now)) result (bytes_item_at (words_of text.now)) }
{
    let (bytes, rest) = read_bytes(alloc, text)?;
    if bytes.len() >= ELEMENTS_END {
        return Err(Fault::expected(Expected::Item, text));
    }
    match bytes_item(alloc, bytes.as_slice()) {
        Ok(item) => Ok((item, rest)),
        Err(_) => Err(Fault::NoMemory),
    }
}

/// Reads an item, and returns the text after it.
#[tactic(auto, unfolding(crate::specs::Items::item_at))]
fn read_item(alloc: Global, text: &[u8]) -> Result<(Vec<u8>, &[u8]), Fault>
    ensures { Gives (λ r. (r.0.items, words_of r.1.now)) result (item_at (words_of text.now)) }
{
    match after_label(b"bytes", text) {
        Some(rest) => read_bytes_item(alloc, rest),
        None => read_words_item(alloc, text),
    }
}

/// Reads the rest of a body that begins with these bytes, and returns the text after it.
fn read_rest(alloc: Global, mut body: Vec<u8>, text: &[u8]) -> Result<(Vec<u8>, &[u8]), Fault>
    ensures { Gives (λ r. (r.0.items, words_of r.1.now)) result
        (after_bytes body.items (optional_bytes_at (codes "data") (words_of text.now))) }
{
    let (rest, beyond) = read_optional_bytes(alloc, b"data", text)?;
    match body.extend_from_slice(rest.as_slice()) {
        Ok(()) => Ok((body, beyond)),
        Err(_) => Err(Fault::NoMemory),
    }
}

/// Reads a body, and returns the text after it.
pub(crate) fn read_body(alloc: Global, text: &[u8]) -> Result<(Vec<u8>, &[u8]), Fault>
    ensures { Gives (λ r. (r.0.items, words_of r.1.now)) result (body_at (words_of text.now)) }
{
    let mut body = Vec::new(alloc);
    let mut rest = text;
    let mut left = count_words(text);
    while left > 0 {
        let Some(beyond) = after_label(b"item", rest) else {
            return read_rest(alloc, body, rest);
        };
        let (item, beyond) = read_item(alloc, beyond)?;
        if body.extend_from_slice(item.as_slice()).is_err() {
            return Err(Fault::NoMemory);
        }
        rest = beyond;
        left -= 1;
    }
    read_rest(alloc, body, rest)
}
