ghost use Rattle.std.specs.Prelude.{◌≡◌, ◌<◌, IfOk};
ghost use Rattle.script.specs.vocabulary.Spaced.{words_of};
ghost use Rattle.script.specs.Messages.{header_encoding, further_at, rights_at, local_at, bits_of, message_at, header_at};
ghost use Rattle.script.specs.Reading.{Gives};

use crate::bytes::read_bytes;
use crate::fault::{Expected, Fault};
use crate::item::read_body;
use crate::values::{
    after_label, read_bounded, read_flag, read_labelled, read_optional, read_value,
};
use crate::vocabulary::{Header, Kind};
use std::alloc::{AllocError, Global};
use words::push_word;

/// The rights of a header.
#[derive(Clone, Copy)]
pub(crate) struct Rights {
    pub(crate) remote_disposition: u32,
    pub(crate) remote: u32,
    pub(crate) local_disposition: u32,
    pub(crate) local: u32,
}

/// Reads the bits of a header that have no meaning, or returns 0.
#[tactic(auto, unfolding(crate::specs::Messages::further_at))]
fn read_further(text: &[u8]) -> Result<(u32, &[u8]), Fault>
    ensures read { Gives (λ r. (r.0, words_of r.1.now)) result (further_at (words_of text.now)) }
    ensures small { IfOk result (λ r. r.0 < 0x8000) }
{
    match after_label(b"bits", text) {
        Some(rest) => read_bounded(Expected::Number, Kind::Hexadecimal, 0x8000, rest),
        None => Ok((0, text)),
    }
}

/// Reads the disposition and the name of the reply right, or returns 0 and 0.
#[tactic(auto, unfolding(crate::specs::Messages::local_at))]
fn read_local(text: &[u8]) -> Result<(u32, u32, &[u8]), Fault>
    ensures read { Gives (λ r. (r.0, r.1, words_of r.2.now)) result (local_at (words_of text.now)) }
    ensures small { IfOk result (λ r. r.0 < 0x100) }
{
    let Some(text) = after_label(b"local", text) else {
        return Ok((0, 0, text));
    };
    let (disposition, rest) = read_bounded(Expected::Number, Kind::Disposition, 0x100, text)?;
    let (name, rest) = read_value(Kind::Hexadecimal, rest)?;
    Ok((disposition, name, rest))
}

/// Reads the rights of a header.
#[tactic(auto, unfolding(crate::specs::Messages::rights_at))]
fn read_rights(text: &[u8]) -> Result<(Rights, &[u8]), Fault>
    ensures read { Gives (λ r. (r.0, words_of r.1.now)) result (rights_at (words_of text.now)) }
    ensures small { IfOk result (λ r. (r.0.remote_disposition < 0x100) × (r.0.local_disposition < 0x100)) }
{
    let (remote_disposition, rest) = read_bounded(
        Expected::Message,
        Kind::Disposition,
        0x100,
        text,
    )?;
    let (remote, rest) = read_value(Kind::Hexadecimal, rest)?;
    let (local_disposition, local, rest) = read_local(rest)?;
    let rights = Rights {
        remote_disposition,
        remote,
        local_disposition,
        local,
    };
    Ok((rights, rest))
}

/// Returns the bits of a header.
fn bits_of(rights: Rights, further: u32, complex: bool) -> u32
    requires remote { rights.remote_disposition < 0x100 }
    requires local { rights.local_disposition < 0x100 }
    requires further { further < 0x8000 }
    ensures { result ≡ bits_of rights further complex }
{
    let bits = rights.remote_disposition + rights.local_disposition * 0x100 + further * 0x1_0000;
    if complex { bits + 0x8000_0000 } else { bits }
}

/// Reads the header of a message, and returns the text after it.
#[tactic(auto, unfolding(crate::specs::Messages::header_at))]
fn read_header(text: &[u8]) -> Result<(Header, &[u8]), Fault>
    ensures { Gives (λ r. (r.0, words_of r.1.now)) result (header_at (words_of text.now)) }
{
    let (rights, rest) = read_rights(text)?;
    let (id, rest) = read_labelled(b"id", Kind::Decimal, rest)?;
    let (complex, rest) = read_flag(b"complex", rest);
    let (further, rest) = read_further(rest)?;
    let (size, rest) = read_optional(b"size", Kind::Decimal, rest)?;
    let (seqno, rest) = read_optional(b"seqno", Kind::Decimal, rest)?;
    let header = Header {
        bits: bits_of(rights, further, complex),
        size,
        remote: rights.remote,
        local: rights.local,
        seqno,
        id,
    };
    Ok((header, rest))
}

/// Returns the bytes of a header with its body.
#[tactic(auto, unfolding(crate::specs::Messages::header_encoding))]
fn message_of(alloc: Global, header: &Header, body: &[u8]) -> Result<Vec<u8>, AllocError>
    ensures { IfOk result (λ message. message.items ≡ header_encoding header.now body.now) }
{
    let mut message = Vec::new(alloc);
    push_word(&mut message, header.bits)?;
    push_word(&mut message, header.size)?;
    push_word(&mut message, header.remote)?;
    push_word(&mut message, header.local)?;
    push_word(&mut message, header.seqno)?;
    push_word(&mut message, header.id)?;
    message.extend_from_slice(body)?;
    Ok(message)
}

/// Reads a message, and returns the text after it.
#[tactic(auto, unfolding(crate::specs::Messages::message_at))]
pub(crate) fn read_message(alloc: Global, text: &[u8]) -> Result<(Vec<u8>, &[u8]), Fault>
    ensures { Gives (λ r. (r.0.items, words_of r.1.now)) result (message_at (words_of text.now)) }
{
    if let Some(rest) = after_label(b"bytes", text) {
        return read_bytes(alloc, rest);
    }
    let (header, rest) = read_header(text)?;
    let (body, rest) = read_body(alloc, rest)?;
    let Ok(message) = message_of(alloc, &header, body.as_slice()) else {
        return Err(Fault::NoMemory);
    };
    Ok((message, rest))
}
