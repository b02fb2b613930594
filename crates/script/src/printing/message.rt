ghost use Rattle.std.specs.Prelude.{◌≡◌, ◌+◌, ◌≤◌, ◌++◌, [], ◌∷◌, length, drop, OnOk, codes};
ghost use Rattle.byteorder.specs.Endian.{little_number};
ghost use Rattle.script.specs.vocabulary.Kinds.{value_word};
ghost use Rattle.script.specs.vocabulary.Spaced.{spaced};
ghost use Rattle.script.specs.printing.Bytes.{bytes_word};
ghost use Rattle.script.specs.printing.Items.{body_words};
ghost use Rattle.script.specs.printing.Messages.{header_of, message_words, header_words, local_words, optional_words, flag_words};

use crate::printing::bytes::push_bytes;
use crate::printing::item::push_body;
use crate::printing::values::push_two;
use crate::vocabulary::{Header, Kind, push_spaced, push_value};
use byteorder::{ByteOrder, LittleEndian};
use codes::HEADER_LENGTH;
use std::alloc::AllocError;

/// Returns the word at offset `front`.
fn word_at(message: &[u8], front: usize) -> u32
    requires { front + 4 ≤ length message.now }
    ensures { result ≡ little_number 4 (drop front message.now) }
{
    LittleEndian::read_u32(&message[front..])
}

/// Returns the header at the front of a message.
fn header_of(message: &[u8]) -> Header
    requires { 24 ≤ length message.now }
    ensures { result ≡ header_of message.now }
{
    Header {
        bits: word_at(message, 0),
        size: word_at(message, 4),
        remote: word_at(message, 8),
        local: word_at(message, 12),
        seqno: word_at(message, 16),
        id: word_at(message, 20),
    }
}

/// Appends the words of a message with a whole header.
#[tactic(auto, using(crate::proofs::vocabulary::WordsOf::spaced_laws))]
fn push_whole(line: &mut Vec<u8>, message: &[u8]) -> Result<(), AllocError>
    requires { 24 ≤ length message.now }
    ensures { OnOk result (line.new.items ≡ line.old.items
        ++ spaced (header_words (header_of message.now) ++ body_words (drop 24 message.now))) }
{
    let header = header_of(message);
    push_header(line, &header)?;
    push_body(line, &message[HEADER_LENGTH..])
}

/// Appends all bytes of a message.
#[tactic(auto, using(crate::proofs::vocabulary::WordsOf::spaced_laws))]
fn push_short(line: &mut Vec<u8>, message: &[u8]) -> Result<(), AllocError>
    ensures { OnOk result (line.new.items ≡ line.old.items ++ spaced (codes "bytes" ∷ bytes_word message.now ∷ [])) }
{
    push_spaced(line, b"bytes")?;
    push_bytes(line, message)
}

/// Appends the words of a message. If an allocation fails, some may have been appended.
#[tactic(auto, unfolding(crate::specs::printing::Messages::message_words))]
pub(crate) fn push_message(line: &mut Vec<u8>, message: &[u8]) -> Result<(), AllocError>
    ensures { OnOk result (line.new.items ≡ line.old.items ++ spaced (message_words message.now)) }
{
    if message.len() < HEADER_LENGTH {
        push_short(line, message)
    } else {
        push_whole(line, message)
    }
}

/// Appends the words of a header.
#[tactic(auto, using(crate::proofs::vocabulary::WordsOf::spaced_laws), unfolding(crate::specs::printing::Messages::header_words))]
fn push_header(line: &mut Vec<u8>, header: &Header) -> Result<(), AllocError>
    ensures { OnOk result (line.new.items ≡ line.old.items ++ spaced (header_words header.now)) }
{
    let bits = header.bits;
    push_value(line, Kind::Disposition, bits % 0x100)?;
    push_value(line, Kind::Hexadecimal, header.remote)?;
    push_local(line, bits / 0x100 % 0x100, header.local)?;
    push_labelled(line, b"id", Kind::Decimal, header.id)?;
    push_flag(line, b"complex", bits >= 0x8000_0000)?;
    push_optional(line, b"bits", Kind::Hexadecimal, bits / 0x1_0000 % 0x8000)?;
    push_optional(line, b"size", Kind::Decimal, header.size)?;
    push_optional(line, b"seqno", Kind::Decimal, header.seqno)
}

#[tactic(auto, using(crate::proofs::vocabulary::WordsOf::spaced_laws), unfolding(crate::specs::printing::Messages::local_words))]
fn push_local(line: &mut Vec<u8>, disposition: u32, name: u32) -> Result<(), AllocError>
    ensures { OnOk result (line.new.items ≡ line.old.items ++ spaced (local_words disposition name)) }
{
    if disposition == 0 && name == 0 {
        return Ok(());
    }
    push_spaced(line, b"local")?;
    push_two(
        line,
        (Kind::Disposition, disposition),
        (Kind::Hexadecimal, name),
    )
}

/// Appends a label and a number.
#[tactic(auto, using(crate::proofs::vocabulary::WordsOf::spaced_laws))]
pub(crate) fn push_labelled(
    line: &mut Vec<u8>,
    label: &[u8],
    kind: Kind,
    number: u32,
) -> Result<(), AllocError>
    ensures { OnOk result (line.new.items ≡ line.old.items ++ spaced (label.now ∷ value_word kind number ∷ [])) }
{
    push_spaced(line, label)?;
    push_value(line, kind, number)
}

/// Appends a label and a number, if the number isn't 0.
#[tactic(auto, using(crate::proofs::vocabulary::WordsOf::spaced_laws), unfolding(crate::specs::printing::Messages::optional_words))]
pub(crate) fn push_optional(
    line: &mut Vec<u8>,
    label: &[u8],
    kind: Kind,
    number: u32,
) -> Result<(), AllocError>
    ensures { OnOk result (line.new.items ≡ line.old.items ++ spaced (optional_words label.now kind number)) }
{
    if number == 0 {
        return Ok(());
    }
    push_labelled(line, label, kind, number)
}

/// Appends a word, if this is true.
#[tactic(auto, using(crate::proofs::vocabulary::WordsOf::spaced_laws), unfolding(crate::specs::printing::Messages::flag_words))]
pub(crate) fn push_flag(line: &mut Vec<u8>, label: &[u8], holds: bool) -> Result<(), AllocError>
    ensures { OnOk result (line.new.items ≡ line.old.items ++ spaced (flag_words label.now holds)) }
{
    if holds {
        push_spaced(line, label)
    } else {
        Ok(())
    }
}
