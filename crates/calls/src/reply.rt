ghost use Rattle.std.specs.Prelude.{◌≡◌, ◌≢◌, ◌<◌, ◌^◌, ◌++◌, [], ℕ, List, Some, flat_map, length, IfOk, IfSome, IfNone};
ghost use Rattle.codes.specs.KernReturn.{number_of};
ghost use Rattle.ipc_model.specs.declared.plain_reply.NamedType.{NamedType};
ghost use Rattle.ipc_model.specs.declared.plain_reply.PlainReply.{PlainReply};
ghost use Rattle.ipc_model.specs.declared.plain_reply.PlainReply.TheVariants as reply;
ghost use Rattle.ipc_model.specs.encodings.PlainCalls.{done_encoding, FitsReply};
ghost use Rattle.words.specs.Words.{AreBytes, word};
ghost use Rattle.calls.specs.PlainReplies.{has_results, HasResults, Answers, IsWellFormed};
ghost use Rattle.calls.specs.Rows.{names_encoding};

use crate::reply_rows::{read_members, read_names, read_status};
use crate::word_rows::{one_word, two_words};
use codes::{
    KernReturn, MACH_MSG, MACH_PORT_ALLOCATE, MACH_PORT_EXTRACT_RIGHT,
    MACH_PORT_GET_RECEIVE_STATUS, MACH_PORT_GET_REFS, MACH_PORT_GET_SET_STATUS, MACH_PORT_NAMES,
    MACH_PORT_REQUEST_NOTIFICATION, MACH_PORT_TYPE, NUMBERED, SPACE_CREATE,
};
use ipc_model::{NamedType, PlainReply, RightKind, Sequence};
use std::alloc::{AllocError, Global};
use words::take_word;

/// Decodes the names of a space, after their number.
fn read_name_row(alloc: Global, results: &[u8]) -> Result<Option<Sequence<NamedType>>, AllocError>
    ensures found { IfOk result (λ found. IfSome found (λ names.
        results.now ≡ word (length names) ++ names_encoding names)) }
    ensures fits { IfOk result (λ found. IfSome found (λ names. FitsReply (reply.Names names))) }
    ensures only { (names : List NamedType) → FitsReply (reply.Names names)
        → results.now ≡ word (length names) ++ names_encoding names → IfOk result (λ found. found ≡ Some names) }
{
    let Some((count, rows)) = take_word(results) else {
        return Ok(None);
    };
    let Some(names) = read_names(alloc, rows)? else {
        return Ok(None);
    };
    if names.len() != count as usize {
        return Ok(None);
    }
    Ok(Some(Sequence::new(names)))
}

/// Decodes the members of a set, after their number.
fn read_member_row(alloc: Global, results: &[u8]) -> Result<Option<Sequence<u32>>, AllocError>
    ensures found { IfOk result (λ found. IfSome found (λ members.
        results.now ≡ word (length members) ++ flat_map word members)) }
    ensures fits { IfOk result (λ found. IfSome found (λ members. FitsReply (reply.SetStatus members))) }
    ensures only { (members : List ℕ) → FitsReply (reply.SetStatus members)
        → results.now ≡ word (length members) ++ flat_map word members → IfOk result (λ found. found ≡ Some members) }
{
    let Some((count, rows)) = take_word(results) else {
        return Ok(None);
    };
    let Some(members) = read_members(alloc, rows)? else {
        return Ok(None);
    };
    if members.len() != count as usize {
        return Ok(None);
    }
    Ok(Some(Sequence::new(members)))
}

/// Decodes the results of the call that returns a space's names.
#[tactic(auto, unfolding(ipc_model::specs::encodings::PlainCalls::reply_encoding))]
fn read_name_reply(alloc: Global, results: &[u8]) -> Result<Option<PlainReply>, AllocError>
    ensures found { IfOk result (λ found. IfSome found
        (Answers MACH_PORT_NAMES (done_encoding MACH_PORT_NAMES results.now))) }
    ensures only { (answer : PlainReply) → HasResults MACH_PORT_NAMES results.now answer → 0 < length results.now
        → IfOk result (λ found. found ≡ Some answer) }
{
    let found = read_name_row(alloc, results)?;
    match found {
        Some(names) => Ok(Some(PlainReply::Names { names })),
        None => Ok(None),
    }
}

/// Decodes the results of the call that returns a set's members.
#[tactic(auto, unfolding(ipc_model::specs::encodings::PlainCalls::reply_encoding))]
fn read_member_reply(alloc: Global, results: &[u8]) -> Result<Option<PlainReply>, AllocError>
    ensures found { IfOk result (λ found. IfSome found
        (Answers MACH_PORT_GET_SET_STATUS (done_encoding MACH_PORT_GET_SET_STATUS results.now))) }
    ensures only { (answer : PlainReply) → HasResults MACH_PORT_GET_SET_STATUS results.now answer
        → 0 < length results.now → IfOk result (λ found. found ≡ Some answer) }
{
    let found = read_member_row(alloc, results)?;
    match found {
        Some(members) => Ok(Some(PlainReply::SetStatus { members })),
        None => Ok(None),
    }
}

/// Decodes the results of a call that was done, if they are one word, two words or a port's state.
#[tactic(auto, unfolding(ipc_model::specs::encodings::PlainCalls::reply_encoding))]
fn read_short_results(number: u32, results: &[u8]) -> Option<PlainReply>
    ensures found { IfSome result (Answers number (done_encoding number results.now)) }
    ensures only { (answer : PlainReply) → HasResults number results.now answer → number ≢ MACH_PORT_NAMES
        → number ≢ MACH_PORT_GET_SET_STATUS → 0 < length results.now → result ≡ Some answer }
{
    match number {
        MACH_PORT_TYPE => {
            let bits = one_word(results)?;
            Some(PlainReply::Type { bits })
        }
        MACH_PORT_ALLOCATE => {
            let name = one_word(results)?;
            Some(PlainReply::Allocate { name })
        }
        MACH_PORT_GET_REFS => {
            let count = one_word(results)?;
            Some(PlainReply::References { count })
        }
        MACH_PORT_GET_RECEIVE_STATUS => {
            let status = read_status(results)?;
            Some(PlainReply::ReceiveStatus { status })
        }
        MACH_PORT_REQUEST_NOTIFICATION => {
            let name = one_word(results)?;
            Some(PlainReply::PreviousTarget { name })
        }
        MACH_PORT_EXTRACT_RIGHT => {
            let (name, kind) = two_words(results)?;
            let kind = RightKind::from_number(kind)?;
            Some(PlainReply::Extracted { name, kind })
        }
        SPACE_CREATE => {
            let (space, name) = two_words(results)?;
            Some(PlainReply::SpaceCreated { space, name })
        }
        _ => None,
    }
}

/// Returns true if calls with this number have results when they are done.
fn has_results(number: u32) -> bool
    ensures { result ≡ has_results number }
{
    matches!(
        number,
        MACH_PORT_NAMES
            | MACH_PORT_TYPE
            | MACH_PORT_ALLOCATE
            | MACH_PORT_GET_REFS
            | MACH_PORT_GET_RECEIVE_STATUS
            | MACH_PORT_GET_SET_STATUS
            | MACH_PORT_REQUEST_NOTIFICATION
            | MACH_PORT_EXTRACT_RIGHT
            | SPACE_CREATE
            | MACH_MSG
            | NUMBERED
    )
}

/// Returns the reply to a call that was done, if it has no results.
#[tactic(auto, unfolding(ipc_model::specs::encodings::PlainCalls::reply_encoding))]
fn read_done(number: u32) -> Option<PlainReply>
    ensures found { IfSome result (Answers number (done_encoding number [])) }
    ensures only { (answer : PlainReply) → HasResults number [] answer → IsWellFormed answer → result ≡ Some answer }
{
    if has_results(number) {
        None
    } else {
        Some(PlainReply::Done { number })
    }
}

/// Decodes the results of a call that was done. Its number isn't that of `mach_msg`.
fn read_results(
    alloc: Global,
    number: u32,
    results: &[u8],
) -> Result<Option<PlainReply>, AllocError>
    ensures found { IfOk result (λ found. IfSome found (Answers number (done_encoding number results.now))) }
    ensures only { (answer : PlainReply) → HasResults number results.now answer → IsWellFormed answer
        → IfOk result (λ found. found ≡ Some answer) }
{
    if results.is_empty() {
        return Ok(read_done(number));
    }
    match number {
        MACH_PORT_NAMES => read_name_reply(alloc, results),
        MACH_PORT_GET_SET_STATUS => read_member_reply(alloc, results),
        _ => Ok(read_short_results(number, results)),
    }
}

/// Returns the reply to a call that was refused. Its number isn't that of `mach_msg`.
#[tactic(auto, unfolding(ipc_model::specs::encodings::PlainCalls::reply_encoding))]
fn read_refusal(number: u32, code: KernReturn, results: &[u8]) -> Option<PlainReply>
    requires number { number ≢ MACH_MSG }
    requires code { code ≢ KernReturn.Success }
    ensures found { IfSome result (Answers number (word number ++ (word (number_of code) ++ results.now))) }
    ensures only { (answer : PlainReply) → Answers number (word number ++ (word (number_of code) ++ results.now)) answer
        → result ≡ Some answer }
{
    if results.is_empty() {
        return Some(PlainReply::Refused { number, code });
    }
    None
}

/// Splits the results of a `mach_msg`, after its code, into the size, the port's name and the message.
fn take_message(results: &[u8]) -> Option<(u32, u32, &[u8])>
    ensures found { IfSome result (λ r. results.now ≡ word r.0 ++ (word r.1 ++ r.2.now)) }
    ensures fits { IfSome result (λ r. (r.0 < 2 ^ 32) × (r.1 < 2 ^ 32)) }
    ensures none { IfNone result (length results.now < 8) }
{
    let (size, rest) = take_word(results)?;
    let (member, message) = take_word(rest)?;
    Some((size, member, message))
}

/// Copies the bytes of a message.
fn keep(alloc: Global, message: &[u8]) -> Result<Sequence<u8>, AllocError>
    ensures value { IfOk result (λ kept. kept ≡ message.now) }
    ensures bytes { IfOk result (λ kept. AreBytes kept) }
{
    Ok(Sequence::new(Vec::from_slice(alloc, message)?))
}

/// Decodes the reply to a `mach_msg`, after its code.
#[tactic(auto, unfolding(ipc_model::specs::encodings::PlainCalls::reply_encoding))]
fn read_message(
    alloc: Global,
    code: KernReturn,
    results: &[u8],
) -> Result<Option<PlainReply>, AllocError>
    ensures found { IfOk result (λ found. IfSome found
        (Answers MACH_MSG (word MACH_MSG ++ (word (number_of code) ++ results.now)))) }
    ensures only { (answer : PlainReply)
        → Answers MACH_MSG (word MACH_MSG ++ (word (number_of code) ++ results.now)) answer
        → IfOk result (λ found. found ≡ Some answer) }
{
    let Some((size, member, message)) = take_message(results) else {
        return Ok(None);
    };
    let message = keep(alloc, message)?;
    Ok(Some(PlainReply::Message {
        code,
        size,
        member,
        message,
    }))
}

/// Decodes the reply to a call with this number, after its code.
fn read_answer(
    alloc: Global,
    number: u32,
    code: KernReturn,
    results: &[u8],
) -> Result<Option<PlainReply>, AllocError>
    ensures found { IfOk result (λ found. IfSome found
        (Answers number (word number ++ (word (number_of code) ++ results.now)))) }
    ensures only { (answer : PlainReply) → Answers number (word number ++ (word (number_of code) ++ results.now)) answer
        → IfOk result (λ found. found ≡ Some answer) }
{
    if number == MACH_MSG {
        return read_message(alloc, code, results);
    }
    if code == KernReturn::Success {
        return read_results(alloc, number, results);
    }
    Ok(read_refusal(number, code, results))
}

/// Decodes the content of the frame of a reply to a call with this number, or returns `None` if it isn't one. It can
/// run out of memory only for a message, names or members.
pub(crate) fn read_plain_reply(
    alloc: Global,
    number: u32,
    content: &[u8],
) -> Result<Option<PlainReply>, AllocError>
    ensures found { IfOk result (λ found. IfSome found (Answers number content.now)) }
    ensures only { (answer : PlainReply) → Answers number content.now answer
        → IfOk result (λ found. found ≡ Some answer) }
{
    let Some((front, rest)) = take_word(content) else {
        return Ok(None);
    };
    let Some((code, results)) = take_word(rest) else {
        return Ok(None);
    };
    if front != number {
        return Ok(None);
    }
    match KernReturn::from_number(code) {
        Some(code) => read_answer(alloc, number, code, results),
        None => Ok(None),
    }
}
