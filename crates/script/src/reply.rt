ghost use Rattle.std.specs.Prelude.{◌≡◌, ◌||◌, ◌==◌};
ghost use Rattle.std.specs.Option.{option_map};
ghost use Rattle.script.specs.vocabulary.Spaced.{words_of};
ghost use Rattle.script.specs.Reading.{Gives, last};
ghost use Rattle.script.specs.Replies.{yes_or_no_at, answer_at, kind_at, counts_at, status_at, named_at, member_at, names_at, members_at, received_at, message_reply_at, extracted_at, space_created_at, last_value, last_status_at, results_at, has_results, silence, refusal_at, plain_reply_at, own_reply_at, made_at, numbered_reply_at, reply_at};

use crate::fault::{Expected, Fault};
use crate::message::read_message;
use crate::values::{after_label, read_labelled, read_optional, read_value};
use crate::vocabulary::{Kind, code_of_word, take_word};
use codes::{
    KernReturn, MACH_MSG, MACH_PORT_ALLOCATE, MACH_PORT_EXTRACT_RIGHT,
    MACH_PORT_GET_RECEIVE_STATUS, MACH_PORT_GET_REFS, MACH_PORT_GET_SET_STATUS, MACH_PORT_NAMES,
    MACH_PORT_REQUEST_NOTIFICATION, MACH_PORT_TYPE, NUMBERED, SPACE_CREATE,
};
use ipc_model::{
    Call, NamedType, NumberedReply, PlainReply, ReceiveStatus, Reply, RightKind, Sequence,
};
use std::alloc::Global;

/// Returns the value, if no word is left.
#[tactic(auto, unfolding(crate::specs::Reading::last))]
fn last<X: Drop>(found: X, text: &[u8]) -> Result<X, Fault>
    ensures { Gives (λ x. x) result (last (found, words_of text.now)) }
{
    match take_word(text) {
        None => Ok(found),
        Some(_) => Err(Fault::expected(Expected::End, text)),
    }
}

#[tactic(auto, unfolding(crate::specs::Replies::yes_or_no_at))]
fn read_yes_or_no(text: &[u8]) -> Result<(bool, &[u8]), Fault>
    ensures { Gives (λ r. (r.0, words_of r.1.now)) result (yes_or_no_at (words_of text.now)) }
{
    if let Some(rest) = after_label(b"yes", text) {
        return Ok((true, rest));
    }
    match after_label(b"no", text) {
        Some(rest) => Ok((false, rest)),
        None => Err(Fault::expected(Expected::YesOrNo, text)),
    }
}

#[tactic(auto, unfolding(crate::specs::Replies::answer_at))]
fn read_answer<'a>(label: &[u8], text: &'a [u8]) -> Result<(bool, &'a [u8]), Fault>
    ensures { Gives (λ r. (r.0, words_of r.1.now)) result (answer_at label.now (words_of text.now)) }
{
    match after_label(label, text) {
        Some(rest) => read_yes_or_no(rest),
        None => Err(Fault::expected(Expected::Label, text)),
    }
}

#[tactic(auto, unfolding(crate::specs::Replies::kind_at))]
fn read_kind(text: &[u8]) -> Result<(RightKind, &[u8]), Fault>
    ensures { Gives (λ r. (r.0, words_of r.1.now)) result (kind_at (words_of text.now)) }
{
    if let Some(rest) = after_label(b"receive", text) {
        return Ok((RightKind::Receive, rest));
    }
    if let Some(rest) = after_label(b"send", text) {
        return Ok((RightKind::Send, rest));
    }
    match after_label(b"send_once", text) {
        Some(rest) => Ok((RightKind::SendOnce, rest)),
        None => Err(Fault::expected(Expected::RightKind, text)),
    }
}

/// Reads the state of a port up to its last three flags.
#[tactic(auto, unfolding(crate::specs::Replies::counts_at))]
fn read_counts(text: &[u8]) -> Result<(ReceiveStatus, &[u8]), Fault>
    ensures { Gives (λ r. (r.0, words_of r.1.now)) result (counts_at (words_of text.now)) }
{
    let (set, rest) = read_labelled(b"set", Kind::Hexadecimal, text)?;
    let (sequence_number, rest) = read_labelled(b"seqno", Kind::Decimal, rest)?;
    let (make_send_count, rest) = read_labelled(b"mscount", Kind::Decimal, rest)?;
    let (limit, rest) = read_labelled(b"qlimit", Kind::Decimal, rest)?;
    let (messages, rest) = read_labelled(b"messages", Kind::Decimal, rest)?;
    let (send_once_count, rest) = read_labelled(b"send_once", Kind::Decimal, rest)?;
    let status = ReceiveStatus {
        set,
        sequence_number,
        make_send_count,
        limit,
        messages,
        send_once_count,
        has_senders: false,
        has_port_destroyed_request: false,
        has_no_senders_request: false,
    };
    Ok((status, rest))
}

#[tactic(auto, unfolding(crate::specs::Replies::status_at))]
fn read_status(text: &[u8]) -> Result<(ReceiveStatus, &[u8]), Fault>
    ensures { Gives (λ r. (r.0, words_of r.1.now)) result (status_at (words_of text.now)) }
{
    let (counts, rest) = read_counts(text)?;
    let (has_senders, rest) = read_answer(b"senders", rest)?;
    let (has_port_destroyed_request, rest) = read_answer(b"port_destroyed", rest)?;
    let (has_no_senders_request, rest) = read_answer(b"no_senders", rest)?;
    let status = ReceiveStatus {
        has_senders,
        has_port_destroyed_request,
        has_no_senders_request,
        ..counts
    };
    Ok((status, rest))
}

/// Reads a name and its type, if a word is left, and returns the text after them.
#[tactic(auto, unfolding(crate::specs::Replies::named_at))]
fn read_named(text: &[u8]) -> Result<Option<(NamedType, &[u8])>, Fault>
    ensures { Gives (λ r. option_map (λ n. (n.0, words_of n.1.now)) r) result (named_at (words_of text.now)) }
{
    if take_word(text).is_none() {
        return Ok(None);
    }
    let (name, rest) = read_value(Kind::Hexadecimal, text)?;
    let (bits, rest) = read_value(Kind::Hexadecimal, rest)?;
    Ok(Some((NamedType { name, bits }, rest)))
}

/// Reads a name, if a word is left, and returns the text after it.
#[tactic(auto, unfolding(crate::specs::Replies::member_at))]
fn read_member(text: &[u8]) -> Result<Option<(u32, &[u8])>, Fault>
    ensures { Gives (λ r. option_map (λ n. (n.0, words_of n.1.now)) r) result (member_at (words_of text.now)) }
{
    if take_word(text).is_none() {
        return Ok(None);
    }
    let (member, rest) = read_value(Kind::Hexadecimal, text)?;
    Ok(Some((member, rest)))
}

/// Reads names with their types up to the end.
fn read_names(alloc: Global, text: &[u8]) -> Result<Sequence<NamedType>, Fault>
    ensures { Gives (λ r. r) result (names_at (words_of text.now)) }
{
    let mut names = Vec::new(alloc);
    let mut rest = text;
    loop {
        let found = read_named(rest)?;
        let Some((named, beyond)) = found else {
            return Ok(Sequence::new(names));
        };
        if names.push(named).is_err() {
            return Err(Fault::NoMemory);
        }
        rest = beyond;
    }
}

/// Reads names up to the end.
fn read_members(alloc: Global, text: &[u8]) -> Result<Sequence<u32>, Fault>
    ensures { Gives (λ r. r) result (members_at (words_of text.now)) }
{
    let mut members = Vec::new(alloc);
    let mut rest = text;
    loop {
        let found = read_member(rest)?;
        let Some((member, beyond)) = found else {
            return Ok(Sequence::new(members));
        };
        if members.push(member).is_err() {
            return Err(Fault::NoMemory);
        }
        rest = beyond;
    }
}

/// Reads the message after its label, or returns no bytes.
#[tactic(auto, unfolding(crate::specs::Replies::received_at))]
fn read_received(alloc: Global, text: &[u8]) -> Result<(Vec<u8>, &[u8]), Fault>
    ensures { Gives (λ r. (r.0.items, words_of r.1.now)) result (received_at (words_of text.now)) }
{
    match after_label(b"message", text) {
        Some(rest) => read_message(alloc, rest),
        None => Ok((Vec::new(alloc), text)),
    }
}

/// Reads the reply to a `mach_msg` with this code.
#[tactic(auto, unfolding(crate::specs::Replies::message_reply_at))]
fn read_message_reply(alloc: Global, code: KernReturn, text: &[u8]) -> Result<PlainReply, Fault>
    ensures { Gives (λ r. r) result (message_reply_at code (words_of text.now)) }
{
    let (size, rest) = read_optional(b"size", Kind::Decimal, text)?;
    let (member, rest) = read_optional(b"member", Kind::Hexadecimal, rest)?;
    let (message, rest) = read_received(alloc, rest)?;
    let message = Sequence::new(message);
    let reply = PlainReply::Message {
        code,
        size,
        member,
        message,
    };
    last(reply, rest)
}

#[tactic(auto, unfolding(crate::specs::Replies::extracted_at))]
fn read_extracted(text: &[u8]) -> Result<PlainReply, Fault>
    ensures { Gives (λ r. r) result (extracted_at (words_of text.now)) }
{
    let (name, rest) = read_value(Kind::Hexadecimal, text)?;
    let (kind, rest) = read_kind(rest)?;
    last(PlainReply::Extracted { name, kind }, rest)
}

#[tactic(auto, unfolding(crate::specs::Replies::space_created_at))]
fn read_space_created(text: &[u8]) -> Result<PlainReply, Fault>
    ensures { Gives (λ r. r) result (space_created_at (words_of text.now)) }
{
    let (space, rest) = read_labelled(b"space", Kind::Decimal, text)?;
    let (name, rest) = read_labelled(b"name", Kind::Hexadecimal, rest)?;
    last(PlainReply::SpaceCreated { space, name }, rest)
}

/// Reads the one number that is left.
#[tactic(auto, unfolding(crate::specs::Replies::last_value))]
fn read_last(kind: Kind, text: &[u8]) -> Result<u32, Fault>
    ensures { Gives (λ r. r) result (last_value kind (words_of text.now)) }
{
    let (number, rest) = read_value(kind, text)?;
    last(number, rest)
}

#[tactic(auto, unfolding(crate::specs::Replies::last_status_at))]
fn read_last_status(text: &[u8]) -> Result<PlainReply, Fault>
    ensures { Gives (λ r. r) result (last_status_at (words_of text.now)) }
{
    let (status, rest) = read_status(text)?;
    last(PlainReply::ReceiveStatus { status }, rest)
}

/// Reads the results of a call with this number.
#[tactic(auto, unfolding(crate::specs::Replies::results_at))]
fn read_results(alloc: Global, number: u32, text: &[u8]) -> Result<PlainReply, Fault>
    ensures { Gives (λ r. r) result (results_at number (words_of text.now)) }
{
    match number {
        MACH_PORT_NAMES => {
            let names = read_names(alloc, text)?;
            Ok(PlainReply::Names { names })
        }
        MACH_PORT_TYPE => {
            let bits = read_last(Kind::Hexadecimal, text)?;
            Ok(PlainReply::Type { bits })
        }
        MACH_PORT_ALLOCATE => {
            let name = read_last(Kind::Hexadecimal, text)?;
            Ok(PlainReply::Allocate { name })
        }
        MACH_PORT_GET_REFS => {
            let count = read_last(Kind::Decimal, text)?;
            Ok(PlainReply::References { count })
        }
        MACH_PORT_GET_RECEIVE_STATUS => read_last_status(text),
        MACH_PORT_GET_SET_STATUS => {
            let members = read_members(alloc, text)?;
            Ok(PlainReply::SetStatus { members })
        }
        MACH_PORT_REQUEST_NOTIFICATION => {
            let name = read_last(Kind::Hexadecimal, text)?;
            Ok(PlainReply::PreviousTarget { name })
        }
        MACH_PORT_EXTRACT_RIGHT => read_extracted(text),
        MACH_MSG => read_message_reply(alloc, KernReturn::Success, text),
        SPACE_CREATE => read_space_created(text),
        _ => Err(Fault::expected(Expected::End, text)),
    }
}

/// Returns true if a call with this number has results or may have some.
fn may_tell(number: u32) -> bool
    ensures { result ≡ (has_results number || number == MACH_MSG) }
{
    matches!(
        number,
        MACH_PORT_NAMES
            | MACH_PORT_TYPE
            | MACH_PORT_ALLOCATE
            | MACH_PORT_GET_REFS
            | MACH_PORT_GET_RECEIVE_STATUS
            | MACH_PORT_GET_SET_STATUS
            | MACH_PORT_REQUEST_NOTIFICATION
            | MACH_PORT_EXTRACT_RIGHT
            | SPACE_CREATE
            | NUMBERED
            | MACH_MSG
    )
}

/// Returns the reply to a call with this number if the line has none.
#[tactic(auto, unfolding(crate::specs::Replies::silence))]
fn read_silence(alloc: Global, number: u32, text: &[u8]) -> Result<PlainReply, Fault>
    ensures { Gives (λ r. r) result (silence number (words_of text.now)) }
{
    match number {
        MACH_PORT_NAMES
        | MACH_PORT_TYPE
        | MACH_PORT_ALLOCATE
        | MACH_PORT_GET_REFS
        | MACH_PORT_GET_RECEIVE_STATUS
        | MACH_PORT_GET_SET_STATUS
        | MACH_PORT_REQUEST_NOTIFICATION
        | MACH_PORT_EXTRACT_RIGHT
        | SPACE_CREATE
        | NUMBERED => Err(Fault::expected(Expected::Results, text)),
        MACH_MSG => Ok(PlainReply::without_message(alloc, KernReturn::Success, 0, 0)),
        _ => Ok(PlainReply::Done { number }),
    }
}

/// Reads the refusal of a call with this number.
#[tactic(auto, unfolding(crate::specs::Replies::refusal_at))]
fn read_refusal(alloc: Global, number: u32, text: &[u8]) -> Result<PlainReply, Fault>
    ensures { Gives (λ r. r) result (refusal_at number (words_of text.now)) }
{
    let Some((word, rest)) = take_word(text) else {
        return Err(Fault::expected(Expected::Code, text));
    };
    let Some(code) = code_of_word(word) else {
        return Err(Fault::expected(Expected::Code, text));
    };
    if number == MACH_MSG {
        return read_message_reply(alloc, code, rest);
    }
    last(PlainReply::Refused { number, code }, rest)
}

/// Reads the reply to a call with this number that isn't numbered, up to the end.
#[tactic(auto, unfolding(crate::specs::Replies::plain_reply_at))]
fn read_plain_reply(alloc: Global, number: u32, text: &[u8]) -> Result<PlainReply, Fault>
    ensures { Gives (λ r. r) result (plain_reply_at number (words_of text.now)) }
{
    let Some((word, rest)) = take_word(text) else {
        return read_silence(alloc, number, text);
    };
    if word == b"=".as_slice() {
        if !may_tell(number) {
            return Err(Fault::expected(Expected::End, text));
        }
        return read_results(alloc, number, rest);
    }
    if word == b"!".as_slice() {
        return read_refusal(alloc, number, rest);
    }
    Err(Fault::expected(Expected::Results, text))
}

/// Reads the reply to a call that isn't numbered, or was refused, as a `Reply`.
#[tactic(auto, unfolding(crate::specs::Replies::own_reply_at))]
fn read_own_reply(alloc: Global, number: u32, text: &[u8]) -> Result<Reply, Fault>
    ensures { Gives (λ r. r) result (own_reply_at number (words_of text.now)) }
{
    let reply = read_plain_reply(alloc, number, text)?;
    Ok(Reply::Plain(reply))
}

/// Reads the request and the reply to the numbered call with this number.
#[tactic(auto, unfolding(crate::specs::Replies::made_at))]
fn read_made(alloc: Global, number: u32, text: &[u8]) -> Result<Reply, Fault>
    ensures { Gives (λ r. r) result (made_at number (words_of text.now)) }
{
    let (request, rest) = read_value(Kind::Decimal, text)?;
    let reply = read_plain_reply(alloc, number, rest)?;
    Ok(Reply::Numbered(NumberedReply { request, reply }))
}

/// Reads the reply of number 22 to a numbered call with this number.
#[tactic(auto, unfolding(crate::specs::Replies::numbered_reply_at))]
fn read_numbered_reply(alloc: Global, number: u32, text: &[u8]) -> Result<Reply, Fault>
    ensures { Gives (λ r. r) result (numbered_reply_at number (words_of text.now)) }
{
    match after_label(b":", text) {
        Some(rest) => read_made(alloc, number, rest),
        None => read_own_reply(alloc, NUMBERED, text),
    }
}

/// Reads the reply to a call, up to the end.
#[tactic(auto, unfolding(crate::specs::Replies::reply_at))]
pub(crate) fn read_reply(alloc: Global, call: &Call, text: &[u8]) -> Result<Reply, Fault>
    ensures { Gives (λ r. r) result (reply_at call.now (words_of text.now)) }
{
    match call {
        Call::Plain(call) => read_own_reply(alloc, call.number(), text),
        Call::Numbered(numbered) => read_numbered_reply(alloc, numbered.call.number(), text),
        Call::Unnumberable => read_own_reply(alloc, NUMBERED, text),
    }
}
