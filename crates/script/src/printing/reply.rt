ghost use Rattle.std.specs.Prelude.{◌≡◌, ◌++◌, [], ◌∷◌, OnOk, codes};
ghost use Rattle.script.specs.vocabulary.Spaced.{spaced};
ghost use Rattle.script.specs.printing.Calls.{count_word};
ghost use Rattle.script.specs.printing.Replies.{yes_or_no, kind_word, place_words, queue_words, answers_words, status_words, names_words, members_words, outcome_words, message_reply_words, plain_reply_words, reply_words, result_words};

use crate::printing::message::{push_labelled, push_message, push_optional};
use crate::printing::values::push_two;
use crate::vocabulary::{Kind, code_word, push_spaced, push_value};
use codes::KernReturn;
use ipc_model::{NamedType, NumberedReply, PlainReply, ReceiveStatus, Reply, RightKind};
use std::alloc::AllocError;

#[tactic(auto, unfolding(crate::specs::printing::Replies::yes_or_no))]
fn yes_or_no(holds: bool) -> &'static [u8]
    ensures { result.now ≡ yes_or_no holds }
{
    if holds { b"yes" } else { b"no" }
}

fn kind_word(kind: RightKind) -> &'static [u8]
    ensures { result.now ≡ kind_word kind }
{
    match kind {
        RightKind::Receive => b"receive",
        RightKind::Send => b"send",
        RightKind::SendOnce => b"send_once",
    }
}

#[tactic(auto, using(crate::proofs::vocabulary::WordsOf::spaced_laws))]
fn push_answer(line: &mut Vec<u8>, label: &[u8], holds: bool) -> Result<(), AllocError>
    ensures { OnOk result (line.new.items ≡ line.old.items ++ spaced (label.now ∷ yes_or_no holds ∷ [])) }
{
    push_spaced(line, label)?;
    push_spaced(line, yes_or_no(holds))
}

/// Appends a port's set, sequence number and make-send count.
#[tactic(auto, using(crate::proofs::vocabulary::WordsOf::spaced_laws))]
fn push_place(line: &mut Vec<u8>, status: &ReceiveStatus) -> Result<(), AllocError>
    ensures { OnOk result (line.new.items ≡ line.old.items ++ spaced (place_words status.now)) }
{
    push_labelled(line, b"set", Kind::Hexadecimal, status.set)?;
    push_labelled(line, b"seqno", Kind::Decimal, status.sequence_number)?;
    push_labelled(line, b"mscount", Kind::Decimal, status.make_send_count)
}

/// Appends the limit and the messages of a port's queue, and the number of send-once rights to the port.
#[tactic(auto, using(crate::proofs::vocabulary::WordsOf::spaced_laws))]
fn push_queue(line: &mut Vec<u8>, status: &ReceiveStatus) -> Result<(), AllocError>
    ensures { OnOk result (line.new.items ≡ line.old.items ++ spaced (queue_words status.now)) }
{
    push_labelled(line, b"qlimit", Kind::Decimal, status.limit)?;
    push_labelled(line, b"messages", Kind::Decimal, status.messages)?;
    push_labelled(line, b"send_once", Kind::Decimal, status.send_once_count)
}

/// Appends the flags of a port's send rights and of its two requests.
#[tactic(auto, using(crate::proofs::vocabulary::WordsOf::spaced_laws))]
fn push_answers(line: &mut Vec<u8>, status: &ReceiveStatus) -> Result<(), AllocError>
    ensures { OnOk result (line.new.items ≡ line.old.items ++ spaced (answers_words status.now)) }
{
    push_answer(line, b"senders", status.has_senders)?;
    push_answer(line, b"port_destroyed", status.has_port_destroyed_request)?;
    push_answer(line, b"no_senders", status.has_no_senders_request)
}

/// Appends the state of a port.
#[tactic(auto, using(crate::proofs::vocabulary::WordsOf::spaced_laws), unfolding(crate::specs::printing::Replies::status_words, crate::specs::printing::Replies::count_words))]
fn push_status(line: &mut Vec<u8>, status: &ReceiveStatus) -> Result<(), AllocError>
    ensures { OnOk result (line.new.items ≡ line.old.items ++ spaced (status_words status.now)) }
{
    push_place(line, status)?;
    push_queue(line, status)?;
    push_answers(line, status)
}

/// Appends names, each with its type.
#[tactic(auto, using(crate::proofs::vocabulary::WordsOf::spaced_laws), unfolding(crate::specs::printing::Replies::names_words))]
fn push_names(line: &mut Vec<u8>, names: &[NamedType]) -> Result<(), AllocError>
    ensures { OnOk result (line.new.items ≡ line.old.items ++ spaced (names_words names.now)) }
{
    let mut rest = names;
    while let Some((named, beyond)) = rest.split_first() {
        push_two(
            line,
            (Kind::Hexadecimal, named.name),
            (Kind::Hexadecimal, named.bits),
        )?;
        rest = beyond;
    }
    Ok(())
}

/// Appends names.
#[tactic(auto, using(crate::proofs::vocabulary::WordsOf::spaced_laws), unfolding(crate::specs::printing::Replies::members_words))]
fn push_members(line: &mut Vec<u8>, members: &[u32]) -> Result<(), AllocError>
    ensures { OnOk result (line.new.items ≡ line.old.items ++ spaced (members_words members.now)) }
{
    let mut rest = members;
    while let Some((member, beyond)) = rest.split_first() {
        push_value(line, Kind::Hexadecimal, *member)?;
        rest = beyond;
    }
    Ok(())
}

/// Appends the code of a `mach_msg`.
#[tactic(auto, using(crate::proofs::vocabulary::WordsOf::spaced_laws), unfolding(crate::specs::printing::Replies::outcome_words))]
fn push_outcome(line: &mut Vec<u8>, code: KernReturn, silent: bool) -> Result<(), AllocError>
    ensures { OnOk result (line.new.items ≡ line.old.items ++ spaced (outcome_words code silent)) }
{
    if code != KernReturn::Success {
        push_spaced(line, b"!")?;
        return push_spaced(line, code_word(code));
    }
    if silent {
        Ok(())
    } else {
        push_spaced(line, b"=")
    }
}

/// Appends the reply to a `mach_msg`.
#[tactic(auto, using(crate::proofs::vocabulary::WordsOf::spaced_laws), unfolding(crate::specs::printing::Replies::message_reply_words, crate::specs::printing::Replies::received_words))]
fn push_message_reply(
    line: &mut Vec<u8>,
    code: KernReturn,
    size: u32,
    member: u32,
    message: &[u8],
) -> Result<(), AllocError>
    ensures { OnOk result (line.new.items ≡ line.old.items
        ++ spaced (message_reply_words code size member message.now)) }
{
    push_outcome(line, code, size == 0 && member == 0 && message.is_empty())?;
    push_optional(line, b"size", Kind::Decimal, size)?;
    push_optional(line, b"member", Kind::Hexadecimal, member)?;
    if message.is_empty() {
        return Ok(());
    }
    push_spaced(line, b"message")?;
    push_message(line, message)
}

/// Appends the results of a call that was done.
#[tactic(auto, using(crate::proofs::vocabulary::WordsOf::spaced_laws))]
fn push_results(line: &mut Vec<u8>, reply: &PlainReply) -> Result<(), AllocError>
    ensures { OnOk result (line.new.items ≡ line.old.items ++ spaced (codes "=" ∷ result_words reply.now)) }
{
    push_spaced(line, b"=")?;
    match reply {
        PlainReply::Names { names } => push_names(line, names.as_slice()),
        PlainReply::Type { bits } => push_value(line, Kind::Hexadecimal, *bits),
        PlainReply::Allocate { name } | PlainReply::PreviousTarget { name } => {
            push_value(line, Kind::Hexadecimal, *name)
        }
        PlainReply::References { count } => push_value(line, Kind::Decimal, *count),
        PlainReply::ReceiveStatus { status } => push_status(line, status),
        PlainReply::SetStatus { members } => push_members(line, members.as_slice()),
        PlainReply::Extracted { name, kind } => {
            push_value(line, Kind::Hexadecimal, *name)?;
            push_spaced(line, kind_word(*kind))
        }
        PlainReply::SpaceCreated { space, name } => {
            push_labelled(line, b"space", Kind::Decimal, *space)?;
            push_labelled(line, b"name", Kind::Hexadecimal, *name)
        }
        _ => Ok(()),
    }
}

/// Appends the words of the reply to a call that isn't numbered, each after a space.
#[tactic(auto, using(crate::proofs::vocabulary::WordsOf::spaced_laws))]
fn push_plain_reply_words(line: &mut Vec<u8>, reply: &PlainReply) -> Result<(), AllocError>
    ensures { OnOk result (line.new.items ≡ line.old.items ++ spaced (plain_reply_words reply.now)) }
{
    match reply {
        PlainReply::Refused { code, .. } => {
            push_spaced(line, b"!")?;
            push_spaced(line, code_word(*code))
        }
        PlainReply::Done { .. } => Ok(()),
        PlainReply::Message {
            code,
            size,
            member,
            message,
        } => push_message_reply(line, *code, *size, *member, message.as_slice()),
        _ => push_results(line, reply),
    }
}

/// Appends the words of the reply to a numbered call that was made, each after a space.
#[tactic(auto, using(crate::proofs::vocabulary::WordsOf::spaced_laws))]
fn push_made(line: &mut Vec<u8>, answer: &NumberedReply) -> Result<(), AllocError>
    ensures { OnOk result (line.new.items ≡ line.old.items
        ++ spaced (codes ":" ∷ count_word answer.now.request ∷ plain_reply_words answer.now.reply)) }
{
    push_labelled(line, b":", Kind::Decimal, answer.request)?;
    push_plain_reply_words(line, &answer.reply)
}

/// Appends the words of a reply, each after a space.
pub(crate) fn push_reply_words(line: &mut Vec<u8>, reply: &Reply) -> Result<(), AllocError>
    ensures { OnOk result (line.new.items ≡ line.old.items ++ spaced (reply_words reply.now)) }
{
    match reply {
        Reply::Plain(reply) => push_plain_reply_words(line, reply),
        Reply::Numbered(answer) | Reply::Repeated(answer) => push_made(line, answer),
    }
}
