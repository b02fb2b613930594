ghost use Rattle.std.specs.Prelude.{true, false, ◌≡◌, ◌||◌, Some, IsTrue, IfOk, IfSome};
ghost use Rattle.ipc_model.specs.declared.plain_reply.PlainReply.{PlainReply};
ghost use Rattle.ipc_model.specs.calls.PlainStep.{has_destroyed, is_success, succeeded, destroyed_message};
ghost use Rattle.ipc_model.specs.encodings.PlainCalls.{reply_encoding, records_no_results, Brings, HasItsResults, IsOfReceive, IsRecordedReply};

use crate::reply::read_plain_reply;
use codes::{KernReturn, MACH_PORT_DEAD, MACH_PORT_NULL};
use ipc_model::{PlainCall, PlainReply, is_message_size};
use std::alloc::{AllocError, Global};

/// Returns true if the call is a receive that destroys a message that is too large.
fn destroys(call: &PlainCall) -> bool
    ensures { result ≡ has_destroyed call.now KernReturn.RcvTooLarge }
{
    match call {
        PlainCall::Receive { large, .. } => !*large,
        _ => false,
    }
}

/// Returns true if a record of this call has a reply without results. Calls that have no records count as such.
fn records_no_results(call: &PlainCall) -> bool
    ensures { result ≡ records_no_results call.now }
{
    !matches!(
        call,
        PlainCall::Allocate { .. }
            | PlainCall::RequestNotification { .. }
            | PlainCall::ExtractRight { .. }
            | PlainCall::Send { .. }
            | PlainCall::Receive { .. }
            | PlainCall::SpaceCreate { .. }
    )
}

/// Returns true if a receive with this limit may report this about the message that it took: its size, its port's name
/// and, unless the message was destroyed, its bytes.
fn is_of_receive(limit: u32, code: KernReturn, size: u32, member: u32, message: &[u8]) -> bool
    ensures yes { result ≡ true → IsOfReceive limit code size member message.now }
    ensures no { result ≡ false → IsOfReceive limit code size member message.now → ⊥ }
{
    if !is_message_size(size as usize) || member == MACH_PORT_NULL || member == MACH_PORT_DEAD {
        return false;
    }
    if code == KernReturn::Success {
        size <= limit && message.len() == size as usize
    } else {
        limit < size && message.is_empty()
    }
}

/// Returns true if a `mach_msg` may return these results. A send returns none.
fn brings(call: &PlainCall, code: KernReturn, size: u32, member: u32, message: &[u8]) -> bool
    ensures yes { result ≡ true → Brings call.now code size member message.now }
    ensures no { result ≡ false → Brings call.now code size member message.now → ⊥ }
{
    match call {
        PlainCall::Send { .. } => size == 0 && member == MACH_PORT_NULL && message.is_empty(),
        PlainCall::Receive { limit, .. } => is_of_receive(*limit, code, size, member, message),
        _ => false,
    }
}

/// Returns true if a `mach_msg` that returns this code is recorded.
fn has_recorded_code(call: &PlainCall, code: KernReturn) -> bool
    ensures { result ≡ (is_success code || has_destroyed call.now code) }
{
    match code {
        KernReturn::Success => true,
        KernReturn::RcvTooLarge => destroys(call),
        _ => false,
    }
}

/// Returns true if a `mach_msg` with these results is recorded.
fn is_recorded_message(
    call: &PlainCall,
    code: KernReturn,
    size: u32,
    member: u32,
    message: &[u8],
) -> bool
    ensures yes { result ≡ true → Brings call.now code size member message.now × IsTrue (is_success code
        || has_destroyed call.now code) }
    ensures no { result ≡ false → Brings call.now code size member message.now → IsTrue (is_success code
        || has_destroyed call.now code) → ⊥ }
{
    if has_recorded_code(call, code) {
        brings(call, code, size, member, message)
    } else {
        false
    }
}

/// Returns true if a record of this call, which is recorded, can contain this reply.
fn is_recorded_reply(call: &PlainCall, answer: &PlainReply) -> bool
    ensures yes { result ≡ true → HasItsResults call.now answer.now × IsTrue (succeeded answer.now
        || destroyed_message call.now answer.now) }
    ensures no { result ≡ false → HasItsResults call.now answer.now → IsTrue (succeeded answer.now
        || destroyed_message call.now answer.now) → ⊥ }
{
    match answer {
        PlainReply::Refused { .. } => false,
        PlainReply::Done { .. } => records_no_results(call),
        PlainReply::Message {
            code,
            size,
            member,
            message,
        } => is_recorded_message(call, *code, *size, *member, message.as_slice()),
        PlainReply::Names { .. }
        | PlainReply::Type { .. }
        | PlainReply::Allocate { .. }
        | PlainReply::References { .. }
        | PlainReply::ReceiveStatus { .. }
        | PlainReply::SetStatus { .. }
        | PlainReply::PreviousTarget { .. }
        | PlainReply::Extracted { .. }
        | PlainReply::SpaceCreated { .. } => true,
    }
}

/// Decodes the reply in a record of this call, or returns `None` if the bytes aren't one. It can run out of memory only
/// for a received message.
pub(crate) fn read_recorded_plain_reply(
    alloc: Global,
    call: &PlainCall,
    content: &[u8],
) -> Result<Option<PlainReply>, AllocError>
    ensures found { IfOk result (λ found. IfSome found (λ answer.
        (content.now ≡ reply_encoding answer) × IsRecordedReply call.now answer)) }
    ensures only { (answer : PlainReply) → IsRecordedReply call.now answer → content.now ≡ reply_encoding answer
        → IfOk result (λ found. found ≡ Some answer) }
{
    if !call.is_recorded() {
        return Ok(None);
    }
    let found = read_plain_reply(alloc, call.number(), content)?;
    let Some(answer) = found else {
        return Ok(None);
    };
    if is_recorded_reply(call, &answer) {
        Ok(Some(answer))
    } else {
        Ok(None)
    }
}
