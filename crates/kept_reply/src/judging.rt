ghost use Rattle.std.specs.Prelude.{true, false, ◌≡◌, ◌⊎◌, ◌↔◌, ◌<◌, ◌^◌, All, IsTrue};
ghost use Rattle.ipc_model.specs.encodings.PlainCalls.{FitsReply};
ghost use Rattle.ipc_model.specs.state.LawfulState.{IsKeptReply};
ghost use Rattle.words.specs.Words.{AreBytes};
ghost use Rattle.kept_reply.specs.Kinds.{is_numbered_without_results, IsOfNumbered, IsReceived, IsSent};

use codes::{
    KernReturn, MACH_PORT_ALLOCATE_NAME, MACH_PORT_DEAD, MACH_PORT_DEALLOCATE, MACH_PORT_DESTROY,
    MACH_PORT_INSERT_RIGHT, MACH_PORT_MOD_REFS, MACH_PORT_MOVE_MEMBER, MACH_PORT_NULL,
    MACH_PORT_RENAME, MACH_PORT_SET_MSCOUNT, MACH_PORT_SET_QLIMIT, MACH_PORT_SET_SEQNO,
};
use ipc_model::{NumberedReply, PlainReply, is_message_size};

// Contracts can't see that the numbers behind a reference are in the ranges of their types. These three functions do
// nothing but prove it.

fn numbers(row: &[u32])
    ensures { All (λ number. number < 2 ^ 32) row.now }
{
    let _ = row;
}

fn bytes(row: &[u8])
    ensures { AreBytes row.now }
{
    let _ = row;
}

fn in_range(reply: &PlainReply)
    ensures { IsOfNumbered reply.now → FitsReply reply.now }
{
    match reply {
        PlainReply::Done { number } => numbers(&[*number]),
        PlainReply::Allocate { name }
        | PlainReply::PreviousTarget { name }
        | PlainReply::Extracted { name, .. } => numbers(&[*name]),
        PlainReply::Message {
            size,
            member,
            message,
            ..
        } => {
            numbers(&[*size, *member]);
            bytes(message.as_slice());
        }
        PlainReply::SpaceCreated { space, name } => numbers(&[*space, *name]),
        // None of these replies is to a call that may be numbered.
        PlainReply::Refused { .. }
        | PlainReply::Names { .. }
        | PlainReply::Type { .. }
        | PlainReply::References { .. }
        | PlainReply::ReceiveStatus { .. }
        | PlainReply::SetStatus { .. } => {}
    }
}

/// Returns true if calls with this number have no results and may be numbered.
fn is_numbered_without_results(number: u32) -> bool
    ensures { result ≡ is_numbered_without_results number }
{
    matches!(
        number,
        MACH_PORT_RENAME
            | MACH_PORT_ALLOCATE_NAME
            | MACH_PORT_DESTROY
            | MACH_PORT_DEALLOCATE
            | MACH_PORT_MOD_REFS
            | MACH_PORT_SET_QLIMIT
            | MACH_PORT_SET_MSCOUNT
            | MACH_PORT_SET_SEQNO
            | MACH_PORT_MOVE_MEMBER
            | MACH_PORT_INSERT_RIGHT
    )
}

/// Returns true if these are the results of a send that was done.
fn is_sent(code: KernReturn, size: u32, member: u32, message: &[u8]) -> bool
    ensures yes { result ≡ true → IsSent code size member message.now }
    ensures no { result ≡ false → IsSent code size member message.now → ⊥ }
{
    code == KernReturn::Success && size == 0 && member == MACH_PORT_NULL && message.is_empty()
}

/// Returns true if these are the results of a receive that took a message.
fn is_received(code: KernReturn, size: u32, member: u32, message: &[u8]) -> bool
    ensures yes { result ≡ true → IsReceived code size member message.now }
    ensures no { result ≡ false → IsReceived code size member message.now → ⊥ }
{
    if !is_message_size(size as usize) || member == MACH_PORT_NULL || member == MACH_PORT_DEAD {
        return false;
    }
    match code {
        KernReturn::Success => message.len() == size as usize,
        KernReturn::RcvTooLarge => message.is_empty(),
        _ => false,
    }
}

/// Returns true if the reply may be in a record of a call that may be numbered.
fn is_of_numbered(reply: &PlainReply) -> bool
    ensures yes { result ≡ true → IsOfNumbered reply.now }
    ensures no { result ≡ false → IsOfNumbered reply.now → ⊥ }
{
    match reply {
        PlainReply::Done { number } => is_numbered_without_results(*number),
        PlainReply::Allocate { .. }
        | PlainReply::PreviousTarget { .. }
        | PlainReply::Extracted { .. }
        | PlainReply::SpaceCreated { .. } => true,
        PlainReply::Message {
            code,
            size,
            member,
            message,
        } => is_of_mach_msg(*code, *size, *member, message.as_slice()),
        _ => false,
    }
}

/// Returns true if these are the results of a send that was done, or of a receive that took a message.
fn is_of_mach_msg(code: KernReturn, size: u32, member: u32, message: &[u8]) -> bool
    ensures yes { result ≡ true
        → IsSent code size member message.now ⊎ IsReceived code size member message.now }
    ensures no { result ≡ false
        → IsSent code size member message.now ⊎ IsReceived code size member message.now → ⊥ }
{
    if is_sent(code, size, member, message) {
        true
    } else {
        is_received(code, size, member, message)
    }
}

/// Returns true if a space may keep this: the request isn't 0, and the reply may be in a record of a call that may be
/// numbered.
pub fn may_be_kept(kept: &NumberedReply) -> bool
    ensures { IsTrue result ↔ IsKeptReply kept.now }
{
    numbers(&[kept.request]);
    in_range(&kept.reply);
    if kept.request == 0 {
        return false;
    }
    is_of_numbered(&kept.reply)
}
