ghost use Rattle.std.specs.Prelude.{◌≡◌, ◌<◌, ◌^◌, All, IsTrue};
ghost use Rattle.ipc_model.specs.calls.PlainStep as plain;
ghost use Rattle.ipc_model.specs.calls.Step.{number_of_call, has_record};
ghost use Rattle.ipc_model.specs.encodings.Encodings.{number_of_reply, FitsCall, FitsReply, HasItsResults};
ghost use Rattle.ipc_model.specs.encodings.PlainCalls as plain_calls;
ghost use Rattle.words.specs.Words.{AreBytes};

use crate::{Call, PlainCall, PlainReply, Reply};

// A clause doesn't see that the numbers behind a reference are in the ranges of their types. These functions do
// nothing but show it.

fn numbers(row: &[u32])
    ensures { All (λ number. number < 2 ^ 32) row.now }
{
    let _ = row;
}

fn bytes(row: &[u8])
    ensures { AreBytes row.now }
{
    let _ = row;
}

/// The arguments of a plain call are in range.
pub fn plain_call_in_range(call: &PlainCall)
    ensures { plain_calls.FitsCall call.now }
{
    match call {
        PlainCall::Attach { space } => numbers(&[*space]),
        PlainCall::Names | PlainCall::SpaceDestroy => {}
        PlainCall::Send { message } => bytes(message.as_slice()),
        PlainCall::Type { name }
        | PlainCall::Destroy { name }
        | PlainCall::Deallocate { name }
        | PlainCall::GetReceiveStatus { name }
        | PlainCall::GetSetStatus { name } => numbers(&[*name]),
        PlainCall::Rename { from, to } => numbers(&[*from, *to]),
        PlainCall::AllocateName { right, name } | PlainCall::GetRefs { name, right } => {
            numbers(&[*name, *right]);
        }
        PlainCall::Allocate { right } => numbers(&[*right]),
        PlainCall::ModRefs { name, right, delta } => numbers(&[*name, *right, *delta]),
        PlainCall::SetQlimit { name, limit } | PlainCall::Receive { limit, name, .. } => {
            numbers(&[*name, *limit]);
        }
        PlainCall::SetMscount { name, count } => numbers(&[*name, *count]),
        PlainCall::SetSeqno { name, seqno } => numbers(&[*name, *seqno]),
        PlainCall::MoveMember { member, after } => numbers(&[*member, *after]),
        PlainCall::RequestNotification {
            name,
            variant,
            sync,
            notify,
            disposition,
        } => numbers(&[*name, *variant, *sync, *notify, *disposition]),
        PlainCall::InsertRight {
            name,
            right_name,
            disposition,
        } => numbers(&[*name, *right_name, *disposition]),
        PlainCall::ExtractRight { name, disposition }
        | PlainCall::SpaceCreate { name, disposition } => {
            numbers(&[*name, *disposition]);
        }
    }
}

/// The results of a plain call that has a record are in range.
pub fn plain_reply_in_range(call: &PlainCall, reply: &PlainReply)
    ensures { plain_calls.number_of_reply reply.now ≡ plain.number_of_call call.now
        → IsTrue (plain.has_record call.now reply.now) → plain_calls.FitsReply reply.now }
{
    let _ = call;
    match reply {
        // Calls with these answers have no records.
        PlainReply::Refused { .. }
        | PlainReply::Names { .. }
        | PlainReply::Type { .. }
        | PlainReply::References { .. }
        | PlainReply::ReceiveStatus { .. }
        | PlainReply::SetStatus { .. } => {}
        PlainReply::Done { number } => numbers(&[*number]),
        PlainReply::Allocate { name }
        | PlainReply::PreviousTarget { name }
        | PlainReply::Extracted { name, .. } => numbers(&[*name]),
        PlainReply::Message {
            size,
            member,
            message,
            ..
        } => {
            numbers(&[*size, *member]);
            bytes(message.as_slice());
        }
        PlainReply::SpaceCreated { space, name } => numbers(&[*space, *name]),
    }
}

/// The arguments of a call are in range.
pub fn call_in_range(call: &Call)
    ensures { FitsCall call.now }
{
    match call {
        Call::Plain(call) => plain_call_in_range(call),
        Call::Numbered(numbered) => {
            numbers(&[numbered.request]);
            plain_call_in_range(&numbered.call);
        }
        Call::Unnumberable => {}
    }
}

/// The results of a call that has a record are in range.
pub fn reply_in_range(call: &Call, reply: &Reply)
    ensures { number_of_reply reply.now ≡ number_of_call call.now → HasItsResults call.now reply.now
        → IsTrue (has_record call.now reply.now) → FitsReply reply.now }
{
    match (call, reply) {
        (Call::Plain(call), Reply::Plain(reply)) => plain_reply_in_range(call, reply),
        (Call::Numbered(numbered), Reply::Numbered(answer)) => {
            numbers(&[answer.request]);
            plain_reply_in_range(&numbered.call, &answer.reply);
        }
        // Calls with these answers have no records.
        _ => {}
    }
}
