ghost use Rattle.std.specs.Prelude.{◌≡◌, ◌+◌, ◌++◌, ◌<◌, ◌≤◌, ◌^◌, OnOk, OnErr, flat_map, length};
ghost use Rattle.std.specs.Vec.{vec_len, vec_capacity};
ghost use Rattle.ipc_model.specs.declared.plain_call.PlainCall.TheVariants as call;
ghost use Rattle.ipc_model.specs.encodings.PlainCalls.{call_encoding, canonical_call, reply_encoding, done_encoding, status_encoding, number_of_bool};
ghost use Rattle.ipc_model.specs.messages.Kept.{canonical_message};
ghost use Rattle.words.specs.Words.{word};
ghost use Rattle.calls.specs.Rows.{names_encoding};

use crate::canonical_message::make_canonical;
use crate::record_options::receive_options;
use crate::word_rows::push_words;
use bitflags::Flags;
use codes::{
    ATTACH, MACH_MSG, MACH_PORT_ALLOCATE, MACH_PORT_ALLOCATE_NAME, MACH_PORT_DEALLOCATE,
    MACH_PORT_DESTROY, MACH_PORT_EXTRACT_RIGHT, MACH_PORT_GET_RECEIVE_STATUS, MACH_PORT_GET_REFS,
    MACH_PORT_GET_SET_STATUS, MACH_PORT_INSERT_RIGHT, MACH_PORT_MOD_REFS, MACH_PORT_MOVE_MEMBER,
    MACH_PORT_NAMES, MACH_PORT_RENAME, MACH_PORT_REQUEST_NOTIFICATION, MACH_PORT_SET_MSCOUNT,
    MACH_PORT_SET_QLIMIT, MACH_PORT_SET_SEQNO, MACH_PORT_TYPE, MessageOptions, SPACE_CREATE,
    SPACE_DESTROY,
};
use ipc_model::{NamedType, PlainCall, PlainReply, ReceiveStatus, RightKind};
use std::alloc::AllocError;

/// Appends two words, as `push_words` does.
fn push_two(out: &mut Vec<u8>, a: u32, b: u32) -> Result<(), AllocError>
    ensures ok { OnOk result (out.new.items ≡ out.old.items ++ (word a ++ word b)) }
    ensures full { OnErr result (vec_capacity out.old < vec_len out.old + length (word a ++ word b)) }
    ensures room { vec_capacity out.old ≤ vec_capacity out.new }
{
    push_words(out, &[a, b])
}

/// Appends three words, as `push_words` does.
fn push_three(out: &mut Vec<u8>, a: u32, b: u32, c: u32) -> Result<(), AllocError>
    ensures ok { OnOk result (out.new.items ≡ out.old.items ++ (word a ++ (word b ++ word c))) }
    ensures full { OnErr result (vec_capacity out.old < vec_len out.old + length (word a ++ (word b ++ word c))) }
    ensures room { vec_capacity out.old ≤ vec_capacity out.new }
{
    push_words(out, &[a, b, c])
}

/// Appends four words, as `push_words` does.
fn push_four(out: &mut Vec<u8>, a: u32, b: u32, c: u32, d: u32) -> Result<(), AllocError>
    ensures ok { OnOk result (out.new.items ≡ out.old.items ++ (word a ++ (word b ++ (word c ++ word d)))) }
    ensures full { OnErr result (vec_capacity out.old < vec_len out.old + length (word a ++ (word b ++ (word c ++ word d)))) }
    ensures room { vec_capacity out.old ≤ vec_capacity out.new }
{
    push_words(out, &[a, b, c, d])
}

/// Appends the number and the arguments of a send.
#[tactic(auto, unfolding(ipc_model::specs::encodings::PlainCalls::call_encoding))]
fn push_send(out: &mut Vec<u8>, message: &[u8]) -> Result<(), AllocError>
    ensures ok { OnOk result (out.new.items ≡ out.old.items ++ call_encoding (call.Send message.now)) }
    ensures full { OnErr result (vec_capacity out.old < vec_len out.old + length (call_encoding (call.Send message.now))) }
    ensures room { vec_capacity out.old ≤ vec_capacity out.new }
{
    push_words(out, &[MACH_MSG, MessageOptions::SEND.bits(), 0, 0, 0])?;
    out.extend_from_slice(message)
}

/// Appends the number and the arguments of a send with a canonical message.
#[tactic(auto, unfolding(ipc_model::specs::encodings::PlainCalls::call_encoding))]
fn push_canonical_send(out: &mut Vec<u8>, message: &[u8]) -> Result<(), AllocError>
    ensures ok { OnOk result (out.new.items ≡ out.old.items ++ call_encoding (call.Send (canonical_message message.now))) }
    ensures full { OnErr result (vec_capacity out.old < vec_len out.old + length (call_encoding (call.Send message.now))) }
    ensures room { vec_capacity out.old ≤ vec_capacity out.new }
{
    push_words(out, &[MACH_MSG, MessageOptions::SEND.bits(), 0, 0, 0])?;
    let at = out.len();
    out.extend_from_slice(message)?;
    make_canonical(out, at);
    Ok(())
}

/// Appends the number and the arguments of a call. If an allocation fails, part of them may have been appended. It
/// allocates nothing if there is room.
#[tactic(auto, unfolding(ipc_model::specs::encodings::PlainCalls::call_encoding))]
pub fn push_plain_call(out: &mut Vec<u8>, call: &PlainCall) -> Result<(), AllocError>
    ensures ok { OnOk result (out.new.items ≡ out.old.items ++ call_encoding call.now) }
    ensures full { OnErr result (vec_capacity out.old < vec_len out.old + length (call_encoding call.now)) }
    ensures room { vec_capacity out.old ≤ vec_capacity out.new }
{
    match call {
        &PlainCall::Attach { space } => push_two(out, ATTACH, space),
        &PlainCall::Names => push_words(out, &[MACH_PORT_NAMES]),
        &PlainCall::Type { name } => push_two(out, MACH_PORT_TYPE, name),
        &PlainCall::Rename { from, to } => push_three(out, MACH_PORT_RENAME, from, to),
        &PlainCall::AllocateName { right, name } => push_three(
            out,
            MACH_PORT_ALLOCATE_NAME,
            right,
            name,
        ),
        &PlainCall::Allocate { right } => push_two(out, MACH_PORT_ALLOCATE, right),
        &PlainCall::Destroy { name } => push_two(out, MACH_PORT_DESTROY, name),
        &PlainCall::Deallocate { name } => push_two(out, MACH_PORT_DEALLOCATE, name),
        &PlainCall::GetRefs { name, right } => push_three(out, MACH_PORT_GET_REFS, name, right),
        &PlainCall::ModRefs { name, right, delta } => push_four(
            out,
            MACH_PORT_MOD_REFS,
            name,
            right,
            delta,
        ),
        &PlainCall::SetQlimit { name, limit } => push_three(out, MACH_PORT_SET_QLIMIT, name, limit),
        &PlainCall::SetMscount { name, count } => push_three(
            out,
            MACH_PORT_SET_MSCOUNT,
            name,
            count,
        ),
        &PlainCall::SetSeqno { name, seqno } => push_three(out, MACH_PORT_SET_SEQNO, name, seqno),
        &PlainCall::GetReceiveStatus { name } => push_two(out, MACH_PORT_GET_RECEIVE_STATUS, name),
        &PlainCall::GetSetStatus { name } => push_two(out, MACH_PORT_GET_SET_STATUS, name),
        &PlainCall::MoveMember { member, after } => push_three(
            out,
            MACH_PORT_MOVE_MEMBER,
            member,
            after,
        ),
        &PlainCall::RequestNotification {
            name,
            variant,
            sync,
            notify,
            disposition,
        } => {
            push_words(
                out,
                &[
                    MACH_PORT_REQUEST_NOTIFICATION,
                    name,
                    variant,
                    sync,
                    notify,
                    disposition,
                ],
            )
        }
        &PlainCall::InsertRight {
            name,
            right_name,
            disposition,
        } => { push_four(out, MACH_PORT_INSERT_RIGHT, name, right_name, disposition) }
        &PlainCall::ExtractRight { name, disposition } => push_three(
            out,
            MACH_PORT_EXTRACT_RIGHT,
            name,
            disposition,
        ),
        PlainCall::Send { message } => { push_send(out, message.as_slice()) }
        &PlainCall::Receive {
            limit,
            large,
            name,
            waited,
        } => {
            push_words(
                out,
                &[
                    MACH_MSG,
                    receive_options(large).bits(),
                    limit,
                    name,
                    bool_number(waited),
                ],
            )
        }
        &PlainCall::SpaceCreate { name, disposition } => push_three(
            out,
            SPACE_CREATE,
            name,
            disposition,
        ),
        &PlainCall::SpaceDestroy => push_words(out, &[SPACE_DESTROY]),
    }
}

/// Appends the canonical encoding of a call. If an allocation fails, part of it may have been appended. It allocates
/// nothing if there is room.
#[tactic(auto, unfolding(ipc_model::specs::encodings::PlainCalls::call_encoding))]
pub(crate) fn push_canonical_plain_call(
    out: &mut Vec<u8>,
    call: &PlainCall,
) -> Result<(), AllocError>
    ensures ok { OnOk result (out.new.items ≡ out.old.items ++ call_encoding (canonical_call call.now)) }
    ensures full { OnErr result (vec_capacity out.old < vec_len out.old + length (call_encoding call.now)) }
    ensures room { vec_capacity out.old ≤ vec_capacity out.new }
{
    let PlainCall::Send { message } = call else {
        return push_plain_call(out, call);
    };
    push_canonical_send(out, message.as_slice())
}

/// Returns 1 for true and 0 for false.
fn bool_number(flag: bool) -> u32
    ensures { result ≡ number_of_bool flag }
{
    flag as u32
}

/// Appends the number of the names, then each name with its type bits.
fn push_names(out: &mut Vec<u8>, names: &[NamedType]) -> Result<(), AllocError>
    requires { length names.now < 2 ^ 32 }
    ensures ok { OnOk result (out.new.items ≡ out.old.items ++ (word (length names.now) ++ names_encoding names.now)) }
    ensures full { OnErr result (vec_capacity out.old < vec_len out.old + length (word (length names.now) ++ names_encoding names.now)) }
    ensures room { vec_capacity out.old ≤ vec_capacity out.new }
{
    push_words(out, &[names.len() as u32])?;
    for named in names {
        push_words(out, &[named.name, named.bits])?;
    }
    Ok(())
}

/// Returns the words of a port's state in a reply.
pub(crate) fn status_words(status: &ReceiveStatus) -> [u32; 9]
    ensures { flat_map word result ≡ status_encoding status.now }
{
    [
        status.set,
        status.sequence_number,
        status.make_send_count,
        status.limit,
        status.messages,
        status.send_once_count,
        bool_number(status.has_senders),
        bool_number(status.has_port_destroyed_request),
        bool_number(status.has_no_senders_request),
    ]
}

/// Appends the reply with a port's state.
fn push_status(out: &mut Vec<u8>, status: &ReceiveStatus) -> Result<(), AllocError>
    ensures ok { OnOk result (out.new.items ≡ out.old.items
        ++ done_encoding MACH_PORT_GET_RECEIVE_STATUS (status_encoding status.now)) }
    ensures full { OnErr result (vec_capacity out.old
        < vec_len out.old + length (done_encoding MACH_PORT_GET_RECEIVE_STATUS (status_encoding status.now))) }
    ensures room { vec_capacity out.old ≤ vec_capacity out.new }
{
    push_words(out, &[MACH_PORT_GET_RECEIVE_STATUS, 0])?;
    push_words(out, &status_words(status))
}

/// Appends the number, the code and the results of a reply. If an allocation fails, part of them may have been
/// appended. It allocates nothing if there is room.
#[tactic(auto, unfolding(ipc_model::specs::encodings::PlainCalls::reply_encoding))]
pub(crate) fn push_plain_reply(out: &mut Vec<u8>, reply: &PlainReply) -> Result<(), AllocError>
    requires { length (reply_encoding reply.now) < 2 ^ 32 }
    ensures ok { OnOk result (out.new.items ≡ out.old.items ++ reply_encoding reply.now) }
    ensures full { OnErr result (vec_capacity out.old < vec_len out.old + length (reply_encoding reply.now)) }
    ensures room { vec_capacity out.old ≤ vec_capacity out.new }
{
    match reply {
        PlainReply::Refused { number, code } => push_two(out, *number, code.number()),
        PlainReply::Done { number } => push_words(out, &[*number, 0]),
        PlainReply::Names { names } => {
            push_two(out, MACH_PORT_NAMES, 0)?;
            push_names(out, names.as_slice())
        }
        PlainReply::Type { bits } => push_three(out, MACH_PORT_TYPE, 0, *bits),
        PlainReply::Allocate { name } => push_three(out, MACH_PORT_ALLOCATE, 0, *name),
        PlainReply::References { count } => push_three(out, MACH_PORT_GET_REFS, 0, *count),
        PlainReply::ReceiveStatus { status } => push_status(out, status),
        PlainReply::SetStatus { members } => {
            let members = members.as_slice();
            push_three(out, MACH_PORT_GET_SET_STATUS, 0, members.len() as u32)?;
            push_words(out, members)
        }
        PlainReply::PreviousTarget { name } => push_three(
            out,
            MACH_PORT_REQUEST_NOTIFICATION,
            0,
            *name,
        ),
        PlainReply::Extracted { name, kind } => push_four(
            out,
            MACH_PORT_EXTRACT_RIGHT,
            0,
            *name,
            kind.number(),
        ),
        PlainReply::Message {
            code,
            size,
            member,
            message,
        } => {
            push_four(out, MACH_MSG, code.number(), *size, *member)?;
            out.extend_from_slice(message.as_slice())
        }
        PlainReply::SpaceCreated { space, name } => push_four(out, SPACE_CREATE, 0, *space, *name),
    }
}
