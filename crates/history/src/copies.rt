ghost use Rattle.std.specs.Prelude.{◌≡◌, IfOk};

use ipc_model::{Call, NumberedCall, PlainCall, Record, Reply, Sequence};
use std::alloc::{AllocError, Global};

/// The record of a call of a task of this space with this reply.
pub(crate) fn copy_record(
    alloc: Global,
    space: u32,
    call: &Call,
    reply: &Reply,
) -> Result<Record, AllocError>
    ensures { IfOk result (λ r. r ≡ record { space = space; call = call.now; reply = reply.now }) }
{
    let call = copy_call(alloc, call)?;
    let reply = copy_reply(alloc, reply)?;
    Ok(Record { space, call, reply })
}

fn copy_items<T: Copy>(alloc: Global, items: &Sequence<T>) -> Result<Sequence<T>, AllocError>
    ensures { IfOk result (λ copy. copy ≡ items.now) }
{
    let items = Vec::from_slice(alloc, items.as_slice())?;
    Ok(Sequence::new(items))
}

fn copy_call(alloc: Global, call: &Call) -> Result<Call, AllocError>
    ensures { IfOk result (λ copy. copy ≡ call.now) }
{
    match call {
        Call::Plain(call) => Ok(Call::Plain(copy_plain_call(alloc, call)?)),
        Call::Numbered(numbered) => {
            let call = copy_plain_call(alloc, &numbered.call)?;
            let request = numbered.request;
            Ok(Call::Numbered(NumberedCall { request, call }))
        }
        Call::Unnumberable => Ok(Call::Unnumberable),
    }
}

fn copy_reply(alloc: Global, reply: &Reply) -> Result<Reply, AllocError>
    ensures { IfOk result (λ copy. copy ≡ reply.now) }
{
    match reply {
        Reply::Plain(reply) => Ok(Reply::Plain(reply.copy(alloc)?)),
        Reply::Numbered(answer) => Ok(Reply::Numbered(answer.copy(alloc)?)),
        Reply::Repeated(answer) => Ok(Reply::Repeated(answer.copy(alloc)?)),
    }
}

fn copy_plain_call(alloc: Global, call: &PlainCall) -> Result<PlainCall, AllocError>
    ensures { IfOk result (λ copy. copy ≡ call.now) }
{
    let copy = match call {
        PlainCall::Send { message } => {
            let message = copy_items(alloc, message)?;
            PlainCall::Send { message }
        },
        PlainCall::Attach { space } => PlainCall::Attach { space: *space },
        PlainCall::Names => PlainCall::Names,
        PlainCall::Type { name } => PlainCall::Type { name: *name },
        PlainCall::Rename { from, to } => PlainCall::Rename {
            from: *from,
            to: *to,
        },
        PlainCall::AllocateName { right, name } => PlainCall::AllocateName {
            right: *right,
            name: *name,
        },
        PlainCall::Allocate { right } => PlainCall::Allocate { right: *right },
        PlainCall::Destroy { name } => PlainCall::Destroy { name: *name },
        PlainCall::Deallocate { name } => PlainCall::Deallocate { name: *name },
        PlainCall::GetRefs { name, right } => PlainCall::GetRefs {
            name: *name,
            right: *right,
        },
        PlainCall::ModRefs { name, right, delta } => PlainCall::ModRefs {
            name: *name,
            right: *right,
            delta: *delta,
        },
        PlainCall::SetQlimit { name, limit } => PlainCall::SetQlimit {
            name: *name,
            limit: *limit,
        },
        PlainCall::SetMscount { name, count } => PlainCall::SetMscount {
            name: *name,
            count: *count,
        },
        PlainCall::SetSeqno { name, seqno } => PlainCall::SetSeqno {
            name: *name,
            seqno: *seqno,
        },
        PlainCall::GetReceiveStatus { name } => PlainCall::GetReceiveStatus { name: *name },
        PlainCall::GetSetStatus { name } => PlainCall::GetSetStatus { name: *name },
        PlainCall::MoveMember { member, after } => PlainCall::MoveMember {
            member: *member,
            after: *after,
        },
        PlainCall::RequestNotification {
            name,
            variant,
            sync,
            notify,
            disposition,
        } => PlainCall::RequestNotification {
            name: *name,
            variant: *variant,
            sync: *sync,
            notify: *notify,
            disposition: *disposition,
        },
        PlainCall::InsertRight {
            name,
            right_name,
            disposition,
        } => PlainCall::InsertRight {
            name: *name,
            right_name: *right_name,
            disposition: *disposition,
        },
        PlainCall::ExtractRight { name, disposition } => PlainCall::ExtractRight {
            name: *name,
            disposition: *disposition,
        },
        PlainCall::Receive {
            limit,
            large,
            name,
            waited,
        } => PlainCall::Receive {
            limit: *limit,
            large: *large,
            name: *name,
            waited: *waited,
        },
        PlainCall::SpaceCreate { name, disposition } => PlainCall::SpaceCreate {
            name: *name,
            disposition: *disposition,
        },
        PlainCall::SpaceDestroy => PlainCall::SpaceDestroy,
    };
    Ok(copy)
}
