//! Turns a task's bytes into a message that is ready to be queued.
ghost use Rattle.std.specs.Prelude.{◌≡◌, ◌∷◌, ◌&&◌, [], map, not, Ok, IfOk, IfErr, if◌then◌else◌};
ghost use Rattle.std.specs.List.{list_any};
ghost use Rattle.ipc_model.specs.calls.Tests.{and_then, or_refused, unless_failing};
ghost use Rattle.ipc_model.specs.declared.message.RightKind.TheVariants as right_kind;
ghost use Rattle.ipc_model.specs.messages.Items.{as_stored, is_port_item, items_encoding};
ghost use Rattle.ipc_model.specs.messages.Sending as sending;
ghost use Rattle.ipc_model.specs.messages.Sending.{Ready, ready_to_send};
ghost use Rattle.ipc_model.specs.state.Placed.{same_kind};
ghost use Rattle.msg_header.specs.Headers.{parts_by};
ghost use Rattle.sending.specs.Agrees.{Agrees, ReportsRefusal};
ghost use Rattle.sending.specs.Sends.{ReadyIs, of_dispositions};
ghost use Rattle.type_desc.specs.Values.{item_value};

use crate::SendFault;
use crate::full::is_stopped;
use crate::header::{HeaderRights, Named, take_header};
use crate::items::take_body;
use crate::reading::{destination_disposition, read_items, read_message, reply_disposition};
use crate::take::is_null_or_dead;
use codes::{Disposition, KernReturn};
use effects::Effects;
use ipc_model::{CarriedRight, Message, Sequence};
use msg_header::Header;
use rights::IpcState;
use std::alloc::{AllocError, Global};
use type_desc::{Item, has_too_many_ports, push_stored_items};

/// A decoded message: its header, the items of its body if they were decoded, and the body.
#[derive(Clone, Copy)]
pub(crate) struct Read<'a> {
    pub(crate) header: Header,
    pub(crate) items: &'a [Item<'a>],
    pub(crate) body: &'a [u8],
}

/// Returns a body in its queued form: if its items were decoded, ports have their types as received and the value 0.
fn kept_body(
    alloc: Global,
    complex: bool,
    items: &[Item<'_>],
    body: &[u8],
) -> Result<Vec<u8>, AllocError>
    ensures { IfOk result (λ kept. kept.items
        ≡ (if complex then items_encoding (map as_stored (map item_value items.now)) else body.now)) }
{
    let mut kept = Vec::with_capacity(alloc, body.len())?;
    if complex {
        push_stored_items(items, &mut kept)?;
        return Ok(kept);
    }
    kept.extend_from_slice(body)?;
    Ok(kept)
}

/// Returns true if some item holds ports.
fn has_ports(items: &[Item<'_>]) -> bool
    ensures { result ≡ list_any is_port_item (map item_value items.now) }
{
    for item in items {
        if item.is_port() {
            return true;
        }
    }
    false
}

/// Builds a message from the rights that were taken, unless the queue is full.
fn message_of(
    alloc: Global,
    state: &IpcState,
    read: Read<'_>,
    taken: HeaderRights,
    rights: Vec<CarriedRight>,
) -> Result<Message, SendFault>
    ensures { Agrees (unless_failing
        ((
          sending.is_full state.now.current taken.port && not (same_kind taken.kind right_kind.SendOnce),
          KernReturn.SendTimedOut,
        ) ∷ []) (Ok (record {
          destination = taken.kind;
          reply = taken.reply;
          id = read.entry.header.id;
          complex = list_any is_port_item (map item_value read.entry.items.now);
          rights = rights.items;
          body = if read.entry.header.complex then items_encoding
              (map as_stored (map item_value read.entry.items.now)) else read.entry.body.now;
        }))) (λ message found. found ≡ message) result }
{
    if is_stopped(state, taken.port, taken.kind) {
        return Err(SendFault::Refused(KernReturn::SendTimedOut));
    }
    let body = kept_body(alloc, read.header.complex, read.items, read.body)?;
    Ok(Message {
        destination: taken.kind,
        reply: taken.reply,
        id: read.header.id,
        complex: has_ports(read.items),
        rights: Sequence::new(rights),
        body: Sequence::new(body),
    })
}

/// Takes the rights of a header and of a body's items, and builds a message from them.
fn take_all(
    alloc: Global,
    state: &mut IpcState,
    space: u32,
    read: Read<'_>,
    named: Named,
    effects: &mut Effects,
) -> Result<(Message, u64), SendFault>
    ensures ready { Agrees (and_then
        (sending.take_header state.old.current space named.remote named.destination named.local named.reply)
        (λ (taken : sending.TakenHeader).
        and_then (or_refused KernReturn.SendInvalidRight (sending.take_items space
        (map item_value read.entry.items.now) (record { rights = []; state = taken.state; notices = [] })))
        (λ (rights : sending.TakenRights).
        let ready : Ready = sending.ready_message (parts_by read.entry.header read.entry.body.now)
        (map item_value read.entry.items.now) taken rights in
        unless_failing (sending.tests_of_queue ready) (Ok ready))))
        (ReadyIs state.new.current effects.old effects.new) result }
    ensures before { state.new.before ≡ state.old.before }
{
    let taken = take_header(state, space, named, effects)?;
    let rights = take_body(alloc, state, space, read.items, effects)?;
    let message = message_of(alloc, state, read, taken, rights)?;
    Ok((message, taken.port))
}

/// Returns the message of a header, items and a body, unless it holds too many ports or has no destination.
fn ready_of_items(
    alloc: Global,
    state: &mut IpcState,
    space: u32,
    read: Read<'_>,
    destination: Disposition,
    reply: Option<Disposition>,
    effects: &mut Effects,
) -> Result<(Message, u64), SendFault>
    ensures ready { Agrees (sending.ready_of_items state.old.current space
        (parts_by read.entry.header read.entry.body.now) destination reply (map item_value read.entry.items.now))
        (ReadyIs state.new.current effects.old effects.new) result }
    ensures before { state.new.before ≡ state.old.before }
{
    if has_too_many_ports(read.items) {
        return Err(SendFault::Refused(KernReturn::SendNoBuffer));
    }
    if is_null_or_dead(read.header.remote) {
        return Err(SendFault::Refused(KernReturn::SendInvalidDest));
    }
    let named = Named {
        remote: read.header.remote,
        destination,
        local: read.header.local,
        reply,
    };
    take_all(alloc, state, space, read, named, effects)
}

/// Returns the message of a header and a body.
fn ready_by_header(
    alloc: Global,
    state: &mut IpcState,
    space: u32,
    header: Header,
    body: &[u8],
    effects: &mut Effects,
) -> Result<(Message, u64), SendFault>
    ensures ready { Agrees (of_dispositions state.old.current space (parts_by header body.now))
        (ReadyIs state.new.current effects.old effects.new) result }
    ensures before { state.new.before ≡ state.old.before }
{
    let destination = destination_disposition(header.remote_disposition)?;
    let reply = reply_disposition(header.local_disposition, header.local)?;
    let items = read_items(alloc, header.complex, body)?;
    let read = Read {
        header,
        items: items.as_slice(),
        body,
    };
    ready_of_items(alloc, state, space, read, destination, reply, effects)
}

/// Turns a task's bytes into a message that is ready to be queued, and returns it with its port, or the code of the
/// first test that fails. If it is refused or an allocation fails, the changes must be rolled back.
pub(crate) fn ready(
    alloc: Global,
    state: &mut IpcState,
    space: u32,
    message: &[u8],
    effects: &mut Effects,
) -> Result<(Message, u64), SendFault>
    requires none { effects.old ≡ [] }
    ensures ready { IfOk result (λ found. ready_to_send state.old.current space message.now
        ≡ Ok (record { message = found.0; port = found.1; state = state.new.current; notices = effects.new })) }
    ensures refused { IfErr result (λ fault. ReportsRefusal (ready_to_send state.old.current space message.now) fault) }
    ensures before { state.new.before ≡ state.old.before }
{
    let (header, body) = read_message(message)?;
    ready_by_header(alloc, state, space, header, body, effects)
}
