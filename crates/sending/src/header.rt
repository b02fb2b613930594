//! The rights of a message's header: the destination and the reply right.
ghost use Rattle.std.specs.Prelude.{◌≡◌, ◌++◌, Some, true, false};
ghost use Rattle.ipc_model.specs.messages.Sending as sending;
ghost use Rattle.ipc_model.specs.state.Ipc.{is_null_or_dead};
ghost use Rattle.sending.specs.Agrees.{Agrees};

use crate::SendFault;
use crate::take::{live_port, passed, received_kind, take};
use codes::{Disposition, KernReturn};
use effects::Effects;
use ipc_model::{CarriedRight, RightKind};
use rights::IpcState;

/// The names and dispositions of the rights in a message's header.
#[derive(Clone, Copy)]
pub(crate) struct Named {
    pub(crate) remote: u32,
    pub(crate) destination: Disposition,
    pub(crate) local: u32,
    /// `None` if there is no reply right.
    pub(crate) reply: Option<Disposition>,
}

/// The rights that were taken for a header: kind and port of the destination right, and the reply right.
#[derive(Clone, Copy)]
pub(crate) struct HeaderRights {
    pub(crate) kind: RightKind,
    pub(crate) port: u64,
    pub(crate) reply: Option<CarriedRight>,
}

/// Takes the destination right, which must be to a live port.
fn take_destination(
    state: &mut IpcState,
    space: u32,
    name: u32,
    disposition: Disposition,
    effects: &mut Effects,
) -> Result<(RightKind, u64), SendFault>
    ensures taken { Agrees (sending.take_destination state.old.current space name disposition)
        (λ destination found. (found.0 ≡ destination.taken.right.kind) × (found.1 ≡ destination.port)
        × (state.new.current ≡ destination.taken.state)
        × (effects.new ≡ effects.old ++ destination.taken.notices)) result }
    ensures before { state.new.before ≡ state.old.before }
{
    let right = take(
        state,
        space,
        name,
        disposition,
        KernReturn::SendInvalidDest,
        effects,
    )?;
    let port = live_port(right.port)?;
    Ok((right.kind, port))
}

/// Takes the reply right, if the header names one. `MACH_PORT_NULL` and `MACH_PORT_DEAD` are passed on.
fn take_reply(
    state: &mut IpcState,
    space: u32,
    name: u32,
    disposition: Option<Disposition>,
    effects: &mut Effects,
) -> Result<Option<CarriedRight>, SendFault>
    ensures taken { Agrees (sending.take_reply state.old.current space name disposition)
        (λ taken found. (found ≡ taken.reply) × (state.new.current ≡ taken.state)
        × (effects.new ≡ effects.old ++ taken.notices)) result }
    ensures before { state.new.before ≡ state.old.before }
{
    let Some(disposition) = disposition else {
        return Ok(None);
    };
    if let Some(port) = passed(name) {
        let kind = received_kind(disposition);
        return Ok(Some(CarriedRight { kind, port }));
    }
    take_named_reply(state, space, name, disposition, effects)
}

/// Takes the reply right that the header names.
fn take_named_reply(
    state: &mut IpcState,
    space: u32,
    name: u32,
    disposition: Disposition,
    effects: &mut Effects,
) -> Result<Option<CarriedRight>, SendFault>
    requires { is_null_or_dead name ≡ false }
    ensures taken { Agrees (sending.take_reply state.old.current space name (Some disposition))
        (λ taken found. (found ≡ taken.reply) × (state.new.current ≡ taken.state)
        × (effects.new ≡ effects.old ++ taken.notices)) result }
    ensures before { state.new.before ≡ state.old.before }
{
    let right = take(
        state,
        space,
        name,
        disposition,
        KernReturn::SendInvalidReply,
        effects,
    )?;
    Ok(Some(right))
}

/// Returns true if a disposition moves a right, and so consumes a reference of its name.
fn consumes(disposition: Disposition) -> bool
    ensures { result ≡ sending.consumes disposition }
{
    match disposition {
        Disposition::MoveReceive | Disposition::MoveSend | Disposition::MoveSendOnce => true,
        Disposition::CopySend | Disposition::MakeSend | Disposition::MakeSendOnce => false,
    }
}

/// Returns true if the reply right is taken first: the destination moves a right and the reply doesn't.
fn reply_goes_first(destination: Disposition, reply: Option<Disposition>) -> bool
    ensures { result ≡ sending.reply_goes_first destination reply }
{
    match reply {
        Some(reply) => consumes(destination) && !consumes(reply),
        None => false,
    }
}

/// Takes the rights of a header: the destination first, unless it moves a right and the reply doesn't.
pub(crate) fn take_header(
    state: &mut IpcState,
    space: u32,
    named: Named,
    effects: &mut Effects,
) -> Result<HeaderRights, SendFault>
    ensures taken { Agrees (sending.take_header state.old.current space named.remote named.destination named.local
        named.reply)
        (λ header found. (found ≡ record { kind = header.kind; port = header.port; reply = header.reply })
        × (state.new.current ≡ header.state) × (effects.new ≡ effects.old ++ header.notices)) result }
    ensures before { state.new.before ≡ state.old.before }
{
    if reply_goes_first(named.destination, named.reply) {
        take_reply_first(state, space, named, effects)
    } else {
        take_destination_first(state, space, named, effects)
    }
}

fn take_reply_first(
    state: &mut IpcState,
    space: u32,
    named: Named,
    effects: &mut Effects,
) -> Result<HeaderRights, SendFault>
    requires { sending.reply_goes_first named.destination named.reply ≡ true }
    ensures taken { Agrees (sending.take_header state.old.current space named.remote named.destination named.local
        named.reply)
        (λ header found. (found ≡ record { kind = header.kind; port = header.port; reply = header.reply })
        × (state.new.current ≡ header.state) × (effects.new ≡ effects.old ++ header.notices)) result }
    ensures before { state.new.before ≡ state.old.before }
{
    let reply = take_reply(state, space, named.local, named.reply, effects)?;
    let (kind, port) = take_destination(state, space, named.remote, named.destination, effects)?;
    Ok(HeaderRights { kind, port, reply })
}

fn take_destination_first(
    state: &mut IpcState,
    space: u32,
    named: Named,
    effects: &mut Effects,
) -> Result<HeaderRights, SendFault>
    requires { sending.reply_goes_first named.destination named.reply ≡ false }
    ensures taken { Agrees (sending.take_header state.old.current space named.remote named.destination named.local
        named.reply)
        (λ header found. (found ≡ record { kind = header.kind; port = header.port; reply = header.reply })
        × (state.new.current ≡ header.state) × (effects.new ≡ effects.old ++ header.notices)) result }
    ensures before { state.new.before ≡ state.old.before }
{
    let (kind, port) = take_destination(state, space, named.remote, named.destination, effects)?;
    let reply = take_reply(state, space, named.local, named.reply, effects)?;
    Ok(HeaderRights { kind, port, reply })
}
