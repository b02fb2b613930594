ghost use Rattle.std.specs.Prelude.{◌≡◌, Some, true, false, IfOk, OnOk, IfSome, IfNone, IsSome};
ghost use Rattle.ipc_model.specs.rights.CopyIn.{copy_in, taken_of_port, taken_of_send_once, taken_of_dead, moved_port};
ghost use Rattle.ipc_model.specs.state.Ipc.{entry_at, with_port, next_count};
ghost use Rattle.ipc_state.specs.Passed.{AreFewReferences};
ghost use Rattle.rights.specs.Taking.{Takes};

use crate::left::{announce_left, set_left};
use codes::Disposition;
use effects::Effects;
use ipc_model::{CarriedRight, Entry, PortInMessage, PortRights, RightKind};
use ipc_state::{IpcState, PortNumbers};
use std::alloc::AllocError;

/// Copy in: takes a right from a name of a space by a disposition. If that is refused, nothing changed. If the name is
/// removed, its port-deleted notice is appended to the effects. If an allocation fails, the changes must be rolled
/// back.
#[tactic(auto, unfolding(ipc_model::specs::rights::CopyIn::copy_in))]
pub fn take_right(
    state: &mut IpcState,
    space: u32,
    name: u32,
    disposition: Disposition,
    effects: &mut Effects,
) -> Result<Option<CarriedRight>, AllocError>
    ensures taken { IfOk result
        (λ right. Takes (copy_in state.old.current space name disposition) state.old.current effects.old right
        state.new.current effects.new) }
    ensures before { state.new.before ≡ state.old.before }
{
    let Some(entry) = state.entry(space, name) else {
        return Ok(None);
    };
    match entry {
        Entry::Port(rights) => take_from_port(state, space, name, disposition, rights, effects),
        Entry::SendOnce {
            port,
            dead_name_target,
        } => take_send_once(
            state,
            space,
            name,
            disposition,
            port,
            dead_name_target,
            effects,
        ),
        Entry::Set => Ok(None),
        Entry::Dead { references } => take_dead(
            state,
            space,
            name,
            disposition,
            references,
            effects,
        ),
    }
}

fn right_to(kind: RightKind, port: u64) -> CarriedRight
    ensures { result ≡ record { kind = kind; port = PortInMessage.Live port } }
{
    CarriedRight {
        kind,
        port: PortInMessage::Live(port),
    }
}

fn take_from_port(
    state: &mut IpcState,
    space: u32,
    name: u32,
    disposition: Disposition,
    rights: PortRights,
    effects: &mut Effects,
) -> Result<Option<CarriedRight>, AllocError>
    requires named { IsSome (entry_at state.old.current space name) }
    requires few { AreFewReferences (Entry.Port rights) }
    ensures taken { IfOk result
        (λ right. Takes (taken_of_port state.old.current space name disposition rights) state.old.current effects.old
        right state.new.current effects.new) }
    ensures before { state.new.before ≡ state.old.before }
{
    match disposition {
        Disposition::MoveReceive => move_receive(state, space, name, rights, effects),
        Disposition::MoveSend => move_send(state, space, name, rights, effects),
        Disposition::MoveSendOnce => Ok(None),
        Disposition::CopySend => Ok(
            (rights.send != 0).then_some(right_to(RightKind::Send, rights.port)),
        ),
        Disposition::MakeSend => make_send(state, rights),
        Disposition::MakeSendOnce => Ok(
            rights
                .receive
                .then_some(right_to(RightKind::SendOnce, rights.port)),
        ),
    }
}

fn move_receive(
    state: &mut IpcState,
    space: u32,
    name: u32,
    rights: PortRights,
    effects: &mut Effects,
) -> Result<Option<CarriedRight>, AllocError>
    requires named { IsSome (entry_at state.old.current space name) }
    requires few { AreFewReferences (Entry.Port rights) }
    ensures taken { IfOk result
        (λ right. Takes (taken_of_port state.old.current space name Disposition.MoveReceive rights) state.old.current
        effects.old right state.new.current effects.new) }
    ensures before { state.new.before ≡ state.old.before }
{
    if !rights.receive {
        return Ok(None);
    }
    let left = Entry::Port(PortRights {
        receive: false,
        ..rights
    });
    announce_left(effects, name, left)?;
    reset_port(state, rights.port)?;
    set_left(state, space, name, left)?;
    Ok(Some(right_to(RightKind::Receive, rights.port)))
}

/// Removes a moved receive right from its set, and resets its sequence number and make-send count.
fn reset_port(state: &mut IpcState, serial: u64) -> Result<(), AllocError>
    ensures moved { OnOk result (state.new.current ≡ moved_port state.old.current serial) }
    ensures spaces { OnOk result (state.new.current.spaces ≡ state.old.current.spaces) }
    ensures before { state.new.before ≡ state.old.before }
{
    let Some(numbers) = state.numbers(serial) else {
        return Ok(());
    };
    let moved = PortNumbers {
        set: None,
        sequence_number: 0,
        make_send_count: 0,
        ..numbers
    };
    state.set_numbers(serial, moved)
}

fn move_send(
    state: &mut IpcState,
    space: u32,
    name: u32,
    rights: PortRights,
    effects: &mut Effects,
) -> Result<Option<CarriedRight>, AllocError>
    requires named { IsSome (entry_at state.old.current space name) }
    requires few { AreFewReferences (Entry.Port rights) }
    ensures taken { IfOk result
        (λ right. Takes (taken_of_port state.old.current space name Disposition.MoveSend rights) state.old.current
        effects.old right state.new.current effects.new) }
    ensures before { state.new.before ≡ state.old.before }
{
    if rights.send == 0 {
        return Ok(None);
    }
    let left = Entry::Port(PortRights {
        send: rights.send - 1,
        ..rights
    });
    announce_left(effects, name, left)?;
    set_left(state, space, name, left)?;
    Ok(Some(right_to(RightKind::Send, rights.port)))
}

/// Makes a send right from the receive right, and increments the make-send count.
fn make_send(state: &mut IpcState, rights: PortRights) -> Result<Option<CarriedRight>, AllocError>
    ensures none { IfOk result
        (λ made. IfNone made ((rights.receive ≡ false) × (state.new.current ≡ state.old.current))) }
    ensures made { IfOk result (λ made. IfSome made
        (λ right. (rights.receive ≡ true)
        × (right ≡ record { kind = RightKind.Send; port = PortInMessage.Live rights.port })
        × (state.new.current ≡ with_port state.old.current rights.port
        (λ port. record port { make_send_count = next_count port.make_send_count })))) }
    ensures before { state.new.before ≡ state.old.before }
{
    if !rights.receive {
        return Ok(None);
    }
    if let Some(numbers) = state.numbers(rights.port) {
        let make_send_count = numbers.make_send_count.wrapping_add(1);
        state.set_numbers(
            rights.port,
            PortNumbers {
                make_send_count,
                ..numbers
            },
        )?;
    }
    Ok(Some(right_to(RightKind::Send, rights.port)))
}

/// Moves a send-once right, and removes its name.
fn take_send_once(
    state: &mut IpcState,
    space: u32,
    name: u32,
    disposition: Disposition,
    port: u64,
    request: Option<u64>,
    effects: &mut Effects,
) -> Result<Option<CarriedRight>, AllocError>
    ensures taken { IfOk result
        (λ right. Takes (taken_of_send_once state.old.current space name disposition port request) state.old.current
        effects.old right state.new.current effects.new) }
    ensures before { state.new.before ≡ state.old.before }
{
    if disposition != Disposition::MoveSendOnce {
        return Ok(None);
    }
    effects.port_deleted(name, request)?;
    state.remove_name(space, name)?;
    Ok(Some(right_to(RightKind::SendOnce, port)))
}

/// Takes `MACH_PORT_DEAD` from a dead name. A move takes one of its references.
fn take_dead(
    state: &mut IpcState,
    space: u32,
    name: u32,
    disposition: Disposition,
    references: u32,
    effects: &mut Effects,
) -> Result<Option<CarriedRight>, AllocError>
    requires named { IsSome (entry_at state.old.current space name) }
    requires few { AreFewReferences (Entry.Dead references) }
    ensures taken { IfOk result
        (λ right. Takes (taken_of_dead state.old.current space name disposition references) state.old.current
        effects.old right state.new.current effects.new) }
    ensures before { state.new.before ≡ state.old.before }
{
    let kind = match disposition {
        Disposition::CopySend => return Ok(Some(dead_right(RightKind::Send))),
        Disposition::MoveSend => RightKind::Send,
        Disposition::MoveSendOnce => RightKind::SendOnce,
        _ => return Ok(None),
    };
    let left = Entry::Dead {
        references: references.saturating_sub(1),
    };
    announce_left(effects, name, left)?;
    set_left(state, space, name, left)?;
    Ok(Some(dead_right(kind)))
}

fn dead_right(kind: RightKind) -> CarriedRight
    ensures { result ≡ record { kind = kind; port = PortInMessage.Dead } }
{
    CarriedRight {
        kind,
        port: PortInMessage::Dead,
    }
}
