ghost use Rattle.std.specs.Prelude.{◌≡◌, ◌++◌, ◌∷◌, [], Some, false, OnOk};
ghost use Rattle.std.specs.FinMap as map;
ghost use Rattle.ipc_model.specs.declared.plain_call.PlainCall.TheVariants as call;
ghost use Rattle.ipc_model.specs.calls.PlainStep.{Acts};
ghost use Rattle.ipc_model.specs.rights.CopyIn.{with_left, notices_of_left};
ghost use Rattle.ipc_model.specs.effects.Effects.{release};
ghost use Rattle.ipc_model.specs.calls.PortCalls.{names_in, is_no_name, sum_is_negative, sum_of, falls_by};
ghost use Rattle.ipc_model.specs.state.Ipc.{entry_at};
ghost use Rattle.codes.specs.Right.{number_of};
ghost use Rattle.rights.specs.Passed.{AreFewReferences};

use crate::name_lookup::named;
use crate::references::{release, send_left, send_once_gone};
use crate::removal::move_members;
use crate::reply::refused;
use codes::{KernReturn, MACH_PORT_MOD_REFS, MAX_DEAD_REFERENCES, MAX_SEND_REFERENCES, Right};
use effects::Effects;
use ipc_model::{Entry, PlainReply, PortRights, RightKind};
use rights::{IpcState, announce_left, set_left};
use std::alloc::{AllocError, Global};

/// Minus one, as a delta in two's complement.
const MINUS_ONE: u32 = u32::MAX;

/// `mach_port_mod_refs`: adds a delta in two's complement to the references of a right. If an allocation fails, the
/// changes must be rolled back.
#[tactic(auto, unfolding(ipc_model::specs::calls::PortCalls::tests_of, ipc_model::specs::calls::Actions::Done))]
pub fn mod_refs(
    alloc: Global,
    state: &mut IpcState,
    space: u32,
    name: u32,
    right: u32,
    delta: u32,
    effects: &mut Effects,
) -> Result<PlainReply, AllocError>
    requires none { effects.old ≡ [] }
    ensures acts { Acts state.old.current space (call.ModRefs name right delta) result state.new.current effects.new }
    ensures before { state.new.before ≡ state.old.before }
{
    let Some(wanted) = Right::from_number(right) else {
        return Ok(refused(MACH_PORT_MOD_REFS, KernReturn::InvalidValue));
    };
    let Some(entry) = named(state, space, name) else {
        return Ok(refused(MACH_PORT_MOD_REFS, KernReturn::InvalidName));
    };
    match (wanted, entry) {
        (Right::Send, Entry::Port(rights)) => mod_send(state, space, name, rights, delta, effects),
        (Right::Receive, Entry::Port(rights)) => {
            mod_receive(state, space, name, rights, delta, effects)
        }
        (
            Right::SendOnce,
            Entry::SendOnce {
                port,
                dead_name_target,
            },
        ) => mod_send_once(state, space, name, port, dead_name_target, delta, effects),
        (Right::PortSet, Entry::Set) => mod_set(alloc, state, space, name, delta, effects),
        (Right::DeadName, Entry::Dead { references }) => {
            mod_dead(state, space, name, references, delta, effects)
        }
        _ => Ok(refused(MACH_PORT_MOD_REFS, KernReturn::InvalidRight)),
    }
}

#[tactic(auto, unfolding(ipc_model::specs::calls::PortCalls::tests_of, ipc_model::specs::calls::Actions::Done))]
fn mod_send(
    state: &mut IpcState,
    space: u32,
    name: u32,
    rights: PortRights,
    delta: u32,
    effects: &mut Effects,
) -> Result<PlainReply, AllocError>
    requires none { effects.old ≡ [] }
    requires a_name { is_no_name (names_in state.old.current space) name ≡ false }
    requires found { map.get (names_in state.old.current space) name ≡ Some (Entry.Port rights) }
    requires at { entry_at state.old.current space name ≡ Some (Entry.Port rights) }
    ensures acts { Acts state.old.current space (call.ModRefs name (number_of Right.Send) delta) result
        state.new.current effects.new }
    ensures before { state.new.before ≡ state.old.before }
{
    if rights.send == 0 {
        return Ok(refused(MACH_PORT_MOD_REFS, KernReturn::InvalidRight));
    }
    if sum_is_negative(rights.send, delta) {
        return Ok(refused(MACH_PORT_MOD_REFS, KernReturn::InvalidValue));
    }
    let left = sum_of(rights.send, delta);
    if left > u64::from(MAX_SEND_REFERENCES) {
        return Ok(refused(MACH_PORT_MOD_REFS, KernReturn::UrefsOverflow));
    }
    send_left(state, space, name, rights, left as u32, effects)?;
    Ok(PlainReply::Done {
        number: MACH_PORT_MOD_REFS,
    })
}

#[tactic(auto, unfolding(ipc_model::specs::calls::PortCalls::tests_of, ipc_model::specs::calls::Actions::Done))]
fn mod_receive(
    state: &mut IpcState,
    space: u32,
    name: u32,
    rights: PortRights,
    delta: u32,
    effects: &mut Effects,
) -> Result<PlainReply, AllocError>
    requires none { effects.old ≡ [] }
    requires a_name { is_no_name (names_in state.old.current space) name ≡ false }
    requires found { map.get (names_in state.old.current space) name ≡ Some (Entry.Port rights) }
    requires at { entry_at state.old.current space name ≡ Some (Entry.Port rights) }
    requires few { AreFewReferences (Entry.Port rights) }
    ensures acts { Acts state.old.current space (call.ModRefs name (number_of Right.Receive) delta) result
        state.new.current effects.new }
    ensures before { state.new.before ≡ state.old.before }
{
    if !rights.receive {
        return Ok(refused(MACH_PORT_MOD_REFS, KernReturn::InvalidRight));
    }
    if delta == MINUS_ONE {
        receive_gone(state, space, name, rights, effects)?;
    } else if delta != 0 {
        return Ok(refused(MACH_PORT_MOD_REFS, KernReturn::InvalidValue));
    }
    Ok(PlainReply::Done {
        number: MACH_PORT_MOD_REFS,
    })
}

/// Removes a receive right. Send references under the name remain.
fn receive_gone(
    state: &mut IpcState,
    space: u32,
    name: u32,
    rights: PortRights,
    effects: &mut Effects,
) -> Result<(), AllocError>
    requires at { entry_at state.old.current space name ≡ Some (Entry.Port rights) }
    requires few { AreFewReferences (Entry.Port rights) }
    ensures state { OnOk result (state.new.current
        ≡ with_left state.old.current space name (Entry.Port (record rights { receive = false }))) }
    ensures effects { OnOk result (effects.new ≡ effects.old
        ++ (release RightKind.Receive rights.port ∷ notices_of_left name
        (Entry.Port (record rights { receive = false })))) }
    ensures before { state.new.before ≡ state.old.before }
{
    let left = Entry::Port(PortRights {
        receive: false,
        ..rights
    });
    release(effects, RightKind::Receive, rights.port)?;
    announce_left(effects, name, left)?;
    set_left(state, space, name, left)
}

#[tactic(auto, unfolding(ipc_model::specs::calls::PortCalls::tests_of, ipc_model::specs::calls::Actions::Done))]
fn mod_send_once(
    state: &mut IpcState,
    space: u32,
    name: u32,
    port: u64,
    request: Option<u64>,
    delta: u32,
    effects: &mut Effects,
) -> Result<PlainReply, AllocError>
    requires none { effects.old ≡ [] }
    requires a_name { is_no_name (names_in state.old.current space) name ≡ false }
    requires found { map.get (names_in state.old.current space) name ≡ Some (Entry.SendOnce port request) }
    ensures acts { Acts state.old.current space (call.ModRefs name (number_of Right.SendOnce) delta) result
        state.new.current effects.new }
    ensures before { state.new.before ≡ state.old.before }
{
    if delta == MINUS_ONE {
        send_once_gone(state, space, name, port, request, effects)?;
    } else if delta != 0 {
        return Ok(refused(MACH_PORT_MOD_REFS, KernReturn::InvalidValue));
    }
    Ok(PlainReply::Done {
        number: MACH_PORT_MOD_REFS,
    })
}

#[tactic(auto, unfolding(ipc_model::specs::calls::PortCalls::tests_of, ipc_model::specs::calls::Actions::Done))]
fn mod_dead(
    state: &mut IpcState,
    space: u32,
    name: u32,
    references: u32,
    delta: u32,
    effects: &mut Effects,
) -> Result<PlainReply, AllocError>
    requires none { effects.old ≡ [] }
    requires a_name { is_no_name (names_in state.old.current space) name ≡ false }
    requires found { map.get (names_in state.old.current space) name ≡ Some (Entry.Dead references) }
    requires at { entry_at state.old.current space name ≡ Some (Entry.Dead references) }
    ensures acts { Acts state.old.current space (call.ModRefs name (number_of Right.DeadName) delta) result
        state.new.current effects.new }
    ensures before { state.new.before ≡ state.old.before }
{
    if references == 0 {
        return Ok(refused(MACH_PORT_MOD_REFS, KernReturn::InvalidRight));
    }
    if sum_is_negative(references, delta) {
        return Ok(refused(MACH_PORT_MOD_REFS, KernReturn::InvalidValue));
    }
    let left = sum_of(references, delta);
    if left > u64::from(MAX_DEAD_REFERENCES) {
        return Ok(refused(MACH_PORT_MOD_REFS, KernReturn::UrefsOverflow));
    }
    let _none = &effects;
    set_left(
        state,
        space,
        name,
        Entry::Dead {
            references: left as u32,
        },
    )?;
    Ok(PlainReply::Done {
        number: MACH_PORT_MOD_REFS,
    })
}

#[tactic(auto, unfolding(ipc_model::specs::calls::PortCalls::tests_of, ipc_model::specs::calls::Actions::Done))]
fn mod_set(
    alloc: Global,
    state: &mut IpcState,
    space: u32,
    name: u32,
    delta: u32,
    effects: &mut Effects,
) -> Result<PlainReply, AllocError>
    requires none { effects.old ≡ [] }
    requires a_name { is_no_name (names_in state.old.current space) name ≡ false }
    requires found { map.get (names_in state.old.current space) name ≡ Some Entry.Set }
    requires at { entry_at state.old.current space name ≡ Some Entry.Set }
    ensures acts { Acts state.old.current space (call.ModRefs name (number_of Right.PortSet) delta) result
        state.new.current effects.new }
    ensures before { state.new.before ≡ state.old.before }
{
    let _none = &effects;
    if delta == 0 {
        return Ok(PlainReply::Done {
            number: MACH_PORT_MOD_REFS,
        });
    }
    if delta != MINUS_ONE {
        return Ok(refused(MACH_PORT_MOD_REFS, KernReturn::InvalidValue));
    }
    move_members(alloc, state, space, name, None, Entry::Set)?;
    state.remove_name(space, name)?;
    Ok(PlainReply::Done {
        number: MACH_PORT_MOD_REFS,
    })
}

/// Returns true if the references with this negative delta would be below 0.
fn sum_is_negative(references: u32, delta: u32) -> bool
    ensures { result ≡ sum_is_negative references delta }
{
    delta >= 1 << 31 && u64::from(references) < falls_by(delta)
}

/// Returns the references with this delta, or 0 if they would be below 0.
fn sum_of(references: u32, delta: u32) -> u64
    ensures { result ≡ sum_of references delta }
{
    if delta >= 1 << 31 {
        u64::from(references).saturating_sub(falls_by(delta))
    } else {
        u64::from(references) + u64::from(delta)
    }
}

/// Returns the absolute value of a negative delta.
fn falls_by(delta: u32) -> u64
    ensures { result ≡ falls_by delta }
{
    (1 << 32) - u64::from(delta)
}
