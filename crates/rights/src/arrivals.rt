//! Rights that arrive in the receiver's space, one after another.
ghost use Rattle.std.specs.Prelude.{◌≡◌, ℕ, ◌+◌, ◌<◌, ◌≤◌, ◌∷◌, [], None, Some, IfOk, OnOk, IsSome, MatchOption};
ghost use Rattle.std.specs.FinMap as map;
ghost use Rattle.codes.specs.declared.limits.TheConstants.{MAX_NAMES};
ghost use Rattle.ipc_model.specs.calls.PortCalls.{names_in};
ghost use Rattle.ipc_model.specs.declared.message.PortInMessage.TheVariants as in_message;
ghost use Rattle.ipc_model.specs.rights.CopyOut.{Arrives, MayArrive, names_after, names_needed};
ghost use Rattle.ipc_model.specs.state.Ipc.{Names, with_names};

use crate::copy_out::{arrival_name, may_arrive, put_right};
use ipc_model::{CarriedRight, PortInMessage};
use ipc_state::IpcState;
use std::alloc::AllocError;

/// Returns the name under which a right arrives: the preferred name if that is possible, otherwise the name of
/// `arrival_name`.
pub fn arrival_needed(state: &IpcState, space: u32, right: CarriedRight, wanted: Option<u32>) -> u32
    ensures may { MayArrive (names_in state.now.current space) right.kind right.port result }
    ensures wanted { (shown : ℕ) → wanted ≡ Some shown
        → MayArrive (names_in state.now.current space) right.kind right.port shown → result ≡ shown }
{
    match wanted {
        Some(name) if may_arrive(state, space, right, name) => name,
        _ => arrival_name(state, space, right),
    }
}

/// Puts an arriving right under a name. `MACH_PORT_NULL` and `MACH_PORT_DEAD` change nothing.
fn put_arrived(
    state: &mut IpcState,
    space: u32,
    right: CarriedRight,
    name: u32,
) -> Result<(), AllocError>
    requires there { IsSome (map.get state.old.current.spaces space) }
    requires room { (serial : ℕ) → right.port ≡ in_message.Live serial
        → map.get (names_in state.old.current space) name ≡ None
        → map.len (names_in state.old.current space) < MAX_NAMES }
    ensures ok { OnOk result (state.new.current
        ≡ with_names state.old.current space
        (names_after (names_in state.old.current space) right.kind right.port name)) }
    ensures before { state.new.before ≡ state.old.before }
{
    match right.port {
        PortInMessage::Live(_) => put_right(state, space, right, name),
        PortInMessage::Null => Ok(()),
        PortInMessage::Dead => Ok(()),
    }
}

/// Puts one right into the space, and returns its name.
fn arrive_one(
    state: &mut IpcState,
    space: u32,
    right: CarriedRight,
    wanted: Option<u32>,
) -> Result<u32, AllocError>
    requires there { IsSome (map.get state.old.current.spaces space) }
    requires room { (name serial : ℕ) → right.port ≡ in_message.Live serial
        → MayArrive (names_in state.old.current space) right.kind right.port name
        → map.get (names_in state.old.current space) name ≡ None
        → map.len (names_in state.old.current space) < MAX_NAMES }
    ensures may { IfOk result (λ name. MayArrive (names_in state.old.current space) right.kind right.port name) }
    ensures ok { IfOk result (λ name. state.new.current
        ≡ with_names state.old.current space
        (names_after (names_in state.old.current space) right.kind right.port name)) }
    ensures wanted { IfOk result (λ name. (shown : ℕ) → wanted ≡ Some shown
        → MayArrive (names_in state.old.current space) right.kind right.port shown → name ≡ shown) }
    ensures before { state.new.before ≡ state.old.before }
{
    let name = arrival_needed(state, space, right, wanted);
    put_arrived(state, space, right, name)?;
    Ok(name)
}

/// Splits off the first preferred name, if there is one.
fn front(wanted: &[u32]) -> (Option<u32>, &[u32])
    ensures { MatchOption result.0 ((wanted.now ≡ []) × (result.1.now ≡ []))
        (λ first. wanted.now ≡ first ∷ result.1.now) }
{
    match wanted.split_first() {
        Some((first, beyond)) => (Some(*first), beyond),
        None => (None, wanted),
    }
}

/// Puts rights into a space, each under its preferred name if that is possible, and appends their names. The space has
/// room for the new names that they need. If an allocation fails, the changes must be rolled back.
pub fn arrive(
    state: &mut IpcState,
    space: u32,
    rights: &[CarriedRight],
    wanted: &[u32],
    given: &mut Vec<u32>,
) -> Result<(), AllocError>
    requires none { given.old.items ≡ [] }
    requires there { IsSome (map.get state.old.current.spaces space) }
    requires room { map.len (names_in state.old.current space) + names_needed (names_in state.old.current space)
        [] rights.now ≤ MAX_NAMES }
    ensures arrives { OnOk result (Arrives (names_in state.old.current space) rights.now given.new.items
        (names_in state.new.current space)) }
    ensures ok { OnOk result (state.new.current
        ≡ with_names state.old.current space (names_in state.new.current space)) }
    ensures wanted { OnOk result ((last : Names) → Arrives (names_in state.old.current space) rights.now wanted.now last
        → given.new.items ≡ wanted.now) }
    ensures before { state.new.before ≡ state.old.before }
{
    let mut rest = rights;
    let mut left = wanted;
    while let Some((right, beyond)) = rest.split_first() {
        let (shown, later) = front(left);
        let name = arrive_one(state, space, *right, shown)?;
        given.push(name)?;
        rest = beyond;
        left = later;
    }
    Ok(())
}
