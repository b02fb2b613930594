ghost use Rattle.std.specs.Prelude.{◌≡◌, ◌<◌, ℕ, ◌++◌, List, [], flat_map, Some, None, IfOk, IfErr, OnOk};
ghost use Rattle.std.specs.FinMap as map;
ghost use Rattle.ipc_model.specs.calls.Actions.{IsUnusedSpace, effects_of_name, received_serials, taken_by, with_ports};
ghost use Rattle.ipc_model.specs.rights.CopyOut.{MayArrive, names_after};
ghost use Rattle.ipc_model.specs.declared.plain_call.PlainCall.TheVariants as call;
ghost use Rattle.ipc_model.specs.effects.Effects.{Effect};
ghost use Rattle.ipc_model.specs.calls.PortCalls.{names_in, tests_of};
ghost use Rattle.ipc_model.specs.state.Ipc.{Ipc, with_names};
ghost use Rattle.ipc_model.specs.calls.PlainStep.{Acts, ActsIn};
ghost use Rattle.ipc_model.specs.calls.Tests.{first_failing};
ghost use Rattle.port_calls.specs.Trying.{Tries};
ghost use Rattle.rights.specs.Taking.{Takes};

use crate::name_lookup::named;
use crate::references::release_name;
use crate::reply::refused;
use codes::{
    ATTACH, Disposition, FIRST_SPACE, KernReturn, MAX_SPACES, SPACE_CREATE, SPACE_DESTROY,
};
use effects::Effects;
use ipc_model::{CarriedRight, PlainReply, PortInMessage};
use port_set::{move_ports, received_ports};
use rights::{IpcState, arrival_needed, put_right, take_right};
use std::alloc::{AllocError, Global};

/// Attaches a task to another space, which must exist.
#[tactic(auto, unfolding(ipc_model::specs::calls::PortCalls::tests_of, ipc_model::specs::calls::Actions::Done))]
pub fn attach(state: &IpcState, space: u32, other: u32) -> PlainReply
    ensures { ActsIn state.now.current space (names_in state.now.current space)
        (call.Attach other) result state.now.current [] }
{
    let number = ATTACH;
    if !state.has_space(other) {
        return refused(number, KernReturn::InvalidTask);
    }
    PlainReply::Done { number }
}

/// Creates a space with one name, which holds a right that is copied in from a name of the caller. Space number and
/// name are the preferred ones, each if it may be used, otherwise the least unused ones. If the call is refused or an
/// allocation fails, the changes must be rolled back.
#[tactic(auto, unfolding(ipc_model::specs::calls::Actions::Done))]
pub fn space_create(
    alloc: Global,
    state: &mut IpcState,
    space: u32,
    name: u32,
    disposition: u32,
    wanted: Option<(u32, u32)>,
    effects: &mut Effects,
) -> Result<PlainReply, AllocError>
    requires none { effects.old ≡ [] }
    ensures tries { IfOk result
        (λ reply. Tries state.old.current space
        (call.SpaceCreate name disposition) reply state.new.current effects.new) }
    ensures wanted { IfOk result (λ reply. (number : ℕ) → (child : ℕ) → wanted ≡ Some (number, child) → (new : Ipc)
        → (effects : List Effect)
        → ActsIn state.old.current space (names_in state.old.current space) (call.SpaceCreate name disposition)
        (PlainReply.SpaceCreated number child) new effects → reply ≡ PlainReply.SpaceCreated number child) }
    ensures before { state.new.before ≡ state.old.before }
{
    match take_for_space(state, space, name, disposition, effects)? {
        Err(code) => Ok(refused(SPACE_CREATE, code)),
        Ok(right) => {
            let (space, name) = add_child(alloc, state, right, wanted)?;
            Ok(PlainReply::SpaceCreated { space, name })
        }
    }
}

/// Removes the caller's space with all its names and sets. Space 1 can't be removed. If an allocation fails, the
/// changes must be rolled back.
#[tactic(auto, unfolding(ipc_model::specs::calls::PortCalls::tests_of, ipc_model::specs::calls::Actions::Done))]
pub fn space_destroy(
    alloc: Global,
    state: &mut IpcState,
    space: u32,
    effects: &mut Effects,
) -> Result<PlainReply, AllocError>
    requires none { effects.old ≡ [] }
    ensures acts { Acts state.old.current space call.SpaceDestroy result state.new.current effects.new }
    ensures before { state.new.before ≡ state.old.before }
{
    let number = SPACE_DESTROY;
    if space == FIRST_SPACE {
        return Ok(refused(number, KernReturn::Failure));
    }
    release_names(alloc, state, space, effects)?;
    leave_sets(alloc, state, space)?;
    state.remove_space(space)?;
    Ok(PlainReply::Done { number })
}

/// Removes the ports whose receive rights the names of a space hold from their sets. If an allocation fails, the
/// changes must be rolled back.
fn leave_sets(alloc: Global, state: &mut IpcState, space: u32) -> Result<(), AllocError>
    ensures left { OnOk result (state.new.current
        ≡ with_ports state.old.current (received_serials (names_in state.old.current space))
        (λ port. record port { set = None })) }
    ensures spaces { OnOk result (state.new.current.spaces ≡ state.old.current.spaces) }
    ensures before { state.new.before ≡ state.old.before }
{
    let ports = received_ports(alloc, state, space)?;
    move_ports(state, ports.as_slice(), None)?;
    Ok(())
}

/// Appends the releases of all rights under the names of a space, and their port-deleted notices, in ascending order of
/// names.
fn release_names(
    alloc: Global,
    state: &IpcState,
    space: u32,
    effects: &mut Effects,
) -> Result<(), AllocError>
    ensures { OnOk result (effects.new ≡ effects.old ++ flat_map
        (λ e. effects_of_name e.0 e.1) (map.entries (names_in state.now.current space))) }
{
    let entries = state.entries(alloc, space)?;
    for (name, entry) in entries.as_slice() {
        release_name(effects, *name, *entry)?;
    }
    Ok(())
}

/// Copies in the right for the name of a new space, or returns the code with which the call is refused.
#[tactic(auto, unfolding(ipc_model::specs::calls::PortCalls::tests_of))]
fn take_for_space(
    state: &mut IpcState,
    space: u32,
    name: u32,
    disposition: u32,
    effects: &mut Effects,
) -> Result<Result<CarriedRight, KernReturn>, AllocError>
    requires none { effects.old ≡ [] }
    ensures refused { IfOk result (λ outcome. IfErr outcome
        (λ code. first_failing (tests_of state.old.current space (names_in state.old.current space)
        (call.SpaceCreate name disposition)) ≡ Some code)) }
    ensures passed { IfOk result (λ outcome. IfOk outcome
        (λ right. first_failing (tests_of state.old.current space (names_in state.old.current space)
        (call.SpaceCreate name disposition)) ≡ None)) }
    ensures taken { IfOk result (λ outcome. IfOk outcome
        (λ right. Takes (taken_by state.old.current space name disposition) state.old.current []
        (Some right) state.new.current effects.new)) }
    ensures room { IfOk result (λ outcome. IfOk outcome (λ right. map.len state.new.current.spaces < MAX_SPACES)) }
    ensures before { state.new.before ≡ state.old.before }
{
    let Some(disposition) = Disposition::from_number(disposition) else {
        return Ok(Err(KernReturn::InvalidValue));
    };
    if named(state, space, name).is_none() {
        return Ok(Err(KernReturn::InvalidName));
    }
    let is_full = state.space_count() >= MAX_SPACES;
    let Some(right) = take_right(state, space, name, disposition, effects)? else {
        return Ok(Err(KernReturn::InvalidRight));
    };
    let PortInMessage::Live(_) = right.port else {
        return Ok(Err(KernReturn::InvalidRight));
    };
    if is_full {
        return Ok(Err(KernReturn::ResourceShortage));
    }
    Ok(Ok(right))
}

/// Creates a space with one name, which holds a right. Returns its number and the name: the preferred ones if they may
/// be used, otherwise the least unused ones.
fn add_child(
    alloc: Global,
    state: &mut IpcState,
    right: CarriedRight,
    wanted: Option<(u32, u32)>,
) -> Result<(u32, u32), AllocError>
    requires room { map.len state.old.current.spaces < MAX_SPACES }
    ensures number { IfOk result (λ child. IsUnusedSpace state.old.current child.0) }
    ensures name { IfOk result (λ child. MayArrive map.empty right.kind right.port child.1) }
    ensures state { IfOk result (λ child. state.new.current
        ≡ with_names state.old.current child.0 (names_after map.empty right.kind right.port child.1)) }
    ensures wanted { IfOk result (λ child. (number : ℕ) → (name : ℕ) → wanted ≡ Some (number, name)
        → IsUnusedSpace state.old.current number → MayArrive map.empty right.kind right.port name
        → child ≡ (number, name)) }
    ensures before { state.new.before ≡ state.old.before }
{
    let (wanted_number, wanted_name) = wanted.unzip();
    let number = space_number(state, wanted_number);
    state.add_space(number)?;
    let name = arrival_needed(state, number, right, wanted_name);
    put_right(state, number, right, name)?;
    Ok((number, name))
}

/// Returns the number of a new space: the preferred one if it is unused, otherwise the least unused one.
fn space_number(state: &IpcState, wanted: Option<u32>) -> u32
    requires room { map.len state.now.current.spaces < MAX_SPACES }
    ensures unused { IsUnusedSpace state.now.current result }
    ensures wanted { (number : ℕ) → wanted ≡ Some number → IsUnusedSpace state.now.current number → result ≡ number }
{
    if let Some(number) = wanted {
        if state.is_unused_space(number) {
            return number;
        }
    }
    state.free_space()
}
