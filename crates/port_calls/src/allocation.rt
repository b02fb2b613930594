ghost use Rattle.std.specs.Prelude.{◌≡◌, ◌&&◌, ◌∷◌, ℕ, List, [], None, Some, IfOk, OnOk, IsSome};
ghost use Rattle.std.specs.FinMap as map;
ghost use Rattle.ipc_model.specs.calls.Actions.{allocated};
ghost use Rattle.ipc_model.specs.declared.plain_call.PlainCall.TheVariants as call;
ghost use Rattle.ipc_model.specs.effects.Effects.{Effect};
ghost use Rattle.ipc_model.specs.calls.PortCalls.{names_are_used_up, is_right, names_in, tests_of};
ghost use Rattle.ipc_model.specs.state.Ipc.{Ipc, IsUnused, ports_are_used_up};
ghost use Rattle.ipc_model.specs.calls.PlainStep.{Acts, ActsIn};
ghost use Rattle.ipc_model.specs.calls.Tests.{first_failing};

use crate::entry::{allocated_entry, is_allocatable};
use crate::name_lookup::is_null_or_dead;
use crate::reply::refused;
use codes::{KernReturn, MACH_PORT_ALLOCATE, MACH_PORT_ALLOCATE_NAME, MAX_NAMES, Right};
use ipc_model::PlainReply;
use rights::IpcState;
use std::alloc::AllocError;

/// `mach_port_allocate`: creates a right under a new name, which is the preferred one if it is unused, otherwise the
/// least unused one from `FIRST_NAME` on. If an allocation fails, the changes must be rolled back.
#[tactic(auto, unfolding(ipc_model::specs::calls::PortCalls::tests_of, ipc_model::specs::calls::Actions::Done))]
pub fn allocate(
    state: &mut IpcState,
    space: u32,
    right: u32,
    wanted: Option<u32>,
) -> Result<PlainReply, AllocError>
    requires there { IsSome (map.get state.old.current.spaces space) }
    requires fresh { map.get state.old.current.ports state.old.current.next ≡ None }
    ensures acts { Acts state.old.current space (call.Allocate right) result state.new.current [] }
    // If a reply with the preferred name is possible, it is the reply.
    ensures wanted { IfOk result (λ reply. (shown : ℕ) → wanted ≡ Some shown → (new : Ipc) → (effects : List Effect)
        → ActsIn state.old.current space (names_in state.old.current space) (call.Allocate right)
        (PlainReply.Allocate shown) new effects → reply ≡ PlainReply.Allocate shown) }
    ensures before { state.new.before ≡ state.old.before }
{
    if let Some(code) = refusal_of_allocate(state, space, right) {
        return Ok(refused(MACH_PORT_ALLOCATE, code));
    }
    let name = chosen_name(state, space, wanted);
    add_right(state, space, right, name)?;
    Ok(PlainReply::Allocate { name })
}

/// Returns the name of a new right: the preferred one if it is unused, otherwise the least unused one.
pub fn chosen_name(state: &IpcState, space: u32, wanted: Option<u32>) -> u32
    ensures unused { IsUnused (names_in state.now.current space) result }
    ensures wanted { (shown : ℕ) → wanted ≡ Some shown → IsUnused (names_in state.now.current space) shown
        → result ≡ shown }
{
    let Some(name) = wanted else {
        return state.free_name(space);
    };
    if state.is_unused(space, name) {
        return name;
    }
    state.free_name(space)
}

/// Returns the code with which an allocation is refused, or `None` if it isn't.
#[tactic(auto, unfolding(ipc_model::specs::calls::PortCalls::tests_of))]
pub fn refusal_of_allocate(state: &IpcState, space: u32, right: u32) -> Option<KernReturn>
    ensures { result ≡ first_failing
        (tests_of state.now.current space (names_in state.now.current space) (call.Allocate right)) }
{
    if !is_allocatable(right) {
        return Some(KernReturn::InvalidValue);
    }
    refusal_for_want(state, space, right)
}

/// Returns the code with which a right is refused for lack of room: the space has the maximum number of names, or no
/// further port can be made.
fn refusal_for_want(state: &IpcState, space: u32, right: u32) -> Option<KernReturn>
    ensures { result ≡ first_failing
        ((names_are_used_up (names_in state.now.current space), KernReturn.NoSpace) ∷
        (is_right right Right.Receive && ports_are_used_up state.now.current, KernReturn.ResourceShortage) ∷ []) }
{
    if state.name_count(space) >= MAX_NAMES {
        return Some(KernReturn::NoSpace);
    }
    if right == Right::Receive.number() && state.is_out_of_ports() {
        return Some(KernReturn::ResourceShortage);
    }
    None
}

/// `mach_port_allocate_name`: creates a right under a name that the task chooses. If an allocation fails, the changes
/// must be rolled back.
#[tactic(auto, unfolding(ipc_model::specs::calls::PortCalls::tests_of, ipc_model::specs::calls::Actions::Done))]
pub fn allocate_name(
    state: &mut IpcState,
    space: u32,
    right: u32,
    name: u32,
) -> Result<PlainReply, AllocError>
    requires there { IsSome (map.get state.old.current.spaces space) }
    requires fresh { map.get state.old.current.ports state.old.current.next ≡ None }
    ensures acts { Acts state.old.current space (call.AllocateName right name) result state.new.current [] }
    ensures before { state.new.before ≡ state.old.before }
{
    let number = MACH_PORT_ALLOCATE_NAME;
    if let Some(code) = refusal_of_name(state, space, right, name) {
        return Ok(refused(number, code));
    }
    add_right(state, space, right, name)?;
    Ok(PlainReply::Done { number })
}

/// Returns the code with which an allocation under a chosen name is refused, or `None` if it isn't.
#[tactic(auto, unfolding(ipc_model::specs::calls::PortCalls::tests_of))]
fn refusal_of_name(state: &IpcState, space: u32, right: u32, name: u32) -> Option<KernReturn>
    ensures { result ≡ first_failing
        (tests_of state.now.current space (names_in state.now.current space) (call.AllocateName right name)) }
{
    if is_null_or_dead(name) {
        return Some(KernReturn::InvalidValue);
    }
    if !is_allocatable(right) {
        return Some(KernReturn::InvalidValue);
    }
    if state.entry(space, name).is_some() {
        return Some(KernReturn::NameExists);
    }
    refusal_for_want(state, space, right)
}

/// Creates a right under an unused name. If an allocation fails, the changes must be rolled back.
pub fn add_right(state: &mut IpcState, space: u32, right: u32, name: u32) -> Result<(), AllocError>
    requires there { IsSome (map.get state.old.current.spaces space) }
    requires fresh { map.get state.old.current.ports state.old.current.next ≡ None }
    requires room { first_failing ((names_are_used_up (names_in state.old.current space), KernReturn.NoSpace) ∷
        (is_right right Right.Receive && ports_are_used_up state.old.current, KernReturn.ResourceShortage) ∷ [])
        ≡ None }
    requires unused { map.get (names_in state.old.current space) name ≡ None }
    ensures ok { OnOk result (state.new.current
        ≡ allocated state.old.current space (names_in state.old.current space) right name) }
    ensures before { state.new.before ≡ state.old.before }
{
    let entry = allocated_entry(state.next_serial(), right);
    state.put_name(space, name, entry)?;
    if right != Right::Receive.number() {
        return Ok(());
    }
    state.add_port()
}
