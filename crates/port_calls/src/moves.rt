ghost use Rattle.std.specs.Prelude.{◌≡◌, []};
ghost use Rattle.ipc_model.specs.declared.plain_call.PlainCall.TheVariants as call;
ghost use Rattle.ipc_model.specs.calls.PlainStep.{Acts};
ghost use Rattle.ipc_model.specs.calls.PortCalls.{is_in_some_set};

use crate::name_lookup::named;
use crate::reply::refused;
use codes::{KernReturn, MACH_PORT_MOVE_MEMBER, MACH_PORT_NULL};
use ipc_model::{Entry, PlainReply};
use port_set::received_port;
use rights::IpcState;
use std::alloc::AllocError;

/// `mach_port_move_member`: moves a port into the set `after`, or out of all sets if `after` is `MACH_PORT_NULL`. If an
/// allocation fails, the changes must be rolled back.
#[tactic(auto, unfolding(ipc_model::specs::calls::PortCalls::tests_of, ipc_model::specs::calls::Actions::Done))]
pub fn move_member(
    state: &mut IpcState,
    space: u32,
    member: u32,
    after: u32,
) -> Result<PlainReply, AllocError>
    ensures acts { Acts state.old.current space (call.MoveMember member after) result state.new.current [] }
    ensures before { state.new.before ≡ state.old.before }
{
    let number = MACH_PORT_MOVE_MEMBER;
    let Some(entry) = named(state, space, member) else {
        return Ok(refused(number, KernReturn::InvalidName));
    };
    if received_port(entry).is_none() {
        return Ok(refused(number, KernReturn::InvalidRight));
    }
    if after == MACH_PORT_NULL {
        if !is_in_some_set(state, entry) {
            return Ok(refused(number, KernReturn::NotInSet));
        }
    } else {
        match named(state, space, after) {
            None => return Ok(refused(number, KernReturn::InvalidName)),
            Some(Entry::Set) => {}
            Some(_) => return Ok(refused(number, KernReturn::InvalidRight)),
        }
    }
    port_set::move_member(state, entry, after)?;
    Ok(PlainReply::Done { number })
}

/// Returns true if the port whose receive right a name holds is a member of a set.
fn is_in_some_set(state: &IpcState, entry: Entry) -> bool
    ensures { result ≡ is_in_some_set state.now.current entry }
{
    let Some(port) = received_port(entry) else {
        return false;
    };
    match state.numbers(port) {
        Some(numbers) => numbers.set.is_some(),
        None => false,
    }
}
