ghost use Rattle.std.specs.Prelude.{◌≡◌, [], OnOk};
ghost use Rattle.ipc_model.specs.calls.Actions.{members_moved};
ghost use Rattle.ipc_model.specs.calls.PlainStep.{Acts};
ghost use Rattle.ipc_model.specs.declared.plain_call.PlainCall.TheVariants as call;
ghost use Rattle.ipc_model.specs.calls.PortCalls.{names_in};

use crate::name_lookup::named;
use crate::references::release_name;
use crate::reply::refused;
use codes::{KernReturn, MACH_PORT_DESTROY};
use effects::Effects;
use ipc_model::{Entry, PlainReply};
use port_set::{member_ports, move_ports};
use rights::IpcState;
use std::alloc::{AllocError, Global};

/// `mach_port_destroy`: removes a name with all its rights.
#[tactic(auto, unfolding(ipc_model::specs::calls::PortCalls::tests_of, ipc_model::specs::calls::Actions::Done))]
pub fn destroy(
    alloc: Global,
    state: &mut IpcState,
    space: u32,
    name: u32,
    effects: &mut Effects,
) -> Result<PlainReply, AllocError>
    requires none { effects.old ≡ [] }
    ensures acts { Acts state.old.current space (call.Destroy name) result state.new.current effects.new }
    ensures before { state.new.before ≡ state.old.before }
{
    let number = MACH_PORT_DESTROY;
    let Some(entry) = named(state, space, name) else {
        return Ok(refused(number, KernReturn::InvalidName));
    };
    release_name(effects, name, entry)?;
    move_members(alloc, state, space, name, None, entry)?;
    state.remove_name(space, name)?;
    Ok(PlainReply::Done { number })
}

/// Moves the members of a set. A removed set leaves its members in none; a renamed one takes them along.
pub fn move_members(
    alloc: Global,
    state: &mut IpcState,
    space: u32,
    name: u32,
    other: Option<u32>,
    entry: Entry,
) -> Result<(), AllocError>
    ensures moved { OnOk result (state.new.current
        ≡ members_moved state.old.current (names_in state.old.current space) name other entry) }
    ensures spaces { OnOk result (state.new.current.spaces ≡ state.old.current.spaces) }
    ensures before { state.new.before ≡ state.old.before }
{
    let Entry::Set = entry else {
        return Ok(());
    };
    let ports = member_ports(alloc, state, space, name)?;
    move_ports(state, ports.as_slice(), other)?;
    Ok(())
}
