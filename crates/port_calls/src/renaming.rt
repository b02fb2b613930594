ghost use Rattle.std.specs.Prelude.{◌≡◌, [], Some, None, OnOk, IsSome};
ghost use Rattle.std.specs.FinMap as map;
ghost use Rattle.ipc_model.specs.calls.Actions.{renamed};
ghost use Rattle.ipc_model.specs.calls.PlainStep.{Acts};
ghost use Rattle.ipc_model.specs.declared.plain_call.PlainCall.TheVariants as call;
ghost use Rattle.ipc_model.specs.calls.PortCalls.{names_in};
ghost use Rattle.ipc_model.specs.state.Ipc.{entry_at};

use crate::name_lookup::{is_null_or_dead, named};
use crate::reply::refused;
use codes::{KernReturn, MACH_PORT_RENAME};
use ipc_model::{Entry, PlainReply};
use port_set::{member_ports, move_ports};
use rights::IpcState;
use std::alloc::{AllocError, Global};

/// `mach_port_rename`: moves the entry of a name to another name. The space must exist. If an allocation fails, the
/// changes must be rolled back.
#[tactic(auto, unfolding(ipc_model::specs::calls::PortCalls::tests_of, ipc_model::specs::calls::Actions::Done))]
pub fn rename(
    alloc: Global,
    state: &mut IpcState,
    space: u32,
    from: u32,
    to: u32,
) -> Result<PlainReply, AllocError>
    requires there { IsSome (map.get state.old.current.spaces space) }
    ensures acts { Acts state.old.current space (call.Rename from to) result state.new.current [] }
    ensures before { state.new.before ≡ state.old.before }
{
    let number = MACH_PORT_RENAME;
    let Some(entry) = named(state, space, from) else {
        return Ok(refused(number, KernReturn::InvalidName));
    };
    if is_null_or_dead(to) {
        return Ok(refused(number, KernReturn::InvalidValue));
    }
    if state.entry(space, to).is_some() {
        return Ok(refused(number, KernReturn::NameExists));
    }
    move_entry(alloc, state, space, from, to, entry)?;
    Ok(PlainReply::Done { number })
}

/// Moves the entry of a name to another name. A set takes its members along. If an allocation fails, the changes must
/// be rolled back.
#[tactic(auto, using(crate::proofs::Moved::names_renamed, crate::proofs::Moved::set_renamed))]
fn move_entry(
    alloc: Global,
    state: &mut IpcState,
    space: u32,
    from: u32,
    to: u32,
    entry: Entry,
) -> Result<(), AllocError>
    requires there { IsSome (map.get state.old.current.spaces space) }
    requires named { map.get (names_in state.old.current space) from ≡ Some entry }
    requires unused { entry_at state.old.current space to ≡ None }
    ensures ok { OnOk result (state.new.current
        ≡ renamed state.old.current space (names_in state.old.current space) from to entry) }
    ensures before { state.new.before ≡ state.old.before }
{
    let Entry::Set = entry else {
        return state.rename(space, from, to);
    };
    let members = member_ports(alloc, state, space, from)?;
    state.rename(space, from, to)?;
    move_ports(state, members.as_slice(), Some(to))?;
    Ok(())
}
