ghost use Rattle.std.specs.Prelude.{◌≡◌, ◌++◌, OnOk, OnErr, IsSome};
ghost use Rattle.ipc_model.specs.rights.CopyIn.{with_left, notices_of_left};
ghost use Rattle.ipc_model.specs.state.Ipc.{entry_at, is_empty_entry};
ghost use Rattle.ipc_state.specs.Passed.{AreFewReferences};

use effects::Effects;
use ipc_model::Entry;
use ipc_state::{IpcState, request_of};
use std::alloc::AllocError;

/// Returns true if an entry holds nothing, so that its name is removed.
pub fn is_empty(entry: Entry) -> bool
    ensures { result ≡ is_empty_entry entry }
{
    match entry {
        Entry::Port(rights) => !rights.receive && rights.send == 0,
        Entry::Dead { references } => references == 0,
        Entry::SendOnce { .. } | Entry::Set => false,
    }
}

/// Appends the port-deleted notice of a name, if its remaining entry holds nothing. If an allocation fails, nothing
/// changed.
pub fn announce_left(effects: &mut Effects, name: u32, entry: Entry) -> Result<(), AllocError>
    ensures ok { OnOk result (effects.new ≡ effects.old ++ notices_of_left name entry) }
    ensures err { OnErr result (effects.new ≡ effects.old) }
{
    if is_empty(entry) {
        return effects.port_deleted(name, request_of(entry));
    }
    Ok(())
}

/// Replaces the entry of a name, or removes the name if the entry holds nothing. If an allocation fails, the changes
/// must be rolled back.
pub fn set_left(state: &mut IpcState, space: u32, name: u32, entry: Entry) -> Result<(), AllocError>
    requires named { IsSome (entry_at state.old.current space name) }
    requires few { AreFewReferences entry }
    ensures ok { OnOk result (state.new.current ≡ with_left state.old.current space name entry) }
    ensures before { state.new.before ≡ state.old.before }
{
    if is_empty(entry) {
        state.remove_name(space, name)
    } else {
        state.put_name(space, name, entry)
    }
}
