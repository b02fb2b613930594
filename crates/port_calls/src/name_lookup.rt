ghost use Rattle.std.specs.Prelude.{◌≡◌, IfSome, IfNone, Some, true, false};
ghost use Rattle.std.specs.FinMap as map;
ghost use Rattle.ipc_model.specs.calls.PortCalls.{is_no_name, names_in};
ghost use Rattle.ipc_model.specs.state.Ipc.{entry_at, is_null_or_dead};
ghost use Rattle.rights.specs.Passed.{AreFewReferences};

use codes::{MACH_PORT_DEAD, MACH_PORT_NULL};
use ipc_model::Entry;
use rights::IpcState;

/// Returns the entry of a name, unless the name is `MACH_PORT_NULL` or `MACH_PORT_DEAD`, or isn't in use.
pub fn named(state: &IpcState, space: u32, name: u32) -> Option<Entry>
    ensures found { IfSome result (λ entry. (is_no_name (names_in state.now.current space) name ≡ false)
        × (map.get (names_in state.now.current space) name ≡ Some entry)) }
    ensures at { IfSome result (λ entry. entry_at state.now.current space name ≡ Some entry) }
    ensures none { IfNone result (is_no_name (names_in state.now.current space) name ≡ true) }
    ensures few { IfSome result AreFewReferences }
{
    if is_null_or_dead(name) {
        return None;
    }
    let Some(entry) = state.entry(space, name) else {
        return None;
    };
    Some(entry)
}

/// Returns true if a name is `MACH_PORT_NULL` or `MACH_PORT_DEAD`.
pub fn is_null_or_dead(name: u32) -> bool
    ensures { result ≡ is_null_or_dead name }
{
    name == MACH_PORT_NULL || name == MACH_PORT_DEAD
}
