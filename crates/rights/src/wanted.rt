ghost use Rattle.std.specs.Prelude.{◌≡◌, ◌≤◌, ◌==◌, [], length};
ghost use Rattle.std.specs.List.{list_any};
ghost use Rattle.ipc_model.specs.rights.CopyOut.{names_needed, wants_name};
ghost use Rattle.ipc_model.specs.calls.PortCalls.{names_in};
ghost use Rattle.rights.specs.Wanting.{named_after, names_port};

use ipc_model::{CarriedRight, PortInMessage, RightKind};
use ipc_state::IpcState;

/// Returns the number of new names for rights that arrive in a space one after another: one for each send-once right to
/// a port, and one for each port without a name there. It allocates nothing.
pub fn names_needed(state: &IpcState, space: u32, rights: &[CarriedRight]) -> usize
    ensures wanted { result ≡ names_needed (names_in state.now.current space) [] rights.now }
    ensures few { result ≤ length rights.now }
{
    let mut wanted = 0;
    for index in 0..rights.len() {
        if wants_name(state, space, &rights[..index], rights[index]) {
            wanted += 1;
        }
    }
    wanted
}

/// Returns true if a right that arrives after others needs a new name.
fn wants_name(state: &IpcState, space: u32, before: &[CarriedRight], right: CarriedRight) -> bool
    ensures { result ≡ wants_name (names_in state.now.current space) (named_after [] before.now) right.kind right.port }
{
    let PortInMessage::Live(port) = right.port else {
        return false;
    };
    if right.kind == RightKind::SendOnce {
        return true;
    }
    state.name_of_port(space, port).is_none() && !gets_name(before, port)
}

/// Returns true if one of these rights gives a port a name.
fn gets_name(rights: &[CarriedRight], port: u64) -> bool
    ensures { result ≡ list_any (λ named. named == port) (named_after [] rights.now) }
{
    for right in rights {
        if is_named_by(*right, port) {
            return true;
        }
    }
    false
}

fn is_named_by(right: CarriedRight, port: u64) -> bool
    ensures { result ≡ names_port port right.kind right.port }
{
    right.kind != RightKind::SendOnce && right.port == PortInMessage::Live(port)
}
