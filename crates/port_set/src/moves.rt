ghost use Rattle.std.specs.Prelude.{◌≡◌, OnOk};
ghost use Rattle.ipc_model.specs.calls.Actions.{set_named, with_ports, with_received};
ghost use Rattle.ipc_model.specs.state.Ipc.{with_port};

use crate::member::received_port;
use codes::MACH_PORT_NULL;
use ipc_model::Entry;
use ipc_state::{IpcState, PortNumbers};
use std::alloc::AllocError;

/// Moves the port whose receive right a name holds into the set with this name, or out of all sets if the name is
/// `MACH_PORT_NULL` (`mach_port_move_member`). If an allocation fails, the changes must be rolled back.
pub fn move_member(state: &mut IpcState, member: Entry, after: u32) -> Result<(), AllocError>
    ensures ok { OnOk result (state.new.current ≡ with_received state.old.current member
        (λ port. record port { set = set_named after })) }
    ensures before { state.new.before ≡ state.old.before }
{
    let Some(port) = received_port(member) else {
        return Ok(());
    };
    let set = if after == MACH_PORT_NULL {
        None
    } else {
        Some(after)
    };
    move_port(state, port, set)
}

/// Moves a port into this set, or out of all sets.
fn move_port(state: &mut IpcState, port: u64, set: Option<u32>) -> Result<(), AllocError>
    ensures ok { OnOk result (state.new.current ≡ with_port state.old.current port
        (λ port. record port { set = set })) }
    ensures before { state.new.before ≡ state.old.before }
{
    let Some(numbers) = state.numbers(port) else {
        return Ok(());
    };
    state.set_numbers(port, PortNumbers { set, ..numbers })
}

/// Moves ports into this set, or out of all sets. A removed set leaves its members in none; a renamed one takes them
/// along. If an allocation fails, the changes must be rolled back.
pub fn move_ports(state: &mut IpcState, ports: &[u64], set: Option<u32>) -> Result<(), AllocError>
    ensures ok { OnOk result (state.new.current ≡ with_ports state.old.current ports.now
        (λ port. record port { set = set })) }
    ensures before { state.new.before ≡ state.old.before }
{
    for port in ports {
        move_port(state, *port, set)?;
    }
    Ok(())
}
