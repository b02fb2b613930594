ghost use Rattle.std.specs.Prelude.{◌≡◌, IfOk};
ghost use Rattle.ipc_model.specs.calls.Actions.{received_serials, serials_of_members};
ghost use Rattle.ipc_model.specs.calls.PortCalls.{names_in};
ghost use Rattle.ipc_model.specs.state.Ipc.{members_of, received_port};

use ipc_model::Entry;
use ipc_state::IpcState;
use std::alloc::{AllocError, Global};

/// Returns the names of a set's members in a space, in ascending order (`mach_port_get_set_status`).
#[tactic(auto, using(ipc_state::specs::SetNames::member_names))]
pub fn members(
    alloc: Global,
    state: &IpcState,
    space: u32,
    set: u32,
) -> Result<Vec<u32>, AllocError>
    ensures { IfOk result (λ members. members.items
        ≡ members_of state.now.current (names_in state.now.current space) set) }
{
    let mut members = Vec::new(alloc);
    let found = state.members(alloc, space, set)?;
    for (name, _) in found.as_slice() {
        members.push(*name)?;
    }
    Ok(members)
}

/// Returns the ports of a set's members in a space, in the order of their names.
#[tactic(auto, using(ipc_state::specs::SetNames::member_serials))]
pub fn member_ports(
    alloc: Global,
    state: &IpcState,
    space: u32,
    set: u32,
) -> Result<Vec<u64>, AllocError>
    ensures { IfOk result (λ ports. ports.items
        ≡ serials_of_members state.now.current (names_in state.now.current space) set) }
{
    let mut ports = Vec::new(alloc);
    let found = state.members(alloc, space, set)?;
    for (_, port) in found.as_slice() {
        ports.push(*port)?;
    }
    Ok(ports)
}

/// Returns the ports whose receive rights the names of a space hold, in the order of their names.
pub fn received_ports(alloc: Global, state: &IpcState, space: u32) -> Result<Vec<u64>, AllocError>
    ensures { IfOk result (λ ports. ports.items ≡ received_serials (names_in state.now.current space)) }
{
    let mut ports = Vec::new(alloc);
    let entries = state.entries(alloc, space)?;
    for (_, entry) in entries.as_slice() {
        if let Some(port) = received_port(*entry) {
            ports.push(port)?;
        }
    }
    Ok(ports)
}

/// Returns the port whose receive right a name holds.
pub fn received_port(entry: Entry) -> Option<u64>
    ensures { result ≡ received_port entry }
{
    match entry {
        Entry::Port(rights) if rights.receive => Some(rights.port),
        _ => None,
    }
}
