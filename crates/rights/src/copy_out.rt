ghost use Rattle.std.specs.Prelude.{◌≡◌, ◌<◌, ◌↔◌, ◌≤◌, None, Some, IsTrue, IfSome, OnOk};
ghost use Rattle.std.specs.FinMap as map;
ghost use Rattle.ipc_model.specs.rights.CopyOut.{MayArrive, MayBeNamed, merged_entry, merged_rights, names_after, new_entry};
ghost use Rattle.ipc_model.specs.calls.PortCalls.{names_in};
ghost use Rattle.ipc_model.specs.state.Ipc.{Names, entry_at, with_names};
ghost use Rattle.ipc_state.specs.Passed.{AreFewReferences};

use codes::{MACH_PORT_DEAD, MACH_PORT_NULL, MAX_NAMES, MAX_SEND_REFERENCES};
use ipc_model::{CarriedRight, Entry, PortInMessage, PortRights, RightKind};
use ipc_state::IpcState;
use std::alloc::AllocError;

/// Returns the name that an arriving right gets: for a send or receive right the name that the space has for its port,
/// if it has one, otherwise the least unused name. `MACH_PORT_NULL` and `MACH_PORT_DEAD` arrive as themselves.
pub fn arrival_name(state: &IpcState, space: u32, right: CarriedRight) -> u32
    ensures { MayArrive (names_in state.now.current space) right.kind right.port result }
{
    match right.port {
        PortInMessage::Null => MACH_PORT_NULL,
        PortInMessage::Dead => MACH_PORT_DEAD,
        PortInMessage::Live(port) => name_for(state, space, right.kind, port),
    }
}

fn name_for(state: &IpcState, space: u32, kind: RightKind, port: u64) -> u32
    ensures { MayBeNamed (names_in state.now.current space) kind port result }
{
    if kind == RightKind::SendOnce {
        return state.free_name(space);
    }
    match state.name_of_port(space, port) {
        Some(name) => name,
        None => state.free_name(space),
    }
}

/// Returns true if a right may arrive in a space under this name.
pub fn may_arrive(state: &IpcState, space: u32, right: CarriedRight, name: u32) -> bool
    ensures { IsTrue result ↔ MayArrive (names_in state.now.current space) right.kind right.port name }
{
    match right.port {
        PortInMessage::Null => name == MACH_PORT_NULL,
        PortInMessage::Dead => name == MACH_PORT_DEAD,
        PortInMessage::Live(port) => may_be_named(state, space, right.kind, port, name),
    }
}

fn may_be_named(state: &IpcState, space: u32, kind: RightKind, port: u64, name: u32) -> bool
    ensures { IsTrue result ↔ MayBeNamed (names_in state.now.current space) kind port name }
{
    if kind == RightKind::SendOnce {
        return state.is_unused(space, name);
    }
    match state.name_of_port(space, port) {
        Some(there) => name == there,
        None => state.is_unused(space, name),
    }
}

/// Copy out: puts a right into a space under a name. A send right adds a reference, up to the maximum. If an allocation
/// fails, the changes must be rolled back.
pub fn put_right(
    state: &mut IpcState,
    space: u32,
    right: CarriedRight,
    name: u32,
) -> Result<(), AllocError>
    requires room { entry_at state.old.current space name ≡ None
        → map.len (names_in state.old.current space) < MAX_NAMES }
    ensures ok { OnOk result ((names : Names) → map.get state.old.current.spaces space ≡ Some names
        → state.new.current ≡ with_names state.old.current space (names_after names right.kind right.port name)) }
    ensures absent { OnOk result (map.get state.old.current.spaces space ≡ None
        → state.new.current ≡ state.old.current) }
    ensures before { state.new.before ≡ state.old.before }
{
    let PortInMessage::Live(port) = right.port else {
        return Ok(());
    };
    let entry = merged(right.kind, port, state.entry(space, name));
    state.put_name(space, name, entry)
}

/// Returns the entry of a name after it took one more right.
fn merged(kind: RightKind, port: u64, before: Option<Entry>) -> Entry
    requires few { IfSome before AreFewReferences }
    ensures entry { result ≡ merged_entry kind port before }
    ensures few { AreFewReferences result }
{
    match before {
        Some(Entry::Port(rights)) => Entry::Port(with_right(kind, rights)),
        _ => new_entry(kind, port),
    }
}

/// Returns the rights of a name after it took one more right to the same port.
fn with_right(kind: RightKind, rights: PortRights) -> PortRights
    requires few { rights.send ≤ MAX_SEND_REFERENCES }
    ensures rights { result ≡ merged_rights kind rights }
    ensures few { result.send ≤ MAX_SEND_REFERENCES }
{
    match kind {
        RightKind::Receive => PortRights {
            receive: true,
            ..rights
        },
        RightKind::Send => PortRights {
            send: MAX_SEND_REFERENCES.min(rights.send + 1),
            ..rights
        },
        RightKind::SendOnce => rights,
    }
}

/// Returns the entry of a new name that takes a right.
fn new_entry(kind: RightKind, port: u64) -> Entry
    ensures entry { result ≡ new_entry kind port }
    ensures few { AreFewReferences result }
{
    let rights = PortRights {
        port,
        receive: false,
        send: 0,
        dead_name_target: None,
    };
    match kind {
        RightKind::Receive => Entry::Port(PortRights {
            receive: true,
            ..rights
        }),
        RightKind::Send => Entry::Port(PortRights { send: 1, ..rights }),
        RightKind::SendOnce => Entry::SendOnce {
            port,
            dead_name_target: None,
        },
    }
}
