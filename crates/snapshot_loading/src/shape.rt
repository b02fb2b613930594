//! Checks the lawful shape of rows, each on its own.
ghost use Rattle.std.specs.Prelude.{◌↔◌, ◌<◌, ◌^◌, All, IfOk, IsTrue, length};
ghost use Rattle.ipc_model.specs.state.Lawful.{LawfulEntry, LawfulMessage, LawfulPort};
ghost use Rattle.snapshot_loading.specs.Shaped.{BeginsFirst, IsShaped, IsShapedName, IsShapedPort, IsShapedSpace};

use crate::bodies::is_lawful_message;
use codes::{
    FIRST_SPACE, MACH_PORT_DEAD, MAX_DEAD_REFERENCES, MAX_NAMES, MAX_PORTS, MAX_QUEUE_LIMIT,
    MAX_SEND_REFERENCES, MAX_SPACES,
};
use ipc_model::{Entry, Message, PortState};
use snapshot::{IpcSnapshot, LivePort, NamedEntry, Space, ascends};
use std::alloc::{AllocError, Global};

/// Returns true if the rows have a lawful shape.
pub(crate) fn is_shaped(alloc: Global, snapshot: &IpcSnapshot) -> Result<bool, AllocError>
    ensures { IfOk result (λ yes. IsTrue yes ↔ IsShaped snapshot.now) }
{
    let spaces = snapshot.spaces.as_slice();
    let ports = snapshot.ports.as_slice();
    if !begins_first(spaces) || !ascends(spaces, 1) || !are_shaped_spaces(spaces) {
        return Ok(false);
    }
    if snapshot.next_serial == 0 || ports.len() > MAX_PORTS || !ascends(ports, 1) {
        return Ok(false);
    }
    are_shaped_ports(alloc, snapshot.next_serial, ports)
}

/// Returns true if the first space exists.
fn begins_first(spaces: &[Space]) -> bool
    ensures { IsTrue result ↔ BeginsFirst spaces.now }
{
    match spaces.split_first() {
        Some((space, _)) => space.number == FIRST_SPACE,
        None => false,
    }
}

fn are_shaped_spaces(spaces: &[Space]) -> bool
    ensures { IsTrue result ↔ All IsShapedSpace spaces.now }
{
    spaces.iter().all(|space| is_shaped_space(space))
}

fn is_shaped_space(space: &Space) -> bool
    ensures { IsTrue result ↔ IsShapedSpace space.now }
{
    let names = space.names.as_slice();
    if space.number as usize > MAX_SPACES || names.len() > MAX_NAMES {
        return false;
    }
    ascends(names, 1) && are_shaped_names(names)
}

fn are_shaped_names(names: &[NamedEntry]) -> bool
    ensures { IsTrue result ↔ All IsShapedName names.now }
{
    names.iter().all(|row| is_shaped_name(row))
}

fn is_shaped_name(row: &NamedEntry) -> bool
    ensures { IsTrue result ↔ IsShapedName row.now }
{
    row.name < MACH_PORT_DEAD && is_lawful_entry(row.entry)
}

/// Returns true if a name may have this entry.
fn is_lawful_entry(entry: Entry) -> bool
    ensures { IsTrue result ↔ LawfulEntry entry }
{
    match entry {
        Entry::Port(rights) => {
            (rights.receive || 0 < rights.send) && rights.send <= MAX_SEND_REFERENCES
        }
        Entry::SendOnce { .. } | Entry::Set => true,
        Entry::Dead { references } => 0 < references && references <= MAX_DEAD_REFERENCES,
    }
}

fn are_shaped_ports(alloc: Global, next: u64, ports: &[LivePort]) -> Result<bool, AllocError>
    ensures { IfOk result (λ yes. IsTrue yes ↔ All (IsShapedPort next) ports.now) }
{
    for port in ports {
        if !is_shaped_port(alloc, next, port)? {
            return Ok(false);
        }
    }
    Ok(true)
}

fn is_shaped_port(alloc: Global, next: u64, port: &LivePort) -> Result<bool, AllocError>
    ensures { IfOk result (λ yes. IsTrue yes ↔ IsShapedPort next port.now) }
{
    if port.serial >= next || is_long(port.state.messages.as_slice()) {
        return Ok(false);
    }
    is_lawful_port(alloc, &port.state)
}

/// Returns true if the number of messages doesn't fit a word.
fn is_long(messages: &[Message]) -> bool
    ensures { IsTrue result ↔ (length messages.now < 2 ^ 32 → ⊥) }
{
    messages.len() > u32::MAX as usize
}

/// Returns true if a live port may have this state.
fn is_lawful_port(alloc: Global, port: &PortState) -> Result<bool, AllocError>
    ensures { IfOk result (λ yes. IsTrue yes ↔ LawfulPort port.now) }
{
    let _sequence_number = port.sequence_number;
    let _make_send_count = port.make_send_count;
    if port.limit > MAX_QUEUE_LIMIT {
        return Ok(false);
    }
    are_lawful_messages(alloc, port.messages.as_slice())
}

fn are_lawful_messages(alloc: Global, messages: &[Message]) -> Result<bool, AllocError>
    ensures { IfOk result (λ yes. IsTrue yes ↔ All LawfulMessage messages.now) }
{
    for message in messages {
        if !is_lawful_message(alloc, message)? {
            return Ok(false);
        }
    }
    Ok(true)
}
