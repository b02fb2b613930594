//! Checks rows against the state that they describe: each right is to a live port, a port has one name in a space, and
//! is in a set of the space that holds its receive right.
ghost use Rattle.std.specs.Prelude.{◌≡◌};
ghost use Rattle.snapshot_loading.specs.Linked.{has_set, is_in_no_set, is_linked, is_linked_message, is_linked_name, is_linked_row, is_linked_space, is_live_place, is_live_target, is_set, looks_of, replies_well, stands_well, travels_well};
ghost use Rattle.std.specs.List.{list_all};
ghost use Rattle.ipc_model.specs.state.Placed.{same_kind};
ghost use Rattle.ipc_model.specs.declared.entry.Entry.TheVariants.{Port};

use ipc_model::{CarriedRight, Entry, Message, PortInMessage, PortRights, RightKind};
use ipc_state::IpcState;
use snapshot::{IpcSnapshot, LivePort, NamedEntry, Space};

/// Returns true if the rows are linked.
pub(crate) fn is_linked(state: &IpcState, snapshot: &IpcSnapshot) -> bool
    ensures { result ≡ is_linked (looks_of state.now.current) snapshot.now }
{
    are_linked_spaces(state, snapshot.spaces.as_slice())
        && are_linked_ports(state, snapshot.ports.as_slice())
}

fn are_linked_spaces(state: &IpcState, rows: &[Space]) -> bool
    ensures { result ≡ list_all (is_linked_space (looks_of state.now.current)) rows.now }
{
    let mut rest = rows;
    while let Some((row, beyond)) = rest.split_first() {
        if !are_linked_names(state, row.number, row.names.as_slice()) {
            return false;
        }
        rest = beyond;
    }
    true
}

fn are_linked_names(state: &IpcState, space: u32, rows: &[NamedEntry]) -> bool
    ensures { result ≡ list_all (is_linked_name (looks_of state.now.current) space) rows.now }
{
    let mut rest = rows;
    while let Some((row, beyond)) = rest.split_first() {
        if !stands_well(state, space, row.name, row.entry) {
            return false;
        }
        rest = beyond;
    }
    true
}

fn are_linked_ports(state: &IpcState, rows: &[LivePort]) -> bool
    ensures { result ≡ list_all (is_linked_row (looks_of state.now.current)) rows.now }
{
    let mut rest = rows;
    while let Some((row, beyond)) = rest.split_first() {
        if !is_linked_port(state, row) {
            return false;
        }
        rest = beyond;
    }
    true
}

/// Returns true if an entry of a space is linked.
fn stands_well(state: &IpcState, space: u32, name: u32, entry: Entry) -> bool
    ensures { result ≡ stands_well (looks_of state.now.current) space name entry }
{
    match entry {
        Entry::Port(rights) => holds_well(state, space, name, rights),
        Entry::SendOnce {
            port,
            dead_name_target,
        } => state.has_port(port) && is_live_target(state, dead_name_target),
        Entry::Set | Entry::Dead { .. } => true,
    }
}

fn holds_well(state: &IpcState, space: u32, name: u32, rights: PortRights) -> bool
    ensures { result ≡ stands_well (looks_of state.now.current) space name (Port rights) }
{
    if !state.has_port(rights.port) || !is_live_target(state, rights.dead_name_target) {
        return false;
    }
    if state.stands_elsewhere(space, name, rights.port) {
        return false;
    }
    !rights.receive || has_set(state, space, set_of(state, rights.port))
}

fn is_live_target(state: &IpcState, target: Option<u64>) -> bool
    ensures { result ≡ is_live_target (looks_of state.now.current) target }
{
    match target {
        Some(serial) => state.has_port(serial),
        None => true,
    }
}

/// Returns the set that a port is in.
fn set_of(state: &IpcState, serial: u64) -> Option<u32>
    ensures { result ≡ (looks_of state.now.current).set_of serial }
{
    match state.numbers(serial) {
        Some(numbers) => numbers.set,
        None => None,
    }
}

/// Returns true if the space contains the set with this name, or if no set is named.
fn has_set(state: &IpcState, space: u32, set: Option<u32>) -> bool
    ensures { result ≡ has_set (looks_of state.now.current) space set }
{
    match set {
        Some(set) => is_set(state.entry(space, set)),
        None => true,
    }
}

fn is_set(entry: Option<Entry>) -> bool
    ensures { result ≡ is_set entry }
{
    match entry {
        Some(Entry::Set) => true,
        _ => false,
    }
}

/// Returns true if the state of a port is linked.
fn is_linked_port(state: &IpcState, row: &LivePort) -> bool
    ensures { result ≡ is_linked_row (looks_of state.now.current) row.now }
{
    is_live_target(state, row.state.no_senders_target)
        && (is_live_target(state, row.state.port_destroyed_target)
            && are_linked_messages(state, row.state.messages.as_slice()))
}

fn are_linked_messages(state: &IpcState, messages: &[Message]) -> bool
    ensures { result ≡ list_all (is_linked_message (looks_of state.now.current)) messages.now }
{
    let mut rest = messages;
    while let Some((message, beyond)) = rest.split_first() {
        if !is_linked_message(state, message) {
            return false;
        }
        rest = beyond;
    }
    true
}

fn is_linked_message(state: &IpcState, message: &Message) -> bool
    ensures { result ≡ is_linked_message (looks_of state.now.current) message.now }
{
    replies_well(state, message.reply) && travel_well(state, message.rights.as_slice())
}

fn replies_well(state: &IpcState, reply: Option<CarriedRight>) -> bool
    ensures { result ≡ replies_well (looks_of state.now.current) reply }
{
    match reply {
        Some(right) => is_live_place(state, right.port),
        None => true,
    }
}

fn travel_well(state: &IpcState, rights: &[CarriedRight]) -> bool
    ensures { result ≡ list_all (travels_well (looks_of state.now.current)) rights.now }
{
    let mut rest = rights;
    while let Some((right, beyond)) = rest.split_first() {
        if !travels_well(state, *right) {
            return false;
        }
        rest = beyond;
    }
    true
}

fn travels_well(state: &IpcState, right: CarriedRight) -> bool
    ensures { result ≡ travels_well (looks_of state.now.current) right }
{
    is_live_place(state, right.port) && is_in_no_set(state, right.kind, right.port)
}

fn is_live_place(state: &IpcState, port: PortInMessage) -> bool
    ensures { result ≡ is_live_place (looks_of state.now.current) port }
{
    match port {
        PortInMessage::Live(serial) => state.has_port(serial),
        PortInMessage::Null | PortInMessage::Dead => true,
    }
}

/// Returns true if the port of a receive right is in no set.
fn is_in_no_set(state: &IpcState, kind: RightKind, port: PortInMessage) -> bool
    ensures { result ≡ is_in_no_set (looks_of state.now.current) kind port }
{
    match port {
        PortInMessage::Live(serial) => !is_receive(kind) || set_of(state, serial).is_none(),
        PortInMessage::Null | PortInMessage::Dead => true,
    }
}

pub(crate) fn is_receive(kind: RightKind) -> bool
    ensures { result ≡ same_kind kind RightKind.Receive }
{
    match kind {
        RightKind::Receive => true,
        RightKind::Send | RightKind::SendOnce => false,
    }
}
