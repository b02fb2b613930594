//! The ports of the receive rights in a snapshot's rows.
ghost use Rattle.std.specs.Prelude.{◌≡◌, ◌++◌, ◌↔◌, false, flat_map, map, IfOk, OnOk, IsTrue};
ghost use Rattle.snapshot_loading.specs.Receivers.{received_at, received_by, received_in, received_to, received_under, received_with, receivers};
ghost use Rattle.snapshot_loading.specs.Received.{AreSorted, AreOthers};
ghost use Rattle.snapshot.specs.Rows.{serial_of};

use ipc_model::{CarriedRight, Entry, Message, PortInMessage, RightKind};
use snapshot::{IpcSnapshot, LivePort, NamedEntry, Space};
use std::alloc::{AllocError, Global};

/// Returns true if each live port has one receive right, and no other port has any.
pub(crate) fn are_received_once(alloc: Global, snapshot: &IpcSnapshot) -> Result<bool, AllocError>
    ensures once { IfOk result (λ once. IsTrue once → AreSorted snapshot.now) }
    ensures others { IfOk result (λ once. once ≡ false → AreOthers snapshot.now) }
{
    let mut received = receivers(alloc, snapshot)?;
    received.sort_unstable();
    Ok(are_serials(received.as_slice(), snapshot.ports.as_slice()))
}

/// Returns true if these are the serials of the ports, in order.
fn are_serials(serials: &[u64], ports: &[LivePort]) -> bool
    ensures { IsTrue result ↔ (serials.now ≡ map serial_of ports.now) }
{
    let mut left = ports;
    let mut rest = serials;
    while let Some((serial, beyond)) = rest.split_first() {
        let Some((port, others)) = left.split_first() else {
            return false;
        };
        if *serial != port.serial {
            return false;
        }
        left = others;
        rest = beyond;
    }
    left.is_empty()
}

/// Returns the ports of all receive rights in the rows: those under names, and those in queues.
fn receivers(alloc: Global, snapshot: &IpcSnapshot) -> Result<Vec<u64>, AllocError>
    ensures { IfOk result (λ found. found.items ≡ receivers snapshot.now) }
{
    let mut found = Vec::new(alloc);
    add_spaces(&mut found, snapshot.spaces.as_slice())?;
    add_ports(&mut found, snapshot.ports.as_slice())?;
    Ok(found)
}

fn add_spaces(found: &mut Vec<u64>, rows: &[Space]) -> Result<(), AllocError>
    ensures { OnOk result (found.new.items ≡ found.old.items ++ flat_map received_in rows.now) }
{
    let mut rest = rows;
    while let Some((row, beyond)) = rest.split_first() {
        add_names(found, row.names.as_slice())?;
        rest = beyond;
    }
    Ok(())
}

fn add_names(found: &mut Vec<u64>, rows: &[NamedEntry]) -> Result<(), AllocError>
    ensures { OnOk result (found.new.items ≡ found.old.items ++ flat_map received_under rows.now) }
{
    let mut rest = rows;
    while let Some((row, beyond)) = rest.split_first() {
        add_entry(found, row)?;
        rest = beyond;
    }
    Ok(())
}

fn add_entry(found: &mut Vec<u64>, row: &NamedEntry) -> Result<(), AllocError>
    ensures { OnOk result (found.new.items ≡ found.old.items ++ received_under row.now) }
{
    match row.entry {
        Entry::Port(rights) if rights.receive => Ok(found.push(rights.port)?),
        _ => Ok(()),
    }
}

fn add_ports(found: &mut Vec<u64>, rows: &[LivePort]) -> Result<(), AllocError>
    ensures { OnOk result (found.new.items ≡ found.old.items ++ flat_map received_at rows.now) }
{
    let mut rest = rows;
    while let Some((row, beyond)) = rest.split_first() {
        add_messages(found, row.state.messages.as_slice())?;
        rest = beyond;
    }
    Ok(())
}

fn add_messages(found: &mut Vec<u64>, messages: &[Message]) -> Result<(), AllocError>
    ensures { OnOk result (found.new.items ≡ found.old.items ++ flat_map received_with messages.now) }
{
    let mut rest = messages;
    while let Some((message, beyond)) = rest.split_first() {
        add_rights(found, message.rights.as_slice())?;
        rest = beyond;
    }
    Ok(())
}

fn add_rights(found: &mut Vec<u64>, rights: &[CarriedRight]) -> Result<(), AllocError>
    ensures { OnOk result (found.new.items ≡ found.old.items ++ flat_map received_by rights.now) }
{
    let mut rest = rights;
    while let Some((right, beyond)) = rest.split_first() {
        add_right(found, *right)?;
        rest = beyond;
    }
    Ok(())
}

fn add_right(found: &mut Vec<u64>, right: CarriedRight) -> Result<(), AllocError>
    ensures { OnOk result (found.new.items ≡ found.old.items ++ received_by right) }
{
    match right.kind {
        RightKind::Receive => add_place(found, right.port),
        RightKind::Send | RightKind::SendOnce => Ok(()),
    }
}

fn add_place(found: &mut Vec<u64>, port: PortInMessage) -> Result<(), AllocError>
    ensures { OnOk result (found.new.items ≡ found.old.items ++ received_to port) }
{
    match port {
        PortInMessage::Live(serial) => Ok(found.push(serial)?),
        PortInMessage::Null | PortInMessage::Dead => Ok(()),
    }
}
