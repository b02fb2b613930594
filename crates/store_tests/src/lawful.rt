use crate::expect::same;
use ipc_model::{
    CarriedRight, Entry, Message, NumberedReply, PlainReply, PortInMessage, PortRights, PortState,
    RightKind, Sequence,
};
use kernel::lawful;
use snapshot::{IpcSnapshot, LivePort, NamedEntry, Snapshot, Space};
use std::alloc::{AllocError, Global};

/// A port's serial and its set; the port whose receive right is in the only message of its queue, if there is one; and
/// true if that message has a byte too many.
type PortRow = (u64, Option<u32>, Option<u64>, bool);

/// A body of one item, a receive right.
static BODY: [u8; 8] = [16, 32, 1, 0x10, 0, 0, 0, 0];

/// The same body with a byte after it.
static ODD_BODY: [u8; 9] = [16, 32, 1, 0x10, 0, 0, 0, 0, 0];

fn holding(port: u64, receive: bool, send: u32) -> Entry {
    Entry::Port(PortRights {
        port,
        receive,
        send,
        dead_name_target: None,
    })
}

fn message(alloc: Global, carried: u64, is_odd: bool) -> Result<Message, AllocError> {
    let right = CarriedRight {
        kind: RightKind::Receive,
        port: PortInMessage::Live(carried),
    };
    let body: &[u8] = if is_odd { &ODD_BODY } else { &BODY };
    Ok(Message {
        destination: RightKind::Send,
        reply: None,
        id: 7,
        complex: true,
        rights: Sequence::new(Vec::from_slice(alloc, &[right])?),
        body: Sequence::new(Vec::from_slice(alloc, body)?),
    })
}

fn live_port(alloc: Global, row: &PortRow) -> Result<LivePort, AllocError> {
    let (serial, set, carried, is_odd) = *row;
    let mut messages = Vec::new(alloc);
    if let Some(carried) = carried {
        messages.push(message(alloc, carried, is_odd)?)?;
    }
    Ok(LivePort {
        serial,
        state: PortState {
            limit: 5,
            sequence_number: 0,
            make_send_count: 0,
            set,
            messages: Sequence::new(messages),
            no_senders_target: None,
            port_destroyed_target: None,
        },
    })
}

fn live_ports(alloc: Global, rows: &[PortRow]) -> Result<Sequence<LivePort>, AllocError> {
    let mut ports = Vec::new(alloc);
    for row in rows {
        ports.push(live_port(alloc, row)?)?;
    }
    Ok(Sequence::new(ports))
}

/// Returns the names of space 1: the receive right of port 1 as 0x100, a set as 0x101, and the entry of 0x102, if it
/// has one.
fn names(alloc: Global, third: Option<Entry>) -> Result<Vec<NamedEntry>, AllocError> {
    let mut names = Vec::new(alloc);
    names.push(NamedEntry {
        name: 0x100,
        entry: holding(1, true, 0),
    })?;
    names.push(NamedEntry {
        name: 0x101,
        entry: Entry::Set,
    })?;
    if let Some(entry) = third {
        names.push(NamedEntry { name: 0x102, entry })?;
    }
    Ok(names)
}

/// Returns space 1 alone, with these names.
fn spaces(alloc: Global, third: Option<Entry>) -> Result<Sequence<Space>, AllocError> {
    let names = names(alloc, third)?;
    let mut spaces = Vec::new(alloc);
    spaces.push(Space {
        number: 1,
        names: Sequence::new(names),
    })?;
    Ok(Sequence::new(spaces))
}

/// Returns rows of kept replies: one for each request and name, to an allocation of that name.
fn kept(
    alloc: Global,
    rows: &[Option<(u32, u32)>],
) -> Result<Sequence<Option<NumberedReply>>, AllocError> {
    let mut kept = Vec::new(alloc);
    for row in rows {
        kept.push(row.map(|(request, name)| NumberedReply {
            request,
            reply: PlainReply::Allocate { name },
        }))?;
    }
    Ok(Sequence::new(kept))
}

fn snapshot(
    alloc: Global,
    third: Option<Entry>,
    ports: &[PortRow],
    rows: &[Option<(u32, u32)>],
) -> Result<Snapshot, AllocError> {
    let spaces = spaces(alloc, third)?;
    Ok(Snapshot {
        ipc: IpcSnapshot {
            next_serial: 8,
            spaces,
            ports: live_ports(alloc, ports)?,
        },
        kept: kept(alloc, rows)?,
    })
}

/// Returns true if a snapshot is of a lawful state. It has no contract, so that a test's proof carries nothing of it.
fn is_lawful(alloc: Global, snapshot: &Snapshot) -> Option<bool> {
    lawful(alloc, snapshot).ok()
}

/// Returns true if these rows are those of a lawful state.
fn verdict(
    alloc: Global,
    third: Option<Entry>,
    ports: &[PortRow],
    rows: &[Option<(u32, u32)>],
) -> Option<bool> {
    let snapshot = snapshot(alloc, third, ports, rows).ok()?;
    let verdict = is_lawful(alloc, &snapshot);
    drop(snapshot);
    verdict
}

/// Port 1 is in the set, and the receive right of port 2 is in its queue.
static USUAL: [PortRow; 2] = [(1, Some(0x101), Some(2), false), (2, None, None, false)];

/// Returns true if the usual ports are lawful with this entry of 0x102.
fn usual(alloc: Global, third: Option<Entry>) -> Option<bool> {
    verdict(alloc, third, &USUAL, &[None])
}

/// A second receive right to a port, a right to a dead port, and too few or too many references are refused.
#[test]
fn names_are_looked_at(rt: HostRuntime) {
    for (third, wanted) in [
        (None, true),
        (Some(holding(2, true, 0)), false),
        (Some(holding(7, false, 1)), false),
        (Some(Entry::Dead { references: 0 }), false),
        (Some(Entry::Dead { references: 65_536 }), false),
    ] {
        same(&rt, usual(rt.alloc(), third), Some(wanted));
    }
}

/// Each is refused: a port without a receive right, one in a set that doesn't exist, two that carry each other, and a
/// message of odd size.
static PORTS: [&'static [PortRow]; 4] = [
    &[(1, None, None, false), (2, None, None, false)],
    &[(1, Some(0x105), Some(2), false), (2, None, None, false)],
    &[
        (1, None, None, false),
        (2, None, Some(3), false),
        (3, None, Some(2), false),
    ],
    &[(1, None, Some(2), true), (2, None, None, false)],
];

#[test]
fn ports_are_looked_at(rt: HostRuntime) {
    for ports in &PORTS {
        same(&rt, verdict(rt.alloc(), None, ports, &[None]), Some(false));
    }
}

/// A kept reply has a request other than 0, and there is one row for each space.
#[test]
fn kept_replies_are_looked_at(rt: HostRuntime) {
    let rows: [(&[Option<(u32, u32)>], bool); 4] = [
        (&[Some((7, 0x105))], true),
        (&[Some((0, 0x105))], false),
        (&[], false),
        (&[None, None], false),
    ];
    for (rows, wanted) in rows {
        same(&rt, verdict(rt.alloc(), None, &USUAL, rows), Some(wanted));
    }
}
