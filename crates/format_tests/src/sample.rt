//! A state as rows: two ports, one of which carries the receive right of the other.

use ipc_model::{
    CarriedRight, Entry, Message, PortInMessage, PortRights, PortState, RightKind, Sequence,
};
use snapshot::{IpcSnapshot, LivePort, NamedEntry, Space};
use std::alloc::Global;

fn names(alloc: Global) -> Option<Sequence<NamedEntry>> {
    let receive = Entry::Port(PortRights {
        port: 1,
        receive: true,
        send: 2,
        dead_name_target: None,
    });
    let send = Entry::Port(PortRights {
        port: 2,
        receive: false,
        send: 3,
        dead_name_target: Some(1),
    });
    let names = [
        NamedEntry {
            name: 0x100,
            entry: receive,
        },
        NamedEntry {
            name: 0x101,
            entry: send,
        },
        NamedEntry {
            name: 0x102,
            entry: Entry::Set,
        },
    ];
    Some(Sequence::new(Vec::from_array(alloc, names).ok()?))
}

fn spaces(alloc: Global) -> Option<Sequence<Space>> {
    let space = Space {
        number: 1,
        names: names(alloc)?,
    };
    Some(Sequence::new(Vec::from_array(alloc, [space]).ok()?))
}

/// Returns a message with the receive right of port 2, a send right to port 1 and one to a dead port.
fn message(alloc: Global) -> Option<Message> {
    let rights = [
        CarriedRight {
            kind: RightKind::Receive,
            port: PortInMessage::Live(2),
        },
        CarriedRight {
            kind: RightKind::Send,
            port: PortInMessage::Live(1),
        },
        CarriedRight {
            kind: RightKind::Send,
            port: PortInMessage::Dead,
        },
    ];
    Some(Message {
        destination: RightKind::Send,
        reply: None,
        id: 7,
        complex: true,
        rights: Sequence::new(Vec::from_array(alloc, rights).ok()?),
        body: Sequence::new(Vec::new(alloc)),
    })
}

fn port(serial: u64, limit: u32, counts: (u32, u32), messages: Vec<Message>) -> LivePort {
    let (sequence_number, make_send_count) = counts;
    LivePort {
        serial,
        state: PortState {
            limit,
            sequence_number,
            make_send_count,
            set: None,
            messages: Sequence::new(messages),
            no_senders_target: None,
            port_destroyed_target: None,
        },
    }
}

fn ports(alloc: Global) -> Option<Sequence<LivePort>> {
    let queue = Vec::from_array(alloc, [message(alloc)?]).ok()?;
    let ports = [
        port(1, 5, (1, 4), queue),
        port(2, 16, (0, 0), Vec::new(alloc)),
    ];
    Some(Sequence::new(Vec::from_array(alloc, ports).ok()?))
}

pub(crate) fn sample(alloc: Global) -> Option<IpcSnapshot> {
    Some(IpcSnapshot {
        next_serial: 3,
        spaces: spaces(alloc)?,
        ports: ports(alloc)?,
    })
}
