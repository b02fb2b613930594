use crate::asked::Asked;
use crate::expect::same;
use crate::machine::{Machine, Words, ask, ask_all, make};
use ipc_model::{
    Call, CarriedRight, Entry, PlainCall, PortInMessage, PortRights, RightKind, Sequence,
};
use kernel::Kernel;
use snapshot::{NamedEntry, Snapshot};
use std::alloc::Global;
use std::process::Abort;

/// Three ports, 0x100 to 0x102, and a set, 0x103, with the first as its member. The third also has a send right. 0x104
/// is a send-once right to the second, with a dead-name request to the first. The second has a port-destroyed request
/// with the first as its target.
static BEFORE: [Asked; 9] = [
    Asked::Allocate(1),
    Asked::Allocate(1),
    Asked::Allocate(1),
    Asked::Allocate(3),
    Asked::MoveMember(0x100, 0x103),
    Asked::ExtractRight(0x101),
    Asked::RequestNotification(0x104, 72),
    Asked::RequestNotification(0x101, 69),
    Asked::InsertRight(0x102),
];

/// Removes the receive right of the third port.
const DEATH: Asked = Asked::DropReceive(0x102);

/// A message to the first port, by a send right made for it, with id 7: it carries a send right to the second, and a
/// send-once right to the third as the reply right.
static MESSAGE: [u8; 32] = [
    0x14, 0x15, 0, 0x80, 0, 0, 0, 0, 0, 1, 0, 0, 2, 1, 0, 0, 0, 0, 0, 0, 7, 0, 0, 0, 0x14, 0x20, 1,
    0x10, 1, 1, 0, 0,
];

fn message(alloc: Global) -> Option<Call> {
    let bytes = Vec::from_slice(alloc, &MESSAGE).ok()?;
    Some(Call::Plain(PlainCall::Send {
        message: Sequence::new(bytes),
    }))
}

fn make_calls<M: Machine>(alloc: Global, machine: &mut M) -> Option<Words> {
    ask_all(machine, &BEFORE)?;
    make(machine, 1, message(alloc)?)?;
    ask(machine, 1, DEATH)
}

/// Returns a copy of the state after these calls.
fn copy_after_calls<M: Machine + Drop>(alloc: Global) -> Option<Snapshot> {
    let mut machine = M::opened(alloc)?;
    make_calls(alloc, &mut machine)?;
    machine.copied(alloc)
}

/// A name and its entry.
type NameSeen = Option<(u32, Entry)>;

fn name_at(names: &[NamedEntry], index: usize) -> NameSeen {
    let named = names.get(index)?;
    Some((named.name, named.entry))
}

/// Returns the names of the only space, up to the sixth.
fn names_of(copy: &Snapshot) -> [NameSeen; 6] {
    let [space] = copy.ipc.spaces.as_slice() else {
        return [None; 6];
    };
    let names = space.names.as_slice();
    [
        name_at(names, 0),
        name_at(names, 1),
        name_at(names, 2),
        name_at(names, 3),
        name_at(names, 4),
        name_at(names, 5),
    ]
}

/// A live port's serial, its set, the target of its port-destroyed request, and the number of its messages.
type PortSeen = Option<(u64, Option<u32>, Option<u64>, usize)>;

fn port_of(copy: &Snapshot, index: usize) -> PortSeen {
    let port = copy.ipc.ports.as_slice().get(index)?;
    Some((
        port.serial,
        port.state.set,
        port.state.port_destroyed_target,
        port.state.messages.as_slice().len(),
    ))
}

/// Returns the rights of the first port's oldest message: the reply right and the first right of its body.
fn rights_of(copy: &Snapshot) -> Option<[Option<CarriedRight>; 2]> {
    let port = copy.ipc.ports.as_slice().first()?;
    let message = port.state.messages.as_slice().first()?;
    Some([message.reply, message.rights.as_slice().first().copied()])
}

/// Returns a copy of the machine that is built from that copy.
fn copied_again<M: Machine + Drop>(alloc: Global) -> Option<Snapshot> {
    let machine = M::of_copy(alloc, copy_after_calls::<M>(alloc)?)?;
    let copy = machine.copied(alloc);
    drop(machine);
    copy
}

/// The receive right of port 1.
const FIRST: PortRights = PortRights {
    port: 1,
    receive: true,
    send: 0,
    dead_name_target: None,
};

/// The receive right of port 2.
const SECOND: PortRights = PortRights { port: 2, ..FIRST };

static EXPECTED_NAMES: [NameSeen; 6] = [
    Some((0x100, Entry::Port(FIRST))),
    Some((0x101, Entry::Port(SECOND))),
    Some((0x102, Entry::Dead { references: 1 })),
    Some((0x103, Entry::Set)),
    Some((
        0x104,
        Entry::SendOnce {
            port: 2,
            dead_name_target: Some(1),
        },
    )),
    None,
];

static EXPECTED_RIGHTS: [Option<CarriedRight>; 2] = [
    Some(CarriedRight {
        kind: RightKind::SendOnce,
        port: PortInMessage::Dead,
    }),
    Some(CarriedRight {
        kind: RightKind::Send,
        port: PortInMessage::Live(2),
    }),
];

#[test]
fn a_copy_has_all_that_the_state_has(rt: HostRuntime) {
    expect_all(&rt, copy_after_calls::<Kernel>(rt.alloc()));
}

#[test]
fn a_kernel_made_of_a_copy_has_all_of_it(rt: HostRuntime) {
    expect_all(&rt, copied_again::<Kernel>(rt.alloc()));
}

static EXPECTED_PORTS: [PortSeen; 3] = [
    Some((1, Some(0x103), None, 1)),
    Some((2, None, Some(1), 0)),
    None,
];

fn expect_seen(rt: &impl Abort, copy: &Snapshot) {
    let ports = [port_of(copy, 0), port_of(copy, 1), port_of(copy, 2)];
    same(rt, &names_of(copy), &EXPECTED_NAMES);
    same(rt, (copy.ipc.next_serial, ports), (4, EXPECTED_PORTS));
    same(rt, rights_of(copy), Some(EXPECTED_RIGHTS));
}

fn expect_all(rt: &impl Abort, copy: Option<Snapshot>) {
    let Some(copy) = copy else {
        return same(rt, false, true);
    };
    expect_seen(rt, &copy);
    drop(copy);
}
