//! Records and the results of their replay.
use crate::asked::Asked;
use crate::expect::same;
use crate::machine::{Machine, Words, after_allocated, allocated, ask_all, make};
use codes::KernReturn;
use ipc_model::{Call, PlainCall, PlainReply, Record, Reply, RightKind, Sequence};
use kernel::{Kernel, ReplayFault};
use std::alloc::Global;

/// The result of a replay: its fault, or none; `None` if out of memory.
type Found = Option<Option<ReplayFault>>;

const DONE: Found = Some(None);

const MISMATCH: Found = Some(Some(ReplayFault::Mismatch));

/// Returns the fault of a record's replay, if there is one.
fn fault_of<M: Machine + Drop>(machine: Option<M>, record: &Record) -> Found {
    Some(machine?.replayed(record).err())
}

/// Returns the fault of replaying the record of an allocation.
fn fault_of_allocated<M: Machine + Drop>(machine: Option<M>, right: u32, name: u32) -> Found {
    let record = allocated(right, name);
    let found = fault_of(machine, &record);
    drop(record);
    found
}

/// Returns the fault of replaying such a record as the first one of a new store.
fn fault_at_first<M: Machine + Drop>(alloc: Global, right: u32, name: u32) -> Found {
    fault_of_allocated(M::opened(alloc), right, name)
}

/// Returns the fault of replaying such a record twice.
fn fault_of_second<M: Machine + Drop>(alloc: Global, right: u32, name: u32) -> Found {
    fault_of_allocated(after_allocated::<M>(alloc, right, name), right, name)
}

#[test]
fn replays_a_record_once(rt: HostRuntime) {
    let found = [
        fault_of_second::<Kernel>(rt.alloc(), 1, 0x100),
        fault_at_first::<Kernel>(rt.alloc(), 2, 0x100),
        fault_at_first::<Kernel>(rt.alloc(), 1, 0),
    ];
    same(&rt, found, [MISMATCH; 3]);
}

/// Returns the fault of replaying a record after the allocation of a port under 0x1ff.
fn fault_after_a_port<M: Machine + Drop>(alloc: Global, call: Call, reply: Reply) -> Found {
    let record = Record {
        space: 1,
        call,
        reply,
    };
    let found = fault_of(after_allocated::<M>(alloc, 1, 0x1ff), &record);
    drop(record);
    found
}

/// Returns the fault of extracting a right to that port under a name.
fn fault_of_extracted<M: Machine + Drop>(alloc: Global, name: u32) -> Found {
    let reply = Reply::Plain(PlainReply::Extracted {
        name,
        kind: RightKind::SendOnce,
    });
    fault_after_a_port::<M>(alloc, Asked::ExtractRight(0x1ff).call(), reply)
}

/// A name for the extracted right, and the fault.
static EXTRACTED: [(u32, Found); 3] = [(0x555, DONE), (0x1ff, MISMATCH), (0, MISMATCH)];

#[test]
fn replays_the_name_of_an_extracted_right(rt: HostRuntime) {
    for (name, fault) in &EXTRACTED {
        let found = fault_of_extracted::<Kernel>(rt.alloc(), *name);
        same(&rt, (*name, found), (*name, *fault));
    }
}

/// Returns the fault of creating a space with this number, with this name for a send right to that port.
fn fault_of_space<M: Machine + Drop>(alloc: Global, space: u32, name: u32) -> Found {
    let create = Call::Plain(PlainCall::SpaceCreate {
        name: 0x1ff,
        disposition: 20,
    });
    fault_after_a_port::<M>(
        alloc,
        create,
        Reply::Plain(PlainReply::SpaceCreated { space, name }),
    )
}

/// A space's number, its name for the right, and the fault.
static SPACES: [(u32, u32, Found); 4] = [
    (256, 0x999, DONE),
    (1, 0x100, MISMATCH),
    (257, 0x100, MISMATCH),
    (2, 0, MISMATCH),
];

#[test]
fn replays_the_number_of_a_new_space(rt: HostRuntime) {
    for (space, name, fault) in &SPACES {
        let found = fault_of_space::<Kernel>(rt.alloc(), *space, *name);
        let wanted = (*space, *name, *fault);
        same(&rt, (*space, *name, found), wanted);
    }
}

/// Returns the fault of a refused extraction.
fn fault_of_refused<M: Machine + Drop>(alloc: Global) -> Found {
    let refused = Reply::Plain(PlainReply::Refused {
        number: 18,
        code: KernReturn::InvalidRight,
    });
    fault_after_a_port::<M>(alloc, Asked::ExtractRight(0x1ff).call(), refused)
}

#[test]
fn replays_no_invented_refusal(rt: HostRuntime) {
    same(&rt, fault_of_refused::<Kernel>(rt.alloc()), MISMATCH);
}

/// Two ports, 0x100 and 0x101, in a set, 0x102.
pub(crate) static PORTS_IN_A_SET: [Asked; 5] = [
    Asked::Allocate(1),
    Asked::Allocate(1),
    Asked::Allocate(3),
    Asked::MoveMember(0x100, 0x102),
    Asked::MoveMember(0x101, 0x102),
];

fn bytes_of(alloc: Global, bytes: &[u8]) -> Option<Sequence<u8>> {
    let items = Vec::from_slice(alloc, bytes).ok()?;
    Some(Sequence::new(items))
}

/// Returns a send to a port of the set, 0x100 or the next one, by a send right made for it, with id 7.
fn send(alloc: Global, port: u8) -> Option<Call> {
    let encoding = [
        0x14, 0, 0, 0, 0, 0, 0, 0, port, 1, 0, 0, 0, 0, 0, 0, 0, 0, 0, 0, 7, 0, 0, 0,
    ];
    let message = bytes_of(alloc, &encoding)?;
    Some(Call::Plain(PlainCall::Send { message }))
}

/// Returns the record of a receive from the set that took that port's message.
fn received(alloc: Global, port: u8) -> Option<Record> {
    let encoding = [
        0, 0x11, 0, 0, 24, 0, 0, 0, 0, 0, 0, 0, port, 1, 0, 0, 0, 0, 0, 0, 7, 0, 0, 0,
    ];
    let message = bytes_of(alloc, &encoding)?;
    Some(Record {
        space: 1,
        call: Asked::Receive(0x102, false).call(),
        reply: Reply::Plain(PlainReply::Message {
            code: KernReturn::Success,
            size: 24,
            member: 0x100 + u32::from(port),
            message,
        }),
    })
}

/// Sends a port of the set its message.
fn send_to<M: Machine>(alloc: Global, machine: &mut M, port: u8) -> Option<Words> {
    make(machine, 1, send(alloc, port)?)
}

/// Creates the set, and sends each of its ports a message.
fn fill_set<M: Machine>(alloc: Global, machine: &mut M) -> Option<Words> {
    ask_all(machine, &PORTS_IN_A_SET)?;
    send_to(alloc, machine, 0)?;
    send_to(alloc, machine, 1)
}

/// Returns a machine in the state with that set and its messages.
fn with_set<M: Machine + Drop>(alloc: Global) -> Option<M> {
    let mut machine = M::opened(alloc)?;
    fill_set(alloc, &mut machine)?;
    Some(machine)
}

/// Returns the fault of replaying the record of a receive from that port.
fn fault_of_receive<M: Machine + Drop>(alloc: Global, port: u8) -> Found {
    let record = received(alloc, port)?;
    let found = fault_of(with_set::<M>(alloc), &record);
    drop(record);
    found
}

#[test]
fn a_receive_is_replayed_from_its_member(rt: HostRuntime) {
    let found = [
        fault_of_receive::<Kernel>(rt.alloc(), 0),
        fault_of_receive::<Kernel>(rt.alloc(), 1),
        fault_of_receive::<Kernel>(rt.alloc(), 2),
    ];
    same(&rt, found, [DONE, DONE, MISMATCH]);
}
