use crate::expect::{same, same_in_row};
use crate::frames::served;
use crate::inspected::drawing_of;
use crate::store::Store;
use crate::streams::{Filling, Seen};
use disk::{Disk, MemDisk};
use inspect::{ListFault, list};
use std::alloc::Global;

/// A receive right is allocated, a send right is made from it, and a message of 28 bytes is sent by a copy of that, and
/// received.
const FRAMES: [u8; 108] = [
    8, 0, 0, 0, 5, 0, 0, 0, 1, 0, 0, 0, // allocate
    16, 0, 0, 0, 17, 0, 0, 0, 0, 1, 0, 0, 0, 1, 0, 0, 20, 0, 0, 0, // insert_right
    48, 0, 0, 0, 19, 0, 0, 0, 1, 0, 0, 0, 0, 0, 0, 0, 0, 0, 0, 0, 0, 0, 0, 0, // send
    0x13, 0, 0, 0, 28, 0, 0, 0, 0, 1, 0, 0, 0, 0, 0, 0, 0, 0, 0, 0, 7, 0, 0, 0, 0x44, 0x33, 0x22,
    0x11, // the message
    20, 0, 0, 0, 19, 0, 0, 0, 2, 0, 0, 0, 28, 0, 0, 0, 0, 1, 0, 0, 0, 0, 0, 0, // receive
];

const LINES: &str = "epoch 0 records 4
space 1
name 00000100 00030000 port 1 refs 1
port 1 held 1 00000100 send 1 once 0 queue 0 of 5 seqno 1 mscount 1
";

/// The disk of a new store after the frames.
fn used<S: Store + Drop>(alloc: Global) -> S {
    let (run, disk) = served(alloc, S::empty(alloc), &FRAMES);
    drop(run);
    disk
}

/// How the listing of a store ends for a writer with this much room, and whether the writer then has these bytes.
fn listed<D: Disk>(
    alloc: Global,
    disk: &mut D,
    room: usize,
    wanted: &[u8],
) -> (Result<(), ListFault>, bool) {
    let seen = Seen::new();
    let mut writer = Filling {
        output: Vec::new(alloc),
        room,
        seen: &seen,
    };
    let end = list(alloc, disk, &mut writer);
    (end, writer.output.as_slice() == wanted)
}

/// The same for the store after the frames.
fn listed_when_used<S: Store + Drop>(
    alloc: Global,
    room: usize,
    wanted: &[u8],
) -> (Result<(), ListFault>, bool) {
    listed(alloc, &mut used::<S>(alloc), room, wanted)
}

#[test]
fn a_store_is_listed(rt: HostRuntime) {
    let seen = listed_when_used::<MemDisk>(rt.alloc(), 1000, LINES.as_bytes());
    same(&rt, seen, (Ok(()), true));
}

static ROOMS: [usize; 4] = [0, 1, 40, 129];

#[test]
fn a_writer_that_fails_has_a_part(rt: HostRuntime) {
    for room in &ROOMS {
        let part = LINES.as_bytes().get(..*room).unwrap_or(b"no part");
        let seen = listed_when_used::<MemDisk>(rt.alloc(), *room, part);
        same_in_row(&rt, *room, seen, (Err(ListFault::Write), true));
    }
}

/// Returns how many edges a drawing has.
fn edges(drawing: &[u8]) -> usize {
    let mut count = 0usize;
    for bytes in drawing.windows(4) {
        if bytes == b" -> ".as_slice() {
            count = count.saturating_add(1);
        }
    }
    count
}

/// Returns how many edges the drawing of the store has.
fn edges_when_used<S: Store + Drop>(alloc: Global) -> Option<usize> {
    let drawing = drawing_of(alloc, &mut used::<S>(alloc))?;
    Some(edges(&drawing))
}

#[test]
fn a_store_is_drawn(rt: HostRuntime) {
    same(&rt, edges_when_used::<MemDisk>(rt.alloc()), Some(2));
}
