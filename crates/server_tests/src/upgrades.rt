//! The store of version 1 after one allocation: what is listed of it, also when its upgrade was half done, and how it
//! is served.
use crate::expect::same;
use crate::frames::{ALLOCATE, served};
use crate::inspected::lines_of;
use crate::store::Store;
use disk::{Disk, MemDisk, Slot};
use std::alloc::Global;

/// Image 0: the opening state.
static IMAGE: [u8; 48] = [
    0x5a, 1, 0, 0, 0, 0, 0, 0, 0, 0, 0, 0, 0, 0, 0, 0, 24, 0, 0, 0, 0, 0, 0, 0, 1, 0, 0, 0, 0, 0,
    0, 0, 1, 0, 0, 0, 1, 0, 0, 0, 0, 0, 0, 0, 0, 0, 0, 0,
];

/// Segment 0: the allocation of 0x100.
static SEGMENT: [u8; 70] = [
    0x5a, 1, 0, 0, 0, 0, 0, 0, 0, 0, 0, 0, 0, 0, 0, 0, 0x5a, 1, 0, 0, 0, 40, 0, 0, 0, 0, 0, 0, 0,
    0, 0, 0, 0, 0, 0, 0, 0, 1, 0, 0, 0, 8, 0, 0, 0, 5, 0, 0, 0, 1, 0, 0, 0, 12, 0, 0, 0, 5, 0, 0,
    0, 0, 0, 0, 0, 0, 1, 0, 0, 0,
];

/// Segment 1, as the upgrade makes it.
static NEXT: [u8; 17] = [0x5a, 2, 0, 0, 0, 0, 0, 0, 1, 0, 0, 0, 0, 0, 0, 0, 0];

/// The lines of the store before its upgrade, and as long as image 1 isn't open; and after it.
static BEFORE: &[u8] =
    b"epoch 0 records 1\nspace 1\nname 00000100 00020000 port 1 refs 0\nport 1 held 1 00000100 send 0 once 0 queue 0 of 5 seqno 0 mscount 0\n";

static AFTER: &[u8] =
    b"epoch 1 records 0\nspace 1\nname 00000100 00020000 port 1 refs 0\nport 1 held 1 00000100 send 0 once 0 queue 0 of 5 seqno 0 mscount 0\n";

/// The answer to the next allocation: the name 0x101.
static SECOND: [u8; 16] = [12, 0, 0, 0, 5, 0, 0, 0, 0, 0, 0, 0, 1, 1, 0, 0];

/// How long image 0, image 1, segment 0 and segment 1 are.
fn lengths<D: Disk>(disk: &D) -> [u64; 4] {
    [
        disk.length(Slot::Image0),
        disk.length(Slot::Image1),
        disk.length(Slot::Segment0),
        disk.length(Slot::Segment1),
    ]
}

/// Returns whether a store is listed in these lines.
fn has_lines<D: Disk>(alloc: Global, disk: &mut D, lines: &[u8]) -> bool {
    lines_of(alloc, disk).as_deref() == Some(lines)
}

/// Returns whether input is answered with this output, the lengths of the slots then, and the disk.
fn answered<S: Store + Drop>(
    alloc: Global,
    disk: S,
    input: &[u8],
    output: &[u8],
) -> (bool, [u64; 4], S) {
    let (run, disk) = served(alloc, disk, input);
    let is_answered = match run {
        Some(run) => run.end.is_ok() && run.output.as_slice() == output,
        None => false,
    };
    let lengths = lengths(&disk);
    (is_answered, lengths, disk)
}

/// What is seen of a store with this in segment 1: whether it has its lines; whether it is served, and the lengths of
/// its slots after no call and after an allocation; whether its first slots are as they were; and whether it has its
/// lines after no call.
type Upgraded = ([bool; 5], [[u64; 4]; 2]);

fn upgraded<S: Store + Drop>(alloc: Global, segment1: &[u8]) -> Option<Upgraded> {
    let mut disk = S::holding(alloc, &IMAGE, &SEGMENT, segment1)?;
    let before = has_lines(alloc, &mut disk, BEFORE);
    let (is_opened, first, mut disk) = answered(alloc, disk, &[], &[]);
    let after = has_lines(alloc, &mut disk, AFTER);
    let (is_served, second, disk) = answered(alloc, disk, &ALLOCATE, &SECOND);
    let is_kept = disk.bytes(Slot::Image0) == IMAGE.as_slice()
        && disk.bytes(Slot::Segment0) == SEGMENT.as_slice();
    drop(disk);
    Some((
        [before, is_opened, after, is_served, is_kept],
        [first, second],
    ))
}

#[test]
fn an_old_store_is_served_in_the_next_epoch(rt: HostRuntime) {
    let wanted = ([true; 5], [[48, 122, 70, 17], [48, 122, 70, 70]]);
    let seen = [
        upgraded::<MemDisk>(rt.alloc(), &[]),
        upgraded::<MemDisk>(rt.alloc(), &NEXT),
    ];
    same(&rt, seen, [Some(wanted); 2]);
}
