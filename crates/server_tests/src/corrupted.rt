//! The store of one port, with one byte replaced: how it is opened, and that the lister reports the same and changes
//! nothing.
use crate::expect::{same, same_in_row};
use crate::frames::{ALLOCATE, served};
use crate::inspected::{are_alike, lines_of, listed};
use crate::store::Store;
use disk::{Disk, MemDisk, Slot};
use inspect::ListFault;
use std::alloc::Global;
use store_fault::StoreFault;
use system::{Opened, open};

/// How many corrupted stores can be opened, how many are damaged, and how many are of another version; and how many the
/// lister reports differently, or changes.
#[derive(Clone, Copy, Debug, PartialEq)]
struct Counts {
    found: u32,
    damaged: u32,
    of_version: u32,
    unlike: u32,
}

const NONE: Counts = Counts {
    found: 0,
    damaged: 0,
    of_version: 0,
    unlike: 0,
};

/// A new store after one allocation.
fn store_of_one<S: Store + Drop>(alloc: Global) -> S {
    let (run, disk) = served(alloc, S::empty(alloc), &ALLOCATE);
    drop(run);
    disk
}

/// The lines of a store once it was opened, or why it can't be.
fn listed_when_opened<D: Disk + Drop>(alloc: Global, disk: D) -> Result<Vec<u8>, ListFault> {
    match open(alloc, disk) {
        Ok(opened) => {
            let Opened {
                kernel,
                mut disk,
                segment: _,
            } = opened;
            drop(kernel);
            listed(alloc, &mut disk)
        }
        Err((fault, disk)) => {
            drop(disk);
            Err(ListFault::Store(fault))
        }
    }
}

/// The lines after a first one that says this.
fn after_first<'a>(lines: &'a Result<Vec<u8>, ListFault>, first: &[u8]) -> Option<&'a [u8]> {
    match lines {
        Ok(lines) => lines.as_slice().strip_prefix(first),
        Err(_) => None,
    }
}

/// Returns whether the second lines are the first ones of the store of version 1, in the next epoch: opening such a
/// store begins one, in version 2.
fn is_upgraded(before: &Result<Vec<u8>, ListFault>, after: &Result<Vec<u8>, ListFault>) -> bool {
    let state = after_first(before, b"epoch 0 records 1\n");
    state.is_some() && state == after_first(after, b"epoch 1 records 0\n")
}

/// What the lister reports of a store, if the store's opening reports the same and the lister changed nothing.
fn acknowledged<S: Store + Drop>(alloc: Global, disk: S) -> Option<Result<Vec<u8>, ListFault>> {
    let mut disk = disk;
    let before = disk.copied(alloc)?;
    let lines = listed(alloc, &mut disk);
    let is_kept = are_alike(&before, &disk);
    drop(before);
    let again = listed_when_opened(alloc, disk);
    if is_kept && (again == lines || is_upgraded(&lines, &again)) {
        Some(lines)
    } else {
        None
    }
}

fn count(counts: &mut Counts, acknowledged: Option<Result<Vec<u8>, ListFault>>) {
    let place = match acknowledged {
        Some(Ok(_)) => &mut counts.found,
        Some(Err(ListFault::Store(StoreFault::Damaged))) => &mut counts.damaged,
        Some(Err(ListFault::Store(StoreFault::Version))) => &mut counts.of_version,
        _ => &mut counts.unlike,
    };
    *place = place.saturating_add(1);
}

/// Counts the stores with each other byte at one place.
fn count_at<S: Store + Drop>(
    alloc: Global,
    disk: &S,
    slot: Slot,
    at: usize,
    counts: &mut Counts,
) -> Option<()> {
    let byte = disk.bytes(slot).get(at).copied()?;
    for more in 1..=255u8 {
        let corrupted = disk.corrupted(alloc, slot, at, byte.wrapping_add(more))?;
        count(counts, acknowledged(alloc, corrupted));
    }
    Some(())
}

/// Counts them for all places of a range.
fn counted<S: Store + Drop>(alloc: Global, slot: Slot, from: usize, end: usize) -> Option<Counts> {
    let disk: S = store_of_one(alloc);
    let mut counts = NONE;
    for at in from..end {
        count_at(alloc, &disk, slot, at, &mut counts)?;
    }
    Some(counts)
}

/// Places of a slot, and of their corrupted stores how many can be opened, how many are damaged, and how many are of
/// another version.
type Range = (Slot, usize, usize, u32, u32, u32);

static RANGES: [Range; 14] = [
    (Slot::Image0, 0, 1, 0, 255, 0), // the gate
    (Slot::Image0, 1, 2, 0, 1, 254), // the version: in version 1 these bytes are no image
    (Slot::Image0, 2, 24, 0, 5_610, 0), // zeros, the epoch, the length
    (Slot::Image0, 24, 32, 2_039, 1, 0), // the next serial, which isn't 0
    (Slot::Image0, 32, 52, 0, 5_100, 0), // one space, space 1, no request, no names, no ports
    (Slot::Segment0, 0, 1, 0, 255, 0), // the gate
    (Slot::Segment0, 1, 2, 1, 0, 254), // the version: in version 1 these bytes have the same record
    (Slot::Segment0, 2, 16, 0, 3_570, 0), // zeros, the epoch
    (Slot::Segment0, 16, 17, 255, 0, 0), // the batch's gate: closed by any other byte
    (Slot::Segment0, 17, 49, 0, 8_160, 0), // the count, the length, the record up to the call's argument
    (Slot::Segment0, 49, 53, 2, 1_018, 0), // the right: a set or a dead name may have been allocated
    (Slot::Segment0, 53, 65, 0, 3_060, 0), // the reply's frame, its number and code
    (Slot::Segment0, 65, 69, 1_019, 1, 0), // the name, which isn't 0
    (Slot::Segment0, 69, 70, 254, 1, 0), // the last gate, which isn't open
];

#[test]
fn each_corrupted_byte_is_reported_alike(rt: HostRuntime) {
    for (row, (slot, from, end, found, damaged, of_version)) in RANGES.iter().enumerate() {
        let wanted = Counts {
            found: *found,
            damaged: *damaged,
            of_version: *of_version,
            unlike: 0,
        };
        let seen = counted::<MemDisk>(rt.alloc(), *slot, *from, *end);
        same_in_row(&rt, row, seen, Some(wanted));
    }
}

/// The lines of the store whose batch's gate is closed.
fn lines_without_batch<S: Store + Drop>(alloc: Global) -> Option<Vec<u8>> {
    let disk: S = store_of_one(alloc);
    let mut disk = disk.corrupted(alloc, Slot::Segment0, 16, 0)?;
    lines_of(alloc, &mut disk)
}

#[test]
fn a_batch_after_a_closed_gate_is_not_listed(rt: HostRuntime) {
    let lines = lines_without_batch::<MemDisk>(rt.alloc());
    let seen = lines.as_deref() == Some(b"epoch 0 records 0\nspace 1\n".as_slice());
    same(&rt, seen, true);
}
