use crate::bending::set;
use crate::expect::{same, same_in_row};
use crate::making::{NEW_SEGMENT, SEGMENT, append_allocations, segment_of};
use crate::store::{Store, TORN, disk_with};
use crate::streams::long_segment;
use disk::{MemDisk, Slot, Torn};
use journal::OPEN_GATE;
use std::alloc::{AllocError, Global};
use std::process::Abort;
use store_fault::StoreFault;

// The image of the opening state, of epoch 0.
static IMAGE: [u8; 52] = [
    0x5a, 2, 0, 0, 0, 0, 0, 0, 0, 0, 0, 0, 0, 0, 0, 0, 28, 0, 0, 0, 0, 0, 0, 0, 1, 0, 0, 0, 0, 0,
    0, 0, 1, 0, 0, 0, 1, 0, 0, 0, 0, 0, 0, 0, 0, 0, 0, 0, 0, 0, 0, 0,
];

// The result of opening a store: the number of its records; the type bits of the names 0x100, 0x163 and 0x164, 0 for
// one that isn't in use; and the length of segment 0 then.
type Found = Result<(u64, [u32; 3], usize), StoreFault>;

const EMPTY: Found = Ok((0, [0, 0, 0], 17));

const STORED: Found = Ok((1, [0x20000, 0, 0], 70));

// A batch of two records, of the names 0x100 and 0x101.
const PAIR: Found = Ok((2, [0x20000, 0, 0], 110));

// A hundred records of allocations, of the names from 0x100 on.
const HUNDRED: Found = Ok((100, [0x20000, 0x20000, 0], 5_317));

// Opens a store, and returns the result and the disk.
fn opened<S: Store + Drop>(alloc: Global, disk: S) -> (Found, S) {
    let (opening, disk) = disk.open(alloc, &[0x100, 0x163, 0x164, 0x164]);
    let length = disk.bytes(Slot::Segment0).len();
    let found = match opening {
        Ok(seen) => {
            let [first, second, third, _] = seen.bits;
            let bits = [first, second, third];
            Ok((seen.records, bits, length))
        }
        Err(fault) => Err(fault),
    };
    (found, disk)
}

fn reopened<S: Store + Drop>(alloc: Global, disk: S) -> Found {
    let (found, _) = opened(alloc, disk);
    found
}

fn opened_with<S: Store + Drop>(alloc: Global, image0: &[u8], segment0: &[u8]) -> Option<Found> {
    let disk: S = disk_with(alloc, image0, segment0)?;
    Some(reopened(alloc, disk))
}

// Returns a new store with the record of `SEGMENT`.
fn stored<S: Store + Drop>(alloc: Global) -> Option<S> {
    let (mut disk, mut segment) = S::empty(alloc).go_on(alloc)?;
    append_allocations(alloc, &mut segment, &mut disk, 1).ok()?;
    Some(disk)
}

// Such a store has the expected image and segment; and the results of opening it and a new one.
fn made<S: Store + Drop>(alloc: Global) -> Option<([bool; 2], [Found; 2])> {
    let disk = stored::<S>(alloc)?;
    let are_made = [
        disk.bytes(Slot::Image0) == IMAGE.as_slice(),
        disk.bytes(Slot::Segment0) == SEGMENT.as_slice(),
    ];
    let found = reopened(alloc, disk);
    Some((are_made, [found, reopened(alloc, S::empty(alloc))]))
}

#[test]
fn a_new_store_is_made(rt: HostRuntime) {
    let seen = made::<MemDisk>(rt.alloc());
    same(&rt, seen, Some(([true; 2], [STORED, EMPTY])));
}

// Returns the result of opening a store whose image or segment has another byte at an offset.
fn corrupted<S: Store + Drop>(alloc: Global, is_image: bool, at: usize, byte: u8) -> Option<Found> {
    let mut image0 = IMAGE;
    let mut segment0 = SEGMENT;
    let is_set = if is_image {
        set(&mut image0, at, byte)
    } else {
        set(&mut segment0, at, byte)
    };
    is_set?;
    opened_with::<S>(alloc, &image0, &segment0)
}

const DAMAGED: Found = Err(StoreFault::Damaged);

const VERSION: Found = Err(StoreFault::Version);

// The image isn't valid in version 1. The segment has the same record in version 1, and the store continues in the next
// epoch.
static CORRUPTED: [(bool, usize, u8, Found); 11] = [
    (true, 0, 0, DAMAGED),
    (true, 1, 1, DAMAGED),
    (true, 1, 9, VERSION),
    (false, 1, 1, Ok((0, [0x20000, 0, 0], 70))),
    (false, 1, 3, VERSION),
    (true, 2, 1, DAMAGED),
    (true, 8, 1, DAMAGED),
    (true, 8, 2, DAMAGED),
    (false, 16, 0, EMPTY),
    (false, 17, 2, DAMAGED),
    (false, 69, 0x5a, DAMAGED),
];

#[test]
fn corrupted_bytes(rt: HostRuntime) {
    for (is_image, at, byte, found) in &CORRUPTED {
        let seen = corrupted::<MemDisk>(rt.alloc(), *is_image, *at, *byte);
        same_in_row(&rt, (*byte, *at), seen, Some(*found));
    }
}

// Returns the result of opening a store whose segment is truncated to `length` bytes.
fn cut<S: Store + Drop>(alloc: Global, length: usize) -> Option<Found> {
    opened_with::<S>(alloc, &IMAGE, SEGMENT.get(..length)?)
}

static CUT: [(usize, Found); 5] = [
    (69, STORED),
    (68, DAMAGED),
    (17, DAMAGED),
    (16, EMPTY),
    (15, DAMAGED),
];

#[test]
fn cut_segments(rt: HostRuntime) {
    for (length, found) in &CUT {
        let seen = cut::<MemDisk>(rt.alloc(), *length);
        same_in_row(&rt, *length, seen, Some(*found));
    }
}

// Offset of the lowest byte of the number of one of the last records.
const LATE_NUMBER: usize = 16 + 19_990 * 53 + 13;

// Length of a segment of 20,000 records.
const LONG: usize = 16 + 20_000 * 53 + 1;

// Returns the results of opening a store of many records, and one in which a record has a wrong number.
fn many_records<S: Store + Drop>(alloc: Global, segment: &mut [u8]) -> [Option<Found>; 2] {
    let whole = opened_with::<S>(alloc, &IMAGE, segment);
    if set(segment, LATE_NUMBER, 0).is_none() {
        return [None; 2];
    }
    [whole, opened_with::<S>(alloc, &IMAGE, segment)]
}

fn many_made<S: Store + Drop>(alloc: Global) -> Option<[Option<Found>; 2]> {
    let mut segment = long_segment(alloc, 19_999).ok()?;
    let seen = many_records::<S>(alloc, &mut segment);
    drop(segment);
    Some(seen)
}

// Stores of more bytes than are read at once.
#[test]
fn stores_of_many_records(rt: HostRuntime) {
    let seen = many_made::<MemDisk>(rt.alloc());
    let whole = Ok((20_000, [0x20000, 0, 0], LONG));
    same(&rt, seen, Some([Some(whole), Some(DAMAGED)]));
}

// `SEGMENT` with an unknown version.
static OTHER: [u8; 70] = [
    0x5a, 3, 0, 0, 0, 0, 0, 0, 0, 0, 0, 0, 0, 0, 0, 0, 0x5a, 1, 0, 0, 0, 40, 0, 0, 0, 0, 0, 0, 0,
    0, 0, 0, 0, 0, 0, 0, 0, 1, 0, 0, 0, 8, 0, 0, 0, 5, 0, 0, 0, 1, 0, 0, 0, 12, 0, 0, 0, 5, 0, 0,
    0, 0, 0, 0, 0, 0, 1, 0, 0, 0,
];

// The lengths of an image and a segment in the second slots, a flag that the segment has an unknown version, and the
// result of opening the store.
type Second = (usize, usize, bool, Found);

// Returns the result of opening a store with a stored record if the second slots have these contents.
fn alongside<S: Store + Drop>(alloc: Global, row: &Second) -> Option<Found> {
    let (image1, segment1, is_other, _) = *row;
    let segment = if is_other { &OTHER } else { &SEGMENT };
    let (image1, segment1) = (IMAGE.get(..image1)?, segment.get(..segment1)?);
    let disk = S::holding(alloc, [&IMAGE, image1, &SEGMENT, segment1])?;
    Some(reopened(alloc, disk))
}

static SECOND: [Second; 5] = [
    (24, 0, false, DAMAGED),
    (23, 0, false, STORED),
    (0, 16, false, DAMAGED),
    (0, 15, false, STORED),
    (24, 70, true, VERSION),
];

#[test]
fn second_slots(rt: HostRuntime) {
    for row in &SECOND {
        same_in_row(&rt, row, alongside::<MemDisk>(rt.alloc(), row), Some(row.3));
    }
}

// Stores a batch of `count` records, and opens the store that a crash at a device call leaves.
fn stopped<S: Store + Drop>(alloc: Global, count: u8, stop_at: u64, torn: Torn) -> Option<Found> {
    let mut disk: S = disk_with(alloc, &IMAGE, &NEW_SEGMENT)?;
    disk.plan_faults(Some(stop_at), None, torn);
    let _ = append_allocations(alloc, &mut segment_of(0), &mut disk, count);
    Some(reopened(alloc, disk.stop()?))
}

// The contents that a crash leaves of the gate, and true if that is an open gate.
static GATES: [(Torn, bool); 5] = [
    (Torn::Old, false),
    (Torn::New, true),
    (Torn::Half, true),
    (Torn::Fill(0x5a), true),
    (Torn::Fill(1), false),
];

#[test]
fn crashes_within_an_append(rt: HostRuntime) {
    for (torn, opens) in &GATES {
        for stop_at in 1..6u64 {
            let is_stored = stop_at == 5 || stop_at >= 3 && *opens;
            let wanted = if is_stored {
                [Some(STORED), Some(PAIR)]
            } else {
                [Some(EMPTY); 2]
            };
            let found = [
                stopped::<MemDisk>(rt.alloc(), 1, stop_at, *torn),
                stopped::<MemDisk>(rt.alloc(), 2, stop_at, *torn),
            ];
            same_in_row(&rt, (torn, stop_at), found, wanted);
        }
    }
}

// Stores: true if there is an image; the number of batches in the segment; the number of bytes left of it; the number
// of device calls in an opening (four syncs and four reads of headers; then the creation, or reads of the image's
// version, its length and its encoding, of the segment's version and of the bytes after its header, and the segment's
// end); and the result.
type Described = (bool, u8, usize, u64, Found);

static STORES: [Described; 3] = [
    (false, 0, 0, 23, EMPTY),
    (true, 1, 70, 15, STORED),
    (true, 100, 5_317, 15, HUNDRED),
];

// Segments without a gate after their batches, which no server leaves.
static FOREIGN: [Described; 2] = [(true, 1, 69, 15, STORED), (true, 0, 16, 14, EMPTY)];

// Returns the batch of `SEGMENT` with its own number and name.
fn batch_of(number: u8) -> [u8; 53] {
    let mut batch = [0; 53];
    batch.copy_from_slice(&SEGMENT[16..69]);
    batch[13] = number;
    batch[49] = number;
    batch
}

fn add_batches(segment: &mut Vec<u8>, batches: u8) -> Result<(), AllocError> {
    for number in 0..batches {
        segment.extend_from_slice(&batch_of(number))?;
    }
    segment.extend_from_slice(&[0])
}

// Returns a segment of epoch 0 with `batches` such batches.
fn batches_of(alloc: Global, batches: u8) -> Result<Vec<u8>, AllocError> {
    let mut segment = SEGMENT[..16].to_vec(alloc)?;
    add_batches(&mut segment, batches)?;
    Ok(segment)
}

fn disk_of<S: Store + Drop>(alloc: Global, store: &Described) -> Option<S> {
    let (show_image, batches, length, _, _) = *store;
    let segment = batches_of(alloc, batches).ok()?;
    let image: &[u8] = if show_image { &IMAGE } else { &[] };
    disk_with(alloc, image, segment.get(..length).unwrap_or(&segment))
}

// Opens a store with a crash at a device call, and opens the store that it leaves.
fn stopped_opening<S: Store + Drop>(
    alloc: Global,
    store: &Described,
    stop_at: u64,
    torn: Torn,
) -> Option<(Option<StoreFault>, Found)> {
    let mut disk: S = disk_of(alloc, store)?;
    disk.plan_faults(Some(stop_at), None, torn);
    let (found, disk) = opened(alloc, disk);
    Some((found.err(), reopened(alloc, disk.stop()?)))
}

#[test]
fn crashes_within_an_opening(rt: HostRuntime) {
    for store in &STORES {
        for torn in &TORN {
            for stop_at in 1..store.3 + 2 {
                let fault = if stop_at <= store.3 {
                    Some(StoreFault::Device)
                } else {
                    None
                };
                let seen = stopped_opening::<MemDisk>(rt.alloc(), store, stop_at, *torn);
                same_in_row(&rt, (store, torn, stop_at), seen, Some((fault, store.4)));
            }
        }
    }
}

// A crash during the write of the missing gate may leave an open one, which is then a damaged batch. Nothing else is
// promised for such a segment; every other crash leaves the state.
fn is_promised(store: &Described, torn: Torn, found: Found) -> bool {
    found == store.4 || torn == Torn::Fill(OPEN_GATE) && found == Err(StoreFault::Damaged)
}

#[test]
fn crashes_within_the_opening_of_a_foreign_segment(rt: HostRuntime) {
    for store in &FOREIGN {
        for torn in &TORN {
            for stop_at in 1..store.3 + 2 {
                let seen = match stopped_opening::<MemDisk>(rt.alloc(), store, stop_at, *torn) {
                    Some((_, found)) => is_promised(store, *torn, found),
                    None => false,
                };
                same_in_row(&rt, (store, torn, stop_at), seen, true);
            }
        }
    }
}

// Opens a store with a device call that fails, and opens it again.
fn failed_opening<S: Store + Drop>(
    alloc: Global,
    store: &Described,
    fail_at: u64,
) -> Option<(Option<StoreFault>, Found)> {
    let mut disk: S = disk_of(alloc, store)?;
    disk.plan_faults(None, Some(fail_at), Torn::Old);
    let (found, disk) = opened(alloc, disk);
    Some((found.err(), reopened(alloc, disk)))
}

fn fail_each(rt: &impl Abort, alloc: Global, stores: &[Described]) {
    for store in stores {
        for done in 0..store.3 {
            let fail_at = done + 1;
            let seen = failed_opening::<MemDisk>(alloc, store, fail_at);
            let wanted = Some((Some(StoreFault::Device), store.4));
            same_in_row(rt, (store, fail_at), seen, wanted);
        }
    }
}

#[test]
fn failures_within_an_opening(rt: HostRuntime) {
    fail_each(&rt, rt.alloc(), &STORES);
    fail_each(&rt, rt.alloc(), &FOREIGN);
}
