use crate::expect::{same, same_in_row};
use crate::making::{NEW_SEGMENT, SEGMENT, append_allocations, segment_of};
use crate::store::{Store, disk_with};
use crate::streams::{Read, long_segment, records_of};
use disk::{Disk, MemDisk, Slot};
use ipc_model::{Call, PlainCall, PlainReply, Reply};
use journal::{LONGEST_STEP, PIECE, Segment};
use std::alloc::Global;
use store_fault::StoreFault;

// Appends batches with these numbers of records.
fn append_all<D: Disk>(
    alloc: Global,
    segment: &mut Segment,
    disk: &mut D,
    counts: &[u8],
) -> Result<(), StoreFault> {
    for count in counts {
        append_allocations(alloc, segment, disk, *count)?;
    }
    Ok(())
}

// The result of appending batches with these numbers of records; the number of records in the segment then; and a flag
// that it has these bytes.
type Stored = (Result<(), StoreFault>, u64, bool);

fn stored<S: Store + Drop>(alloc: Global, counts: &[u8], wanted: &[u8]) -> Option<Stored> {
    let mut disk: S = disk_with(alloc, &[], &NEW_SEGMENT)?;
    let mut segment = segment_of(0);
    let answer = append_all(alloc, &mut segment, &mut disk, counts);
    let is_wanted = disk.bytes(Slot::Segment0) == wanted;
    Some((answer, segment.records, is_wanted))
}

#[test]
fn a_batch_is_stored(rt: HostRuntime) {
    let seen = stored::<MemDisk>(rt.alloc(), &[1], &SEGMENT);
    same(&rt, seen, Some((Ok(()), 1, true)));
}

// A segment of epoch 0 with two batches: one of two records, then one of a single record.
static TWO_BATCHES: [u8; 163] = [
    0x5a, 2, 0, 0, 0, 0, 0, 0, 0, 0, 0, 0, 0, 0, 0, 0, // the header
    0x5a, 2, 0, 0, 0, 80, 0, 0, 0, 0, 0, 0, 0, // two records of 80 bytes
    0, 0, 0, 0, 0, 0, 0, 0, 1, 0, 0, 0, // the first, of space 1
    8, 0, 0, 0, 5, 0, 0, 0, 1, 0, 0, 0, // allocate a receive right
    12, 0, 0, 0, 5, 0, 0, 0, 0, 0, 0, 0, 0, 1, 0, 0, // done, as 0x100
    1, 0, 0, 0, 0, 0, 0, 0, 1, 0, 0, 0, //
    8, 0, 0, 0, 5, 0, 0, 0, 1, 0, 0, 0, //
    12, 0, 0, 0, 5, 0, 0, 0, 0, 0, 0, 0, 1, 1, 0, 0, //
    0x5a, 1, 0, 0, 0, 40, 0, 0, 0, 0, 0, 0, 0, //
    2, 0, 0, 0, 0, 0, 0, 0, 1, 0, 0, 0, //
    8, 0, 0, 0, 5, 0, 0, 0, 1, 0, 0, 0, //
    12, 0, 0, 0, 5, 0, 0, 0, 0, 0, 0, 0, 2, 1, 0, 0, //
    0,
];

#[test]
fn a_batch_has_one_gate(rt: HostRuntime) {
    let seen = stored::<MemDisk>(rt.alloc(), &[2, 1], &TWO_BATCHES);
    same(&rt, seen, Some((Ok(()), 3, true)));
}

// The result of an append, and the numbers of records and bytes in the segment then.
type Appended = (Result<(), StoreFault>, u64, usize);

// Appends a batch of `count` records to a segment of `records` records.
fn appended<S: Store + Drop>(alloc: Global, records: u64, count: u8) -> Option<Appended> {
    let mut disk: S = disk_with(alloc, &[], &NEW_SEGMENT)?;
    let mut segment = segment_of(records);
    let answer = append_allocations(alloc, &mut segment, &mut disk, count);
    Some((answer, segment.records, disk.bytes(Slot::Segment0).len()))
}

static APPENDED: [(u64, u8, Appended); 4] = [
    (65_535, 1, (Ok(()), 65_536, 70)),
    (65_535, 2, (Err(StoreFault::Full), 65_535, 17)),
    (65_534, 2, (Ok(()), 65_536, 110)),
    (65_536, 1, (Err(StoreFault::Full), 65_536, 17)),
];

// A batch fits as a whole, or nothing of it is stored.
#[test]
fn a_segment_holds_65536_records(rt: HostRuntime) {
    for (records, count, wanted) in &APPENDED {
        let seen = appended::<MemDisk>(rt.alloc(), *records, *count);
        same_in_row(&rt, (*records, *count), seen, Some(*wanted));
    }
}

// Returns the records of a segment that is read in pieces of `room` bytes, and the offset at which the last one ends.
fn read<S: Store + Drop>(
    alloc: Global,
    segment: &[u8],
    room: usize,
) -> Option<Result<Read, StoreFault>> {
    let mut disk: S = disk_with(alloc, &[], segment)?;
    records_of(alloc, &mut disk, room)
}

// Returns the offset at which the only record that was read ends, its space, and two flags: its call is an allocation,
// and its reply is the name 0x100.
fn only_of(read: &Read) -> Option<(u64, u32, bool, bool)> {
    let [record] = read.records.as_slice() else {
        return None;
    };
    let is_call = matches!(&record.call, Call::Plain(PlainCall::Allocate { right: 1 }));
    let is_reply = matches!(
        &record.reply,
        Reply::Plain(PlainReply::Allocate { name: 0x100 })
    );
    Some((read.end, record.space, is_call, is_reply))
}

fn read_only<S: Store + Drop>(alloc: Global) -> Option<(u64, u32, bool, bool)> {
    let read = read::<S>(alloc, &SEGMENT, PIECE)?.ok()?;
    only_of(&read)
}

#[test]
fn records_are_read(rt: HostRuntime) {
    let seen = read_only::<MemDisk>(rt.alloc());
    same(&rt, seen, Some((69, 1, true, true)));
}

// Returns a segment with the batch of `SEGMENT` twice.
fn twice() -> [u8; 123] {
    let mut twice = [0; 123];
    twice[..69].copy_from_slice(&SEGMENT[..69]);
    twice[69..].copy_from_slice(&SEGMENT[16..]);
    twice
}

// Returns the fault of the read of a segment, if there is one.
fn fault_of<S: Store + Drop>(alloc: Global, segment: &[u8]) -> Option<Option<StoreFault>> {
    Some(read::<S>(alloc, segment, PIECE)?.err())
}

#[test]
fn a_second_batch_has_its_own_number(rt: HostRuntime) {
    let fault = fault_of::<MemDisk>(rt.alloc(), &twice());
    same(&rt, fault, Some(Some(StoreFault::Damaged)));
}

// Returns the number of records that were read, and the offset at which the last one ends.
fn size_of(read: Option<Result<Read, StoreFault>>) -> Option<(usize, u64)> {
    let read = read?.ok()?;
    let size = (read.records.len(), read.end);
    drop(read);
    Some(size)
}

// Returns the same for a long segment.
fn seen_in<S: Store + Drop>(alloc: Global, count: u16, room: usize) -> Option<(usize, u64)> {
    let segment = long_segment(alloc, count).ok()?;
    let read = read::<S>(alloc, &segment, room);
    drop(segment);
    size_of(read)
}

// The offset at which a segment of 2,600 records ends.
const END: u64 = 16 + 2_600 * 53;

static ROOMS: [usize; 5] = [
    LONGEST_STEP,
    LONGEST_STEP + 1,
    LONGEST_STEP + 52,
    LONGEST_STEP + 1_000,
    PIECE,
];

// Records cross the edges of pieces, and pieces may have any size that is allowed.
#[test]
fn pieces_of_any_size(rt: HostRuntime) {
    for room in &ROOMS {
        let seen = seen_in::<MemDisk>(rt.alloc(), 2_599, *room);
        same_in_row(&rt, *room, seen, Some((2_600, END)));
    }
}

// Returns true if a fault has this error message.
fn is_reported(alloc: Global, fault: StoreFault, words: &str) -> Option<bool> {
    let reported = format!(in alloc; "{fault}").ok()?;
    Some(reported.as_str() == words)
}

static FAULTS: [(StoreFault, u8, &'static str); 6] = [
    (StoreFault::Device, 1, "device"),
    (StoreFault::Full, 2, "full"),
    (StoreFault::Damaged, 3, "damaged"),
    (StoreFault::NoMemory, 4, "no memory"),
    (StoreFault::Failed, 5, "failed"),
    (StoreFault::Version, 6, "version"),
];

#[test]
fn names_of_faults(rt: HostRuntime) {
    for (fault, number, words) in &FAULTS {
        let is_reported = is_reported(rt.alloc(), *fault, words);
        same_in_row(
            &rt,
            *words,
            (fault.number(), is_reported),
            (*number, Some(true)),
        );
    }
}
