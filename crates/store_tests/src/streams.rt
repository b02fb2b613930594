//! Segments of many records, and reading them.
ghost use Rattle.std.specs.Prelude.{◌≤◌, length};
ghost use Rattle.disk.specs.Slots.{slot_of};
ghost use Rattle.journal.specs.Windows.{IsOver};

use crate::making::SEGMENT;
use disk::{Disk, Slot};
use ipc_model::Record;
use journal::{LONGEST_STEP, RecordReader};
use std::alloc::{AllocError, Global};
use store_fault::StoreFault;

/// The records that were read of a segment, and the offset at which the last one ends.
#[derive(Drop)]
pub(crate) struct Read {
    pub(crate) records: Vec<Record>,
    pub(crate) end: u64,
}

/// Reads all remaining records.
fn read_all<D: Disk>(
    alloc: Global,
    reader: &mut RecordReader,
    disk: &mut D,
) -> Result<Vec<Record>, StoreFault>
    requires { D.honest → IsOver (slot_of (D.view disk.old).seen reader.old.window.slot) reader.old.window }
{
    let mut records = Vec::new(alloc);
    while let Some(entry) = reader.next(disk)? {
        records.push(entry)?;
    }
    Ok(records)
}

fn read_from<D: Disk>(alloc: Global, disk: &mut D, room: usize) -> Result<Read, StoreFault>
    requires place { D.honest → 16 ≤ length (slot_of (D.view disk.old).seen Slot.Segment0) }
    requires room { LONGEST_STEP ≤ room }
{
    let mut reader = RecordReader::new(alloc, disk, Slot::Segment0, 16, room)?;
    let records = read_all(alloc, &mut reader, disk)?;
    let end = reader.at();
    Ok(Read { records, end })
}

/// Reads a segment of epoch 0 in pieces of `room` bytes, if it has a header and a piece is large enough.
pub(crate) fn records_of<D: Disk>(
    alloc: Global,
    disk: &mut D,
    room: usize,
) -> Option<Result<Read, StoreFault>> {
    if disk.length(Slot::Segment0) < 16 || room < LONGEST_STEP {
        return None;
    }
    Some(read_from(alloc, disk, room))
}

/// The rest of a record after its number and space: a call that sets the queue limit of the port 0x100 to 5, and the
/// reply that it was done.
static LIMIT_SET: [u8; 28] = [
    12, 0, 0, 0, 10, 0, 0, 0, 0, 1, 0, 0, 5, 0, 0, 0, 8, 0, 0, 0, 10, 0, 0, 0, 0, 0, 0, 0,
];

/// Returns the batch of the record with this number, which sets that limit.
fn limit_batch(number: u32) -> [u8; 53] {
    let mut batch = [0; 53];
    batch[..25].copy_from_slice(&SEGMENT[16..41]);
    batch[13..17].copy_from_slice(&number.to_le_bytes());
    batch[25..].copy_from_slice(&LIMIT_SET);
    batch
}

fn add_limits(segment: &mut Vec<u8>, count: u16) -> Result<(), AllocError> {
    for number in 1..=u32::from(count) {
        segment.extend_from_slice(&limit_batch(number))?;
    }
    segment.extend_from_slice(&[0])
}

/// Returns a segment of epoch 0 with `count` batches of one record each, and one more: the allocation of [`SEGMENT`],
/// followed by calls that set limits. Each batch has 53 bytes.
pub(crate) fn long_segment(alloc: Global, count: u16) -> Result<Vec<u8>, AllocError> {
    let mut segment = SEGMENT[..69].to_vec(alloc)?;
    add_limits(&mut segment, count)?;
    Ok(segment)
}
