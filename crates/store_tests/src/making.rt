//! A stored record and its segment. The functions have no contracts, so that a test's proof carries nothing of them.
ghost use Rattle.std.specs.Prelude.{◌≤◌, length};
ghost use Rattle.codes.specs.declared.limits.TheConstants.{MAX_FRAME_CONTENT};
ghost use Rattle.ipc_model.specs.encodings.Encodings.{call_encoding, reply_encoding};

use disk::Disk;
use ipc_model::{Call, PlainCall, PlainReply, Record, Reply};
use journal::{Batch, Segment};
use slot_steps::segment_slot;
use std::alloc::Global;
use store_fault::StoreFault;

/// A segment of epoch 0 with one batch: that of record 0, which is the allocation of the name 0x100.
pub(crate) static SEGMENT: [u8; 70] = [
    0x5a, 2, 0, 0, 0, 0, 0, 0, 0, 0, 0, 0, 0, 0, 0, 0, 0x5a, 1, 0, 0, 0, 40, 0, 0, 0, 0, 0, 0, 0,
    0, 0, 0, 0, 0, 0, 0, 0, 1, 0, 0, 0, 8, 0, 0, 0, 5, 0, 0, 0, 1, 0, 0, 0, 12, 0, 0, 0, 5, 0, 0,
    0, 0, 0, 0, 0, 0, 1, 0, 0, 0,
];

/// A segment of epoch 0 without batches.
pub(crate) static NEW_SEGMENT: [u8; 17] = [0x5a, 2, 0, 0, 0, 0, 0, 0, 0, 0, 0, 0, 0, 0, 0, 0, 0];

/// Returns the record of a successful allocation of a name.
#[tactic(auto, unfolding(ipc_model::specs::encodings::PlainCalls::call_encoding, ipc_model::specs::encodings::PlainCalls::reply_encoding))]
fn allocation(name: u32) -> Record
    ensures call { length (call_encoding result.call) ≤ MAX_FRAME_CONTENT }
    ensures reply { length (reply_encoding result.reply) ≤ MAX_FRAME_CONTENT }
{
    Record {
        space: 1,
        call: Call::Plain(PlainCall::Allocate { right: 1 }),
        reply: Reply::Plain(PlainReply::Allocate { name }),
    }
}

/// Adds the record with this number: the allocation of the name 0x100 plus `first` plus the number's lowest byte.
fn add_allocation(batch: &mut Batch, number: u64, first: u8) -> Result<(), StoreFault> {
    if batch.count() == u32::MAX {
        return Err(StoreFault::Full);
    }
    let [low, ..] = number.to_le_bytes();
    let record = allocation(0x100 + u32::from(first) + u32::from(low));
    let added = batch.add_exchange(number, record.space, &record.call, &record.reply);
    drop(record);
    added?;
    Ok(())
}

/// Adds `count` records, from this number on, where record 0 allocates the name 0x100 plus `first`.
fn add_allocations(batch: &mut Batch, number: u64, count: u8, first: u8) -> Result<(), StoreFault> {
    for at in 0..count {
        let number = number.saturating_add(u64::from(at));
        add_allocation(batch, number, first)?;
    }
    Ok(())
}

/// Returns a batch of these records.
fn batch_of(alloc: Global, number: u64, count: u8, first: u8) -> Result<Batch, StoreFault> {
    let mut batch = Batch::new(alloc);
    add_allocations(&mut batch, number, count, first)?;
    Ok(batch)
}

/// Returns a segment value of epoch 0 with `records` records.
pub(crate) fn segment_of(records: u64) -> Segment {
    Segment { epoch: 0, records }
}

/// Appends a batch. Nothing is appended if it has no records, or to a slot without a header.
fn append<D: Disk>(segment: &mut Segment, disk: &mut D, batch: &Batch) -> Result<(), StoreFault> {
    if batch.count() == 0 || disk.length(segment_slot(segment.epoch)) == 0 {
        return Ok(());
    }
    segment.append(disk, batch)
}

/// Appends a batch of `count` records, where record 0 of the segment allocates the name 0x100 plus `first`.
pub(crate) fn append_from<D: Disk>(
    alloc: Global,
    segment: &mut Segment,
    disk: &mut D,
    first: u8,
    count: u8,
) -> Result<(), StoreFault> {
    let batch = batch_of(alloc, segment.records, count, first)?;
    append(segment, disk, &batch)
}

/// Appends a batch of `count` records. The names of an epoch begin at 0x100 plus its number.
pub(crate) fn append_allocations<D: Disk>(
    alloc: Global,
    segment: &mut Segment,
    disk: &mut D,
    count: u8,
) -> Result<(), StoreFault> {
    let [first, ..] = segment.epoch.to_le_bytes();
    append_from(alloc, segment, disk, first, count)
}
