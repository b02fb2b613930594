//! Stores of later epochs, and with an interrupted checkpoint.
use crate::bending::{Found, reopened};
use crate::expect::{same, same_in_row};
use crate::looked::looked;
use crate::making::{SEGMENT, append_allocations, append_from};
use crate::store::{Store, TORN, disk_of, keeps};
use crate::written::{CURRENT, image_of_name, image_of_none, opened_slot};
use disk::{Disk, MemDisk, Slot, Torn};
use journal::{Segment, roll_close, roll_head, roll_open};
use slot_steps::segment_slot;
use std::alloc::{AllocError, Global};
use store_fault::StoreFault;

// Returns an epoch's segment. Its slot isn't empty once it is closed.
fn next_segment<D: Disk>(disk: &mut D, epoch: u64) -> Result<Segment, StoreFault> {
    roll_close(disk, epoch)?;
    if disk.length(segment_slot(epoch)) == 0 {
        return Err(StoreFault::Device);
    }
    roll_head(disk, epoch)?;
    Ok(roll_open(disk, epoch)?)
}

// Appends a record to a segment, and creates the next epoch's segment.
fn roll<D: Disk>(
    alloc: Global,
    segment: &mut Segment,
    disk: &mut D,
) -> Result<Segment, StoreFault> {
    append_allocations(alloc, segment, disk, 1)?;
    next_segment(disk, segment.epoch.saturating_add(1))
}

// Returns a new store with a record in its segment, and with the next epoch's segment, but not its image.
fn rolled<S: Store + Drop>(alloc: Global) -> Option<(S, Segment)> {
    let (mut disk, mut segment) = S::empty(alloc).go_on(alloc)?;
    let next = roll(alloc, &mut segment, &mut disk).ok()?;
    Some((disk, next))
}

// Returns the same store with a record in the next epoch's segment.
fn half_done<S: Store + Drop>(alloc: Global) -> Option<S> {
    let (mut disk, mut next) = rolled::<S>(alloc)?;
    append_allocations(alloc, &mut next, &mut disk, 1).ok()?;
    Some(disk)
}

// An epoch, and the reported number of records.
type Reported = Result<(u64, u64), StoreFault>;

// Returns the epoch of a store's image and the number of its records, without opening it.
fn look_at<D: Disk>(alloc: Global, disk: &mut D) -> Reported {
    let (epoch, records, _, _) = looked(alloc, disk)?;
    Ok((epoch, records))
}

// Returns the reports on a store whose checkpoint was interrupted: by a look, by its opening, and by a look after that.
fn reported_of_half_done<S: Store + Drop>(alloc: Global) -> Option<(Reported, Found, Reported)> {
    let mut disk = half_done::<S>(alloc)?;
    let first = look_at(alloc, &mut disk);
    let (found, mut disk) = reopened(alloc, disk);
    Some((first, found, look_at(alloc, &mut disk)))
}

// A store whose first checkpoint was interrupted is in epoch 1 once it is opened; then its second checkpoint is
// interrupted.
#[test]
fn checkpoints_are_finished(rt: HostRuntime) {
    let reported = reported_of_half_done::<MemDisk>(rt.alloc());
    let found = Ok((1, 1, [true, true, false, false]));
    same(&rt, reported, Some((Ok((0, 2)), found, Ok((1, 1)))));
}

// Returns the slots of an epoch and of the next one, all whole. The image of the first epoch has no name, and its
// segment allocates 0x100. With that name the next epoch begins, whose segment has this content.
fn in_epochs(
    alloc: Global,
    first: u64,
    next: u64,
    segment1: &[u8],
) -> Result<[Vec<u8>; 4], AllocError> {
    Ok([
        image_of_none(alloc, CURRENT, first)?,
        image_of_name(alloc, CURRENT, next, 0)?,
        opened_slot(alloc, CURRENT, first, &SEGMENT[16..])?,
        opened_slot(alloc, CURRENT, next, segment1)?,
    ])
}

// Returns the lengths of the next image and segment; and twice the result of opening the store, with a flag that its
// slots are then those of epoch 1.
fn finished_without_image<S: Store + Drop>(
    alloc: Global,
    wanted: &[Vec<u8>; 4],
) -> Option<([usize; 2], [(Found, [bool; 4]); 2])> {
    let (disk, _) = rolled::<S>(alloc)?;
    let lengths = [
        disk.bytes(Slot::Image1).len(),
        disk.bytes(Slot::Segment1).len(),
    ];
    let (first, disk) = reopened(alloc, disk);
    let is_first = keeps(&disk, wanted);
    let (second, disk) = reopened(alloc, disk);
    let is_second = keeps(&disk, wanted);
    Some((lengths, [(first, is_first), (second, is_second)]))
}

// The next segment is open, without records, and there is only the image of epoch 0.
#[test]
fn a_checkpoint_without_its_image_is_finished(rt: HostRuntime) {
    let Ok(wanted) = in_epochs(rt.alloc(), 0, 1, &[0]) else {
        return same(&rt, false, true);
    };
    let seen = finished_without_image::<MemDisk>(rt.alloc(), &wanted);
    drop(wanted);
    let found = (Ok((1, 0, [true, false, false, false])), [true; 4]);
    same(&rt, seen, Some(([0, 17], [found, found])));
}

// Opens a store, and appends the record of the name 0x101.
fn appended<S: Store + Drop>(alloc: Global, disk: S) -> Option<S> {
    let (mut disk, mut segment) = disk.go_on(alloc)?;
    append_from(alloc, &mut segment, &mut disk, 1, 1).ok()?;
    Some(disk)
}

// Returns a segment's content with the record of the name 0x101.
fn second_batch() -> [u8; 54] {
    let mut batch = [0; 54];
    batch.copy_from_slice(&SEGMENT[16..]);
    batch[49] = 1;
    batch
}

// Returns the result of opening a store with these slots, and a flag that it then has these slots; and the same after
// an append, which leaves those slots.
fn gone_on<S: Store + Drop>(
    alloc: Global,
    before: &[Vec<u8>; 4],
    after: &[Vec<u8>; 4],
) -> Option<[(Found, [bool; 4]); 2]> {
    let disk: S = disk_of(alloc, before)?;
    let (first, disk) = reopened(alloc, disk);
    let is_first = keeps(&disk, before);
    let (second, disk) = reopened(alloc, appended(alloc, disk)?);
    let is_second = keeps(&disk, after);
    Some([(first, is_first), (second, is_second)])
}

// Returns the same for a store of epochs 4 and 5.
fn gone_on_in_five<S: Store + Drop>(alloc: Global) -> Option<[(Found, [bool; 4]); 2]> {
    let before = in_epochs(alloc, 4, 5, &[0]).ok()?;
    let after = in_epochs(alloc, 4, 5, &second_batch());
    let seen = match &after {
        Ok(after) => gone_on::<S>(alloc, &before, after),
        Err(_) => None,
    };
    drop(after);
    drop(before);
    seen
}

#[test]
fn records_go_to_the_segment_of_the_newest_image(rt: HostRuntime) {
    let seen = gone_on_in_five::<MemDisk>(rt.alloc());
    let wanted = [
        (Ok((5, 0, [true, false, false, false])), [true; 4]),
        (Ok((5, 1, [true, true, false, false])), [true; 4]),
    ];
    same(&rt, seen, Some(wanted));
}

// Number of device calls in the opening of such a store: four syncs, four headers, the image's version, length and
// encoding, the version and the batches of two segments; three calls that clear the next image, one for its encoding,
// two for its header and two for its gate; and the two that end the segment.
const CALLS: u64 = 25;

// Returns the fault of an opening during which a crash may occur, and the result of opening the store again.
fn stopped<S: Store + Drop>(
    alloc: Global,
    stop_at: u64,
    torn: Torn,
) -> Option<(Option<StoreFault>, Found)> {
    let mut disk = half_done::<S>(alloc)?;
    disk.plan_faults(Some(stop_at), None, torn);
    let (first, disk) = reopened(alloc, disk);
    let (found, _) = reopened(alloc, disk.stop()?);
    Some((first.err(), found))
}

// Whatever a crash during the opening leaves, the next one returns the state with both records, in epoch 1.
#[test]
fn crashes_while_a_checkpoint_is_finished(rt: HostRuntime) {
    for torn in &TORN {
        for stop_at in 1..CALLS + 2 {
            let fault = if stop_at <= CALLS {
                Some(StoreFault::Device)
            } else {
                None
            };
            same_in_row(
                &rt,
                (torn, stop_at),
                stopped::<MemDisk>(rt.alloc(), stop_at, *torn),
                Some((fault, Ok((1, 1, [true, true, false, false])))),
            );
        }
    }
}
