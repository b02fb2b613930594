//! Stores of whole and corrupted slots, and the results of opening them.
use crate::store::{Store, are_receive, disk_of, keeps};
use crate::written::{CURRENT, image_of_name, segment_of_name};
use disk::Slot;
use journal::OPEN_GATE;
use std::alloc::{AllocError, Global};
use store_fault::StoreFault;

/// The epochs of image 0, image 1, segment 0 and segment 1. A slot without an epoch is empty.
pub(crate) type Epochs = [Option<u64>; 4];

/// The result of opening a store: its epoch, the number of records in its segment, and flags for the slots from which
/// its state comes, in the same order. Each slot has its own name, images in their encoding and segments in their
/// record: 0x100 to 0x103.
pub(crate) type Found = Result<(u64, u64, [bool; 4]), StoreFault>;

pub(crate) const DAMAGED: Found = Err(StoreFault::Damaged);

/// No slot is open: a new store is made.
pub(crate) const NEW: Found = Ok((0, 0, [false, false, false, false]));

/// Image 4 and its segment.
pub(crate) const FOUR: Found = Ok((4, 1, [true, false, true, false]));

/// The same, and segment 5: image 5 is written.
pub(crate) const FOUR_TO_FIVE: Found = Ok((5, 1, [true, false, true, true]));

/// Image 5 and its segment.
pub(crate) const FIVE: Found = Ok((5, 1, [false, true, false, true]));

/// A corruption of a slot.
#[derive(Clone, Copy)]
pub(crate) enum Bend {
    /// The byte at this offset is replaced by this one.
    Byte(usize, u8),
    /// All bytes from this offset on are 0.
    Zero(usize),
    /// The slot is truncated to this length, or extended to it with bytes ff.
    Length(usize),
}

/// Returns a slot of this version and epoch, with its own name.
pub(crate) fn whole_slot(
    alloc: Global,
    slot: Slot,
    version: u8,
    epoch: u64,
) -> Result<Vec<u8>, AllocError> {
    match slot {
        Slot::Image0 => image_of_name(alloc, version, epoch, 0),
        Slot::Image1 => image_of_name(alloc, version, epoch, 1),
        Slot::Segment0 => segment_of_name(alloc, version, epoch, 2),
        Slot::Segment1 => segment_of_name(alloc, version, epoch, 3),
    }
}

/// Replaces a byte, which must exist and differ.
pub(crate) fn set(bytes: &mut [u8], at: usize, byte: u8) -> Option<()> {
    let place = bytes.get_mut(at)?;
    if *place == byte {
        return None;
    }
    *place = byte;
    Some(())
}

// Corrupts a slot.
fn change(bytes: &mut Vec<u8>, how: Bend) -> Option<()> {
    match how {
        Bend::Byte(at, byte) => set(bytes, at, byte),
        Bend::Zero(from) => {
            let length = bytes.len();
            bytes.truncate(from);
            bytes.resize(length, 0).ok()
        }
        Bend::Length(length) => bytes.resize(length, 0xff).ok(),
    }
}

fn change_all(bytes: &mut Vec<u8>, slot: Slot, bends: &[(Slot, Bend)]) -> Option<()> {
    for (corrupted, how) in bends {
        if *corrupted == slot {
            change(bytes, *how)?;
        }
    }
    Some(())
}

fn corrupted_slot(
    alloc: Global,
    slot: Slot,
    epoch: Option<u64>,
    bends: &[(Slot, Bend)],
) -> Option<Vec<u8>> {
    let Some(epoch) = epoch else {
        return Some(Vec::new(alloc));
    };
    let mut bytes = whole_slot(alloc, slot, CURRENT, epoch).ok()?;
    change_all(&mut bytes, slot, bends)?;
    Some(bytes)
}

fn corrupted_slots(alloc: Global, epochs: Epochs, bends: &[(Slot, Bend)]) -> Option<[Vec<u8>; 4]> {
    let [image0, image1, segment0, segment1] = epochs;
    Some([
        corrupted_slot(alloc, Slot::Image0, image0, bends)?,
        corrupted_slot(alloc, Slot::Image1, image1, bends)?,
        corrupted_slot(alloc, Slot::Segment0, segment0, bends)?,
        corrupted_slot(alloc, Slot::Segment1, segment1, bends)?,
    ])
}

/// Opens a store, and returns the result and the disk.
pub(crate) fn reopened<S: Store + Drop>(alloc: Global, disk: S) -> (Found, S) {
    let (opening, disk) = disk.open(alloc, &[0x100, 0x101, 0x102, 0x103]);
    let found = match opening {
        Ok(seen) => Ok((seen.epoch, seen.records, are_receive(seen.bits))),
        Err(fault) => Err(fault),
    };
    (found, disk)
}

// Returns true if the opening refused the store and left all slots unchanged, or accepted it, left the slots with the
// other number than the epoch's unchanged, and left the epoch's image open.
fn is_left<S: Store>(found: Found, disk: &S, before: &[Vec<u8>; 4]) -> bool {
    let [image0, image1, segment0, segment1] = keeps(disk, before);
    match found {
        Ok((epoch, _, _)) if epoch % 2 == 0 => {
            [image1, segment1, is_open(disk, Slot::Image0)] == [true; 3]
        }
        Ok(_) => [image0, segment0, is_open(disk, Slot::Image1)] == [true; 3],
        Err(_) => [image0, image1, segment0, segment1] == [true; 4],
    }
}

fn is_open<S: Store>(disk: &S, image: Slot) -> bool {
    disk.bytes(image).first() == Some(&OPEN_GATE)
}

/// Returns the result of opening the store, true if it leaves the expected slots, and the result of opening it again.
/// `None`: a slot isn't changed by its corruption.
pub(crate) fn tried<S: Store + Drop>(
    alloc: Global,
    epochs: Epochs,
    bends: &[(Slot, Bend)],
) -> Option<(Found, bool, Found)> {
    let before = corrupted_slots(alloc, epochs, bends)?;
    let disk: S = disk_of(alloc, &before)?;
    let (found, disk) = reopened(alloc, disk);
    let is_left = is_left(found, &disk, &before);
    let (again, _) = reopened(alloc, disk);
    Some((found, is_left, again))
}
