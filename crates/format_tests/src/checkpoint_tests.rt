use crate::expect::same;
use crate::image_tests::ONE_PORT;
use checkpoint::Image;
use codes::StoreVersion;
use disk::{Disk, DiskFault, MemDisk, Slot, Torn};
use image::read;
use journal::{roll_close, roll_head, roll_open};
use std::alloc::Global;

/// The bytes before the encoding of one port in the image of epoch 1.
static HEADER: [u8; 24] = [
    0x5a, 2, 0, 0, 0, 0, 0, 0, 1, 0, 0, 0, 0, 0, 0, 0, 98, 0, 0, 0, 0, 0, 0, 0,
];

/// The segment of epoch 1 without batches.
static SEGMENT: [u8; 17] = [0x5a, 2, 0, 0, 0, 0, 0, 0, 1, 0, 0, 0, 0, 0, 0, 0, 0];

/// An image and a segment of epoch 3, of version 1, that were in the slots before.
static FORMER: [u8; 30] = [
    0x5a, 1, 0, 0, 0, 0, 0, 0, 3, 0, 0, 0, 0, 0, 0, 0, 6, 0, 0, 0, 0, 0, 0, 0, 1, 2, 3, 4, 5, 6,
];

/// The contents that a crash leaves of unsynced writes.
static OUTCOMES: [Torn; 6] = [
    Torn::Old,
    Torn::New,
    Torn::Half,
    Torn::Fill(0),
    Torn::Fill(0x5a),
    Torn::Fill(0xff),
];

/// Number of device calls for a segment and an image of one piece.
const CALLS: u64 = 17;

/// A disk that crashes as planned. Its methods have no contracts, so that a test's proof carries nothing of them.
trait Store: Disk {
    /// Creates a disk whose slots of odd epochs have their former contents, and whose calls fail from this one on.
    fn former(alloc: Global, stop_at: u64, torn: Torn) -> Option<Self>;

    /// Returns the disk after a crash.
    fn stop(self) -> Option<Self>;

    /// Returns the bytes of a slot.
    fn bytes(&self, slot: Slot) -> &[u8];
}

impl Store for MemDisk {
    fn former(alloc: Global, stop_at: u64, torn: Torn) -> Option<MemDisk> {
        let mut disk = MemDisk::with_slots(alloc, &[], &FORMER, &[], &FORMER).ok()?;
        disk.plan(Some(stop_at), None, torn);
        Some(disk)
    }

    fn stop(self) -> Option<MemDisk> {
        self.after_crash().ok()
    }

    fn bytes(&self, slot: Slot) -> &[u8] {
        self.content(slot)
    }
}

/// Returns the image of epoch 1 with the encoding of one port.
fn image_of_one_port(alloc: Global) -> Option<Image> {
    let snapshot = read(alloc, StoreVersion::Two, &ONE_PORT).ok()?;
    let image = Image::of(alloc, 1, &snapshot);
    drop(snapshot);
    image.ok()
}

/// Creates the segment of epoch 1.
fn roll<D: Disk>(disk: &mut D) -> Result<(), DiskFault> {
    roll_close(disk, 1)?;
    roll_head(disk, 1)?;
    let _segment = roll_open(disk, 1)?;
    Ok(())
}

/// Creates the segment of epoch 1, then its image.
fn make<D: Disk>(image: &Image, disk: &mut D) -> Result<(), DiskFault> {
    roll(disk)?;
    image.write(disk)
}

/// Returns the whole image of epoch 1.
fn whole_image(alloc: Global) -> Option<Vec<u8>> {
    let mut whole = Vec::from_slice(alloc, &HEADER).ok()?;
    whole.extend_from_slice(&ONE_PORT).ok()?;
    Some(whole)
}

/// Returns true if a slot isn't open, is unchanged, or holds the whole new contents.
fn is_left(slot: &[u8], header: usize, whole: &[u8]) -> bool {
    if slot.len() < header {
        return true;
    }
    if slot.first() != Some(&0x5a) {
        return true;
    }
    slot == FORMER.as_slice() || slot == whole
}

/// Returns true if the operation fails due to a crash at this device call, and each slot isn't open, is unchanged, or
/// is whole.
fn stopped_well<S: Store + Drop>(
    alloc: Global,
    image: &Image,
    whole: &[u8],
    call: u64,
    torn: Torn,
) -> Option<bool> {
    let mut disk = S::former(alloc, call, torn)?;
    let failed = make(image, &mut disk).is_err();
    let left = disk.stop()?;
    let segment = is_left(left.bytes(Slot::Segment1), 16, &SEGMENT);
    Some(failed && segment && is_left(left.bytes(Slot::Image1), 24, whole))
}

/// Returns the first crash for which that is false, by its call and by its effect on unsynced writes.
fn stopped_badly<S: Store + Drop>(
    alloc: Global,
    image: &Image,
    whole: &[u8],
) -> Option<(u64, Torn)> {
    for call in 1..CALLS + 1 {
        for torn in &OUTCOMES {
            if stopped_well::<S>(alloc, image, whole, call, *torn) != Some(true) {
                return Some((call, *torn));
            }
        }
    }
    None
}

/// Returns three flags: a segment and an image are created on a disk, and each has its bytes.
fn made<S: Store + Drop>(alloc: Global, image: &Image, whole: &[u8]) -> Option<[bool; 3]> {
    let mut disk = S::former(alloc, CALLS + 1, Torn::Old)?;
    Some([
        make(image, &mut disk).is_ok(),
        disk.bytes(Slot::Segment1) == SEGMENT.as_slice(),
        disk.bytes(Slot::Image1) == whole,
    ])
}

fn made_of_one_port<S: Store + Drop>(alloc: Global) -> Option<[bool; 3]> {
    let whole = whole_image(alloc)?;
    let image = image_of_one_port(alloc)?;
    let made = made::<S>(alloc, &image, &whole);
    drop(image);
    made
}

#[test]
fn a_segment_and_an_image_have_their_bytes(rt: HostRuntime) {
    let seen = made_of_one_port::<MemDisk>(rt.alloc());
    same(&rt, seen, Some([true; 3]));
}

fn stopped_with_one_port<S: Store + Drop>(alloc: Global) -> Option<Option<(u64, Torn)>> {
    let whole = whole_image(alloc)?;
    let image = image_of_one_port(alloc)?;
    let badly = stopped_badly::<S>(alloc, &image, &whole);
    drop(image);
    Some(badly)
}

#[test]
fn a_crash_leaves_a_slot_closed_or_whole(rt: HostRuntime) {
    let seen = stopped_with_one_port::<MemDisk>(rt.alloc());
    same(&rt, seen, Some(None));
}
