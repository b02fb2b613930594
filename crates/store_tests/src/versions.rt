//! Stores whose slots are of either version. Each slot is read in its own version. A store whose segment in use is of
//! version 1 continues in the next epoch, in version 2, and that segment stays unchanged (docs/FORMATS.md, "Opening").
use crate::bending::{Found, NEW, reopened, set, whole_slot};
use crate::expect::same_in_row;
use crate::making::{NEW_SEGMENT, SEGMENT};
use crate::store::{Store, TORN, disk_of, keeps};
use crate::written::{
    CURRENT, image_of_name, image_of_none, image_with_limit, opened_slot, segment_of_limit,
};
use disk::{MemDisk, Slot, Torn};
use std::alloc::Global;
use store_fault::StoreFault;

// A slot: empty, or of this version and epoch, with a closed or an open gate.
#[derive(Clone, Copy, Debug)]
enum Is {
    Empty,
    Closed(u8, u64),
    Open(u8, u64),
}

// Image 4, which is of either version.
static IMAGES: [Is; 2] = [Is::Open(1, 4), Is::Open(2, 4)];

// The other image's slot, whose contents don't matter.
static OTHER_IMAGES: [Is; 5] = [
    Is::Empty,
    Is::Closed(1, 5),
    Is::Closed(2, 5),
    Is::Open(1, 3),
    Is::Open(2, 3),
];

// Segment 4, the other segment's slot, the result of opening the store, and flags for the slots that are unchanged:
// image 0, image 1, segment 0, segment 1. The versions of images don't matter.
type Row = (Is, Is, Found, [bool; 4]);

// In epoch 4, where nothing is written.
const FOUR: Found = Ok((4, 1, [true, false, true, false]));

// From epoch 4 to epoch 5, without records.
const TO_FIVE: Found = Ok((5, 0, [true, false, true, false]));

// Segment 5 follows: in epoch 5, with its record; or from there to epoch 6, without records.
const FIVE: Found = Ok((5, 1, [true, false, true, true]));

const TO_SIX: Found = Ok((6, 0, [true, false, true, true]));

const UPGRADED: [bool; 4] = [true, false, true, false];

const ONLY_IMAGE: [bool; 4] = [true, false, true, true];

const ONLY_SEGMENT1: [bool; 4] = [false, false, false, true];

static SEGMENTS: [Row; 14] = [
    (Is::Open(1, 4), Is::Empty, TO_FIVE, UPGRADED),
    (Is::Open(1, 4), Is::Closed(1, 5), TO_FIVE, UPGRADED),
    (Is::Open(1, 4), Is::Closed(2, 5), TO_FIVE, UPGRADED),
    (Is::Open(1, 4), Is::Open(1, 3), TO_FIVE, UPGRADED),
    (Is::Open(1, 4), Is::Open(2, 3), TO_FIVE, UPGRADED),
    (Is::Open(1, 4), Is::Open(1, 5), TO_SIX, ONLY_SEGMENT1),
    (Is::Open(1, 4), Is::Open(2, 5), FIVE, ONLY_IMAGE),
    (Is::Open(2, 4), Is::Empty, FOUR, [true; 4]),
    (Is::Open(2, 4), Is::Closed(1, 5), FOUR, [true; 4]),
    (Is::Open(2, 4), Is::Closed(2, 5), FOUR, [true; 4]),
    (Is::Open(2, 4), Is::Open(1, 3), FOUR, [true; 4]),
    (Is::Open(2, 4), Is::Open(2, 3), FOUR, [true; 4]),
    (Is::Open(2, 4), Is::Open(1, 5), TO_SIX, ONLY_SEGMENT1),
    (Is::Open(2, 4), Is::Open(2, 5), FIVE, ONLY_IMAGE),
];

fn slot_as(alloc: Global, slot: Slot, is: Is) -> Option<Vec<u8>> {
    match is {
        Is::Empty => Some(Vec::new(alloc)),
        Is::Open(version, epoch) => whole_slot(alloc, slot, version, epoch).ok(),
        Is::Closed(version, epoch) => {
            let mut bytes = whole_slot(alloc, slot, version, epoch).ok()?;
            set(&mut bytes, 0, 0)?;
            Some(bytes)
        }
    }
}

fn slots_as(alloc: Global, images: (Is, Is), segments: (Is, Is)) -> Option<[Vec<u8>; 4]> {
    Some([
        slot_as(alloc, Slot::Image0, images.0)?,
        slot_as(alloc, Slot::Image1, images.1)?,
        slot_as(alloc, Slot::Segment0, segments.0)?,
        slot_as(alloc, Slot::Segment1, segments.1)?,
    ])
}

// The result of opening a store, flags for its slots that are unchanged, and the result of opening it again.
type Opened = (Found, [bool; 4], Found);

fn opened_twice<S: Store + Drop>(alloc: Global, before: &[Vec<u8>; 4]) -> Option<Opened> {
    let disk: S = disk_of(alloc, before)?;
    let (found, disk) = reopened(alloc, disk);
    let are_kept = keeps(&disk, before);
    let (again, _) = reopened(alloc, disk);
    Some((found, are_kept, again))
}

fn seen_as<S: Store + Drop>(alloc: Global, images: (Is, Is), segments: (Is, Is)) -> Option<Opened> {
    let before = slots_as(alloc, images, segments)?;
    let seen = opened_twice::<S>(alloc, &before);
    drop(before);
    seen
}

#[test]
fn each_slot_is_read_by_its_version(rt: HostRuntime) {
    for image in &IMAGES {
        for other in &OTHER_IMAGES {
            for (own, next, found, kept) in &SEGMENTS {
                let seen = seen_as::<MemDisk>(rt.alloc(), (*image, *other), (*own, *next));
                let wanted = Some((*found, *kept, *found));
                same_in_row(&rt, (image, other, own, next), seen, wanted);
            }
        }
    }
}

// Opens a store with a crash at a device call. Returns the result, and the result of opening the store that the crash
// leaves.
fn stopped<S: Store + Drop>(
    alloc: Global,
    before: &[Vec<u8>; 4],
    stop_at: u64,
    torn: Torn,
) -> Option<(Found, Found)> {
    let mut disk: S = disk_of(alloc, before)?;
    disk.plan_faults(Some(stop_at), None, torn);
    let (found, disk) = reopened(alloc, disk);
    let (again, _) = reopened(alloc, disk.stop()?);
    Some((found, again))
}

// More device calls than an opening makes.
const MANY: u64 = 80;

// Returns the first device call of an opening at which a crash leaves another state, or at which the opening hasn't
// ended; 0 if there is none.
fn first_unlike<S: Store + Drop>(
    alloc: Global,
    before: &[Vec<u8>; 4],
    wanted: Found,
    torn: Torn,
) -> u64 {
    for stop_at in 1..MANY {
        let (found, again) = match stopped::<S>(alloc, before, stop_at, torn) {
            Some(seen) => seen,
            None => return stop_at,
        };
        if again != wanted {
            return stop_at;
        }
        if found == wanted {
            return 0;
        }
        if found != Err(StoreFault::Device) {
            return stop_at;
        }
    }
    MANY
}

fn first_unlike_as<S: Store + Drop>(
    alloc: Global,
    images: (Is, Is),
    row: &Row,
    torn: Torn,
) -> Option<u64> {
    let before = slots_as(alloc, images, (row.0, row.1))?;
    let at = first_unlike::<S>(alloc, &before, row.2, torn);
    drop(before);
    Some(at)
}

// Returns the first kind of crash after which a store is different, and its device call.
fn first_torn<S: Store + Drop>(alloc: Global, images: (Is, Is), row: &Row) -> Option<(Torn, u64)> {
    for torn in &TORN {
        let at = first_unlike_as::<S>(alloc, images, row, *torn).unwrap_or(MANY);
        if at != 0 {
            return Some((*torn, at));
        }
    }
    None
}

// All combinations of segments. Each one uses the next combination of images, in rotation.
#[test]
fn crashes_within_the_opening_of_each_version(rt: HostRuntime) {
    for (at, row) in SEGMENTS.iter().enumerate() {
        let images = (IMAGES[at % 2], OTHER_IMAGES[at % 5]);
        let seen = first_torn::<MemDisk>(rt.alloc(), images, row);
        same_in_row(&rt, (images, row), seen, None);
    }
}

// Returns the store of version 1 after the allocation of the name 0x100, or before it, with its segment truncated or
// extended to a length.
fn old_store(alloc: Global, length: usize, name: bool) -> Option<[Vec<u8>; 4]> {
    let batches: &[u8] = if name { &SEGMENT[16..] } else { &[0] };
    let mut segment = opened_slot(alloc, 1, 0, batches).ok()?;
    segment.resize(length, 0xff).ok()?;
    let image = image_of_none(alloc, 1, 0).ok()?;
    Some([image, Vec::new(alloc), segment, Vec::new(alloc)])
}

// Returns the lengths of a store's slots after it was opened.
fn lengths<S: Store>(disk: &S) -> [usize; 4] {
    [
        disk.bytes(Slot::Image0).len(),
        disk.bytes(Slot::Image1).len(),
        disk.bytes(Slot::Segment0).len(),
        disk.bytes(Slot::Segment1).len(),
    ]
}

// Returns the lengths of an upgraded store's slots, and flags that they hold their former contents, and an image and a
// segment of epoch 1 in version 2.
fn upgraded<S: Store + Drop>(
    alloc: Global,
    before: &[Vec<u8>; 4],
    name: bool,
) -> Option<([usize; 4], [bool; 4])> {
    let disk: S = disk_of(alloc, before)?;
    let (_, disk) = reopened(alloc, disk);
    let image = if name {
        image_of_name(alloc, CURRENT, 1, 0).ok()?
    } else {
        image_of_none(alloc, CURRENT, 1).ok()?
    };
    let segment = opened_slot(alloc, CURRENT, 1, &[0]).ok()?;
    let [first, _, log, _] = keeps(&disk, before);
    let is_image = disk.bytes(Slot::Image1) == image.as_slice();
    let is_segment = disk.bytes(Slot::Segment1) == segment.as_slice();
    Some((lengths(&disk), [first, is_image, log, is_segment]))
}

// The properties of such a store, and for each kind of crash the first one during its opening that leaves another
// state.
type OldStore = (Option<([usize; 4], [bool; 4])>, [u64; 6]);

fn old_store_seen<S: Store + Drop>(alloc: Global, length: usize, name: bool) -> Option<OldStore> {
    let before = old_store(alloc, length, name)?;
    let seen = upgraded::<S>(alloc, &before, name);
    let mut unlike = [0; 6];
    let wanted = Ok((1, 0, [name, false, false, false]));
    for (at, torn) in unlike.iter_mut().zip(&TORN) {
        *at = first_unlike::<S>(alloc, &before, wanted, *torn);
    }
    drop(before);
    Some((seen, unlike))
}

// The length of the segment, true if it has its batch, and the length of image 1 then: with a last gate; without one;
// with bytes after it; and without a batch, with and without a last gate.
static OLD_STORES: [(usize, bool, usize); 5] = [
    (70, true, 122),
    (69, true, 122),
    (75, true, 122),
    (17, false, 52),
    (16, false, 52),
];

#[test]
fn an_old_segment_stays_as_it_is(rt: HostRuntime) {
    for (length, name, image1) in &OLD_STORES {
        let seen = old_store_seen::<MemDisk>(rt.alloc(), *length, *name);
        let after = ([48, *image1, *length, 17], [true; 4]);
        same_in_row(&rt, *length, seen, Some((Some(after), [0; 6])));
    }
}

// A state and a segment in two slots of one epoch: versions, the epoch, the limit of the image's port, the limit that
// the segment's record sets or `None` for no batch; the version and limit of the following segment, if there is one;
// and the epoch and the number of records with which the store is opened.
type Limits = (
    (u8, u8, u64),
    (u8, Option<u8>),
    Option<(u8, Option<u8>)>,
    Result<(u64, u64), StoreFault>,
);

const BAD: Result<(u64, u64), StoreFault> = Err(StoreFault::Damaged);

const LAST_EVEN: u64 = u64::MAX - 1;

// The maximum limit is 16 in version 1, and 64 in version 2. A slot of version 1 is only checked for limits that it
// contains itself: the limit in the last row but one comes from an image of version 2.
static LIMITS: [Limits; 13] = [
    ((1, 16, 4), (1, None), None, Ok((5, 0))),
    ((1, 17, 4), (1, None), None, BAD),
    ((1, 17, 4), (2, None), None, BAD),
    ((2, 64, 4), (2, None), None, Ok((4, 0))),
    ((2, 65, 4), (2, None), None, BAD),
    ((1, 5, 4), (1, Some(16)), None, Ok((5, 0))),
    ((1, 5, 4), (1, Some(17)), None, BAD),
    ((1, 5, 4), (2, Some(64)), None, Ok((4, 1))),
    ((1, 5, 4), (2, Some(65)), None, BAD),
    ((2, 5, 4), (2, None), Some((1, Some(17))), BAD),
    ((2, 5, 4), (1, Some(16)), Some((2, Some(17))), Ok((5, 1))),
    ((2, 64, 4), (1, None), None, Ok((5, 0))),
    ((2, 64, 4), (1, Some(17)), None, BAD),
];

// After a segment of version 1 there must be a next epoch.
static LAST_EPOCHS: [Limits; 6] = [
    ((1, 5, u64::MAX), (1, None), None, BAD),
    ((2, 5, u64::MAX), (1, None), None, BAD),
    ((1, 5, u64::MAX), (2, None), None, Ok((u64::MAX, 0))),
    ((2, 5, LAST_EVEN), (2, None), Some((1, None)), BAD),
    (
        (2, 5, LAST_EVEN),
        (1, None),
        Some((2, None)),
        Ok((u64::MAX, 0)),
    ),
    ((1, 5, LAST_EVEN), (1, None), None, Ok((u64::MAX, 0))),
];

// Returns the segment that follows, or an empty slot.
fn following(alloc: Global, epoch: u64, row: &Limits) -> Option<Vec<u8>> {
    match row.2 {
        Some((version, limit)) => segment_of_limit(alloc, version, epoch, limit).ok(),
        None => Some(Vec::new(alloc)),
    }
}

fn slots_of(alloc: Global, row: &Limits) -> Option<[Vec<u8>; 4]> {
    let ((version, limit, epoch), (segment_version, set), _, _) = *row;
    let image = image_with_limit(alloc, version, epoch, 0, limit).ok()?;
    let segment = segment_of_limit(alloc, segment_version, epoch, set).ok()?;
    let next = following(alloc, epoch.saturating_add(1), row)?;
    let none = Vec::new(alloc);
    Some(if epoch % 2 == 0 {
        [image, none, segment, next]
    } else {
        [none, image, next, segment]
    })
}

fn opened_in<S: Store + Drop>(
    alloc: Global,
    row: &Limits,
) -> Option<Result<(u64, u64), StoreFault>> {
    let before = slots_of(alloc, row)?;
    let disk = disk_of::<S>(alloc, &before);
    drop(before);
    let (found, _) = reopened(alloc, disk?);
    Some(match found {
        Ok((epoch, records, _)) => Ok((epoch, records)),
        Err(fault) => Err(fault),
    })
}

#[test]
fn limits_are_those_of_the_version(rt: HostRuntime) {
    for row in &LIMITS {
        same_in_row(&rt, row, opened_in::<MemDisk>(rt.alloc(), row), Some(row.3));
    }
    for row in &LAST_EPOCHS {
        same_in_row(&rt, row, opened_in::<MemDisk>(rt.alloc(), row), Some(row.3));
    }
}

// The slots after an interrupted creation in version 1: a closed image, and a segment 0 that is empty, closed, or open
// without a batch.
static STARTS: [Is; 3] = [Is::Empty, Is::Closed(1, 0), Is::Open(1, 0)];

fn start_of(alloc: Global, segment: Is) -> Option<[Vec<u8>; 4]> {
    let mut image = image_of_none(alloc, 1, 0).ok()?;
    set(&mut image, 0, 0)?;
    let mut log = slot_as(alloc, Slot::Segment0, segment)?;
    log.truncate(16);
    Some([image, Vec::new(alloc), log, Vec::new(alloc)])
}

// Returns the result of opening it, the lengths of its slots then, and flags that image 0 and segment 0 are new ones of
// version 2.
fn started<S: Store + Drop>(alloc: Global, segment: Is) -> Option<(Found, [usize; 4], [bool; 2])> {
    let before = start_of(alloc, segment)?;
    let disk = disk_of::<S>(alloc, &before);
    drop(before);
    let (found, disk) = reopened(alloc, disk?);
    let image = image_of_none(alloc, CURRENT, 0).ok()?;
    let are_new = [
        disk.bytes(Slot::Image0) == image.as_slice(),
        disk.bytes(Slot::Segment0) == NEW_SEGMENT.as_slice(),
    ];
    Some((found, lengths(&disk), are_new))
}

#[test]
fn an_old_start_is_made_anew(rt: HostRuntime) {
    for segment in &STARTS {
        let seen = started::<MemDisk>(rt.alloc(), *segment);
        same_in_row(&rt, segment, seen, Some((NEW, [52, 0, 17, 0], [true; 2])));
    }
}
