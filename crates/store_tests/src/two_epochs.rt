//! Stores of two epochs: the open slots and their epochs. The expected results follow from the rules of
//! docs/FORMATS.md, "Opening".
use crate::bending::{DAMAGED, Epochs, FIVE, FOUR, FOUR_TO_FIVE, Found, NEW, tried};
use crate::expect::same_in_row;
use disk::MemDisk;
use std::alloc::Global;
use std::process::Abort;

// Image 5, its segment, and segment 6.
const FIVE_TO_SIX: Found = Ok((6, 1, [false, true, true, true]));

// Image 6 and its segment.
const SIX: Found = Ok((6, 1, [true, false, true, false]));

// The last epoch but one.
const LAST_EVEN: u64 = u64::MAX - 1;

// The name of the case, the epochs of the slots, and the result of opening the store.
type Row = (&'static str, Epochs, Found);

static OPEN: [Row; 64] = [
    // No image is open.
    ("no image is open", [None, None, None, None], NEW),
    ("no image is open", [None, None, Some(0), None], DAMAGED),
    ("no image is open", [None, None, Some(0), Some(1)], DAMAGED),
    ("no image is open", [None, None, Some(4), None], DAMAGED),
    ("no image is open", [None, None, None, Some(5)], DAMAGED),
    ("no image is open", [None, None, Some(4), Some(5)], DAMAGED),
    // Only image 4 is open. Segment 4 must be open.
    ("image 4 is alone", [Some(4), None, None, None], DAMAGED),
    ("image 4 is alone", [Some(4), None, None, Some(3)], DAMAGED),
    ("image 4 is alone", [Some(4), None, None, Some(5)], DAMAGED),
    (
        "image 4 is alone",
        [Some(4), None, Some(2), Some(3)],
        DAMAGED,
    ),
    ("image 4 is alone", [Some(4), None, Some(6), None], DAMAGED),
    (
        "image 4 is alone",
        [Some(4), None, Some(6), Some(5)],
        DAMAGED,
    ),
    // The other segment is closed, of epoch 3, or of epoch 5.
    ("image 4 is alone", [Some(4), None, Some(4), None], FOUR),
    ("image 4 is alone", [Some(4), None, Some(4), Some(3)], FOUR),
    (
        "image 4 is alone",
        [Some(4), None, Some(4), Some(5)],
        FOUR_TO_FIVE,
    ),
    (
        "image 4 is alone",
        [Some(4), None, Some(4), Some(1)],
        DAMAGED,
    ),
    (
        "image 4 is alone",
        [Some(4), None, Some(4), Some(7)],
        DAMAGED,
    ),
    // Only image 5 is open.
    ("image 5 is alone", [None, Some(5), None, None], DAMAGED),
    ("image 5 is alone", [None, Some(5), Some(4), None], DAMAGED),
    ("image 5 is alone", [None, Some(5), Some(6), None], DAMAGED),
    (
        "image 5 is alone",
        [None, Some(5), Some(4), Some(3)],
        DAMAGED,
    ),
    (
        "image 5 is alone",
        [None, Some(5), Some(6), Some(7)],
        DAMAGED,
    ),
    ("image 5 is alone", [None, Some(5), None, Some(5)], FIVE),
    ("image 5 is alone", [None, Some(5), Some(4), Some(5)], FIVE),
    (
        "image 5 is alone",
        [None, Some(5), Some(6), Some(5)],
        FIVE_TO_SIX,
    ),
    (
        "image 5 is alone",
        [None, Some(5), Some(2), Some(5)],
        DAMAGED,
    ),
    (
        "image 5 is alone",
        [None, Some(5), Some(8), Some(5)],
        DAMAGED,
    ),
    // Images 4 and 5 are open, and 5 is used.
    (
        "images 4 and 5 are open",
        [Some(4), Some(5), None, None],
        DAMAGED,
    ),
    (
        "images 4 and 5 are open",
        [Some(4), Some(5), Some(4), None],
        DAMAGED,
    ),
    (
        "images 4 and 5 are open",
        [Some(4), Some(5), Some(4), Some(3)],
        DAMAGED,
    ),
    (
        "images 4 and 5 are open",
        [Some(4), Some(5), Some(4), Some(7)],
        DAMAGED,
    ),
    (
        "images 4 and 5 are open",
        [Some(4), Some(5), None, Some(5)],
        FIVE,
    ),
    (
        "images 4 and 5 are open",
        [Some(4), Some(5), Some(4), Some(5)],
        FIVE,
    ),
    (
        "images 4 and 5 are open",
        [Some(4), Some(5), Some(6), Some(5)],
        FIVE_TO_SIX,
    ),
    (
        "images 4 and 5 are open",
        [Some(4), Some(5), Some(2), Some(5)],
        DAMAGED,
    ),
    (
        "images 4 and 5 are open",
        [Some(4), Some(5), Some(8), Some(5)],
        DAMAGED,
    ),
    // Images 6 and 5 are open, and 6 is used.
    (
        "images 6 and 5 are open",
        [Some(6), Some(5), None, Some(5)],
        DAMAGED,
    ),
    (
        "images 6 and 5 are open",
        [Some(6), Some(5), Some(4), Some(5)],
        DAMAGED,
    ),
    (
        "images 6 and 5 are open",
        [Some(6), Some(5), Some(6), None],
        SIX,
    ),
    (
        "images 6 and 5 are open",
        [Some(6), Some(5), Some(6), Some(5)],
        SIX,
    ),
    (
        "images 6 and 5 are open",
        [Some(6), Some(5), Some(6), Some(7)],
        Ok((7, 1, [true, false, true, true])),
    ),
    (
        "images 6 and 5 are open",
        [Some(6), Some(5), Some(6), Some(3)],
        DAMAGED,
    ),
    (
        "images 6 and 5 are open",
        [Some(6), Some(5), Some(6), Some(9)],
        DAMAGED,
    ),
    // The age of the older image doesn't matter.
    (
        "the older image is older",
        [Some(4), Some(1), Some(4), Some(3)],
        FOUR,
    ),
    (
        "the older image is older",
        [Some(4), Some(1), Some(4), Some(1)],
        DAMAGED,
    ),
    (
        "the older image is older",
        [Some(4), Some(7), Some(6), Some(7)],
        Ok((7, 1, [false, true, false, true])),
    ),
    (
        "the older image is older",
        [Some(4), Some(7), Some(8), Some(7)],
        Ok((8, 1, [false, true, true, true])),
    ),
    (
        "the older image is older",
        [Some(4), Some(7), Some(4), Some(7)],
        DAMAGED,
    ),
    // An epoch belongs to the other slot: that of both images, one two later, or a segment's.
    (
        "an epoch is of the other number",
        [Some(4), Some(4), Some(4), Some(5)],
        DAMAGED,
    ),
    (
        "an epoch is of the other number",
        [Some(5), Some(5), Some(4), Some(5)],
        DAMAGED,
    ),
    (
        "an epoch is of the other number",
        [Some(4), Some(6), Some(4), Some(5)],
        DAMAGED,
    ),
    (
        "an epoch is of the other number",
        [Some(3), Some(5), Some(4), Some(5)],
        DAMAGED,
    ),
    (
        "an epoch is of the other number",
        [Some(4), Some(5), Some(5), Some(5)],
        DAMAGED,
    ),
    (
        "an epoch is of the other number",
        [Some(4), Some(5), Some(4), Some(4)],
        DAMAGED,
    ),
    (
        "an epoch is of the other number",
        [None, None, Some(1), None],
        DAMAGED,
    ),
    (
        "an epoch is of the other number",
        [None, None, None, Some(0)],
        DAMAGED,
    ),
    // The first and the last possible epoch.
    (
        "the first epoch, or the last one",
        [Some(0), None, Some(0), None],
        Ok((0, 1, [true, false, true, false])),
    ),
    (
        "the first epoch, or the last one",
        [Some(0), None, Some(0), Some(1)],
        Ok((1, 1, [true, false, true, true])),
    ),
    (
        "the first epoch, or the last one",
        [Some(0), Some(1), Some(0), Some(1)],
        Ok((1, 1, [false, true, false, true])),
    ),
    (
        "the first epoch, or the last one",
        [Some(0), None, Some(0), Some(u64::MAX)],
        DAMAGED,
    ),
    (
        "the first epoch, or the last one",
        [Some(LAST_EVEN), None, Some(LAST_EVEN), Some(u64::MAX)],
        Ok((u64::MAX, 1, [true, false, true, true])),
    ),
    (
        "the first epoch, or the last one",
        [
            Some(LAST_EVEN),
            Some(u64::MAX),
            Some(LAST_EVEN),
            Some(u64::MAX),
        ],
        Ok((u64::MAX, 1, [false, true, false, true])),
    ),
    (
        "the first epoch, or the last one",
        [None, Some(u64::MAX), None, Some(u64::MAX)],
        Ok((u64::MAX, 1, [false, true, false, true])),
    ),
    (
        "the first epoch, or the last one",
        [None, Some(u64::MAX), Some(0), Some(u64::MAX)],
        DAMAGED,
    ),
];

fn check(rt: &impl Abort, alloc: Global, rows: &[Row]) {
    for (images, epochs, wanted) in rows {
        let seen = tried::<MemDisk>(alloc, *epochs, &[]);
        same_in_row(rt, (*images, *epochs), seen, Some((*wanted, true, *wanted)));
    }
}

#[test]
fn epochs_tell_which_slots_are_read(rt: HostRuntime) {
    check(&rt, rt.alloc(), &OPEN);
}
