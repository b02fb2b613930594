//! Stores of two epochs whose slots are corrupted. The expected results follow from the rules of docs/FORMATS.md,
//! "Opening".
use crate::bending::{Bend, DAMAGED, Epochs, FIVE, FOUR, FOUR_TO_FIVE, Found, NEW, tried};
use crate::expect::same_in_row;
use disk::{MemDisk, Slot};
use std::alloc::Global;
use std::process::Abort;
use store_fault::StoreFault;

const VERSION: Found = Err(StoreFault::Version);

// The images and segments of epochs 4 and 5.
const BOTH: Epochs = [Some(4), Some(5), Some(4), Some(5)];

// The same slots, before image 5 was begun.
const HALF: Epochs = [Some(4), None, Some(4), Some(5)];

// A store's name, the epochs of its slots, their corruptions, and the result of opening it.
type Row = (&'static str, Epochs, &'static [(Slot, Bend)], Found);

// Parts that aren't read: an older image's encoding, an older segment's batches, closed slots.
static PASSED_OVER: [Row; 14] = [
    (
        "the older image is of no state",
        BOTH,
        &[(Slot::Image0, Bend::Byte(61, 2))],
        FIVE,
    ),
    (
        "the older image's text is zero",
        BOTH,
        &[(Slot::Image0, Bend::Zero(24))],
        FIVE,
    ),
    (
        "the older image's length is another",
        BOTH,
        &[(Slot::Image0, Bend::Byte(16, 99))],
        FIVE,
    ),
    (
        "the older image is cut",
        BOTH,
        &[(Slot::Image0, Bend::Length(60))],
        FIVE,
    ),
    (
        "the older image's header is short",
        BOTH,
        &[(Slot::Image0, Bend::Length(23))],
        FIVE,
    ),
    (
        "the older image's gate is closed",
        BOTH,
        &[(Slot::Image0, Bend::Byte(0, 0))],
        FIVE,
    ),
    (
        "the older segment's record has another number",
        BOTH,
        &[(Slot::Segment0, Bend::Byte(29, 7))],
        FIVE,
    ),
    (
        "the older segment is cut",
        BOTH,
        &[(Slot::Segment0, Bend::Length(40))],
        FIVE,
    ),
    (
        "the older segment's header is short",
        BOTH,
        &[(Slot::Segment0, Bend::Length(15))],
        FIVE,
    ),
    (
        "the older segment's gate is closed",
        BOTH,
        &[(Slot::Segment0, Bend::Byte(0, 0))],
        FIVE,
    ),
    (
        "the newest image has bytes beyond its text",
        BOTH,
        &[(Slot::Image1, Bend::Length(200))],
        FIVE,
    ),
    (
        "the newest segment has bytes beyond its last gate",
        BOTH,
        &[(Slot::Segment1, Bend::Length(200))],
        FIVE,
    ),
    (
        "the newest segment has no last gate",
        BOTH,
        &[(Slot::Segment1, Bend::Length(69))],
        FIVE,
    ),
    (
        "the newest segment has no batch",
        BOTH,
        &[(Slot::Segment1, Bend::Byte(16, 0))],
        Ok((5, 0, [false, true, false, false])),
    ),
];

// A checkpoint that was interrupted: the next image isn't open, so it is written again; or the next segment isn't open
// either.
static UNFINISHED: [Row; 11] = [
    (
        "the next image's gate is closed",
        BOTH,
        &[(Slot::Image1, Bend::Byte(0, 0))],
        FOUR_TO_FIVE,
    ),
    (
        "the next image's gate is neither",
        BOTH,
        &[(Slot::Image1, Bend::Byte(0, 0x5b))],
        FOUR_TO_FIVE,
    ),
    (
        "the next image is closed, and of no state",
        BOTH,
        &[
            (Slot::Image1, Bend::Byte(0, 0)),
            (Slot::Image1, Bend::Byte(61, 2)),
        ],
        FOUR_TO_FIVE,
    ),
    (
        "the next image's header is short",
        BOTH,
        &[(Slot::Image1, Bend::Length(23))],
        FOUR_TO_FIVE,
    ),
    (
        "the next segment has no batch",
        HALF,
        &[(Slot::Segment1, Bend::Byte(16, 0))],
        Ok((5, 0, [true, false, true, false])),
    ),
    (
        "the segment before has no batch",
        HALF,
        &[(Slot::Segment0, Bend::Byte(16, 0))],
        Ok((5, 1, [true, false, false, true])),
    ),
    (
        "the segment before has no last gate",
        HALF,
        &[(Slot::Segment0, Bend::Length(69))],
        FOUR_TO_FIVE,
    ),
    (
        "the next segment's header is short",
        HALF,
        &[(Slot::Segment1, Bend::Length(15))],
        FOUR,
    ),
    (
        "the next segment's gate is closed",
        HALF,
        &[(Slot::Segment1, Bend::Byte(0, 0))],
        FOUR,
    ),
    (
        "the next image and segment are closed",
        BOTH,
        &[
            (Slot::Image1, Bend::Byte(0, 0)),
            (Slot::Segment1, Bend::Byte(0, 0)),
        ],
        FOUR,
    ),
    (
        "the next image is closed, and its segment's record has another number",
        BOTH,
        &[
            (Slot::Image1, Bend::Byte(0, 0)),
            (Slot::Segment1, Bend::Byte(29, 1)),
        ],
        DAMAGED,
    ),
];

// Damage of the newest image, which the older one doesn't replace.
static NEWEST_IMAGE: [Row; 11] = [
    (
        "a flag is 2",
        BOTH,
        &[(Slot::Image1, Bend::Byte(61, 2))],
        DAMAGED,
    ),
    (
        "its space has a request",
        BOTH,
        &[(Slot::Image1, Bend::Byte(40, 1))],
        DAMAGED,
    ),
    (
        "a name has rights to a port that doesn't live",
        BOTH,
        &[(Slot::Image1, Bend::Byte(53, 7))],
        DAMAGED,
    ),
    (
        "its text is zero",
        BOTH,
        &[(Slot::Image1, Bend::Zero(24))],
        DAMAGED,
    ),
    (
        "its length is short by one",
        BOTH,
        &[(Slot::Image1, Bend::Byte(16, 97))],
        DAMAGED,
    ),
    (
        "its length is long by one",
        BOTH,
        &[(Slot::Image1, Bend::Byte(16, 99))],
        DAMAGED,
    ),
    (
        "its length is long by one, and so is its slot",
        BOTH,
        &[
            (Slot::Image1, Bend::Byte(16, 99)),
            (Slot::Image1, Bend::Length(123)),
        ],
        DAMAGED,
    ),
    (
        "its length is 0",
        BOTH,
        &[(Slot::Image1, Bend::Byte(16, 0))],
        DAMAGED,
    ),
    (
        "it is cut by a byte",
        BOTH,
        &[(Slot::Image1, Bend::Length(121))],
        DAMAGED,
    ),
    (
        "it is a header alone",
        BOTH,
        &[(Slot::Image1, Bend::Length(24))],
        DAMAGED,
    ),
    (
        "the image before the next segment is of no state",
        HALF,
        &[(Slot::Image0, Bend::Byte(61, 2))],
        DAMAGED,
    ),
];

// Damage of segments that are read.
static SEGMENTS: [Row; 17] = [
    (
        "its gate is closed",
        BOTH,
        &[(Slot::Segment1, Bend::Byte(0, 0))],
        DAMAGED,
    ),
    (
        "its header is short",
        BOTH,
        &[(Slot::Segment1, Bend::Length(15))],
        DAMAGED,
    ),
    (
        "its batch counts two records",
        BOTH,
        &[(Slot::Segment1, Bend::Byte(17, 2))],
        DAMAGED,
    ),
    (
        "its batch counts none",
        BOTH,
        &[(Slot::Segment1, Bend::Byte(17, 0))],
        DAMAGED,
    ),
    (
        "its batch's length is another",
        BOTH,
        &[(Slot::Segment1, Bend::Byte(21, 41))],
        DAMAGED,
    ),
    (
        "it is cut within its batch",
        BOTH,
        &[(Slot::Segment1, Bend::Length(60))],
        DAMAGED,
    ),
    (
        "its last gate is open",
        BOTH,
        &[(Slot::Segment1, Bend::Byte(69, 0x5a))],
        DAMAGED,
    ),
    (
        "its record has another number",
        BOTH,
        &[(Slot::Segment1, Bend::Byte(29, 1))],
        DAMAGED,
    ),
    (
        "its record is of a space that isn't there",
        BOTH,
        &[(Slot::Segment1, Bend::Byte(37, 2))],
        DAMAGED,
    ),
    (
        "its record is of no call",
        BOTH,
        &[(Slot::Segment1, Bend::Byte(45, 99))],
        DAMAGED,
    ),
    (
        "its record takes a name that the image has",
        BOTH,
        &[(Slot::Segment1, Bend::Byte(53, 1))],
        DAMAGED,
    ),
    (
        "the next segment goes on with the numbers of the one before",
        HALF,
        &[(Slot::Segment1, Bend::Byte(29, 1))],
        DAMAGED,
    ),
    (
        "the next segment takes a name that the one before took",
        HALF,
        &[(Slot::Segment1, Bend::Byte(53, 2))],
        DAMAGED,
    ),
    (
        "the next segment is cut within its batch",
        HALF,
        &[(Slot::Segment1, Bend::Length(60))],
        DAMAGED,
    ),
    (
        "the segment before the next one has a record of another number",
        HALF,
        &[(Slot::Segment0, Bend::Byte(29, 1))],
        DAMAGED,
    ),
    (
        "the segment before the next one is cut within its batch",
        HALF,
        &[(Slot::Segment0, Bend::Length(60))],
        DAMAGED,
    ),
    (
        "the segment before the next one has a short header",
        HALF,
        &[(Slot::Segment0, Bend::Length(15))],
        DAMAGED,
    ),
];

// Both images are closed.
static NO_IMAGE: [Row; 7] = [
    (
        "both segments are open",
        BOTH,
        &[
            (Slot::Image0, Bend::Byte(0, 0)),
            (Slot::Image1, Bend::Byte(0, 0)),
        ],
        DAMAGED,
    ),
    (
        "both images are short, and one segment is open",
        BOTH,
        &[
            (Slot::Image0, Bend::Length(23)),
            (Slot::Image1, Bend::Length(23)),
            (Slot::Segment0, Bend::Length(15)),
        ],
        DAMAGED,
    ),
    (
        "the next segment is open, and the only image closed",
        HALF,
        &[(Slot::Image0, Bend::Byte(0, 0))],
        DAMAGED,
    ),
    (
        "all slots are closed",
        BOTH,
        &[
            (Slot::Image0, Bend::Byte(0, 0)),
            (Slot::Image1, Bend::Byte(0, 0)),
            (Slot::Segment0, Bend::Byte(0, 0)),
            (Slot::Segment1, Bend::Byte(0, 0)),
        ],
        NEW,
    ),
    (
        "segment 0 is open, of epoch 0 and without a batch",
        [None, None, Some(0), None],
        &[(Slot::Segment0, Bend::Byte(16, 0))],
        NEW,
    ),
    (
        "segment 1 is open beside it",
        [None, None, Some(0), Some(1)],
        &[
            (Slot::Segment0, Bend::Byte(16, 0)),
            (Slot::Segment1, Bend::Byte(16, 0)),
        ],
        DAMAGED,
    ),
    (
        "segment 0 is open, of epoch 4 and without a batch",
        [None, None, Some(4), None],
        &[(Slot::Segment0, Bend::Byte(16, 0))],
        DAMAGED,
    ),
];

// Headers of open slots, read or not: other versions, then nonzero padding bytes and invalid epochs.
static HEADERS: [Row; 20] = [
    (
        "the older image's version is 3",
        BOTH,
        &[(Slot::Image0, Bend::Byte(1, 3))],
        VERSION,
    ),
    (
        "the newest image's version is 3",
        BOTH,
        &[(Slot::Image1, Bend::Byte(1, 3))],
        VERSION,
    ),
    (
        "the older segment's version is 3",
        BOTH,
        &[(Slot::Segment0, Bend::Byte(1, 3))],
        VERSION,
    ),
    (
        "the newest segment's version is 3",
        BOTH,
        &[(Slot::Segment1, Bend::Byte(1, 3))],
        VERSION,
    ),
    (
        "the newest image's version is 0",
        BOTH,
        &[(Slot::Image1, Bend::Byte(1, 0))],
        VERSION,
    ),
    (
        "the next segment's version is 3",
        HALF,
        &[(Slot::Segment1, Bend::Byte(1, 3))],
        VERSION,
    ),
    (
        "a segment's version is 3, and no image is open",
        [None, None, Some(4), None],
        &[(Slot::Segment0, Bend::Byte(1, 3))],
        VERSION,
    ),
    (
        "a version is 3, and an epoch is of the other number",
        [Some(4), Some(5), Some(5), Some(5)],
        &[(Slot::Image0, Bend::Byte(1, 3))],
        VERSION,
    ),
    (
        "a version is 3, and a byte beyond it isn't zero",
        BOTH,
        &[
            (Slot::Segment1, Bend::Byte(1, 3)),
            (Slot::Segment1, Bend::Byte(2, 1)),
        ],
        VERSION,
    ),
    (
        "a version is 3, and a byte of another slot isn't zero",
        BOTH,
        &[
            (Slot::Segment1, Bend::Byte(1, 3)),
            (Slot::Image0, Bend::Byte(2, 1)),
        ],
        VERSION,
    ),
    (
        "a closed image's version is 3",
        BOTH,
        &[
            (Slot::Image0, Bend::Byte(0, 0)),
            (Slot::Image0, Bend::Byte(1, 3)),
        ],
        FIVE,
    ),
    (
        "a short segment's version is 3",
        BOTH,
        &[
            (Slot::Segment0, Bend::Byte(1, 3)),
            (Slot::Segment0, Bend::Length(15)),
        ],
        FIVE,
    ),
    (
        "a byte of the older image's header isn't zero",
        BOTH,
        &[(Slot::Image0, Bend::Byte(2, 1))],
        DAMAGED,
    ),
    (
        "a byte of the newest image's header isn't zero",
        BOTH,
        &[(Slot::Image1, Bend::Byte(7, 1))],
        DAMAGED,
    ),
    (
        "a byte of the older segment's header isn't zero",
        BOTH,
        &[(Slot::Segment0, Bend::Byte(7, 1))],
        DAMAGED,
    ),
    (
        "a byte of the newest segment's header isn't zero",
        BOTH,
        &[(Slot::Segment1, Bend::Byte(3, 1))],
        DAMAGED,
    ),
    (
        "a byte of the next segment's header isn't zero",
        HALF,
        &[(Slot::Segment1, Bend::Byte(5, 1))],
        DAMAGED,
    ),
    (
        "a byte of a closed image's header isn't zero",
        BOTH,
        &[
            (Slot::Image0, Bend::Byte(0, 0)),
            (Slot::Image0, Bend::Byte(2, 1)),
        ],
        FIVE,
    ),
    (
        "the highest byte of the older segment's epoch isn't zero",
        BOTH,
        &[(Slot::Segment0, Bend::Byte(15, 1))],
        DAMAGED,
    ),
    (
        "the highest byte of the older image's epoch isn't zero",
        BOTH,
        &[(Slot::Image0, Bend::Byte(15, 1))],
        DAMAGED,
    ),
];

fn check(rt: &impl Abort, alloc: Global, rows: &[Row]) {
    for (name, epochs, bends, wanted) in rows {
        let seen = tried::<MemDisk>(alloc, *epochs, bends);
        same_in_row(rt, *name, seen, Some((*wanted, true, *wanted)));
    }
}

#[test]
fn what_is_corrupted_is_passed_over_or_reported(rt: HostRuntime) {
    let alloc = rt.alloc();
    check(&rt, alloc, &PASSED_OVER);
    check(&rt, alloc, &UNFINISHED);
    check(&rt, alloc, &NEWEST_IMAGE);
    check(&rt, alloc, &SEGMENTS);
    check(&rt, alloc, &NO_IMAGE);
    check(&rt, alloc, &HEADERS);
}
