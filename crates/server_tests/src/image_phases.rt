//! What the inspector prints in each phase of a checkpoint. What is expected follows from docs/FORMATS.md: the state is
//! that of the newest open image, of its epoch's segment, and of the next segment from its opening on; the epoch is
//! that image's, and the records are those of these segments.
use crate::expect::same_in_row;
use crate::inspected::{are_alike, drawing_of, lines_of};
use crate::lists::play_on;
use crate::store::Store;
use disk::MemDisk;
use std::alloc::Global;
use std::process::Abort;

/// What the inspector prints of a store: its lines, and its drawing.
type Printed = (&'static str, &'static str);

/// A list of events, one letter each, and what is printed after it.
type Phase = (&'static [u8], Printed);

const NEW: Printed = (
    "epoch 0 records 0
space 1
",
    NO_NAME_DRAWN,
);

const ONE_RECORD: Printed = (
    "epoch 0 records 1
space 1
name 00000100 00020000 port 1 refs 0
port 1 held 1 00000100 send 0 once 0 queue 0 of 5 seqno 0 mscount 0
",
    ONE_NAME_DRAWN,
);

/// The record is in the image now.
const ONE_NAME_IN_AN_IMAGE: Printed = (
    "epoch 1 records 0
space 1
name 00000100 00020000 port 1 refs 0
port 1 held 1 00000100 send 0 once 0 queue 0 of 5 seqno 0 mscount 0
",
    ONE_NAME_DRAWN,
);

/// A record in each of two segments.
const TWO_RECORDS: Printed = (
    "epoch 0 records 2
space 1
name 00000100 00020000 port 1 refs 0
name 00000101 00020000 port 2 refs 0
port 1 held 1 00000100 send 0 once 0 queue 0 of 5 seqno 0 mscount 0
port 2 held 1 00000101 send 0 once 0 queue 0 of 5 seqno 0 mscount 0
",
    TWO_NAMES_DRAWN,
);

/// The first record is in the image now, and the second one in its epoch's segment.
const ONE_RECORD_AFTER_AN_IMAGE: Printed = (
    "epoch 1 records 1
space 1
name 00000100 00020000 port 1 refs 0
name 00000101 00020000 port 2 refs 0
port 1 held 1 00000100 send 0 once 0 queue 0 of 5 seqno 0 mscount 0
port 2 held 1 00000101 send 0 once 0 queue 0 of 5 seqno 0 mscount 0
",
    TWO_NAMES_DRAWN,
);

const NO_NAME_DRAWN: &str = r#"digraph ports {
  rankdir=LR;
  node [shape=box];
  subgraph cluster_1 {
    label="space 1";
  }
}
"#;

const ONE_NAME_DRAWN: &str = r#"digraph ports {
  rankdir=LR;
  node [shape=box];
  subgraph cluster_1 {
    label="space 1";
    n1_00000100 [label="00000100 00020000 refs 0"];
  }
  p1 [shape=ellipse, label="port 1\nsend 0 once 0\nqueue 0 of 5\nseqno 0 mscount 0"];
  n1_00000100 -> p1 [label="receive"];
}
"#;

const TWO_NAMES_DRAWN: &str = r#"digraph ports {
  rankdir=LR;
  node [shape=box];
  subgraph cluster_1 {
    label="space 1";
    n1_00000100 [label="00000100 00020000 refs 0"];
    n1_00000101 [label="00000101 00020000 refs 0"];
  }
  p1 [shape=ellipse, label="port 1\nsend 0 once 0\nqueue 0 of 5\nseqno 0 mscount 0"];
  p2 [shape=ellipse, label="port 2\nsend 0 once 0\nqueue 0 of 5\nseqno 0 mscount 0"];
  n1_00000100 -> p1 [label="receive"];
  n1_00000101 -> p2 [label="receive"];
}
"#;

/// A receive right is stored and acknowledged, and a checkpoint made. The next epoch is printed once the checkpoint's
/// last step is on the disk.
static CHECKPOINT: [Phase; 13] = [
    (b"a", NEW),
    (b"ak", NEW),
    (b"akw", ONE_RECORD),
    (b"akwd", ONE_RECORD),
    (b"akwd0", ONE_RECORD),
    (b"akwd0c", ONE_RECORD),
    (b"akwd0cl", ONE_RECORD),
    (b"akwd0clh", ONE_RECORD),
    (b"akwd0clho", ONE_RECORD),
    (b"akwd0clhoi", ONE_RECORD),
    (b"akwd0clhoip", ONE_RECORD),
    (b"akwd0clhoipf", ONE_NAME_IN_AN_IMAGE),
    (b"akwd0clhoipfd", ONE_NAME_IN_AN_IMAGE),
];

/// The same, and a second right is stored in the next epoch's segment while the image is made.
static ALONGSIDE: [Phase; 18] = [
    (b"a", NEW),
    (b"ak", NEW),
    (b"akw", ONE_RECORD),
    (b"akwd", ONE_RECORD),
    (b"akwd0", ONE_RECORD),
    (b"akwd0c", ONE_RECORD),
    (b"akwd0cl", ONE_RECORD),
    (b"akwd0clh", ONE_RECORD),
    (b"akwd0clho", ONE_RECORD),
    (b"akwd0clhoi", ONE_RECORD),
    (b"akwd0clhoia", ONE_RECORD),
    (b"akwd0clhoiak", ONE_RECORD),
    (b"akwd0clhoiakw", TWO_RECORDS),
    (b"akwd0clhoiakwd", TWO_RECORDS),
    (b"akwd0clhoiakwd1", TWO_RECORDS),
    (b"akwd0clhoiakwd1p", TWO_RECORDS),
    (b"akwd0clhoiakwd1pf", ONE_RECORD_AFTER_AN_IMAGE),
    (b"akwd0clhoiakwd1pfd", ONE_RECORD_AFTER_AN_IMAGE),
];

/// Returns whether each event of a list was done, by the letters of the answers: a ticket, a name, or that it was done.
/// None of the tables' events comes out of turn.
fn are_done(answers: &[u8]) -> bool {
    for answer in answers {
        if !matches!(*answer, b'#' | b'+' | b'A'..=b'Z') {
            return false;
        }
    }
    true
}

/// The disk of a new store after a list of events, as a read returns it, if all are done.
fn disk_after<S: Store + Drop>(alloc: Global, letters: &[u8]) -> Option<S> {
    let (answers, disk) = play_on(alloc, S::empty(alloc), letters)?;
    if are_done(&answers) { Some(disk) } else { None }
}

/// The lines and the drawing of a store, and whether its slots stay as they were.
type Inspected = (Vec<u8>, Vec<u8>, bool);

fn inspected<S: Store + Drop>(alloc: Global, disk: &mut S) -> Option<Inspected> {
    let before = disk.copied(alloc)?;
    let lines = lines_of(alloc, disk)?;
    let drawing = drawing_of(alloc, disk)?;
    Some((lines, drawing, are_alike(&before, disk)))
}

/// The same of a new store after a list of events.
fn inspected_after<S: Store + Drop>(alloc: Global, letters: &[u8]) -> Option<Inspected> {
    let mut disk: S = disk_after(alloc, letters)?;
    inspected(alloc, &mut disk)
}

/// What is seen as texts. `None` if a part isn't one.
fn encodings(seen: &Option<Inspected>) -> Option<(&str, &str, bool)> {
    let (lines, drawing, is_same) = seen.as_ref()?;
    let lines = str::from_utf8(lines).ok()?;
    Some((lines, str::from_utf8(drawing).ok()?, *is_same))
}

/// Compares what is seen after each of these phases with what is expected.
fn check_phases<S: Store + Drop, A: Abort>(rt: &A, alloc: Global, phases: &[Phase]) {
    for (letters, (lines, drawing)) in phases {
        let seen = inspected_after::<S>(alloc, letters);
        same_in_row(
            rt,
            *letters,
            encodings(&seen),
            Some((*lines, *drawing, true)),
        );
    }
}

#[test]
fn a_checkpoint_shows_one_state_in_each_phase(rt: HostRuntime) {
    check_phases::<MemDisk, HostRuntime>(&rt, rt.alloc(), &CHECKPOINT);
}

#[test]
fn a_call_alongside_an_image_is_shown_from_its_append_on(rt: HostRuntime) {
    check_phases::<MemDisk, HostRuntime>(&rt, rt.alloc(), &ALONGSIDE);
}
