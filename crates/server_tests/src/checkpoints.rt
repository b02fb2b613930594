//! Checkpoints as lists of events, and what a crash or a fault within them leaves.
use crate::expect::{same, same_in_row};
use crate::lists::{FIRST_CALL, KINDS, Way, bounds, count_ports, play};
use crate::store::{Store, failing, reopened};
use disk::{Disk, MemDisk, Slot, Torn};
use std::alloc::{AllocError, Global};

/// A checkpoint of a store with one record, step by step.
static CHECKPOINT: (&[u8], &[u8]) = (b"akwd0clhoipfd", b"#+++A++++++++");

/// What isn't possible: each step before its time, a second snapshot before the receipt of the first one's image was
/// delivered, the next segment's opening before the previous epoch log is stored, a batch of the next epoch before its
/// segment is open, an end before the last piece.
static OUT_OF_TURN: (&[u8], &[u8]) = (
    b"lhoipfaclhcofpifkwdakwowdfppfcdc",
    b"------#+++----+-+++#+-+++-+-+-++",
);

/// Two checkpoints one after another: the second one's slots are those that the first store was made in.
static TWICE: (&[u8], &[u8]) = (
    b"akwd0clhoipfdakwd1clhoipfdakwd2",
    b"#+++A++++++++#+++B++++++++#+++C",
);

/// A call of the next epoch is stored and acknowledged while the image is written.
static ALONGSIDE: (&[u8], &[u8]) = (b"akwd0aclhkwodiakwd1d2pfd", b"#+++A#++++++++#+++B-C+++");

// Whether a list of events has these answers on a new store; and how long the second segment and image are then.
fn lengths<S: Store + Drop>(alloc: Global, list: (&[u8], &[u8])) -> Option<(bool, u64, u64)> {
    let (letters, wanted) = list;
    let (answers, disk) = play(alloc, S::empty(alloc), letters)?;
    Some((
        answers.as_slice() == wanted,
        disk.length(Slot::Segment1),
        disk.length(Slot::Image1),
    ))
}

#[test]
fn a_checkpoint_is_made_step_by_step(rt: HostRuntime) {
    let seen = lengths::<MemDisk>(rt.alloc(), CHECKPOINT);
    same(&rt, seen, Some((true, 17, 122)));
}

// Whether a list of events has these answers on a new store.
fn is_answered<S: Store + Drop>(alloc: Global, list: (&[u8], &[u8])) -> bool {
    matches!(lengths::<S>(alloc, list), Some((true, _, _)))
}

#[test]
fn steps_come_in_their_turn(rt: HostRuntime) {
    let seen = [
        is_answered::<MemDisk>(rt.alloc(), OUT_OF_TURN),
        is_answered::<MemDisk>(rt.alloc(), TWICE),
        is_answered::<MemDisk>(rt.alloc(), ALONGSIDE),
    ];
    same(&rt, seen, [true; 3]);
}

// How many ports space 1 has, by the name of the next one, which is allocated and stored.
fn ports<S: Store + Drop>(alloc: Global, disk: S) -> Option<u64> {
    let (ports, _) = count_ports(alloc, disk)?;
    Some(ports)
}

// Opens a store whose device fails from this call of the opening on. Returns how many ports are found after a crash
// then, and whether it was opened.
fn ports_after_opening<S: Store + Drop>(
    alloc: Global,
    disk: &S,
    at: u64,
    torn: Torn,
) -> Option<(u64, bool)> {
    let mut copy = disk.copied(alloc)?;
    copy.plan_faults(Some(at), None, torn);
    let (disk, records) = reopened(alloc, copy);
    Some((ports(alloc, disk.stop()?)?, records.is_some()))
}

// Whether a crash at each device call of an opening leaves as many ports, until none of its calls fails any more.
fn openings_keep<S: Store + Drop>(alloc: Global, disk: &S, wanted: u64, torn: Torn) -> bool {
    for at in 1..60u64 {
        let Some((found, is_opened)) = ports_after_opening(alloc, disk, at, torn) else {
            return false;
        };
        if found != wanted {
            return false;
        }
        if is_opened {
            return true;
        }
    }
    false
}

// Whether this disk has no fewer ports than were acknowledged and no more than were made, and whether the same holds of
// what is left of it when an opening is stopped at any of its calls.
fn is_kept<S: Store + Drop>(
    alloc: Global,
    disk: &S,
    bounds: Option<(u64, u64)>,
    torn: Torn,
) -> Option<bool> {
    let (acknowledged, applied) = bounds?;
    let found = ports(alloc, disk.copied(alloc)?)?;
    Some(acknowledged <= found && found <= applied && openings_keep(alloc, disk, found, torn))
}

// The same for what a list of events on this disk leaves; and whether one of its events met a fault.
fn is_bounded<S: Store + Drop>(
    alloc: Global,
    disk: S,
    letters: &[u8],
    torn: Torn,
) -> Option<(bool, bool)> {
    let (answers, disk) = play(alloc, disk, letters)?;
    let is_kept = is_kept(alloc, &disk, bounds(alloc, letters, &answers), torn);
    Some((is_kept == Some(true), answers.contains(&b'!')))
}

// How many device calls a list makes until none fails that is planned to, if what each failure leaves is within its
// bounds.
fn swept<S: Store + Drop>(alloc: Global, letters: &[u8], once: bool, torn: Torn) -> Option<u64> {
    for calls in 0..400u64 {
        let disk: S = failing(alloc, FIRST_CALL.saturating_add(calls), once, torn)?;
        let (is, met_fault) = is_bounded(alloc, disk, letters, torn)?;
        if !is {
            return None;
        }
        if !met_fault {
            return Some(calls);
        }
    }
    None
}

// The first way to fail in which a list isn't swept over as many device calls. (An append makes four; a checkpoint
// fifteen in slots that were never used, and one to read a gate for each that was.)
fn unswept<S: Store + Drop>(alloc: Global, letters: &[u8], calls: u64) -> Option<Way> {
    for torn in &KINDS {
        for once in [false, true] {
            let seen = swept::<S>(alloc, letters, once, *torn);
            if seen != Some(calls) {
                return Some((*torn, once, seen));
            }
        }
    }
    None
}

#[test]
fn a_crash_in_a_checkpoint_leaves_what_was_acknowledged(rt: HostRuntime) {
    same(&rt, unswept::<MemDisk>(rt.alloc(), TWICE.0, 44), None);
    same(&rt, unswept::<MemDisk>(rt.alloc(), ALONGSIDE.0, 27), None);
}

// A hundred and twenty receive rights, which make an image of three pieces; a checkpoint is begun, its image closed and
// two pieces of it written; a call of the next epoch is stored and acknowledged (its ticket is the 121st); and the
// checkpoint is finished.
fn add_pieces(letters: &mut Vec<u8>) -> Result<(), AllocError> {
    for _ in 0..120 {
        letters.push(b'a')?;
    }
    letters.extend_from_slice(b"kwdclhoippakwd\xa8pfd")
}

fn of_three_pieces(alloc: Global) -> Option<Vec<u8>> {
    let mut letters = Vec::new(alloc);
    add_pieces(&mut letters).ok()?;
    Some(letters)
}

// Whether these events have these answers after the first ones, and the first way to fail in which they aren't swept.
fn tried<S: Store + Drop>(alloc: Global, wanted: &[u8]) -> Option<(bool, Option<Way>)> {
    let letters = of_three_pieces(alloc)?;
    let (answers, _) = play(alloc, S::empty(alloc), &letters)?;
    let is_answered = answers.get(120..) == Some(wanted);
    Some((is_answered, unswept::<S>(alloc, &letters, 25)))
}

#[test]
fn calls_are_stored_between_the_pieces_of_an_image(rt: HostRuntime) {
    let seen = tried::<MemDisk>(rt.alloc(), b"++++++++++#+++\xb9+++");
    same(&rt, seen, Some((true, None)));
}
