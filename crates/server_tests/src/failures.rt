use crate::asking::{Asked, AskedRow, DEVICE, FAILED, NOT_NOW};
use crate::expect::same_in_row;
use crate::store::{Store, asked, failing, stored_records};
use disk::{MemDisk, Torn};
use std::alloc::Global;

/// Opening a store makes fifteen device calls: four syncs, four reads of headers, three of the image, two of the
/// segment, and two that end it.
const OPENING: u64 = 15;

/// An append writes the batch, syncs, opens its gate, and syncs. One of these fails.
static FAILS: [AskedRow; 8] = [
    (Asked::Allocate, 0),
    (Asked::Allocate, 1),
    (Asked::Take, 1),
    (Asked::Append, DEVICE),
    (Asked::Append, FAILED),
    (Asked::Take, 0),
    (Asked::Durable, 0),
    (Asked::Reply(0), NOT_NOW),
];

/// None of them fails.
static IS_STORED: [AskedRow; 6] = [
    (Asked::Allocate, 0),
    (Asked::Allocate, 1),
    (Asked::Take, 1),
    (Asked::Append, 1),
    (Asked::Durable, 1),
    (Asked::Reply(1), 0x101),
];

/// What may be left of the writes since the last sync; and how many records a crash after the gate's write then leaves.
static KINDS: [(Torn, u64); 6] = [
    (Torn::Old, 0),
    (Torn::New, 2),
    (Torn::Half, 2),
    (Torn::Fill(0), 0),
    (Torn::Fill(0x5a), 2),
    (Torn::Fill(0xff), 0),
];

/// The first row with another answer, and how many records are found again after a crash, if the device fails at this
/// call of the first append, once or for good.
fn left<S: Store + Drop>(
    alloc: Global,
    call: u64,
    once: bool,
    torn: Torn,
    rows: &[AskedRow],
) -> Option<(Option<(usize, u64)>, u64)> {
    let disk: S = failing(alloc, OPENING.saturating_add(call), once, torn)?;
    let (unlike, disk) = asked(alloc, disk, rows)?;
    Some((unlike, stored_records(alloc, disk.stop()?)?))
}

#[test]
fn a_batch_is_left_whole_or_not_at_all(rt: HostRuntime) {
    for (torn, after_gate) in &KINDS {
        for call in 1..5u64 {
            let found = if call < 3 { 0 } else { *after_gate };
            let for_good = left::<MemDisk>(rt.alloc(), call, false, *torn, &FAILS);
            let once = left::<MemDisk>(rt.alloc(), call, true, *torn, &FAILS);
            let wanted = [Some((None, found)); 2];
            same_in_row(&rt, (*torn, call), [for_good, once], wanted);
        }
        let seen = left::<MemDisk>(rt.alloc(), 5, false, *torn, &IS_STORED);
        same_in_row(&rt, *torn, seen, Some((None, 2)));
    }
}
