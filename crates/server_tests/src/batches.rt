use crate::asking::{Asked, AskedRow, NOT_NOW};
use crate::expect::same;
use crate::store::{self, Store};
use disk::{Disk, MemDisk, Slot};
use std::alloc::Global;

static TWO_IN_A_BATCH: [AskedRow; 24] = [
    // Nothing waits.
    (Asked::Take, 0),
    (Asked::Append, 0),
    (Asked::Durable, 0),
    (Asked::Reply(0), NOT_NOW),
    // Two calls are made, and taken as one batch.
    (Asked::Allocate, 0),
    (Asked::Allocate, 1),
    (Asked::Append, 0),
    (Asked::Take, 1),
    (Asked::Reply(0), NOT_NOW),
    // While it is out, nothing else is taken.
    (Asked::Allocate, 2),
    (Asked::Take, 0),
    (Asked::Durable, 0),
    (Asked::Append, 1),
    (Asked::Append, 0),
    // It is stored, but its receipt isn't delivered.
    (Asked::Reply(1), NOT_NOW),
    (Asked::Take, 0),
    (Asked::Durable, 1),
    (Asked::Durable, 0),
    // Each reply is given once, in any order, and none whose record still waits.
    (Asked::Reply(1), 0x101),
    (Asked::Reply(0), 0x100),
    (Asked::Reply(0), NOT_NOW),
    (Asked::Reply(2), NOT_NOW),
    (Asked::Reply(3), NOT_NOW),
    (Asked::Append, 0),
];

/// The first row with another answer on a new store, and the length of its segment.
fn asked<S: Store + Drop>(alloc: Global, rows: &[AskedRow]) -> Option<(Option<(usize, u64)>, u64)> {
    let (unlike, disk) = store::asked(alloc, S::empty(alloc), rows)?;
    Some((unlike, disk.length(Slot::Segment0)))
}

#[test]
fn two_calls_are_one_batch(rt: HostRuntime) {
    let seen = asked::<MemDisk>(rt.alloc(), &TWO_IN_A_BATCH);
    same(&rt, seen, Some((None, 110)));
}
