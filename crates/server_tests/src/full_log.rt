use crate::asking::{Asked, AskedRow, EPOCH_FULL, NOT_NOW};
use crate::expect::same;
use crate::store::{Store, asked_full};
use codes::MAX_RECORDS;
use disk::MemDisk;

static FULL: [AskedRow; 12] = [
    (Asked::Allocate, EPOCH_FULL),
    // Reads are answered as before: they have no record.
    (Asked::Type(0x100), MAX_RECORDS),
    (Asked::Type(0x101), MAX_RECORDS + 1),
    (Asked::Reply(MAX_RECORDS), NOT_NOW),
    (Asked::Take, 1),
    (Asked::Append, 1),
    (Asked::Durable, 1),
    (Asked::Allocate, EPOCH_FULL),
    (Asked::Take, 0),
    (Asked::Reply(0), 0x100),
    (Asked::Reply(MAX_RECORDS), 0x2_0000),
    // `KERN_INVALID_NAME`: the call that was refused allocated nothing.
    (Asked::Reply(MAX_RECORDS + 1), 15),
];

#[test]
fn a_full_log_takes_no_record(rt: HostRuntime) {
    let seen = asked_full(rt.alloc(), MemDisk::empty(rt.alloc()), &FULL);
    same(&rt, seen, Some((true, None)));
}
