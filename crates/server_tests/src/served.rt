use crate::expect::same_in_row;
use crate::frames::{ALLOCATE, ALLOCATED, served};
use crate::store::Store;
use disk::{MemDisk, Slot, Torn};
use server::ServeFault;
use std::alloc::Global;
use store_fault::StoreFault;
use wire::WireFault;

fn after_allocation(alloc: Global, tail: &[u8]) -> Option<Vec<u8>> {
    let mut input = Vec::from_slice(alloc, &ALLOCATE).ok()?;
    input.extend_from_slice(tail).ok()?;
    Some(input)
}

/// An allocation with these bytes after it, served on a new store: whether only its reply was written, how it ended,
/// and the length of the segment.
fn with_tail<S: Store + Drop>(
    alloc: Global,
    tail: &[u8],
) -> Option<(bool, Result<(), ServeFault>, u64)> {
    let input = after_allocation(alloc, tail)?;
    let (run, disk) = served(alloc, S::empty(alloc), &input);
    let length = disk.length(Slot::Segment0);
    drop(disk);
    drop(input);
    let Some(run) = run else {
        return None;
    };
    Some((
        run.output.as_slice() == ALLOCATED.as_slice(),
        run.end,
        length,
    ))
}

static CORRUPTED: [(&'static [u8], WireFault); 3] = [
    (&[3, 0, 0, 0], WireFault::Short),
    (&[253, 255, 0, 0], WireFault::TooLong),
    (&[8, 0, 0, 0, 2, 0, 0, 0, 0, 1, 0], WireFault::Short),
];

#[test]
fn a_wire_fault_ends_after_whole_replies(rt: HostRuntime) {
    for (tail, fault) in &CORRUPTED {
        let seen = with_tail::<MemDisk>(rt.alloc(), tail);
        let end = Err(ServeFault::Wire(*fault));
        same_in_row(&rt, *tail, seen, Some((true, end, 70)));
    }
}

/// A new store on a disk that fails once.
fn failing<S: Store + Drop>(alloc: Global, fails_at: u64) -> Option<S> {
    let (run, mut disk) = served(alloc, S::empty(alloc), &[]);
    run?;
    disk.plan_faults(None, Some(fails_at), Torn::Old);
    Some(disk)
}

/// Two allocations on a new store whose disk fails once: how many bytes were written, and how it ended.
fn on_failing_disk<S: Store + Drop>(
    alloc: Global,
    fails_at: u64,
) -> Option<(usize, Result<(), ServeFault>)> {
    let disk = failing::<S>(alloc, fails_at)?;
    let input = after_allocation(alloc, &ALLOCATE)?;
    let (run, disk) = served(alloc, disk, &input);
    drop(disk);
    drop(input);
    let Some(run) = run else {
        return None;
    };
    Some((run.output.len(), run.end))
}

/// Which device call fails, and how many bytes are written. Opening makes fifteen calls: four syncs, four reads of
/// headers, three of the image, two of the segment, and two that end it. An append makes four, so the nineteenth call
/// is the first append's last.
static FAILING: [(u64, usize); 4] = [(16, 0), (19, 0), (20, 16), (23, 16)];

#[test]
fn a_failing_store_gets_no_reply(rt: HostRuntime) {
    for (fails_at, written) in &FAILING {
        let seen = on_failing_disk::<MemDisk>(rt.alloc(), *fails_at);
        let fault = Err(ServeFault::Store(StoreFault::Device));
        same_in_row(&rt, *fails_at, seen, Some((*written, fault)));
    }
}
