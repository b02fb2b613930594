//! A connection that makes more calls than an epoch log takes.
use crate::expect::same;
use crate::frames::{ALLOCATE, ALLOCATED, Run, caller, serve_on};
use disk::{Disk, Slot};
use plain_disk::PlainDisk;
use server::Caller;
use std::alloc::{AllocError, Global};

/// `mach_port_set_mscount` of the name 0x100 to 1, and its answer.
const SET: [u8; 16] = [12, 0, 0, 0, 11, 0, 0, 0, 0, 1, 0, 0, 1, 0, 0, 0];

const SET_DONE: [u8; 12] = [8, 0, 0, 0, 11, 0, 0, 0, 0, 0, 0, 0];

/// How many calls are sent at once.
const AT_ONCE: usize = 1_000;

fn add_copies(all: &mut Vec<u8>, bytes: &[u8], times: usize) -> Result<(), AllocError> {
    for _ in 0..times {
        all.extend_from_slice(bytes)?;
    }
    Ok(())
}

/// Bytes, repeated `times` times.
fn repeated(alloc: Global, bytes: &[u8], times: usize) -> Option<Vec<u8>> {
    let mut all = Vec::new(alloc);
    add_copies(&mut all, bytes, times).ok()?;
    Some(all)
}

/// Returns whether a connection came to its end with this output.
fn has_output(run: &Run, wanted: &[u8]) -> bool {
    run.end.is_ok() && run.output.as_slice() == wanted
}

/// Returns whether an input gets these answers, to its end.
fn is_answered<C: Caller>(alloc: Global, caller: &mut C, input: &[u8], wanted: &[u8]) -> bool {
    let run = serve_on(alloc, caller, input);
    has_output(&run, wanted)
}

/// Returns whether an input gets these answers `times` times.
fn are_answered<C: Caller>(
    alloc: Global,
    caller: &mut C,
    input: &[u8],
    wanted: &[u8],
    times: u32,
) -> bool {
    for _ in 0..times {
        if !is_answered(alloc, caller, input, wanted) {
            return false;
        }
    }
    true
}

/// Returns whether `thousands` thousands of calls are each answered with code 0.
fn are_done<C: Caller>(alloc: Global, caller: &mut C, thousands: u32) -> Option<bool> {
    let input = repeated(alloc, &SET, AT_ONCE)?;
    let wanted = repeated(alloc, &SET_DONE, AT_ONCE)?;
    Some(are_answered(alloc, caller, &input, &wanted, thousands))
}

/// Returns whether the first call is done on a new store, and 70,000 after it; then two epochs have ended, and the
/// third one's segment, in the first one's slot, has the rest: its length.
fn go_on<D: Disk + Drop>(alloc: Global, disk: D) -> Option<(bool, Option<bool>, u64)> {
    let mut caller = caller(alloc, disk).ok()?;
    let is_begun = is_answered(alloc, &mut caller, &ALLOCATE, &ALLOCATED);
    let are_done = are_done(alloc, &mut caller, 70);
    let disk = caller.into_disk();
    Some((is_begun, are_done, disk.length(Slot::Segment0)))
}

#[test]
fn an_epoch_ends_and_the_next_goes_on(rt: HostRuntime) {
    let seen = go_on(rt.alloc(), PlainDisk::new(rt.alloc()));
    // 4,465 records of 40 bytes, each a batch of its own.
    same(&rt, seen, Some((true, Some(true), 17 + 4_465 * 53)));
}
