//! Sessions that are closed after both loops have ended.
ghost use Rattle.std.specs.Prelude.{◌≡◌};
ghost use Rattle.std.specs.Arc.{arc_value};

use crate::asking::allocates_many;
use crate::expect::same;
use crate::service::{Admitting, Service, run_both_loops};
use crate::shares::{Start, shared_from, start_on};
use disk::{Disk, MemDisk};
use sessions::{Founding, OpenGate};
use std::alloc::{AllocError, Global};
use std::marker::Brand;
use std::sync::Wait;
use std::thread::{Threads, join};
use std::time::Clock;

/// At how many records a checkpoint is begun.
const RECORDS: u32 = 4;

/// One session makes a few calls, and then another makes many, after which epochs end.
fn call_in_two<S: Service, R: Wait>(rt: &R, service: &S) -> Option<(S::Session, S::Session)> {
    let one = service.begin(rt)?;
    let other = service.begin(rt)?;
    let (other, _) = allocates_many(rt, service, other, 2);
    let (one, _) = allocates_many(rt, service, one, 40);
    Some((one, other))
}

/// The same, after which the loops are told to end.
fn call_and_end<S: Service, R: Wait>(rt: &R, service: &S) -> Option<(S::Session, S::Session)> {
    let called = call_in_two(rt, service);
    service.end(rt);
    called
}

fn call_alongside_both_loops<S: Service + Sync, R: Threads + Wait + Clock + Sync>(
    rt: &R,
    service: &S,
) -> Option<(S::Session, S::Session)> {
    let (_, called) = join(
        rt,
        || run_both_loops(rt, service, RECORDS),
        || call_and_end(rt, service),
    );
    called
}

fn in_order<T: Drop>(alloc: Global, first: T, second: T) -> Result<Vec<T>, AllocError> {
    let mut both = Vec::with_capacity(alloc, 2)?;
    both.push(first)?;
    both.push(second)?;
    Ok(both)
}

/// What is left of a service whose sessions are given in the order of their numbers, or in reverse.
fn closed<S: Service + Sync + Drop, R: Threads + Wait + Clock + Sync>(
    rt: &R,
    alloc: Global,
    service: S,
    is_turned: bool,
) -> Option<[u64; 3]> {
    let (one, other) = call_alongside_both_loops(rt, &service)?;
    let both = if is_turned {
        in_order(alloc, other, one)
    } else {
        in_order(alloc, one, other)
    };
    service.counts_closed(both.ok()?)
}

fn closed_on<L: Founding + Send + Sync, D: Disk + Drop + Send, R: Threads + Wait + Clock + Sync>(
    rt: &R,
    alloc: Global,
    start: Start<D>,
    is_turned: bool,
) -> Option<[u64; 3]>
    requires base { start.opened.kernel ≡ L.base }
    requires row { arc_value start.row ≡ L.first }
    requires blank { (start.blank.name ≡ L.name) × (start.blank.parts ≡ L.parts) }
    requires mark { start.mark ≡ L.table }
{
    let shared: Admitting<L, D, OpenGate> = shared_from(alloc, start, OpenGate)?;
    closed(rt, alloc, shared, is_turned)
}

/// What is left of a service on a disk without a store, if it can be closed in this way. `None` if no store can be
/// made.
fn closed_on_new<D: Disk + Drop + Send, R: Threads + Wait + Clock + Sync>(
    rt: &R,
    alloc: Global,
    disk: D,
    is_turned: bool,
) -> Option<Option<[u64; 3]>> {
    let start = start_on(alloc, disk)?;
    Some(closed_on::<Brand, D, R>(rt, alloc, start, is_turned))
}

#[test]
fn sessions_of_several_epochs_are_of_one_history(rt: HostRuntime) {
    let counts = closed_on_new(&rt, rt.alloc(), MemDisk::new(rt.alloc()), false);
    same(&rt, counts, Some(Some([2, 42, 42])));
}

#[test]
fn sessions_are_handed_in_by_their_numbers(rt: HostRuntime) {
    let counts = closed_on_new(&rt, rt.alloc(), MemDisk::new(rt.alloc()), true);
    same(&rt, counts, Some(None));
}
