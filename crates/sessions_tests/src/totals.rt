//! Four sessions at once alongside the loop that stores their calls, and what they made together once all is closed.
ghost use Rattle.std.specs.Prelude.{◌≡◌};
ghost use Rattle.std.specs.Arc.{arc_value};

use crate::asking::allocates_many;
use crate::expect::same;
use crate::service::{Admitting, Service};
use crate::shares::{Start, shared_from, start_on};
use disk::{Disk, MemDisk};
use sessions::{Founding, OpenGate};
use std::alloc::{AllocError, Global};
use std::marker::Brand;
use std::sync::Wait;
use std::thread::{Threads, join};
use std::time::Clock;

/// How many rights each session allocates.
const COUNT: u32 = 500;

/// How many rights each session was given as expected; and how many sessions were made, how many records they made, and
/// how many of these are stored.
type Totals = ([u32; 4], [u64; 3]);

fn begin_two<S: Service, R: Wait>(rt: &R, service: &S) -> Option<(S::Session, S::Session)> {
    let one = service.begin(rt)?;
    let other = service.begin(rt)?;
    Some((one, other))
}

/// Allocates in two sessions at once.
fn count_two<S: Service + Sync, R: Threads + Wait + Sync>(
    rt: &R,
    service: &S,
    two: (S::Session, S::Session),
) -> ((S::Session, S::Session), (u32, u32)) {
    let (one, other) = two;
    let ((one, first), (other, second)) = join(
        rt,
        move || allocates_many(rt, service, one, COUNT),
        move || allocates_many(rt, service, other, COUNT),
    );
    ((one, other), (first, second))
}

fn in_order<T: Drop>(alloc: Global, front: (T, T), back: (T, T)) -> Result<Vec<T>, AllocError> {
    let mut all = Vec::with_capacity(alloc, 4)?;
    all.push(front.0)?;
    all.push(front.1)?;
    all.push(back.0)?;
    all.push(back.1)?;
    Ok(all)
}

/// Allocates in four sessions at once. Returns the sessions by their numbers, and how many rights each was given.
fn count_four<S: Service + Sync, R: Threads + Wait + Sync>(
    rt: &R,
    alloc: Global,
    service: &S,
) -> Option<(Vec<S::Session>, [u32; 4])> {
    let front = begin_two(rt, service)?;
    let back = begin_two(rt, service)?;
    let ((front, one), (back, other)) = join(
        rt,
        move || count_two(rt, service, front),
        move || count_two(rt, service, back),
    );
    let sessions = in_order(alloc, front, back).ok()?;
    Some((sessions, [one.0, one.1, other.0, other.1]))
}

/// The same, after which the loop is told to end.
fn count_and_end<S: Service + Sync, R: Threads + Wait + Sync>(
    rt: &R,
    alloc: Global,
    service: &S,
) -> Option<(Vec<S::Session>, [u32; 4])> {
    let counted = count_four(rt, alloc, service);
    service.end(rt);
    counted
}

fn count_alongside_the_loop<S: Service + Sync, R: Threads + Wait + Clock + Sync>(
    rt: &R,
    alloc: Global,
    service: &S,
) -> Option<(Vec<S::Session>, [u32; 4])> {
    let (_, counted) = join(
        rt,
        || service.store_calls(rt),
        || count_and_end(rt, alloc, service),
    );
    counted
}

fn totals<S: Service + Sync + Drop, R: Threads + Wait + Clock + Sync>(
    rt: &R,
    alloc: Global,
    service: S,
) -> Option<Totals> {
    let (sessions, counts) = count_alongside_the_loop(rt, alloc, &service)?;
    let closed = service.counts_closed(sessions)?;
    Some((counts, closed))
}

/// The totals on a new store.
fn totals_on<L: Founding + Send + Sync, D: Disk + Drop + Send, R: Threads + Wait + Clock + Sync>(
    rt: &R,
    alloc: Global,
    start: Start<D>,
) -> Option<Totals>
    requires base { start.opened.kernel ≡ L.base }
    requires row { arc_value start.row ≡ L.first }
    requires blank { (start.blank.name ≡ L.name) × (start.blank.parts ≡ L.parts) }
    requires mark { start.mark ≡ L.table }
{
    let shared: Admitting<L, D, OpenGate> = shared_from(alloc, start, OpenGate)?;
    totals(rt, alloc, shared)
}

/// The totals on a disk without a store. `None` if none can be made, or the sessions aren't of one history.
fn totals_on_new<D: Disk + Drop + Send, R: Threads + Wait + Clock + Sync>(
    rt: &R,
    alloc: Global,
    disk: D,
) -> Option<Totals> {
    let start = start_on(alloc, disk)?;
    totals_on::<Brand, D, R>(rt, alloc, start)
}

#[test]
fn four_threads_make_one_history(rt: HostRuntime) {
    let totals = totals_on_new(&rt, rt.alloc(), MemDisk::new(rt.alloc()));
    same(&rt, totals, Some(([COUNT; 4], [4, 2_000, 2_000])));
}
