//! A call that saw what another session's call did, which isn't stored.
ghost use Rattle.std.specs.Prelude.{◌≡◌};
ghost use Rattle.std.specs.Arc.{arc_value};

use crate::asking::{acknowledged, asked, bits_in, name_in};
use crate::expect::same;
use crate::flag::Flag;
use crate::service::{Admitting, Service};
use crate::shares::{Start, shared_from, start_on};
use crate::stop::{Stay, Stop};
use disk::{Disk, MemDisk};
use ipc_model::{Call, PlainCall, Reply};
use sessions::{Founding, Gate, LoopStep};
use std::alloc::Global;
use std::marker::Brand;
use std::sync::Wait;
use std::thread::{Threads, join};
use std::time::Clock;
use system::Ticket;

#[derive(Debug, Drop, PartialEq)]
struct Seen {
    /// Whether the loop was about to store the first call, and wasn't let go too late.
    was_held: bool,
    /// Whether the second call's reply came while the loop was held up.
    came_early: bool,
    /// The answers to both calls.
    name: Option<u32>,
    bits: Option<u32>,
    /// The names in the two records that there are then, and in one more, as the second session reads them.
    read: [Option<u32>; 3],
    /// How many records both have seen once they met.
    together: Option<[usize; 2]>,
}

/// Waits for a reply, and notes when it has come.
fn acknowledged_and_noted<S: Service, R: Wait>(
    rt: &R,
    service: &S,
    session: S::Session,
    ticket: Option<Ticket>,
    has_answered: &Flag,
) -> (S::Session, Option<Reply>) {
    let acknowledged = acknowledged(rt, service, session, ticket);
    has_answered.set();
    acknowledged
}

/// Waits for a reply, while another thread watches for it.
fn watched<S: Service + Sync, R: Threads + Wait + Clock + Sync>(
    rt: &R,
    service: &S,
    session: S::Session,
    ticket: Option<Ticket>,
    stay: &Stay,
) -> ((bool, bool), (S::Session, Option<Reply>)) {
    let has_answered = Flag::new();
    let flag = &has_answered;
    join(
        rt,
        || stay.watch(rt, flag),
        move || acknowledged_and_noted(rt, service, session, ticket, flag),
    )
}

/// One session allocates a right, and another asks for the type of its name. They meet once the other made one more
/// record.
fn call_in_both<S: Service + Sync, R: Threads + Wait + Clock + Sync>(
    rt: &R,
    service: &S,
    one: S::Session,
    other: S::Session,
    stay: &Stay,
) -> Seen {
    let (one, first) = service.make(rt, one, &Call::Plain(PlainCall::Allocate { right: 1 }));
    let (other, second) = service.make(rt, other, &Call::Plain(PlainCall::Type { name: 0x100 }));
    let (held, (other, second)) = watched(rt, service, other, second, stay);
    let (one, first) = acknowledged(rt, service, one, first);
    let (other, _) = asked(
        rt,
        service,
        other,
        &Call::Plain(PlainCall::Allocate { right: 1 }),
    );
    let mut other = other;
    let read = [0, 1, 2].map(|at| S::name_read(&mut other, at));
    Seen {
        was_held: held.0,
        came_early: held.1,
        name: name_in(first),
        bits: bits_in(second),
        read,
        together: S::seen_together(one, other),
    }
}

/// The same in two new sessions.
fn call_in_new<S: Service + Sync, R: Threads + Wait + Clock + Sync>(
    rt: &R,
    service: &S,
    stay: &Stay,
) -> Option<Seen> {
    let one = service.begin(rt)?;
    let other = service.begin(rt)?;
    Some(call_in_both(rt, service, one, other, stay))
}

/// The same, after which the loops are told to end.
fn call_and_end<S: Service + Sync, R: Threads + Wait + Clock + Sync>(
    rt: &R,
    service: &S,
    stay: &Stay,
) -> Option<Seen> {
    let seen = call_in_new(rt, service, stay);
    service.end(rt);
    seen
}

fn call_alongside_the_loop<S: Service + Sync, R: Threads + Wait + Clock + Sync>(
    rt: &R,
    service: &S,
    stay: &Stay,
) -> Option<Seen> {
    let (_, seen) = join(
        rt,
        || service.store_calls(rt),
        || call_and_end(rt, service, stay),
    );
    seen
}

/// What is seen on a new store, whose loop is held up in this way.
fn seen_on<
    L: Founding + Send + Sync,
    D: Disk + Drop + Send,
    G: Gate + Send + Sync,
    R: Threads + Wait + Clock + Sync,
>(rt: &R, alloc: Global, start: Start<D>, gate: G, stay: &Stay) -> Option<Seen>
    requires base { start.opened.kernel ≡ L.base }
    requires row { arc_value start.row ≡ L.first }
    requires blank { (start.blank.name ≡ L.name) × (start.blank.parts ≡ L.parts) }
    requires mark { start.mark ≡ L.table }
{
    let shared: Admitting<L, D, G> = shared_from(alloc, start, gate)?;
    call_alongside_the_loop(rt, &shared, stay)
}

/// What is seen on a disk without a store. `None` if none can be made.
fn seen_on_new<D: Disk + Drop + Send, G: Gate + Send + Sync, R: Threads + Wait + Clock + Sync>(
    rt: &R,
    alloc: Global,
    disk: D,
    gate: G,
    stay: &Stay,
) -> Option<Seen> {
    let start = start_on(alloc, disk)?;
    seen_on::<Brand, D, G, R>(rt, alloc, start, gate, stay)
}

#[test]
fn a_reply_waits_for_what_its_call_saw(rt: HostRuntime) {
    let stay = Stay::new();
    let gate = Stop {
        rt: &rt,
        at: LoopStep::Append,
        stay: &stay,
    };
    let seen = seen_on_new(&rt, rt.alloc(), MemDisk::new(rt.alloc()), gate, &stay);
    let wanted = Seen {
        was_held: true,
        came_early: false,
        name: Some(0x100),
        bits: Some(0x2_0000),
        read: [Some(0x100), Some(0x101), None],
        together: Some([2, 2]),
    };
    same(&rt, seen, Some(wanted));
}
