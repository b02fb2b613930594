//! A call while a checkpoint is held up.
ghost use Rattle.std.specs.Prelude.{◌≡◌};
ghost use Rattle.std.specs.Arc.{arc_value};

use crate::asking::{allocates_many, asked, name_in};
use crate::expect::same;
use crate::service::{Admitting, Service, run_both_loops};
use crate::shares::{Start, shared_from, start_on};
use crate::stop::{Stay, Stop};
use disk::{Disk, MemDisk};
use ipc_model::{Call, PlainCall};
use sessions::{Founding, Gate, LoopStep};
use std::alloc::Global;
use std::marker::Brand;
use std::sync::Wait;
use std::thread::{Threads, join};
use std::time::Clock;

/// At how many records a checkpoint is begun: as many receive rights make an image of three pieces.
const RECORDS: u32 = 120;

#[derive(Debug, Drop, PartialEq)]
struct Seen {
    /// How many rights were allocated before the checkpoint.
    count: u32,
    /// Whether the checkpoint was about to write its last piece.
    has_come: bool,
    /// The name that a call gave then.
    name: Option<u32>,
    /// Whether the checkpoint went on before that.
    was_late: bool,
    has_finished: bool,
}

/// Makes calls until a checkpoint begins, and one more while it is held up.
fn call_alongside_a_checkpoint<S: Service, R: Wait + Clock>(
    rt: &R,
    service: &S,
    session: S::Session,
    stay: &Stay,
) -> Seen {
    let (session, count) = allocates_many(rt, service, session, RECORDS);
    let has_come = stay.has_come.comes(rt);
    let (_, reply) = asked(
        rt,
        service,
        session,
        &Call::Plain(PlainCall::Allocate { right: 1 }),
    );
    let was_late = stay.was_late.is_set();
    stay.may_go.set();
    Seen {
        count,
        has_come,
        name: name_in(reply),
        was_late,
        has_finished: stay.has_finished.comes(rt),
    }
}

/// The same in a new session, after which the loops are told to end.
fn call_and_end<S: Service, R: Wait + Clock>(rt: &R, service: &S, stay: &Stay) -> Option<Seen> {
    let seen = match service.begin(rt) {
        Some(session) => Some(call_alongside_a_checkpoint(rt, service, session, stay)),
        None => None,
    };
    service.end(rt);
    seen
}

fn call_alongside_both_loops<S: Service + Sync, R: Threads + Wait + Clock + Sync>(
    rt: &R,
    service: &S,
    stay: &Stay,
) -> Option<Seen> {
    let (_, seen) = join(
        rt,
        || run_both_loops(rt, service, RECORDS),
        || call_and_end(rt, service, stay),
    );
    seen
}

/// What is seen on a new store, whose checkpoint is held up in this way.
fn seen_on<
    L: Founding + Send + Sync,
    D: Disk + Drop + Send,
    G: Gate + Send + Sync,
    R: Threads + Wait + Clock + Sync,
>(rt: &R, alloc: Global, start: Start<D>, gate: G, stay: &Stay) -> Option<Seen>
    requires base { start.opened.kernel ≡ L.base }
    requires row { arc_value start.row ≡ L.first }
    requires blank { (start.blank.name ≡ L.name) × (start.blank.parts ≡ L.parts) }
    requires mark { start.mark ≡ L.table }
{
    let shared: Admitting<L, D, G> = shared_from(alloc, start, gate)?;
    call_alongside_both_loops(rt, &shared, stay)
}

/// What is seen on a disk without a store. `None` if none can be made.
fn seen_on_new<D: Disk + Drop + Send, G: Gate + Send + Sync, R: Threads + Wait + Clock + Sync>(
    rt: &R,
    alloc: Global,
    disk: D,
    gate: G,
    stay: &Stay,
) -> Option<Seen> {
    let start = start_on(alloc, disk)?;
    seen_on::<Brand, D, G, R>(rt, alloc, start, gate, stay)
}

#[test]
fn a_call_is_stored_while_a_checkpoint_is_held_up(rt: HostRuntime) {
    let stay = Stay::new();
    let gate = Stop {
        rt: &rt,
        at: LoopStep::Piece(2),
        stay: &stay,
    };
    let seen = seen_on_new(&rt, rt.alloc(), MemDisk::new(rt.alloc()), gate, &stay);
    let wanted = Seen {
        count: RECORDS,
        has_come: true,
        name: Some(0x178),
        was_late: false,
        has_finished: true,
    };
    same(&rt, seen, Some(wanted));
}
