//! A call that finds its epoch log full while a checkpoint is held up.
ghost use Rattle.std.specs.Prelude.{◌≡◌};
ghost use Rattle.std.specs.Arc.{arc_value};

use crate::asking::{acknowledged, allocates_many, asked, name_in};
use crate::expect::same;
use crate::flag::Flag;
use crate::service::{Admitting, Service, run_both_loops};
use crate::shares::{Start, shared_from, start_on};
use crate::stop::Stay;
use codes::MAX_RECORDS;
use disk::Disk;
use ipc_model::{Call, PlainCall, Reply};
use plain_disk::PlainDisk;
use sessions::{Founding, Gate, LoopStep};
use std::alloc::Global;
use std::marker::Brand;
use std::sync::Wait;
use std::thread::{Threads, join};
use std::time::Clock;
use system::Ticket;

/// At how many records a checkpoint is begun.
const RECORDS: u32 = 4;

/// For how many turns of a millisecond a loop is held up at most: the log fills slowly if a run is watched.
const MOST_TURNS: u32 = 60_000;

#[derive(Debug, Drop, PartialEq)]
struct Seen {
    /// Whether a checkpoint was about to write a piece, and was held up until the log was full.
    was_held: bool,
    /// How many calls filled the log, and whether the last of them was answered.
    count: u64,
    is_acknowledged: bool,
    /// Whether the next call was answered while the checkpoint was held up.
    came_early: bool,
    /// The name that it gave.
    name: Option<u32>,
}

/// A gate that holds up a checkpoint before its first piece, and meanwhile the loop that stores, each until it may go
/// on.
#[derive(Drop)]
struct Pause<'a, C> {
    rt: &'a C,
    stay: &'a Stay,
    may_store: &'a Flag,
}

impl<'a, C: Clock> Gate for Pause<'a, C> {
    fn pass<R: Wait>(&self, _rt: &R, step: LoopStep) {
        if step == LoopStep::Take && self.stay.has_come.is_set() {
            let _ = self.may_store.comes_within(self.rt, MOST_TURNS);
        }
        if step == LoopStep::Piece(0) {
            self.stay.has_come.set();
            if !self.stay.may_go.comes_within(self.rt, MOST_TURNS) {
                self.stay.was_late.set();
            }
        }
    }
}

/// Makes `count` calls, each with a record, and waits for no reply. Returns the last one's ticket, and how many were
/// made.
fn make_many<S: Service, R: Wait>(
    rt: &R,
    service: &S,
    session: S::Session,
    count: u64,
) -> (S::Session, Option<Ticket>, u64) {
    let call = Call::Plain(PlainCall::SetQlimit {
        name: 0x100,
        limit: 5,
    });
    let mut session = session;
    let mut last = None;
    let mut done = 0u64;
    for _ in 0..count {
        let (back, made) = service.make(rt, session, &call);
        session = back;
        if made.is_some() {
            done = done.saturating_add(1);
        }
        last = made;
    }
    (session, last, done)
}

/// Asks for a right, and notes when the reply has come.
fn asked_and_noted<S: Service, R: Wait>(
    rt: &R,
    service: &S,
    session: S::Session,
    has_answered: &Flag,
) -> Option<Reply> {
    let (_, reply) = asked(
        rt,
        service,
        session,
        &Call::Plain(PlainCall::Allocate { right: 1 }),
    );
    has_answered.set();
    reply
}

/// The same, while another thread watches for the reply.
fn watched<S: Service + Sync, R: Threads + Wait + Clock + Sync>(
    rt: &R,
    service: &S,
    session: S::Session,
    stay: &Stay,
) -> ((bool, bool), Option<Reply>) {
    let has_answered = Flag::new();
    let flag = &has_answered;
    join(
        rt,
        || stay.watch(rt, flag),
        move || asked_and_noted(rt, service, session, flag),
    )
}

/// Fills the epoch log after the one of which a checkpoint is made, and makes one more call.
fn fill<S: Service + Sync, R: Threads + Wait + Clock + Sync>(
    rt: &R,
    service: &S,
    session: S::Session,
    stay: &Stay,
    may_store: &Flag,
) -> Seen {
    let (session, _) = allocates_many(rt, service, session, RECORDS);
    let has_come = stay.has_come.comes(rt);
    let (session, last, count) = make_many(rt, service, session, MAX_RECORDS);
    may_store.set();
    let (session, last) = acknowledged(rt, service, session, last);
    let (held, reply) = watched(rt, service, session, stay);
    Seen {
        was_held: has_come && held.0,
        count,
        is_acknowledged: last.is_some(),
        came_early: held.1,
        name: name_in(reply),
    }
}

/// The same in a new session, after which the loops are told to end.
fn fill_and_end<S: Service + Sync, R: Threads + Wait + Clock + Sync>(
    rt: &R,
    service: &S,
    stay: &Stay,
    may_store: &Flag,
) -> Option<Seen> {
    let seen = match service.begin(rt) {
        Some(session) => Some(fill(rt, service, session, stay, may_store)),
        None => None,
    };
    service.end(rt);
    seen
}

fn fill_alongside_both_loops<S: Service + Sync, R: Threads + Wait + Clock + Sync>(
    rt: &R,
    service: &S,
    stay: &Stay,
    may_store: &Flag,
) -> Option<Seen> {
    let (_, seen) = join(
        rt,
        || run_both_loops(rt, service, RECORDS),
        || fill_and_end(rt, service, stay, may_store),
    );
    seen
}

/// What is seen on a new store, whose checkpoint is held up in this way.
fn seen_on<
    L: Founding + Send + Sync,
    D: Disk + Drop + Send,
    G: Gate + Send + Sync,
    R: Threads + Wait + Clock + Sync,
>(rt: &R, alloc: Global, start: Start<D>, gate: G, stay: &Stay, may_store: &Flag) -> Option<Seen>
    requires base { start.opened.kernel ≡ L.base }
    requires row { arc_value start.row ≡ L.first }
    requires blank { (start.blank.name ≡ L.name) × (start.blank.parts ≡ L.parts) }
    requires mark { start.mark ≡ L.table }
{
    let shared: Admitting<L, D, G> = shared_from(alloc, start, gate)?;
    fill_alongside_both_loops(rt, &shared, stay, may_store)
}

/// What is seen on a disk without a store. `None` if none can be made.
fn seen_on_new<D: Disk + Drop + Send, G: Gate + Send + Sync, R: Threads + Wait + Clock + Sync>(
    rt: &R,
    alloc: Global,
    disk: D,
    gate: G,
    stay: &Stay,
    may_store: &Flag,
) -> Option<Seen> {
    let start = start_on(alloc, disk)?;
    seen_on::<Brand, D, G, R>(rt, alloc, start, gate, stay, may_store)
}

#[test]
fn a_call_waits_for_the_next_epoch(rt: HostRuntime) {
    let stay = Stay::new();
    let may_store = Flag::new();
    let gate = Pause {
        rt: &rt,
        stay: &stay,
        may_store: &may_store,
    };
    let disk = PlainDisk::new(rt.alloc());
    let seen = seen_on_new(&rt, rt.alloc(), disk, gate, &stay, &may_store);
    let wanted = Seen {
        was_held: true,
        count: MAX_RECORDS,
        is_acknowledged: true,
        came_early: false,
        name: Some(0x104),
    };
    same(&rt, seen, Some(wanted));
}
