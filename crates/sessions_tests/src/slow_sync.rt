//! A call while the store is in the middle of a sync.
ghost use Rattle.std.specs.Prelude.{◌≡◌};
ghost use Rattle.std.specs.Arc.{arc_value};

use crate::asking::{acknowledged, name_in};
use crate::expect::same;
use crate::flag::Flag;
use crate::service::{Admitting, Service};
use crate::shares::{Start, shared_from, start_on};
use crate::stop::Stay;
use disk::{Disk, DiskFault, MemDisk, Slot};
use ipc_model::{Call, PlainCall};
use sessions::{Founding, OpenGate};
use std::alloc::Global;
use std::marker::Brand;
use std::sync::Wait;
use std::thread::{Threads, join};
use std::time::Clock;

/// A disk whose sync is held once that is asked for.
#[derive(Drop)]
struct SlowDisk<'a, D, R> {
    disk: D,
    is_wanted: &'a Flag,
    stay: &'a Stay,
    rt: &'a R,
}

impl<'a, D: Disk, R: Clock> Disk for SlowDisk<'a, D, R> {
    ghost honest = { D.honest };

    ghost view = { λ slow. D.view slow.disk };

    ghost failed_calls = { λ slow. D.failed_calls slow.disk };

    ghost calls = { λ slow. D.calls slow.disk };

    fn failures(&self) -> u64 {
        self.disk.failures()
    }

    fn length(&self, slot: Slot) -> u64 {
        self.disk.length(slot)
    }

    fn read(&mut self, slot: Slot, at: u64, buffer: &mut [u8]) -> Result<usize, DiskFault> {
        self.disk.read(slot, at, buffer)
    }

    fn write_at(&mut self, slot: Slot, at: u64, bytes: &[u8]) -> Result<(), DiskFault> {
        self.disk.write_at(slot, at, bytes)
    }

    fn cut(&mut self, slot: Slot, len: u64) -> Result<(), DiskFault> {
        self.disk.cut(slot, len)
    }

    fn sync(&mut self, slot: Slot) -> Result<(), DiskFault> {
        if self.is_wanted.is_set() {
            self.stay.hold(self.rt);
        }
        self.disk.sync(slot)
    }

    ghost lasts = { λ honest slow. D.lasts honest slow.disk };
}

#[derive(Debug, Drop, PartialEq)]
struct Seen {
    has_begun: bool,
    /// Whether the sync ended before the second call was made.
    was_late: bool,
    /// The names of both calls.
    names: [Option<u32>; 2],
}

/// Makes a call, and another while the sync for it is held.
fn call_twice<S: Service, R: Wait + Clock>(
    rt: &R,
    service: &S,
    session: S::Session,
    is_wanted: &Flag,
    stay: &Stay,
) -> Seen {
    let call = Call::Plain(PlainCall::Allocate { right: 1 });
    is_wanted.set();
    let (session, first) = service.make(rt, session, &call);
    let has_begun = stay.has_come.comes(rt);
    let (session, second) = service.make(rt, session, &call);
    stay.may_go.set();
    let (session, first) = acknowledged(rt, service, session, first);
    let (_, second) = acknowledged(rt, service, session, second);
    Seen {
        has_begun,
        was_late: stay.was_late.is_set(),
        names: [name_in(first), name_in(second)],
    }
}

/// The same in a session of its own, after which the loops are told to end.
fn call_and_end<S: Service, R: Wait + Clock>(
    rt: &R,
    service: &S,
    is_wanted: &Flag,
    stay: &Stay,
) -> Option<Seen> {
    let seen = match service.begin(rt) {
        Some(session) => Some(call_twice(rt, service, session, is_wanted, stay)),
        None => None,
    };
    service.end(rt);
    seen
}

fn call_alongside_the_loop<S: Service + Sync, R: Threads + Wait + Clock + Sync>(
    rt: &R,
    service: &S,
    is_wanted: &Flag,
    stay: &Stay,
) -> Option<Seen> {
    let (_, seen) = join(
        rt,
        || service.store_calls(rt),
        || call_and_end(rt, service, is_wanted, stay),
    );
    seen
}

/// What is seen on a new store, whose disk is held in this way.
fn seen_on<L: Founding + Send + Sync, D: Disk + Drop + Send, R: Threads + Wait + Clock + Sync>(
    rt: &R,
    alloc: Global,
    start: Start<D>,
    is_wanted: &Flag,
    stay: &Stay,
) -> Option<Seen>
    requires base { start.opened.kernel ≡ L.base }
    requires row { arc_value start.row ≡ L.first }
    requires blank { (start.blank.name ≡ L.name) × (start.blank.parts ≡ L.parts) }
    requires mark { start.mark ≡ L.table }
{
    let shared: Admitting<L, D, OpenGate> = shared_from(alloc, start, OpenGate)?;
    call_alongside_the_loop(rt, &shared, is_wanted, stay)
}

/// What is seen on such a disk without a store. `None` if none can be made.
fn seen_on_new<D: Disk + Drop + Send, R: Threads + Wait + Clock + Sync>(
    rt: &R,
    alloc: Global,
    disk: D,
    is_wanted: &Flag,
    stay: &Stay,
) -> Option<Seen> {
    let start = start_on(alloc, disk)?;
    seen_on::<Brand, D, R>(rt, alloc, start, is_wanted, stay)
}

#[test]
fn a_call_is_made_while_a_sync_is_held(rt: HostRuntime) {
    let is_wanted = Flag::new();
    let stay = Stay::new();
    let disk = SlowDisk {
        disk: MemDisk::new(rt.alloc()),
        is_wanted: &is_wanted,
        stay: &stay,
        rt: &rt,
    };
    let seen = seen_on_new(&rt, rt.alloc(), disk, &is_wanted, &stay);
    let wanted = Seen {
        has_begun: true,
        was_late: false,
        names: [Some(0x100), Some(0x101)],
    };
    same(&rt, seen, Some(wanted));
}
