//! What a worker uses of its server.

use crate::client::{Caller, Held, Served, Talk};
use crate::door::{Arrival, Door};
use crate::{Stream, begin};
use disk::Disk;
use sessions::{Founding, Latest, OpenGate, Report, Shared};
use std::alloc::{AllocGlobal, Global};
use std::os::unix::net::UnixStream;
use std::sync::{Arc, Wait};

/// After how many records no other connection's calls are made under the same hold: the flusher waits for the lock.
const MANY_RECORDS: u64 = 64;

/// What a worker uses of its server, whose connections have these callers. What is generic in it is proved without the
/// types of the store.
pub(crate) trait Serves<A: Served> {
    /// A connection that was accepted.
    type Arrival: Drop;

    /// Takes the connections that were accepted.
    fn take_arrivals(&self) -> Vec<Self::Arrival>;

    /// Begins the conversation of a connection. If there is no session or memory for it, the connection is closed.
    fn begin(&self, arrival: Self::Arrival) -> Option<Talk<A>>;

    /// Takes the kernel's lock, once a call may be made.
    fn hold(&self) -> A::Turn;

    /// Returns true if many records were made with the lock held.
    fn has_many(&self, held: &A::Turn) -> bool;

    /// Frees the lock, and notifies the loops of what they have to do.
    fn end_hold(&self, held: A::Turn);

    /// Takes the sessions whose call's turn has come. Returns false if an allocation failed: they are kept then.
    fn take_due(&self, due: &mut Vec<u32>) -> bool;

    /// Takes them as `take_due` does, with the kernel's lock held.
    fn take_due_in(&self, held: &mut A::Turn, due: &mut Vec<u32>) -> bool;

    /// Returns what is stored and, if an epoch ended since this was asked last, the history to catch up with.
    fn report(&self) -> (A::Known, Option<A::Latest>);

    /// Has the worker woken once so many records are stored. Returns false if they are already.
    fn have_woken(&self, seen: u64) -> bool;

    /// Takes a session's call out of its line.
    fn leave_line(&self, session: u32);
}

/// The runtime, the shared store, and the door at which a worker gets its connections.
#[derive(Drop)]
pub(crate) struct Context<'a, L: Founding, D: Disk, R> {
    rt: &'a R,
    shared: &'a Shared<L, D, OpenGate>,
    door: &'a Door<L>,
}

impl<'a, L: Founding, D: Disk, R> Context<'a, L, D, R> {
    pub(crate) fn new(rt: &'a R, shared: &'a Shared<L, D, OpenGate>, door: &'a Door<L>) -> Self {
        Context { rt, shared, door }
    }
}

impl<'a, L: Founding, D: Disk, R: Wait + AllocGlobal> Serves<Caller<'a, L, D, R>>
    for Context<'a, L, D, R> {
    type Arrival = Arrival<L>;

    fn take_arrivals(&self) -> Vec<Arrival<L>> {
        self.door.take_arrivals(self.rt, self.rt.alloc())
    }

    fn begin(&self, arrival: Arrival<L>) -> Option<Talk<Caller<'a, L, D, R>>> {
        let Arrival { socket, admission } = arrival;
        let (stream, reader, writer) = three_handles(self.rt.alloc(), socket)?;
        let Ok(worker) = Arc::try_clone(self.door.worker()) else {
            return None;
        };
        begin(
            self.rt,
            self.shared,
            admission,
            worker,
            stream,
            reader,
            writer,
        )
        .ok()
    }

    fn hold(&self) -> Held<'a, L, D, R> {
        Held::begin(self.rt, self.shared)
    }

    fn has_many(&self, held: &Held<'a, L, D, R>) -> bool {
        MANY_RECORDS <= held.made()
    }

    fn end_hold(&self, held: Held<'a, L, D, R>) {
        held.end();
    }

    fn take_due(&self, due: &mut Vec<u32>) -> bool {
        self.shared
            .take_due(self.rt, self.door.worker(), due)
            .is_ok()
    }

    fn take_due_in(&self, held: &mut Held<'a, L, D, R>, due: &mut Vec<u32>) -> bool {
        held.take_due(self.door.worker(), due).is_ok()
    }

    fn report(&self) -> (Report<L>, Option<Latest<L>>) {
        self.shared.report(self.rt, self.door.worker())
    }

    fn have_woken(&self, seen: u64) -> bool {
        self.shared.have_woken(self.rt, self.door.worker(), seen)
    }

    fn leave_line(&self, session: u32) {
        self.shared.leave_line(self.rt, session);
    }
}

/// Makes three handles of a socket. `None`: an allocation failed, or it can't be had not to wait.
fn three_handles(alloc: Global, socket: UnixStream) -> Option<(Stream, Stream, Stream)> {
    let first = Stream::new(alloc, socket).ok()?;
    let second = first.again().ok()?;
    let third = first.again().ok()?;
    Some((first, second, third))
}
