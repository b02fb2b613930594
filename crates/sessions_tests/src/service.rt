//! Sessions of one history and their loops, as the tests see them. Nothing has a clause, so that a test's proof carries
//! nothing of a session: what is known of one would be written out at each exit of a function that owns it.

use disk::Disk;
use ipc_model::{Call, PlainReply, Reply};
use sessions::{Admissions, Founding, Gate, Session, Shared, close, meet};
use std::sync::{Mutex, Wait};
use std::thread::{Threads, join};
use std::time::Clock;
use system::Ticket;

/// Gives sessions, makes their calls, and has loops.
pub(crate) trait Service {
    type Session: Drop + Send;

    fn begin<R: Wait>(&self, rt: &R) -> Option<Self::Session>;

    /// Makes a call. Returns its ticket, if it was made.
    fn make<R: Wait>(
        &self,
        rt: &R,
        session: Self::Session,
        call: &Call,
    ) -> (Self::Session, Option<Ticket>);

    /// Waits for a reply. `None` if the store failed.
    fn tell<R: Wait>(
        &self,
        rt: &R,
        session: Self::Session,
        ticket: Ticket,
    ) -> (Self::Session, Option<Reply>);

    /// The name that the allocation at a place of the entry block gave, as a session reads it. `None` if an allocation
    /// fails, if it hasn't seen that place, or if another call's record stands there.
    fn name_read(session: &mut Self::Session, at: usize) -> Option<u32>;

    /// Returns how many records two sessions have seen once they met. `None` if they couldn't.
    fn seen_together(one: Self::Session, other: Self::Session) -> Option<[usize; 2]>;

    /// The loop that stores calls.
    fn store_calls<R: Wait + Clock>(&self, rt: &R);

    /// The loop that makes an image each time that this many records were made.
    fn make_images<R: Wait + Clock>(&self, rt: &R, records: u64);

    /// Tells the loops to end.
    fn end<R: Wait>(&self, rt: &R);

    /// Returns how many sessions were made, how many records they made, and how many of these are stored, once all is
    /// closed. `None` if these sessions don't match.
    fn counts_closed(self, sessions: Vec<Self::Session>) -> Option<[u64; 3]>;
}

/// The two halves of a core, and the admissions of its sessions.
#[derive(Drop)]
pub(crate) struct Admitting<L: Founding, D: Disk, G> {
    pub(crate) shared: Shared<L, D, G>,
    pub(crate) admissions: Mutex<Admissions<L>>,
}

impl<L: Founding + Send + Sync, D: Disk + Drop, G: Gate> Service for Admitting<L, D, G> {
    type Session = Session<L>;

    fn begin<R: Wait>(&self, rt: &R) -> Option<Session<L>> {
        let admission = self.admissions.lock(rt).next()?;
        self.shared.session(rt, admission).ok()
    }

    fn make<R: Wait>(
        &self,
        rt: &R,
        session: Session<L>,
        call: &Call,
    ) -> (Session<L>, Option<Ticket>) {
        let (session, made) = self.shared.submit(rt, session, call);
        (session, made.ok())
    }

    fn tell<R: Wait>(
        &self,
        rt: &R,
        session: Session<L>,
        ticket: Ticket,
    ) -> (Session<L>, Option<Reply>) {
        let (session, acknowledged) = self.shared.redeem(rt, session, ticket);
        (session, acknowledged.ok())
    }

    fn name_read(session: &mut Session<L>, at: usize) -> Option<u32> {
        let note = session.note(at)?;
        match session.record(at, note).reply {
            Reply::Plain(PlainReply::Allocate { name }) => Some(name),
            _ => None,
        }
    }

    fn seen_together(one: Session<L>, other: Session<L>) -> Option<[usize; 2]> {
        match meet(one, other) {
            Ok((one, other)) => {
                let seen = [one.seen(), other.seen()];
                drop(one);
                drop(other);
                Some(seen)
            }
            Err(both) => {
                drop(both);
                None
            }
        }
    }

    fn store_calls<R: Wait + Clock>(&self, rt: &R) {
        self.shared.flusher(rt);
    }

    fn make_images<R: Wait + Clock>(&self, rt: &R, records: u64) {
        self.shared.checkpointer(rt, records);
    }

    fn end<R: Wait>(&self, rt: &R) {
        self.shared.stop(rt);
    }

    fn counts_closed(self, sessions: Vec<Session<L>>) -> Option<[u64; 3]> {
        let Admitting { shared, admissions } = self;
        let admissions = admissions.into_inner();
        let given = admissions.given();
        match close(shared, sessions, admissions) {
            Ok(book) => {
                let counts = [u64::from(given), book.past.len() as u64, book.stored];
                drop(book);
                Some(counts)
            }
            Err(left) => {
                drop(left);
                None
            }
        }
    }
}

impl<L: Founding, D: Disk + Drop, G: Gate> Admitting<L, D, G> {
    /// The disk, once all is closed.
    pub(crate) fn into_disk(self, sessions: Vec<Session<L>>) -> D {
        let Admitting { shared, admissions } = self;
        match close(shared, sessions, admissions.into_inner()) {
            Ok(book) => book.disk,
            Err(unmatched) => unmatched.disk,
        }
    }
}

/// Runs both loops, each until it is told to end.
pub(crate) fn run_both_loops<S: Service + Sync, R: Threads + Wait + Clock + Sync>(
    rt: &R,
    service: &S,
    records: u32,
) {
    join(
        rt,
        || service.make_images(rt, u64::from(records)),
        || service.store_calls(rt),
    );
}
