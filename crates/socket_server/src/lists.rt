//! The sessions of a worker, by what is to be done for them.

use crate::client::Clients;
use crate::standing::{Awaits, Standing};
use crate::timers::Timers;
use std::alloc::{AllocError, Global};
use std::collections::VecDeque;
use std::time::{Clock, Duration};

/// How many milliseconds a worker waits before it goes on after a failure.
pub(crate) const RETRY_MILLISECONDS: u64 = 10;

/// The sessions of a worker, by what is to be done for them. No type of a conversation stands here, so that a proof of
/// what is done doesn't carry it.
#[derive(Drop)]
pub(crate) struct Lists {
    // Sessions that are runnable; that ran in this round; that await records; for which an allocation failed that is
    // tried again; and that ended. There is room for all of them.
    ready: VecDeque<u32>,
    worked: Vec<u32>,
    awaiting: Vec<u32>,
    failed: Vec<u32>,
    ended: Vec<u32>,

    // The sessions whose call's turn has come, and whether they are to be asked for.
    due: Vec<u32>,
    lacks_due: bool,

    // The least number of records that a session of this round awaits.
    least_awaited: Option<u64>,
}

impl Lists {
    /// No session.
    pub(crate) fn new(alloc: Global) -> Self {
        Lists {
            ready: VecDeque::new(alloc),
            worked: Vec::new(alloc),
            awaiting: Vec::new(alloc),
            failed: Vec::new(alloc),
            ended: Vec::new(alloc),
            due: Vec::new(alloc),
            lacks_due: false,
            least_awaited: None,
        }
    }

    /// Reserves capacity for so many connections in every list.
    pub(crate) fn make_room(&mut self, count: usize) -> Result<(), AllocError> {
        self.ready.reserve(count)?;
        self.worked.reserve(count)?;
        self.awaiting.reserve(count)?;
        self.failed.reserve(count)?;
        self.ended.reserve(count)
    }

    /// Returns how long a worker may wait for events whose next timer expires after `left`.
    pub(crate) fn longest_wait(&self, left: Option<Duration>) -> Option<Duration> {
        if !self.ready.is_empty() {
            return Some(Duration::from_millis(0));
        }
        if self.failed.is_empty() && !self.lacks_due {
            return left;
        }
        let retry = Duration::from_millis(RETRY_MILLISECONDS);
        match left {
            Some(left) => Some(left.min(retry)),
            None => Some(retry),
        }
    }

    /// Marks a session as runnable.
    pub(crate) fn make_ready(&mut self, standing: &mut Standing, session: u32) {
        make_ready(&mut self.ready, standing, session);
    }

    /// Returns the runnable sessions.
    pub(crate) fn ready(&self) -> &VecDeque<u32> {
        &self.ready
    }

    /// Takes the session that has been runnable the longest.
    pub(crate) fn take_ready(&mut self) -> Option<u32> {
        self.ready.pop_front()
    }

    /// Notes that a session runs in this round.
    pub(crate) fn note_work(&mut self, standing: &mut Standing, session: u32) {
        standing.is_ready = false;
        if !standing.is_worked {
            standing.is_worked = true;
            let _ = self.worked.push(session);
        }
    }

    /// Returns the number of sessions that ran in this round and weren't taken.
    pub(crate) fn worked(&self) -> usize {
        self.worked.len()
    }

    /// Takes a session that ran in this round.
    pub(crate) fn take_worked(&mut self) -> Option<u32> {
        self.worked.pop()
    }

    /// Notes what a session that ran awaits, and sets its timer to that, unless it awaits the same still; or that it
    /// ended.
    pub(crate) fn note_awaits(
        &mut self,
        clock: &impl Clock,
        timers: &mut Timers,
        standing: &mut Standing,
        session: u32,
        awaits: Awaits,
    ) {
        standing.is_worked = false;
        match awaits {
            Awaits::Nothing => self.make_ready(standing, session),
            Awaits::Records(seen) => self.await_records(session, seen),
            Awaits::End => {
                let _ = self.ended.push(session);
                return;
            }
            _ => {}
        }
        let is_set = set_timer(clock, timers, standing, session, awaits);
        if !is_set || standing.lacks_line(awaits) {
            let _ = self.failed.push(session);
        }
    }

    /// Returns the number of sessions that ended and weren't taken.
    pub(crate) fn ended(&self) -> usize {
        self.ended.len()
    }

    /// Takes a session that ended.
    pub(crate) fn take_ended(&mut self) -> Option<u32> {
        self.ended.pop()
    }

    fn await_records(&mut self, session: u32, seen: u64) {
        let least = match self.least_awaited {
            Some(other) => seen.min(other),
            None => seen,
        };
        self.least_awaited = Some(least);
        let _ = self.awaiting.push(session);
    }

    /// Takes the least number of records that a session of this round awaits.
    pub(crate) fn take_least_awaited(&mut self) -> Option<u64> {
        self.least_awaited.take()
    }

    /// Has the sessions asked for whose call's turn has come.
    pub(crate) fn note_wake(&mut self) {
        self.lacks_due = true;
    }

    /// Returns true if the sessions are to be asked for whose call's turn has come.
    pub(crate) fn lacks_due(&self) -> bool {
        self.lacks_due
    }

    /// Returns the list of the sessions whose call's turn has come, for more of them.
    pub(crate) fn due(&mut self) -> &mut Vec<u32> {
        &mut self.due
    }

    /// Marks the sessions as runnable whose call's turn has come. If an allocation failed (`are_all`), they are asked
    /// for again.
    pub(crate) fn note_turns<T>(&mut self, clients: &mut Clients<T>, are_all: bool) {
        self.lacks_due = !are_all;
        for session in self.due.iter() {
            if let Some(client) = clients.get_mut(session) {
                client.standing.note_turn();
                make_ready(&mut self.ready, &mut client.standing, *session);
            }
        }
        self.due.clear();
    }

    /// Marks the sessions as runnable that await records.
    pub(crate) fn rouse_awaiting<T>(&mut self, clients: &mut Clients<T>) {
        rouse(&mut self.awaiting, &mut self.ready, clients);
    }

    /// Marks the sessions as runnable for which an allocation failed.
    pub(crate) fn retry_failed<T>(&mut self, clients: &mut Clients<T>) {
        rouse(&mut self.failed, &mut self.ready, clients);
    }

    /// Marks a session as runnable for which something came.
    pub(crate) fn note_event<T>(&mut self, clients: &mut Clients<T>, session: u32) {
        if let Some(client) = clients.get_mut(&session) {
            client.standing.note_event();
            self.make_ready(&mut client.standing, session);
        }
    }

    /// Marks sessions whose timers expired as runnable.
    pub(crate) fn note_times<T>(
        &mut self,
        clock: &impl Clock,
        timers: &mut Timers,
        clients: &mut Clients<T>,
    ) {
        for _ in 0..clients.len() {
            let Some(session) = timers.take_over(clock) else {
                return;
            };
            if let Some(client) = clients.get_mut(&session) {
                client.standing.note_time();
                self.make_ready(&mut client.standing, session);
            }
        }
    }
}

/// Marks a session as runnable.
fn make_ready(ready: &mut VecDeque<u32>, standing: &mut Standing, session: u32) {
    if !standing.is_ready {
        standing.is_ready = true;
        let _ = ready.push_back(session);
    }
}

/// Marks the sessions of a list as runnable, and empties the list.
fn rouse<T>(sessions: &mut Vec<u32>, ready: &mut VecDeque<u32>, clients: &mut Clients<T>) {
    for session in sessions.iter() {
        if let Some(client) = clients.get_mut(session) {
            make_ready(ready, &mut client.standing, *session);
        }
    }
    sessions.clear();
}

/// Sets a session's timer to what it awaits, unless it awaits the same still. Returns false if an allocation failed.
fn set_timer(
    clock: &impl Clock,
    timers: &mut Timers,
    standing: &mut Standing,
    session: u32,
    awaits: Awaits,
) -> bool {
    let timed = awaits.timed();
    if let Some((timed, _)) = timed {
        if standing.is_timed(timed) {
            return true;
        }
    }
    if let Some(end) = standing.cancel_timer() {
        timers.clear(end, session);
    }
    let Some((timed, most)) = timed else {
        return true;
    };
    let Some(end) = timers.set(clock, session, most) else {
        return false;
    };
    standing.set_timer(end, timed);
    true
}
