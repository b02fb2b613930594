//! The calls that wait, by the places where they may find something to do.

use crate::lines::Lines;
use crate::seat::{Worker, again};
use crate::turns_due::TurnsDue;
use std::alloc::{AllocError, Global};
use std::collections::BTreeMap;
use std::sync::Arc;
use waiting::{Places, is_place_of_port};

/// A call that waits. Until its turn has come, it stands in line at each of its places.
#[derive(Drop)]
pub(crate) struct Waiter {
    places: Vec<u128>,
    worker: Arc<Worker, Global>,
    is_send: bool,

    // When its wait began, as a count of waits; and whether its turn has come.
    order: u64,
    has_turn: bool,
}

/// The calls that wait, at most one for each session. Sends and receives stand in lines of their own, each in the order
/// of arrival.
#[derive(Drop)]
pub(crate) struct Waiters {
    alloc: Global,
    by_session: BTreeMap<u32, Waiter>,
    sends: Lines,
    receives: Lines,
    turns: TurnsDue,

    // How many waits began, and how many calls whose turn has come weren't made again since.
    begun: u64,
    due: u64,

    // The worker of a call whose turn has come, to be woken after the lock is free.
    due_worker: Option<Arc<Worker, Global>>,
}

impl Waiters {
    /// Begins with no call.
    pub(crate) fn none(alloc: Global) -> Self {
        Waiters {
            alloc,
            by_session: BTreeMap::new(alloc),
            sends: Lines::none(alloc),
            receives: Lines::none(alloc),
            turns: TurnsDue::none(alloc),
            begun: 0,
            due: 0,
            due_worker: None,
        }
    }

    /// What workers are to make again.
    pub(crate) fn turns(&mut self) -> &mut TurnsDue {
        &mut self.turns
    }

    /// Returns whether no call stands in line.
    pub(crate) fn are_none(&self) -> bool {
        self.sends.are_empty() && self.receives.are_empty()
    }

    /// Returns whether a turn has come that wasn't taken yet.
    pub(crate) fn are_due(&self) -> bool {
        self.due != 0
    }

    /// Returns whether a session's call waits.
    pub(crate) fn has(&self, session: u32) -> bool {
        self.by_session.contains_key(&session)
    }

    /// A session's call waits no longer, or is made again. If its turn has come, the caller takes it over.
    pub(crate) fn take(&mut self, session: u32) -> Option<Waiter> {
        let waiter = self.by_session.remove(&session)?;
        if waiter.has_turn {
            self.due = self.due.saturating_sub(1);
        } else {
            self.turns.leave(waiter.worker.number());
            leave(
                lines_of(&mut self.sends, &mut self.receives, waiter.is_send),
                &waiter,
            );
        }
        Some(waiter)
    }

    /// A session's call waits from now on.
    pub(crate) fn add(
        &mut self,
        session: u32,
        is_send: bool,
        places: Vec<u128>,
        worker: &Arc<Worker, Global>,
    ) -> Result<(), AllocError> {
        let order = self.begun;
        let waiter = Waiter {
            places,
            worker: again(worker)?,
            is_send,
            order,
            has_turn: false,
        };
        self.begun = order.saturating_add(1);
        self.put(session, waiter)
    }

    /// A call that was made again, and found nothing to do again, waits on where it stood, at these places.
    pub(crate) fn add_again(
        &mut self,
        session: u32,
        waiter: Waiter,
        places: Vec<u128>,
    ) -> Result<(), AllocError> {
        let mut waiter = waiter;
        waiter.places = places;
        waiter.has_turn = false;
        self.put(session, waiter)
    }

    /// Puts a call in line. If an allocation fails, it doesn't wait here.
    fn put(&mut self, session: u32, waiter: Waiter) -> Result<(), AllocError> {
        self.turns.await_turn(waiter.worker.number())?;
        let lines = lines_of(&mut self.sends, &mut self.receives, waiter.is_send);
        for place in waiter.places.iter() {
            if lines.add(*place, waiter.order, session).is_err() {
                leave(lines, &waiter);
                self.turns.leave(waiter.worker.number());
                return Err(AllocError);
            }
        }
        match self.by_session.insert(session, waiter) {
            Ok(_) => Ok(()),
            Err(failed) => {
                let (_, waiter) = failed.value;
                let lines = lines_of(&mut self.sends, &mut self.receives, waiter.is_send);
                leave(lines, &waiter);
                self.turns.leave(waiter.worker.number());
                Err(AllocError)
            }
        }
    }
}

impl Waiters {
    /// Gives a turn to each call that waits where a step named a change, and to the first in line where it named a
    /// place that is ready.
    pub(crate) fn wake(&mut self, places: &Places) {
        if places.are_all() {
            self.wake_all();
            return;
        }
        for place in places.changed() {
            self.wake_line(*place);
        }
        self.wake_firsts(places.ready());
    }

    /// Passes the turn of a call that waits no longer, if it had come, to the next in line.
    pub(crate) fn pass_on(&mut self, waiter: Option<Waiter>) {
        let Some(waiter) = waiter else {
            return;
        };
        if waiter.has_turn {
            for place in waiter.places.iter() {
                if is_place_of_port(*place) == waiter.is_send {
                    self.wake_firsts(&[*place]);
                }
            }
        }
        drop(waiter);
    }

    /// Gives all calls their turn.
    pub(crate) fn wake_all(&mut self) {
        for _ in 0..self.by_session.len() {
            let Some(session) = self.sends.first().or(self.receives.first()) else {
                return;
            };
            self.give_turn(session);
        }
    }

    /// Gives all calls that wait at a place their turn.
    fn wake_line(&mut self, place: u128) {
        for _ in 0..self.by_session.len() {
            let first = self.sends.first_at(place);
            let Some(session) = first.or(self.receives.first_at(place)) else {
                return;
            };
            self.give_turn(session);
        }
    }

    /// Gives the first in line at each of these places its turn, once if a place is listed twice.
    fn wake_firsts(&mut self, places: &[u128]) {
        for place in places {
            if let Some(session) = self.first_in_line(*place) {
                self.mark(session);
            }
        }
        for place in places {
            if let Some(session) = self.first_in_line(*place) {
                self.step_out(session);
            }
        }
    }

    /// The first in line at a place: sends wait for room at a port, receives for messages at a name.
    fn first_in_line(&self, place: u128) -> Option<u32> {
        if is_place_of_port(place) {
            self.sends.first_at(place)
        } else {
            self.receives.first_at(place)
        }
    }

    /// Gives a session's waiting call its turn, if it doesn't have it.
    pub(crate) fn give_turn(&mut self, session: u32) {
        self.mark(session);
        self.step_out(session);
    }

    /// The worker of a call whose turn has come, if it hasn't been woken yet.
    pub(crate) fn take_due_worker(&mut self) -> Option<Arc<Worker, Global>> {
        self.due_worker.take()
    }

    /// Wakes that worker.
    pub(crate) fn wake_worker(&mut self) {
        if let Some(worker) = self.due_worker.take() {
            worker.wake();
        }
    }

    /// Gives a session's waiting call its turn, if it hadn't come before. The last worker of a step is woken after the
    /// lock is free, earlier ones at once, and one that was woken for another call isn't woken again.
    fn mark(&mut self, session: u32) {
        let Some(waiter) = self.by_session.get_mut(&session) else {
            return;
        };
        if waiter.has_turn {
            return;
        }
        waiter.has_turn = true;
        self.due = self.due.saturating_add(1);
        if !self.turns.give_turn(waiter.worker.number(), session) {
            return;
        }
        let worker = again(&waiter.worker);
        self.wake_worker();
        match worker {
            Ok(worker) => self.due_worker = Some(worker),
            Err(_) => self.wake_at(session),
        }
    }

    /// Wakes a session's worker at once.
    fn wake_at(&self, session: u32) {
        if let Some(waiter) = self.by_session.get(&session) {
            waiter.worker.wake();
        }
    }

    /// Takes a session's call whose turn has come out of its lines.
    fn step_out(&mut self, session: u32) {
        let Some(waiter) = self.by_session.get(&session) else {
            return;
        };
        if waiter.has_turn {
            leave(
                lines_of(&mut self.sends, &mut self.receives, waiter.is_send),
                waiter,
            );
        }
    }
}

/// The lines of sends, or those of receives.
fn lines_of<'a>(sends: &'a mut Lines, receives: &'a mut Lines, is_send: bool) -> &'a mut Lines {
    if is_send { sends } else { receives }
}

/// Takes a call out of all lines where it stands.
fn leave(lines: &mut Lines, waiter: &Waiter) {
    for place in waiter.places.iter() {
        lines.remove(*place, waiter.order);
    }
}
