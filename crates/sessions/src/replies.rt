//! What workers and calls that wait for their replies know of the store.

use crate::seat::{Worker, again};
use history::{Mark, Stored};
use keepers::{Founding, Latest};
use std::alloc::{AllocError, Global};
use std::sync::Arc;

/// A worker, how many records have to be stored before it is woken, and whether an epoch ended since it asked last.
#[derive(Drop)]
struct Awaiting {
    worker: Arc<Worker, Global>,
    seen: Option<u64>,
    is_behind: bool,
}

/// How many of the records made since the opening are stored, and the history up to the epoch in use. It has a lock of
/// its own, held only for a comparison or a copy, so that replies don't queue for the kernel's lock.
#[derive(Drop)]
pub(crate) struct Replies<L: Founding> {
    stored: Stored<L>,

    // Whether nothing is stored any more.
    is_over: bool,

    // `None` until the first epoch ends.
    latest: Option<Latest<L>>,

    // By their numbers.
    workers: Vec<Awaiting>,
}

/// What a worker is told of the store: how many records are stored, and whether nothing more will be.
#[derive(Drop)]
pub struct Report<L: Founding> {
    stored: Stored<L>,
    is_over: bool,
}

impl<L: Founding> Report<L> {
    /// Returns true if a reply that saw `seen` records can be had without a wait.
    pub fn covers(&self, seen: u64) -> bool {
        self.is_over || seen <= self.stored.count()
    }

    /// Returns the token of what is stored.
    pub(crate) fn stored(&mut self, mark: &Mark<L>) -> Stored<L> {
        self.stored.again(mark)
    }
}

impl<L: Founding> Replies<L> {
    /// Begins with no record made.
    pub(crate) fn none(alloc: Global, stored: Stored<L>) -> Self {
        Replies {
            stored,
            is_over: false,
            latest: None,
            workers: Vec::new(alloc),
        }
    }

    /// Adds a worker.
    pub(crate) fn add_worker(&mut self, worker: Arc<Worker, Global>) -> Result<(), AllocError> {
        let awaiting = Awaiting {
            worker,
            seen: None,
            is_behind: false,
        };
        match self.workers.push(awaiting) {
            Ok(()) => Ok(()),
            Err(_) => Err(AllocError),
        }
    }

    /// Has a worker woken once `seen` records are stored, or nothing is stored any more. Returns whether that is still
    /// to come.
    pub(crate) fn have_woken(&mut self, worker: usize, seen: u64) -> bool {
        if !self.is_awaited(seen) {
            return false;
        }
        if let Some(awaiting) = self.workers.get_mut(worker) {
            let least = awaiting.seen.map_or(seen, |other| seen.min(other));
            awaiting.seen = Some(least);
        }
        true
    }

    /// Returns the number of workers.
    pub(crate) fn workers(&self) -> usize {
        self.workers.len()
    }

    /// Returns a worker that is to be woken, since as many records are stored as it awaits, or nothing is stored any
    /// more.
    pub(crate) fn take_due_worker(&mut self, number: usize) -> Option<Arc<Worker, Global>> {
        let stored = self.stored.count();
        let is_over = self.is_over;
        let awaiting = self.workers.get_mut(number)?;
        let seen = awaiting.seen?;
        if !is_over && stored < seen {
            return None;
        }
        awaiting.seen = None;
        handle(awaiting)
    }

    /// Begins an epoch, with the history up to it.
    pub(crate) fn begin_epoch(&mut self, latest: Latest<L>) {
        drop(self.latest.replace(latest));
        for awaiting in self.workers.iter_mut() {
            awaiting.is_behind = true;
        }
    }

    /// Returns a worker that is behind an epoch's beginning.
    pub(crate) fn worker_behind(&mut self, number: usize) -> Option<Arc<Worker, Global>> {
        let awaiting = self.workers.get_mut(number)?;
        if !awaiting.is_behind {
            return None;
        }
        handle(awaiting)
    }

    /// Tells a worker what is stored and, if an epoch ended since it asked last, the history up to the epoch in use.
    pub(crate) fn report(
        &mut self,
        number: usize,
        mark: &Mark<L>,
    ) -> (Report<L>, Option<Latest<L>>) {
        let report = Report {
            stored: self.stored.again(mark),
            is_over: self.is_over,
        };
        (report, self.take_latest(number))
    }

    fn take_latest(&mut self, number: usize) -> Option<Latest<L>> {
        let awaiting = self.workers.get_mut(number)?;
        if !awaiting.is_behind {
            return None;
        }
        let latest = self.latest.as_mut()?.again().ok()?;
        awaiting.is_behind = false;
        Some(latest)
    }

    /// Returns the token of what is stored.
    pub(crate) fn stored(&mut self, mark: &Mark<L>) -> Stored<L> {
        self.stored.again(mark)
    }

    /// Learns how many records are stored.
    pub(crate) fn store(&mut self, stored: Stored<L>) {
        if self.stored.count() < stored.count() {
            self.stored = stored;
        }
    }

    /// Nothing is stored any more.
    pub(crate) fn end(&mut self) {
        self.is_over = true;
    }

    /// Returns true if a call that saw `seen` records still waits for its reply.
    pub(crate) fn is_awaited(&self, seen: u64) -> bool {
        !self.is_over && self.stored.count() < seen
    }
}

/// Returns a handle to a worker, which is woken when the lock is free; or wakes it now, if there is no handle left.
fn handle(awaiting: &Awaiting) -> Option<Arc<Worker, Global>> {
    match again(&awaiting.worker) {
        Ok(worker) => Some(worker),
        Err(_) => {
            awaiting.worker.wake();
            None
        }
    }
}
