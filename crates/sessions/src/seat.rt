//! Where a session's calls wait, and for which task.

use mio::Waker;
use std::alloc::{AllocError, Global};
use std::sync::Arc;

/// The task that a session's calls are made for.
pub trait Peer: Drop {
    /// Returns whether it has gone, so that no one will read a reply.
    fn is_gone(&self) -> bool;
}

/// A thread that serves sessions, and is woken if the turn of a call of one of them has come, or so many records are
/// stored as it awaits.
#[derive(Drop)]
pub struct Worker {
    number: usize,
    waker: Waker,
}

impl Worker {
    /// The worker with this number, which this wakes.
    pub(crate) fn new(number: usize, waker: Waker) -> Self {
        Worker { number, waker }
    }

    pub(crate) fn number(&self) -> usize {
        self.number
    }

    /// Wakes the thread.
    pub fn wake(&self) {
        let _ = self.waker.wake();
    }
}

/// Another handle to a worker.
pub(crate) fn again(worker: &Arc<Worker, Global>) -> Result<Arc<Worker, Global>, AllocError> {
    Arc::try_clone(worker)
}

/// Where the calls of one session wait, and the task that they are made for.
#[derive(Drop)]
pub struct Seat<P> {
    worker: Arc<Worker, Global>,
    peer: P,
}

impl<P> Seat<P> {
    /// A seat at which no call waits, of a session that this worker serves.
    pub fn new(worker: Arc<Worker, Global>, peer: P) -> Self
    where
        P: Drop,
    {
        Seat { worker, peer }
    }

    /// The task.
    pub fn peer(&self) -> &P {
        &self.peer
    }

    pub(crate) fn worker(&self) -> &Arc<Worker, Global> {
        &self.worker
    }
}
