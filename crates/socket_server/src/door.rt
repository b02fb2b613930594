//! Where a worker gets its connections.

use sessions::{Admission, Founding, Worker};
use std::alloc::Global;
use std::mem;
use std::os::unix::net::UnixStream;
use std::sync::{Arc, Mutex, Wait};

/// A connection that was accepted.
#[derive(Drop)]
pub(crate) struct Arrival<L: Founding> {
    pub(crate) socket: UnixStream,
    pub(crate) admission: Admission<L>,
}

/// Where a worker gets its connections.
#[derive(Drop)]
pub(crate) struct Door<L: Founding> {
    arrivals: Mutex<Vec<Arrival<L>>>,
    worker: Arc<Worker, Global>,
}

impl<L: Founding> Door<L> {
    /// Creates the door of a worker.
    pub(crate) fn new(alloc: Global, worker: Arc<Worker, Global>) -> Self {
        Door {
            arrivals: Mutex::new(Vec::new(alloc)),
            worker,
        }
    }

    /// Hands a connection to the worker. If an allocation fails, it is closed.
    pub(crate) fn hand_in(&self, rt: &impl Wait, arrival: Arrival<L>) {
        let _ = self.arrivals.lock(rt).push(arrival);
        self.worker.wake();
    }

    /// Takes the connections that were handed in.
    pub(crate) fn take_arrivals(&self, rt: &impl Wait, alloc: Global) -> Vec<Arrival<L>> {
        mem::replace(&mut *self.arrivals.lock(rt), Vec::new(alloc))
    }

    /// Returns the worker.
    pub(crate) fn worker(&self) -> &Arc<Worker, Global> {
        &self.worker
    }
}
