use disk::Disk;
use sessions::{Founding, Shared, Turn, Worker};
use std::alloc::AllocError;
use std::sync::Wait;

/// The kernel's lock of a server, held while calls of its connections are made. It knows its server, so that its type
/// says of all that a connection refers to that it lives as long.
#[derive(Drop)]
pub struct Held<'a, L: Founding, D: Disk, G, R> {
    pub(crate) rt: &'a R,
    pub(crate) shared: &'a Shared<L, D, G>,
    pub(crate) turn: Turn<'a, L>,
}

impl<'a, L: Founding, D: Disk, G: Drop, R: Wait> Held<'a, L, D, G, R> {
    /// Takes the lock, once a call may be made.
    pub fn begin(rt: &'a R, shared: &'a Shared<L, D, G>) -> Self {
        let turn = shared.begin_turn(rt);
        Held { rt, shared, turn }
    }

    /// The sessions of a worker whose call's turn has come (`Turn::take_due`).
    pub fn take_due(&mut self, worker: &Worker, due: &mut Vec<u32>) -> Result<(), AllocError> {
        self.turn.take_due(worker, due)
    }

    /// Returns whether a session's call waits in line, or its turn has come.
    pub fn is_waiting(&self, session: u32) -> bool {
        self.turn.is_waiting(session)
    }

    /// Returns how many records were made with the lock held.
    pub fn made(&self) -> u64 {
        self.turn.made()
    }

    /// Frees the lock, and notifies the loops of what they have to do.
    pub fn end(self) {
        let Held {
            rt: _,
            shared,
            turn,
        } = self;
        shared.end_turn(turn);
    }
}
