//! The sessions of each worker whose call's turn has come.

use std::alloc::{AllocError, Global};
use std::mem;

/// What one worker is to make again.
#[derive(Drop)]
struct DueList {
    sessions: Vec<u32>,

    // How many of its calls wait whose turn hasn't come. There is room for all of them.
    waiting: usize,
}

/// What each worker is to make again, by its number.
#[derive(Drop)]
pub(crate) struct TurnsDue {
    alloc: Global,
    lists: Vec<DueList>,
}

impl TurnsDue {
    /// Without workers.
    pub(crate) fn none(alloc: Global) -> Self {
        TurnsDue {
            alloc,
            lists: Vec::new(alloc),
        }
    }

    /// One more worker. Returns its number.
    pub(crate) fn add_worker(&mut self) -> Result<usize, AllocError> {
        let number = self.lists.len();
        let list = DueList {
            sessions: Vec::new(self.alloc),
            waiting: 0,
        };
        match self.lists.push(list) {
            Ok(()) => Ok(number),
            Err(_) => Err(AllocError),
        }
    }

    /// A call of a worker's session waits from now on: room is made for its turn.
    pub(crate) fn await_turn(&mut self, worker: usize) -> Result<(), AllocError> {
        let Some(list) = self.lists.get_mut(worker) else {
            return Ok(());
        };
        let waiting = list.waiting.saturating_add(1);
        list.sessions.reserve(waiting)?;
        list.waiting = waiting;
        Ok(())
    }

    /// A call that waited does so no longer, and its turn hadn't come.
    pub(crate) fn leave(&mut self, worker: usize) {
        if let Some(list) = self.lists.get_mut(worker) {
            list.waiting = list.waiting.saturating_sub(1);
        }
    }

    /// The turn of a session's call has come. Returns whether its worker has to be woken: it wasn't yet.
    pub(crate) fn give_turn(&mut self, worker: usize, session: u32) -> bool {
        let Some(list) = self.lists.get_mut(worker) else {
            return true;
        };
        list.waiting = list.waiting.saturating_sub(1);
        let is_first = list.sessions.is_empty();
        let _ = list.sessions.push(session);
        is_first
    }

    /// Exchanges the sessions whose call's turn has come for an empty list. If an allocation fails, they stay.
    pub(crate) fn take(&mut self, worker: usize, due: &mut Vec<u32>) -> Result<(), AllocError> {
        due.clear();
        let Some(list) = self.lists.get_mut(worker) else {
            return Ok(());
        };
        due.reserve(list.waiting)?;
        mem::swap(due, &mut list.sessions);
        Ok(())
    }
}
