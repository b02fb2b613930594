//! Several calls under one hold of the kernel's lock.
ghost use Rattle.std.specs.Prelude.{IfOk, OnErr};
ghost use Rattle.ipc_model.specs.history.History.{looked};
ghost use Rattle.keepers.specs.Destroying.{MadeSince};
ghost use Rattle.keepers.specs.Tokens.{Did};

use crate::guarded::KernelGuarded;
use crate::seat::{Peer, Seat, Worker};
use history::Founding;
use ipc_model::{Call, PlainCall};
use keepers::Session;
use std::alloc::{AllocError, Global};
use std::sync::{Arc, MutexGuard};
use system::{SubmitFault, Ticket};

/// Why a call wasn't made. Nothing changed.
#[derive(Clone, Copy)]
pub enum NotMade {
    /// As `Shared::submit` says.
    Fault(SubmitFault),
    /// Its task has gone, and no one would get the message.
    Gone,
}

/// The lock of the kernel, held while a session makes several calls, so that it isn't handed over between them.
///
/// Nothing that waits for another thread may be done meanwhile: neither is a reply awaited, nor a turn.
#[derive(Drop)]
pub struct Turn<'a, L: Founding> {
    pub(crate) guarded: MutexGuard<'a, KernelGuarded<L>>,

    // How many records had been made when it began, and whether turns were due that the loop that stores waits for.
    before: u64,
    had_due: bool,

    // The worker of a call whose turn has come. It is woken when the lock is free, since it takes it first.
    due_worker: Option<Arc<Worker, Global>>,
}

/// What others wait for, once a turn is over.
pub(crate) struct News {
    pub(crate) has_more: bool,
    pub(crate) are_over: bool,
    pub(crate) has_image_due: bool,
    pub(crate) due_worker: Option<Arc<Worker, Global>>,
}

impl<'a, L: Founding> Turn<'a, L> {
    pub(crate) fn new(guarded: MutexGuard<'a, KernelGuarded<L>>) -> Self {
        let before = guarded.keeper.made();
        let had_due = guarded.has_turns_due();
        Turn {
            guarded,
            before,
            had_due,
            due_worker: None,
        }
    }

    /// Returns how many records were made in it.
    pub fn made(&self) -> u64 {
        self.guarded.keeper.made().saturating_sub(self.before)
    }

    /// Returns whether the next call has to wait for an epoch, which doesn't begin while the lock is held.
    pub fn awaits_epoch(&self) -> bool {
        self.guarded.awaits_epoch()
    }

    /// The sessions of a worker whose call's turn has come, as `Shared::take_due` does. The worker isn't woken for them.
    pub fn take_due(&mut self, worker: &Worker, due: &mut Vec<u32>) -> Result<(), AllocError> {
        self.guarded.take_due(worker.number(), due)?;
        drop(
            self.due_worker
                .take_if(|woken| woken.number() == worker.number()),
        );
        Ok(())
    }

    /// Returns whether a session's call waits in line, or its turn has come.
    pub fn is_waiting(&self, session: u32) -> bool {
        self.guarded.is_waiting(session)
    }

    /// Makes a call of a session, for the task of this seat. If the session is confined since it had seen so many
    /// records, it is settled first: the call is made in the very space that it was confined to, or in none. Even if
    /// the call isn't made, the session may have seen more than before. A receive isn't made for a task that has gone:
    /// a message that was sent after its end stays.
    ///
    /// If it may wait, a send that finds no room, or a receive that finds no message, is in line from then on, until a
    /// call of the session is made again, or isn't made because its task has gone. A call whose turn comes is woken; a
    /// turn that ends without a record is passed on.
    pub fn submit<P: Peer>(
        &mut self,
        session: Session<L>,
        since: Option<u64>,
        call: &Call,
        seat: &Seat<P>,
        may_wait: bool,
    ) -> (Session<L>, Result<Ticket, NotMade>)
        ensures made { IfOk result.1 (λ ticket. MadeSince L.base since session call.now ticket result.0) }
        ensures err { OnErr result.1 (Did L.base session looked result.0) }
    {
        // With the lock held, since whatever is sent now is sent after this check.
        if is_receive(call) && seat.peer().is_gone() {
            self.guarded.leave_line(session.number());
            session.show_looked();
            return (session, Err(NotMade::Gone));
        }
        let worker = if may_wait { Some(seat.worker()) } else { None };
        let (session, made) = self.guarded.submit(session, since, call, worker);
        self.keep_due_worker();
        (session, made.map_err(NotMade::Fault))
    }

    /// Keeps the worker of a call whose turn has come.
    pub(crate) fn keep_due_worker(&mut self) {
        let Some(worker) = self.guarded.take_due_worker() else {
            return;
        };
        if let Some(earlier) = self.due_worker.replace(worker) {
            earlier.wake();
        }
    }

    /// Frees the lock, and returns what others wait for.
    pub(crate) fn end(self) -> News {
        let Turn {
            guarded,
            before,
            had_due,
            due_worker,
        } = self;
        let has_more = before < guarded.keeper.made();
        let news = News {
            has_more,
            are_over: had_due && !guarded.has_turns_due(),
            has_image_due: has_more && guarded.has_image_due(),
            due_worker,
        };
        drop(guarded);
        news
    }
}

fn is_receive(call: &Call) -> bool {
    match call {
        Call::Plain(PlainCall::Receive { .. }) => true,
        _ => false,
    }
}
