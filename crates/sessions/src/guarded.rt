ghost use Rattle.std.specs.Prelude.{◌≡◌, IfOk, OnErr};
ghost use Rattle.ipc_model.specs.history.History.{looked};
ghost use Rattle.keepers.specs.Destroying.{MadeSince};
ghost use Rattle.keepers.specs.Tokens.{Did};

use crate::seat::Worker;
use crate::waiters::{Waiter, Waiters};
use codes::{KernReturn, MAX_RECORDS};
use history::Founding;
use ipc_model::{Call, PlainCall};
use keepers::{KernelKeeper, Load, Session, SessionFault};
use std::alloc::{AllocError, Global};
use std::sync::Arc;
use store_fault::StoreFault;
use store_half::Receipt;
use system::{SubmitFault, Ticket};
use waiting::Places;

/// Up to this many records are few, so that one more in their batch is worth a wait.
const FEW_RECORDS: u64 = 4;

/// What lies under the lock of the kernel: the keeper of the history, and how the loops stand.
#[derive(Drop)]
pub(crate) struct KernelGuarded<L: Founding> {
    pub(crate) keeper: KernelKeeper<L>,

    // How many records were made since some were last taken.
    fresh: u64,

    // The places that the last call named, and the calls that wait at places.
    places: Places,
    waiters: Waiters,

    // What a loop met, and whether the loops are to end.
    fault: Option<StoreFault>,
    is_stopping: bool,

    // Whether nothing is stored any more; and, if a loop makes images, how many records an epoch log has when it does,
    // so that a full log is followed by another.
    is_ended: bool,
    image_records: Option<u64>,
}

impl<L: Founding> KernelGuarded<L> {
    /// Begins with no loop.
    pub(crate) fn new(alloc: Global, keeper: KernelKeeper<L>) -> Self {
        KernelGuarded {
            keeper,
            fresh: 0,
            places: Places::none(alloc),
            waiters: Waiters::none(alloc),
            fault: None,
            is_stopping: false,
            is_ended: false,
            image_records: None,
        }
    }

    /// Makes a call of a session, as `KernelKeeper::submit_since` does, and gives their turn to waiting calls that may
    /// find something to do now. A call that finds nothing is in line from then on, if it may wait, for this worker.
    pub(crate) fn submit(
        &mut self,
        session: Session<L>,
        since: Option<u64>,
        call: &Call,
        worker: Option<&Arc<Worker, Global>>,
    ) -> (Session<L>, Result<Ticket, SubmitFault>)
        ensures made { IfOk result.1 (λ ticket. MadeSince L.base since session call.now ticket result.0) }
        ensures err { OnErr result.1 (Did L.base session looked result.0) }
    {
        let waiter = self.waiters.take(session.number());
        // If no call waits, no place needs to be looked for.
        if self.waiters.are_none() {
            self.places.add_all();
        } else {
            self.places.clear();
        }
        let before = self.keeper.made();
        let (session, made) = self
            .keeper
            .submit_since(session, since, call, &mut self.places);
        if before < self.keeper.made() {
            drop(waiter);
            self.fresh = self.fresh.saturating_add(1);
            self.waiters.wake(&self.places);
        } else if let Some(worker) = worker.filter(|_| finds_nothing(&made)) {
            self.put_in_line(&session, call, worker, waiter);
        } else {
            self.waiters.pass_on(waiter);
        }
        match made {
            Ok(ticket) => (session, Ok(ticket)),
            Err(fault) => (session, Err(fault.submit_fault())),
        }
    }

    /// Puts a session's call in line for its turn: where it stood before, if it did. If an allocation fails, it is in
    /// no line.
    fn put_in_line(
        &mut self,
        session: &Session<L>,
        call: &Call,
        worker: &Arc<Worker, Global>,
        waiter: Option<Waiter>,
    ) {
        let Some(places) = self.keeper.places_of_call(session, call) else {
            drop(waiter);
            return;
        };
        let number = session.number();
        let _ = match waiter {
            Some(waiter) => self.waiters.add_again(number, waiter, places),
            None => self.waiters.add(number, is_send(call), places, worker),
        };
    }

    /// A session's call waits no longer, and isn't made again.
    pub(crate) fn leave_line(&mut self, session: u32) {
        let waiter = self.waiters.take(session);
        self.waiters.pass_on(waiter);
        self.waiters.wake_worker();
    }

    /// Takes the records that wait to be stored, as `KernelKeeper::take` does. `None` also if an allocation fails.
    pub(crate) fn take(&mut self) -> Option<Load<L>> {
        self.fresh = 0;
        self.keeper.take().ok().flatten()
    }

    /// Returns whether only a few records wait to be stored, and a turn has come that wasn't taken yet and may make one
    /// more.
    pub(crate) fn may_soon_have_more(&self) -> bool {
        self.fresh <= FEW_RECORDS && self.waiters.are_due()
    }

    /// Returns whether a turn has come that wasn't taken yet.
    pub(crate) fn has_turns_due(&self) -> bool {
        self.waiters.are_due()
    }

    /// One more worker, whose number is returned.
    pub(crate) fn add_worker(&mut self) -> Result<usize, AllocError> {
        self.waiters.turns().add_worker()
    }

    /// Exchanges the sessions of a worker whose call's turn has come for an empty list.
    pub(crate) fn take_due(&mut self, worker: usize, due: &mut Vec<u32>) -> Result<(), AllocError> {
        self.waiters.turns().take(worker, due)
    }

    /// Returns whether a session's call waits, in line or with its turn.
    pub(crate) fn is_waiting(&self, session: u32) -> bool {
        self.waiters.has(session)
    }

    /// Learns that the load that was out is stored.
    pub(crate) fn learn(&mut self, receipt: Receipt) {
        self.keeper.durable(receipt);
    }

    /// The worker of a call whose turn has come, if it hasn't been woken yet.
    pub(crate) fn take_due_worker(&mut self) -> Option<Arc<Worker, Global>> {
        self.waiters.take_due_worker()
    }

    /// What a loop met.
    pub(crate) fn fault(&self) -> Option<StoreFault>
        ensures { result ≡ self.now.fault }
    {
        self.fault
    }

    /// Returns whether nothing waits to be stored, and the loops go on.
    pub(crate) fn is_idle(&self) -> bool {
        !self.is_stopping && self.fault.is_none() && !self.keeper.is_waiting()
    }

    /// Returns whether the loop that stores is to end: after a fault, or once nothing waits any more.
    pub(crate) fn is_over(&self) -> bool {
        self.fault.is_some() || (self.is_stopping && !self.keeper.is_waiting())
    }

    /// Returns whether the epoch log has fewer records than these, and the loops go on.
    pub(crate) fn is_short(&self, records: u64) -> bool {
        !self.is_ending() && self.keeper.log_length() < records
    }

    /// Returns whether the loop that makes images has something to do.
    pub(crate) fn has_image_due(&self) -> bool {
        match self.image_records {
            Some(records) => records <= self.keeper.log_length(),
            None => false,
        }
    }

    /// Returns whether the loop that makes images is to end.
    pub(crate) fn is_ending(&self) -> bool {
        self.fault.is_some() || self.is_stopping
    }

    /// Returns whether the epoch log is full, and the next epoch will begin.
    pub(crate) fn awaits_epoch(&self) -> bool {
        self.image_records.is_some() && !self.is_ending() && self.keeper.log_length() >= MAX_RECORDS
    }

    /// A loop makes images from now on, each once an epoch log has this many records.
    pub(crate) fn begin_images(&mut self, records: u64) {
        self.image_records = Some(records);
    }

    /// Nothing is stored any more.
    pub(crate) fn end(&mut self) {
        self.is_ended = true;
        self.waiters.wake_all();
        self.waiters.wake_worker();
    }

    /// Tells the loops to end.
    pub(crate) fn stop(&mut self) {
        self.is_stopping = true;
    }

    /// A loop met a fault. The first one stays.
    pub(crate) fn fail(&mut self, fault: StoreFault) {
        self.fault = self.fault.or(Some(fault));
        self.waiters.wake_all();
        self.waiters.wake_worker();
    }
}

/// Returns whether a call was answered that it found nothing to do.
fn finds_nothing(made: &Result<Ticket, SessionFault>) -> bool {
    match made {
        Ok(ticket) => match ticket.message_code() {
            Some(KernReturn::SendTimedOut | KernReturn::RcvTimedOut) => true,
            _ => false,
        },
        Err(_) => false,
    }
}

fn is_send(call: &Call) -> bool {
    match call {
        Call::Plain(PlainCall::Send { .. }) => true,
        _ => false,
    }
}
