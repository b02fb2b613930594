ghost use Rattle.std.specs.Prelude.{◌≡◌, ◌⊎◌, ◌+◌, ◌-◌, ◌<◌, ◌≤◌, None, Some, true, false, length, MatchBool, IfOk, IfErr, IfSome, IfNone, OnErr, OnOk, IsErrOf};
ghost use Rattle.std.specs.FinMap as map;
ghost use Rattle.codes.specs.declared.limits.TheConstants.{MAX_FRAME_CONTENT, MAX_RECORDS};
ghost use Rattle.ipc_model.specs.encodings.Encodings.{reply_encoding};
ghost use Rattle.ipc_model.specs.world.World.{World, acknowledged, first_world};
ghost use Rattle.ipc_model.specs.state.State.{State};
ghost use Rattle.system.specs.Calling.{Calls, FailsToStoreAll, IsResting, StoresAll};
ghost use Rattle.system.specs.Changes.{Answers, CannotAppend, FailsToStore, FindsFull, HandsIn, IsFullNow, IsNotDue, Stores, Submits, Takes};
ghost use Rattle.system.specs.Core.{StandsFor, StandsFrom, first_system};
ghost use Rattle.system.specs.Counting.{counted, counted_call};
ghost use Rattle.system.specs.Faults.{NotCalled};
ghost use Rattle.system.specs.Halves.{CannotTake, TicketValue};

use crate::kernel_half::{KernelHalf, SubmitFault};
use crate::ticket::Tickets;
use disk::Disk;
use ipc_model::{Call, Reply};
use std::alloc::Global;
use std::marker::Model;
use store_fault::StoreFault;
use store_half::{Finished, Opened, Receipt, StoreHalf, Taken};
use waiting::Places;

/// Why a call of a single caller wasn't answered.
#[derive(Clone, Copy, Debug, PartialEq, Eq)]
pub enum CallFault {
    /// It wasn't made, and nothing changed.
    Submit(SubmitFault),
    /// Its record wasn't stored.
    Store(StoreFault),
}

impl From<SubmitFault> for CallFault {
    ghost use Rattle.std.specs.Prelude.{◌≡◌};
    ghost use Rattle.system.specs.declared.system.CallFault.TheVariants.{Submit};

    ghost from_gives = { λ fault e. e ≡ Submit fault };

    fn from(fault: SubmitFault) -> Self {
        CallFault::Submit(fault)
    }
}

impl From<StoreFault> for CallFault {
    ghost use Rattle.std.specs.Prelude.{◌≡◌};
    ghost use Rattle.system.specs.declared.system.CallFault.TheVariants.{Store};

    ghost from_gives = { λ fault e. e ≡ Store fault };

    fn from(fault: StoreFault) -> Self {
        CallFault::Store(fault)
    }
}

/// The core of the server, for one thread: the two halves, and what goes between them. A ticket is known by its number;
/// the first is 0.
///
/// It keeps what waits: records that aren't taken, a batch or its receipt, the receipt of an image, and tickets that
/// aren't answered. It drops what was stored and answered.
pub struct System<D: Disk> {
    pub(crate) alloc: Global,
    pub(crate) core: KernelHalf,
    pub(crate) store: StoreHalf<D>,
    pub(crate) out: Option<Taken>,
    pub(crate) receipt: Option<Receipt>,
    pub(crate) finished: Option<Finished>,

    // Whether the image's receipt is older than the batch's, if both are out.
    pub(crate) finished_first: bool,
    pub(crate) tickets: Tickets,

    // Names all places: no call waits here, so none is looked up.
    pub(crate) places: Places,
}

// Written out, so that proofs above know one function and not its parts.
impl<D: Disk + Drop> Drop for System<D> {
    fn drop(self) {
        let System {
            alloc: _,
            core,
            store,
            out,
            receipt,
            finished,
            finished_first: _,
            tickets,
            places,
        } = self;
        drop(core);
        drop(store);
        drop(out);
        drop(receipt);
        drop(finished);
        drop(tickets);
        drop(places);
    }
}

impl<D: Disk> Model for System<D> {
    ghost use Rattle.system.specs.Core.{SystemValue};
    ghost use Rattle.system.specs.Order.{IsInOrder};
    ghost use Rattle.system.specs.SystemCode.{system_code};

    ghost Value = { SystemValue D };

    ghost coded = { system_code D.code };

    ghost view = { λ s. record {
      core = s.core;
      store = s.store;
      out = s.out;
      receipt = s.receipt;
      finished = s.finished;
      finished_first = s.finished_first;
      tickets = s.tickets;
    } };

    ghost invariant = { λ s. IsInOrder (record {
      core = s.core;
      store = s.store;
      out = s.out;
      receipt = s.receipt;
      finished = s.finished;
      finished_first = s.finished_first;
      tickets = s.tickets;
    }) };
}

impl<D: Disk> System<D> {
    /// Continues from an opened store. It takes no memory. Until an event, the core stands for the world in which there
    /// was none.
    pub fn new(alloc: Global, opened: Opened<D>) -> Self
        ensures value { result ≡ first_system opened.kernel opened.disk opened.segment }
        ensures stands { StandsFor D.honest D.view opened.kernel
            (first_world opened.segment.epoch opened.segment.records) result }
    {
        let Opened {
            kernel,
            disk,
            segment,
        } = opened;
        kernel.show_image();
        let mut places = Places::none(alloc);
        places.add_all();
        System {
            alloc,
            core: KernelHalf::new(alloc, kernel, segment.epoch, segment.records),
            store: StoreHalf::new(disk, segment),
            out: None,
            receipt: None,
            finished: None,
            finished_first: false,
            tickets: Tickets::new(alloc),
            places,
        }
    }

    /// The disk of the store, which is closed. What isn't stored is lost. What its slots hold, also after a fault of
    /// the device, stands for the state after a prefix of the calls that were applied, no fewer than were acknowledged:
    /// an opening finds just that.
    pub fn into_disk(self) -> D
        ensures disk { result ≡ self.store.disk }
        ensures reopens { D.honest → (base : State) (world : World) → StandsFor D.honest D.view base world self
            → StandsFrom base (acknowledged world) world (D.view result).seen }
    {
        let System {
            alloc: _,
            core,
            store,
            out: _,
            receipt: _,
            finished: _,
            finished_first: _,
            tickets: _,
            places: _,
        } = self;
        drop(core);
        store.into_disk()
    }

    /// Makes a call of a task of this space, and returns the number of its ticket. Its record, if it has one, then
    /// waits to be taken. At a fault, nothing changed.
    pub fn submit(&mut self, space: u32, call: &Call) -> Result<u64, SubmitFault>
        ensures number { IfOk result (λ number. number ≡ self.old.tickets.given) }
        ensures given { OnOk result (Submits self.old space call.now self.new) }
        ensures full { IsErrOf result SubmitFault.EpochFull → IsFullNow self.old space call.now }
        ensures err { OnErr result (self.new ≡ self.old) }
    {
        // No machine gives this many tickets.
        if self.tickets.given() == u64::MAX {
            return Err(SubmitFault::NoMemory);
        }
        self.tickets.make_place()?;
        match self.core.submit(space, call, &mut self.places) {
            Ok(ticket) => Ok(self.tickets.give(ticket)),
            Err(fault) => {
                self.tickets.drop_place();
                Err(fault)
            }
        }
    }

    /// Takes records that wait, as a batch of one epoch that is out until its receipt is delivered. Returns whether it
    /// did: it doesn't if none waits or a batch is out.
    pub fn take(&mut self) -> bool
        ensures taken { MatchBool result (Takes self.old self.new) (CannotTake self.old.core × (self.new ≡ self.old)) }
    {
        match self.core.take() {
            Some(taken) => {
                drop(self.out.replace(taken));
                true
            }
            None => false,
        }
    }

    /// Stores the batch that is out: all of it or nothing. Returns whether there was one that the segment in use takes.
    /// It takes no memory.
    ///
    /// `Device`: the device failed, and whether the batch is stored isn't known until the store is opened again.
    /// `Failed`: it failed before; nothing changed. `Full`: the segment has no room for it, and nothing changed; that
    /// never comes in a world of events (`Simulates`). No other fault comes.
    pub fn append(&mut self) -> Result<bool, StoreFault>
        ensures done { IfOk result (λ is_stored. MatchBool is_stored (Stores D.honest D.view self.old self.new)
            (CannotAppend self.old × (self.old.store.failed ≡ false) × (self.new ≡ self.old))) }
        ensures faults { IfErr result
            (λ fault. ((fault ≡ StoreFault.Failed) × (self.old.store.failed ≡ true) × (self.new ≡ self.old))
            ⊎ (((fault ≡ StoreFault.Device) × FailsToStore D.honest D.view self.old self.new)
            ⊎ ((fault ≡ StoreFault.Full) × FindsFull self.old self.new))) }
        ensures failures { D.failed_calls self.new.store.disk ≡ counted result (D.failed_calls self.old.store.disk) }
        ensures calls { D.calls self.new.store.disk ≤ D.calls self.old.store.disk + 4 }
    {
        if self.store.has_failed() {
            return Err(StoreFault::Failed);
        }
        let Some(taken) = self.out.take() else {
            return Ok(false);
        };
        if taken.epoch() != self.store.epoch() {
            drop(self.out.replace(taken));
            return Ok(false);
        }
        match self.store.append(taken) {
            Ok(receipt) => {
                drop(self.receipt.replace(receipt));
                self.finished_first = true;
                Ok(true)
            }
            Err((fault, taken)) => {
                drop(self.out.replace(taken));
                Err(fault)
            }
        }
    }

    /// Delivers the oldest receipt: of a batch that was stored, or of an image that was finished. Returns whether there
    /// was one.
    pub fn durable(&mut self) -> bool
        ensures { MatchBool result (HandsIn self.old self.new)
            ((self.old.receipt ≡ None) × (self.old.finished ≡ None) × (self.new ≡ self.old)) }
    {
        if self.finished_first || self.receipt.is_none() {
            if let Some(finished) = self.finished.take() {
                self.core.finished(finished);
                return true;
            }
        }
        match self.receipt.take() {
            Some(receipt) => {
                self.core.durable(receipt);
                true
            }
            None => false,
        }
    }

    /// The reply that a ticket keeps, if all that it saw is stored; it is given once.
    pub fn reply(&mut self, number: u64) -> Option<Reply>
        ensures answered { IfSome result (λ answer. Answers self.old number answer self.new) }
        ensures frame { IfSome result (λ answer. length (reply_encoding answer) ≤ MAX_FRAME_CONTENT) }
        ensures none { IfNone result (IsNotDue self.old number × (self.new ≡ self.old)) }
    {
        if !self.is_due(number) {
            return None;
        }
        let ticket = self.tickets.take(number)?;
        Some(ticket.into_reply())
    }

    /// Makes a call of a task of this space while nothing waits: its record, if it has one, is taken and stored, and
    /// the receipt delivered, before it is answered. At a fault of the submit, nothing changed.
    ///
    /// Of the store's faults only `Device` comes: then it isn't known whether the record is stored until the store is
    /// opened again.
    pub fn call(&mut self, space: u32, call: &Call) -> Result<Reply, CallFault>
        requires { IsResting self.old }
        ensures answered { IfOk result (λ answer. Calls D.honest D.view self.old space call.now answer self.new) }
        ensures frame { IfOk result (λ answer. length (reply_encoding answer) ≤ MAX_FRAME_CONTENT) }
        ensures faults { IfErr result (λ fault. NotCalled D.honest D.view self.old space call.now fault self.new) }
        ensures full { IsErrOf result (CallFault.Submit SubmitFault.EpochFull) → IsFullNow self.old space call.now }
        ensures failures { D.failed_calls self.new.store.disk
            ≡ counted_call result (D.failed_calls self.old.store.disk) }
        ensures calls { D.calls self.new.store.disk ≤ D.calls self.old.store.disk + 4 }
    {
        let number = self.submit(space, call)?;
        self.store_waiting()?;
        let Some(reply) = self.reply(number) else {
            unreachable!()
        };
        Ok(reply)
    }

    /// Takes the records that wait, stores them, and delivers their receipt.
    fn store_waiting(&mut self) -> Result<(), StoreFault>
        requires out { self.old.core.is_out ≡ false }
        requires none_older { self.old.core.older.count ≡ 0 }
        requires epoch { self.old.store.segment.epoch ≡ self.old.core.epoch }
        requires room { 0 < self.old.core.log.waiting.count
            → self.old.store.segment.records + self.old.core.log.waiting.count ≤ MAX_RECORDS }
        requires finished { self.old.finished ≡ None }
        requires unfailed { self.old.store.failed ≡ false }
        ensures none { OnOk result (self.old.core.log.waiting.count ≡ 0 → self.new ≡ self.old) }
        ensures stored { OnOk result (0 < self.old.core.log.waiting.count
            → StoresAll D.honest D.view self.old self.new) }
        ensures faults { IfErr result (λ fault. (fault ≡ StoreFault.Device)
            × FailsToStoreAll D.honest D.view self.old self.new) }
        ensures failures { D.failed_calls self.new.store.disk ≡ counted result (D.failed_calls self.old.store.disk) }
        ensures calls { D.calls self.new.store.disk ≤ D.calls self.old.store.disk + 4 }
    {
        if !self.take() {
            return Ok(());
        }
        if !self.append()? {
            unreachable!()
        }
        if !self.durable() {
            unreachable!()
        }
        Ok(())
    }

    /// Returns whether there is a ticket with this number, and all that it saw is stored.
    fn is_due(&self, number: u64) -> bool
        ensures { MatchBool result
            ((ticket : TicketValue) × (map.get self.now.tickets.kept number ≡ Some (Some ticket))
            × (ticket.seen ≤ self.now.core.handed))
            (IsNotDue self.now number) }
    {
        let Some(ticket) = self.tickets.get(number) else {
            return false;
        };
        if !self.core.is_due(ticket) {
            return false;
        }
        true
    }
}
