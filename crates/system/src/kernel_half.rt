ghost use Rattle.std.specs.Prelude.{◌≡◌, ◌+◌, ◌-◌, ◌^◌, ◌<◌, ◌≤◌, true, false, length, MatchBool, IfOk, IfErr, IfSome, IfNone, OnErr, IsErrOf};
ghost use Rattle.codes.specs.declared.limits.TheConstants.{MAX_FRAME_CONTENT, MAX_RECORDS};
ghost use Rattle.store_half.specs.epoch_log.Logs.{Wrote};
ghost use Rattle.ipc_model.specs.calls.Step.{Step, has_record};
ghost use Rattle.ipc_model.specs.encodings.Encodings.{reply_encoding};
ghost use Rattle.system.specs.Halves.{CanCut, CannotTake, Cuts, Gives, IsFullFor, TakesBatch, first_half, with_receipt};
ghost use Rattle.waiting.specs.Places.{names};
ghost use Rattle.waiting.specs.Waiting.{Wakes};

use crate::Ticket;
use crate::witness::{Witness, Witnessed};
use codes::MAX_RECORDS;
use image::image_is_of_state;
use ipc_model::{Call, Reply, call_in_range};
use journal::Batch;
use std::alloc::{AllocError, Global};
use std::marker::Model;
use store_half::{Cut, EpochLog, Finished, Kernel, Receipt, Taken};
use waiting::Places;

/// Why a call wasn't made. Nothing changed.
#[derive(Clone, Copy, Debug, PartialEq, Eq)]
pub enum SubmitFault {
    /// An allocation failed.
    NoMemory = 1,
    /// The epoch log takes no more records, and a step of the call has one.
    EpochFull = 2,
}

impl From<AllocError> for SubmitFault {
    ghost use Rattle.std.specs.Prelude.{◌≡◌};
    ghost use Rattle.system.specs.declared.kernel_half.SubmitFault.TheVariants.{NoMemory};

    ghost from_gives = { λ _ e. e ≡ NoMemory };

    fn from(_: AllocError) -> Self {
        SubmitFault::NoMemory
    }
}

/// The half of the core that makes calls. It knows of the store only what receipts say.
pub struct KernelHalf {
    kernel: Kernel,
    epoch: u64,

    // The records of the previous epoch that wait to be taken.
    older: Taken,
    log: EpochLog,
    handed: u64,

    // The batch that takes the place of the one that is taken next; `None` while a batch is out.
    spare: Option<Batch>,
    is_cut: bool,
}

// Written out, so that proofs above know one function and not its parts.
impl Drop for KernelHalf {
    fn drop(self) {
        let KernelHalf {
            kernel,
            epoch: _,
            older,
            log,
            handed: _,
            spare,
            is_cut: _,
        } = self;
        drop(kernel);
        drop(older);
        drop(log);
        drop(spare);
    }
}

impl Model for KernelHalf {
    ghost use Rattle.std.specs.Prelude.{◌≡◌, ◌+◌, ◌<◌, ◌≤◌, ◌^◌, is_none, IfSome};
    ghost use Rattle.journal.specs.Batch.{empty_batch};
    ghost use Rattle.system.specs.Halves.{KernelValue, kernel_code};

    ghost Value = { KernelValue };

    ghost coded = { kernel_code };

    ghost view = { λ k. record {
      kernel = k.kernel;
      epoch = k.epoch;
      older = k.older.batch;
      log = k.log;
      handed = k.handed;
      is_out = is_none k.spare;
      is_cut = k.is_cut;
    } };

    // Records that wait from an earlier epoch are of the one before this.
    ghost invariant = { λ k. (k.handed ≤ k.log.made) × (k.log.made < 2 ^ 64)
        × IfSome k.spare (λ batch. batch ≡ empty_batch)
        × (0 < k.older.batch.count → k.older.epoch + 1 ≡ k.epoch) };
}

impl KernelHalf {
    /// Continues from a state in an epoch whose segment holds `records` records. It takes no memory.
    pub fn new(alloc: Global, kernel: Kernel, epoch: u64, records: u64) -> Self
        ensures { result ≡ first_half kernel epoch records }
    {
        KernelHalf {
            kernel,
            epoch,
            older: Taken::none(epoch, Batch::new(alloc)),
            log: EpochLog::new(alloc, records),
            handed: 0,
            spare: Some(Batch::new(alloc)),
            is_cut: false,
        }
    }

    /// Returns how many records the epoch log has.
    pub fn log_length(&self) -> u64
        ensures { result ≡ self.now.log.length }
    {
        self.log.len()
    }

    /// The epoch in which calls are made.
    pub fn epoch(&self) -> u64
        ensures { result ≡ self.now.epoch }
    {
        self.epoch
    }

    /// The kernel, as it stands.
    pub fn kernel(&self) -> &Kernel
        ensures { result.now ≡ self.now.kernel }
    {
        &self.kernel
    }

    /// Returns how many records were made since it began, in all epochs.
    pub fn made(&self) -> u64
        ensures { result ≡ self.now.log.made }
    {
        self.log.made()
    }

    /// Makes a call of a task of this space. Its record, if it has one, then waits to be taken.
    ///
    /// It names the places at which the call may have given a waiting call something to do: no wake-up is lost. If
    /// `places` names all places already, since no call waits, no place is looked up.
    pub fn submit(
        &mut self,
        space: u32,
        call: &Call,
        places: &mut Places,
    ) -> Result<Ticket, SubmitFault>
        ensures given { IfOk result (λ ticket. Gives self.old space call.now ticket self.new) }
        ensures wakes { IfOk result (λ ticket. Wakes self.old.kernel.ipc self.new.kernel.ipc (names places.new)) }
        ensures full { IsErrOf result SubmitFault.EpochFull → IsFullFor self.old space call.now }
        ensures err { OnErr result (self.new ≡ self.old) }
    {
        let (_, made) = self.submit_with_witness(space, call, (), places);
        made
    }

    /// Makes a call as `submit` does, together with a witness that learns of its record, if it has one, before the call
    /// is committed. If the witness can't learn of it, the answer is out of memory, and nothing changed.
    pub fn submit_with_witness<W: Witness>(
        &mut self,
        space: u32,
        call: &Call,
        witness: W,
        places: &mut Places,
    ) -> (W, Result<Ticket, SubmitFault>)
        ensures given { IfOk result.1 (λ ticket. Gives self.old space call.now ticket self.new) }
        ensures wakes { IfOk result.1 (λ ticket. Wakes self.old.kernel.ipc self.new.kernel.ipc (names places.new)) }
        ensures learned { IfOk result.1
            (λ ticket. has_record call.now ticket.answer ≡ true
            → W.learned witness space call.now ticket.answer result.0) }
        ensures unlearned { IfOk result.1 (λ ticket. has_record call.now ticket.answer ≡ false → result.0 ≡ witness) }
        ensures full { IsErrOf result.1 SubmitFault.EpochFull → IsFullFor self.old space call.now }
        ensures err { OnErr result.1 ((self.new ≡ self.old) × (result.0 ≡ witness)) }
    {
        // No machine makes this many records.
        if self.log.made() == u64::MAX {
            return (witness, Err(SubmitFault::NoMemory));
        }
        let length = self.log.len();
        if length >= MAX_RECORDS {
            return (witness, self.submit_without_room(space, call));
        }
        let (witness, made) = self.submit_with_room(space, call, witness, places);
        match made {
            Ok(ticket) => (witness, Ok(ticket)),
            Err(_) => (witness, Err(SubmitFault::NoMemory)),
        }
    }

    /// Makes a call; there is room for its record, if it has one.
    fn submit_with_room<W: Witness>(
        &mut self,
        space: u32,
        call: &Call,
        witness: W,
        places: &mut Places,
    ) -> (W, Result<Ticket, AllocError>)
        requires { (self.old.log.length < MAX_RECORDS) × (self.old.log.made < 2 ^ 64 - 1) }
        ensures given { IfOk result.1 (λ ticket. Gives self.old space call.now ticket self.new) }
        ensures wakes { IfOk result.1 (λ ticket. Wakes self.old.kernel.ipc self.new.kernel.ipc (names places.new)) }
        ensures learned { IfOk result.1
            (λ ticket. has_record call.now ticket.answer ≡ true
            → W.learned witness space call.now ticket.answer result.0) }
        ensures unlearned { IfOk result.1 (λ ticket. has_record call.now ticket.answer ≡ false → result.0 ≡ witness) }
        ensures err { OnErr result.1 ((self.new ≡ self.old) × (result.0 ≡ witness)) }
    {
        call_in_range(call);
        let (witness, made) = apply_with_witness(
            &mut self.kernel,
            &mut self.log,
            space,
            call,
            witness,
            places,
        );
        let reply = match made {
            Ok(reply) => reply,
            Err(refused) => return (witness, Err(refused)),
        };
        let seen = self.log.made();
        (witness, Ok(Ticket { reply, seen }))
    }

    /// Makes a call that has no record.
    fn submit_without_room(&mut self, space: u32, call: &Call) -> Result<Ticket, SubmitFault>
        requires { MAX_RECORDS ≤ self.old.log.length }
        ensures given { IfOk result (λ ticket. Gives self.old space call.now ticket self.new) }
        ensures same { self.new ≡ self.old }
        ensures full { IsErrOf result SubmitFault.EpochFull → IsFullFor self.old space call.now }
    {
        call_in_range(call);
        let answer = self.kernel.answer_in_place(space, call)?;
        let Some(reply) = answer else {
            return Err(SubmitFault::EpochFull);
        };
        let seen = self.log.made();
        Ok(Ticket { reply, seen })
    }

    /// Takes records that wait, as a batch of one epoch, the previous epoch's first. `None` while a batch is out, or if
    /// no record waits.
    pub fn take(&mut self) -> Option<Taken>
        ensures taken { IfSome result (λ taken. TakesBatch self.old taken self.new) }
        ensures none { IfNone result (CannotTake self.old × (self.new ≡ self.old)) }
    {
        if self.older.count() > 0 {
            let empty = self.spare.take()?;
            let none = Taken::none(self.epoch, empty);
            return Some(std::mem::replace(&mut self.older, none));
        }
        if self.log.waiting() == 0 {
            return None;
        }
        let empty = self.spare.take()?;
        Some(self.log.take(self.epoch, empty))
    }

    /// Learns that the records of the batch that was out are stored.
    pub fn durable(&mut self, receipt: Receipt)
        requires { self.old.handed + receipt ≤ self.old.log.made }
        ensures { self.new ≡ with_receipt self.old receipt }
    {
        self.handed += u64::from(receipt.count());
        drop(self.spare.replace(receipt.into_empty()));
    }

    /// Begins the next epoch, with a snapshot of the state after the whole epoch log. `None` while a checkpoint is
    /// under way or records of the previous epoch wait, and in the last epoch. If an allocation fails, nothing changed.
    pub fn cut(&mut self, alloc: Global) -> Result<Option<Cut>, AllocError>
        ensures cut { IfOk result (λ cut. IfSome cut (λ cut. Cuts self.old cut self.new)) }
        ensures not_now { IfOk result (λ cut. IfNone cut ((CanCut self.old → ⊥) × (self.new ≡ self.old))) }
        ensures err { OnErr result (CanCut self.old × (self.new ≡ self.old)) }
    {
        if self.is_cut || self.epoch == u64::MAX || self.older.count() > 0 {
            return Ok(None);
        }
        let snapshot = self.kernel.copy(alloc)?;
        image_is_of_state();
        self.kernel.show_image();
        let log = self.log.len();
        self.older = self.log.end(self.epoch);
        self.epoch += 1;
        self.is_cut = true;
        Ok(Some(Cut::new(snapshot, self.epoch, log)))
    }

    /// Learns that the checkpoint is over.
    pub fn finished(&mut self, receipt: Finished)
        ensures { self.new ≡ record self.old { is_cut = false } }
    {
        let _ = receipt;
        self.is_cut = false;
    }

    /// Returns whether all records that a ticket saw are stored, according to receipts.
    pub fn is_due(&self, ticket: &Ticket) -> bool
        ensures { MatchBool result (ticket.now.seen ≤ self.now.handed) (self.now.handed < ticket.now.seen) }
    {
        ticket.seen <= self.handed
    }

    /// The reply that a ticket keeps, once all records that it saw are stored; else the ticket comes back.
    pub fn reply(&self, ticket: Ticket) -> Result<Reply, Ticket>
        ensures ok { IfOk result (λ reply. (ticket.seen ≤ self.now.handed) × (reply ≡ ticket.answer)) }
        ensures frame { IfOk result (λ reply. length (reply_encoding reply) ≤ MAX_FRAME_CONTENT) }
        ensures err { IfErr result (λ kept. (self.now.handed < ticket.seen) × (kept ≡ ticket)) }
    {
        ticket.redeem(self.handed)
    }
}

/// Makes a step of the machine. Its record, if it has one, is written into the epoch log, and the witness learns of it,
/// before the step is committed.
fn apply_with_witness<W: Witness>(
    kernel: &mut Kernel,
    log: &mut EpochLog,
    space: u32,
    call: &Call,
    witness: W,
    places: &mut Places,
) -> (W, Result<Reply, AllocError>)
    requires { (log.old.length < MAX_RECORDS) × (log.old.made < 2 ^ 64 - 1) }
    ensures step { IfOk result.1 (λ reply. Step kernel.old space call.now reply kernel.new) }
    ensures wakes { IfOk result.1 (λ reply. Wakes kernel.old.ipc kernel.new.ipc (names places.new)) }
    ensures recorded { IfOk result.1
        (λ reply. has_record call.now reply ≡ true → Wrote log.old space call.now reply log.new
        × W.learned witness space call.now reply result.0) }
    ensures unrecorded { IfOk result.1
        (λ reply. has_record call.now reply ≡ false → (log.new ≡ log.old) × (result.0 ≡ witness)) }
    ensures fits { IfOk result.1 (λ reply. length (reply_encoding reply) ≤ MAX_FRAME_CONTENT) }
    ensures err { OnErr result.1 ((kernel.new ≡ kernel.old) × (log.new ≡ log.old) × (result.0 ≡ witness)) }
{
    let taken = log.take_out();
    let mut both = Witnessed {
        log: taken,
        witness,
    };
    let made = kernel.apply_recorded(space, call, &mut both, places);
    let Witnessed { log: left, witness } = both;
    *log = left;
    (witness, made)
}
