ghost use Rattle.std.specs.Prelude.{◌≡◌, ◌<◌, ◌≤◌, ◌^◌, ◌-◌, true, length, IfOk, OnOk, OnErr};
ghost use Rattle.codes.specs.declared.limits.TheConstants.{MAX_RECORDS};
ghost use Rattle.ipc_laws.specs.RecordedSteps.{IsAnsweredWhole};
ghost use Rattle.ipc_model.specs.calls.Step.{has_record};
ghost use Rattle.ipc_model.specs.encodings.Encodings.{record_encoding};
ghost use Rattle.journal.specs.Batch.{empty_batch, without_last};
ghost use Rattle.store_half.specs.epoch_log.Logs.{Wrote, entry_of, next_log};

use crate::epoch_log::taken::Taken;
use codes::MAX_RECORDS;
use ipc_model::{Call, Reply};
use journal::Batch;
use kernel::Recorder;
use record::in_range;
use std::alloc::{AllocError, Global};
use std::marker::Model;

/// An epoch log: the records that an epoch's segment holds or will hold. It contains those that haven't been taken yet,
/// encoded as they are stored.
pub struct EpochLog {
    alloc: Global,
    length: u64,

    // Number of records that were made since the store was opened, in all epochs.
    made: u64,
    waiting: Batch,
}

// Written by hand, so that proofs of the crates above depend on one function instead of its parts.
impl Drop for EpochLog {
    fn drop(self) {
        let EpochLog {
            alloc: _,
            length: _,
            made: _,
            waiting,
        } = self;
        drop(waiting);
    }
}

impl Model for EpochLog {
    ghost use Rattle.std.specs.Prelude.{◌<◌, ◌≤◌};
    ghost use Rattle.codes.specs.declared.limits.TheConstants.{MAX_RECORDS};
    ghost use Rattle.store_half.specs.epoch_log.Logs.{EpochLogValue, log_code};

    ghost Value = { EpochLogValue };

    ghost coded = { log_code };

    ghost view = { λ r. record { length = r.length; made = r.made; waiting = r.waiting } };

    ghost invariant = { λ r. (r.waiting.count ≤ r.length) × (0 < r.waiting.count → r.length ≤ MAX_RECORDS) };
}

impl EpochLog {
    /// Creates the log of an epoch whose segment holds `length` records. It allocates nothing.
    pub fn new(alloc: Global, length: u64) -> Self
        ensures { result ≡ record { length = length; made = 0; waiting = empty_batch } }
    {
        EpochLog {
            alloc,
            length,
            made: 0,
            waiting: Batch::new(alloc),
        }
    }

    /// Returns the number of records in the epoch.
    pub fn len(&self) -> u64
        ensures { result ≡ self.now.length }
    {
        self.length
    }

    /// Returns the number of records that were made.
    pub fn made(&self) -> u64
        ensures made { result ≡ self.now.made }
        ensures within { self.now.made < 2 ^ 64 }
    {
        self.made
    }

    /// Returns the number of records that haven't been taken yet.
    pub fn waiting(&self) -> u32
        ensures { result ≡ self.now.waiting.count }
    {
        self.waiting.count()
    }

    /// Appends the record of a call with this reply, and returns the length of its encoding in bytes. If an allocation
    /// fails, nothing changed.
    pub fn push(&mut self, space: u32, call: &Call, reply: &Reply) -> Result<usize, AllocError>
        requires room { (self.old.length < MAX_RECORDS) × (self.old.made < 2 ^ 64 - 1) }
        requires whole { IsAnsweredWhole call.now reply.now }
        requires recorded { has_record call.now reply.now ≡ true }
        ensures ok { OnOk result (Wrote self.old space call.now reply.now self.new) }
        ensures size { IfOk result (λ size. size
            ≡ length (record_encoding self.old.length (entry_of space call.now reply.now))) }
        ensures err { OnErr result (self.new ≡ self.old) }
    {
        in_range(space, call, reply);
        let size = self.waiting.add_exchange(self.length, space, call, reply)?;
        self.length += 1;
        self.made += 1;
        Ok(size)
    }

    /// Removes the last record, which wasn't taken yet and whose encoding has `size` bytes.
    pub fn remove_last(&mut self, size: usize)
        requires some { 0 < self.old.waiting.count }
        requires made { 0 < self.old.made }
        requires within { size ≤ length self.old.waiting.body }
        ensures { self.new ≡ record {
          length = self.old.length - 1;
          made = self.old.made - 1;
          waiting = without_last self.old.waiting size;
        } }
    {
        self.waiting.remove_last(size);
        self.length -= 1;
        self.made -= 1;
    }

    /// Returns the log, and leaves an empty one.
    pub fn take_out(&mut self) -> EpochLog
        ensures taken { result ≡ self.old }
        ensures left { self.new ≡ record { length = 0; made = 0; waiting = empty_batch } }
    {
        let empty = EpochLog::new(self.alloc, 0);
        std::mem::replace(self, empty)
    }

    /// Returns the records that weren't taken yet, which are of this epoch, and replaces them by an empty batch.
    pub fn take(&mut self, epoch: u64, empty: Batch) -> Taken
        requires { empty ≡ empty_batch }
        ensures taken { result ≡ record { epoch = epoch; batch = self.old.waiting } }
        ensures left { self.new ≡ record self.old { waiting = empty_batch } }
    {
        let batch = std::mem::replace(&mut self.waiting, empty);
        Taken { epoch, batch }
    }

    /// Returns the records that weren't taken yet, which are of this epoch, and turns into the next epoch's log. It
    /// allocates nothing.
    pub fn end(&mut self, epoch: u64) -> Taken
        ensures taken { result ≡ record { epoch = epoch; batch = self.old.waiting } }
        ensures left { self.new ≡ next_log self.old }
    {
        self.length = 0;
        let batch = std::mem::replace(&mut self.waiting, Batch::new(self.alloc));
        Taken { epoch, batch }
    }
}

impl Recorder for EpochLog {
    ghost use Rattle.std.specs.Prelude.{◌-◌, ◌<◌, ◌^◌};
    ghost use Rattle.codes.specs.declared.limits.TheConstants.{MAX_RECORDS};
    ghost use Rattle.store_half.specs.epoch_log.Logs.{Wrote};

    ghost has_room = { λ log. (log.length < MAX_RECORDS) × (log.made < 2 ^ 64 - 1) };

    ghost wrote = { Wrote };

    fn write(&mut self, space: u32, call: &Call, reply: &Reply) -> Result<(), AllocError> {
        let _ = self.push(space, call, reply)?;
        Ok(())
    }
}
