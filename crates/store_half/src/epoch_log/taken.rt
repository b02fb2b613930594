ghost use Rattle.std.specs.Prelude.{◌≡◌};
ghost use Rattle.journal.specs.Batch.{empty_batch};

use journal::Batch;
use std::marker::Model;

/// Records of one epoch that were taken to be stored. Only an epoch log creates them, and they can't be copied.
pub struct Taken {
    pub(crate) epoch: u64,
    pub(crate) batch: Batch,
}

// Written by hand, so that proofs of the crates above depend on one function instead of its parts.
impl Drop for Taken {
    fn drop(self) {
        let Taken { epoch: _, batch } = self;
        drop(batch);
    }
}

impl Model for Taken {
    ghost use Rattle.store_half.specs.epoch_log.Logs.{TakenValue, taken_code};

    ghost Value = { TakenValue };

    ghost coded = { taken_code };

    ghost view = { λ t. record { epoch = t.epoch; batch = t.batch } };
}

impl Taken {
    /// Creates a value without records. It keeps the memory of this batch.
    pub fn none(epoch: u64, empty: Batch) -> Self
        requires { empty ≡ empty_batch }
        ensures { result ≡ record { epoch = epoch; batch = empty_batch } }
    {
        Taken {
            epoch,
            batch: empty,
        }
    }

    /// Returns the epoch in whose segment they are stored.
    pub fn epoch(&self) -> u64
        ensures { result ≡ self.now.epoch }
    {
        self.epoch
    }

    /// Returns the number of records.
    pub fn count(&self) -> u32
        ensures { result ≡ self.now.batch.count }
    {
        self.batch.count()
    }

    /// Returns the records as they are stored.
    pub fn batch(&self) -> &Batch
        ensures { result.now ≡ self.now.batch }
    {
        &self.batch
    }

    /// Returns an empty batch with the memory of this one.
    pub fn into_empty(self) -> Batch
        ensures { result ≡ empty_batch }
    {
        let Taken {
            epoch: _,
            mut batch,
        } = self;
        batch.clear();
        batch
    }
}
