ghost use Rattle.std.specs.Prelude.{◌≡◌};
ghost use Rattle.journal.specs.Batch.{empty_batch};

use crate::epoch_log::Taken;
use journal::Batch;
use std::marker::Model;

/// Proof that a batch is stored. Only an append creates it, and it can't be copied.
#[derive(Drop)]
pub struct Receipt {
    pub(crate) taken: Taken,
}

impl Model for Receipt {
    ghost use Rattle.std.specs.Prelude.{ℕ};
    ghost use Rattle.std.specs.Coded.{coded_ℕ};

    ghost Value = { ℕ };

    ghost coded = { coded_ℕ };

    // The number of records in the batch.
    ghost view = { λ r. r.taken.batch.count };
}

impl Receipt {
    /// Returns the number of records that are stored.
    pub fn count(&self) -> u32
        ensures { result ≡ self.now }
    {
        self.taken.count()
    }

    /// Returns an empty batch with the memory of the one that was stored.
    pub fn into_empty(self) -> Batch
        ensures { result ≡ empty_batch }
    {
        let Receipt { taken } = self;
        taken.into_empty()
    }
}

/// Proof that an epoch's image is whole, so that the checkpoint is over. Only the last step of a checkpoint creates it,
/// and it can't be copied.
#[derive(Drop)]
pub struct Finished {
    pub(crate) epoch: u64,
}

impl Model for Finished {
    ghost use Rattle.std.specs.Prelude.{ℕ};
    ghost use Rattle.std.specs.Coded.{coded_ℕ};

    ghost Value = { ℕ };

    ghost coded = { coded_ℕ };

    // The epoch of the image.
    ghost view = { λ f. f.epoch };
}

impl Finished {
    /// Returns the epoch that begins with the image.
    pub fn epoch(&self) -> u64
        ensures { result ≡ self.now }
    {
        self.epoch
    }
}
