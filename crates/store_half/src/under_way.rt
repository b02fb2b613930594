ghost use Rattle.std.specs.Prelude.{◌≡◌};
ghost use Rattle.image.specs.Rows.{snapshot_encoding};
ghost use Rattle.store_half.specs.Values.{begun};

use checkpoint::Image;
use snapshot::Snapshot;
use std::marker::Model;

/// The end of an epoch: a snapshot of the state after its whole epoch log. It can't be copied.
#[derive(Drop)]
pub struct Cut {
    snapshot: Snapshot,
    epoch: u64,
    log: u64,
}

impl Model for Cut {
    ghost use Rattle.image.specs.Rows.{snapshot_encoding};
    ghost use Rattle.store_half.specs.Values.{CutValue, cut_code};

    ghost Value = { CutValue };

    ghost coded = { cut_code };

    ghost view = { λ c. record { epoch = c.epoch; log = c.log; encoding = snapshot_encoding c.snapshot } };
}

impl Cut {
    /// Creates the end of an epoch whose log has `log` records. The next epoch, `epoch`, begins with this state.
    pub fn new(snapshot: Snapshot, epoch: u64, log: u64) -> Self
        ensures { result ≡ record { epoch = epoch; log = log; encoding = snapshot_encoding snapshot } }
    {
        Cut {
            snapshot,
            epoch,
            log,
        }
    }
}

/// The source of the next image: the snapshot and, once its slot is closed, the image in memory.
#[derive(Drop)]
pub(crate) enum Making {
    Cut(Snapshot),
    Image(Image),
}

/// A checkpoint under way.
#[derive(Drop)]
pub(crate) struct Checkpoint {
    pub(crate) epoch: u64,
    pub(crate) log: u64,
    pub(crate) rolled: u32,
    pub(crate) making: Making,
}

impl Model for Checkpoint {
    ghost use Rattle.store_half.specs.Values.{CheckpointValue, IsOfEpoch, checkpoint_code, imaged_of, encoding_of};

    ghost Value = { CheckpointValue };

    ghost coded = { checkpoint_code };

    ghost view = { λ c. record {
      epoch = c.epoch;
      log = c.log;
      rolled = c.rolled;
      encoding = encoding_of c.making;
      imaged = imaged_of c.making;
    } };

    ghost invariant = { λ c. IsOfEpoch c.epoch c.making };
}

impl Checkpoint {
    /// Creates a checkpoint with no step done.
    pub(crate) fn new(cut: Cut) -> Self
        ensures { result ≡ begun cut }
    {
        let Cut {
            snapshot,
            epoch,
            log,
        } = cut;
        Checkpoint {
            epoch,
            log,
            rolled: 0,
            making: Making::Cut(snapshot),
        }
    }
}
