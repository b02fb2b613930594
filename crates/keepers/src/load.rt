use history::{Founding, Past};
use std::marker::Model;
use store_half::{Cut, Taken};

/// Records of one epoch that were taken to be stored, with the history up to them. It can't be copied.
#[derive(Drop)]
pub struct Load<L: Founding> {
    pub taken: Taken,
    pub past: Past<L>,

    // Where the first one stands in the history, and its number in the epoch.
    pub first: u64,
    pub number: u64,
}

impl<L: Founding> Model for Load<L> {
    ghost use Rattle.keepers.specs.Storing.{LoadValue, IsLoad, load_code};

    ghost Value = { LoadValue };

    ghost coded = { load_code };

    ghost view = { λ l. record {
      epoch = l.taken.epoch;
      batch = l.taken.batch;
      entries = l.past.entries;
      first = l.first;
      number = l.number;
    } };

    ghost invariant = { λ l. IsLoad L.base (record {
      epoch = l.taken.epoch;
      batch = l.taken.batch;
      entries = l.past.entries;
      first = l.first;
      number = l.number;
    }) };
}

/// The state at the end of an epoch, from which an image is to be made, with the history up to it. It can't be copied.
#[derive(Drop)]
pub struct End<L: Founding> {
    pub cut: Cut,

    // The epoch that begins with it.
    pub epoch: u64,
    pub past: Past<L>,

    // How many records led to it.
    pub earlier: u64,
}

impl<L: Founding> Model for End<L> {
    ghost use Rattle.std.specs.Prelude.{◌≡◌};
    ghost use Rattle.keepers.specs.Storing.{EndValue, IsEnd, end_code};

    ghost Value = { EndValue };

    ghost coded = { end_code };

    ghost view = { λ e. record { cut = e.cut; entries = e.past.entries; earlier = e.earlier } };

    ghost invariant = { λ e. (e.cut.epoch ≡ e.epoch)
        × IsEnd L.base (record { cut = e.cut; entries = e.past.entries; earlier = e.earlier }) };
}
