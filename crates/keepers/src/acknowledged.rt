ghost use Rattle.std.specs.Prelude.{◌≡◌, ◌≤◌, max};

use history::{Founding, Mark, Stored};
use std::marker::Model;

/// How many records were acknowledged to a session: no more than are known to be stored. Contracts see how many.
#[derive(Drop)]
pub(crate) struct Acknowledged<L: Founding> {
    count: u64,
    stored: Stored<L>,
}

impl<L: Founding> Model for Acknowledged<L> {
    ghost use Rattle.std.specs.Prelude.{◌≤◌, ℕ};

    ghost Value = { ℕ };

    ghost view = { λ a. a.count };

    ghost invariant = { λ a. a.count ≤ a.stored };
}

impl<L: Founding> Acknowledged<L> {
    /// None yet.
    pub(crate) fn none(stored: Stored<L>) -> Self
        ensures { result ≡ 0 }
    {
        Acknowledged { count: 0, stored }
    }

    /// Returns how many were.
    pub(crate) fn count(&self) -> u64
        ensures { result ≡ self.now }
    {
        self.count
    }

    /// A reply that saw this many records is acknowledged, which are stored.
    pub(crate) fn add(&mut self, seen: u64, stored: Stored<L>)
        requires { seen ≤ stored }
        ensures { self.new ≡ max self.old seen }
    {
        if seen <= self.count {
            return;
        }
        self.count = seen;
        self.stored = stored;
    }

    /// That as many are stored.
    pub(crate) fn stored(&mut self, mark: &Mark<L>) -> Stored<L>
        ensures same { self.new ≡ self.old }
        ensures stored { self.old ≤ result }
    {
        self.stored.again(mark)
    }
}
