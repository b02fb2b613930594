ghost use Rattle.std.specs.Prelude.{◌≡◌, ◌↔◌, ℕ, ◌<◌, IsTrue, map};
ghost use Rattle.snapshot.specs.Ascending.{AscendsFrom};

use crate::{LivePort, NamedEntry, Space};

/// A row with a number.
pub trait Numbered {
    ghost number: { Self → ℕ };

    /// Returns the row's number.
    fn number(&self) -> u64
        ensures { result ≡ number self.now };
}

impl Numbered for NamedEntry {
    ghost use Rattle.snapshot.specs.Ascending.{name_of};

    ghost number = { name_of };

    fn number(&self) -> u64 {
        u64::from(self.name)
    }
}

impl Numbered for Space {
    ghost use Rattle.snapshot.specs.Ascending.{number_of};

    ghost number = { number_of };

    fn number(&self) -> u64 {
        u64::from(self.number)
    }
}

impl Numbered for LivePort {
    ghost use Rattle.snapshot.specs.Ascending.{serial_of};

    ghost number = { serial_of };

    fn number(&self) -> u64 {
        self.serial
    }
}

/// Returns true if the numbers of rows ascend strictly, and the first is at least `from`.
pub fn ascends<T: Numbered>(rows: &[T], from: u64) -> bool
    ensures { IsTrue result ↔ AscendsFrom from (map T.number rows.now) }
{
    let mut at = u128::from(from);
    for row in rows {
        let number = u128::from(row.number());
        if number < at {
            return false;
        }
        at = number + 1;
    }
    true
}
