ghost use Rattle.std.specs.Prelude.{◌≡◌, ◌+◌, ◌-◌, ◌<◌, ◌^◌, OnOk, OnErr};
ghost use Rattle.std.specs.FinMap as map;
ghost use Rattle.port_indexes.specs.Counts.{count_at, key, with_count, IsLeast};
ghost use Rattle.port_indexes.specs.Rights.{right_fewer, right_more};
ghost use Rattle.tracked_map.specs.Tracked.{at_rest};

use ipc_model::RightKind;
use std::alloc::{AllocError, Global};
use std::marker::Model;
use tracked_map::TrackedMap;

/// Maximum count.
const MAX_COUNT: u64 = (1 << 63) - 1;

/// Counts by pairs of numbers, whose changes are committed or rolled back. Contracts see the counts other than 0, with
/// each pair as one number, at the last commit or rollback and now.
#[derive(Drop)]
pub struct PairCounts {
    counts: TrackedMap<u64>,
}

impl Model for PairCounts {
    ghost use Rattle.std.specs.Coded.{coded_ℕ};
    ghost use Rattle.std.specs.Prelude.{ℕ};
    ghost use Rattle.port_indexes.specs.Counts.{ArePositive};
    ghost use Rattle.tracked_map.specs.Tracked.{Tracked, tracked_code};

    ghost Value = { Tracked ℕ };

    ghost coded = { tracked_code coded_ℕ };

    ghost view = { λ c. c.counts };

    ghost invariant = { λ c. ArePositive c.counts.before × ArePositive c.counts.current };
}

impl PairCounts {
    /// Creates counts that are all 0. It allocates nothing.
    pub fn new(alloc: Global) -> Self
        ensures { result ≡ at_rest map.empty }
    {
        PairCounts {
            counts: TrackedMap::new(alloc),
        }
    }

    /// Returns the count of a pair.
    pub fn count(&self, first: u64, second: u64) -> u64
        ensures value { result ≡ count_at self.now.current first second }
        ensures few { result < 2 ^ 63 }
    {
        match self.counts.get(key(first, second)) {
            Some(count) => *count,
            None => 0,
        }
    }

    /// Returns the least second number of the pairs with this first number whose count isn't 0.
    pub fn least(&self, first: u64) -> Option<u64>
        ensures { IsLeast self.now.current first result }
    {
        // The walk ends with the pairs of this first number, because those of others may have left many marks.
        let last = key(first, u64::MAX);
        let Some((found, _)) = self.counts.next_within(key(first, 0), last) else {
            return None;
        };
        Some((found - key(first, 0)) as u64)
    }

    /// Increments the count of a pair. If an allocation fails, or the count is 2^63 - 1 already, the changes are rolled
    /// back.
    pub fn add(&mut self, first: u64, second: u64) -> Result<(), AllocError>
        ensures ok { OnOk result (self.new
            ≡ record self.old {
              current = with_count self.old.current first second
                  (count_at self.old.current first second + 1);
            }) }
        ensures err { OnErr result (self.new ≡ at_rest self.old.before) }
    {
        let count = self.count(first, second);
        if count == MAX_COUNT {
            self.roll_back();
            return Err(AllocError);
        }
        self.set(first, second, count + 1)
    }

    /// Decrements the count of a pair, if it isn't 0. If an allocation fails, the changes are rolled back.
    pub fn subtract(&mut self, first: u64, second: u64) -> Result<(), AllocError>
        ensures ok { OnOk result (self.new
            ≡ record self.old {
              current = with_count self.old.current first second
                  (count_at self.old.current first second - 1);
            }) }
        ensures err { OnErr result (self.new ≡ at_rest self.old.before) }
    {
        let count = self.count(first, second);
        self.set(first, second, count.saturating_sub(1))
    }

    /// Sets the count of a pair to 0. If an allocation fails, the changes are rolled back.
    pub fn clear(&mut self, first: u64, second: u64) -> Result<(), AllocError>
        ensures ok { OnOk result (self.new ≡ record self.old { current = with_count self.old.current first second 0 }) }
        ensures err { OnErr result (self.new ≡ at_rest self.old.before) }
    {
        self.set(first, second, 0)
    }

    /// Adds a right of this kind to this port to the counts. Receive rights aren't counted. If an allocation fails, the
    /// changes are rolled back.
    pub fn add_right(&mut self, kind: RightKind, port: u64) -> Result<(), AllocError>
        ensures ok { OnOk result (self.new ≡ record self.old { current = right_more self.old.current kind port }) }
        ensures err { OnErr result (self.new ≡ at_rest self.old.before) }
    {
        match kind {
            RightKind::Send => self.add(0, port),
            RightKind::SendOnce => self.add(1, port),
            RightKind::Receive => Ok(()),
        }
    }

    /// Subtracts a right of this kind to this port from the counts. If an allocation fails, the changes are rolled
    /// back.
    pub fn subtract_right(&mut self, kind: RightKind, port: u64) -> Result<(), AllocError>
        ensures ok { OnOk result (self.new ≡ record self.old { current = right_fewer self.old.current kind port }) }
        ensures err { OnErr result (self.new ≡ at_rest self.old.before) }
    {
        match kind {
            RightKind::Send => self.subtract(0, port),
            RightKind::SendOnce => self.subtract(1, port),
            RightKind::Receive => Ok(()),
        }
    }

    /// Returns the number of send rights to a port.
    pub fn sends(&self, port: u64) -> u64
        ensures value { result ≡ count_at self.now.current 0 port }
        ensures few { result < 2 ^ 63 }
    {
        self.count(0, port)
    }

    /// Returns the number of send-once rights to a port.
    pub fn send_onces(&self, port: u64) -> u64
        ensures value { result ≡ count_at self.now.current 1 port }
        ensures few { result < 2 ^ 63 }
    {
        self.count(1, port)
    }

    /// Sets the count of a pair.
    fn set(&mut self, first: u64, second: u64, count: u64) -> Result<(), AllocError>
        requires few { count < 2 ^ 63 }
        ensures ok { OnOk result (self.new
            ≡ record self.old { current = with_count self.old.current first second count }) }
        ensures err { OnErr result (self.new ≡ at_rest self.old.before) }
    {
        match write(&mut self.counts, first, second, count) {
            Ok(()) => Ok(()),
            Err(error) => {
                self.counts.roll_back();
                Err(error)
            }
        }
    }

    /// Commits the changes. It allocates nothing.
    pub fn commit(&mut self)
        ensures { self.new ≡ at_rest self.old.current }
    {
        self.counts.commit();
    }

    /// Rolls the changes back. It allocates nothing.
    pub fn roll_back(&mut self)
        ensures { self.new ≡ at_rest self.old.before }
    {
        self.counts.roll_back();
    }
}

/// Returns a pair as one number.
fn key(first: u64, second: u64) -> u128
    ensures key { result ≡ key first second }
    ensures fits { result < 2 ^ 128 }
{
    u128::from(first) * (1 << 64) + u128::from(second)
}

fn write(
    counts: &mut TrackedMap<u64>,
    first: u64,
    second: u64,
    count: u64,
) -> Result<(), AllocError>
    ensures ok { OnOk result (counts.new
        ≡ record counts.old { current = with_count counts.old.current first second count }) }
    ensures err { OnErr result (counts.new ≡ counts.old) }
{
    if count == 0 {
        counts.remove(key(first, second))
    } else {
        counts.set(key(first, second), count)
    }
}
