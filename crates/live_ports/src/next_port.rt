//! A walk over the live ports by their serials.
ghost use Rattle.std.specs.Prelude.{◌≡◌, ℕ, ◌≤◌, ◌<◌, ◌-◌, ◌^◌, None, IfSome, MatchOption};
ghost use Rattle.std.specs.FinMap as map;
ghost use Rattle.live_ports.specs.NextPort.{IsNextPort, IsNextWord};
ghost use Rattle.live_ports.specs.Tables.{present_ports};

use crate::LivePorts;
use crate::slots::PortSlots;
use crate::tables::Tables;

impl LivePorts {
    /// Returns the least serial from `from` on that belongs to a live port. Ports that died since the last commit are
    /// skipped.
    pub fn next_port(&self, from: u64) -> Option<u64>
        ensures next { IsNextPort self.now.current.ports from result }
        ensures fits { IfSome result (λ serial. serial < 2 ^ 64 - 1) }
    {
        // All serials are below the next one, which fits a word.
        let _next = self.tables.next;
        self.tables.next_port(from)
    }
}

impl Tables {
    /// Returns the least serial from `from` on that fits a word and belongs to a live port.
    pub(crate) fn next_port(&self, from: u64) -> Option<u64>
        ensures { IsNextWord (present_ports self.now.slots) from result }
    {
        let mut at = u128::from(from);
        while let Some(serial) = next_slot(&self.slots, at) {
            if self.contains(serial) {
                return Some(serial);
            }
            at = u128::from(serial) + 1;
        }
        None
    }
}

/// Returns the least serial from `from` on that fits a word and may have a slot. No serial in between has one.
fn next_slot(slots: &PortSlots, from: u128) -> Option<u64>
    ensures slot { MatchOption result ((serial : ℕ) → from ≤ serial → serial < 2 ^ 64 → map.get slots.now serial ≡ None)
        (λ next. (from ≤ next) × ((serial : ℕ) → from ≤ serial → serial < next → map.get slots.now serial ≡ None)) }
    ensures fits { IfSome result (λ next. next < 2 ^ 64) }
{
    let Some(serial) = slots.next_serial(from) else {
        return None;
    };
    u64::try_from(serial).ok()
}
