//! A walk over the spaces by their numbers.
ghost use Rattle.std.specs.Prelude.{◌≡◌, ℕ, ◌≤◌, ◌<◌, ◌^◌, None, IfSome, MatchOption, is_some, option_and_then};
ghost use Rattle.std.specs.FinMap as map;
ghost use Rattle.spaces.specs.NextSpace.{IsNextSpace};
ghost use Rattle.spaces.specs.Slots.{is};
ghost use Rattle.tracked_map.specs.Slots.{picked};

use crate::Spaces;
use crate::slot::Space;
use crate::table::SpaceTable;
use number_table::NumberTable;

impl Spaces {
    /// Returns the least number from `from` on that belongs to a space. Spaces that were removed since the last commit
    /// are skipped.
    pub fn next_space(&self, from: u64) -> Option<u32>
        ensures { IsNextSpace self.now.current from result }
    {
        self.table.next_space(from)
    }
}

impl SpaceTable {
    /// Returns the least number from `from` on that belongs to a space. Spaces that were removed since the last commit
    /// are skipped.
    pub fn next_space(&self, from: u64) -> Option<u32>
        ensures { IsNextSpace self.now.current from result }
    {
        next_there(&self.slots, from)
    }
}

/// Returns the least number from `from` on whose slot has a space.
fn next_there(slots: &NumberTable<Space>, from: u64) -> Option<u32>
    ensures { IsNextSpace (picked is slots.now) from result }
{
    let mut at = from;
    while let Some((number, is_there)) = next_slot(slots, at) {
        if is_there {
            return Some(number);
        }
        at = u64::from(number) + 1;
    }
    None
}

/// Returns the least number from `from` on that fits a word and has a slot, and true if there is a space in it.
fn next_slot(slots: &NumberTable<Space>, from: u64) -> Option<(u32, bool)>
    ensures slot { MatchOption result ((number : ℕ) → from ≤ number → number < 2 ^ 32 → map.get slots.now number ≡ None)
        (λ e. (from ≤ e.0) × (e.1 ≡ is_some (option_and_then is (map.get slots.now e.0)))
        × ((number : ℕ) → from ≤ number → number < e.0 → map.get slots.now number ≡ None)) }
    ensures fits { IfSome result (λ e. e.0 < 2 ^ 32) }
{
    let Some((key, slot)) = slots.next_from(from) else {
        return None;
    };
    let Ok(number) = u32::try_from(key) else {
        return None;
    };
    Some((number, slot.is_there()))
}
