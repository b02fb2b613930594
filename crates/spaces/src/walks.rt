// The names of a space in their order.
ghost use Rattle.std.specs.Prelude.{◌≡◌, ◌<◌, ◌^◌, IfOk, IfSome};
ghost use Rattle.std.specs.FinMap as map;
ghost use Rattle.port_space.specs.Walking.{IsNextEntry};
ghost use Rattle.spaces.specs.Reading.{names_of};

use crate::Spaces;
use ipc_model::Entry;
use std::alloc::{AllocError, Global};

impl Spaces {
    /// Returns the least name of a space from `from` on, with its entry.
    pub fn next_entry(&self, space: u32, from: u64) -> Option<(u32, Entry)>
        ensures next { IsNextEntry (names_of self.now.current space) from result }
        ensures fits { IfSome result (λ e. e.0 < 2 ^ 32) }
    {
        match self.table.names(space) {
            Some(names) => names.next_entry(from),
            None => None,
        }
    }

    /// Returns the names that a space has in use, in ascending order, each with its entry.
    pub fn entries(&self, alloc: Global, space: u32) -> Result<Vec<(u32, Entry)>, AllocError>
        ensures { IfOk result (λ entries. entries.items ≡ map.entries (names_of self.now.current space)) }
    {
        let mut entries = Vec::new(alloc);
        let mut at: u64 = 0;
        while let Some((name, entry)) = self.next_entry(space, at) {
            entries.push((name, entry))?;
            at = u64::from(name) + 1;
        }
        Ok(entries)
    }
}
