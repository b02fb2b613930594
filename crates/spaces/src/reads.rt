ghost use Rattle.std.specs.Prelude.{◌≡◌, ℕ, ◌≤◌, ◌<◌, ◌↔◌, IsTrue, IsSome};
ghost use Rattle.std.specs.FinMap as map;
ghost use Rattle.ipc_model.specs.calls.PortCalls.{stands_elsewhere};
ghost use Rattle.ipc_model.specs.state.Ipc.{IsUnused, name_of_port};
ghost use Rattle.spaces.specs.Reading.{names_of};

use crate::Spaces;
use codes::{FIRST_NAME, MACH_PORT_DEAD, MACH_PORT_NULL};

/// Queries on the names of one space. A space that doesn't exist has none.
impl Spaces {
    /// Returns the number of names that a space has in use.
    pub fn name_count(&self, space: u32) -> usize
        ensures { result ≡ map.len (names_of self.now.current space) }
    {
        match self.table.names(space) {
            Some(names) => names.len(),
            None => 0,
        }
    }

    /// Returns the name under which a space holds a send or receive right of a port. If there were several, it would be
    /// the least one.
    pub fn name_of_port(&self, space: u32, port: u64) -> Option<u32>
        ensures { result ≡ name_of_port (names_of self.now.current space) port }
    {
        match self.table.names(space) {
            Some(names) => names.name_of_port(port),
            None => None,
        }
    }

    /// Returns true if a space holds a send or receive right of a port under another name than this one.
    pub fn stands_elsewhere(&self, space: u32, name: u32, port: u64) -> bool
        ensures { result ≡ stands_elsewhere (names_of self.now.current space) name port }
    {
        match self.table.names(space) {
            Some(names) => names.stands_elsewhere(name, port),
            None => false,
        }
    }

    /// Returns true if a name may be given to a right in a space: it is neither `MACH_PORT_NULL` nor `MACH_PORT_DEAD`,
    /// and isn't in use.
    pub fn is_unused(&self, space: u32, name: u32) -> bool
        ensures { IsTrue result ↔ IsUnused (names_of self.now.current space) name }
    {
        match self.table.names(space) {
            Some(names) => names.is_unused(name),
            None => is_a_name(name),
        }
    }

    /// Returns the least name from `FIRST_NAME` on that a space doesn't use. There is always one.
    pub fn free_name(&self, space: u32) -> u32
        ensures unused { IsUnused (names_of self.now.current space) result }
        ensures from { FIRST_NAME ≤ result }
        ensures least { (k : ℕ) → FIRST_NAME ≤ k → k < result → IsSome (map.get (names_of self.now.current space) k) }
    {
        match self.table.names(space) {
            Some(names) => names.free_name(),
            None => FIRST_NAME,
        }
    }
}

/// Returns true if this is neither `MACH_PORT_NULL` nor `MACH_PORT_DEAD`.
fn is_a_name(name: u32) -> bool
    ensures { IsTrue result ↔ ((0 < name) × (name < MACH_PORT_DEAD)) }
{
    name != MACH_PORT_NULL && name != MACH_PORT_DEAD
}
