ghost use Rattle.std.specs.Prelude.{◌≡◌, ℕ, ◌<◌, ◌↔◌, IsTrue, IsSome, OnOk, OnErr, None};
ghost use Rattle.std.specs.FinMap as map;
ghost use Rattle.ipc_model.specs.calls.Actions.{IsUnusedSpace};
ghost use Rattle.ipc_model.specs.state.Ipc.{Names, with_names};
ghost use Rattle.ipc_state.specs.Running.{at_rest};

use crate::IpcState;
use codes::MAX_SPACES;
use std::alloc::AllocError;

/// The spaces: queries and changes.
impl IpcState {
    /// Returns the number of spaces.
    pub fn space_count(&self) -> usize
        ensures { result ≡ map.len self.now.current.spaces }
    {
        self.spaces.len()
    }

    /// Returns true if a space may be added under a number: it is from 1 to `MAX_SPACES`, and unused.
    pub fn is_unused_space(&self, number: u32) -> bool
        ensures { IsTrue result ↔ IsUnusedSpace self.now.current number }
    {
        0 < number && number as usize <= MAX_SPACES && !self.spaces.contains(number)
    }

    /// Returns the least unused number of a space. There is one while there are fewer spaces than `MAX_SPACES`.
    pub fn free_space(&self) -> u32
        requires room { map.len self.now.current.spaces < MAX_SPACES }
        ensures unused { IsUnusedSpace self.now.current result }
        ensures least { (k : ℕ) → 0 < k → k < result → IsSome (map.get self.now.current.spaces k) }
    {
        self.spaces.free_number()
    }

    /// Adds a space without names under an unused number. If an allocation fails, the changes are rolled back.
    pub fn add_space(&mut self, number: u32) -> Result<(), AllocError>
        requires unused { map.get self.old.current.spaces number ≡ None }
        requires room { map.len self.old.current.spaces < MAX_SPACES }
        ensures ok { OnOk result (self.new
            ≡ record self.old { current = with_names self.old.current number map.empty }) }
        ensures err { OnErr result (self.new ≡ at_rest self.old.before) }
    {
        match self.spaces.add(number) {
            Ok(()) => Ok(()),
            Err(error) => {
                self.ports.roll_back();
                self.members.roll_back();
                Err(error)
            }
        }
    }

    /// Removes a space with all its names, if it exists. If an allocation fails, the changes are rolled back.
    pub fn remove_space(&mut self, number: u32) -> Result<(), AllocError>
        ensures ok { OnOk result (self.new
            ≡ record self.old {
              current = record self.old.current
                  { spaces = map.remove self.old.current.spaces number };
            }) }
        ensures err { OnErr result (self.new ≡ at_rest self.old.before) }
    {
        // The walk ascends: each removed name leaves a mark, which a walk from the start would pass again.
        let mut at: u64 = 0;
        while let Some((name, _)) = self.spaces.next_entry(number, at) {
            self.remove_name(number, name)?;
            at = u64::from(name) + 1;
        }
        self.close_space(number)
    }

    /// Removes a space without names, if it exists. If an allocation fails, the changes are rolled back.
    fn close_space(&mut self, number: u32) -> Result<(), AllocError>
        requires empty { (names : Names) → map.get self.old.current.spaces number ≡ Some names → names ≡ map.empty }
        ensures ok { OnOk result (self.new
            ≡ record self.old {
              current = record self.old.current
                  { spaces = map.remove self.old.current.spaces number };
            }) }
        ensures err { OnErr result (self.new ≡ at_rest self.old.before) }
    {
        match self.spaces.close(number) {
            Ok(()) => Ok(()),
            Err(error) => {
                self.ports.roll_back();
                self.members.roll_back();
                Err(error)
            }
        }
    }
}
