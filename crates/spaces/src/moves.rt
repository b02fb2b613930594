// Changes of a space that consist of several changes of its names.
ghost use Rattle.std.specs.Prelude.{◌≡◌, ◌≤◌, None, IfOk, OnOk, OnErr};
ghost use Rattle.std.specs.FinMap as map;
ghost use Rattle.codes.specs.declared.limits.TheConstants.{MAX_NAMES};
ghost use Rattle.port_space.specs.Renaming.{under_other_name};
ghost use Rattle.spaces.specs.Looking.{entry_in};
ghost use Rattle.spaces.specs.Reading.{names_of};
ghost use Rattle.spaces.specs.Slots.{names_changed, spaces_at_rest};

use crate::Spaces;
use ipc_model::Entry;
use std::alloc::AllocError;

impl Spaces {
    /// Moves the entry of one name of a space, if there is one, to another name, and returns it. If an allocation
    /// fails, the changes are rolled back.
    pub fn rename(&mut self, space: u32, from: u32, to: u32) -> Result<Option<Entry>, AllocError>
        requires unused { entry_in self.old.current space to ≡ None }
        ensures entry { IfOk result (λ entry. entry ≡ entry_in self.old.current space from) }
        ensures ok { OnOk result (self.new
            ≡ record self.old {
              current = names_changed self.old.current space
                  (λ names. under_other_name names from to);
            }) }
        ensures err { OnErr result (self.new ≡ spaces_at_rest self.old.before) }
    {
        self.show_names_few(space);
        let former = self.remove_name(space, from)?;
        let Some(entry) = former else {
            return Ok(None);
        };
        self.put_name(space, to, entry)?;
        Ok(Some(entry))
    }

    /// Proves that a space has at most `MAX_NAMES` names. It does nothing else.
    fn show_names_few(&self, space: u32)
        ensures { map.len (names_of self.now.current space) ≤ MAX_NAMES }
    {
        if let Some(names) = self.table.names(space) {
            names.show_names_few();
        }
    }

    /// Removes a space with all its names, if it exists. If an allocation fails, the changes are rolled back.
    pub fn remove(&mut self, space: u32) -> Result<(), AllocError>
        ensures ok { OnOk result (self.new ≡ record self.old { current = map.remove self.old.current space }) }
        ensures err { OnErr result (self.new ≡ spaces_at_rest self.old.before) }
    {
        let mut at: u64 = 0;
        while let Some((name, _)) = self.next_entry(space, at) {
            self.remove_name(space, name)?;
            at = u64::from(name) + 1;
        }
        self.close(space)
    }
}
