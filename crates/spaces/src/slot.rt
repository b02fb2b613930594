ghost use Rattle.std.specs.Prelude.{◌≡◌, ◌<◌, None, Some, IfOk, OnOk, OnErr, IfSome, is_some, option_map, option_and_then, option_copied};
ghost use Rattle.std.specs.FinMap as map;
ghost use Rattle.codes.specs.declared.limits.TheConstants.{MAX_NAMES};
ghost use Rattle.ipc_model.specs.state.Ipc.{Names};
ghost use Rattle.port_space.specs.References.{AreFewReferences};
ghost use Rattle.spaces.specs.Slots.{slot_at_rest};

use ipc_model::Entry;
use port_space::PortSpace;
use std::alloc::{AllocError, Global};
use std::marker::Model;

/// A slot for a space, which may be empty. Changes are committed or rolled back.
#[derive(Drop)]
pub(crate) struct Space {
    names: PortSpace,
    is_there: bool,
    was_there: bool,
}

impl Model for Space {
    ghost use Rattle.std.specs.Prelude.{◌≡◌, false, None, Some, if◌then◌else◌};
    ghost use Rattle.std.specs.FinMap as map;
    ghost use Rattle.spaces.specs.Slots.{SpaceSlot, slot_code};

    ghost Value = { SpaceSlot };

    ghost coded = { slot_code };

    ghost view = { λ s. record {
      before = if s.was_there then Some s.names.before else None;
      current = if s.is_there then Some s.names.current else None;
    } };

    // A space that doesn't exist has no names.
    ghost invariant = { λ s. (s.was_there ≡ false → s.names.before ≡ map.empty)
        × (s.is_there ≡ false → s.names.current ≡ map.empty) };
}

impl Space {
    /// Creates an empty slot. It allocates nothing.
    pub(crate) fn new(alloc: Global) -> Self
        ensures { result ≡ slot_at_rest None }
    {
        Space {
            names: PortSpace::new(alloc),
            is_there: false,
            was_there: false,
        }
    }

    /// Returns the names of the space, if it exists.
    pub(crate) fn names(&self) -> Option<&PortSpace>
        ensures { option_map (λ names. names.current) (option_copied result) ≡ self.now.current }
    {
        self.is_there.then_some(&self.names)
    }

    /// Returns true if the space exists.
    pub(crate) fn is_there(&self) -> bool
        ensures { result ≡ is_some self.now.current }
    {
        self.is_there
    }

    /// Returns true if the space existed at the last commit or rollback.
    pub(crate) fn was_there(&self) -> bool
        ensures { result ≡ is_some self.now.before }
    {
        self.was_there
    }

    /// Adds a space without names to an empty slot.
    pub(crate) fn open(&mut self)
        requires { self.old.current ≡ None }
        ensures { self.new ≡ record self.old { current = Some map.empty } }
    {
        self.is_there = true;
    }

    /// Removes the space, which has no names.
    pub(crate) fn close(&mut self)
        requires { (names : Names) → self.old.current ≡ Some names → names ≡ map.empty }
        ensures { self.new ≡ record self.old { current = None } }
    {
        self.is_there = false;
    }

    /// Replaces the entry of a name, if the space exists, and returns the former one. If an allocation fails, the
    /// changes are rolled back.
    pub(crate) fn put(&mut self, name: u32, entry: Entry) -> Result<Option<Entry>, AllocError>
        requires room { (names : Names) → self.old.current ≡ Some names → map.get names name ≡ None
            → map.len names < MAX_NAMES }
        requires few { AreFewReferences entry }
        ensures former { IfOk result (λ former. former ≡ option_and_then
            (λ names. map.get names name) self.old.current) }
        ensures ok { OnOk result (self.new
            ≡ record self.old { current = option_map (λ names. map.insert names name entry) self.old.current }) }
        ensures err { OnErr result (self.new ≡ slot_at_rest self.old.before) }
    {
        if !self.is_there {
            return Ok(None);
        }
        match self.names.put(name, entry) {
            Ok(former) => Ok(former),
            Err(error) => {
                self.is_there = self.was_there;
                Err(error)
            }
        }
    }

    /// Removes a name, and returns its entry. If an allocation fails, the changes are rolled back.
    pub(crate) fn remove(&mut self, name: u32) -> Result<Option<Entry>, AllocError>
        ensures former { IfOk result (λ former. former ≡ option_and_then
            (λ names. map.get names name) self.old.current) }
        ensures few { IfOk result (λ former. IfSome former AreFewReferences) }
        ensures ok { OnOk result (self.new
            ≡ record self.old { current = option_map (λ names. map.remove names name) self.old.current }) }
        ensures err { OnErr result (self.new ≡ slot_at_rest self.old.before) }
    {
        if !self.is_there {
            return Ok(None);
        }
        match self.names.remove(name) {
            Ok(former) => Ok(former),
            Err(error) => {
                self.is_there = self.was_there;
                Err(error)
            }
        }
    }

    /// Commits the changes. It allocates nothing.
    pub(crate) fn commit(&mut self)
        ensures { self.new ≡ slot_at_rest self.old.current }
    {
        self.names.commit();
        self.was_there = self.is_there;
    }

    /// Rolls the changes back. It allocates nothing.
    pub(crate) fn roll_back(&mut self)
        ensures { self.new ≡ slot_at_rest self.old.before }
    {
        self.names.roll_back();
        self.is_there = self.was_there;
    }
}
