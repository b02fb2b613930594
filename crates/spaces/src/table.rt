ghost use Rattle.std.specs.Prelude.{◌≡◌, ◌<◌, ◌^◌, None, Some, IfOk, OnOk, OnErr, IfSome, is_some, option_map, option_copied};
ghost use Rattle.std.specs.FinMap as map;
ghost use Rattle.codes.specs.declared.limits.TheConstants.{MAX_NAMES, MAX_SPACES};
ghost use Rattle.ipc_model.specs.state.Ipc.{Names};
ghost use Rattle.port_space.specs.References.{AreFewReferences};
ghost use Rattle.spaces.specs.Looking.{entry_in};
ghost use Rattle.spaces.specs.Numbers.{IsFreeNumber};
ghost use Rattle.spaces.specs.Slots.{spaces_at_rest, names_changed};

use crate::numbers::Numbers;
use crate::slot::Space;
use crate::slots::{close_at, commit_slots, open_at, put_at, remove_at, roll_slots_back};
use ipc_model::Entry;
use number_table::NumberTable;
use port_space::PortSpace;
use std::alloc::{AllocError, Global};
use std::marker::Model;

/// The spaces with their names. Changes are committed or rolled back. Contracts see the spaces at the last commit or
/// rollback, and the current ones. A change whose allocation fails rolls all changes back.
#[derive(Drop)]
pub struct SpaceTable {
    alloc: Global,
    pub(crate) slots: NumberTable<Space>,
    /// The numbers of the slots that may have changed.
    touched: Vec<u32>,
    count: usize,
    count_before: usize,
    numbers: Numbers,
    numbers_before: Numbers,
}

impl Model for SpaceTable {
    ghost use Rattle.std.specs.Prelude.{◌≡◌};
    ghost use Rattle.std.specs.FinMap as map;
    ghost use Rattle.spaces.specs.Numbers.{AreTaken};
    ghost use Rattle.spaces.specs.Slots.{TrackedSpaces, spaces_code, was, is};
    ghost use Rattle.tracked_map.specs.Slots.{picked};
    ghost use Rattle.tracked_map.specs.Touched.{AreTouched};

    ghost Value = { TrackedSpaces };

    ghost coded = { spaces_code };

    ghost view = { λ t. record { before = picked was t.slots; current = picked is t.slots } };

    ghost invariant = { λ t.
        AreTouched was is t.slots t.touched.items × (t.count ≡ map.len (picked is t.slots))
        × (t.count_before ≡ map.len (picked was t.slots))
        × AreTaken t.numbers (picked is t.slots) × AreTaken t.numbers_before (picked was t.slots) };
}

impl SpaceTable {
    /// Creates a table without spaces. It allocates nothing.
    pub fn new(alloc: Global) -> Self
        ensures { result ≡ spaces_at_rest map.empty }
    {
        SpaceTable {
            alloc,
            slots: NumberTable::new(alloc),
            touched: Vec::new(alloc),
            count: 0,
            count_before: 0,
            numbers: Numbers::new(),
            numbers_before: Numbers::new(),
        }
    }

    /// Returns the number of spaces.
    pub fn len(&self) -> usize
        ensures { result ≡ map.len self.now.current }
    {
        self.count
    }

    /// Returns true if a space exists.
    pub fn contains(&self, space: u32) -> bool
        ensures { result ≡ is_some (map.get self.now.current space) }
    {
        self.names(space).is_some()
    }

    /// Returns the names of a space, if it exists.
    pub fn names(&self, space: u32) -> Option<&PortSpace>
        ensures { option_map (λ names. names.current) (option_copied result) ≡ map.get self.now.current space }
    {
        match self.slots.get(space) {
            Some(slot) => slot.names(),
            None => None,
        }
    }

    /// Returns the least unused number of a space. There is one while there are fewer spaces than `MAX_SPACES`.
    pub fn free_number(&self) -> u32
        requires room { map.len self.now.current < MAX_SPACES }
        ensures { IsFreeNumber self.now.current result }
    {
        self.numbers.first_free() + 1
    }

    /// Adds a space without names under an unused number. If an allocation fails, the changes are rolled back.
    pub fn add(&mut self, space: u32) -> Result<(), AllocError>
        requires absent { map.get self.old.current space ≡ None }
        requires room { map.len self.old.current < 2 ^ 32 }
        ensures ok { OnOk result (self.new
            ≡ record self.old { current = map.insert self.old.current space map.empty }) }
        ensures err { OnErr result (self.new ≡ spaces_at_rest self.old.before) }
    {
        if self.touched.reserve(1).is_err() {
            self.roll_back();
            return Err(AllocError);
        }
        match open_at(self.alloc, &mut self.slots, space) {
            Ok(()) => {
                self.touched.push_reserved(space);
                self.count += 1;
                self.numbers.add(space);
                Ok(())
            }
            Err(error) => {
                self.roll_back();
                Err(error)
            }
        }
    }

    /// Replaces the entry of a name in a space, if the space exists, and returns the former one. If an allocation
    /// fails, the changes are rolled back.
    pub fn put(&mut self, space: u32, name: u32, entry: Entry) -> Result<Option<Entry>, AllocError>
        requires room { (names : Names) → map.get self.old.current space ≡ Some names → map.get names name ≡ None
            → map.len names < MAX_NAMES }
        requires few { AreFewReferences entry }
        ensures former { IfOk result (λ former. former ≡ entry_in self.old.current space name) }
        ensures ok { OnOk result (self.new
            ≡ record self.old {
              current = names_changed self.old.current space
                  (λ names. map.insert names name entry);
            }) }
        ensures err { OnErr result (self.new ≡ spaces_at_rest self.old.before) }
    {
        if self.touched.reserve(1).is_err() {
            self.roll_back();
            return Err(AllocError);
        }
        match put_at(&mut self.slots, space, name, entry) {
            Ok(former) => {
                self.touched.push_reserved(space);
                Ok(former)
            }
            Err(error) => {
                roll_slots_back(&mut self.slots, self.touched.as_slice());
                self.touched.clear();
                self.count = self.count_before;
                self.numbers = self.numbers_before;
                Err(error)
            }
        }
    }

    /// Removes a name from a space, and returns its entry. If an allocation fails, the changes are rolled back.
    pub fn remove(&mut self, space: u32, name: u32) -> Result<Option<Entry>, AllocError>
        ensures former { IfOk result (λ former. former ≡ entry_in self.old.current space name) }
        ensures few { IfOk result (λ former. IfSome former AreFewReferences) }
        ensures ok { OnOk result (self.new
            ≡ record self.old { current = names_changed self.old.current space (λ names. map.remove names name) }) }
        ensures err { OnErr result (self.new ≡ spaces_at_rest self.old.before) }
    {
        if self.touched.reserve(1).is_err() {
            self.roll_back();
            return Err(AllocError);
        }
        match remove_at(&mut self.slots, space, name) {
            Ok(former) => {
                self.touched.push_reserved(space);
                Ok(former)
            }
            Err(error) => {
                roll_slots_back(&mut self.slots, self.touched.as_slice());
                self.touched.clear();
                self.count = self.count_before;
                self.numbers = self.numbers_before;
                Err(error)
            }
        }
    }

    /// Removes a space without names, if it exists. If an allocation fails, the changes are rolled back.
    pub fn close(&mut self, space: u32) -> Result<(), AllocError>
        requires empty { (names : Names) → map.get self.old.current space ≡ Some names → names ≡ map.empty }
        ensures ok { OnOk result (self.new ≡ record self.old { current = map.remove self.old.current space }) }
        ensures err { OnErr result (self.new ≡ spaces_at_rest self.old.before) }
    {
        if self.touched.reserve(1).is_err() {
            self.roll_back();
            return Err(AllocError);
        }
        if self.contains(space) {
            close_at(&mut self.slots, space);
            self.touched.push_reserved(space);
            self.count -= 1;
            self.numbers.remove(space);
        }
        Ok(())
    }

    /// Commits the changes. It allocates nothing.
    pub fn commit(&mut self)
        ensures { self.new ≡ spaces_at_rest self.old.current }
    {
        commit_slots(&mut self.slots, self.touched.as_slice());
        self.touched.clear();
        self.count_before = self.count;
        self.numbers_before = self.numbers;
    }

    /// Rolls the changes back. It allocates nothing.
    pub fn roll_back(&mut self)
        ensures { self.new ≡ spaces_at_rest self.old.before }
    {
        roll_slots_back(&mut self.slots, self.touched.as_slice());
        self.touched.clear();
        self.count = self.count_before;
        self.numbers = self.numbers_before;
    }
}
