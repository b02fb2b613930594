ghost use Rattle.std.specs.Prelude.{◌≡◌, ℕ, ◌≤◌, ◌<◌, ◌^◌, ◌↔◌, true, false, IfOk, OnOk, OnErr, IsSome, IfSome, IsTrue, MatchBool, None, is_some};
ghost use Rattle.std.specs.FinMap as map;
ghost use Rattle.ipc_model.specs.calls.PortCalls.{stands_elsewhere};
ghost use Rattle.ipc_model.specs.state.Ipc.{IsUnused, name_of_port};
ghost use Rattle.port_space.specs.Alongside.{holds};
ghost use Rattle.port_space.specs.References.{AreFewReferences};
ghost use Rattle.port_space.specs.Walking.{IsNextEntry};
ghost use Rattle.tracked_map.specs.Tracked.{at_rest};

use crate::tables::Tables;
use codes::{FIRST_NAME, MACH_PORT_DEAD, MACH_PORT_NULL, MAX_NAMES};
use ipc_model::Entry;
use std::alloc::{AllocError, Global};
use std::marker::Model;

/// A port name space (`ipc_space`): at most `MAX_NAMES` names, each with its entry. Changes are committed or rolled
/// back. Contracts see two finite maps from names to entries: at the last commit or rollback, and the current one.
#[derive(Drop)]
pub struct PortSpace {
    tables: Tables,
}

impl Model for PortSpace {
    ghost use Rattle.ipc_model.specs.declared.entry.Entry.{Entry};
    ghost use Rattle.ipc_model.specs.contracts.entry.Entry as entry;
    ghost use Rattle.port_space.specs.Alongside.{StandAlongside};
    ghost use Rattle.tracked_map.specs.Tracked.{Tracked, tracked_code};

    ghost Value = { Tracked Entry };

    ghost coded = { tracked_code entry.the_row.coded };

    ghost view = { λ s. s.tables.names };

    ghost invariant = { λ s.
        StandAlongside s.tables.names.before s.tables.by_port.before s.tables.gaps.before s.tables.low_before
        × StandAlongside s.tables.names.current s.tables.by_port.current s.tables.gaps.current s.tables.low };
}

impl PortSpace {
    /// Creates a space without names. It allocates nothing.
    pub fn new(alloc: Global) -> Self
        ensures { result ≡ at_rest map.empty }
    {
        PortSpace {
            tables: Tables::new(alloc),
        }
    }

    /// Returns the number of names in use.
    pub fn len(&self) -> usize
        ensures { result ≡ map.len self.now.current }
    {
        self.tables.names.len()
    }

    /// Returns true if a name is in use.
    pub fn contains(&self, name: u32) -> bool
        ensures { result ≡ is_some (map.get self.now.current name) }
    {
        self.tables.names.contains_key(u128::from(name))
    }

    /// Returns the entry of a name, if it is in use.
    pub fn get(&self, name: u32) -> Option<Entry>
        ensures value { result ≡ map.get self.now.current name }
        ensures few { IfSome result AreFewReferences }
    {
        self.tables.names.get(u128::from(name)).copied()
    }

    /// Replaces the entry of a name, and returns the former one. If an allocation fails, the changes are rolled back.
    pub fn put(&mut self, name: u32, entry: Entry) -> Result<Option<Entry>, AllocError>
        requires room { map.get self.old.current name ≡ None → map.len self.old.current < MAX_NAMES }
        requires few { AreFewReferences entry }
        ensures former { IfOk result (λ former. former ≡ map.get self.old.current name) }
        ensures ok { OnOk result (self.new ≡ record self.old { current = map.insert self.old.current name entry }) }
        ensures err { OnErr result (self.new ≡ at_rest self.old.before) }
    {
        match self.tables.put(name, entry) {
            Ok(former) => Ok(former),
            Err(error) => {
                self.tables.roll_back();
                Err(error)
            }
        }
    }

    /// Removes a name, and returns its entry. If an allocation fails, the changes are rolled back.
    pub fn remove(&mut self, name: u32) -> Result<Option<Entry>, AllocError>
        ensures former { IfOk result (λ former. former ≡ map.get self.old.current name) }
        ensures few { IfOk result (λ former. IfSome former AreFewReferences) }
        ensures ok { OnOk result (self.new ≡ record self.old { current = map.remove self.old.current name }) }
        ensures err { OnErr result (self.new ≡ at_rest self.old.before) }
    {
        match self.tables.remove(name) {
            Ok(former) => Ok(former),
            Err(error) => {
                self.tables.roll_back();
                Err(error)
            }
        }
    }

    /// Returns the name that holds a send or receive right of a port. If there were several, it would be the least one.
    pub fn name_of_port(&self, port: u64) -> Option<u32>
        ensures { result ≡ name_of_port self.now.current port }
    {
        self.tables.next_name(port, 0)
    }

    /// Returns true if another name than this one holds a send or receive right of a port.
    pub fn stands_elsewhere(&self, name: u32, port: u64) -> bool
        ensures { result ≡ stands_elsewhere self.now.current name port }
    {
        let Some(first) = self.tables.next_name(port, 0) else {
            return false;
        };
        first != name || self.stands_above(name, port)
    }

    /// Returns true if a greater name than this one holds a send or receive right of a port.
    fn stands_above(&self, name: u32, port: u64) -> bool
        ensures { MatchBool result ((other : ℕ) × (name < other) × (holds self.now.current port other ≡ true))
            ((other : ℕ) → name < other → holds self.now.current port other ≡ false) }
    {
        match name.checked_add(1) {
            Some(next) => self.tables.next_name(port, next).is_some(),
            None => false,
        }
    }

    /// Returns true if a name may be given to a right: it is neither `MACH_PORT_NULL` nor `MACH_PORT_DEAD`, and isn't
    /// in use.
    pub fn is_unused(&self, name: u32) -> bool
        ensures { IsTrue result ↔ IsUnused self.now.current name }
    {
        name != MACH_PORT_NULL && name != MACH_PORT_DEAD && !self.contains(name)
    }

    /// Returns the least unused name from `FIRST_NAME` on. There is always one.
    pub fn free_name(&self) -> u32
        ensures unused { IsUnused self.now.current result }
        ensures from { FIRST_NAME ≤ result }
        ensures least { (k : ℕ) → FIRST_NAME ≤ k → k < result → IsSome (map.get self.now.current k) }
    {
        match self.tables.gaps.next_from(0) {
            Some((gap, _)) => gap as u32,
            None => self.tables.low as u32,
        }
    }

    /// Proves that there are at most `MAX_NAMES` names. It does nothing else.
    pub fn show_names_few(&self)
        ensures { map.len self.now.current ≤ MAX_NAMES }
    {
        let _ = &self.tables;
    }

    /// Returns the least name from `from` on, with its entry.
    pub fn next_entry(&self, from: u64) -> Option<(u32, Entry)>
        ensures next { IsNextEntry self.now.current from result }
        ensures fits { IfSome result (λ e. e.0 < 2 ^ 32) }
    {
        let Some((name, entry)) = self.tables.names.next_from(u128::from(from)) else {
            return None;
        };
        Some((name as u32, *entry))
    }

    /// Commits the changes. It allocates nothing.
    pub fn commit(&mut self)
        ensures { self.new ≡ at_rest self.old.current }
    {
        self.tables.commit();
    }

    /// Rolls the changes back. It allocates nothing.
    pub fn roll_back(&mut self)
        ensures { self.new ≡ at_rest self.old.before }
    {
        self.tables.roll_back();
    }
}
