ghost use Rattle.std.specs.Prelude.{◌≡◌, ◌<◌, ◌^◌, None, Some, IfOk, OnOk, OnErr, IfSome, is_some};
ghost use Rattle.std.specs.FinMap as map;
ghost use Rattle.codes.specs.declared.limits.TheConstants.{MAX_NAMES, MAX_SPACES};
ghost use Rattle.ipc_laws.specs.MapSums.{total};
ghost use Rattle.ipc_laws.specs.Weights.{names_weigh};
ghost use Rattle.ipc_model.specs.declared.message.RightKind.TheVariants as kind;
ghost use Rattle.ipc_model.specs.state.Ipc.{Names, received_port, request_of};
ghost use Rattle.port_indexes.specs.Rights.{right_weight};
ghost use Rattle.port_space.specs.References.{AreFewReferences};
ghost use Rattle.spaces.specs.Indexes.{AreSmall, IsMoved, IsNextAt, SameBefore, lesser};
ghost use Rattle.spaces.specs.Looking.{entry_in, place, port_named, port_shared};
ghost use Rattle.spaces.specs.Noted.{AreNoted};
ghost use Rattle.spaces.specs.Numbers.{IsFreeNumber};
ghost use Rattle.spaces.specs.Slots.{spaces_at_rest, names_changed};

use crate::indexes::NameIndexes;
use crate::table::SpaceTable;
use ipc_model::Entry;
use std::alloc::{AllocError, Global};
use std::marker::Model;

/// The spaces with their names, and an index from each port to the names with rights to it. Changes are committed or
/// rolled back. Contracts see the spaces at the last commit or rollback, and the current ones. A change whose
/// allocation fails rolls all changes back.
#[derive(Drop)]
pub struct Spaces {
    pub(crate) table: SpaceTable,
    indexes: NameIndexes,
}

impl Model for Spaces {
    ghost use Rattle.spaces.specs.Indexes.{AreIndexed};
    ghost use Rattle.spaces.specs.Noted.{AreNoted};
    ghost use Rattle.spaces.specs.Slots.{TrackedSpaces, spaces_code};

    ghost Value = { TrackedSpaces };

    ghost coded = { spaces_code };

    ghost view = { λ s. s.table };

    ghost invariant = { λ s.
        AreIndexed s.table.before s.indexes.sharers.before s.indexes.requesters.before s.indexes.receivers.before
        s.indexes.counts.before
        × AreIndexed s.table.current s.indexes.sharers.current s.indexes.requesters.current s.indexes.receivers.current
        s.indexes.counts.current
        × AreNoted s.table.before s.table.current s.indexes.changed.items };
}

impl Spaces {
    /// Creates a table without spaces. It allocates nothing.
    pub fn new(alloc: Global) -> Self
        ensures { result ≡ spaces_at_rest map.empty }
    {
        Spaces {
            table: SpaceTable::new(alloc),
            indexes: NameIndexes::new(alloc),
        }
    }

    /// Returns the number of spaces.
    pub fn len(&self) -> usize
        ensures { result ≡ map.len self.now.current }
    {
        self.table.len()
    }

    /// Returns true if a space exists.
    pub fn contains(&self, space: u32) -> bool
        ensures { result ≡ is_some (map.get self.now.current space) }
    {
        self.table.contains(space)
    }

    /// Returns the least unused number of a space. There is one while there are fewer spaces than `MAX_SPACES`.
    pub fn free_number(&self) -> u32
        requires room { map.len self.now.current < MAX_SPACES }
        ensures { IsFreeNumber self.now.current result }
    {
        self.table.free_number()
    }

    /// Returns the entry of a name in a space, if it is in use.
    pub fn entry(&self, space: u32, name: u32) -> Option<Entry>
        ensures value { result ≡ entry_in self.now.current space name }
        ensures few { IfSome result AreFewReferences }
    {
        entry_of(&self.table, space, name)
    }

    /// Replaces the entry of a name in a space, if the space exists, and returns the former one. If an allocation
    /// fails, the changes are rolled back.
    pub fn put_name(
        &mut self,
        space: u32,
        name: u32,
        entry: Entry,
    ) -> Result<Option<Entry>, AllocError>
        requires room { (names : Names) → map.get self.old.current space ≡ Some names → map.get names name ≡ None
            → map.len names < MAX_NAMES }
        requires few { AreFewReferences entry }
        ensures former { IfOk result (λ former. former ≡ entry_in self.old.current space name) }
        ensures ok { OnOk result (self.new
            ≡ record self.old {
              current = names_changed self.old.current space
                  (λ names. map.insert names name entry);
            }) }
        ensures err { OnErr result (self.new ≡ spaces_at_rest self.old.before) }
    {
        if !self.contains(space) {
            return Ok(None);
        }
        match put_in_both(&mut self.table, &mut self.indexes, space, name, entry) {
            Ok(former) => Ok(former),
            Err(error) => {
                self.table.roll_back();
                self.indexes.roll_back();
                Err(error)
            }
        }
    }

    /// Removes a name from a space, and returns its entry. If an allocation fails, the changes are rolled back.
    pub fn remove_name(&mut self, space: u32, name: u32) -> Result<Option<Entry>, AllocError>
        ensures former { IfOk result (λ former. former ≡ entry_in self.old.current space name) }
        ensures few { IfOk result (λ former. IfSome former AreFewReferences) }
        ensures ok { OnOk result (self.new
            ≡ record self.old { current = names_changed self.old.current space (λ names. map.remove names name) }) }
        ensures err { OnErr result (self.new ≡ spaces_at_rest self.old.before) }
    {
        if !self.contains(space) {
            return Ok(None);
        }
        match remove_from_both(&mut self.table, &mut self.indexes, space, name) {
            Ok(former) => Ok(former),
            Err(error) => {
                self.table.roll_back();
                self.indexes.roll_back();
                Err(error)
            }
        }
    }

    /// Adds a space without names under an unused number. If an allocation fails, the changes are rolled back.
    pub fn add(&mut self, space: u32) -> Result<(), AllocError>
        requires absent { map.get self.old.current space ≡ None }
        requires room { map.len self.old.current < 2 ^ 32 }
        ensures ok { OnOk result (self.new
            ≡ record self.old { current = map.insert self.old.current space map.empty }) }
        ensures err { OnErr result (self.new ≡ spaces_at_rest self.old.before) }
    {
        match self.table.add(space) {
            Ok(()) => Ok(()),
            Err(error) => {
                self.indexes.roll_back();
                Err(error)
            }
        }
    }

    /// Removes a space without names, if it exists. If an allocation fails, the changes are rolled back.
    pub fn close(&mut self, space: u32) -> Result<(), AllocError>
        requires empty { (names : Names) → map.get self.old.current space ≡ Some names → names ≡ map.empty }
        ensures ok { OnOk result (self.new ≡ record self.old { current = map.remove self.old.current space }) }
        ensures err { OnErr result (self.new ≡ spaces_at_rest self.old.before) }
    {
        match self.table.close(space) {
            Ok(()) => Ok(()),
            Err(error) => {
                self.indexes.roll_back();
                Err(error)
            }
        }
    }

    /// Returns the first place from `from` on whose name has a right to a port.
    pub fn next_holder(&self, port: u64, from: u64) -> Option<u64>
        ensures { IsNextAt port_named self.now.current port from result }
    {
        lesser(self.next_sharer(port, from), self.next_receiver(port, from))
    }

    /// Returns the first place from `from` on whose name has a right to a port other than the receive right.
    fn next_sharer(&self, port: u64, from: u64) -> Option<u64>
        ensures { IsNextAt port_shared self.now.current port from result }
    {
        self.indexes.sharers.next(port, from)
    }

    /// Returns the first place from `from` on whose name's dead-name request has a port as its target.
    pub fn next_requester(&self, port: u64, from: u64) -> Option<u64>
        ensures { IsNextAt request_of self.now.current port from result }
    {
        self.indexes.requesters.next(port, from)
    }

    /// Returns the first place from `from` on whose name holds the receive right of a port.
    pub fn next_receiver(&self, port: u64, from: u64) -> Option<u64>
        ensures { IsNextAt received_port self.now.current port from result }
    {
        self.indexes.receivers.next(port, from)
    }

    /// Returns the number of send rights to a port under names.
    pub fn sends(&self, port: u64) -> u64
        ensures value { result ≡ total
            (λ space names. names_weigh (right_weight kind.Send port) names) self.now.current }
        ensures few { result < 2 ^ 63 }
    {
        self.indexes.counts.sends(port)
    }

    /// Returns the number of send-once rights to a port under names and as the targets of dead-name requests.
    pub fn send_onces(&self, port: u64) -> u64
        ensures value { result ≡ total
            (λ space names. names_weigh (right_weight kind.SendOnce port) names) self.now.current }
        ensures few { result < 2 ^ 63 }
    {
        self.indexes.counts.send_onces(port)
    }

    /// Returns the places of the names that may have changed since the last commit or rollback. Every other name has
    /// the same entry as then.
    pub fn changed_places(&self) -> &[u64]
        ensures noted { AreNoted self.now.before self.now.current result.now }
        ensures small { AreSmall self.now.before × AreSmall self.now.current }
    {
        self.indexes.changed.as_slice()
    }

    /// Commits the changes. It allocates nothing.
    pub fn commit(&mut self)
        ensures { self.new ≡ spaces_at_rest self.old.current }
    {
        self.table.commit();
        self.indexes.commit();
    }

    /// Rolls the changes back. It allocates nothing.
    pub fn roll_back(&mut self)
        ensures { self.new ≡ spaces_at_rest self.old.before }
    {
        self.table.roll_back();
        self.indexes.roll_back();
    }
}

/// Returns the lesser of two numbers, the only one, or `None`.
fn lesser(one: Option<u64>, other: Option<u64>) -> Option<u64>
    ensures { result ≡ lesser one other }
{
    match (one, other) {
        (Some(one), Some(other)) => Some(one.min(other)),
        (Some(one), None) => Some(one),
        (None, other) => other,
    }
}

/// Returns the place of a name in a space.
fn place(space: u32, name: u32) -> u64
    ensures { result ≡ place space name }
{
    u64::from(space) * (1 << 32) + u64::from(name)
}

/// Returns the entry of a name in a space, if it is in use.
fn entry_of(table: &SpaceTable, space: u32, name: u32) -> Option<Entry>
    ensures value { result ≡ entry_in table.now.current space name }
    ensures few { IfSome result AreFewReferences }
{
    match table.names(space) {
        Some(names) => names.get(name),
        None => None,
    }
}

/// Replaces the entry of a name in the table and the indexes, and returns the former one.
fn put_in_both(
    table: &mut SpaceTable,
    indexes: &mut NameIndexes,
    space: u32,
    name: u32,
    entry: Entry,
) -> Result<Option<Entry>, AllocError>
    requires room { (names : Names) → map.get table.old.current space ≡ Some names → map.get names name ≡ None
        → map.len names < MAX_NAMES }
    requires few { AreFewReferences entry }
    ensures former { IfOk result (λ former. former ≡ entry_in table.old.current space name) }
    ensures table { OnOk result (table.new
        ≡ record table.old { current = names_changed table.old.current space (λ names. map.insert names name entry) }) }
    ensures indexes { OnOk result (IsMoved indexes.old indexes.new (place space name)
        (entry_in table.old.current space name) (Some entry)) }
    ensures before { table.new.before ≡ table.old.before }
    ensures indexes_before { SameBefore indexes.old indexes.new }
{
    let former = table.put(space, name, entry)?;
    indexes.change(place(space, name), former, Some(entry))?;
    Ok(former)
}

/// Removes a name from the table and the indexes, and returns its entry.
fn remove_from_both(
    table: &mut SpaceTable,
    indexes: &mut NameIndexes,
    space: u32,
    name: u32,
) -> Result<Option<Entry>, AllocError>
    ensures former { IfOk result (λ former. former ≡ entry_in table.old.current space name) }
    ensures few { IfOk result (λ former. IfSome former AreFewReferences) }
    ensures table { OnOk result (table.new
        ≡ record table.old { current = names_changed table.old.current space (λ names. map.remove names name) }) }
    ensures indexes { OnOk result (IsMoved indexes.old indexes.new (place space name)
        (entry_in table.old.current space name) None) }
    ensures before { table.new.before ≡ table.old.before }
    ensures indexes_before { SameBefore indexes.old indexes.new }
{
    let former = table.remove(space, name)?;
    indexes.change(place(space, name), former, None)?;
    Ok(former)
}
