ghost use Rattle.std.specs.Prelude.{◌≡◌, ℕ, ◌<◌, ◌≤◌, ◌↔◌, None, Some, IfOk, OnOk, OnErr, IsSome, IfSome, IsTrue, is_some};
ghost use Rattle.std.specs.FinMap as map;
ghost use Rattle.ipc_model.specs.calls.PortCalls.{names_in, stands_elsewhere};
ghost use Rattle.ipc_model.specs.state.Ipc.{IsUnused, Names, entry_at, with_changed, with_entry, without_name, name_of_port, request_of};
ghost use Rattle.ipc_state.specs.Members.{set_place_of, ArePlacesRenamed};
ghost use Rattle.ipc_state.specs.Running.{at_rest};
ghost use Rattle.spaces.specs.Passed.{moved, AreFewReferences, under_other_name};
ghost use Rattle.spaces.specs.Looking.{entry_in, place};
ghost use Rattle.spaces.specs.Slots.{names_changed};

use crate::IpcState;
use crate::sets::{place, set_place};
use codes::{FIRST_NAME, MAX_NAMES};
use ipc_model::Entry;
use ports::Ports;
use spaces::{PlaceIndex, Spaces};
use std::alloc::{AllocError, Global};

/// Queries on the names of a space. A space that doesn't exist has none.
impl IpcState {
    /// Returns true if a space exists.
    pub fn has_space(&self, space: u32) -> bool
        ensures { result ≡ is_some (map.get self.now.current.spaces space) }
    {
        self.spaces.contains(space)
    }

    /// Returns the number of names that a space has in use.
    pub fn name_count(&self, space: u32) -> usize
        ensures { result ≡ map.len (names_in self.now.current space) }
    {
        self.spaces.name_count(space)
    }

    /// Returns the names that a space has in use, in ascending order, each with its entry.
    pub fn entries(&self, alloc: Global, space: u32) -> Result<Vec<(u32, Entry)>, AllocError>
        ensures { IfOk result (λ entries. entries.items ≡ map.entries (names_in self.now.current space)) }
    {
        self.spaces.entries(alloc, space)
    }

    /// Returns the entry of a name in a space, if it is in use.
    pub fn entry(&self, space: u32, name: u32) -> Option<Entry>
        ensures entry { result ≡ entry_at self.now.current space name }
        ensures named { result ≡ map.get (names_in self.now.current space) name }
        ensures few { IfSome result AreFewReferences }
    {
        self.spaces.entry(space, name)
    }

    /// Returns the name under which a space holds a send or receive right of a port, if it holds one.
    pub fn name_of_port(&self, space: u32, serial: u64) -> Option<u32>
        ensures { result ≡ name_of_port (names_in self.now.current space) serial }
    {
        self.spaces.name_of_port(space, serial)
    }

    /// Returns true if a space holds a send or receive right of a port under another name than this one.
    pub fn stands_elsewhere(&self, space: u32, name: u32, serial: u64) -> bool
        ensures { result ≡ stands_elsewhere (names_in self.now.current space) name serial }
    {
        self.spaces.stands_elsewhere(space, name, serial)
    }

    /// Returns true if a name may be given to a right in a space: it is neither `MACH_PORT_NULL` nor `MACH_PORT_DEAD`,
    /// and isn't in use.
    pub fn is_unused(&self, space: u32, name: u32) -> bool
        ensures { IsTrue result ↔ IsUnused (names_in self.now.current space) name }
    {
        self.spaces.is_unused(space, name)
    }

    /// Returns the least name from `FIRST_NAME` on that a space doesn't use. There is always one.
    pub fn free_name(&self, space: u32) -> u32
        ensures unused { IsUnused (names_in self.now.current space) result }
        ensures from { FIRST_NAME ≤ result }
        ensures least { (k : ℕ) → FIRST_NAME ≤ k → k < result → IsSome (map.get (names_in self.now.current space) k) }
    {
        self.spaces.free_name(space)
    }
}

/// Changes of the names of a space.
impl IpcState {
    /// Replaces the entry of a name in a space, if the space exists. If an allocation fails, the changes are rolled
    /// back.
    pub fn put_name(&mut self, space: u32, name: u32, entry: Entry) -> Result<(), AllocError>
        requires room { entry_at self.old.current space name ≡ None
            → map.len (names_in self.old.current space) < MAX_NAMES }
        requires few { AreFewReferences entry }
        ensures ok { OnOk result (self.new
            ≡ record self.old { current = with_entry self.old.current space name entry }) }
        ensures err { OnErr result (self.new ≡ at_rest self.old.before) }
    {
        if !self.spaces.contains(space) {
            return Ok(());
        }
        match put_in_both(
            &mut self.spaces,
            &self.ports,
            &mut self.members,
            space,
            name,
            entry,
        ) {
            Ok(()) => Ok(()),
            Err(error) => {
                self.spaces.roll_back();
                self.ports.roll_back();
                self.members.roll_back();
                Err(error)
            }
        }
    }

    /// Removes a name from a space. If an allocation fails, the changes are rolled back.
    pub fn remove_name(&mut self, space: u32, name: u32) -> Result<(), AllocError>
        ensures ok { OnOk result (self.new ≡ record self.old { current = without_name self.old.current space name }) }
        ensures err { OnErr result (self.new ≡ at_rest self.old.before) }
    {
        if !self.spaces.contains(space) {
            return Ok(());
        }
        match remove_from_both(
            &mut self.spaces,
            &self.ports,
            &mut self.members,
            space,
            name,
        ) {
            Ok(()) => Ok(()),
            Err(error) => {
                self.spaces.roll_back();
                self.ports.roll_back();
                self.members.roll_back();
                Err(error)
            }
        }
    }

    /// Moves the entry of one name of a space, if there is one, to another name. If an allocation fails, the changes
    /// are rolled back.
    pub fn rename(&mut self, space: u32, from: u32, to: u32) -> Result<(), AllocError>
        requires unused { entry_at self.old.current space to ≡ None }
        ensures ok { OnOk result (self.new
            ≡ record self.old {
              current = with_changed self.old.current space
                  (λ names. under_other_name names from to);
            }) }
        ensures err { OnErr result (self.new ≡ at_rest self.old.before) }
    {
        match rename_in_both(
            &mut self.spaces,
            &self.ports,
            &mut self.members,
            space,
            (from, to),
        ) {
            Ok(()) => Ok(()),
            Err(error) => {
                self.spaces.roll_back();
                self.ports.roll_back();
                self.members.roll_back();
                Err(error)
            }
        }
    }
}

/// Returns the target of a name's dead-name request, if there is a request.
pub fn request_of(entry: Entry) -> Option<u64>
    ensures { result ≡ request_of entry }
{
    match entry {
        Entry::Port(rights) => rights.dead_name_target,
        Entry::SendOnce {
            dead_name_target,
            ..
        } => dead_name_target,
        Entry::Set | Entry::Dead { .. } => None,
    }
}

fn put_in_both(
    spaces: &mut Spaces,
    ports: &Ports,
    members: &mut PlaceIndex,
    space: u32,
    name: u32,
    entry: Entry,
) -> Result<(), AllocError>
    requires room { (names : Names) → map.get spaces.old.current space ≡ Some names → map.get names name ≡ None
        → map.len names < MAX_NAMES }
    requires few { AreFewReferences entry }
    ensures spaces { OnOk result (spaces.new
        ≡ record spaces.old {
          current = names_changed spaces.old.current space
              (λ names. map.insert names name entry);
        }) }
    ensures members { OnOk result (members.new
        ≡ record members.old {
          current = moved members.old.current (place space name)
              (set_place_of ports.now.current.ports space (entry_in spaces.old.current space name))
              (set_place_of ports.now.current.ports space (Some entry));
        }) }
    ensures before { spaces.new.before ≡ spaces.old.before }
    ensures members_before { members.new.before ≡ members.old.before }
{
    let former = spaces.put_name(space, name, entry)?;
    let earlier = set_place(ports, space, former);
    let later = set_place(ports, space, Some(entry));
    members.change(place(space, name), earlier, later)
}

fn remove_from_both(
    spaces: &mut Spaces,
    ports: &Ports,
    members: &mut PlaceIndex,
    space: u32,
    name: u32,
) -> Result<(), AllocError>
    ensures spaces { OnOk result (spaces.new
        ≡ record spaces.old { current = names_changed spaces.old.current space (λ names. map.remove names name) }) }
    ensures members { OnOk result (members.new
        ≡ record members.old {
          current = moved members.old.current (place space name)
              (set_place_of ports.now.current.ports space (entry_in spaces.old.current space name))
              (set_place_of ports.now.current.ports space None);
        }) }
    ensures before { spaces.new.before ≡ spaces.old.before }
    ensures members_before { members.new.before ≡ members.old.before }
{
    let former = spaces.remove_name(space, name)?;
    members.change(place(space, name), set_place(ports, space, former), None)
}

fn rename_in_both(
    spaces: &mut Spaces,
    ports: &Ports,
    members: &mut PlaceIndex,
    space: u32,
    names: (u32, u32),
) -> Result<(), AllocError>
    requires unused { entry_in spaces.old.current space names.1 ≡ None }
    ensures spaces { OnOk result (spaces.new
        ≡ record spaces.old {
          current = names_changed spaces.old.current space
              (λ n. under_other_name n names.0 names.1);
        }) }
    ensures members { OnOk result (ArePlacesRenamed ports.now.current.ports members.old members.new space names.0
        names.1 (entry_in spaces.old.current space names.0)) }
    ensures before { spaces.new.before ≡ spaces.old.before }
    ensures members_before { members.new.before ≡ members.old.before }
{
    let (from, to) = names;
    let Some(entry) = spaces.rename(space, from, to)? else {
        return Ok(());
    };
    let set = set_place(ports, space, Some(entry));
    members.change(place(space, from), set, None)?;
    members.change(place(space, to), None, set)
}
