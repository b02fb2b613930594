//! The index of set members: the place of each member's name, with the place of its set.
ghost use Rattle.std.specs.Prelude.{◌≡◌, ◌++◌, ◌<◌, Some, IfOk, OnOk, flat_map, option_and_then, option_map};
ghost use Rattle.std.specs.FinMap as map;
ghost use Rattle.ipc_model.specs.calls.PortCalls.{names_in};
ghost use Rattle.ipc_model.specs.state.Ipc.{entry_at, received_port};
ghost use Rattle.ipc_state.specs.Members.{set_in, set_place_of};
ghost use Rattle.ipc_state.specs.SetNames.{IsNextPlace, member_at, member_port, member_under};
ghost use Rattle.spaces.specs.Looking.{place};

use crate::IpcState;
use ipc_model::Entry;
use ports::Ports;
use std::alloc::{AllocError, Global};

impl IpcState {
    /// Returns the members of a set of a space, in ascending order of names: each name with the port whose receive
    /// right it holds.
    pub fn members(
        &self,
        alloc: Global,
        space: u32,
        set: u32,
    ) -> Result<Vec<(u32, u64)>, AllocError>
        ensures { IfOk result (λ members. members.items
            ≡ flat_map (member_under self.now.current set) (map.entries (names_in self.now.current space))) }
    {
        let mut members = Vec::new(alloc);
        let mut from: u64 = 0;
        while let Some(name) = self.next_place(space, set, from) {
            self.add_member(space, set, name, &mut members)?;
            from = u64::from(name) + 1;
        }
        Ok(members)
    }

    /// Returns the first name from `from` on that the index lists as a member of the set.
    fn next_place(&self, space: u32, set: u32, from: u64) -> Option<u32>
        ensures { IsNextPlace self.now.current space set from result }
    {
        self.spaces.show_counts_small();
        if from > u64::from(u32::MAX) {
            return None;
        }
        let first = place(space, from as u32);
        let Some(found) = self.members.next(place(space, set), first) else {
            return None;
        };
        if found / (1 << 32) != u64::from(space) {
            return None;
        }
        Some((found % (1 << 32)) as u32)
    }

    /// Appends a name and its port, if the name holds the receive right of a member of the set.
    fn add_member(
        &self,
        space: u32,
        set: u32,
        name: u32,
        members: &mut Vec<(u32, u64)>,
    ) -> Result<(), AllocError>
        ensures { OnOk result (members.new.items ≡ members.old.items
            ++ member_at self.now.current set name (entry_at self.now.current space name)) }
    {
        match self.member_port(set, self.entry(space, name)) {
            Some(port) => Ok(members.push((name, port))?),
            None => Ok(()),
        }
    }

    /// Returns the port whose receive right an entry holds, if the port is a member of the set.
    fn member_port(&self, set: u32, entry: Option<Entry>) -> Option<u64>
        ensures { result ≡ member_port self.now.current set entry }
    {
        let port = received(entry)?;
        if set_of(&self.ports, port) == Some(set) {
            Some(port)
        } else {
            None
        }
    }
}

/// Returns the place of a name: space and name as one number.
pub(crate) fn place(space: u32, name: u32) -> u64
    ensures { result ≡ place space name }
{
    u64::from(space) * (1 << 32) + u64::from(name)
}

/// Returns the place of the set that contains the port whose receive right an entry holds.
pub(crate) fn set_place(ports: &Ports, space: u32, entry: Option<Entry>) -> Option<u64>
    ensures { result ≡ set_place_of ports.now.current.ports space entry }
{
    let serial = received(entry)?;
    place_in(space, set_of(ports, serial))
}

/// Returns the port whose receive right an entry holds.
fn received(entry: Option<Entry>) -> Option<u64>
    ensures { result ≡ option_and_then received_port entry }
{
    match entry {
        Some(Entry::Port(rights)) if rights.receive => Some(rights.port),
        _ => None,
    }
}

/// Returns the name of the set that contains a port.
fn set_of(ports: &Ports, serial: u64) -> Option<u32>
    ensures { result ≡ set_in ports.now.current.ports serial }
{
    match ports.numbers(serial) {
        Some(numbers) => numbers.set,
        None => None,
    }
}

/// Returns the place of a set in a space.
pub(crate) fn place_in(space: u32, set: Option<u32>) -> Option<u64>
    ensures { result ≡ option_map (place space) set }
{
    match set {
        Some(set) => Some(place(space, set)),
        None => None,
    }
}
