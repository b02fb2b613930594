//! The live ports: queries and changes of their numbers, which are all of their state besides the queues.
ghost use Rattle.std.specs.Prelude.{◌≡◌, ◌+◌, ◌<◌, ◌≤◌, ◌/◌, ◌^◌, false, None, Some, OnOk, OnErr, option_map};
ghost use Rattle.std.specs.FinMap as map;
ghost use Rattle.ipc_model.specs.state.Ipc.{lives, new_port, ports_are_used_up, with_port};
ghost use Rattle.ipc_state.specs.Members.{set_in, AreMembers, DifferAt};
ghost use Rattle.ipc_state.specs.Running.{at_rest};
ghost use Rattle.ports.specs.Passed.{changed, numbers_of, with_numbers, Ports as PortMap};
ghost use Rattle.spaces.specs.Passed.{moved};
ghost use Rattle.spaces.specs.Looking.{place};

use crate::IpcState;
use crate::sets::place_in;
use ports::{PortNumbers, Ports};
use spaces::{PlaceIndex, Spaces};
use std::alloc::AllocError;

impl IpcState {
    /// Returns the number of live ports.
    pub fn port_count(&self) -> usize
        ensures { result ≡ map.len self.now.current.ports }
    {
        self.ports.len()
    }

    /// Returns true if a port is live.
    pub fn has_port(&self, serial: u64) -> bool
        ensures { result ≡ lives self.now.current serial }
    {
        self.ports.contains(serial)
    }

    /// Returns the numbers of a port, if it is live.
    pub fn numbers(&self, serial: u64) -> Option<PortNumbers>
        ensures { result ≡ option_map numbers_of (map.get self.now.current.ports serial) }
    {
        self.ports.numbers(serial)
    }

    /// Returns the serial of the next port.
    pub fn next_serial(&self) -> u64
        ensures { result ≡ self.now.current.next }
    {
        self.ports.next_serial()
    }

    /// Returns true if no further port can be made: no more ports may be live, or the serials are used up.
    pub fn is_out_of_ports(&self) -> bool
        ensures { result ≡ ports_are_used_up self.now.current }
    {
        self.ports.is_full() || self.ports.next_serial() == u64::MAX
    }

    /// Adds a port with the next serial. If an allocation fails, the changes are rolled back.
    pub fn add_port(&mut self) -> Result<(), AllocError>
        requires left { ports_are_used_up self.old.current ≡ false }
        requires fresh { map.get self.old.current.ports self.old.current.next ≡ None }
        ensures ok { OnOk result (self.new ≡ record self.old {
          current = record self.old.current {
            ports = map.insert self.old.current.ports self.old.current.next new_port;
            next = self.old.current.next + 1;
          };
        }) }
        ensures err { OnErr result (self.new ≡ at_rest self.old.before) }
    {
        let _next = self.ports.next_serial();
        match self.ports.add() {
            Ok(()) => Ok(()),
            Err(error) => {
                self.spaces.roll_back();
                self.members.roll_back();
                Err(error)
            }
        }
    }

    /// Sets the serial of the next port, which was never used before. It allocates nothing.
    pub fn set_next_serial(&mut self, serial: u64)
        requires { self.old.current.next ≤ serial }
        ensures { self.new ≡ record self.old { current = record self.old.current { next = serial } } }
    {
        self.ports.set_next_serial(serial);
    }

    /// Replaces the numbers of a live port. If an allocation fails, the changes are rolled back.
    pub fn set_numbers(&mut self, serial: u64, numbers: PortNumbers) -> Result<(), AllocError>
        ensures ok { OnOk result (self.new
            ≡ record self.old { current = with_port self.old.current serial (with_numbers numbers) }) }
        ensures err { OnErr result (self.new ≡ at_rest self.old.before) }
    {
        let Some(former) = self.ports.numbers(serial) else {
            return Ok(());
        };
        match replace_numbers(
            &self.spaces,
            &mut self.ports,
            &mut self.members,
            serial,
            former,
            numbers,
        ) {
            Ok(()) => Ok(()),
            Err(error) => {
                self.spaces.roll_back();
                self.ports.roll_back();
                self.members.roll_back();
                Err(error)
            }
        }
    }
}

/// Replaces a live port's numbers, and its place in the index of members with them.
fn replace_numbers(
    spaces: &Spaces,
    ports: &mut Ports,
    members: &mut PlaceIndex,
    serial: u64,
    former: PortNumbers,
    numbers: PortNumbers,
) -> Result<(), AllocError>
    requires there { option_map numbers_of (map.get ports.old.current.ports serial) ≡ Some former }
    ensures ports { OnOk result (ports.new
        ≡ record ports.old {
          current = record ports.old.current
              { ports = changed ports.old.current.ports serial (with_numbers numbers) };
        }) }
    ensures members { OnOk result (AreMembers spaces.now.current ports.old.current.ports members.old.current
        → AreMembers spaces.now.current ports.new.current.ports members.new.current) }
    ensures before { ports.new.before ≡ ports.old.before }
    ensures members_before { members.new.before ≡ members.old.before }
{
    move_places(spaces, members, serial, former.set, numbers.set)?;
    ports.set_numbers(serial, numbers)?;
    Ok(())
}

/// Moves a port from one set to another, and its place in the index of members with it.
fn move_places(
    spaces: &Spaces,
    members: &mut PlaceIndex,
    serial: u64,
    former: Option<u32>,
    set: Option<u32>,
) -> Result<(), AllocError>
    ensures ok { OnOk result ((before : PortMap) → (after : PortMap) → DifferAt serial before after
        → set_in before serial ≡ former → set_in after serial ≡ set
        → AreMembers spaces.now.current before members.old.current
        → AreMembers spaces.now.current after members.new.current) }
    ensures before { members.new.before ≡ members.old.before }
{
    if former == set {
        return Ok(());
    }
    let mut at: u64 = 0;
    while let Some(place) = spaces.next_receiver(serial, at) {
        move_place(members, place, former, set)?;
        let Some(next) = place.checked_add(1) else {
            return Ok(());
        };
        at = next;
    }
    Ok(())
}

/// Replaces the set's place that the index lists for a name.
fn move_place(
    members: &mut PlaceIndex,
    name: u64,
    former: Option<u32>,
    set: Option<u32>,
) -> Result<(), AllocError>
    ensures ok { OnOk result (members.new
        ≡ record members.old {
          current = moved members.old.current name (option_map (place (name / 2 ^ 32)) former)
              (option_map (place (name / 2 ^ 32)) set);
        }) }
    ensures before { members.new.before ≡ members.old.before }
{
    let space = (name / (1 << 32)) as u32;
    members.change(name, place_in(space, former), place_in(space, set))
}
