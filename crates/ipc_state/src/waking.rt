//! The places at which waiting calls may succeed after a step has changed the state.
ghost use Rattle.std.specs.Prelude.{◌≡◌, ◌⊎◌, ℕ, ◌<◌, ◌^◌, true, false, Some, is_some, option_map};
ghost use Rattle.std.specs.FinMap as map;
ghost use Rattle.ipc_model.specs.declared.port.PortState.{PortState};
ghost use Rattle.ipc_model.specs.messages.Sending.{is_full};
ghost use Rattle.ipc_model.specs.state.Ipc.{is_number, received_port};
ghost use Rattle.ipc_state.specs.Members.{set_place, state_of};
ghost use Rattle.ipc_state.specs.Waking.{IsListedFor, IsPortListed, IsSetListed, same_occupancy};
ghost use Rattle.spaces.specs.Indexes.{AreSmall};
ghost use Rattle.spaces.specs.Looking.{at_place};
ghost use Rattle.spaces.specs.Noted.{entry_at_place};
ghost use Rattle.waiting.specs.Places.{IsMore, names, place_of_port};
ghost use Rattle.waiting.specs.Waiting.{Covers};

use crate::IpcState;
use crate::sets::{place_in, set_place};
use ports::{PortNumbers, Ports};
use spaces::Spaces;
use waiting::{Places, place_of_port};

impl IpcState {
    /// Reports the places at which a waiting call may succeed, from the changes since the last commit or rollback. If
    /// all places are reported already, nothing is computed.
    pub fn name_places(&self, places: &mut Places)
        ensures { Covers self.now.before self.now.current (names places.new) }
    {
        if places.are_all() {
            return;
        }
        places.clear();
        name_names(&self.spaces, &self.ports, places);
        name_ports(&self.spaces, &self.ports, places);
    }
}

/// Reports each name that changed.
fn name_names(spaces: &Spaces, ports: &Ports, places: &mut Places)
    ensures small { AreSmall spaces.now.before × AreSmall spaces.now.current }
    ensures listed { (number : ℕ) → (entry_at_place spaces.now.current number ≡ entry_at_place spaces.now.before number)
        ⊎ IsSetListed (names places.new) spaces.now.current ports.now.current.ports number }
{
    let mut rest = spaces.changed_places();
    while let Some((place, before)) = rest.split_last() {
        name_name(spaces, ports, *place, places);
        rest = before;
    }
}

/// Reports a name that changed, and its set if the name holds a member's receive right.
fn name_name(spaces: &Spaces, ports: &Ports, place: u64, places: &mut Places)
    ensures kept { IsMore places.old places.new }
    ensures listed { IsSetListed (names places.new) spaces.now.current ports.now.current.ports place }
{
    places.add_changed(u128::from(place));
    let space = (place / (1 << 32)) as u32;
    let name = (place % (1 << 32)) as u32;
    if let Some(set) = set_place(ports, space, spaces.entry(space, name)) {
        places.add_ready(u128::from(set));
    }
}

/// Reports the places of each port that changed.
fn name_ports(spaces: &Spaces, ports: &Ports, places: &mut Places)
    ensures kept { IsMore places.old places.new }
    ensures listed { (serial : ℕ) → same_occupancy ports.now.before.ports ports.now.current.ports serial
        ⊎ IsPortListed (names places.new) spaces.now.current ports.now.current.ports serial }
{
    let mut rest = ports.changed_serials();
    while let Some((serial, before)) = rest.split_last() {
        match u64::try_from(*serial) {
            Ok(serial) => name_port(spaces, ports, serial, places),
            // No port has such a serial.
            Err(_) => places.add_all(),
        }
        rest = before;
    }
}

/// Reports a port if its queue has room or the port is gone, and the places of its receives if it has a message or is
/// in a set.
fn name_port(spaces: &Spaces, ports: &Ports, serial: u64, places: &mut Places)
    ensures kept { IsMore places.old places.new }
    ensures listed { IsPortListed (names places.new) spaces.now.current ports.now.current.ports serial }
{
    let Some(numbers) = ports.numbers(serial) else {
        places.add_changed(place_of_port(serial));
        return;
    };
    let held = ports.message_count(serial);
    if held < numbers.limit {
        places.add_ready(place_of_port(serial));
    }
    name_receivers(spaces, serial, numbers, held != 0, places);
}

/// Reports the places at which receives of a port wait.
fn name_receivers(
    spaces: &Spaces,
    serial: u64,
    numbers: PortNumbers,
    has_messages: bool,
    places: &mut Places,
)
    ensures kept { IsMore places.old places.new }
    ensures listed { (number : ℕ) → number < 2 ^ 64
        → is_number (at_place received_port spaces.now.current number) serial ≡ true
        → IsListedFor (names places.new) numbers.set has_messages number }
{
    let mut at: u64 = 0;
    while let Some(place) = spaces.next_receiver(serial, at) {
        name_receiver(place, numbers.set, has_messages, places);
        let Some(next) = place.checked_add(1) else {
            return;
        };
        at = next;
    }
}

/// Reports the name that holds a port's receive right, and the port's set, if a receive there may succeed.
fn name_receiver(place: u64, set: Option<u32>, has_messages: bool, places: &mut Places)
    ensures kept { IsMore places.old places.new }
    ensures listed { IsListedFor (names places.new) set has_messages place }
{
    match place_in((place / (1 << 32)) as u32, set) {
        Some(set) => {
            places.add_changed(u128::from(place));
            if has_messages {
                places.add_ready(u128::from(set));
            }
        }
        None => {
            if has_messages {
                places.add_ready(u128::from(place));
            }
        }
    }
}
