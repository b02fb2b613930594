ghost use Rattle.std.specs.Prelude.{◌≡◌};
ghost use Rattle.ipc_model.specs.calls.Actions.{allocated_entry};
ghost use Rattle.ipc_model.specs.calls.PortCalls.{is_allocatable};

use codes::Right;
use ipc_model::{Entry, PortRights};

/// Returns true if a right with this number can be allocated.
pub fn is_allocatable(right: u32) -> bool
    ensures { result ≡ is_allocatable right }
{
    right == Right::Receive.number()
        || right == Right::PortSet.number()
        || right == Right::DeadName.number()
}

/// Returns the entry of a new name for a right. A new port gets this serial.
pub fn allocated_entry(serial: u64, right: u32) -> Entry
    ensures { result ≡ allocated_entry serial right }
{
    if right == Right::Receive.number() {
        Entry::Port(PortRights {
            port: serial,
            receive: true,
            send: 0,
            dead_name_target: None,
        })
    } else if right == Right::PortSet.number() {
        Entry::Set
    } else {
        Entry::Dead { references: 1 }
    }
}
