// Changes of the live ports.
ghost use Rattle.std.specs.Prelude.{◌≡◌, ◌<◌, ◌≤◌, ◌+◌, ◌-◌, ◌^◌, OnOk, OnErr, take};
ghost use Rattle.std.specs.FinMap as map;
ghost use Rattle.codes.specs.declared.limits.TheConstants.{MAX_PORTS};
ghost use Rattle.ipc_model.specs.state.Ipc.{new_port};
ghost use Rattle.live_ports.specs.Changed.{changed, messages_at, with_message, with_numbers, without_first};
ghost use Rattle.live_ports.specs.PortTable.{ports_at_rest};
ghost use Rattle.live_ports.specs.Seen.{AreLive};
ghost use Rattle.ports.specs.Indexes.{AreOfFewer, AreOfMore, AreRetargeted, SameBefore};

use crate::Ports;
use crate::indexes::{PortIndexes, targets_fit};
use ipc_model::Message;
use live_ports::{LivePorts, PortNumbers};
use std::alloc::AllocError;

impl Ports {
    /// Replaces the numbers of a port, which are all of its state besides the queue, if it is live. If an allocation
    /// fails, the changes are rolled back.
    pub fn set_numbers(&mut self, serial: u64, numbers: PortNumbers) -> Result<(), AllocError>
        ensures ok { OnOk result (self.new ≡ record self.old {
          current = record self.old.current {
            ports = changed self.old.current.ports serial (with_numbers numbers);
          };
        }) }
        ensures err { OnErr result (self.new ≡ ports_at_rest self.old.before) }
    {
        let Some(former) = self.ports.numbers(serial) else {
            return Ok(());
        };
        targets_fit(former);
        targets_fit(numbers);
        match set_in_both(&mut self.ports, &mut self.indexes, serial, former, numbers) {
            Ok(()) => Ok(()),
            Err(error) => {
                self.ports.roll_back();
                self.indexes.roll_back();
                Err(error)
            }
        }
    }

    /// Appends a message to a port's queue, regardless of the limit, if the port is live. If an allocation fails, the
    /// changes are rolled back. A queue of `u32::MAX` messages counts as a failed allocation.
    pub fn push(&mut self, serial: u64, message: Message) -> Result<(), AllocError>
        requires { AreLive self.old.current.ports message }
        ensures ok { OnOk result (self.new ≡ record self.old {
          current = record self.old.current {
            ports = changed self.old.current.ports serial (with_message message);
          };
        }) }
        ensures err { OnErr result (self.new ≡ ports_at_rest self.old.before) }
    {
        if !self.ports.contains(serial) {
            return Ok(());
        }
        match push_in_both(&mut self.ports, &mut self.indexes, serial, message) {
            Ok(()) => Ok(()),
            Err(error) => {
                self.ports.roll_back();
                self.indexes.roll_back();
                Err(error)
            }
        }
    }

    /// Removes the oldest message from a port's queue, if there is one. If an allocation fails, the changes are rolled
    /// back.
    pub fn take(&mut self, serial: u64) -> Result<(), AllocError>
        ensures ok { OnOk result (self.new ≡ record self.old {
          current = record self.old.current {
            ports = changed self.old.current.ports serial without_first;
          };
        }) }
        ensures err { OnErr result (self.new ≡ ports_at_rest self.old.before) }
    {
        if !self.ports.contains(serial) {
            return Ok(());
        }
        match take_in_both(&mut self.ports, &mut self.indexes, serial) {
            Ok(()) => Ok(()),
            Err(error) => {
                self.ports.roll_back();
                self.indexes.roll_back();
                Err(error)
            }
        }
    }

    /// Adds a port with the next serial. If an allocation fails, the changes are rolled back.
    pub fn add(&mut self) -> Result<(), AllocError>
        requires room { map.len self.old.current.ports < MAX_PORTS }
        requires serials { self.old.current.next < 2 ^ 64 - 1 }
        ensures ok { OnOk result (self.new ≡ record self.old {
          current = record {
            ports = map.insert self.old.current.ports self.old.current.next new_port;
            next = self.old.current.next + 1;
          };
        }) }
        ensures err { OnErr result (self.new ≡ ports_at_rest self.old.before) }
    {
        match self.ports.add() {
            Ok(()) => Ok(()),
            Err(error) => {
                self.indexes.roll_back();
                Err(error)
            }
        }
    }

    /// Sets the serial of the next port, which was never used before. It allocates nothing.
    pub fn set_next_serial(&mut self, serial: u64)
        requires { self.old.current.next ≤ serial }
        ensures { self.new ≡ record self.old { current = record self.old.current { next = serial } } }
    {
        self.ports.set_next_serial(serial);
    }
}

fn set_in_both(
    ports: &mut LivePorts,
    indexes: &mut PortIndexes,
    serial: u64,
    former: PortNumbers,
    numbers: PortNumbers,
) -> Result<(), AllocError>
    ensures ports { OnOk result (ports.new ≡ record ports.old {
      current = record ports.old.current {
        ports = changed ports.old.current.ports serial (with_numbers numbers);
      };
    }) }
    ensures indexes { OnOk result (AreRetargeted indexes.old indexes.new serial former numbers) }
    ensures before { ports.new.before ≡ ports.old.before }
    ensures indexes_before { SameBefore indexes.old indexes.new }
{
    indexes.change_targets(serial, former, numbers)?;
    ports.set_numbers(serial, numbers)
}

fn push_in_both(
    ports: &mut LivePorts,
    indexes: &mut PortIndexes,
    serial: u64,
    message: Message,
) -> Result<(), AllocError>
    requires { AreLive ports.old.current.ports message }
    ensures ports { OnOk result (ports.new ≡ record ports.old {
      current = record ports.old.current {
        ports = changed ports.old.current.ports serial (with_message message);
      };
    }) }
    ensures indexes { OnOk result (AreOfMore indexes.old indexes.new serial message) }
    ensures before { ports.new.before ≡ ports.old.before }
    ensures indexes_before { SameBefore indexes.old indexes.new }
{
    indexes.add_message(serial, &message)?;
    ports.push(serial, message)
}

fn take_in_both(
    ports: &mut LivePorts,
    indexes: &mut PortIndexes,
    serial: u64,
) -> Result<(), AllocError>
    ensures ports { OnOk result (ports.new ≡ record ports.old {
      current = record ports.old.current {
        ports = changed ports.old.current.ports serial without_first;
      };
    }) }
    ensures indexes { OnOk result (AreOfFewer indexes.old indexes.new serial
        (take 1 (messages_at ports.old.current.ports serial))) }
    ensures before { ports.new.before ≡ ports.old.before }
    ensures indexes_before { SameBefore indexes.old indexes.new }
{
    indexes.remove_oldest(ports, serial)?;
    ports.take(serial)
}
