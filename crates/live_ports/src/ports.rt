ghost use Rattle.std.specs.Prelude.{◌≡◌, ◌<◌, ◌≤◌, ◌+◌, ◌-◌, ◌^◌, OnOk, OnErr, is_some, length, nat_le, option_map, slice_index_or, MatchOption};
ghost use Rattle.std.specs.FinMap as map;
ghost use Rattle.codes.specs.declared.limits.TheConstants.{MAX_PORTS};
ghost use Rattle.ipc_model.specs.effects.Effects.{map_values};
ghost use Rattle.ipc_model.specs.state.Lawful.{AreShort};
ghost use Rattle.ipc_model.specs.state.Ipc.{new_port};
ghost use Rattle.live_ports.specs.Changed.{changed, messages_at, numbers_of, with_message, with_numbers, without_first};
ghost use Rattle.live_ports.specs.Noted.{AreNoted};
ghost use Rattle.live_ports.specs.PortTable.{ports_at_rest};
ghost use Rattle.live_ports.specs.Seen.{lives_in, queue_after_death, seen_message, seen_port, seen_right, AreLive};

use crate::port::PortNumbers;
use crate::tables::Tables;
use codes::MAX_PORTS;
use ipc_model::{CarriedRight, Message, PortInMessage};
use std::alloc::{AllocError, Global};
use std::marker::Model;

/// The live ports by their serials, at most `MAX_PORTS`, with the serial of the next port. Changes are committed or
/// rolled back. Contracts see both at the last commit or rollback, and now.
///
/// Queued messages keep the serials of dead ports, and are shown with `MACH_PORT_DEAD` instead, so that a death needn't
/// visit other queues.
#[derive(Drop)]
pub struct LivePorts {
    pub(crate) tables: Tables,
}

impl Model for LivePorts {
    ghost use Rattle.ipc_model.specs.contracts.port.PortState as state;
    ghost use Rattle.live_ports.specs.PortTable.{TrackedPorts, tracked_ports_code};
    ghost use Rattle.live_ports.specs.Seen.{as_seen};
    ghost use Rattle.live_ports.specs.Tables.{former_ports, present_ports, AreStanding};

    ghost Value = { TrackedPorts };

    ghost coded = { tracked_ports_code state.the_row.coded };

    ghost view = { λ p. record {
      before = record { ports = as_seen (former_ports p.tables.slots); next = p.tables.next_before };
      current = record { ports = as_seen (present_ports p.tables.slots); next = p.tables.next };
    } };

    ghost invariant = { λ p. AreStanding p.tables };
}

impl LivePorts {
    /// Creates an empty table, whose first port gets the serial 1. It allocates nothing.
    pub fn new(alloc: Global) -> Self
        ensures { result ≡ ports_at_rest (record { ports = map.empty; next = 1 }) }
    {
        LivePorts {
            tables: Tables::new(alloc),
        }
    }

    /// Returns the number of live ports.
    pub fn len(&self) -> usize
        ensures { result ≡ map.len self.now.current.ports }
    {
        self.tables.count
    }

    /// Returns true if no more ports may be live.
    pub fn is_full(&self) -> bool
        ensures { result ≡ nat_le MAX_PORTS (map.len self.now.current.ports) }
    {
        MAX_PORTS <= self.len()
    }

    /// Returns the serial of the next port.
    pub fn next_serial(&self) -> u64
        ensures { result ≡ self.now.current.next }
    {
        self.tables.next
    }

    /// Returns true if a port is live.
    pub fn contains(&self, serial: u64) -> bool
        ensures { result ≡ is_some (map.get self.now.current.ports serial) }
    {
        self.tables.contains(serial)
    }

    /// Returns the numbers of a port, if it is live.
    pub fn numbers(&self, serial: u64) -> Option<PortNumbers>
        ensures { result ≡ option_map numbers_of (map.get self.now.current.ports serial) }
    {
        self.tables.numbers(serial)
    }

    /// Returns the number of messages in a port's queue, or 0 if it is dead.
    pub fn message_count(&self, serial: u64) -> u32
        ensures { result ≡ length (messages_at self.now.current.ports serial) }
    {
        self.tables.message_count(serial)
    }

    /// Returns the message at an index in a port's queue as it was sent, counted from the oldest, if there is one.
    /// `seen` gives its rights as they are now.
    pub fn message_as_sent(&self, serial: u64, index: u32) -> Option<&Message>
        ensures { MatchOption result (length (messages_at self.now.current.ports serial) ≤ index)
            (λ message. (index < length (messages_at self.now.current.ports serial))
            × (seen_message (lives_in self.now.current.ports) message.now
            ≡ slice_index_or (messages_at self.now.current.ports serial) index
            (seen_message (lives_in self.now.current.ports) message.now))) }
    {
        self.tables.message(serial, index)
    }

    /// Returns a right of a sent message as it is now: with `MACH_PORT_DEAD` if its port has died.
    pub fn seen(&self, carried: CarriedRight) -> CarriedRight
        ensures { result ≡ seen_right (lives_in self.now.current.ports) carried }
    {
        CarriedRight {
            kind: carried.kind,
            port: self.seen_port(carried.port),
        }
    }

    fn seen_port(&self, port: PortInMessage) -> PortInMessage
        ensures { result ≡ seen_port (lives_in self.now.current.ports) port }
    {
        match port {
            PortInMessage::Live(serial) if !self.contains(serial) => PortInMessage::Dead,
            _ => port,
        }
    }

    /// Proves that the number of messages in each queue fits a `u32`. It does nothing else.
    pub fn show_queues_short(&self)
        ensures { AreShort self.now.current.ports }
    {
        let _ = &self.tables;
    }

    /// Replaces the numbers of a port, if it is live. If an allocation fails, the changes are rolled back.
    pub fn set_numbers(&mut self, serial: u64, numbers: PortNumbers) -> Result<(), AllocError>
        ensures ok { OnOk result (self.new ≡ record self.old {
          current = record self.old.current {
            ports = changed self.old.current.ports serial (with_numbers numbers);
          };
        }) }
        ensures err { OnErr result (self.new ≡ ports_at_rest self.old.before) }
    {
        match self.tables.set_numbers(serial, numbers) {
            Ok(()) => Ok(()),
            Err(error) => {
                self.tables.roll_back();
                Err(error)
            }
        }
    }

    /// Appends a message to a port's queue, regardless of the limit, if the port is live. If an allocation fails, the
    /// changes are rolled back. A queue of `u32::MAX` messages counts as a failed allocation.
    pub fn push(&mut self, serial: u64, message: Message) -> Result<(), AllocError>
        requires { AreLive self.old.current.ports message }
        ensures ok { OnOk result (self.new ≡ record self.old {
          current = record self.old.current {
            ports = changed self.old.current.ports serial (with_message message);
          };
        }) }
        ensures err { OnErr result (self.new ≡ ports_at_rest self.old.before) }
    {
        match self.tables.push(serial, message) {
            Ok(()) => Ok(()),
            Err(error) => {
                self.tables.roll_back();
                Err(error)
            }
        }
    }

    /// Removes the oldest message from a port's queue, if there is one. If an allocation fails, the changes are rolled
    /// back.
    pub fn take(&mut self, serial: u64) -> Result<(), AllocError>
        ensures ok { OnOk result (self.new ≡ record self.old {
          current = record self.old.current {
            ports = changed self.old.current.ports serial without_first;
          };
        }) }
        ensures err { OnErr result (self.new ≡ ports_at_rest self.old.before) }
    {
        match self.tables.take(serial) {
            Ok(()) => Ok(()),
            Err(error) => {
                self.tables.roll_back();
                Err(error)
            }
        }
    }

    /// Adds a port with the next serial. If an allocation fails, the changes are rolled back.
    pub fn add(&mut self) -> Result<(), AllocError>
        requires room { map.len self.old.current.ports < MAX_PORTS }
        requires serials { self.old.current.next < 2 ^ 64 - 1 }
        ensures ok { OnOk result (self.new ≡ record self.old {
          current = record {
            ports = map.insert self.old.current.ports self.old.current.next new_port;
            next = self.old.current.next + 1;
          };
        }) }
        ensures err { OnErr result (self.new ≡ ports_at_rest self.old.before) }
    {
        match self.tables.add() {
            Ok(()) => Ok(()),
            Err(error) => {
                self.tables.roll_back();
                Err(error)
            }
        }
    }

    /// Sets the serial of the next port, which was never used before. It allocates nothing.
    pub fn set_next_serial(&mut self, serial: u64)
        requires { self.old.current.next ≤ serial }
        ensures { self.new ≡ record self.old { current = record self.old.current { next = serial } } }
    {
        self.tables.set_next_serial(serial);
    }

    /// Removes a dying port. Rights to it in other queues become `MACH_PORT_DEAD`; the targets of requests stay. If it
    /// is dead already, nothing changes. If an allocation fails, the changes are rolled back.
    pub fn bury(&mut self, serial: u64) -> Result<(), AllocError>
        ensures ok { OnOk result (self.new ≡ record self.old {
          current = record self.old.current {
            ports = map_values (queue_after_death serial) (map.remove self.old.current.ports serial);
          };
        }) }
        ensures err { OnErr result (self.new ≡ ports_at_rest self.old.before) }
    {
        if !self.tables.contains(serial) {
            return Ok(());
        }
        match self.tables.bury(serial) {
            Ok(()) => Ok(()),
            Err(error) => {
                self.tables.roll_back();
                Err(error)
            }
        }
    }

    /// Returns the serials of the ports that may have changed since the last commit or rollback. Every other port is
    /// live if it was live then, and has as many messages.
    pub fn changed_serials(&self) -> &[u128]
        ensures { AreNoted self.now.before.ports self.now.current.ports result.now }
    {
        self.tables.touched.as_slice()
    }

    /// Commits the changes. It allocates nothing.
    pub fn commit(&mut self)
        ensures { self.new ≡ ports_at_rest self.old.current }
    {
        self.tables.commit();
    }

    /// Rolls the changes back. It allocates nothing.
    pub fn roll_back(&mut self)
        ensures { self.new ≡ ports_at_rest self.old.before }
    {
        self.tables.roll_back();
    }
}
