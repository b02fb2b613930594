// Queries on the ports.
ghost use Rattle.std.specs.Prelude.{◌≡◌, ◌<◌, ◌≤◌, ◌^◌, find, MatchOption, is_some, length, nat_le, option_map, slice_index_or};
ghost use Rattle.std.specs.FinMap as map;
ghost use Rattle.codes.specs.declared.limits.TheConstants.{MAX_PORTS};
ghost use Rattle.ipc_laws.specs.MapSums.{total};
ghost use Rattle.ipc_laws.specs.Weights.{port_weigh};
ghost use Rattle.ipc_model.specs.declared.message.RightKind.TheVariants as kind;
ghost use Rattle.ipc_model.specs.state.Circular.{carries};
ghost use Rattle.ipc_model.specs.state.Lawful.{AreShort};
ghost use Rattle.live_ports.specs.Changed.{messages_at, numbers_of};
ghost use Rattle.live_ports.specs.Noted.{AreNoted};
ghost use Rattle.live_ports.specs.Seen.{seen_message, seen_right, lives_in};
ghost use Rattle.port_indexes.specs.Rights.{right_weight};

use crate::Ports;
use ipc_model::{CarriedRight, Message};
use live_ports::PortNumbers;

impl Ports {
    /// Returns the number of live ports.
    pub fn len(&self) -> usize
        ensures { result ≡ map.len self.now.current.ports }
    {
        self.ports.len()
    }

    /// Returns true if no more ports may be live.
    pub fn is_full(&self) -> bool
        ensures { result ≡ nat_le MAX_PORTS (map.len self.now.current.ports) }
    {
        self.ports.is_full()
    }

    /// Returns the serial of the next port.
    pub fn next_serial(&self) -> u64
        ensures { result ≡ self.now.current.next }
    {
        self.ports.next_serial()
    }

    /// Returns the serials of the ports that may have changed since the last commit or rollback. Every other port is
    /// live if it was live then, and has as many messages.
    pub fn changed_serials(&self) -> &[u128]
        ensures { AreNoted self.now.before.ports self.now.current.ports result.now }
    {
        self.ports.changed_serials()
    }

    /// Returns true if a port is live.
    pub fn contains(&self, serial: u64) -> bool
        ensures { result ≡ is_some (map.get self.now.current.ports serial) }
    {
        self.ports.contains(serial)
    }

    /// Returns the numbers of a port, which are all of its state besides the queue, if it is live.
    pub fn numbers(&self, serial: u64) -> Option<PortNumbers>
        ensures { result ≡ option_map numbers_of (map.get self.now.current.ports serial) }
    {
        self.ports.numbers(serial)
    }

    /// Returns the number of messages in a port's queue, or 0 if it is dead.
    pub fn message_count(&self, serial: u64) -> u32
        ensures { result ≡ length (messages_at self.now.current.ports serial) }
    {
        self.ports.message_count(serial)
    }

    /// Returns the message at an index in a port's queue as it was sent, counted from the oldest, if there is one.
    /// `seen` gives its rights as they are now.
    pub fn message_as_sent(&self, serial: u64, index: u32) -> Option<&Message>
        ensures { MatchOption result (length (messages_at self.now.current.ports serial) ≤ index)
            (λ message. (index < length (messages_at self.now.current.ports serial))
            × (seen_message (lives_in self.now.current.ports) message.now
            ≡ slice_index_or (messages_at self.now.current.ports serial) index
            (seen_message (lives_in self.now.current.ports) message.now))) }
    {
        self.ports.message_as_sent(serial, index)
    }

    /// Returns a right of a sent message as it is now: with `MACH_PORT_DEAD` if its port has died.
    pub fn seen(&self, carried: CarriedRight) -> CarriedRight
        ensures { result ≡ seen_right (lives_in self.now.current.ports) carried }
    {
        self.ports.seen(carried)
    }

    /// Proves that the number of messages in each queue fits a `u32`. It does nothing else.
    pub fn show_queues_short(&self)
        ensures { AreShort self.now.current.ports }
    {
        self.ports.show_queues_short();
    }

    /// Returns the number of send rights to a port in queued messages.
    pub fn sends(&self, serial: u64) -> u64
        ensures value { result ≡ total (port_weigh (right_weight kind.Send serial)) self.now.current.ports }
        ensures few { result < 2 ^ 63 }
    {
        self.indexes.counts.sends(serial)
    }

    /// Returns the number of send-once rights to a port in queued messages and as the targets of ports' requests.
    pub fn send_onces(&self, serial: u64) -> u64
        ensures value { result ≡ total (port_weigh (right_weight kind.SendOnce serial)) self.now.current.ports }
        ensures few { result < 2 ^ 63 }
    {
        self.indexes.counts.send_onces(serial)
    }

    /// Returns the port whose queue contains the receive right of a port, if there is one.
    pub fn carrier(&self, serial: u64) -> Option<u64>
        ensures { result ≡ option_map (λ e. e.0) (find (λ e. carries serial e.1) (map.entries self.now.current.ports)) }
    {
        self.indexes.carriers.least(serial)
    }
}
