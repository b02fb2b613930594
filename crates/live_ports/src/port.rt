ghost use Rattle.std.specs.Prelude.{◌≡◌, ◌<◌, ◌-◌, ◌^◌, None, Some, length, is_some, option_map, slice_index_or, IfSome, OnOk, OnErr};
ghost use Rattle.ipc_model.specs.state.Ipc.{new_port};
ghost use Rattle.live_ports.specs.Changed.{IsMessageAt, messages_in, numbers_of, with_message, with_numbers, without_first};
ghost use Rattle.live_ports.specs.PortSlot.{slot_at_rest};

use codes::DEFAULT_QUEUE_LIMIT;
use ipc_model::Message;
use queue::Queue;
use std::alloc::{AllocError, Global};
use std::marker::Model;

/// The state of a port besides its queue.
#[derive(Clone, Copy, PartialEq, Eq)]
pub struct PortNumbers {
    /// Limit of its queue in messages, for sends to which the limit applies.
    pub limit: u32,
    /// The sequence number of the next message that is received from it.
    pub sequence_number: u32,
    /// Number of send rights that were made from its receive right (the make-send count).
    pub make_send_count: u32,
    /// The name of the port set that contains it, in the space that holds its receive right.
    pub set: Option<u32>,
    /// The target port of the no-senders request, if there is one.
    pub no_senders_target: Option<u64>,
    /// The target port of the port-destroyed request, if there is one.
    pub port_destroyed_target: Option<u64>,
}

/// A port whose changes, including its birth and its death, are committed or rolled back. Contracts see the port at the
/// last commit or rollback and now, each as `None` if it isn't live.
#[derive(Drop)]
pub(crate) struct Port {
    numbers: PortNumbers,
    former: PortNumbers,
    queue: Queue,
    lives: bool,
    lived: bool,
}

impl Model for Port {
    ghost use Rattle.std.specs.Prelude.{None, Some, if◌then◌else◌};
    ghost use Rattle.ipc_model.specs.contracts.port.PortState as state;
    ghost use Rattle.live_ports.specs.PortSlot.{PortSlot, slot_code};
    ghost use Rattle.live_ports.specs.Changed.{port_of};

    ghost Value = { PortSlot };

    ghost coded = { slot_code state.the_row.coded };

    ghost view = { λ p. record {
      before = if p.lived then Some (port_of p.former p.queue.before) else None;
      current = if p.lives then Some (port_of p.numbers p.queue.current) else None;
    } };
}

impl Port {
    /// Creates a new port: an empty queue with the default limit, in no set, without requests. It allocates nothing.
    pub(crate) fn new(alloc: Global) -> Self
        ensures { result ≡ record { before = None; current = Some new_port } }
    {
        let numbers = PortNumbers {
            limit: DEFAULT_QUEUE_LIMIT,
            sequence_number: 0,
            make_send_count: 0,
            set: None,
            no_senders_target: None,
            port_destroyed_target: None,
        };
        Port {
            numbers,
            former: numbers,
            queue: Queue::new(alloc),
            lives: true,
            lived: false,
        }
    }

    /// Returns true if the port is live.
    pub(crate) fn is_there(&self) -> bool
        ensures { result ≡ is_some self.now.current }
    {
        self.lives
    }

    /// Returns true if the port was live at the last commit or rollback.
    pub(crate) fn was_there(&self) -> bool
        ensures { result ≡ is_some self.now.before }
    {
        self.lived
    }

    /// Returns the numbers of the port, if it is live.
    pub(crate) fn numbers(&self) -> Option<PortNumbers>
        ensures { result ≡ option_map numbers_of self.now.current }
    {
        if self.lives { Some(self.numbers) } else { None }
    }

    /// Replaces the numbers of the port, if it is live.
    pub(crate) fn set_numbers(&mut self, numbers: PortNumbers)
        ensures { self.new ≡ record self.old { current = option_map (with_numbers numbers) self.old.current } }
    {
        self.numbers = numbers;
    }

    /// Returns the number of messages in the queue, or 0 if the port is dead.
    pub(crate) fn message_count(&self) -> u32
        ensures { result ≡ length (messages_in self.now.current) }
    {
        if self.lives { self.queue.len() } else { 0 }
    }

    /// Returns the message at an index, counted from the oldest.
    pub(crate) fn message(&self, index: u32) -> &Message
        requires { index < length (messages_in self.now.current) }
        ensures { result.now ≡ slice_index_or (messages_in self.now.current) index result.now }
    {
        self.queue.message(index)
    }

    /// Returns the message at an index, counted from the oldest, if there is one.
    pub(crate) fn message_at(&self, index: u32) -> Option<&Message>
        ensures { IsMessageAt (messages_in self.now.current) index result }
    {
        if index < self.message_count() {
            Some(self.message(index))
        } else {
            None
        }
    }

    /// Appends a message to the queue, regardless of the limit, if the port is live. If out of memory, nothing changed.
    /// A queue of `u32::MAX` messages counts as out of memory.
    pub(crate) fn push_forced(&mut self, message: Message) -> Result<(), AllocError>
        ensures ok { OnOk result (self.new
            ≡ record self.old { current = option_map (with_message message) self.old.current }) }
        ensures room { OnOk result (IfSome self.old.current (λ port. length port.messages < 2 ^ 32 - 1)) }
        ensures err { OnErr result (self.new ≡ self.old) }
    {
        if self.queue.len() == u32::MAX {
            return Err(AllocError);
        }
        self.queue.push_forced(message)
    }

    /// Removes the queue's oldest message, if the port is live and has one.
    pub(crate) fn take(&mut self)
        ensures { self.new ≡ record self.old { current = option_map without_first self.old.current } }
    {
        self.queue.take();
    }

    /// Makes the port die.
    pub(crate) fn bury(&mut self)
        ensures { self.new ≡ record self.old { current = None } }
    {
        self.lives = false;
    }

    /// Commits the changes. It allocates nothing.
    pub(crate) fn commit(&mut self)
        ensures { self.new ≡ slot_at_rest self.old.current }
    {
        self.queue.commit();
        self.former = self.numbers;
        self.lived = self.lives;
    }

    /// Rolls the changes back. It allocates nothing.
    pub(crate) fn roll_back(&mut self)
        ensures { self.new ≡ slot_at_rest self.old.before }
    {
        self.queue.roll_back();
        self.numbers = self.former;
        self.lives = self.lived;
    }
}
