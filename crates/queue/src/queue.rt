ghost use Rattle.std.specs.Prelude.{◌≡◌, ◌<◌, ◌≤◌, ◌-◌, ◌↔◌, ◌==◌, ◌∷◌, ◌++◌, [], length, drop, OnOk, OnErr, IsErrOf, slice_index_or};
ghost use Rattle.queue.specs.TrackedList.{list_at_rest};

use ipc_model::Message;
use std::alloc::{AllocError, Global};
use std::collections::VecDeque;
use std::marker::Model;

/// The reason why a message couldn't be queued.
#[derive(Clone, Copy, Debug, PartialEq, Eq)]
pub enum PushFault {
    /// The queue is at its limit or above it.
    Full,
    /// Out of memory.
    NoMemory,
}

impl From<AllocError> for PushFault {
    ghost use Rattle.std.specs.Prelude.{◌≡◌};
    ghost use Rattle.queue.specs.declared.queue.PushFault.TheVariants.{NoMemory};

    ghost from_gives = { λ _ e. e ≡ NoMemory };

    fn from(_: AllocError) -> Self {
        PushFault::NoMemory
    }
}

/// Maximum number of messages in a queue.
const MAX_MESSAGES: usize = u32::MAX as usize;

/// The messages in a port's queue (`ipc_mqueue`), oldest first, at most `u32::MAX`. Contracts see two lists: the
/// messages at the last commit or rollback, and the current ones. Messages that were taken stay in the ring until the
/// next commit or rollback.
#[derive(Drop)]
pub struct Queue {
    messages: VecDeque<Message>,
    /// Number of the oldest messages in the ring that were taken.
    taken: usize,
    /// Number of messages at the last commit or rollback.
    before: usize,
}

impl Model for Queue {
    ghost use Rattle.std.specs.Prelude.{◌≤◌, ◌+◌, length, take, drop};
    ghost use Rattle.ipc_model.specs.declared.message.Message.{Message};
    ghost use Rattle.ipc_model.specs.contracts.message.Message as message;
    ghost use Rattle.queue.specs.TrackedList.{TrackedList, tracked_list_code};
    ghost use Rattle.queue.specs.declared.queue.TheConstants.{MAX_MESSAGES};

    ghost Value = { TrackedList Message };

    ghost coded = { tracked_list_code message.the_row.coded };

    ghost view = { λ q. record { before = take q.before q.messages.items; current = drop q.taken q.messages.items } };

    ghost invariant = { λ q. (q.before ≤ length q.messages.items) × (q.taken ≤ length q.messages.items)
        × (q.before ≤ MAX_MESSAGES)
        × (length q.messages.items ≤ MAX_MESSAGES + q.taken) };
}

impl Queue {
    /// Creates an empty queue. It allocates nothing.
    pub fn new(alloc: Global) -> Self
        ensures { result ≡ list_at_rest [] }
    {
        Queue {
            messages: VecDeque::new(alloc),
            taken: 0,
            before: 0,
        }
    }

    /// Returns the number of messages.
    pub fn len(&self) -> u32
        ensures { result ≡ length self.now.current }
    {
        (self.messages.len() - self.taken) as u32
    }

    /// Returns true if the queue is empty.
    pub fn is_empty(&self) -> bool
        ensures { result ≡ (length self.now.current == 0) }
    {
        self.len() == 0
    }

    /// Appends a message, unless the queue is at its limit or above it. At a fault, nothing changed.
    pub fn push(&mut self, limit: u32, message: Message) -> Result<(), PushFault>
        ensures ok { OnOk result (self.new ≡ record self.old { current = self.old.current ++ message ∷ [] }) }
        ensures err { OnErr result (self.new ≡ self.old) }
        ensures full { IsErrOf result PushFault.Full ↔ limit ≤ length self.old.current }
    {
        if limit <= self.len() {
            return Err(PushFault::Full);
        }
        Ok(self.push_forced(message)?)
    }

    /// Appends a message regardless of the limit. If out of memory, nothing changed. A queue of `u32::MAX` messages
    /// counts as out of memory.
    pub fn push_forced(&mut self, message: Message) -> Result<(), AllocError>
        ensures ok { OnOk result (self.new ≡ record self.old { current = self.old.current ++ message ∷ [] }) }
        ensures err { OnErr result (self.new ≡ self.old) }
    {
        if MAX_MESSAGES <= self.messages.len() - self.taken {
            return Err(AllocError);
        }
        Ok(self.messages.push_back(message)?)
    }

    /// Removes the oldest message, if there is one.
    pub fn take(&mut self)
        ensures { self.new ≡ record self.old { current = drop 1 self.old.current } }
    {
        if self.taken < self.messages.len() {
            self.taken += 1;
        }
    }

    /// Returns the message at an index, counted from the oldest.
    pub fn message(&self, index: u32) -> &Message
        requires { index < length self.now.current }
        ensures { result.now ≡ slice_index_or self.now.current index result.now }
    {
        &self.messages[self.taken + index as usize]
    }

    /// Commits the changes. It allocates nothing.
    pub fn commit(&mut self)
        ensures { self.new ≡ list_at_rest self.old.current }
    {
        drop_front(&mut self.messages, self.taken);
        self.taken = 0;
        self.before = self.messages.len();
    }

    /// Rolls the changes back. It allocates nothing.
    pub fn roll_back(&mut self)
        ensures { self.new ≡ list_at_rest self.old.before }
    {
        self.messages.truncate(self.before);
        self.taken = 0;
    }
}

/// Drops the `count` oldest messages.
fn drop_front(messages: &mut VecDeque<Message>, count: usize)
    requires { count ≤ length messages.old.items }
    ensures { messages.new.items ≡ drop count messages.old.items }
{
    for _ in 0..count {
        messages.pop_front();
    }
}
