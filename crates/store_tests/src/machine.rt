//! A kernel as the tests use it. Its methods have no contracts, so that a test's proof needn't carry the contracts of a
//! kernel through each exit of a function that owns one.

use crate::asked::Asked;
use crate::recorded::Counter;
use ipc_model::{Call, PlainCall, PlainReply, Record, Reply};
use kernel::{Kernel, ReplayFault};
use snapshot::Snapshot;
use std::alloc::Global;
use waiting::Places;

/// The first words of a reply's frame.
pub(crate) type Words = [u32; 4];

/// Makes calls and replays records.
pub(crate) trait Machine {
    /// Creates a machine in the opening state, or returns `None` if out of memory.
    fn opened(alloc: Global) -> Option<Self>;

    /// Creates a machine in the state of a copy, or returns `None` if it isn't one of a kernel.
    fn of_copy(alloc: Global, copy: Snapshot) -> Option<Self>;

    /// Returns a copy of the state, or `None` if out of memory.
    fn copied(&self, alloc: Global) -> Option<Snapshot>;

    /// Returns this machine after a record's step.
    fn replayed(self, record: &Record) -> Result<Self, ReplayFault>;

    /// Makes a call, or returns `None` if out of memory.
    fn make(&mut self, space: u32, call: &Call) -> Option<Words>;

    /// Makes a call of space 1, or returns `None` if there is no memory for it and its record.
    fn make_recorded(&mut self, alloc: Global, call: &Call, counter: &mut Counter) -> Option<Words>;

    /// Returns the reply to a call that isn't recorded, or `None` if out of memory.
    fn answered(&self, space: u32, call: &Call) -> Option<Option<Words>>;

    /// Returns the same without a copy of the state.
    fn answered_in_place(&mut self, space: u32, call: &Call) -> Option<Option<Words>>;

    /// Returns the type of a name.
    fn type_of(&self, space: u32, name: u32) -> Words;

    /// Returns the send references of the name 0x100 in space 1.
    fn references(&self) -> Words;

    /// Returns the status of the port of that name.
    fn status(&self) -> Words;
}

/// Returns the first words of a reply's frame that are compared here: the call's number, the code, and two results; of
/// a port's status the messages and the make-send count; of a message its code, size and member, and the call's number.
fn words_of(reply: &Reply) -> Words {
    match reply {
        Reply::Plain(PlainReply::Refused { number, code }) => [*number, code.number(), 0, 0],
        Reply::Plain(PlainReply::Done { number }) => [*number, 0, 0, 0],
        Reply::Plain(PlainReply::Type { bits }) => [2, 0, *bits, 0],
        Reply::Plain(PlainReply::Allocate { name }) => [5, 0, *name, 0],
        Reply::Plain(PlainReply::References { count }) => [8, 0, *count, 0],
        Reply::Plain(PlainReply::ReceiveStatus { status }) => [
            13,
            0,
            status.messages,
            status.make_send_count,
        ],
        Reply::Plain(
            PlainReply::Message {
                code,
                size,
                member,
                ..
            },
        ) => [code.number(), *size, *member, 19],
        Reply::Plain(PlainReply::SpaceCreated { space, name }) => [20, 0, *space, *name],
        _ => [u32::MAX; 4],
    }
}

/// Returns the words of a reply, and drops it.
fn words(reply: Reply) -> Words {
    let words = words_of(&reply);
    drop(reply);
    words
}

/// Returns the words of a reply, if there is one.
fn words_of_answer(answer: Option<Reply>) -> Option<Words> {
    Some(words(answer?))
}

impl Machine for Kernel {
    fn opened(alloc: Global) -> Option<Kernel> {
        Kernel::opening(alloc).ok()
    }

    fn of_copy(alloc: Global, copy: Snapshot) -> Option<Kernel> {
        Kernel::from_snapshot(alloc, copy).ok()
    }

    fn copied(&self, alloc: Global) -> Option<Snapshot> {
        self.copy(alloc).ok()
    }

    fn replayed(self, record: &Record) -> Result<Kernel, ReplayFault> {
        self.replay(record)
    }

    fn make(&mut self, space: u32, call: &Call) -> Option<Words> {
        Some(words(self.apply(space, call).ok()?))
    }

    fn make_recorded(
        &mut self,
        alloc: Global,
        call: &Call,
        counter: &mut Counter,
    ) -> Option<Words> {
        let mut places = Places::none(alloc);
        let made = self.apply_recorded(1, call, counter, &mut places);
        drop(places);
        Some(words(made.ok()?))
    }

    fn answered(&self, space: u32, call: &Call) -> Option<Option<Words>> {
        Some(words_of_answer(self.answer(space, call).ok()?))
    }

    fn answered_in_place(&mut self, space: u32, call: &Call) -> Option<Option<Words>> {
        Some(words_of_answer(self.answer_in_place(space, call).ok()?))
    }

    fn type_of(&self, space: u32, name: u32) -> Words {
        words(self.port_type(space, name))
    }

    fn references(&self) -> Words {
        words(self.get_refs(1, 0x100, 1))
    }

    fn status(&self) -> Words {
        words(self.receive_status(1, 0x100))
    }
}

/// Makes a call, and drops it.
pub(crate) fn make<M: Machine>(machine: &mut M, space: u32, call: Call) -> Option<Words> {
    let words = machine.make(space, &call);
    drop(call);
    words
}

/// Makes a call that consists of numbers.
pub(crate) fn ask<M: Machine>(machine: &mut M, space: u32, asked: Asked) -> Option<Words> {
    make(machine, space, asked.call())
}

/// Makes calls of space 1, regardless of their replies.
pub(crate) fn ask_all<M: Machine>(machine: &mut M, calls: &[Asked]) -> Option<()> {
    for asked in calls {
        ask(machine, 1, *asked)?;
    }
    Some(())
}

/// Returns a machine in the state after a record.
fn after<M: Machine>(alloc: Global, record: &Record) -> Option<M> {
    M::opened(alloc)?.replayed(record).ok()
}

/// Returns the record of an allocation in space 1.
pub(crate) fn allocated(right: u32, name: u32) -> Record {
    Record {
        space: 1,
        call: Call::Plain(PlainCall::Allocate { right }),
        reply: Reply::Plain(PlainReply::Allocate { name }),
    }
}

/// Returns a machine in the state after an allocation.
pub(crate) fn after_allocated<M: Machine>(alloc: Global, right: u32, name: u32) -> Option<M> {
    let record = allocated(right, name);
    let machine = after(alloc, &record);
    drop(record);
    machine
}
