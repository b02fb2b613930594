//! Events of a core, and their answers as numbers.
use crate::store::TriedCore;
use codes::MAX_RECORDS;
use ipc_model::{Call, PlainCall};

/// No reply is given now.
pub(crate) const NOT_NOW: u64 = 1 << 40;

/// The epoch log takes no more records.
pub(crate) const EPOCH_FULL: u64 = 2 << 40;

/// Memory ran out.
pub(crate) const NO_MEMORY: u64 = 3 << 40;

/// A fault of the store has its number above this one.
pub(crate) const FAULT: u64 = 4 << 40;

/// The device failed.
pub(crate) const DEVICE: u64 = FAULT + 1;

/// The device failed before.
pub(crate) const FAILED: u64 = FAULT + 5;

/// An event of a core, which a table can hold.
#[derive(Clone, Copy)]
pub(crate) enum Asked {
    /// A receive right is allocated in space 1.
    Allocate,
    /// The type of a name of space 1 is asked for.
    Type(u32),
    Take,
    Append,
    Durable,
    Reply(u64),
}

/// An event, and its answer: for a call its ticket's number, for a ticket what the reply says, for any other 1 if it
/// was done and 0 if it can't be.
pub(crate) type AskedRow = (Asked, u64);

/// What an event answers.
fn answered<C: TriedCore>(core: &mut C, event: Asked) -> u64 {
    match event {
        Asked::Allocate => core.submit_call(&Call::Plain(PlainCall::Allocate { right: 1 })),
        Asked::Type(name) => core.submit_call(&Call::Plain(PlainCall::Type { name })),
        Asked::Take => u64::from(core.take_waiting()),
        Asked::Append => core.append_taken(),
        Asked::Durable => u64::from(core.hand_in()),
        Asked::Reply(ticket) => core.replied(ticket),
    }
}

/// The first row with another answer: which it is, and the answer.
pub(crate) fn unlike<C: TriedCore>(core: &mut C, rows: &[AskedRow]) -> Option<(usize, u64)> {
    for (index, (event, wanted)) in rows.iter().enumerate() {
        let seen = answered(core, *event);
        if seen != *wanted {
            return Some((index, seen));
        }
    }
    None
}

/// The port of the name 0x100 gets this sequence number.
const SET_SEQNO: Call = Call::Plain(PlainCall::SetSeqno {
    name: 0x100,
    seqno: 7,
});

/// Makes as many calls as an epoch log takes. Returns whether each gets a ticket.
pub(crate) fn fill<C: TriedCore>(core: &mut C) -> bool {
    if core.submit_call(&Call::Plain(PlainCall::Allocate { right: 1 })) >= NOT_NOW {
        return false;
    }
    let call = SET_SEQNO;
    for _ in 1..MAX_RECORDS {
        if core.submit_call(&call) >= NOT_NOW {
            return false;
        }
    }
    true
}
