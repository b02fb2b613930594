use disk::Torn;
use std::alloc::AllocError;
use std::fmt;
use store_fault::StoreFault;

/// The reason why a frame has no reply.
#[derive(Clone, Copy)]
pub enum Unanswered {
    /// The server ended instead.
    NoReply,
    /// The task couldn't be attached to its former space again.
    Detached,
}

/// A difference from the expected result of a line.
#[derive(Drop)]
pub enum Difference {
    /// The reply was this frame.
    Reply(Vec<u8>),
    /// There was no reply.
    Unanswered(Unanswered),
    /// The length of segment 0 was this one.
    Length(u64),
    /// The store couldn't be opened.
    Unopened(StoreFault),
    /// The number of records was neither that of the answered calls nor one more.
    Records,
}

/// A line of a script, and the way in which the script is run.
#[derive(Clone, Copy)]
pub struct Place {
    pub line: u32,
    pub way: Way,
}

/// The way in which a script is run.
#[derive(Clone, Copy)]
pub enum Way {
    /// On one server.
    Straight,
    /// On a store that crashes and is opened again after each call.
    Reopened,
    /// On a store that crashes at a device call of each append.
    Crashed(Crash),
}

/// A crash at one of the device calls of an append.
#[derive(Clone, Copy)]
pub struct Crash {
    /// The number of the device call, from 1.
    pub at: u64,
    /// The contents that the crash leaves.
    pub torn: Torn,
}

impl fmt::Display for Way {
    fn fmt<W: fmt::Write>(&self, f: &mut fmt::Formatter<W>) -> fmt::Result {
        match self {
            Way::Straight => f.write_str("on one server"),
            Way::Reopened => f.write_str("the store opened again after each call"),
            Way::Crashed(Crash { at, torn }) => {
                write!(f, "stopped at device call {at} of each append ({torn:?})")
            }
        }
    }
}

/// The reason why a script wasn't run to its end.
#[derive(Drop)]
pub enum Failure {
    NoMemory,
    At {
        place: Place,
        difference: Difference,
    },
}

impl Place {
    /// Returns the place of the opening of a script's store.
    pub fn start(way: Way) -> Place {
        Place { line: 0, way }
    }

    /// Returns the failure with this difference.
    pub fn differs(self, difference: Difference) -> Failure {
        Failure::At {
            place: self,
            difference,
        }
    }
}

impl From<AllocError> for Failure {
    fn from(_: AllocError) -> Self {
        Failure::NoMemory
    }
}
