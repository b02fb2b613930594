//! Sessions of one history under two locks: calls by many threads, stored in batches, each session with its own history
//! proved.
#![tactic(auto)]

mod checkpointing;
mod closing;
mod flushing;
mod gate;
mod guarded;
mod lines;
mod replies;
mod seat;
mod shared;
mod turn;
mod turns_due;
mod waiters;

pub use closing::{Book, Unmatched, close};
pub use gate::{Gate, LoopStep, OpenGate};
pub use history::NewMark;
pub use keepers::{
    Admission, Admissions, CatchUpFault, EntryBlock, EntryNote, Founding, Latest, MOST_SESSIONS,
    MeetFault, Session, Unmet, meet,
};
pub use replies::Report;
pub use seat::{Peer, Seat, Worker};
pub use shared::Shared;
pub use turn::{NotMade, Turn};
