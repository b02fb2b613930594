//! The journal: the segment in use with its batches of records, each after a gate of its own, and the creation of
//! segments.
#![tactic(auto)]

mod batch;
mod read;
mod roll;
mod segment;
mod window;

pub use batch::Batch;
pub use read::{PIECE, RecordReader};
pub use roll::{roll_close, roll_head, roll_open};
pub use segment::Segment;
pub use slot_steps::{CLOSED_GATE, OPEN_GATE};
pub use window::LONGEST_STEP;
