//! Steps on one slot of a store: close its gate, write the bytes after the gate, open the gate, or clear the slot.
#![tactic(auto)]

mod slots;
mod steps;

pub use slots::{CLOSED_GATE, IMAGE_HEADER, OPEN_GATE, SEGMENT_HEADER, image_slot, segment_slot};
pub use steps::{clear_slot, close_slot, cut_after, sync_after, write_after, write_gate};
