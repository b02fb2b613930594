//! Images in their slots. An epoch's image is encoded in memory, and written piece by piece after a closed gate.
#![tactic(auto)]

mod steps;
mod writing;

pub use steps::PIECE;
pub use writing::Image;
