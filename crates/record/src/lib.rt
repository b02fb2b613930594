//! The canonical encoding of records.
#![tactic(auto)]

mod frame;
mod ranges;
mod read;
mod write;

pub use frame::take_frame;
pub use ranges::in_range;
pub use read::take_record;
pub use write::{push_exchange, push_record};
