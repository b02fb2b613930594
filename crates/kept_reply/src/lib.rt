//! The replies to numbered calls that spaces keep, and their frames.
#![tactic(auto)]

mod frame;
mod judging;

pub use frame::{push_kept_reply, take_kept_reply};
pub use judging::may_be_kept;
