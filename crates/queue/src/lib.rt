//! The queue of a port's messages. Its changes are committed or rolled back.
#![tactic(auto)]

mod queue;

pub use queue::{PushFault, Queue};
