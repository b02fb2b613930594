//! Opens a store: recovers the state from its slots, and repairs their ends.
#![tactic(auto)]

mod finding;
mod headers;
mod laws;
mod loading;
mod looking;
mod making;
mod opening;
mod reading;
mod survey;
mod value_after;

pub use kernel::{Kernel, Recorder};
pub use laws::{append_keeps_gate, crashes_keep_state, empty_slots_stand};
pub use looking::{Looked, look};
pub use opening::{Opened, open};
