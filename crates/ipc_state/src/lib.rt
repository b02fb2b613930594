//! The running state: the spaces with their names, the live ports, and the serial of the next port. Its changes are
//! committed or rolled back.
#![tactic(auto)]

mod carried;
mod copying;
mod counts;
mod deaths;
mod names;
mod port_changes;
mod sets;
mod space_table;
mod state;
mod waking;

pub use names::request_of;
pub use ports::PortNumbers;
pub use state::IpcState;
