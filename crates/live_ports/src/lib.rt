//! The live ports, whose changes are committed or rolled back without allocations.
#![tactic(auto)]

mod keys;
mod next_port;
mod port;
mod ports;
mod slots;
mod tables;

pub use port::PortNumbers;
pub use ports::LivePorts;
