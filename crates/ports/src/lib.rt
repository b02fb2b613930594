//! The live ports, with counts and indexes of the rights in their queues and requests. Changes are committed or rolled
//! back.
#![tactic(auto)]

mod burials;
mod changes;
mod deaths;
mod indexes;
mod next_port;
mod ports;
mod reads;
mod rights;

pub use live_ports::PortNumbers;
pub use ports::Ports;
