//! The names of one port name space, with an index by port and the least unused name. Changes are committed or rolled
//! back.
#![tactic(auto)]

mod space;
mod tables;

pub use space::PortSpace;
