//! A state of the machine as plain values, which images encode and inspectors print.
#![tactic(auto)]

mod ascending;
mod rows;

pub use ascending::{Numbered, ascends};
pub use rows::{IpcSnapshot, LivePort, NamedEntry, Snapshot, Space};
