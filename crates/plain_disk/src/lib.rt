//! A disk in memory that only stores its slots, for measurements and for tests of many calls. It has no disk model: a
//! sync does nothing.
#![tactic(auto)]

mod plain;

pub use plain::PlainDisk;
