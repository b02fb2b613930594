//! Epoch logs, and the records that they release to be stored. Only an epoch log releases such records.
mod log;
mod taken;

pub use log::EpochLog;
pub use taken::Taken;
