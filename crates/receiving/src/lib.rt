//! Receives a message (Mach 3 Kernel Interfaces, `mach_msg`, `MACH_RCV_MSG`) on the running state. The order of the
//! tests is this server's (docs/CALLS.md).
#![tactic(auto)]

mod asked;
mod encoding;
mod looking;
mod receiving;
mod shown;
mod source;

pub use asked::{Asked, Preference};
pub use receiving::receive;
pub use shown::names_shown;
