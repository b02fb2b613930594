//! Sends a message (Mach 3 Kernel Interfaces, `mach_msg`, `MACH_SEND_MSG`) on the running state. The order of the tests
//! is this server's (docs/CALLS.md).
#![tactic(auto)]

mod cited;
mod deliver;
mod fault;
mod full;
mod header;
mod items;
mod reading;
mod ready;
mod send_message;
mod take;

pub use cited::cited_names;
pub use fault::SendFault;
pub use send_message::send;
