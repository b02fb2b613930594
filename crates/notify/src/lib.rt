//! Requests for notifications, and notices as messages (Kernel Interfaces, "Notifications").
#![tactic(auto)]

mod encoding;
mod requests;

pub use encoding::{message, port_destroyed};
pub use requests::{replace_no_senders, replace_port_destroyed, with_request};
