//! Message headers (`mach_msg_header_t`, Mach 3 Kernel Interfaces): six little-endian words of four bytes, which are
//! bits, size, remote port, local port, sequence number and id.
#![tactic(auto)]

mod header;
mod laws;

pub use header::{Header, parse};
pub use laws::{header_and_body_are_a_message, written_headers_are_read};
