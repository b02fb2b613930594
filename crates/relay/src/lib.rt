//! The library of `machc`, the client on a command line: it sends the frames of its input, or the calls in lines of a
//! script, to a peer one after another, and writes the replies to its output.
#![tactic(auto)]

mod ask;
mod end;
mod exchange;
mod shell;

pub use ask::{ask_peer, run_client};
pub use end::RelayEnd;
pub use exchange::{next_reply, relay, send};
pub use shell::{push_attempt, run_shell, script_socket};
