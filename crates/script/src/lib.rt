//! Lines and scripts of calls and their replies, in the words of Mach's headers: read and printed.
#![tactic(auto)]

mod bytes;
mod call;
mod fault;
mod item;
mod line;
mod message;
mod plain;
mod printing;
mod reply;
mod text;
mod values;
mod vocabulary;

pub use fault::{Expected, LineFault, ScriptFault};
pub use line::{read_line, read_request_line};
pub use printing::{Exchange, push_call, push_exchange, push_reply};
pub use text::{Line, read_script};
