//! Prints calls and their replies as lines of text, in the words of Mach's headers.
mod bytes;
mod call;
mod item;
mod line;
mod message;
mod reply;
mod values;

pub use line::{Exchange, push_call, push_exchange, push_reply};
