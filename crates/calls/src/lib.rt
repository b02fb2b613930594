//! The canonical encodings of calls and replies, as bytes and as frames.
#![tactic(auto)]

mod arguments;
mod call_bytes;
mod canonical_message;
mod encode;
mod frame;
mod numbered;
mod read;
mod record_options;
mod reply;
mod reply_bytes;
mod reply_rows;
mod request;
mod results;
mod word_rows;

pub use call_bytes::{push_call, push_canonical_call, read_call};
pub use encode::push_plain_call;
pub use reply_bytes::{
    push_numbered_reply, push_reply, read_recorded_reply, read_reply, reply_frame,
};
pub use request::{CallFault, MessageRequest, Request, read_request};
