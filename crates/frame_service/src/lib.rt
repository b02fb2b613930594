//! Frames in, each call made, replies out, generic in what makes the calls; and what lies between frames and a stream
//! that doesn't wait: bytes that came, and bytes that are to go out.
#![tactic(auto)]

mod ahead;
mod asking;
mod caller;
mod confining;
mod conversation;
mod conversing;
mod inbox;
mod outbox;
mod pending;
mod rounds;
mod service;
mod short_reply;
mod taking;

pub use asking::{Asker, PendingFrame, Ready};
pub use caller::{Caller, shortage};
pub use confining::{Shown, attach_to, is_kept};
pub use conversation::Conversation;
pub use conversing::Tried;
pub use inbox::{Filled, Inbox, Source};
pub use outbox::Outbox;
pub use pending::PendingFrames;
pub use rounds::MOST_PENDING_FRAMES;
pub use service::{ServeFault, serve};
pub use short_reply::ShortReply;
