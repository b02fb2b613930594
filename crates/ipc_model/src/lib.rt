//! The abstract specification of the machine: its states, its calls, and what each call may answer.
#![tactic(auto)]

mod call;
mod entry;
mod message;
mod plain_call;
mod plain_reply;
mod port;
mod ranges;
mod record;
mod reply;
mod sequence;
mod size;

pub use call::{Call, NumberedCall};
pub use entry::{Entry, PortRights};
pub use message::{CarriedRight, Message, PortInMessage, RightKind};
pub use plain_call::PlainCall;
pub use plain_reply::{NamedType, PlainReply, ReceiveStatus};
pub use port::PortState;
pub use ranges::{call_in_range, plain_call_in_range, plain_reply_in_range, reply_in_range};
pub use record::Record;
pub use reply::{NumberedReply, Reply};
pub use sequence::Sequence;
pub use size::is_message_size;
