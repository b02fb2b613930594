//! The core of the server, without threads: a half that makes calls, a half that stores them, and the events of both.
#![tactic(auto)]

mod checkpointing;
mod event;
mod going_on;
mod kernel_half;
mod laws;
mod stepping;
mod system;
mod ticket;
mod witness;

pub use event::{Event, Outcome};
pub use kernel_half::{KernelHalf, SubmitFault};
pub use laws::{calls_are_made_once, crashes_keep_calls};
pub use store_half::{Kernel, Opened, Taken, open};
pub use system::{CallFault, System};
pub use ticket::Ticket;
pub use witness::Witness;
