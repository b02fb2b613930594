//! Copy in takes a right from a name; copy out puts a right under a name.
#![tactic(auto)]

mod arrivals;
mod copy_in;
mod copy_out;
mod left;
mod wanted;

pub use arrivals::{arrival_needed, arrive};
pub use copy_in::take_right;
pub use copy_out::{arrival_name, may_arrive, put_right};
pub use ipc_state::{IpcState, PortNumbers, request_of};
pub use left::{announce_left, is_empty, set_left};
pub use wanted::names_needed;
