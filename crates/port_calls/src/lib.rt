//! The calls on names and ports: the tests of each call in their order, and its effect on the state.
#![tactic(auto)]

mod allocation;
mod entry;
mod modifying;
mod moves;
mod name_lookup;
mod numbers;
mod reads;
mod references;
mod removal;
mod renaming;
mod reply;
mod requests;
mod right_transfer;
mod space_calls;

pub use allocation::{allocate, allocate_name};
pub use modifying::mod_refs;
pub use moves::move_member;
pub use numbers::{set_mscount, set_qlimit, set_seqno};
pub use reads::{get_refs, get_set_status, names, port_type, receive_status};
pub use references::deallocate;
pub use removal::destroy;
pub use renaming::rename;
pub use requests::{NoticeRequest, request_notification};
pub use right_transfer::{extract_right, insert_right};
pub use rights::IpcState;
pub use space_calls::{attach, space_create, space_destroy};
