//! Port sets: their members, and ports that move between them.
#![tactic(auto)]

mod member;
mod moves;

pub use member::{member_ports, members, received_port, received_ports};
pub use moves::{move_member, move_ports};
