//! Images: the canonical encoding of states.
#![tactic(auto)]

mod encoded;
mod entries;
mod fault;
mod image;
mod laws;
mod messages;
mod ports;
mod spaces;

pub use fault::ImageFault;
pub use image::{read, write_into};
pub use laws::{image_is_of_state, lawful_snapshots_fit};
