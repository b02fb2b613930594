//! Frames on a byte stream. A frame is the length of its content, from 4 to 65,532, in four bytes, followed by the
//! content: a call's number in four bytes, and the call's arguments. Every number is little-endian.
#![tactic(auto)]

mod fault;
mod frame;
mod read;
mod write;

pub use fault::WireFault;
pub use frame::Frame;
pub use read::read_frame;
pub use write::{write_bytes, write_frame};
