//! A copy in memory of the four slots of a store, which doesn't change while the store does.
mod copying;
mod fault;
mod fronts;
mod live;
mod pieces;
mod still;

pub use copying::{live_copy, still_copy};
pub use fault::CopyFault;
pub use live::LiveSlots;
pub use still::StillDisk;
