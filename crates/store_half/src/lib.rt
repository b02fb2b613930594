//! The store half of the core: it stores batches in the segment in use, and the steps of a checkpoint create the next
//! segment and the next image.
#![tactic(auto)]

mod clearing;
mod epoch_log;
mod receipt;
mod store_half;
mod under_way;

pub use epoch_log::{EpochLog, Taken};
pub use receipt::{Finished, Receipt};
pub use recover::{Kernel, Opened, Recorder, open};
pub use store_half::StoreHalf;
pub use under_way::Cut;
