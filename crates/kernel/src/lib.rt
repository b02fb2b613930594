//! The running machine: one call is one step.
#![tactic(auto)]

mod answering;
mod choices;
mod copying;
mod dispatch;
mod keeping;
mod kernel;
mod laws;
mod messages;
mod places;
mod recording;
mod replaying;
mod reply;
mod restored;
mod stepping;
mod testing;

pub use kernel::{Kernel, ReplayFault};
pub use laws::unrecorded_steps_change_nothing;
pub use recording::Recorder;
pub use restored::lawful;
pub use snapshot::Snapshot;
pub use snapshot_loading::SnapshotFault;
