//! Builds the running state of a snapshot, if it is the snapshot of a lawful state.
#![tactic(auto)]

mod bodies;
mod climbing;
mod filling;
mod linking;
mod making;
mod receivers;
mod shape;

pub use making::{SnapshotFault, lawful, restore};
