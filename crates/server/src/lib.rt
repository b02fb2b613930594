//! The server: frames in, each call made and stored, replies out.
#![tactic(auto)]

mod alone;
mod ending;
mod laws;
mod lock;
mod program;

pub use alone::Alone;
pub use ending::SocketEnd;
pub use frame_service::{Caller, ServeFault, serve, shortage};
pub use laws::{
    answer_says_confined, answered_is_stored, breaking_loses_nothing, confined_connections_stay,
    failure_loses_nothing, frame_is_stored,
};
pub use lock::{FolderLock, LockFault, LockFile, lock_disk, lock_folder};
pub use program::{LoneEnd, lone, run_alone, serve_disk};
pub use system::{Event, Kernel, Opened, Outcome, SubmitFault, System, open};
