//! The inspector: prints a store as lines or as a drawing, or copies it to a new store. It never writes to the store.
#![tactic(auto)]

mod copy_program;
mod copying;
mod fault;
mod live_reading;
mod looking;
mod printing;
mod program;
mod still_disk;
mod text;

pub use copy_program::{CopyEnd, copy_store, run_copy};
pub use copying::{CopyStoreFault, copy};
pub use fault::ListFault;
pub use live_reading::copies_stand;
pub use printing::{list, sketch};
pub use program::{ShowEnd, run_drawing, run_show, show, show_drawing};
pub use still_disk::{CopyFault, LiveSlots, StillDisk, live_copy, still_copy};
pub use text::{draw as draw_state, holders_are_listed, list as list_state};
