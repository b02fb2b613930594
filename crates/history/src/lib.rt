//! One history of all sessions, in blocks of cells that are set once and read with no lock; and how many of its records
//! are stored, as tokens: whoever has one knows that so many are, for good.
#![tactic(auto)]

mod block;
mod cell;
mod copies;
mod entry;
mod fault;
mod founding;
mod held;
mod link;
mod mark;
mod meeting;
mod notes;
mod past;
mod place;
mod reading;
mod tokens;

pub use block::EntryBlock;
pub use entry::Entry;
pub use fault::{AddFault, CatchUpFault};
pub use founding::Founding;
pub use mark::{Mark, NewMark};
pub use past::Past;
pub use reading::EntryNote;
pub use tokens::{Stored, Storing};
