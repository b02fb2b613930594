//! The spaces with their names, whose changes are committed or rolled back.
#![tactic(auto)]

mod counting;
mod deaths;
mod indexes;
mod moves;
mod next_space;
mod numbers;
mod reads;
mod slot;
mod slots;
mod spaces;
mod table;
mod walks;

pub use port_indexes::PlaceIndex;
pub use spaces::Spaces;
pub use table::SpaceTable;
