//! Prints a state of the machine as lines of text for people and scripts, and as a drawing for Graphviz.
mod drawing;
mod laws;
mod line;
mod listing;
mod standing;
mod stroke;
mod tally;
mod walk;

pub use drawing::draw;
pub use laws::holders_are_listed;
pub use listing::list;
