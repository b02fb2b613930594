//! Indexes of places by a number that each place has, and counts by pairs of numbers. Changes are committed or rolled
//! back.
#![tactic(auto)]

mod counts;
mod index;

pub use counts::PairCounts;
pub use index::PlaceIndex;
