//! The places where calls wait that can't proceed, and the places that a step must report so that no wake-up is lost.
#![tactic(auto)]

mod places;

pub use places::{Places, is_place_of_port, place_of_name, place_of_port};
