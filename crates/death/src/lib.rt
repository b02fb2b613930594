//! Effects of released rights: notices, and the death of ports. This crate drains the effects of a call.
#![tactic(auto)]

mod notices;
mod receive;
mod release;
mod settling;

pub use settling::settle;
