//! The reasons why a store couldn't be opened or written, with the numbers and messages that programs print.
#![tactic(auto)]

mod fault;

pub use fault::StoreFault;
