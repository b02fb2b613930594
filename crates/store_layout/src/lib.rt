//! The contents of the slots of a store in use, and their changes by each step of a checkpoint.
#![tactic(auto)]
