//! Worked examples of the abstract specification, computed on its definitions. `specs` has them, and nothing depends on
//! them.
#![tactic(auto)]
