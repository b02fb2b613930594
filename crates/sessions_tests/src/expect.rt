//! What a test compares. Only this function contains an assertion, and what is compared is made by functions without
//! clauses: a test's proof then carries neither the branch of an assertion nor what a call of the library says.

use std::fmt::Debug;
use std::process::Abort;

/// Compares what was seen with what is expected.
pub(crate) fn same<T: PartialEq + Debug + Drop>(rt: &impl Abort, seen: T, wanted: T) {
    assert_eq!(rt; seen, wanted);
}
