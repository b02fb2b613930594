//! Comparisons of tests. Only these functions contain assertions, and the compared values come from functions without
//! contracts. So a test's proof carries neither the branch of an assertion nor the contracts of the library.

use std::fmt::Debug;
use std::process::Abort;

/// Compares a value with the expected one.
pub(crate) fn same<T: PartialEq + Debug + Drop>(rt: &impl Abort, seen: T, wanted: T) {
    assert_eq!(rt; seen, wanted);
}

/// Compares a value in a row of a table with the expected one.
pub(crate) fn same_in_row<T: PartialEq + Debug + Drop>(
    rt: &impl Abort,
    row: impl Debug + Drop,
    seen: T,
    wanted: T,
) {
    assert_eq!(rt; seen, wanted, "{row:?}");
}
