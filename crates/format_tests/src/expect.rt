//! Comparisons of tests. Only these functions contain assertions, and the compared values come from functions without
//! contracts. So a test's proof carries neither the branch of an assertion nor the contracts of the library.

use std::fmt::Debug;
use std::process::Abort;

/// Compares a value with the expected one.
pub(crate) fn same<T: PartialEq + Debug + Drop>(rt: &impl Abort, seen: T, wanted: T) {
    assert_eq!(rt; seen, wanted);
}

/// Compares a value in a row of a table with the expected one.
pub(crate) fn same_in_row<T: PartialEq + Debug + Drop>(
    rt: &impl Abort,
    row: impl Debug + Drop,
    seen: T,
    wanted: T,
) {
    assert_eq!(rt; seen, wanted, "{row:?}");
}

/// Returns true if there is a value, and drops it.
pub(crate) fn is_there<T: Drop>(value: Option<T>) -> bool {
    value.is_some()
}

/// Compares bytes, which must be there.
pub(crate) fn same_bytes(rt: &impl Abort, seen: Option<Vec<u8>>, wanted: &[u8]) {
    assert_eq!(rt; seen.as_deref(), Some(wanted));
}
