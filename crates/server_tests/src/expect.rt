//! What a test compares. Only these functions contain assertions, so that a test's proof doesn't carry their branches.

use std::fmt::Debug;
use std::process::Abort;

/// Compares what was seen with what is expected.
pub(crate) fn same<T: PartialEq + Debug + Drop>(rt: &impl Abort, seen: T, wanted: T) {
    assert_eq!(rt; seen, wanted);
}

/// Compares what was seen in a row of a table with what is expected.
pub(crate) fn same_in_row<T: PartialEq + Debug + Drop>(
    rt: &impl Abort,
    row: impl Debug + Drop,
    seen: T,
    wanted: T,
) {
    assert_eq!(rt; seen, wanted, "{row:?}");
}
