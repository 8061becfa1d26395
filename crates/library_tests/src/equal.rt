//! `assert_eq!` as calls. The code of a macro is proved at each place that uses it, which takes one
//! or two seconds each time.

use std::fmt::{Debug, Display};
use std::process::Abort;

/// Ends the test if two values differ.
pub(crate) fn check_equal<R: Abort, T: PartialEq + Debug + Drop>(rt: &R, left: T, right: T) {
    assert_eq!(rt; left, right);
}

/// The same, with a note that says for what.
pub(crate) fn check_equal_for<R: Abort, T: PartialEq + Debug + Drop, D: Display + Drop>(
    rt: &R,
    left: T,
    right: T,
    note: D,
) {
    assert_eq!(rt; left, right, "{note}");
}
