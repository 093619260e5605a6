//! What the tests of streams assert of results.
use std::fmt::Debug;
use std::process::Abort;

/// Asserts that a value is this one.
pub fn equal<T: Abort, X: PartialEq + Debug>(rt: &T, found: &X, want: &X, shows: &str) {
    assert_eq!(rt; found, want, "{shows}");
}

/// Asserts that a list is this one.
pub fn same<T: Abort, X: PartialEq + Debug>(rt: &T, found: &[X], want: &[X], shows: &str) {
    assert_eq!(rt; found, want, "{shows}");
}
