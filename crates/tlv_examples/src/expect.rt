//! The assertion of the examples.
use std::fmt::Debug;
use std::process::Abort;

/// Checks that `got` is `want`.
pub(crate) fn expect_eq<T: Copy + PartialEq + Debug>(rt: &impl Abort, got: T, want: T) {
    assert!(rt; got == want, "{:?} in place of {:?}", got, want);
}
