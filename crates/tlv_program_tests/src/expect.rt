//! The assertion of the tests.
use std::fmt::Debug;
use std::process::Abort;

/// Checks that `got` is `want`. The message of a failure shows `what` they belong to. This is a function because each
/// `assert_eq!` is proved anew.
pub(crate) fn expect_eq_of<W: Copy + Debug, T: Copy + PartialEq + Debug>(
    rt: &impl Abort,
    what: W,
    got: T,
    want: T,
) {
    assert!(rt; got == want, "{:?}: {:?} in place of {:?}", what, got, want);
}
