//! Assertions of the tests. Each is a function, because an assertion is proved at each place where it is written.
use std::fmt::Debug;
use std::process::Abort;

/// Checks that `got` is `want`.
pub(crate) fn expect_eq<T: Copy + PartialEq + Debug>(rt: &impl Abort, got: T, want: T) {
    assert!(rt; got == want, "{:?} in place of {:?}", got, want);
}

/// Checks that `got` is `want`. The message of a failure shows `what` they belong to.
pub(crate) fn expect_eq_of<W: Copy + Debug, T: Copy + PartialEq + Debug>(
    rt: &impl Abort,
    what: W,
    got: T,
    want: T,
) {
    assert!(rt; got == want, "{:?}: {:?} in place of {:?}", what, got, want);
}

/// Checks a condition. The message of a failure says what was expected.
pub(crate) fn expect(rt: &impl Abort, is_so: bool, what: &str) {
    assert!(rt; is_so, "expected that {what}");
}
