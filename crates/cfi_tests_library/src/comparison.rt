//! What compares in the tests of this crate.
use std::fmt::{Debug, Display};
use std::process::Abort;

/// Fails the test if what is found in a case isn't what is expected.
///
/// It is generic, since each assertion over types that are named takes several times as long to
/// check as a call of it.
pub(crate) fn expect<C: Display + Copy, T: Debug + PartialEq>(
    rt: &impl Abort,
    case: C,
    found: &T,
    expected: &T,
) {
    assert_eq!(rt; *found, *expected, "{case}");
}
