//! How tests compare.
use std::fmt::Debug;
use std::process::Abort;

/// Ends the test if what was found isn't what is wanted, and prints both and of what they are.
pub(crate) fn assert_same<R: Abort, W: Debug, T: Debug + PartialEq>(
    rt: &R,
    what: &W,
    found: &T,
    wanted: &T,
) {
    assert_eq!(rt; found, wanted, "{what:?}");
}
