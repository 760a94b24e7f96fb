//! The assertion of the tests as a function. A test that calls it has fewer branches, and is proved sooner.

use std::fmt::Debug;
use std::process::Abort;

/// Asserts that two values are equal. The message of a failure names `what`.
pub fn same<T: PartialEq + Debug + Drop>(rt: &impl Abort, what: &str, found: T, wanted: T) {
    assert_eq!(rt; found, wanted, "{what}");
}
