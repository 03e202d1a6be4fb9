//! The assertion that two values are equal, as a call: what borrows at a call is checked sooner than the macro written out.
//! What it asserts isn't known after it. Where a later line needs it, `assert!` says it in place.

use std::alloc::{AllocError, Global};
use std::fmt::Debug;
use std::process::Abort;

/// Asserts that two values are equal.
pub(crate) fn same<T: PartialEq + Debug + Drop>(rt: &impl Abort, found: T, wanted: T) {
    assert_eq!(rt; found, wanted);
}

/// What a value shows of itself.
pub(crate) fn shown<T: Debug>(alloc: Global, value: &T) -> Result<String, AllocError> {
    format!(in alloc; "{value:?}")
}
