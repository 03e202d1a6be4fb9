//! What these tests share: the assertion that two values are equal, as a call, and what views of numbers read.

use rkyv_btree::view::View;
use rkyv_btree_base::numbers::ArchivedU32;
use std::fmt::Debug;
use std::process::Abort;

/// Asserts that two values are equal.
pub(crate) fn same<T: PartialEq + Debug + Drop>(rt: &impl Abort, found: T, wanted: T) {
    assert_eq!(rt; found, wanted);
}

/// The number that a view reads.
pub(crate) fn number(view: View<ArchivedU32>) -> u32 {
    view.to_native()
}
