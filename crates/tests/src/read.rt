//! What views read, as functions that many tests hand on: a closure is proved anew at each place where it's written.

use rkyv_btree::view::View;
use rkyv_btree_base::numbers::ArchivedU32;
use rkyv_btree_base::text::ArchivedText;

/// The number that a view reads.
pub(crate) fn number(view: View<ArchivedU32>) -> u32 {
    view.to_native()
}

/// The numbers of an entry.
pub(crate) fn numbers(entry: (View<ArchivedU32>, View<ArchivedU32>)) -> (u32, u32) {
    (entry.0.to_native(), entry.1.to_native())
}

/// The number that is an entry's value.
pub(crate) fn value(entry: (View<ArchivedU32>, View<ArchivedU32>)) -> u32 {
    entry.1.to_native()
}

/// The text and the number of an entry.
pub(crate) fn text_and_number<'a>(
    entry: (View<'a, ArchivedText>, View<'a, ArchivedU32>),
) -> (&'a str, u32) {
    (entry.0.as_str(), entry.1.to_native())
}
