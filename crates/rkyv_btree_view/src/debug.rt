//! Views in messages, as what they read.

use crate::native::ToNative;
use crate::view::View;
use rkyv_btree_portable::check::Portable;
use rkyv_btree_portable::entry::Entry;
use rkyv_btree_portable::scalars::ArchivedNonZeroU32;
use rkyv_btree_portable::text::ArchivedText;
use rkyv_btree_types::map::ArchivedBTreeMap;
use rkyv_btree_types::set::ArchivedBTreeSet;
use std::fmt;

/// An archived type whose views can be shown in messages.
pub trait ViewDebug: Portable {
    /// Writes what the view reads.
    fn show<W: fmt::Write>(view: &View<'_, Self>, f: &mut fmt::Formatter<W>) -> fmt::Result;
}

impl<T: ToNative> ViewDebug for T {
    fn show<W: fmt::Write>(view: &View<'_, T>, f: &mut fmt::Formatter<W>) -> fmt::Result {
        fmt::Debug::fmt(&T::native(view), f)
    }
}

impl ViewDebug for ArchivedNonZeroU32 {
    fn show<W: fmt::Write>(
        view: &View<'_, ArchivedNonZeroU32>,
        f: &mut fmt::Formatter<W>,
    ) -> fmt::Result {
        fmt::Debug::fmt(&view.to_native(), f)
    }
}

impl ViewDebug for ArchivedText {
    fn show<W: fmt::Write>(
        view: &View<'_, ArchivedText>,
        f: &mut fmt::Formatter<W>,
    ) -> fmt::Result {
        fmt::Debug::fmt(view.as_str(), f)
    }
}

impl<K: ViewDebug, V: ViewDebug> ViewDebug for Entry<K, V> {
    fn show<W: fmt::Write>(view: &View<'_, Entry<K, V>>, f: &mut fmt::Formatter<W>) -> fmt::Result {
        let entry = Entry {
            key: view.key(),
            value: view.value(),
        };
        fmt::Debug::fmt(&entry, f)
    }
}

impl<K: ViewDebug, V: ViewDebug, const E: usize> ViewDebug for ArchivedBTreeMap<K, V, E> {
    fn show<W: fmt::Write>(
        view: &View<'_, ArchivedBTreeMap<K, V, E>>,
        f: &mut fmt::Formatter<W>,
    ) -> fmt::Result {
        f.debug_map().entries(view.iter()).finish()
    }
}

impl<K: ViewDebug, const E: usize> ViewDebug for ArchivedBTreeSet<K, E> {
    fn show<W: fmt::Write>(
        view: &View<'_, ArchivedBTreeSet<K, E>>,
        f: &mut fmt::Formatter<W>,
    ) -> fmt::Result {
        f.debug_set().entries(view.iter()).finish()
    }
}

impl<'a, T: ViewDebug> fmt::Debug for View<'a, T> {
    fn fmt<W: fmt::Write>(&self, f: &mut fmt::Formatter<W>) -> fmt::Result {
        T::show(self, f)
    }
}
