//! The first and the last entry of a map, and key of a set.
ghost use Rattle.std.specs.List.{last_or};
ghost use Rattle.std.specs.Option.{option_map};
ghost use Rattle.std.specs.Prelude.{◌≡◌, None, slice_get};
ghost use Rattle.rkyv_btree_view.specs.Set.{keys_of};
ghost use Rattle.rkyv_btree_view.specs.View.{entries_of, view_entry, view_value};

use crate::iter::entry;
use crate::map_view::ShowsEntries;
use crate::view::View;
use rkyv_btree_portable::check::Portable;
use rkyv_btree_types::map::ArchivedBTreeMap;
use rkyv_btree_types::set::ArchivedBTreeSet;
use rkyv_btree_walk::archived_map::ArchivedMap;
use rkyv_btree_walk::last_entry;

impl<'a, K: Portable, V: Portable, M: ArchivedMap<Key = K, Mapped = V> + ShowsEntries> View<'a, M> {
    /// Returns the first entry, or `None` if the map is empty. At most one node a level is read.
    pub fn first(self) -> Option<(View<'a, K>, View<'a, V>)>
        ensures { option_map view_entry result
            ≡ slice_get (entries_of K.kind V.kind M.E self.entry) 0 }
    {
        self.walk().next()
    }

    /// Returns the last entry, or `None` if the map is empty. At most one node a level is read.
    pub fn last(self) -> Option<(View<'a, K>, View<'a, V>)>
        ensures { option_map view_entry result
            ≡ last_or None (entries_of K.kind V.kind M.E self.entry) }
    {
        match last_entry::last::<K, V, M>(self.buf, self.pos) {
            None => None,
            Some(place) => Some(entry::<K, V, M>(self.buf, self.pos, place)),
        }
    }
}

impl<'a, K: Portable, const E: usize> View<'a, ArchivedBTreeSet<K, E>> {
    /// Returns the first key, or `None` if the set is empty. At most one node a level is read.
    pub fn first(self) -> Option<View<'a, K>>
        ensures { option_map view_value result ≡ slice_get (keys_of K.kind E self.entry) 0 }
    {
        match View::<ArchivedBTreeMap<K, (), E>>::first(self.as_map()) {
            None => None,
            Some((key, _)) => Some(key),
        }
    }

    /// Returns the last key, or `None` if the set is empty. At most one node a level is read.
    pub fn last(self) -> Option<View<'a, K>>
        ensures { option_map view_value result ≡ last_or None (keys_of K.kind E self.entry) }
    {
        match View::<ArchivedBTreeMap<K, (), E>>::last(self.as_map()) {
            None => None,
            Some((key, _)) => Some(key),
        }
    }
}
