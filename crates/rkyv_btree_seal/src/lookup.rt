//! Lookups in a map whose values are written in place: those of its view, without a call of `as_view`.
ghost use Rattle.std.specs.List.{last_or};
ghost use Rattle.std.specs.Option.{option_map};
ghost use Rattle.std.specs.Prelude.{◌≡◌, ◌↔◌, [], IsTrue, None, length, slice_get};
ghost use Rattle.rkyv_btree_format.specs.Read.{read_map};
ghost use Rattle.rkyv_btree_seal.specs.Looking.{ByView};
ghost use Rattle.rkyv_btree_view.specs.Lookup.{ByNative};
ghost use Rattle.rkyv_btree_view.specs.Lookups.{IsLookup, IsNativeLookup, IsWhetherFound};
ghost use Rattle.rkyv_btree_view.specs.Native.{ByReading};
ghost use Rattle.rkyv_btree_view.specs.View.{view_entry, view_value};

use crate::map_seal::MapSeal;
use rkyv_btree_portable::check::Portable;
use rkyv_btree_view::compare::ViewOrd;
use rkyv_btree_view::compare_native::CompareWith;
use rkyv_btree_view::map_view::ShowsEntries;
use rkyv_btree_view::native::ToNative;
use rkyv_btree_view::view::View;
use rkyv_btree_walk::archived_map::ArchivedMap;

impl<'a, K: Portable, V: Portable, M: ArchivedMap<Key = K, Mapped = V> + ShowsEntries> MapSeal<
    'a,
    M,
> {
    /// Returns the number of entries, which is read from the map's own bytes.
    pub fn len(&self) -> usize
        ensures { result ≡ length (read_map K.kind V.kind M.E self.now.buf.now self.now.pos) }
    {
        self.as_view().len()
    }

    /// Returns whether there are no entries.
    pub fn is_empty(&self) -> bool
        ensures { IsTrue result
            ↔ (read_map K.kind V.kind M.E self.now.buf.now self.now.pos ≡ []) }
    {
        self.as_view().is_empty()
    }

    /// Returns the first entry, or `None` if the map is empty.
    pub fn first(&self) -> Option<(View<'_, K>, View<'_, V>)>
        ensures { option_map view_entry result
            ≡ slice_get (read_map K.kind V.kind M.E self.now.buf.now self.now.pos) 0 }
    {
        self.as_view().first()
    }

    /// Returns the last entry, or `None` if the map is empty.
    pub fn last(&self) -> Option<(View<'_, K>, View<'_, V>)>
        ensures { option_map view_entry result
            ≡ last_or None (read_map K.kind V.kind M.E self.now.buf.now self.now.pos) }
    {
        self.as_view().last()
    }

    /// Returns the value stored for a native key, or `None`.
    pub fn get_by<T: Drop>(&self, key: T) -> Option<View<'_, V>>
    where
        K: CompareWith<T>,
        ensures { ByView self.now (λ map. ByNative K.kind K.compared_at key (λ comparison.
            IsLookup K.kind V.kind M.E map comparison (option_map view_value result))) }
    {
        self.as_view().get_by(key)
    }

    /// Returns whether `get_by` finds a value.
    pub fn contains_by<T: Drop>(&self, key: T) -> bool
    where
        K: CompareWith<T>,
        ensures { ByView self.now (λ map. ByNative K.kind K.compared_at key (λ comparison.
            IsWhetherFound K.kind V.kind M.E map comparison result)) }
    {
        self.as_view().contains_by(key)
    }
}

impl<'a, K: Portable, V: ToNative, M: ArchivedMap<Key = K, Mapped = V> + ShowsEntries> MapSeal<
    'a,
    M,
> {
    /// Returns the native value of the entry whose key is equal to a native value, or `None`.
    pub fn get_native_by<T: Drop>(&self, key: T) -> Option<V::Native>
    where
        K: CompareWith<T>,
        ensures { ByView self.now (λ map. ByReading V.kind V.read_native (λ native.
            ByNative K.kind K.compared_at key (λ comparison.
            IsNativeLookup K.kind V.kind M.E map comparison native result))) }
    {
        self.as_view().get_native_by(key)
    }
}

impl<'a, K: ViewOrd, V: Portable, M: ArchivedMap<Key = K, Mapped = V> + ShowsEntries> MapSeal<
    'a,
    M,
> {
    /// Returns the value stored for `key`, or `None`.
    pub fn get(&self, key: View<'_, K>) -> Option<View<'_, V>>
        ensures { ByView self.now (λ map. IsLookup K.kind V.kind M.E map
            (K.kind.order (view_value key.entry)) (option_map view_value result)) }
    {
        self.as_view().get(key)
    }

    /// Returns whether `get` finds a value.
    pub fn contains_key(&self, key: View<'_, K>) -> bool
        ensures { ByView self.now (λ map. IsWhetherFound K.kind V.kind M.E map
            (K.kind.order (view_value key.entry)) result) }
    {
        self.as_view().contains_key(key)
    }
}
