//! Views of maps whose keys increase.
ghost use Rattle.std.specs.BTreeMap.{is_at};
ghost use Rattle.std.specs.Iterator.{IsFinite};
ghost use Rattle.std.specs.List.Sorted.{IsStrictlySortedBy-prop};
ghost use Rattle.std.specs.Map.{keys_of, lookup, lookup_entry};
ghost use Rattle.std.specs.Option.{option_map};
ghost use Rattle.std.specs.Prelude.{◌≡◌, ◌≤◌, ◌↔◌, [], length, map, is_some, IsTrue, IsOk, IfOk, IfErr, Err, ℕ, ⊤};
ghost use Rattle.std.specs.Range.Bound.{bound_map};
ghost use Rattle.rkyv_btree_portable.specs.declared.refusal.Refusal.TheVariants.{OutOfOrder};
ghost use Rattle.rkyv_btree_format.specs.Increasing.{Increasing, IsOutOfOrder};
ghost use Rattle.rkyv_btree_view.specs.Items.{ShowsAll};
ghost use Rattle.rkyv_btree_view.specs.Lookup.{ByNative};
ghost use Rattle.rkyv_btree_view.specs.ManyLookups.{looked_up_in};
ghost use Rattle.rkyv_btree_view.specs.View.{view_value, view_entry, entries_of};
ghost use Rattle.rkyv_btree_walk.specs.Bounds.{entries_within};

use crate::order::first_out_of_order;
use rkyv_btree_portable::check::Portable;
use rkyv_btree_portable::refusal::Refusal;
use rkyv_btree_types::map::ArchivedBTreeMap;
use rkyv_btree_view::compare::ViewOrd;
use rkyv_btree_view::compare_native::CompareWith;
use rkyv_btree_view::get_many::Lookups;
use rkyv_btree_view::iter::Iter;
use rkyv_btree_view::map_view::ShowsEntries;
use rkyv_btree_view::native::ToNative;
use rkyv_btree_view::range::Range;
use rkyv_btree_view::view::View;
use rkyv_btree_walk::archived_map::ArchivedMap;
use std::alloc::AllocError;
use std::ops::{Bound, RangeBounds};

/// A type of maps whose strict views show entries. Those of a set show its keys alone, by calls of the same names.
pub trait StrictEntries: ShowsEntries {}

impl<K, V, const E: usize> StrictEntries for ArchivedBTreeMap<K, V, E> {}

/// A map or a set in a buffer whose keys increase. A lookup finds the only equal key, and a range has exactly the entries
/// within its bounds.
pub struct Strict<'a, M: ArchivedMap> {
    pub view: View<'a, M>,
    pub ghost increasing: { Increasing M.Key.kind.order (entries_of M.Key.kind M.Mapped.kind M.E view) } by { IsStrictlySortedBy-prop M.Key.kind.order
        (keys_of (entries_of M.Key.kind M.Mapped.kind M.E view)) },
}

/// A map in a buffer whose keys increase. `access_strict`, `open_strict` and `StrictView::of` make one.
pub type StrictView<'a, K, V, const E: usize> = Strict<'a, ArchivedBTreeMap<K, V, E>>;

impl<'a, M: ArchivedMap> Copy for Strict<'a, M> {}

impl<'a, M: ArchivedMap> Clone for Strict<'a, M> {
    ghost is_clone = { λ s r. r ≡ s };

    ghost is_infallible = { λ _. ⊤ };

    fn clone(&self) -> Result<Strict<'a, M>, AllocError> {
        Ok(*self)
    }
}

impl<'a, K: ViewOrd, V: Portable, M: ArchivedMap<Key = K, Mapped = V> + StrictEntries> Strict<
    'a,
    M,
> {
    /// Returns the strict view of an accepted map, if its keys increase.
    ///
    /// # Errors
    ///
    /// `Refusal::OutOfOrder` with the index of the first entry whose key isn't greater than the key before it.
    pub fn of(view: View<'a, M>) -> Result<Strict<'a, M>, Refusal>
        ensures buffer { IfOk result (λ strict. strict.view.buf.now ≡ view.entry.buf.now) }
        ensures position { IfOk result (λ strict. strict.view.pos ≡ view.entry.pos) }
        ensures all_increasing { Increasing K.kind.order (entries_of K.kind V.kind M.E view.entry) →
            IsOk result }
        ensures refused { IfErr result (λ refusal. (index : ℕ) × (refusal ≡ OutOfOrder index)
            × IsOutOfOrder K.kind.order (entries_of K.kind V.kind M.E view.entry) index) }
        ensures all_refused { (index : ℕ) →
            IsOutOfOrder K.kind.order (entries_of K.kind V.kind M.E view.entry) index →
            result ≡ Err (OutOfOrder index) }
    {
        match first_out_of_order(view) {
            None => Ok(Strict { view }),
            Some(index) => Err(Refusal::OutOfOrder { index }),
        }
    }

    /// Returns the view of the map.
    pub fn as_view(self) -> View<'a, M>
        ensures buffer { result.buf.now ≡ self.entry.view.buf.now }
        ensures position { result.pos ≡ self.entry.view.pos }
        ensures increasing { Increasing K.kind.order (entries_of K.kind V.kind M.E result) }
    {
        self.view
    }

    /// Returns the number of entries. It has 32 bits.
    pub fn len(self) -> usize
        ensures entries { result ≡ length (entries_of K.kind V.kind M.E self.entry.view) }
        ensures small { result ≤ 4294967295 }
    {
        self.view.len()
    }

    /// Returns whether there are no entries.
    pub fn is_empty(self) -> bool
        ensures { IsTrue result ↔ (entries_of K.kind V.kind M.E self.entry.view ≡ []) }
    {
        self.view.is_empty()
    }

    /// Returns the value of the only key that is equal to `key`.
    pub fn get(self, key: View<'_, K>) -> Option<View<'a, V>>
        ensures { option_map view_value result ≡ lookup (is_at (K.kind.order (view_value key.entry)))
            (entries_of K.kind V.kind M.E self.entry.view) }
    {
        self.view.get(key)
    }

    /// Returns the only entry whose key is equal to `key`.
    pub fn get_key_value(self, key: View<'_, K>) -> Option<(View<'a, K>, View<'a, V>)>
        ensures { option_map view_entry result
            ≡ lookup_entry (is_at (K.kind.order (view_value key.entry)))
            (entries_of K.kind V.kind M.E self.entry.view) }
    {
        self.view.get_key_value(key)
    }

    /// Returns whether a key is equal to `key`.
    pub fn contains_key(self, key: View<'_, K>) -> bool
        ensures { result ≡ is_some (lookup (is_at (K.kind.order (view_value key.entry)))
            (entries_of K.kind V.kind M.E self.entry.view)) }
    {
        self.view.contains_key(key)
    }

    /// Returns the value of the only key that is equal to a native value.
    pub fn get_by<T: Drop>(self, key: T) -> Option<View<'a, V>>
    where
        K: CompareWith<T>,
        ensures { ByNative K.kind K.compared_at key (λ comparison. option_map view_value result
            ≡ lookup (is_at comparison) (entries_of K.kind V.kind M.E self.entry.view)) }
    {
        self.view.get_by(key)
    }

    /// Returns the only entry whose key is equal to a native value.
    pub fn get_key_value_by<T: Drop>(self, key: T) -> Option<(View<'a, K>, View<'a, V>)>
    where
        K: CompareWith<T>,
        ensures { ByNative K.kind K.compared_at key (λ comparison. option_map view_entry result
            ≡ lookup_entry (is_at comparison) (entries_of K.kind V.kind M.E self.entry.view)) }
    {
        self.view.get_key_value_by(key)
    }

    /// Returns whether a key is equal to a native value.
    pub fn contains_by<T: Drop>(self, key: T) -> bool
    where
        K: CompareWith<T>,
        ensures { ByNative K.kind K.compared_at key (λ comparison. result
            ≡ is_some (lookup (is_at comparison) (entries_of K.kind V.kind M.E self.entry.view))) }
    {
        self.view.contains_by(key)
    }
}

impl<'a, K: ViewOrd, V: Portable, M: ArchivedMap<Key = K, Mapped = V> + StrictEntries> Strict<
    'a,
    M,
> {
    ghost use Rattle.rkyv_btree_view.specs.ManyLeft.{lookups_left};

    /// Returns an iterator over the results of `get_by` for these keys, in the order of the keys.
    ///
    /// It searches sixteen keys side by side. No memory is allocated, by the iterator either.
    pub fn get_many_by<'k, T>(self, keys: &'k [T]) -> Lookups<'a, 'k, M, T>
    where
        K: CompareWith<T>,
        ensures yields { ShowsAll ⟦<Lookups<'a, 'k, M, T> as Iterator>⟧.next_gives
            (option_map view_value) result
            (map (looked_up_in K.kind V.kind M.E self.entry.view K.compared_at) keys.now) }
        // Each result is what `get_by` returns for its key.
        ensures each { (key : T) → ByNative K.kind K.compared_at key (λ comparison.
            looked_up_in K.kind V.kind M.E self.entry.view K.compared_at key
            ≡ lookup (is_at comparison) (entries_of K.kind V.kind M.E self.entry.view)) }
        ensures left { lookups_left K.compared_at result
            ≡ map (looked_up_in K.kind V.kind M.E self.entry.view K.compared_at) keys.now }
        ensures ends { IsFinite (⟦<Lookups<'a, 'k, M, T> as Iterator>⟧.remaining result) }
    {
        self.view.get_many_by(keys)
    }
}

impl<'a, K: ViewOrd, V: ToNative, M: ArchivedMap<Key = K, Mapped = V> + StrictEntries> Strict<
    'a,
    M,
> {
    ghost use Rattle.rkyv_btree_view.specs.Native.{ByReading};

    /// Returns the native value of the only key that is equal to a native value.
    pub fn get_native_by<T: Drop>(self, key: T) -> Option<V::Native>
    where
        K: CompareWith<T>,
        ensures { ByReading V.kind V.read_native (λ native.
            ByNative K.kind K.compared_at key (λ comparison. result ≡ option_map native
            (lookup (is_at comparison) (entries_of K.kind V.kind M.E self.entry.view)))) }
    {
        match self.get_by(key) {
            None => None,
            Some(value) => Some(value.to_native()),
        }
    }
}

impl<'a, K: ViewOrd, V: Portable, M: ArchivedMap<Key = K, Mapped = V> + StrictEntries> Strict<
    'a,
    M,
> {
    ghost use Rattle.rkyv_btree_view.specs.Iter.{entries_left};

    /// Returns an iterator over the entries, in the order of their keys.
    pub fn iter(self) -> Iter<'a, M>
        ensures yields { ShowsAll ⟦<Iter<'a, M> as Iterator>⟧.next_gives
            view_entry result (entries_of K.kind V.kind M.E self.entry.view) }
        ensures entries { entries_left result ≡ entries_of K.kind V.kind M.E self.entry.view }
        ensures ends { IsFinite (⟦<Iter<'a, M> as Iterator>⟧.remaining result) }
    {
        self.view.iter()
    }
}

impl<'a, K: ViewOrd, V: Portable, M: ArchivedMap<Key = K, Mapped = V> + StrictEntries> Strict<
    'a,
    M,
> {
    ghost use Rattle.rkyv_btree_view.specs.Range.{range_left, ByNativeBounds};
    ghost use Rattle.rkyv_btree_view.specs.Ranges.{IsRange};

    /// Returns an iterator over the entries whose keys are within the bounds, in the order of their keys.
    pub fn range(self, low: Bound<View<'_, K>>, high: Bound<View<'_, K>>) -> Range<'a, M>
        ensures range { IsRange ⟦<Range<'a, M> as Iterator>⟧ view_entry result (range_left result)
            (entries_of K.kind V.kind M.E self.entry.view) }
        ensures within { range_left result
            ≡ entries_within (bound_map (λ q. K.kind.order (view_value q)) low.entry)
            (bound_map (λ q. K.kind.order (view_value q)) high.entry)
            (entries_of K.kind V.kind M.E self.entry.view) }
    {
        self.view.range(low, high)
    }

    /// Returns an iterator over the entries whose keys are within bounds of native values, in the order of their keys.
    pub fn range_by<T: Drop>(self, low: Bound<T>, high: Bound<T>) -> Range<'a, M>
    where
        K: CompareWith<T>,
        ensures range { IsRange ⟦<Range<'a, M> as Iterator>⟧ view_entry result (range_left result)
            (entries_of K.kind V.kind M.E self.entry.view) }
        ensures within { ByNativeBounds K.kind K.compared_at low high (λ lo hi. range_left result
            ≡ entries_within lo hi (entries_of K.kind V.kind M.E self.entry.view)) }
    {
        self.view.range_by(low, high)
    }
    /// Returns an iterator over the entries whose keys are in a range of native values, in the order of their keys.
    pub fn range_of<T: Drop, R: RangeBounds<T>>(self, range: R) -> Range<'a, M>
    where
        K: CompareWith<T>,
        ensures range { IsRange ⟦<Range<'a, M> as Iterator>⟧ view_entry result (range_left result)
            (entries_of K.kind V.kind M.E self.entry.view) }
        ensures within { R.has_bounds range → ByNativeBounds K.kind K.compared_at
            (R.start_bound range) (R.end_bound range) (λ lo hi. range_left result
            ≡ entries_within lo hi (entries_of K.kind V.kind M.E self.entry.view)) }
    {
        self.view.range_of(range)
    }
}

impl<'a, K: ViewOrd, V: Portable, const E: usize> IntoIterator
    for Strict<'a, ArchivedBTreeMap<K, V, E>> {
    ghost use Rattle.rkyv_btree_view.specs.Iter.{entries_left};

    type Item = (View<'a, K>, View<'a, V>);

    type IntoIter = Iter<'a, ArchivedBTreeMap<K, V, E>>;

    ghost into_iter_gives = { λ map entries.
        entries_left entries ≡ entries_of K.kind V.kind E map.view };

    /// Returns an iterator over the entries, in the order of their keys.
    fn into_iter(self) -> Iter<'a, ArchivedBTreeMap<K, V, E>> {
        self.view.iter()
    }
}
