//! Views of sets whose keys increase.
ghost use Rattle.std.specs.BTreeMap.{is_at};
ghost use Rattle.std.specs.Iterator.{IsFinite};
ghost use Rattle.std.specs.List.{find};
ghost use Rattle.std.specs.List.Sorted.{IsStrictlySortedBy};
ghost use Rattle.std.specs.Option.{option_map};
ghost use Rattle.std.specs.Prelude.{◌≡◌, ◌≤◌, ◌↔◌, [], length, map, is_some, IsTrue};
ghost use Rattle.std.specs.Range.Bound.{bound_map};
ghost use Rattle.rkyv_btree_view.specs.Items.{ShowsAll};
ghost use Rattle.rkyv_btree_view.specs.Lookup.{ByNative};
ghost use Rattle.rkyv_btree_view.specs.ManyLookups.{key_looked_up_in};
ghost use Rattle.rkyv_btree_view.specs.Set.{keys_of};
ghost use Rattle.rkyv_btree_view.specs.View.{view_value};
ghost use Rattle.rkyv_btree_walk.specs.Bounds.{keys_within};

use crate::strict_map::{Strict, StrictView};
use rkyv_btree_types::set::ArchivedBTreeSet;
use rkyv_btree_view::compare::ViewOrd;
use rkyv_btree_view::compare_native::CompareWith;
use rkyv_btree_view::get_many::KeyLookups;
use rkyv_btree_view::set_view::{Iter, Range};
use rkyv_btree_view::view::View;
use std::marker::PhantomData;
use std::ops::{Bound, RangeBounds};

/// A set in a buffer whose keys increase. `access_strict`, `open_strict` and `StrictSetView::of` make one.
pub type StrictSetView<'a, K, const E: usize> = Strict<'a, ArchivedBTreeSet<K, E>>;

impl<'a, K: ViewOrd, const E: usize> Strict<'a, ArchivedBTreeSet<K, E>> {
    /// Returns a strict map whose values are `()` as the set of its keys.
    pub fn of(map: StrictView<'a, K, (), E>) -> StrictSetView<'a, K, E>
        ensures buffer { result.view.buf.now ≡ map.entry.view.buf.now }
        ensures position { result.view.pos ≡ map.entry.view.pos }
    {
        let map = map.view;
        Strict {
            view: View {
                buf: map.buf,
                pos: map.pos,
                of: PhantomData,
            },
        }
    }

    /// Returns the set as a strict map whose values are `()`. No byte is read.
    pub fn as_map(self) -> StrictView<'a, K, (), E>
        ensures buffer { result.view.buf.now ≡ self.entry.view.buf.now }
        ensures position { result.view.pos ≡ self.entry.view.pos }
    {
        let set = self.view;
        Strict { view: set.as_map() }
    }

    /// Returns the view of the set.
    pub fn as_view(self) -> View<'a, ArchivedBTreeSet<K, E>>
        ensures buffer { result.buf.now ≡ self.entry.view.buf.now }
        ensures position { result.pos ≡ self.entry.view.pos }
        ensures increasing { IsStrictlySortedBy K.kind.order (keys_of K.kind E result) }
    {
        self.view
    }

    /// Returns the number of keys. It has 32 bits.
    pub fn len(self) -> usize
        ensures keys { result ≡ length (keys_of K.kind E self.entry.view) }
        ensures small { result ≤ 4294967295 }
    {
        self.view.len()
    }

    /// Returns whether there are no keys.
    pub fn is_empty(self) -> bool
        ensures { IsTrue result ↔ (keys_of K.kind E self.entry.view ≡ []) }
    {
        self.view.is_empty()
    }

    /// Returns an iterator over the keys, in order.
    pub fn iter(self) -> Iter<'a, K, E>
        ensures yields { ShowsAll ⟦<Iter<'a, K, E> as Iterator>⟧.next_gives view_value result
            (keys_of K.kind E self.entry.view) }
        ensures ends { IsFinite (⟦<Iter<'a, K, E> as Iterator>⟧.remaining result) }
    {
        self.view.iter()
    }

    /// Returns the set's own key that is equal to `key`.
    pub fn get(self, key: View<'_, K>) -> Option<View<'a, K>>
        ensures { option_map view_value result
            ≡ find (is_at (K.kind.order (view_value key.entry))) (keys_of K.kind E self.entry.view) }
    {
        self.view.get(key)
    }

    /// Returns whether a key is equal to `key`.
    pub fn contains_key(self, key: View<'_, K>) -> bool
        ensures { result ≡ is_some (find (is_at (K.kind.order (view_value key.entry)))
            (keys_of K.kind E self.entry.view)) }
    {
        self.view.contains_key(key)
    }

    /// Returns the key that is equal to a native value.
    pub fn get_by<T: Drop>(self, key: T) -> Option<View<'a, K>>
    where
        K: CompareWith<T>,
        ensures { ByNative K.kind K.compared_at key (λ comparison. option_map view_value result
            ≡ find (is_at comparison) (keys_of K.kind E self.entry.view)) }
    {
        self.view.get_by(key)
    }

    /// Returns whether a key is equal to a native value.
    pub fn contains_by<T: Drop>(self, key: T) -> bool
    where
        K: CompareWith<T>,
        ensures { ByNative K.kind K.compared_at key (λ comparison. result
            ≡ is_some (find (is_at comparison) (keys_of K.kind E self.entry.view))) }
    {
        self.view.contains_by(key)
    }
}

impl<'a, K: ViewOrd, const E: usize> Strict<'a, ArchivedBTreeSet<K, E>> {
    ghost use Rattle.rkyv_btree_view.specs.ManyLeft.{key_lookups_left};

    /// Returns an iterator over the results of `get_by` for these keys, in the order of the keys.
    ///
    /// It searches sixteen keys side by side. No memory is allocated, by the iterator either.
    pub fn get_many_by<'k, T>(self, keys: &'k [T]) -> KeyLookups<'a, 'k, ArchivedBTreeSet<K, E>, T>
    where
        K: CompareWith<T>,
        ensures yields { ShowsAll
            ⟦<KeyLookups<'a, 'k, ArchivedBTreeSet<K, E>, T> as Iterator>⟧.next_gives
            (option_map view_value) result
            (map (key_looked_up_in K.kind E self.entry.view K.compared_at) keys.now) }
        // Each result is what `get_by` returns for its key.
        ensures each { (key : T) → ByNative K.kind K.compared_at key (λ comparison.
            key_looked_up_in K.kind E self.entry.view K.compared_at key
            ≡ find (is_at comparison) (keys_of K.kind E self.entry.view)) }
        ensures left { key_lookups_left K.compared_at result
            ≡ map (key_looked_up_in K.kind E self.entry.view K.compared_at) keys.now }
        ensures ends { IsFinite
            (⟦<KeyLookups<'a, 'k, ArchivedBTreeSet<K, E>, T> as Iterator>⟧.remaining result) }
    {
        self.view.get_many_by(keys)
    }
}

impl<'a, K: ViewOrd, const E: usize> Strict<'a, ArchivedBTreeSet<K, E>> {
    ghost use Rattle.rkyv_btree_view.specs.Keys.{range_keys_left};
    ghost use Rattle.rkyv_btree_view.specs.Range.{ByNativeBounds};
    ghost use Rattle.rkyv_btree_view.specs.Ranges.{IsRange};

    /// Returns an iterator over the keys within the bounds, in order.
    pub fn range(self, low: Bound<View<'_, K>>, high: Bound<View<'_, K>>) -> Range<'a, K, E>
        ensures range { IsRange ⟦<Range<'a, K, E> as Iterator>⟧ view_value result
            (range_keys_left result) (keys_of K.kind E self.entry.view) }
        ensures within { range_keys_left result
            ≡ keys_within (bound_map (λ q. K.kind.order (view_value q)) low.entry)
            (bound_map (λ q. K.kind.order (view_value q)) high.entry)
            (keys_of K.kind E self.entry.view) }
    {
        self.view.range(low, high)
    }

    /// Returns an iterator over the keys within bounds of native values, in order.
    pub fn range_by<T: Drop>(self, low: Bound<T>, high: Bound<T>) -> Range<'a, K, E>
    where
        K: CompareWith<T>,
        ensures range { IsRange ⟦<Range<'a, K, E> as Iterator>⟧ view_value result
            (range_keys_left result) (keys_of K.kind E self.entry.view) }
        ensures within { ByNativeBounds K.kind K.compared_at low high (λ lo hi.
            range_keys_left result ≡ keys_within lo hi (keys_of K.kind E self.entry.view)) }
    {
        self.view.range_by(low, high)
    }
    /// Returns an iterator over the keys in a range of native values, in order.
    pub fn range_of<T: Drop, R: RangeBounds<T>>(self, range: R) -> Range<'a, K, E>
    where
        K: CompareWith<T>,
        ensures range { IsRange ⟦<Range<'a, K, E> as Iterator>⟧ view_value result
            (range_keys_left result) (keys_of K.kind E self.entry.view) }
        ensures within { R.has_bounds range → ByNativeBounds K.kind K.compared_at
            (R.start_bound range) (R.end_bound range) (λ lo hi.
            range_keys_left result ≡ keys_within lo hi (keys_of K.kind E self.entry.view)) }
    {
        self.view.range_of(range)
    }
}

impl<'a, K: ViewOrd, const E: usize> IntoIterator for Strict<'a, ArchivedBTreeSet<K, E>> {
    type Item = View<'a, K>;

    type IntoIter = Iter<'a, K, E>;

    ghost into_iter_gives = { λ set keys. ShowsAll ⟦<Iter<'a, K, E> as Iterator>⟧.next_gives view_value
        keys
        (keys_of K.kind E set.view) };

    /// Returns an iterator over the keys, in order.
    fn into_iter(self) -> Iter<'a, K, E> {
        self.view.iter()
    }
}
