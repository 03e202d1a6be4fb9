//! Archived sets, read in place: maps of which the keys alone are shown.
ghost use Rattle.std.specs.Prelude.{◌≡◌, ◌↔◌, ◌≤◌, [], length, Err, IsTrue, IsOk, IfOk};
ghost use Rattle.std.specs.Iterator.{IsFinite, size};
ghost use Rattle.std.specs.Option.{option_map};
ghost use Rattle.std.specs.Range.Bound.{bound_map};
ghost use Rattle.std.specs.declared.ops.Bound.TheVariants.{Unbounded};
ghost use Rattle.rkyv_btree_format.specs.Layout.{are_fitting};
ghost use Rattle.rkyv_btree_portable.specs.declared.refusal.Refusal.{Refusal};
ghost use Rattle.rkyv_btree_verify.specs.Refusals.{RefusesMap};
ghost use Rattle.rkyv_btree_portable.specs.Scalars.{unit_kind};
ghost use Rattle.rkyv_btree_view.specs.Items.{ShowsAll};
ghost use Rattle.rkyv_btree_view.specs.Lookup.{ByNative};
ghost use Rattle.rkyv_btree_view.specs.Lookups.{IsKeyLookup, IsWhetherKeyFound};
ghost use Rattle.rkyv_btree_view.specs.Map.{IsMap};
ghost use Rattle.rkyv_btree_view.specs.Range.{ByNativeBounds};
ghost use Rattle.rkyv_btree_view.specs.Ranges.{AreKeysBetween, IsRange};
ghost use Rattle.rkyv_btree_view.specs.Set.{keys_of};
ghost use Rattle.rkyv_btree_view.specs.View.{view_value, entries_of};

use crate::compare::ViewOrd;
use crate::compare_native::CompareWith;
use crate::keys::Keys;
use crate::map_view::access_valid as map_valid;
use crate::range_keys::RangeKeys;
use crate::view::View;
use rkyv_btree_portable::check::{CheckBytes, Portable};
use rkyv_btree_portable::refusal::Refusal;
use rkyv_btree_types::map::ArchivedBTreeMap;
use rkyv_btree_types::set::ArchivedBTreeSet;
use std::marker::PhantomData;
use std::ops::{Bound, RangeBounds};

/// The keys of a set, in order.
pub type Iter<'a, K, const E: usize> = Keys<'a, ArchivedBTreeMap<K, (), E>>;

/// The keys of a set between two bounds, in order.
pub type Range<'a, K, const E: usize> = RangeKeys<'a, ArchivedBTreeMap<K, (), E>>;

/// Returns the view of the set at position `pos`, if the bytes mean a list of keys in the window of all bytes before it. The
/// list that the view reads has a `()` with each key.
///
/// # Errors
///
/// The first error of `verify`. No memory is allocated.
pub fn access<'a, K: CheckBytes, const E: usize>(
    buf: &'a [u8],
    pos: u32,
) -> Result<View<'a, ArchivedBTreeSet<K, E>>, Refusal>
    requires { IsTrue (are_fitting K.kind unit_kind E) }
    ensures buffer { IfOk result (λ set. set.buf.now ≡ buf.now) }
    ensures position { IfOk result (λ set. set.pos ≡ pos) }
    // The result is a view exactly for bytes that mean a list, and the view reads that list.
    ensures accepts { IsOk result ↔ ((m : _) × IsMap K.kind unit_kind E buf.now pos m) }
    ensures entries { IfOk result (λ set.
        IsMap K.kind unit_kind E buf.now pos (entries_of K.kind unit_kind E set)) }
    // The result is an error exactly for bytes with that error.
    ensures refuses { (refusal : Refusal) →
        (result ≡ Err refusal) ↔ RefusesMap K.kind unit_kind E buf.now 0 pos pos refusal }
{
    View::<ArchivedBTreeSet<K, E>>::check(buf, pos)
}

/// Returns the view of the set at position `pos` without validating it. Requires that the bytes mean a list of keys in the
/// window of all bytes before it: `access` is the test. No byte is read.
pub fn access_valid<'a, K: Portable, const E: usize>(
    buf: &'a [u8],
    pos: u32,
) -> View<'a, ArchivedBTreeSet<K, E>>
    requires fitting { IsTrue (are_fitting K.kind unit_kind E) }
    requires accepted { (m : _) × IsMap K.kind unit_kind E buf.now pos m }
    ensures buffer { result.buf.now ≡ buf.now }
    ensures position { result.pos ≡ pos }
    ensures value { (m : _) → IsMap K.kind unit_kind E buf.now pos m → view_value result ≡ m }
{
    let map = map_valid::<K, (), E>(buf, pos);
    View {
        buf: map.buf,
        pos: map.pos,
        of: PhantomData,
    }
}

impl<'a, K: Portable, const E: usize> View<'a, ArchivedBTreeSet<K, E>> {
    /// Returns the set as a map whose values are `()`. No byte is read.
    pub fn as_map(self) -> View<'a, ArchivedBTreeMap<K, (), E>>
        ensures buffer { result.buf.now ≡ self.entry.buf.now }
        ensures position { result.pos ≡ self.entry.pos }
    {
        View {
            buf: self.buf,
            pos: self.pos,
            of: PhantomData,
        }
    }

    /// Returns the number of keys, which is read from the set's own bytes. It has 32 bits.
    pub fn len(self) -> usize
        ensures keys { result ≡ length (keys_of K.kind E self.entry) }
        ensures small { result ≤ 4294967295 }
    {
        self.as_map().len()
    }

    /// Returns whether there are no keys.
    pub fn is_empty(self) -> bool
        ensures { IsTrue result ↔ (keys_of K.kind E self.entry ≡ []) }
    {
        self.len() == 0
    }

    /// Returns an iterator over the keys, in order. No memory is allocated.
    pub fn iter(self) -> Iter<'a, K, E>
        ensures yields { ShowsAll ⟦<Iter<'a, K, E> as Iterator>⟧.next_gives view_value result
            (keys_of K.kind E self.entry) }
        ensures ends { IsFinite (⟦<Iter<'a, K, E> as Iterator>⟧.remaining result) }
        // It is what `len` returns.
        ensures count { size (⟦<Iter<'a, K, E> as Iterator>⟧.remaining result)
            ≡ length (keys_of K.kind E self.entry) }
    {
        self.as_map().keys()
    }
}

impl<'a, K: ViewOrd, const E: usize> View<'a, ArchivedBTreeSet<K, E>> {
    /// Returns whether a key is equal to `key`.
    pub fn contains_key(self, key: View<'_, K>) -> bool
        ensures { IsWhetherKeyFound K.kind E self.entry (K.kind.order (view_value key.entry)) result }
    {
        self.as_map().contains_key(key)
    }

    /// Returns the set's own key that is equal to `key`, or `None`.
    pub fn get(self, key: View<'_, K>) -> Option<View<'a, K>>
        ensures { IsKeyLookup K.kind E self.entry (K.kind.order (view_value key.entry))
            (option_map view_value result) }
    {
        match self.as_map().get_key_value(key) {
            None => None,
            Some((key, _)) => Some(key),
        }
    }
}

impl<'a, K: Portable, const E: usize> View<'a, ArchivedBTreeSet<K, E>> {
    /// Returns whether a key is equal to a native value: a number, a `&str`, a pair of these, or what else keys compare with.
    pub fn contains_by<T: Drop>(self, key: T) -> bool
    where
        K: CompareWith<T>,
        ensures { ByNative K.kind K.compared_at key (λ comparison.
            IsWhetherKeyFound K.kind E self.entry comparison result) }
    {
        self.as_map().contains_by(key)
    }

    /// Returns the set's own key that is equal to a native value, or `None`.
    pub fn get_by<T: Drop>(self, key: T) -> Option<View<'a, K>>
    where
        K: CompareWith<T>,
        ensures { ByNative K.kind K.compared_at key (λ comparison.
            IsKeyLookup K.kind E self.entry comparison (option_map view_value result)) }
    {
        match self.as_map().get_key_value_by(key) {
            None => None,
            Some((key, _)) => Some(key),
        }
    }
}

impl<'a, K: ViewOrd, const E: usize> View<'a, ArchivedBTreeSet<K, E>> {
    ghost use Rattle.rkyv_btree_view.specs.Keys.{range_keys_left};

    /// Returns an iterator over the keys within the bounds, in order. No memory is allocated.
    pub fn range(self, low: Bound<View<'_, K>>, high: Bound<View<'_, K>>) -> Range<'a, K, E>
        ensures range { IsRange ⟦<Range<'a, K, E> as Iterator>⟧ view_value result
            (range_keys_left result) (keys_of K.kind E self.entry) }
        ensures whole { low.entry ≡ Unbounded → high.entry ≡ Unbounded
            → range_keys_left result ≡ keys_of K.kind E self.entry }
        ensures between { AreKeysBetween K.kind.order
            (bound_map (λ q. K.kind.order (view_value q)) low.entry)
            (bound_map (λ q. K.kind.order (view_value q)) high.entry)
            (keys_of K.kind E self.entry) (range_keys_left result) }
    {
        RangeKeys::of(self.as_map().range(low, high))
    }
}

impl<'a, K: Portable, const E: usize> View<'a, ArchivedBTreeSet<K, E>> {
    ghost use Rattle.rkyv_btree_view.specs.Keys.{range_keys_left};

    /// Returns an iterator over the keys within bounds of native values, in order: numbers, `&str`, pairs of these, or what else
    /// keys compare with.
    pub fn range_by<T: Drop>(self, low: Bound<T>, high: Bound<T>) -> Range<'a, K, E>
    where
        K: CompareWith<T>,
        ensures range { IsRange ⟦<Range<'a, K, E> as Iterator>⟧ view_value result
            (range_keys_left result) (keys_of K.kind E self.entry) }
        ensures whole { low ≡ Unbounded → high ≡ Unbounded
            → range_keys_left result ≡ keys_of K.kind E self.entry }
        ensures between { ByNativeBounds K.kind K.compared_at low high (λ lo hi.
            AreKeysBetween K.kind.order lo hi (keys_of K.kind E self.entry) (range_keys_left result)) }
    {
        RangeKeys::of(self.as_map().range_by(low, high))
    }

    /// Returns an iterator over the keys in a range of native values, as `3..=9` or `"b"..`, in order.
    pub fn range_of<T: Drop, R: RangeBounds<T>>(self, range: R) -> Range<'a, K, E>
    where
        K: CompareWith<T>,
        ensures range { IsRange ⟦<Range<'a, K, E> as Iterator>⟧ view_value result
            (range_keys_left result) (keys_of K.kind E self.entry) }
        ensures whole { R.has_bounds range → R.start_bound range ≡ Unbounded
            → R.end_bound range ≡ Unbounded
            → range_keys_left result ≡ keys_of K.kind E self.entry }
        ensures between { R.has_bounds range → ByNativeBounds K.kind K.compared_at
            (R.start_bound range) (R.end_bound range) (λ lo hi.
            AreKeysBetween K.kind.order lo hi (keys_of K.kind E self.entry) (range_keys_left result)) }
    {
        RangeKeys::of(self.as_map().range_of(range))
    }
}

impl<'a, K: Portable, const E: usize> IntoIterator for View<'a, ArchivedBTreeSet<K, E>> {
    type Item = View<'a, K>;

    type IntoIter = Iter<'a, K, E>;

    ghost into_iter_gives = { λ set keys.
        ShowsAll ⟦<Iter<'a, K, E> as Iterator>⟧.next_gives view_value keys
        (keys_of K.kind E set) };

    /// Returns an iterator over the keys, in order.
    fn into_iter(self) -> Iter<'a, K, E> {
        self.iter()
    }
}
