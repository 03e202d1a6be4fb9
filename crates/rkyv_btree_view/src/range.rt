//! Ranges of the entries of a map, between two bounds of their keys.
ghost use Rattle.std.specs.Prelude.{◌≡◌, length, IsTrue};
ghost use Rattle.std.specs.Range.Bound.{bound_map};
ghost use Rattle.std.specs.declared.ops.Bound.TheVariants.{Unbounded};
ghost use Rattle.rkyv_btree_portable.specs.Views.{stands};
ghost use Rattle.rkyv_btree_view.specs.Ranges.{IsBetween, IsRange};
ghost use Rattle.rkyv_btree_view.specs.View.{view_value, view_entry, entries_of};
ghost use Rattle.rkyv_btree_walk.specs.Bounds.{ByBounds, IsWithin};
ghost use Rattle.rkyv_btree_walk.specs.Search.{shown_value};
ghost use Rattle.rkyv_btree_walk.specs.WalkBetween.{IsWalkBetween};

use crate::compare::ViewOrd;
use crate::compare_native::CompareWith;
use crate::iter::entry;
use crate::map_view::ShowsEntries;
use crate::view::View;
use rkyv_btree_portable::check::Portable;
use rkyv_btree_walk::archived_map::ArchivedMap;
use rkyv_btree_walk::range_walk::{RangeWalk, start_between, step_before};
use rkyv_btree_walk::shows::Shows;
use std::cmp::Ordering;
use std::iter::FusedIterator;
use std::marker::PhantomData;
use std::ops::{Bound, RangeBounds};

/// An iterator over the entries of a map between two bounds, in order.
#[derive(Drop)]
pub struct Range<'a, M: ArchivedMap> {
    buf: &'a [u8],
    pos: u32,
    walk: RangeWalk,
    of: PhantomData<M>,
    ghost valid: { IsTrue (stands M.kind buf.now pos) },
    ghost walks: { IsWalkBetween M.Key.kind M.Mapped.kind M.E buf.now pos walk },
}

impl<'a, K: Portable, V: Portable, M: ArchivedMap<Key = K, Mapped = V>> Iterator for Range<'a, M> {
    ghost use Rattle.std.specs.Iterator.{YieldsFirstBy, item_count, at_most, UpTo};
    ghost use Rattle.std.specs.Iterator.SizeHint.{IsWithinCount};
    ghost use Rattle.std.specs.Prelude.{IfSome, None};
    ghost use Rattle.rkyv_btree_view.specs.Range.{range_left};

    type Item = (View<'a, K>, View<'a, V>);

    ghost next_gives = { YieldsFirstBy view_entry range_left };

    ghost remaining = { item_count range_left };

    #[inline(always)]
    fn next(&mut self) -> Option<(View<'a, K>, View<'a, V>)> {
        let buf = self.buf;
        M::opened(buf, self.pos);
        let place = step_before::<K, V, M>(buf, self.pos, &mut self.walk)?;
        Some(entry::<K, V, M>(buf, self.pos, place))
    }

    /// Returns `(0, None)`, because the entries that are left aren't counted.
    fn size_hint(&self) -> (usize, Option<usize>)
        ensures lower { IsWithinCount result.0 (at_most (length (range_left self.now))) }
        ensures upper { IfSome result.1 (UpTo (at_most (length (range_left self.now)))) }
        ensures zero { result.0 ≡ 0 }
        ensures unknown { result.1 ≡ None }
    {
        (0, None)
    }
}

impl<'a, K: Portable, V: Portable, M: ArchivedMap<Key = K, Mapped = V>> FusedIterator
    for Range<'a, M> {}

impl<'a, K: Portable, V: Portable, M: ArchivedMap<Key = K, Mapped = V>> View<'a, M> {
    ghost use Rattle.rkyv_btree_view.specs.Range.{range_left};

    /// Returns an iterator over the entries within the bounds, in order. No memory is allocated.
    ///
    /// The comparison must be a function of the query, which comes first, and the key. `Greater` means that the query is
    /// greater. If the entries aren't ordered for both queries, the items are some contiguous run of entries.
    pub fn range_with<Q, W: Shows<'a, K>, C: Fn(&Q, W) -> Ordering>(
        self,
        low: Bound<&Q>,
        high: Bound<&Q>,
        cmp: C,
    ) -> Range<'a, M>
        requires { C.IsAlwaysCallable cmp }
        ensures range { IsRange ⟦<Range<'a, M> as Iterator>⟧ view_entry result (range_left result)
            (entries_of K.kind V.kind M.E self.entry) }
        ensures whole { low.entry ≡ Unbounded → high.entry ≡ Unbounded
            → range_left result ≡ entries_of K.kind V.kind M.E self.entry }
        // If the entries are ordered for both bounds, these are all entries within them.
        ensures within { ByBounds (C.post cmp) (shown_value K.kind W.Shows) low.entry high.entry (λ lo hi.
            IsWithin lo hi (entries_of K.kind V.kind M.E self.entry) (range_left result)) }
    {
        Range {
            buf: self.buf,
            pos: self.pos,
            walk: start_between::<Q, K, V, M, W, C>(self.buf, self.pos, low, high, &cmp),
            of: PhantomData,
        }
    }
}

impl<'a, K: ViewOrd, V: Portable, M: ArchivedMap<Key = K, Mapped = V> + ShowsEntries> View<'a, M> {
    ghost use Rattle.rkyv_btree_view.specs.Range.{range_left};

    /// Returns an iterator over the entries whose keys are within the bounds, in order. No memory is allocated.
    pub fn range(self, low: Bound<View<'_, K>>, high: Bound<View<'_, K>>) -> Range<'a, M>
        ensures range { IsRange ⟦<Range<'a, M> as Iterator>⟧ view_entry result (range_left result)
            (entries_of K.kind V.kind M.E self.entry) }
        ensures whole { low.entry ≡ Unbounded → high.entry ≡ Unbounded
            → range_left result ≡ entries_of K.kind V.kind M.E self.entry }
        ensures between { IsBetween K.kind.order
            (bound_map (λ q. K.kind.order (view_value q)) low.entry)
            (bound_map (λ q. K.kind.order (view_value q)) high.entry)
            (entries_of K.kind V.kind M.E self.entry) (range_left result) }
    {
        let compare = |query: &View<'_, K>, key: View<K>| K::compare(query, &key);
        let low = low.as_ref();
        let high = high.as_ref();
        Range {
            buf: self.buf,
            pos: self.pos,
            walk: start_between::<_, K, V, M, _, _>(self.buf, self.pos, low, high, &compare),
            of: PhantomData,
        }
    }
}

impl<'a, K: Portable, V: Portable, M: ArchivedMap<Key = K, Mapped = V> + ShowsEntries> View<'a, M> {
    ghost use Rattle.rkyv_btree_view.specs.Range.{range_left, ByNativeBounds};

    /// Returns an iterator over the entries whose keys are within bounds of native values, in order: numbers, `&str`, pairs of
    /// these, or what else keys compare with.
    pub fn range_by<T: Drop>(self, low: Bound<T>, high: Bound<T>) -> Range<'a, M>
    where
        K: CompareWith<T>,
        ensures range { IsRange ⟦<Range<'a, M> as Iterator>⟧ view_entry result (range_left result)
            (entries_of K.kind V.kind M.E self.entry) }
        ensures whole { low ≡ Unbounded → high ≡ Unbounded
            → range_left result ≡ entries_of K.kind V.kind M.E self.entry }
        ensures between { ByNativeBounds K.kind K.compared_at low high (λ lo hi. IsBetween K.kind.order
            lo hi (entries_of K.kind V.kind M.E self.entry) (range_left result)) }
    {
        let compare = |query: &T, key: View<K>| K::compare_with(query, &key);
        let low = low.as_ref();
        let high = high.as_ref();
        Range {
            buf: self.buf,
            pos: self.pos,
            walk: start_between::<_, K, V, M, _, _>(self.buf, self.pos, low, high, &compare),
            of: PhantomData,
        }
    }

    /// Returns an iterator over the entries whose keys are in a range of native values, as `3..=9` or `"b"..`, in the order of
    /// their keys.
    ///
    /// # Examples
    ///
    /// ```rust
    /// for (name, price) in map.range_of("b"..) {
    ///     println!(rt; "from b on: {name} {}", price.to_native())?;
    /// }
    /// ```
    pub fn range_of<T: Drop, R: RangeBounds<T>>(self, range: R) -> Range<'a, M>
    where
        K: CompareWith<T>,
        ensures range { IsRange ⟦<Range<'a, M> as Iterator>⟧ view_entry result (range_left result)
            (entries_of K.kind V.kind M.E self.entry) }
        ensures whole { R.has_bounds range → R.start_bound range ≡ Unbounded
            → R.end_bound range ≡ Unbounded
            → range_left result ≡ entries_of K.kind V.kind M.E self.entry }
        ensures between { R.has_bounds range → ByNativeBounds K.kind K.compared_at
            (R.start_bound range) (R.end_bound range) (λ lo hi. IsBetween K.kind.order
            lo hi (entries_of K.kind V.kind M.E self.entry) (range_left result)) }
    {
        let compared = |query: &T, key: View<K>| K::compare_with(query, &key);
        let low = range.start_bound();
        let high = range.end_bound();
        Range {
            buf: self.buf,
            pos: self.pos,
            walk: start_between::<_, K, V, M, _, _>(self.buf, self.pos, low, high, &compared),
            of: PhantomData,
        }
    }
}
