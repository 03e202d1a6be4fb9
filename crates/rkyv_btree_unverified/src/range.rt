//! Ranges of the entries of maps that nobody has validated.
ghost use Rattle.std.specs.Prelude.{◌≡◌, ◌/◌, IfOk, IsTrue};
ghost use Rattle.rkyv_btree_format.specs.Layout.{are_fitting, leaf_size};
ghost use Rattle.rkyv_btree_unverified.specs.EntriesFrom.{is_past_place};
ghost use Rattle.rkyv_btree_unverified.specs.laws.Walked.{counted-prop};
ghost use Rattle.rkyv_btree_unverified.specs.mirror.Walked.{IsCounted};
ghost use Rattle.std.specs.declared.ops.Bound.TheVariants.{Unbounded};
ghost use Rattle.rkyv_btree_view.specs.View.{view_entry};

use crate::iter::entry;
use crate::node::leaf_size;
use crate::seek::begin;
use crate::unverified::{Unverified, UnverifiedEntries};
use crate::walk::{Phase, UnverifiedWalk, step};
use arrayvec::ArrayVec;
use rkyv_btree_portable::check::CheckBytes;
use rkyv_btree_portable::refusal::Refusal;
use rkyv_btree_view::compare_native::CompareWith;
use rkyv_btree_view::view::View;
use rkyv_btree_walk::archived_map::ArchivedMap;
use std::iter::FusedIterator;
use std::marker::PhantomData;
use std::ops::{Bound, RangeBounds};

/// An iterator over the entries of a map that nobody has validated whose keys are in a range, in order. Each item is an entry that is
/// valid, or an error, which is the last item.
#[derive(Drop)]
pub struct UnverifiedRange<'a, M: ArchivedMap, T, R> {
    buf: &'a [u8],
    pos: u32,
    walk: UnverifiedWalk,
    range: R,
    of: PhantomData<M>,
    by: PhantomData<T>,
    ghost fitting: { IsTrue (are_fitting M.Key.kind M.Mapped.kind M.E) },
    ghost walks: { IsCounted M.Key.kind M.Mapped.kind M.E buf.now pos walk } by { counted-prop M.Key.kind M.Mapped.kind M.E buf.now pos walk },
}

/// Returns whether a key is past the end of a range.
pub fn is_past<T, K: CompareWith<T>, R: RangeBounds<T>>(range: &R, key: &View<'_, K>) -> bool
    ensures { R.has_bounds range.now →
        result ≡ is_past_place K.compared_at key.now.buf.now (R.end_bound range.now) key.now.pos }
{
    match range.end_bound() {
        Bound::Unbounded => false,
        Bound::Included(high) => K::compare_with(high, key).is_lt(),
        Bound::Excluded(high) => K::compare_with(high, key).is_le(),
    }
}

impl<
    'a,
    T: Drop,
    K: CheckBytes + CompareWith<T>,
    V: CheckBytes,
    M: ArchivedMap<Key = K, Mapped = V>,
    R: RangeBounds<T>,
> Iterator for UnverifiedRange<'a, M, T, R> {
    ghost use Rattle.std.specs.Iterator.{at_most, UpTo};
    ghost use Rattle.std.specs.Iterator.SizeHint.{IsWithinCount};
    ghost use Rattle.std.specs.Prelude.{IfSome, None};
    ghost use Rattle.rkyv_btree_unverified.specs.UnverifiedRange.{range_turns_left, StepsRange};

    type Item = Result<(View<'a, K>, View<'a, V>), Refusal>;

    ghost next_gives = { StepsRange K.compared_at R.end_bound R.has_bounds K.Refuses V.Refuses };

    ghost remaining = { λ s. at_most (range_turns_left s) };

    fn next(&mut self) -> Option<Result<(View<'a, K>, View<'a, V>), Refusal>> {
        let buf = self.buf;
        match step::<K, V, M>(buf, self.pos, &mut self.walk) {
            Err(refusal) => Some(Err(refusal)),
            Ok(None) => None,
            Ok(Some((node, index))) => {
                let (key, value) = entry::<K, V, M>(buf, node, index);
                if is_past::<T, K, R>(&self.range, &key) {
                    self.walk.phase = Phase::Over;
                    return None;
                }
                Some(Ok((key, value)))
            }
        }
    }

    /// Returns `(0, None)`, because nothing is known of the entries that are left.
    fn size_hint(&self) -> (usize, Option<usize>)
        ensures lower { IsWithinCount result.0 (at_most (range_turns_left self.now)) }
        ensures upper { IfSome result.1 (UpTo (at_most (range_turns_left self.now))) }
        ensures zero { result.0 ≡ 0 }
        ensures unknown { result.1 ≡ None }
    {
        (0, None)
    }
}

impl<
    'a,
    T: Drop,
    K: CheckBytes + CompareWith<T>,
    V: CheckBytes,
    M: ArchivedMap<Key = K, Mapped = V>,
    R: RangeBounds<T>,
> FusedIterator for UnverifiedRange<'a, M, T, R> {}

impl<
    'a,
    K: CheckBytes,
    V: CheckBytes,
    M: ArchivedMap<Key = K, Mapped = V> + UnverifiedEntries,
> Unverified<'a, M> {
    ghost use Rattle.rkyv_btree_unverified.specs.Iterating.{BeginsRange, IsAtMap, IteratesBetween};
    ghost use Rattle.rkyv_btree_unverified.specs.UnverifiedRange.{key_range, range_buffer_of, range_position_of, most_range_left, unverified_range_left};

    /// Returns an iterator over the entries whose keys are in a range of native values, as `3..=9` or `"b"..`, in order. It validates each
    /// node, key and value when it comes to it, and the keys that it compares. No memory is allocated, by the iterator either.
    ///
    /// Each item is an entry or an error, and an error is the last item. On all bytes the entries are a run of those to which the pointers
    /// lead, and `None` comes after all of it. If the keys increase, they are all in the range.
    ///
    /// # Errors
    ///
    /// The first fault in what is read on the way to the first entry.
    pub fn range_of<T: Drop, R: RangeBounds<T>>(
        self,
        range: R,
    ) -> Result<UnverifiedRange<'a, M, T, R>, Refusal>
    where
        K: CompareWith<T>,
        ensures begins { BeginsRange K.kind V.kind M.E K.Refuses V.Refuses self.entry.buf.now
            self.entry.pos result }
        ensures range { IfOk result (λ entries. key_range entries ≡ range) }
        ensures at { IfOk result (λ entries. IsAtMap K.kind V.kind M.E self.entry.buf.now
            self.entry.pos (range_buffer_of entries) (range_position_of entries)
            (most_range_left entries)) }
        ensures items { IfOk result (λ entries. IteratesBetween K.kind V.kind M.E K.Refuses
            V.Refuses self.entry.buf.now self.entry.pos
            ⟦<UnverifiedRange<'a, M, T, R> as Iterator>⟧ view_entry (λ m. m) entries
            (unverified_range_left K.compared_at R.end_bound entries) K.compared_at
            (R.has_bounds range) (R.start_bound range) (R.end_bound range)) }
    {
        let mut walk = UnverifiedWalk {
            path: ArrayVec::new(),
            node: 0,
            next: 0,
            end: 0,
            nodes: self.buf.len() / leaf_size::<K, V, M>() as usize,
            taken: 0,
            phase: Phase::Descend,
        };
        match begin::<T, K, V, M>(self.buf, self.pos, range.start_bound(), &mut walk) {
            Err(refusal) => Err(refusal),
            Ok(_) => Ok(UnverifiedRange {
                buf: self.buf,
                pos: self.pos,
                walk,
                range,
                of: PhantomData,
                by: PhantomData,
            }),
        }
    }
}
