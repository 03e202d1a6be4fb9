//! Ranges of the keys of sets that nobody has validated.
ghost use Rattle.std.specs.Prelude.{◌≡◌, ◌/◌, IfOk};
ghost use Rattle.std.specs.Map.{keys_of};
ghost use Rattle.rkyv_btree_portable.specs.Scalars.{unit_kind};
ghost use Rattle.rkyv_btree_view.specs.View.{view_value};

use crate::range::UnverifiedRange;
use crate::unverified::Unverified;
use rkyv_btree_portable::check::CheckBytes;
use rkyv_btree_portable::refusal::Refusal;
use rkyv_btree_types::map::ArchivedBTreeMap;
use rkyv_btree_types::set::ArchivedBTreeSet;
use rkyv_btree_view::compare_native::CompareWith;
use rkyv_btree_view::view::View;
use rkyv_btree_walk::archived_map::ArchivedMap;
use std::iter::FusedIterator;
use std::ops::RangeBounds;

/// An iterator over the keys of a set that nobody has validated that are in a range, in order. Each item is a key that is valid, or an
/// error, which is the last item.
#[derive(Drop)]
pub struct UnverifiedRangeKeys<'a, M: ArchivedMap, T, R> {
    entries: UnverifiedRange<'a, M, T, R>,
}

impl<
    'a,
    T: Drop,
    K: CheckBytes + CompareWith<T>,
    V: CheckBytes,
    M: ArchivedMap<Key = K, Mapped = V>,
    R: RangeBounds<T>,
> Iterator for UnverifiedRangeKeys<'a, M, T, R> {
    ghost use Rattle.std.specs.Iterator.{at_most, UpTo};
    ghost use Rattle.std.specs.Iterator.SizeHint.{IsWithinCount};
    ghost use Rattle.std.specs.Prelude.{IfSome, None};
    ghost use Rattle.rkyv_btree_unverified.specs.UnverifiedRangeKeys.{range_key_turns_left, StepsRangeKeys};

    type Item = Result<View<'a, K>, Refusal>;

    ghost next_gives = { StepsRangeKeys K.compared_at R.end_bound R.has_bounds K.Refuses V.Refuses };

    ghost remaining = { λ s. at_most (range_key_turns_left s) };

    fn next(&mut self) -> Option<Result<View<'a, K>, Refusal>> {
        match self.entries.next() {
            None => None,
            Some(Err(refusal)) => Some(Err(refusal)),
            Some(Ok((key, _))) => Some(Ok(key)),
        }
    }

    /// Returns `(0, None)`, because nothing is known of the keys that are left.
    fn size_hint(&self) -> (usize, Option<usize>)
        ensures lower { IsWithinCount result.0 (at_most (range_key_turns_left self.now)) }
        ensures upper { IfSome result.1 (UpTo (at_most (range_key_turns_left self.now))) }
        ensures zero { result.0 ≡ 0 }
        ensures unknown { result.1 ≡ None }
    {
        (0, None)
    }
}

impl<
    'a,
    T: Drop,
    K: CheckBytes + CompareWith<T>,
    V: CheckBytes,
    M: ArchivedMap<Key = K, Mapped = V>,
    R: RangeBounds<T>,
> FusedIterator for UnverifiedRangeKeys<'a, M, T, R> {}

impl<'a, K: CheckBytes, const E: usize> Unverified<'a, ArchivedBTreeSet<K, E>> {
    ghost use Rattle.rkyv_btree_unverified.specs.Iterating.{BeginsRange, IsAtMap, IteratesBetween};
    ghost use Rattle.rkyv_btree_unverified.specs.UnverifiedRangeKeys.{range_key_buffer_of, range_key_position_of, set_key_range, most_range_keys_left, unverified_range_keys_left};

    /// Returns an iterator over the keys in a range of native values, as `3..=9` or `"b"..`, in order. It validates each node and each
    /// key when it comes to it, and the keys that it compares. No memory is allocated, by the iterator either.
    ///
    /// Each item is a key or an error, and an error is the last item. On all bytes the keys are a run of those to which the pointers lead, and
    /// `None` comes after all of it. If the keys increase, they are all in the range.
    ///
    /// # Errors
    ///
    /// The first fault in what is read on the way to the first key.
    pub fn range_of<T: Drop, R: RangeBounds<T>>(
        self,
        range: R,
    ) -> Result<UnverifiedRangeKeys<'a, ArchivedBTreeMap<K, (), E>, T, R>, Refusal>
    where
        K: CompareWith<T>,
        ensures begins { BeginsRange K.kind unit_kind E K.Refuses ⟦<() as CheckBytes>⟧.Refuses
            self.entry.buf.now self.entry.pos result }
        ensures range { IfOk result (λ keys. set_key_range keys ≡ range) }
        ensures at { IfOk result (λ keys. IsAtMap K.kind unit_kind E self.entry.buf.now
            self.entry.pos (range_key_buffer_of keys) (range_key_position_of keys)
            (most_range_keys_left keys)) }
        ensures items { IfOk result (λ keys. IteratesBetween K.kind unit_kind E K.Refuses
            ⟦<() as CheckBytes>⟧.Refuses self.entry.buf.now self.entry.pos
            ⟦<UnverifiedRangeKeys<'a, ArchivedBTreeMap<K, (), E>, T, R> as Iterator>⟧ view_value
            keys_of keys (unverified_range_keys_left K.compared_at R.end_bound keys) K.compared_at
            (R.has_bounds range) (R.start_bound range) (R.end_bound range)) }
    {
        match self.as_map().range_of(range) {
            Err(refusal) => Err(refusal),
            Ok(entries) => Ok(UnverifiedRangeKeys { entries }),
        }
    }
}
