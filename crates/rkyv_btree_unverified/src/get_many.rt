//! Lookups of many keys in bytes that nobody has validated, in one iterator. No lookup allocates memory.
ghost use Rattle.std.specs.Iterator.{Drains, IsFinite};
ghost use Rattle.std.specs.List.{AllZip};
ghost use Rattle.std.specs.Prelude.{◌≡◌, ◌≤◌, ◌<◌, ◌+◌, ℕ, [], IfSome, OnSome, length};
ghost use Rattle.rkyv_btree_portable.specs.Scalars.{unit_kind};
ghost use Rattle.rkyv_btree_unverified.specs.Ends.{result_of, way_at};
ghost use Rattle.rkyv_btree_unverified.specs.Given.{GivesKey, GivesValue};
ghost use Rattle.rkyv_btree_unverified.specs.UnverifiedLookups.{Shows, YieldsLeft};
ghost use Rattle.rkyv_btree_unverified.specs.Steps.{key_place, value_place};
ghost use Rattle.rkyv_btree_unverified.specs.mirror.Many.{AreWaysOf, EndStands};
ghost use Rattle.rkyv_btree_view.specs.Lookup.{ByNative};

use crate::many::{UnverifiedWay, search_many};
use crate::unverified::{Unverified, UnverifiedEntries};
use rkyv_btree_portable::check::CheckBytes;
use rkyv_btree_portable::refusal::Refusal;
use rkyv_btree_types::set::ArchivedBTreeSet;
use rkyv_btree_view::compare_native::CompareWith;
use rkyv_btree_view::view::View;
use rkyv_btree_walk::archived_map::ArchivedMap;
use rkyv_btree_walk::many::SIDE_BY_SIDE;
use std::iter::FusedIterator;

/// What lookups of many keys find in bytes that nobody has validated, in the order of the keys. Sixteen keys at a time are searched
/// side by side, so that a processor waits for the nodes of several at once.
#[derive(Drop)]
pub struct UnverifiedEntryLookups<'a, 'k, M: ArchivedMap, T> {
    map: Unverified<'a, M>,
    // The keys that aren't searched yet.
    keys: &'k [T],
    // The searches of the keys before them have ended, and the results of so many are left, from number `next` on.
    ways: [UnverifiedWay; 16],
    next: usize,
    left: usize,
    ghost within: { next + left ≤ 16 },
    ghost short: { left + length keys.now < 18446744073709551616 },
    ghost stand: { (i : ℕ) → next ≤ i → i < next + left →
        EndStands M.Key.kind M.Mapped.kind M.E map.buf.now (result_of (way_at ways i)) },
}

impl<'a, K: CheckBytes, V: CheckBytes, M: ArchivedMap<Key = K, Mapped = V>> Unverified<'a, M> {
    /// Returns the ways of the searches for the first sixteen keys.
    fn ways_of<T>(self, keys: &[T]) -> [UnverifiedWay; 16]
    where
        K: CompareWith<T>,
        ensures { AreWaysOf K.kind V.kind M.E K.compared_at self.entry.buf.now K.Refuses V.Refuses
            self.entry.pos keys.now result }
    {
        let compare = |query: &T, key: View<K>| K::compared(query, &key);
        search_many::<T, K, V, M, _, _>(self.buf, self.pos, keys, &compare, K::is_plain())
    }

    /// Returns the value of the entry at which a search ended, or its error.
    #[inline(always)]
    fn value_found(
        self,
        found: Result<Option<(u32, u32)>, Refusal>,
    ) -> Result<Option<View<'a, V>>, Refusal>
        requires { EndStands K.kind V.kind M.E self.buf.now found }
        ensures { Shows K.kind V.kind M.E self.entry.buf.now (value_place K.kind V.kind M.E) (λ e.
            e.1) found result }
    {
        match found {
            Err(refusal) => Err(refusal),
            Ok(place) => match self.entry_found(place) {
                None => Ok(None),
                Some((_, value)) => Ok(Some(value)),
            },
        }
    }

    /// Returns the key of the entry at which a search ended, or its error.
    #[inline(always)]
    fn key_found(
        self,
        found: Result<Option<(u32, u32)>, Refusal>,
    ) -> Result<Option<View<'a, K>>, Refusal>
        requires { EndStands K.kind V.kind M.E self.buf.now found }
        ensures { Shows K.kind V.kind M.E self.entry.buf.now (key_place K.kind V.kind M.E) (λ e.
            e.0) found result }
    {
        match found {
            Err(refusal) => Err(refusal),
            Ok(place) => match self.entry_found(place) {
                None => Ok(None),
                Some((key, _)) => Ok(Some(key)),
            },
        }
    }
}

impl<
    'a,
    'k,
    T,
    K: CheckBytes + CompareWith<T>,
    V: CheckBytes,
    M: ArchivedMap<Key = K, Mapped = V>,
> UnverifiedEntryLookups<'a, 'k, M, T> {
    ghost use Rattle.rkyv_btree_unverified.specs.UnverifiedLookupsLeft.{AreFound, count_left};

    /// Returns the lookups of these keys, none of which is searched yet.
    #[inline(always)]
    fn of(map: Unverified<'a, M>, keys: &'k [T]) -> UnverifiedEntryLookups<'a, 'k, M, T>
        ensures map { result.map ≡ map.entry }
        ensures keys { result.keys.now ≡ keys.now }
        ensures none { result.left ≡ 0 }
    {
        UnverifiedEntryLookups {
            map,
            keys,
            ways: [UnverifiedWay::Ended(Ok(None)); 16],
            next: 0,
            left: 0,
        }
    }

    /// Searches the next keys, if no result is left.
    #[inline(always)]
    fn refill(&mut self)
        ensures map { self.new.map ≡ self.old.map }
        ensures count { count_left self.new ≡ count_left self.old }
        ensures found { (found : _) → AreFound K.compared_at K.Refuses V.Refuses self.new found →
            AreFound K.compared_at K.Refuses V.Refuses self.old found }
        ensures ended { self.new.left ≡ 0 → self.new.keys.now ≡ [] }
    {
        if self.left > 0 {
            return;
        }
        let count = self.keys.len().min(SIDE_BY_SIDE);
        let (_, rest) = self.keys.split_at(count);
        self.ways = self.map.ways_of(self.keys);
        self.next = 0;
        self.left = count;
        self.keys = rest;
    }

    /// Returns what the lookup of the next key finds, or `None` if no key is left.
    #[inline(always)]
    fn next_found(&mut self) -> Option<Result<Option<(u32, u32)>, Refusal>>
        ensures map { self.new.map ≡ self.old.map }
        ensures left { YieldsLeft (AreFound K.compared_at K.Refuses V.Refuses) self.old result
            self.new }
        ensures less { OnSome result (count_left self.new < count_left self.old) }
        ensures stands { IfSome result (EndStands K.kind V.kind M.E self.new.map.buf.now) }
    {
        self.refill();
        if self.left == 0 {
            return None;
        }
        let found = self.ways[self.next].result();
        self.next += 1;
        self.left -= 1;
        Some(found)
    }

    /// Returns the number of keys whose results are left.
    fn left(&self) -> usize
        ensures { result ≡ count_left self.now }
    {
        self.left + self.keys.len()
    }
}

/// The values that lookups of many keys find in bytes that nobody has validated, in the order of the keys. Each item is what
/// the lookup of its key returns, and an error of one key leaves the others as they are.
#[derive(Drop)]
pub struct UnverifiedLookups<'a, 'k, M: ArchivedMap, T> {
    entries: UnverifiedEntryLookups<'a, 'k, M, T>,
}

impl<
    'a,
    'k,
    T,
    K: CheckBytes + CompareWith<T>,
    V: CheckBytes,
    M: ArchivedMap<Key = K, Mapped = V>,
> Iterator for UnverifiedLookups<'a, 'k, M, T> {
    ghost use Rattle.std.specs.Iterator.{at_most, UpTo};
    ghost use Rattle.std.specs.Iterator.SizeHint.{IsWithinCount};
    ghost use Rattle.std.specs.Prelude.{Some};
    ghost use Rattle.rkyv_btree_unverified.specs.UnverifiedLookupsLeft.{AreLookups, lookups_left};

    type Item = Result<Option<View<'a, V>>, Refusal>;

    ghost next_gives = { YieldsLeft (AreLookups K.compared_at K.Refuses V.Refuses) };

    ghost remaining = { λ s. at_most (lookups_left s) };

    #[inline(always)]
    fn next(&mut self) -> Option<Result<Option<View<'a, V>>, Refusal>> {
        match self.entries.next_found() {
            None => None,
            Some(found) => Some(self.entries.map.value_found(found)),
        }
    }

    fn size_hint(&self) -> (usize, Option<usize>)
        ensures lower { IsWithinCount result.0 (at_most (lookups_left self.now)) }
        ensures upper { IfSome result.1 (UpTo (at_most (lookups_left self.now))) }
        ensures exact { result.0 ≡ lookups_left self.now }
        ensures exact_upper { result.1 ≡ Some (lookups_left self.now) }
    {
        let left = self.len();
        (left, Some(left))
    }
}

impl<
    'a,
    'k,
    T,
    K: CheckBytes + CompareWith<T>,
    V: CheckBytes,
    M: ArchivedMap<Key = K, Mapped = V>,
> ExactSizeIterator for UnverifiedLookups<'a, 'k, M, T> {
    fn len(&self) -> usize {
        self.entries.left()
    }
}

impl<
    'a,
    'k,
    T,
    K: CheckBytes + CompareWith<T>,
    V: CheckBytes,
    M: ArchivedMap<Key = K, Mapped = V>,
> FusedIterator for UnverifiedLookups<'a, 'k, M, T> {}

/// The keys that lookups of many keys find in bytes that nobody has validated, in the order of the keys that are looked up.
#[derive(Drop)]
pub struct UnverifiedKeyLookups<'a, 'k, M: ArchivedMap, T> {
    entries: UnverifiedEntryLookups<'a, 'k, M, T>,
}

impl<
    'a,
    'k,
    T,
    K: CheckBytes + CompareWith<T>,
    V: CheckBytes,
    M: ArchivedMap<Key = K, Mapped = V>,
> Iterator for UnverifiedKeyLookups<'a, 'k, M, T> {
    ghost use Rattle.std.specs.Iterator.{at_most, UpTo};
    ghost use Rattle.std.specs.Iterator.SizeHint.{IsWithinCount};
    ghost use Rattle.std.specs.Prelude.{Some};
    ghost use Rattle.rkyv_btree_unverified.specs.UnverifiedLookupsLeft.{AreKeyLookups, key_lookups_left};

    type Item = Result<Option<View<'a, K>>, Refusal>;

    ghost next_gives = { YieldsLeft (AreKeyLookups K.compared_at K.Refuses V.Refuses) };

    ghost remaining = { λ s. at_most (key_lookups_left s) };

    #[inline(always)]
    fn next(&mut self) -> Option<Result<Option<View<'a, K>>, Refusal>> {
        match self.entries.next_found() {
            None => None,
            Some(found) => Some(self.entries.map.key_found(found)),
        }
    }

    fn size_hint(&self) -> (usize, Option<usize>)
        ensures lower { IsWithinCount result.0 (at_most (key_lookups_left self.now)) }
        ensures upper { IfSome result.1 (UpTo (at_most (key_lookups_left self.now))) }
        ensures exact { result.0 ≡ key_lookups_left self.now }
        ensures exact_upper { result.1 ≡ Some (key_lookups_left self.now) }
    {
        let left = self.len();
        (left, Some(left))
    }
}

impl<
    'a,
    'k,
    T,
    K: CheckBytes + CompareWith<T>,
    V: CheckBytes,
    M: ArchivedMap<Key = K, Mapped = V>,
> ExactSizeIterator for UnverifiedKeyLookups<'a, 'k, M, T> {
    fn len(&self) -> usize {
        self.entries.left()
    }
}

impl<
    'a,
    'k,
    T,
    K: CheckBytes + CompareWith<T>,
    V: CheckBytes,
    M: ArchivedMap<Key = K, Mapped = V>,
> FusedIterator for UnverifiedKeyLookups<'a, 'k, M, T> {}

impl<
    'a,
    K: CheckBytes,
    V: CheckBytes,
    M: ArchivedMap<Key = K, Mapped = V> + UnverifiedEntries,
> Unverified<'a, M> {
    ghost use Rattle.rkyv_btree_unverified.specs.UnverifiedLookupsLeft.{lookups_left};

    /// Returns an iterator over the results of `get_by` for these keys, in the order of the keys. An item is an error if the lookup
    /// of its key is one, and the other keys are looked up all the same.
    ///
    /// It searches sixteen keys side by side. No memory is allocated, by the iterator either.
    pub fn get_many_by<'k, T>(self, keys: &'k [T]) -> UnverifiedLookups<'a, 'k, M, T>
    where
        K: CompareWith<T>,
        // Each item is what `get_by` returns for its key.
        ensures yields { (items : _) →
            Drains ⟦<UnverifiedLookups<'a, 'k, M, T> as Iterator>⟧.next_gives result items →
            AllZip (λ key item. GivesValue K.kind M.E K.Refuses V.Refuses self.entry.buf.now
            self.entry.pos (ByNative K.kind K.compared_at key) item) keys.now items }
        ensures count { lookups_left result ≡ length keys.now }
        ensures ends { IsFinite
            (⟦<UnverifiedLookups<'a, 'k, M, T> as Iterator>⟧.remaining result) }
    {
        UnverifiedLookups {
            entries: UnverifiedEntryLookups::of(self, keys),
        }
    }
}

impl<'a, K: CheckBytes, const E: usize> Unverified<'a, ArchivedBTreeSet<K, E>> {
    ghost use Rattle.rkyv_btree_unverified.specs.UnverifiedLookupsLeft.{key_lookups_left};

    /// Returns an iterator over the results of `get_by` for these keys, in the order of the keys. An item is an error if the lookup
    /// of its key is one, and the other keys are looked up all the same.
    ///
    /// It searches sixteen keys side by side. No memory is allocated, by the iterator either.
    pub fn get_many_by<'k, T>(
        self,
        keys: &'k [T],
    ) -> UnverifiedKeyLookups<'a, 'k, ArchivedBTreeSet<K, E>, T>
    where
        K: CompareWith<T>,
        // Each item is what `get_by` returns for its key.
        ensures yields { (items : _) →
            Drains ⟦<UnverifiedKeyLookups<'a, 'k, ArchivedBTreeSet<K, E>, T> as Iterator>⟧.next_gives
            result items →
            AllZip (λ key item. GivesKey unit_kind E K.Refuses ⟦<() as CheckBytes>⟧.Refuses
            self.entry.buf.now self.entry.pos (ByNative K.kind K.compared_at key) item)
            keys.now items }
        ensures count { key_lookups_left result ≡ length keys.now }
        ensures ends { IsFinite
            (⟦<UnverifiedKeyLookups<'a, 'k, ArchivedBTreeSet<K, E>, T> as Iterator>⟧.remaining result) }
    {
        UnverifiedKeyLookups {
            entries: UnverifiedEntryLookups::of(self, keys),
        }
    }
}
