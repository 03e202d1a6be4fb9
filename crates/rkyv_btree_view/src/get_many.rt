//! Lookups of many keys in a map or a set, in one iterator. No lookup allocates memory.
ghost use Rattle.std.specs.Iterator.{IsFinite, Yields, YieldsFirstBy};
ghost use Rattle.std.specs.Prelude.{◌≡◌, ◌≤◌, ◌<◌, ◌+◌, ℕ, [], IfSome, drop, length, map};
ghost use Rattle.std.specs.Option.{ForSome, option_map};
ghost use Rattle.rkyv_btree_view.specs.Items.{ShowsAll};
ghost use Rattle.rkyv_btree_view.specs.Lookup.{ByNative};
ghost use Rattle.rkyv_btree_view.specs.Lookups.{IsKeyLookup, IsLookup};
ghost use Rattle.rkyv_btree_view.specs.ManyLookups.{entry_looked_up_in, key_looked_up_in, looked_up_in};
ghost use Rattle.rkyv_btree_view.specs.SideBySide.{AreWaysOf};
ghost use Rattle.rkyv_btree_view.specs.View.{view_entry, view_value};
ghost use Rattle.rkyv_btree_walk.specs.Ends.{end_of};
ghost use Rattle.rkyv_btree_walk.specs.mirror.Many.{way_at};
ghost use Rattle.rkyv_btree_walk.specs.mirror.Node.{RunStands};

use crate::compare_native::CompareWith;
use crate::map_view::ShowsEntries;
use crate::view::View;
use rkyv_btree_portable::check::Portable;
use rkyv_btree_types::set::ArchivedBTreeSet;
use rkyv_btree_walk::archived_map::ArchivedMap;
use rkyv_btree_walk::many::{SIDE_BY_SIDE, Way, search_many};
use std::iter::FusedIterator;

/// The entries that lookups of many keys find, in the order of the keys. Sixteen keys at a time are searched side by side, so that
/// a processor waits for the nodes of several at once.
#[derive(Drop)]
pub struct EntryLookups<'a, 'k, M: ArchivedMap, T> {
    map: View<'a, M>,
    // The keys that aren't searched yet.
    keys: &'k [T],
    // The searches of the keys before them have ended, and the results of so many are left, from number `next` on.
    ways: [Way; 16],
    next: usize,
    left: usize,
    ghost within: { next + left ≤ 16 },
    ghost short: { left + length keys.now < 18446744073709551616 },
    ghost stand: { (i : ℕ) → next ≤ i → i < next + left → ForSome (end_of (way_at ways i)) (λ e.
        RunStands M.Key.kind M.Mapped.kind M.E map.buf.now e.0 e.1 (e.1 + 1)) },
}

impl<'a, K: Portable, V: Portable, M: ArchivedMap<Key = K, Mapped = V>> View<'a, M> {
    /// Returns the ways of the searches for the first sixteen keys.
    fn ways_of<T>(self, keys: &[T]) -> [Way; 16]
    where
        K: CompareWith<T>,
        ensures { AreWaysOf K.kind V.kind M.E K.compared_at self.entry.buf.now self.entry.pos
            keys.now result }
    {
        let compare = |query: &T, key: View<K>| K::compared(query, &key);
        search_many::<T, K, V, M, _, _>(self.buf, self.pos, keys, &compare, K::is_plain())
    }
}

/// Returns the value of an entry that is found.
#[inline(always)]
fn value_of<'a, K: Portable, V: Portable>(
    found: Option<(View<'a, K>, View<'a, V>)>,
) -> Option<View<'a, V>>
    ensures { option_map view_value result
        ≡ option_map (λ e. e.1) (option_map view_entry found.entry) }
{
    match found {
        None => None,
        Some((_, value)) => Some(value),
    }
}

/// Returns the key of an entry that is found.
#[inline(always)]
fn key_of<'a, K: Portable, V: Portable>(
    found: Option<(View<'a, K>, View<'a, V>)>,
) -> Option<View<'a, K>>
    ensures { option_map view_value result
        ≡ option_map (λ e. e.0) (option_map view_entry found.entry) }
{
    match found {
        None => None,
        Some((key, _)) => Some(key),
    }
}

impl<'a, 'k, T, K: CompareWith<T>, V: Portable, M: ArchivedMap<Key = K, Mapped = V>> EntryLookups<
    'a,
    'k,
    M,
    T,
> {
    ghost use Rattle.rkyv_btree_view.specs.ManyLeft.{entry_lookups_left};

    /// Returns the lookups of these keys, none of which is searched yet.
    #[inline(always)]
    fn of(view: View<'a, M>, keys: &'k [T]) -> EntryLookups<'a, 'k, M, T>
        ensures { entry_lookups_left K.compared_at result
            ≡ map (entry_looked_up_in K.kind V.kind M.E view.entry K.compared_at) keys.now }
    {
        EntryLookups {
            map: view,
            keys,
            ways: [Way::Absent; 16],
            next: 0,
            left: 0,
        }
    }

    /// Searches the next keys, if no result is left.
    #[inline(always)]
    fn refill(&mut self)
        ensures same { entry_lookups_left K.compared_at self.new
            ≡ entry_lookups_left K.compared_at self.old }
        ensures ended { self.new.left ≡ 0 → self.new.keys.now ≡ [] }
    {
        if self.left > 0 {
            return;
        }
        let count = self.keys.len().min(SIDE_BY_SIDE);
        let (_, rest) = self.keys.split_at(count);
        self.ways = self.map.ways_of(self.keys);
        self.next = 0;
        self.left = count;
        self.keys = rest;
    }

    /// Returns what the lookup of the next key finds, or `None` if no key is left.
    #[inline(always)]
    fn next_found(&mut self) -> Option<Option<(View<'a, K>, View<'a, V>)>>
        ensures { YieldsFirstBy (option_map view_entry) (entry_lookups_left K.compared_at)
            self.old result self.new }
    {
        self.refill();
        if self.left == 0 {
            return None;
        }
        let found = self.map.entry_found(self.ways[self.next].end());
        self.next += 1;
        self.left -= 1;
        Some(found)
    }

    /// Returns the number of keys whose results are left.
    fn left(&self) -> usize
        ensures { result ≡ length (entry_lookups_left K.compared_at self.now) }
    {
        self.left + self.keys.len()
    }
}

/// The values that lookups of many keys find, in the order of the keys.
#[derive(Drop)]
pub struct Lookups<'a, 'k, M: ArchivedMap, T> {
    entries: EntryLookups<'a, 'k, M, T>,
}

impl<'a, 'k, T, K: CompareWith<T>, V: Portable, M: ArchivedMap<Key = K, Mapped = V>> Iterator
    for Lookups<'a, 'k, M, T> {
    ghost use Rattle.std.specs.Iterator.{item_count, at_most, UpTo};
    ghost use Rattle.std.specs.Iterator.SizeHint.{IsWithinCount};
    ghost use Rattle.std.specs.Prelude.{IfSome, Some};
    ghost use Rattle.rkyv_btree_view.specs.ManyLeft.{lookups_left};

    type Item = Option<View<'a, V>>;

    ghost next_gives = { YieldsFirstBy (option_map view_value) (lookups_left K.compared_at) };

    ghost remaining = { item_count (lookups_left K.compared_at) };

    #[inline(always)]
    fn next(&mut self) -> Option<Option<View<'a, V>>> {
        match self.entries.next_found() {
            None => None,
            Some(found) => Some(value_of::<K, V>(found)),
        }
    }

    fn size_hint(&self) -> (usize, Option<usize>)
        ensures lower { IsWithinCount result.0 (at_most (length (lookups_left K.compared_at self.now))) }
        ensures upper { IfSome result.1 (UpTo (at_most (length (lookups_left K.compared_at self.now)))) }
        ensures exact { result.0 ≡ length (lookups_left K.compared_at self.now) }
        ensures exact_upper { result.1 ≡ Some (length (lookups_left K.compared_at self.now)) }
    {
        let left = self.len();
        (left, Some(left))
    }
}

impl<
    'a,
    'k,
    T,
    K: CompareWith<T>,
    V: Portable,
    M: ArchivedMap<Key = K, Mapped = V>,
> ExactSizeIterator for Lookups<'a, 'k, M, T> {
    fn len(&self) -> usize {
        self.entries.left()
    }
}

impl<'a, 'k, T, K: CompareWith<T>, V: Portable, M: ArchivedMap<Key = K, Mapped = V>> FusedIterator
    for Lookups<'a, 'k, M, T> {}

/// The keys that lookups of many keys find, in the order of the keys that are looked up.
#[derive(Drop)]
pub struct KeyLookups<'a, 'k, M: ArchivedMap, T> {
    entries: EntryLookups<'a, 'k, M, T>,
}

impl<'a, 'k, T, K: CompareWith<T>, V: Portable, M: ArchivedMap<Key = K, Mapped = V>> Iterator
    for KeyLookups<'a, 'k, M, T> {
    ghost use Rattle.std.specs.Iterator.{item_count, at_most, UpTo};
    ghost use Rattle.std.specs.Iterator.SizeHint.{IsWithinCount};
    ghost use Rattle.std.specs.Prelude.{IfSome, Some};
    ghost use Rattle.rkyv_btree_view.specs.ManyLeft.{key_lookups_left};

    type Item = Option<View<'a, K>>;

    ghost next_gives = { YieldsFirstBy (option_map view_value) (key_lookups_left K.compared_at) };

    ghost remaining = { item_count (key_lookups_left K.compared_at) };

    #[inline(always)]
    fn next(&mut self) -> Option<Option<View<'a, K>>> {
        match self.entries.next_found() {
            None => None,
            Some(found) => Some(key_of::<K, V>(found)),
        }
    }

    fn size_hint(&self) -> (usize, Option<usize>)
        ensures lower { IsWithinCount result.0 (at_most (length (key_lookups_left K.compared_at self.now))) }
        ensures upper { IfSome result.1 (UpTo (at_most (length (key_lookups_left K.compared_at self.now)))) }
        ensures exact { result.0 ≡ length (key_lookups_left K.compared_at self.now) }
        ensures exact_upper { result.1 ≡ Some (length (key_lookups_left K.compared_at self.now)) }
    {
        let left = self.len();
        (left, Some(left))
    }
}

impl<
    'a,
    'k,
    T,
    K: CompareWith<T>,
    V: Portable,
    M: ArchivedMap<Key = K, Mapped = V>,
> ExactSizeIterator for KeyLookups<'a, 'k, M, T> {
    fn len(&self) -> usize {
        self.entries.left()
    }
}

impl<'a, 'k, T, K: CompareWith<T>, V: Portable, M: ArchivedMap<Key = K, Mapped = V>> FusedIterator
    for KeyLookups<'a, 'k, M, T> {}

impl<'a, K: Portable, V: Portable, M: ArchivedMap<Key = K, Mapped = V> + ShowsEntries> View<'a, M> {
    ghost use Rattle.rkyv_btree_view.specs.ManyLeft.{lookups_left};

    /// Returns an iterator over the results of `get_by` for these keys, in the order of the keys.
    ///
    /// It searches sixteen keys side by side, which takes less time than as many calls of `get_by` in a map that is larger than a
    /// processor's cache. No memory is allocated, by the iterator either.
    pub fn get_many_by<'k, T>(self, keys: &'k [T]) -> Lookups<'a, 'k, M, T>
    where
        K: CompareWith<T>,
        ensures yields { ShowsAll ⟦<Lookups<'a, 'k, M, T> as Iterator>⟧.next_gives
            (option_map view_value) result
            (map (looked_up_in K.kind V.kind M.E self.entry K.compared_at) keys.now) }
        // Each result is what `get_by` returns for its key.
        ensures each { (key : T) → ByNative K.kind K.compared_at key (λ comparison.
            IsLookup K.kind V.kind M.E self.entry comparison
            (looked_up_in K.kind V.kind M.E self.entry K.compared_at key)) }
        ensures left { lookups_left K.compared_at result
            ≡ map (looked_up_in K.kind V.kind M.E self.entry K.compared_at) keys.now }
        // After any items it is what was asked for, without as many.
        ensures suffix { (items : _) (later : _) →
            Yields ⟦<Lookups<'a, 'k, M, T> as Iterator>⟧.next_gives result items later →
            lookups_left K.compared_at later ≡ drop (length items)
            (map (looked_up_in K.kind V.kind M.E self.entry K.compared_at) keys.now) }
        ensures ends { IsFinite (⟦<Lookups<'a, 'k, M, T> as Iterator>⟧.remaining result) }
    {
        Lookups {
            entries: EntryLookups::of(self, keys),
        }
    }
}

impl<'a, K: Portable, const E: usize> View<'a, ArchivedBTreeSet<K, E>> {
    ghost use Rattle.rkyv_btree_view.specs.ManyLeft.{key_lookups_left};

    /// Returns an iterator over the results of `get_by` for these keys, in the order of the keys.
    ///
    /// It searches sixteen keys side by side. No memory is allocated, by the iterator either.
    pub fn get_many_by<'k, T>(self, keys: &'k [T]) -> KeyLookups<'a, 'k, ArchivedBTreeSet<K, E>, T>
    where
        K: CompareWith<T>,
        ensures yields { ShowsAll
            ⟦<KeyLookups<'a, 'k, ArchivedBTreeSet<K, E>, T> as Iterator>⟧.next_gives
            (option_map view_value) result
            (map (key_looked_up_in K.kind E self.entry K.compared_at) keys.now) }
        // Each result is what `get_by` returns for its key.
        ensures each { (key : T) → ByNative K.kind K.compared_at key (λ comparison.
            IsKeyLookup K.kind E self.entry comparison
            (key_looked_up_in K.kind E self.entry K.compared_at key)) }
        ensures left { key_lookups_left K.compared_at result
            ≡ map (key_looked_up_in K.kind E self.entry K.compared_at) keys.now }
        // After any items it is what was asked for, without as many.
        ensures suffix { (items : _) (later : _) →
            Yields ⟦<KeyLookups<'a, 'k, ArchivedBTreeSet<K, E>, T> as Iterator>⟧.next_gives result
            items later →
            key_lookups_left K.compared_at later ≡ drop (length items)
            (map (key_looked_up_in K.kind E self.entry K.compared_at) keys.now) }
        ensures ends { IsFinite
            (⟦<KeyLookups<'a, 'k, ArchivedBTreeSet<K, E>, T> as Iterator>⟧.remaining result) }
    {
        KeyLookups {
            entries: EntryLookups::of(self, keys),
        }
    }
}
