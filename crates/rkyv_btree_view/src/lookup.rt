//! Lookups in a map by its keys. No lookup allocates memory.
//!
//! A search compares the query with the keys of a node from the left. It ends at a key that is equal. Otherwise it goes on in
//! the child before the first greater key, or in the last child.
ghost use Rattle.std.specs.BTreeMap.{is_at};
ghost use Rattle.std.specs.Map.{lookup};
ghost use Rattle.std.specs.Option.{option_map};
ghost use Rattle.std.specs.Prelude.{◌≡◌, ◌+◌, ◌*◌, ◌≤◌, [], Contains, IsSome, IfSome, Some};
ghost use Rattle.rkyv_btree_format.specs.Increasing.{Increasing};
ghost use Rattle.rkyv_btree_format.specs.Read.{entry_at};
ghost use Rattle.rkyv_btree_view.specs.Lookup.{found_in, comparisons_in, height_of, IsComplete};
ghost use Rattle.rkyv_btree_view.specs.Lookup.{ByComparison, ByNative};
ghost use Rattle.rkyv_btree_view.specs.Lookup.{FoundIsEqual, IncreasingIsFound, SearchedIsSpelled, SearchedIsLow};
ghost use Rattle.rkyv_btree_view.specs.Lookups.{IsEntryLookup, IsLookup, IsLookupWith, IsNativeLookup, IsWhetherFound};
ghost use Rattle.rkyv_btree_view.specs.Native.{ByReading};
ghost use Rattle.rkyv_btree_view.specs.Query.{IsCut};
ghost use Rattle.rkyv_btree_view.specs.View.{view_value, view_entry, entries_of};
ghost use Rattle.rkyv_btree_walk.specs.mirror.Node.{RunStands};
ghost use Rattle.rkyv_btree_walk.specs.Search.{shown_value};

use crate::compare::ViewOrd;
use crate::compare_native::CompareWith;
use crate::iter::entry;
use crate::map_view::ShowsEntries;
use crate::native::ToNative;
use crate::view::View;
use rkyv_btree_portable::check::Portable;
use rkyv_btree_portable::steps::StepCounter;
use rkyv_btree_walk::archived_map::ArchivedMap;
use rkyv_btree_walk::entry_place::EntryPlace;
use rkyv_btree_walk::search::{Compared, search};
use rkyv_btree_walk::shows::Shows;
use std::cmp::Ordering;

impl<'a, K: Portable, V: Portable, M: ArchivedMap<Key = K, Mapped = V>> View<'a, M> {
    /// The views of the entry at which a search ended, by its node and number.
    #[inline(always)]
    pub(crate) fn entry_found(self, found: Option<(u32, u32)>) -> Option<(View<'a, K>, View<'a, V>)>
        requires { IfSome found (λ e.
            RunStands K.kind V.kind M.E self.buf.now e.0 e.1 (e.1 + 1)) }
        ensures { option_map view_entry result
            ≡ option_map (entry_at K.kind V.kind M.E self.entry.buf.now) found }
    {
        match found {
            None => None,
            Some((node, index)) => {
                let place = EntryPlace {
                    node,
                    index: index as usize,
                };
                Some(entry::<K, V, M>(self.buf, self.pos, place))
            }
        }
    }

    /// Returns the entry whose key is equal to the query, or `None`.
    ///
    /// The comparison must be a function of the query, which comes first, and the key. `Greater` means that the query is
    /// greater. If the entries aren't ordered for the query, the lookup may miss an entry.
    ///
    /// # Examples
    ///
    /// ```rust
    /// let found = map.get_key_value_with(&name, |name: &&str, key: View<ArchivedText>| {
    ///     Ord::cmp(*name, key.as_str())
    /// });
    /// ```
    pub fn get_key_value_with<Q, W: Shows<'a, K>, C: Fn(&Q, W) -> Ordering>(
        self,
        key: &Q,
        cmp: C,
    ) -> Option<(View<'a, K>, View<'a, V>)>
        requires { C.IsAlwaysCallable cmp }
        // A result is an entry of the list, whatever the comparison returns.
        ensures listed { IfSome (option_map view_entry result)
            (Contains (entries_of K.kind V.kind M.E self.entry)) }
        ensures lookup { ByComparison (C.post cmp) (shown_value K.kind W.Shows) key.now (λ comparison.
            IsLookupWith K.kind V.kind M.E self.entry comparison (option_map view_entry result)) }
    {
        let compare = |query: &Q, key: W| Compared::of(cmp(query, key));
        let (found, _) = search::<Q, K, V, M, W, _>(self.buf, self.pos, key, &compare, false);
        self.entry_found(found)
    }

    /// Returns what `get_key_value_with` returns, and adds the number of comparisons to `steps`.
    ///
    /// There are at most `E` comparisons a level, and none in an empty map.
    pub fn get_key_value_counted<Q, W: Shows<'a, K>, C: Fn(&Q, W) -> Ordering>(
        self,
        key: &Q,
        cmp: C,
        steps: &mut StepCounter,
    ) -> Option<(View<'a, K>, View<'a, V>)>
        requires callable { C.IsAlwaysCallable cmp }
        requires room { steps.old ≤ 9223372036854775807 }
        // A result is an entry of the list, whatever the comparison returns.
        ensures listed { IfSome (option_map view_entry result)
            (Contains (entries_of K.kind V.kind M.E self.entry)) }
        ensures lookup { ByComparison (C.post cmp) (shown_value K.kind W.Shows) key.now (λ comparison.
            IsLookupWith K.kind V.kind M.E self.entry comparison (option_map view_entry result)) }
        ensures counts { ByComparison (C.post cmp) (shown_value K.kind W.Shows) key.now (λ comparison.
            steps.new ≡ steps.old + comparisons_in K.kind V.kind M.E self.entry comparison) }
        ensures few { ByComparison (C.post cmp) (shown_value K.kind W.Shows) key.now (λ comparison.
            steps.new ≤ steps.old + M.E * height_of K.kind V.kind M.E self.entry) }
        ensures none { entries_of K.kind V.kind M.E self.entry ≡ [] → steps.new ≡ steps.old }
    {
        M::opened(self.buf, self.pos);
        let compare = |query: &Q, key: W| Compared::of(cmp(query, key));
        let (found, compared) = search::<Q, K, V, M, W, _>(
            self.buf, self.pos, key, &compare, false,
        );
        steps.add(compared);
        self.entry_found(found)
    }
}

impl<'a, K: ViewOrd, V: Portable, M: ArchivedMap<Key = K, Mapped = V> + ShowsEntries> View<'a, M> {
    /// Returns the entry whose key is equal to `key`, or `None`.
    pub fn get_key_value(self, key: View<'_, K>) -> Option<(View<'a, K>, View<'a, V>)>
        ensures { IsEntryLookup K.kind V.kind M.E self.entry (K.kind.order (view_value key.entry))
            (option_map view_entry result) }
    {
        let compare = |query: &View<'_, K>, key: View<K>| Compared::of(K::compare(query, &key));
        let (found, _) = search::<_, K, V, M, _, _>(self.buf, self.pos, &key, &compare, true);
        self.entry_found(found)
    }

    /// Returns the value stored for `key`, or `None`.
    pub fn get(self, key: View<'_, K>) -> Option<View<'a, V>>
        ensures { IsLookup K.kind V.kind M.E self.entry (K.kind.order (view_value key.entry))
            (option_map view_value result) }
    {
        match self.get_key_value(key) {
            None => None,
            Some((_, value)) => Some(value),
        }
    }

    /// Returns whether `get` finds a value.
    pub fn contains_key(self, key: View<'_, K>) -> bool
        ensures { IsWhetherFound K.kind V.kind M.E self.entry (K.kind.order (view_value key.entry))
            result }
    {
        self.get_key_value(key).is_some()
    }

    /// Returns the value stored for `key`. Requires that there is one: `contains_key` is the test.
    pub fn index(self, key: View<'_, K>) -> View<'a, V>
        requires { IsSome (found_in K.kind V.kind M.E self (K.kind.order (view_value key))) }
        ensures { IsLookup K.kind V.kind M.E self.entry (K.kind.order (view_value key.entry))
            (Some (view_value result)) }
    {
        match self.get(key) {
            Some(value) => value,
            None => unreachable!(),
        }
    }
}

impl<'a, K: Portable, V: Portable, M: ArchivedMap<Key = K, Mapped = V> + ShowsEntries> View<'a, M> {
    /// Returns the entry whose key is equal to a native value, or `None`: a number, a `&str`, a pair of these, or what else
    /// keys compare with.
    #[inline(always)]
    pub fn get_key_value_by<T: Drop>(self, key: T) -> Option<(View<'a, K>, View<'a, V>)>
    where
        K: CompareWith<T>,
        ensures { ByNative K.kind K.compared_at key (λ comparison.
            IsEntryLookup K.kind V.kind M.E self.entry comparison (option_map view_entry result)) }
    {
        let compare = |query: &T, key: View<K>| K::compared(query, &key);
        let all = K::is_plain();
        let (found, _) = search::<_, K, V, M, _, _>(self.buf, self.pos, &key, &compare, all);
        self.entry_found(found)
    }

    /// Returns the value stored for a native key, or `None`.
    ///
    /// # Examples
    ///
    /// ```rust
    /// let value = map.get_by(key).map(number);
    /// ```
    #[inline(always)]
    pub fn get_by<T: Drop>(self, key: T) -> Option<View<'a, V>>
    where
        K: CompareWith<T>,
        ensures { ByNative K.kind K.compared_at key (λ comparison.
            IsLookup K.kind V.kind M.E self.entry comparison (option_map view_value result)) }
    {
        match self.get_key_value_by(key) {
            None => None,
            Some((_, value)) => Some(value),
        }
    }

    /// Returns whether `get_by` finds a value.
    ///
    /// # Examples
    ///
    /// ```rust
    /// assert_eq!(rt; map.contains_by(key), want.is_some(), "{key}");
    /// ```
    pub fn contains_by<T: Drop>(self, key: T) -> bool
    where
        K: CompareWith<T>,
        ensures { ByNative K.kind K.compared_at key (λ comparison.
            IsWhetherFound K.kind V.kind M.E self.entry comparison result) }
    {
        self.get_key_value_by(key).is_some()
    }
}

impl<'a, K: Portable, V: ToNative, M: ArchivedMap<Key = K, Mapped = V> + ShowsEntries> View<'a, M> {
    /// Returns the native value of the entry whose key is equal to a native value: `get_by` and `to_native` in one call.
    ///
    /// # Examples
    ///
    /// ```rust
    /// if let Some(price) = map.get_native_by("pear") {
    ///     println!(rt; "pear costs {price}")?;
    /// }
    /// ```
    pub fn get_native_by<T: Drop>(self, key: T) -> Option<V::Native>
    where
        K: CompareWith<T>,
        ensures { ByReading V.kind V.read_native (λ native.
            ByNative K.kind K.compared_at key (λ comparison.
            IsNativeLookup K.kind V.kind M.E self.entry comparison native result)) }
    {
        match self.get_by(key) {
            None => None,
            Some(value) => Some(value.to_native()),
        }
    }
}

/// What a search asks and finds equal, as `found` of the lookups names it, is an entry of the list that is equal; and
/// under an ordered comparison there is one exactly if some key is equal.
pub fn what_is_found_is_equal<K: Portable, V: Portable, const E: usize>()
    ensures { FoundIsEqual K.kind V.kind E }
{}

/// The tree that a lookup searches is the tree that the accepted bytes spell. Its height is 32 at most, so a lookup compares
/// no more than 32 times as many keys as a node has entries.
pub fn searched_trees_are_spelled<K: Portable, V: Portable, const E: usize>()
    ensures tree { SearchedIsSpelled K.kind V.kind E }
    ensures height { SearchedIsLow K.kind V.kind E }
{}

/// In a map whose keys strictly increase, what a lookup finds is the only entry whose key is equal to the query, and
/// where it finds nothing there is none: so by keys, and by native values.
pub fn increasing_keys_are_found<K: ViewOrd, V: Portable, const E: usize>()
    ensures found { IncreasingIsFound K.kind V.kind E }
    ensures keys { (key : K.kind.Value) → IsCut K.kind.order (K.kind.order key) }
{}
