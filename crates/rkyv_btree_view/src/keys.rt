//! Iterators over the keys and over the values of a map.
ghost use Rattle.std.specs.Prelude.{◌≡◌, length, map};
ghost use Rattle.std.specs.Iterator.{IsFinite, size};
ghost use Rattle.rkyv_btree_view.specs.Items.{ShowsAll};
ghost use Rattle.rkyv_btree_view.specs.View.{view_value, entries_of};

use crate::iter::Iter;
use crate::view::View;
use rkyv_btree_portable::check::Portable;
use rkyv_btree_walk::archived_map::ArchivedMap;
use std::iter::FusedIterator;

/// The keys of a map, in order.
#[derive(Drop)]
pub struct Keys<'a, M: ArchivedMap> {
    entries: Iter<'a, M>,
}

impl<'a, K: Portable, V: Portable, M: ArchivedMap<Key = K, Mapped = V>> Iterator for Keys<'a, M> {
    ghost use Rattle.std.specs.Iterator.{YieldsFirstBy, item_count, at_most, UpTo};
    ghost use Rattle.std.specs.Iterator.SizeHint.{IsWithinCount};
    ghost use Rattle.std.specs.Prelude.{IfSome, Some};
    ghost use Rattle.rkyv_btree_view.specs.Keys.{keys_left};

    type Item = View<'a, K>;

    ghost next_gives = { YieldsFirstBy view_value keys_left };

    ghost remaining = { item_count keys_left };

    #[inline(always)]
    fn next(&mut self) -> Option<View<'a, K>> {
        match self.entries.next() {
            None => None,
            Some((key, _)) => Some(key),
        }
    }

    fn size_hint(&self) -> (usize, Option<usize>)
        ensures lower { IsWithinCount result.0 (at_most (length (keys_left self.now))) }
        ensures upper { IfSome result.1 (UpTo (at_most (length (keys_left self.now)))) }
        ensures exact { result.0 ≡ length (keys_left self.now) }
        ensures exact_upper { result.1 ≡ Some (length (keys_left self.now)) }
    {
        let left = self.len();
        (left, Some(left))
    }
}

impl<'a, K: Portable, V: Portable, M: ArchivedMap<Key = K, Mapped = V>> ExactSizeIterator
    for Keys<'a, M> {
    fn len(&self) -> usize {
        self.entries.len()
    }
}

impl<'a, K: Portable, V: Portable, M: ArchivedMap<Key = K, Mapped = V>> FusedIterator
    for Keys<'a, M> {}

/// The values of a map, in the order of their keys.
#[derive(Drop)]
pub struct Values<'a, M: ArchivedMap> {
    entries: Iter<'a, M>,
}

impl<'a, K: Portable, V: Portable, M: ArchivedMap<Key = K, Mapped = V>> Iterator for Values<'a, M> {
    ghost use Rattle.std.specs.Iterator.{YieldsFirstBy, item_count, at_most, UpTo};
    ghost use Rattle.std.specs.Iterator.SizeHint.{IsWithinCount};
    ghost use Rattle.std.specs.Prelude.{IfSome, Some};
    ghost use Rattle.rkyv_btree_view.specs.Keys.{values_left};

    type Item = View<'a, V>;

    ghost next_gives = { YieldsFirstBy view_value values_left };

    ghost remaining = { item_count values_left };

    #[inline(always)]
    fn next(&mut self) -> Option<View<'a, V>> {
        match self.entries.next() {
            None => None,
            Some((_, value)) => Some(value),
        }
    }

    fn size_hint(&self) -> (usize, Option<usize>)
        ensures lower { IsWithinCount result.0 (at_most (length (values_left self.now))) }
        ensures upper { IfSome result.1 (UpTo (at_most (length (values_left self.now)))) }
        ensures exact { result.0 ≡ length (values_left self.now) }
        ensures exact_upper { result.1 ≡ Some (length (values_left self.now)) }
    {
        let left = self.len();
        (left, Some(left))
    }
}

impl<'a, K: Portable, V: Portable, M: ArchivedMap<Key = K, Mapped = V>> ExactSizeIterator
    for Values<'a, M> {
    fn len(&self) -> usize {
        self.entries.len()
    }
}

impl<'a, K: Portable, V: Portable, M: ArchivedMap<Key = K, Mapped = V>> FusedIterator
    for Values<'a, M> {}

impl<'a, K: Portable, V: Portable, M: ArchivedMap<Key = K, Mapped = V>> View<'a, M> {
    /// Returns an iterator over the keys, in order.
    pub fn keys(self) -> Keys<'a, M>
        ensures yields { ShowsAll ⟦<Keys<'a, M> as Iterator>⟧.next_gives view_value result
            (map (λ e. e.0) (entries_of K.kind V.kind M.E self.entry)) }
        ensures ends { IsFinite (⟦<Keys<'a, M> as Iterator>⟧.remaining result) }
        // It is what `len` returns.
        ensures count { size (⟦<Keys<'a, M> as Iterator>⟧.remaining result)
            ≡ length (entries_of K.kind V.kind M.E self.entry) }
    {
        Keys {
            entries: self.walk(),
        }
    }

    /// Returns an iterator over the values, in the order of their keys.
    pub fn values(self) -> Values<'a, M>
        ensures yields { ShowsAll ⟦<Values<'a, M> as Iterator>⟧.next_gives view_value result
            (map (λ e. e.1) (entries_of K.kind V.kind M.E self.entry)) }
        ensures ends { IsFinite (⟦<Values<'a, M> as Iterator>⟧.remaining result) }
        // It is what `len` returns.
        ensures count { size (⟦<Values<'a, M> as Iterator>⟧.remaining result)
            ≡ length (entries_of K.kind V.kind M.E self.entry) }
    {
        Values {
            entries: self.walk(),
        }
    }
}
