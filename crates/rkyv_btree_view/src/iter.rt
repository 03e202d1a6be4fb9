//! Iterators over the entries of a map.
ghost use Rattle.std.specs.Prelude.{◌≡◌, ◌+◌, length, IsTrue};
ghost use Rattle.std.specs.Iterator.{IsFinite};
ghost use Rattle.rkyv_btree_view.specs.Items.{ShowsAll};
ghost use Rattle.rkyv_btree_format.specs.Layout.{layout_of};
ghost use Rattle.rkyv_btree_format.specs.Read.{entry_at};
ghost use Rattle.rkyv_btree_portable.specs.Views.{stands};
ghost use Rattle.rkyv_btree_walk.specs.EntryPlaces.{entry_places, place_of};
ghost use Rattle.rkyv_btree_walk.specs.mirror.Along.{walk_left, IsWalk};
ghost use Rattle.rkyv_btree_walk.specs.mirror.Node.{RunStands};
ghost use Rattle.rkyv_btree_walk.specs.Bounds.{IsEnd};
ghost use Rattle.rkyv_btree_view.specs.View.{view_entry, entries_of};

use crate::map_view::ShowsEntries;
use crate::view::View;
use rkyv_btree_portable::check::Portable;
use rkyv_btree_types::map::ArchivedBTreeMap;
use rkyv_btree_walk::archived_map::ArchivedMap;
use rkyv_btree_walk::entry_place::EntryPlace;
use rkyv_btree_walk::entry_walk::{Walk, last_in_leaf, start, step, step_in_leaf};
use rkyv_btree_walk::node::{key_pos, value_pos};
use rkyv_btree_walk::shows::Shows;
use std::iter::FusedIterator;
use std::marker::PhantomData;

/// Returns the views of the entry at a place, of the map at `pos`.
#[inline(always)]
pub(crate) fn entry<'a, K: Portable, V: Portable, M: ArchivedMap<Key = K, Mapped = V>>(
    buf: &'a [u8],
    pos: u32,
    place: EntryPlace,
) -> (View<'a, K>, View<'a, V>)
    requires map { IsTrue (stands M.kind buf.now pos) }
    requires entry { RunStands K.kind V.kind M.E buf.now place.node place.index (place.index + 1) }
    ensures { view_entry result ≡ entry_at K.kind V.kind M.E buf.now (place_of place) }
{
    M::opened(buf, pos);
    let key = View::<K>::at(buf, key_pos::<K, V, M>(place.node, place.index));
    let value = View::<V>::at(buf, value_pos::<K, V, M>(place.node, place.index));
    (key, value)
}

/// An iterator over the entries of a map, in order.
#[derive(Drop)]
pub struct Iter<'a, M: ArchivedMap> {
    buf: &'a [u8],
    pos: u32,
    walk: Walk,
    of: PhantomData<M>,
    ghost valid: { IsTrue (stands M.kind buf.now pos) },
    ghost walks: { IsWalk (layout_of M.Key.kind M.Mapped.kind M.E) buf.now pos walk },
    ghost ends: { let s = layout_of M.Key.kind M.Mapped.kind M.E in
        ∥ IsEnd (walk_left s buf.now walk)
        (entry_places M.Key.kind M.Mapped.kind M.E buf.now pos) ∥₁ },
}

impl<'a, K: Portable, V: Portable, M: ArchivedMap<Key = K, Mapped = V>> Iterator for Iter<'a, M> {
    ghost use Rattle.std.specs.Iterator.{YieldsFirstBy, item_count, at_most, UpTo};
    ghost use Rattle.std.specs.Iterator.SizeHint.{IsWithinCount};
    ghost use Rattle.std.specs.Prelude.{IfSome, Some};
    ghost use Rattle.rkyv_btree_view.specs.Iter.{entries_left};

    type Item = (View<'a, K>, View<'a, V>);

    ghost next_gives = { YieldsFirstBy view_entry entries_left };

    ghost remaining = { item_count entries_left };

    #[inline(always)]
    fn next(&mut self) -> Option<(View<'a, K>, View<'a, V>)> {
        let buf = self.buf;
        let place = step::<K, V, M>(buf, self.pos, &mut self.walk)?;
        Some(entry::<K, V, M>(buf, self.pos, place))
    }

    fn size_hint(&self) -> (usize, Option<usize>)
        ensures lower { IsWithinCount result.0 (at_most (length (entries_left self.now))) }
        ensures upper { IfSome result.1 (UpTo (at_most (length (entries_left self.now)))) }
        ensures exact { result.0 ≡ length (entries_left self.now) }
        ensures exact_upper { result.1 ≡ Some (length (entries_left self.now)) }
    {
        let left = self.len();
        (left, Some(left))
    }
}

impl<'a, K: Portable, V: Portable, M: ArchivedMap<Key = K, Mapped = V>> ExactSizeIterator
    for Iter<'a, M> {
    fn len(&self) -> usize {
        self.walk.behind as usize + self.walk.end.saturating_sub(self.walk.next) as usize
    }
}

impl<'a, K: Portable, V: Portable, M: ArchivedMap<Key = K, Mapped = V>> FusedIterator
    for Iter<'a, M> {}

impl<'a, K: Portable, V: Portable, M: ArchivedMap<Key = K, Mapped = V>> Iter<'a, M> {
    ghost use Rattle.std.specs.Prelude.{◌-◌, ◌∷◌, IfNone, IfSome};
    ghost use Rattle.rkyv_btree_view.specs.Iter.{at_hand, entries_left};
    ghost use Rattle.rkyv_btree_walk.specs.Bounds.{IsLastOf};

    /// Returns the next entry if it is at hand: if it needs no step to another node. Otherwise it returns `None`, and the same
    /// entries remain.
    #[inline(always)]
    pub fn next_at_hand(&mut self) -> Option<(View<'a, K>, View<'a, V>)>
        ensures takes { IfSome result (λ e.
            entries_left self.old ≡ view_entry e ∷ entries_left self.new) }
        ensures fewer { IfSome result (λ _. at_hand self.old ≡ 1 + at_hand self.new) }
        ensures none { IfNone result (at_hand self.old ≡ 0) }
        ensures kept { IfNone result (entries_left self.new ≡ entries_left self.old) }
    {
        let buf = self.buf;
        let place = step_in_leaf::<K, V, M>(buf, self.pos, &mut self.walk)?;
        Some(entry::<K, V, M>(buf, self.pos, place))
    }

    /// Returns the last of the entries at hand, if there is one: of those that `next_at_hand` returns. The iterator is unchanged.
    #[inline(always)]
    pub fn last_at_hand(&self) -> Option<(View<'a, K>, View<'a, V>)>
        ensures none { IfNone result (at_hand self.now ≡ 0) }
        ensures last { IfSome result (λ e.
            IsLastOf (at_hand self.now) (entries_left self.now) (view_entry e)) }
    {
        let place = last_in_leaf::<K, V, M>(self.buf, self.pos, &self.walk)?;
        Some(entry::<K, V, M>(self.buf, self.pos, place))
    }
}

impl<'a, K: Portable, V: Portable, M: ArchivedMap<Key = K, Mapped = V> + ShowsEntries> View<'a, M> {
    ghost use Rattle.rkyv_btree_view.specs.Iter.{entries_left};

    /// Returns an iterator over the entries, in order. No memory is allocated, by the iterator either.
    ///
    /// # Examples
    ///
    /// ```rust
    /// map.iter()
    ///     .find(|entry| entry.0.as_str().len() > len)
    ///     .map(|entry| entry.1.to_native())
    /// ```
    pub fn iter(self) -> Iter<'a, M>
        ensures yields { ShowsAll ⟦<Iter<'a, M> as Iterator>⟧.next_gives view_entry result
            (entries_of K.kind V.kind M.E self.entry) }
        ensures entries { entries_left result ≡ entries_of K.kind V.kind M.E self.entry }
        ensures ends { IsFinite (⟦<Iter<'a, M> as Iterator>⟧.remaining result) }
    {
        self.walk()
    }
}

impl<'a, K: Portable, V: Portable, M: ArchivedMap<Key = K, Mapped = V>> View<'a, M> {
    ghost use Rattle.rkyv_btree_view.specs.Iter.{entries_left};

    /// The iterator at the first entry: all entries of the map are left of its walk.
    pub(crate) fn walk(self) -> Iter<'a, M>
        ensures { entries_left result ≡ entries_of K.kind V.kind M.E self.entry }
    {
        Iter {
            buf: self.buf,
            pos: self.pos,
            walk: start::<K, V, M>(self.buf, self.pos),
            of: PhantomData,
        }
    }
}

impl<'a, K: Portable, V: Portable, const E: usize> IntoIterator
    for View<'a, ArchivedBTreeMap<K, V, E>> {
    ghost use Rattle.rkyv_btree_view.specs.Iter.{entries_left};

    type Item = (View<'a, K>, View<'a, V>);

    type IntoIter = Iter<'a, ArchivedBTreeMap<K, V, E>>;

    ghost into_iter_gives = { λ map entries.
        entries_left entries ≡ entries_of K.kind V.kind E map };

    /// Returns an iterator over the entries, in the order of their keys.
    fn into_iter(self) -> Iter<'a, ArchivedBTreeMap<K, V, E>> {
        self.iter()
    }
}
