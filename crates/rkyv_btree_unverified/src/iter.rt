//! Iterators over the entries of maps that nobody has validated.
ghost use Rattle.std.specs.Prelude.{◌≡◌, ◌/◌, ℕ, Ok, IsTrue, map};
ghost use Rattle.rkyv_btree_format.specs.Layout.{are_fitting, leaf_size};
ghost use Rattle.rkyv_btree_unverified.specs.Walks.{IsFaultless};
ghost use Rattle.rkyv_btree_unverified.specs.mirror.Walked.{IsCounted, HasLeft, IsTaken, places_of};
ghost use Rattle.rkyv_btree_unverified.specs.mirror.Faultless.{FaultlessLeft};
ghost use Rattle.rkyv_btree_unverified.specs.laws.Walked.{counted-prop, left-prop, faultless-prop};
ghost use Rattle.rkyv_btree_unverified.specs.Steps.{places, entry_places};
ghost use Rattle.rkyv_btree_view.specs.View.{view_entry};
ghost use Rattle.rkyv_btree_format.specs.Read.{entry_at};

use crate::node::leaf_size;
use crate::unverified::{Unverified, UnverifiedEntries};
use crate::walk::{Phase, UnverifiedWalk, step};
use arrayvec::ArrayVec;
use rkyv_btree_portable::check::{CheckBytes, Portable};
use rkyv_btree_portable::refusal::Refusal;
use rkyv_btree_view::view::View;
use rkyv_btree_walk::archived_map::ArchivedMap;
use rkyv_btree_walk::node::{key_pos, value_pos};
use rkyv_btree_walk::shows::Shows;
use std::iter::FusedIterator;
use std::marker::PhantomData;

/// An iterator over the entries of a map that nobody has validated, in order. Each item is an entry that is valid, or an error, which is
/// the last item.
#[derive(Drop)]
pub struct UnverifiedIter<'a, M: ArchivedMap> {
    buf: &'a [u8],
    pos: u32,
    walk: UnverifiedWalk,
    of: PhantomData<M>,
    ghost fitting: { IsTrue (are_fitting M.Key.kind M.Mapped.kind M.E) },
    ghost walks: { IsCounted M.Key.kind M.Mapped.kind M.E buf.now pos walk } by { counted-prop M.Key.kind M.Mapped.kind M.E buf.now pos walk },
    ghost left: { HasLeft M.Key.kind M.Mapped.kind M.E buf.now pos walk (places_of M.Key.kind M.Mapped.kind M.E buf.now pos) } by { left-prop M.Key.kind M.Mapped.kind M.E buf.now pos walk (places_of M.Key.kind M.Mapped.kind M.E buf.now pos) },
    ghost faultless: { FaultlessLeft M.Key.kind M.Mapped.kind M.E buf.now pos walk → IsFaultless M.Key.kind M.Mapped.kind M.E buf.now pos } by { faultless-prop M.Key.kind M.Mapped.kind M.E buf.now pos walk },
}

/// Returns the views of the entry at a place.
#[inline(always)]
pub(crate) fn entry<'a, K: Portable, V: Portable, M: ArchivedMap<Key = K, Mapped = V>>(
    buf: &'a [u8],
    node: u32,
    index: u32,
) -> (View<'a, K>, View<'a, V>)
    requires fitting { IsTrue (are_fitting K.kind V.kind M.E) }
    requires taken { (pos : ℕ) × IsTaken K.kind V.kind M.E buf.now pos (node, index) }
    ensures value { view_entry result ≡ entry_at K.kind V.kind M.E buf.now (node, index) }
    ensures buffer { (result.0.buf.now ≡ buf.now) × (result.1.buf.now ≡ buf.now) }
    ensures places { places result ≡ entry_places K.kind V.kind M.E (node, index) }
{
    let key = View::<K>::at(buf, key_pos::<K, V, M>(node, index as usize));
    let value = View::<V>::at(buf, value_pos::<K, V, M>(node, index as usize));
    (key, value)
}

impl<'a, K: CheckBytes, V: CheckBytes, M: ArchivedMap<Key = K, Mapped = V>> Iterator
    for UnverifiedIter<'a, M> {
    ghost use Rattle.std.specs.Iterator.{at_most, UpTo};
    ghost use Rattle.std.specs.Iterator.SizeHint.{IsWithinCount};
    ghost use Rattle.std.specs.Prelude.{IfSome, None};
    ghost use Rattle.rkyv_btree_unverified.specs.UnverifiedIter.{turns_left, StepsUnverified};

    type Item = Result<(View<'a, K>, View<'a, V>), Refusal>;

    ghost next_gives = { StepsUnverified K.Refuses V.Refuses };

    ghost remaining = { λ s. at_most (turns_left s) };

    fn next(&mut self) -> Option<Result<(View<'a, K>, View<'a, V>), Refusal>> {
        let buf = self.buf;
        match step::<K, V, M>(buf, self.pos, &mut self.walk) {
            Err(refusal) => Some(Err(refusal)),
            Ok(None) => None,
            Ok(Some((node, index))) => Some(Ok(entry::<K, V, M>(buf, node, index))),
        }
    }

    /// Returns `(0, None)`, because nothing is known of the entries that are left.
    fn size_hint(&self) -> (usize, Option<usize>)
        ensures lower { IsWithinCount result.0 (at_most (turns_left self.now)) }
        ensures upper { IfSome result.1 (UpTo (at_most (turns_left self.now))) }
        ensures zero { result.0 ≡ 0 }
        ensures unknown { result.1 ≡ None }
    {
        (0, None)
    }
}

impl<'a, K: CheckBytes, V: CheckBytes, M: ArchivedMap<Key = K, Mapped = V>> FusedIterator
    for UnverifiedIter<'a, M> {}

impl<
    'a,
    K: CheckBytes,
    V: CheckBytes,
    M: ArchivedMap<Key = K, Mapped = V> + UnverifiedEntries,
> Unverified<'a, M> {
    ghost use Rattle.rkyv_btree_unverified.specs.Iterating.{IsAtMap, IteratesAll};
    ghost use Rattle.rkyv_btree_unverified.specs.UnverifiedIter.{buffer_of, position_of, entries_left, most_left};

    /// Returns an iterator over the entries, in order. It validates each node, key and value when it comes to it. No memory is
    /// allocated, by the iterator either.
    ///
    /// Each item is an entry or an error, and an error is the last item. On all bytes the entries are those to which the pointers lead, and
    /// `None` comes after all of them. Entries before an error are valid, but the bytes may be no map. If no item is an error, nothing to
    /// which the pointers lead is at fault.
    ///
    /// # Examples
    ///
    /// ```rust
    /// for entry in map.iter() {
    ///     let (_, price) = entry?;
    ///     sum = sum.wrapping_add(price.to_native());
    /// }
    /// ```
    pub fn iter(self) -> UnverifiedIter<'a, M>
        ensures at { IsAtMap K.kind V.kind M.E self.entry.buf.now self.entry.pos (buffer_of result)
            (position_of result) (most_left result) }
        ensures items { IteratesAll K.kind V.kind M.E K.Refuses V.Refuses self.entry.buf.now
            self.entry.pos ⟦<UnverifiedIter<'a, M> as Iterator>⟧ view_entry (λ m. m) result
            (entries_left result) }
    {
        UnverifiedIter {
            buf: self.buf,
            pos: self.pos,
            walk: UnverifiedWalk {
                path: ArrayVec::new(),
                node: 0,
                next: 0,
                end: 0,
                nodes: self.buf.len() / leaf_size::<K, V, M>() as usize,
                taken: 0,
                phase: Phase::Descend,
            },
            of: PhantomData,
        }
    }
}
