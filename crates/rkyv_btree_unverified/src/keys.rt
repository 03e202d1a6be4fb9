//! Iterators over the keys of sets that nobody has validated.
ghost use Rattle.std.specs.Prelude.{◌≡◌, ◌/◌};
ghost use Rattle.rkyv_btree_portable.specs.Scalars.{unit_kind};
ghost use Rattle.rkyv_btree_view.specs.View.{view_value};
ghost use Rattle.std.specs.Map.{keys_of};

use crate::iter::UnverifiedIter;
use crate::unverified::Unverified;
use rkyv_btree_portable::check::CheckBytes;
use rkyv_btree_portable::refusal::Refusal;
use rkyv_btree_types::map::ArchivedBTreeMap;
use rkyv_btree_types::set::ArchivedBTreeSet;
use rkyv_btree_view::view::View;
use rkyv_btree_walk::archived_map::ArchivedMap;
use std::iter::FusedIterator;

/// An iterator over the keys of a set that nobody has validated, in order. Each item is a key that is valid, or an error, which is the
/// last item.
#[derive(Drop)]
pub struct UnverifiedKeys<'a, M: ArchivedMap> {
    entries: UnverifiedIter<'a, M>,
}

impl<'a, K: CheckBytes, V: CheckBytes, M: ArchivedMap<Key = K, Mapped = V>> Iterator
    for UnverifiedKeys<'a, M> {
    ghost use Rattle.std.specs.Iterator.{at_most, UpTo};
    ghost use Rattle.std.specs.Iterator.SizeHint.{IsWithinCount};
    ghost use Rattle.std.specs.Prelude.{IfSome, None};
    ghost use Rattle.rkyv_btree_unverified.specs.UnverifiedKeys.{key_turns_left, StepsKeys};

    type Item = Result<View<'a, K>, Refusal>;

    ghost next_gives = { StepsKeys K.Refuses V.Refuses };

    ghost remaining = { λ s. at_most (key_turns_left s) };

    fn next(&mut self) -> Option<Result<View<'a, K>, Refusal>> {
        match self.entries.next() {
            None => None,
            Some(Err(refusal)) => Some(Err(refusal)),
            Some(Ok((key, _))) => Some(Ok(key)),
        }
    }

    /// Returns `(0, None)`, because nothing is known of the keys that are left.
    fn size_hint(&self) -> (usize, Option<usize>)
        ensures lower { IsWithinCount result.0 (at_most (key_turns_left self.now)) }
        ensures upper { IfSome result.1 (UpTo (at_most (key_turns_left self.now))) }
        ensures zero { result.0 ≡ 0 }
        ensures unknown { result.1 ≡ None }
    {
        (0, None)
    }
}

impl<'a, K: CheckBytes, V: CheckBytes, M: ArchivedMap<Key = K, Mapped = V>> FusedIterator
    for UnverifiedKeys<'a, M> {}

impl<'a, K: CheckBytes, const E: usize> Unverified<'a, ArchivedBTreeSet<K, E>> {
    ghost use Rattle.rkyv_btree_unverified.specs.Iterating.{IsAtMap, IteratesAll};
    ghost use Rattle.rkyv_btree_unverified.specs.UnverifiedKeys.{key_buffer_of, key_position_of, most_keys_left, unverified_keys_left};

    /// Returns an iterator over the keys, in order. It validates each node and each key when it comes to it. No memory is allocated, by
    /// the iterator either.
    ///
    /// Each item is a key or an error, and an error is the last item. On all bytes the keys are those to which the pointers lead, and `None`
    /// comes after all of them. Keys before an error are valid, but the bytes may be no set. If no item is an error, nothing to which the
    /// pointers lead is at fault.
    pub fn iter(self) -> UnverifiedKeys<'a, ArchivedBTreeMap<K, (), E>>
        ensures at { IsAtMap K.kind unit_kind E self.entry.buf.now self.entry.pos
            (key_buffer_of result) (key_position_of result) (most_keys_left result) }
        ensures items { IteratesAll K.kind unit_kind E K.Refuses ⟦<() as CheckBytes>⟧.Refuses
            self.entry.buf.now self.entry.pos
            ⟦<UnverifiedKeys<'a, ArchivedBTreeMap<K, (), E>> as Iterator>⟧ view_value keys_of result
            (unverified_keys_left result) }
    {
        UnverifiedKeys {
            entries: self.as_map().iter(),
        }
    }
}
