//! Sets that nobody has validated.
ghost use Rattle.std.specs.Prelude.{◌≡◌, ◌↔◌, Err, Ok, IfOk, IsOk};
ghost use Rattle.rkyv_btree_portable.specs.declared.refusal.Refusal.{Refusal};
ghost use Rattle.rkyv_btree_verify.specs.Refusals.{RefusesMap};
ghost use Rattle.rkyv_btree_portable.specs.Scalars.{unit_kind};
ghost use Rattle.rkyv_btree_unverified.specs.Given.{ByKey, GivesKey, GivesWhetherKey};
ghost use Rattle.rkyv_btree_view.specs.Lookup.{ByNative};
ghost use Rattle.rkyv_btree_view.specs.Map.{IsMap};
ghost use Rattle.rkyv_btree_view.specs.View.{entries_of, view_value};

use crate::unverified::Unverified;
use rkyv_btree_portable::check::CheckBytes;
use rkyv_btree_portable::refusal::Refusal;
use rkyv_btree_types::map::ArchivedBTreeMap;
use rkyv_btree_types::set::ArchivedBTreeSet;
use rkyv_btree_view::compare::ViewOrd;
use rkyv_btree_view::compare_native::CompareWith;
use rkyv_btree_view::set_view::access;
use rkyv_btree_view::view::View;
use std::marker::PhantomData;

impl<'a, K: CheckBytes, const E: usize> Unverified<'a, ArchivedBTreeSet<K, E>> {
    /// Returns the set as the map that it is, with a `()` beside each key. Nothing is looked at.
    pub fn as_map(self) -> Unverified<'a, ArchivedBTreeMap<K, (), E>>
        ensures buffer { result.buf.now ≡ self.entry.buf.now }
        ensures position { result.pos ≡ self.entry.pos }
    {
        Unverified {
            buf: self.buf,
            pos: self.pos,
            of: PhantomData,
        }
    }

    /// Returns the view of the set, after validation of all of it.
    ///
    /// # Errors
    ///
    /// As of `access`. No memory is allocated.
    pub fn verify(self) -> Result<View<'a, ArchivedBTreeSet<K, E>>, Refusal>
        ensures buffer { IfOk result (λ set. set.buf.now ≡ self.entry.buf.now) }
        ensures position { IfOk result (λ set. set.pos ≡ self.entry.pos) }
        ensures accepts { IsOk result
            ↔ ((m : _) × IsMap K.kind unit_kind E self.entry.buf.now self.entry.pos m) }
        ensures entries { IfOk result (λ set. IsMap K.kind unit_kind E self.entry.buf.now
            self.entry.pos (entries_of K.kind unit_kind E set)) }
        ensures refuses { (refusal : Refusal) → (result ≡ Err refusal)
            ↔ RefusesMap K.kind unit_kind E self.entry.buf.now 0 self.entry.pos self.entry.pos
            refusal }
    {
        access::<K, E>(self.buf, self.pos)
    }

    /// Returns the set's own key that is equal to a native value.
    ///
    /// # Errors
    ///
    /// The first fault in what the search reads. No memory is allocated.
    pub fn get_by<T: Drop>(self, key: T) -> Result<Option<View<'a, K>>, Refusal>
    where
        K: CompareWith<T>,
        ensures { GivesKey unit_kind E K.Refuses ⟦<() as CheckBytes>⟧.Refuses
            self.entry.buf.now self.entry.pos (ByNative K.kind K.compared_at key) result }
    {
        match self.as_map().get_key_value_by(key) {
            Err(refusal) => Err(refusal),
            Ok(None) => Ok(None),
            Ok(Some((key, _))) => Ok(Some(key)),
        }
    }

    /// Returns whether `get_by` finds a key.
    ///
    /// # Errors
    ///
    /// The first fault in what the search reads. No memory is allocated.
    pub fn contains_by<T: Drop>(self, key: T) -> Result<bool, Refusal>
    where
        K: CompareWith<T>,
        ensures { GivesWhetherKey K.kind unit_kind E K.Refuses ⟦<() as CheckBytes>⟧.Refuses
            self.entry.buf.now self.entry.pos (ByNative K.kind K.compared_at key) result }
    {
        match self.get_by(key) {
            Err(refusal) => Err(refusal),
            Ok(found) => Ok(found.is_some()),
        }
    }
}

impl<'a, K: CheckBytes + ViewOrd, const E: usize> Unverified<'a, ArchivedBTreeSet<K, E>> {
    /// Returns the set's own key that is equal to `key`.
    ///
    /// # Errors
    ///
    /// The first fault in what the search reads. No memory is allocated.
    pub fn get(self, key: View<'_, K>) -> Result<Option<View<'a, K>>, Refusal>
        ensures { GivesKey unit_kind E K.Refuses ⟦<() as CheckBytes>⟧.Refuses
            self.entry.buf.now self.entry.pos (ByKey K.kind (view_value key.entry)) result }
    {
        match self.as_map().get_key_value(key) {
            Err(refusal) => Err(refusal),
            Ok(None) => Ok(None),
            Ok(Some((key, _))) => Ok(Some(key)),
        }
    }

    /// Returns whether `get` finds a key.
    ///
    /// # Errors
    ///
    /// The first fault in what the search reads. No memory is allocated.
    pub fn contains_key(self, key: View<'_, K>) -> Result<bool, Refusal>
        ensures { GivesWhetherKey K.kind unit_kind E K.Refuses ⟦<() as CheckBytes>⟧.Refuses
            self.entry.buf.now self.entry.pos (ByKey K.kind (view_value key.entry)) result }
    {
        match self.get(key) {
            Err(refusal) => Err(refusal),
            Ok(found) => Ok(found.is_some()),
        }
    }
}
