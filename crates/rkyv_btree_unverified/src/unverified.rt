//! Maps that nobody has validated.
ghost use Rattle.std.specs.Option.{option_map};
ghost use Rattle.std.specs.Prelude.{◌≡◌, ◌↔◌, ◌≤◌, ◌<◌, ◌+◌, ◌-◌, ◌*◌, Err, Ok, IfErr, IfOk, IfSome, IsOk, IsTrue, length, ⊤};
ghost use Rattle.rkyv_btree_format.specs.Layout.{are_fitting, layout_of};
ghost use Rattle.rkyv_btree_verify.specs.Map.{map_kind};
ghost use Rattle.rkyv_btree_format.specs.Read.{entry_at, map_tree};
ghost use Rattle.rkyv_btree_portable.specs.declared.refusal.Refusal.{Refusal};
ghost use Rattle.rkyv_btree_portable.specs.declared.refusal.Refusal.TheVariants.{TooLong};
ghost use Rattle.rkyv_btree_verify.specs.Refusals.{RefusesMap, map_len};
ghost use Rattle.rkyv_btree_portable.specs.Refusing.{Misplaced};
ghost use Rattle.rkyv_btree_format.specs.OwnBytes.{own_at};
ghost use Rattle.rkyv_btree_unverified.specs.Given.{ByKey, GivesEntry, GivesEntryWith, GivesValue, GivesWhether};
ghost use Rattle.rkyv_btree_unverified.specs.Lookups.{LookupGivesWithin};
ghost use Rattle.rkyv_btree_unverified.specs.Steps.{entry_places, places};
ghost use Rattle.rkyv_btree_view.specs.Lookup.{ByComparison, ByNative};
ghost use Rattle.rkyv_btree_view.specs.Map.{IsMap};
ghost use Rattle.rkyv_btree_view.specs.View.{entries_of, view_value, view_entry};
ghost use Rattle.rkyv_btree_walk.specs.Search.{comparisons, shown_value};
ghost use Rattle.rkyv_btree_walk.specs.mirror.Node.{RunStands};

use crate::search::search;
use rkyv_btree_portable::bytes::num32;
use rkyv_btree_portable::check::{CheckBytes, Portable, check_own_bytes};
use rkyv_btree_portable::refusal::Refusal;
use rkyv_btree_portable::steps::StepCounter;
use rkyv_btree_types::map::ArchivedBTreeMap;
use rkyv_btree_view::compare::ViewOrd;
use rkyv_btree_view::compare_native::CompareWith;
use rkyv_btree_view::map_view::{ShowsEntries, access};
use rkyv_btree_view::view::View;
use rkyv_btree_walk::archived_map::ArchivedMap;
use rkyv_btree_walk::node::{key_pos, value_pos};
use rkyv_btree_walk::search::Compared;
use rkyv_btree_walk::shows::Shows;
use std::alloc::AllocError;
use std::cmp::Ordering;
use std::marker::PhantomData;

/// A type of maps whose lookups show entries. Those of a set show its keys alone, by calls of the same names.
pub trait UnverifiedEntries: ShowsEntries {}

impl<K, V, const E: usize> UnverifiedEntries for ArchivedBTreeMap<K, V, E> {}

/// A position in untrusted bytes, at which lookups look for a map or a set of type `M`. Each lookup validates what it reads:
/// the map's own bytes, one node a level, the keys that it compares, and the value that it finds.
///
/// `Ok(None)` doesn't mean that the key is absent, since the bytes may be no map. What is found is equal and valid, but it may
/// share bytes with other entries. `verify` validates all of it.
pub struct Unverified<'a, M: ArchivedMap> {
    pub buf: &'a [u8],
    pub pos: u32,
    pub of: PhantomData<M>,
    // So a lookup asks nothing of its caller.
    pub ghost fitting: { IsTrue (are_fitting M.Key.kind M.Mapped.kind M.E) },
}

impl<'a, M: ArchivedMap> Copy for Unverified<'a, M> {}

impl<'a, M: ArchivedMap> Clone for Unverified<'a, M> {
    ghost is_clone = { λ s r. r ≡ s };

    ghost is_infallible = { λ _. ⊤ };

    fn clone(&self) -> Result<Unverified<'a, M>, AllocError> {
        Ok(*self)
    }
}

impl<'a, K: CheckBytes, V: CheckBytes, M: ArchivedMap<Key = K, Mapped = V>> Unverified<'a, M> {
    /// Returns the position `pos` of `buf`. Nothing is looked at.
    pub fn new(buf: &'a [u8], pos: u32) -> Unverified<'a, M>
        requires { IsTrue (are_fitting K.kind V.kind M.E) }
        ensures buffer { result.buf.now ≡ buf.now }
        ensures position { result.pos ≡ pos }
    {
        Unverified {
            buf,
            pos,
            of: PhantomData,
        }
    }

    /// Returns the position of the own bytes of a whole archive, which are the last eight. Nothing is looked at.
    ///
    /// # Errors
    ///
    /// `Refusal::TooLong` if positions of 32 bits don't reach all bytes.
    ///
    /// # Examples
    ///
    /// ```rust
    /// let map = Unverified::<Prices>::open(bytes)?;
    /// Ok(map.get_by(name)?.map(|price| price.to_native()))
    /// ```
    pub fn open(bytes: &'a [u8]) -> Result<Unverified<'a, M>, Refusal>
        requires { IsTrue (are_fitting K.kind V.kind M.E) }
        ensures buffer { IfOk result (λ map. map.buf.now ≡ bytes.now) }
        ensures position { IfOk result (λ map.
            map.pos ≡ own_at (map_kind K.kind V.kind M.E) bytes.now) }
        ensures short { length bytes.now ≤ 4294967295 → IsOk result }
        ensures refused { IfErr result (λ refusal.
            (refusal ≡ TooLong) × (4294967295 < length bytes.now)) }
    {
        let Ok(len) = u32::try_from(bytes.len()) else {
            return Err(Refusal::TooLong);
        };
        Ok(Unverified::new(bytes, len.saturating_sub(8)))
    }

    /// Returns the number of entries, as the map's own bytes say it. It has 32 bits.
    ///
    /// # Errors
    ///
    /// A fault of the own bytes: they don't lie in the buffer, or aren't aligned.
    pub fn len(self) -> Result<usize, Refusal>
        ensures read { IfOk result (λ len.
            len ≡ map_len K.kind V.kind M.E self.entry.buf.now self.entry.pos) }
        ensures accepts { (m : _) → IsMap K.kind V.kind M.E self.entry.buf.now self.entry.pos m →
            IsOk result }
        ensures counts { (m : _) → IsMap K.kind V.kind M.E self.entry.buf.now self.entry.pos m →
            IfOk result (λ len. len ≡ length m) }
        ensures small { IfOk result (λ len. len ≤ 4294967295) }
        ensures refused { IfErr result (Misplaced self.entry.buf.now 8 4 self.entry.pos) }
        ensures all_refused { (refusal : Refusal) →
            Misplaced self.entry.buf.now 8 4 self.entry.pos refusal → result ≡ Err refusal }
    {
        match check_own_bytes(self.buf, self.pos, 8, 4) {
            Ok(_) => Ok(num32(self.buf, self.pos + 4) as usize),
            Err(refusal) => Err(refusal),
        }
    }

    /// Returns the views of the entry at which a search ended, by its node and number.
    #[inline(always)]
    pub(crate) fn entry_found(self, found: Option<(u32, u32)>) -> Option<(View<'a, K>, View<'a, V>)>
        requires short { length self.buf.now ≤ 4294967295 }
        requires stands { IfSome found (λ e.
            RunStands K.kind V.kind M.E self.buf.now e.0 e.1 (e.1 + 1)) }
        ensures value { option_map view_entry result
            ≡ option_map (entry_at K.kind V.kind M.E self.entry.buf.now) found }
        ensures buffer { IfSome result (λ e.
            (e.0.buf.now ≡ self.entry.buf.now) × (e.1.buf.now ≡ self.entry.buf.now)) }
        ensures places { option_map places result
            ≡ option_map (entry_places K.kind V.kind M.E) found }
    {
        match found {
            None => None,
            Some((node, index)) => {
                let key = View::<K>::at(self.buf, key_pos::<K, V, M>(node, index as usize));
                let value = View::<V>::at(self.buf, value_pos::<K, V, M>(node, index as usize));
                Some((key, value))
            }
        }
    }

    /// Returns the entry whose key is equal to the query, by a comparison that is a function of both: the query comes first,
    /// and `Greater` means that it is past the key.
    ///
    /// # Errors
    ///
    /// The first fault in what the search reads. No memory is allocated.
    pub fn get_key_value_with<Q, W: Shows<'a, K>, C: Fn(&Q, W) -> Ordering>(
        self,
        key: &Q,
        cmp: C,
    ) -> Result<Option<(View<'a, K>, View<'a, V>)>, Refusal>
        requires { C.IsAlwaysCallable cmp }
        ensures { GivesEntryWith M.E K.Refuses V.Refuses self.entry.buf.now
            self.entry.pos (ByComparison (C.post cmp) (shown_value K.kind W.Shows) key.now) result }
    {
        let (mut steps, mut nodes) = (StepCounter::new(), StepCounter::new());
        self.get_key_value_counted::<Q, W, C>(key, cmp, &mut steps, &mut nodes)
    }

    /// Returns what `get_key_value_with` returns. It adds one to `steps` for each key that it reads, and one to `nodes` for each
    /// node.
    ///
    /// # Errors
    ///
    /// The first fault in what the search reads. No memory is allocated.
    pub fn get_key_value_counted<Q, W: Shows<'a, K>, C: Fn(&Q, W) -> Ordering>(
        self,
        key: &Q,
        cmp: C,
        steps: &mut StepCounter,
        nodes: &mut StepCounter,
    ) -> Result<Option<(View<'a, K>, View<'a, V>)>, Refusal>
        requires callable { C.IsAlwaysCallable cmp }
        requires room { steps.old ≤ 9223372036854775807 }
        requires room_for_nodes { nodes.old ≤ 9223372036854775807 }
        // On all bytes these are no more than 32 nodes, and no more keys than a node has entries, times 32.
        ensures nodes { nodes.new ≤ nodes.old + 32 }
        // The way to what is found, or to its end, has no more levels than nodes are counted.
        ensures levels { ByComparison (C.post cmp) (shown_value K.kind W.Shows) key.now (λ comparison.
            IfOk result (λ found. (entry : _) × LookupGivesWithin K.kind V.kind M.E
            self.entry.buf.now comparison K.Refuses V.Refuses (nodes.new - nodes.old) self.entry.pos
            (Ok entry) × (option_map places found
            ≡ option_map (entry_places K.kind V.kind M.E) entry))) }
        ensures few { steps.new ≤ steps.old + M.E * 32 }
        ensures more { steps.old ≤ steps.new }
        // Where the own bytes say that there is no entry, no key and no node is read.
        ensures none { map_len K.kind V.kind M.E self.entry.buf.now self.entry.pos ≡ 0 →
            (steps.new ≡ steps.old) × (nodes.new ≡ nodes.old) }
        // On a map they are those of a lookup in a view of it.
        ensures counts { (m : _) →
            IsMap K.kind V.kind M.E self.entry.buf.now self.entry.pos m →
            ByComparison (C.post cmp) (shown_value K.kind W.Shows) key.now (λ comparison.
            IfOk result (λ _. steps.new ≡ steps.old + comparisons (λ e. comparison e.0)
            (entry_at K.kind V.kind M.E self.entry.buf.now)
            (map_tree (layout_of K.kind V.kind M.E) self.entry.buf.now self.entry.pos))) }
        ensures gives { GivesEntryWith M.E K.Refuses V.Refuses self.entry.buf.now
            self.entry.pos (ByComparison (C.post cmp) (shown_value K.kind W.Shows) key.now) result }
    {
        let compare = |query: &Q, key: W| Compared::of(cmp(query, key));
        match search::<Q, K, V, M, W, _>(self.buf, self.pos, key, &compare, steps, nodes, false) {
            Err(refusal) => Err(refusal),
            Ok(found) => Ok(self.entry_found(found)),
        }
    }
}

impl<
    'a,
    K: CheckBytes,
    V: CheckBytes,
    M: ArchivedMap<Key = K, Mapped = V> + UnverifiedEntries,
> Unverified<'a, M> {
    /// Returns the entry whose key is equal to a native value: a number, a `&str`, a pair of such, or what else keys compare
    /// with.
    ///
    /// # Errors
    ///
    /// The first fault in what the search reads. No memory is allocated.
    pub fn get_key_value_by<T: Drop>(
        self,
        key: T,
    ) -> Result<Option<(View<'a, K>, View<'a, V>)>, Refusal>
    where
        K: CompareWith<T>,
        ensures { GivesEntry M.E K.Refuses V.Refuses self.entry.buf.now
            self.entry.pos (ByNative K.kind K.compared_at key) result }
    {
        let all = K::is_plain();
        let compare = |query: &T, key: View<K>| K::compared(query, &key);
        let (mut steps, mut nodes) = (StepCounter::new(), StepCounter::new());
        match search::<_, K, V, M, _, _>(
            self.buf, self.pos, &key, &compare, &mut steps, &mut nodes, all,
        ) {
            Err(refusal) => Err(refusal),
            Ok(found) => Ok(self.entry_found(found)),
        }
    }

    /// Returns the value of an entry whose key is equal to a native value.
    ///
    /// # Errors
    ///
    /// The first fault in what the search reads. No memory is allocated.
    pub fn get_by<T: Drop>(self, key: T) -> Result<Option<View<'a, V>>, Refusal>
    where
        K: CompareWith<T>,
        ensures { GivesValue K.kind M.E K.Refuses V.Refuses self.entry.buf.now
            self.entry.pos (ByNative K.kind K.compared_at key) result }
    {
        match self.get_key_value_by(key) {
            Err(refusal) => Err(refusal),
            Ok(None) => Ok(None),
            Ok(Some((_, value))) => Ok(Some(value)),
        }
    }

    /// Returns whether `get_by` finds a value.
    ///
    /// # Errors
    ///
    /// The first fault in what the search reads. No memory is allocated.
    pub fn contains_by<T: Drop>(self, key: T) -> Result<bool, Refusal>
    where
        K: CompareWith<T>,
        ensures { GivesWhether K.kind V.kind M.E K.Refuses V.Refuses self.entry.buf.now
            self.entry.pos (ByNative K.kind K.compared_at key) result }
    {
        match self.get_by(key) {
            Err(refusal) => Err(refusal),
            Ok(found) => Ok(found.is_some()),
        }
    }
}

impl<
    'a,
    K: CheckBytes + ViewOrd,
    V: CheckBytes,
    M: ArchivedMap<Key = K, Mapped = V> + UnverifiedEntries,
> Unverified<'a, M> {
    /// Returns the entry whose key is equal to `key`.
    ///
    /// # Errors
    ///
    /// The first fault in what the search reads. No memory is allocated.
    pub fn get_key_value(
        self,
        key: View<'_, K>,
    ) -> Result<Option<(View<'a, K>, View<'a, V>)>, Refusal>
        ensures { GivesEntry M.E K.Refuses V.Refuses self.entry.buf.now
            self.entry.pos (ByKey K.kind (view_value key.entry)) result }
    {
        let compare = |query: &View<'_, K>, key: View<K>| Compared::of(K::compare(query, &key));
        let (mut steps, mut nodes) = (StepCounter::new(), StepCounter::new());
        match search::<_, K, V, M, _, _>(
            self.buf, self.pos, &key, &compare, &mut steps, &mut nodes, false,
        ) {
            Err(refusal) => Err(refusal),
            Ok(found) => Ok(self.entry_found(found)),
        }
    }

    /// Returns the value of an entry whose key is equal to `key`.
    ///
    /// # Errors
    ///
    /// The first fault in what the search reads. No memory is allocated.
    pub fn get(self, key: View<'_, K>) -> Result<Option<View<'a, V>>, Refusal>
        ensures { GivesValue K.kind M.E K.Refuses V.Refuses self.entry.buf.now
            self.entry.pos (ByKey K.kind (view_value key.entry)) result }
    {
        match self.get_key_value(key) {
            Err(refusal) => Err(refusal),
            Ok(None) => Ok(None),
            Ok(Some((_, value))) => Ok(Some(value)),
        }
    }

    /// Returns whether `get` finds a value.
    ///
    /// # Errors
    ///
    /// The first fault in what the search reads. No memory is allocated.
    pub fn contains_key(self, key: View<'_, K>) -> Result<bool, Refusal>
        ensures { GivesWhether K.kind V.kind M.E K.Refuses V.Refuses self.entry.buf.now
            self.entry.pos (ByKey K.kind (view_value key.entry)) result }
    {
        match self.get(key) {
            Err(refusal) => Err(refusal),
            Ok(found) => Ok(found.is_some()),
        }
    }
}

impl<'a, K: CheckBytes, V: CheckBytes, const E: usize> Unverified<'a, ArchivedBTreeMap<K, V, E>> {
    /// Returns the view of the map, after validation of all of it.
    ///
    /// # Errors
    ///
    /// As of `access`. No memory is allocated.
    pub fn verify(self) -> Result<View<'a, ArchivedBTreeMap<K, V, E>>, Refusal>
        ensures buffer { IfOk result (λ map. map.buf.now ≡ self.entry.buf.now) }
        ensures position { IfOk result (λ map. map.pos ≡ self.entry.pos) }
        ensures accepts { IsOk result
            ↔ ((m : _) × IsMap K.kind V.kind E self.entry.buf.now self.entry.pos m) }
        ensures entries { IfOk result (λ map. IsMap K.kind V.kind E self.entry.buf.now
            self.entry.pos (entries_of K.kind V.kind E map)) }
        ensures refuses { (refusal : Refusal) → (result ≡ Err refusal)
            ↔ RefusesMap K.kind V.kind E self.entry.buf.now 0 self.entry.pos self.entry.pos
            refusal }
    {
        access::<K, V, E>(self.buf, self.pos)
    }
}
