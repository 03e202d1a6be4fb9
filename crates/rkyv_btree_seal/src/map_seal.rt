//! Maps in a buffer whose values are written in place.
ghost use Rattle.std.specs.Prelude.{◌≡◌, ◌↔◌, ℕ, List, false, is_some, IsTrue, IsOk, IsSome, IfOk, IfSome, Err};
ghost use Rattle.std.specs.BTreeMap.{is_at};
ghost use Rattle.std.specs.Map.{lookup};
ghost use Rattle.std.specs.Option.{option_map};
ghost use Rattle.rkyv_btree_format.specs.Increasing.{Increasing};
ghost use Rattle.rkyv_btree_portable.specs.InPlace.{IsOwn, value_of};
ghost use Rattle.rkyv_btree_format.specs.Layout.{are_fitting};
ghost use Rattle.rkyv_btree_format.specs.Read.{read_map};
ghost use Rattle.rkyv_btree_portable.specs.declared.refusal.Refusal.{Refusal};
ghost use Rattle.rkyv_btree_verify.specs.Refusals.{RefusesMap};
ghost use Rattle.rkyv_btree_portable.specs.Views.{stands};
ghost use Rattle.rkyv_btree_seal.specs.Alone.{StandsAlone};
ghost use Rattle.rkyv_btree_seal.specs.Calls.{MayCallEach, CallsEntry, CallsFound};
ghost use Rattle.rkyv_btree_seal.specs.Places.{IsEntry, ShowsEntry, FindsPlace, PutsEntry, IsSet};
ghost use Rattle.rkyv_btree_walk.specs.EntryPlaces.{place_of};
ghost use Rattle.rkyv_btree_seal.specs.Put.{put_bytes, value_place};
ghost use Rattle.rkyv_btree_view.specs.Lookup.{ByComparison, ByNative, found_at};
ghost use Rattle.rkyv_btree_view.specs.Map.{IsMap};
ghost use Rattle.rkyv_btree_view.specs.View.{view_value};
ghost use Rattle.rkyv_btree_walk.specs.Search.{shown_value};

use crate::closures::call_entry;
use crate::lent_key::LentKey;
use crate::seal::Seal;
use crate::value_place::{positions, put_at};
use rkyv_btree_portable::check::{CheckBytes, Portable};
use rkyv_btree_portable::in_place::InPlace;
use rkyv_btree_portable::refusal::Refusal;
use rkyv_btree_types::map::ArchivedBTreeMap;
use rkyv_btree_view::compare::ViewOrd;
use rkyv_btree_view::compare_native::CompareWith;
use rkyv_btree_view::map_view::access;
use rkyv_btree_view::view::View;
use rkyv_btree_walk::archived_map::ArchivedMap;
use rkyv_btree_walk::entry_place::EntryPlace;
use rkyv_btree_walk::search::{Compared, search};
use rkyv_btree_walk::shows::Shows;
use std::cmp::Ordering;
use std::marker::PhantomData;

/// The map of type `M` at position `pos` of `buf`, whose values can be overwritten.
#[derive(Drop)]
pub struct MapSeal<'a, M: Portable> {
    pub buf: &'a mut [u8],
    pub pos: u32,
    pub of: PhantomData<M>,
    // The type's own decision, as of a view.
    pub ghost valid: { IsTrue (stands M.kind buf.now pos) },
}

/// Returns the map at position `pos` for in-place updates, if the bytes mean a list of entries in the window of all bytes before
/// it.
///
/// A contract can't say what the buffer is after writes by a seal in a `Result`. `MapSeal::at` makes one of which it can.
///
/// # Errors
///
/// The first error of `verify`. No memory is allocated, and all bytes are unchanged.
// After an `Err` the bytes are as they were, which no clause says: `RestsIfErr` would, but a slice that a result may keep
// gets no proof of it, and a caller learns nothing from it. `access` and then `MapSeal::at` say as much.
pub fn access_mut<'a, K: CheckBytes, V: CheckBytes, const E: usize>(
    buf: &'a mut [u8],
    pos: u32,
) -> Result<MapSeal<'a, ArchivedBTreeMap<K, V, E>>, Refusal>
    requires { IsTrue (are_fitting K.kind V.kind E) }
    ensures same_reference { IfOk result (λ map. map.buf.ghost_name ≡ buf.entry.ghost_name) }
    ensures buffer { IfOk result (λ map. map.buf.now ≡ buf.entry.now) }
    ensures position { IfOk result (λ map. map.pos ≡ pos) }
    // The result is a seal exactly for bytes that mean a list, and the seal reads that list.
    ensures accepts { IsOk result ↔ ((m : _) × IsMap K.kind V.kind E buf.entry.now pos m) }
    ensures entries { IfOk result (λ map. IsMap K.kind V.kind E buf.entry.now pos
        (read_map K.kind V.kind E map.buf.now map.pos)) }
    // The result is an error exactly for bytes with that error.
    ensures refuses { (refusal : Refusal) →
        (result ≡ Err refusal) ↔ RefusesMap K.kind V.kind E buf.entry.now 0 pos pos refusal }
{
    match access::<K, V, E>(buf, pos) {
        Ok(_) => Ok(MapSeal {
            buf,
            pos,
            of: PhantomData,
        }),
        Err(refusal) => Err(refusal),
    }
}

impl<'a, M: Portable> MapSeal<'a, M> {
    /// Returns the map at position `pos` without validating it. Requires that the bytes mean a map: `access` is the test.
    pub fn at(buf: &'a mut [u8], pos: u32) -> MapSeal<'a, M>
        requires { IsTrue (stands M.kind buf.old pos) }
        ensures same_reference { result.buf.ghost_name ≡ buf.entry.ghost_name }
        ensures buffer { result.buf.now ≡ buf.entry.now }
        ensures position { result.pos ≡ pos }
    {
        MapSeal {
            buf,
            pos,
            of: PhantomData,
        }
    }

    /// Returns the view of the map.
    pub fn as_view(&self) -> View<'_, M>
        ensures buffer { result.buf.now ≡ self.now.buf.now }
        ensures position { result.pos ≡ self.now.pos }
    {
        View {
            buf: self.buf,
            pos: self.pos,
            of: PhantomData,
        }
    }
}

/// The entry at which a search has ended.
fn found_place(found: Option<(u32, u32)>) -> Option<EntryPlace>
    ensures { option_map place_of result ≡ found }
{
    match found {
        None => None,
        Some((node, index)) => Some(EntryPlace {
            node,
            index: index as usize,
        }),
    }
}

impl<'a, K: Portable, V: InPlace, M: ArchivedMap<Key = K, Mapped = V>> MapSeal<'a, M> {
    /// Returns the seal of an entry's value in the map at position `pos`. Requires that the bytes mean a map, and that `place` is
    /// one of its entries: `find` and its kin return such places.
    pub fn seal_at(buf: &'a mut [u8], pos: u32, place: EntryPlace) -> Seal<'a, V>
        requires stands { IsTrue (stands M.kind buf.old pos) }
        requires entry { IsEntry K.kind V.kind M.E buf.old pos (place_of place) }
        ensures same_reference { result.buf.ghost_name ≡ buf.entry.ghost_name }
        ensures buffer { result.buf.now ≡ buf.entry.now }
        ensures position { result.pos ≡ value_place K.kind V.kind M.E (place_of place) }
        ensures stands { StandsAlone V.kind result.buf.now result.pos }
        ensures shows { ShowsEntry K.kind V.kind M.E buf.entry.now pos (place_of place) }
        ensures puts { (own : List ℕ) → IsOwn V.kind own
            → PutsEntry K.kind V.kind M.E buf.entry.now pos (place_of place) own
            (put_bytes buf.entry.now result.pos own) }
    {
        M::opened(buf, pos);
        let (_, at) = positions::<K, V, M>(buf, pos, place);
        Seal::at(buf, at)
    }

    /// Returns the place of the entry whose key is equal to the query, or `None`.
    ///
    /// The comparison must be a function of the query, which comes first, and the key. `Greater` means that the query is
    /// greater.
    pub fn find_with<'s, Q, W: Shows<'s, K>, C: Fn(&Q, W) -> Ordering>(
        &'s self,
        key: &Q,
        cmp: C,
    ) -> Option<EntryPlace>
        requires { C.IsAlwaysCallable cmp }
        ensures entry { IfSome result (λ place.
            IsEntry K.kind V.kind M.E self.now.buf.now self.now.pos (place_of place)) }
        ensures finds { ByComparison (C.post cmp) (shown_value K.kind W.Shows) key.now (λ comparison.
            FindsPlace K.kind V.kind M.E self.now.buf.now self.now.pos comparison
            (option_map place_of result)) }
    {
        let compare = |query: &Q, key: W| Compared::of(cmp(query, key));
        let (found, _) = search::<Q, K, V, M, W, _>(self.buf, self.pos, key, &compare, false);
        found_place(found)
    }

    /// Overwrites the value of an entry. All other bytes are unchanged, and all entries keep their places. Requires that `place`
    /// is one of the map's entries: `find` and its kin return such places.
    pub fn set_at(&mut self, place: EntryPlace, value: V::Native)
        requires { IsEntry K.kind V.kind M.E self.old.buf.now self.old.pos (place_of place) }
        ensures same_reference { self.new.buf.ghost_name ≡ self.old.buf.ghost_name }
        ensures position { self.new.pos ≡ self.old.pos }
        ensures puts { PutsEntry K.kind V.kind M.E self.old.buf.now self.old.pos (place_of place)
            (V.in_place.own_bytes value) self.new.buf.now }
    {
        let pos = self.pos;
        put_at::<K, V, M>(&mut *self.buf, pos, place, value);
    }

    /// Calls `f` with the key of an entry and a seal of its value, and returns its result. Requires that `place` is one of the
    /// map's entries.
    pub fn with_seal_at<R, F: FnOnce(LentKey<'_, K>, &mut Seal<'_, V>) -> R>(
        &mut self,
        place: EntryPlace,
        f: F,
    ) -> R
        requires entry { IsEntry K.kind V.kind M.E self.old.buf.now self.old.pos (place_of place) }
        requires may { MayCallEach K.kind V.kind M.E self.old.buf.now self.old.pos
            (λ k s. F.pre f k s) (λ k s r t. F.post f k s r t) }
        ensures same_reference { self.new.buf.ghost_name ≡ self.old.buf.ghost_name }
        ensures position { self.new.pos ≡ self.old.pos }
        ensures calls { CallsEntry K.kind V.kind M.E self.old.buf.now self.old.pos
            self.new.buf.now (λ k s r t. F.post f k s r t) (place_of place) result }
    {
        let pos = self.pos;
        call_entry::<K, V, M, R, F>(&mut *self.buf, pos, place, f)
    }

    /// Returns the place of the entry whose key is equal to a native value, or `None`.
    pub fn find_by<T: Drop>(&self, key: T) -> Option<EntryPlace>
    where
        K: CompareWith<T>,
        ensures entry { IfSome result (λ place.
            IsEntry K.kind V.kind M.E self.now.buf.now self.now.pos (place_of place)) }
        ensures finds { ByNative K.kind K.compared_at key (λ comparison.
            FindsPlace K.kind V.kind M.E self.now.buf.now self.now.pos comparison
            (option_map place_of result)) }
    {
        let compare = |query: &T, key: View<K>| K::compared(query, &key);
        let all = K::is_plain();
        let (found, _) = search::<_, K, V, M, _, _>(self.buf, self.pos, &key, &compare, all);
        found_place(found)
    }

    /// Overwrites the value of the entry whose key is equal to a native value, and returns whether there is one. All other bytes
    /// are unchanged. The buffer remains a valid map.
    ///
    /// # Examples
    ///
    /// ```rust
    /// let mut map = open_prices(bytes)?;
    /// Ok(map.set_by(name, price))
    /// ```
    pub fn set_by<T: Drop>(&mut self, key: T, value: V::Native) -> bool
    where
        K: CompareWith<T>,
        ensures same_reference { self.new.buf.ghost_name ≡ self.old.buf.ghost_name }
        ensures position { self.new.pos ≡ self.old.pos }
        ensures set { ByNative K.kind K.compared_at key (λ comparison.
            IsSet K.kind V.kind M.E self.old.buf.now self.old.pos comparison
            (V.in_place.own_bytes value) self.new.buf.now result) }
        // If there is no such entry, no byte is written.
        ensures absent { result ≡ false → self.new.buf.now ≡ self.old.buf.now }
    {
        match self.find_by(key) {
            None => false,
            Some(place) => {
                self.set_at(place, value);
                true
            }
        }
    }

    /// Calls `f` with the key of the entry whose key is equal to a native value and a seal of its value, and returns its result.
    /// Returns `None` if there is no such entry, and writes nothing then.
    ///
    /// # Examples
    ///
    /// ```rust
    /// let old = map.with_seal_by(
    ///     name,
    ///     move |_: LentKey<ArchivedText>, price: &mut Seal<ArchivedU64>| {
    ///         let old = price.read();
    ///         price.write(old.wrapping_add(amount));
    ///         old
    ///     },
    /// );
    /// ```
    pub fn with_seal_by<T: Drop, R, F: FnOnce(LentKey<'_, K>, &mut Seal<'_, V>) -> R>(
        &mut self,
        key: T,
        f: F,
    ) -> Option<R>
    where
        K: CompareWith<T>,
        requires { MayCallEach K.kind V.kind M.E self.old.buf.now self.old.pos
            (λ k s. F.pre f k s) (λ k s r t. F.post f k s r t) }
        ensures same_reference { self.new.buf.ghost_name ≡ self.old.buf.ghost_name }
        ensures position { self.new.pos ≡ self.old.pos }
        ensures calls { ByNative K.kind K.compared_at key (λ comparison.
            CallsFound K.kind V.kind M.E self.old.buf.now self.old.pos comparison
            self.new.buf.now (λ k s r t. F.post f k s r t) result) }
    {
        let place = self.find_by(key)?;
        Some(self.with_seal_at(place, f))
    }
}

impl<'a, K: ViewOrd, V: InPlace, M: ArchivedMap<Key = K, Mapped = V>> MapSeal<'a, M> {
    /// Returns the place of the entry whose key is equal to `key`, or `None`.
    pub fn find(&self, key: View<'_, K>) -> Option<EntryPlace>
        ensures entry { IfSome result (λ place.
            IsEntry K.kind V.kind M.E self.now.buf.now self.now.pos (place_of place)) }
        ensures finds { FindsPlace K.kind V.kind M.E self.now.buf.now self.now.pos
            (K.kind.order (view_value key.entry)) (option_map place_of result) }
    {
        let compare = |query: &View<'_, K>, key: View<K>| Compared::of(K::compare(query, &key));
        let (found, _) = search::<_, K, V, M, _, _>(self.buf, self.pos, &key, &compare, true);
        found_place(found)
    }

    /// Overwrites the value of the entry whose key is equal to `key`, and returns whether there is one. All other bytes are
    /// unchanged. The buffer remains a valid map.
    pub fn set(&mut self, key: View<'_, K>, value: V::Native) -> bool
        ensures same_reference { self.new.buf.ghost_name ≡ self.old.buf.ghost_name }
        ensures position { self.new.pos ≡ self.old.pos }
        ensures set { IsSet K.kind V.kind M.E self.old.buf.now self.old.pos
            (K.kind.order (view_value key.entry)) (V.in_place.own_bytes value) self.new.buf.now result }
        // If there is no such entry, no byte is written.
        ensures absent { result ≡ false → self.new.buf.now ≡ self.old.buf.now }
    {
        match self.find(key) {
            None => false,
            Some(place) => {
                self.set_at(place, value);
                true
            }
        }
    }

    /// Calls `f` with the key of the entry whose key is equal to `key` and a seal of its value, and returns its result. Returns
    /// `None` if there is no such entry, and writes nothing then.
    pub fn with_seal<R, F: FnOnce(LentKey<'_, K>, &mut Seal<'_, V>) -> R>(
        &mut self,
        key: View<'_, K>,
        f: F,
    ) -> Option<R>
        requires { MayCallEach K.kind V.kind M.E self.old.buf.now self.old.pos
            (λ k s. F.pre f k s) (λ k s r t. F.post f k s r t) }
        ensures same_reference { self.new.buf.ghost_name ≡ self.old.buf.ghost_name }
        ensures position { self.new.pos ≡ self.old.pos }
        ensures calls { CallsFound K.kind V.kind M.E self.old.buf.now self.old.pos
            (K.kind.order (view_value key.entry)) self.new.buf.now (λ k s r t. F.post f k s r t) result }
    {
        let place = self.find(key)?;
        Some(self.with_seal_at(place, f))
    }
}
