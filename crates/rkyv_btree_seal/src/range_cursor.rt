//! Cursors along the entries of a map between two bounds of their keys, whose values they read and write in place.
ghost use Rattle.std.specs.Prelude.{◌≡◌, IsTrue, IsSome, IfSome, None, map};
ghost use Rattle.std.specs.Option.{option_map};
ghost use Rattle.std.specs.Range.Bound.{bound_map};
ghost use Rattle.std.specs.declared.ops.Bound.TheVariants.{Unbounded};
ghost use Rattle.rkyv_btree_portable.specs.Bytes.{bytes_at};
ghost use Rattle.rkyv_btree_format.specs.Layout.{layout_of};
ghost use Rattle.rkyv_btree_format.specs.Read.{entry_at, read_map};
ghost use Rattle.rkyv_btree_portable.specs.Views.{stands};
ghost use Rattle.rkyv_btree_seal.specs.Along.{IsAmong};
ghost use Rattle.rkyv_btree_walk.specs.Remaining.{places_between};
ghost use Rattle.rkyv_btree_walk.specs.WalkBetween.{IsWalkBetween};
ghost use Rattle.rkyv_btree_walk.specs.mirror.Along.{Takes};
ghost use Rattle.rkyv_btree_seal.specs.Places.{ShowsEntry, PutsEntry};
ghost use Rattle.rkyv_btree_walk.specs.EntryPlaces.{place_of};
ghost use Rattle.rkyv_btree_seal.specs.Put.{key_place, value_place};
ghost use Rattle.rkyv_btree_walk.specs.EntryPlaces.{entry_places};
ghost use Rattle.rkyv_btree_view.specs.Range.{ByNativeBounds};
ghost use Rattle.rkyv_btree_view.specs.Ranges.{IsBetween};
ghost use Rattle.rkyv_btree_view.specs.View.{view_value};
ghost use Rattle.rkyv_btree_walk.specs.Bounds.{ByBounds, IsRun, IsWithin};
ghost use Rattle.rkyv_btree_walk.specs.Search.{shown_value};

use crate::map_seal::MapSeal;
use crate::value_place::{key_at, put_at, read_at};
use rkyv_btree_portable::check::Portable;
use rkyv_btree_portable::in_place::InPlace;
use rkyv_btree_view::compare::ViewOrd;
use rkyv_btree_view::compare_native::CompareWith;
use rkyv_btree_view::view::View;
use rkyv_btree_walk::archived_map::ArchivedMap;
use rkyv_btree_walk::entry_place::EntryPlace;
use rkyv_btree_walk::range_walk::{RangeWalk, start_between, step_before};
use rkyv_btree_walk::shows::Shows;
use std::cmp::Ordering;
use std::marker::PhantomData;
use std::ops::Bound;

/// Lends the entries of a map between two bounds in order, each until the next call.
#[derive(Drop)]
pub struct RangeSeal<'a, M: ArchivedMap> {
    pub buf: &'a mut [u8],
    pub pos: u32,
    walk: RangeWalk,
    lent: Option<EntryPlace>,
    of: PhantomData<M>,
    ghost valid: { IsTrue (stands M.kind buf.now pos) },
    ghost walks: { IsWalkBetween M.Key.kind M.Mapped.kind M.E buf.now pos walk },
    ghost among: { ∥ IsAmong (entry_places M.Key.kind M.Mapped.kind M.E buf.now pos)
        (option_map place_of lent)
        (places_between M.Key.kind M.Mapped.kind M.E buf.now pos walk) ∥₁ },
}

/// Takes the next entry of the map at `pos` before the stop, and returns its place, or `None` if no entry remains.
// Of a slice that a cursor holds the prover knows nothing after a call that takes it shared. So this takes it as it is held, and says
// that it is unchanged.
#[inline(always)]
fn step_in<K: Portable, V: Portable, M: ArchivedMap<Key = K, Mapped = V>>(
    buf: &mut [u8],
    pos: u32,
    walk: &mut RangeWalk,
) -> Option<EntryPlace>
    requires stands { IsTrue (stands M.kind buf.old pos) }
    requires walks { IsWalkBetween K.kind V.kind M.E buf.old pos walk.old }
    ensures same { buf.new ≡ buf.old }
    ensures walks { IsWalkBetween K.kind V.kind M.E buf.old pos walk.new }
    ensures takes { Takes (places_between K.kind V.kind M.E buf.old pos walk.old)
        (places_between K.kind V.kind M.E buf.old pos walk.new) result }
{
    M::opened(buf, pos);
    step_before::<K, V, M>(buf, pos, walk)
}

impl<'a, K: Portable, V: InPlace, M: ArchivedMap<Key = K, Mapped = V>> RangeSeal<'a, M> {
    ghost use Rattle.rkyv_btree_seal.specs.Cursor.{range_remaining_places, range_remaining_entries, range_current_place, Advances, SameBuffer};
    ghost use Rattle.rkyv_btree_seal.specs.Starting.{IsBeforeRun};

    /// Returns the cursor before the first entry of a walk between bounds, of the map at position `pos` of `buf`. Requires that the
    /// bytes mean a map, and that `MapSeal::walk_between` returned the walk for it. No memory is allocated.
    pub fn over(buf: &'a mut [u8], pos: u32, walk: RangeWalk) -> RangeSeal<'a, M>
        requires stands { IsTrue (stands M.kind buf.old pos) }
        requires walks { IsWalkBetween K.kind V.kind M.E buf.old pos walk }
        ensures same_reference { result.buf.ghost_name ≡ buf.entry.ghost_name }
        ensures starts { IsBeforeRun buf.entry.now pos result }
        ensures places { range_remaining_places result
            ≡ places_between K.kind V.kind M.E buf.entry.now pos walk }
        ensures entries { range_remaining_entries result
            ≡ map (entry_at K.kind V.kind M.E buf.entry.now)
            (places_between K.kind V.kind M.E buf.entry.now pos walk) }
    {
        RangeSeal {
            buf,
            pos,
            walk,
            lent: None,
            of: PhantomData,
        }
    }

    /// Returns the cursor before the first entry within bounds of native values, of the map at position `pos`. Requires that the
    /// bytes mean a map: `access` is the test.
    pub fn by<T: Drop>(
        buf: &'a mut [u8],
        pos: u32,
        low: Bound<T>,
        high: Bound<T>,
    ) -> RangeSeal<'a, M>
    where
        K: CompareWith<T>,
        requires { IsTrue (stands M.kind buf.old pos) }
        ensures same_reference { result.buf.ghost_name ≡ buf.entry.ghost_name }
        ensures starts { IsBeforeRun buf.entry.now pos result }
        ensures whole { low ≡ Unbounded → high ≡ Unbounded
            → range_remaining_entries result ≡ read_map K.kind V.kind M.E buf.entry.now pos }
        ensures between { ByNativeBounds K.kind K.compared_at low high (λ lo hi. IsBetween K.kind.order
            lo hi (read_map K.kind V.kind M.E buf.entry.now pos) (range_remaining_entries result)) }
    {
        let compare = |query: &T, key: View<K>| K::compare_with(query, &key);
        let walk = start_between::<_, K, V, M, _, _>(
            buf,
            pos,
            low.as_ref(),
            high.as_ref(),
            &compare,
        );
        RangeSeal::over(buf, pos, walk)
    }

    /// Goes to the next entry, and returns whether there is one.
    pub fn next(&mut self) -> bool
        ensures same_buffer { SameBuffer self.old.buf self.old.pos self.new.buf self.new.pos }
        ensures advances { Advances (range_remaining_places self.old)
            (range_remaining_places self.new)
            (range_current_place self.new) result }
    {
        let pos = self.pos;
        self.lent = step_in::<K, V, M>(&mut *self.buf, pos, &mut self.walk);
        self.lent.is_some()
    }

    /// Returns the current entry's key. Requires that the last `next()` returned `true`.
    pub fn key(&self) -> View<'_, K>
        requires { IsSome (range_current_place self.now) }
        ensures buffer { result.buf.now ≡ self.now.buf.now }
        ensures position { IfSome (range_current_place self.now) (λ e.
            result.pos ≡ key_place K.kind V.kind M.E e) }
    {
        let place = self.lent.unwrap();
        key_at::<K, V, M>(self.buf, self.pos, place)
    }

    /// Returns the current entry's value. Requires that the last `next()` returned `true`.
    pub fn read(&self) -> V::Native
        requires { IsSome (range_current_place self.now) }
        ensures model { IfSome (range_current_place self.now) (λ e. V.in_place.model result
            ≡ V.in_place.model_of_bytes
            (bytes_at self.now.buf.now (value_place K.kind V.kind M.E e) V.kind.size)) }
        ensures shows { IfSome (range_current_place self.now)
            (ShowsEntry K.kind V.kind M.E self.now.buf.now self.now.pos) }
    {
        let place = self.lent.unwrap();
        read_at::<K, V, M>(self.buf, self.pos, place)
    }

    /// Overwrites the current entry's value. All other bytes are unchanged. Requires that the last `next()` returned `true`.
    pub fn write(&mut self, value: V::Native)
        requires { IsSome (range_current_place self.old) }
        ensures same_reference { self.new.buf.ghost_name ≡ self.old.buf.ghost_name }
        ensures position { self.new.pos ≡ self.old.pos }
        ensures current { range_current_place self.new ≡ range_current_place self.old }
        ensures remaining { range_remaining_places self.new ≡ range_remaining_places self.old }
        ensures puts { IfSome (range_current_place self.old) (λ e.
            PutsEntry K.kind V.kind M.E self.old.buf.now self.old.pos e (V.in_place.own_bytes value)
            self.new.buf.now) }
    {
        let place = self.lent.unwrap();
        let pos = self.pos;
        put_at::<K, V, M>(&mut *self.buf, pos, place, value);
    }

    /// How many entries are left, at least and at most: that isn't known before they are met.
    pub fn size_hint(&self) -> (usize, Option<usize>)
        ensures lower { result.0 ≡ 0 }
        ensures upper { result.1 ≡ None }
    {
        (0, None)
    }
}

impl<'a, K: ViewOrd, V: InPlace, M: ArchivedMap<Key = K, Mapped = V>> RangeSeal<'a, M> {
    ghost use Rattle.rkyv_btree_seal.specs.Cursor.{range_remaining_entries};
    ghost use Rattle.rkyv_btree_seal.specs.Starting.{IsBeforeRun};

    /// Returns the cursor before the first entry within bounds of keys, of the map at position `pos`. Requires that the bytes mean
    /// a map: `access` is the test.
    pub fn at(
        buf: &'a mut [u8],
        pos: u32,
        low: &Bound<View<'_, K>>,
        high: &Bound<View<'_, K>>,
    ) -> RangeSeal<'a, M>
        requires { IsTrue (stands M.kind buf.old pos) }
        ensures same_reference { result.buf.ghost_name ≡ buf.entry.ghost_name }
        ensures starts { IsBeforeRun buf.entry.now pos result }
        ensures whole { low.now ≡ Unbounded → high.now ≡ Unbounded
            → range_remaining_entries result ≡ read_map K.kind V.kind M.E buf.entry.now pos }
        ensures between { IsBetween K.kind.order
            (bound_map (λ q. K.kind.order (view_value q)) low.now)
            (bound_map (λ q. K.kind.order (view_value q)) high.now)
            (read_map K.kind V.kind M.E buf.entry.now pos) (range_remaining_entries result) }
    {
        let compare = |query: &View<'_, K>, key: View<K>| K::compare(query, &key);
        let walk = start_between::<_, K, V, M, _, _>(
            buf,
            pos,
            low.as_ref(),
            high.as_ref(),
            &compare,
        );
        RangeSeal::over(buf, pos, walk)
    }
}

impl<'a, K: Portable, V: InPlace, M: ArchivedMap<Key = K, Mapped = V>> MapSeal<'a, M> {
    ghost use Rattle.rkyv_btree_seal.specs.Cursor.{range_remaining_entries};
    ghost use Rattle.rkyv_btree_seal.specs.Starting.{IsBeforeRun};

    /// Returns the walk along the entries within the bounds, of which `RangeSeal::over` makes a cursor.
    ///
    /// The comparison must be a function of the query, which comes first, and the key. `Greater` means that the query is
    /// greater. If the entries aren't ordered for both queries, the walk goes along some contiguous run of entries.
    pub fn walk_between<'s, Q, W: Shows<'s, K>, C: Fn(&Q, W) -> Ordering>(
        &'s self,
        low: Bound<&Q>,
        high: Bound<&Q>,
        cmp: C,
    ) -> RangeWalk
        requires { C.IsAlwaysCallable cmp }
        ensures walks { IsWalkBetween K.kind V.kind M.E self.now.buf.now self.now.pos result }
        ensures run { IsRun
            (places_between K.kind V.kind M.E self.now.buf.now self.now.pos result)
            (entry_places K.kind V.kind M.E self.now.buf.now self.now.pos) }
        ensures whole { low.entry ≡ Unbounded → high.entry ≡ Unbounded
            → map (entry_at K.kind V.kind M.E self.now.buf.now)
            (places_between K.kind V.kind M.E self.now.buf.now self.now.pos result)
            ≡ read_map K.kind V.kind M.E self.now.buf.now self.now.pos }
        ensures within { ByBounds (C.post cmp) (shown_value K.kind W.Shows) low.entry high.entry (λ lo hi.
            IsWithin lo hi (read_map K.kind V.kind M.E self.now.buf.now self.now.pos)
            (map (entry_at K.kind V.kind M.E self.now.buf.now)
            (places_between K.kind V.kind M.E self.now.buf.now self.now.pos result))) }
    {
        start_between::<Q, K, V, M, W, C>(self.buf, self.pos, low, high, &cmp)
    }

    /// Returns the cursor before the first entry within bounds of native values. A contract can say what the buffer is in the end of
    /// a cursor that `RangeSeal::by` makes.
    pub fn range_seal_by<T: Drop>(self, low: Bound<T>, high: Bound<T>) -> RangeSeal<'a, M>
    where
        K: CompareWith<T>,
        ensures same_reference { result.buf.ghost_name ≡ self.entry.buf.ghost_name }
        ensures starts { IsBeforeRun self.entry.buf.now self.entry.pos result }
        ensures whole { low ≡ Unbounded → high ≡ Unbounded → range_remaining_entries result
            ≡ read_map K.kind V.kind M.E self.entry.buf.now self.entry.pos }
        ensures between { ByNativeBounds K.kind K.compared_at low high (λ lo hi. IsBetween K.kind.order
            lo hi (read_map K.kind V.kind M.E self.entry.buf.now self.entry.pos)
            (range_remaining_entries result)) }
    {
        RangeSeal::by(self.buf, self.pos, low, high)
    }
}

impl<'a, K: ViewOrd, V: InPlace, M: ArchivedMap<Key = K, Mapped = V>> MapSeal<'a, M> {
    ghost use Rattle.rkyv_btree_seal.specs.Cursor.{range_remaining_entries};
    ghost use Rattle.rkyv_btree_seal.specs.Starting.{IsBeforeRun};

    /// Returns the cursor before the first entry within bounds of keys. A contract can say what the buffer is in the end of a cursor
    /// that `RangeSeal::at` makes.
    pub fn range_seal(self, low: &Bound<View<'_, K>>, high: &Bound<View<'_, K>>) -> RangeSeal<'a, M>
        ensures same_reference { result.buf.ghost_name ≡ self.entry.buf.ghost_name }
        ensures starts { IsBeforeRun self.entry.buf.now self.entry.pos result }
        ensures whole { low.now ≡ Unbounded → high.now ≡ Unbounded → range_remaining_entries result
            ≡ read_map K.kind V.kind M.E self.entry.buf.now self.entry.pos }
        ensures between { IsBetween K.kind.order
            (bound_map (λ q. K.kind.order (view_value q)) low.now)
            (bound_map (λ q. K.kind.order (view_value q)) high.now)
            (read_map K.kind V.kind M.E self.entry.buf.now self.entry.pos)
            (range_remaining_entries result) }
    {
        RangeSeal::at(self.buf, self.pos, low, high)
    }
}
