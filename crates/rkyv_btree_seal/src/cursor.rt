//! Cursors along the entries of a map, whose values they read and write in place.
ghost use Rattle.std.specs.Prelude.{◌≡◌, IsTrue, IsSome, IfSome, None, Some, length};
ghost use Rattle.std.specs.Option.{option_map};
ghost use Rattle.rkyv_btree_portable.specs.Bytes.{bytes_at};
ghost use Rattle.rkyv_btree_format.specs.Layout.{layout_of};
ghost use Rattle.rkyv_btree_portable.specs.Views.{stands};
ghost use Rattle.rkyv_btree_seal.specs.Along.{IsAmong};
ghost use Rattle.rkyv_btree_walk.specs.mirror.Along.{walk_left, IsWalk, Takes};
ghost use Rattle.rkyv_btree_walk.specs.Bounds.{IsEnd};
ghost use Rattle.rkyv_btree_seal.specs.Places.{ShowsEntry, PutsEntry};
ghost use Rattle.rkyv_btree_walk.specs.EntryPlaces.{place_of};
ghost use Rattle.rkyv_btree_seal.specs.Put.{key_place, value_place};
ghost use Rattle.rkyv_btree_walk.specs.EntryPlaces.{entry_places};

use crate::map_seal::MapSeal;
use crate::value_place::{key_at, put_at, read_at};
use rkyv_btree_portable::check::Portable;
use rkyv_btree_portable::in_place::InPlace;
use rkyv_btree_view::view::View;
use rkyv_btree_walk::archived_map::ArchivedMap;
use rkyv_btree_walk::entry_place::EntryPlace;
use rkyv_btree_walk::entry_walk::{Walk, start, step};
use std::marker::PhantomData;

/// Lends the entries of a map in order, each until the next call. A key that is kept over `next` is refused by the
/// compiler: "cannot borrow `cursor` as mutable because it is also borrowed as immutable".
#[derive(Drop)]
pub struct IterSeal<'a, M: ArchivedMap> {
    pub buf: &'a mut [u8],
    pub pos: u32,
    walk: Walk,
    lent: Option<EntryPlace>,
    of: PhantomData<M>,
    ghost valid: { IsTrue (stands M.kind buf.now pos) },
    ghost walks: { IsWalk (layout_of M.Key.kind M.Mapped.kind M.E) buf.now pos walk },
    ghost among: { ∥ IsAmong (entry_places M.Key.kind M.Mapped.kind M.E buf.now pos)
        (option_map place_of lent)
        (walk_left (layout_of M.Key.kind M.Mapped.kind M.E) buf.now walk) ∥₁ },
    ghost ends: { let s = layout_of M.Key.kind M.Mapped.kind M.E in
        ∥ IsEnd (walk_left s buf.now walk)
        (entry_places M.Key.kind M.Mapped.kind M.E buf.now pos) ∥₁ },
}

/// Lends the values of a map in the order of its entries, each until the next call: the cursor along the entries, whose
/// keys need not be asked for.
pub type ValuesSeal<'a, M> = IterSeal<'a, M>;

/// Takes the next entry of the map at `pos`, and returns its place, or `None` if no entry remains.
// Of a slice that a cursor holds the prover knows nothing after a call that takes it shared. So this takes it as it is held, and says
// that it is unchanged.
#[inline(always)]
fn step_in<K: Portable, V: Portable, M: ArchivedMap<Key = K, Mapped = V>>(
    buf: &mut [u8],
    pos: u32,
    walk: &mut Walk,
) -> Option<EntryPlace>
    requires stands { IsTrue (stands M.kind buf.old pos) }
    requires walks { IsWalk (layout_of K.kind V.kind M.E) buf.old pos walk.old }
    ensures same { buf.new ≡ buf.old }
    ensures walks { IsWalk (layout_of K.kind V.kind M.E) buf.old pos walk.new }
    ensures takes { let s = layout_of K.kind V.kind M.E in
        Takes (walk_left s buf.old walk.old) (walk_left s buf.old walk.new) result }
{
    step::<K, V, M>(buf, pos, walk)
}

impl<'a, K: Portable, V: InPlace, M: ArchivedMap<Key = K, Mapped = V>> IterSeal<'a, M> {
    ghost use Rattle.rkyv_btree_seal.specs.Cursor.{remaining_places, current_place, Advances, SameBuffer};
    ghost use Rattle.rkyv_btree_seal.specs.Starting.{IsBeforeFirst};

    /// Returns the cursor before the first entry of the map at position `pos`. Requires that the bytes mean a map: `access` is the
    /// test. No memory is allocated.
    pub fn at(buf: &'a mut [u8], pos: u32) -> IterSeal<'a, M>
        requires { IsTrue (stands M.kind buf.old pos) }
        ensures same_reference { result.buf.ghost_name ≡ buf.entry.ghost_name }
        ensures starts { IsBeforeFirst buf.entry.now pos result }
    {
        let walk = start::<K, V, M>(buf, pos);
        IterSeal {
            buf,
            pos,
            walk,
            lent: None,
            of: PhantomData,
        }
    }

    /// Goes to the next entry, and returns whether there is one.
    pub fn next(&mut self) -> bool
        ensures same_buffer { SameBuffer self.old.buf self.old.pos self.new.buf self.new.pos }
        ensures advances { Advances (remaining_places self.old) (remaining_places self.new)
            (current_place self.new) result }
    {
        let pos = self.pos;
        self.lent = step_in::<K, V, M>(&mut *self.buf, pos, &mut self.walk);
        self.lent.is_some()
    }

    /// Returns the current entry's key. Requires that the last `next()` returned `true`.
    pub fn key(&self) -> View<'_, K>
        requires { IsSome (current_place self.now) }
        ensures buffer { result.buf.now ≡ self.now.buf.now }
        ensures position { IfSome (current_place self.now) (λ e.
            result.pos ≡ key_place K.kind V.kind M.E e) }
    {
        let place = self.lent.unwrap();
        key_at::<K, V, M>(self.buf, self.pos, place)
    }

    /// Returns the current entry's value. Requires that the last `next()` returned `true`.
    pub fn read(&self) -> V::Native
        requires { IsSome (current_place self.now) }
        ensures model { IfSome (current_place self.now) (λ e. V.in_place.model result
            ≡ V.in_place.model_of_bytes
            (bytes_at self.now.buf.now (value_place K.kind V.kind M.E e) V.kind.size)) }
        ensures shows { IfSome (current_place self.now)
            (ShowsEntry K.kind V.kind M.E self.now.buf.now self.now.pos) }
    {
        let place = self.lent.unwrap();
        read_at::<K, V, M>(self.buf, self.pos, place)
    }

    /// Overwrites the current entry's value. All other bytes are unchanged. Requires that the last `next()` returned `true`.
    pub fn write(&mut self, value: V::Native)
        requires { IsSome (current_place self.old) }
        ensures same_reference { self.new.buf.ghost_name ≡ self.old.buf.ghost_name }
        ensures position { self.new.pos ≡ self.old.pos }
        ensures current { current_place self.new ≡ current_place self.old }
        ensures remaining { remaining_places self.new ≡ remaining_places self.old }
        ensures puts { IfSome (current_place self.old) (λ e.
            PutsEntry K.kind V.kind M.E self.old.buf.now self.old.pos e (V.in_place.own_bytes value)
            self.new.buf.now) }
    {
        let place = self.lent.unwrap();
        let pos = self.pos;
        put_at::<K, V, M>(&mut *self.buf, pos, place, value);
    }

    /// Returns how many entries remain.
    pub fn len(&self) -> usize
        ensures { result ≡ length (remaining_places self.now) }
    {
        self.walk.behind as usize + self.walk.end.saturating_sub(self.walk.next) as usize
    }

    /// Returns how many entries remain, at least and at most: both are exact.
    pub fn size_hint(&self) -> (usize, Option<usize>)
        ensures exact { result.0 ≡ length (remaining_places self.now) }
        ensures exact_upper { result.1 ≡ Some (length (remaining_places self.now)) }
    {
        let left = self.len();
        (left, Some(left))
    }
}

impl<'a, K: Portable, V: InPlace, M: ArchivedMap<Key = K, Mapped = V>> MapSeal<'a, M> {
    ghost use Rattle.rkyv_btree_seal.specs.Starting.{IsBeforeFirst};

    /// Returns the cursor before the first entry. A contract can say what the buffer is in the end of a cursor that `IterSeal::at`
    /// makes.
    ///
    /// # Examples
    ///
    /// ```rust
    /// let mut cursor = open_prices(bytes)?.iter_seal();
    /// while cursor.next() {
    ///     let old = cursor.read();
    ///     cursor.write(old.wrapping_add(old));
    /// }
    /// ```
    pub fn iter_seal(self) -> IterSeal<'a, M>
        ensures same_reference { result.buf.ghost_name ≡ self.entry.buf.ghost_name }
        ensures starts { IsBeforeFirst self.entry.buf.now self.entry.pos result }
    {
        IterSeal::at(self.buf, self.pos)
    }

    /// Returns the cursor before the first value, which is that of `iter_seal`.
    pub fn values_seal(self) -> ValuesSeal<'a, M>
        ensures same_reference { result.buf.ghost_name ≡ self.entry.buf.ghost_name }
        ensures starts { IsBeforeFirst self.entry.buf.now self.entry.pos result }
    {
        self.iter_seal()
    }
}
