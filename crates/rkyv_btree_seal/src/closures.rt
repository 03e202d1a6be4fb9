//! Calls of closures at one entry, whose value they may write.
ghost use Rattle.std.specs.Prelude.{◌≤◌, ◌+◌, IsTrue};
ghost use Rattle.rkyv_btree_portable.specs.Bytes.{bytes_at};
ghost use Rattle.rkyv_btree_portable.specs.InPlace.{value_of};
ghost use Rattle.rkyv_btree_portable.specs.Views.{stands};
ghost use Rattle.rkyv_btree_seal.specs.Alone.{StandsAlone};
ghost use Rattle.rkyv_btree_seal.specs.Calls.{CallsEntry, MayCallAt, MayCallEach};
ghost use Rattle.rkyv_btree_seal.specs.Places.{IsEntry};
ghost use Rattle.rkyv_btree_walk.specs.EntryPlaces.{place_of};
ghost use Rattle.rkyv_btree_seal.specs.Lent.{CallsAt, MayCall};

use crate::lent_key::LentKey;
use crate::seal::Seal;
use crate::value_place::positions;
use rkyv_btree_portable::check::Portable;
use rkyv_btree_portable::in_place::InPlace;
use rkyv_btree_walk::archived_map::ArchivedMap;
use rkyv_btree_walk::entry_place::EntryPlace;

/// Calls `f` at the key at `key` and the value at `value`, once.
pub(crate) fn call_at<K: Portable, V: InPlace, R, F: FnOnce(LentKey<'_, K>, &mut Seal<'_, V>) -> R>(
    buf: &mut [u8],
    key: u32,
    value: u32,
    f: F,
) -> R
    requires key { IsTrue (stands K.kind buf.old key) }
    requires key_first { key + K.kind.size ≤ value }
    requires value { StandsAlone V.kind buf.old value }
    requires may { MayCall K.kind V.kind (K.kind.read buf.old key)
        (value_of V.kind (bytes_at buf.old value V.kind.size)) (λ k s. F.pre f k s)
        (λ k s r t. F.post f k s r t) }
    ensures { CallsAt K.kind V.kind buf.old key value buf.new (λ k s r t. F.post f k s r t) result }
{
    let size = V::size() as usize;
    let (before, rest) = buf.split_at_mut(value as usize);
    let (own, _behind) = rest.split_at_mut(size);
    let lent = LentKey::at(&*before, key);
    let mut seal = Seal::at(own, 0);
    f(lent, &mut seal)
}

/// Calls `f` at an entry of the map at `pos`, once.
pub(crate) fn call_entry<
    K: Portable,
    V: InPlace,
    M: ArchivedMap<Key = K, Mapped = V>,
    R,
    F: FnOnce(LentKey<'_, K>, &mut Seal<'_, V>) -> R,
>(buf: &mut [u8], pos: u32, place: EntryPlace, f: F) -> R
    requires stands { IsTrue (stands M.kind buf.old pos) }
    requires entry { IsEntry K.kind V.kind M.E buf.old pos (place_of place) }
    requires may { MayCallEach K.kind V.kind M.E buf.old pos (λ k s. F.pre f k s)
        (λ k s r t. F.post f k s r t) }
    ensures calls { CallsEntry K.kind V.kind M.E buf.old pos buf.new (λ k s r t. F.post f k s r t)
        (place_of place) result }
    ensures stands { IsTrue (stands M.kind buf.new pos) }
{
    M::opened(buf, pos);
    let (key, value) = positions::<K, V, M>(buf, pos, place);
    let result = call_at::<K, V, R, F>(buf, key, value, f);
    M::closed(buf, pos);
    result
}

/// Calls `f` at the key at `key` and the value at `value`, once of many times.
fn step_at<K: Portable, V: InPlace, R, F: FnMut(LentKey<'_, K>, &mut Seal<'_, V>) -> R>(
    buf: &mut [u8],
    key: u32,
    value: u32,
    f: &mut F,
) -> R
    requires key { IsTrue (stands K.kind buf.old key) }
    requires key_first { key + K.kind.size ≤ value }
    requires value { StandsAlone V.kind buf.old value }
    requires may { MayCall K.kind V.kind (K.kind.read buf.old key)
        (value_of V.kind (bytes_at buf.old value V.kind.size)) (λ k s. F.pre f.old k s)
        (λ k s r t. (g : F) × F.step f.old k s r t g) }
    ensures { CallsAt K.kind V.kind buf.old key value buf.new
        (λ k s r t. F.step f.old k s r t f.new) result }
{
    let size = V::size() as usize;
    let (before, rest) = buf.split_at_mut(value as usize);
    let (own, _behind) = rest.split_at_mut(size);
    let lent = LentKey::at(&*before, key);
    let mut seal = Seal::at(own, 0);
    f(lent, &mut seal)
}

/// Calls `f` at an entry of the map at `pos`, once of many times.
pub(crate) fn step_entry<
    K: Portable,
    V: InPlace,
    M: ArchivedMap<Key = K, Mapped = V>,
    R,
    F: FnMut(LentKey<'_, K>, &mut Seal<'_, V>) -> R,
>(buf: &mut [u8], pos: u32, place: EntryPlace, f: &mut F) -> R
    requires stands { IsTrue (stands M.kind buf.old pos) }
    requires entry { IsEntry K.kind V.kind M.E buf.old pos (place_of place) }
    requires may { MayCallAt K.kind V.kind M.E buf.old (place_of place) (λ k s. F.pre f.old k s)
        (λ k s r t. (g : F) × F.step f.old k s r t g) }
    ensures calls { CallsEntry K.kind V.kind M.E buf.old pos buf.new
        (λ k s r t. F.step f.old k s r t f.new) (place_of place) result }
    ensures stands { IsTrue (stands M.kind buf.new pos) }
{
    M::opened(buf, pos);
    let (key, value) = positions::<K, V, M>(buf, pos, place);
    let result = step_at::<K, V, R, F>(buf, key, value, f);
    M::closed(buf, pos);
    result
}
