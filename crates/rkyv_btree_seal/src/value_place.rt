//! Where the entries of a map stand, and writes over their values.
ghost use Rattle.std.specs.Prelude.{◌≡◌, ◌≤◌, ◌+◌, IsTrue, length, IfSome};
ghost use Rattle.rkyv_btree_portable.specs.Bytes.{bytes_at};
ghost use Rattle.rkyv_btree_verify.specs.Map.{map_kind};
ghost use Rattle.rkyv_btree_portable.specs.Views.{stands};
ghost use Rattle.rkyv_btree_seal.specs.Alone.{StandsAlone};
ghost use Rattle.rkyv_btree_seal.specs.Put.{put_bytes, key_place, value_place};
ghost use Rattle.rkyv_btree_seal.specs.Places.{IsEntry, ShowsEntry, PutsEntry};
ghost use Rattle.rkyv_btree_walk.specs.EntryPlaces.{place_of};

use rkyv_btree_portable::check::Portable;
use rkyv_btree_portable::in_place::InPlace;
use rkyv_btree_view::view::View;
use rkyv_btree_walk::archived_map::ArchivedMap;
use rkyv_btree_walk::entry_place::EntryPlace;
use rkyv_btree_walk::node::{key_pos, value_pos};
use std::marker::PhantomData;

/// Returns the positions of the key and the value of an entry of the map at `pos`.
pub(crate) fn positions<K: Portable, V: InPlace, M: ArchivedMap<Key = K, Mapped = V>>(
    buf: &[u8],
    pos: u32,
    place: EntryPlace,
) -> (u32, u32)
    requires stands { IsTrue (stands M.kind buf.now pos) }
    requires entry { IsEntry K.kind V.kind M.E buf.now pos (place_of place) }
    ensures key_place { result.0 ≡ key_place K.kind V.kind M.E (place_of place) }
    ensures value_place { result.1 ≡ value_place K.kind V.kind M.E (place_of place) }
    ensures key { IsTrue (stands K.kind buf.now result.0) }
    ensures key_first { result.0 + K.kind.size ≤ result.1 }
    ensures value { StandsAlone V.kind buf.now result.1 }
{
    M::opened(buf, pos);
    let key = key_pos::<K, V, M>(place.node, place.index);
    let value = value_pos::<K, V, M>(place.node, place.index);
    (key, value)
}

/// The view of the key of an entry of the map at `pos`.
pub(crate) fn key_at<K: Portable, V: InPlace, M: ArchivedMap<Key = K, Mapped = V>>(
    buf: &[u8],
    pos: u32,
    place: EntryPlace,
) -> View<'_, K>
    requires stands { IsTrue (stands M.kind buf.now pos) }
    requires entry { IsEntry K.kind V.kind M.E buf.now pos (place_of place) }
    ensures buffer { result.buf.now ≡ buf.now }
    ensures position { result.pos ≡ key_place K.kind V.kind M.E (place_of place) }
{
    let (key, _) = positions::<K, V, M>(buf, pos, place);
    View {
        buf,
        pos: key,
        of: PhantomData,
    }
}

/// The value of an entry of the map at `pos`.
pub(crate) fn read_at<K: Portable, V: InPlace, M: ArchivedMap<Key = K, Mapped = V>>(
    buf: &[u8],
    pos: u32,
    place: EntryPlace,
) -> V::Native
    requires stands { IsTrue (stands M.kind buf.now pos) }
    requires entry { IsEntry K.kind V.kind M.E buf.now pos (place_of place) }
    ensures model { V.in_place.model result ≡ V.in_place.model_of_bytes
        (bytes_at buf.now (value_place K.kind V.kind M.E (place_of place)) V.kind.size) }
    ensures shows { ShowsEntry K.kind V.kind M.E buf.now pos (place_of place) }
{
    M::opened(buf, pos);
    let (_, value) = positions::<K, V, M>(buf, pos, place);
    let at = value as usize;
    V::read(&buf[at..at + V::size() as usize])
}

/// Replaces the value of an entry of the map at `pos`, and no other byte.
pub(crate) fn put_at<K: Portable, V: InPlace, M: ArchivedMap<Key = K, Mapped = V>>(
    buf: &mut [u8],
    pos: u32,
    place: EntryPlace,
    value: V::Native,
)
    requires stands { IsTrue (stands M.kind buf.old pos) }
    requires entry { IsEntry K.kind V.kind M.E buf.old pos (place_of place) }
    ensures puts { PutsEntry K.kind V.kind M.E buf.old pos (place_of place) (V.in_place.own_bytes value)
        buf.new }
    ensures stands { IsTrue (stands M.kind buf.new pos) }
    ensures stood { IsTrue (stands (map_kind K.kind V.kind M.E) buf.old pos) }
{
    M::opened(buf, pos);
    let (_, value_pos) = positions::<K, V, M>(buf, pos, place);
    let at = value_pos as usize;
    V::write(value, &mut buf[at..at + V::size() as usize]);
    M::closed(buf, pos);
}
