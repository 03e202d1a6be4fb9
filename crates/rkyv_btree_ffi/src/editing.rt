//! Maps whose values C overwrites.
ghost use Rattle.std.specs.Prelude.{◌≡◌, IsTrue, None, Some, if◌then◌else◌};
ghost use Rattle.std.specs.Int.{w64, to_le_bytes};
ghost use Rattle.rkyv_btree_portable.specs.Scalars.{u32_kind, u64_kind, i64_kind};
ghost use Rattle.rkyv_btree_verify.specs.Map.{map_kind};
ghost use Rattle.rkyv_btree_portable.specs.Views.{stands};
ghost use Rattle.rkyv_btree_view.specs.Lookup.{ByNative};
ghost use Rattle.rkyv_btree_seal.specs.Places.{SetsFound};
ghost use Rattle.rkyv_btree_ffi.specs.Editing.{narrow, own_of, SetsOwn, SetsValue};
ghost use Rattle.rkyv_btree_ffi.specs.Entries.{comparison_with, by_number, by_text};
ghost use Rattle.rkyv_btree_ffi.specs.Items.{kind_at};
ghost use Rattle.rkyv_btree_ffi.specs.MapTypes.{type_of, kind_of, IfType};
ghost use Rattle.rkyv_btree_ffi.specs.Opening.{Opens, IsOpenedEdit};

use crate::at_type;
use crate::codes::{BAD_TYPE, BAD_VALUE, BtreeRefusal, NOT_FOUND, NOT_OPEN, OK, refusal_of};
use crate::handle::{BtreeEdit, BtreeMap};
use crate::item::Shown;
use crate::map_type::{ItemType, MapType};
use crate::opening::opened_at;
use crate::query::Query;
use rkyv_btree_portable::byte_string::ArchivedBytes;
use rkyv_btree_portable::in_place::InPlace;
use rkyv_btree_portable::numbers::{ArchivedU32, ArchivedU64};
use rkyv_btree_portable::refusal::Refusal;
use rkyv_btree_portable::signed::ArchivedI64;
use rkyv_btree_portable::text::ArchivedText;
use rkyv_btree_seal::map_seal::MapSeal;
use rkyv_btree_types::map::ArchivedBTreeMap;
use rkyv_btree_view::view::View;

/// Returns the position of the map of a type of the whole archive in the buffer.
fn opened_in(map_type: MapType, edit: &BtreeEdit<'_>) -> Result<u32, Refusal>
    ensures { Opens map_type edit.now.buf.now result }
{
    opened_at(map_type, edit.buf)
}

/// Opens the map of the whole archive in the buffer. After a refusal the map is closed.
#[unsafe(no_mangle)]
pub extern "C" fn rkyv_btree_open_edit(
    edit: &mut BtreeEdit<'_>,
    map_type: u32,
    refusal: &mut BtreeRefusal,
) -> u32
    ensures opens { IfType map_type (λ t. (found : _) × Opens t edit.old.buf.now found
        × IsOpenedEdit t edit.old.buf.now found edit.new refusal.new result) }
    ensures no_type { type_of map_type ≡ None → (result ≡ 17) × (edit.new.map_type ≡ 0) }
{
    let Some(at) = MapType::from_number(map_type) else {
        edit.map_type = 0;
        return BAD_TYPE;
    };
    match opened_in(at, edit) {
        Ok(pos) => {
            edit.pos = pos;
            edit.map_type = map_type;
            OK
        }
        Err(why) => {
            edit.map_type = 0;
            *refusal = refusal_of(why);
            refusal.code
        }
    }
}

/// Opens the map of an edited map's buffer for reading, until a value is overwritten. Nothing is validated.
#[unsafe(no_mangle)]
pub extern "C" fn rkyv_btree_read_edit<'a>(map: &mut BtreeMap<'a>, edit: &'a BtreeEdit<'_>) -> u32
    ensures open { IfType edit.now.map_type (λ t. (result ≡ 0) × (type_of map.new.map_type ≡ Some t)
        × (map.new.buf.now ≡ edit.now.buf.now) × (map.new.pos ≡ edit.now.pos)) }
    ensures closed { type_of edit.now.map_type ≡ None → (result ≡ 16) × (map.new.map_type ≡ 0) }
{
    *map = BtreeMap {
        buf: &[],
        pos: 0,
        map_type: 0,
    };
    if MapType::from_number(edit.map_type).is_none() {
        return NOT_OPEN;
    }
    *map = BtreeMap {
        buf: edit.buf,
        pos: edit.pos,
        map_type: edit.map_type,
    };
    OK
}

/// Overwrites the value of the entry that a search for a query finds in the map at `pos`, and returns whether it finds one.
fn set<K: Shown, V: InPlace>(buf: &mut [u8], pos: u32, query: &Query<'_>, value: V::Native) -> bool
    requires { IsTrue (stands (map_kind K.kind V.kind 5) buf.old pos) }
    ensures sets { ByNative K.kind K.query_compared_at query.now (λ comparison.
        SetsFound K.kind V.kind 5 buf.old pos comparison (V.in_place.own_bytes value)
        buf.new result) }
    ensures stands { IsTrue (stands (map_kind K.kind V.kind 5) buf.new pos) }
{
    let compare = |query: &Query<'_>, key: View<K>| K::compare_query(query, &key);
    let mut map = MapSeal::<ArchivedBTreeMap<K, V, 5>>::at(buf, pos);
    match map.find_with(query, compare) {
        None => false,
        Some(place) => {
            map.set_at(place, value);
            true
        }
    }
}

/// Returns the code of a write.
fn written(found: bool) -> u32
    ensures { result ≡ (if found then 0 else 18) }
{
    if found { OK } else { NOT_FOUND }
}

/// Overwrites a value of 32 bits, if the number is one.
fn set_narrow<K: Shown>(buf: &mut [u8], pos: u32, query: &Query<'_>, value: u64) -> u32
    requires { IsTrue (stands (map_kind K.kind u32_kind 5) buf.old pos) }
    ensures sets { ByNative K.kind K.query_compared_at query.now (λ comparison.
        SetsOwn K.kind u32_kind buf.old pos comparison (narrow value) buf.new result) }
    ensures stands { IsTrue (stands (map_kind K.kind u32_kind 5) buf.new pos) }
{
    match u32::try_from(value) {
        Ok(value) => written(set::<K, ArchivedU32>(buf, pos, query, value)),
        Err(_) => BAD_VALUE,
    }
}

/// Overwrites a value of 64 bits.
fn set_wide<K: Shown>(buf: &mut [u8], pos: u32, query: &Query<'_>, value: u64) -> u32
    requires { IsTrue (stands (map_kind K.kind u64_kind 5) buf.old pos) }
    ensures sets { ByNative K.kind K.query_compared_at query.now (λ comparison.
        SetsOwn K.kind u64_kind buf.old pos comparison (Some (to_le_bytes w64 value))
        buf.new result) }
    ensures stands { IsTrue (stands (map_kind K.kind u64_kind 5) buf.new pos) }
{
    written(set::<K, ArchivedU64>(buf, pos, query, value))
}

/// Overwrites a value of 64 bits with a sign, which is given in two's complement.
fn set_signed<K: Shown>(buf: &mut [u8], pos: u32, query: &Query<'_>, value: u64) -> u32
    requires { IsTrue (stands (map_kind K.kind i64_kind 5) buf.old pos) }
    ensures sets { ByNative K.kind K.query_compared_at query.now (λ comparison.
        SetsOwn K.kind i64_kind buf.old pos comparison (Some (to_le_bytes w64 value))
        buf.new result) }
    ensures stands { IsTrue (stands (map_kind K.kind i64_kind 5) buf.new pos) }
{
    written(set::<K, ArchivedI64>(buf, pos, query, value.cast_signed()))
}

/// Overwrites a value of the map at `pos`, with values of a type.
fn set_with<K: Shown>(
    value_type: ItemType,
    buf: &mut [u8],
    pos: u32,
    query: &Query<'_>,
    value: u64,
) -> u32
    requires { IsTrue (stands (map_kind K.kind (kind_at value_type) 5) buf.old pos) }
    ensures sets { ByNative K.kind K.query_compared_at query.now (λ comparison.
        SetsOwn K.kind (kind_at value_type) buf.old pos comparison (own_of value_type value)
        buf.new result) }
    ensures stands { IsTrue (stands (map_kind K.kind (kind_at value_type) 5) buf.new pos) }
{
    match value_type {
        ItemType::U32 => set_narrow::<K>(buf, pos, query, value),
        ItemType::U64 => set_wide::<K>(buf, pos, query, value),
        ItemType::I64 => set_signed::<K>(buf, pos, query, value),
        ItemType::Text | ItemType::Bytes | ItemType::Empty => BAD_VALUE,
    }
}

/// Overwrites a value of the map of a type.
fn set_at(map_type: MapType, buf: &mut [u8], pos: u32, query: &Query<'_>, value: u64) -> u32
    requires { IsTrue (stands (kind_of map_type) buf.old pos) }
    ensures sets { SetsValue map_type buf.old pos (comparison_with map_type query.now) value
        buf.new result }
    ensures stands { IsTrue (stands (kind_of map_type) buf.new pos) }
{
    at_type!(
        map_type.key,
        set_with(map_type.value, buf, pos, query, value)
    )
}

/// Overwrites a value of an open map.
fn set_value(edit: &mut BtreeEdit<'_>, query: &Query<'_>, value: u64) -> u32
    ensures sets { IfType edit.old.map_type (λ t.
        SetsValue t edit.old.buf.now edit.old.pos (comparison_with t query.now) value
        edit.new.buf.now result) }
    ensures closed { type_of edit.old.map_type ≡ None →
        (result ≡ 16) × (edit.new.buf.now ≡ edit.old.buf.now) }
{
    let Some(map_type) = MapType::from_number(edit.map_type) else {
        return NOT_OPEN;
    };
    let pos = edit.pos;
    set_at(map_type, &mut *edit.buf, pos, query, value)
}

/// Overwrites the value of the entry that a search for a number finds in an open map.
#[unsafe(no_mangle)]
pub extern "C" fn rkyv_btree_set_number(edit: &mut BtreeEdit<'_>, key: u64, value: u64) -> u32
    ensures sets { IfType edit.old.map_type (λ t.
        SetsValue t edit.old.buf.now edit.old.pos (by_number t key) value edit.new.buf.now
        result) }
    ensures closed { type_of edit.old.map_type ≡ None →
        (result ≡ 16) × (edit.new.buf.now ≡ edit.old.buf.now) }
{
    set_value(edit, &Query::Number(key), value)
}

/// Overwrites the value of the entry that a search for a text finds in an open map.
#[unsafe(no_mangle)]
pub extern "C" fn rkyv_btree_set_text(edit: &mut BtreeEdit<'_>, key: &[u8], value: u64) -> u32
    ensures sets { IfType edit.old.map_type (λ t.
        SetsValue t edit.old.buf.now edit.old.pos (by_text t key.now) value edit.new.buf.now
        result) }
    ensures closed { type_of edit.old.map_type ≡ None →
        (result ≡ 16) × (edit.new.buf.now ≡ edit.old.buf.now) }
{
    set_value(edit, &Query::Text(key), value)
}
