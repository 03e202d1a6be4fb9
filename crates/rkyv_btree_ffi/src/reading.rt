//! Lookups and iteration of open maps.
ghost use Rattle.std.specs.Prelude.{◌≡◌, ℕ, ◌+◌, ◌≤◌, ◌<◌, List, [], IsTrue, IfSome, IsSome, None, Some, length, take};
ghost use Rattle.std.specs.Option.{option_map};
ghost use Rattle.rkyv_btree_verify.specs.Map.{map_kind};
ghost use Rattle.rkyv_btree_format.specs.Read.{entry_at};
ghost use Rattle.rkyv_btree_portable.specs.Views.{stands};
ghost use Rattle.rkyv_btree_view.specs.Lookup.{ByNative};
ghost use Rattle.rkyv_btree_seal.specs.Put.{key_place, value_place};
ghost use Rattle.rkyv_btree_walk.specs.mirror.Node.{RunStands};
ghost use Rattle.rkyv_btree_walk.specs.Bounds.{IsRun, IsWithin};
ghost use Rattle.rkyv_btree_format.specs.Read.{read_map};
ghost use Rattle.std.specs.Prelude.{◌⊎◌};
ghost use Rattle.std.specs.declared.ops.Bound.TheVariants.{Included, Unbounded};
ghost use Rattle.rkyv_btree_ffi.specs.Batches.{AreShown, IsFoundAt};
ghost use Rattle.rkyv_btree_ffi.specs.Entries.{comparison_with, by_number, by_text, FindsEntry, LooksUp, IsBatch, IsFrom};
ghost use Rattle.rkyv_btree_ffi.specs.Items.{kind_at, IsItemAt};
ghost use Rattle.rkyv_btree_ffi.specs.MapTypes.{type_of, kind_of, entries_at, IfType};
ghost use Rattle.rkyv_btree_ffi.specs.CursorEntries.{cursor_places, cursor_entries, entries_left};
ghost use Rattle.rkyv_btree_ffi.specs.CursorPlaces.{IsGood, IsPlace};
ghost use Rattle.rkyv_btree_walk.specs.WalkBetween.{range_left, IsRangeWalk};
ghost use Rattle.rkyv_btree_format.specs.Layout.{layout_of};

use crate::at_type;
use crate::codes::{BAD_CURSOR, NOT_FOUND, NOT_OPEN, OK};
use crate::cursor::{BtreeCursor, kept, walk_of};
use crate::handle::BtreeMap;
use crate::item::{BtreeEntry, BtreeItem, Shown};
use crate::map_type::{ItemType, MapType};
use crate::query::Query;
use rkyv_btree_portable::byte_string::ArchivedBytes;
use rkyv_btree_portable::check::Portable;
use rkyv_btree_portable::numbers::{ArchivedU32, ArchivedU64};
use rkyv_btree_portable::signed::ArchivedI64;
use rkyv_btree_portable::text::ArchivedText;
use rkyv_btree_types::map::ArchivedBTreeMap;
use rkyv_btree_view::view::View;
use rkyv_btree_walk::archived_map::ArchivedMap;
use rkyv_btree_walk::node::{key_pos, value_pos};
use rkyv_btree_walk::range_walk::{RangeWalk, start_between, step_before};
use rkyv_btree_walk::search::{Compared, search};
use std::marker::PhantomData;
use std::ops::Bound;

/// Returns the value at `pos` as C has it.
pub(crate) fn item_at<T: Shown>(buf: &[u8], pos: u32) -> BtreeItem
    requires { IsTrue (stands T.kind buf.now pos) }
    ensures { T.ShowsAt buf.now pos result }
{
    let view: View<'_, T> = View {
        buf,
        pos,
        of: PhantomData,
    };
    T::item(&view)
}

/// Returns an entry of the map at `pos` as C has it, by its node and number.
fn entry_of<K: Shown, V: Shown>(buf: &[u8], pos: u32, place: (u32, usize)) -> BtreeEntry
    requires stands { IsTrue (stands (map_kind K.kind V.kind 5) buf.now pos) }
    requires entry { RunStands K.kind V.kind 5 buf.now place.0 place.1 (place.1 + 1) }
    ensures key { K.ShowsAt buf.now (key_place K.kind V.kind 5 place) result.key }
    ensures value { V.ShowsAt buf.now (value_place K.kind V.kind 5 place) result.value }
{
    let (node, index) = place;
    let key = key_pos::<K, V, ArchivedBTreeMap<K, V, 5>>(node, index);
    let value = value_pos::<K, V, ArchivedBTreeMap<K, V, 5>>(node, index);
    BtreeEntry {
        key: item_at::<K>(buf, key),
        value: item_at::<V>(buf, value),
    }
}

/// Returns the entry that a search for the query finds in the map at `pos`.
pub(crate) fn found<K: Shown, V: Shown>(
    buf: &[u8],
    pos: u32,
    query: &Query<'_>,
) -> Option<BtreeEntry>
    requires { IsTrue (stands (map_kind K.kind V.kind 5) buf.now pos) }
    ensures { ByNative K.kind K.query_compared_at query.now (λ comparison.
        IsFoundAt K.kind V.kind K.ShowsAt V.ShowsAt buf.now pos comparison result) }
{
    let compare = |query: &Query<'_>, key: View<K>| Compared::of(K::compare_query(query, &key));
    let (found, _) = search::<_, K, V, ArchivedBTreeMap<K, V, 5>, _, _>(
        buf, pos, query, &compare, true,
    );
    match found {
        None => None,
        Some(place) => Some(entry_of::<K, V>(buf, pos, (place.0, place.1 as usize))),
    }
}

/// Writes the next entries of a walk, as many as there is room for, and returns how many.
pub(crate) fn fill<K: Shown, V: Shown>(
    buf: &[u8],
    pos: u32,
    walk: &mut RangeWalk,
    out: &mut [BtreeEntry],
) -> usize
    requires stands { IsTrue (stands (map_kind K.kind V.kind 5) buf.now pos) }
    requires walks { IsRangeWalk (layout_of K.kind V.kind 5) buf.now pos walk.old }
    ensures walks { IsRangeWalk (layout_of K.kind V.kind 5) buf.now pos walk.new }
    ensures room { result ≤ length out.old }
    ensures shown { AreShown K.kind V.kind K.ShowsAt V.ShowsAt buf.now
        (range_left (layout_of K.kind V.kind 5) buf.now walk.old) (take result out.new)
        (range_left (layout_of K.kind V.kind 5) buf.now walk.new) }
    ensures all { result < length out.old →
        range_left (layout_of K.kind V.kind 5) buf.now walk.new ≡ [] }
{
    let mut written = 0;
    'entries: while written < out.len() {
        match step_before::<K, V, ArchivedBTreeMap<K, V, 5>>(buf, pos, walk) {
            None => return written,
            Some(place) => {
                out[written] = entry_of::<K, V>(buf, pos, (place.node, place.index));
                written += 1;
            }
        }
    }
    written
}

/// Returns the entry that a search for the query finds in the map at `pos`, with values of a type.
fn found_with<K: Shown>(
    value_type: ItemType,
    buf: &[u8],
    pos: u32,
    query: &Query<'_>,
) -> Option<BtreeEntry>
    requires { IsTrue (stands (map_kind K.kind (kind_at value_type) 5) buf.now pos) }
    ensures { ByNative K.kind K.query_compared_at query.now (λ comparison.
        IsFoundAt K.kind (kind_at value_type) K.ShowsAt (IsItemAt value_type) buf.now pos
        comparison result) }
{
    at_type!(value_type, found::<K>(buf, pos, query))
}

/// Returns the entry that a search for the query finds in the map of a type at `pos`.
fn found_at(map_type: MapType, buf: &[u8], pos: u32, query: &Query<'_>) -> Option<BtreeEntry>
    requires { IsTrue (stands (kind_of map_type) buf.now pos) }
    ensures { FindsEntry map_type buf.now pos (comparison_with map_type query.now) result }
{
    at_type!(map_type.key, found_with(map_type.value, buf, pos, query))
}

/// Writes the entry that a search for a query finds in an open map.
fn get(map: &BtreeMap<'_>, query: &Query<'_>, entry: &mut BtreeEntry) -> u32
    ensures found { IfType map.now.map_type (λ t.
        LooksUp t map.now.buf.now map.now.pos (comparison_with t query.now) result entry.new) }
    ensures kept { 0 < result → entry.new ≡ entry.old }
    ensures closed { type_of map.now.map_type ≡ None → result ≡ 16 }
{
    let Some(map_type) = MapType::from_number(map.map_type) else {
        return NOT_OPEN;
    };
    match found_at(map_type, map.buf, map.pos, query) {
        None => NOT_FOUND,
        Some(found) => {
            *entry = found;
            OK
        }
    }
}

/// Writes the entry that a search for a number finds in an open map.
#[unsafe(no_mangle)]
pub extern "C" fn rkyv_btree_get_number(map: &BtreeMap<'_>, key: u64, entry: &mut BtreeEntry) -> u32
    ensures found { IfType map.now.map_type (λ t.
        LooksUp t map.now.buf.now map.now.pos (by_number t key) result entry.new) }
    ensures kept { 0 < result → entry.new ≡ entry.old }
    ensures closed { type_of map.now.map_type ≡ None → result ≡ 16 }
{
    get(map, &Query::Number(key), entry)
}

/// Writes the entry that a search for a text finds in an open map.
#[unsafe(no_mangle)]
pub extern "C" fn rkyv_btree_get_text(map: &BtreeMap<'_>, key: &[u8], entry: &mut BtreeEntry) -> u32
    ensures found { IfType map.now.map_type (λ t.
        LooksUp t map.now.buf.now map.now.pos (by_text t key.now) result entry.new) }
    ensures kept { 0 < result → entry.new ≡ entry.old }
    ensures closed { type_of map.now.map_type ≡ None → result ≡ 16 }
{
    get(map, &Query::Text(key), entry)
}

/// Returns the cursor before the first entry of the map at `pos`.
fn first<K: Shown, V: Shown>(buf: &[u8], pos: u32) -> BtreeCursor
    requires { IsTrue (stands (map_kind K.kind V.kind 5) buf.now pos) }
    ensures place { IsGood K.kind V.kind buf.now pos result }
    ensures all { cursor_entries K.kind V.kind buf.now result
        ≡ read_map K.kind V.kind 5 buf.now pos }
{
    let compare = |query: &Query<'_>, key: View<K>| K::compare_query(query, &key);
    let walk = start_between::<_, K, V, ArchivedBTreeMap<K, V, 5>, _, _>(
        buf,
        pos,
        Bound::Unbounded,
        Bound::Unbounded,
        &compare,
    );
    kept(&walk)
}

/// Returns the cursor before the first entry of the map at `pos` whose key isn't less than a query.
fn sought<K: Shown, V: Shown>(buf: &[u8], pos: u32, query: &Query<'_>) -> BtreeCursor
    requires { IsTrue (stands (map_kind K.kind V.kind 5) buf.now pos) }
    ensures place { IsGood K.kind V.kind buf.now pos result }
    ensures run { IsRun (cursor_entries K.kind V.kind buf.now result)
        (read_map K.kind V.kind 5 buf.now pos) }
    ensures within { ByNative K.kind K.query_compared_at query.now (λ comparison.
        IsWithin (Included comparison) Unbounded (read_map K.kind V.kind 5 buf.now pos)
        (cursor_entries K.kind V.kind buf.now result)) }
{
    let compare = |query: &Query<'_>, key: View<K>| K::compare_query(query, &key);
    let walk = start_between::<_, K, V, ArchivedBTreeMap<K, V, 5>, _, _>(
        buf,
        pos,
        Bound::Included(query),
        Bound::Unbounded,
        &compare,
    );
    kept(&walk)
}

/// Returns the cursor before the first entry of the map at `pos`, with values of a type.
fn first_with<K: Shown>(value_type: ItemType, buf: &[u8], pos: u32) -> BtreeCursor
    requires { IsTrue (stands (map_kind K.kind (kind_at value_type) 5) buf.now pos) }
    ensures place { IsGood K.kind (kind_at value_type) buf.now pos result }
    ensures all { cursor_entries K.kind (kind_at value_type) buf.now result
        ≡ read_map K.kind (kind_at value_type) 5 buf.now pos }
{
    at_type!(value_type, first::<K>(buf, pos))
}

/// Returns the cursor before the first entry of the map at `pos`, with values of a type, whose key isn't less than a query.
fn sought_with<K: Shown>(
    value_type: ItemType,
    buf: &[u8],
    pos: u32,
    query: &Query<'_>,
) -> BtreeCursor
    requires { IsTrue (stands (map_kind K.kind (kind_at value_type) 5) buf.now pos) }
    ensures place { IsGood K.kind (kind_at value_type) buf.now pos result }
    ensures run { IsRun (cursor_entries K.kind (kind_at value_type) buf.now result)
        (read_map K.kind (kind_at value_type) 5 buf.now pos) }
    ensures within { ByNative K.kind K.query_compared_at query.now (λ comparison.
        IsWithin (Included comparison) Unbounded
        (read_map K.kind (kind_at value_type) 5 buf.now pos)
        (cursor_entries K.kind (kind_at value_type) buf.now result)) }
{
    at_type!(value_type, sought::<K>(buf, pos, query))
}

/// Returns the cursor before the first entry of the map of a type at `pos`.
fn first_at(map_type: MapType, buf: &[u8], pos: u32) -> BtreeCursor
    requires { IsTrue (stands (kind_of map_type) buf.now pos) }
    ensures place { IsPlace map_type buf.now pos result }
    ensures all { entries_left map_type buf.now result ≡ entries_at map_type buf.now pos }
{
    at_type!(map_type.key, first_with(map_type.value, buf, pos))
}

/// Returns the cursor before the first entry of the map of a type at `pos` whose key isn't less than a query.
fn sought_at(map_type: MapType, buf: &[u8], pos: u32, query: &Query<'_>) -> BtreeCursor
    requires { IsTrue (stands (kind_of map_type) buf.now pos) }
    ensures place { IsPlace map_type buf.now pos result }
    ensures from { IsFrom map_type buf.now pos (comparison_with map_type query.now)
        (entries_left map_type buf.now result) }
{
    at_type!(map_type.key, sought_with(map_type.value, buf, pos, query))
}

/// Sets a cursor before the first entry of an open map.
#[unsafe(no_mangle)]
pub extern "C" fn rkyv_btree_first(map: &BtreeMap<'_>, cursor: &mut BtreeCursor) -> u32
    ensures place { IfType map.now.map_type (λ t.
        IsPlace t map.now.buf.now map.now.pos cursor.new) }
    ensures all { IfType map.now.map_type (λ t. (result ≡ 0)
        × (entries_left t map.now.buf.now cursor.new ≡ entries_at t map.now.buf.now map.now.pos)) }
    ensures kept { 0 < result → cursor.new ≡ cursor.old }
    ensures closed { type_of map.now.map_type ≡ None → result ≡ 16 }
{
    let Some(map_type) = MapType::from_number(map.map_type) else {
        return NOT_OPEN;
    };
    *cursor = first_at(map_type, map.buf, map.pos);
    OK
}

/// Sets a cursor before the first entry of an open map whose key isn't less than a query.
fn seek(map: &BtreeMap<'_>, query: &Query<'_>, cursor: &mut BtreeCursor) -> u32
    ensures place { IfType map.now.map_type (λ t.
        IsPlace t map.now.buf.now map.now.pos cursor.new) }
    ensures from { IfType map.now.map_type (λ t. (result ≡ 0)
        × IsFrom t map.now.buf.now map.now.pos (comparison_with t query.now)
        (entries_left t map.now.buf.now cursor.new)) }
    ensures kept { 0 < result → cursor.new ≡ cursor.old }
    ensures closed { type_of map.now.map_type ≡ None → result ≡ 16 }
{
    let Some(map_type) = MapType::from_number(map.map_type) else {
        return NOT_OPEN;
    };
    *cursor = sought_at(map_type, map.buf, map.pos, query);
    OK
}

/// Sets a cursor before the first entry of an open map whose key isn't less than a number.
#[unsafe(no_mangle)]
pub extern "C" fn rkyv_btree_seek_number(
    map: &BtreeMap<'_>,
    key: u64,
    cursor: &mut BtreeCursor,
) -> u32
    ensures place { IfType map.now.map_type (λ t.
        IsPlace t map.now.buf.now map.now.pos cursor.new) }
    ensures from { IfType map.now.map_type (λ t. (result ≡ 0)
        × IsFrom t map.now.buf.now map.now.pos (by_number t key)
        (entries_left t map.now.buf.now cursor.new)) }
    ensures kept { 0 < result → cursor.new ≡ cursor.old }
    ensures closed { type_of map.now.map_type ≡ None → result ≡ 16 }
{
    seek(map, &Query::Number(key), cursor)
}

/// Sets a cursor before the first entry of an open map whose key isn't less than a text.
#[unsafe(no_mangle)]
pub extern "C" fn rkyv_btree_seek_text(
    map: &BtreeMap<'_>,
    key: &[u8],
    cursor: &mut BtreeCursor,
) -> u32
    ensures place { IfType map.now.map_type (λ t.
        IsPlace t map.now.buf.now map.now.pos cursor.new) }
    ensures from { IfType map.now.map_type (λ t. (result ≡ 0)
        × IsFrom t map.now.buf.now map.now.pos (by_text t key.now)
        (entries_left t map.now.buf.now cursor.new)) }
    ensures kept { 0 < result → cursor.new ≡ cursor.old }
    ensures closed { type_of map.now.map_type ≡ None → result ≡ 16 }
{
    seek(map, &Query::Text(key), cursor)
}

/// Writes the next entries of a cursor of the map at `pos`, and returns how many, or `None` if its numbers are no place.
fn batch<K: Shown, V: Shown>(
    buf: &[u8],
    pos: u32,
    cursor: &mut BtreeCursor,
    out: &mut [BtreeEntry],
) -> Option<usize>
    requires { IsTrue (stands (map_kind K.kind V.kind 5) buf.now pos) }
    ensures room { IfSome result (λ written. written ≤ length out.new) }
    ensures shown { IfSome result (λ written.
        AreShown K.kind V.kind K.ShowsAt V.ShowsAt buf.now
        (cursor_places K.kind V.kind buf.now cursor.old) (take written out.new)
        (cursor_places K.kind V.kind buf.now cursor.new)) }
    ensures last { IfSome result (λ written. written < length out.new →
        cursor_places K.kind V.kind buf.now cursor.new ≡ []) }
    ensures place { IfSome result (λ _. IsGood K.kind V.kind buf.now pos cursor.old
        × IsGood K.kind V.kind buf.now pos cursor.new) }
    ensures none { result ≡ None → (IsGood K.kind V.kind buf.now pos cursor.old → ⊥)
        × (cursor.new ≡ cursor.old) × (out.new ≡ out.old) }
{
    let mut walk = walk_of::<K, V>(buf, pos, cursor)?;
    let written = fill::<K, V>(buf, pos, &mut walk, out);
    *cursor = kept(&walk);
    Some(written)
}

/// Writes the next entries of a cursor of the map at `pos`, with values of a type.
fn batch_with<K: Shown>(
    value_type: ItemType,
    buf: &[u8],
    pos: u32,
    cursor: &mut BtreeCursor,
    out: &mut [BtreeEntry],
) -> Option<usize>
    requires { IsTrue (stands (map_kind K.kind (kind_at value_type) 5) buf.now pos) }
    ensures room { IfSome result (λ written. written ≤ length out.new) }
    ensures shown { IfSome result (λ written.
        AreShown K.kind (kind_at value_type) K.ShowsAt (IsItemAt value_type) buf.now
        (cursor_places K.kind (kind_at value_type) buf.now cursor.old) (take written out.new)
        (cursor_places K.kind (kind_at value_type) buf.now cursor.new)) }
    ensures last { IfSome result (λ written. written < length out.new →
        cursor_places K.kind (kind_at value_type) buf.now cursor.new ≡ []) }
    ensures place { IfSome result (λ _. IsGood K.kind (kind_at value_type) buf.now pos cursor.old
        × IsGood K.kind (kind_at value_type) buf.now pos cursor.new) }
    ensures none { result ≡ None →
        (IsGood K.kind (kind_at value_type) buf.now pos cursor.old → ⊥)
        × (cursor.new ≡ cursor.old) × (out.new ≡ out.old) }
{
    at_type!(value_type, batch::<K>(buf, pos, cursor, out))
}

/// Writes the next entries of a cursor of the map of a type at `pos`.
fn batch_at(
    map_type: MapType,
    buf: &[u8],
    pos: u32,
    cursor: &mut BtreeCursor,
    out: &mut [BtreeEntry],
) -> Option<usize>
    requires { IsTrue (stands (kind_of map_type) buf.now pos) }
    ensures batch { IfSome result (IsBatch map_type buf.now
        (entries_left map_type buf.now cursor.old)
        (entries_left map_type buf.now cursor.new) out.new) }
    ensures place { IfSome result (λ _. IsPlace map_type buf.now pos cursor.old
        × IsPlace map_type buf.now pos cursor.new) }
    ensures none { result ≡ None → (IsPlace map_type buf.now pos cursor.old → ⊥)
        × (cursor.new ≡ cursor.old) × (out.new ≡ out.old) }
{
    at_type!(
        map_type.key,
        batch_with(map_type.value, buf, pos, cursor, out)
    )
}

/// Writes the next entries of a cursor of an open map, as many as there is room for, and their number.
#[unsafe(no_mangle)]
pub extern "C" fn rkyv_btree_next(
    map: &BtreeMap<'_>,
    cursor: &mut BtreeCursor,
    entries: &mut [BtreeEntry],
    written_out: &mut usize,
) -> u32
    ensures batch { IfType map.now.map_type (λ t. result ≡ 0 →
        IsBatch t map.now.buf.now (entries_left t map.now.buf.now cursor.old)
        (entries_left t map.now.buf.now cursor.new) entries.new written_out.new) }
    ensures place { IfType map.now.map_type (λ t. result ≡ 0 →
        IsPlace t map.now.buf.now map.now.pos cursor.new) }
    ensures accepted { IfType map.now.map_type (λ t.
        IsPlace t map.now.buf.now map.now.pos cursor.old → result ≡ 0) }
    ensures bad { IfType map.now.map_type (λ t.
        (IsPlace t map.now.buf.now map.now.pos cursor.old → ⊥) → result ≡ 19) }
    ensures kept { 0 < result → (cursor.new ≡ cursor.old) × (entries.new ≡ entries.old)
        × (written_out.new ≡ written_out.old) }
    ensures closed { type_of map.now.map_type ≡ None → result ≡ 16 }
{
    let Some(map_type) = MapType::from_number(map.map_type) else {
        return NOT_OPEN;
    };
    match batch_at(map_type, map.buf, map.pos, cursor, entries) {
        None => BAD_CURSOR,
        Some(written) => {
            *written_out = written;
            OK
        }
    }
}
