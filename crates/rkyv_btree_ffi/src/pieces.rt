//! Lookups in an archive of which some pieces are in memory. No map is opened, and no memory is allocated.
ghost use Rattle.std.specs.Prelude.{◌≡◌, ◌<◌, ◌↔◌, ℕ, List, IfSome, IsTrue, Ok, None, length};
ghost use Rattle.rkyv_btree_format.specs.Layout.{are_fitting};
ghost use Rattle.rkyv_btree_source.specs.Known.{AreOf, pieces as held};
ghost use Rattle.rkyv_btree_portable.specs.Refusing.{RefusesWhole};
ghost use Rattle.rkyv_btree_view.specs.Lookup.{ByNative};
ghost use Rattle.rkyv_btree_ffi.specs.Entries.{by_number, by_text};
ghost use Rattle.rkyv_btree_ffi.specs.Finding.{LookupReturns, IsRefusal};
ghost use Rattle.rkyv_btree_ffi.specs.Items.{kind_at, IsItemAt};
ghost use Rattle.rkyv_btree_ffi.specs.MapTypes.{type_of, IfType};
ghost use Rattle.rkyv_btree_ffi.specs.Pieces.{cause_for, IsFoundValue, IsLack, IsMissingPart, IsNumberKey, IsTextKey, PutsValue, Steps, StepsOf};

use crate::at_type;
use crate::codes::{BAD_ITEM, BAD_TYPE, BtreeRefusal, MISSING, NO_ROOM, NOT_FOUND, OK, refusal_of};
use crate::item::{BtreeItem, Shown};
use crate::map_type::{ItemType, MapType};
use crate::reading::item_at;
use rkyv_btree_portable::byte_string::ArchivedBytes;
use rkyv_btree_portable::numbers::{ArchivedU32, ArchivedU64};
use rkyv_btree_portable::refusal::Refusal;
use rkyv_btree_portable::signed::ArchivedI64;
use rkyv_btree_portable::text::ArchivedText;
use rkyv_btree_source::fault::SourceFault;
use rkyv_btree_source::fetch::Fetch;
use rkyv_btree_source::piece::{Missing, Piece};
use rkyv_btree_source::pieces::Pieces;
use rkyv_btree_source::reader::Reader;
use rkyv_btree_source::tree::search;
use rkyv_btree_types::map::ArchivedBTreeMap;
use rkyv_btree_unverified::node::inner_size;
use rkyv_btree_view::compare_native::CompareWith;
use std::str::from_utf8;

/// What a lookup in pieces returns: the value of the key, or why it isn't known.
type Stepped = Result<Option<BtreeItem>, SourceFault<Missing>>;

/// Returns the value that a lookup of a native key finds in an archive of which some pieces are in memory. A text is in `buffer`.
///
/// # Errors
///
/// The first fault in what the lookup reads; or the first part that no piece has; or `NoRoom` if the buffer is too short.
fn step<T: Drop, K: Shown + Fetch + CompareWith<T>, V: Shown + Fetch>(
    source: Pieces<'_>,
    key: T,
    buffer: &mut [u8],
) -> Stepped
    requires { IsTrue (are_fitting K.kind V.kind 5) }
    ensures gives { (b : List ℕ) → AreOf (held source.entry.size source.entry.pieces.now source.entry.bytes.now) b →
        ByNative K.kind K.compared_at key (λ comparison.
        Steps K.kind V.kind V.ShowsAt K.Refuses V.Refuses b comparison buffer.new result) }
    ensures lacks { IsLack (held source.entry.size source.entry.pieces.now source.entry.bytes.now) (length buffer.old) result }
{
    let page_len = inner_size::<K, V, ArchivedBTreeMap<K, V, 5>>();
    if buffer.len() < page_len as usize {
        return Err(SourceFault::NoRoom {
            needed: u64::from(page_len),
        });
    }
    let room_len = (buffer.len() - page_len as usize).min(4294967295);
    let Ok(size) = u32::try_from(source.size) else {
        return Err(SourceFault::Refused(Refusal::TooLong));
    };
    let mut reader = Reader {
        source,
        left: 18446744073709551615,
    };
    let (room, page) = buffer.split_at_mut(room_len);
    match search::<Pieces<'_>, T, K, V, ArchivedBTreeMap<K, V, 5>>(
        size.saturating_sub(8),
        &key,
        &mut reader,
        room,
        page,
    ) {
        Err(SourceFault::Refused(refusal)) => Err(SourceFault::Refused(refusal)),
        Err(SourceFault::Read(missing)) => Err(SourceFault::Read(missing)),
        Err(SourceFault::NoRoom { needed }) => Err(SourceFault::NoRoom {
            needed: needed.saturating_add(u64::from(page_len)),
        }),
        Err(SourceFault::OverBudget) => Err(SourceFault::OverBudget),
        Ok(None) => Ok(None),
        Ok(Some(hit)) => Ok(Some(item_at::<V>(room, hit.value))),
    }
}

/// Returns the value that a lookup of a native key finds in the pieces of an archive of a map with values of a type.
///
/// # Errors
///
/// As of `step`.
fn step_with<T: Drop, K: Shown + Fetch + CompareWith<T>>(
    value_type: ItemType,
    source: Pieces<'_>,
    key: T,
    buffer: &mut [u8],
) -> Stepped
    requires { IsTrue (are_fitting K.kind (kind_at value_type) 5) }
    ensures gives { (b : List ℕ) → AreOf (held source.entry.size source.entry.pieces.now source.entry.bytes.now) b →
        ByNative K.kind K.compared_at key (λ comparison.
        Steps K.kind (kind_at value_type) (IsItemAt value_type) K.Refuses
        (RefusesWhole (kind_at value_type)) b comparison buffer.new result) }
    ensures lacks { IsLack (held source.entry.size source.entry.pieces.now source.entry.bytes.now) (length buffer.old) result }
{
    at_type!(value_type, step::<T, K>(source, key, buffer))
}

/// Looks a number up in the pieces of an archive of a map of a type, or returns `None` if it is no key of the type.
fn step_number(
    map_type: MapType,
    source: Pieces<'_>,
    key: u64,
    buffer: &mut [u8],
) -> Option<Stepped>
    ensures key { IfSome result (λ _. IsNumberKey map_type.key key) }
    ensures gives { IfSome result (λ found. (b : List ℕ) → AreOf (held source.entry.size source.entry.pieces.now source.entry.bytes.now) b →
        StepsOf map_type b (by_number map_type key) buffer.new found) }
    ensures lacks { IfSome result (IsLack (held source.entry.size source.entry.pieces.now source.entry.bytes.now) (length buffer.old)) }
    ensures none { result ≡ None → IsNumberKey map_type.key key → ⊥ }
{
    let value = map_type.value;
    match (map_type.key, u32::try_from(key)) {
        (ItemType::U32, Ok(key)) => Some(step_with::<u32, ArchivedU32>(value, source, key, buffer)),
        (ItemType::U64, _) => Some(step_with::<u64, ArchivedU64>(value, source, key, buffer)),
        (ItemType::I64, _) => Some(step_with::<i64, ArchivedI64>(
            value,
            source,
            key.cast_signed(),
            buffer,
        )),
        _ => None,
    }
}

/// Looks a text up in the pieces of an archive of a map of a type, or returns `None` if it is no key of the type.
fn step_text(
    map_type: MapType,
    source: Pieces<'_>,
    key: &[u8],
    buffer: &mut [u8],
) -> Option<Stepped>
    ensures key { IfSome result (λ _. IsTextKey map_type.key key.now) }
    ensures gives { IfSome result (λ found. (b : List ℕ) → AreOf (held source.entry.size source.entry.pieces.now source.entry.bytes.now) b →
        StepsOf map_type b (by_text map_type key.now) buffer.new found) }
    ensures lacks { IfSome result (IsLack (held source.entry.size source.entry.pieces.now source.entry.bytes.now) (length buffer.old)) }
    ensures none { result ≡ None → IsTextKey map_type.key key.now → ⊥ }
{
    match (map_type.key, from_utf8(key)) {
        (ItemType::Text, Ok(key)) => Some(step_with::<&str, ArchivedText>(
            map_type.value,
            source,
            key,
            buffer,
        )),
        (ItemType::Bytes, _) => Some(step_with::<&[u8], ArchivedBytes>(
            map_type.value,
            source,
            key,
            buffer,
        )),
        _ => None,
    }
}

/// Returns the cause of a fault as C has it.
fn cause_of(fault: SourceFault<Missing>) -> BtreeRefusal
    ensures { result ≡ cause_for fault }
{
    let (code, at, found) = match fault {
        SourceFault::Refused(refusal) => return refusal_of(refusal),
        SourceFault::Read(part) => (MISSING, i64::from(part.pos), part.len),
        SourceFault::NoRoom { needed } => (NO_ROOM, 0, needed),
        SourceFault::OverBudget => (NO_ROOM, 0, 0),
    };
    BtreeRefusal {
        code,
        at,
        found,
        allowed: 0,
    }
}

/// Writes what a lookup in pieces found, or why there is nothing. Returns the code.
fn put(stepped: Option<Stepped>, value: &mut BtreeItem, refusal: &mut BtreeRefusal) -> u32
    ensures { PutsValue stepped value.old value.new refusal.old refusal.new result }
{
    let Some(stepped) = stepped else {
        return BAD_ITEM;
    };
    match stepped {
        Err(fault) => {
            *refusal = cause_of(fault);
            refusal.code
        }
        Ok(None) => NOT_FOUND,
        Ok(Some(found)) => {
            *value = found;
            OK
        }
    }
}

/// Writes the value that a lookup of a number finds in the pieces of an archive, or why there is none. A text is in `buffer`.
#[unsafe(no_mangle)]
pub extern "C" fn rkyv_btree_find_number_in(
    map_type: u32,
    size: u64,
    pieces: &[Piece],
    buf: &[u8],
    key: u64,
    buffer: &mut [u8],
    value: &mut BtreeItem,
    refusal: &mut BtreeRefusal,
) -> u32
    // Of whatever bytes these are the pieces, that is what a lookup in them returns.
    ensures found { IfType map_type (λ t. (b : List ℕ) → AreOf (held size pieces.now buf.now) b →
        result ≡ 0 → IsFoundValue t b (by_number t key) buffer.new value.new) }
    ensures absent { IfType map_type (λ t. (b : List ℕ) → AreOf (held size pieces.now buf.now) b →
        result ≡ 18 → LookupReturns t b (by_number t key) (Ok None)) }
    ensures refused { IfType map_type (λ t. (b : List ℕ) → AreOf (held size pieces.now buf.now) b →
        0 < result → result < 10 → IsRefusal t b (by_number t key) refusal.new result) }
    ensures missing { result ≡ 21 → IsMissingPart (held size pieces.now buf.now) refusal.new }
    ensures room { result ≡ 38 → length buffer.old < refusal.new.found }
    ensures bad_key { IfType map_type (λ t. (result ≡ 36) ↔ (IsNumberKey t.key key → ⊥)) }
    ensures kept { 0 < result → value.new ≡ value.old }
    ensures no_type { type_of map_type ≡ None → result ≡ 17 }
{
    let Some(at) = MapType::from_number(map_type) else {
        return BAD_TYPE;
    };
    let source = Pieces {
        size,
        pieces,
        bytes: buf,
    };
    put(step_number(at, source, key, buffer), value, refusal)
}

/// Writes the value that a lookup of a text finds in the pieces of an archive, or why there is none. A text is in `buffer`.
#[unsafe(no_mangle)]
pub extern "C" fn rkyv_btree_find_text_in(
    map_type: u32,
    size: u64,
    pieces: &[Piece],
    buf: &[u8],
    key: &[u8],
    buffer: &mut [u8],
    value: &mut BtreeItem,
    refusal: &mut BtreeRefusal,
) -> u32
    // Of whatever bytes these are the pieces, that is what a lookup in them returns.
    ensures found { IfType map_type (λ t. (b : List ℕ) → AreOf (held size pieces.now buf.now) b →
        result ≡ 0 → IsFoundValue t b (by_text t key.now) buffer.new value.new) }
    ensures absent { IfType map_type (λ t. (b : List ℕ) → AreOf (held size pieces.now buf.now) b →
        result ≡ 18 → LookupReturns t b (by_text t key.now) (Ok None)) }
    ensures refused { IfType map_type (λ t. (b : List ℕ) → AreOf (held size pieces.now buf.now) b →
        0 < result → result < 10 → IsRefusal t b (by_text t key.now) refusal.new result) }
    ensures missing { result ≡ 21 → IsMissingPart (held size pieces.now buf.now) refusal.new }
    ensures room { result ≡ 38 → length buffer.old < refusal.new.found }
    ensures bad_key { IfType map_type (λ t. (result ≡ 36) ↔ (IsTextKey t.key key.now → ⊥)) }
    ensures kept { 0 < result → value.new ≡ value.old }
    ensures no_type { type_of map_type ≡ None → result ≡ 17 }
{
    let Some(at) = MapType::from_number(map_type) else {
        return BAD_TYPE;
    };
    let source = Pieces {
        size,
        pieces,
        bytes: buf,
    };
    put(step_text(at, source, key, buffer), value, refusal)
}
