//! Lookups in bytes that nobody has validated. No map is opened, and no memory is allocated.
ghost use Rattle.std.specs.Prelude.{◌≡◌, ◌≢◌, ◌<◌, IsTrue, IfSome, Ok, None};
ghost use Rattle.rkyv_btree_format.specs.Layout.{are_fitting};
ghost use Rattle.rkyv_btree_verify.specs.Map.{map_kind};
ghost use Rattle.rkyv_btree_format.specs.OwnBytes.{IsArchiveOf, own_at};
ghost use Rattle.rkyv_btree_portable.specs.Refusing.{RefusesWhole};
ghost use Rattle.rkyv_btree_view.specs.Lookup.{ByNative};
ghost use Rattle.rkyv_btree_ffi.specs.Entries.{comparison_with, by_number, by_text, LooksUp};
ghost use Rattle.rkyv_btree_ffi.specs.Finding.{LookupReturns, IsFoundEntry, IsRefusal};
ghost use Rattle.rkyv_btree_ffi.specs.Finding.{ShowsLookup, ShowsLookupOf, ShowsViews};
ghost use Rattle.rkyv_btree_ffi.specs.Items.{kind_at, IsItemAt};
ghost use Rattle.rkyv_btree_ffi.specs.MapTypes.{type_of, kind_of, IfType};

use crate::at_type;
use crate::codes::{BAD_TYPE, BtreeRefusal, NOT_FOUND, OK, refusal_of};
use crate::item::{BtreeEntry, Shown};
use crate::map_type::{ItemType, MapType};
use crate::query::Query;
use rkyv_btree_portable::byte_string::ArchivedBytes;
use rkyv_btree_portable::numbers::{ArchivedU32, ArchivedU64};
use rkyv_btree_portable::refusal::Refusal;
use rkyv_btree_portable::signed::ArchivedI64;
use rkyv_btree_portable::text::ArchivedText;
use rkyv_btree_types::map::ArchivedBTreeMap;
use rkyv_btree_unverified::laws::{lookups_are_determined, maps_are_searched};
use rkyv_btree_unverified::unverified::Unverified;
use rkyv_btree_view::view::View;

/// Returns the entry of a view of a key and a view of a value as C has it.
fn entry_of_views<K: Shown, V: Shown>(
    views: Option<(View<'_, K>, View<'_, V>)>,
) -> Option<BtreeEntry>
    ensures { ShowsViews K.ShowsAt V.ShowsAt views.entry result }
{
    match views {
        None => None,
        Some((key, value)) => Some(BtreeEntry {
            key: K::item(&key),
            value: V::item(&value),
        }),
    }
}

/// Returns the entry that a lookup of the query finds in bytes that nobody has validated.
///
/// # Errors
///
/// The first fault in what the lookup reads.
fn lookup<K: Shown, V: Shown>(
    bytes: &[u8],
    query: &Query<'_>,
) -> Result<Option<BtreeEntry>, Refusal>
    requires { IsTrue (are_fitting K.kind V.kind 5) }
    ensures { ByNative K.kind K.query_compared_at query.now (λ comparison.
        ShowsLookup K.kind V.kind K.ShowsAt V.ShowsAt K.Refuses V.Refuses bytes.now
        (own_at (map_kind K.kind V.kind 5) bytes.now) comparison result) }
{
    lookups_are_determined::<K, V, 5>();
    maps_are_searched::<K, V, 5>();
    let map = match Unverified::<ArchivedBTreeMap<K, V, 5>>::open(bytes) {
        Err(refusal) => return Err(refusal),
        Ok(map) => map,
    };
    let compare = |query: &Query<'_>, key: View<K>| K::compare_query(query, &key);
    match map.get_key_value_with(query, compare) {
        Err(refusal) => Err(refusal),
        Ok(views) => Ok(entry_of_views::<K, V>(views)),
    }
}

/// Returns the entry that a lookup of the query finds in bytes that nobody has validated, as a map with values of a type.
///
/// # Errors
///
/// The first fault in what the lookup reads.
fn lookup_with<K: Shown>(
    value_type: ItemType,
    bytes: &[u8],
    query: &Query<'_>,
) -> Result<Option<BtreeEntry>, Refusal>
    requires { IsTrue (are_fitting K.kind (kind_at value_type) 5) }
    ensures { ByNative K.kind K.query_compared_at query.now (λ comparison.
        ShowsLookup K.kind (kind_at value_type) K.ShowsAt (IsItemAt value_type) K.Refuses
        (RefusesWhole (kind_at value_type)) bytes.now
        (own_at (map_kind K.kind (kind_at value_type) 5) bytes.now) comparison result) }
{
    at_type!(value_type, lookup::<K>(bytes, query))
}

/// Returns the entry that a lookup of the query finds in bytes that nobody has validated, as a map of a type.
///
/// # Errors
///
/// The first fault in what the lookup reads.
fn lookup_at(
    map_type: MapType,
    bytes: &[u8],
    query: &Query<'_>,
) -> Result<Option<BtreeEntry>, Refusal>
    ensures { ShowsLookupOf map_type bytes.now (comparison_with map_type query.now) result }
{
    at_type!(map_type.key, lookup_with(map_type.value, bytes, query))
}

/// Writes an entry if there is one, and returns the code.
fn write_found(found: Option<BtreeEntry>, entry: &mut BtreeEntry) -> u32
    ensures some { IfSome found (λ e. (result ≡ 0) × (entry.new ≡ e)) }
    ensures none { found ≡ None → (result ≡ 18) × (entry.new ≡ entry.old) }
{
    match found {
        None => NOT_FOUND,
        Some(found) => {
            *entry = found;
            OK
        }
    }
}

/// Writes the entry that a lookup of a query finds in bytes that nobody has validated, or the cause of a refusal.
fn find(
    map_type: u32,
    buf: &[u8],
    query: &Query<'_>,
    entry: &mut BtreeEntry,
    refusal: &mut BtreeRefusal,
) -> u32
    ensures found { IfType map_type (λ t. result ≡ 0 →
        IsFoundEntry t buf.now (comparison_with t query.now) entry.new) }
    ensures absent { IfType map_type (λ t. result ≡ 18 →
        LookupReturns t buf.now (comparison_with t query.now) (Ok None)) }
    ensures refused { IfType map_type (λ t. result ≢ 0 → result ≢ 18 →
        IsRefusal t buf.now (comparison_with t query.now) refusal.new result) }
    ensures as_open { IfType map_type (λ t. (m : _) → IsArchiveOf (kind_of t) buf.now m →
        LooksUp t buf.now (own_at (kind_of t) buf.now) (comparison_with t query.now)
        result entry.new) }
    ensures kept { 0 < result → entry.new ≡ entry.old }
    ensures no_type { type_of map_type ≡ None → result ≡ 17 }
{
    let Some(at) = MapType::from_number(map_type) else {
        return BAD_TYPE;
    };
    match lookup_at(at, buf, query) {
        Err(why) => {
            *refusal = refusal_of(why);
            refusal.code
        }
        Ok(found) => write_found(found, entry),
    }
}

/// Writes the entry that a lookup of a number finds in bytes that nobody has validated, or the cause of a refusal.
#[unsafe(no_mangle)]
pub extern "C" fn rkyv_btree_find_number(
    map_type: u32,
    buf: &[u8],
    key: u64,
    entry: &mut BtreeEntry,
    refusal: &mut BtreeRefusal,
) -> u32
    // On all bytes what is found is valid and has an equal key, none is what a lookup returns, and an error is its error.
    ensures found { IfType map_type (λ t. result ≡ 0 →
        IsFoundEntry t buf.now (by_number t key) entry.new) }
    ensures absent { IfType map_type (λ t. result ≡ 18 →
        LookupReturns t buf.now (by_number t key) (Ok None)) }
    ensures refused { IfType map_type (λ t. result ≢ 0 → result ≢ 18 →
        IsRefusal t buf.now (by_number t key) refusal.new result) }
    // On an archive of a map the result is that of `rkyv_btree_get_number` after `rkyv_btree_open`.
    ensures as_open { IfType map_type (λ t. (m : _) → IsArchiveOf (kind_of t) buf.now m →
        LooksUp t buf.now (own_at (kind_of t) buf.now) (by_number t key) result entry.new) }
    ensures kept { 0 < result → entry.new ≡ entry.old }
    ensures no_type { type_of map_type ≡ None → result ≡ 17 }
{
    find(map_type, buf, &Query::Number(key), entry, refusal)
}

/// Writes the entry that a lookup of a text finds in bytes that nobody has validated, or the cause of a refusal.
#[unsafe(no_mangle)]
pub extern "C" fn rkyv_btree_find_text(
    map_type: u32,
    buf: &[u8],
    key: &[u8],
    entry: &mut BtreeEntry,
    refusal: &mut BtreeRefusal,
) -> u32
    // On all bytes what is found is valid and has an equal key, none is what a lookup returns, and an error is its error.
    ensures found { IfType map_type (λ t. result ≡ 0 →
        IsFoundEntry t buf.now (by_text t key.now) entry.new) }
    ensures absent { IfType map_type (λ t. result ≡ 18 →
        LookupReturns t buf.now (by_text t key.now) (Ok None)) }
    ensures refused { IfType map_type (λ t. result ≢ 0 → result ≢ 18 →
        IsRefusal t buf.now (by_text t key.now) refusal.new result) }
    // On an archive of a map the result is that of `rkyv_btree_get_text` after `rkyv_btree_open`.
    ensures as_open { IfType map_type (λ t. (m : _) → IsArchiveOf (kind_of t) buf.now m →
        LooksUp t buf.now (own_at (kind_of t) buf.now) (by_text t key.now) result entry.new) }
    ensures kept { 0 < result → entry.new ≡ entry.old }
    ensures no_type { type_of map_type ≡ None → result ≡ 17 }
{
    find(map_type, buf, &Query::Text(key), entry, refusal)
}
