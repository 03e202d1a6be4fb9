//! Maps that C opens.
ghost use Rattle.std.specs.Prelude.{◌≡◌, ◌<◌, IsTrue, IfOk, None, length};
ghost use Rattle.rkyv_btree_format.specs.Layout.{are_fitting};
ghost use Rattle.rkyv_btree_verify.specs.Map.{map_kind};
ghost use Rattle.rkyv_btree_format.specs.Read.{read_map};
ghost use Rattle.rkyv_btree_portable.specs.Views.{stands};
ghost use Rattle.rkyv_btree_ffi.specs.Items.{kind_at};
ghost use Rattle.rkyv_btree_ffi.specs.MapTypes.{type_of, kind_of, entries_at, IfType};
ghost use Rattle.rkyv_btree_ffi.specs.Opening.{IsOpened, Opens, OpensAs, OpensStrict};
ghost use Rattle.rkyv_btree_ffi.specs.Opening.{OpensMap, OpensStrictMap};

use crate::at_type;
use crate::codes::{BAD_TYPE, BtreeRefusal, NOT_OPEN, OK, refusal_of};
use crate::handle::BtreeMap;
use crate::item::Shown;
use crate::map_type::{ItemType, MapType};
use crate::order::Order;
use rkyv_btree_convert::from_archive::open;
use rkyv_btree_portable::byte_string::ArchivedBytes;
use rkyv_btree_portable::check::CheckBytes;
use rkyv_btree_portable::numbers::{ArchivedU32, ArchivedU64};
use rkyv_btree_portable::refusal::Refusal;
use rkyv_btree_portable::signed::ArchivedI64;
use rkyv_btree_portable::text::ArchivedText;
use rkyv_btree_strict::strict::open_strict;
use rkyv_btree_types::map::ArchivedBTreeMap;
use rkyv_btree_view::compare::ViewOrd;
use rkyv_btree_view::view::View;
use std::marker::PhantomData;

/// Returns the position of the map of a whole archive.
fn opened<K: CheckBytes, V: CheckBytes>(bytes: &[u8]) -> Result<u32, Refusal>
    requires { IsTrue (are_fitting K.kind V.kind 5) }
    ensures { OpensMap K.kind V.kind bytes.now result }
{
    match open::<ArchivedBTreeMap<K, V, 5>>(bytes) {
        Ok(map) => Ok(map.pos),
        Err(refusal) => Err(refusal),
    }
}

/// Returns the position of the map of a whole archive, if its keys increase.
fn opened_strict<K: CheckBytes + ViewOrd, V: CheckBytes>(bytes: &[u8]) -> Result<u32, Refusal>
    requires { IsTrue (are_fitting K.kind V.kind 5) }
    ensures { OpensStrictMap K.kind V.kind bytes.now result }
{
    match open_strict::<ArchivedBTreeMap<K, V, 5>>(bytes) {
        Ok(map) => Ok(map.view.pos),
        Err(refusal) => Err(refusal),
    }
}

/// Returns the position of the map of a whole archive, with values of a type.
fn opened_with<K: Shown>(value_type: ItemType, bytes: &[u8]) -> Result<u32, Refusal>
    requires { IsTrue (are_fitting K.kind (kind_at value_type) 5) }
    ensures { OpensMap K.kind (kind_at value_type) bytes.now result }
{
    at_type!(value_type, opened::<K>(bytes))
}

/// Returns the position of the map of a whole archive, with values of a type, if its keys increase.
fn opened_strict_with<K: Shown>(value_type: ItemType, bytes: &[u8]) -> Result<u32, Refusal>
    requires { IsTrue (are_fitting K.kind (kind_at value_type) 5) }
    ensures { OpensStrictMap K.kind (kind_at value_type) bytes.now result }
{
    at_type!(value_type, opened_strict::<K>(bytes))
}

/// Returns the position of the map of a type of a whole archive.
pub(crate) fn opened_at(map_type: MapType, bytes: &[u8]) -> Result<u32, Refusal>
    ensures { Opens map_type bytes.now result }
{
    at_type!(map_type.key, opened_with(map_type.value, bytes))
}

/// Returns the position of the map of a type of a whole archive, if its keys increase.
fn opened_strict_at(map_type: MapType, bytes: &[u8]) -> Result<u32, Refusal>
    ensures { OpensStrict map_type bytes.now result }
{
    at_type!(map_type.key, opened_strict_with(map_type.value, bytes))
}

/// Returns the position of the map of a type of a whole archive, if its keys are in an order.
fn opened_as(map_type: MapType, order: Order, bytes: &[u8]) -> Result<u32, Refusal>
    ensures opens { OpensAs map_type bytes.now order result }
    ensures stands { IfOk result (λ pos. IsTrue (stands (kind_of map_type) bytes.now pos)) }
{
    match order {
        Order::Any => opened_at(map_type, bytes),
        Order::Increasing => opened_strict_at(map_type, bytes),
    }
}

/// Opens the map of a whole archive, if its keys are in an order. After a refusal the map is closed.
fn open_as<'a>(
    map: &mut BtreeMap<'a>,
    map_type: u32,
    order: Order,
    buf: &'a [u8],
    refusal: &mut BtreeRefusal,
) -> u32
    ensures opens { IfType map_type (λ t. (found : _) × OpensAs t buf.now order found
        × IsOpened t buf.now found map.new refusal.new result) }
    ensures no_type { type_of map_type ≡ None → (result ≡ 17) × (map.new.map_type ≡ 0) }
{
    *map = BtreeMap {
        buf: &[],
        pos: 0,
        map_type: 0,
    };
    let Some(at) = MapType::from_number(map_type) else {
        return BAD_TYPE;
    };
    match opened_as(at, order, buf) {
        Ok(pos) => {
            *map = BtreeMap { buf, pos, map_type };
            OK
        }
        Err(why) => {
            *refusal = refusal_of(why);
            refusal.code
        }
    }
}

/// Opens the map of a whole archive. After a refusal the map is closed.
#[unsafe(no_mangle)]
pub extern "C" fn rkyv_btree_open<'a>(
    map: &mut BtreeMap<'a>,
    map_type: u32,
    buf: &'a [u8],
    refusal: &mut BtreeRefusal,
) -> u32
    ensures opens { IfType map_type (λ t. (found : _) × Opens t buf.now found
        × IsOpened t buf.now found map.new refusal.new result) }
    ensures no_type { type_of map_type ≡ None → (result ≡ 17) × (map.new.map_type ≡ 0) }
{
    open_as(map, map_type, Order::Any, buf, refusal)
}

/// Opens the map of a whole archive, if its keys increase. After a refusal the map is closed.
#[unsafe(no_mangle)]
pub extern "C" fn rkyv_btree_open_strict<'a>(
    map: &mut BtreeMap<'a>,
    map_type: u32,
    buf: &'a [u8],
    refusal: &mut BtreeRefusal,
) -> u32
    ensures opens { IfType map_type (λ t. (found : _) × OpensStrict t buf.now found
        × IsOpened t buf.now found map.new refusal.new result) }
    ensures no_type { type_of map_type ≡ None → (result ≡ 17) × (map.new.map_type ≡ 0) }
{
    open_as(map, map_type, Order::Increasing, buf, refusal)
}

/// Returns the number of entries of the map at `pos`.
fn count<K: CheckBytes, V: CheckBytes>(buf: &[u8], pos: u32) -> u32
    requires { IsTrue (stands (map_kind K.kind V.kind 5) buf.now pos) }
    ensures { result ≡ length (read_map K.kind V.kind 5 buf.now pos) }
{
    let map: View<'_, ArchivedBTreeMap<K, V, 5>> = View {
        buf,
        pos,
        of: PhantomData,
    };
    map.len() as u32
}

/// Returns the number of entries of the map at `pos`, with values of a type.
fn count_with<K: Shown>(value_type: ItemType, buf: &[u8], pos: u32) -> u32
    requires { IsTrue (stands (map_kind K.kind (kind_at value_type) 5) buf.now pos) }
    ensures { result ≡ length (read_map K.kind (kind_at value_type) 5 buf.now pos) }
{
    at_type!(value_type, count::<K>(buf, pos))
}

/// Returns the number of entries of the map of a type at `pos`.
fn count_at(map_type: MapType, buf: &[u8], pos: u32) -> u32
    requires { IsTrue (stands (kind_of map_type) buf.now pos) }
    ensures { result ≡ length (entries_at map_type buf.now pos) }
{
    at_type!(map_type.key, count_with(map_type.value, buf, pos))
}

/// Writes the number of entries of an open map.
#[unsafe(no_mangle)]
pub extern "C" fn rkyv_btree_len(map: &BtreeMap<'_>, len_out: &mut u32) -> u32
    ensures len { IfType map.now.map_type (λ t. (result ≡ 0)
        × (len_out.new ≡ length (entries_at t map.now.buf.now map.now.pos))) }
    ensures kept { 0 < result → len_out.new ≡ len_out.old }
    ensures closed { type_of map.now.map_type ≡ None → result ≡ 16 }
{
    let Some(map_type) = MapType::from_number(map.map_type) else {
        return NOT_OPEN;
    };
    *len_out = count_at(map_type, map.buf, map.pos);
    OK
}
