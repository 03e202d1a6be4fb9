//! Archives of entries that C has.
ghost use Rattle.std.specs.Prelude.{◌≡◌, ◌≢◌, ◌≤◌, ◌<◌, IsTrue, IfOk, IfErr, OnOk, None, length};
ghost use Rattle.std.specs.Iterator.{YieldsFirstBy, item_count};
ghost use Rattle.std.specs.List.{range_with_len};
ghost use Rattle.rkyv_btree_format.specs.Increasing.{Increasing as AreIncreasing};
ghost use Rattle.rkyv_btree_writing_laws.specs.Kept.{OnlyAppended};
ghost use Rattle.rkyv_btree_format.specs.Layout.{are_fitting, layout_of};
ghost use Rattle.rkyv_btree_writing_laws.specs.Serialising.{Built};
ghost use Rattle.rkyv_btree_writing_laws.specs.SmallestMaps.{IsArchive};
ghost use Rattle.rkyv_btree_writing_laws.specs.TreeArchival.{tree_archival};
ghost use Rattle.rkyv_btree_writer.specs.Archiving.{Serialises};
ghost use Rattle.rkyv_btree_writing_laws.specs.Whole.{fresh};
ghost use Rattle.rkyv_btree_ffi.specs.Building.{Archives, ArchivesColumns, Puts};
ghost use Rattle.rkyv_btree_ffi.specs.Building.{cause_of as cause_for, code_of as code_for, index_of as index_for};
ghost use Rattle.rkyv_btree_ffi.specs.Columns.{IsCell, IsNativeCell};
ghost use Rattle.rkyv_btree_ffi.specs.Items.{archival_of, kind_at, IsNative, IsOfType};
ghost use Rattle.rkyv_btree_ffi.specs.Lengths.{most_len, items_len, columns_len, buffers_len};
ghost use Rattle.rkyv_btree_ffi.specs.MapTypes.{type_of, IfType};
ghost use Rattle.rkyv_btree_ffi.specs.declared.order.Order.{Order};
ghost use Rattle.rkyv_btree_ffi.specs.declared.order.Order.TheVariants.{Any, Increasing};
ghost use Rattle.rkyv_btree_ffi.specs.mirror.Natives.{AreGiven, IsOfBoth, IsRow, IsUngiven, TreeFault, NativeFault};
ghost use Rattle.rkyv_btree_ffi.specs.mirror.Natives.{ArchivesNatives, HasTree, BuiltGiven, UnbuiltGiven};

use crate::at_type;
use crate::codes::{
    BAD_ITEM, BAD_TYPE, BtreeRefusal, LENGTH_OVERFLOW, NO_MEMORY, NO_ROOM, NOT_INCREASING,
    OFFSET_OVERFLOW, OK, POSITION_OVERFLOW,
};
use crate::column::BtreeColumn;
use crate::given::{Given, native, native_row};
use crate::item::BtreeEntry;
use crate::map_type::{ItemType, MapType};
use crate::order::Order;
use rkyv_btree_archive::build::{BTreeMapResolver, written_maps_are_held};
use rkyv_btree_archive::build_map::BuildMap;
use rkyv_btree_portable::byte_string::ArchivedBytes;
use rkyv_btree_portable::numbers::{ArchivedU32, ArchivedU64};
use rkyv_btree_portable::signed::ArchivedI64;
use rkyv_btree_portable::text::ArchivedText;
use rkyv_btree_types::map::ArchivedBTreeMap;
use rkyv_btree_writer::fault::Fault;
use rkyv_btree_writer::place::VecWriter;
use std::alloc::{AllocError, Global};

/// Why there is no archive of entries.
#[derive(Drop)]
pub enum BuildFault {
    /// The key or the value of the entry at this index isn't of the map's type.
    BadItem { index: usize },
    /// The archive wasn't serialized.
    Unbuilt(Fault<AllocError>),
}

/// Entries in their order, each as references to its key and its value.
#[derive(Drop)]
struct Pairs<'x, K, V> {
    rest: &'x [(K, V)],
}

impl<'x, K, V> Iterator for Pairs<'x, K, V> {
    type Item = (&'x K, &'x V);

    ghost next_gives = { YieldsFirstBy (λ e. (e.0.now, e.1.now)) (λ s. s.rest.now) };

    ghost remaining = { item_count (λ s. s.rest.now) };

    fn next(&mut self) -> Option<(&'x K, &'x V)> {
        let (first, rest) = self.rest.split_first()?;
        self.rest = rest;
        Some((&first.0, &first.1))
    }
}

/// Returns the code of an error of building.
fn code_of(fault: &BuildFault) -> u32
    ensures { result ≡ code_for fault.now }
{
    match fault {
        BuildFault::Unbuilt(Fault::LengthOverflow) => LENGTH_OVERFLOW,
        BuildFault::Unbuilt(Fault::PositionOverflow) => POSITION_OVERFLOW,
        BuildFault::Unbuilt(Fault::OffsetOverflow) => OFFSET_OVERFLOW,
        BuildFault::Unbuilt(Fault::Memory(_) | Fault::Writer(_)) => NO_MEMORY,
        BuildFault::Unbuilt(Fault::OutOfOrder { index: _ }) => NOT_INCREASING,
        BuildFault::Unbuilt(Fault::Length(_) | Fault::Entry(_)) => BAD_ITEM,
        BuildFault::BadItem { index: _ } => BAD_ITEM,
    }
}

/// Returns the index of the entry that is bad or out of order, or 0.
fn index_of(fault: &BuildFault) -> u64
    ensures { result ≡ index_for fault.now }
{
    match fault {
        BuildFault::BadItem { index } => *index as u64,
        BuildFault::Unbuilt(Fault::OutOfOrder { index }) => *index,
        BuildFault::Unbuilt(_) => 0,
    }
}

/// Returns the cause of an error of building as C has it.
fn cause_of(fault: &BuildFault) -> BtreeRefusal
    ensures { result ≡ cause_for fault.now }
{
    BtreeRefusal {
        code: code_of(fault),
        at: 0,
        found: index_of(fault),
        allowed: 0,
    }
}

/// Returns the native keys and values of entries.
fn natives<'t, K: Given<'t>, V: Given<'t>>(
    alloc: Global,
    entries: &[BtreeEntry],
    texts: &'t [u8],
) -> Result<Vec<(K::Native, V::Native)>, BuildFault>
    ensures given { IfOk result (λ natives.
        AreGiven (IsOfBoth K.IsItem V.IsItem texts.now) (λ e. K.Gives texts.now e.key)
        (λ e. V.Gives texts.now e.value) entries.now natives.items) }
    ensures bad { IfErr result (IsUngiven (IsOfBoth K.IsItem V.IsItem texts.now) entries.now) }
{
    let mut natives = Vec::new(alloc);
    'entries: for index in 0..entries.len() {
        match native::<K, V>(texts, &entries[index]) {
            Some(pair) => {
                if natives.push(pair).is_err() {
                    return Err(BuildFault::Unbuilt(Fault::Memory(AllocError)));
                }
            }
            None => return Err(BuildFault::BadItem { index }),
        }
    }
    Ok(natives)
}

/// Returns the first native keys and values of two columns, as many as `len`.
fn native_rows<'t, K: Given<'t>, V: Given<'t>>(
    alloc: Global,
    keys: &BtreeColumn<'t>,
    values: &BtreeColumn<'t>,
    len: usize,
) -> Result<Vec<(K::Native, V::Native)>, BuildFault>
    ensures given { IfOk result (λ natives.
        AreGiven (IsRow K.IsCell V.IsCell keys.now values.now) (K.CellGives keys.now)
        (V.CellGives values.now) (range_with_len 0 len) natives.items) }
    ensures bad { IfErr result
        (IsUngiven (IsRow K.IsCell V.IsCell keys.now values.now) (range_with_len 0 len)) }
{
    let mut natives = Vec::new(alloc);
    'rows: for index in 0..len {
        match native_row::<K, V>(keys, values, index) {
            Some(pair) => {
                if natives.push(pair).is_err() {
                    return Err(BuildFault::Unbuilt(Fault::Memory(AllocError)));
                }
            }
            None => return Err(BuildFault::BadItem { index }),
        }
    }
    Ok(natives)
}

/// Writes the tree of native entries, whose keys must be in an order, and returns the position of its root node.
fn write_tree<'t, K: Given<'t>, V: Given<'t>>(
    alloc: Global,
    order: Order,
    natives: &[(K::Native, V::Native)],
    writer: &mut VecWriter,
) -> Result<BTreeMapResolver, Fault<AllocError>>
    requires { IsTrue (are_fitting K.kind V.kind 5) }
    ensures serialised { IfOk result
        (Serialises (tree_archival 5 K.Native.archival V.Native.archival (λ xs. xs)) natives.now
        writer.old writer.new) }
    ensures tree { IfOk result (λ root.
        Built (layout_of K.kind V.kind 5) K.Native.archival V.Native.archival writer.old
        natives.now root writer.new) }
    ensures archive { IfOk result (λ root.
        IsArchive K.kind V.kind 5 K.Native.archival V.Native.archival writer.old natives.now root
        writer.new) }
    ensures increasing { order ≡ Increasing → OnOk result (AreIncreasing K.Native.cmp natives.now) }
    ensures went { OnOk result (OnlyAppended writer.old writer.new) }
    ensures err { IfErr result (λ fault.
        TreeFault K.Native.archival V.Native.archival K.Native.cmp order natives.now
        writer.old fault writer.new) }
{
    let items = Pairs { rest: natives };
    match order {
        Order::Any => ArchivedBTreeMap::<K, V, 5>::serialize_from_ordered_iter(
            alloc,
            natives.len(),
            items,
            writer,
        ),
        Order::Increasing => ArchivedBTreeMap::<K, V, 5>::serialize_strict_from_ordered_iter(
            alloc,
            natives.len(),
            items,
            writer,
        ),
    }
}

/// Returns the archive of native entries, whose keys must be in an order.
fn archive_of<'t, K: Given<'t>, V: Given<'t>>(
    alloc: Global,
    order: Order,
    natives: &[(K::Native, V::Native)],
) -> Result<Vec<u8>, Fault<AllocError>>
    requires { IsTrue (are_fitting K.kind V.kind 5) }
    ensures archive { IfOk result (λ bytes.
        ArchivesNatives K.Native.archival V.Native.archival K.kind V.kind natives.now bytes.items) }
    ensures tree { IfOk result (λ bytes.
        HasTree K.Native.archival V.Native.archival (layout_of K.kind V.kind 5) natives.now
        (length bytes.items)) }
    ensures increasing { order ≡ Increasing → OnOk result (AreIncreasing K.Native.cmp natives.now) }
    ensures err { IfErr result
        (NativeFault K.Native.archival V.Native.archival K.Native.cmp order natives.now) }
{
    written_maps_are_held();
    let mut writer = VecWriter::new(alloc);
    let root = match write_tree::<K, V>(alloc, order, natives, &mut writer) {
        Ok(root) => root,
        Err(fault) => return Err(fault),
    };
    match ArchivedBTreeMap::<K, V, 5>::write_root(natives.len(), root, &mut writer) {
        Ok(_) => Ok(writer.into_vec()),
        Err(fault) => Err(fault),
    }
}

/// Returns the archive of entries, whose keys must be in an order.
fn archive<'t, K: Given<'t>, V: Given<'t>>(
    alloc: Global,
    order: Order,
    entries: &[BtreeEntry],
    texts: &'t [u8],
) -> Result<Vec<u8>, BuildFault>
    requires { IsTrue (are_fitting K.kind V.kind 5) }
    ensures built { IfOk result (λ bytes.
        BuiltGiven (IsOfBoth K.IsItem V.IsItem texts.now) (λ e. K.Gives texts.now e.key)
        (λ e. V.Gives texts.now e.value) order entries.now K.kind V.kind
        K.Native.archival V.Native.archival K.Native.cmp bytes.items) }
    ensures unbuilt { IfErr result
        (UnbuiltGiven (IsOfBoth K.IsItem V.IsItem texts.now) (λ e. K.Gives texts.now e.key)
        (λ e. V.Gives texts.now e.value) order entries.now
        K.Native.archival V.Native.archival K.Native.cmp) }
{
    let natives = natives::<K, V>(alloc, entries, texts)?;
    match archive_of::<K, V>(alloc, order, &natives) {
        Ok(bytes) => Ok(bytes),
        Err(fault) => Err(BuildFault::Unbuilt(fault)),
    }
}

/// Returns the archive of entries with values of a type, whose keys must be in an order.
fn archive_with<'t, K: Given<'t>>(
    value_type: ItemType,
    alloc: Global,
    order: Order,
    entries: &[BtreeEntry],
    texts: &'t [u8],
) -> Result<Vec<u8>, BuildFault>
    requires { IsTrue (are_fitting K.kind (kind_at value_type) 5) }
    ensures built { IfOk result (λ bytes.
        BuiltGiven (IsOfBoth K.IsItem (IsOfType value_type) texts.now)
        (λ e. K.Gives texts.now e.key) (λ e. IsNative value_type texts.now e.value) order
        entries.now K.kind (kind_at value_type) K.Native.archival (archival_of value_type)
        K.Native.cmp bytes.items) }
    ensures unbuilt { IfErr result
        (UnbuiltGiven (IsOfBoth K.IsItem (IsOfType value_type) texts.now)
        (λ e. K.Gives texts.now e.key) (λ e. IsNative value_type texts.now e.value) order
        entries.now K.Native.archival (archival_of value_type) K.Native.cmp) }
{
    at_type!(value_type, archive::<K>(alloc, order, entries, texts))
}

/// Returns the archive of the entries of a map of a type.
fn archive_at(
    map_type: MapType,
    alloc: Global,
    order: Order,
    entries: &[BtreeEntry],
    texts: &[u8],
) -> Result<Vec<u8>, BuildFault>
    ensures { Archives map_type order texts.now entries.now result }
{
    at_type!(
        map_type.key,
        archive_with(map_type.value, alloc, order, entries, texts)
    )
}

/// Returns the archive of the first entries of two columns, whose keys must be in an order.
fn archive_columns<'t, K: Given<'t>, V: Given<'t>>(
    alloc: Global,
    order: Order,
    keys: &BtreeColumn<'t>,
    values: &BtreeColumn<'t>,
    len: usize,
) -> Result<Vec<u8>, BuildFault>
    requires { IsTrue (are_fitting K.kind V.kind 5) }
    ensures built { IfOk result (λ bytes.
        BuiltGiven (IsRow K.IsCell V.IsCell keys.now values.now) (K.CellGives keys.now)
        (V.CellGives values.now) order (range_with_len 0 len) K.kind V.kind
        K.Native.archival V.Native.archival K.Native.cmp bytes.items) }
    ensures unbuilt { IfErr result
        (UnbuiltGiven (IsRow K.IsCell V.IsCell keys.now values.now) (K.CellGives keys.now)
        (V.CellGives values.now) order (range_with_len 0 len)
        K.Native.archival V.Native.archival K.Native.cmp) }
{
    let natives = native_rows::<K, V>(alloc, keys, values, len)?;
    match archive_of::<K, V>(alloc, order, &natives) {
        Ok(bytes) => Ok(bytes),
        Err(fault) => Err(BuildFault::Unbuilt(fault)),
    }
}

/// Returns the archive of the first entries of two columns, the second of which has values of a type.
fn archive_columns_with<'t, K: Given<'t>>(
    value_type: ItemType,
    alloc: Global,
    order: Order,
    keys: &BtreeColumn<'t>,
    values: &BtreeColumn<'t>,
    len: usize,
) -> Result<Vec<u8>, BuildFault>
    requires { IsTrue (are_fitting K.kind (kind_at value_type) 5) }
    ensures built { IfOk result (λ bytes.
        BuiltGiven (IsRow K.IsCell (IsCell value_type) keys.now values.now)
        (K.CellGives keys.now) (IsNativeCell value_type values.now) order (range_with_len 0 len)
        K.kind (kind_at value_type) K.Native.archival (archival_of value_type) K.Native.cmp
        bytes.items) }
    ensures unbuilt { IfErr result
        (UnbuiltGiven (IsRow K.IsCell (IsCell value_type) keys.now values.now)
        (K.CellGives keys.now) (IsNativeCell value_type values.now) order (range_with_len 0 len)
        K.Native.archival (archival_of value_type) K.Native.cmp) }
{
    at_type!(
        value_type,
        archive_columns::<K>(alloc, order, keys, values, len)
    )
}

/// Returns the archive of the first entries of the columns of a map of a type.
fn archive_columns_at(
    map_type: MapType,
    alloc: Global,
    order: Order,
    keys: &BtreeColumn<'_>,
    values: &BtreeColumn<'_>,
    len: usize,
) -> Result<Vec<u8>, BuildFault>
    ensures { ArchivesColumns map_type order keys.now values.now len result }
{
    at_type!(
        map_type.key,
        archive_columns_with(map_type.value, alloc, order, keys, values, len)
    )
}

/// Writes an archive, if there is room for it, and its length; or why there is none. Returns the code.
fn put(
    archive: Result<Vec<u8>, BuildFault>,
    out: &mut [u8],
    archive_len: &mut usize,
    refusal: &mut BtreeRefusal,
) -> u32
    ensures { Puts archive out.old out.new archive_len.old archive_len.new refusal.old
        refusal.new result }
{
    let bytes = match archive {
        Ok(bytes) => bytes,
        Err(fault) => {
            *refusal = cause_of(&fault);
            return refusal.code;
        }
    };
    let len = bytes.len();
    *archive_len = len;
    if len > out.len() {
        return NO_ROOM;
    }
    out[..len].copy_from_slice(&bytes);
    OK
}

/// Builds the archive of entries, whose texts are in one buffer, and writes it and its length.
#[unsafe(no_mangle)]
pub extern "C" fn rkyv_btree_build(
    alloc: Global,
    map_type: u32,
    entries: &[BtreeEntry],
    texts: &[u8],
    out: &mut [u8],
    archive_len: &mut usize,
    refusal: &mut BtreeRefusal,
) -> u32
    ensures built { IfType map_type (λ t. (built : _)
        × Archives t Any texts.now entries.now built
        × Puts built out.old out.new archive_len.old archive_len.new refusal.old refusal.new
        result) }
    ensures room { IfType map_type (λ t.
        most_len t (length entries.now) (items_len t entries.now) ≤ length out.old
        → result ≢ 38) }
    ensures no_type { type_of map_type ≡ None → (result ≡ 17) × (out.new ≡ out.old)
        × (archive_len.new ≡ archive_len.old) × (refusal.new ≡ refusal.old) }
{
    let Some(at) = MapType::from_number(map_type) else {
        return BAD_TYPE;
    };
    put(
        archive_at(at, alloc, Order::Any, entries, texts),
        out,
        archive_len,
        refusal,
    )
}

/// Builds the archive of entries whose keys increase, and writes it and its length.
#[unsafe(no_mangle)]
pub extern "C" fn rkyv_btree_build_strict(
    alloc: Global,
    map_type: u32,
    entries: &[BtreeEntry],
    texts: &[u8],
    out: &mut [u8],
    archive_len: &mut usize,
    refusal: &mut BtreeRefusal,
) -> u32
    ensures built { IfType map_type (λ t. (built : _)
        × Archives t Increasing texts.now entries.now built
        × Puts built out.old out.new archive_len.old archive_len.new refusal.old refusal.new
        result) }
    ensures room { IfType map_type (λ t.
        most_len t (length entries.now) (items_len t entries.now) ≤ length out.old
        → result ≢ 38) }
    ensures no_type { type_of map_type ≡ None → (result ≡ 17) × (out.new ≡ out.old)
        × (archive_len.new ≡ archive_len.old) × (refusal.new ≡ refusal.old) }
{
    let Some(at) = MapType::from_number(map_type) else {
        return BAD_TYPE;
    };
    put(
        archive_at(at, alloc, Order::Increasing, entries, texts),
        out,
        archive_len,
        refusal,
    )
}

/// Builds the archive of the first entries of two columns, and writes it and its length.
#[unsafe(no_mangle)]
pub extern "C" fn rkyv_btree_build_arrays(
    alloc: Global,
    map_type: u32,
    len: usize,
    keys: &BtreeColumn<'_>,
    values: &BtreeColumn<'_>,
    out: &mut [u8],
    archive_len: &mut usize,
    refusal: &mut BtreeRefusal,
) -> u32
    ensures built { IfType map_type (λ t. (built : _)
        × ArchivesColumns t Any keys.now values.now len built
        × Puts built out.old out.new archive_len.old archive_len.new refusal.old refusal.new
        result) }
    ensures room { IfType map_type (λ t.
        most_len t len (columns_len t keys.now values.now len) ≤ length out.old → result ≢ 38) }
    ensures room_of_buffers { IfType map_type (λ t.
        most_len t len (buffers_len t keys.now values.now) ≤ length out.old → result ≢ 38) }
    ensures no_type { type_of map_type ≡ None → (result ≡ 17) × (out.new ≡ out.old)
        × (archive_len.new ≡ archive_len.old) × (refusal.new ≡ refusal.old) }
{
    let Some(at) = MapType::from_number(map_type) else {
        return BAD_TYPE;
    };
    put(
        archive_columns_at(at, alloc, Order::Any, keys, values, len),
        out,
        archive_len,
        refusal,
    )
}

/// Builds the archive of the first entries of two columns, whose keys increase, and writes it and its length.
#[unsafe(no_mangle)]
pub extern "C" fn rkyv_btree_build_arrays_strict(
    alloc: Global,
    map_type: u32,
    len: usize,
    keys: &BtreeColumn<'_>,
    values: &BtreeColumn<'_>,
    out: &mut [u8],
    archive_len: &mut usize,
    refusal: &mut BtreeRefusal,
) -> u32
    ensures built { IfType map_type (λ t. (built : _)
        × ArchivesColumns t Increasing keys.now values.now len built
        × Puts built out.old out.new archive_len.old archive_len.new refusal.old refusal.new
        result) }
    ensures room { IfType map_type (λ t.
        most_len t len (columns_len t keys.now values.now len) ≤ length out.old → result ≢ 38) }
    ensures room_of_buffers { IfType map_type (λ t.
        most_len t len (buffers_len t keys.now values.now) ≤ length out.old → result ≢ 38) }
    ensures no_type { type_of map_type ≡ None → (result ≡ 17) × (out.new ≡ out.old)
        × (archive_len.new ≡ archive_len.old) × (refusal.new ≡ refusal.old) }
{
    let Some(at) = MapType::from_number(map_type) else {
        return BAD_TYPE;
    };
    put(
        archive_columns_at(at, alloc, Order::Increasing, keys, values, len),
        out,
        archive_len,
        refusal,
    )
}
