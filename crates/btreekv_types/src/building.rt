//! Archives of typed entries.
ghost use Rattle.std.specs.Prelude.{◌≡◌, IfErr, IfNone, IfOk, IfSome, IsTrue, OnOk, map};
ghost use Rattle.std.specs.BTreeMap.{insert_entry};
ghost use Rattle.rkyv_btree_convert.specs.Maps.{last_wins};
ghost use Rattle.rkyv_btree_format.specs.Increasing.{Increasing, IsOutOfOrder};
ghost use Rattle.rkyv_btree_format.specs.Layout.{are_fitting};
ghost use Rattle.rkyv_btree_typed.specs.TypeNames.{name_of};
ghost use Rattle.rkyv_btree_typed.specs.TypeNames as term;
ghost use Rattle.rkyv_btree_verify.specs.Map.{map_kind};
ghost use Rattle.rkyv_btree_writer.specs.Archiving.{Matches};
ghost use Rattle.btreekv_commands.specs.Texts.{texts_of};
ghost use Rattle.btreekv_types.specs.Archiving.{IsUnmadeOf};
ghost use Rattle.btreekv_types.specs.Commands.{IsBuiltOf, IsUnbuiltOf};
ghost use Rattle.btreekv_types.specs.Typed.{ByValues, IsTypedFile, items_by};

use crate::command::Order;
use crate::fault::TypedFault;
use crate::natives::natives;
use btreearc_lines::fault::ProgramFault;
use btreearc_lines::heading::Heading;
use btreekv_items::item::{BytesStyle, Item};
use rkyv_btree_archive::to_archive::to_archive;
use rkyv_btree_typed::to_typed::to_typed_archive;
use rkyv_btree_writer::fault::Fault;
use std::alloc::{AllocError, Global};
use std::cmp::Ordering;
use std::collections::BTreeMap;

/// Returns the index of the first entry whose key isn't greater than the key before it, or `None` if the keys increase.
fn first_out_of_order<K: Ord, V>(entries: &[(K, V)]) -> Option<usize>
    ensures none { IfNone result (Increasing K.cmp entries.now) }
    ensures some { IfSome result (IsOutOfOrder K.cmp entries.now) }
{
    'entries: for index in 1..entries.len() {
        match entries[index - 1].0.cmp(&entries[index].0) {
            Ordering::Less => {}
            _ => return Some(index),
        }
    }
    None
}

/// Returns the same if entries must come in order, and else `None`.
pub(crate) fn disorder<K: Ord, V>(order: Order, entries: &[(K, V)]) -> Option<usize>
    ensures none { IfNone result (order ≡ Order.Increasing → Increasing K.cmp entries.now) }
    ensures ordered { IfSome result (λ index. order ≡ Order.Increasing) }
    ensures some { IfSome result (IsOutOfOrder K.cmp entries.now) }
{
    match order {
        Order::Any => None,
        Order::Increasing => first_out_of_order(entries),
    }
}

/// Inserts an entry into a std map. A key that is equal stays, and gets the value.
///
/// # Errors
///
/// `Memory` if an allocation fails.
pub(crate) fn insert<K: Ord + Drop, V: Drop>(
    map: &mut BTreeMap<K, V>,
    key: K,
    value: V,
) -> Result<(), TypedFault>
    ensures ok { OnOk result
        (map.new.entries ≡ insert_entry K.cmp map.old.entries key value) }
    ensures err { IfErr result (λ fault. fault ≡ TypedFault.Program ProgramFault.Memory) }
{
    match map.insert(key, value) {
        Ok(_) => Ok(()),
        Err(_) => Err(TypedFault::Program(ProgramFault::Memory)),
    }
}

/// Returns the std map of entries. Of equal keys the last value counts.
///
/// # Errors
///
/// `Memory` if an allocation fails.
pub(crate) fn sorted<K: Ord + Drop, V: Drop>(
    alloc: Global,
    entries: Vec<(K, V)>,
) -> Result<BTreeMap<K, V>, TypedFault>
    ensures ok { IfOk result (λ map. map.entries ≡ last_wins K.cmp entries.items) }
    ensures err { IfErr result (λ fault. fault ≡ TypedFault.Program ProgramFault.Memory) }
{
    let mut sorted: BTreeMap<K, V> = BTreeMap::new(alloc);
    for (key, value) in entries {
        insert(&mut sorted, key, value)?;
    }
    Ok(sorted)
}

/// Returns the file of a std map.
///
/// # Errors
///
/// Those of building an archive, and of its header.
pub(crate) fn map_file<K: Item, V: Item>(
    alloc: Global,
    heading: Heading,
    sorted: &BTreeMap<K::Native, V::Native>,
) -> Result<Vec<u8>, Fault<AllocError>>
    requires { IsTrue (are_fitting K.kind V.kind 5) }
    ensures ok { IfOk result (λ bytes.
        (same : Matches (map_kind K.Native.archival.kind V.Native.archival.kind 5) (map_kind K.kind V.kind 5)) →
        IsTypedFile K.kind V.kind (name_of (term.map K.term V.term 5)) heading bytes.items
        (same.to (map (λ e. (K.Native.archival.meaning e.0, V.Native.archival.meaning e.1)) sorted.now.entries))) }
    ensures err { IfErr result
        (IsUnmadeOf K.Native.archival V.Native.archival K.kind V.kind
        (name_of (term.map K.term V.term 5)) heading sorted.now.entries) }
{
    match heading {
        Heading::Typed => to_typed_archive(alloc, sorted),
        Heading::Untyped => to_archive(alloc, sorted),
    }
}

/// Returns the file of entries of texts.
///
/// # Errors
///
/// Those of `natives`. `NotBuilt` with the index of the first entry out of order, if they must come in order, or with the error of
/// building the archive or its header. `Memory` if an allocation fails.
#[inline(never)]
pub(crate) fn archive<K: Item, V: Item>(
    alloc: Global,
    style: BytesStyle,
    order: Order,
    heading: Heading,
    entries: &[(String, String)],
) -> Result<Vec<u8>, TypedFault>
    requires { IsTrue (are_fitting K.kind V.kind 5) }
    ensures ok { IfOk result (λ bytes.
        ByValues K.Native.archival K.kind K.order K.value_at K.native_value
        V.Native.archival V.kind V.order V.value_at V.native_value (λ key_to value_to.
        IsBuiltOf K.kind V.kind (name_of (term.map K.term V.term 5))
        (items_by K.IsValue (K.spelling style) key_to) (items_by V.IsValue (V.spelling style) value_to)
        order heading (map texts_of entries.now) bytes.items)) }
    ensures err { IfErr result (λ fault.
        ByValues K.Native.archival K.kind K.order K.value_at K.native_value
        V.Native.archival V.kind V.order V.value_at V.native_value (λ key_to value_to.
        IsUnbuiltOf K.kind V.kind (name_of (term.map K.term V.term 5))
        (items_by K.IsValue (K.spelling style) key_to) (items_by V.IsValue (V.spelling style) value_to)
        K.Native.archival V.Native.archival order heading (map texts_of entries.now) fault)) }
{
    let natives = match natives::<K, V>(alloc, style, entries) {
        Ok(natives) => natives,
        Err(fault) => return Err(fault),
    };
    match disorder(order, natives.as_slice()) {
        None => {}
        Some(index) => {
            let index = index as u64;
            return Err(TypedFault::Program(ProgramFault::NotBuilt(Fault::OutOfOrder { index })));
        }
    }
    let map = match sorted(alloc, natives) {
        Ok(map) => map,
        Err(fault) => return Err(fault),
    };
    match map_file::<K, V>(alloc, heading, &map) {
        Ok(bytes) => Ok(bytes),
        Err(fault) => Err(TypedFault::Program(ProgramFault::NotBuilt(fault))),
    }
}
