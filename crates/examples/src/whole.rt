//! What is known of whole archives of std's maps, by the contracts of the calls that make and read them.
ghost use Rattle.std.specs.BTreeMap.{get, get_by};
ghost use Rattle.std.specs.Cmp.Lexicographic.{slice_cmp};
ghost use Rattle.std.specs.Ordering.{nat_cmp};
ghost use Rattle.std.specs.Prelude.{◌≡◌, IsTrue, IfOk, IfErr, Ok, string_bytes};
ghost use Rattle.rkyv_btree.specs.Deserializing.{IsByMeaning, IsRefused, both};
ghost use Rattle.rkyv_btree.specs.Maps.{model_both};
ghost use Rattle.rkyv_btree.specs.View.{entries_of};
ghost use Rattle.examples.specs.Whole.{entries_given};

use crate::editing::Numbers;
use rkyv_btree::base::fault::Fault;
use rkyv_btree::base::map::ArchivedBTreeMap;
use rkyv_btree::base::numbers::ArchivedU32;
use rkyv_btree::base::text::ArchivedText;
use rkyv_btree::base::whole::to_archive;
use rkyv_btree::deserialize::DeserializeFault;
use rkyv_btree::entry_type::EntryType;
use rkyv_btree::laws::{archives_are_same_as_std, look_ups_find_as_std};
use rkyv_btree::view::View;
use rkyv_btree::whole::open;
use std::alloc::{AllocError, Global};
use std::collections::BTreeMap;

/// What a lookup finds in the archive of a map: what the map itself has for the key.
pub fn looked_up(
    alloc: Global,
    map: &BTreeMap<u32, u32>,
    key: u32,
) -> Result<Option<u32>, Fault<AllocError>>
    ensures { IfOk result (λ value. value ≡ get nat_cmp map.now key) }
{
    look_ups_find_as_std::<u32, u32, ArchivedU32, ArchivedU32, 5>();
    // The contract of `len` says that the keys of the map increase.
    let _len = map.len();
    let archive = to_archive(alloc, map)?;
    match open::<Numbers>(archive.as_slice()) {
        Ok(view) => {
            let value = view.get_by(key);
            Ok(value.map(|value: View<ArchivedU32>| value.to_native()))
        }
        Err(_) => unreachable!(),
    }
}

/// Whether the archive of a map is the same as the map, which it always is.
pub fn is_equal_to_itself(
    alloc: Global,
    map: &BTreeMap<String, u32>,
) -> Result<bool, Fault<AllocError>>
    ensures { IfOk result (λ same. IsTrue same) }
{
    archives_are_same_as_std::<String, u32, ArchivedText, ArchivedU32, 5>();
    let archive = to_archive(alloc, map)?;
    match open::<ArchivedBTreeMap<ArchivedText, ArchivedU32, 5>>(archive.as_slice()) {
        Ok(view) => Ok(view.eq_map(map)),
        Err(_) => unreachable!(),
    }
}

/// The native key and value of an entry, or the first fault.
fn owned_entry<K: EntryType, V: EntryType>(
    alloc: Global,
    key: &View<'_, K>,
    value: &View<'_, V>,
) -> Result<(K::Owned, V::Owned), DeserializeFault>
    ensures ok { IfOk result (λ owned.
        both (K.decoded key.now.buf.now key.now.pos) (V.decoded value.now.buf.now value.now.pos)
        ≡ Ok (K.model owned.0, V.model owned.1)) }
    ensures refused { IfErr result (IsRefused
        (both (K.decoded key.now.buf.now key.now.pos) (V.decoded value.now.buf.now
        value.now.pos))) }
{
    let key = K::deserialize(alloc, key)?;
    let value = V::deserialize(alloc, value)?;
    Ok((key, value))
}

/// The native keys and values of a map's entries, in order, or the first fault.
pub fn owned_entries<K: EntryType, V: EntryType>(
    alloc: Global,
    map: View<'_, ArchivedBTreeMap<K, V, 5>>,
) -> Result<Vec<(K::Owned, V::Owned)>, DeserializeFault>
    ensures ok { (key : IsByMeaning K.kind K.decoded) (value : IsByMeaning V.kind V.decoded) →
        IfOk result (λ owned. entries_given key value (entries_of K.kind V.kind 5 map.entry)
        ≡ Ok (model_both K.model V.model owned.items)) }
    ensures refused { (key : IsByMeaning K.kind K.decoded) (value : IsByMeaning V.kind V.decoded) →
        IfErr result (IsRefused (entries_given key value (entries_of K.kind V.kind 5 map.entry))) }
{
    let mut owned = Vec::new(alloc);
    let mut entries = map.iter();
    while let Some((key, value)) = entries.next() {
        let entry = owned_entry::<K, V>(alloc, &key, &value)?;
        if owned.push(entry).is_err() {
            return Err(DeserializeFault::Memory(AllocError));
        }
    }
    Ok(owned)
}
