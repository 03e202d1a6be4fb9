//! Native maps from views of archived ones.
ghost use Rattle.std.specs.Prelude.{◌≡◌, List, Ok, OnOk, IfOk, IfErr};
ghost use Rattle.std.specs.Cmp.Lexicographic.{slice_cmp};
ghost use Rattle.std.specs.Ordering.{ordering_then};
ghost use Rattle.std.specs.declared.cmp.Ordering.TheVariants.{Equal};
ghost use Rattle.rkyv_btree_format.specs.Increasing.{Increasing};
ghost use Rattle.rkyv_btree_convert.specs.Deserializing.{IsRefused, both};
ghost use Rattle.rkyv_btree_convert.specs.Maps.{CountsLast, IsGivenByEntries, Pushes, Puts, decoded_entries, native_map, model_both};
ghost use Rattle.rkyv_btree_convert.specs.laws.Maps.{map_by_meaning, map_model_whole};

use crate::deserialize::{Deserialize, DeserializeFault};
use crate::native_key::DeserializeKey;
use rkyv_btree_types::map::ArchivedBTreeMap;
use rkyv_btree_view::view::View;
use std::alloc::{AllocError, Global};
use std::collections::BTreeMap;

/// Makes the native key and the native value of an entry, the key first.
fn native_entry<T: PartialEq + Drop, U: PartialEq + Drop, K: Deserialize<T>, V: Deserialize<U>>(
    alloc: Global,
    key: &View<'_, K>,
    value: &View<'_, V>,
) -> Result<(T, U), DeserializeFault>
    ensures ok { IfOk result (λ entry.
        both (K.decoded key.now.buf.now key.now.pos) (V.decoded value.now.buf.now value.now.pos)
        ≡ Ok (K.model entry.0, V.model entry.1)) }
    ensures refused { IfErr result (IsRefused
        (both (K.decoded key.now.buf.now key.now.pos)
        (V.decoded value.now.buf.now value.now.pos))) }
{
    let key = K::deserialize(alloc, key)?;
    let value = V::deserialize(alloc, value)?;
    Ok((key, value))
}

/// Appends a native entry to a list.
fn push_entry<T: PartialEq + Drop, U: PartialEq + Drop, K: Deserialize<T>, V: Deserialize<U>>(
    alloc: Global,
    key: &View<'_, K>,
    value: &View<'_, V>,
    entries: &mut Vec<(T, U)>,
) -> Result<(), DeserializeFault>
    ensures ok { OnOk result (Pushes K.model V.model
        (both (K.decoded key.now.buf.now key.now.pos) (V.decoded value.now.buf.now value.now.pos))
        entries.old.items entries.new.items) }
    ensures refused { IfErr result (IsRefused
        (both (K.decoded key.now.buf.now key.now.pos)
        (V.decoded value.now.buf.now value.now.pos))) }
{
    let entry = native_entry::<T, U, K, V>(alloc, key, value)?;
    let Ok(_) = entries.push(entry) else {
        return Err(DeserializeFault::Memory(AllocError));
    };
    Ok(())
}

/// Returns the native entries of a map in their order, or the error of the first that fails.
pub(crate) fn native_entries<
    T: PartialEq + Drop,
    U: PartialEq + Drop,
    K: Deserialize<T>,
    V: Deserialize<U>,
    const E: usize,
>(
    alloc: Global,
    view: &View<'_, ArchivedBTreeMap<K, V, E>>,
) -> Result<Vec<(T, U)>, DeserializeFault>
    ensures ok { IfOk result (λ made.
        decoded_entries K.kind V.kind E K.decoded V.decoded view.now.buf.now view.now.pos
        ≡ Ok (model_both K.model V.model made.items)) }
    ensures refused { IfErr result (IsRefused
        (decoded_entries K.kind V.kind E K.decoded V.decoded view.now.buf.now view.now.pos)) }
{
    let mut entries = view.iter();
    let Ok(mut made) = Vec::with_capacity(alloc, entries.len()) else {
        return Err(DeserializeFault::Memory(AllocError));
    };
    while let Some((key, value)) = entries.next() {
        push_entry(alloc, &key, &value, &mut made)?;
    }
    Ok(made)
}

/// Inserts a native entry into a map. A key that is equal stays, and gets the value.
fn put_entry<T: Ord + Drop, U: PartialEq + Drop, K: DeserializeKey<T>, V: Deserialize<U>>(
    alloc: Global,
    key: &View<'_, K>,
    value: &View<'_, V>,
    map: &mut BTreeMap<T, U>,
) -> Result<(), DeserializeFault>
    ensures ok { OnOk result (Puts K.model_order K.model V.model
        (both (K.decoded key.now.buf.now key.now.pos) (V.decoded value.now.buf.now value.now.pos))
        map.old.entries map.new.entries) }
    ensures refused { IfErr result (IsRefused
        (both (K.decoded key.now.buf.now key.now.pos)
        (V.decoded value.now.buf.now value.now.pos))) }
{
    let (key, value) = native_entry::<T, U, K, V>(alloc, key, value)?;
    match map.insert(key, value) {
        Ok(_) => Ok(()),
        Err(_) => Err(DeserializeFault::Memory(AllocError)),
    }
}

/// Returns the native map into which the entries are inserted one after another.
fn in_turn<
    T: Ord + Drop,
    U: PartialEq + Drop,
    K: DeserializeKey<T>,
    V: Deserialize<U>,
    const E: usize,
>(
    alloc: Global,
    view: &View<'_, ArchivedBTreeMap<K, V, E>>,
) -> Result<BTreeMap<T, U>, DeserializeFault>
    ensures ok { IfOk result (λ map.
        native_map K.kind V.kind E K.decoded V.decoded K.model_order view.now.buf.now view.now.pos
        ≡ Ok (model_both K.model V.model map.entries)) }
    ensures refused { IfErr result (IsRefused
        (native_map K.kind V.kind E K.decoded V.decoded K.model_order view.now.buf.now
        view.now.pos)) }
{
    let mut map = BTreeMap::new(alloc);
    let mut entries = view.iter();
    while let Some((key, value)) = entries.next() {
        put_entry(alloc, &key, &value, &mut map)?;
    }
    Ok(map)
}

/// Returns the native map that is made of all entries at once. Requires that equal keys are the same.
fn at_once<
    T: Ord + Drop,
    U: PartialEq + Drop,
    K: DeserializeKey<T>,
    V: Deserialize<U>,
    const E: usize,
>(
    alloc: Global,
    view: &View<'_, ArchivedBTreeMap<K, V, E>>,
) -> Result<BTreeMap<T, U>, DeserializeFault>
    requires { (x y : K.Model) → K.model_order x y ≡ Equal → x ≡ y }
    ensures ok { IfOk result (λ map.
        native_map K.kind V.kind E K.decoded V.decoded K.model_order view.now.buf.now view.now.pos
        ≡ Ok (model_both K.model V.model map.entries)) }
    ensures refused { IfErr result (IsRefused
        (native_map K.kind V.kind E K.decoded V.decoded K.model_order view.now.buf.now
        view.now.pos)) }
{
    let entries = native_entries::<T, U, K, V, E>(alloc, view)?;
    match entries.into_iter().collect(alloc) {
        Ok(map) => Ok(map),
        Err(error) => Err(DeserializeFault::Memory(error)),
    }
}

impl<
    T: Ord + Drop,
    U: PartialEq + Drop,
    K: DeserializeKey<T>,
    V: Deserialize<U>,
    const E: usize,
> Deserialize<BTreeMap<T, U>> for ArchivedBTreeMap<K, V, E> {
    ghost Model = { List (K.Model × V.Model) };

    ghost model = { λ m. model_both K.model V.model m.entries };

    ghost model_order = { slice_cmp (λ p q. ordering_then (K.model_order p.0 q.0)
        (V.model_order p.1 q.1)) };

    ghost decoded = { native_map K.kind V.kind E K.decoded V.decoded K.model_order };

    /// Returns the native map. Of entries with equal keys it has the first key, or one with the same model, and the last
    /// value. The entries are read in order, a key before its value, up to the first that fails. If equal keys are the same,
    /// the map is made of the list of all entries at once.
    fn deserialize(
        alloc: Global,
        view: &View<'_, ArchivedBTreeMap<K, V, E>>,
    ) -> Result<BTreeMap<T, U>, DeserializeFault>
        // If the keys of the decoded entries increase, these are the entries of the map.
        ensures sorted { IfOk result (λ map. (entries : List (K.Model × V.Model)) →
            decoded_entries K.kind V.kind E K.decoded V.decoded view.now.buf.now view.now.pos
            ≡ Ok entries → Increasing K.model_order entries →
            model_both K.model V.model map.entries ≡ entries) }
        ensures ok { IfOk result (λ map.
            native_map K.kind V.kind E K.decoded V.decoded K.model_order
            view.now.buf.now view.now.pos ≡ Ok (model_both K.model V.model map.entries)) }
        ensures refused { IfErr result (IsRefused (native_map K.kind V.kind E K.decoded V.decoded
            K.model_order view.now.buf.now view.now.pos)) }
    {
        if K::equal_keys_are_same() {
            at_once::<T, U, K, V, E>(alloc, view)
        } else {
            in_turn::<T, U, K, V, E>(alloc, view)
        }
    }

    ghost by_meaning = { map_by_meaning K.by_meaning V.by_meaning E K.model_order };

    ghost model_whole = { λ x y. map_model_whole K.model_whole V.model_whole x.entries y.entries };
}

/// States that what a map is deserialized to depends on its list of entries alone: on what the meaning of each key and value is
/// deserialized to.
pub fn maps_are_given_by_entries<
    T: Ord,
    U: PartialEq,
    K: DeserializeKey<T>,
    V: Deserialize<U>,
    const E: usize,
>()
    ensures { IsGivenByEntries K.kind V.kind E K.decoded V.decoded K.model_order }
{}

/// States that the native map of entries with equal keys has the first key and the last value. Its keys ascend, as in each
/// native map. Entries whose keys ascend are the native map's.
pub fn last_values_count<T: Ord, U: PartialEq, K: DeserializeKey<T>, V: Deserialize<U>>()
    ensures { (entries : List (K.Model × V.Model)) → CountsLast K.model_order entries }
{}
