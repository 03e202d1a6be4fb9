//! Native sets from views of archived ones.
ghost use Rattle.std.specs.Prelude.{◌≡◌, List, Ok, OnOk, IfOk, IfErr, map};
ghost use Rattle.std.specs.Cmp.Lexicographic.{slice_cmp};
ghost use Rattle.std.specs.Map.{keys_of};
ghost use Rattle.std.specs.declared.cmp.Ordering.TheVariants.{Equal};
ghost use Rattle.rkyv_btree_format.specs.Increasing.{Increasing};
ghost use Rattle.rkyv_btree_portable.specs.Scalars.{unit_kind};
ghost use Rattle.rkyv_btree_format.specs.Units.{with_units};
ghost use Rattle.rkyv_btree_convert.specs.Deserializing.{IsRefused, both};
ghost use Rattle.rkyv_btree_convert.specs.Maps.{Puts, decoded_entries};
ghost use Rattle.rkyv_btree_convert.specs.Sets.{native_set, unit_given};
ghost use Rattle.rkyv_btree_convert.specs.laws.Sets.{set_by_meaning, set_model_whole};

use crate::deserialize::{Deserialize, DeserializeFault};
use crate::native_key::DeserializeKey;
use crate::native_map::native_entries;
use rkyv_btree_types::set::ArchivedBTreeSet;
use rkyv_btree_view::view::View;
use std::alloc::{AllocError, Global};
use std::collections::BTreeSet;

/// Inserts a native key into a set. A key that is equal stays.
fn put_key<T: Ord + Drop, K: DeserializeKey<T>>(
    alloc: Global,
    key: &View<'_, K>,
    set: &mut BTreeSet<T>,
) -> Result<(), DeserializeFault>
    ensures ok { OnOk result (Puts K.model_order K.model (λ unit. unit)
        (both (K.decoded key.now.buf.now key.now.pos) unit_given)
        (with_units set.old.keys) (with_units set.new.keys)) }
    ensures refused { IfErr result (IsRefused
        (both (K.decoded key.now.buf.now key.now.pos) unit_given)) }
{
    let key = K::deserialize(alloc, key)?;
    let Ok(_) = set.insert(key) else {
        return Err(DeserializeFault::Memory(AllocError));
    };
    Ok(())
}

/// Returns the native set into which the keys are inserted one after another.
fn in_turn<T: Ord + Drop, K: DeserializeKey<T>, const E: usize>(
    alloc: Global,
    view: &View<'_, ArchivedBTreeSet<K, E>>,
) -> Result<BTreeSet<T>, DeserializeFault>
    ensures ok { IfOk result (λ set.
        native_set K.kind E K.decoded K.model_order view.now.buf.now view.now.pos
        ≡ Ok (map K.model set.keys)) }
    ensures refused { IfErr result (IsRefused
        (native_set K.kind E K.decoded K.model_order view.now.buf.now view.now.pos)) }
{
    let mut set = BTreeSet::new(alloc);
    let mut entries = view.as_map().iter();
    while let Some((key, _value)) = entries.next() {
        put_key(alloc, &key, &mut set)?;
    }
    Ok(set)
}

/// Returns the native set that is made of all keys at once. Requires that equal keys are the same.
fn at_once<T: Ord + Drop, K: DeserializeKey<T>, const E: usize>(
    alloc: Global,
    view: &View<'_, ArchivedBTreeSet<K, E>>,
) -> Result<BTreeSet<T>, DeserializeFault>
    requires { (x y : K.Model) → K.model_order x y ≡ Equal → x ≡ y }
    ensures ok { IfOk result (λ set.
        native_set K.kind E K.decoded K.model_order view.now.buf.now view.now.pos
        ≡ Ok (map K.model set.keys)) }
    ensures refused { IfErr result (IsRefused
        (native_set K.kind E K.decoded K.model_order view.now.buf.now view.now.pos)) }
{
    let entries = native_entries::<T, (), K, (), E>(alloc, &view.as_map())?;
    match entries
        .into_iter()
        .map(|entry: (T, ())| entry.0)
        .collect(alloc)
    {
        Ok(set) => Ok(set),
        Err(error) => Err(DeserializeFault::Memory(error)),
    }
}

impl<T: Ord + Drop, K: DeserializeKey<T>, const E: usize> Deserialize<BTreeSet<T>>
    for ArchivedBTreeSet<K, E> {
    ghost Model = { List K.Model };

    ghost model = { λ s. map K.model s.keys };

    ghost model_order = { slice_cmp K.model_order };

    ghost decoded = { native_set K.kind E K.decoded K.model_order };

    /// Returns the native set. Of equal keys it has the first, or one with the same model. The keys are read in order, up to
    /// the first that fails. If equal keys are the same, the set is made of all of them at once.
    fn deserialize(
        alloc: Global,
        view: &View<'_, ArchivedBTreeSet<K, E>>,
    ) -> Result<BTreeSet<T>, DeserializeFault>
        // If the decoded keys increase, these are the keys of the set.
        ensures sorted { IfOk result (λ set. (entries : List (K.Model × Unit {0})) →
            decoded_entries K.kind unit_kind E K.decoded (λ b at. unit_given)
            view.now.buf.now view.now.pos ≡ Ok entries → Increasing K.model_order entries →
            map K.model set.keys ≡ keys_of entries) }
        ensures ok { IfOk result (λ set. native_set K.kind E K.decoded K.model_order
            view.now.buf.now view.now.pos ≡ Ok (map K.model set.keys)) }
        ensures refused { IfErr result (IsRefused
            (native_set K.kind E K.decoded K.model_order view.now.buf.now view.now.pos)) }
    {
        if K::equal_keys_are_same() {
            at_once::<T, K, E>(alloc, view)
        } else {
            in_turn::<T, K, E>(alloc, view)
        }
    }

    ghost by_meaning = { set_by_meaning K.by_meaning E K.model_order };

    ghost model_whole = { λ x y. set_model_whole K.model_whole x.keys y.keys };
}
