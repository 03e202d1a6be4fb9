//! Archives whose keys are in any order, made anew so that they increase.
ghost use Rattle.std.specs.Prelude.{◌≡◌, ℕ, ◌≤◌, IsTrue, IsErrOf, OnOk, OnErr, IfOk, IfErr};
ghost use Rattle.rkyv_btree_writer.specs.Archiving.{BeginsWith};
ghost use Rattle.rkyv_btree_writing_laws.specs.Kept.{OnlyAppended};
ghost use Rattle.rkyv_btree_format.specs.Layout.{are_fitting};
ghost use Rattle.rkyv_btree_writer.specs.Writing.{position, last_end};
ghost use Rattle.rkyv_btree_convert.specs.Maps.{native_map, model_both};
ghost use Rattle.rkyv_btree_strict.specs.Migrated.{FailsToMigrate, Migrates, MigratesToStrict};

use rkyv_btree_archive::archive::{Archive, Serialize};
use rkyv_btree_archive::build_map::BuildMap;
use rkyv_btree_convert::deserialize::{Deserialize, DeserializeFault};
use rkyv_btree_convert::native_key::DeserializeKey;
use rkyv_btree_types::map::ArchivedBTreeMap;
use rkyv_btree_view::view::View;
use rkyv_btree_writer::fault::Fault;
use rkyv_btree_writer::place::Writer;
use std::alloc::Global;
use std::collections::BTreeMap;

/// Deserializes a map and serializes the native map, whose keys increase, with the root after it. Returns the root's position.
/// Of entries with equal keys the last value remains. A map that is a value is made anew too.
///
/// # Errors
///
/// `Fault::Entry` if a key or value can't be deserialized, `Fault::Memory` if an allocation fails, and those of serializing. No
/// error is `OutOfOrder`. After an error the writer's contents begin with the old ones.
pub fn migrate<T, U, K, V, W>(
    alloc: Global,
    view: &View<'_, ArchivedBTreeMap<K, V, 5>>,
    writer: &mut W,
) -> Result<u32, Fault<W::Error>>
where
    T: Archive<Archived = K> + Serialize<W, Global> + Ord + Drop,
    U: Archive<Archived = V> + Serialize<W, Global> + PartialEq + Drop,
    K: DeserializeKey<T>,
    V: Deserialize<U>,
    W: Writer,
    requires fitting { IsTrue (are_fitting K.kind V.kind 5) }
    // The writer's bytes are a strict map at the returned position, after as many bytes as the writer's base. It means the entries
    // of the native map, if native keys are ordered as what they mean.
    ensures strict { IfOk result (λ at.
        MigratesToStrict T.cmp K.kind V.kind T.archival U.archival (model_both K.model V.model)
        (native_map K.kind V.kind 5 K.decoded V.decoded K.model_order view.now.buf.now view.now.pos)
        (W.state writer.old) at (W.state writer.new)) }
    // The tree of the native map is written, and no accepted map with as many entries has fewer nodes, node bytes or levels.
    ensures ok { IfOk result (λ at.
        Migrates T.cmp K.kind V.kind T.archival U.archival (model_both K.model V.model)
        (native_map K.kind V.kind 5 K.decoded V.decoded K.model_order view.now.buf.now view.now.pos)
        (W.state writer.old) at (W.state writer.new)) }
    // Each error's cause is there.
    ensures err { IfErr result (λ fault.
        FailsToMigrate T.cmp K.kind V.kind T.archival U.archival (model_both K.model V.model)
        (native_map K.kind V.kind 5 K.decoded V.decoded K.model_order view.now.buf.now view.now.pos)
        (W.state writer.old) fault (W.state writer.new)) }
    // The native map's keys increase, so no error is `OutOfOrder`.
    ensures in_order { (index : ℕ) → IsErrOf result (Fault.OutOfOrder index) → ⊥ }
    ensures went { OnOk result (OnlyAppended (W.state writer.old) (W.state writer.new)) }
    ensures kept { OnErr result (BeginsWith (W.state writer.new) (W.state writer.old)) }
{
    let map = match ArchivedBTreeMap::<K, V, 5>::deserialize(alloc, view) {
        Ok(map) => map,
        Err(DeserializeFault::Memory(error)) => return Err(Fault::Memory(error)),
        Err(DeserializeFault::Entry(fault)) => return Err(Fault::Entry(fault)),
    };
    // The contract of `len` says that the keys of the map increase.
    let len = map.len();
    let root = ArchivedBTreeMap::<K, V, 5>::serialize_from_ordered_iter(
        alloc,
        len,
        map.iter(),
        writer,
    )?;
    ArchivedBTreeMap::<K, V, 5>::write_root(len, root, writer)
}
