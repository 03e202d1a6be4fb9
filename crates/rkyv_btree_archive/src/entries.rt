//! Serializing the entries of a node.
ghost use Rattle.std.specs.Prelude.{◌≡◌, ◌≤◌, [], length, map, vec_capacity, IsTrue, OnOk, IfErr};
ghost use Rattle.rkyv_btree_writing_laws.specs.Entries.{AreSerialised, AreUnserialised, both_borrowed};

use crate::archive::{Archive, Serialize};
use crate::borrow::Borrow;
use crate::waiting::push;
use rkyv_btree_writer::fault::Fault;
use rkyv_btree_writer::place::Writer;
use std::alloc::Allocator;

/// Serializes entries in their order, each key before its value, and appends their resolvers to two lists that have room for
/// them.
#[inline(always)]
pub(crate) fn serialize_entries<BKU, BVU, KU, VU, W, A>(
    alloc: A,
    entries: &[(BKU, BVU)],
    keys: &mut Vec<KU::Resolver, A>,
    values: &mut Vec<VU::Resolver, A>,
    writer: &mut W,
) -> Result<(), Fault<W::Error>>
where
    BKU: Borrow<KU> + Drop,
    BVU: Borrow<VU> + Drop,
    KU: Serialize<W, A>,
    VU: Serialize<W, A>,
    W: Writer,
    A: Allocator + Copy,
    requires fits_key { IsTrue KU.Archived.kind.is_fitting }
    requires fits_value { IsTrue VU.Archived.kind.is_fitting }
    requires no_keys { keys.old.items ≡ [] }
    requires no_values { values.old.items ≡ [] }
    requires key_room { length entries.now ≤ vec_capacity keys.old }
    requires value_room { length entries.now ≤ vec_capacity values.old }
    ensures ok { OnOk result
        (AreSerialised KU.archival VU.archival (W.state writer.old)
        (map (both_borrowed BKU.borrowed BVU.borrowed) entries.now) keys.new.items
        values.new.items (W.state writer.new)) }
    ensures err { IfErr result (λ fault.
        AreUnserialised KU.archival VU.archival (W.state writer.old)
        (map (both_borrowed BKU.borrowed BVU.borrowed) entries.now) fault (W.state writer.new)) }
    ensures keys { OnOk result (length keys.new.items ≡ length entries.now) }
    ensures values { OnOk result (length values.new.items ≡ length entries.now) }
    ensures key_room { vec_capacity keys.old ≤ vec_capacity keys.new }
    ensures value_room { vec_capacity values.old ≤ vec_capacity values.new }
{
    for entry in entries {
        let key = entry.0.borrow().serialize(alloc, writer)?;
        let value = entry.1.borrow().serialize(alloc, writer)?;
        push(keys, key);
        push(values, value);
    }
    Ok(())
}
