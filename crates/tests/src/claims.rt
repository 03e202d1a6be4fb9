//! Claims of another number of items than come: how many bytes are written until that shows, and in how much memory.

use crate::faults::mismatch;
use crate::numbers::{archive, tens};
use crate::same::same;
use linked_list_allocator::LocalHeap;
use rkyv_btree_base::build::BuildMap;
use rkyv_btree_base::layout;
use rkyv_btree_base::map::ArchivedBTreeMap;
use rkyv_btree_base::numbers::ArchivedU32;
use rkyv_btree_base::place::VecWriter;
use std::test::Fail;

type Ones = ArchivedBTreeMap<ArchivedU32, ArchivedU32, 1>;

// One entry a node takes the most levels: 32.
#[test]
fn the_largest_claim_takes_little_memory(rt: HostRuntime) -> Result<(), Fail> {
    assert!(rt; layout::fits::<ArchivedU32, ArchivedU32, 1>());
    let heap = LocalHeap::new(rt.alloc(), 4096)?;
    let mut writer = VecWriter::new(rt.alloc());
    let entries = [(1, 10), (2, 20)];
    let items = entries
        .iter()
        .map(|entry: &(u32, u32)| (&entry.0, &entry.1));
    let refused = Ones::serialize_from_ordered_iter(&heap, 4294967295, items, &mut writer);
    same(&rt, mismatch(refused), Some((4294967295, 2)));
    Ok(())
}

// The last leaf, of 48 bytes, and the root, of 68, are missing.
#[test]
fn too_few_items_leave_the_nodes_that_were_written(rt: HostRuntime) -> Result<(), Fail> {
    let entries = tens(rt.alloc(), 35)?;
    let mut writer = VecWriter::new(rt.alloc());
    let few = archive::<5>(&rt, rt.alloc(), 36, &entries, &mut writer);
    same(&rt, mismatch(few), Some((36, 35)));
    same(&rt, writer.bytes().len(), 308);
    Ok(())
}

#[test]
fn too_many_items_are_counted_behind_the_tree(rt: HostRuntime) -> Result<(), Fail> {
    let entries = tens(rt.alloc(), 36)?;
    let mut writer = VecWriter::new(rt.alloc());
    let many = archive::<5>(&rt, rt.alloc(), 6, &entries, &mut writer);
    same(&rt, mismatch(many), Some((6, 36)));
    let mut whole = VecWriter::new(rt.alloc());
    archive::<5>(
        &rt,
        rt.alloc(),
        6,
        entries.as_slice().get(..6).expect(&rt, "six entries"),
        &mut whole,
    )?;
    same(&rt, Some(writer.bytes()), whole.bytes().get(..116));
    Ok(())
}
