//! How high trees are and how many nodes they have, and the sizes of nodes.

ghost use Rattle.std.specs.Prelude.{◌≡◌, ℕ, length};
ghost use Rattle.rkyv_btree_base.specs.Smallest.{IsSmallest};
ghost use Rattle.rkyv_btree_base.specs.Tree.{Tree, list, nodes};

use crate::convert::opened;
use crate::numbers::{Numbers, archive, tens};
use crate::same::same;
use rkyv_btree_base::check::Portable;
use rkyv_btree_base::layout::{self, entries_to_height};
use rkyv_btree_base::numbers::{ArchivedU32, ArchivedU64};
use rkyv_btree_base::place::VecWriter;
use std::test::Fail;

/// States that a smallest tree of one entry a node has as many nodes as entries: 4294967295 where the map is full.
fn smallest_trees_of_one_entry_a_node()
    ensures { (t : Tree ℕ) → IsSmallest 1 t → nodes t ≡ length (list t) }
{}

#[test]
fn trees_have_their_heights(rt: HostRuntime) {
    smallest_trees_of_one_entry_a_node();
    let rows = [
        (1, 1),
        (5, 1),
        (6, 2),
        (9, 2),
        (17, 2),
        (35, 2),
        (36, 3),
        (112, 3),
        (215, 3),
        (100000, 7),
    ];
    for (count, levels) in rows {
        assert!(rt; count > 0);
        same(&rt, entries_to_height::<5>(count), levels);
    }
    same(&rt, entries_to_height::<1>(4), 3);
    same(&rt, entries_to_height::<1>(4294967295), 32);
}

// A leaf has 48 bytes, an inner node 68 and the map 8. Of 20000 nodes 3334 are inner ones.
#[test]
fn built_trees_have_as_many_nodes_as_they_need(rt: HostRuntime) -> Result<(), Fail> {
    let rows = [
        (1, 56),
        (5, 56),
        (6, 124),
        (9, 124),
        (17, 220),
        (35, 364),
        (36, 432),
        (112, 1192),
        (215, 2212),
        (100000, 1026688),
    ];
    for (count, bytes) in rows {
        let entries = tens(rt.alloc(), count)?;
        let mut writer = VecWriter::new(rt.alloc());
        archive::<5>(&rt, rt.alloc(), entries.len(), &entries, &mut writer)?;
        same(&rt, writer.bytes().len(), bytes);
    }
    Ok(())
}

#[test]
fn maps_of_up_to_200_entries_are_walked(rt: HostRuntime) -> Result<(), Fail> {
    for count in 0..=200 {
        let entries = tens(rt.alloc(), count)?;
        let mut writer = VecWriter::new(rt.alloc());
        let pos = archive::<5>(&rt, rt.alloc(), entries.len(), &entries, &mut writer)?;
        let map = opened::<ArchivedU32, ArchivedU32, 5>(&rt, writer.bytes(), pos);
        same(&rt, map.len(), count as usize);
        same(&rt, map.iter().count(), count as usize);
    }
    Ok(())
}

// A node of more than 4294967295 bytes doesn't fit.
#[test]
fn a_node_of_one_entry_has_its_sizes(rt: HostRuntime) {
    assert!(rt; layout::fits::<ArchivedU64, u8, 1>());
    same(&rt, layout::key_at::<ArchivedU64, u8, 1>(0), 8);
    same(&rt, layout::value_at::<ArchivedU64, u8, 1>(0), 16);
    same(&rt, layout::len_at::<ArchivedU64, u8, 1>(), 24);
    same(&rt, layout::leaf_size::<ArchivedU64, u8, 1>(), 32);
    same(&rt, layout::lesser_at::<ArchivedU64, u8, 1>(0), 24);
    same(&rt, layout::greater_at::<ArchivedU64, u8, 1>(), 28);
    same(&rt, layout::inner_size::<ArchivedU64, u8, 1>(), 32);
    same(&rt, layout::align::<ArchivedU64, u8, 1>(), 8);
    same(&rt, layout::node_align::<u8, u8, 1>(), 1);
    assert!(rt; layout::fits::<ArchivedU32, ArchivedU32, 357913940>());
    assert!(rt; !layout::fits::<ArchivedU32, ArchivedU32, 357913941>());
    assert!(rt; !layout::fits::<ArchivedU32, ArchivedU32, 0>());
    assert!(rt; Numbers::fits());
}
