//! Visits and iterators. `key_of` shows how a caller learns from a visit.
ghost use Rattle.std.specs.Prelude.{◌≡◌, ℕ, Some, None, nat_eq, if◌then◌else◌};
ghost use Rattle.rkyv_btree_base.specs.Scalars.{u32_kind};
ghost use Rattle.rkyv_btree_base.specs.Read.{read_map};
ghost use Rattle.rkyv_btree.specs.Visit.{first_given};

use crate::same::same;
use rkyv_btree::map::access_valid;
use rkyv_btree::view::View;
use rkyv_btree_base::map::ArchivedBTreeMap;
use rkyv_btree_base::numbers::ArchivedU32;
use std::ops::ControlFlow;

type Numbers = ArchivedBTreeMap<ArchivedU32, ArchivedU32, 1>;

/// The key of the first entry with this value.
fn key_of(map: View<Numbers>, value: u32) -> Option<u32>
    ensures { result ≡ first_given {Y = ℕ × ℕ} (λ e. if nat_eq e.1 value then Some e.0 else None)
        (read_map u32_kind u32_kind 1 map.entry.buf.now map.entry.pos) }
{
    map.visit(|k: View<ArchivedU32>, v: View<ArchivedU32>| {
        if v.to_native() == value {
            ControlFlow::Break(k.to_native())
        } else {
            ControlFlow::Continue(())
        }
    })
}

// A root with no child before its entry from 0 to 5, and after it an inner node with the entry from 2 to 20 between a
// leaf with the entry from 1 to 10 and an empty leaf.
#[test]
fn a_tree_is_walked(rt: HostRuntime) {
    let buf = [
        0u8, 0, 0, 0, 1, 0, 0, 0, 10, 0, 0, 0, 1, 0, 0, 0, // leaf
        0, 0, 0, 0, 0, 0, 0, 0, 0, 0, 0, 0, 0, 0, 0, 0, // empty leaf
        1, 0, 0, 0, 2, 0, 0, 0, 20, 0, 0, 0, 212, 255, 255, 255, 224, 255, 255, 255, // inner node
        1, 0, 0, 0, 0, 0, 0, 0, 5, 0, 0, 0, 1, 0, 0, 0, 220, 255, 255, 255, // root
        236, 255, 255, 255, 3, 0, 0, 0, // map
    ];
    let map = access_valid::<ArchivedU32, ArchivedU32, 1>(&buf, 72);
    assert!(rt; !map.is_empty());
    same(&rt, map.len(), 3);
    same(&rt, key_of(map, 5), Some(0));
    same(&rt, key_of(map, 10), Some(1));
    same(&rt, key_of(map, 20), Some(2));
    same(&rt, key_of(map, 2), None);
    same(&rt, map.iter().len(), 3);
    same(&rt, map.iter().count(), 3);
    same(
        &rt,
        map.iter().position(|(k, _)| k.to_native() == 2),
        Some(2),
    );
}
