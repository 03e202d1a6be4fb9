//! The last entry of a map.
ghost use Rattle.std.specs.List.{last_or};
ghost use Rattle.std.specs.Option.{option_map};
ghost use Rattle.std.specs.Prelude.{◌≡◌, ◌+◌, IfSome, IsTrue, None};
ghost use Rattle.rkyv_btree_format.specs.Layout.{layout_of};
ghost use Rattle.rkyv_btree_portable.specs.Views.{stands};
ghost use Rattle.rkyv_btree_walk.specs.EntryPlaces.{entry_places, place_of};
ghost use Rattle.rkyv_btree_walk.specs.mirror.Node.{RunStands, TreeCanBeRead};
ghost use Rattle.rkyv_btree_walk.specs.mirror.Path.{tree_rest};

use crate::archived_map::{ArchivedMap, map_len};
use crate::entry_place::EntryPlace;
use crate::node::{child, is_leaf, leaf_count, root};
use rkyv_btree_portable::check::Portable;

/// The last entry of the tree at `from`: that of the lowest of its last children that has one.
fn last_of_tree<K: Portable, V: Portable, M: ArchivedMap<Key = K, Mapped = V>>(
    buf: &[u8],
    from: u32,
) -> Option<EntryPlace>
    requires { TreeCanBeRead K.kind V.kind M.E buf.now from }
    ensures stands { IfSome result (λ place.
        RunStands K.kind V.kind M.E buf.now place.node place.index (place.index + 1)) }
    ensures last { option_map place_of result
        ≡ last_or None (tree_rest (layout_of K.kind V.kind M.E) buf.now 32 from 0) }
{
    let mut last = None;
    let mut node = from;
    'down: loop {
        if is_leaf::<K, V, M>(buf, node) {
            let count = leaf_count::<K, V, M>(buf, node) as usize;
            if count == 0 {
                return last;
            }
            return Some(EntryPlace {
                node,
                index: count - 1,
            });
        }
        let count = M::entries_per_node();
        last = Some(EntryPlace {
            node,
            index: count - 1,
        });
        match child::<K, V, M>(buf, node, count) {
            None => return last,
            Some(below) => node = below,
        }
    }
}

/// Returns the place of the last entry of the map at `pos`, or `None` if it has none. One node a level is read.
pub fn last<K: Portable, V: Portable, M: ArchivedMap<Key = K, Mapped = V>>(
    buf: &[u8],
    pos: u32,
) -> Option<EntryPlace>
    requires { IsTrue (stands M.kind buf.now pos) }
    ensures stands { IfSome result (λ place.
        RunStands K.kind V.kind M.E buf.now place.node place.index (place.index + 1)) }
    ensures last { option_map place_of result
        ≡ last_or None (entry_places K.kind V.kind M.E buf.now pos) }
{
    M::opened(buf, pos);
    if map_len::<K, V, M>(buf, pos) > 0 {
        return last_of_tree::<K, V, M>(buf, root(buf, pos));
    }
    None
}
