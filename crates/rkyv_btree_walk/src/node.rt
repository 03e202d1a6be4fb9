//! The nodes of an archived map: where their entries and their children stand.
ghost use Rattle.std.specs.Prelude.{◌≡◌, ◌+◌, ◌≤◌, ◌<◌, length, IsTrue, Some, true, false};
ghost use Rattle.rkyv_btree_portable.specs.Bytes.{place_at, number_at};
ghost use Rattle.rkyv_btree_format.specs.Layout.{layout_of, are_fitting, key_at, value_at, leaf_size, len_at};
ghost use Rattle.rkyv_btree_walk.specs.Nodes.{natural, is_leaf as is_leaf_at, child_place};
ghost use Rattle.rkyv_btree_walk.specs.mirror.Node.{LeadsBefore, NodeStands};

use crate::archived_map::ArchivedMap;
use rkyv_btree_portable::bytes::{num32, target};
use rkyv_btree_portable::check::Portable;

/// Returns the position of a node, which is before `end`.
fn node_at(place: i64, end: u32) -> u32
    requires { LeadsBefore end (Some place) }
    ensures { natural (Some place) ≡ Some result }
{
    place as u32
}

/// Whether the node at `node` is a leaf.
pub(crate) fn is_leaf<K: Portable, V: Portable, M: ArchivedMap<Key = K, Mapped = V>>(
    buf: &[u8],
    node: u32,
) -> bool
    requires fitting { IsTrue (are_fitting K.kind V.kind M.E) }
    requires node { NodeStands K.kind V.kind M.E buf.now node }
    ensures { result ≡ is_leaf_at (layout_of K.kind V.kind M.E) buf.now node }
{
    buf[node as usize] == 0
}

/// The number of entries in the leaf at `node`.
pub(crate) fn leaf_count<K: Portable, V: Portable, M: ArchivedMap<Key = K, Mapped = V>>(
    buf: &[u8],
    node: u32,
) -> u32
    requires fitting { IsTrue (are_fitting K.kind V.kind M.E) }
    requires short { length buf.now ≤ 4294967295 }
    requires node { NodeStands K.kind V.kind M.E buf.now node }
    requires leaf { is_leaf_at (layout_of K.kind V.kind M.E) buf.now node ≡ true }
    ensures { result ≡ number_at buf.now (node + len_at (layout_of K.kind V.kind M.E)) 4 }
{
    num32(buf, node + M::len_at())
}

/// The child before entry `i` of the inner node at `node`, or after its last entry.
pub(crate) fn child<K: Portable, V: Portable, M: ArchivedMap<Key = K, Mapped = V>>(
    buf: &[u8],
    node: u32,
    i: usize,
) -> Option<u32>
    requires fitting { IsTrue (are_fitting K.kind V.kind M.E) }
    requires short { length buf.now ≤ 4294967295 }
    requires node { NodeStands K.kind V.kind M.E buf.now node }
    requires inner { is_leaf_at (layout_of K.kind V.kind M.E) buf.now node ≡ false }
    requires within { i ≤ M.E }
    ensures { result ≡ child_place (layout_of K.kind V.kind M.E) buf.now node i }
{
    match target(buf, node + M::pointer_at(i)) {
        None => None,
        Some(place) => Some(node_at(place, node)),
    }
}

/// Returns the position of the key of entry `i` of the node at `node`.
pub fn key_pos<K: Portable, V: Portable, M: ArchivedMap<Key = K, Mapped = V>>(
    node: u32,
    i: usize,
) -> u32
    requires fitting { IsTrue (are_fitting K.kind V.kind M.E) }
    requires within { i < M.E }
    requires near { node + leaf_size (layout_of K.kind V.kind M.E) ≤ 4294967295 }
    ensures { result ≡ node + key_at (layout_of K.kind V.kind M.E) i }
{
    node + M::key_at(i)
}

/// Returns the position of the value of entry `i` of the node at `node`.
pub fn value_pos<K: Portable, V: Portable, M: ArchivedMap<Key = K, Mapped = V>>(
    node: u32,
    i: usize,
) -> u32
    requires fitting { IsTrue (are_fitting K.kind V.kind M.E) }
    requires within { i < M.E }
    requires near { node + leaf_size (layout_of K.kind V.kind M.E) ≤ 4294967295 }
    ensures { result ≡ node + value_at (layout_of K.kind V.kind M.E) i }
{
    node + M::value_at(i)
}

/// The root node of the map at `pos`.
#[tactic(auto, unfolding(rkyv_btree_portable::specs::Bytes::place_at))]
pub(crate) fn root(buf: &[u8], pos: u32) -> u32
    requires inside { pos + 4 ≤ length buf.now }
    requires leads { LeadsBefore pos (Some (place_at buf.now pos)) }
    ensures { natural (Some (place_at buf.now pos)) ≡ Some result }
{
    let offset = num32(buf, pos).cast_signed();
    node_at(i64::from(pos) + i64::from(offset), pos)
}
