//! Steps along the entries of a tree, over the path of nodes from its root.
ghost use Rattle.std.specs.Prelude.{◌≡◌, ℕ, ◌+◌, ◌-◌, ◌≤◌, ◌<◌, [], ◌++◌, length, Option, Some, None, IfSome, IsSome, IsTrue, true, false};
ghost use Rattle.rkyv_btree_portable.specs.Bytes.{number_at};
ghost use Rattle.rkyv_btree_format.specs.Layout.{layout_of, len_at, are_fitting};
ghost use Rattle.rkyv_btree_format.specs.Read.{map_tree};
ghost use Rattle.rkyv_btree_shape.specs.Tree.{list};
ghost use Rattle.rkyv_btree_portable.specs.Views.{stands};
ghost use Rattle.rkyv_btree_walk.specs.Below.{root_place, IsBelow, PathBelow};
ghost use Rattle.rkyv_btree_walk.specs.mirror.Below.{LeafBelow, StepStaysBelow};
ghost use Rattle.rkyv_btree_walk.specs.Nodes.{is_leaf as is_leaf_at, child_place};
ghost use Rattle.rkyv_btree_walk.specs.mirror.Node.{TreeStands};
ghost use Rattle.rkyv_btree_walk.specs.mirror.Path.{tree_rest, leaf_rest, LeafStands, StepStands, Steps, IsPath};
ghost use Rattle.rkyv_btree_walk.specs.Paths.{path_rest};

use crate::archived_map::{ArchivedMap, map_len};
use crate::node::{child, is_leaf, leaf_count, root};
use arrayvec::ArrayVec;
use rkyv_btree_portable::check::Portable;

/// The inner nodes from the root on, one a level, each with the number of its next entry. A tree has at most 32 levels.
pub type Path = ArrayVec<(u32, u32), 32>;

/// A leaf that a walk has come to, with the number of its entries, which is 0 if no leaf comes next.
#[derive(Clone, Copy)]
pub struct Leaf {
    /// The position of the leaf.
    pub node: u32,
    /// How many entries it has.
    pub count: u32,
}

/// An entry of an inner node, and the leaf after it.
#[derive(Clone, Copy)]
pub struct Step {
    /// The position of the inner node.
    pub node: u32,
    /// The number of the entry in it.
    pub index: u32,
    /// The leaf, from which the walk goes on.
    pub leaf: Leaf,
}

/// Goes down from the node at `node` to the leaf below its first child and the first children of these, and puts the
/// inner nodes met on the path.
pub(crate) fn descend<K: Portable, V: Portable, M: ArchivedMap<Key = K, Mapped = V>>(
    buf: &[u8],
    node: u32,
    path: &mut Path,
) -> Leaf
    requires fitting { IsTrue (are_fitting K.kind V.kind M.E) }
    requires short { length buf.now ≤ 4294967295 }
    requires path { IsPath K.kind V.kind M.E buf.now 32 path.old.items }
    requires tree { TreeStands K.kind V.kind M.E buf.now (32 - length path.old.items) node }
    ensures path { IsPath K.kind V.kind M.E buf.now 32 path.new.items }
    ensures stands { LeafStands K.kind V.kind M.E buf.now result }
    ensures rest { let s = layout_of K.kind V.kind M.E in
        leaf_rest s buf.now result path.new.items
        ≡ tree_rest s buf.now (32 - length path.old.items) node 0
        ++ path_rest s buf.now 32 path.old.items }
    ensures below { let s = layout_of K.kind V.kind M.E in
        (root : Option ℕ) → PathBelow s buf.now root 0 path.old.items
        → IsBelow s buf.now root (length path.old.items) node
        → LeafBelow s buf.now root result path.new.items }
{
    let mut at = node;
    'down: loop {
        if is_leaf::<K, V, M>(buf, at) {
            return Leaf {
                node: at,
                count: leaf_count::<K, V, M>(buf, at),
            };
        }
        path.push((at, 0));
        match child::<K, V, M>(buf, at, 0) {
            None => return Leaf { node: at, count: 0 },
            Some(below) => at = below,
        }
    }
}

/// Takes the first entry that is left of the path, and finds the leaf after it.
#[inline(always)]
pub(crate) fn climb<K: Portable, V: Portable, M: ArchivedMap<Key = K, Mapped = V>>(
    buf: &[u8],
    path: &mut Path,
) -> Option<Step>
    requires fitting { IsTrue (are_fitting K.kind V.kind M.E) }
    requires short { length buf.now ≤ 4294967295 }
    requires path { IsPath K.kind V.kind M.E buf.now 32 path.old.items }
    ensures path { IsPath K.kind V.kind M.E buf.now 32 path.new.items }
    ensures entry { IfSome result (StepStands K.kind V.kind M.E buf.now) }
    ensures leaf { IfSome result (λ e. LeafStands K.kind V.kind M.E buf.now e.leaf) }
    ensures rest { Steps (layout_of K.kind V.kind M.E) buf.now result path.old.items
        path.new.items }
    ensures below { StepStaysBelow (layout_of K.kind V.kind M.E) buf.now path.old.items
        path.new.items result }
{
    'up: while let Some((node, index)) = path.pop() {
        if (index as usize) < M::entries_per_node() {
            let next = index + 1;
            path.push((node, next));
            let leaf = match child::<K, V, M>(buf, node, next as usize) {
                None => Leaf { node, count: 0 },
                Some(below) => descend::<K, V, M>(buf, below, path),
            };
            return Some(Step { node, index, leaf });
        }
    }
    None
}

/// Finds the leaf after entry `index` of the inner node at `node`, if there is such an entry and the child after it is a leaf.
#[inline(always)]
fn leaf_after<K: Portable, V: Portable, M: ArchivedMap<Key = K, Mapped = V>>(
    buf: &[u8],
    node: u32,
    index: u32,
) -> Option<Leaf>
    requires fitting { IsTrue (are_fitting K.kind V.kind M.E) }
    requires short { length buf.now ≤ 4294967295 }
    requires tree { (levels : ℕ) × TreeStands K.kind V.kind M.E buf.now levels node }
    requires inner { is_leaf_at (layout_of K.kind V.kind M.E) buf.now node ≡ false }
    ensures within { IsSome result → index < M.E }
    ensures child { IfSome result (λ leaf.
        child_place (layout_of K.kind V.kind M.E) buf.now node (index + 1) ≡ Some leaf.node) }
    ensures leaf { IfSome result (λ leaf.
        is_leaf_at (layout_of K.kind V.kind M.E) buf.now leaf.node ≡ true) }
    ensures count { IfSome result (λ leaf. leaf.count
        ≡ number_at buf.now (leaf.node + len_at (layout_of K.kind V.kind M.E)) 4) }
{
    if M::entries_per_node() > index as usize {
        let below = child::<K, V, M>(buf, node, index as usize + 1)?;
        if is_leaf::<K, V, M>(buf, below) {
            let count = leaf_count::<K, V, M>(buf, below);
            return Some(Leaf { node: below, count });
        }
    }
    None
}

/// Takes the next entry of the path's last node, and finds the leaf after it. The path is unchanged if one of the two is
/// missing.
#[inline(always)]
pub(crate) fn next_leaf<K: Portable, V: Portable, M: ArchivedMap<Key = K, Mapped = V>>(
    buf: &[u8],
    path: &mut Path,
) -> Option<Step>
    requires fitting { IsTrue (are_fitting K.kind V.kind M.E) }
    requires short { length buf.now ≤ 4294967295 }
    requires path { IsPath K.kind V.kind M.E buf.now 32 path.old.items }
    ensures path { IsPath K.kind V.kind M.E buf.now 32 path.new.items }
    ensures entry { IfSome result (StepStands K.kind V.kind M.E buf.now) }
    ensures leaf { IfSome result (λ e. LeafStands K.kind V.kind M.E buf.now e.leaf) }
    ensures rest { IfSome result (λ e. Steps (layout_of K.kind V.kind M.E) buf.now (Some e)
        path.old.items path.new.items) }
    ensures below { StepStaysBelow (layout_of K.kind V.kind M.E) buf.now path.old.items
        path.new.items result }
    ensures stays { result ≡ None → path.new.items ≡ path.old.items }
{
    match path.pop() {
        None => None,
        Some((node, index)) => {
            let leaf = leaf_after::<K, V, M>(buf, node, index);
            match leaf {
                None => {
                    path.push((node, index));
                    None
                }
                Some(leaf) => {
                    path.push((node, index + 1));
                    Some(Step { node, index, leaf })
                }
            }
        }
    }
}

/// Does as `climb` does, in a function of its own, so that `advance` is short.
#[inline(never)]
fn climb_apart<K: Portable, V: Portable, M: ArchivedMap<Key = K, Mapped = V>>(
    buf: &[u8],
    path: &mut Path,
) -> Option<Step>
    requires fitting { IsTrue (are_fitting K.kind V.kind M.E) }
    requires short { length buf.now ≤ 4294967295 }
    requires path { IsPath K.kind V.kind M.E buf.now 32 path.old.items }
    ensures path { IsPath K.kind V.kind M.E buf.now 32 path.new.items }
    ensures entry { IfSome result (StepStands K.kind V.kind M.E buf.now) }
    ensures leaf { IfSome result (λ e. LeafStands K.kind V.kind M.E buf.now e.leaf) }
    ensures rest { Steps (layout_of K.kind V.kind M.E) buf.now result path.old.items
        path.new.items }
    ensures below { StepStaysBelow (layout_of K.kind V.kind M.E) buf.now path.old.items
        path.new.items result }
{
    climb::<K, V, M>(buf, path)
}

/// Takes the first entry that is left of the path, and finds the leaf after it. Most steps lead to the next leaf below one inner node, and
/// are made without a call.
#[inline(always)]
pub fn advance<K: Portable, V: Portable, M: ArchivedMap<Key = K, Mapped = V>>(
    buf: &[u8],
    path: &mut Path,
) -> Option<Step>
    requires fitting { IsTrue (are_fitting K.kind V.kind M.E) }
    requires short { length buf.now ≤ 4294967295 }
    requires path { IsPath K.kind V.kind M.E buf.now 32 path.old.items }
    ensures path { IsPath K.kind V.kind M.E buf.now 32 path.new.items }
    ensures entry { IfSome result (StepStands K.kind V.kind M.E buf.now) }
    ensures leaf { IfSome result (λ e. LeafStands K.kind V.kind M.E buf.now e.leaf) }
    ensures rest { Steps (layout_of K.kind V.kind M.E) buf.now result path.old.items
        path.new.items }
    ensures below { StepStaysBelow (layout_of K.kind V.kind M.E) buf.now path.old.items
        path.new.items result }
{
    match next_leaf::<K, V, M>(buf, path) {
        None => climb_apart::<K, V, M>(buf, path),
        Some(step) => Some(step),
    }
}

/// Puts the nodes from the root of the map at `pos` to its first leaf on an empty path, and finds that leaf.
pub fn begin<K: Portable, V: Portable, M: ArchivedMap<Key = K, Mapped = V>>(
    buf: &[u8],
    pos: u32,
    path: &mut Path,
) -> Leaf
    requires stands { IsTrue (stands M.kind buf.now pos) }
    requires empty { path.old.items ≡ [] }
    ensures path { IsPath K.kind V.kind M.E buf.now 32 path.new.items }
    ensures stands { LeafStands K.kind V.kind M.E buf.now result }
    ensures rest { let s = layout_of K.kind V.kind M.E in
        leaf_rest s buf.now result path.new.items ≡ list (map_tree s buf.now pos) }
    ensures below { LeafBelow (layout_of K.kind V.kind M.E) buf.now (root_place buf.now pos) result
        path.new.items }
{
    M::opened(buf, pos);
    if map_len::<K, V, M>(buf, pos) > 0 {
        return descend::<K, V, M>(buf, root(buf, pos), path);
    }
    Leaf { node: 0, count: 0 }
}
