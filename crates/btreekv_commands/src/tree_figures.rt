//! How many nodes and bytes the tree of an archive has.
ghost use Rattle.std.specs.Prelude.{◌≡◌, ◌≤◌, ◌<◌, ◌+◌, ℕ, List, length, true, false};
ghost use Rattle.rkyv_btree_format.specs.Layout.{key_at, value_at};
ghost use Rattle.rkyv_btree_format.specs.OwnBytes.{own_at};
ghost use Rattle.rkyv_btree_walk.specs.Nodes.{entry_count, is_leaf as is_leaf_at};
ghost use Rattle.btreekv_commands.specs.Figures.{above, archive_figures, beside, nothing, of_inner, of_leaf, size_of};
ghost use Rattle.btreekv_commands.specs.Lines.{Entry};
ghost use Rattle.btreekv_commands.specs.Nodes.{text_layout};
ghost use Rattle.btreekv_commands.specs.Opening.{IsArchive, texts};
ghost use Rattle.btreekv_commands.specs.mirror.Levels.{HasNode};
ghost use Rattle.btreekv_commands.specs.mirror.Sums.{IsSpelled, node_keys, node_values, tree_sum};

use crate::nodes::{child, entries_of, is_leaf, key_part, root_of, value_part};
use rkyv_btree_portable::check::Window;

/// The most levels of a tree that is valid.
const MOST_LEVELS: u32 = 32;

/// What a tree has.
#[derive(Clone, Copy, Debug, PartialEq, Eq)]
pub(crate) struct TreeFigures {
    pub levels: u64,
    pub inner_nodes: u64,
    pub leaves: u64,
    /// The bytes of the texts of all keys.
    pub key_bytes: u64,
    /// The bytes of the texts of all values.
    pub value_bytes: u64,
}

/// What no tree has.
const NOTHING: TreeFigures = TreeFigures {
    levels: 0,
    inner_nodes: 0,
    leaves: 0,
    key_bytes: 0,
    value_bytes: 0,
};

/// Returns what two trees side by side have.
fn beside(a: TreeFigures, b: TreeFigures) -> TreeFigures
    requires { size_of a + size_of b ≤ 4294967295 }
    ensures { result ≡ beside a b }
{
    TreeFigures {
        levels: a.levels.max(b.levels),
        inner_nodes: a.inner_nodes + b.inner_nodes,
        leaves: a.leaves + b.leaves,
        key_bytes: a.key_bytes + b.key_bytes,
        value_bytes: a.value_bytes + b.value_bytes,
    }
}

/// Returns what a node and the trees below it have.
fn above(node: TreeFigures, below: TreeFigures) -> TreeFigures
    requires size { size_of node + size_of below ≤ 4294967295 }
    requires levels { node.levels + below.levels ≤ 4294967295 }
    ensures { result ≡ above node below }
{
    TreeFigures {
        levels: node.levels + below.levels,
        inner_nodes: node.inner_nodes + below.inner_nodes,
        leaves: node.leaves + below.leaves,
        key_bytes: node.key_bytes + below.key_bytes,
        value_bytes: node.value_bytes + below.value_bytes,
    }
}

/// Returns the number of bytes of a part.
fn len_of(part: Window) -> u64
    requires { part.lo ≤ part.hi }
    ensures { result + part.lo ≡ part.hi }
{
    u64::from(part.hi - part.lo)
}

/// Returns the number of bytes of the keys of a node.
fn key_bytes(archive: &[u8], node: u32) -> u64
    requires short { length archive.now ≤ 4294967295 }
    requires node { HasNode archive.now node }
    ensures { result ≡ node_keys archive.now node }
{
    let mut total = 0;
    'keys: for index in 0..entries_of(archive, node) {
        total += len_of(key_part(archive, node, index));
    }
    total
}

/// Returns the number of bytes of the values of a node.
fn value_bytes(archive: &[u8], node: u32) -> u64
    requires short { length archive.now ≤ 4294967295 }
    requires node { HasNode archive.now node }
    ensures { result ≡ node_values archive.now node }
{
    let mut total = 0;
    'values: for index in 0..entries_of(archive, node) {
        total += len_of(value_part(archive, node, index));
    }
    total
}

/// Returns what a node has, without those below it.
fn of_node(archive: &[u8], node: u32) -> TreeFigures
    requires short { length archive.now ≤ 4294967295 }
    requires node { HasNode archive.now node }
    ensures leaf { is_leaf_at text_layout archive.now node ≡ true →
        result ≡ of_leaf (node_keys archive.now node) (node_values archive.now node) }
    ensures inner { is_leaf_at text_layout archive.now node ≡ false →
        result ≡ of_inner (node_keys archive.now node) (node_values archive.now node) }
{
    let is_leaf = is_leaf(archive, node);
    TreeFigures {
        levels: 1,
        inner_nodes: u64::from(!is_leaf),
        leaves: u64::from(is_leaf),
        key_bytes: key_bytes(archive, node),
        value_bytes: value_bytes(archive, node),
    }
}

/// Returns what the tree of a node has, which has at most so many levels.
fn of_tree(archive: &[u8], node: u32, levels: u32) -> TreeFigures
    requires short { length archive.now ≤ 4294967295 }
    requires spelled { IsSpelled archive.now levels node }
    ensures { result ≡ tree_sum archive.now levels node }
{
    let own = of_node(archive, node);
    if is_leaf(archive, node) {
        return own;
    }
    let mut below = NOTHING;
    'children: for index in 0..6 {
        if let Some(child) = child(archive, node, index) {
            below = beside(below, of_tree(archive, child, levels - 1));
        }
    }
    above(own, below)
}

/// Returns what the tree of an archive has, whose map is at position `pos`.
pub(crate) fn of_archive(archive: &[u8], pos: u32) -> TreeFigures
    requires position { pos ≡ own_at texts archive.now }
    requires archive { (m : List Entry) × IsArchive archive.now m }
    ensures value { (m : List Entry) (is : IsArchive archive.now m) →
        result ≡ archive_figures archive.now m is }
    ensures small { size_of result + 8 ≤ length archive.now }
{
    match root_of(archive, pos) {
        None => NOTHING,
        Some(root) => of_tree(archive, root, MOST_LEVELS),
    }
}
