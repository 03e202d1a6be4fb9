//! Ways down to the first entry of a tree that reaches a query, beside which a range begins or stops.
ghost use Rattle.std.specs.Prelude.{◌≡◌, ℕ, ◌+◌, ◌≤◌, ◌<◌, [], length, IsTrue, Some, true, false};
ghost use Rattle.std.specs.declared.cmp.Ordering.{Ordering as Comparison};
ghost use Rattle.rkyv_btree_portable.specs.Bytes.{number_at};
ghost use Rattle.rkyv_btree_format.specs.Layout.{layout_of, len_at, are_fitting};
ghost use Rattle.rkyv_btree_portable.specs.Views.{stands};
ghost use Rattle.rkyv_btree_walk.specs.Search.{ComparesBy, shown_value};
ghost use Rattle.rkyv_btree_walk.specs.mirror.Below.{PartBelow};
ghost use Rattle.rkyv_btree_walk.specs.Nodes.{is_leaf as is_leaf_at};
ghost use Rattle.rkyv_btree_walk.specs.mirror.Node.{NodeStands, RunStands, RunCanBeRead, TreeStands, TreeCanBeRead};
ghost use Rattle.rkyv_btree_walk.specs.mirror.Path.{tree_rest, IsPath};
ghost use Rattle.rkyv_btree_walk.specs.mirror.Range.{is_reached, reached_at, IsFirst, Climbs, IsKept, IsFound, IsFoundOr};
ghost use Rattle.rkyv_btree_walk.specs.Bounds.{IsEnd};
ghost use Rattle.rkyv_btree_walk.specs.mirror.Range.{tree_list, part_rest, PartStands};

use crate::archived_map::ArchivedMap;
use crate::node::{child, is_leaf, key_pos, leaf_count};
use crate::path::Path;
use crate::shows::Shows;
use rkyv_btree_portable::check::Portable;
use std::cmp::Ordering;

/// What is left of a leaf: its entries from number `next` to before number `end`.
#[derive(Clone, Copy)]
pub struct Part {
    /// The position of the leaf.
    pub node: u32,
    /// The number of the first entry left.
    pub next: u32,
    /// The number after the last one.
    pub end: u32,
}

/// Whether the key at `pos` reaches the query: it isn't before it, or where `past` is true, it is after it.
#[inline(always)]
pub(crate) fn reaches<'a, Q, K: Portable, W: Shows<'a, K>, C: Fn(&Q, W) -> Ordering>(
    buf: &'a [u8],
    pos: u32,
    key: &Q,
    cmp: &C,
    past: bool,
) -> bool
    requires callable { C.IsAlwaysCallable cmp.now }
    requires stands { IsTrue (stands K.kind buf.now pos) }
    ensures { (c : Q → K.kind.Value → Comparison) → ComparesBy (C.post cmp.now) (shown_value K.kind W.Shows) c
        → result ≡ is_reached past (c key.now (K.kind.read buf.now pos)) }
{
    let order = cmp(key, W::at(buf, pos));
    if past {
        return order.is_lt();
    }
    order.is_le()
}

/// The first number from `from` to before `count` at which the node's key reaches the query, or `count`: keys are compared
/// up to that one.
#[inline(always)]
fn scan_node<
    'a,
    Q,
    K: Portable,
    V: Portable,
    M: ArchivedMap<Key = K, Mapped = V>,
    W: Shows<'a, K>,
    C: Fn(&Q, W) -> Ordering,
>(buf: &'a [u8], node: u32, from: u32, count: u32, key: &Q, cmp: &C, past: bool) -> u32
    requires callable { C.IsAlwaysCallable cmp.now }
    requires run { RunCanBeRead K.kind V.kind M.E buf.now node from count }
    requires ends { from ≤ count }
    ensures begins { from ≤ result }
    ensures within { result ≤ count }
    ensures first { (c : Q → K.kind.Value → Comparison)
        → ComparesBy (C.post cmp.now) (shown_value K.kind W.Shows) c
        → IsFirst (λ i. reached_at K.kind V.kind M.E buf.now past (c key.now) (node, i)) from count
        result }
{
    for i in from..count {
        let pos = key_pos::<K, V, M>(node, i as usize);
        if reaches::<Q, K, W, C>(buf, pos, key, cmp, past) {
            return i;
        }
    }
    count
}

/// The same where the keys are ordered for the query: all keys are compared, and those that don't reach it are counted, so
/// that no jump depends on a key.
#[inline(always)]
fn count_node<
    'a,
    Q,
    K: Portable,
    V: Portable,
    M: ArchivedMap<Key = K, Mapped = V>,
    W: Shows<'a, K>,
    C: Fn(&Q, W) -> Ordering,
>(buf: &'a [u8], node: u32, from: u32, count: u32, key: &Q, cmp: &C, past: bool) -> u32
    requires callable { C.IsAlwaysCallable cmp.now }
    requires run { RunCanBeRead K.kind V.kind M.E buf.now node from count }
    requires ends { from ≤ count }
    ensures begins { from ≤ result }
    ensures within { result ≤ count }
    ensures first { (c : Q → K.kind.Value → Comparison)
        → ComparesBy (C.post cmp.now) (shown_value K.kind W.Shows) c
        → let test = λ (i : ℕ). reached_at K.kind V.kind M.E buf.now past (c key.now) (node, i) in
        Climbs test from count → IsFirst test from count result }
{
    let mut next = from;
    for i in from..count {
        let pos = key_pos::<K, V, M>(node, i as usize);
        next += u32::from(!reaches::<Q, K, W, C>(buf, pos, key, cmp, past));
    }
    next
}

/// Whether a key is one number, by its size: then it is compared faster than a jump is made that can't be foreseen.
#[inline(always)]
pub(crate) fn is_one_number<K: Portable>() -> bool
    requires { IsTrue K.kind.is_fitting }
{
    K::size() <= K::align()
}

/// The first number from `from` to before `count` at which the node's key reaches the query, or `count`, where the keys
/// are ordered for the query.
#[inline(always)]
fn seek_node<
    'a,
    Q,
    K: Portable,
    V: Portable,
    M: ArchivedMap<Key = K, Mapped = V>,
    W: Shows<'a, K>,
    C: Fn(&Q, W) -> Ordering,
>(buf: &'a [u8], node: u32, from: u32, count: u32, key: &Q, cmp: &C, past: bool) -> u32
    requires callable { C.IsAlwaysCallable cmp.now }
    requires run { RunCanBeRead K.kind V.kind M.E buf.now node from count }
    requires ends { from ≤ count }
    ensures begins { from ≤ result }
    ensures within { result ≤ count }
    ensures first { (c : Q → K.kind.Value → Comparison)
        → ComparesBy (C.post cmp.now) (shown_value K.kind W.Shows) c
        → let test = λ (i : ℕ). reached_at K.kind V.kind M.E buf.now past (c key.now) (node, i) in
        Climbs test from count → IsFirst test from count result }
{
    if is_one_number::<K>() {
        return count_node::<Q, K, V, M, W, C>(buf, node, from, count, key, cmp, past);
    }
    scan_node::<Q, K, V, M, W, C>(buf, node, from, count, key, cmp, past)
}

/// Returns the number of entries in the leaf at `node`, all of which are valid.
#[inline(always)]
fn leaf_end<K: Portable, V: Portable, M: ArchivedMap<Key = K, Mapped = V>>(
    buf: &[u8],
    node: u32,
) -> u32
    requires fitting { IsTrue (are_fitting K.kind V.kind M.E) }
    requires short { length buf.now ≤ 4294967295 }
    requires node { NodeStands K.kind V.kind M.E buf.now node }
    requires leaf { is_leaf_at (layout_of K.kind V.kind M.E) buf.now node ≡ true }
    ensures count { result ≡ number_at buf.now (node + len_at (layout_of K.kind V.kind M.E)) 4 }
    ensures stands { RunStands K.kind V.kind M.E buf.now node 0 result }
{
    leaf_count::<K, V, M>(buf, node)
}

/// Returns the number of entries in the inner node at `_node`, all of which are valid.
#[inline(always)]
fn inner_end<K: Portable, V: Portable, M: ArchivedMap<Key = K, Mapped = V>>(
    _buf: &[u8],
    _node: u32,
) -> u32
    requires fitting { IsTrue (are_fitting K.kind V.kind M.E) }
    requires node { NodeStands K.kind V.kind M.E _buf.now _node }
    requires inner { is_leaf_at (layout_of K.kind V.kind M.E) _buf.now _node ≡ false }
    ensures count { result ≡ M.E }
    ensures stands { RunStands K.kind V.kind M.E _buf.now _node 0 result }
{
    M::entries_per_node() as u32
}

/// Goes down from the node at `root` beside the first entry whose key reaches the query, and puts the inner nodes met on
/// the empty path: left are that entry and all after it, where the keys are ordered for the query.
pub(crate) fn seek<
    'a,
    Q,
    K: Portable,
    V: Portable,
    M: ArchivedMap<Key = K, Mapped = V>,
    W: Shows<'a, K>,
    C: Fn(&Q, W) -> Ordering,
>(buf: &'a [u8], root: u32, key: &Q, cmp: &C, past: bool, path: &mut Path) -> Part
    requires callable { C.IsAlwaysCallable cmp.now }
    requires tree { TreeCanBeRead K.kind V.kind M.E buf.now root }
    requires empty { path.old.items ≡ [] }
    ensures path { IsPath K.kind V.kind M.E buf.now 32 path.new.items }
    ensures within { result.next ≤ result.end }
    ensures stands { PartStands K.kind V.kind M.E buf.now result }
    ensures run { IsEnd (part_rest K.kind V.kind M.E buf.now result path.new.items)
        (tree_list K.kind V.kind M.E buf.now root) }
    ensures from { (c : Q → K.kind.Value → Comparison)
        → ComparesBy (C.post cmp.now) (shown_value K.kind W.Shows) c
        → IsKept (reached_at K.kind V.kind M.E buf.now past (c key.now))
        (tree_list K.kind V.kind M.E buf.now root)
        (part_rest K.kind V.kind M.E buf.now result path.new.items) }
    ensures below { PartBelow (layout_of K.kind V.kind M.E) buf.now (Some root) result
        path.new.items }
{
    let mut node = root;
    'down: loop {
        if is_leaf::<K, V, M>(buf, node) {
            let end = leaf_end::<K, V, M>(buf, node);
            let next = seek_node::<Q, K, V, M, W, C>(buf, node, 0, end, key, cmp, past);
            return Part { node, next, end };
        }
        let count = inner_end::<K, V, M>(buf, node);
        let next = seek_node::<Q, K, V, M, W, C>(buf, node, 0, count, key, cmp, past);
        path.push((node, next));
        match child::<K, V, M>(buf, node, next as usize) {
            None => {
                return Part {
                    node,
                    next: 0,
                    end: 0,
                };
            }
            Some(below) => node = below,
        }
    }
}

/// Entry `index` of a node with `count` entries, or else `other`.
#[inline(always)]
fn entry_or(node: u32, index: u32, count: u32, other: Option<(u32, u32)>) -> Option<(u32, u32)>
    ensures there { index < count → result ≡ Some (node, index) }
    ensures none { count ≤ index → result ≡ other }
{
    if index < count {
        Some((node, index))
    } else {
        other
    }
}

/// The first entry whose key reaches the query, of the tree at `top`, or else `other`.
fn first_below<
    'a,
    Q,
    K: Portable,
    V: Portable,
    M: ArchivedMap<Key = K, Mapped = V>,
    W: Shows<'a, K>,
    C: Fn(&Q, W) -> Ordering,
>(
    buf: &'a [u8],
    top: u32,
    key: &Q,
    cmp: &C,
    past: bool,
    other: Option<(u32, u32)>,
) -> Option<(u32, u32)>
    requires callable { C.IsAlwaysCallable cmp.now }
    requires fitting { IsTrue (are_fitting K.kind V.kind M.E) }
    requires short { length buf.now ≤ 4294967295 }
    requires tree { (levels : ℕ) × TreeStands K.kind V.kind M.E buf.now levels top }
    ensures { (levels : ℕ) → TreeStands K.kind V.kind M.E buf.now levels top
        → (c : Q → K.kind.Value → Comparison) → ComparesBy (C.post cmp.now) (shown_value K.kind W.Shows) c
        → IsFoundOr (reached_at K.kind V.kind M.E buf.now past (c key.now))
        (tree_rest (layout_of K.kind V.kind M.E) buf.now levels top 0) other result }
{
    let mut node = top;
    let mut stop = other;
    'down: loop {
        if is_leaf::<K, V, M>(buf, node) {
            let end = leaf_end::<K, V, M>(buf, node);
            let next = seek_node::<Q, K, V, M, W, C>(buf, node, 0, end, key, cmp, past);
            return entry_or(node, next, end, stop);
        }
        let count = inner_end::<K, V, M>(buf, node);
        let next = seek_node::<Q, K, V, M, W, C>(buf, node, 0, count, key, cmp, past);
        stop = entry_or(node, next, count, stop);
        match child::<K, V, M>(buf, node, next as usize) {
            None => return stop,
            Some(below) => node = below,
        }
    }
}

/// The first entry whose key reaches the query among what is left of a leaf's part and the path above it, where the keys
/// are ordered for the query. The way to it leaves the path at the first node that has an entry left before it.
pub(crate) fn first_reaching<
    'a,
    Q,
    K: Portable,
    V: Portable,
    M: ArchivedMap<Key = K, Mapped = V>,
    W: Shows<'a, K>,
    C: Fn(&Q, W) -> Ordering,
>(buf: &'a [u8], part: Part, key: &Q, cmp: &C, past: bool, path: &Path) -> Option<(u32, u32)>
    requires callable { C.IsAlwaysCallable cmp.now }
    requires fitting { IsTrue (are_fitting K.kind V.kind M.E) }
    requires short { length buf.now ≤ 4294967295 }
    requires path { IsPath K.kind V.kind M.E buf.now 32 path.now.items }
    requires within { part.next ≤ part.end }
    requires stands { PartStands K.kind V.kind M.E buf.now part }
    ensures { (c : Q → K.kind.Value → Comparison) → ComparesBy (C.post cmp.now) (shown_value K.kind W.Shows) c
        → IsFound (reached_at K.kind V.kind M.E buf.now past (c key.now))
        (part_rest K.kind V.kind M.E buf.now part path.now.items) result }
{
    let nodes = path.as_slice();
    let mut stop = None;
    for frame in nodes {
        let (node, index) = *frame;
        let count = inner_end::<K, V, M>(buf, node);
        let next = scan_node::<Q, K, V, M, W, C>(buf, node, index, count, key, cmp, past);
        stop = entry_or(node, next, count, stop);
        if index < next {
            return match child::<K, V, M>(buf, node, next as usize) {
                None => stop,
                Some(below) => first_below::<Q, K, V, M, W, C>(buf, below, key, cmp, past, stop),
            };
        }
    }
    let next = scan_node::<Q, K, V, M, W, C>(buf, part.node, part.next, part.end, key, cmp, past);
    entry_or(part.node, next, part.end, stop)
}
