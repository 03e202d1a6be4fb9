//! Cursors along the entries of a map: plain numbers that C keeps, and that are tested before they are used.
ghost use Rattle.std.specs.Prelude.{◌≡◌, ℕ, ◌+◌, ◌≤◌, IsTrue, IfSome, Some, None, true, false, length};
ghost use Rattle.rkyv_btree_portable.specs.Bytes.{place_at};
ghost use Rattle.rkyv_btree_format.specs.Layout.{layout_of, are_fitting};
ghost use Rattle.rkyv_btree_verify.specs.Map.{map_kind};
ghost use Rattle.rkyv_btree_portable.specs.Views.{stands};
ghost use Rattle.rkyv_btree_walk.specs.WalkBetween.{IsRangeWalk};
ghost use Rattle.rkyv_btree_walk.specs.Below.{root_place, IsBelow, PathBelow, RunBelow};
ghost use Rattle.rkyv_btree_walk.specs.Nodes.{natural, is_leaf as is_leaf_at, child_place, entry_count};
ghost use Rattle.rkyv_btree_walk.specs.mirror.Node.{LeadsBefore, NodeStands};
ghost use Rattle.rkyv_btree_ffi.specs.Cursors.{path_of, step_of, stop_of, IsKept};
ghost use Rattle.rkyv_btree_ffi.specs.CursorPlaces.{IsInMap, Leads, IsStep, IsPathOf, IsGood};

use arrayvec::ArrayVec;
use rkyv_btree_portable::bytes::{num32, target};
use rkyv_btree_portable::check::Portable;
use rkyv_btree_types::map::ArchivedBTreeMap;
use rkyv_btree_walk::archived_map::{ArchivedMap, map_len};
use rkyv_btree_walk::path::Path;
use rkyv_btree_walk::range_walk::RangeWalk;
use rkyv_btree_walk::seek::Part;

/// An inner node on the path of a cursor, and the number of its next entry.
#[repr(C)]
#[derive(Clone, Copy, Debug, PartialEq, Eq)]
pub struct BtreeStep {
    pub node: u32,
    pub index: u32,
}

/// A place between two entries of a map. No entry is left if all numbers are 0.
#[repr(C)]
#[derive(Clone, Copy)]
pub struct BtreeCursor {
    /// The position of the leaf.
    pub node: u32,
    /// The number of its next entry.
    pub next: u32,
    /// The number after its last entry.
    pub end: u32,
    /// How many nodes are on the path.
    pub depth: u32,
    /// Whether the walk stops before an entry.
    pub stops: u32,
    /// The node of that entry, and its number there.
    pub stop: BtreeStep,
    /// The inner nodes from the root on.
    pub path: [BtreeStep; 32],
}

/// Returns the numbers of a walk.
pub(crate) fn kept(walk: &RangeWalk) -> BtreeCursor
    ensures kept { IsKept walk.now result }
    ensures deep { result.depth ≤ 32 }
{
    let mut path = [BtreeStep { node: 0, index: 0 }; 32];
    let depth = walk.path.len();
    'nodes: for level in 0..depth {
        let (node, index) = walk.path[level];
        path[level] = BtreeStep { node, index };
    }
    let (stops, node, index) = match walk.stop {
        None => (0, 0, 0),
        Some((node, index)) => (1, node, index),
    };
    BtreeCursor {
        node: walk.part.node,
        next: walk.part.next,
        end: walk.part.end,
        depth: depth as u32,
        stops,
        stop: BtreeStep { node, index },
        path,
    }
}

/// Returns the position of a node, which is before `end`.
fn node_at(place: i64, end: u32) -> u32
    requires { LeadsBefore end (Some place) }
    ensures { natural (Some place) ≡ Some result }
{
    place as u32
}

/// Returns the root node of a map that has entries.
#[tactic(auto, unfolding(rkyv_btree_portable::specs::Bytes::place_at))]
fn root_at(buf: &[u8], pos: u32) -> u32
    requires inside { pos + 4 ≤ length buf.now }
    requires leads { LeadsBefore pos (Some (place_at buf.now pos)) }
    ensures { natural (Some (place_at buf.now pos)) ≡ Some result }
{
    let offset = num32(buf, pos).cast_signed();
    node_at(i64::from(pos) + i64::from(offset), pos)
}

/// Returns the root node of the map at `pos`, if it has entries.
fn root_node<K: Portable, V: Portable>(buf: &[u8], pos: u32) -> Option<u32>
    requires { IsTrue (stands (map_kind K.kind V.kind 5) buf.now pos) }
    ensures { result ≡ root_place buf.now pos }
{
    if num32(buf, pos + 4) == 0 {
        return None;
    }
    Some(root_at(buf, pos))
}

/// Returns the child of an inner node before its entry `index`, or after its last entry.
fn child_at<K: Portable, V: Portable>(buf: &[u8], node: u32, index: u32) -> Option<u32>
    requires fitting { IsTrue (are_fitting K.kind V.kind 5) }
    requires short { length buf.now ≤ 4294967295 }
    requires node { NodeStands K.kind V.kind 5 buf.now node }
    requires inner { is_leaf_at (layout_of K.kind V.kind 5) buf.now node ≡ false }
    requires within { index ≤ 5 }
    ensures { result ≡ child_place (layout_of K.kind V.kind 5) buf.now node index }
{
    match target(
        buf,
        node + ArchivedBTreeMap::<K, V, 5>::pointer_at(index as usize),
    ) {
        None => None,
        Some(place) => Some(node_at(place, node)),
    }
}

/// Returns the child of an inner node of the map before its entry `index`, or after its last entry.
fn child_node<K: Portable, V: Portable>(buf: &[u8], _pos: u32, node: u32, index: u32) -> Option<u32>
    requires stands { IsTrue (stands (map_kind K.kind V.kind 5) buf.now _pos) }
    requires below { IsInMap (layout_of K.kind V.kind 5) buf.now (root_place buf.now _pos) node }
    requires inner { is_leaf_at (layout_of K.kind V.kind 5) buf.now node ≡ false }
    requires within { index ≤ 5 }
    ensures { result ≡ child_place (layout_of K.kind V.kind 5) buf.now node index }
{
    child_at::<K, V>(buf, node, index)
}

/// Returns how many entries a leaf of the map has, or `None` if the node is an inner one.
fn leaf_count<K: Portable, V: Portable>(buf: &[u8], pos: u32, node: u32) -> Option<u32>
    requires stands { IsTrue (stands (map_kind K.kind V.kind 5) buf.now pos) }
    requires below { IsInMap (layout_of K.kind V.kind 5) buf.now (root_place buf.now pos) node }
    ensures count { IfSome result (λ count.
        count ≡ entry_count (layout_of K.kind V.kind 5) buf.now node) }
    ensures leaf { IfSome result (λ _. is_leaf_at (layout_of K.kind V.kind 5) buf.now node ≡ true) }
    ensures inner { result ≡ None → is_leaf_at (layout_of K.kind V.kind 5) buf.now node ≡ false }
{
    if buf[node as usize] != 0 {
        return None;
    }
    Some(num32(buf, node + ArchivedBTreeMap::<K, V, 5>::len_at()))
}

/// Returns how many entries a node of the map has.
fn count_of<K: Portable, V: Portable>(buf: &[u8], pos: u32, node: u32) -> u32
    requires stands { IsTrue (stands (map_kind K.kind V.kind 5) buf.now pos) }
    requires below { IsInMap (layout_of K.kind V.kind 5) buf.now (root_place buf.now pos) node }
    ensures { result ≡ entry_count (layout_of K.kind V.kind 5) buf.now node }
{
    match leaf_count::<K, V>(buf, pos, node) {
        None => 5,
        Some(count) => count,
    }
}

/// Returns whether so many pointers lead from a node of the map at `pos` to another.
fn leads_to<K: Portable, V: Portable>(
    buf: &[u8],
    pos: u32,
    from: u32,
    pointers: u32,
    node: u32,
) -> bool
    requires stands { IsTrue (stands (map_kind K.kind V.kind 5) buf.now pos) }
    requires below { IsInMap (layout_of K.kind V.kind 5) buf.now (root_place buf.now pos) from }
    ensures leads { result ≡ true → Leads (layout_of K.kind V.kind 5) buf.now pointers from node }
    ensures none { result ≡ false →
        Leads (layout_of K.kind V.kind 5) buf.now pointers from node → ⊥ }
{
    if pointers == 0 {
        return from == node;
    }
    if leaf_count::<K, V>(buf, pos, from).is_some() {
        return false;
    }
    'children: for index in 0..6u32 {
        if let Some(child) = child_node::<K, V>(buf, pos, from, index) {
            if leads_to::<K, V>(buf, pos, child, pointers - 1, node) {
                return true;
            }
        }
    }
    false
}

/// Returns whether a node is so many pointers below the root of the map at `pos`.
fn is_below<K: Portable, V: Portable>(buf: &[u8], pos: u32, depth: u32, node: u32) -> bool
    requires { IsTrue (stands (map_kind K.kind V.kind 5) buf.now pos) }
    ensures below { result ≡ true →
        IsBelow (layout_of K.kind V.kind 5) buf.now (root_place buf.now pos) depth node }
    ensures none { result ≡ false →
        IsBelow (layout_of K.kind V.kind 5) buf.now (root_place buf.now pos) depth node → ⊥ }
{
    match root_node::<K, V>(buf, pos) {
        None => false,
        Some(root) => leads_to::<K, V>(buf, pos, root, depth, node),
    }
}

/// Returns whether a number is the one that there is.
fn is_found(found: Option<u32>, node: u32) -> bool
    ensures found { result ≡ true → found ≡ Some node }
{
    match found {
        None => false,
        Some(found) => found == node,
    }
}

/// Returns whether a node is on a level of the map at `pos`. It is looked for in the whole tree, unless it is the one that a path leads to.
fn is_on_level<K: Portable, V: Portable>(
    buf: &[u8],
    pos: u32,
    level: u32,
    node: u32,
    led: Option<u32>,
) -> bool
    requires stands { IsTrue (stands (map_kind K.kind V.kind 5) buf.now pos) }
    requires led { IfSome led
        (IsBelow (layout_of K.kind V.kind 5) buf.now (root_place buf.now pos) level) }
    ensures below { result ≡ true →
        IsBelow (layout_of K.kind V.kind 5) buf.now (root_place buf.now pos) level node }
    ensures none { result ≡ false →
        IsBelow (layout_of K.kind V.kind 5) buf.now (root_place buf.now pos) level node → ⊥ }
{
    is_found(led, node) || is_below::<K, V>(buf, pos, level, node)
}

/// Returns whether a node is one of the map at `pos`. It is looked for in the whole tree, unless it is the one that a path leads to.
fn is_in_map<K: Portable, V: Portable>(buf: &[u8], pos: u32, node: u32, led: Option<u32>) -> bool
    requires stands { IsTrue (stands (map_kind K.kind V.kind 5) buf.now pos) }
    requires led { IfSome led
        (IsInMap (layout_of K.kind V.kind 5) buf.now (root_place buf.now pos)) }
    ensures below { result ≡ true →
        IsInMap (layout_of K.kind V.kind 5) buf.now (root_place buf.now pos) node }
    ensures none { result ≡ false →
        IsInMap (layout_of K.kind V.kind 5) buf.now (root_place buf.now pos) node → ⊥ }
{
    if is_found(led, node) {
        return true;
    }
    'levels: for level in 0..32u32 {
        if is_below::<K, V>(buf, pos, level, node) {
            return true;
        }
    }
    false
}

/// Returns whether a step is at an inner node on a level of the map at `pos`.
fn is_step<K: Portable, V: Portable>(
    buf: &[u8],
    pos: u32,
    level: u32,
    step: BtreeStep,
    led: Option<u32>,
) -> bool
    requires stands { IsTrue (stands (map_kind K.kind V.kind 5) buf.now pos) }
    requires led { IfSome led
        (IsBelow (layout_of K.kind V.kind 5) buf.now (root_place buf.now pos) level) }
    ensures step { result ≡ true →
        IsStep (layout_of K.kind V.kind 5) buf.now (root_place buf.now pos) level (step_of step) }
    ensures none { result ≡ false →
        IsStep (layout_of K.kind V.kind 5) buf.now (root_place buf.now pos) level (step_of step) →
        ⊥ }
{
    if step.index > 5 || !is_on_level::<K, V>(buf, pos, level, step.node, led) {
        return false;
    }
    leaf_count::<K, V>(buf, pos, step.node).is_none()
}

/// States that a cursor has room for 32 steps.
fn steps_are_32(_cursor: &BtreeCursor)
    ensures { length _cursor.now.path ≡ 32 }
{}

/// Returns the path of a cursor, and the node that it leads to, if the numbers are a path of the map at `pos`.
fn path_below<K: Portable, V: Portable>(
    buf: &[u8],
    pos: u32,
    cursor: &BtreeCursor,
) -> Option<(Path, Option<u32>)>
    requires { IsTrue (stands (map_kind K.kind V.kind 5) buf.now pos) }
    ensures path { IfSome result (λ r. r.0.items ≡ path_of cursor.now) }
    ensures below { IfSome result (λ r.
        PathBelow (layout_of K.kind V.kind 5) buf.now (root_place buf.now pos) 0 r.0.items) }
    ensures led { IfSome result (λ r. IfSome r.1
        (IsInMap (layout_of K.kind V.kind 5) buf.now (root_place buf.now pos))) }
    ensures deep { IfSome result (λ r. cursor.now.depth ≤ 32) }
    ensures none { result ≡ None → IsPathOf K.kind V.kind buf.now pos cursor.now → ⊥ }
{
    if cursor.depth > 32 {
        return None;
    }
    steps_are_32(cursor);
    let mut path: Path = ArrayVec::new();
    let mut led = root_node::<K, V>(buf, pos);
    'down: for level in 0..cursor.depth {
        let step = cursor.path[level as usize];
        if !is_step::<K, V>(buf, pos, level, step, led) {
            return None;
        }
        path.push((step.node, step.index));
        led = child_node::<K, V>(buf, pos, step.node, step.index);
    }
    Some((path, led))
}

/// Returns whether the entries from `next` to before `end` are in a node of the map at `pos`, or are none.
fn is_run<K: Portable, V: Portable>(buf: &[u8], pos: u32, part: &Part, led: Option<u32>) -> bool
    requires stands { IsTrue (stands (map_kind K.kind V.kind 5) buf.now pos) }
    requires led { IfSome led
        (IsInMap (layout_of K.kind V.kind 5) buf.now (root_place buf.now pos)) }
    ensures run { result ≡ true →
        RunBelow (layout_of K.kind V.kind 5) buf.now (root_place buf.now pos)
        part.now.node part.now.next part.now.end }
    ensures none { result ≡ false →
        RunBelow (layout_of K.kind V.kind 5) buf.now (root_place buf.now pos)
        part.now.node part.now.next part.now.end → ⊥ }
{
    if part.next >= part.end {
        return true;
    }
    if !is_in_map::<K, V>(buf, pos, part.node, led) {
        return false;
    }
    part.end <= count_of::<K, V>(buf, pos, part.node)
}

/// Returns the walk of a cursor, if its numbers are a place in the map at `pos`.
pub(crate) fn walk_of<K: Portable, V: Portable>(
    buf: &[u8],
    pos: u32,
    cursor: &BtreeCursor,
) -> Option<RangeWalk>
    requires { IsTrue (stands (map_kind K.kind V.kind 5) buf.now pos) }
    ensures kept { IfSome result (λ walk. IsKept walk cursor.now) }
    ensures walks { IfSome result
        (IsRangeWalk (layout_of K.kind V.kind 5) buf.now pos) }
    ensures good { IfSome result (λ _. IsGood K.kind V.kind buf.now pos cursor.now) }
    ensures none { result ≡ None → IsGood K.kind V.kind buf.now pos cursor.now → ⊥ }
{
    let Some((path, led)) = path_below::<K, V>(buf, pos, cursor) else {
        return None;
    };
    let part = Part {
        node: cursor.node,
        next: cursor.next,
        end: cursor.end,
    };
    if !is_run::<K, V>(buf, pos, &part, led) {
        return None;
    }
    let stop = if cursor.stops == 0 {
        None
    } else {
        Some((cursor.stop.node, cursor.stop.index))
    };
    Some(RangeWalk { path, part, stop })
}
