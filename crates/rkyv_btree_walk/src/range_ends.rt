//! Walks between two bounds: where they begin, and the entry before which they stop.
ghost use Rattle.std.specs.Prelude.{◌≡◌, ℕ, ◌+◌, ◌≤◌, ◌<◌, List, [], length, IfSome, IsTrue, None, Some, false};
ghost use Rattle.std.specs.Range.Bound.{bound_map};
ghost use Rattle.std.specs.declared.cmp.Ordering.{Ordering as Comparison};
ghost use Rattle.std.specs.declared.ops.Bound.TheVariants.{Unbounded};
ghost use Rattle.rkyv_btree_portable.specs.Bytes.{place_at};
ghost use Rattle.rkyv_btree_format.specs.Layout.{layout_of, are_fitting};
ghost use Rattle.rkyv_btree_verify.specs.Map.{map_kind};
ghost use Rattle.rkyv_btree_format.specs.Read.{map_tree, read_map};
ghost use Rattle.rkyv_btree_shape.specs.Tree.{list};
ghost use Rattle.rkyv_btree_portable.specs.Views.{stands};
ghost use Rattle.rkyv_btree_walk.specs.Bounds.{IsRun, IsWithin, ByBounds, IsEnd};
ghost use Rattle.rkyv_btree_walk.specs.EntryPlaces.{entry_places};
ghost use Rattle.rkyv_btree_walk.specs.Remaining.{is_stop as stops_at, take_before};
ghost use Rattle.rkyv_btree_walk.specs.Search.{ComparesBy, shown_value};
ghost use Rattle.rkyv_btree_walk.specs.Below.{root_place};
ghost use Rattle.rkyv_btree_walk.specs.mirror.Below.{PartBelow, PathStaysBelow, StepStaysBelow};
ghost use Rattle.rkyv_btree_walk.specs.Nodes.{natural};
ghost use Rattle.rkyv_btree_walk.specs.mirror.Node.{RunStands, TreeCanBeRead};
ghost use Rattle.rkyv_btree_walk.specs.Paths.{path_rest, range_rest};
ghost use Rattle.rkyv_btree_walk.specs.mirror.Path.{IsPath, LeafStands, StepStands, Steps};
ghost use Rattle.rkyv_btree_walk.specs.mirror.Range.{from_at, past_at, IsKept, IsFound, IsMiddle, first_of, first_passes};
ghost use Rattle.rkyv_btree_walk.specs.mirror.Range.{tree_list, part_rest, part_range, read_range, PartStands};
ghost use Rattle.rkyv_btree_walk.specs.mirror.Range.{StepsBefore, StepIsPlaced};
ghost use Rattle.rkyv_btree_walk.specs.WalkBetween.{IsPlaced};

use crate::archived_map::{ArchivedMap, map_len};
use crate::node::{key_pos, root};
use crate::path::{Leaf, Path, Step, climb, descend, next_leaf};
use crate::seek::{Part, first_reaching, reaches, seek};
use crate::shows::Shows;
use rkyv_btree_portable::check::Portable;
use std::cmp::Ordering;
use std::ops::Bound;

/// Takes all nodes from a path. It calls nothing, so that a step that doesn't end a range has few registers to save.
#[inline(always)]
fn take_all(path: &mut Path)
    ensures { path.new.items ≡ [] }
{
    'up: while let Some(_) = path.pop() {}
}

/// A walk with nothing left, beside an empty path.
fn nothing() -> Part
    ensures { (result.node ≡ 0) × (result.next ≡ 0) × (result.end ≡ 0) }
{
    Part {
        node: 0,
        next: 0,
        end: 0,
    }
}

/// The first entry that is left. Nodes with none left are taken from the path.
fn first_left<K: Portable, V: Portable, M: ArchivedMap<Key = K, Mapped = V>>(
    _buf: &[u8],
    part: Part,
    path: &mut Path,
) -> Option<(u32, u32)>
    requires path { IsPath K.kind V.kind M.E _buf.now 32 path.old.items }
    requires stands { PartStands K.kind V.kind M.E _buf.now part }
    ensures path { IsPath K.kind V.kind M.E _buf.now 32 path.new.items }
    ensures rest { let s = layout_of K.kind V.kind M.E in
        path_rest s _buf.now 32 path.new.items ≡ path_rest s _buf.now 32 path.old.items }
    ensures stands { IfSome result (λ e. RunStands K.kind V.kind M.E _buf.now e.0 e.1 (e.1 + 1)) }
    ensures first { result ≡ first_of (part_rest K.kind V.kind M.E _buf.now part path.old.items) }
    ensures below { PathStaysBelow (layout_of K.kind V.kind M.E) _buf.now path.old.items
        path.new.items }
{
    if part.next < part.end {
        return Some((part.node, part.next));
    }
    'up: while let Some((node, index)) = path.pop() {
        if (index as usize) < M::entries_per_node() {
            path.push((node, index));
            return Some((node, index));
        }
    }
    None
}

/// Goes down from the node at `root` beside the first entry that isn't before the low bound.
fn seek_low<
    'a,
    Q,
    K: Portable,
    V: Portable,
    M: ArchivedMap<Key = K, Mapped = V>,
    W: Shows<'a, K>,
    C: Fn(&Q, W) -> Ordering,
>(buf: &'a [u8], root: u32, low: Bound<&Q>, cmp: &C, path: &mut Path) -> Part
    requires callable { C.IsAlwaysCallable cmp.now }
    requires tree { TreeCanBeRead K.kind V.kind M.E buf.now root }
    requires empty { path.old.items ≡ [] }
    ensures path { IsPath K.kind V.kind M.E buf.now 32 path.new.items }
    ensures within { result.next ≤ result.end }
    ensures stands { PartStands K.kind V.kind M.E buf.now result }
    ensures run { IsEnd (part_rest K.kind V.kind M.E buf.now result path.new.items)
        (tree_list K.kind V.kind M.E buf.now root) }
    ensures whole { low.entry ≡ Unbounded
        → part_rest K.kind V.kind M.E buf.now result path.new.items
        ≡ tree_list K.kind V.kind M.E buf.now root }
    ensures from { (c : Q → K.kind.Value → Comparison)
        → ComparesBy (C.post cmp.now) (shown_value K.kind W.Shows) c
        → IsKept (from_at K.kind V.kind M.E buf.now (bound_map (λ q. c q.now) low.entry))
        (tree_list K.kind V.kind M.E buf.now root)
        (part_rest K.kind V.kind M.E buf.now result path.new.items) }
    ensures below { PartBelow (layout_of K.kind V.kind M.E) buf.now (Some root) result
        path.new.items }
{
    match low {
        Bound::Unbounded => {
            let leaf = descend::<K, V, M>(buf, root, path);
            Part {
                node: leaf.node,
                next: 0,
                end: leaf.count,
            }
        }
        Bound::Included(key) => seek::<Q, K, V, M, W, C>(buf, root, key, cmp, false, path),
        Bound::Excluded(key) => seek::<Q, K, V, M, W, C>(buf, root, key, cmp, true, path),
    }
}

/// The first entry past the high bound among what is left of a leaf's part and the path above it.
fn first_past<
    'a,
    Q,
    K: Portable,
    V: Portable,
    M: ArchivedMap<Key = K, Mapped = V>,
    W: Shows<'a, K>,
    C: Fn(&Q, W) -> Ordering,
>(buf: &'a [u8], part: Part, high: Bound<&Q>, cmp: &C, path: &Path) -> Option<(u32, u32)>
    requires callable { C.IsAlwaysCallable cmp.now }
    requires fitting { IsTrue (are_fitting K.kind V.kind M.E) }
    requires short { length buf.now ≤ 4294967295 }
    requires path { IsPath K.kind V.kind M.E buf.now 32 path.now.items }
    requires within { part.next ≤ part.end }
    requires stands { PartStands K.kind V.kind M.E buf.now part }
    ensures whole { high.entry ≡ Unbounded → result ≡ None }
    ensures first { (c : Q → K.kind.Value → Comparison)
        → ComparesBy (C.post cmp.now) (shown_value K.kind W.Shows) c
        → IsFound (past_at K.kind V.kind M.E buf.now (bound_map (λ q. c q.now) high.entry))
        (part_rest K.kind V.kind M.E buf.now part path.now.items) result }
{
    match high {
        Bound::Unbounded => None,
        Bound::Included(key) => {
            first_reaching::<Q, K, V, M, W, C>(buf, part, key, cmp, true, path)
        }
        Bound::Excluded(key) => {
            first_reaching::<Q, K, V, M, W, C>(buf, part, key, cmp, false, path)
        }
    }
}

/// Whether the entry is past the high bound.
fn is_past<
    'a,
    Q,
    K: Portable,
    V: Portable,
    M: ArchivedMap<Key = K, Mapped = V>,
    W: Shows<'a, K>,
    C: Fn(&Q, W) -> Ordering,
>(buf: &'a [u8], entry: (u32, u32), high: Bound<&Q>, cmp: &C) -> bool
    requires callable { C.IsAlwaysCallable cmp.now }
    requires fitting { IsTrue (are_fitting K.kind V.kind M.E) }
    requires short { length buf.now ≤ 4294967295 }
    requires stands { RunStands K.kind V.kind M.E buf.now entry.0 entry.1 (entry.1 + 1) }
    ensures whole { high.entry ≡ Unbounded → result ≡ false }
    ensures past { (c : Q → K.kind.Value → Comparison)
        → ComparesBy (C.post cmp.now) (shown_value K.kind W.Shows) c
        → result
        ≡ past_at K.kind V.kind M.E buf.now (bound_map (λ q. c q.now) high.entry) entry }
{
    let pos = key_pos::<K, V, M>(entry.0, entry.1 as usize);
    match high {
        Bound::Unbounded => false,
        Bound::Included(key) => reaches::<Q, K, W, C>(buf, pos, key, cmp, true),
        Bound::Excluded(key) => reaches::<Q, K, W, C>(buf, pos, key, cmp, false),
    }
}

/// Whether an entry is left, and the first one is past the high bound. Nodes with none left are taken from the path.
fn starts_past<
    'a,
    Q,
    K: Portable,
    V: Portable,
    M: ArchivedMap<Key = K, Mapped = V>,
    W: Shows<'a, K>,
    C: Fn(&Q, W) -> Ordering,
>(buf: &'a [u8], part: Part, high: Bound<&Q>, cmp: &C, path: &mut Path) -> bool
    requires callable { C.IsAlwaysCallable cmp.now }
    requires fitting { IsTrue (are_fitting K.kind V.kind M.E) }
    requires short { length buf.now ≤ 4294967295 }
    requires path { IsPath K.kind V.kind M.E buf.now 32 path.old.items }
    requires stands { PartStands K.kind V.kind M.E buf.now part }
    ensures path { IsPath K.kind V.kind M.E buf.now 32 path.new.items }
    ensures rest { let s = layout_of K.kind V.kind M.E in
        path_rest s buf.now 32 path.new.items ≡ path_rest s buf.now 32 path.old.items }
    ensures whole { high.entry ≡ Unbounded → result ≡ false }
    ensures past { (c : Q → K.kind.Value → Comparison)
        → ComparesBy (C.post cmp.now) (shown_value K.kind W.Shows) c
        → result ≡ first_passes
        (past_at K.kind V.kind M.E buf.now (bound_map (λ q. c q.now) high.entry))
        (part_rest K.kind V.kind M.E buf.now part path.old.items) }
    ensures below { PathStaysBelow (layout_of K.kind V.kind M.E) buf.now path.old.items
        path.new.items }
{
    match first_left::<K, V, M>(buf, part, path) {
        None => false,
        Some(first) => is_past::<Q, K, V, M, W, C>(buf, first, high, cmp),
    }
}

/// Whether the entry is the one before which a range stops.
fn is_stop(stop: Option<(u32, u32)>, node: u32, index: u32) -> bool
    ensures { result ≡ stops_at stop (node, index) }
{
    match stop {
        None => false,
        Some(end) => end.0 == node && end.1 == index,
    }
}

/// Returns the number before which a leaf's part ends in a range. If the stop is in the part, that is its number, and
/// nothing is left of the path.
fn cut<K: Portable, V: Portable, M: ArchivedMap<Key = K, Mapped = V>>(
    _buf: &[u8],
    part: Part,
    stop: Option<(u32, u32)>,
    path: &mut Path,
) -> u32
    requires path { IsPath K.kind V.kind M.E _buf.now 32 path.old.items }
    ensures path { IsPath K.kind V.kind M.E _buf.now 32 path.new.items }
    ensures less { result ≤ part.end }
    ensures rest { let s = layout_of K.kind V.kind M.E in
        range_rest s _buf.now stop part.node part.next result path.new.items
        ≡ take_before stop (part_rest K.kind V.kind M.E _buf.now part path.old.items) }
    ensures placed { (all : List (ℕ × ℕ))
        → IsEnd (part_rest K.kind V.kind M.E _buf.now part path.old.items) all
        → IsPlaced (layout_of K.kind V.kind M.E) _buf.now all stop part.node part.next result
        path.new.items }
    ensures below { PathStaysBelow (layout_of K.kind V.kind M.E) _buf.now path.old.items
        path.new.items }
{
    match stop {
        None => part.end,
        Some((node, index)) => {
            if node == part.node && part.next <= index && index < part.end {
                take_all(path);
                return index;
            }
            part.end
        }
    }
}

/// Ends a step at the stop: if its entry is the stop, nothing is left; if the stop is in its leaf, the leaf ends there.
#[inline(always)]
fn before<K: Portable, V: Portable, M: ArchivedMap<Key = K, Mapped = V>>(
    buf: &[u8],
    stop: Option<(u32, u32)>,
    step: Step,
    path: &mut Path,
) -> Option<Step>
    requires path { IsPath K.kind V.kind M.E buf.now 32 path.old.items }
    requires entry { StepStands K.kind V.kind M.E buf.now step }
    requires leaf { LeafStands K.kind V.kind M.E buf.now step.leaf }
    ensures path { IsPath K.kind V.kind M.E buf.now 32 path.new.items }
    ensures entry { IfSome result (StepStands K.kind V.kind M.E buf.now) }
    ensures leaf { IfSome result (λ e. LeafStands K.kind V.kind M.E buf.now e.leaf) }
    ensures rest { let s = layout_of K.kind V.kind M.E in (all : List (ℕ × ℕ))
        → Steps s buf.now (Some step) all path.old.items
        → StepsBefore s buf.now stop result all path.new.items }
    ensures placed { let s = layout_of K.kind V.kind M.E in (all old : List (ℕ × ℕ))
        → Steps s buf.now (Some step) old path.old.items → IsEnd (path_rest s buf.now 32 old) all
        → StepIsPlaced s buf.now all stop result path.new.items }
    ensures below { let s = layout_of K.kind V.kind M.E in (all : List (ℕ × ℕ))
        → StepStaysBelow s buf.now all path.old.items (Some step)
        → StepStaysBelow s buf.now all path.new.items result }
{
    if is_stop(stop, step.node, step.index) {
        take_all(path);
        return None;
    }
    let part = Part {
        node: step.leaf.node,
        next: 0,
        end: step.leaf.count,
    };
    let count = cut::<K, V, M>(buf, part, stop, path);
    let node = part.node;
    Some(Step {
        node: step.node,
        index: step.index,
        leaf: Leaf { node, count },
    })
}

/// Takes the first entry that is left of the path before the stop, and finds the part of the leaf after it.
#[inline(never)]
fn climb_before<K: Portable, V: Portable, M: ArchivedMap<Key = K, Mapped = V>>(
    buf: &[u8],
    stop: Option<(u32, u32)>,
    path: &mut Path,
) -> Option<Step>
    requires fitting { IsTrue (are_fitting K.kind V.kind M.E) }
    requires short { length buf.now ≤ 4294967295 }
    requires path { IsPath K.kind V.kind M.E buf.now 32 path.old.items }
    ensures path { IsPath K.kind V.kind M.E buf.now 32 path.new.items }
    ensures entry { IfSome result (StepStands K.kind V.kind M.E buf.now) }
    ensures leaf { IfSome result (λ e. LeafStands K.kind V.kind M.E buf.now e.leaf) }
    ensures rest { StepsBefore (layout_of K.kind V.kind M.E) buf.now stop result path.old.items
        path.new.items }
    ensures placed { let s = layout_of K.kind V.kind M.E in (all : List (ℕ × ℕ))
        → IsEnd (path_rest s buf.now 32 path.old.items) all
        → StepIsPlaced s buf.now all stop result path.new.items }
    ensures below { StepStaysBelow (layout_of K.kind V.kind M.E) buf.now path.old.items
        path.new.items result }
{
    match climb::<K, V, M>(buf, path) {
        None => None,
        Some(step) => before::<K, V, M>(buf, stop, step, path),
    }
}

/// Does as `climb_before` does. Most steps lead to the next leaf below one inner node, and are made without a call.
#[inline(always)]
pub fn advance_before<K: Portable, V: Portable, M: ArchivedMap<Key = K, Mapped = V>>(
    buf: &[u8],
    stop: Option<(u32, u32)>,
    path: &mut Path,
) -> Option<Step>
    requires fitting { IsTrue (are_fitting K.kind V.kind M.E) }
    requires short { length buf.now ≤ 4294967295 }
    requires path { IsPath K.kind V.kind M.E buf.now 32 path.old.items }
    ensures path { IsPath K.kind V.kind M.E buf.now 32 path.new.items }
    ensures entry { IfSome result (StepStands K.kind V.kind M.E buf.now) }
    ensures leaf { IfSome result (λ e. LeafStands K.kind V.kind M.E buf.now e.leaf) }
    ensures rest { StepsBefore (layout_of K.kind V.kind M.E) buf.now stop result path.old.items
        path.new.items }
    ensures placed { let s = layout_of K.kind V.kind M.E in (all : List (ℕ × ℕ))
        → IsEnd (path_rest s buf.now 32 path.old.items) all
        → StepIsPlaced s buf.now all stop result path.new.items }
    ensures below { StepStaysBelow (layout_of K.kind V.kind M.E) buf.now path.old.items
        path.new.items result }
{
    match next_leaf::<K, V, M>(buf, path) {
        None => climb_before::<K, V, M>(buf, stop, path),
        Some(step) => before::<K, V, M>(buf, stop, step, path),
    }
}

/// Begins a walk between the bounds, of the tree at `root`.
fn between_in<
    'a,
    Q,
    K: Portable,
    V: Portable,
    M: ArchivedMap<Key = K, Mapped = V>,
    W: Shows<'a, K>,
    C: Fn(&Q, W) -> Ordering,
>(
    buf: &'a [u8],
    root: u32,
    low: Bound<&Q>,
    high: Bound<&Q>,
    cmp: &C,
    path: &mut Path,
) -> (Part, Option<(u32, u32)>)
    requires callable { C.IsAlwaysCallable cmp.now }
    requires tree { TreeCanBeRead K.kind V.kind M.E buf.now root }
    requires empty { path.old.items ≡ [] }
    ensures path { IsPath K.kind V.kind M.E buf.now 32 path.new.items }
    ensures stands { PartStands K.kind V.kind M.E buf.now result.0 }
    ensures run { IsRun (part_range K.kind V.kind M.E buf.now result.1 result.0 path.new.items)
        (tree_list K.kind V.kind M.E buf.now root) }
    ensures whole { low.entry ≡ Unbounded → high.entry ≡ Unbounded
        → part_range K.kind V.kind M.E buf.now result.1 result.0 path.new.items
        ≡ tree_list K.kind V.kind M.E buf.now root }
    ensures within { ByBounds (C.post cmp.now) (shown_value K.kind W.Shows) low.entry high.entry (λ lo hi.
        IsMiddle (from_at K.kind V.kind M.E buf.now lo) (past_at K.kind V.kind M.E buf.now hi)
        (tree_list K.kind V.kind M.E buf.now root)
        (part_range K.kind V.kind M.E buf.now result.1 result.0 path.new.items)) }
    ensures placed { IsPlaced (layout_of K.kind V.kind M.E) buf.now
        (tree_list K.kind V.kind M.E buf.now root)
        result.1 result.0.node result.0.next result.0.end path.new.items }
    ensures below { PartBelow (layout_of K.kind V.kind M.E) buf.now (Some root) result.0
        path.new.items }
{
    let part = seek_low::<Q, K, V, M, W, C>(buf, root, low, cmp, path);
    if starts_past::<Q, K, V, M, W, C>(buf, part, high, cmp, path) {
        take_all(path);
        return (nothing(), None);
    }
    let stop = first_past::<Q, K, V, M, W, C>(buf, part, high, cmp, path);
    let end = cut::<K, V, M>(buf, part, stop, path);
    let node = part.node;
    let next = part.next;
    (Part { node, next, end }, stop)
}

/// Returns the position of the root of a map with entries.
#[inline(always)]
fn tree_root<K: Portable, V: Portable, M: ArchivedMap<Key = K, Mapped = V>>(
    buf: &[u8],
    pos: u32,
) -> u32
    requires stands { IsTrue (stands (map_kind K.kind V.kind M.E) buf.now pos) }
    requires some { 0 < length (read_map K.kind V.kind M.E buf.now pos) }
    ensures tree { TreeCanBeRead K.kind V.kind M.E buf.now result }
    ensures root { natural (Some (place_at buf.now pos)) ≡ Some result }
{
    root(buf, pos)
}

/// Begins a walk between the bounds, of the map at `pos` with an empty path. If its keys are ordered for both queries,
/// it goes along all entries within them, and else along some contiguous run of entries.
pub fn between<
    'a,
    Q,
    K: Portable,
    V: Portable,
    M: ArchivedMap<Key = K, Mapped = V>,
    W: Shows<'a, K>,
    C: Fn(&Q, W) -> Ordering,
>(
    buf: &'a [u8],
    pos: u32,
    low: Bound<&Q>,
    high: Bound<&Q>,
    cmp: &C,
    path: &mut Path,
) -> (Part, Option<(u32, u32)>)
    requires callable { C.IsAlwaysCallable cmp.now }
    requires stands { IsTrue (stands M.kind buf.now pos) }
    requires empty { path.old.items ≡ [] }
    ensures path { IsPath K.kind V.kind M.E buf.now 32 path.new.items }
    ensures stands { PartStands K.kind V.kind M.E buf.now result.0 }
    ensures run { IsRun (read_range K.kind V.kind M.E buf.now result.1 result.0 path.new.items)
        (read_map K.kind V.kind M.E buf.now pos) }
    ensures places { IsRun (part_range K.kind V.kind M.E buf.now result.1 result.0 path.new.items)
        (list (map_tree (layout_of K.kind V.kind M.E) buf.now pos)) }
    ensures whole { low.entry ≡ Unbounded → high.entry ≡ Unbounded
        → read_range K.kind V.kind M.E buf.now result.1 result.0 path.new.items
        ≡ read_map K.kind V.kind M.E buf.now pos }
    ensures within { ByBounds (C.post cmp.now) (shown_value K.kind W.Shows) low.entry high.entry (λ lo hi.
        IsWithin lo hi (read_map K.kind V.kind M.E buf.now pos)
        (read_range K.kind V.kind M.E buf.now result.1 result.0 path.new.items)) }
    ensures placed { IsPlaced (layout_of K.kind V.kind M.E) buf.now
        (entry_places K.kind V.kind M.E buf.now pos)
        result.1 result.0.node result.0.next result.0.end path.new.items }
    ensures below { PartBelow (layout_of K.kind V.kind M.E) buf.now (root_place buf.now pos)
        result.0 path.new.items }
{
    M::opened(buf, pos);
    if map_len::<K, V, M>(buf, pos) > 0 {
        let start = tree_root::<K, V, M>(buf, pos);
        return between_in::<Q, K, V, M, W, C>(buf, start, low, high, cmp, path);
    }
    (nothing(), None)
}
