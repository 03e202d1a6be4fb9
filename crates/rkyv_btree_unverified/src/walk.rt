//! A walk along the entries of a map in untrusted bytes, by their places: each node, key and value is validated when the walk comes
//! to it.
ghost use Rattle.std.specs.Prelude.{◌≡◌, ℕ, ◌+◌, ◌*◌, ◌≤◌, ◌<◌, length, IfOk, IfErr, IfSome, IsOk, IsTrue, suc};
ghost use Rattle.rkyv_btree_format.specs.Layout.{layout_of, are_fitting, leaf_size};
ghost use Rattle.rkyv_btree_verify.specs.Refusals.{IsInner};
ghost use Rattle.rkyv_btree_portable.specs.Refusing.{HasPlace};
ghost use Rattle.rkyv_btree_walk.specs.Below.{root_place};
ghost use Rattle.rkyv_btree_walk.specs.mirror.Node.{EntryStands};
ghost use Rattle.rkyv_btree_walk.specs.Nodes.{child_place};
ghost use Rattle.rkyv_btree_view.specs.Map.{IsMap};
ghost use Rattle.rkyv_btree_unverified.specs.Left.{most_of};
ghost use Rattle.rkyv_btree_unverified.specs.Steps.{HasRoom, HeadGives, ChildGives};
ghost use Rattle.rkyv_btree_unverified.specs.Walks.{EntryRefuses};
ghost use Rattle.rkyv_btree_unverified.specs.mirror.Passes.{Passes};
ghost use Rattle.rkyv_btree_unverified.specs.mirror.Walked.{IsWay, LeadsOn, PendingGives, FewLeft, LeafGives, Climbs, IsCounted, IsUnverifiedWalk, Comes, Stepped, HasAt, walk_most};

use crate::node::{check_at, entries_in, node_place};
use rkyv_btree_portable::bytes::num32;
use rkyv_btree_portable::check::{CheckBytes, check_own_bytes};
use rkyv_btree_portable::refusal::Refusal;
use rkyv_btree_walk::archived_map::ArchivedMap;
use rkyv_btree_walk::node::{key_pos, value_pos};
use rkyv_btree_walk::path::{Leaf, Path};

/// What a walk does next.
#[derive(Clone, Copy)]
pub enum Phase {
    /// It goes down to a child of the path's last node, or to the root if the path is empty.
    Descend,
    /// It takes the next entry of the leaf, or of the path.
    Advance,
    /// Nothing: it has come to the end, or to an error.
    Over,
}

/// The state of a walk: the entries that remain of a leaf, and the path above it.
#[derive(Drop)]
pub struct UnverifiedWalk {
    /// The inner nodes from the root on, each with the number of its next entry.
    pub path: Path,
    /// The position of the leaf.
    pub node: u32,
    /// The number of the next entry in the leaf.
    pub next: u32,
    /// The number of entries of the leaf.
    pub end: u32,
    /// How many more nodes the walk may read.
    pub nodes: usize,
    /// How many entries it has taken.
    pub taken: usize,
    /// What it does next.
    pub phase: Phase,
}

/// Validates the key and the value of an entry of the node at `node`.
///
/// # Errors
///
/// The error of the key, else that of the value.
#[inline(always)]
fn check_entry<K: CheckBytes, V: CheckBytes, M: ArchivedMap<Key = K, Mapped = V>>(
    buf: &[u8],
    node: u32,
    index: u32,
) -> Result<(), Refusal>
    requires fitting { IsTrue (are_fitting K.kind V.kind M.E) }
    requires short { length buf.now ≤ 4294967295 }
    requires inside { node + leaf_size (layout_of K.kind V.kind M.E) ≤ length buf.now }
    requires within { index < M.E }
    ensures stands { IfOk result (λ _. EntryStands K.kind V.kind M.E buf.now (node, index)) }
    ensures accepts { EntryStands K.kind V.kind M.E buf.now (node, index) → IsOk result }
    ensures refused { IfErr result
        (EntryRefuses K.kind V.kind M.E buf.now K.Refuses V.Refuses (node, index)) }
{
    match check_at::<K>(buf, key_pos::<K, V, M>(node, index as usize)) {
        Err(refusal) => Err(refusal),
        Ok(_) => check_at::<V>(buf, value_pos::<K, V, M>(node, index as usize)),
    }
}

/// Returns the position of the root node of the map at `pos`, if its own bytes say that it has entries.
///
/// # Errors
///
/// The error of the map's own bytes.
#[inline(always)]
pub(crate) fn head<K: CheckBytes, V: CheckBytes, M: ArchivedMap<Key = K, Mapped = V>>(
    buf: &[u8],
    pos: u32,
) -> Result<Option<u32>, Refusal>
    requires fitting { IsTrue (are_fitting K.kind V.kind M.E) }
    ensures gives { HeadGives K.kind V.kind M.E buf.now pos result }
    ensures placed { IfOk result (λ _. HasPlace buf.now 8 4 pos) }
    ensures leads { IfOk result (λ root. root ≡ root_place buf.now pos) }
    ensures room { IfOk result (λ root. IfSome root (HasRoom K.kind V.kind M.E pos)) }
    ensures accepts { (m : _) → IsMap K.kind V.kind M.E buf.now pos m → IsOk result }
{
    match check_own_bytes(buf, pos, 8, 4) {
        Err(refusal) => Err(refusal),
        Ok(_) => {
            if num32(buf, pos + 4) == 0 {
                return Ok(None);
            }
            match node_place::<K, V, M>(buf, pos, pos) {
                Ok(root) => Ok(Some(root)),
                Err(refusal) => Err(refusal),
            }
        }
    }
}

/// Returns the position of the child before entry `index` of the inner node at `node`, or after its last entry, if there is one.
///
/// # Errors
///
/// The error of the pointer that leads to it.
#[inline(always)]
pub(crate) fn child_before<K: CheckBytes, V: CheckBytes, M: ArchivedMap<Key = K, Mapped = V>>(
    buf: &[u8],
    node: u32,
    index: u32,
) -> Result<Option<u32>, Refusal>
    requires fitting { IsTrue (are_fitting K.kind V.kind M.E) }
    requires short { length buf.now ≤ 4294967295 }
    requires inner { IsInner K.kind V.kind M.E buf.now 0 (length buf.now) node }
    requires within { index ≤ M.E }
    ensures gives { (hi : ℕ) → IsInner K.kind V.kind M.E buf.now 0 hi node
        → ChildGives K.kind V.kind M.E buf.now hi node index result }
    ensures leads { IfOk result (λ child.
        child ≡ child_place (layout_of K.kind V.kind M.E) buf.now node index) }
    ensures room { IfOk result (λ child. IfSome child (HasRoom K.kind V.kind M.E node)) }
    ensures accepts { (m hi : ℕ) → Passes K.kind V.kind M.E buf.now (suc m) hi node → IsOk result }
{
    let at = node + M::pointer_at(index as usize);
    if num32(buf, at) == 1 {
        return Ok(None);
    }
    match node_place::<K, V, M>(buf, at, node) {
        Ok(below) => Ok(Some(below)),
        Err(refusal) => Err(refusal),
    }
}

/// Returns the position of the node to which a path leads, with the position of what leads to it. The path is unchanged.
///
/// # Errors
///
/// The error of the map's own bytes, if the path is empty, else of the last node's pointer.
fn pending<K: CheckBytes, V: CheckBytes, M: ArchivedMap<Key = K, Mapped = V>>(
    buf: &[u8],
    pos: u32,
    path: &mut Path,
) -> Result<Option<(u32, u32)>, Refusal>
    requires fitting { IsTrue (are_fitting K.kind V.kind M.E) }
    requires way { IsWay (layout_of K.kind V.kind M.E) buf.now pos path.old.items }
    ensures same { path.new.items ≡ path.old.items }
    ensures gives { PendingGives K.kind V.kind M.E buf.now K.Refuses V.Refuses pos path.old.items
        result }
{
    match path.pop() {
        None => match head::<K, V, M>(buf, pos) {
            Err(refusal) => Err(refusal),
            Ok(None) => Ok(None),
            Ok(Some(root)) => Ok(Some((root, pos))),
        },
        Some((node, index)) => {
            path.push((node, index));
            match child_before::<K, V, M>(buf, node, index) {
                Err(refusal) => Err(refusal),
                Ok(None) => Ok(None),
                Ok(Some(below)) => Ok(Some((below, node))),
            }
        }
    }
}

/// Goes down from the node at `node` to the leaf below its first child and the first children of these, and puts the
/// inner nodes met on the path.
///
/// # Errors
///
/// The first error of a node, or of a pointer to it.
fn descend<K: CheckBytes, V: CheckBytes, M: ArchivedMap<Key = K, Mapped = V>>(
    buf: &[u8],
    pos: u32,
    node: u32,
    hi: u32,
    path: &mut Path,
    nodes: &mut usize,
) -> Result<Leaf, Refusal>
    requires fitting { IsTrue (are_fitting K.kind V.kind M.E) }
    requires way { IsWay (layout_of K.kind V.kind M.E) buf.now pos path.old.items }
    requires leads { LeadsOn K.kind V.kind M.E buf.now pos path.old.items node hi }
    requires few { FewLeft K.kind V.kind M.E buf.now pos path.old.items nodes.old }
    ensures gives { LeafGives K.kind V.kind M.E buf.now K.Refuses V.Refuses pos path.old.items
        nodes.old path.new.items nodes.new result }
{
    let mut at = node;
    let mut end = hi;
    'down: loop {
        if path.len() == 32 {
            return Err(Refusal::TooDeep { pos: i64::from(at) });
        }
        if *nodes == 0 {
            return Err(Refusal::OutOfRange { pos: i64::from(at) });
        }
        *nodes -= 1;
        let count = match entries_in::<K, V, M>(buf, at, end) {
            Ok(count) => count,
            Err(refusal) => return Err(refusal),
        };
        if buf[at as usize] == 0 {
            return Ok(Leaf { node: at, count });
        }
        path.push((at, 0));
        match child_before::<K, V, M>(buf, at, 0) {
            Err(refusal) => return Err(refusal),
            Ok(None) => return Ok(Leaf { node: at, count: 0 }),
            Ok(Some(below)) => {
                end = at;
                at = below;
            }
        }
    }
}

/// Goes down from where a path leads to the next leaf.
///
/// # Errors
///
/// The first error of a pointer, or of a node.
fn next_leaf<K: CheckBytes, V: CheckBytes, M: ArchivedMap<Key = K, Mapped = V>>(
    buf: &[u8],
    pos: u32,
    path: &mut Path,
    nodes: &mut usize,
) -> Result<Leaf, Refusal>
    requires fitting { IsTrue (are_fitting K.kind V.kind M.E) }
    requires way { IsWay (layout_of K.kind V.kind M.E) buf.now pos path.old.items }
    requires few { FewLeft K.kind V.kind M.E buf.now pos path.old.items nodes.old }
    ensures gives { LeafGives K.kind V.kind M.E buf.now K.Refuses V.Refuses pos path.old.items
        nodes.old path.new.items nodes.new result }
{
    match pending::<K, V, M>(buf, pos, path) {
        Err(refusal) => Err(refusal),
        Ok(None) => Ok(Leaf { node: 0, count: 0 }),
        Ok(Some((node, hi))) => descend::<K, V, M>(buf, pos, node, hi, path, nodes),
    }
}

/// Takes the first entry that remains of the path.
///
/// # Errors
///
/// The error of its key or its value.
fn climb<K: CheckBytes, V: CheckBytes, M: ArchivedMap<Key = K, Mapped = V>>(
    buf: &[u8],
    pos: u32,
    path: &mut Path,
) -> Result<Option<(u32, u32)>, Refusal>
    requires fitting { IsTrue (are_fitting K.kind V.kind M.E) }
    requires way { IsWay (layout_of K.kind V.kind M.E) buf.now pos path.old.items }
    ensures takes { Climbs K.kind V.kind M.E buf.now K.Refuses V.Refuses pos path.old.items
        path.new.items result }
{
    'up: while let Some((node, index)) = path.pop() {
        if (index as usize) < M::entries_per_node() {
            return match check_entry::<K, V, M>(buf, node, index) {
                Err(refusal) => Err(refusal),
                Ok(_) => {
                    path.push((node, index + 1));
                    Ok(Some((node, index)))
                }
            };
        }
    }
    Ok(None)
}

/// Goes down to the next leaf.
///
/// # Errors
///
/// The first error of a pointer, or of a node. Then the walk is over.
fn go_down<K: CheckBytes, V: CheckBytes, M: ArchivedMap<Key = K, Mapped = V>>(
    buf: &[u8],
    pos: u32,
    walk: &mut UnverifiedWalk,
) -> Result<(), Refusal>
    requires fitting { IsTrue (are_fitting K.kind V.kind M.E) }
    requires way { IsWay (layout_of K.kind V.kind M.E) buf.now pos walk.old.path.items }
    requires few { FewLeft K.kind V.kind M.E buf.now pos walk.old.path.items walk.old.nodes }
    ensures walks { IsUnverifiedWalk K.kind V.kind M.E buf.now pos walk.new }
    ensures comes { Comes K.kind V.kind M.E buf.now K.Refuses V.Refuses pos walk.old walk.new
        result }
{
    match next_leaf::<K, V, M>(buf, pos, &mut walk.path, &mut walk.nodes) {
        Err(refusal) => {
            walk.phase = Phase::Over;
            Err(refusal)
        }
        Ok(leaf) => {
            walk.node = leaf.node;
            walk.next = 0;
            walk.end = leaf.count;
            walk.phase = Phase::Advance;
            Ok(())
        }
    }
}

/// Takes the next entry of the leaf, or of the path.
///
/// # Errors
///
/// The error of its key or its value. Then the walk is over.
#[inline(always)]
fn advance<K: CheckBytes, V: CheckBytes, M: ArchivedMap<Key = K, Mapped = V>>(
    buf: &[u8],
    pos: u32,
    walk: &mut UnverifiedWalk,
) -> Result<Option<(u32, u32)>, Refusal>
    requires fitting { IsTrue (are_fitting K.kind V.kind M.E) }
    requires has { HasAt K.kind V.kind M.E buf.now pos walk.old }
    requires most { walk_most M.E walk.old ≤ most_of K.kind V.kind M.E buf.now walk.old }
    ensures walks { IsUnverifiedWalk K.kind V.kind M.E buf.now pos walk.new }
    ensures steps { Stepped K.kind V.kind M.E buf.now K.Refuses V.Refuses pos walk.old walk.new
        result }
{
    let (node, next) = (walk.node, walk.next);
    if next < walk.end {
        return match check_entry::<K, V, M>(buf, node, next) {
            Err(refusal) => {
                walk.phase = Phase::Over;
                Err(refusal)
            }
            Ok(_) => {
                walk.next = next + 1;
                walk.taken += 1;
                Ok(Some((node, next)))
            }
        };
    }
    match climb::<K, V, M>(buf, pos, &mut walk.path) {
        Err(refusal) => {
            walk.phase = Phase::Over;
            Err(refusal)
        }
        Ok(None) => {
            walk.phase = Phase::Over;
            Ok(None)
        }
        Ok(Some(entry)) => {
            walk.phase = Phase::Descend;
            walk.taken += 1;
            Ok(Some(entry))
        }
    }
}

/// Takes the next entry of the map at `pos`, and returns its node and its number, or `None` if no entry remains.
///
/// # Errors
///
/// The first error of what is read on the way to it. Then the walk is over.
#[inline(always)]
pub(crate) fn step<K: CheckBytes, V: CheckBytes, M: ArchivedMap<Key = K, Mapped = V>>(
    buf: &[u8],
    pos: u32,
    walk: &mut UnverifiedWalk,
) -> Result<Option<(u32, u32)>, Refusal>
    requires fitting { IsTrue (are_fitting K.kind V.kind M.E) }
    requires walks { IsCounted K.kind V.kind M.E buf.now pos walk.old }
    ensures walks { IsCounted K.kind V.kind M.E buf.now pos walk.new }
    ensures steps { Stepped K.kind V.kind M.E buf.now K.Refuses V.Refuses pos walk.old walk.new
        result }
{
    match walk.phase {
        Phase::Over => Ok(None),
        Phase::Advance => advance::<K, V, M>(buf, pos, walk),
        Phase::Descend => match go_down::<K, V, M>(buf, pos, walk) {
            Err(refusal) => Err(refusal),
            Ok(_) => advance::<K, V, M>(buf, pos, walk),
        },
    }
}
