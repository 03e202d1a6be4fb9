//! A walk along the entries of a map in a source: each node is read when the walk comes to it, and each key and value is brought.
ghost use Rattle.std.specs.Prelude.{◌≡◌, ◌+◌, ◌*◌, ◌≤◌, ◌<◌, ℕ, List, IfErr, IfOk, IfSome, IsTrue, length};
ghost use Rattle.rkyv_btree_format.specs.Layout.{layout_of, are_fitting, leaf_size, inner_size};
ghost use Rattle.rkyv_btree_verify.specs.Refusals.{IsInner};
ghost use Rattle.rkyv_btree_source.specs.Known.{AreOf};
ghost use Rattle.rkyv_btree_source.specs.Reading.{IfRead, IfUnread, GivesBy, IsTooSmall};
ghost use Rattle.rkyv_btree_source.specs.mirror.Walking.{IsLowPath, IsPlaced, IsHeld, WaitsDown, BringsEntry, ClimbGives, StepGives};
ghost use Rattle.rkyv_btree_unverified.specs.Steps.{ChildGives, HasRoom};
ghost use Rattle.rkyv_btree_unverified.specs.mirror.Walked.{FewLeft, HasAt, IsCounted, IsUnverifiedWalk, IsWay, LeadsOn, LeafGives, PendingGives, path_entries, walk_most};
ghost use Rattle.rkyv_btree_unverified.specs.declared.walk.Phase.TheVariants.{Advance};

use crate::fault::SourceFault;
use crate::fetch::Fetch;
use crate::node::{count_in, node_len, read_head};
use crate::reader::Reader;
use crate::search::{child_in, fetch_part};
use crate::source::ReadAt;
use rkyv_btree_portable::check::Portable;
use rkyv_btree_portable::refusal::Refusal;
use rkyv_btree_unverified::node::{inner_size, leaf_size};
use rkyv_btree_unverified::walk::{Phase, UnverifiedWalk};
use rkyv_btree_walk::archived_map::ArchivedMap;
use rkyv_btree_walk::path::{Leaf, Path};

/// Where the parts of an entry were brought to: the key to a place in the first `cut` bytes of a buffer, and the value to one in those
/// after them.
#[derive(Clone, Copy)]
pub struct Brought {
    pub key: u32,
    pub cut: usize,
    pub value: u32,
}

/// Brings the key and the value of an entry of the node at `node`, of which `len` bytes are read into `page`.
pub(crate) fn bring_entry<S: ReadAt, K: Fetch, V: Fetch, M: ArchivedMap<Key = K, Mapped = V>>(
    node: u32,
    index: u32,
    len: u32,
    reader: &mut Reader<S>,
    page: &mut [u8],
    room: &mut [u8],
) -> Result<Brought, SourceFault<S::Error>>
    requires fitting { IsTrue (are_fitting K.kind V.kind M.E) }
    requires page { len ≤ length page.old }
    requires leaf { leaf_size (layout_of K.kind V.kind M.E) ≤ len }
    requires within { index < M.E }
    requires small { node + len ≤ 4294967295 }
    requires short { length room.old ≤ 4294967295 }
    requires inside { (b : List ℕ) → AreOf (S.known reader.old.source) b →
        (length b ≤ 4294967295) × (node + len ≤ length b) }
    ensures held { IfOk result (IsHeld K.kind V.kind room.new) }
    ensures brings { (b : List ℕ) → AreOf (S.known reader.old.source) b →
        BringsEntry K.kind V.kind M.E b K.Refuses V.Refuses (node, index) room.new result }
    ensures same { S.known reader.new.source ≡ S.known reader.old.source }
    ensures fails { IfErr result (IfRead (S.Fails (S.known reader.old.source))) }
    ensures caused { IfErr result
        (IsTooSmall (node + len) 0 (length room.old) reader.new.left) }
    ensures left { reader.new.left ≤ reader.old.left }
    ensures spent { reader.old.left ≤ reader.new.left + (len + 2 * (node + len)) }
{
    let bytes = &mut page[..len as usize];
    match reader.read(node, bytes) {
        Err(fault) => return Err(fault),
        Ok(()) => {}
    }
    let key_at = M::key_at(index as usize);
    let key = match fetch_part::<S, K>(bytes, key_at, node, reader, room) {
        Err(fault) => return Err(fault),
        Ok(key) => key,
    };
    let cut = key as usize + K::size() as usize;
    let (_, rest) = room.split_at_mut(cut);
    let value_at = M::value_at(index as usize);
    match fetch_part::<S, V>(bytes, value_at, node, reader, rest) {
        Ok(value) => Ok(Brought { key, cut, value }),
        Err(SourceFault::NoRoom { needed }) => Err(SourceFault::NoRoom {
            needed: needed.saturating_add(cut as u64),
        }),
        Err(SourceFault::Refused(refusal)) => Err(SourceFault::Refused(refusal)),
        Err(SourceFault::Read(error)) => Err(SourceFault::Read(error)),
        Err(SourceFault::OverBudget) => Err(SourceFault::OverBudget),
    }
}

/// Returns the child before entry `index` of the inner node at `node`, or after its last entry, if there is one.
fn child_at<S: ReadAt, K: Portable, V: Portable, M: ArchivedMap<Key = K, Mapped = V>>(
    node: u32,
    index: u32,
    reader: &mut Reader<S>,
    page: &mut [u8],
) -> Result<Option<u32>, SourceFault<S::Error>>
    requires fitting { IsTrue (are_fitting K.kind V.kind M.E) }
    requires page { inner_size (layout_of K.kind V.kind M.E) ≤ length page.old }
    requires few { index ≤ M.E }
    requires small { node + inner_size (layout_of K.kind V.kind M.E) ≤ 4294967295 }
    requires inside { (b : List ℕ) → AreOf (S.known reader.old.source) b →
        (length b ≤ 4294967295) × (node + inner_size (layout_of K.kind V.kind M.E) ≤ length b) }
    ensures room { IfOk result (λ child. IfSome child (HasRoom K.kind V.kind M.E node)) }
    ensures gives { (b : List ℕ) → AreOf (S.known reader.old.source) b → (hi : ℕ) →
        IsInner K.kind V.kind M.E b 0 hi node →
        GivesBy (λ child. child) (ChildGives K.kind V.kind M.E b hi node index) result }
    ensures same { S.known reader.new.source ≡ S.known reader.old.source }
    ensures fails { IfErr result (IfRead (S.Fails (S.known reader.old.source))) }
    ensures caused { (n : ℕ) → IfErr result
        (IsTooSmall (node + inner_size (layout_of K.kind V.kind M.E)) 0 n reader.new.left) }
    ensures left { reader.new.left ≤ reader.old.left }
{
    let bytes = &mut page[..inner_size::<K, V, M>() as usize];
    match reader.read(node, bytes) {
        Err(fault) => return Err(fault),
        Ok(()) => {}
    }
    match child_in::<K, V, M>(bytes, node, index) {
        Ok(child) => Ok(child),
        Err(refusal) => Err(SourceFault::Refused(refusal)),
    }
}

/// Returns the position of the node to which a path leads, with the position of what leads to it. The path is unchanged.
fn pending<S: ReadAt, K: Fetch, V: Fetch, M: ArchivedMap<Key = K, Mapped = V>>(
    pos: u32,
    path: &mut Path,
    reader: &mut Reader<S>,
    page: &mut [u8],
) -> Result<Option<(u32, u32)>, SourceFault<S::Error>>
    requires fitting { IsTrue (are_fitting K.kind V.kind M.E) }
    requires page { inner_size (layout_of K.kind V.kind M.E) ≤ length page.old }
    requires low { IsLowPath K.kind V.kind M.E pos path.old.items }
    requires way { (b : List ℕ) → AreOf (S.known reader.old.source) b →
        IsWay (layout_of K.kind V.kind M.E) b pos path.old.items }
    ensures path { path.new.items ≡ path.old.items }
    ensures room { IfOk result (λ to. IfSome to (λ e.
        HasRoom K.kind V.kind M.E e.1 e.0 × (e.1 ≤ pos))) }
    ensures gives { (b : List ℕ) → AreOf (S.known reader.old.source) b →
        GivesBy (λ to. to) (PendingGives K.kind V.kind M.E b K.Refuses V.Refuses pos
        path.old.items) result }
    ensures same { S.known reader.new.source ≡ S.known reader.old.source }
    ensures fails { IfErr result (IfRead (S.Fails (S.known reader.old.source))) }
    ensures caused { (n : ℕ) → IfErr result (IsTooSmall (pos + 8) 0 n reader.new.left) }
    ensures left { reader.new.left ≤ reader.old.left }
{
    match path.pop() {
        None => match read_head::<S, K, V, M>(reader, pos) {
            Err(fault) => Err(fault),
            Ok(None) => Ok(None),
            Ok(Some(root)) => Ok(Some((root, pos))),
        },
        Some((node, index)) => {
            path.push((node, index));
            match child_at::<S, K, V, M>(node, index, reader, page) {
                Err(fault) => Err(fault),
                Ok(None) => Ok(None),
                Ok(Some(below)) => Ok(Some((below, node))),
            }
        }
    }
}

/// Goes down from the node at `node` to the leaf below its first child and the first children of these, and puts the inner nodes met on
/// the path.
fn descend<S: ReadAt, K: Fetch, V: Fetch, M: ArchivedMap<Key = K, Mapped = V>>(
    pos: u32,
    node: u32,
    hi: u32,
    path: &mut Path,
    nodes: &mut usize,
    reader: &mut Reader<S>,
    page: &mut [u8],
) -> Result<Leaf, SourceFault<S::Error>>
    requires fitting { IsTrue (are_fitting K.kind V.kind M.E) }
    requires page { inner_size (layout_of K.kind V.kind M.E) ≤ length page.old }
    requires low { IsLowPath K.kind V.kind M.E pos path.old.items }
    requires room { HasRoom K.kind V.kind M.E hi node }
    requires before { hi ≤ pos }
    requires leads { (b : List ℕ) → AreOf (S.known reader.old.source) b →
        IsWay (layout_of K.kind V.kind M.E) b pos path.old.items
        × LeadsOn K.kind V.kind M.E b pos path.old.items node hi
        × FewLeft K.kind V.kind M.E b pos path.old.items nodes.old }
    ensures low { IsLowPath K.kind V.kind M.E pos path.new.items }
    ensures leaf { IfOk result (λ leaf. (leaf.count ≤ M.E)
        × (leaf.node + leaf_size (layout_of K.kind V.kind M.E) ≤ pos)) }
    ensures gives { (b : List ℕ) → AreOf (S.known reader.old.source) b →
        GivesBy (λ leaf. leaf) (LeafGives K.kind V.kind M.E b K.Refuses V.Refuses pos
        path.old.items nodes.old path.new.items nodes.new) result }
    ensures waits { (b : List ℕ) → AreOf (S.known reader.old.source) b → IfErr result
        (IfUnread (WaitsDown K.kind V.kind M.E b pos path.old.items nodes.old path.new.items
        nodes.new)) }
    ensures most { M.E * nodes.new + path_entries M.E path.new.items
        ≤ M.E * nodes.old + path_entries M.E path.old.items }
    ensures fewer { IfOk result (λ leaf. M.E * nodes.new + path_entries M.E path.new.items
        + leaf.count ≤ M.E * nodes.old + path_entries M.E path.old.items) }
    ensures same { S.known reader.new.source ≡ S.known reader.old.source }
    ensures fails { IfErr result (IfRead (S.Fails (S.known reader.old.source))) }
    ensures caused { (n : ℕ) → IfErr result (IsTooSmall (pos + 8) 0 n reader.new.left) }
    ensures left { reader.new.left ≤ reader.old.left }
{
    let mut at = node;
    let mut end = hi;
    'down: loop {
        if path.len() == 32 {
            return Err(SourceFault::Refused(Refusal::TooDeep { pos: i64::from(at) }));
        }
        if *nodes == 0 {
            return Err(SourceFault::Refused(Refusal::OutOfRange { pos: i64::from(at) }));
        }
        let bytes = &mut page[..node_len::<K, V, M>(at, end) as usize];
        match reader.read(at, bytes) {
            Err(fault) => return Err(fault),
            Ok(()) => {}
        }
        let count = match count_in::<K, V, M>(bytes, at, end) {
            Ok(count) => count,
            Err(refusal) => return Err(SourceFault::Refused(refusal)),
        };
        *nodes -= 1;
        if bytes[0] == 0 {
            return Ok(Leaf { node: at, count });
        }
        path.push((at, 0));
        match child_in::<K, V, M>(bytes, at, 0) {
            Err(refusal) => return Err(SourceFault::Refused(refusal)),
            Ok(None) => return Ok(Leaf { node: at, count: 0 }),
            Ok(Some(below)) => {
                end = at;
                at = below;
            }
        }
    }
}

/// Brings the first entry that remains of the path. If it can't be brought, it remains.
fn climb<S: ReadAt, K: Fetch, V: Fetch, M: ArchivedMap<Key = K, Mapped = V>>(
    pos: u32,
    path: &mut Path,
    reader: &mut Reader<S>,
    page: &mut [u8],
    room: &mut [u8],
) -> Result<Option<Brought>, SourceFault<S::Error>>
    requires fitting { IsTrue (are_fitting K.kind V.kind M.E) }
    requires page { inner_size (layout_of K.kind V.kind M.E) ≤ length page.old }
    requires short { length room.old ≤ 4294967295 }
    requires low { IsLowPath K.kind V.kind M.E pos path.old.items }
    requires way { (b : List ℕ) → AreOf (S.known reader.old.source) b →
        IsWay (layout_of K.kind V.kind M.E) b pos path.old.items }
    ensures low { IsLowPath K.kind V.kind M.E pos path.new.items }
    ensures held { IfOk result (λ entry. IfSome entry (IsHeld K.kind V.kind room.new)) }
    ensures gives { (b : List ℕ) → AreOf (S.known reader.old.source) b →
        ClimbGives K.kind V.kind M.E b K.Refuses V.Refuses pos path.old.items path.new.items
        room.new result }
    ensures most { path_entries M.E path.new.items ≤ path_entries M.E path.old.items }
    ensures fewer { IfOk result (λ entry. IfSome entry (λ _.
        path_entries M.E path.new.items < path_entries M.E path.old.items)) }
    ensures same { S.known reader.new.source ≡ S.known reader.old.source }
    ensures fails { IfErr result (IfRead (S.Fails (S.known reader.old.source))) }
    ensures caused { IfErr result (IsTooSmall (pos + 8) 0 (length room.old) reader.new.left) }
    ensures left { reader.new.left ≤ reader.old.left }
{
    'up: while let Some((node, index)) = path.pop() {
        if (index as usize) < M::entries_per_node() {
            let len = inner_size::<K, V, M>();
            return match bring_entry::<S, K, V, M>(node, index, len, reader, page, room) {
                Err(fault) => {
                    path.push((node, index));
                    Err(fault)
                }
                Ok(entry) => {
                    path.push((node, index + 1));
                    Ok(Some(entry))
                }
            };
        }
    }
    Ok(None)
}

/// Goes down to the next leaf. If a node can't be read, the walk goes on there.
fn go_down<S: ReadAt, K: Fetch, V: Fetch, M: ArchivedMap<Key = K, Mapped = V>>(
    pos: u32,
    walk: &mut UnverifiedWalk,
    reader: &mut Reader<S>,
    page: &mut [u8],
) -> Result<Leaf, SourceFault<S::Error>>
    requires fitting { IsTrue (are_fitting K.kind V.kind M.E) }
    requires page { inner_size (layout_of K.kind V.kind M.E) ≤ length page.old }
    requires low { IsLowPath K.kind V.kind M.E pos walk.old.path.items }
    requires way { (b : List ℕ) → AreOf (S.known reader.old.source) b →
        IsWay (layout_of K.kind V.kind M.E) b pos walk.old.path.items
        × FewLeft K.kind V.kind M.E b pos walk.old.path.items walk.old.nodes }
    ensures low { IsLowPath K.kind V.kind M.E pos walk.new.path.items }
    ensures others { (walk.new.node ≡ walk.old.node) × (walk.new.next ≡ walk.old.next)
        × (walk.new.end ≡ walk.old.end) × (walk.new.taken ≡ walk.old.taken)
        × (walk.new.phase ≡ walk.old.phase) }
    ensures leaf { IfOk result (λ leaf. (leaf.count ≤ M.E) × (0 < leaf.count →
        leaf.node + leaf_size (layout_of K.kind V.kind M.E) ≤ pos)) }
    ensures gives { (b : List ℕ) → AreOf (S.known reader.old.source) b →
        GivesBy (λ leaf. leaf) (LeafGives K.kind V.kind M.E b K.Refuses V.Refuses pos
        walk.old.path.items walk.old.nodes walk.new.path.items walk.new.nodes) result }
    ensures waits { (b : List ℕ) → AreOf (S.known reader.old.source) b → IfErr result
        (IfUnread (WaitsDown K.kind V.kind M.E b pos walk.old.path.items walk.old.nodes
        walk.new.path.items walk.new.nodes)) }
    ensures most { M.E * walk.new.nodes + path_entries M.E walk.new.path.items
        ≤ M.E * walk.old.nodes + path_entries M.E walk.old.path.items }
    ensures fewer { IfOk result (λ leaf. M.E * walk.new.nodes
        + path_entries M.E walk.new.path.items + leaf.count
        ≤ M.E * walk.old.nodes + path_entries M.E walk.old.path.items) }
    ensures same { S.known reader.new.source ≡ S.known reader.old.source }
    ensures fails { IfErr result (IfRead (S.Fails (S.known reader.old.source))) }
    ensures caused { (n : ℕ) → IfErr result (IsTooSmall (pos + 8) 0 n reader.new.left) }
    ensures left { reader.new.left ≤ reader.old.left }
{
    match pending::<S, K, V, M>(pos, &mut walk.path, reader, page) {
        Err(fault) => Err(fault),
        Ok(None) => Ok(Leaf { node: 0, count: 0 }),
        Ok(Some((node, hi))) => descend::<S, K, V, M>(
            pos,
            node,
            hi,
            &mut walk.path,
            &mut walk.nodes,
            reader,
            page,
        ),
    }
}

/// Brings the next entry of the leaf, or of the path.
fn advance<S: ReadAt, K: Fetch, V: Fetch, M: ArchivedMap<Key = K, Mapped = V>>(
    pos: u32,
    walk: &mut UnverifiedWalk,
    reader: &mut Reader<S>,
    page: &mut [u8],
    room: &mut [u8],
) -> Result<Option<Brought>, SourceFault<S::Error>>
    requires fitting { IsTrue (are_fitting K.kind V.kind M.E) }
    requires page { inner_size (layout_of K.kind V.kind M.E) ≤ length page.old }
    requires short { length room.old ≤ 4294967295 }
    requires placed { IsPlaced K.kind V.kind M.E pos walk.old }
    requires phase { walk.old.phase ≡ Advance }
    requires has { (b : List ℕ) → AreOf (S.known reader.old.source) b →
        HasAt K.kind V.kind M.E b pos walk.old × IsCounted K.kind V.kind M.E b pos walk.old }
    ensures placed { IsPlaced K.kind V.kind M.E pos walk.new }
    ensures held { IfOk result (λ entry. IfSome entry (IsHeld K.kind V.kind room.new)) }
    ensures walks { (b : List ℕ) → AreOf (S.known reader.old.source) b →
        IfOk result (λ _. IsUnverifiedWalk K.kind V.kind M.E b pos walk.new) }
    ensures gives { (b : List ℕ) → AreOf (S.known reader.old.source) b →
        StepGives K.kind V.kind M.E b K.Refuses V.Refuses pos walk.old walk.new room.new result }
    ensures most { walk_most M.E walk.new ≤ walk_most M.E walk.old }
    ensures fewer { IfOk result (λ entry. IfSome entry (λ _.
        walk_most M.E walk.new < walk_most M.E walk.old)) }
    ensures same { S.known reader.new.source ≡ S.known reader.old.source }
    ensures fails { IfErr result (IfRead (S.Fails (S.known reader.old.source))) }
    ensures caused { IfErr result (IsTooSmall (pos + 8) 0 (length room.old) reader.new.left) }
    ensures left { reader.new.left ≤ reader.old.left }
{
    let (node, next) = (walk.node, walk.next);
    if next < walk.end {
        let len = leaf_size::<K, V, M>();
        return match bring_entry::<S, K, V, M>(node, next, len, reader, page, room) {
            Err(fault) => Err(fault),
            Ok(entry) => {
                walk.next = next + 1;
                walk.taken = walk.taken.saturating_add(1);
                Ok(Some(entry))
            }
        };
    }
    match climb::<S, K, V, M>(pos, &mut walk.path, reader, page, room) {
        Err(fault) => Err(fault),
        Ok(None) => {
            walk.phase = Phase::Over;
            Ok(None)
        }
        Ok(Some(entry)) => {
            walk.phase = Phase::Descend;
            walk.taken = walk.taken.saturating_add(1);
            Ok(Some(entry))
        }
    }
}

/// Brings the next entry of the map at `pos`, if one remains. If it can't be brought, it remains.
pub(crate) fn step<S: ReadAt, K: Fetch, V: Fetch, M: ArchivedMap<Key = K, Mapped = V>>(
    pos: u32,
    walk: &mut UnverifiedWalk,
    reader: &mut Reader<S>,
    page: &mut [u8],
    room: &mut [u8],
) -> Result<Option<Brought>, SourceFault<S::Error>>
    requires fitting { IsTrue (are_fitting K.kind V.kind M.E) }
    requires page { inner_size (layout_of K.kind V.kind M.E) ≤ length page.old }
    requires short { length room.old ≤ 4294967295 }
    requires placed { IsPlaced K.kind V.kind M.E pos walk.old }
    requires walks { (b : List ℕ) → AreOf (S.known reader.old.source) b →
        IsCounted K.kind V.kind M.E b pos walk.old }
    ensures placed { IsPlaced K.kind V.kind M.E pos walk.new }
    ensures held { IfOk result (λ entry. IfSome entry (IsHeld K.kind V.kind room.new)) }
    ensures walks { (b : List ℕ) → AreOf (S.known reader.old.source) b →
        IfOk result (λ _. IsUnverifiedWalk K.kind V.kind M.E b pos walk.new) }
    ensures gives { (b : List ℕ) → AreOf (S.known reader.old.source) b →
        StepGives K.kind V.kind M.E b K.Refuses V.Refuses pos walk.old walk.new room.new result }
    ensures most { walk_most M.E walk.new ≤ walk_most M.E walk.old }
    ensures fewer { IfOk result (λ entry. IfSome entry (λ _.
        walk_most M.E walk.new < walk_most M.E walk.old)) }
    ensures same { S.known reader.new.source ≡ S.known reader.old.source }
    ensures fails { IfErr result (IfRead (S.Fails (S.known reader.old.source))) }
    ensures caused { IfErr result (IsTooSmall (pos + 8) 0 (length room.old) reader.new.left) }
    ensures left { reader.new.left ≤ reader.old.left }
{
    match walk.phase {
        Phase::Over => Ok(None),
        Phase::Advance => advance::<S, K, V, M>(pos, walk, reader, page, room),
        Phase::Descend => match go_down::<S, K, V, M>(pos, walk, reader, page) {
            Err(fault) => Err(fault),
            Ok(leaf) => {
                walk.node = leaf.node;
                walk.next = 0;
                walk.end = leaf.count;
                walk.phase = Phase::Advance;
                advance::<S, K, V, M>(pos, walk, reader, page, room)
            }
        },
    }
}
