//! The way down to a low bound in a source.
ghost use Rattle.std.specs.Prelude.{◌≡◌, ◌+◌, ◌-◌, ◌*◌, ◌≤◌, ℕ, List, [], IfErr, IfOk, IfSome, IsTrue, length};
ghost use Rattle.std.specs.Range.Bound.{bound_map};
ghost use Rattle.rkyv_btree_format.specs.Layout.{layout_of, are_fitting, leaf_size, inner_size};
ghost use Rattle.rkyv_btree_portable.specs.Views.{stands};
ghost use Rattle.rkyv_btree_source.specs.Known.{AreOf};
ghost use Rattle.rkyv_btree_source.specs.Reading.{IfRead, GivesBy, IsPart, IsTooSmall};
ghost use Rattle.rkyv_btree_source.specs.mirror.Walking.{IsLowPath, IsPlaced, SeekGives};
ghost use Rattle.rkyv_btree_unverified.specs.EntriesFrom.{from_place};
ghost use Rattle.rkyv_btree_unverified.specs.Steps.{HasRoom};
ghost use Rattle.rkyv_btree_unverified.specs.declared.walk.Phase.TheVariants.{Descend};
ghost use Rattle.rkyv_btree_unverified.specs.mirror.Sought.{reached_place, BeginGives, PartGives};
ghost use Rattle.rkyv_btree_unverified.specs.mirror.Walked.{FewLeft, LeadsTo, path_entries, walk_most};
ghost use Rattle.rkyv_btree_walk.specs.mirror.Range.{is_reached};

use crate::fault::SourceFault;
use crate::fetch::Fetch;
use crate::node::{count_in, node_len, read_head};
use crate::reader::Reader;
use crate::search::{child_in, fetch_part};
use crate::source::ReadAt;
use rkyv_btree_portable::check::Portable;
use rkyv_btree_portable::refusal::Refusal;
use rkyv_btree_unverified::walk::{Phase, UnverifiedWalk};
use rkyv_btree_view::compare_native::CompareWith;
use rkyv_btree_view::view::View;
use rkyv_btree_walk::archived_map::ArchivedMap;
use rkyv_btree_walk::path::Path;
use rkyv_btree_walk::seek::Part;
use rkyv_btree_walk::shows::Shows;
use std::ops::Bound;

/// Returns whether the key that was brought to a place reaches the query: it isn't before it, or where `past` is true, it is after it.
fn reaches<T, K: CompareWith<T>>(key: &T, past: bool, room: &[u8], place: u32) -> bool
    requires { IsTrue (stands K.kind room.now place) }
    ensures { result ≡ is_reached past (K.compared_at key.now room.now place) }
{
    let order = K::compare_with(key, &View::<K>::at(room, place));
    if past {
        return order.is_lt();
    }
    order.is_le()
}

/// Returns the first number at which a key of a node reaches the query, or `count`. Keys are brought and compared up to that one.
fn seek_keys<
    S: ReadAt,
    T,
    K: Fetch + CompareWith<T>,
    V: Portable,
    M: ArchivedMap<Key = K, Mapped = V>,
>(
    bytes: &[u8],
    node: u32,
    count: u32,
    key: &T,
    past: bool,
    reader: &mut Reader<S>,
    room: &mut [u8],
) -> Result<u32, SourceFault<S::Error>>
    requires fitting { IsTrue (are_fitting K.kind V.kind M.E) }
    requires inside { leaf_size (layout_of K.kind V.kind M.E) ≤ length bytes.now }
    requires small { node + length bytes.now ≤ 4294967295 }
    requires short { length room.old ≤ 4294967295 }
    requires few { count ≤ M.E }
    requires part { (b : List ℕ) → AreOf (S.known reader.old.source) b → IsPart b bytes.now node }
    ensures within { IfOk result (λ next. next ≤ count) }
    ensures gives { (b : List ℕ) → AreOf (S.known reader.old.source) b →
        SeekGives K.kind V.kind M.E b K.compared_at K.Refuses key.now past node count result }
    ensures same { S.known reader.new.source ≡ S.known reader.old.source }
    ensures fails { IfErr result (IfRead (S.Fails (S.known reader.old.source))) }
    ensures caused { IfErr result
        (IsTooSmall (node + length bytes.now) 0 (length room.old) reader.new.left) }
    ensures left { reader.new.left ≤ reader.old.left }
{
    for i in 0..count {
        let place = match fetch_part::<S, K>(bytes, M::key_at(i as usize), node, reader, room) {
            Ok(place) => place,
            Err(fault) => return Err(fault),
        };
        if reaches::<T, K>(key, past, room, place) {
            return Ok(i);
        }
    }
    Ok(count)
}

/// Goes down from the root beside the first entry whose key reaches the query, and puts the inner nodes met on the empty path.
fn seek<S: ReadAt, T, K: Fetch + CompareWith<T>, V: Fetch, M: ArchivedMap<Key = K, Mapped = V>>(
    pos: u32,
    root: u32,
    key: &T,
    past: bool,
    path: &mut Path,
    nodes: &mut usize,
    reader: &mut Reader<S>,
    page: &mut [u8],
    room: &mut [u8],
) -> Result<Part, SourceFault<S::Error>>
    requires fitting { IsTrue (are_fitting K.kind V.kind M.E) }
    requires page { inner_size (layout_of K.kind V.kind M.E) ≤ length page.old }
    requires short { length room.old ≤ 4294967295 }
    requires empty { path.old.items ≡ [] }
    requires room { HasRoom K.kind V.kind M.E pos root }
    requires leads { (b : List ℕ) → AreOf (S.known reader.old.source) b →
        LeadsTo K.kind V.kind M.E b pos [] root pos × FewLeft K.kind V.kind M.E b pos [] nodes.old }
    ensures low { IsLowPath K.kind V.kind M.E pos path.new.items }
    ensures leaf { IfOk result (λ part. (part.end ≤ M.E)
        × (part.node + leaf_size (layout_of K.kind V.kind M.E) ≤ pos)) }
    ensures gives { (b : List ℕ) → AreOf (S.known reader.old.source) b →
        GivesBy (λ part. part) (PartGives K.kind V.kind M.E b K.Refuses V.Refuses pos
        (reached_place K.kind V.kind M.E K.compared_at b key.now past)
        nodes.old path.new.items nodes.new) result }
    ensures most { IfOk result (λ part. M.E * nodes.new + path_entries M.E path.new.items
        + (part.end - part.next) ≤ M.E * nodes.old) }
    ensures same { S.known reader.new.source ≡ S.known reader.old.source }
    ensures fails { IfErr result (IfRead (S.Fails (S.known reader.old.source))) }
    ensures caused { IfErr result (IsTooSmall (pos + 8) 0 (length room.old) reader.new.left) }
    ensures left { reader.new.left ≤ reader.old.left }
{
    let mut at = root;
    let mut end = pos;
    'down: loop {
        if path.len() == 32 {
            return Err(SourceFault::Refused(Refusal::TooDeep { pos: i64::from(at) }));
        }
        if *nodes == 0 {
            return Err(SourceFault::Refused(Refusal::OutOfRange { pos: i64::from(at) }));
        }
        *nodes -= 1;
        let bytes = &mut page[..node_len::<K, V, M>(at, end) as usize];
        match reader.read(at, bytes) {
            Err(fault) => return Err(fault),
            Ok(()) => {}
        }
        let count = match count_in::<K, V, M>(bytes, at, end) {
            Ok(count) => count,
            Err(refusal) => return Err(SourceFault::Refused(refusal)),
        };
        let next = match seek_keys::<S, T, K, V, M>(bytes, at, count, key, past, reader, room) {
            Ok(next) => next,
            Err(fault) => return Err(fault),
        };
        if bytes[0] == 0 {
            return Ok(Part {
                node: at,
                next,
                end: count,
            });
        }
        path.push((at, next));
        match child_in::<K, V, M>(bytes, at, next) {
            Err(refusal) => return Err(SourceFault::Refused(refusal)),
            Ok(None) => return Ok(Part {
                node: at,
                next: 0,
                end: 0,
            }),
            Ok(Some(below)) => {
                end = at;
                at = below;
            }
        }
    }
}

/// Takes a walk that hasn't begun to the first entry whose key reaches the query.
fn begin_at<S: ReadAt, T, K: Fetch + CompareWith<T>, V: Fetch, M: ArchivedMap<Key = K, Mapped = V>>(
    pos: u32,
    key: &T,
    past: bool,
    walk: &mut UnverifiedWalk,
    reader: &mut Reader<S>,
    page: &mut [u8],
    room: &mut [u8],
) -> Result<(), SourceFault<S::Error>>
    requires fitting { IsTrue (are_fitting K.kind V.kind M.E) }
    requires page { inner_size (layout_of K.kind V.kind M.E) ≤ length page.old }
    requires short { length room.old ≤ 4294967295 }
    requires empty { walk.old.path.items ≡ [] }
    requires phase { walk.old.phase ≡ Descend }
    requires taken { walk.old.taken ≡ 0 }
    requires none { walk.old.end ≡ 0 }
    requires few { (b : List ℕ) → AreOf (S.known reader.old.source) b →
        FewLeft K.kind V.kind M.E b pos [] walk.old.nodes }
    ensures placed { IfOk result (λ _. IsPlaced K.kind V.kind M.E pos walk.new) }
    ensures gives { (b : List ℕ) → AreOf (S.known reader.old.source) b →
        GivesBy (λ x. x) (BeginGives K.kind V.kind M.E b K.Refuses V.Refuses pos
        (reached_place K.kind V.kind M.E K.compared_at b key.now past)
        walk.old.nodes walk.new) result }
    ensures most { IfOk result (λ _. walk_most M.E walk.new ≤ M.E * walk.old.nodes) }
    ensures same { S.known reader.new.source ≡ S.known reader.old.source }
    ensures fails { IfErr result (IfRead (S.Fails (S.known reader.old.source))) }
    ensures caused { IfErr result (IsTooSmall (pos + 8) 0 (length room.old) reader.new.left) }
    ensures left { reader.new.left ≤ reader.old.left }
{
    let root = match read_head::<S, K, V, M>(reader, pos) {
        Err(fault) => return Err(fault),
        Ok(None) => return Ok(()),
        Ok(Some(root)) => root,
    };
    let (path, nodes) = (&mut walk.path, &mut walk.nodes);
    match seek::<S, T, K, V, M>(pos, root, key, past, path, nodes, reader, page, room) {
        Err(fault) => Err(fault),
        Ok(part) => {
            walk.node = part.node;
            walk.next = part.next;
            walk.end = part.end;
            walk.phase = Phase::Advance;
            Ok(())
        }
    }
}

/// Takes a walk that hasn't begun to the first entry that isn't before a low bound.
pub(crate) fn begin<
    S: ReadAt,
    T,
    K: Fetch + CompareWith<T>,
    V: Fetch,
    M: ArchivedMap<Key = K, Mapped = V>,
>(
    pos: u32,
    low: Bound<&T>,
    walk: &mut UnverifiedWalk,
    reader: &mut Reader<S>,
    page: &mut [u8],
    room: &mut [u8],
) -> Result<(), SourceFault<S::Error>>
    requires fitting { IsTrue (are_fitting K.kind V.kind M.E) }
    requires page { inner_size (layout_of K.kind V.kind M.E) ≤ length page.old }
    requires short { length room.old ≤ 4294967295 }
    requires empty { walk.old.path.items ≡ [] }
    requires phase { walk.old.phase ≡ Descend }
    requires taken { walk.old.taken ≡ 0 }
    requires none { walk.old.end ≡ 0 }
    requires few { (b : List ℕ) → AreOf (S.known reader.old.source) b →
        FewLeft K.kind V.kind M.E b pos [] walk.old.nodes }
    ensures placed { IfOk result (λ _. IsPlaced K.kind V.kind M.E pos walk.new) }
    ensures gives { (b : List ℕ) → AreOf (S.known reader.old.source) b →
        GivesBy (λ x. x) (BeginGives K.kind V.kind M.E b K.Refuses V.Refuses pos
        (from_place K.kind V.kind M.E K.compared_at b (bound_map (λ key. key.now) low.entry))
        walk.old.nodes walk.new) result }
    ensures most { IfOk result (λ _. walk_most M.E walk.new ≤ M.E * walk.old.nodes) }
    ensures same { S.known reader.new.source ≡ S.known reader.old.source }
    ensures fails { IfErr result (IfRead (S.Fails (S.known reader.old.source))) }
    ensures caused { IfErr result (IsTooSmall (pos + 8) 0 (length room.old) reader.new.left) }
    ensures left { reader.new.left ≤ reader.old.left }
{
    match low {
        Bound::Unbounded => Ok(()),
        Bound::Included(key) => begin_at::<S, T, K, V, M>(
            pos, key, false, walk, reader, page, room,
        ),
        Bound::Excluded(key) => begin_at::<S, T, K, V, M>(pos, key, true, walk, reader, page, room),
    }
}
