//! Ways down to a low bound in untrusted bytes.
ghost use Rattle.std.specs.Prelude.{◌≡◌, ℕ, ◌+◌, ◌≤◌, ◌<◌, [], length, IfOk, IfErr, IsOk, IsTrue};
ghost use Rattle.std.specs.Range.Bound.{bound_map};
ghost use Rattle.rkyv_btree_format.specs.Layout.{layout_of, are_fitting, leaf_size};
ghost use Rattle.rkyv_btree_portable.specs.Views.{stands};
ghost use Rattle.rkyv_btree_walk.specs.mirror.Node.{EntryStands};
ghost use Rattle.rkyv_btree_walk.specs.mirror.Range.{IsFirst, is_reached};
ghost use Rattle.rkyv_btree_unverified.specs.EntriesFrom.{from_place};
ghost use Rattle.rkyv_btree_unverified.specs.Steps.{key_place};
ghost use Rattle.rkyv_btree_unverified.specs.declared.walk.Phase.TheVariants.{Descend};
ghost use Rattle.rkyv_btree_unverified.specs.mirror.Walked.{LeadsTo, FewLeft};
ghost use Rattle.rkyv_btree_unverified.specs.mirror.Sought.{reached_place, PartGives, BeginGives};

use crate::node::{check_at, entries_in};
use crate::walk::{Phase, UnverifiedWalk, child_before, head};
use rkyv_btree_portable::check::CheckBytes;
use rkyv_btree_portable::refusal::Refusal;
use rkyv_btree_view::compare_native::CompareWith;
use rkyv_btree_view::view::View;
use rkyv_btree_walk::archived_map::ArchivedMap;
use rkyv_btree_walk::node::key_pos;
use rkyv_btree_walk::path::Path;
use rkyv_btree_walk::seek::Part;
use rkyv_btree_walk::shows::Shows;
use std::ops::Bound;

/// Returns whether the key at `pos` reaches the query: it isn't before it, or where `past` is true, it is after it.
///
/// # Errors
///
/// The error of the key.
#[inline(always)]
fn reaches<T, K: CheckBytes + CompareWith<T>>(
    buf: &[u8],
    pos: u32,
    key: &T,
    past: bool,
) -> Result<bool, Refusal>
    requires { IsTrue K.kind.is_fitting }
    ensures accepts { IsTrue (stands K.kind buf.now pos) → IsOk result }
    ensures value { IfOk result (λ reached.
        reached ≡ is_reached past (K.compared_at key.now buf.now pos)) }
    ensures refused { IfErr result (λ refusal. K.Refuses buf.now 0 pos pos refusal) }
{
    match check_at::<K>(buf, pos) {
        Err(refusal) => Err(refusal),
        Ok(_) => {
            let order = K::compare_with(key, &View::<K>::at(buf, pos));
            if past {
                return Ok(order.is_lt());
            }
            Ok(order.is_le())
        }
    }
}

/// Returns the first number at which a key of the node reaches the query, or `count`. Keys are validated and compared up to that one.
///
/// # Errors
///
/// The error of the first key that isn't valid.
fn seek_keys<T, K: CheckBytes + CompareWith<T>, V: CheckBytes, M: ArchivedMap<Key = K, Mapped = V>>(
    buf: &[u8],
    node: u32,
    count: u32,
    key: &T,
    past: bool,
) -> Result<u32, Refusal>
    requires fitting { IsTrue (are_fitting K.kind V.kind M.E) }
    requires short { length buf.now ≤ 4294967295 }
    requires inside { node + leaf_size (layout_of K.kind V.kind M.E) ≤ length buf.now }
    requires few { count ≤ M.E }
    ensures within { IfOk result (λ next. next ≤ count) }
    ensures first { IfOk result (λ next. IsFirst (λ i.
        reached_place K.kind V.kind M.E K.compared_at buf.now key.now past (node, i)) 0 count next) }
    ensures accepts { ((i : ℕ) → i < count → EntryStands K.kind V.kind M.E buf.now
        (node, i)) → IsOk result }
    ensures refused { IfErr result (λ refusal. (i : ℕ) × (i < count)
        × K.Refuses buf.now 0 (key_place K.kind V.kind M.E (node, i))
        (key_place K.kind V.kind M.E (node, i)) refusal) }
{
    for i in 0..count {
        match reaches::<T, K>(buf, key_pos::<K, V, M>(node, i as usize), key, past) {
            Err(refusal) => return Err(refusal),
            Ok(reached) => {
                if reached {
                    return Ok(i);
                }
            }
        }
    }
    Ok(count)
}

/// Goes down from the root beside the first entry whose key reaches the query, and puts the inner nodes met on the empty path.
///
/// # Errors
///
/// The first error of a node, of a pointer to it, or of a key that is compared.
fn seek<T, K: CheckBytes + CompareWith<T>, V: CheckBytes, M: ArchivedMap<Key = K, Mapped = V>>(
    buf: &[u8],
    pos: u32,
    root: u32,
    key: &T,
    past: bool,
    path: &mut Path,
    nodes: &mut usize,
) -> Result<Part, Refusal>
    requires fitting { IsTrue (are_fitting K.kind V.kind M.E) }
    requires empty { path.old.items ≡ [] }
    requires leads { LeadsTo K.kind V.kind M.E buf.now pos [] root pos }
    requires few { FewLeft K.kind V.kind M.E buf.now pos [] nodes.old }
    ensures gives { PartGives K.kind V.kind M.E buf.now K.Refuses V.Refuses pos
        (reached_place K.kind V.kind M.E K.compared_at buf.now key.now past)
        nodes.old path.new.items nodes.new result }
{
    let mut at = root;
    let mut end = pos;
    'down: loop {
        if path.len() == 32 {
            return Err(Refusal::TooDeep { pos: i64::from(at) });
        }
        if *nodes == 0 {
            return Err(Refusal::OutOfRange { pos: i64::from(at) });
        }
        *nodes -= 1;
        let count = match entries_in::<K, V, M>(buf, at, end) {
            Ok(count) => count,
            Err(refusal) => return Err(refusal),
        };
        let next = match seek_keys::<T, K, V, M>(buf, at, count, key, past) {
            Ok(next) => next,
            Err(refusal) => return Err(refusal),
        };
        if buf[at as usize] == 0 {
            return Ok(Part {
                node: at,
                next,
                end: count,
            });
        }
        path.push((at, next));
        match child_before::<K, V, M>(buf, at, next) {
            Err(refusal) => return Err(refusal),
            Ok(None) => {
                return Ok(Part {
                    node: at,
                    next: 0,
                    end: 0,
                });
            }
            Ok(Some(below)) => {
                end = at;
                at = below;
            }
        }
    }
}

/// Takes a walk that hasn't begun to the first entry whose key reaches the query.
///
/// # Errors
///
/// The first error of what is read.
fn begin_at<T, K: CheckBytes + CompareWith<T>, V: CheckBytes, M: ArchivedMap<Key = K, Mapped = V>>(
    buf: &[u8],
    pos: u32,
    key: &T,
    past: bool,
    walk: &mut UnverifiedWalk,
) -> Result<(), Refusal>
    requires fitting { IsTrue (are_fitting K.kind V.kind M.E) }
    requires empty { walk.old.path.items ≡ [] }
    requires phase { walk.old.phase ≡ Descend }
    requires taken { walk.old.taken ≡ 0 }
    requires few { FewLeft K.kind V.kind M.E buf.now pos [] walk.old.nodes }
    ensures gives { BeginGives K.kind V.kind M.E buf.now K.Refuses V.Refuses pos
        (reached_place K.kind V.kind M.E K.compared_at buf.now key.now past)
        walk.old.nodes walk.new result }
{
    let root = match head::<K, V, M>(buf, pos) {
        Err(refusal) => return Err(refusal),
        Ok(None) => return Ok(()),
        Ok(Some(root)) => root,
    };
    match seek::<T, K, V, M>(buf, pos, root, key, past, &mut walk.path, &mut walk.nodes) {
        Err(refusal) => Err(refusal),
        Ok(part) => {
            walk.node = part.node;
            walk.next = part.next;
            walk.end = part.end;
            walk.phase = Phase::Advance;
            Ok(())
        }
    }
}

/// Takes a walk that hasn't begun to the first entry that isn't before a low bound.
///
/// # Errors
///
/// The first error of what is read. Without a bound nothing is read.
pub(crate) fn begin<
    T,
    K: CheckBytes + CompareWith<T>,
    V: CheckBytes,
    M: ArchivedMap<Key = K, Mapped = V>,
>(buf: &[u8], pos: u32, low: Bound<&T>, walk: &mut UnverifiedWalk) -> Result<(), Refusal>
    requires fitting { IsTrue (are_fitting K.kind V.kind M.E) }
    requires empty { walk.old.path.items ≡ [] }
    requires phase { walk.old.phase ≡ Descend }
    requires taken { walk.old.taken ≡ 0 }
    requires few { FewLeft K.kind V.kind M.E buf.now pos [] walk.old.nodes }
    ensures gives { BeginGives K.kind V.kind M.E buf.now K.Refuses V.Refuses pos
        (from_place K.kind V.kind M.E K.compared_at buf.now (bound_map (λ key. key.now) low.entry))
        walk.old.nodes walk.new result }
{
    match low {
        Bound::Unbounded => Ok(()),
        Bound::Included(key) => begin_at::<T, K, V, M>(buf, pos, key, false, walk),
        Bound::Excluded(key) => begin_at::<T, K, V, M>(buf, pos, key, true, walk),
    }
}
