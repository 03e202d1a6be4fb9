//! Writing a tree in one pass over its entries. Only the entries of open nodes wait in memory: those of one node for each level
//! above the last, and those of one leaf.
ghost use Rattle.rkyv_btree_writing_laws.specs.Entries.{both_borrowed};
ghost use Rattle.std.specs.Prelude.{◌≡◌, ℕ, ◌+◌, ◌*◌, ◌-◌, ◌^◌, ◌≤◌, ◌<◌, ◌↔◌, List, [], ◌∷◌, ◌++◌, length, replicate};
ghost use Rattle.std.specs.Prelude.{None, vec_capacity, OnOk, IfOk, IfErr, IfSome, IfNone, IsTrue};
ghost use Rattle.std.specs.Iterator.{IsFinite, size};
ghost use Rattle.rkyv_btree_format.specs.Layout.{layout_of, are_fitting};
ghost use Rattle.rkyv_btree_archive.specs.mirror.Scratch.{IsFree, IsReserved};
ghost use Rattle.rkyv_btree_shape.specs.mirror.Filled.{most, IsLeafOf};
ghost use Rattle.rkyv_btree_archive.specs.mirror.Passing.{NextWritten, NextFault};
ghost use Rattle.rkyv_btree_archive.specs.mirror.Source.{Gives, key_of, last_taken};
ghost use Rattle.std.specs.Option.{option_copied};
ghost use Rattle.rkyv_btree_writer.specs.Writing.{position, last_end};

use crate::archive::{Archive, Serialize};
use crate::borrow::Borrow;
use crate::items::{Look, Source, last_key, take_items};
use crate::node_writes::{Scratch, write_leaf};
use crate::waiting::{keep_last, push, wait, write_above};
use rkyv_btree_portable::check::Portable;
use rkyv_btree_writer::fault::{Fault, IteratorLengthMismatch};
use rkyv_btree_writer::place::Writer;
use std::alloc::Allocator;

/// Returns whether the next child is an inner node. It has `levels` levels above the tree's last one, for which `on_last`
/// entries are left.
fn is_inner(levels: usize, on_last: usize) -> bool
    ensures { IsTrue result ↔ ((1 ≤ levels) × (1 ≤ on_last + (levels - 1))) }
{
    levels > 1 || (levels == 1 && on_last > 0)
}

/// Returns how many entries the next child has, if it isn't an inner node: 0 if it is absent.
fn leaf_len<const E: usize>(levels: usize, on_last: usize) -> usize
    requires low { levels ≤ 1 }
    requires leaf { levels ≡ 1 → on_last ≡ 0 }
    ensures leaf { IsLeafOf E levels on_last result }
    ensures few { result ≤ E }
{
    if levels == 0 { on_last.min(E) } else { E }
}

/// Opens the inner nodes down to the next child that isn't one, and returns the levels of that child. For each node it appends
/// to `starts` how many entries wait before the node's own.
fn open_nodes<A: Allocator>(
    levels: usize,
    on_last: usize,
    starts: &mut Vec<usize, A>,
    waiting: usize,
) -> usize
    requires room { length starts.old.items + levels ≤ vec_capacity starts.old }
    ensures below { result ≤ levels }
    ensures opened { starts.new.items ≡ starts.old.items ++ replicate (levels - result) waiting }
    ensures inner { result < levels → 1 ≤ on_last + result }
    ensures low { result ≤ 1 }
    ensures leaf { result ≡ 1 → on_last ≡ 0 }
    ensures room { vec_capacity starts.old ≤ vec_capacity starts.new }
{
    let mut below = levels;
    while is_inner(below, on_last) {
        push(starts, waiting);
        below -= 1;
    }
    below
}

/// Returns how many entries wait before those of the innermost open node, if a node is open.
fn innermost<A: Allocator>(starts: &Vec<usize, A>) -> Option<usize>
    ensures some { IfSome result
        (λ first. (front : List ℕ) × (starts.now.items ≡ front ++ first ∷ [])) }
    ensures none { IfNone result (starts.now.items ≡ []) }
{
    starts.last().copied()
}

/// The memory for writing a tree: that for one node, and lists of the entries and children that wait for their nodes, of the
/// open nodes, and of a leaf's entries.
#[derive(Drop)]
pub(crate) struct Lists<BKU, BVU, KU: Archive, VU: Archive, A: Allocator> {
    pub(crate) scratch: Scratch<KU::Resolver, VU::Resolver, A>,
    pub(crate) waiting: Vec<(BKU, BVU), A>,
    pub(crate) children: Vec<Option<u32>, A>,
    pub(crate) starts: Vec<usize, A>,
    pub(crate) leaf: Vec<(BKU, BVU), A>,
}

/// Returns the key of the last item that was taken: that of the leaf's last item, or else of the last one that waits.
#[inline(always)]
fn key_taken<'a, B, C>(waiting: &'a [(B, C)], leaf: &'a [(B, C)]) -> Option<&'a B>
    ensures { option_copied result ≡ last_taken waiting.now leaf.now }
{
    last_key(leaf, last_key(waiting, None))
}

/// A tree that was written: the position of its root node, and its last item.
#[derive(Drop)]
pub(crate) struct Written<B, C> {
    pub(crate) root: Option<u32>,
    pub(crate) last: Option<(B, C)>,
}

/// Takes the items of a tree, writes the tree, and returns the position of its root node and its last item. The tree has `above`
/// levels above its last one, which has `on_last` entries.
pub(crate) fn write_tree<BKU, BVU, KU, VU, K, V, W, A, I, L, const E: usize>(
    alloc: A,
    above: usize,
    on_last: usize,
    claim: usize,
    lists: Lists<BKU, BVU, KU, VU, A>,
    source: &mut Source<I, L>,
    writer: &mut W,
) -> Result<Written<BKU, BVU>, Fault<W::Error>>
where
    BKU: Borrow<KU> + Drop,
    BVU: Borrow<VU> + Drop,
    KU: Archive<Archived = K> + Serialize<W, A>,
    VU: Archive<Archived = V> + Serialize<W, A>,
    K: Portable,
    V: Portable,
    W: Writer,
    A: Allocator + Copy,
    I: Iterator<Item = (BKU, BVU)>,
    L: Look<BKU> + Drop,
    requires fitting { IsTrue (are_fitting K.kind V.kind E) }
    requires claim { (E + 1) ^ above + on_last ≡ claim + 1 }
    requires some { 1 ≤ on_last }
    requires most { on_last ≤ most E above }
    requires small { claim ≤ 4294967295 }
    requires free { IsFree (layout_of K.kind V.kind E) lists.scratch }
    requires waiting { IsReserved lists.waiting (E * above) }
    requires children { IsReserved lists.children (E * above) }
    requires starts { IsReserved lists.starts above }
    requires leaf { IsReserved lists.leaf E }
    requires can { I.can_next source.old.items }
    requires ends { IsFinite (I.remaining source.old.items) }
    ensures ok { IfOk result (λ tree.
        NextWritten (layout_of K.kind V.kind E) KU.archival VU.archival
        (both_borrowed BKU.borrowed BVU.borrowed) (Gives I.next_gives L.passes L.stops) above
        on_last (source.old, None) (W.state writer.old) tree.root (source.new, key_of tree.last)
        (W.state writer.new)) }
    ensures err { IfErr result (λ fault.
        NextFault (layout_of K.kind V.kind E) KU.archival VU.archival
        (both_borrowed BKU.borrowed BVU.borrowed) (Gives I.next_gives L.passes L.stops) claim 0
        above on_last (source.old, None) (W.state writer.old) fault (source.new, None)
        (W.state writer.new)) }
    ensures left { OnOk result
        (size (I.remaining source.new.items) + claim ≤ size (I.remaining source.old.items)) }
    ensures last { OnOk result (position (W.state writer.new) ≤ last_end) }
    ensures can { OnOk result (I.can_next source.new.items) }
    ensures ends { OnOk result (IsFinite (I.remaining source.new.items)) }
{
    let Lists {
        mut scratch,
        mut waiting,
        mut children,
        mut starts,
        mut leaf,
    } = lists;
    let mut levels = open_nodes(above, on_last, &mut starts, 0);
    let first_len = leaf_len::<E>(levels, on_last);
    if !take_items(&mut leaf, first_len, last_key(&waiting, None), source) {
        return Err(Fault::Length(IteratorLengthMismatch {
            expected: claim,
            actual: leaf.len(),
        }));
    }
    let mut taken = first_len;
    let mut left = on_last.saturating_sub(E);
    let place = write_leaf::<BKU, BVU, KU, VU, K, V, W, A, E>(alloc, &mut scratch, &leaf, writer)?;
    let mut child = Some(place);
    while let Some(first) = innermost(&starts) {
        if waiting.len() - first == E {
            let root = write_above::<BKU, BVU, KU, VU, K, V, W, A, E>(
                alloc,
                &mut scratch,
                &waiting,
                &mut children,
                first,
                first,
                child,
                writer,
            )?;
            keep_last(&mut waiting, first, &mut leaf);
            child = Some(root);
            starts.truncate(starts.len() - 1);
            levels += 1;
        } else {
            let Some(entry) = source.next::<BKU, BVU>(key_taken(&waiting, &leaf)) else {
                return Err(Fault::Length(IteratorLengthMismatch {
                    expected: claim,
                    actual: taken,
                }));
            };
            taken += 1;
            wait(&mut waiting, &mut children, child, entry);
            levels = open_nodes(levels, left, &mut starts, waiting.len());
            let len = leaf_len::<E>(levels, left);
            leaf.clear();
            if len == 0 {
                child = None;
            } else {
                if !take_items(&mut leaf, len, last_key(&waiting, None), source) {
                    return Err(Fault::Length(IteratorLengthMismatch {
                        expected: claim,
                        actual: taken + leaf.len(),
                    }));
                }
                taken += len;
                left = left.saturating_sub(E);
                let next_place = write_leaf::<BKU, BVU, KU, VU, K, V, W, A, E>(
                    alloc,
                    &mut scratch,
                    &leaf,
                    writer,
                )?;
                child = Some(next_place);
            }
        }
    }
    Ok(Written {
        root: child,
        last: leaf.pop(),
    })
}
