//! The entries and children that wait until their node is written.
ghost use Rattle.std.specs.Prelude.{◌≡◌, ◌+◌, ◌≤◌, ◌<◌, [], ◌∷◌, ◌++◌, length, map, take, drop, vec_len, vec_capacity, OnOk, IfOk, IfErr, IsTrue};
ghost use Rattle.rkyv_btree_format.specs.Layout.{layout_of, are_fitting, inner_size};
ghost use Rattle.rkyv_btree_archive.specs.mirror.Scratch.{IsFree};
ghost use Rattle.rkyv_btree_archive.specs.mirror.Source.{last_taken};
ghost use Rattle.rkyv_btree_writer.specs.Writing.{position, last_end};
ghost use Rattle.rkyv_btree_writing_laws.specs.Entries.{both_borrowed};
ghost use Rattle.rkyv_btree_writing_laws.specs.Image.{inner_image};
ghost use Rattle.rkyv_btree_writing_laws.specs.Written.{NodeWritten, NodeStopped};

use crate::archive::{Archive, Serialize};
use crate::borrow::Borrow;
use crate::node_writes::{Scratch, write_inner};
use rkyv_btree_portable::check::Portable;
use rkyv_btree_writer::fault::Fault;
use rkyv_btree_writer::place::Writer;
use std::alloc::Allocator;

/// Appends a value to a list that has room for it.
#[inline(always)]
pub fn push<T: Drop, A: Allocator>(values: &mut Vec<T, A>, value: T)
    requires { vec_len values.old < vec_capacity values.old }
    ensures items { values.new.items ≡ values.old.items ++ value ∷ [] }
    ensures len { vec_len values.new ≡ vec_len values.old + 1 }
    ensures capacity { vec_capacity values.old ≤ vec_capacity values.new }
{
    values.push_reserved(value);
}

/// Appends an entry, and the child before it, to the lists of those that wait for their node.
pub fn wait<T: Drop, A: Allocator>(
    waiting: &mut Vec<T, A>,
    children: &mut Vec<Option<u32>, A>,
    child: Option<u32>,
    entry: T,
)
    requires waiting_room { vec_len waiting.old < vec_capacity waiting.old }
    requires child_room { vec_len children.old < vec_capacity children.old }
    ensures waiting { waiting.new.items ≡ waiting.old.items ++ entry ∷ [] }
    ensures children { children.new.items ≡ children.old.items ++ child ∷ [] }
    ensures room { (vec_capacity waiting.old ≤ vec_capacity waiting.new)
        × (vec_capacity children.old ≤ vec_capacity children.new) }
{
    push(children, child);
    push(waiting, entry);
}

/// Removes the entries from `first` on from the waiting ones, whose node is written. If the leaf's list is empty, it moves the
/// last of them there: the last item that was taken is then still at hand.
pub(crate) fn keep_last<B: Drop, C: Drop, A: Allocator>(
    waiting: &mut Vec<(B, C), A>,
    first: usize,
    leaf: &mut Vec<(B, C), A>,
)
    requires some { first < length waiting.old.items }
    requires room { 0 < vec_capacity leaf.old }
    ensures waiting { waiting.new.items ≡ take first waiting.old.items }
    ensures last { last_taken waiting.new.items leaf.new.items
        ≡ last_taken waiting.old.items leaf.old.items }
    ensures room { vec_capacity waiting.old ≤ vec_capacity waiting.new }
    ensures leaf_room { vec_capacity leaf.old ≤ vec_capacity leaf.new }
{
    if leaf.is_empty() {
        if let Some(item) = waiting.pop() {
            push(leaf, item);
        }
    }
    waiting.truncate(first);
}

/// Writes the inner node of the waiting entries from `first` on, the waiting children from `first_child` on and the child
/// `last`, and returns its position. Then it removes these children from their list.
///
/// # Errors
///
/// Those of `write_inner`. The children are unchanged then.
pub fn write_above<BKU, BVU, KU, VU, K, V, W, A, const E: usize>(
    alloc: A,
    scratch: &mut Scratch<KU::Resolver, VU::Resolver, A>,
    waiting: &Vec<(BKU, BVU), A>,
    children: &mut Vec<Option<u32>, A>,
    first: usize,
    first_child: usize,
    last: Option<u32>,
    writer: &mut W,
) -> Result<u32, Fault<W::Error>>
where
    BKU: Borrow<KU> + Drop,
    BVU: Borrow<VU> + Drop,
    KU: Archive<Archived = K> + Serialize<W, A>,
    VU: Archive<Archived = V> + Serialize<W, A>,
    K: Portable,
    V: Portable,
    W: Writer,
    A: Allocator + Copy,
    requires fitting { IsTrue (are_fitting K.kind V.kind E) }
    requires waiting { length waiting.now.items ≡ first + E }
    requires children { length children.old.items ≡ first_child + E }
    requires free { IsFree (layout_of K.kind V.kind E) scratch.old }
    ensures ok { IfOk result (λ root.
        NodeWritten (layout_of K.kind V.kind E) KU.archival VU.archival
        (λ at owns. inner_image (layout_of K.kind V.kind E) at owns
        (drop first_child children.old.items ++ last ∷ []))
        (inner_size (layout_of K.kind V.kind E)) (W.state writer.old)
        (map (both_borrowed BKU.borrowed BVU.borrowed) (drop first waiting.now.items)) root
        (W.state writer.new)) }
    ensures err { IfErr result (λ fault.
        NodeStopped (layout_of K.kind V.kind E) KU.archival VU.archival
        (λ at owns. inner_image (layout_of K.kind V.kind E) at owns
        (drop first_child children.old.items ++ last ∷ []))
        (inner_size (layout_of K.kind V.kind E)) (W.state writer.old)
        (map (both_borrowed BKU.borrowed BVU.borrowed) (drop first waiting.now.items)) fault
        (W.state writer.new)) }
    ensures last { OnOk result (position (W.state writer.new) ≤ last_end) }
    ensures free { OnOk result (IsFree (layout_of K.kind V.kind E) scratch.new) }
    ensures kept { OnOk result (children.new.items ≡ take first_child children.old.items) }
    ensures room { OnOk result (vec_capacity children.old ≤ vec_capacity children.new) }
{
    let root = write_inner::<BKU, BVU, KU, VU, K, V, W, A, E>(
        alloc,
        scratch,
        &waiting[first..],
        &children[first_child..],
        last,
        writer,
    )?;
    children.truncate(first_child);
    Ok(root)
}
