//! Writing a tree by plain recursion over the sizes of its subtrees.
ghost use Rattle.std.specs.Prelude.{◌≡◌, ◌+◌, ◌*◌, ◌-◌, ◌^◌, ◌≤◌, ◌<◌, length, map, min, vec_len, vec_capacity, OnOk, IfOk};
ghost use Rattle.std.specs.Prelude.{IfErr, OnSome, IfSome, IfNone, IsTrue};
ghost use Rattle.rkyv_btree_archive.specs.mirror.Scratch.{IsFree};
ghost use Rattle.rkyv_btree_format.specs.Layout.{layout_of, are_fitting};
ghost use Rattle.rkyv_btree_writing_laws.specs.Entries.{now_of};
ghost use Rattle.rkyv_btree_writing_laws.specs.Written.{ChildWritten, ChildStopped};
ghost use Rattle.rkyv_btree_shape.specs.Logarithm.{ilog};
ghost use Rattle.rkyv_btree_shape.specs.Plan.{planned_alone};
ghost use Rattle.rkyv_btree_writer.specs.Writing.{position, last_end};

use rkyv_btree_archive::archive::{Archive, Serialize};
use rkyv_btree_archive::node_writes::{Scratch, write_leaf};
use rkyv_btree_archive::waiting::{wait, write_above};
use rkyv_btree_portable::check::Portable;
use rkyv_btree_shape::height::child_base;
use rkyv_btree_writer::fault::Fault;
use rkyv_btree_writer::place::Writer;
use std::alloc::Allocator;

/// Returns the `child_base` of `len` entries, or `None` if they fit in a leaf.
fn inner_base<const E: usize>(len: usize) -> Option<usize>
    requires some { 1 ≤ E }
    requires small { E < 2 ^ 30 }
    requires fits { len ≤ 4294967295 }
    ensures leaf { IfNone result (len ≤ E) }
    ensures more { OnSome result (E < len) }
    ensures value { IfSome result (λ base. base ≡ (E + 1) ^ (ilog (E + 1) len - 1)) }
    ensures positive { IfSome result (λ base. 1 ≤ base) }
    ensures below { IfSome result (λ base. base * (E + 1) ≤ len) }
    ensures above { IfSome result (λ base. len < base * (E + 1) * (E + 1)) }
{
    if len <= E {
        return None;
    }
    Some(child_base::<E>(len))
}

/// Returns how many of the entries on the last level a child takes. A full child has `E * base` there.
fn taken_by_child<const E: usize>(on_last: usize, base: usize) -> usize
    requires { base * (E + 1) ≤ 4294967295 }
    ensures { result ≡ min on_last (E * base) }
{
    on_last.min(E * base)
}

/// Writes entries that fit in a leaf, and returns the leaf's position: `None` if there are no entries.
fn write_few<KU, VU, K, V, W, A, const E: usize>(
    alloc: A,
    scratch: &mut Scratch<KU::Resolver, VU::Resolver, A>,
    items: &[(&KU, &VU)],
    writer: &mut W,
) -> Result<Option<u32>, Fault<W::Error>>
where
    KU: Archive<Archived = K> + Serialize<W, A>,
    VU: Archive<Archived = V> + Serialize<W, A>,
    K: Portable,
    V: Portable,
    W: Writer,
    A: Allocator + Copy,
    requires fitting { IsTrue (are_fitting K.kind V.kind E) }
    requires few { length items.now ≤ E }
    requires free { IsFree (layout_of K.kind V.kind E) scratch.old }
    ensures ok { IfOk result (λ root.
        ChildWritten (layout_of K.kind V.kind E) KU.archival VU.archival (W.state writer.old)
        (planned_alone E (map now_of items.now)) root (W.state writer.new)) }
    ensures err { IfErr result (λ fault.
        ChildStopped (layout_of K.kind V.kind E) KU.archival VU.archival (W.state writer.old)
        (planned_alone E (map now_of items.now)) fault (W.state writer.new)) }
    ensures last { OnOk result (0 < length items.now → position (W.state writer.new) ≤ last_end) }
    ensures free { OnOk result (IsFree (layout_of K.kind V.kind E) scratch.new) }
{
    if items.is_empty() {
        return Ok(None);
    }
    let root = write_leaf::<&KU, &VU, KU, VU, K, V, W, A, E>(alloc, scratch, items, writer)?;
    Ok(Some(root))
}

/// Does nothing. Its contract says that two groups of entries fit together in the room for the whole parent: those that wait
/// for the nodes of a child, and the parent's own. The child has fewer entries than `base * (E + 1)`.
fn child_is_lower<const E: usize>(len: usize, child_len: usize, base: usize)
    requires some { 1 ≤ E }
    requires more { E < len }
    requires base { base ≡ (E + 1) ^ (ilog (E + 1) len - 1) }
    requires small { child_len < base * (E + 1) }
    ensures room { E * ilog (E + 1) child_len + E ≤ E * ilog (E + 1) len }
{}

/// Serializes the tree of these entries, and returns the position of its root node: `None` if there are no entries. `waiting`
/// and `children` have room for what waits on each level until a node's children are written.
pub(crate) fn write_child<'x, KU, VU, K, V, W, A, const E: usize>(
    alloc: A,
    scratch: &mut Scratch<KU::Resolver, VU::Resolver, A>,
    waiting: &mut Vec<(&'x KU, &'x VU), A>,
    children: &mut Vec<Option<u32>, A>,
    items: &[(&'x KU, &'x VU)],
    writer: &mut W,
) -> Result<Option<u32>, Fault<W::Error>>
where
    KU: Archive<Archived = K> + Serialize<W, A> + 'x,
    VU: Archive<Archived = V> + Serialize<W, A> + 'x,
    K: Portable,
    V: Portable,
    W: Writer,
    A: Allocator + Copy,
    requires fitting { IsTrue (are_fitting K.kind V.kind E) }
    requires count { length items.now ≤ 4294967295 }
    requires free { IsFree (layout_of K.kind V.kind E) scratch.old }
    requires waiting_room { vec_len waiting.old + E * ilog (E + 1) (length items.now)
        ≤ vec_capacity waiting.old }
    requires child_room { vec_len children.old + E * ilog (E + 1) (length items.now)
        ≤ vec_capacity children.old }
    ensures ok { IfOk result (λ root.
        ChildWritten (layout_of K.kind V.kind E) KU.archival VU.archival (W.state writer.old)
        (planned_alone E (map now_of items.now)) root (W.state writer.new)) }
    ensures err { IfErr result (λ fault.
        ChildStopped (layout_of K.kind V.kind E) KU.archival VU.archival (W.state writer.old)
        (planned_alone E (map now_of items.now)) fault (W.state writer.new)) }
    ensures last { OnOk result (0 < length items.now → position (W.state writer.new) ≤ last_end) }
    ensures free { OnOk result (IsFree (layout_of K.kind V.kind E) scratch.new) }
    ensures kept { OnOk result
        ((waiting.new.items ≡ waiting.old.items) × (children.new.items ≡ children.old.items)) }
    ensures room { OnOk result ((vec_capacity waiting.old ≤ vec_capacity waiting.new)
        × (vec_capacity children.old ≤ vec_capacity children.new)) }
{
    let Some(base) = inner_base::<E>(items.len()) else {
        return write_few::<KU, VU, K, V, W, A, E>(alloc, scratch, items, writer);
    };
    let first = waiting.len();
    let first_child = children.len();
    // Above the last level are the root's `E` entries and `base - 1` entries of each of its `E + 1` children. These are one
    // less than `base * (E + 1)` in all. The others are on the last level, which the children fill from the left.
    let mut on_last = items.len() + 1 - base * (E + 1);
    let mut start = 0;
    let mut left = E;
    while left > 0 {
        let taken = taken_by_child::<E>(on_last, base);
        let end = start + (base - 1 + taken);
        let part = &items[start..end];
        child_is_lower::<E>(items.len(), part.len(), base);
        let child = write_child::<KU, VU, K, V, W, A, E>(
            alloc, scratch, waiting, children, part, writer,
        )?;
        wait(waiting, children, child, items[end]);
        start = end + 1;
        on_last -= taken;
        left -= 1;
    }
    let part = &items[start..];
    child_is_lower::<E>(items.len(), part.len(), base);
    let last = write_child::<KU, VU, K, V, W, A, E>(
        alloc, scratch, waiting, children, part, writer,
    )?;
    let root = write_above::<&KU, &VU, KU, VU, K, V, W, A, E>(
        alloc,
        scratch,
        waiting,
        children,
        first,
        first_child,
        last,
        writer,
    )?;
    waiting.truncate(first);
    Ok(Some(root))
}
