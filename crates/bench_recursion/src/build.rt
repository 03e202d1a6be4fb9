//! Building archived maps from a list of all items, by recursion over the sizes of subtrees.
ghost use Rattle.std.specs.Prelude.{◌≡◌, ◌+◌, ◌*◌, ◌<◌, ◌≤◌, length, map, alloc_error, OnOk, OnErr, IfOk, IfErr, IsErrOf, IsTrue};
ghost use Rattle.std.specs.Iterator.{UpTo};
ghost use Rattle.rkyv_btree_archive.specs.mirror.Scratch.{IsFree, IsReserved};
ghost use Rattle.rkyv_btree_format.specs.Layout.{layout_of, are_fitting};
ghost use Rattle.rkyv_btree_writing_laws.specs.Entries.{now_of};
ghost use Rattle.rkyv_btree_writing_laws.specs.Kept.{NeverGrows, OnlyAppended};
ghost use Rattle.rkyv_btree_writing_laws.specs.Miscounts.{IsLimited};
ghost use Rattle.rkyv_btree_writing_laws.specs.Serialising.{Serialised, BuildFault};
ghost use Rattle.rkyv_btree_writing_laws.specs.Written.{ChildWritten, ChildStopped};
ghost use Rattle.rkyv_btree_shape.specs.Logarithm.{ilog};
ghost use Rattle.rkyv_btree_shape.specs.Plan.{planned_alone};
ghost use Rattle.rkyv_btree_writer.specs.Archiving.{BeginsWith};
ghost use Rattle.rkyv_btree_writer.specs.Writing.{position, last_end};
ghost use Rattle.rkyv_btree_writing_laws.specs.Building.{IsBuilt, IsUnbuilt};

use crate::tree::write_child;
use rkyv_btree_archive::archive::{Archive, Serialize};
use rkyv_btree_archive::items::{AnyOrder, Source, last_key, none_left, take_items};
use rkyv_btree_archive::node_writes::{Scratch, reserve_scratch};
use rkyv_btree_portable::check::Portable;
use rkyv_btree_shape::height::entries_to_height;
use rkyv_btree_writer::bounded_writes::LAST_END;
use rkyv_btree_writer::fault::{Fault, IteratorLengthMismatch};
use rkyv_btree_writer::place::Writer;
use std::alloc::{AllocError, Allocator};

/// Returns how many entries wait at most, on all levels together, until their nodes' children are written.
fn waiting<K: Portable, V: Portable, const E: usize>(len: usize) -> usize
    requires fitting { IsTrue (are_fitting K.kind V.kind E) }
    requires some { 0 < len }
    requires small { len ≤ 4294967295 }
    ensures { result ≡ E * ilog (E + 1) len }
{
    E * (entries_to_height::<E>(len as u64) as usize - 1)
}

/// The memory for building: that for one node, and lists of the entries and children that wait for their nodes, and of the
/// items.
#[derive(Drop)]
struct Reserved<'x, KU: Archive, VU: Archive, A: Allocator> {
    scratch: Scratch<KU::Resolver, VU::Resolver, A>,
    waiting: Vec<(&'x KU, &'x VU), A>,
    children: Vec<Option<u32>, A>,
    items: Vec<(&'x KU, &'x VU), A>,
}

/// Reserves all memory for building a tree of `len` items, except what serializing them takes.
fn reserve<'x, KU, VU, K, V, A, const E: usize>(
    alloc: A,
    len: usize,
) -> Result<Reserved<'x, KU, VU, A>, AllocError>
where
    KU: Archive<Archived = K> + 'x,
    VU: Archive<Archived = V> + 'x,
    K: Portable,
    V: Portable,
    A: Allocator + Copy,
    requires fitting { IsTrue (are_fitting K.kind V.kind E) }
    requires some { 0 < len }
    requires small { len ≤ 4294967295 }
    ensures free { IfOk result (λ it. IsFree (layout_of K.kind V.kind E) it.scratch) }
    ensures waiting { IfOk result (λ it. IsReserved it.waiting (E * ilog (E + 1) len)) }
    ensures children { IfOk result (λ it. IsReserved it.children (E * ilog (E + 1) len)) }
    ensures items { IfOk result (λ it. IsReserved it.items len) }
{
    let waiting = waiting::<K, V, E>(len);
    Ok(Reserved {
        scratch: reserve_scratch::<KU, VU, K, V, A, E>(alloc)?,
        waiting: Vec::with_capacity(alloc, waiting)?,
        children: Vec::with_capacity(alloc, waiting)?,
        items: Vec::with_capacity(alloc, len)?,
    })
}

/// Writes the tree of the items that were taken, and returns the position of its root node: `None` if there are no items.
fn write_items<'x, KU, VU, K, V, W, A, const E: usize>(
    alloc: A,
    lists: Reserved<'x, KU, VU, A>,
    writer: &mut W,
) -> Result<Option<u32>, Fault<W::Error>>
where
    KU: Archive<Archived = K> + Serialize<W, A> + 'x,
    VU: Archive<Archived = V> + Serialize<W, A> + 'x,
    K: Portable,
    V: Portable,
    W: Writer,
    A: Allocator + Copy,
    requires fitting { IsTrue (are_fitting K.kind V.kind E) }
    requires count { length lists.items.items ≤ 4294967295 }
    requires free { IsFree (layout_of K.kind V.kind E) lists.scratch }
    requires waiting { IsReserved lists.waiting (E * ilog (E + 1) (length lists.items.items)) }
    requires children { IsReserved lists.children
        (E * ilog (E + 1) (length lists.items.items)) }
    ensures ok { IfOk result (λ root.
        ChildWritten (layout_of K.kind V.kind E) KU.archival VU.archival (W.state writer.old)
        (planned_alone E (map now_of lists.entry.items.items)) root (W.state writer.new)) }
    ensures err { IfErr result (λ fault.
        ChildStopped (layout_of K.kind V.kind E) KU.archival VU.archival (W.state writer.old)
        (planned_alone E (map now_of lists.entry.items.items)) fault (W.state writer.new)) }
    ensures last { OnOk result
        (0 < length lists.entry.items.items → position (W.state writer.new) ≤ last_end) }
{
    let Reserved {
        mut scratch,
        mut waiting,
        mut children,
        items,
    } = lists;
    write_child::<KU, VU, K, V, W, A, E>(
        alloc,
        &mut scratch,
        &mut waiting,
        &mut children,
        &items,
        writer,
    )
}

/// Writes the tree of an iterator's items, and returns the position of its root node. `len` is the declared number of items.
fn build_some<'x, KU, VU, K, V, W, A, I, const E: usize>(
    alloc: A,
    len: usize,
    iter: I,
    writer: &mut W,
) -> Result<u32, Fault<W::Error>>
where
    KU: Archive<Archived = K> + Serialize<W, A> + 'x,
    VU: Archive<Archived = V> + Serialize<W, A> + 'x,
    K: Portable,
    V: Portable,
    W: Writer,
    A: Allocator + Copy,
    I: Iterator<Item = (&'x KU, &'x VU)>,
    requires fitting { IsTrue (are_fitting K.kind V.kind E) }
    requires some { 0 < len }
    requires small { len ≤ 4294967295 }
    requires can { I.can_next iter }
    requires ends { UpTo (I.remaining iter) 18446744073709551615 }
    ensures ok { IfOk result (λ root.
        Serialised K.kind V.kind E KU.archival VU.archival now_of I.next_gives iter len
        (W.state writer.old) root (W.state writer.new)) }
    ensures err { IfErr result (λ fault.
        BuildFault K.kind V.kind E KU.archival VU.archival now_of I.next_gives iter len
        (W.state writer.old) fault (W.state writer.new)) }
    ensures went { OnOk result (OnlyAppended (W.state writer.old) (W.state writer.new)) }
    ensures memory { NeverGrows KU.archival → NeverGrows VU.archival →
        IsErrOf result (Fault.Memory alloc_error) → W.state writer.new ≡ W.state writer.old }
    ensures kept { OnErr result (BeginsWith (W.state writer.new) (W.state writer.old)) }
    ensures end { OnOk result (position (W.state writer.new) ≤ last_end) }
{
    let Ok(mut lists) = reserve::<KU, VU, K, V, A, E>(alloc, len) else {
        return Err(Fault::Memory(AllocError));
    };
    let mut source = Source {
        items: iter,
        look: AnyOrder {},
    };
    if !take_items(
        &mut lists.items,
        len,
        last_key::<&'x KU, &'x VU>(&[], None),
        &mut source,
    ) {
        return Err(Fault::Length(IteratorLengthMismatch {
            expected: len,
            actual: lists.items.len(),
        }));
    }
    let root = write_items::<KU, VU, K, V, W, A, E>(alloc, lists, writer)?;
    if let Err(miscount) = none_left::<&'x KU, &'x VU, I, AnyOrder>(&mut source, None, len) {
        return Err(Fault::Length(miscount));
    }
    Ok(root.unwrap_or(0))
}

/// Serializes the items of an iterator, in their order, as the tree of a map, and returns the position of its root node: 0 if
/// there are no items. `len` is the declared number of items. All items are held in memory.
///
/// It has the contract of `ArchivedBTreeMap::serialize_from_ordered_iter`, and so appends the same bytes.
pub fn serialize_recursively<'x, KU, VU, K, V, W, A, I, const E: usize>(
    alloc: A,
    len: usize,
    iter: I,
    writer: &mut W,
) -> Result<u32, Fault<W::Error>>
where
    KU: Archive<Archived = K> + Serialize<W, A> + 'x,
    VU: Archive<Archived = V> + Serialize<W, A> + 'x,
    K: Portable,
    V: Portable,
    W: Writer,
    A: Allocator + Copy,
    I: Iterator<Item = (&'x KU, &'x VU)>,
    requires fitting { IsTrue (are_fitting K.kind V.kind E) }
    requires can { I.can_next iter }
    requires ends { UpTo (I.remaining iter) 18446744073709551615 }
    ensures ok { IfOk result
        (IsBuilt K.kind V.kind E KU.archival VU.archival now_of I.next_gives iter len
        W.state writer.old writer.new) }
    ensures err { IfErr result
        (IsUnbuilt K.kind V.kind E KU.archival VU.archival now_of I.next_gives iter len
        W.state writer.old writer.new) }
    ensures limits { IsLimited len (W.state writer.old) (W.state writer.new) result }
{
    if len > LAST_END as usize {
        return Err(Fault::LengthOverflow);
    }
    if len == 0 {
        let mut source = Source {
            items: iter,
            look: AnyOrder {},
        };
        if let Err(miscount) = none_left::<&'x KU, &'x VU, I, AnyOrder>(&mut source, None, 0) {
            return Err(Fault::Length(miscount));
        }
        return Ok(0);
    }
    build_some::<KU, VU, K, V, W, A, I, E>(alloc, len, iter, writer)
}
