//! The writes of whole nodes.
ghost use Rattle.std.specs.Prelude.{ℕ, List, ◌≡◌, ◌+◌, ◌<◌, ◌≤◌, [], ◌∷◌, ◌++◌, length, map, vec_capacity, OnOk, IfOk, IfErr, IsTrue};
ghost use Rattle.rkyv_btree_writing_laws.specs.Image.{leaf_image, inner_image};
ghost use Rattle.rkyv_btree_portable.specs.InPlace.{OwnBytes};
ghost use Rattle.rkyv_btree_format.specs.Layout.{layout_of, are_fitting, leaf_size, inner_size};
ghost use Rattle.rkyv_btree_archive.specs.mirror.Scratch.{IsFree};
ghost use Rattle.rkyv_btree_writer.specs.Writing.{Write, position, last_end};
ghost use Rattle.rkyv_btree_writing_laws.specs.Entries.{as_fault, both_borrowed};
ghost use Rattle.rkyv_btree_writing_laws.specs.Written.{IsPadded, NodeWritten, NodeStopped};

use crate::archive::{Archive, Serialize};
use crate::borrow::Borrow;
use crate::entries::serialize_entries;
use crate::node_bytes::{put_inner, put_leaf};
use rkyv_btree_format::layout;
use rkyv_btree_portable::check::Portable;
use rkyv_btree_writer::bounded_writes::{LAST_END, pad, put};
use rkyv_btree_writer::fault::{Fault, ResolveFault};
use rkyv_btree_writer::place::Writer;
use std::alloc::{AllocError, Allocator};

/// The memory for writing a node: the bytes of the largest node, and lists of the resolvers of its keys and values.
#[derive(Drop)]
pub struct Scratch<R, S, A: Allocator> {
    pub node: Vec<u8, A>,
    pub keys: Vec<R, A>,
    pub values: Vec<S, A>,
}

/// Reserves the memory for writing a node.
///
/// # Errors
///
/// `Memory` if the allocation fails.
pub fn reserve_scratch<KU, VU, K, V, A, const E: usize>(
    alloc: A,
) -> Result<Scratch<KU::Resolver, VU::Resolver, A>, AllocError>
where
    KU: Archive<Archived = K>,
    VU: Archive<Archived = V>,
    K: Portable,
    V: Portable,
    A: Allocator + Copy,
    requires { IsTrue (are_fitting K.kind V.kind E) }
    ensures { IfOk result (IsFree (layout_of K.kind V.kind E)) }
{
    Ok(Scratch {
        node: vec![in alloc; 0; layout::inner_size::<K, V, E>() as usize]?,
        keys: Vec::with_capacity(alloc, E)?,
        values: Vec::with_capacity(alloc, E)?,
    })
}

/// Returns an error of resolving as an error of serialization.
pub fn fault_of<E>(fault: ResolveFault) -> Fault<E>
    ensures { result ≡ as_fault fault }
{
    match fault {
        ResolveFault::LengthOverflow => Fault::LengthOverflow,
        ResolveFault::OffsetOverflow => Fault::OffsetOverflow,
    }
}

/// Serializes the entries of a node of `size` bytes, writes the padding before the node, and returns the node's position. The
/// node ends at a position that fits in 32 bits.
#[inline(always)]
fn begin_node<BKU, BVU, KU, VU, K, V, W, A, const E: usize>(
    alloc: A,
    size: u32,
    entries: &[(BKU, BVU)],
    keys: &mut Vec<KU::Resolver, A>,
    values: &mut Vec<VU::Resolver, A>,
    writer: &mut W,
) -> Result<u32, Fault<W::Error>>
where
    BKU: Borrow<KU> + Drop,
    BVU: Borrow<VU> + Drop,
    KU: Archive<Archived = K> + Serialize<W, A>,
    VU: Archive<Archived = V> + Serialize<W, A>,
    K: Portable,
    V: Portable,
    W: Writer,
    A: Allocator + Copy,
    requires fitting { IsTrue (are_fitting K.kind V.kind E) }
    requires no_keys { keys.old.items ≡ [] }
    requires no_values { values.old.items ≡ [] }
    requires key_room { length entries.now ≤ vec_capacity keys.old }
    requires value_room { length entries.now ≤ vec_capacity values.old }
    ensures ok { OnOk result
        (IsPadded (layout_of K.kind V.kind E) KU.archival VU.archival (W.state writer.old)
        (map (both_borrowed BKU.borrowed BVU.borrowed) entries.now) keys.new.items
        values.new.items (W.state writer.new)) }
    ensures place { IfOk result (λ root. root ≡ position (W.state writer.new)) }
    ensures end { IfOk result (λ root. root + size ≤ last_end) }
    ensures err { IfErr result (λ fault.
        (image : ℕ → List OwnBytes → List Write) →
        NodeStopped (layout_of K.kind V.kind E) KU.archival VU.archival image size
        (W.state writer.old) (map (both_borrowed BKU.borrowed BVU.borrowed) entries.now) fault
        (W.state writer.new)) }
    ensures keys { OnOk result (length keys.new.items ≡ length entries.now) }
    ensures values { OnOk result (length values.new.items ≡ length entries.now) }
    ensures key_room { vec_capacity keys.old ≤ vec_capacity keys.new }
    ensures value_room { vec_capacity values.old ≤ vec_capacity values.new }
{
    serialize_entries(alloc, entries, keys, values, writer)?;
    let pos = pad(writer, layout::align::<K, V, E>())?;
    if pos > LAST_END || u64::from(size) > LAST_END - pos {
        return Err(Fault::PositionOverflow);
    }
    Ok(pos as u32)
}

/// Serializes the entries of a leaf, writes the leaf after them, and returns its position.
///
/// # Errors
///
/// Those of serializing an entry and of a write, `PositionOverflow` if the leaf ends past 32 bits, and `Memory`.
#[inline(always)]
pub fn write_leaf<BKU, BVU, KU, VU, K, V, W, A, const E: usize>(
    alloc: A,
    scratch: &mut Scratch<KU::Resolver, VU::Resolver, A>,
    entries: &[(BKU, BVU)],
    writer: &mut W,
) -> Result<u32, Fault<W::Error>>
where
    BKU: Borrow<KU> + Drop,
    BVU: Borrow<VU> + Drop,
    KU: Archive<Archived = K> + Serialize<W, A>,
    VU: Archive<Archived = V> + Serialize<W, A>,
    K: Portable,
    V: Portable,
    W: Writer,
    A: Allocator + Copy,
    requires fitting { IsTrue (are_fitting K.kind V.kind E) }
    requires count { length entries.now ≤ E }
    requires free { IsFree (layout_of K.kind V.kind E) scratch.old }
    ensures ok { IfOk result (λ root.
        NodeWritten (layout_of K.kind V.kind E) KU.archival VU.archival
        (leaf_image (layout_of K.kind V.kind E)) (leaf_size (layout_of K.kind V.kind E))
        (W.state writer.old) (map (both_borrowed BKU.borrowed BVU.borrowed) entries.now) root
        (W.state writer.new)) }
    ensures last { OnOk result (position (W.state writer.new) ≤ last_end) }
    ensures err { IfErr result (λ fault.
        NodeStopped (layout_of K.kind V.kind E) KU.archival VU.archival
        (leaf_image (layout_of K.kind V.kind E)) (leaf_size (layout_of K.kind V.kind E))
        (W.state writer.old) (map (both_borrowed BKU.borrowed BVU.borrowed) entries.now) fault
        (W.state writer.new)) }
    ensures free { OnOk result (IsFree (layout_of K.kind V.kind E) scratch.new) }
{
    let size = layout::leaf_size::<K, V, E>();
    let root = begin_node::<BKU, BVU, KU, VU, K, V, W, A, E>(
        alloc,
        size,
        entries,
        &mut scratch.keys,
        &mut scratch.values,
        writer,
    )?;
    match put_leaf::<BKU, BVU, KU, VU, K, V, A, E>(
        alloc,
        &mut scratch.node,
        root,
        entries,
        &mut scratch.keys,
        &mut scratch.values,
    ) {
        Ok(()) => {}
        Err(fault) => return Err(fault_of(fault)),
    }
    let bytes = &scratch.node.as_slice()[..size as usize];
    put(writer, bytes)?;
    Ok(root)
}

/// Serializes the entries of an inner node, writes the node with pointers to its children after them, and returns its position.
///
/// # Errors
///
/// Those of `write_leaf`, and `OffsetOverflow` if the distance to a child is no offset.
pub fn write_inner<BKU, BVU, KU, VU, K, V, W, A, const E: usize>(
    alloc: A,
    scratch: &mut Scratch<KU::Resolver, VU::Resolver, A>,
    entries: &[(BKU, BVU)],
    children: &[Option<u32>],
    last: Option<u32>,
    writer: &mut W,
) -> Result<u32, Fault<W::Error>>
where
    BKU: Borrow<KU> + Drop,
    BVU: Borrow<VU> + Drop,
    KU: Archive<Archived = K> + Serialize<W, A>,
    VU: Archive<Archived = V> + Serialize<W, A>,
    K: Portable,
    V: Portable,
    W: Writer,
    A: Allocator + Copy,
    requires fitting { IsTrue (are_fitting K.kind V.kind E) }
    requires entries { length entries.now ≡ E }
    requires children { length children.now ≡ E }
    requires free { IsFree (layout_of K.kind V.kind E) scratch.old }
    ensures ok { IfOk result (λ root.
        NodeWritten (layout_of K.kind V.kind E) KU.archival VU.archival
        (λ at owns.
        inner_image (layout_of K.kind V.kind E) at owns (children.now ++ last ∷ []))
        (inner_size (layout_of K.kind V.kind E)) (W.state writer.old)
        (map (both_borrowed BKU.borrowed BVU.borrowed) entries.now) root (W.state writer.new)) }
    ensures last { OnOk result (position (W.state writer.new) ≤ last_end) }
    ensures err { IfErr result (λ fault.
        NodeStopped (layout_of K.kind V.kind E) KU.archival VU.archival
        (λ at owns.
        inner_image (layout_of K.kind V.kind E) at owns (children.now ++ last ∷ []))
        (inner_size (layout_of K.kind V.kind E)) (W.state writer.old)
        (map (both_borrowed BKU.borrowed BVU.borrowed) entries.now) fault (W.state writer.new)) }
    ensures free { OnOk result (IsFree (layout_of K.kind V.kind E) scratch.new) }
{
    let size = layout::inner_size::<K, V, E>();
    let root = begin_node::<BKU, BVU, KU, VU, K, V, W, A, E>(
        alloc,
        size,
        entries,
        &mut scratch.keys,
        &mut scratch.values,
        writer,
    )?;
    match put_inner::<BKU, BVU, KU, VU, K, V, A, E>(
        alloc,
        &mut scratch.node,
        root,
        entries,
        &mut scratch.keys,
        &mut scratch.values,
        children,
        last,
    ) {
        Ok(()) => {}
        Err(fault) => return Err(fault_of(fault)),
    }
    let bytes = &scratch.node.as_slice()[..size as usize];
    put(writer, bytes)?;
    Ok(root)
}
