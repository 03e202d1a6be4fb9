//! Building archived maps.
ghost use Rattle.rkyv_btree_writing_laws.specs.Entries.{both_borrowed};
ghost use Rattle.std.specs.Prelude.{◌≡◌, ℕ, ◌+◌, ◌*◌, ◌^◌, ◌<◌, ◌≤◌, length, None, IfOk, IfErr, IsTrue};
ghost use Rattle.std.specs.Iterator.{UpTo};
ghost use Rattle.rkyv_btree_writing_laws.specs.Archives.{SerialisedIsAccepted, EmptyIsAccepted, WrittenIsHeld};
ghost use Rattle.rkyv_btree_writing_laws.specs.Alike.{TreesAreDetermined};
ghost use Rattle.rkyv_btree_writing_laws.specs.Building.{IsRootFilled};
ghost use Rattle.rkyv_btree_format.specs.Layout.{layout_of, are_fitting};
ghost use Rattle.rkyv_btree_shape.specs.Logarithm.{ilog};
ghost use Rattle.rkyv_btree_archive.specs.mirror.Ended.{IsBuiltTo, IsUnbuiltAt};
ghost use Rattle.rkyv_btree_archive.specs.mirror.Scratch.{IsFree, IsReserved};
ghost use Rattle.rkyv_btree_archive.specs.mirror.Source.{Gives};
ghost use Rattle.rkyv_btree_writing_laws.specs.Miscounts.{IsLimited};

use crate::archive::{Archive, Serialize};
use crate::borrow::Borrow;
use crate::items::{Look, Source, none_left};
use crate::node_writes::reserve_scratch;
use crate::tree::{Lists, Written, write_tree};
use rkyv_btree_portable::check::Portable;
use rkyv_btree_shape::height::entries_to_height;
use rkyv_btree_writer::bounded_writes::LAST_END;
use rkyv_btree_writer::fault::{Fault, ResolveFault};
use rkyv_btree_writer::place::{Writer, write_offset};
use std::alloc::{AllocError, Allocator};
use std::marker::Model;

/// The position of the root node of a serialized map: 0 if the map is empty.
#[derive(Drop)]
pub struct BTreeMapResolver {
    pub(crate) root: u32,
}

impl Model for BTreeMapResolver {
    ghost Value = { ℕ };

    ghost view = { λ r. r.root };
}

/// Reserves all memory for building a tree of `above` levels above its last one, except what serializing the items takes.
fn reserve<BKU, BVU, KU, VU, K, V, A, const E: usize>(
    alloc: A,
    above: usize,
) -> Result<Lists<BKU, BVU, KU, VU, A>, AllocError>
where
    BKU: Borrow<KU> + Drop,
    BVU: Borrow<VU> + Drop,
    KU: Archive<Archived = K>,
    VU: Archive<Archived = V>,
    K: Portable,
    V: Portable,
    A: Allocator + Copy,
    requires fitting { IsTrue (are_fitting K.kind V.kind E) }
    requires few { above < 32 }
    ensures free { IfOk result (λ it. IsFree (layout_of K.kind V.kind E) it.scratch) }
    ensures waiting { IfOk result (λ it. IsReserved it.waiting (E * above)) }
    ensures children { IfOk result (λ it. IsReserved it.children (E * above)) }
    ensures starts { IfOk result (λ it. IsReserved it.starts above) }
    ensures leaf { IfOk result (λ it. IsReserved it.leaf E) }
{
    let waiting = E * above;
    Ok(Lists {
        scratch: reserve_scratch::<KU, VU, K, V, A, E>(alloc)?,
        waiting: Vec::with_capacity(alloc, waiting)?,
        children: Vec::with_capacity(alloc, waiting)?,
        starts: Vec::with_capacity(alloc, above)?,
        leaf: Vec::with_capacity(alloc, E)?,
    })
}

/// Returns how many levels the tree of `len` entries has above its last one, and how many entries the last one has.
fn levels_of<const E: usize>(len: usize) -> (usize, usize)
    requires entries { 1 ≤ E }
    requires small { E < 2 ^ 30 }
    requires some { 0 < len }
    requires fits { len ≤ 4294967295 }
    ensures above { result.0 ≡ ilog (E + 1) len }
    ensures levels { result.0 < 32 }
    ensures last { result.1 + (E + 1) ^ result.0 ≡ len + 1 }
    ensures some { 1 ≤ result.1 }
    ensures most { result.1 ≤ E * (E + 1) ^ result.0 }
{
    let above = entries_to_height::<E>(len as u64) as usize - 1;
    (above, len + 1 - (E + 1).pow(above as u32))
}

/// Writes the tree of an iterator's items, and returns the position of its root node. `len` is the declared number of items, and
/// isn't 0.
fn build_some<BKU, BVU, KU, VU, K, V, W, A, I, L, const E: usize>(
    alloc: A,
    len: usize,
    source: &mut Source<I, L>,
    writer: &mut W,
) -> Result<BTreeMapResolver, Fault<W::Error>>
where
    BKU: Borrow<KU> + Drop,
    BVU: Borrow<VU> + Drop,
    KU: Archive<Archived = K> + Serialize<W, A>,
    VU: Archive<Archived = V> + Serialize<W, A>,
    K: Portable,
    V: Portable,
    W: Writer,
    A: Allocator + Copy,
    I: Iterator<Item = (BKU, BVU)>,
    L: Look<BKU> + Drop,
    requires fitting { IsTrue (are_fitting K.kind V.kind E) }
    requires some { 0 < len }
    requires small { len ≤ 4294967295 }
    requires can { I.can_next source.old.items }
    requires ends { UpTo (I.remaining source.old.items) 18446744073709551615 }
    ensures ok { IfOk result
        (IsBuiltTo K.kind V.kind E KU.archival VU.archival
        (both_borrowed BKU.borrowed BVU.borrowed) (Gives I.next_gives L.passes L.stops)
        (source.old, None) len (W.state writer.old) (source.new, None) (W.state writer.new)) }
    ensures err { IfErr result
        (IsUnbuiltAt K.kind V.kind E KU.archival VU.archival
        (both_borrowed BKU.borrowed BVU.borrowed) (Gives I.next_gives L.passes L.stops)
        (source.old, None) len (W.state writer.old) (source.new, None) (W.state writer.new)) }
{
    let (above, on_last) = levels_of::<E>(len);
    let Ok(lists) = reserve::<BKU, BVU, KU, VU, K, V, A, E>(alloc, above) else {
        return Err(Fault::Memory(AllocError));
    };
    let Written { root, last } = write_tree::<BKU, BVU, KU, VU, K, V, W, A, I, L, E>(
        alloc, above, on_last, len, lists, source, writer,
    )?;
    if let Err(miscount) = none_left::<BKU, BVU, I, L>(source, last, len) {
        return Err(Fault::Length(miscount));
    }
    Ok(BTreeMapResolver {
        root: root.unwrap_or(0),
    })
}

/// Writes the tree of an iterator's items, if there are any, and returns the position of its root node. `len` is the declared
/// number of items.
pub(crate) fn build_from<BKU, BVU, KU, VU, K, V, W, A, I, L, const E: usize>(
    alloc: A,
    len: usize,
    source: &mut Source<I, L>,
    writer: &mut W,
) -> Result<BTreeMapResolver, Fault<W::Error>>
where
    BKU: Borrow<KU> + Drop,
    BVU: Borrow<VU> + Drop,
    KU: Archive<Archived = K> + Serialize<W, A>,
    VU: Archive<Archived = V> + Serialize<W, A>,
    K: Portable,
    V: Portable,
    W: Writer,
    A: Allocator + Copy,
    I: Iterator<Item = (BKU, BVU)>,
    L: Look<BKU> + Drop,
    requires fitting { IsTrue (are_fitting K.kind V.kind E) }
    requires can { I.can_next source.old.items }
    requires ends { UpTo (I.remaining source.old.items) 18446744073709551615 }
    ensures ok { IfOk result
        (IsBuiltTo K.kind V.kind E KU.archival VU.archival
        (both_borrowed BKU.borrowed BVU.borrowed) (Gives I.next_gives L.passes L.stops)
        (source.old, None) len (W.state writer.old) (source.new, None) (W.state writer.new)) }
    ensures err { IfErr result
        (IsUnbuiltAt K.kind V.kind E KU.archival VU.archival
        (both_borrowed BKU.borrowed BVU.borrowed) (Gives I.next_gives L.passes L.stops)
        (source.old, None) len (W.state writer.old) (source.new, None) (W.state writer.new)) }
    ensures limits { IsLimited len (W.state writer.old) (W.state writer.new) result }
{
    if len > LAST_END as usize {
        return Err(Fault::LengthOverflow);
    }
    if len == 0 {
        if let Err(miscount) = none_left::<BKU, BVU, I, L>(source, None, 0) {
            return Err(Fault::Length(miscount));
        }
        return Ok(BTreeMapResolver { root: 0 });
    }
    build_some::<BKU, BVU, KU, VU, K, V, W, A, I, L, E>(alloc, len, source, writer)
}

/// Fills the eight bytes of a map at position `pos`.
pub(crate) fn fill_root(
    pos: u32,
    bytes: &mut [u8],
    len: usize,
    root: u32,
) -> Result<(), ResolveFault>
    requires { length bytes.old ≡ 8 }
    ensures filled { IsRootFilled pos root len bytes.old bytes.new result }
{
    let Ok(count) = u32::try_from(len) else {
        return Err(ResolveFault::LengthOverflow);
    };
    let mut pointer = [1, 0, 0, 0];
    if len != 0 {
        if write_offset(pos, root, &mut pointer).is_err() {
            return Err(ResolveFault::OffsetOverflow);
        }
    }
    let (front, back) = bytes.split_at_mut(4);
    front.copy_from_slice(&pointer);
    back.copy_from_slice(&count.to_le_bytes());
    Ok(())
}

/// States that a map is accepted, and means the list of the items, in a buffer that holds what was serialized and then the map
/// as `resolve_from_len` or `write_root` writes it. `smallest` of the calls that serialize says that no accepted map of as many
/// entries is smaller.
pub fn archives_are_accepted<K: Portable, V: Portable, const E: usize>()
    ensures entries { SerialisedIsAccepted K.kind V.kind E }
    ensures none { EmptyIsAccepted K.kind V.kind E }
{}

/// States that a writer from position 0 on holds such an archive, if a tree was appended and then the map by `write_root`. So
/// what `smallest` says of the calls that serialize holds of its contents.
pub fn written_maps_are_held()
    ensures { WrittenIsHeld }
{}

/// States that two builds, from one position, of lists that mean the same append the same bytes and have one root, whatever the
/// writers. The condition is that what keys and values mean determines, with positions, how they are archived.
pub fn trees_are_determined<KU: Archive, VU: Archive, const E: usize>()
    ensures { TreesAreDetermined KU.Archived.kind VU.Archived.kind E KU.archival VU.archival }
{}
