//! Building archived sets. A set is the map of its keys in which each value is `()`, so its calls are the map's.
ghost use Rattle.rkyv_btree_archive.specs.ListArchives.{IsArchivedSet, IsUnarchivedSet};
ghost use Rattle.rkyv_btree_archive.specs.TryBuilding.{OkSteps, key_result, IsTryLimited, IsUntriedSet};
ghost use Rattle.rkyv_btree_format.specs.Layout.{are_fitting};
ghost use Rattle.rkyv_btree_portable.specs.Scalars.{unit_kind};
ghost use Rattle.rkyv_btree_writing_laws.specs.Building.{IsBuiltSet, IsSetUnwritten, IsSetWritten, IsUnbuiltSet, IsUnbuiltSetInOrder, IsRootFilled, IsRootWritten, IsRootUnwritten};
ghost use Rattle.rkyv_btree_writing_laws.specs.Miscounts.{IsLimited};
ghost use Rattle.rkyv_btree_writing_laws.specs.StrictBuilding.{BuildsSetInOrder};
ghost use Rattle.std.specs.Iterator.{UpTo, size};
ghost use Rattle.std.specs.Prelude.{◌≡◌, length, IfOk, IfErr, IsTrue};

use crate::archive::{Archive, Serialize};
use crate::borrow::Borrow;
use crate::build::BTreeMapResolver;
use crate::build_map::BuildMap;
use crate::try_build::TryFault;
use rkyv_btree_portable::check::Portable;
use rkyv_btree_types::map::ArchivedBTreeMap;
use rkyv_btree_types::set::ArchivedBTreeSet;
use rkyv_btree_writer::fault::{Fault, ResolveFault};
use rkyv_btree_writer::place::{Place, VecWriter, Writer};
use std::alloc::{AllocError, Allocator, Global};
use std::marker::PhantomData;

/// The position of the root node of a serialized set: 0 if the set is empty.
pub type BTreeSetResolver = BTreeMapResolver;

/// Archived sets that are built of the keys that an iterator gives.
pub trait BuildSet<K: Portable, const E: usize> {
    /// Serializes the items of an iterator, in their order, as the tree of a set, and returns the position of its root node.
    /// `len` is the declared number of items.
    ///
    /// # Errors
    ///
    /// Those of `serialize_from_ordered_iter` of a map, and the writer's contents are as after these.
    fn serialize_from_ordered_iter<BKU, KU, W, A, I>(
        alloc: A,
        len: usize,
        iter: I,
        writer: &mut W,
    ) -> Result<BTreeSetResolver, Fault<W::Error>>
    where
        BKU: Borrow<KU> + Drop,
        KU: Archive<Archived = K> + Serialize<W, A>,
        W: Writer,
        A: Allocator + Copy,
        I: Iterator<Item = BKU>,
        requires fitting { IsTrue (are_fitting K.kind unit_kind E) }
        requires can { I.can_next iter }
        requires ends { UpTo (I.remaining iter) 18446744073709551615 }
        ensures ok { IfOk result
            (IsBuiltSet K.kind E KU.archival BKU.borrowed I.next_gives iter len W.state writer.old
            writer.new) }
        ensures err { IfErr result
            (IsUnbuiltSet K.kind E KU.archival BKU.borrowed I.next_gives iter len W.state writer.old
            writer.new) }
        ensures limits { IsLimited len (W.state writer.old) (W.state writer.new) result };

    /// Serializes the items of an iterator, in their order, as the tree of a set, and returns the position of its root node. The
    /// declared number of items is the iterator's own `len`.
    ///
    /// # Errors
    ///
    /// Those of `serialize_from_ordered_iter`, and the writer's contents are as after these.
    fn serialize_from_exact_iter<BKU, KU, W, A, I>(
        alloc: A,
        iter: I,
        writer: &mut W,
    ) -> Result<BTreeSetResolver, Fault<W::Error>>
    where
        BKU: Borrow<KU> + Drop,
        KU: Archive<Archived = K> + Serialize<W, A>,
        W: Writer,
        A: Allocator + Copy,
        I: ExactSizeIterator<Item = BKU>,
        requires fitting { IsTrue (are_fitting K.kind unit_kind E) }
        requires can { I.can_next iter }
        ensures ok { IfOk result
            (IsBuiltSet K.kind E KU.archival BKU.borrowed I.next_gives iter
            (size (I.remaining iter)) W.state writer.old writer.new) }
        ensures err { IfErr result
            (IsUnbuiltSet K.kind E KU.archival BKU.borrowed I.next_gives iter
            (size (I.remaining iter)) W.state writer.old writer.new) };

    /// Serializes the items of an iterator, which must increase, as the tree of a set, and returns the position of its root node.
    /// `len` is the declared number of items. It is the map's call with a `()` for each key.
    ///
    /// # Errors
    ///
    /// Those of `serialize_from_ordered_iter`, and `Fault::OutOfOrder` with the index of the first item that isn't greater than the
    /// item before it.
    fn serialize_strict_from_ordered_iter<BKU, KU, W, A, I>(
        alloc: A,
        len: usize,
        iter: I,
        writer: &mut W,
    ) -> Result<BTreeSetResolver, Fault<W::Error>>
    where
        BKU: Borrow<KU> + Drop,
        KU: Archive<Archived = K> + Serialize<W, A> + Ord,
        W: Writer,
        A: Allocator + Copy,
        I: Iterator<Item = BKU>,
        requires fitting { IsTrue (are_fitting K.kind unit_kind E) }
        requires can { I.can_next iter }
        requires ends { UpTo (I.remaining iter) 18446744073709551615 }
        ensures ok { IfOk result
            (IsBuiltSet K.kind E KU.archival BKU.borrowed I.next_gives iter len W.state writer.old
            writer.new) }
        // The keys increase.
        ensures in_order { IfOk result
            (BuildsSetInOrder KU.cmp K.kind E KU.archival BKU.borrowed I.next_gives iter len
            W.state writer.old writer.new) }
        ensures err { IfErr result
            (IsUnbuiltSetInOrder KU.cmp K.kind E KU.archival BKU.borrowed I.next_gives iter len
            W.state writer.old writer.new) }
        ensures limits { IsLimited len (W.state writer.old) (W.state writer.new) result };

    /// Serializes the items of an iterator that can fail, in their order, as the tree of a set, and returns the position of its
    /// root node. `len` is the declared number of items. It is the map's call with a `()` for each key.
    ///
    /// # Errors
    ///
    /// Those of `try_serialize_from_ordered_iter` of a map, and the writer's contents are as after these.
    fn try_serialize_from_ordered_iter<BKU, KU, W, A, I, X>(
        alloc: A,
        len: usize,
        iter: I,
        writer: &mut W,
    ) -> Result<BTreeSetResolver, TryFault<W::Error, X>>
    where
        BKU: Borrow<KU> + Drop,
        KU: Archive<Archived = K> + Serialize<W, A>,
        W: Writer,
        A: Allocator + Copy,
        X: Drop,
        I: Iterator<Item = Result<BKU, X>>,
        requires fitting { IsTrue (are_fitting K.kind unit_kind E) }
        requires can { I.can_next iter }
        requires ends { UpTo (I.remaining iter) 18446744073709551615 }
        // The iterator gave no error.
        ensures ok { IfOk result
            (IsBuiltSet K.kind E KU.archival BKU.borrowed (OkSteps I.next_gives) iter len W.state
            writer.old writer.new) }
        ensures err { IfErr result
            (IsUntriedSet K.kind E KU.archival BKU.borrowed I.next_gives iter len W.state writer.old
            writer.new) }
        ensures limits { IsTryLimited len (W.state writer.old) (W.state writer.new) result };

    /// Writes the set of a root node that was serialized for `len` keys.
    ///
    /// # Errors
    ///
    /// `LengthOverflow` if `len` is past 32 bits, and `OffsetOverflow` if the distance to the root is no offset. The place is unchanged
    /// then.
    fn resolve_from_len(
        len: usize,
        resolver: BTreeSetResolver,
        out: Place<'_, ArchivedBTreeSet<K, E>>,
    ) -> Result<(), ResolveFault>
        requires { length out.bytes.now ≡ 8 }
        ensures filled { IsRootFilled out.entry.pos resolver len out.entry.bytes.now out.exit.1.0.now result };

    /// Writes zeros up to a multiple of 4 and then the set, and returns the set's position.
    ///
    /// # Errors
    ///
    /// `Writer` with the writer's own error, `PositionOverflow`, and those of `resolve_from_len`. What was written remains.
    fn write_root<W: Writer>(
        len: usize,
        resolver: BTreeSetResolver,
        writer: &mut W,
    ) -> Result<u32, Fault<W::Error>>
        ensures ok { IfOk result
            (IsRootWritten len resolver (W.state writer.old) (W.state writer.new)) }
        ensures err { IfErr result
            (IsRootUnwritten len resolver (W.state writer.old) (W.state writer.new)) };

    /// Serializes the items of an iterator, in their order, as the tree of a set, and then the set, and returns the set's position.
    /// The declared number of items is the iterator's own `len`.
    ///
    /// # Errors
    ///
    /// Those of `serialize_from_exact_iter`, and those of `write_root` after it. The writer's contents begin with the old ones.
    fn write_set<BKU, KU, W, A, I>(
        alloc: A,
        iter: I,
        writer: &mut W,
    ) -> Result<u32, Fault<W::Error>>
    where
        BKU: Borrow<KU> + Drop,
        KU: Archive<Archived = K> + Serialize<W, A>,
        W: Writer,
        A: Allocator + Copy,
        I: ExactSizeIterator<Item = BKU>,
        requires fitting { IsTrue (are_fitting K.kind unit_kind E) }
        requires can { I.can_next iter }
        ensures ok { IfOk result
            (IsSetWritten K.kind E KU.archival BKU.borrowed I.next_gives iter
            (size (I.remaining iter)) W.state writer.old writer.new) }
        ensures err { IfErr result
            (IsSetUnwritten K.kind E KU.archival BKU.borrowed I.next_gives iter
            (size (I.remaining iter)) W.state writer.old writer.new) };

    /// Returns the archive of the items of an iterator, in their order: their tree from position 0 on, and the set as the last eight
    /// bytes. The declared number of items is the iterator's own `len`. So a list that is in no std set needs no writer.
    ///
    /// # Errors
    ///
    /// Those of `write_set`.
    fn to_archive_of<BKU, KU, I>(alloc: Global, iter: I) -> Result<Vec<u8>, Fault<AllocError>>
    where
        BKU: Borrow<KU> + Drop,
        KU: Archive<Archived = K> + Serialize<VecWriter, Global>,
        I: ExactSizeIterator<Item = BKU>,
        requires fitting { IsTrue (are_fitting K.kind unit_kind E) }
        requires can { I.can_next iter }
        ensures ok { IfOk result (λ bytes.
            IsArchivedSet K.kind E KU.archival BKU.borrowed I.next_gives iter bytes.items) }
        ensures err { IfErr result
            (IsUnarchivedSet K.kind E KU.archival BKU.borrowed I.next_gives iter
            (size (I.remaining iter))) };
}

/// The entry of a key: the key with a `()`.
fn with_unit<B>(key: B) -> (B, ())
    ensures { result.0 ≡ key }
{
    (key, ())
}

/// Returns the entry of a key, if there is one: the key with a `()`.
fn result_with_unit<B: Drop, X: Drop>(item: Result<B, X>) -> Result<(B, ()), X>
    ensures { key_result result ≡ item }
{
    match item {
        Ok(key) => Ok((key, ())),
        Err(error) => Err(error),
    }
}

impl<K: Portable, const E: usize> BuildSet<K, E> for ArchivedBTreeSet<K, E> {
    fn serialize_from_ordered_iter<BKU, KU, W, A, I>(
        alloc: A,
        len: usize,
        iter: I,
        writer: &mut W,
    ) -> Result<BTreeSetResolver, Fault<W::Error>>
    where
        BKU: Borrow<KU> + Drop,
        KU: Archive<Archived = K> + Serialize<W, A>,
        W: Writer,
        A: Allocator + Copy,
        I: Iterator<Item = BKU>,
    {
        ArchivedBTreeMap::<K, (), E>::serialize_from_ordered_iter::<BKU, (), KU, (), W, A, _>(
            alloc,
            len,
            iter.map(|key| with_unit(key)),
            writer,
        )
    }

    fn serialize_from_exact_iter<BKU, KU, W, A, I>(
        alloc: A,
        iter: I,
        writer: &mut W,
    ) -> Result<BTreeSetResolver, Fault<W::Error>>
    where
        BKU: Borrow<KU> + Drop,
        KU: Archive<Archived = K> + Serialize<W, A>,
        W: Writer,
        A: Allocator + Copy,
        I: ExactSizeIterator<Item = BKU>,
    {
        let len = iter.len();
        ArchivedBTreeSet::<K, E>::serialize_from_ordered_iter::<BKU, KU, W, A, I>(
            alloc, len, iter, writer,
        )
    }

    fn serialize_strict_from_ordered_iter<BKU, KU, W, A, I>(
        alloc: A,
        len: usize,
        iter: I,
        writer: &mut W,
    ) -> Result<BTreeSetResolver, Fault<W::Error>>
    where
        BKU: Borrow<KU> + Drop,
        KU: Archive<Archived = K> + Serialize<W, A> + Ord,
        W: Writer,
        A: Allocator + Copy,
        I: Iterator<Item = BKU>,
    {
        ArchivedBTreeMap::<K, (), E>::serialize_strict_from_ordered_iter::<
            BKU,
            (),
            KU,
            (),
            W,
            A,
            _,
        >(alloc, len, iter.map(|key| with_unit(key)), writer)
    }

    fn try_serialize_from_ordered_iter<BKU, KU, W, A, I, X>(
        alloc: A,
        len: usize,
        iter: I,
        writer: &mut W,
    ) -> Result<BTreeSetResolver, TryFault<W::Error, X>>
    where
        BKU: Borrow<KU> + Drop,
        KU: Archive<Archived = K> + Serialize<W, A>,
        W: Writer,
        A: Allocator + Copy,
        X: Drop,
        I: Iterator<Item = Result<BKU, X>>,
    {
        ArchivedBTreeMap::<K, (), E>::try_serialize_from_ordered_iter::<
            BKU,
            (),
            KU,
            (),
            W,
            A,
            _,
            X,
        >(alloc, len, iter.map(|item| result_with_unit(item)), writer)
    }

    fn resolve_from_len(
        len: usize,
        resolver: BTreeSetResolver,
        out: Place<'_, ArchivedBTreeSet<K, E>>,
    ) -> Result<(), ResolveFault>
        requires { length out.bytes.now ≡ 8 }
        ensures filled { IsRootFilled out.entry.pos resolver len out.entry.bytes.now out.exit.1.0.now result }
    {
        let Place { pos, bytes, of: _ } = out;
        let map = Place {
            pos,
            bytes,
            of: PhantomData,
        };
        ArchivedBTreeMap::<K, (), E>::resolve_from_len(len, resolver, map)
    }

    fn write_root<W: Writer>(
        len: usize,
        resolver: BTreeSetResolver,
        writer: &mut W,
    ) -> Result<u32, Fault<W::Error>> {
        ArchivedBTreeMap::<K, (), E>::write_root(len, resolver, writer)
    }

    fn write_set<BKU, KU, W, A, I>(
        alloc: A,
        iter: I,
        writer: &mut W,
    ) -> Result<u32, Fault<W::Error>>
    where
        BKU: Borrow<KU> + Drop,
        KU: Archive<Archived = K> + Serialize<W, A>,
        W: Writer,
        A: Allocator + Copy,
        I: ExactSizeIterator<Item = BKU>,
    {
        let len = iter.len();
        let tree = ArchivedBTreeSet::<K, E>::serialize_from_exact_iter::<BKU, KU, W, A, I>(
            alloc, iter, writer,
        )?;
        ArchivedBTreeSet::<K, E>::write_root(len, tree, writer)
    }

    fn to_archive_of<BKU, KU, I>(alloc: Global, iter: I) -> Result<Vec<u8>, Fault<AllocError>>
    where
        BKU: Borrow<KU> + Drop,
        KU: Archive<Archived = K> + Serialize<VecWriter, Global>,
        I: ExactSizeIterator<Item = BKU>,
    {
        let mut writer = VecWriter::new(alloc);
        ArchivedBTreeSet::<K, E>::write_set::<BKU, KU, VecWriter, Global, I>(
            alloc,
            iter,
            &mut writer,
        )?;
        Ok(writer.into_vec())
    }
}
