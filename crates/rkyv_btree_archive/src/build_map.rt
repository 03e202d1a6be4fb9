//! Building archived maps: serializing their trees, and writing their own eight bytes.
ghost use Rattle.rkyv_btree_archive.specs.ListArchives.{IsArchivedMap, IsUnarchivedMap};
ghost use Rattle.rkyv_btree_archive.specs.TryBuilding.{OkSteps, IsTryLimited, IsUntried};
ghost use Rattle.rkyv_btree_format.specs.Layout.{are_fitting};
ghost use Rattle.rkyv_btree_writing_laws.specs.Building.{IsBuilt, IsMapUnwritten, IsMapWritten, IsUnbuilt, IsUnbuiltInOrder, IsRootFilled, IsRootWritten, IsRootUnwritten};
ghost use Rattle.rkyv_btree_writing_laws.specs.Entries.{both_borrowed};
ghost use Rattle.rkyv_btree_writing_laws.specs.Miscounts.{IsLimited};
ghost use Rattle.rkyv_btree_writing_laws.specs.StrictBuilding.{BuildsInOrder};
ghost use Rattle.std.specs.Iterator.{UpTo, size};
ghost use Rattle.std.specs.Prelude.{◌≡◌, length, IfOk, IfErr, IsTrue};

use crate::archive::{Archive, Serialize};
use crate::borrow::Borrow;
use crate::build::{BTreeMapResolver, build_from, fill_root};
use crate::items::{AnyOrder, Source};
use crate::strict_build::{InOrder, out_of_order};
use crate::try_build::{TryFault, UntilError, tried};
use rkyv_btree_portable::check::Portable;
use rkyv_btree_types::map::ArchivedBTreeMap;
use rkyv_btree_writer::bounded_writes::{LAST_END, pad, put};
use rkyv_btree_writer::fault::{Fault, ResolveFault};
use rkyv_btree_writer::place::{Place, VecWriter, Writer};
use std::alloc::{AllocError, Allocator, Global};
use std::marker::PhantomData;

/// Archived maps that are built of the entries that an iterator gives.
pub trait BuildMap<K: Portable, V: Portable, const E: usize> {
    /// Serializes the items of an iterator, in their order, as the tree of a map, and returns the position of its root node.
    /// `len` is the declared number of items. The entries of a node are serialized before the node is written, each key before
    /// its value. All memory is reserved before the first byte is written. `next` isn't called again after it has returned `None`.
    /// Items lend their keys and values, so owned ones do as well as references. Only those of the open nodes and of one leaf are kept.
    ///
    /// # Errors
    ///
    /// - `LengthOverflow` if `len` is past 32 bits. No item is taken then.
    /// - `Memory` if an allocation fails. The writer's contents are unchanged, unless the memory was for serializing a key or value.
    /// - `Length` if there are fewer or more items than `len`. With too many items it has the count of all of them.
    /// - `PositionOverflow` or `OffsetOverflow` if a position or the distance of a pointer doesn't fit.
    /// - `Writer` with the writer's own error, and `Entry` with that of a key or value.
    ///
    /// After an error the writer's contents begin with the old ones.
    ///
    /// # Examples
    ///
    /// ```rust
    /// Numbers::serialize_from_ordered_iter(alloc, entries.len(), items, writer)
    /// ```
    fn serialize_from_ordered_iter<BKU, BVU, KU, VU, W, A, I>(
        alloc: A,
        len: usize,
        iter: I,
        writer: &mut W,
    ) -> Result<BTreeMapResolver, Fault<W::Error>>
    where
        BKU: Borrow<KU> + Drop,
        BVU: Borrow<VU> + Drop,
        KU: Archive<Archived = K> + Serialize<W, A>,
        VU: Archive<Archived = V> + Serialize<W, A>,
        W: Writer,
        A: Allocator + Copy,
        I: Iterator<Item = (BKU, BVU)>,
        requires fitting { IsTrue (are_fitting K.kind V.kind E) }
        requires can { I.can_next iter }
        requires ends { UpTo (I.remaining iter) 18446744073709551615 }
        ensures ok { IfOk result
            (IsBuilt K.kind V.kind E KU.archival VU.archival
            (both_borrowed BKU.borrowed BVU.borrowed) I.next_gives iter len W.state writer.old
            writer.new) }
        ensures err { IfErr result
            (IsUnbuilt K.kind V.kind E KU.archival VU.archival
            (both_borrowed BKU.borrowed BVU.borrowed) I.next_gives iter len W.state writer.old
            writer.new) }
        ensures limits { IsLimited len (W.state writer.old) (W.state writer.new) result };

    /// Serializes the items of an iterator, in their order, as the tree of a map, and returns the position of its root node. The
    /// declared number of items is the iterator's own `len`.
    ///
    /// # Errors
    ///
    /// Those of `serialize_from_ordered_iter`, and the writer's contents are as after these.
    ///
    /// # Examples
    ///
    /// ```rust
    /// let mut writer = VecWriter::new(alloc);
    /// let tree = Prices::serialize_from_exact_iter(alloc, items, &mut writer)?;
    /// let root = Prices::write_root(prices.len(), tree, &mut writer)?;
    /// Ok((writer.into_vec(), root))
    /// ```
    fn serialize_from_exact_iter<BKU, BVU, KU, VU, W, A, I>(
        alloc: A,
        iter: I,
        writer: &mut W,
    ) -> Result<BTreeMapResolver, Fault<W::Error>>
    where
        BKU: Borrow<KU> + Drop,
        BVU: Borrow<VU> + Drop,
        KU: Archive<Archived = K> + Serialize<W, A>,
        VU: Archive<Archived = V> + Serialize<W, A>,
        W: Writer,
        A: Allocator + Copy,
        I: ExactSizeIterator<Item = (BKU, BVU)>,
        requires fitting { IsTrue (are_fitting K.kind V.kind E) }
        requires can { I.can_next iter }
        ensures ok { IfOk result
            (IsBuilt K.kind V.kind E KU.archival VU.archival
            (both_borrowed BKU.borrowed BVU.borrowed) I.next_gives iter
            (size (I.remaining iter)) W.state writer.old writer.new) }
        ensures err { IfErr result
            (IsUnbuilt K.kind V.kind E KU.archival VU.archival
            (both_borrowed BKU.borrowed BVU.borrowed) I.next_gives iter
            (size (I.remaining iter)) W.state writer.old writer.new) };

    /// Serializes the items of an iterator, whose keys must increase, as the tree of a map, and returns the position of its root
    /// node. It does what `serialize_from_ordered_iter` does. It compares each key with the key before it, by `Ord`, when it takes
    /// the item. It counts the items past the declared length, and doesn't compare them.
    ///
    /// # Errors
    ///
    /// Those of `serialize_from_ordered_iter`, and `Fault::OutOfOrder` with the index of the first item whose key isn't greater
    /// than the key before it. After an error the writer's contents begin with the old ones.
    fn serialize_strict_from_ordered_iter<BKU, BVU, KU, VU, W, A, I>(
        alloc: A,
        len: usize,
        iter: I,
        writer: &mut W,
    ) -> Result<BTreeMapResolver, Fault<W::Error>>
    where
        BKU: Borrow<KU> + Drop,
        BVU: Borrow<VU> + Drop,
        KU: Archive<Archived = K> + Serialize<W, A> + Ord,
        VU: Archive<Archived = V> + Serialize<W, A>,
        W: Writer,
        A: Allocator + Copy,
        I: Iterator<Item = (BKU, BVU)>,
        requires fitting { IsTrue (are_fitting K.kind V.kind E) }
        requires can { I.can_next iter }
        requires ends { UpTo (I.remaining iter) 18446744073709551615 }
        ensures ok { IfOk result
            (IsBuilt K.kind V.kind E KU.archival VU.archival
            (both_borrowed BKU.borrowed BVU.borrowed) I.next_gives iter len W.state writer.old
            writer.new) }
        // The keys increase.
        ensures in_order { IfOk result
            (BuildsInOrder KU.cmp K.kind V.kind E KU.archival VU.archival
            (both_borrowed BKU.borrowed BVU.borrowed) I.next_gives iter len W.state writer.old
            writer.new) }
        ensures err { IfErr result
            (IsUnbuiltInOrder KU.cmp K.kind V.kind E KU.archival VU.archival
            (both_borrowed BKU.borrowed BVU.borrowed) I.next_gives iter len W.state writer.old
            writer.new) }
        ensures limits { IsLimited len (W.state writer.old) (W.state writer.new) result };

    /// Serializes the items of an iterator that can fail, in their order, as the tree of a map, and returns the position of its
    /// root node. `len` is the declared number of items. It does what `serialize_from_ordered_iter` does, and stops at the first
    /// `Err`. `next` isn't called again after that.
    ///
    /// # Errors
    ///
    /// - `Item` with the iterator's own error, also if it comes after as many items as declared.
    /// - `Build` with each error of `serialize_from_ordered_iter`, if the iterator gave no error before it.
    ///
    /// After an error the writer's contents begin with the old ones. After an item's error they are as after a wrong count of the items
    /// before it.
    fn try_serialize_from_ordered_iter<BKU, BVU, KU, VU, W, A, I, X>(
        alloc: A,
        len: usize,
        iter: I,
        writer: &mut W,
    ) -> Result<BTreeMapResolver, TryFault<W::Error, X>>
    where
        BKU: Borrow<KU> + Drop,
        BVU: Borrow<VU> + Drop,
        KU: Archive<Archived = K> + Serialize<W, A>,
        VU: Archive<Archived = V> + Serialize<W, A>,
        W: Writer,
        A: Allocator + Copy,
        X: Drop,
        I: Iterator<Item = Result<(BKU, BVU), X>>,
        requires fitting { IsTrue (are_fitting K.kind V.kind E) }
        requires can { I.can_next iter }
        requires ends { UpTo (I.remaining iter) 18446744073709551615 }
        // The iterator gave no error.
        ensures ok { IfOk result
            (IsBuilt K.kind V.kind E KU.archival VU.archival
            (both_borrowed BKU.borrowed BVU.borrowed) (OkSteps I.next_gives) iter len W.state
            writer.old writer.new) }
        ensures err { IfErr result
            (IsUntried K.kind V.kind E KU.archival VU.archival
            (both_borrowed BKU.borrowed BVU.borrowed) I.next_gives iter len W.state writer.old
            writer.new) }
        ensures limits { IsTryLimited len (W.state writer.old) (W.state writer.new) result };

    /// Writes the map of a root node that was serialized for `len` entries.
    ///
    /// # Errors
    ///
    /// `LengthOverflow` if `len` is past 32 bits, and `OffsetOverflow` if the distance to the root is no offset. The place is unchanged
    /// then.
    fn resolve_from_len(
        len: usize,
        resolver: BTreeMapResolver,
        out: Place<'_, ArchivedBTreeMap<K, V, E>>,
    ) -> Result<(), ResolveFault>
        requires { length out.bytes.now ≡ 8 }
        ensures filled { IsRootFilled out.entry.pos resolver len out.entry.bytes.now out.exit.1.0.now result };

    /// Writes zeros up to a multiple of 4 and then the map, and returns the map's position.
    ///
    /// # Errors
    ///
    /// `Writer` with the writer's own error, `PositionOverflow`, and those of `resolve_from_len`. What was written remains.
    ///
    /// # Examples
    ///
    /// ```rust
    /// let mut writer = IoWriter::new(BufWriter::new(alloc, file)?);
    /// let tree = Prices::serialize_from_exact_iter(alloc, items, &mut writer)?;
    /// let root = Prices::write_root(prices.len(), tree, &mut writer)?;
    /// ```
    fn write_root<W: Writer>(
        len: usize,
        resolver: BTreeMapResolver,
        writer: &mut W,
    ) -> Result<u32, Fault<W::Error>>
        ensures ok { IfOk result
            (IsRootWritten len resolver (W.state writer.old) (W.state writer.new)) }
        ensures err { IfErr result
            (IsRootUnwritten len resolver (W.state writer.old) (W.state writer.new)) };

    /// Serializes the items of an iterator, in their order, as the tree of a map, and then the map, and returns the map's position.
    /// The declared number of items is the iterator's own `len`.
    ///
    /// # Errors
    ///
    /// Those of `serialize_from_exact_iter`, and those of `write_root` after it. The writer's contents begin with the old ones.
    ///
    /// # Examples
    ///
    /// ```rust
    /// let root = Prices::write_map(alloc, items, &mut writer)?;
    /// ```
    fn write_map<BKU, BVU, KU, VU, W, A, I>(
        alloc: A,
        iter: I,
        writer: &mut W,
    ) -> Result<u32, Fault<W::Error>>
    where
        BKU: Borrow<KU> + Drop,
        BVU: Borrow<VU> + Drop,
        KU: Archive<Archived = K> + Serialize<W, A>,
        VU: Archive<Archived = V> + Serialize<W, A>,
        W: Writer,
        A: Allocator + Copy,
        I: ExactSizeIterator<Item = (BKU, BVU)>,
        requires fitting { IsTrue (are_fitting K.kind V.kind E) }
        requires can { I.can_next iter }
        ensures ok { IfOk result
            (IsMapWritten K.kind V.kind E KU.archival VU.archival
            (both_borrowed BKU.borrowed BVU.borrowed) I.next_gives iter
            (size (I.remaining iter)) W.state writer.old writer.new) }
        ensures err { IfErr result
            (IsMapUnwritten K.kind V.kind E KU.archival VU.archival
            (both_borrowed BKU.borrowed BVU.borrowed) I.next_gives iter
            (size (I.remaining iter)) W.state writer.old writer.new) };

    /// Returns the archive of the items of an iterator, in their order: their tree from position 0 on, and the map as the last eight
    /// bytes. The declared number of items is the iterator's own `len`. So a list that is in no std map needs no writer.
    ///
    /// # Errors
    ///
    /// Those of `write_map`.
    ///
    /// # Examples
    ///
    /// ```rust
    /// Ok(Prices::to_archive_of(alloc, items)?)
    /// ```
    fn to_archive_of<BKU, BVU, KU, VU, I>(
        alloc: Global,
        iter: I,
    ) -> Result<Vec<u8>, Fault<AllocError>>
    where
        BKU: Borrow<KU> + Drop,
        BVU: Borrow<VU> + Drop,
        KU: Archive<Archived = K> + Serialize<VecWriter, Global>,
        VU: Archive<Archived = V> + Serialize<VecWriter, Global>,
        I: ExactSizeIterator<Item = (BKU, BVU)>,
        requires fitting { IsTrue (are_fitting K.kind V.kind E) }
        requires can { I.can_next iter }
        ensures ok { IfOk result (λ bytes.
            IsArchivedMap K.kind V.kind E KU.archival VU.archival
            (both_borrowed BKU.borrowed BVU.borrowed) I.next_gives iter bytes.items) }
        ensures err { IfErr result
            (IsUnarchivedMap K.kind V.kind E KU.archival VU.archival
            (both_borrowed BKU.borrowed BVU.borrowed) I.next_gives iter
            (size (I.remaining iter))) };
}

impl<K: Portable, V: Portable, const E: usize> BuildMap<K, V, E> for ArchivedBTreeMap<K, V, E> {
    fn serialize_from_ordered_iter<BKU, BVU, KU, VU, W, A, I>(
        alloc: A,
        len: usize,
        iter: I,
        writer: &mut W,
    ) -> Result<BTreeMapResolver, Fault<W::Error>>
    where
        BKU: Borrow<KU> + Drop,
        BVU: Borrow<VU> + Drop,
        KU: Archive<Archived = K> + Serialize<W, A>,
        VU: Archive<Archived = V> + Serialize<W, A>,
        W: Writer,
        A: Allocator + Copy,
        I: Iterator<Item = (BKU, BVU)>,
    {
        let mut source = Source {
            items: iter,
            look: AnyOrder {},
        };
        build_from::<BKU, BVU, KU, VU, K, V, W, A, I, AnyOrder, E>(alloc, len, &mut source, writer)
    }

    fn serialize_from_exact_iter<BKU, BVU, KU, VU, W, A, I>(
        alloc: A,
        iter: I,
        writer: &mut W,
    ) -> Result<BTreeMapResolver, Fault<W::Error>>
    where
        BKU: Borrow<KU> + Drop,
        BVU: Borrow<VU> + Drop,
        KU: Archive<Archived = K> + Serialize<W, A>,
        VU: Archive<Archived = V> + Serialize<W, A>,
        W: Writer,
        A: Allocator + Copy,
        I: ExactSizeIterator<Item = (BKU, BVU)>,
    {
        let len = iter.len();
        ArchivedBTreeMap::<K, V, E>::serialize_from_ordered_iter::<BKU, BVU, KU, VU, W, A, I>(
            alloc, len, iter, writer,
        )
    }

    fn serialize_strict_from_ordered_iter<BKU, BVU, KU, VU, W, A, I>(
        alloc: A,
        len: usize,
        iter: I,
        writer: &mut W,
    ) -> Result<BTreeMapResolver, Fault<W::Error>>
    where
        BKU: Borrow<KU> + Drop,
        BVU: Borrow<VU> + Drop,
        KU: Archive<Archived = K> + Serialize<W, A> + Ord,
        VU: Archive<Archived = V> + Serialize<W, A>,
        W: Writer,
        A: Allocator + Copy,
        I: Iterator<Item = (BKU, BVU)>,
    {
        let mut source = Source {
            items: iter,
            look: InOrder {
                left: len,
                stopped: false,
                of: PhantomData,
            },
        };
        let built = build_from::<BKU, BVU, KU, VU, K, V, W, A, I, InOrder<KU>, E>(
            alloc,
            len,
            &mut source,
            writer,
        );
        match built {
            Ok(resolver) => Ok(resolver),
            Err(fault) => {
                if source.look.stopped {
                    Err(out_of_order(fault))
                } else {
                    Err(fault)
                }
            }
        }
    }

    fn try_serialize_from_ordered_iter<BKU, BVU, KU, VU, W, A, I, X>(
        alloc: A,
        len: usize,
        iter: I,
        writer: &mut W,
    ) -> Result<BTreeMapResolver, TryFault<W::Error, X>>
    where
        BKU: Borrow<KU> + Drop,
        BVU: Borrow<VU> + Drop,
        KU: Archive<Archived = K> + Serialize<W, A>,
        VU: Archive<Archived = V> + Serialize<W, A>,
        W: Writer,
        A: Allocator + Copy,
        X: Drop,
        I: Iterator<Item = Result<(BKU, BVU), X>>,
    {
        let mut source = Source {
            items: UntilError {
                items: iter,
                error: None,
            },
            look: AnyOrder {},
        };
        let built = build_from::<BKU, BVU, KU, VU, K, V, W, A, UntilError<I, X>, AnyOrder, E>(
            alloc,
            len,
            &mut source,
            writer,
        );
        tried(source.items.error, built)
    }

    fn resolve_from_len(
        len: usize,
        resolver: BTreeMapResolver,
        out: Place<'_, ArchivedBTreeMap<K, V, E>>,
    ) -> Result<(), ResolveFault>
        requires { length out.bytes.now ≡ 8 }
        ensures filled { IsRootFilled out.entry.pos resolver len out.entry.bytes.now out.exit.1.0.now result }
    {
        let Place { pos, bytes, of: _ } = out;
        fill_root(pos, bytes, len, resolver.root)
    }

    fn write_root<W: Writer>(
        len: usize,
        resolver: BTreeMapResolver,
        writer: &mut W,
    ) -> Result<u32, Fault<W::Error>> {
        if len > 4294967295 {
            return Err(Fault::LengthOverflow);
        }
        let pos = pad(writer, 4)?;
        if pos > LAST_END - 8 {
            return Err(Fault::PositionOverflow);
        }
        let mut own = [0; 8];
        match fill_root(pos as u32, &mut own, len, resolver.root) {
            Ok(()) => {}
            Err(_) => return Err(Fault::OffsetOverflow),
        }
        put(writer, &own)?;
        Ok(pos as u32)
    }

    fn write_map<BKU, BVU, KU, VU, W, A, I>(
        alloc: A,
        iter: I,
        writer: &mut W,
    ) -> Result<u32, Fault<W::Error>>
    where
        BKU: Borrow<KU> + Drop,
        BVU: Borrow<VU> + Drop,
        KU: Archive<Archived = K> + Serialize<W, A>,
        VU: Archive<Archived = V> + Serialize<W, A>,
        W: Writer,
        A: Allocator + Copy,
        I: ExactSizeIterator<Item = (BKU, BVU)>,
    {
        let len = iter.len();
        let tree = ArchivedBTreeMap::<K, V, E>::serialize_from_exact_iter::<
            BKU,
            BVU,
            KU,
            VU,
            W,
            A,
            I,
        >(alloc, iter, writer)?;
        ArchivedBTreeMap::<K, V, E>::write_root(len, tree, writer)
    }

    fn to_archive_of<BKU, BVU, KU, VU, I>(
        alloc: Global,
        iter: I,
    ) -> Result<Vec<u8>, Fault<AllocError>>
    where
        BKU: Borrow<KU> + Drop,
        BVU: Borrow<VU> + Drop,
        KU: Archive<Archived = K> + Serialize<VecWriter, Global>,
        VU: Archive<Archived = V> + Serialize<VecWriter, Global>,
        I: ExactSizeIterator<Item = (BKU, BVU)>,
    {
        let mut writer = VecWriter::new(alloc);
        ArchivedBTreeMap::<K, V, E>::write_map::<BKU, BVU, KU, VU, VecWriter, Global, I>(
            alloc,
            iter,
            &mut writer,
        )?;
        Ok(writer.into_vec())
    }
}
