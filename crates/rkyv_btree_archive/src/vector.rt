//! Vectors, archived as their elements in a row, and after them an offset to the first and their number.
ghost use Rattle.std.specs.Prelude.{◌≡◌, ◌+◌, ◌*◌, ◌≤◌, ◌<◌, List, ℕ, length, vec_capacity, [], IsOk, IsTrue, IfOk, IfErr, OnOk, OnErr};
ghost use Rattle.std.specs.List.{flat_map};
ghost use Rattle.rkyv_btree_archive.specs.VectorArchival.{vector_archival};
ghost use Rattle.rkyv_btree_archive.specs.laws.VectorArchived.{same_vector, vector_archived};
ghost use Rattle.rkyv_btree_archive.specs.laws.VectorCauses.{vector_causes};
ghost use Rattle.rkyv_btree_archive.specs.mirror.Rows.{ElementsWritten, RowWritten, RowStopped};
ghost use Rattle.rkyv_btree_compound.specs.Vectors.{vector_kind};
ghost use Rattle.rkyv_btree_compound.specs.laws.VectorLaws.{vector_laws};
ghost use Rattle.rkyv_btree_portable.specs.Rounding.{round_up};
ghost use Rattle.rkyv_btree_writer.specs.Archiving.{BeginsWith, IsUnresolved, IsUnserialised, Serialises};
ghost use Rattle.rkyv_btree_writer.specs.Padding.{padding};
ghost use Rattle.rkyv_btree_writer.specs.TextArchival.{FitsText, text_own};
ghost use Rattle.rkyv_btree_writer.specs.Writing.{Appended, Refused, Wrote, position, last_end};
ghost use Rattle.rkyv_btree_writing_laws.specs.Determined.{IsDetermined};
ghost use Rattle.rkyv_btree_writing_laws.specs.Entries.{AreResolved, AreUnresolved};
ghost use Rattle.rkyv_btree_writing_laws.specs.Kept.{OnlyAppended};

use crate::archive::{Archive, Serialize};
use crate::element::Element;
use crate::node_bytes::{Half, place_each};
use crate::node_writes::fault_of;
use crate::string::fill_text;
use crate::waiting::push;
pub use rkyv_btree_compound::vector::ArchivedVec;
use rkyv_btree_portable::check::Portable;
use rkyv_btree_writer::bounded_writes::{LAST_END, pad, put};
use rkyv_btree_writer::fault::{Fault, ResolveFault};
use rkyv_btree_writer::place::{Place, Writer};
use std::alloc::{AllocError, Allocator};
use std::marker::PhantomData;

/// The choice of the whole of a value.
struct Whole<T> {
    of: PhantomData<T>,
}

impl<T: Archive> Half<T> for Whole<T> {
    type Part = T;

    ghost part = { λ x. x };

    fn of<'a>(value: &'a T) -> &'a T {
        value
    }
}

/// Serializes elements in their order, and appends their resolvers to a list that has room for them.
fn serialize_elements<T: Serialize<W, A>, W: Writer, A: Allocator + Copy>(
    alloc: A,
    elements: &[T],
    resolvers: &mut Vec<T::Resolver, A>,
    writer: &mut W,
) -> Result<(), Fault<W::Error>>
    requires fitting { IsTrue T.Archived.kind.is_fitting }
    requires none { resolvers.old.items ≡ [] }
    requires room { length elements.now ≤ vec_capacity resolvers.old }
    ensures ok { OnOk result
        (ElementsWritten T.archival (W.state writer.old) elements.now resolvers.new.items
        (W.state writer.new)) }
    ensures count { OnOk result (length resolvers.new.items ≡ length elements.now) }
    ensures err { IfErr result (λ fault.
        IsUnserialised (vector_archival T.archival (λ xs. xs)) elements.now (W.state writer.old)
        fault (W.state writer.new)) }
{
    for element in elements {
        let resolver = element.serialize(alloc, writer)?;
        push(resolvers, resolver);
    }
    Ok(())
}

/// Writes the padding before a row of `count` elements, and returns the row's position. The row ends at a position in 32 bits.
fn begin_row<T: Archive, W: Writer>(count: usize, writer: &mut W) -> Result<u32, Fault<W::Error>>
    requires fitting { IsTrue T.Archived.kind.is_fitting }
    requires few { count ≤ 4294967295 }
    ensures ok { IfOk result (λ pos.
        Wrote (W.state writer.old) (padding T.archival.kind.align (position (W.state writer.old)))
        (W.state writer.new)) }
    ensures place { IfOk result (λ pos. pos ≡ position (W.state writer.new)) }
    ensures aligned { IfOk result (λ pos.
        pos ≡ round_up (position (W.state writer.old)) T.archival.kind.align) }
    ensures end { IfOk result (λ pos. pos + count * T.Archived.kind.size ≤ 4294967295) }
    ensures err { IfErr result (λ fault. (xs : List T) → length xs ≡ count →
        (rs : List T.Resolver) →
        RowStopped T.archival (W.state writer.old) xs rs fault (W.state writer.new)) }
{
    let pos = pad(writer, T::Archived::align())?;
    let size = count as u64 * u64::from(T::Archived::size());
    if pos > LAST_END || size > LAST_END - pos {
        return Err(Fault::PositionOverflow);
    }
    Ok(pos as u32)
}

/// Returns so many zeros. None take no memory.
fn zeros<A: Allocator>(alloc: A, count: usize) -> Result<Vec<u8, A>, AllocError>
    ensures count { IfOk result (λ bytes. length bytes.items ≡ count) }
    ensures succeeds { count ≡ 0 → IsOk result }
{
    let mut bytes = Vec::with_capacity(alloc, count)?;
    bytes.resize(count, 0)?;
    Ok(bytes)
}

/// Resolves elements from `pos` on into bytes of as many as they have. Their resolvers are used up.
fn place_row<T: Archive, A: Allocator>(
    bytes: &mut [u8],
    elements: &[T],
    resolvers: &mut Vec<T::Resolver, A>,
    pos: u32,
) -> Result<(), ResolveFault>
    requires fitting { IsTrue T.Archived.kind.is_fitting }
    requires count { length resolvers.old.items ≡ length elements.now }
    requires size { length bytes.old ≡ length elements.now * T.Archived.kind.size }
    requires end { pos + length elements.now * T.Archived.kind.size ≤ 4294967295 }
    ensures ok { OnOk result
        ((owns : List (List ℕ)) × AreResolved T.archival pos elements.now resolvers.old.items owns
        × (bytes.new ≡ flat_map (λ own. own) owns)) }
    ensures err { IfErr result
        (AreUnresolved T.archival pos elements.now resolvers.old.items) }
{
    place_each::<Whole<T>, T, A>(bytes, 0, elements, resolvers, pos)
}

/// Resolves elements from `pos` on into a list of as many bytes as they have. Their resolvers are used up.
fn fill_row<T: Archive, A: Allocator>(
    bytes: &mut Vec<u8, A>,
    elements: &[T],
    resolvers: &mut Vec<T::Resolver, A>,
    pos: u32,
) -> Result<(), ResolveFault>
    requires fitting { IsTrue T.Archived.kind.is_fitting }
    requires count { length resolvers.old.items ≡ length elements.now }
    requires size { length bytes.old.items ≡ length elements.now * T.Archived.kind.size }
    requires end { pos + length elements.now * T.Archived.kind.size ≤ 4294967295 }
    ensures ok { OnOk result
        ((owns : List (List ℕ)) × AreResolved T.archival pos elements.now resolvers.old.items owns
        × (bytes.new.items ≡ flat_map (λ own. own) owns)) }
    ensures err { IfErr result
        (AreUnresolved T.archival pos elements.now resolvers.old.items) }
{
    let whole = bytes.as_mut_slice();
    place_row(whole, elements, resolvers, pos)
}

/// Writes bytes, if there are any, at a position in 32 bits.
fn put_bytes<W: Writer>(bytes: &[u8], writer: &mut W) -> Result<(), Fault<W::Error>>
    requires { position (W.state writer.old) ≤ last_end }
    ensures ok { OnOk result (Appended (W.state writer.old) bytes.now (W.state writer.new)) }
    ensures end { OnOk result (position (W.state writer.new) ≤ last_end) }
    ensures err { IfErr result (λ fault.
        (reaches : _) →
        Refused fault (W.state writer.old) (record { bytes = bytes.now; reaches = reaches })
        (W.state writer.new)) }
{
    if bytes.is_empty() {
        return Ok(());
    }
    put(writer, bytes)
}

/// Writes the own bytes of serialized elements at the next multiple of their alignment, and returns that position.
fn write_row<T: Archive, W: Writer, A: Allocator + Copy>(
    alloc: A,
    elements: &[T],
    resolvers: &mut Vec<T::Resolver, A>,
    writer: &mut W,
) -> Result<u32, Fault<W::Error>>
    requires fitting { IsTrue T.Archived.kind.is_fitting }
    requires few { length elements.now ≤ 4294967295 }
    requires count { length resolvers.old.items ≡ length elements.now }
    ensures ok { IfOk result (λ start.
        RowWritten T.archival (W.state writer.old) elements.now resolvers.old.items start
        (W.state writer.new)) }
    ensures err { IfErr result (λ fault.
        RowStopped T.archival (W.state writer.old) elements.now resolvers.old.items fault
        (W.state writer.new)) }
{
    let pos = begin_row::<T, W>(elements.len(), writer)?;
    let size = elements.len() * T::Archived::size() as usize;
    let mut bytes = match zeros(alloc, size) {
        Ok(bytes) => bytes,
        Err(error) => return Err(Fault::Memory(error)),
    };
    if let Err(fault) = fill_row(&mut bytes, elements, resolvers, pos) {
        return Err(fault_of(fault));
    }
    put_bytes(bytes.as_slice(), writer)?;
    Ok(pos)
}

/// Serializes the elements of a vector, writes their own bytes after that, and returns the position of the first.
///
/// # Errors
///
/// Those of serializing an element and of a write, `PositionOverflow` if the elements end past 32 bits, `LengthOverflow` if their
/// number is past 32 bits, and `Memory`.
fn write_vector<T: Serialize<W, A>, W: Writer, A: Allocator + Copy>(
    alloc: A,
    elements: &[T],
    writer: &mut W,
) -> Result<u32, Fault<W::Error>>
    requires fitting { IsTrue T.Archived.kind.is_fitting }
    ensures ok { IfOk result
        (Serialises (vector_archival T.archival (λ xs. xs)) elements.now (W.state writer.old)
        (W.state writer.new)) }
    ensures err { IfErr result (λ fault.
        IsUnserialised (vector_archival T.archival (λ xs. xs)) elements.now (W.state writer.old)
        fault (W.state writer.new)) }
    ensures went { OnOk result (OnlyAppended (W.state writer.old) (W.state writer.new)) }
    ensures kept { OnErr result (BeginsWith (W.state writer.new) (W.state writer.old)) }
{
    if elements.len() as u64 > LAST_END {
        return Err(Fault::LengthOverflow);
    }
    let mut resolvers = match Vec::with_capacity(alloc, elements.len()) {
        Ok(resolvers) => resolvers,
        Err(error) => return Err(Fault::Memory(error)),
    };
    serialize_elements(alloc, elements, &mut resolvers, writer)?;
    write_row(alloc, elements, &mut resolvers, writer)
}

impl<T: Element> Archive for Vec<T> {
    type Archived = ArchivedVec<T::Archived>;

    /// The position of the first element.
    type Resolver = u32;

    ghost archival = { vector_archival T.archival (λ elements. elements.items) };

    /// Writes the offset from the place to the first element, at `start`, and the number of elements. An offset that doesn't fit 32
    /// signed bits is `OffsetOverflow`, and a number past 32 bits `LengthOverflow`.
    fn resolve(
        &self,
        start: u32,
        out: Place<'_, ArchivedVec<T::Archived>>,
    ) -> Result<(), ResolveFault>
        requires { length out.bytes.now ≡ 8 }
        ensures ok { OnOk result
            (FitsText out.entry.pos start (length self.now.items)
            × (out.exit.1.0.now ≡ text_own out.entry.pos start (length self.now.items))) }
        ensures err { IfErr result
            (IsUnresolved (vector_archival T.archival (λ elements. elements.items)) self.now start
            out.entry.pos) }
    {
        let Place { pos, bytes, of: _ } = out;
        fill_text(pos, bytes, start, self.len())
    }

    ghost same_kind = { same_vector T.archival.kind T.Archived.kind T.same_kind };

    ghost lawful = { vector_laws T.archival.kind T.lawful };

    ghost archived = { vector_archived T.archival T.lawful T.archived
        (λ elements. elements.items) };

    ghost causes = { vector_causes T.archival T.causes (λ elements. elements.items) };
}

impl<W: Writer, A: Allocator + Copy, T: Serialize<W, A> + Element> Serialize<W, A> for Vec<T> {
    /// Makes the elements' writes, and then writes their own bytes in a row.
    fn serialize(&self, alloc: A, writer: &mut W) -> Result<u32, Fault<W::Error>>
        requires fitting { IsTrue (vector_kind T.Archived.kind).is_fitting }
        ensures ok { IfOk result
            (Serialises (vector_archival T.archival (λ elements. elements.items)) self.now
            (W.state writer.old) (W.state writer.new)) }
        ensures err { IfErr result (λ fault.
            IsUnserialised (vector_archival T.archival (λ elements. elements.items)) self.now
            (W.state writer.old) fault (W.state writer.new)) }
        ensures went { OnOk result (OnlyAppended (W.state writer.old) (W.state writer.new)) }
        ensures kept { OnErr result (BeginsWith (W.state writer.new) (W.state writer.old)) }
    {
        write_vector(alloc, self.as_slice(), writer)
    }
}

/// Where what elements mean determines how they are archived, so does what a vector of them means, whichever `Vec` holds them.
pub fn vectors_are_determined<T: Element>()
    ensures { IsDetermined T.archival → IsDetermined ⟦<Vec<T> as Archive>⟧.archival }
{}
