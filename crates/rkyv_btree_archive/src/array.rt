//! Arrays, archived element by element.
ghost use Rattle.std.specs.List.{splice};
ghost use Rattle.std.specs.Prelude.{◌≡◌, ◌+◌, ◌*◌, ◌≤◌, ℕ, List, length, IsTrue, OnOk, IfErr};
ghost use Rattle.rkyv_btree_archive.specs.ArrayArchival.{PartResolves, RowResolves, array_archival, part_fields, row_fields};
ghost use Rattle.rkyv_btree_archive.specs.laws.ArrayArchived.{same_array, array_archived};
ghost use Rattle.rkyv_btree_archive.specs.laws.ArrayCauses.{array_causes};
ghost use Rattle.rkyv_btree_compound.specs.Arrays.{array_kind};
ghost use Rattle.rkyv_btree_compound.specs.laws.ArrayLaws.{array_laws};
ghost use Rattle.rkyv_btree_writer.specs.Archiving.{IsUnresolved};
ghost use Rattle.rkyv_btree_writer.specs.Fields.{FirstUnfit};
ghost use Rattle.rkyv_btree_writing_laws.specs.Determined.{IsDetermined};

use crate::archive::{Archive, Serialize};
use crate::node_bytes::place_value;
pub use rkyv_btree_compound::array::ArchivedArray;
use rkyv_btree_portable::check::Portable;
use rkyv_btree_writer::fault::{Fault, ResolveFault};
use rkyv_btree_writer::place::{Place, Writer};

/// Writes the own bytes of an element from `start` on, resolved at `pos`. Without a resolver it writes zeros.
fn resolve_part<T: Archive>(
    bytes: &mut [u8],
    start: usize,
    element: &T,
    resolver: Option<T::Resolver>,
    pos: u32,
) -> Result<(), ResolveFault>
    requires fitting { IsTrue T.Archived.kind.is_fitting }
    requires room { start + T.Archived.kind.size ≤ length bytes.old }
    requires end { pos + T.Archived.kind.size ≤ 4294967295 }
    ensures ok { OnOk result
        ((own : List ℕ) × PartResolves T.archival element.now resolver pos own
        × (length own ≡ T.Archived.kind.size)
        × (bytes.new ≡ splice bytes.old start (start + length own) own)) }
    ensures err { IfErr result
        (FirstUnfit (part_fields T.archival element.now resolver pos)) }
{
    match resolver {
        Some(resolver) => place_value(bytes, start, element, resolver, pos),
        None => {
            let end = start + T::Archived::size() as usize;
            bytes[start..end].fill(0);
            Ok(())
        }
    }
}

/// Writes the own bytes of serialized elements one after another, resolved from `pos` on.
fn resolve_elements<T: Archive, const N: usize>(
    elements: &[T; N],
    mut resolvers: [Option<T::Resolver>; N],
    pos: u32,
    bytes: &mut [u8],
) -> Result<(), ResolveFault>
    requires fitting { IsTrue (array_kind T.Archived.kind N).is_fitting }
    requires size { length bytes.old ≡ N * T.Archived.kind.size }
    requires end { pos + N * T.Archived.kind.size ≤ 4294967295 }
    ensures ok { OnOk result
        (RowResolves T.archival elements.now resolvers pos bytes.new) }
    ensures err { IfErr result
        (FirstUnfit (row_fields T.archival elements.now resolvers pos)) }
{
    for i in 0..N {
        let start = i as u32 * T::Archived::size();
        let resolver = resolvers[i].take();
        resolve_part(bytes, start as usize, &elements[i], resolver, pos + start)?;
    }
    Ok(())
}

impl<T: Archive, const N: usize> Archive for [T; N] {
    type Archived = ArchivedArray<T::Archived, N>;

    /// What serializing tells of each element.
    type Resolver = [Option<T::Resolver>; N];

    ghost archival = { array_archival T.archival N };

    /// Resolves each element in turn.
    fn resolve(
        &self,
        resolver: [Option<T::Resolver>; N],
        out: Place<'_, ArchivedArray<T::Archived, N>>,
    ) -> Result<(), ResolveFault>
        requires fitting { IsTrue (array_kind T.Archived.kind N).is_fitting }
        requires size { length out.bytes.now ≡ N * T.Archived.kind.size }
        requires end { out.pos + N * T.Archived.kind.size ≤ 4294967295 }
        ensures ok { OnOk result ((array_archival T.archival N).Resolves self.now resolver
            out.entry.pos out.exit.1.0.now) }
        ensures err { IfErr result
            (IsUnresolved (array_archival T.archival N) self.now resolver out.entry.pos) }
    {
        let Place { pos, bytes, of: _ } = out;
        resolve_elements(self, resolver, pos, bytes)
    }

    ghost same_kind = { same_array T.archival.kind T.Archived.kind N T.same_kind };

    ghost lawful = { array_laws T.archival.kind N T.lawful };

    ghost archived = { array_archived T.archival N T.lawful T.archived };

    ghost causes = { array_causes T.archival T.causes N T.archived };
}

impl<W: Writer, A: Copy, T: Serialize<W, A>, const N: usize> Serialize<W, A> for [T; N] {
    /// Makes each element's writes in turn. If an element fails, the writes of those before it remain.
    fn serialize(
        &self,
        alloc: A,
        writer: &mut W,
    ) -> Result<[Option<T::Resolver>; N], Fault<W::Error>> {
        let mut resolvers: [Option<T::Resolver>; N] = Default::default();
        for i in 0..N {
            resolvers[i] = Some(self[i].serialize(alloc, writer)?);
        }
        Ok(resolvers)
    }
}

/// Where what elements mean determines how they are archived, so does what an array of them means.
pub fn arrays_are_determined<T: Archive, const N: usize>()
    ensures { IsDetermined T.archival → IsDetermined (array_archival T.archival N) }
{}
