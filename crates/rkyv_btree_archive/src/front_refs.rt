//! References to the first fields of a tuple, which are archived field by field.
ghost use Rattle.std.specs.Prelude.{◌≡◌, ◌+◌, ◌≤◌, length, IsTrue, OnOk, IfErr};
ghost use Rattle.rkyv_btree_archive.specs.TupleArchival.{JoinedResolves, front_archival};
ghost use Rattle.rkyv_btree_archive.specs.laws.JoinedArchived.{same_next};
ghost use Rattle.rkyv_btree_archive.specs.laws.JoinedCauses.{FrontArchives, first_archives, next_archives};
ghost use Rattle.rkyv_btree_compound.specs.Joined.{joined_end};
ghost use Rattle.rkyv_btree_compound.specs.Tuples.{front_kind, tuple_kind, tuple_size};
ghost use Rattle.rkyv_btree_writer.specs.Archiving.{Archival, IsUnresolved, Matches};

use crate::archive::{Archive, resolve_into};
use crate::util::EntryResolver;
use rkyv_btree_compound::front::{First, Next, TupleFront, next_offset};
use rkyv_btree_portable::check::Portable;
use rkyv_btree_writer::fault::ResolveFault;

/// References to the first fields of a tuple: `FirstRef` or `NextRef`.
pub trait ArchiveFront {
    /// The archived representation of the fields.
    type Archived: TupleFront;

    /// The state that serializing the fields passes to `resolve_front`.
    type Resolver: Drop;

    /// The type of the fields' values.
    ghost Held: { Type 0 };

    /// The values to which the references lead.
    ghost held: { Self → Held };

    /// What archiving the values does.
    ghost archival: { Archival Held Self.Resolver };

    /// Writes the own bytes of the fields at position `pos`. The bytes between them become zero.
    fn resolve_front(
        self,
        resolver: Self::Resolver,
        pos: u32,
        bytes: &mut [u8],
    ) -> Result<(), ResolveFault>
        requires fitting { IsTrue Self.Archived.kind.is_fitting }
        requires size { length bytes.old ≡ Self.Archived.kind.size }
        requires end { pos + Self.Archived.kind.size ≤ 4294967295 }
        ensures ok { OnOk result (archival.Resolves (held self) resolver pos bytes.new) }
        ensures err { IfErr result (IsUnresolved archival (held self) resolver pos) };

    ghost same_kind: { Matches archival.kind Self.Archived.kind };

    ghost archives: { FrontArchives archival };
}

/// A reference to the first field of a tuple.
pub struct FirstRef<'r, A> {
    pub field: &'r A,
}

/// References to the first fields of a tuple and to the next one.
pub struct NextRef<'r, P, L> {
    pub front: P,
    pub last: &'r L,
}

/// Writes the own bytes of the first fields of a tuple and of the next one. The bytes between and after them become zero.
///
/// # Errors
///
/// Those of the fields' `resolve`. All bytes are unchanged then.
pub fn resolve_next<P: ArchiveFront, L: Archive>(
    front: P,
    last: &L,
    resolver: EntryResolver<P::Resolver, L::Resolver>,
    pos: u32,
    bytes: &mut [u8],
) -> Result<(), ResolveFault>
    requires fitting { IsTrue (front_kind P.Archived.kind L.Archived.kind).is_fitting }
    requires room { joined_end P.Archived.kind L.Archived.kind ≤ length bytes.old }
    requires end { pos + length bytes.old ≤ 4294967295 }
    ensures ok { OnOk result (JoinedResolves P.archival L.archival (length bytes.old)
        (P.held front, last.now) resolver pos bytes.new) }
    ensures err { IfErr result (IsUnresolved (front_archival P.archival L.archival)
        (P.held front, last.now) resolver pos) }
{
    let EntryResolver { key, value } = resolver;
    let offset = next_offset::<P::Archived, L::Archived>();
    bytes.fill(0);
    let (first, second) = bytes.split_at_mut(offset as usize);
    let first = &mut first[..P::Archived::end() as usize];
    let second = &mut second[..L::Archived::size() as usize];
    front.resolve_front(key, pos, first)?;
    resolve_into(last, value, pos + offset, second)
}

/// Writes the own bytes of a tuple, of all fields but the last and of the last. The bytes between and after them become zero.
///
/// # Errors
///
/// Those of the fields' `resolve`. All bytes are unchanged then.
pub fn resolve_fields<P: ArchiveFront, L: Archive>(
    front: P,
    last: &L,
    resolver: EntryResolver<P::Resolver, L::Resolver>,
    pos: u32,
    bytes: &mut [u8],
) -> Result<(), ResolveFault>
    requires fitting { IsTrue (tuple_kind P.Archived.kind L.Archived.kind).is_fitting }
    requires size { length bytes.old ≡ tuple_size P.Archived.kind L.Archived.kind }
    requires end { pos + tuple_size P.Archived.kind L.Archived.kind ≤ 4294967295 }
    ensures ok { OnOk result (JoinedResolves P.archival L.archival
        (tuple_size P.archival.kind L.archival.kind) (P.held front, last.now) resolver pos bytes.new) }
    ensures err { IfErr result (IsUnresolved (front_archival P.archival L.archival)
        (P.held front, last.now) resolver pos) }
{
    resolve_next(front, last, resolver, pos, bytes)
}

impl<'r, A: Archive> ArchiveFront for FirstRef<'r, A> {
    type Archived = First<A::Archived>;

    type Resolver = A::Resolver;

    ghost Held = { A };

    ghost held = { λ x. x.field.now };

    ghost archival = { A.archival };

    fn resolve_front(
        self,
        resolver: A::Resolver,
        pos: u32,
        bytes: &mut [u8],
    ) -> Result<(), ResolveFault> {
        let FirstRef { field } = self;
        resolve_into(field, resolver, pos, bytes)
    }

    ghost same_kind = { A.same_kind };

    ghost archives = { first_archives A.lawful A.archived A.causes };
}

impl<'r, P: ArchiveFront, L: Archive> ArchiveFront for NextRef<'r, P, L> {
    type Archived = Next<P::Archived, L::Archived>;

    type Resolver = EntryResolver<P::Resolver, L::Resolver>;

    ghost Held = { P.Held × L };

    ghost held = { λ x. (P.held x.front, x.last.now) };

    ghost archival = { front_archival P.archival L.archival };

    fn resolve_front(
        self,
        resolver: EntryResolver<P::Resolver, L::Resolver>,
        pos: u32,
        bytes: &mut [u8],
    ) -> Result<(), ResolveFault> {
        let NextRef { front, last } = self;
        resolve_next(front, last, resolver, pos, bytes)
    }

    ghost same_kind = { same_next P.same_kind L.same_kind };

    ghost archives = { next_archives P.archives L.lawful L.archived L.causes };
}
