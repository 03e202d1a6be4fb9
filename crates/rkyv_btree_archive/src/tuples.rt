//! Tuples of three to six, archived field by field.
ghost use Rattle.std.specs.Prelude.{◌≡◌, ◌+◌, ◌≤◌, length, IsTrue, OnOk, IfErr};
ghost use Rattle.rkyv_btree_archive.specs.TupleArchival.{tuple3_archival, tuple4_archival, tuple5_archival, tuple6_archival};
ghost use Rattle.rkyv_btree_archive.specs.laws.JoinedArchived.{same_next, same_tuple};
ghost use Rattle.rkyv_btree_archive.specs.laws.JoinedCauses.{first_archives, next_archives, tuple_lawful, tuple_archived, tuple_causes};
ghost use Rattle.rkyv_btree_compound.specs.Tuples.{tuple3_kind, tuple4_kind, tuple5_kind, tuple6_kind};
ghost use Rattle.rkyv_btree_writer.specs.Archiving.{IsUnresolved};
ghost use Rattle.rkyv_btree_writing_laws.specs.Determined.{IsDetermined};

use crate::archive::{Archive, Serialize};
use crate::front_refs::{ArchiveFront, FirstRef, NextRef, resolve_fields};
use crate::front_serialize::serialize_fields;
use crate::util::EntryResolver;
pub use rkyv_btree_compound::tuple::{
    ArchivedTuple3, ArchivedTuple4, ArchivedTuple5, ArchivedTuple6,
};
use rkyv_btree_writer::fault::{Fault, ResolveFault};
use rkyv_btree_writer::place::{Place, Writer};

impl<A: Archive, B: Archive, C: Archive> Archive for (A, B, C) {
    type Archived = ArchivedTuple3<A::Archived, B::Archived, C::Archived>;

    type Resolver = EntryResolver<EntryResolver<A::Resolver, B::Resolver>, C::Resolver>;

    ghost archival = { tuple3_archival A.archival B.archival C.archival };

    /// Resolves each field in turn. The bytes between and after them become zero.
    fn resolve(
        &self,
        resolver: EntryResolver<EntryResolver<A::Resolver, B::Resolver>, C::Resolver>,
        out: Place<'_, ArchivedTuple3<A::Archived, B::Archived, C::Archived>>,
    ) -> Result<(), ResolveFault>
        requires fitting { IsTrue (tuple3_kind A.Archived.kind B.Archived.kind C.Archived.kind).is_fitting }
        requires size { length out.bytes.now ≡ (tuple3_kind A.Archived.kind B.Archived.kind C.Archived.kind).size }
        requires end { out.pos + (tuple3_kind A.Archived.kind B.Archived.kind C.Archived.kind).size ≤ 4294967295 }
        ensures ok { OnOk result ((tuple3_archival A.archival B.archival C.archival).Resolves self.now resolver
            out.entry.pos out.exit.1.0.now) }
        ensures err { IfErr result (IsUnresolved (tuple3_archival A.archival B.archival C.archival) self.now resolver
            out.entry.pos) }
    {
        let Place { pos, bytes, of: _ } = out;
        let front = FirstRef { field: &self.0 };
        let front = NextRef {
            front,
            last: &self.1,
        };
        resolve_fields(front, &self.2, resolver, pos, bytes)
    }

    ghost same_kind = { same_tuple (same_next A.same_kind B.same_kind) C.same_kind };

    ghost lawful = { tuple_lawful (next_archives (first_archives A.lawful A.archived A.causes) B.lawful
        B.archived B.causes) C.lawful };

    ghost archived = { tuple_archived (next_archives (first_archives A.lawful A.archived A.causes) B.lawful
        B.archived B.causes) C.lawful C.archived
        (λ x. ((x.0, x.1), x.2)) };

    ghost causes = { tuple_causes (next_archives (first_archives A.lawful A.archived A.causes) B.lawful
        B.archived B.causes) C.lawful C.archived
        (λ x. ((x.0, x.1), x.2)) C.causes };
}

impl<A: Archive, B: Archive, C: Archive, D: Archive> Archive for (A, B, C, D) {
    type Archived = ArchivedTuple4<A::Archived, B::Archived, C::Archived, D::Archived>;

    type Resolver = EntryResolver<
        EntryResolver<EntryResolver<A::Resolver, B::Resolver>, C::Resolver>,
        D::Resolver,
    >;

    ghost archival = { tuple4_archival A.archival B.archival C.archival D.archival };

    /// Resolves each field in turn. The bytes between and after them become zero.
    fn resolve(
        &self,
        resolver: EntryResolver<
            EntryResolver<EntryResolver<A::Resolver, B::Resolver>, C::Resolver>,
            D::Resolver,
        >,
        out: Place<'_, ArchivedTuple4<A::Archived, B::Archived, C::Archived, D::Archived>>,
    ) -> Result<(), ResolveFault>
        requires fitting { IsTrue (tuple4_kind A.Archived.kind B.Archived.kind C.Archived.kind D.Archived.kind).is_fitting }
        requires size { length out.bytes.now ≡ (tuple4_kind A.Archived.kind B.Archived.kind C.Archived.kind D.Archived.kind).size }
        requires end { out.pos + (tuple4_kind A.Archived.kind B.Archived.kind C.Archived.kind D.Archived.kind).size ≤ 4294967295 }
        ensures ok { OnOk result ((tuple4_archival A.archival B.archival C.archival D.archival).Resolves self.now resolver
            out.entry.pos out.exit.1.0.now) }
        ensures err { IfErr result (IsUnresolved (tuple4_archival A.archival B.archival C.archival D.archival) self.now resolver
            out.entry.pos) }
    {
        let Place { pos, bytes, of: _ } = out;
        let front = FirstRef { field: &self.0 };
        let front = NextRef {
            front,
            last: &self.1,
        };
        let front = NextRef {
            front,
            last: &self.2,
        };
        resolve_fields(front, &self.3, resolver, pos, bytes)
    }

    ghost same_kind = { same_tuple (same_next (same_next A.same_kind B.same_kind) C.same_kind) D.same_kind };

    ghost lawful = { tuple_lawful (next_archives (next_archives (first_archives A.lawful A.archived A.causes) B.lawful
        B.archived B.causes) C.lawful
        C.archived C.causes) D.lawful };

    ghost archived = { tuple_archived (next_archives (next_archives (first_archives A.lawful A.archived A.causes) B.lawful
        B.archived B.causes) C.lawful
        C.archived C.causes) D.lawful D.archived
        (λ x. (((x.0, x.1), x.2), x.3)) };

    ghost causes = { tuple_causes (next_archives (next_archives (first_archives A.lawful A.archived A.causes) B.lawful
        B.archived B.causes) C.lawful
        C.archived C.causes) D.lawful D.archived
        (λ x. (((x.0, x.1), x.2), x.3)) D.causes };
}

impl<A: Archive, B: Archive, C: Archive, D: Archive, E: Archive> Archive for (A, B, C, D, E) {
    type Archived = ArchivedTuple5<A::Archived, B::Archived, C::Archived, D::Archived, E::Archived>;

    type Resolver = EntryResolver<
        EntryResolver<
            EntryResolver<EntryResolver<A::Resolver, B::Resolver>, C::Resolver>,
            D::Resolver,
        >,
        E::Resolver,
    >;

    ghost archival = { tuple5_archival A.archival B.archival C.archival D.archival E.archival };

    /// Resolves each field in turn. The bytes between and after them become zero.
    fn resolve(
        &self,
        resolver: EntryResolver<
            EntryResolver<
                EntryResolver<EntryResolver<A::Resolver, B::Resolver>, C::Resolver>,
                D::Resolver,
            >,
            E::Resolver,
        >,
        out: Place<
            '_,
            ArchivedTuple5<A::Archived, B::Archived, C::Archived, D::Archived, E::Archived>,
        >,
    ) -> Result<(), ResolveFault>
        requires fitting { IsTrue (tuple5_kind A.Archived.kind B.Archived.kind C.Archived.kind D.Archived.kind E.Archived.kind).is_fitting }
        requires size { length out.bytes.now ≡ (tuple5_kind A.Archived.kind B.Archived.kind C.Archived.kind D.Archived.kind E.Archived.kind).size }
        requires end { out.pos + (tuple5_kind A.Archived.kind B.Archived.kind C.Archived.kind D.Archived.kind E.Archived.kind).size ≤ 4294967295 }
        ensures ok { OnOk result ((tuple5_archival A.archival B.archival C.archival D.archival E.archival).Resolves self.now resolver
            out.entry.pos out.exit.1.0.now) }
        ensures err { IfErr result (IsUnresolved (tuple5_archival A.archival B.archival C.archival D.archival E.archival) self.now resolver
            out.entry.pos) }
    {
        let Place { pos, bytes, of: _ } = out;
        let front = FirstRef { field: &self.0 };
        let front = NextRef {
            front,
            last: &self.1,
        };
        let front = NextRef {
            front,
            last: &self.2,
        };
        let front = NextRef {
            front,
            last: &self.3,
        };
        resolve_fields(front, &self.4, resolver, pos, bytes)
    }

    ghost same_kind = { same_tuple (same_next (same_next (same_next A.same_kind B.same_kind) C.same_kind) D.same_kind) E.same_kind };

    ghost lawful = { tuple_lawful (next_archives (next_archives (next_archives (first_archives A.lawful A.archived A.causes) B.lawful
        B.archived B.causes) C.lawful
        C.archived C.causes) D.lawful
        D.archived D.causes) E.lawful };

    ghost archived = { tuple_archived (next_archives (next_archives (next_archives (first_archives A.lawful A.archived A.causes) B.lawful
        B.archived B.causes) C.lawful
        C.archived C.causes) D.lawful
        D.archived D.causes) E.lawful E.archived
        (λ x. ((((x.0, x.1), x.2), x.3), x.4)) };

    ghost causes = { tuple_causes (next_archives (next_archives (next_archives (first_archives A.lawful A.archived A.causes) B.lawful
        B.archived B.causes) C.lawful
        C.archived C.causes) D.lawful
        D.archived D.causes) E.lawful E.archived
        (λ x. ((((x.0, x.1), x.2), x.3), x.4)) E.causes };
}

impl<A: Archive, B: Archive, C: Archive, D: Archive, E: Archive, F: Archive> Archive
    for (A, B, C, D, E, F) {
    type Archived = ArchivedTuple6<
        A::Archived,
        B::Archived,
        C::Archived,
        D::Archived,
        E::Archived,
        F::Archived,
    >;

    type Resolver = EntryResolver<
        EntryResolver<
            EntryResolver<
                EntryResolver<EntryResolver<A::Resolver, B::Resolver>, C::Resolver>,
                D::Resolver,
            >,
            E::Resolver,
        >,
        F::Resolver,
    >;

    ghost archival = { tuple6_archival A.archival B.archival C.archival D.archival E.archival F.archival };

    /// Resolves each field in turn. The bytes between and after them become zero.
    fn resolve(
        &self,
        resolver: EntryResolver<
            EntryResolver<
                EntryResolver<
                    EntryResolver<EntryResolver<A::Resolver, B::Resolver>, C::Resolver>,
                    D::Resolver,
                >,
                E::Resolver,
            >,
            F::Resolver,
        >,
        out: Place<
            '_,
            ArchivedTuple6<
                A::Archived,
                B::Archived,
                C::Archived,
                D::Archived,
                E::Archived,
                F::Archived,
            >,
        >,
    ) -> Result<(), ResolveFault>
        requires fitting { IsTrue (tuple6_kind A.Archived.kind B.Archived.kind C.Archived.kind D.Archived.kind E.Archived.kind F.Archived.kind).is_fitting }
        requires size { length out.bytes.now ≡ (tuple6_kind A.Archived.kind B.Archived.kind C.Archived.kind D.Archived.kind E.Archived.kind F.Archived.kind).size }
        requires end { out.pos + (tuple6_kind A.Archived.kind B.Archived.kind C.Archived.kind D.Archived.kind E.Archived.kind F.Archived.kind).size ≤ 4294967295 }
        ensures ok { OnOk result ((tuple6_archival A.archival B.archival C.archival D.archival E.archival F.archival).Resolves self.now resolver
            out.entry.pos out.exit.1.0.now) }
        ensures err { IfErr result (IsUnresolved (tuple6_archival A.archival B.archival C.archival D.archival E.archival F.archival) self.now resolver
            out.entry.pos) }
    {
        let Place { pos, bytes, of: _ } = out;
        let front = FirstRef { field: &self.0 };
        let front = NextRef {
            front,
            last: &self.1,
        };
        let front = NextRef {
            front,
            last: &self.2,
        };
        let front = NextRef {
            front,
            last: &self.3,
        };
        let front = NextRef {
            front,
            last: &self.4,
        };
        resolve_fields(front, &self.5, resolver, pos, bytes)
    }

    ghost same_kind = { same_tuple (same_next (same_next (same_next (same_next A.same_kind B.same_kind) C.same_kind) D.same_kind) E.same_kind) F.same_kind };

    ghost lawful = { tuple_lawful (next_archives (next_archives (next_archives (next_archives (first_archives A.lawful A.archived A.causes) B.lawful
        B.archived B.causes) C.lawful
        C.archived C.causes) D.lawful
        D.archived D.causes) E.lawful
        E.archived E.causes) F.lawful };

    ghost archived = { tuple_archived (next_archives (next_archives (next_archives (next_archives (first_archives A.lawful A.archived A.causes) B.lawful
        B.archived B.causes) C.lawful
        C.archived C.causes) D.lawful
        D.archived D.causes) E.lawful
        E.archived E.causes) F.lawful F.archived
        (λ x. (((((x.0, x.1), x.2), x.3), x.4), x.5)) };

    ghost causes = { tuple_causes (next_archives (next_archives (next_archives (next_archives (first_archives A.lawful A.archived A.causes) B.lawful
        B.archived B.causes) C.lawful
        C.archived C.causes) D.lawful
        D.archived D.causes) E.lawful
        E.archived E.causes) F.lawful F.archived
        (λ x. (((((x.0, x.1), x.2), x.3), x.4), x.5)) F.causes };
}

impl<W: Writer, Z: Copy, A: Serialize<W, Z>, B: Serialize<W, Z>, C: Serialize<W, Z>> Serialize<W, Z>
    for (A, B, C) {
    /// Makes each field's writes in turn. If a field fails, the writes of those before it remain.
    fn serialize(
        &self,
        alloc: Z,
        writer: &mut W,
    ) -> Result<
        EntryResolver<EntryResolver<A::Resolver, B::Resolver>, C::Resolver>,
        Fault<W::Error>,
    > {
        let front = FirstRef { field: &self.0 };
        let front = NextRef {
            front,
            last: &self.1,
        };
        serialize_fields(front, &self.2, alloc, writer)
    }
}

impl<
    W: Writer,
    Z: Copy,
    A: Serialize<W, Z>,
    B: Serialize<W, Z>,
    C: Serialize<W, Z>,
    D: Serialize<W, Z>,
> Serialize<W, Z> for (A, B, C, D) {
    /// Makes each field's writes in turn. If a field fails, the writes of those before it remain.
    fn serialize(
        &self,
        alloc: Z,
        writer: &mut W,
    ) -> Result<
        EntryResolver<
            EntryResolver<EntryResolver<A::Resolver, B::Resolver>, C::Resolver>,
            D::Resolver,
        >,
        Fault<W::Error>,
    > {
        let front = FirstRef { field: &self.0 };
        let front = NextRef {
            front,
            last: &self.1,
        };
        let front = NextRef {
            front,
            last: &self.2,
        };
        serialize_fields(front, &self.3, alloc, writer)
    }
}

impl<
    W: Writer,
    Z: Copy,
    A: Serialize<W, Z>,
    B: Serialize<W, Z>,
    C: Serialize<W, Z>,
    D: Serialize<W, Z>,
    E: Serialize<W, Z>,
> Serialize<W, Z> for (A, B, C, D, E) {
    /// Makes each field's writes in turn. If a field fails, the writes of those before it remain.
    fn serialize(
        &self,
        alloc: Z,
        writer: &mut W,
    ) -> Result<
        EntryResolver<
            EntryResolver<
                EntryResolver<EntryResolver<A::Resolver, B::Resolver>, C::Resolver>,
                D::Resolver,
            >,
            E::Resolver,
        >,
        Fault<W::Error>,
    > {
        let front = FirstRef { field: &self.0 };
        let front = NextRef {
            front,
            last: &self.1,
        };
        let front = NextRef {
            front,
            last: &self.2,
        };
        let front = NextRef {
            front,
            last: &self.3,
        };
        serialize_fields(front, &self.4, alloc, writer)
    }
}

impl<
    W: Writer,
    Z: Copy,
    A: Serialize<W, Z>,
    B: Serialize<W, Z>,
    C: Serialize<W, Z>,
    D: Serialize<W, Z>,
    E: Serialize<W, Z>,
    F: Serialize<W, Z>,
> Serialize<W, Z> for (A, B, C, D, E, F) {
    /// Makes each field's writes in turn. If a field fails, the writes of those before it remain.
    fn serialize(
        &self,
        alloc: Z,
        writer: &mut W,
    ) -> Result<
        EntryResolver<
            EntryResolver<
                EntryResolver<
                    EntryResolver<EntryResolver<A::Resolver, B::Resolver>, C::Resolver>,
                    D::Resolver,
                >,
                E::Resolver,
            >,
            F::Resolver,
        >,
        Fault<W::Error>,
    > {
        let front = FirstRef { field: &self.0 };
        let front = NextRef {
            front,
            last: &self.1,
        };
        let front = NextRef {
            front,
            last: &self.2,
        };
        let front = NextRef {
            front,
            last: &self.3,
        };
        let front = NextRef {
            front,
            last: &self.4,
        };
        serialize_fields(front, &self.5, alloc, writer)
    }
}

/// Where what each field means determines how it is archived, so do all for the tuple of three.
pub fn tuples_are_determined<A: Archive, B: Archive, C: Archive>()
    ensures { IsDetermined A.archival → IsDetermined B.archival → IsDetermined C.archival
        → IsDetermined (tuple3_archival A.archival B.archival C.archival) }
{}

/// Where what each field means determines how it is archived, so do all for the tuple of four.
pub fn tuples4_are_determined<A: Archive, B: Archive, C: Archive, D: Archive>()
    ensures { IsDetermined A.archival → IsDetermined B.archival → IsDetermined C.archival → IsDetermined D.archival
        → IsDetermined (tuple4_archival A.archival B.archival C.archival D.archival) }
{}

/// Where what each field means determines how it is archived, so do all for the tuple of five.
pub fn tuples5_are_determined<A: Archive, B: Archive, C: Archive, D: Archive, E: Archive>()
    ensures { IsDetermined A.archival → IsDetermined B.archival → IsDetermined C.archival → IsDetermined D.archival → IsDetermined E.archival
        → IsDetermined (tuple5_archival A.archival B.archival C.archival D.archival E.archival) }
{}

/// Where what each field means determines how it is archived, so do all for the tuple of six.
pub fn tuples6_are_determined<
    A: Archive,
    B: Archive,
    C: Archive,
    D: Archive,
    E: Archive,
    F: Archive,
>()
    ensures { IsDetermined A.archival → IsDetermined B.archival → IsDetermined C.archival → IsDetermined D.archival → IsDetermined E.archival → IsDetermined F.archival
        → IsDetermined (tuple6_archival A.archival B.archival C.archival D.archival E.archival F.archival) }
{}
