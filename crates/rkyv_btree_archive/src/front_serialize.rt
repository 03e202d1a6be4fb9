//! Serializing the first fields of a tuple, field by field.
ghost use Rattle.std.specs.Prelude.{IsTrue, OnOk, OnErr, IfOk, IfErr};
ghost use Rattle.rkyv_btree_archive.specs.TupleArchival.{front_archival};
ghost use Rattle.rkyv_btree_compound.specs.Tuples.{front_kind, tuple_kind};
ghost use Rattle.rkyv_btree_writer.specs.Archiving.{BeginsWith, IsUnserialised, Serialises};
ghost use Rattle.rkyv_btree_writing_laws.specs.Kept.{OnlyAppended};

use crate::archive::Serialize;
use crate::front_refs::{ArchiveFront, FirstRef, NextRef};
use crate::util::EntryResolver;
use rkyv_btree_compound::front::TupleFront;
use rkyv_btree_portable::check::Portable;
use rkyv_btree_writer::fault::Fault;
use rkyv_btree_writer::place::Writer;

/// References to the first fields of a tuple, which a writer takes.
pub trait SerializeFront<W: Writer, Z>: ArchiveFront {
    /// Makes each field's writes in turn. After an error the writer's contents begin with the old ones.
    fn serialize_front(self, alloc: Z, writer: &mut W) -> Result<Self::Resolver, Fault<W::Error>>
        requires fitting { IsTrue Self.Archived.kind.is_fitting }
        ensures ok { IfOk result (Serialises Self.archival (Self.held self)
            (W.state writer.old) (W.state writer.new)) }
        ensures err { IfErr result (λ fault. IsUnserialised Self.archival (Self.held self)
            (W.state writer.old) fault (W.state writer.new)) }
        ensures went { OnOk result (OnlyAppended (W.state writer.old) (W.state writer.new)) }
        ensures kept { OnErr result (BeginsWith (W.state writer.new) (W.state writer.old)) };
}

/// Makes the writes of the first fields of a tuple, and then those of the next one.
///
/// # Errors
///
/// Those of the first field that fails. The writes of those before it remain.
pub fn serialize_next<W: Writer, Z: Copy, P: SerializeFront<W, Z>, L: Serialize<W, Z>>(
    front: P,
    last: &L,
    alloc: Z,
    writer: &mut W,
) -> Result<EntryResolver<P::Resolver, L::Resolver>, Fault<W::Error>>
    requires { IsTrue (front_kind P.Archived.kind L.Archived.kind).is_fitting }
    ensures ok { IfOk result (Serialises (front_archival P.archival L.archival)
        (P.held front, last.now) (W.state writer.old) (W.state writer.new)) }
    ensures err { IfErr result (λ fault. IsUnserialised (front_archival P.archival L.archival)
        (P.held front, last.now) (W.state writer.old) fault (W.state writer.new)) }
    ensures went { OnOk result (OnlyAppended (W.state writer.old) (W.state writer.new)) }
    ensures kept { OnErr result (BeginsWith (W.state writer.new) (W.state writer.old)) }
{
    let key = front.serialize_front(alloc, writer)?;
    let value = last.serialize(alloc, writer)?;
    Ok(EntryResolver { key, value })
}

/// Makes the writes of a tuple's fields in turn, of all but the last and of the last.
///
/// # Errors
///
/// Those of the first field that fails. The writes of those before it remain.
pub fn serialize_fields<W: Writer, Z: Copy, P: SerializeFront<W, Z>, L: Serialize<W, Z>>(
    front: P,
    last: &L,
    alloc: Z,
    writer: &mut W,
) -> Result<EntryResolver<P::Resolver, L::Resolver>, Fault<W::Error>>
    requires { IsTrue (tuple_kind P.Archived.kind L.Archived.kind).is_fitting }
    ensures ok { IfOk result (Serialises (front_archival P.archival L.archival)
        (P.held front, last.now) (W.state writer.old) (W.state writer.new)) }
    ensures err { IfErr result (λ fault. IsUnserialised (front_archival P.archival L.archival)
        (P.held front, last.now) (W.state writer.old) fault (W.state writer.new)) }
    ensures went { OnOk result (OnlyAppended (W.state writer.old) (W.state writer.new)) }
    ensures kept { OnErr result (BeginsWith (W.state writer.new) (W.state writer.old)) }
{
    serialize_next(front, last, alloc, writer)
}

impl<'r, W: Writer, Z: Copy, A: Serialize<W, Z>> SerializeFront<W, Z> for FirstRef<'r, A> {
    fn serialize_front(self, alloc: Z, writer: &mut W) -> Result<A::Resolver, Fault<W::Error>> {
        let FirstRef { field } = self;
        field.serialize(alloc, writer)
    }
}

impl<'r, W: Writer, Z: Copy, P: SerializeFront<W, Z>, L: Serialize<W, Z>> SerializeFront<W, Z>
    for NextRef<'r, P, L> {
    fn serialize_front(
        self,
        alloc: Z,
        writer: &mut W,
    ) -> Result<EntryResolver<P::Resolver, L::Resolver>, Fault<W::Error>> {
        let NextRef { front, last } = self;
        serialize_next(front, last, alloc, writer)
    }
}
