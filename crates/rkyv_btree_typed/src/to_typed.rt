//! Typed files: the header of their type, and then an archive.
ghost use Rattle.std.specs.Prelude.{◌≤◌, ◌<◌, ◌^◌, IfErr, IfOk, IsTrue, IsUtf8, OnOk, length};
ghost use Rattle.rkyv_btree_typed.specs.TypeHeader.{header};
ghost use Rattle.rkyv_btree_typed.specs.TypeNames.{name_of};
ghost use Rattle.rkyv_btree_typed.specs.TypedWriting.{IsBuiltAfter, IsHeaderUnwritten, IsTypedArchiveOf, IsUntypable};
ghost use Rattle.rkyv_btree_writer.specs.Archiving.{Matches};
ghost use Rattle.rkyv_btree_writer.specs.Writing.{Appended, last_end, position};

use crate::header::header_of;
use crate::type_name::{NameOf, TypeName};
use rkyv_btree_archive::archive::Serialize;
use rkyv_btree_archive::to_archive::write_value;
use rkyv_btree_writer::bounded_writes::put;
use rkyv_btree_writer::fault::Fault;
use rkyv_btree_writer::place::{VecWriter, Writer};
use std::alloc::{AllocError, Global};

/// Writes the header of an archived type. In a typed file it is at position 0, and an archive of that type comes after it.
///
/// # Errors
///
/// `LengthOverflow` if the length of the name doesn't fit 32 bits, `PositionOverflow` if the header ends past position 4294967295,
/// `Memory`, and `Writer` with the writer's own error. Only after the last can the writer hold a prefix of the header.
pub fn write_header<M: TypeName, W: Writer>(
    alloc: Global,
    writer: &mut W,
) -> Result<(), Fault<W::Error>>
    ensures ok { OnOk result
        (Appended (W.state writer.old) (header (name_of M.term)) (W.state writer.new)) }
    ensures end { OnOk result (position (W.state writer.new) ≤ last_end) }
    ensures named { OnOk result (IsUtf8 (name_of M.term) × (length (name_of M.term) < 2 ^ 32)) }
    ensures err { IfErr result (λ fault.
        IsHeaderUnwritten (name_of M.term) (W.state writer.old) fault (W.state writer.new)) }
{
    let Ok(name) = NameOf::<M>::new().to_string(alloc) else {
        return Err(Fault::Memory(AllocError));
    };
    if name.len() > u32::MAX as usize {
        return Err(Fault::LengthOverflow);
    }
    let Ok(header) = header_of(alloc, name.as_str()) else {
        return Err(Fault::Memory(AllocError));
    };
    put(writer, header.as_slice())
}

/// Returns the typed file of a value: the header of its archived type, what the value writes after it, zeros up to its alignment,
/// and its own bytes at the end. `open` accepts it too, since its own bytes come last. The precondition is that the type fits, which
/// `fits` of its archived type returns.
///
/// # Errors
///
/// Those of `write_header`, of `serialize` of the value, and of `write_value`.
///
/// # Examples
///
/// ```rust
/// let mut bytes = to_typed_archive(alloc, &prices)?;
/// println!(rt; "{} bytes of type {}", bytes.len(), type_name_of(&bytes)?)?;
/// ```
pub fn to_typed_archive<T: Serialize<VecWriter, Global>>(
    alloc: Global,
    value: &T,
) -> Result<Vec<u8>, Fault<AllocError>>
where
    T::Archived: TypeName,
    requires { IsTrue T.Archived.kind.is_fitting }
    ensures ok { IfOk result (λ bytes. (same : Matches T.archival.kind T.Archived.kind) →
        IsTypedArchiveOf (name_of T.Archived.term) T.Archived.kind bytes.items
        (same.to (T.archival.meaning value.now))) }
    ensures built { IfOk result (λ bytes.
        IsBuiltAfter T.archival T.Archived.kind (name_of T.Archived.term) value.now bytes.items) }
    ensures err { IfErr result
        (IsUntypable T.archival T.Archived.kind (name_of T.Archived.term) value.now) }
{
    let mut writer = VecWriter::new(alloc);
    write_header::<T::Archived, VecWriter>(alloc, &mut writer)?;
    let resolver = value.serialize(alloc, &mut writer)?;
    write_value(alloc, value, resolver, &mut writer)?;
    Ok(writer.into_vec())
}
