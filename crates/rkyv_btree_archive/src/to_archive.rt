//! Whole archives: the bytes of one value from position 0 on, its own at their end.
ghost use Rattle.std.specs.Prelude.{◌≡◌, ◌+◌, ◌≤◌, length, IsTrue, IfOk, IfErr};
ghost use Rattle.rkyv_btree_writing_laws.specs.Whole.{IsPlaced, IsUnplaced, IsUnwritten, LeftUnplaced, IsUnarchived};
ghost use Rattle.rkyv_btree_format.specs.OwnBytes.{IsArchiveOf};
ghost use Rattle.rkyv_btree_portable.specs.Rounding.{round_up};
ghost use Rattle.rkyv_btree_writer.specs.Archiving.{Matches};
ghost use Rattle.rkyv_btree_writer.specs.Writing.{Writing, position};

use crate::archive::{Archive, Serialize, resolve_into};
use crate::node_writes::fault_of;
use rkyv_btree_portable::check::Portable;
use rkyv_btree_writer::bounded_writes::{LAST_END, pad, put};
use rkyv_btree_writer::fault::Fault;
use rkyv_btree_writer::place::{VecWriter, Writer};
use std::alloc::{AllocError, Allocator, Global};

/// A value's own bytes, resolved at a position.
fn own_bytes<T: Archive, W, A: Allocator>(
    alloc: A,
    value: &T,
    resolver: T::Resolver,
    pos: u32,
) -> Result<Vec<u8, A>, Fault<W>>
    requires fitting { IsTrue T.Archived.kind.is_fitting }
    requires end { pos + T.Archived.kind.size ≤ 4294967295 }
    ensures ok { IfOk result (λ own. T.archival.Resolves value.now resolver pos own.items) }
    ensures size { IfOk result (λ own. length own.items ≡ T.Archived.kind.size) }
    ensures err { IfErr result
        (IsUnplaced T.archival T.Archived.kind value.now resolver pos) }
    ensures unwritten { IfErr result (λ fault. (s : Writing) →
        IsUnwritten T.archival T.Archived.kind value.now resolver s fault s) }
{
    let mut own = Vec::new(alloc);
    if own.resize(T::Archived::size() as usize, 0).is_err() {
        return Err(Fault::Memory(AllocError));
    }
    match resolve_into(value, resolver, pos, own.as_mut_slice()) {
        Ok(()) => Ok(own),
        Err(fault) => Err(fault_of(fault)),
    }
}

/// Writes zeros up to the alignment of a serialized value, and then its own bytes. Returns their position.
///
/// # Errors
///
/// `Writer` with the writer's own error, `Memory`, and those of the type's `resolve`. The writer holds a beginning of these bytes
/// then.
pub fn write_value<T: Archive, W: Writer, A: Allocator>(
    alloc: A,
    value: &T,
    resolver: T::Resolver,
    writer: &mut W,
) -> Result<u32, Fault<W::Error>>
    requires { IsTrue T.Archived.kind.is_fitting }
    ensures ok { IfOk result (λ at.
        IsPlaced T.archival T.Archived.kind value.now resolver (W.state writer.old) at
        (W.state writer.new)) }
    ensures err { IfErr result
        (IsUnplaced T.archival T.Archived.kind value.now resolver
        (round_up (position (W.state writer.old)) T.Archived.kind.align)) }
    // After an error nothing has changed but for some of the zeros, and a beginning of the own bytes if the writer failed.
    ensures left { IfErr result (λ fault.
        LeftUnplaced T.archival T.Archived.kind value.now resolver (W.state writer.old) fault
        (W.state writer.new)) }
{
    let size = T::Archived::size();
    let pos = pad(writer, T::Archived::align())?;
    if pos > LAST_END || u64::from(size) > LAST_END - pos {
        return Err(Fault::PositionOverflow);
    }
    let own = own_bytes(alloc, value, resolver, pos as u32)?;
    put(writer, own.as_slice())?;
    Ok(pos as u32)
}

/// Returns the archive of a value: what it writes from position 0 on, zeros up to its alignment, and its own bytes at the end.
/// The precondition is that the type fits, which `fits` of its archived type returns.
///
/// # Errors
///
/// Those of `serialize` of the value and of `write_value`.
///
/// # Examples
///
/// ```rust
/// let mut bytes = to_archive(alloc, &prices)?;
/// println!(rt; "{} bytes", bytes.len())?;
/// ```
pub fn to_archive<T: Serialize<VecWriter, Global>>(
    alloc: Global,
    value: &T,
) -> Result<Vec<u8>, Fault<AllocError>>
    requires { IsTrue T.Archived.kind.is_fitting }
    ensures ok { IfOk result (λ bytes. (same : Matches T.archival.kind T.Archived.kind) →
        IsArchiveOf T.Archived.kind bytes.items (same.to (T.archival.meaning value.now))) }
    ensures err { IfErr result (IsUnarchived T.archival T.Archived.kind value.now) }
{
    let mut writer = VecWriter::new(alloc);
    let resolver = value.serialize(alloc, &mut writer)?;
    write_value(alloc, value, resolver, &mut writer)?;
    Ok(writer.into_vec())
}
