//! Byte strings, archived as their bytes, and after them an offset to these and their number.
ghost use Rattle.std.specs.Prelude.{◌≡◌, IfErr, IfOk, List, OnErr, OnOk, length, ℕ};
ghost use Rattle.std.specs.declared.alloc.Global.{Global};
ghost use Rattle.std.specs.declared.vec.Vec.{Vec};
ghost use Rattle.rkyv_btree_portable.specs.ByteStrings.{bytes_kind};
ghost use Rattle.rkyv_btree_portable.specs.laws.ByteStringLaws.{bytes_laws};
ghost use Rattle.rkyv_btree_writer.proofs.BytesArchived.{bytes_archived, bytes_causes};
ghost use Rattle.rkyv_btree_writer.specs.Archiving.{BeginsWith, IsUnresolved, IsUnserialised, Serialises, itself};
ghost use Rattle.rkyv_btree_writer.specs.BytesArchival.{bytes_archival};
ghost use Rattle.rkyv_btree_writer.specs.TextArchival.{FitsText, text_own};
ghost use Rattle.rkyv_btree_writing_laws.specs.Determined.{IsDetermined};
ghost use Rattle.rkyv_btree_writing_laws.specs.Kept.{OnlyAppended};

use crate::archive::{Archive, Serialize};
use crate::string::fill_text;
pub use rkyv_btree_portable::byte_string::ArchivedBytes;
use rkyv_btree_writer::bounded_writes::{LAST_END, put};
use rkyv_btree_writer::fault::{Fault, ResolveFault};
use rkyv_btree_writer::place::{Place, Writer};

impl Archive for Vec<u8> {
    type Archived = ArchivedBytes;

    /// The position of the first byte.
    type Resolver = u32;

    ghost archival = { bytes_archival (λ bytes. bytes.items) };

    /// Writes the offset from the place to the first byte, at `start`, and the number of bytes. An offset that doesn't fit 32
    /// signed bits is `OffsetOverflow`, and a number past 32 bits `LengthOverflow`.
    fn resolve(&self, start: u32, out: Place<'_, ArchivedBytes>) -> Result<(), ResolveFault>
        requires { length out.bytes.now ≡ 8 }
        ensures ok { OnOk result
            (FitsText out.entry.pos start (length self.now.items)
            × (out.exit.1.0.now ≡ text_own out.entry.pos start (length self.now.items))) }
        ensures err { IfErr result
            (IsUnresolved (bytes_archival (λ bytes. bytes.items)) self.now start out.entry.pos) }
    {
        let Place { pos, bytes, of: _ } = out;
        fill_text(pos, bytes, start, self.len())
    }

    ghost same_kind = { itself bytes_kind };

    ghost lawful = { bytes_laws };

    ghost archived = { bytes_archived (λ bytes. bytes.items) };

    ghost causes = { bytes_causes (λ bytes. bytes.items) };
}

/// Writes the bytes in one write, with no padding before them, and returns the position where they start. No bytes make no write.
///
/// # Errors
///
/// `PositionOverflow` if the bytes would start or end past position 4294967295, and the writer's own. The writer's contents are
/// unchanged after the first.
fn write_bytes<W: Writer>(bytes: &[u8], writer: &mut W) -> Result<u32, Fault<W::Error>>
    ensures ok { IfOk result (Serialises (bytes_archival (λ bytes. bytes)) bytes.now
        (W.state writer.old) (W.state writer.new)) }
    ensures err { IfErr result (λ fault.
        IsUnserialised (bytes_archival (λ bytes. bytes)) bytes.now (W.state writer.old) fault
        (W.state writer.new)) }
    ensures went { OnOk result (OnlyAppended (W.state writer.old) (W.state writer.new)) }
    ensures kept { OnErr result (BeginsWith (W.state writer.new) (W.state writer.old)) }
{
    let start = writer.pos();
    if start > LAST_END {
        return Err(Fault::PositionOverflow);
    }
    if bytes.is_empty() {
        return Ok(start as u32);
    }
    put(writer, bytes)?;
    Ok(start as u32)
}

impl<W: Writer, A: Drop> Serialize<W, A> for Vec<u8> {
    fn serialize(&self, _alloc: A, writer: &mut W) -> Result<u32, Fault<W::Error>> {
        write_bytes(self.as_slice(), writer)
    }
}

impl<'t> Archive for &'t [u8] {
    type Archived = ArchivedBytes;

    /// The position of the first byte.
    type Resolver = u32;

    ghost archival = { bytes_archival (λ bytes. bytes.now) };

    /// Writes what `Vec<u8>` writes.
    fn resolve(&self, start: u32, out: Place<'_, ArchivedBytes>) -> Result<(), ResolveFault>
        requires { length out.bytes.now ≡ 8 }
        ensures ok { OnOk result
            (FitsText out.entry.pos start (length self.now.now)
            × (out.exit.1.0.now ≡ text_own out.entry.pos start (length self.now.now))) }
        ensures err { IfErr result
            (IsUnresolved (bytes_archival (λ bytes. bytes.now)) self.now start out.entry.pos) }
    {
        let Place { pos, bytes, of: _ } = out;
        fill_text(pos, bytes, start, self.len())
    }

    ghost same_kind = { itself bytes_kind };

    ghost lawful = { bytes_laws };

    ghost archived = { bytes_archived (λ bytes. bytes.now) };

    ghost causes = { bytes_causes (λ bytes. bytes.now) };
}

impl<'t, W: Writer, A: Drop> Serialize<W, A> for &'t [u8] {
    fn serialize(&self, _alloc: A, writer: &mut W) -> Result<u32, Fault<W::Error>> {
        write_bytes(*self, writer)
    }
}

/// The bytes, their position and the place determine how they are archived, whichever `Vec` holds them.
pub fn byte_strings_are_determined()
    ensures { IsDetermined (bytes_archival {X = List ℕ} (λ bytes. bytes)) }
{}
