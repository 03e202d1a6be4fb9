//! Text, archived as its bytes, and after them an offset to these and their number.
ghost use Rattle.std.specs.Prelude.{◌≡◌, ℕ, ◌+◌, ◌≤◌, ◌<◌, length, string_bytes, IfSome, IfNone, OnOk, OnErr, IfOk, IfErr, IsErrOf, ◌↔◌};
ghost use Rattle.std.specs.declared.alloc.Global.{Global};
ghost use Rattle.rkyv_btree_writer.specs.Archiving.{BeginsWith, IsUnresolved, IsUnserialised, Serialises, itself};
ghost use Rattle.rkyv_btree_writing_laws.specs.Determined.{IsDetermined};
ghost use Rattle.rkyv_btree_writing_laws.specs.Kept.{OnlyAppended};
ghost use Rattle.rkyv_btree_writer.specs.Pointers.{FitsOffset};
ghost use Rattle.rkyv_btree_portable.specs.Refusing.{RefusesWhole};
ghost use Rattle.rkyv_btree_portable.specs.Text.{IsTextRange, text_kind};
ghost use Rattle.rkyv_btree_writer.specs.TextArchival.{FitsText, text_own, text_archival};
ghost use Rattle.rkyv_btree_portable.specs.laws.Refusing.{whole_refusals};
ghost use Rattle.rkyv_btree_writer.proofs.TextArchived.{text_archived, text_causes};
ghost use Rattle.rkyv_btree_portable.specs.laws.TextLaws.{text_laws};

use crate::archive::{Archive, Serialize};
pub use rkyv_btree_portable::text::{ArchivedText, text_range};
use rkyv_btree_writer::bounded_writes::{LAST_END, put};
use rkyv_btree_writer::fault::{Fault, ResolveFault};
use rkyv_btree_writer::place::{Place, Writer, write_offset};

/// Writes the eight bytes, at `pos`, of a text of `len` bytes that starts at `start`.
pub(crate) fn fill_text(
    pos: u32,
    bytes: &mut [u8],
    start: u32,
    len: usize,
) -> Result<(), ResolveFault>
    requires { length bytes.old ≡ 8 }
    ensures ok { OnOk result (FitsText pos start len × (bytes.new ≡ text_own pos start len)) }
    ensures length { IsErrOf result ResolveFault.LengthOverflow ↔ (4294967295 < len) }
    ensures offset { IsErrOf result ResolveFault.OffsetOverflow → FitsOffset pos start → ⊥ }
{
    let Ok(count) = u32::try_from(len) else {
        return Err(ResolveFault::LengthOverflow);
    };
    let (front, back) = bytes.split_at_mut(4);
    write_offset(pos, start, front)?;
    back.copy_from_slice(&count.to_le_bytes());
    Ok(())
}

impl Archive for String {
    type Archived = ArchivedText;

    /// The position of the text's first byte.
    type Resolver = u32;

    ghost archival = { text_archival string_bytes };

    /// Writes the offset from the place to the text's first byte, at `start`, and the number of its bytes. An offset
    /// that doesn't fit 32 signed bits is `OffsetOverflow`, and a number past 32 bits `LengthOverflow`.
    fn resolve(&self, start: u32, out: Place<'_, ArchivedText>) -> Result<(), ResolveFault>
        requires { length out.bytes.now ≡ 8 }
        ensures ok { OnOk result
            (FitsText out.entry.pos start (length (string_bytes self.now))
            × (out.exit.1.0.now
            ≡ text_own out.entry.pos start (length (string_bytes self.now)))) }
        ensures err { IfErr result
            (IsUnresolved (text_archival string_bytes) self.now start out.entry.pos) }
    {
        let Place { pos, bytes, of: _ } = out;
        fill_text(pos, bytes, start, self.len())
    }

    ghost same_kind = { itself text_kind };

    ghost lawful = { text_laws };

    ghost archived = { text_archived string_bytes };

    ghost causes = { text_causes string_bytes };
}

/// Writes the bytes of a text in one write, with no padding before them, and returns the position where they start. The empty
/// text makes no write.
///
/// # Errors
///
/// `PositionOverflow` if the text would start or end past position 4294967295, and the writer's own. The writer's contents are
/// unchanged after the first.
fn write_text<W: Writer>(text: &str, writer: &mut W) -> Result<u32, Fault<W::Error>>
    ensures ok { IfOk result (Serialises (text_archival (λ bytes. bytes)) text.now
        (W.state writer.old) (W.state writer.new)) }
    ensures err { IfErr result (λ fault.
        IsUnserialised (text_archival (λ bytes. bytes)) text.now (W.state writer.old) fault
        (W.state writer.new)) }
    ensures went { OnOk result (OnlyAppended (W.state writer.old) (W.state writer.new)) }
    ensures kept { OnErr result (BeginsWith (W.state writer.new) (W.state writer.old)) }
{
    let start = writer.pos();
    if start > LAST_END {
        return Err(Fault::PositionOverflow);
    }
    if text.is_empty() {
        return Ok(start as u32);
    }
    put(writer, text.as_bytes())?;
    Ok(start as u32)
}

impl<W: Writer, A: Drop> Serialize<W, A> for String {
    fn serialize(&self, _alloc: A, writer: &mut W) -> Result<u32, Fault<W::Error>> {
        write_text(self.as_str(), writer)
    }
}

impl<'t> Archive for &'t str {
    type Archived = ArchivedText;

    /// The position of the text's first byte.
    type Resolver = u32;

    ghost archival = { text_archival (λ text. text.now) };

    /// Writes what `String` writes.
    fn resolve(&self, start: u32, out: Place<'_, ArchivedText>) -> Result<(), ResolveFault>
        requires { length out.bytes.now ≡ 8 }
        ensures ok { OnOk result
            (FitsText out.entry.pos start (length self.now.now)
            × (out.exit.1.0.now ≡ text_own out.entry.pos start (length self.now.now))) }
        ensures err { IfErr result
            (IsUnresolved (text_archival (λ text. text.now)) self.now start out.entry.pos) }
    {
        let Place { pos, bytes, of: _ } = out;
        fill_text(pos, bytes, start, self.len())
    }

    ghost same_kind = { itself text_kind };

    ghost lawful = { text_laws };

    ghost archived = { text_archived (λ text. text.now) };

    ghost causes = { text_causes (λ text. text.now) };
}

impl<'t, W: Writer, A: Drop> Serialize<W, A> for &'t str {
    fn serialize(&self, _alloc: A, writer: &mut W) -> Result<u32, Fault<W::Error>> {
        write_text(*self, writer)
    }
}

/// A text's bytes, its position and the place determine how it is archived, whichever `String` holds it.
pub fn texts_are_determined()
    ensures { IsDetermined (text_archival (string_bytes {Z = Global})) }
{}
