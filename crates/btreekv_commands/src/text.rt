//! Texts that are serialized, each by its bytes.
ghost use Rattle.std.specs.Prelude.{◌≡◌, ◌+◌, ◌≤◌, ◌<◌, ◌↔◌, length, true, false, IfOk, OnOk, IfErr, IsErrOf};
ghost use Rattle.rkyv_btree_writer.specs.Pointers.{FitsOffset};
ghost use Rattle.std.specs.Cmp.Lexicographic.{slice_cmp};
ghost use Rattle.std.specs.Ordering.{nat_cmp};
ghost use Rattle.std.specs.declared.cmp.Ordering.TheVariants.{Less};
ghost use Rattle.rkyv_btree_writer.specs.Archiving.{IsUnresolved, itself};
ghost use Rattle.rkyv_btree_portable.specs.Text.{text_kind};
ghost use Rattle.rkyv_btree_writer.specs.TextArchival.{FitsText, text_own, text_archival};
ghost use Rattle.rkyv_btree_portable.specs.laws.TextLaws.{text_laws};
ghost use Rattle.rkyv_btree_writer.proofs.TextArchived.{text_archived, text_causes};

use rkyv_btree_archive::archive::{Archive, Serialize};
use rkyv_btree_portable::text::ArchivedText;
use rkyv_btree_writer::bounded_writes::{LAST_END, put};
use rkyv_btree_writer::fault::{Fault, ResolveFault};
use rkyv_btree_writer::place::{Place, Writer, write_offset};
use smallvec::SmallVec;
use std::alloc::{AllocError, Global};
use std::marker::Model;

/// A text. A short one takes no memory of the allocator. Its contract knows it by its bytes alone.
#[derive(Drop)]
pub struct Text {
    bytes: SmallVec<u8, 24>,
}

impl Model for Text {
    ghost use Rattle.std.specs.Prelude.{ℕ, List, IsUtf8};

    ghost Value = { List ℕ };

    ghost view = { λ text. text.bytes.items };

    ghost invariant = { λ text. IsUtf8 text.bytes.items };
}

impl Text {
    /// Returns a text of these characters.
    ///
    /// # Errors
    ///
    /// `AllocError` if the allocation fails.
    pub fn from_str(alloc: Global, text: &str) -> Result<Text, AllocError>
        ensures { IfOk result (λ copy. copy ≡ text.now) }
    {
        match SmallVec::from_slice(alloc, text.as_bytes()) {
            Ok(bytes) => Ok(Text { bytes }),
            Err(error) => Err(error),
        }
    }

    /// Returns whether its bytes come before those of another text, byte by byte.
    pub fn is_less(&self, other: &Text) -> bool
        ensures less { result ≡ true → slice_cmp nat_cmp self.now other.now ≡ Less }
        ensures not_less { result ≡ false → ¬ (slice_cmp nat_cmp self.now other.now ≡ Less) }
    {
        self.bytes.as_slice().cmp(other.bytes.as_slice()).is_lt()
    }
}

/// Writes the eight bytes, at `pos`, of a text of `len` bytes that starts at `start`.
fn fill(pos: u32, bytes: &mut [u8], start: u32, len: usize) -> Result<(), ResolveFault>
    requires { length bytes.old ≡ 8 }
    ensures ok { OnOk result (FitsText pos start len × (bytes.new ≡ text_own pos start len)) }
    ensures length { IsErrOf result ResolveFault.LengthOverflow ↔ (4294967295 < len) }
    ensures offset { IsErrOf result ResolveFault.OffsetOverflow → FitsOffset pos start → ⊥ }
{
    let Ok(count) = u32::try_from(len) else {
        return Err(ResolveFault::LengthOverflow);
    };
    let (front, back) = bytes.split_at_mut(4);
    write_offset(pos, start, front)?;
    back.copy_from_slice(&count.to_le_bytes());
    Ok(())
}

impl Archive for Text {
    type Archived = ArchivedText;

    type Resolver = u32;

    ghost archival = { text_archival (λ bytes. bytes) };

    /// Writes what `String` writes.
    fn resolve(&self, start: u32, out: Place<'_, ArchivedText>) -> Result<(), ResolveFault>
        requires size { length out.bytes.now ≡ 8 }
        requires end { out.pos + 8 ≤ 4294967295 }
        ensures ok { OnOk result
            (FitsText out.entry.pos start (length self.now)
            × (out.exit.1.0.now ≡ text_own out.entry.pos start (length self.now))) }
        ensures err { IfErr result
            (IsUnresolved (text_archival (λ bytes. bytes)) self.now start out.entry.pos) }
    {
        let Place { pos, bytes, of: _ } = out;
        fill(pos, bytes, start, self.bytes.len())
    }

    ghost same_kind = { itself text_kind };

    ghost lawful = { text_laws };

    ghost archived = { text_archived (λ bytes. bytes) };

    ghost causes = { text_causes (λ bytes. bytes) };
}

impl<W: Writer, A: Drop> Serialize<W, A> for Text {
    /// Makes the write that `String` makes.
    fn serialize(&self, _alloc: A, writer: &mut W) -> Result<u32, Fault<W::Error>> {
        let start = writer.pos();
        if start > LAST_END {
            return Err(Fault::PositionOverflow);
        }
        if self.bytes.is_empty() {
            return Ok(start as u32);
        }
        put(writer, self.bytes.as_slice())?;
        Ok(start as u32)
    }
}
