//! A source of which some pieces are in memory. A lookup reads these, and returns the part that it lacks.
ghost use Rattle.std.specs.Prelude.{◌≡◌, ◌+◌, ◌≤◌, List, ℕ, Contains, IfSome, None, length};
ghost use Rattle.rkyv_btree_portable.specs.Bytes.{bytes_at};
ghost use Rattle.rkyv_btree_source.specs.declared.piece.Piece.{Piece as Held};
ghost use Rattle.rkyv_btree_source.specs.Known.{AreOf, Covers, IsMissing, IsPiece, pieces};

use crate::piece::{Missing, Piece};
use crate::source::ReadAt;

/// A source of which some pieces are in a buffer, as a file on another machine. A read fails with `Missing` if no piece has the
/// part whole. A piece that goes past the end of the buffer counts for nothing.
#[derive(Clone, Copy)]
pub struct Pieces<'a> {
    /// The number of the source's bytes.
    pub size: u64,
    /// Which bytes of the source are in the buffer, in any order.
    pub pieces: &'a [Piece],
    /// The buffer.
    pub bytes: &'a [u8],
}

/// Returns where the buffer has the `len` bytes from position `pos` of the source on, if one piece has all of them.
fn place_in_piece(piece: Piece, pos: u32, len: u64, bytes_len: u64) -> Option<u64>
    ensures inside { IfSome result (λ start. start + len ≤ bytes_len) }
    ensures same { IfSome result (λ start. (b c : List ℕ) → length c ≡ bytes_len →
        (piece.start + piece.len ≤ length c → IsPiece b c piece) →
        bytes_at c start len ≡ bytes_at b pos len) }
    ensures none { result ≡ None → Covers bytes_len piece pos len → ⊥ }
{
    if pos < piece.pos {
        return None;
    }
    let ahead = pos - piece.pos;
    if u64::from(ahead) > u64::from(piece.len) {
        return None;
    }
    if len > u64::from(piece.len) - u64::from(ahead) {
        return None;
    }
    if u64::from(piece.start) + u64::from(piece.len) > bytes_len {
        return None;
    }
    Some(u64::from(piece.start) + u64::from(ahead))
}

impl<'a> Pieces<'a> {
    /// Returns where the buffer has the `len` bytes from position `pos` on, if one piece has all of them.
    fn place(self, pos: u32, len: u64) -> Option<u64>
        ensures inside { IfSome result (λ start. start + len ≤ length self.entry.bytes.now) }
        ensures same { IfSome result (λ start. (b : List ℕ) →
            AreOf (pieces self.entry.size self.entry.pieces.now self.entry.bytes.now) b →
            bytes_at self.entry.bytes.now start len ≡ bytes_at b pos len) }
        ensures none { result ≡ None → (piece : Held) → Contains self.entry.pieces.now piece →
            Covers (length self.entry.bytes.now) piece pos len → ⊥ }
    {
        let bytes_len = self.bytes.len() as u64;
        'all: for piece in self.pieces {
            let start = place_in_piece(*piece, pos, len, bytes_len);
            if start.is_some() {
                return start;
            }
        }
        None
    }
}

impl<'a> ReadAt for Pieces<'a> {
    type Error = Missing;

    ghost known = { λ s. pieces s.size s.pieces.now s.bytes.now };

    ghost Fails = { IsMissing };

    fn size(&mut self) -> Result<u64, Missing> {
        Ok(self.size)
    }

    /// Copies `part` from the first piece that has it whole.
    ///
    /// # Errors
    ///
    /// `Missing` with the part if no piece has it whole. A part of no bytes is never missing.
    fn read_at(&mut self, pos: u32, part: &mut [u8]) -> Result<(), Missing> {
        let held = *self;
        if part.is_empty() {
            return Ok(());
        }
        let len = part.len() as u64;
        let Some(start) = held.place(pos, len) else {
            return Err(Missing { pos, len });
        };
        let first = start as usize;
        part.copy_from_slice(&held.bytes[first..first + part.len()]);
        Ok(())
    }
}
