//! Sources of bytes that are read at a position.
ghost use Rattle.std.specs.Prelude.{◌≡◌, ◌+◌, ◌≤◌, List, Option, Some, None, ℕ, length, IfErr, IfOk, OnOk};
ghost use Rattle.rkyv_btree_portable.specs.Bytes.{bytes_at};
ghost use Rattle.rkyv_btree_source.specs.Known.{Known, AreOf, nothing, whole};

use std::convert::Infallible;
use std::io;
use std::io::{Read, Seek, SeekFrom};

/// A source of bytes, each of which has a position. A lookup needs no more of it.
///
/// An implementation may name its bytes. Where it names them, each read gives those at its position. That a file gives
/// the same bytes twice is the caller's to see to.
pub trait ReadAt {
    /// Why a read fails.
    type Error: Drop;

    /// What is known of the bytes.
    ghost known: { Self → Known } = { λ _. nothing };

    /// An error is one that a source of which this is known gives.
    ghost Fails: { Known → Self.Error → Type 0 } = { λ _ _. Unit {0} };

    /// Returns the number of bytes.
    fn size(&mut self) -> Result<u64, Self::Error>
        ensures value { IfOk result (λ size. (b : List ℕ) → AreOf (known self.old) b →
            size ≡ length b) }
        ensures same { known self.new ≡ known self.old }
        ensures fails { IfErr result (Fails (known self.old)) };

    /// Fills `part` with the bytes from position `pos` on.
    fn read_at(&mut self, pos: u32, part: &mut [u8]) -> Result<(), Self::Error>
        requires { (b : List ℕ) → AreOf (known self.old) b → pos + length part.old ≤ length b }
        ensures gives { OnOk result ((b : List ℕ) → AreOf (known self.old) b →
            part.new ≡ bytes_at b pos (length part.old)) }
        ensures same { known self.new ≡ known self.old }
        ensures fails { IfErr result (Fails (known self.old)) };
}

/// Bytes in memory. Each read copies some of them, and none fails.
impl<'a> ReadAt for &'a [u8] {
    type Error = Infallible;

    ghost known = { λ s. whole s.now };

    fn size(&mut self) -> Result<u64, Infallible> {
        let bytes = *self;
        Ok(bytes.len() as u64)
    }

    fn read_at(&mut self, pos: u32, part: &mut [u8]) -> Result<(), Infallible> {
        let bytes = *self;
        let start = pos as usize;
        part.copy_from_slice(&bytes[start..start + part.len()]);
        Ok(())
    }
}

/// A reader that can seek, as std's `File`, as a source. Each read seeks to its position, and then fills the buffer.
///
/// std's contracts don't say which bytes a file gives, so nothing is known of these here.
#[derive(Drop)]
pub struct SeekSource<F> {
    pub file: F,
}

impl<F: Read + Seek> ReadAt for SeekSource<F> {
    type Error = io::Error;

    fn size(&mut self) -> Result<u64, io::Error> {
        self.file.seek(SeekFrom::End(0))
    }

    fn read_at(&mut self, pos: u32, part: &mut [u8]) -> Result<(), io::Error> {
        self.file.seek(SeekFrom::Start(u64::from(pos)))?;
        self.file.read_exact(part)
    }
}
