//! Reads from a source, up to a number of bytes.
ghost use Rattle.std.specs.Prelude.{◌≡◌, ◌+◌, ◌≤◌, ◌<◌, List, ℕ, Some, length, IfOk, IfErr, OnOk};
ghost use Rattle.rkyv_btree_portable.specs.Bytes.{bytes_at};
ghost use Rattle.rkyv_btree_source.specs.Reading.{IfRead, IsOfReading};
ghost use Rattle.rkyv_btree_source.specs.Known.{AreOf};

use crate::fault::SourceFault;
use crate::source::ReadAt;

/// A source, and how many more bytes of it may be read.
#[derive(Drop)]
pub struct Reader<S> {
    pub source: S,
    pub left: u64,
}

impl<S: ReadAt> Reader<S> {
    /// Returns the number of the source's bytes. No byte is read.
    ///
    /// # Errors
    ///
    /// `Read` with the source's own error.
    pub fn size(&mut self) -> Result<u64, SourceFault<S::Error>>
        ensures value { IfOk result (λ size. (b : List ℕ) → AreOf (S.known self.old.source) b →
            size ≡ length b) }
        ensures same { S.known self.new.source ≡ S.known self.old.source }
        ensures fails { IfErr result (IfRead (S.Fails (S.known self.old.source))) }
        ensures left { self.new.left ≡ self.old.left }
        ensures fault { IfErr result (IsOfReading ⊥) }
    {
        match self.source.size() {
            Ok(size) => Ok(size),
            Err(error) => Err(SourceFault::Read(error)),
        }
    }

    /// Fills `part` with the bytes from position `pos` on.
    ///
    /// # Errors
    ///
    /// `OverBudget` if `part` is longer than what is left of the budget, which is then unchanged. `Read` if the source fails; its
    /// bytes count as read then.
    pub fn read(&mut self, pos: u32, part: &mut [u8]) -> Result<(), SourceFault<S::Error>>
        requires { (b : List ℕ) → AreOf (S.known self.old.source) b →
            pos + length part.old ≤ length b }
        ensures gives { OnOk result ((b : List ℕ) → AreOf (S.known self.old.source) b →
            part.new ≡ bytes_at b pos (length part.old)) }
        ensures same { S.known self.new.source ≡ S.known self.old.source }
        ensures fails { IfErr result (IfRead (S.Fails (S.known self.old.source))) }
        ensures counts { OnOk result (self.old.left ≡ self.new.left + length part.old) }
        ensures left { self.new.left ≤ self.old.left }
        ensures spent { self.old.left ≤ self.new.left + length part.old }
        // A read that fails takes its bytes of the budget too.
        ensures failed { IfErr result (IfRead (λ _.
            self.old.left ≡ self.new.left + length part.old)) }
        ensures fault { IfErr result (IsOfReading
            ((self.old.left < length part.old) × (self.new.left ≡ self.old.left))) }
    {
        let len = part.len() as u64;
        if self.left < len {
            return Err(SourceFault::OverBudget);
        }
        self.left -= len;
        match self.source.read_at(pos, part) {
            Ok(()) => Ok(()),
            Err(error) => Err(SourceFault::Read(error)),
        }
    }
}
