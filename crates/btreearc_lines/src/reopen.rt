//! Inputs that can be read more than once.
ghost use Rattle.std.specs.Prelude.{◌≡◌, List, ℕ, Option, Some, None, IfOk, IfErr};
ghost use Rattle.btreearc_lines.specs.Faults.{IsReadFault};

use crate::fault::ProgramFault;
use std::fs::File;
use std::io::{BufRead, Seek, SeekFrom};

/// An input that can be read again from its first byte.
pub trait Reopen {
    /// A reader of all of its bytes.
    type Reader: BufRead + Drop;

    /// All of its bytes, where they are known.
    ghost bytes: { Self → Option (List ℕ) };

    /// Returns a reader that stands at the first byte. The readers of before aren't used again.
    ///
    /// # Errors
    ///
    /// `InputFailed` if the input can't be read again, and `Memory` if an allocation fails.
    fn reopen(&self) -> Result<Self::Reader, ProgramFault>
        ensures bytes { IfOk result (λ reader. Self.Reader.remaining reader ≡ bytes self.now) }
        ensures err { IfErr result IsReadFault };
}

impl<'b> Reopen for &'b [u8] {
    type Reader = &'b [u8];

    ghost bytes = { λ s. Some s.now };

    fn reopen(&self) -> Result<&'b [u8], ProgramFault> {
        Ok(*self)
    }
}

/// Returns another handle of an open file, at its first byte. The handles share their position.
///
/// # Errors
///
/// `InputFailed` if the file can't seek.
pub fn from_start(file: &File) -> Result<File, ProgramFault>
    ensures { IfErr result IsReadFault }
{
    let Ok(mut file) = file.try_clone() else {
        return Err(ProgramFault::InputFailed);
    };
    if file.seek(SeekFrom::Start(0)).is_err() {
        return Err(ProgramFault::InputFailed);
    }
    Ok(file)
}
