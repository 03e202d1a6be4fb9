//! All bytes of a reader, and to a writer.
ghost use Rattle.std.specs.Prelude.{◌≡◌, IfOk, OnOk, IfErr, IfSome};
ghost use Rattle.std.specs.Io.KnownBytes.{Appends, IsAtEnd};
ghost use Rattle.std.specs.Io.BufRead.{strip_last};
ghost use Rattle.btreearc_lines.specs.Faults.{IsReadFault, IsWriteFault};
ghost use Rattle.btreearc_lines.specs.Reading.{ReadsLine};

use crate::fault::ProgramFault;
use std::alloc::Global;
use std::io::{BufRead, Error, ErrorKind, Read, Write};

/// Reads to the end.
///
/// # Errors
///
/// `Memory` where the bytes find no room, and `InputFailed` where a read failed. How much was read isn't known then.
pub fn read_all<R: Read>(alloc: Global, input: &mut R) -> Result<Vec<u8>, ProgramFault>
    ensures all { IfOk result (λ bytes. IfSome (R.remaining input.old) (λ xs. bytes.items ≡ xs)) }
    ensures end { OnOk result (IsAtEnd (R.remaining input.new)) }
    ensures err { IfErr result IsReadFault }
{
    let mut bytes = Vec::new(alloc);
    match input.read_to_end(&mut bytes) {
        Ok(_) => Ok(bytes),
        Err(error) => Err(read_fault(&error)),
    }
}

/// Returns the fault of a read that failed.
pub fn read_fault(error: &Error) -> ProgramFault
    ensures { IsReadFault result }
{
    if error.kind() == ErrorKind::OutOfMemory {
        ProgramFault::Memory
    } else {
        ProgramFault::InputFailed
    }
}

/// Removes the last byte if it is a line feed.
fn remove_line_feed(line: &mut Vec<u8>)
    ensures { line.new.items ≡ strip_last 10 line.old.items }
{
    let len = line.len();
    if len == 0 {
        return;
    }
    if line[len - 1] != b'\n' {
        return;
    }
    line.truncate(len - 1);
}

/// Reads the next line into a buffer, in place of its old bytes and without the line feed, and returns whether there is one. The
/// last line may lack its line feed.
///
/// # Errors
///
/// `Memory` if an allocation fails, and `InputFailed` if a read fails. How much was read isn't known then.
pub fn read_line<R: BufRead>(input: &mut R, line: &mut Vec<u8>) -> Result<bool, ProgramFault>
    ensures line { IfOk result (λ is_line.
        ReadsLine (R.remaining input.old) is_line line.new.items (R.remaining input.new)) }
    ensures err { IfErr result IsReadFault }
{
    line.clear();
    match input.read_until(b'\n', line) {
        Ok(count) => {
            if count == 0 {
                return Ok(false);
            }
        }
        Err(error) => return Err(read_fault(&error)),
    }
    remove_line_feed(line);
    Ok(true)
}

/// Writes all of the bytes.
///
/// # Errors
///
/// `OutputFailed` where a write failed. How much was written isn't known then.
pub fn write_all<W: Write>(output: &mut W, bytes: &[u8]) -> Result<(), ProgramFault>
    ensures all { OnOk result (Appends (W.contents output.old) (W.contents output.new) bytes.now) }
    ensures err { IfErr result IsWriteFault }
{
    match output.write_all(bytes) {
        Ok(()) => Ok(()),
        Err(_) => Err(ProgramFault::OutputFailed),
    }
}
