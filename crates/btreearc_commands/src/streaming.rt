//! Archives of the lines of an input that is read more than once, written as they are built.
ghost use Rattle.std.specs.Prelude.{◌≡◌, [], Some, None, IfOk, IfErr, OnOk, IfSome};
ghost use Rattle.rkyv_btree_writer.specs.StdWriters.{AreKnown, HoldsAll};
ghost use Rattle.btreearc_lines.specs.Faults.{IsWriteFault};
ghost use Rattle.btreearc_commands.specs.Archive.{archive_of, IsArchived};
ghost use Rattle.btreearc_commands.specs.Streaming.{BuildsSo, FailsToTest, IsTested, OfLines};

use crate::build::{serialize_lines, test_count};
use crate::entries::count_lines;
use btreearc_lines::fault::ProgramFault;
use btreearc_lines::heading::Heading;
use btreearc_lines::reopen::Reopen;
use rkyv_btree_writer::io_writer::IoWriter;
use std::alloc::Global;
use std::io::{BufRead, Write};

/// Counts the lines of an input, if an archive of them can be built.
///
/// # Errors
///
/// `Line` and `NotBuilt` as the command has them, `InputFailed` if a read fails, and `Memory` if an allocation fails.
fn test_lines<R: Reopen>(
    alloc: Global,
    is_strict: bool,
    heading: Heading,
    input: &R,
) -> Result<usize, ProgramFault>
    ensures ok { IfOk result (λ count.
        IfSome (R.bytes input.now) (IsTested is_strict heading count)) }
    ensures err { IfErr result (FailsToTest is_strict heading (R.bytes input.now)) }
{
    let mut lines = match input.reopen() {
        Ok(lines) => lines,
        Err(fault) => return Err(fault),
    };
    let count = match count_lines(alloc, is_strict, &mut lines) {
        Ok(count) => count,
        Err(fault) => return Err(fault),
    };
    match test_count(alloc, heading, count) {
        Ok(()) => Ok(count),
        Err(fault) => Err(fault),
    }
}

/// Writes the archive of the lines of a reader, and flushes. `count` is the number of lines.
///
/// # Errors
///
/// `OutputFailed` if the archive isn't built or a write fails.
fn write_archive<B: BufRead + Drop, W: Write>(
    alloc: Global,
    heading: Heading,
    count: usize,
    input: B,
    output: W,
) -> (Result<(), ProgramFault>, W)
    requires { IfSome (W.contents output) (λ held. held ≡ []) }
    ensures ok { OnOk result.0 (OfLines (B.remaining input) count (λ entries.
        IsArchived heading (archive_of heading entries) entries
        × HoldsAll W.contents result.1 (archive_of heading entries))) }
    ensures err { IfErr result.0 IsWriteFault }
{
    let mut writer = IoWriter::new(output);
    let built = serialize_lines(alloc, heading, count, input, &mut writer);
    let mut output = writer.into_inner();
    match built {
        Ok(()) => {}
        Err(_) => return (Err(ProgramFault::OutputFailed), output),
    }
    match output.flush() {
        Ok(()) => (Ok(()), output),
        Err(_) => (Err(ProgramFault::OutputFailed), output),
    }
}

/// Writes the archive of the lines of an input, and returns the exit status and the output. The lines are read twice: they are tested
/// before anything is written, and then read once more. No more than a few of them are held in memory.
///
/// # Errors
///
/// `Line` and `NotBuilt` as the command has them, `InputFailed` if a read fails, and `Memory` if an allocation fails: nothing is
/// written then. `OutputFailed` if the writer fails, or if the input fails, has other lines or finds no memory when it is read for the
/// last time. How much was written isn't known then.
pub fn build<R: Reopen, W: Write>(
    alloc: Global,
    is_strict: bool,
    heading: Heading,
    input: &R,
    output: W,
) -> (Result<u8, ProgramFault>, W)
    requires empty { IfSome (W.contents output) (λ held. held ≡ []) }
    // What the result says of the input.
    ensures result { BuildsSo is_strict heading (R.bytes input.now) None None result.0 }
    // What a writer holds then, whose bytes are known.
    ensures written { AreKnown W.contents →
        BuildsSo is_strict heading (R.bytes input.now) (Some []) (W.contents result.1) result.0 }
{
    let count = match test_lines(alloc, is_strict, heading, input) {
        Ok(count) => count,
        Err(fault) => return (Err(fault), output),
    };
    let lines = match input.reopen() {
        Ok(lines) => lines,
        Err(fault) => return (Err(fault), output),
    };
    let (written, output) = write_archive(alloc, heading, count, lines, output);
    match written {
        Ok(()) => (Ok(0), output),
        Err(fault) => (Err(fault), output),
    }
}
