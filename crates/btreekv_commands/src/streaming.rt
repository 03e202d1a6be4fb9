//! Archives of the lines of an input that is read more than once, written as they are built.
ghost use Rattle.std.specs.Prelude.{◌≡◌, ℕ, [], List, Some, None, true, length, IfOk, IfErr, OnOk, IfSome};
ghost use Rattle.rkyv_btree_writer.specs.StdWriters.{AreKnown, HoldsAll};
ghost use Rattle.btreearc_lines.specs.Faults.{IsWriteFault};
ghost use Rattle.btreekv_commands.specs.Building.{IsBuilt, IsOutOfOrderAt, IsReadOrBuildFault, IsUnbuilt};
ghost use Rattle.btreekv_commands.specs.Commands.{Does, Fails};
ghost use Rattle.btreekv_commands.specs.Lines.{AreLines, Entry};
ghost use Rattle.btreekv_commands.specs.Streaming.{IsInOrder, IsTested, build_command};

use crate::building::serialize_lines;
use crate::entries::{check_order, count_lines};
use btreearc_lines::fault::{ProgramFault, program_fault};
use btreearc_lines::heading::Heading;
use btreearc_lines::reopen::Reopen;
use rkyv_btree_writer::io_writer::IoWriter;
use std::alloc::Global;
use std::io;
use std::io::{BufRead, Write};

/// Tests that an archive of the lines of a reader can be built, and writes nothing. `count` is the number of lines.
///
/// # Errors
///
/// `NotBuilt` if it can't, `InputFailed` if a read fails, a line is no entry or there are fewer lines, and `Memory` if an allocation
/// fails.
fn test_build<B: BufRead + Drop>(
    alloc: Global,
    heading: Heading,
    count: usize,
    input: B,
) -> Result<(), ProgramFault>
    ensures ok { OnOk result (IfSome (B.remaining input) (λ bytes. (entries : List Entry) →
        AreLines bytes entries → count ≡ length entries →
        (text : List ℕ) × IsBuilt heading text entries)) }
    ensures err { IfErr result (IsReadOrBuildFault (λ fault. IfSome (B.remaining input) (λ bytes.
        (entries : List Entry) → AreLines bytes entries → count ≡ length entries →
        IsUnbuilt heading entries fault))) }
{
    let mut writer = IoWriter::new(io::sink());
    match serialize_lines(alloc, heading, count, input, &mut writer) {
        Ok(()) => Ok(()),
        Err(fault) => Err(program_fault(fault)),
    }
}

/// Writes the archive of the lines of a reader, and flushes. `count` is the number of lines.
///
/// # Errors
///
/// `OutputFailed` if the archive isn't built or a write fails.
fn write_archive<B: BufRead + Drop, W: Write>(
    alloc: Global,
    heading: Heading,
    count: usize,
    input: B,
    output: W,
) -> (Result<(), ProgramFault>, W)
    requires { IfSome (W.contents output) (λ held. held ≡ []) }
    ensures ok { OnOk result.0 (IfSome (B.remaining input) (λ bytes. (entries : List Entry) →
        AreLines bytes entries → count ≡ length entries →
        (text : List ℕ) × IsBuilt heading text entries × HoldsAll W.contents result.1 text)) }
    ensures err { IfErr result.0 IsWriteFault }
{
    let mut writer = IoWriter::new(output);
    let built = serialize_lines(alloc, heading, count, input, &mut writer);
    let mut output = writer.into_inner();
    match built {
        Ok(()) => {}
        Err(_) => return (Err(ProgramFault::OutputFailed), output),
    }
    match output.flush() {
        Ok(()) => (Ok(()), output),
        Err(_) => (Err(ProgramFault::OutputFailed), output),
    }
}

/// Checks the order of the keys of lines, if they must increase. `count` is the number of lines.
///
/// # Errors
///
/// Those of `check_order`.
fn check_keys<B: BufRead + Drop>(
    alloc: Global,
    is_strict: bool,
    count: usize,
    input: B,
) -> Result<(), ProgramFault>
    ensures ok { OnOk result (IfSome (B.remaining input) (λ bytes. (entries : List Entry) →
        AreLines bytes entries → count ≡ length entries → IsInOrder is_strict entries)) }
    ensures err { IfErr result (IsReadOrBuildFault (λ fault. (is_strict ≡ true)
        × IfSome (B.remaining input) (λ bytes. (entries : List Entry) →
        AreLines bytes entries → count ≡ length entries → IsOutOfOrderAt entries fault))) }
{
    if is_strict {
        check_order(alloc, input, count)
    } else {
        Ok(())
    }
}

/// Counts the lines of an input, if an archive of them can be built.
///
/// # Errors
///
/// `Line` and `NotBuilt` as the command has them, `InputFailed` if a read fails, and `Memory` if an allocation fails.
fn test_lines<R: Reopen>(
    alloc: Global,
    is_strict: bool,
    heading: Heading,
    input: &R,
) -> Result<usize, ProgramFault>
    ensures ok { IfOk result (λ count.
        IfSome (R.bytes input.now) (IsTested is_strict heading count)) }
    ensures err { IfErr result (λ fault. IfSome (R.bytes input.now) (λ bytes.
        Fails (build_command is_strict heading) bytes fault)) }
{
    let mut lines = match input.reopen() {
        Ok(lines) => lines,
        Err(fault) => return Err(fault),
    };
    let count = match count_lines(alloc, &mut lines) {
        Ok(count) => count,
        Err(fault) => return Err(fault),
    };
    let keys = match input.reopen() {
        Ok(keys) => keys,
        Err(fault) => return Err(fault),
    };
    match check_keys(alloc, is_strict, count, keys) {
        Ok(()) => {}
        Err(fault) => return Err(fault),
    }
    let again = match input.reopen() {
        Ok(again) => again,
        Err(fault) => return Err(fault),
    };
    match test_build(alloc, heading, count, again) {
        Ok(()) => Ok(count),
        Err(fault) => Err(fault),
    }
}

/// Writes the file of the lines of an input, and returns the exit status and the output. The lines are read three times, and four times
/// if their keys must increase: they are tested before anything is written, and then read once more. No more than a few of them are
/// held in memory.
///
/// # Errors
///
/// `Line` and `NotBuilt` as the command has them, `InputFailed` if a read fails, and `Memory` if an allocation fails: nothing is
/// written then. `OutputFailed` if the writer fails, or if the input fails, has other lines or finds no memory when it is read for the
/// last time. How much was written isn't known then.
pub fn build<R: Reopen, W: Write>(
    alloc: Global,
    is_strict: bool,
    heading: Heading,
    input: &R,
    output: W,
) -> (Result<u8, ProgramFault>, W)
    requires empty { IfSome (W.contents output) (λ held. held ≡ []) }
    // What the result says of the input.
    ensures result { Does (build_command is_strict heading) (R.bytes input.now) None None result.0 }
    // What a writer holds then, whose bytes are known.
    ensures written { AreKnown W.contents →
        Does (build_command is_strict heading) (R.bytes input.now) (Some [])
        (W.contents result.1) result.0 }
{
    let count = match test_lines(alloc, is_strict, heading, input) {
        Ok(count) => count,
        Err(fault) => return (Err(fault), output),
    };
    let lines = match input.reopen() {
        Ok(lines) => lines,
        Err(fault) => return (Err(fault), output),
    };
    let (written, output) = write_archive(alloc, heading, count, lines, output);
    match written {
        Ok(()) => (Ok(0), output),
        Err(fault) => (Err(fault), output),
    }
}
