//! The lines of a reader, one after another, as entries.
ghost use Rattle.std.specs.Prelude.{◌≡◌, IfOk, IfErr};
ghost use Rattle.std.specs.Iterator.{at_most};
ghost use Rattle.btreearc_lines.specs.Faults.{IsReadFault};
ghost use Rattle.btreearc_lines.specs.Grammar.{IsEntry};
ghost use Rattle.btreearc_lines.specs.Reading.{GivesItem, ReadsNext, TakesAtHand, TakesLine};

use crate::fault::ProgramFault;
use crate::lines::{LONGEST_LINE, entry_of, first_pair, pair_within};
use crate::streams::{read_fault, read_line};
use std::alloc::Global;
use std::io;
use std::io::{BufRead, ErrorKind};

/// What a reader has next.
#[derive(Clone, Copy, Debug)]
pub enum NextLine {
    /// A line that is an entry.
    Entry((u32, u32)),
    /// A line that is none.
    Bad,
    /// No line.
    End,
}

/// Takes the next line if it is an entry and the reader has all of it at hand, with its line feed. Otherwise nothing is taken.
///
/// # Errors
///
/// Those of the reader. Nothing is taken then.
fn take_at_hand<B: BufRead>(input: &mut B) -> io::Result<Option<(u32, u32)>>
    ensures { TakesAtHand (B.remaining input.old) result (B.remaining input.new) }
{
    let bytes = match input.fill_buf() {
        Ok(bytes) => bytes,
        Err(error) => return Err(error),
    };
    let Some((entry, rest)) = first_pair(bytes) else {
        return Ok(None);
    };
    let Some((first, after)) = rest.split_first() else {
        return Ok(None);
    };
    if *first != b'\n' {
        return Ok(None);
    }
    let count = bytes.len() - after.len();
    input.consume(count);
    Ok(Some(entry))
}

/// Takes the next line as `take_at_hand` does, if the reader has so many bytes at hand that no line of an entry is longer. Otherwise
/// nothing is taken. Most lines are taken here.
///
/// # Errors
///
/// Those of the reader. Nothing is taken then.
#[inline(always)]
fn take_with_room<B: BufRead>(input: &mut B) -> io::Result<Option<(u32, u32)>>
    ensures { TakesAtHand (B.remaining input.old) result (B.remaining input.new) }
{
    let bytes = match input.fill_buf() {
        Ok(bytes) => bytes,
        Err(error) => return Err(error),
    };
    if bytes.len() < LONGEST_LINE {
        return Ok(None);
    }
    let Some((entry, rest)) = pair_within(bytes) else {
        return Ok(None);
    };
    let Some((first, after)) = rest.split_first() else {
        return Ok(None);
    };
    if *first != b'\n' {
        return Ok(None);
    }
    let taken = bytes.len() - after.len();
    input.consume(taken);
    Ok(Some(entry))
}

/// Reads the next line into a buffer, and returns what it is.
///
/// # Errors
///
/// Those of `read_line`.
#[inline(never)]
fn read_whole<B: BufRead>(input: &mut B, line: &mut Vec<u8>) -> Result<NextLine, ProgramFault>
    ensures next { IfOk result (λ next.
        ReadsNext (B.remaining input.old) next (B.remaining input.new)) }
    ensures err { IfErr result IsReadFault }
{
    match read_line(input, line) {
        Ok(true) => {}
        Ok(false) => return Ok(NextLine::End),
        Err(fault) => return Err(fault),
    }
    match entry_of(line) {
        Some(entry) => Ok(NextLine::Entry(entry)),
        None => Ok(NextLine::Bad),
    }
}

/// Reads the next line as `next_line` does, wherever the reader's bytes end.
///
/// # Errors
///
/// Those of `next_line`.
#[inline(never)]
fn next_without_room<B: BufRead>(
    input: &mut B,
    line: &mut Vec<u8>,
) -> Result<NextLine, ProgramFault>
    ensures next { IfOk result (λ next.
        ReadsNext (B.remaining input.old) next (B.remaining input.new)) }
    ensures err { IfErr result IsReadFault }
{
    match take_at_hand(input) {
        Ok(Some(found)) => return Ok(NextLine::Entry(found)),
        Ok(None) => {}
        Err(error) => {
            // `read_line` tries again where a read was interrupted
            if error.kind() != ErrorKind::Interrupted {
                return Err(read_fault(&error));
            }
        }
    }
    read_whole(input, line)
}

/// Reads the next line, and returns what it is. The last line may lack its line feed. `line` is a buffer for lines that the reader
/// doesn't have at hand.
///
/// # Errors
///
/// `Memory` if an allocation fails, and `InputFailed` if a read fails. How much was read isn't known then.
#[inline(always)]
pub fn next_line<B: BufRead>(input: &mut B, line: &mut Vec<u8>) -> Result<NextLine, ProgramFault>
    ensures next { IfOk result (λ next.
        ReadsNext (B.remaining input.old) next (B.remaining input.new)) }
    ensures err { IfErr result IsReadFault }
{
    match take_with_room(input) {
        Ok(Some(entry)) => return Ok(NextLine::Entry(entry)),
        Ok(None) => {}
        Err(error) => {
            // a read that was interrupted is tried again below
            if error.kind() != ErrorKind::Interrupted {
                return Err(read_fault(&error));
            }
        }
    }
    next_without_room(input, line)
}

/// Returns the entry of the next line.
///
/// # Errors
///
/// Those of `next_line`, and `InputFailed` if there is no line or it is no entry.
fn next_entry<B: BufRead>(input: &mut B, line: &mut Vec<u8>) -> Result<(u32, u32), ProgramFault>
    ensures ok { IfOk result (λ x.
        TakesLine (λ line. IsEntry line x) (B.remaining input.old) (B.remaining input.new)) }
    ensures err { IfErr result IsReadFault }
{
    match next_line(input, line) {
        Ok(NextLine::Entry(entry)) => Ok(entry),
        Ok(NextLine::Bad) => Err(ProgramFault::InputFailed),
        Ok(NextLine::End) => Err(ProgramFault::InputFailed),
        Err(fault) => Err(fault),
    }
}

/// The entries of the lines of a reader, of which there are so many. A line is read when its entry is asked for.
#[derive(Drop)]
pub struct Entries<B> {
    input: B,
    left: usize,
    line: Vec<u8>,
}

impl<B: BufRead> Entries<B> {
    /// Returns the entries of the first `count` lines.
    pub fn new(alloc: Global, input: B, count: usize) -> Entries<B>
        ensures input { result.input ≡ input }
        ensures left { result.left ≡ count }
    {
        Entries {
            input,
            left: count,
            line: Vec::new(alloc),
        }
    }
}

impl<B: BufRead + Drop> Iterator for Entries<B> {
    type Item = Result<(u32, u32), ProgramFault>;

    ghost next_gives = { GivesItem IsEntry (λ s. s.left) (λ s. B.remaining s.input) };

    ghost remaining = { λ s. at_most s.left };

    /// Returns the entry of the next line, if fewer than all were returned. A line that was tested before and is no entry now
    /// is `InputFailed`.
    fn next(&mut self) -> Option<Result<(u32, u32), ProgramFault>> {
        if self.left == 0 {
            return None;
        }
        self.left -= 1;
        Some(next_entry(&mut self.input, &mut self.line))
    }
}
