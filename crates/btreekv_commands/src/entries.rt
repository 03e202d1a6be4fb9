//! The lines of a reader: counted, and as entries.
ghost use Rattle.std.specs.Prelude.{◌≡◌, length, true, false, IfOk, OnOk, IfErr, IfSome, MatchOption, List};
ghost use Rattle.std.specs.Cmp.Lexicographic.{slice_cmp};
ghost use Rattle.std.specs.Iterator.{at_most};
ghost use Rattle.std.specs.Ordering.{nat_cmp};
ghost use Rattle.std.specs.declared.cmp.Ordering.TheVariants.{Less};
ghost use Rattle.btreekv_commands.specs.Building.{IsOutOfOrderAt, IsReadOrBuildFault};
ghost use Rattle.btreekv_commands.specs.Opening.{KeysIncrease};
ghost use Rattle.btreekv_commands.specs.Lines.{AreLines, Entry};
ghost use Rattle.btreekv_commands.specs.Reading.{GivesEntry, IsCountFault, TakesEntry};
ghost use Rattle.btreearc_lines.specs.Faults.{IsReadFault};

use crate::lines::entry_of;
use crate::text::Text;
use btreearc_lines::fault::ProgramFault;
use btreearc_lines::streams::read_line;
use rkyv_btree_writer::fault::Fault;
use std::alloc::Global;
use std::io::BufRead;

/// Returns how many lines a reader has, if each is an entry.
///
/// # Errors
///
/// `Line` with the number of the first line that is no entry, `InputFailed` if a read fails, and `Memory` if an allocation fails.
pub fn count_lines<B: BufRead>(alloc: Global, input: &mut B) -> Result<usize, ProgramFault>
    ensures ok { IfOk result (λ count. IfSome (B.remaining input.old) (λ bytes.
        (entries : List Entry) × AreLines bytes entries × (count ≡ length entries))) }
    ensures err { IfErr result (IsCountFault (B.remaining input.old)) }
{
    let mut line = Vec::new(alloc);
    for count in 0..usize::MAX {
        match read_line(input, &mut line) {
            Ok(true) => {}
            Ok(false) => return Ok(count),
            Err(fault) => return Err(fault),
        }
        let Some(_) = entry_of(&line) else {
            return Err(ProgramFault::Line(count as u64 + 1));
        };
    }
    Err(ProgramFault::InputFailed)
}

/// Returns the entry of the next line. `line` is a buffer for it.
///
/// # Errors
///
/// `InputFailed` if a read fails, and if there is no line or it is no entry, and `Memory` if an allocation fails.
fn next_entry<B: BufRead>(
    alloc: Global,
    input: &mut B,
    line: &mut Vec<u8>,
) -> Result<(Text, Text), ProgramFault>
    ensures ok { IfOk result (TakesEntry (B.remaining input.old) (B.remaining input.new)) }
    ensures err { IfErr result IsReadFault }
{
    match read_line(input, line) {
        Ok(true) => {}
        Ok(false) => return Err(ProgramFault::InputFailed),
        Err(fault) => return Err(fault),
    }
    let Some((key, value)) = entry_of(line) else {
        return Err(ProgramFault::InputFailed);
    };
    let Ok(key) = Text::from_str(alloc, key) else {
        return Err(ProgramFault::Memory);
    };
    let Ok(value) = Text::from_str(alloc, value) else {
        return Err(ProgramFault::Memory);
    };
    Ok((key, value))
}

/// The entries of the lines of a reader, of which there are so many. A line is read when its entry is asked for.
#[derive(Drop)]
pub struct Entries<B> {
    alloc: Global,
    input: B,
    left: usize,
    line: Vec<u8>,
}

impl<B: BufRead> Entries<B> {
    /// Returns the entries of the first `count` lines.
    pub fn new(alloc: Global, input: B, count: usize) -> Entries<B>
        ensures input { result.input ≡ input }
        ensures left { result.left ≡ count }
    {
        Entries {
            alloc,
            input,
            left: count,
            line: Vec::new(alloc),
        }
    }
}

impl<B: BufRead + Drop> Iterator for Entries<B> {
    type Item = Result<(Text, Text), ProgramFault>;

    ghost next_gives = { GivesEntry (λ s. s.left) (λ s. B.remaining s.input) };

    ghost remaining = { λ s. at_most s.left };

    /// Returns the entry of the next line, if fewer than all were returned. A line that was tested before and is no entry now
    /// is `InputFailed`.
    fn next(&mut self) -> Option<Result<(Text, Text), ProgramFault>> {
        if self.left == 0 {
            return None;
        }
        self.left -= 1;
        Some(next_entry(self.alloc, &mut self.input, &mut self.line))
    }
}

/// Returns whether a key is greater than the last one, if there is a last one.
fn is_next(last: &Option<Text>, key: &Text) -> bool
    ensures greater { result ≡ true →
        IfSome last.now (λ before. slice_cmp nat_cmp before key.now ≡ Less) }
    ensures not_greater { result ≡ false →
        MatchOption last.now ⊥ (λ before. ¬ (slice_cmp nat_cmp before key.now ≡ Less)) }
{
    match last {
        Some(before) => before.is_less(key),
        None => true,
    }
}

/// Checks that the keys of the lines of a reader increase. `count` is the number of lines.
///
/// # Errors
///
/// `NotBuilt` with the index of the first entry whose key isn't greater than the key before it. `InputFailed` if a read fails, a line is
/// no entry or there are fewer lines, and `Memory` if an allocation fails.
pub fn check_order<B: BufRead + Drop>(
    alloc: Global,
    input: B,
    count: usize,
) -> Result<(), ProgramFault>
    ensures ok { OnOk result (IfSome (B.remaining input) (λ bytes. (entries : List Entry) →
        AreLines bytes entries → count ≡ length entries → KeysIncrease entries)) }
    ensures err { IfErr result (IsReadOrBuildFault (λ fault. IfSome (B.remaining input) (λ bytes.
        (entries : List Entry) → AreLines bytes entries → count ≡ length entries →
        IsOutOfOrderAt entries fault))) }
{
    let mut entries = Entries::new(alloc, input, count);
    let mut last = None;
    for index in 0..count {
        match entries.next() {
            None => return Ok(()),
            Some(Err(fault)) => return Err(fault),
            Some(Ok((key, _))) => {
                if !is_next(&last, &key) {
                    let index = index as u64;
                    return Err(ProgramFault::NotBuilt(Fault::OutOfOrder { index }));
                }
                last = Some(key);
            }
        }
    }
    Ok(())
}
