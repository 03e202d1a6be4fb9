//! Archives of the entries of lines, in any order and in increasing order of their keys.
ghost use Rattle.std.specs.Prelude.{◌≡◌, ℕ, List, length, true, Some, IfOk, OnOk, IfErr};
ghost use Rattle.std.specs.Iterator.{at_most};
ghost use Rattle.rkyv_btree_writing_laws.specs.Whole.{fresh};
ghost use Rattle.btreearc_lines.specs.Faults.{IsReadTry};
ghost use Rattle.btreearc_lines.specs.Grammar.{IsLines};
ghost use Rattle.btreearc_lines.specs.Headings.{IsNamed, begun};
ghost use Rattle.btreearc_lines.specs.declared.heading.Heading.{Heading};
ghost use Rattle.btreearc_commands.specs.Archive.{HasArchive, IsArchived};
ghost use Rattle.btreearc_commands.specs.Opening.{numbers_name};
ghost use Rattle.btreearc_commands.specs.Streaming.{CountsDown, FailsToTest, IsInOrder, IsTried, IsUnfit, OfLines};

use crate::entries::count_lines;
use crate::opening::Numbers;
use btreearc_lines::entries::Entries;
use btreearc_lines::fault::{ProgramFault, in_memory, program_fault};
use btreearc_lines::heading::{Heading, write_heading};
use rkyv_btree_archive::build_map::BuildMap;
use rkyv_btree_archive::try_build::TryFault;
use rkyv_btree_writer::io_writer::IoWriter;
use rkyv_btree_writer::place::{VecWriter, Writer};
use std::alloc::Global;
use std::io;
use std::io::{BufRead, Sink};

/// Serializes the entries of the lines of a reader and then their map, after what a writer holds. `count` is the number of lines.
///
/// # Errors
///
/// `Item` if a read fails, a line is no entry, there are fewer lines, or there is no memory for a line. `Build` if there are more entries
/// than 32 bits can count, the archive would be longer than 4 GiB, a pointer would reach over more than 2 GiB, the writer fails, or
/// there is no memory.
#[tactic(auto, using(crate::proofs::Built::numbers_fit))]
fn serialize_entries<B: BufRead + Drop, W: Writer>(
    alloc: Global,
    heading: Heading,
    count: usize,
    input: B,
    writer: &mut W,
) -> Result<(), TryFault<W::Error, ProgramFault>>
    requires begun { W.state writer.old ≡ begun numbers_name heading }
    requires named { IsNamed numbers_name heading }
    ensures ok { OnOk result (OfLines (B.remaining input) count
        (IsArchived heading (W.state writer.new).contents)) }
    ensures err { IfErr result (λ fault. OfLines (B.remaining input) count
        (λ entries. IsTried heading entries fault)) }
    ensures read { IfErr result IsReadTry }
{
    let items = Entries::new(alloc, input, count);
    let root = match Numbers::try_serialize_from_ordered_iter(alloc, count, items, writer) {
        Ok(root) => root,
        Err(fault) => return Err(fault),
    };
    match Numbers::write_root(count, root, writer) {
        Ok(_) => Ok(()),
        Err(fault) => Err(TryFault::Build(fault)),
    }
}

/// Writes the header, or nothing, and then what `serialize_entries` writes.
///
/// # Errors
///
/// Those of `serialize_entries`, and `Build` if the header isn't written.
pub(crate) fn serialize_lines<B: BufRead + Drop, W: Writer>(
    alloc: Global,
    heading: Heading,
    count: usize,
    input: B,
    writer: &mut W,
) -> Result<(), TryFault<W::Error, ProgramFault>>
    requires { W.state writer.old ≡ fresh }
    ensures ok { OnOk result (OfLines (B.remaining input) count
        (IsArchived heading (W.state writer.new).contents)) }
    ensures err { IfErr result (λ fault. OfLines (B.remaining input) count
        (λ entries. IsTried heading entries fault)) }
    ensures read { IfErr result IsReadTry }
{
    match write_heading::<Numbers, W>(alloc, heading, writer) {
        Ok(()) => serialize_entries(alloc, heading, count, input, writer),
        Err(fault) => Err(TryFault::Build(fault)),
    }
}

/// So many entries, all of which are zeros.
#[derive(Drop)]
struct Zeros {
    left: usize,
}

impl Iterator for Zeros {
    type Item = (u32, u32);

    ghost next_gives = { CountsDown (λ s. s.left) };

    ghost remaining = { λ s. at_most s.left };

    fn next(&mut self) -> Option<(u32, u32)> {
        if self.left == 0 {
            return None;
        }
        self.left -= 1;
        Some((0, 0))
    }
}

/// Returns whether so many entries have an archive for their number alone. Five entries take a node, and a node takes 71 bytes at
/// most with the padding before it. So the archive of 150 million ends before position 2^31, and each pointer reaches.
fn is_small(count: usize) -> bool
    ensures { result ≡ true → (heading : Heading) (entries : List (ℕ × ℕ)) →
        count ≡ length entries → HasArchive heading entries }
{
    count <= 150_000_000
}

/// Tests that so many entries have an archive, whatever they are. If they are many, one of as many zeros is built, and written nowhere.
///
/// # Errors
///
/// `NotBuilt` if they have none.
#[tactic(auto, using(crate::proofs::Built::numbers_fit))]
pub(crate) fn test_count(alloc: Global, heading: Heading, count: usize) -> Result<(), ProgramFault>
    ensures ok { OnOk result ((entries : List (ℕ × ℕ)) → count ≡ length entries →
        HasArchive heading entries) }
    ensures err { IfErr result (IsUnfit heading count) }
{
    if is_small(count) {
        return Ok(());
    }
    let mut writer = IoWriter::new(io::sink());
    match write_heading::<Numbers, IoWriter<Sink>>(alloc, heading, &mut writer) {
        Ok(()) => {}
        Err(fault) => return Err(ProgramFault::NotBuilt(in_memory(fault))),
    }
    let items = Zeros { left: count };
    let root = match Numbers::serialize_from_ordered_iter(alloc, count, items, &mut writer) {
        Ok(root) => root,
        Err(fault) => return Err(ProgramFault::NotBuilt(in_memory(fault))),
    };
    match Numbers::write_root(count, root, &mut writer) {
        Ok(_) => Ok(()),
        Err(fault) => Err(ProgramFault::NotBuilt(in_memory(fault))),
    }
}

/// Returns the archive of the entries of lines, whose keys must increase if it is strict.
///
/// # Errors
///
/// `Line` with the number of the first line that is no entry. `NotBuilt` with the index of the first entry whose key isn't greater than
/// the key before it, if keys must increase; and if there are more entries than 32 bits can count, the archive would be longer than
/// 4 GiB, a pointer would reach over more than 2 GiB, or there is no memory for the archive. `Memory` if there is none for a line.
pub fn archive(
    alloc: Global,
    is_strict: bool,
    heading: Heading,
    text: &[u8],
) -> Result<Vec<u8>, ProgramFault>
    ensures ok { IfOk result (λ bytes. (entries : List (ℕ × ℕ)) × IsLines text.now entries
        × IsInOrder is_strict entries × IsArchived heading bytes.items entries) }
    ensures err { IfErr result (FailsToTest is_strict heading (Some text.now)) }
{
    let mut lines = text;
    let count = match count_lines(alloc, is_strict, &mut lines) {
        Ok(count) => count,
        Err(fault) => return Err(fault),
    };
    let mut writer = VecWriter::new(alloc);
    match serialize_lines(alloc, heading, count, text, &mut writer) {
        Ok(()) => Ok(writer.into_vec()),
        Err(fault) => Err(program_fault(fault)),
    }
}
