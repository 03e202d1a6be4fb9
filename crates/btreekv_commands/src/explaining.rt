//! The bytes of an archive, each with its meaning.
ghost use Rattle.std.specs.Prelude.{◌≡◌, ◌≤◌, IfErr, List, OnOk, ℕ};
ghost use Rattle.btreekv_commands.specs.Explaining.{FailsToExplain, IsOutputFault};
ghost use Rattle.btreekv_commands.specs.Lines.{Entry};
ghost use Rattle.btreekv_commands.specs.Opening.{IsInput};

use crate::hexadecimal::{byte_digits, digits_of};
use crate::meaning::{Link, Meaning, Part};
use crate::opening::{Texts, open};
use btreearc_lines::fault::ProgramFault;
use btreearc_lines::heading::{Heading, heading_of};
use btreearc_lines::streams::write_all;
use rkyv_btree_format::layout::{key_at, len_at, lesser_at, value_at};
use rkyv_btree_portable::text::ArchivedText;
use std::alloc::{AllocError, Global};
use std::io::Write;

/// How many entries an inner node has, and a leaf at most.
pub(crate) const ENTRIES: usize = 5;

/// How many bytes a line has at most.
const ROW: usize = 8;

/// Where a line has the digits of its first byte: after a position and two spaces.
const DIGITS_AT: usize = 10;

/// Where a line has the meaning: after a space and two digits for each byte, and two spaces more.
const MEANING_AT: usize = 9 + 3 * ROW + 2;

/// After so many bytes the lines are written.
const BLOCK: usize = 65536;

/// Where a header has the length of its name.
const NAME_LEN_AT: u32 = 8;

/// Where a header has its name.
const NAME_AT: u32 = 12;

/// The pointer to no node.
const NO_NODE: u32 = 1;

/// An archive, the lines of it that aren't written yet, and the first position that no line explains.
#[derive(Drop)]
struct Explanation<'a> {
    archive: &'a [u8],
    lines: Vec<u8>,
    next: u32,
}

/// Why lines aren't written. It is smaller than the program's fault, since each line's result has room for one.
#[derive(Clone, Copy)]
enum WriteFault {
    Memory,
    Output,
}

impl From<AllocError> for WriteFault {
    fn from(_error: AllocError) -> WriteFault {
        WriteFault::Memory
    }
}

impl From<WriteFault> for ProgramFault {
    ghost from_gives = { λ _ fault. IsOutputFault fault };

    fn from(fault: WriteFault) -> ProgramFault {
        match fault {
            WriteFault::Memory => ProgramFault::Memory,
            WriteFault::Output => ProgramFault::OutputFailed,
        }
    }
}

/// Returns the bytes of a range, or none if they aren't all there.
pub(crate) fn bytes_at(archive: &[u8], pos: u32, len: u32) -> &[u8] {
    let start = pos as usize;
    match archive.get(start..start + len as usize) {
        Some(bytes) => bytes,
        None => b"",
    }
}

/// Returns the number in the four bytes at a position, or 0 if they aren't there.
pub(crate) fn number_at(archive: &[u8], pos: u32) -> u32 {
    let bytes = bytes_at(archive, pos, 4);
    if bytes.len() < 4 {
        return 0;
    }
    u32::from_le_bytes([bytes[0], bytes[1], bytes[2], bytes[3]])
}

/// Returns the target of the pointer at a position.
pub(crate) fn target_at(archive: &[u8], pos: u32) -> u32 {
    pos.wrapping_add(number_at(archive, pos))
}

/// Returns whether a node is a leaf, by its first byte.
pub(crate) fn is_leaf(archive: &[u8], node: u32) -> bool {
    match bytes_at(archive, node, 1).first() {
        Some(kind) => *kind == 0,
        None => true,
    }
}

/// Writes what comes before the meaning in a line at the end: a position, and the first eight bytes of a row.
fn push_margin(lines: &mut Vec<u8>, pos: u32, row: &[u8]) -> Result<(), AllocError> {
    let start = lines.len();
    lines.extend_from_slice(&[b' '; MEANING_AT])?;
    let margin = &mut lines[start..];
    margin[..8].copy_from_slice(&digits_of(pos));
    for (index, byte) in row.iter().take(ROW).enumerate() {
        let [high, low] = byte_digits(*byte);
        margin[DIGITS_AT + 3 * index] = high;
        margin[DIGITS_AT + 3 * index + 1] = low;
    }
    Ok(())
}

/// Writes a line at the end: a position, up to eight bytes, and their meaning, if it isn't written yet.
fn push_row(
    lines: &mut Vec<u8>,
    pos: u32,
    row: &[u8],
    meaning: Option<Meaning>,
) -> Result<(), AllocError> {
    push_margin(lines, pos, row)?;
    if let Some(meaning) = meaning {
        meaning.push(lines)?;
    }
    lines.extend_from_slice(b"\n")
}

/// Writes the lines to the output, and holds none.
fn flush<W: Write>(out: &mut Explanation<'_>, output: &mut W) -> Result<(), WriteFault> {
    if write_all(output, &out.lines).is_err() {
        return Err(WriteFault::Output);
    }
    out.lines.clear();
    Ok(())
}

/// Adds a line. Many lines are written.
fn write_row<W: Write>(
    out: &mut Explanation<'_>,
    output: &mut W,
    pos: u32,
    row: &[u8],
    meaning: Option<Meaning>,
) -> Result<(), WriteFault> {
    push_row(&mut out.lines, pos, row, meaning)?;
    if out.lines.len() < BLOCK {
        return Ok(());
    }
    flush(out, output)
}

/// Writes the lines of bytes. The first line has their meaning.
fn write<W: Write>(
    out: &mut Explanation<'_>,
    output: &mut W,
    pos: u32,
    len: u32,
    meaning: Meaning,
) -> Result<(), WriteFault> {
    let mut at = pos;
    let mut meaning = Some(meaning);
    let archive = out.archive;
    for row in bytes_at(archive, pos, len).chunks(ROW) {
        write_row(out, output, at, row, meaning.take())?;
        at = at.wrapping_add(row.len() as u32);
    }
    out.next = pos.wrapping_add(len);
    Ok(())
}

/// Writes the lines of the bytes before a position that have no meaning.
fn skip_to<W: Write>(
    out: &mut Explanation<'_>,
    output: &mut W,
    pos: u32,
) -> Result<(), WriteFault> {
    let next = out.next;
    if next >= pos {
        return Ok(());
    }
    write(out, output, next, pos - next, Meaning::Unused)
}

/// Writes the lines of the bytes before a position that have no meaning, and then those of bytes there.
fn write_at<W: Write>(
    out: &mut Explanation<'_>,
    output: &mut W,
    pos: u32,
    len: u32,
    meaning: Meaning,
) -> Result<(), WriteFault> {
    skip_to(out, output, pos)?;
    write(out, output, pos, len, meaning)
}

/// Writes the lines of a text, whose pointer and length are at a position.
fn write_text<W: Write>(
    out: &mut Explanation<'_>,
    output: &mut W,
    slot: u32,
    part: Part,
    index: usize,
    node: u32,
) -> Result<(), WriteFault> {
    let start = target_at(out.archive, slot);
    let len = number_at(out.archive, slot.wrapping_add(4));
    write_at(out, output, start, len, Meaning::Text(part, index, node))
}

/// Writes the lines of a text's pointer and length, which are at a position.
fn write_slot<W: Write>(
    out: &mut Explanation<'_>,
    output: &mut W,
    slot: u32,
    part: Part,
    index: usize,
) -> Result<(), WriteFault> {
    let start = target_at(out.archive, slot);
    let len_slot = slot.wrapping_add(4);
    let len = number_at(out.archive, len_slot);
    write_at(out, output, slot, 4, Meaning::TextStart(part, index, start))?;
    write(out, output, len_slot, 4, Meaning::TextLen(part, index, len))
}

/// Returns where the key of an entry of a node is, by its pointer and length.
#[tactic(auto, using(crate::proofs::Fits::texts_fit))]
pub(crate) fn key_slot(node: u32, index: usize) -> u32
    requires { index ≤ 5 }
{
    node.wrapping_add(key_at::<ArchivedText, ArchivedText, 5>(index))
}

/// Returns where its value is.
#[tactic(auto, using(crate::proofs::Fits::texts_fit))]
pub(crate) fn value_slot(node: u32, index: usize) -> u32
    requires { index ≤ 5 }
{
    node.wrapping_add(value_at::<ArchivedText, ArchivedText, 5>(index))
}

/// Returns where the number of entries of a leaf is.
#[tactic(auto, using(crate::proofs::Fits::texts_fit))]
pub(crate) fn count_slot(node: u32) -> u32 {
    node.wrapping_add(len_at::<ArchivedText, ArchivedText, 5>())
}

/// Returns where a pointer of an inner node is.
#[tactic(auto, using(crate::proofs::Fits::texts_fit))]
pub(crate) fn child_slot(node: u32, index: usize) -> u32
    requires { index ≤ 5 }
{
    node.wrapping_add(lesser_at::<ArchivedText, ArchivedText, 5>(index))
}

/// Writes the lines of the keys and values of a node, and of the node itself.
fn write_entries<W: Write>(
    out: &mut Explanation<'_>,
    output: &mut W,
    node: u32,
    kind: Meaning,
    count: usize,
) -> Result<(), WriteFault>
    requires { count ≤ 5 }
{
    for index in 0..count {
        write_text(out, output, key_slot(node, index), Part::Key, index, node)?;
        write_text(
            out,
            output,
            value_slot(node, index),
            Part::Value,
            index,
            node,
        )?;
    }
    write_at(out, output, node, 1, kind)?;
    for index in 0..count {
        write_slot(out, output, key_slot(node, index), Part::Key, index)?;
    }
    for index in 0..count {
        write_slot(out, output, value_slot(node, index), Part::Value, index)?;
    }
    Ok(())
}

/// Writes the lines of a leaf.
fn write_leaf<W: Write>(
    out: &mut Explanation<'_>,
    output: &mut W,
    node: u32,
) -> Result<(), WriteFault> {
    let slot = count_slot(node);
    let count = number_at(out.archive, slot);
    write_entries(
        out,
        output,
        node,
        Meaning::Leaf,
        (count as usize).min(ENTRIES),
    )?;
    write_at(out, output, slot, 4, Meaning::LeafLen(count))
}

/// Returns the node to which the pointer at a position leads, if there is one.
pub(crate) fn node_of(archive: &[u8], slot: u32) -> Option<u32> {
    if number_at(archive, slot) == NO_NODE {
        return None;
    }
    Some(target_at(archive, slot))
}

/// Writes the line of a pointer to a node.
fn write_pointer<W: Write>(
    out: &mut Explanation<'_>,
    output: &mut W,
    slot: u32,
    link: Link,
) -> Result<(), WriteFault> {
    let node = node_of(out.archive, slot);
    write_at(out, output, slot, 4, Meaning::Pointer(link, node))
}

/// Writes the lines of an inner node.
fn write_inner<W: Write>(
    out: &mut Explanation<'_>,
    output: &mut W,
    node: u32,
) -> Result<(), WriteFault> {
    write_entries(out, output, node, Meaning::InnerNode, ENTRIES)?;
    for index in 0..ENTRIES + 1 {
        write_pointer(out, output, child_slot(node, index), Link::Child(index))?;
    }
    Ok(())
}

/// Writes the lines of a node and of all nodes below it, children before parents.
fn write_tree<W: Write>(
    out: &mut Explanation<'_>,
    output: &mut W,
    node: u32,
) -> Result<(), WriteFault> {
    if is_leaf(out.archive, node) {
        return write_leaf(out, output, node);
    }
    for index in 0..ENTRIES + 1 {
        let Some(child) = node_of(out.archive, child_slot(node, index)) else {
            continue;
        };
        if child < node {
            write_tree(out, output, child)?;
        }
    }
    write_inner(out, output, node)
}

/// Writes the lines of the header of a typed file.
fn write_header<W: Write>(out: &mut Explanation<'_>, output: &mut W) -> Result<(), WriteFault> {
    let len = number_at(out.archive, NAME_LEN_AT);
    write(out, output, 0, NAME_LEN_AT, Meaning::Header)?;
    write(out, output, NAME_LEN_AT, 4, Meaning::NameLen(len))?;
    write(out, output, NAME_AT, len, Meaning::Name)
}

/// Writes the lines of an archive whose map is at a position.
fn write_archive<W: Write>(
    out: &mut Explanation<'_>,
    output: &mut W,
    pos: u32,
) -> Result<(), ProgramFault>
    ensures { IfErr result IsOutputFault }
{
    let len_slot = pos.wrapping_add(4);
    let count = number_at(out.archive, len_slot);
    let root = target_at(out.archive, pos);
    if let Ok(Heading::Typed) = heading_of::<Texts>(out.archive) {
        write_header(out, output)?;
    }
    if count != 0 {
        write_tree(out, output, root)?;
    }
    write_pointer(out, output, pos, Link::Root)?;
    write(out, output, len_slot, 4, Meaning::MapLen(count))?;
    flush(out, output)?;
    Ok(())
}

/// Writes the lines of an archive: the position of each part, its bytes, and their meaning.
///
/// # Errors
///
/// As of `open`, and then nothing is written. `Memory` if an allocation fails, and `OutputFailed` if the writer fails: a part of the
/// lines may be written then.
pub fn explain<W: Write>(alloc: Global, archive: &[u8], output: &mut W) -> Result<(), ProgramFault>
    ensures ok { OnOk result ((entries : List Entry) × IsInput archive.now entries) }
    ensures err { IfErr result (FailsToExplain archive.now
        (W.contents output.new ≡ W.contents output.old)) }
{
    let map = open(archive)?;
    let mut out = Explanation {
        archive,
        lines: Vec::new(alloc),
        next: 0,
    };
    write_archive(&mut out, output, map.pos)
}
