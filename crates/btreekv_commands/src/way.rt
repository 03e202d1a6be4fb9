//! The way of a lookup in an archive, node by node.
ghost use Rattle.std.specs.Prelude.{◌≡◌, ◌≤◌, IfErr, IfOk};
ghost use Rattle.std.specs.Cmp.Lexicographic.{slice_cmp};
ghost use Rattle.std.specs.Ordering.{nat_cmp};
ghost use Rattle.btreekv_commands.specs.Explaining.{EndsWay, FailsToExplain, found_status};
ghost use Rattle.rkyv_btree_portable.specs.Text.{text_kind};
ghost use Rattle.rkyv_btree_view.specs.Lookup.{found_at};

use crate::escapes::push_escape;
use crate::explaining::{
    ENTRIES, bytes_at, child_slot, count_slot, is_leaf, key_slot, node_of, number_at, target_at,
    value_slot,
};
use crate::opening::{Texts, open};
use btreearc_lines::fault::ProgramFault;
use btreearc_lines::streams::write_all;
use rkyv_btree_view::view::View;
use std::alloc::{AllocError, Global};
use std::cmp::Ordering;
use std::io::Write;
use std::str::from_utf8;

/// How many levels an archive has at most.
const LEVELS: usize = 32;

/// What begins the lines of a node after its first one.
const MARGIN: &str = "          ";

/// Where a lookup goes on after a node.
enum Step {
    /// It has found the entry with this number.
    Found(usize),
    /// It goes to the child with this number, if the node has children.
    Below(usize),
}

/// Returns the bytes of the text whose pointer and length are at a position.
fn text_at(archive: &[u8], slot: u32) -> &[u8] {
    let len = number_at(archive, slot.wrapping_add(4));
    bytes_at(archive, target_at(archive, slot), len)
}

/// Writes a text with escapes at the end, and ends the line.
fn push_text(lines: &mut Vec<u8>, text: &[u8]) -> Result<(), AllocError> {
    if let Ok(text) = from_utf8(text) {
        push_escape(lines, text)?;
    }
    lines.extend_from_slice(b"\n")
}

/// Returns how many entries a node has.
fn entries_in(archive: &[u8], node: u32) -> usize
    ensures { result ≤ 5 }
{
    if is_leaf(archive, node) {
        (number_at(archive, count_slot(node)) as usize).min(ENTRIES)
    } else {
        ENTRIES
    }
}

/// Writes a line for each key of a node that is compared, and returns where the lookup goes on.
fn push_node(
    alloc: Global,
    lines: &mut Vec<u8>,
    archive: &[u8],
    node: u32,
    key: &str,
) -> Result<Step, AllocError> {
    let count = entries_in(archive, node);
    let kind = if is_leaf(archive, node) {
        "leaf"
    } else {
        "inner node"
    };
    let head = format!(in alloc; "{node:08x}  {kind} of {count} entries\n")?;
    lines.extend_from_slice(head.as_bytes())?;
    for index in 0..count {
        let held = text_at(archive, key_slot(node, index));
        let order = held.cmp(key.as_bytes());
        let how = match order {
            Ordering::Less => "is less",
            Ordering::Equal => "is equal",
            Ordering::Greater => "is greater",
        };
        let line = format!(in alloc; "{MARGIN}key {index} {how}: ")?;
        lines.extend_from_slice(line.as_bytes())?;
        push_text(lines, held)?;
        match order {
            Ordering::Less => {}
            Ordering::Equal => return Ok(Step::Found(index)),
            Ordering::Greater => return Ok(Step::Below(index)),
        }
    }
    Ok(Step::Below(count))
}

/// Writes the lines of the value of an entry of a leaf or an inner node at the end.
fn push_value(
    lines: &mut Vec<u8>,
    archive: &[u8],
    node: u32,
    index: usize,
) -> Result<(), AllocError> {
    lines.extend_from_slice(MARGIN.as_bytes())?;
    lines.extend_from_slice(b"its value: ")?;
    push_text(
        lines,
        text_at(archive, value_slot(node, index.min(ENTRIES))),
    )
}

/// Writes the line of a child of an inner node at the end, and returns the child, if it is there.
fn push_child(
    alloc: Global,
    lines: &mut Vec<u8>,
    archive: &[u8],
    node: u32,
    index: usize,
) -> Result<Option<u32>, AllocError> {
    let mut child = None;
    if !is_leaf(archive, node) {
        child = node_of(archive, child_slot(node, index.min(ENTRIES)));
    }
    let line = match child {
        Some(below) => format!(in alloc; "{MARGIN}child {index} is at {below:08x}\n")?,
        None => format!(in alloc; "{MARGIN}the key isn't there\n")?,
    };
    lines.extend_from_slice(line.as_bytes())?;
    Ok(child)
}

/// Returns the lines of the nodes to which a lookup comes from a node on.
fn way_from(alloc: Global, archive: &[u8], root: u32, key: &str) -> Result<Vec<u8>, AllocError> {
    let mut lines = Vec::new(alloc);
    let mut node = root;
    for _ in 0..LEVELS {
        let index = match push_node(alloc, &mut lines, archive, node, key)? {
            Step::Found(index) => {
                push_value(&mut lines, archive, node, index)?;
                return Ok(lines);
            }
            Step::Below(index) => index,
        };
        let Some(below) = push_child(alloc, &mut lines, archive, node, index)? else {
            return Ok(lines);
        };
        node = below;
    }
    Ok(lines)
}

/// Returns 0 if a key is in a map, and else 1.
fn status_of(map: View<'_, Texts>, key: &str) -> u8
    ensures { result ≡ found_status (found_at text_kind text_kind 5 map.entry.buf.now map.entry.pos
        (slice_cmp nat_cmp key.now)) }
{
    if map.contains_by(key) { 0 } else { 1 }
}

/// Writes the way of a lookup: each node to which it comes, the keys there that it compares, and where it goes on or ends. Returns 0 if the key
/// is there, and else 1. Keys and values have escapes. An archive without entries has no way.
///
/// # Errors
///
/// As of `open`, and then nothing is written. `Memory` if an allocation fails, and `OutputFailed` if the writer fails.
pub fn explain_way<W: Write>(
    alloc: Global,
    archive: &[u8],
    key: &str,
    output: &mut W,
) -> Result<u8, ProgramFault>
    ensures ok { IfOk result (λ status. EndsWay archive.now key.now status) }
    ensures err { IfErr result (FailsToExplain archive.now
        (W.contents output.new ≡ W.contents output.old)) }
{
    let map = open(archive)?;
    let status = status_of(map, key);
    if map.len() == 0 {
        return Ok(status);
    }
    let root = target_at(archive, map.pos);
    let Ok(lines) = way_from(alloc, archive, root, key) else {
        return Err(ProgramFault::Memory);
    };
    write_all(output, &lines)?;
    Ok(status)
}
