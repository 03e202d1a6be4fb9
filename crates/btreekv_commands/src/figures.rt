//! How large an archive is, and of what.
ghost use Rattle.std.specs.Prelude.{◌≡◌, ◌≤◌, ◌+◌, ◌++◌, List, length, map, string_bytes, OnOk, IfOk, IfErr};
ghost use Rattle.rkyv_btree_format.specs.OwnBytes.{own_at};
ghost use Rattle.btreekv_commands.specs.Figures.{archive_figures, figures, fill_of, least_levels, lines, rows, size_of};
ghost use Rattle.btreekv_commands.specs.Lines.{Entry};
ghost use Rattle.btreekv_commands.specs.Opening.{IsArchive, texts};

use crate::tree_figures::{TreeFigures, of_archive};
use btreearc_lines::fault::ProgramFault;
use rkyv_btree_shape::height::entries_to_height;
use std::alloc::{AllocError, Global};

/// The number of bytes of an inner node.
const INNER_LEN: u64 = 108;

/// The number of bytes of a leaf.
const LEAF_LEN: u64 = 88;

/// The number of bytes of a map's own.
const MAP_LEN: u64 = 8;

/// Returns the number of levels of the smallest tree of so many entries.
fn least_levels(entries: usize) -> u64
    ensures { result ≡ least_levels entries }
{
    if entries == 0 {
        0
    } else {
        u64::from(entries_to_height::<5>(entries as u64))
    }
}

/// Returns how many of 100 places for entries in so many nodes are taken, rounded down.
fn fill_of(entries: usize, nodes: u64) -> u64
    requires entries { entries ≤ 4294967295 }
    requires nodes { nodes ≤ 4294967295 }
    ensures { result ≡ fill_of entries nodes }
{
    if nodes == 0 {
        0
    } else {
        100 * entries as u64 / (5 * nodes)
    }
}

/// Returns how many bytes of an archive are those of its nodes, its texts and its map.
fn used_by(tree: TreeFigures) -> u64
    requires { size_of tree ≤ 4294967295 }
    ensures { result ≡ size_of tree + 8 }
{
    INNER_LEN * tree.inner_nodes
        + LEAF_LEN * tree.leaves
        + tree.key_bytes
        + tree.value_bytes
        + MAP_LEN
}

/// Returns the names and the numbers of an archive of so many entries and bytes, whose tree has these figures.
fn rows_of(entries: usize, tree: TreeFigures, bytes: usize) -> [(&'static str, u64); 13]
    requires entries { entries ≤ 4294967295 }
    requires room { size_of tree + 8 ≤ bytes }
    requires short { bytes ≤ 4294967295 }
    ensures { map (λ row. (row.0.now, row.1)) result ≡ rows entries tree bytes }
{
    let bytes = bytes as u64;
    [
        ("entries ", entries as u64),
        ("levels ", tree.levels),
        ("least levels ", least_levels(entries)),
        ("inner nodes ", tree.inner_nodes),
        ("leaves ", tree.leaves),
        (
            "fill percent ",
            fill_of(entries, tree.inner_nodes + tree.leaves),
        ),
        ("inner node bytes ", INNER_LEN * tree.inner_nodes),
        ("leaf bytes ", LEAF_LEN * tree.leaves),
        ("key bytes ", tree.key_bytes),
        ("value bytes ", tree.value_bytes),
        ("map bytes ", MAP_LEN),
        ("unused bytes ", bytes - used_by(tree)),
        ("bytes ", bytes),
    ]
}

/// Writes lines of a name and a number at the end.
///
/// # Errors
///
/// `AllocError` if an allocation fails. A beginning of the lines may be written then.
fn write_rows(out: &mut String, rows: &[(&str, u64)]) -> Result<(), AllocError>
    ensures { OnOk result (string_bytes out.new
        ≡ string_bytes out.old ++ lines (map (λ row. (row.0.now, row.1)) rows.now)) }
{
    'rows: for (name, number) in rows {
        writeln!(out, "{name}{number}")?;
    }
    Ok(())
}

/// Returns the lines of an archive of so many entries, whose map is at position `pos`.
///
/// # Errors
///
/// `Memory` if an allocation fails.
pub fn figures_of(
    alloc: Global,
    archive: &[u8],
    pos: u32,
    entries: usize,
) -> Result<String, ProgramFault>
    requires position { pos ≡ own_at texts archive.now }
    requires entries { entries ≤ 4294967295 }
    requires archive { (m : List Entry) × IsArchive archive.now m }
    ensures ok { (m : List Entry) (is : IsArchive archive.now m) → IfOk result (λ text.
        string_bytes text
        ≡ figures entries (archive_figures archive.now m is) (length archive.now)) }
    ensures err { IfErr result (λ fault. fault ≡ ProgramFault.Memory) }
{
    let mut text = String::new(alloc);
    let tree = of_archive(archive, pos);
    match write_rows(&mut text, &rows_of(entries, tree, archive.len())) {
        Ok(()) => Ok(text),
        Err(_) => Err(ProgramFault::Memory),
    }
}
