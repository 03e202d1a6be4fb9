//! The first levels of an archive's tree, as pieces of the archive.
ghost use Rattle.std.specs.Prelude.{◌≡◌, ◌≤◌, ◌+◌, ◌++◌, ◌∷◌, [], List, IfOk, IfErr, OnOk, length, nat_lt};
ghost use Rattle.rkyv_btree_format.specs.OwnBytes.{own_at};
ghost use Rattle.rkyv_btree_walk.specs.Nodes.{entry_count};
ghost use Rattle.btreekv_commands.specs.Lines.{Entry};
ghost use Rattle.btreekv_commands.specs.Nodes.{text_layout};
ghost use Rattle.btreekv_commands.specs.Opening.{IsArchive, texts};
ghost use Rattle.btreekv_commands.specs.Top.{ArePieces};
ghost use Rattle.btreekv_commands.specs.mirror.Levels.{HasNode, HasTree, joined, key_parts, top_parts, tree_parts};

use crate::nodes::{child, entries_of, key_part, node_part, root_of};
use btreearc_lines::fault::ProgramFault;
use rkyv_btree_portable::check::Window;
use std::alloc::Global;

/// Parts with fewer bytes than this between them are one piece.
const GAP: u64 = 64;

/// The bytes of a map's own, at the end of its archive.
const OWN_LEN: u32 = 8;

/// Adds a part at the end.
fn push(parts: &mut Vec<Window>, part: Window) -> Result<(), ProgramFault>
    ensures ok { OnOk result (parts.new.items ≡ parts.old.items ++ part ∷ []) }
    ensures err { IfErr result (λ fault. fault ≡ ProgramFault.Memory) }
{
    match parts.push(part) {
        Ok(()) => Ok(()),
        Err(_) => Err(ProgramFault::Memory),
    }
}

/// Adds the texts of a node's keys at the end.
fn push_keys(parts: &mut Vec<Window>, archive: &[u8], node: u32) -> Result<(), ProgramFault>
    requires short { length archive.now ≤ 4294967295 }
    requires node { HasNode archive.now node }
    ensures ok { OnOk result (parts.new.items
        ≡ parts.old.items ++ key_parts archive.now node (entry_count text_layout archive.now node)) }
    ensures err { IfErr result (λ fault. fault ≡ ProgramFault.Memory) }
{
    let count = entries_of(archive, node);
    'keys: for index in 0..count {
        push(parts, key_part(archive, node, index))?;
    }
    Ok(())
}

/// Adds the nodes of the first levels of a tree at the end, each with the texts of its keys after it.
fn push_tree(
    parts: &mut Vec<Window>,
    archive: &[u8],
    node: u32,
    levels: u32,
) -> Result<(), ProgramFault>
    requires short { length archive.now ≤ 4294967295 }
    requires tree { HasTree archive.now node }
    ensures ok { OnOk result
        (parts.new.items ≡ parts.old.items ++ tree_parts archive.now levels node) }
    ensures err { IfErr result (λ fault. fault ≡ ProgramFault.Memory) }
{
    if levels == 0 {
        return Ok(());
    }
    push(parts, node_part(archive, node))?;
    push_keys(parts, archive, node)?;
    'children: for index in 0..6 {
        if let Some(below) = child(archive, node, index) {
            push_tree(parts, archive, below, levels - 1)?;
        }
    }
    Ok(())
}

/// Returns the nodes of the first levels of an archive, whose map is at position `pos`, with the texts of their keys, and the map's own
/// bytes.
///
/// # Errors
///
/// `Memory` if an allocation fails.
fn parts_of(
    alloc: Global,
    archive: &[u8],
    pos: u32,
    levels: u32,
) -> Result<Vec<Window>, ProgramFault>
    requires position { pos ≡ own_at texts archive.now }
    requires archive { (m : List Entry) × IsArchive archive.now m }
    ensures ok { IfOk result (λ parts. parts.items ≡ top_parts archive.now levels) }
    ensures err { IfErr result (λ fault. fault ≡ ProgramFault.Memory) }
{
    let mut parts = Vec::new(alloc);
    let own = Window {
        lo: pos,
        hi: pos + OWN_LEN,
    };
    push(&mut parts, own)?;
    if let Some(root) = root_of(archive, pos) {
        push_tree(&mut parts, archive, root, levels)?;
    }
    Ok(parts)
}

/// Returns whether a part begins less than 64 bytes after a piece ends.
fn is_near(piece: Window, part: Window) -> bool
    ensures { result ≡ nat_lt part.lo (piece.hi + 64) }
{
    u64::from(part.lo) < u64::from(piece.hi) + GAP
}

/// Returns parts, which are in order, as pieces.
///
/// # Errors
///
/// `Memory` if an allocation fails.
fn joined(alloc: Global, parts: &[Window]) -> Result<Vec<Window>, ProgramFault>
    ensures ok { IfOk result (λ pieces. pieces.items ≡ joined parts.now) }
    ensures err { IfErr result (λ fault. fault ≡ ProgramFault.Memory) }
{
    let mut pieces = Vec::new(alloc);
    let Some((first, rest)) = parts.split_first() else {
        return Ok(pieces);
    };
    let mut piece = *first;
    'parts: for part in rest {
        if is_near(piece, *part) {
            piece.hi = piece.hi.max(part.hi);
        } else {
            push(&mut pieces, piece)?;
            piece = *part;
        }
    }
    push(&mut pieces, piece)?;
    Ok(pieces)
}

/// Returns pieces of an archive, whose map is at position `pos`, which have the first levels of its tree.
///
/// # Errors
///
/// `Memory` if an allocation fails.
pub(crate) fn pieces_of(
    alloc: Global,
    archive: &[u8],
    pos: u32,
    levels: u32,
) -> Result<Vec<Window>, ProgramFault>
    requires position { pos ≡ own_at texts archive.now }
    requires archive { (m : List Entry) × IsArchive archive.now m }
    ensures ok { IfOk result (λ pieces. ArePieces archive.now levels pieces.items) }
    ensures err { IfErr result (λ fault. fault ≡ ProgramFault.Memory) }
{
    let mut parts = parts_of(alloc, archive, pos, levels)?;
    match parts.sort_by_key(|part| part.lo) {
        Ok(()) => joined(alloc, &parts),
        Err(_) => Err(ProgramFault::Memory),
    }
}
