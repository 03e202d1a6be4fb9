//! Sidecars: pieces of an archive, with which a lookup elsewhere reads little of it.
ghost use Rattle.std.specs.Prelude.{◌≡◌, ◌≤◌, ◌-◌, ◌++◌, [], IfOk, IfErr, OnOk, length, Contains};
ghost use Rattle.std.specs.Int.{to_le_bytes, w32};
ghost use Rattle.sha2.specs.Sha256.{sha256};
ghost use Rattle.rkyv_btree_portable.specs.Bytes.{bytes_at};
ghost use Rattle.rkyv_btree_portable.specs.declared.check.Window.{Window as Part};
ghost use Rattle.btreekv_commands.specs.Commands.{FailsToRead};
ghost use Rattle.btreekv_commands.specs.Opening.{RefusesArchive};
ghost use Rattle.btreekv_commands.specs.Sidecar.{IsSidecar, body, contents, header, places, sidecar};

use crate::opening::open;
use crate::top::pieces_of;
use btreearc_lines::fault::ProgramFault;
use rkyv_btree_portable::check::Window;
use sha2::{Digest, Sha256};
use std::alloc::{AllocError, Global};

/// How a sidecar begins.
const MAGIC: &[u8] = b"btreetop";

/// The version of the format.
const VERSION: u32 = 1;

/// The number of the type of maps of texts to texts.
const TEXT_TO_TEXT: u32 = 9;

/// Returns the SHA-256 of bytes.
fn digest_of(bytes: &[u8]) -> [u8; 32]
    ensures { result ≡ sha256 bytes.now }
{
    let mut hasher = Sha256::new();
    hasher.update(bytes);
    hasher.finalize()
}

/// Writes a number of four bytes at the end.
fn push_number(out: &mut Vec<u8>, number: u32) -> Result<(), AllocError>
    ensures { OnOk result (out.new.items ≡ out.old.items ++ to_le_bytes w32 number) }
{
    out.extend_from_slice(&number.to_le_bytes())
}

/// Writes all that is before the pieces of an archive at the end. `count` is their number.
#[tactic(auto, unfolding(crate::specs::Sidecar::header))]
fn push_header(out: &mut Vec<u8>, archive: &[u8], count: u32) -> Result<(), AllocError>
    ensures { OnOk result (out.new.items ≡ out.old.items ++ header archive.now count) }
{
    out.extend_from_slice(MAGIC)?;
    push_number(out, VERSION)?;
    push_number(out, TEXT_TO_TEXT)?;
    out.extend_from_slice(&(archive.len() as u64).to_le_bytes())?;
    out.extend_from_slice(&digest_of(archive))?;
    push_number(out, 0)?;
    push_number(out, count)
}

/// Writes where each piece begins, and how many bytes it has, at the end.
fn push_places(out: &mut Vec<u8>, pieces: &[Window]) -> Result<(), AllocError>
    requires { (piece : Part) → Contains pieces.now piece → piece.lo ≤ piece.hi }
    ensures { OnOk result (out.new.items ≡ out.old.items ++ places pieces.now) }
{
    'pieces: for piece in pieces {
        push_number(out, piece.lo)?;
        push_number(out, piece.hi - piece.lo)?;
    }
    Ok(())
}

/// Returns the bytes of a piece of an archive.
fn bytes_of(archive: &[u8], piece: Window) -> &[u8]
    requires order { piece.lo ≤ piece.hi }
    requires inside { piece.hi ≤ length archive.now }
    ensures { result.now ≡ bytes_at archive.now piece.lo (piece.hi - piece.lo) }
{
    &archive[piece.lo as usize..piece.hi as usize]
}

/// Writes the bytes of the pieces of an archive at the end.
fn push_contents(out: &mut Vec<u8>, archive: &[u8], pieces: &[Window]) -> Result<(), AllocError>
    requires { (piece : Part) → Contains pieces.now piece →
        (piece.lo ≤ piece.hi) × (piece.hi ≤ length archive.now) }
    ensures { OnOk result (out.new.items ≡ out.old.items ++ contents archive.now pieces.now) }
{
    'pieces: for piece in pieces {
        out.extend_from_slice(bytes_of(archive, *piece))?;
    }
    Ok(())
}

/// Writes all of a sidecar but its checksum at the end.
fn push_body(out: &mut Vec<u8>, archive: &[u8], pieces: &[Window]) -> Result<(), AllocError>
    requires inside { (piece : Part) → Contains pieces.now piece →
        (piece.lo ≤ piece.hi) × (piece.hi ≤ length archive.now) }
    requires few { length pieces.now ≤ 4294967295 }
    ensures { OnOk result (out.new.items ≡ out.old.items ++ body archive.now pieces.now) }
{
    push_header(out, archive, pieces.len() as u32)?;
    push_places(out, pieces)?;
    push_contents(out, archive, pieces)
}

/// Writes the sidecar of pieces of an archive at the end of nothing.
fn push_sidecar(out: &mut Vec<u8>, archive: &[u8], pieces: &[Window]) -> Result<(), AllocError>
    requires inside { (piece : Part) → Contains pieces.now piece →
        (piece.lo ≤ piece.hi) × (piece.hi ≤ length archive.now) }
    requires few { length pieces.now ≤ 4294967295 }
    requires empty { out.old.items ≡ [] }
    ensures { OnOk result (out.new.items ≡ sidecar archive.now pieces.now) }
{
    push_body(out, archive, pieces)?;
    let digest = digest_of(out);
    out.extend_from_slice(&digest)
}

/// Returns the sidecar of an archive: the nodes of the first levels of its tree, and the texts of their keys. A lookup that has it reads
/// no other node of these levels, and no other key there.
///
/// # Errors
///
/// `Refused` with the first error of bytes that are no archive, and `Memory` if an allocation fails.
pub fn sidecar(alloc: Global, levels: u32, archive: &[u8]) -> Result<Vec<u8>, ProgramFault>
    ensures ok { IfOk result (λ bytes. IsSidecar archive.now levels bytes.items) }
    ensures err { IfErr result (FailsToRead RefusesArchive archive.now) }
{
    let map = open(archive)?;
    let pieces = pieces_of(alloc, archive, map.pos, levels)?;
    let mut bytes = Vec::new(alloc);
    match push_sidecar(&mut bytes, archive, &pieces) {
        Ok(()) => Ok(bytes),
        Err(_) => Err(ProgramFault::Memory),
    }
}
