//! The header of a typed file.
ghost use Rattle.std.specs.Int.{to_le_bytes, w16, w32};
ghost use Rattle.std.specs.Prelude.{◌≡◌, ◌≢◌, ◌↔◌, ◌<◌, ◌≤◌, ◌+◌, ◌-◌, ◌^◌, ◌++◌, ℕ, List, IfErr, IfNone, IfOk, IfSome, IsOk, Some, length};
ghost use Rattle.rkyv_btree_portable.specs.Bytes.{zeros};
ghost use Rattle.rkyv_btree_portable.specs.Rounding.{round_up};
ghost use Rattle.rkyv_btree_typed.specs.TypeHeader.{HasAnyHeader, HasHeader, IsNamed, IsUnheaded, header, header_text, versioned};
ghost use Rattle.rkyv_btree_typed.specs.Stripping.{Strips};

use crate::type_name::strip;
use std::alloc::{AllocError, Global};
use std::error::Error;
use std::fmt;
use std::str::from_utf8;

/// The first bytes of a header, before its version.
const MAGIC: &str = "rkyvbt";

/// The version that is written, and the only one that is read.
const VERSION: u16 = 1;

/// The reason why bytes begin with no header that is read.
#[derive(Clone, Copy, Debug, PartialEq, Eq)]
pub enum HeaderFault {
    /// The bytes begin with no header.
    NoHeader,
    /// The bytes begin as a header of another version does.
    OtherVersion { version: u16 },
}

impl fmt::Display for HeaderFault {
    ghost output = { λ fault. Some (header_text fault) };

    fn fmt<W: fmt::Write>(&self, f: &mut fmt::Formatter<W>) -> fmt::Result {
        match self {
            HeaderFault::NoHeader => write!(f, "there is no type header"),
            HeaderFault::OtherVersion { version } => {
                write!(f, "the type header has version {version}, not 1")
            }
        }
    }
}

impl Error for HeaderFault {}

/// Returns how many zeros come after a name of `len` bytes, up to a multiple of 16.
#[tactic(auto, unfolding(rkyv_btree_portable::specs::Rounding::round_up))]
fn zeros_after(len: usize) -> usize
    requires { len < 2 ^ 32 }
    ensures value { result ≡ round_up (12 + len) 16 - (12 + len) }
    ensures small { result ≤ 15 }
{
    15 - (11 + len) % 16
}

/// Returns the header of a type's name: `rkyvbt` and version 1 in two bytes, the length of the name in four bytes, the name, and
/// zeros up to a multiple of 16. Numbers are little-endian.
///
/// # Errors
///
/// `AllocError` if the memory is refused.
pub fn header_of(alloc: Global, name: &str) -> Result<Vec<u8>, AllocError>
    requires { length name.now < 2 ^ 32 }
    ensures { IfOk result (λ bytes. bytes.items ≡ header name.now) }
{
    let mut bytes = Vec::new(alloc);
    bytes.extend_from_slice(MAGIC.as_bytes())?;
    bytes.extend_from_slice(&VERSION.to_le_bytes())?;
    bytes.extend_from_slice(&(name.len() as u32).to_le_bytes())?;
    bytes.extend_from_slice(name.as_bytes())?;
    bytes.extend_from_slice(&[0; 15][..zeros_after(name.len())])?;
    Ok(bytes)
}

/// Returns the number of the first two bytes, and the bytes after it.
fn take_u16(bytes: &[u8]) -> Option<(u16, &[u8])>
    ensures some { IfSome result (λ taken. bytes.now ≡ to_le_bytes w16 taken.0 ++ taken.1.now) }
    ensures none { IfNone result (length bytes.now < 2) }
{
    if bytes.len() < 2 {
        return None;
    }
    let (number, rest) = bytes.split_at(2);
    Some((u16::from_le_bytes([number[0], number[1]]), rest))
}

/// Returns the number of the first four bytes, and the bytes after it.
fn take_u32(bytes: &[u8]) -> Option<(u32, &[u8])>
    ensures some { IfSome result (λ taken. bytes.now ≡ to_le_bytes w32 taken.0 ++ taken.1.now) }
    ensures none { IfNone result (length bytes.now < 4) }
{
    if bytes.len() < 4 {
        return None;
    }
    let (number, rest) = bytes.split_at(4);
    Some((
        u32::from_le_bytes([number[0], number[1], number[2], number[3]]),
        rest,
    ))
}

/// Returns the version of the header with which bytes begin, and the bytes after it.
fn version_of(bytes: &[u8]) -> Option<(u16, &[u8])>
    ensures some { IfSome result (λ read. bytes.now ≡ versioned read.0 ++ read.1.now) }
    ensures none { IfNone result ((version : ℕ) (rest : List ℕ) → bytes.now ≢ versioned version ++ rest) }
{
    let rest = strip(bytes, MAGIC)?;
    take_u16(rest)
}

/// Returns the name with which bytes begin after their version, if its length comes before it, and zeros after it.
fn name_of(bytes: &[u8]) -> Option<&str>
    ensures some { IfSome result (λ name. IsNamed name.now bytes.now) }
    ensures none { IfNone result ((name : List ℕ) → ¬ IsNamed name bytes.now) }
{
    let (len, rest) = take_u32(bytes)?;
    let len = len as usize;
    if rest.len() < len {
        return None;
    }
    let (name, padding) = rest.split_at(len);
    strip_zeros(padding, zeros_after(len))?;
    from_utf8(name).ok()
}

/// Returns the bytes after `count` zeros, or `None` if they don't begin with so many.
fn strip_zeros(bytes: &[u8], count: usize) -> Option<&[u8]>
    requires { count ≤ 15 }
    ensures { Strips (zeros count) bytes.now result }
{
    bytes.strip_prefix(&[0; 15][..count])
}

/// Returns the name in the header with which bytes begin. Nothing after the header is looked at.
///
/// # Errors
///
/// `OtherVersion` if the bytes begin as a header of another version does. Otherwise `NoHeader` if they don't begin with a header.
pub fn type_name_of(bytes: &[u8]) -> Result<&str, HeaderFault>
    ensures accepts { IsOk result ↔ HasAnyHeader bytes.now }
    ensures name { IfOk result (λ name. HasHeader name.now bytes.now) }
    ensures refuses { IfErr result (IsUnheaded bytes.now) }
{
    let Some((version, rest)) = version_of(bytes) else {
        return Err(HeaderFault::NoHeader);
    };
    if version != VERSION {
        return Err(HeaderFault::OtherVersion { version });
    }
    match name_of(rest) {
        Some(name) => Ok(name),
        None => Err(HeaderFault::NoHeader),
    }
}
