//! Texts within a line, with escapes of tabs, line feeds and backslashes.
ghost use Rattle.std.specs.Prelude.{◌≡◌, ◌++◌, ◌<◌, ℕ, List, length, IfOk, OnOk, IfSome, IfNone, MatchOption};
ghost use Rattle.btreekv_commands.specs.Escapes.{escape, escape_byte, escape_letter};

use std::alloc::{AllocError, Global};

/// States that different texts have different escapes.
pub fn escapes_are_read()
    ensures { (text other : List ℕ) → escape text ≡ escape other → text ≡ other }
{}

/// Returns the letter of the escape of a byte, if it has one.
fn escape_letter(byte: u8) -> Option<u8>
    ensures { result ≡ escape_letter byte }
{
    match byte {
        b'\t' => Some(b't'),
        b'\n' => Some(b'n'),
        b'\\' => Some(b'\\'),
        _ => None,
    }
}

/// Writes a byte at the end, escaped if it must be.
///
/// # Errors
///
/// `AllocError` if an allocation fails.
fn push_escaped(out: &mut Vec<u8>, byte: u8) -> Result<(), AllocError>
    ensures { OnOk result (out.new.items ≡ out.old.items ++ escape_byte byte) }
{
    match escape_letter(byte) {
        Some(letter) => out.extend_from_slice(&[b'\\', letter]),
        None => out.extend_from_slice(&[byte]),
    }
}

/// Writes the escape of a text at the end.
///
/// # Errors
///
/// `AllocError` if an allocation fails. A beginning of the escape may be written then.
pub fn push_escape(out: &mut Vec<u8>, text: &str) -> Result<(), AllocError>
    ensures { OnOk result (out.new.items ≡ out.old.items ++ escape text.now) }
{
    for byte in text.as_bytes() {
        push_escaped(out, *byte)?;
    }
    Ok(())
}

/// Returns the byte of the letter of an escape, if there is one.
fn byte_of(letter: u8) -> Option<u8>
    ensures some { IfSome result (λ byte. escape_letter byte ≡ Some letter) }
    ensures none { IfNone result ((byte : ℕ) → ¬ (escape_letter byte ≡ Some letter)) }
{
    match letter {
        b't' => Some(b'\t'),
        b'n' => Some(b'\n'),
        b'\\' => Some(b'\\'),
        _ => None,
    }
}

/// Returns the first byte of the text whose escape begins the bytes, and the bytes after it.
fn first_byte(bytes: &[u8]) -> Option<(u8, &[u8])>
    ensures some { IfSome result (λ r. bytes.now ≡ escape_byte r.0 ++ r.1.now) }
    ensures none { IfNone result
        ((byte : ℕ) (after : List ℕ) → ¬ (bytes.now ≡ escape_byte byte ++ after)) }
{
    if bytes.len() == 0 {
        return None;
    }
    let first = bytes[0];
    if first != b'\\' {
        return match escape_letter(first) {
            Some(_) => None,
            None => Some((first, &bytes[1..])),
        };
    }
    if bytes.len() == 1 {
        return None;
    }
    match byte_of(bytes[1]) {
        Some(byte) => Some((byte, &bytes[2..])),
        None => None,
    }
}

/// Returns the text that has an escape, or `None` if no text has it.
///
/// # Errors
///
/// `AllocError` if an allocation fails.
pub fn unescape(alloc: Global, bytes: &[u8]) -> Result<Option<Vec<u8>>, AllocError>
    ensures some { IfOk result (λ found. IfSome found (λ text. escape text.items ≡ bytes.now)) }
    ensures none { IfOk result (λ found. IfNone found
        ((text : List ℕ) → ¬ (escape text ≡ bytes.now))) }
{
    let mut text = Vec::new(alloc);
    let mut rest = bytes;
    while rest.len() > 0 {
        let Some((byte, after)) = first_byte(rest) else {
            return Ok(None);
        };
        text.push(byte)?;
        rest = after;
    }
    Ok(Some(text))
}
