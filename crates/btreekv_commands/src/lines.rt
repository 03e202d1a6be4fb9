//! Entries in lines of a key, a tab and a value.
ghost use Rattle.std.specs.Prelude.{◌≡◌, ◌<◌, ◌++◌, ◌∷◌, length, IfOk, IfErr, IfSome, IfNone, IsUtf8, map};
ghost use Rattle.btreearc_lines.specs.Grammar.{lines};
ghost use Rattle.btreekv_commands.specs.Lines.{AreLines, Entry, IsBadByte, IsEntry, IsLineFault, Lacks};
ghost use Rattle.btreekv_commands.specs.Texts.{texts_of};

use btreearc_lines::fault::ProgramFault;
use std::alloc::Global;
use std::str::from_utf8;

/// Splits bytes around the first of a byte.
pub(crate) fn split_at_first(bytes: &[u8], byte: u8) -> Option<(&[u8], &[u8])>
    ensures found { IfSome result (λ r. bytes.now ≡ r.0.now ++ byte ∷ r.1.now) }
    ensures first { IfSome result (λ r. Lacks byte r.0.now) }
    ensures none { IfNone result (Lacks byte bytes.now) }
{
    for at in 0..bytes.len() {
        if bytes[at] == byte {
            return Some((&bytes[..at], &bytes[at + 1..]));
        }
    }
    None
}

/// Returns the key and the value of a line.
pub(crate) fn entry_of(line: &[u8]) -> Option<(&str, &str)>
    ensures found { IfSome result (λ e. IsEntry line.now (e.0.now, e.1.now)) }
    ensures none { IfNone result ((x : Entry) → ¬ IsEntry line.now x) }
{
    let Some((key, value)) = split_at_first(line, b'\t') else {
        return None;
    };
    let Ok(key) = from_utf8(key) else {
        return None;
    };
    let Ok(value) = from_utf8(value) else {
        return None;
    };
    Some((key, value))
}

/// Returns the first byte of a line that isn't UTF-8, counted from 1, or `None` if all are.
pub fn bad_byte(line: &[u8]) -> Option<u64>
    ensures bad { IfSome result (IsBadByte line.now) }
    ensures none { IfNone result (IsUtf8 line.now) }
{
    match from_utf8(line) {
        Ok(_) => None,
        Err(error) => Some(error.valid_up_to() as u64 + 1),
    }
}

/// Returns the first line, and the bytes after it.
pub(crate) fn first_line(bytes: &[u8]) -> (&[u8], &[u8])
    requires { 0 < length bytes.now }
    ensures lines { lines bytes.now ≡ result.0.now ∷ lines result.1.now }
    ensures shorter { length result.1.now < length bytes.now }
{
    match split_at_first(bytes, b'\n') {
        Some((line, rest)) => (line, rest),
        None => (bytes, b""),
    }
}

/// Returns the entries of the lines, the last of which may lack its line feed.
///
/// # Errors
///
/// `Line` with the number of the first line that is no entry, and `Memory` if an allocation fails.
pub fn parse_lines(alloc: Global, bytes: &[u8]) -> Result<Vec<(String, String)>, ProgramFault>
    ensures ok { IfOk result (λ found. AreLines bytes.now (map texts_of found.items)) }
    ensures err { IfErr result (IsLineFault bytes.now) }
{
    let mut entries = Vec::new(alloc);
    let mut rest = bytes;
    while rest.len() > 0 {
        let (line, after) = first_line(rest);
        let Some((key, value)) = entry_of(line) else {
            return Err(ProgramFault::Line(entries.len() as u64 + 1));
        };
        let Ok(key) = String::from_str(alloc, key) else {
            return Err(ProgramFault::Memory);
        };
        let Ok(value) = String::from_str(alloc, value) else {
            return Err(ProgramFault::Memory);
        };
        if entries.push((key, value)).is_err() {
            return Err(ProgramFault::Memory);
        }
        rest = after;
    }
    Ok(entries)
}
