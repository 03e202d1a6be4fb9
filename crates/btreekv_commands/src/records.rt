//! Entries in records that aren't plain lines.
ghost use Rattle.std.specs.Prelude.{◌≡◌, ◌<◌, ◌∷◌, ℕ, length, IfOk, IfErr, IfSome, IfNone, IsUtf8, List, map, string_bytes};
ghost use Rattle.std.specs.List.{AllByRecursion};
ghost use Rattle.btreekv_commands.specs.Escapes.{escape};
ghost use Rattle.btreekv_commands.specs.Forms.{text_in};
ghost use Rattle.btreekv_commands.specs.Lines.{Entry};
ghost use Rattle.btreekv_commands.specs.Records.{AreRecords, AreUtf8, IsEscaped, IsNullFree, IsRecord, IsRecordFault, end_of, records};
ghost use Rattle.btreekv_commands.specs.Texts.{texts_of};

use crate::escapes::unescape;
use crate::forms::Form;
use crate::json_records::json_entry;
use crate::lines::{entry_of, split_at_first};
use btreearc_lines::fault::ProgramFault;
use std::alloc::Global;

/// How the records of an input are.
#[derive(Clone, Copy, Debug, PartialEq, Eq)]
pub enum Records {
    /// A key, a tab and a value, with `\t`, `\n` and `\\` for tabs, line feeds and backslashes of each. A line feed ends a record.
    Escaped,
    /// A key, a tab and a value, each as it is. A zero byte ends a record.
    Null,
    /// A JSON object of two members, `key` and `value`, which are strings. A line feed ends a record.
    Json,
}

/// States that what is written in a form is read as the same entries. Escapes and JSON lines are read of all texts, and zero bytes are
/// read as ends of entries that have none.
pub fn written_records_are_read()
    ensures escaped { (entries : List Entry) → AllByRecursion AreUtf8 entries →
        AreRecords Records.Escaped (text_in Form.Escaped entries) entries }
    ensures null { (entries : List Entry) → AllByRecursion IsNullFree entries →
        AreRecords Records.Null (text_in Form.Null entries) entries }
    ensures json { (entries : List Entry) → AllByRecursion AreUtf8 entries →
        AreRecords Records.Json (text_in Form.Json entries) entries }
{}

/// Returns the byte that ends a record.
fn end_of(form: Records) -> u8
    ensures { result ≡ end_of form }
{
    match form {
        Records::Escaped | Records::Json => b'\n',
        Records::Null => 0,
    }
}

/// Returns the first record, and the bytes after it.
fn first_record(bytes: &[u8], end: u8) -> (&[u8], &[u8])
    requires { 0 < length bytes.now }
    ensures records { records end bytes.now ≡ result.0.now ∷ records end result.1.now }
    ensures shorter { length result.1.now < length bytes.now }
{
    match split_at_first(bytes, end) {
        Some((part, rest)) => (part, rest),
        None => (bytes, b""),
    }
}

/// Returns the text that has an escape, or `None` if no text has it.
///
/// # Errors
///
/// `Memory` if an allocation fails.
fn text_of(alloc: Global, bytes: &[u8]) -> Result<Option<String>, ProgramFault>
    ensures some { IfOk result (λ found. IfSome found (λ text.
        escape (string_bytes text) ≡ bytes.now)) }
    ensures utf8 { IfOk result (λ found. IfSome found (λ text. IsUtf8 (string_bytes text))) }
    ensures none { IfOk result (λ found. IfNone found
        ((text : List ℕ) → IsUtf8 text → ¬ (escape text ≡ bytes.now))) }
    ensures err { IfErr result (λ fault. fault ≡ ProgramFault.Memory) }
{
    match unescape(alloc, bytes) {
        Ok(Some(text)) => match String::from_utf8(text) {
            Ok(text) => Ok(Some(text)),
            Err(_) => Ok(None),
        },
        Ok(None) => Ok(None),
        Err(_) => Err(ProgramFault::Memory),
    }
}

/// Returns the key and the value that have escapes with a tab between.
///
/// # Errors
///
/// `Memory` if an allocation fails.
fn escaped_entry(alloc: Global, part: &[u8]) -> Result<Option<(String, String)>, ProgramFault>
    ensures some { IfOk result (λ found. IfSome found (λ e. IsEscaped part.now (texts_of e))) }
    ensures none { IfOk result (λ found. IfNone found
        ((x : Entry) → ¬ IsEscaped part.now x)) }
    ensures err { IfErr result (λ fault. fault ≡ ProgramFault.Memory) }
{
    let Some((key, value)) = split_at_first(part, b'\t') else {
        return Ok(None);
    };
    let key = match text_of(alloc, key) {
        Ok(Some(key)) => key,
        Ok(None) => return Ok(None),
        Err(fault) => return Err(fault),
    };
    match text_of(alloc, value) {
        Ok(Some(value)) => Ok(Some((key, value))),
        Ok(None) => Ok(None),
        Err(fault) => Err(fault),
    }
}

/// Returns the key and the value of a record that are as they are.
///
/// # Errors
///
/// `Memory` if an allocation fails.
fn plain_entry(alloc: Global, part: &[u8]) -> Result<Option<(String, String)>, ProgramFault>
    ensures some { IfOk result (λ found. IfSome found (λ e.
        IsRecord Records.Null part.now (texts_of e))) }
    ensures none { IfOk result (λ found. IfNone found
        ((x : Entry) → ¬ IsRecord Records.Null part.now x)) }
    ensures err { IfErr result (λ fault. fault ≡ ProgramFault.Memory) }
{
    let Some((key, value)) = entry_of(part) else {
        return Ok(None);
    };
    let Ok(key) = String::from_str(alloc, key) else {
        return Err(ProgramFault::Memory);
    };
    match String::from_str(alloc, value) {
        Ok(value) => Ok(Some((key, value))),
        Err(_) => Err(ProgramFault::Memory),
    }
}

/// Returns the key and the value of a record.
///
/// # Errors
///
/// `Memory` if an allocation fails.
fn record_entry(
    alloc: Global,
    form: Records,
    part: &[u8],
) -> Result<Option<(String, String)>, ProgramFault>
    ensures some { IfOk result (λ found. IfSome found (λ e.
        IsRecord form part.now (texts_of e))) }
    ensures none { IfOk result (λ found. IfNone found
        ((x : Entry) → ¬ IsRecord form part.now x)) }
    ensures err { IfErr result (λ fault. fault ≡ ProgramFault.Memory) }
{
    match form {
        Records::Escaped => escaped_entry(alloc, part),
        Records::Null => plain_entry(alloc, part),
        Records::Json => json_entry(alloc, part),
    }
}

/// Returns the entries of the records of an input, the last of which may lack its end.
///
/// # Errors
///
/// `Line` with the number of the first record that is no entry, and `Memory` if an allocation fails.
pub fn parse_records(
    alloc: Global,
    form: Records,
    bytes: &[u8],
) -> Result<Vec<(String, String)>, ProgramFault>
    ensures ok { IfOk result (λ found. AreRecords form bytes.now (map texts_of found.items)) }
    ensures err { IfErr result (IsRecordFault form bytes.now) }
{
    let end = end_of(form);
    let mut entries = Vec::new(alloc);
    let mut rest = bytes;
    while rest.len() > 0 {
        let (part, after) = first_record(rest, end);
        let entry = match record_entry(alloc, form, part) {
            Ok(Some(entry)) => entry,
            Ok(None) => return Err(ProgramFault::Line(entries.len() as u64 + 1)),
            Err(fault) => return Err(fault),
        };
        if entries.push(entry).is_err() {
            return Err(ProgramFault::Memory);
        }
        rest = after;
    }
    Ok(entries)
}
