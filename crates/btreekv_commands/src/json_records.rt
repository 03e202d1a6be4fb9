//! Entries in JSON objects.
ghost use Rattle.std.specs.Prelude.{◌≡◌, IfOk, IfErr, IfSome, IfNone, nat_eq, option_map, string_bytes};
ghost use Rattle.serde_json.specs.View.{view};
ghost use Rattle.btreekv_commands.specs.JsonRecords.{IsJsonEntry, members_in, text_of};
ghost use Rattle.btreekv_commands.specs.Lines.{Entry};
ghost use Rattle.btreekv_commands.specs.Texts.{texts_of};

use btreearc_lines::fault::ProgramFault;
use serde_json::Value;
use std::alloc::Global;

/// Returns whether a value is an object of two members.
fn has_two_members(value: &Value) -> bool
    ensures { result ≡ nat_eq (members_in (view value.now)) 2 }
{
    match value.as_object() {
        Some(members) => members.len() == 2,
        None => false,
    }
}

/// Returns a copy of the text of a member, or `None` if there is none.
///
/// # Errors
///
/// `Memory` if an allocation fails.
fn text_of(alloc: Global, value: &Value, name: &str) -> Result<Option<String>, ProgramFault>
    ensures ok { IfOk result (λ found.
        option_map string_bytes found ≡ text_of name.now (view value.now)) }
    ensures err { IfErr result (λ fault. fault ≡ ProgramFault.Memory) }
{
    let Some(text) = value.get(name).and_then(Value::as_str) else {
        return Ok(None);
    };
    match String::from_str(alloc, text) {
        Ok(text) => Ok(Some(text)),
        Err(_) => Err(ProgramFault::Memory),
    }
}

/// Returns the key and the value of a JSON object, or `None` if it isn't one of these two texts.
///
/// # Errors
///
/// `Memory` if an allocation fails.
pub(crate) fn json_entry(
    alloc: Global,
    line: &[u8],
) -> Result<Option<(String, String)>, ProgramFault>
    ensures some { IfOk result (λ found. IfSome found (λ e. IsJsonEntry line.now (texts_of e))) }
    ensures none { IfOk result (λ found. IfNone found ((x : Entry) → ¬ IsJsonEntry line.now x)) }
    ensures err { IfErr result (λ fault. fault ≡ ProgramFault.Memory) }
{
    let value = match Value::from_slice(alloc, line) {
        Ok(value) => value,
        Err(error) => {
            if error.is_memory() {
                return Err(ProgramFault::Memory);
            }
            return Ok(None);
        }
    };
    if !has_two_members(&value) {
        return Ok(None);
    }
    let key = match text_of(alloc, &value, "key") {
        Ok(Some(key)) => key,
        Ok(None) => return Ok(None),
        Err(fault) => return Err(fault),
    };
    match text_of(alloc, &value, "value") {
        Ok(Some(value)) => Ok(Some((key, value))),
        Ok(None) => Ok(None),
        Err(fault) => Err(fault),
    }
}
