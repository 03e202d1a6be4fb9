//! Entries in one JSON object.
ghost use Rattle.std.specs.Prelude.{◌≡◌, IfOk, IfErr, IfSome, IfNone, List, map};
ghost use Rattle.std.specs.List.{AllByRecursion};
ghost use Rattle.serde_json.specs.View.{members_view};
ghost use Rattle.btreekv_commands.specs.Building.{last_values};
ghost use Rattle.btreekv_commands.specs.Json.{json_line};
ghost use Rattle.btreekv_commands.specs.JsonObjects.{IsJsonObject, string_members};
ghost use Rattle.btreekv_commands.specs.Lines.{Entry};
ghost use Rattle.btreekv_commands.specs.Opening.{KeysIncrease};
ghost use Rattle.btreekv_commands.specs.Records.{AreUtf8};
ghost use Rattle.btreekv_commands.specs.Texts.{texts_of};

use btreearc_lines::fault::ProgramFault;
use serde_json::{Map, Value};
use std::alloc::Global;

/// States that what is written as a JSON object is read as the same entries, if their keys increase. Of other entries it is read as the
/// last value of each key, in increasing order.
pub fn written_objects_are_read()
    ensures same { (entries : List Entry) → AllByRecursion AreUtf8 entries → KeysIncrease entries →
        IsJsonObject (json_line entries) entries }
    ensures last { (entries : List Entry) → AllByRecursion AreUtf8 entries →
        IsJsonObject (json_line entries) (last_values entries) }
{}

/// Returns the members of an object as entries, or `None` if one is no string.
///
/// # Errors
///
/// `Memory` if an allocation fails.
fn entries_of(
    alloc: Global,
    members: Map<String, Value>,
) -> Result<Option<Vec<(String, String)>>, ProgramFault>
    ensures some { IfOk result (λ found. IfSome found (λ entries.
        members_view members.entries ≡ string_members (map texts_of entries.items))) }
    ensures increase { IfOk result (λ found. IfSome found (λ entries.
        KeysIncrease (map texts_of entries.items))) }
    ensures none { IfOk result (λ found. IfNone found ((entries : List Entry) →
        ¬ (members_view members.entries ≡ string_members entries))) }
    ensures err { IfErr result (λ fault. fault ≡ ProgramFault.Memory) }
{
    let mut entries = Vec::new(alloc);
    for (key, member) in members {
        let Value::String(text) = member else {
            return Ok(None);
        };
        if entries.push((key, text)).is_err() {
            return Err(ProgramFault::Memory);
        }
    }
    Ok(Some(entries))
}

/// Returns the entries of a JSON object, or `None` if the text is none, or a member is no string.
///
/// # Errors
///
/// `Memory` if an allocation fails.
pub fn parse_object(
    alloc: Global,
    text: &[u8],
) -> Result<Option<Vec<(String, String)>>, ProgramFault>
    ensures some { IfOk result (λ found. IfSome found (λ entries.
        IsJsonObject text.now (map texts_of entries.items))) }
    ensures increase { IfOk result (λ found. IfSome found (λ entries.
        KeysIncrease (map texts_of entries.items))) }
    ensures none { IfOk result (λ found. IfNone found ((entries : List Entry) →
        ¬ IsJsonObject text.now entries)) }
    ensures err { IfErr result (λ fault. fault ≡ ProgramFault.Memory) }
{
    match Value::from_slice(alloc, text) {
        Ok(Value::Object(members)) => entries_of(alloc, members),
        Ok(_) => Ok(None),
        Err(error) => {
            if error.is_memory() {
                return Err(ProgramFault::Memory);
            }
            Ok(None)
        }
    }
}
