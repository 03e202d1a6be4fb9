//! Changes in lines: a key, a tab and a value, or a key alone.
ghost use Rattle.std.specs.Prelude.{◌≡◌, true, List, IfOk, IfErr, IfSome, IfNone};
ghost use Rattle.rkyv_btree_update.specs.Updated.{change_meant, changes_meant};
ghost use Rattle.btreekv_commands.specs.Changing.{AreChanges, IsChange, IsChangeFault, TextChange, counted};

use crate::lines::{entry_of, first_line, split_at_first};
use crate::update_fault::UpdateFault;
use rkyv_btree_update::change::Change;
use std::alloc::Global;
use std::collections::BTreeMap;
use std::str::from_utf8;

/// Returns the change of a line.
fn change_of(line: &[u8]) -> Option<(&str, Change<&str>)>
    ensures found { IfSome result (λ c. IsChange line.now (c.0.now, change_meant (λ v. v.now) c.1)) }
    ensures none { IfNone result ((c : TextChange) → ¬ IsChange line.now c) }
{
    let Some(_) = split_at_first(line, b'\t') else {
        let Ok(key) = from_utf8(line) else {
            return None;
        };
        return Some((key, Change::Delete));
    };
    let Some((key, value)) = entry_of(line) else {
        return None;
    };
    Some((key, Change::Put(value)))
}

/// Returns the changes of the lines, the last of which may lack its line feed.
///
/// # Errors
///
/// `Line` with the number of the first line that is no change, and `Memory` if an allocation fails.
pub fn parse_changes(alloc: Global, bytes: &[u8]) -> Result<Vec<(&str, Change<&str>)>, UpdateFault>
    ensures ok { IfOk result (λ found.
        AreChanges bytes.now (changes_meant (λ k. k.now) (λ v. v.now) found.items)) }
    ensures err { IfErr result (IsChangeFault bytes.now) }
{
    let mut changes = Vec::new(alloc);
    let mut rest = bytes;
    while rest.len() > 0 {
        let (line, after) = first_line(rest);
        let Some(change) = change_of(line) else {
            return Err(UpdateFault::Line(changes.len() as u64 + 1));
        };
        if changes.push(change).is_err() {
            return Err(UpdateFault::Memory);
        }
        rest = after;
    }
    Ok(changes)
}

/// Returns the std map of changes. Of equal keys the last change counts.
///
/// # Errors
///
/// `Memory` if an allocation fails.
fn sorted<'a>(
    alloc: Global,
    changes: Vec<(&'a str, Change<&'a str>)>,
) -> Result<BTreeMap<&'a str, Change<&'a str>>, UpdateFault>
    ensures ok { IfOk result (λ map. changes_meant (λ k. k.now) (λ v. v.now) map.entries
        ≡ counted true (changes_meant (λ k. k.now) (λ v. v.now) changes.entry.items)) }
    ensures err { IfErr result (λ fault. fault ≡ UpdateFault.Memory) }
{
    let mut sorted = BTreeMap::new(alloc);
    for (key, change) in changes {
        match sorted.insert(key, change) {
            Ok(_) => {}
            Err(_) => return Err(UpdateFault::Memory),
        }
    }
    Ok(sorted)
}

/// Returns the entries of a std map as a list.
///
/// # Errors
///
/// `Memory` if an allocation fails.
fn listed<'a>(
    alloc: Global,
    map: BTreeMap<&'a str, Change<&'a str>>,
) -> Result<Vec<(&'a str, Change<&'a str>)>, UpdateFault>
    ensures ok { IfOk result (λ list. list.items ≡ map.entry.entries) }
    ensures err { IfErr result (λ fault. fault ≡ UpdateFault.Memory) }
{
    let mut list = Vec::new(alloc);
    for (key, change) in map {
        if list.push((key, change)).is_err() {
            return Err(UpdateFault::Memory);
        }
    }
    Ok(list)
}

/// Returns the changes of lines; or, if they are to be sorted, these sorted by key, and of equal keys the last.
///
/// # Errors
///
/// `Line` with the number of the first line that is no change, and `Memory` if an allocation fails.
pub(crate) fn read_changes(
    alloc: Global,
    is_sorted: bool,
    bytes: &[u8],
) -> Result<Vec<(&str, Change<&str>)>, UpdateFault>
    ensures ok { IfOk result (λ found. (read : List TextChange) × AreChanges bytes.now read
        × (changes_meant (λ k. k.now) (λ v. v.now) found.items ≡ counted is_sorted read)) }
    ensures err { IfErr result (IsChangeFault bytes.now) }
{
    let changes = match parse_changes(alloc, bytes) {
        Ok(changes) => changes,
        Err(fault) => return Err(fault),
    };
    if !is_sorted {
        return Ok(changes);
    }
    match sorted(alloc, changes) {
        Ok(map) => listed(alloc, map),
        Err(fault) => Err(fault),
    }
}
