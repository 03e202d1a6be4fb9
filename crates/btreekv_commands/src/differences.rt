//! The lines of the changes that lead from one archive to another.
ghost use Rattle.std.specs.Prelude.{◌≡◌, ◌++◌, ℕ, List, false, IfOk, IfErr, OnOk, string_bytes};
ghost use Rattle.std.specs.Iterator.{IsFinite};
ghost use Rattle.std.specs.List.{AllByRecursion};
ghost use Rattle.rkyv_btree_update.specs.Updated.{change_meant};
ghost use Rattle.btreekv_commands.specs.Changing.{AppendsChanges, AreChanges, IsReadBack, TextChange, change_line, changes_text, lent_change};
ghost use Rattle.btreekv_commands.specs.Updating.{FailsDiff, IsDiff, IsStrictArchive, IsUpdate};

use crate::opening::{Texts, open_increasing};
use crate::update_fault::UpdateFault;
use rkyv_btree_portable::text::ArchivedText;
use rkyv_btree_update::change::Change;
use rkyv_btree_update::diff;
use std::alloc::{AllocError, Global};

/// States that the lines of changes are read as these changes, and that an update by the lines of a difference has the list of the new
/// archive. No key of a change may have a tab or a line feed, and no value a line feed.
pub fn differences_are_read()
    ensures read { (changes : List TextChange) → AllByRecursion IsReadBack changes →
        AreChanges (changes_text changes) changes }
    ensures updated { (old new text updated : List ℕ) (d : IsDiff old new text) →
        AllByRecursion IsReadBack d.changes → IsUpdate false old text updated →
        IsStrictArchive updated d.others }
{}

/// Writes a change's line at the end.
///
/// # Errors
///
/// Where the line finds no room.
pub fn write_change(out: &mut String, key: &str, change: Change<&str>) -> Result<(), AllocError>
    ensures { OnOk result (string_bytes out.new ≡ string_bytes out.old
        ++ change_line (key.now, change_meant (λ value. value.now) change.entry)) }
{
    match change {
        Change::Put(value) => writeln!(out, "{key}\t{value}"),
        Change::Delete => writeln!(out, "{key}"),
    }
}

/// Writes a line for each change at the end.
///
/// # Errors
///
/// Where a line finds no room. The lines before it may be written then.
fn write_changes<'a, I: Iterator<Item = (&'a str, Change<&'a str>)>>(
    out: &mut String,
    mut changes: I,
) -> Result<(), AllocError>
    requires can { I.can_next changes }
    requires ends { IsFinite (I.remaining changes) }
    ensures { OnOk result (AppendsChanges I.next_gives lent_change changes out.old out.new) }
{
    while let Some((key, change)) = changes.next() {
        write_change(out, key, change)?;
    }
    Ok(())
}

/// Returns the lines of the changes that lead from one archive to another.
///
/// # Errors
///
/// `Archive` with the number, 0 or 1, and the error of the first file that isn't an archive whose keys increase, and `Memory` if an allocation
/// fails.
#[tactic(auto, using(crate::proofs::Fits::texts_fit))]
pub fn diff(alloc: Global, old: &[u8], new: &[u8]) -> Result<String, UpdateFault>
    ensures ok { IfOk result (λ text. IsDiff old.now new.now (string_bytes text)) }
    ensures err { IfErr result (FailsDiff old.now new.now) }
{
    let from = match open_increasing(old) {
        Ok((_, from)) => from,
        Err(fault) => return Err(UpdateFault::Archive(0, fault)),
    };
    let to = match open_increasing(new) {
        Ok((_, to)) => to,
        Err(fault) => return Err(UpdateFault::Archive(1, fault)),
    };
    let mut text = String::new(alloc);
    let changes = diff::diff::<ArchivedText, ArchivedText, Texts, &str, &str>(from, to);
    match write_changes(&mut text, changes) {
        Ok(()) => Ok(text),
        Err(_) => Err(UpdateFault::Memory),
    }
}
