//! New archives of old ones and of changes in lines.
ghost use Rattle.std.specs.Prelude.{◌≡◌, ◌+◌, ◌<◌, ◌^◌, ℕ, IfOk, IfErr, OnOk};
ghost use Rattle.rkyv_btree_portable.specs.Text.{text_kind};
ghost use Rattle.rkyv_btree_update.specs.Updated.{changes_meant};
ghost use Rattle.rkyv_btree_view.specs.View.{entries_of};
ghost use Rattle.btreekv_commands.specs.Changing.{ChangesIncrease};
ghost use Rattle.btreekv_commands.specs.Updating.{FailsChanges, FailsSet, FailsUpdate, IsSet, IsStrictFile, IsUpdate, change_fault, changed_entries};

use crate::changes::read_changes;
use crate::opening::{Texts, open_increasing};
use crate::update_fault::UpdateFault;
use btreearc_lines::heading::{Heading, write_heading};
use rkyv_btree_portable::text::ArchivedText;
use rkyv_btree_strict::strict_map::StrictView;
use rkyv_btree_update::change::Change;
use rkyv_btree_update::update;
use rkyv_btree_writer::fault::Fault;
use rkyv_btree_writer::place::VecWriter;
use std::alloc::{AllocError, Global};

/// Returns the program's fault for one of writing entries after changes. The line of a change out of order is counted from 1.
fn change_fault(fault: Fault<AllocError>) -> UpdateFault
    requires { (index : ℕ) → fault ≡ Fault.OutOfOrder index → index + 1 < 2 ^ 64 }
    ensures { result ≡ change_fault fault }
{
    match fault {
        Fault::OutOfOrder { index } => UpdateFault::OutOfOrder(index + 1),
        Fault::Length(mismatch) => UpdateFault::NotBuilt(Fault::Length(mismatch)),
        Fault::LengthOverflow => UpdateFault::NotBuilt(Fault::LengthOverflow),
        Fault::PositionOverflow => UpdateFault::NotBuilt(Fault::PositionOverflow),
        Fault::OffsetOverflow => UpdateFault::NotBuilt(Fault::OffsetOverflow),
        Fault::Writer(error) => UpdateFault::NotBuilt(Fault::Writer(error)),
        Fault::Memory(error) => UpdateFault::NotBuilt(Fault::Memory(error)),
        Fault::Entry(fault) => UpdateFault::NotBuilt(Fault::Entry(fault)),
    }
}

/// Returns the file of a map's entries after changes.
///
/// # Errors
///
/// `OutOfOrder` with the line of the first change out of order, and `NotBuilt` if the entries can't be archived.
#[tactic(auto, using(crate::proofs::Fits::texts_fit))]
fn changed<'a>(
    alloc: Global,
    heading: Heading,
    map: StrictView<'a, ArchivedText, ArchivedText, 5>,
    changes: &[(&'a str, Change<&'a str>)],
) -> Result<Vec<u8>, UpdateFault>
    ensures ok { IfOk result (λ bytes. IsStrictFile heading bytes.items
        (changed_entries (entries_of text_kind text_kind 5 map.entry.view)
        (changes_meant (λ k. k.now) (λ v. v.now) changes.now))) }
    ensures in_order { OnOk result
        (ChangesIncrease (changes_meant (λ k. k.now) (λ v. v.now) changes.now)) }
    ensures err { IfErr result (FailsChanges heading (entries_of text_kind text_kind 5 map.entry.view)
        (changes_meant (λ k. k.now) (λ v. v.now) changes.now)) }
{
    // The number has 64 bits, so the line's doesn't overflow.
    let _len = changes.len();
    let mut writer = VecWriter::new(alloc);
    match write_heading::<Texts, VecWriter>(alloc, heading, &mut writer) {
        Ok(()) => {}
        Err(fault) => return Err(UpdateFault::NotBuilt(fault)),
    }
    match update::update::<ArchivedText, ArchivedText, &str, &str, VecWriter, 5>(
        alloc,
        map,
        changes,
        &mut writer,
    ) {
        Ok(_) => Ok(writer.into_vec()),
        Err(fault) => Err(change_fault(fault)),
    }
}

/// Returns the file of an archive's entries after the changes of lines, with a header if the old file has one. The keys of the lines must
/// increase, or the lines are sorted: then of equal keys the last one counts.
///
/// # Errors
///
/// `Archive` with the error of a file that isn't an archive whose keys increase, `Line` with the number of the first line that is no change,
/// `OutOfOrder` with that of the first line out of order, `NotBuilt` if the entries can't be archived, and `Memory` if an allocation fails.
pub fn update<'a>(
    alloc: Global,
    is_sorted: bool,
    archive: &'a [u8],
    lines: &'a [u8],
) -> Result<Vec<u8>, UpdateFault>
    ensures ok { IfOk result (λ bytes. IsUpdate is_sorted archive.now lines.now bytes.items) }
    ensures err { IfErr result (FailsUpdate is_sorted archive.now lines.now) }
{
    let (heading, map) = match open_increasing(archive) {
        Ok(opened) => opened,
        Err(fault) => return Err(UpdateFault::Archive(0, fault)),
    };
    let changes = match read_changes(alloc, is_sorted, lines) {
        Ok(changes) => changes,
        Err(fault) => return Err(fault),
    };
    changed(alloc, heading, map, changes.as_slice())
}

/// Returns the file of an archive's entries with one put: the key has the value, and each other key what it had. It has a header if the old
/// file has one.
///
/// # Errors
///
/// `Archive` with the error of a file that isn't an archive whose keys increase, and `NotBuilt` if the entries can't be archived.
pub fn set<'a>(
    alloc: Global,
    archive: &'a [u8],
    key: &'a str,
    value: &'a str,
) -> Result<Vec<u8>, UpdateFault>
    ensures ok { IfOk result (λ bytes. IsSet archive.now key.now value.now bytes.items) }
    ensures err { IfErr result (FailsSet archive.now key.now value.now) }
{
    let (heading, map) = match open_increasing(archive) {
        Ok(opened) => opened,
        Err(fault) => return Err(UpdateFault::Archive(0, fault)),
    };
    changed(alloc, heading, map, &[(key, Change::Put(value))])
}
