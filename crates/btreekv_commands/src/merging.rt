//! One archive of several, of which the later ones win.
ghost use Rattle.std.specs.Prelude.{List, IfOk, IfErr, OnOk, map};
ghost use Rattle.rkyv_btree_portable.specs.Text.{text_kind};
ghost use Rattle.rkyv_btree_view.specs.View.{entries_of};
ghost use Rattle.btreekv_commands.specs.Lines.{Entry};
ghost use Rattle.btreekv_commands.specs.Opening.{HasFitHeading};
ghost use Rattle.btreekv_commands.specs.Updating.{FailsMerge, FailsNext, IsMerge, IsStrictArchive, IsStrictFile, IsUnwrittenFault, put_over};

use crate::opening::{Texts, open_increasing, strict_map};
use crate::update_fault::UpdateFault;
use btreearc_lines::heading::{Heading, write_heading};
use rkyv_btree_portable::text::ArchivedText;
use rkyv_btree_strict::strict_map::StrictView;
use rkyv_btree_update::update;
use rkyv_btree_writer::place::VecWriter;
use std::alloc::Global;

/// Returns the file of a map's entries put over those of another.
///
/// # Errors
///
/// `NotBuilt` if the entries can't be archived.
#[tactic(auto, using(crate::proofs::Fits::texts_fit))]
fn merged<'a>(
    alloc: Global,
    heading: Heading,
    first: StrictView<'a, ArchivedText, ArchivedText, 5>,
    second: StrictView<'a, ArchivedText, ArchivedText, 5>,
) -> Result<Vec<u8>, UpdateFault>
    ensures ok { IfOk result (λ bytes. IsStrictFile heading bytes.items
        (put_over (entries_of text_kind text_kind 5 first.entry.view)
        (entries_of text_kind text_kind 5 second.entry.view))) }
    ensures err { IfErr result (IsUnwrittenFault heading
        (put_over (entries_of text_kind text_kind 5 first.entry.view)
        (entries_of text_kind text_kind 5 second.entry.view))) }
{
    let mut writer = VecWriter::new(alloc);
    match write_heading::<Texts, VecWriter>(alloc, heading, &mut writer) {
        Ok(()) => {}
        Err(fault) => return Err(UpdateFault::NotBuilt(fault)),
    }
    match update::merge::<ArchivedText, ArchivedText, &str, &str, VecWriter, 5>(
        alloc,
        first,
        second,
        &mut writer,
    ) {
        Ok(_) => Ok(writer.into_vec()),
        Err(fault) => Err(UpdateFault::NotBuilt(fault)),
    }
}

/// Returns the file of the entries of the archive `next`, which is `number` of all, put over those of another one.
///
/// # Errors
///
/// `Archive` with the number and the error of the file `next`, if it isn't an archive whose keys increase, and `NotBuilt` if the entries can't
/// be archived.
fn merge_next(
    alloc: Global,
    heading: Heading,
    so_far: &[u8],
    number: usize,
    next: &[u8],
) -> Result<Vec<u8>, UpdateFault>
    requires { (entries : List Entry) × IsStrictArchive so_far.now entries }
    ensures ok { IfOk result (λ bytes. (entries : List Entry) → IsStrictArchive so_far.now entries →
        (others : List Entry) × IsStrictArchive next.now others
        × IsStrictFile heading bytes.items (put_over entries others)) }
    ensures headed { OnOk result (HasFitHeading next.now) }
    ensures err { IfErr result (λ fault. (entries : List Entry) →
        IsStrictArchive so_far.now entries → FailsNext heading entries number next.now fault) }
{
    let second = match open_increasing(next) {
        Ok((_, second)) => second,
        Err(fault) => return Err(UpdateFault::Archive(number, fault)),
    };
    let first = match strict_map(so_far) {
        Ok(first) => first,
        Err(_) => unreachable!(),
    };
    merged(alloc, heading, first, second)
}

/// Returns the file of the entries of several archives, with a header if the first file has one. Of a key that more than one has, the
/// value is that of the last of these.
///
/// # Errors
///
/// `Archive` with the number, counted from 0, and the error of the first file that isn't an archive whose keys increase. `NotBuilt` if
/// the entries can't be archived, and `Memory` if an allocation fails.
pub fn merge(alloc: Global, first: &[u8], others: &[Vec<u8>]) -> Result<Vec<u8>, UpdateFault>
    ensures ok { IfOk result (λ bytes.
        IsMerge first.now (map (λ other. other.items) others.now) bytes.items) }
    ensures err { IfErr result (FailsMerge first.now (map (λ other. other.items) others.now)) }
{
    let heading = match open_increasing(first) {
        Ok((heading, _)) => heading,
        Err(fault) => return Err(UpdateFault::Archive(0, fault)),
    };
    let Ok(mut so_far) = Vec::from_slice(alloc, first) else {
        return Err(UpdateFault::Memory);
    };
    let mut rest = others;
    while let Some((next, later)) = rest.split_first() {
        let number = others.len() - later.len();
        match merge_next(alloc, heading, so_far.as_slice(), number, next.as_slice()) {
            Ok(more) => so_far = more,
            Err(fault) => return Err(fault),
        }
        rest = later;
    }
    Ok(so_far)
}
