//! Opening archives that anybody wrote.
ghost use Rattle.std.specs.Prelude.{◌≡◌, IfOk, IfErr, OnOk};
ghost use Rattle.btreearc_lines.specs.Headings.{IsHeaded};
ghost use Rattle.rkyv_btree_portable.specs.Text.{text_kind};
ghost use Rattle.rkyv_btree_format.specs.OwnBytes.{own_at};
ghost use Rattle.rkyv_btree_view.specs.View.{entries_of};
ghost use Rattle.btreekv_commands.specs.Opening.{texts, texts_name, CountsStrict, HasFitHeading, IsArchive, IsOpenFault, RefusesArchive, RefusesStrictArchive};
ghost use Rattle.btreekv_commands.specs.Updating.{IsStrictArchive, RefusesStrictFile};

use btreearc_lines::fault::ProgramFault;
use btreearc_lines::heading::{Heading, HeadingFault, heading_of};
use rkyv_btree_convert::from_archive as whole;
use rkyv_btree_portable::refusal::Refusal;
use rkyv_btree_portable::text::ArchivedText;
use rkyv_btree_strict::strict::open_strict;
use rkyv_btree_strict::strict_map::StrictView;
use rkyv_btree_types::map::ArchivedBTreeMap;
use rkyv_btree_view::view::View;

/// The maps that the program archives.
pub type Texts = ArchivedBTreeMap<ArchivedText, ArchivedText, 5>;

/// Why a file isn't opened as an archive whose keys increase.
#[derive(Debug, Drop)]
pub enum ArchiveFault {
    /// It begins with a header that isn't the one of the program's type.
    Misheaded(HeadingFault),
    /// The first error of bytes that are no such archive.
    Refused(Refusal),
}

/// Returns the map of an archive.
///
/// # Errors
///
/// `Misheaded` if another header than that of the program's type comes first, and `Refused` with the first error of bytes that are no
/// archive.
#[tactic(auto, using(crate::proofs::Fits::texts_fit))]
pub fn open(archive: &[u8]) -> Result<View<'_, Texts>, ProgramFault>
    ensures buffer { IfOk result (λ map. map.buf.now ≡ archive.now) }
    ensures position { IfOk result (λ map. map.pos ≡ own_at texts archive.now) }
    ensures headed { OnOk result (HasFitHeading archive.now) }
    ensures accepted { IfOk result (λ map.
        IsArchive archive.now (entries_of text_kind text_kind 5 map)) }
    ensures err { IfErr result (IsOpenFault RefusesArchive archive.now) }
{
    match heading_of::<Texts>(archive) {
        Ok(_) => {}
        Err(fault) => return Err(ProgramFault::Misheaded(fault)),
    }
    match whole::open::<Texts>(archive) {
        Ok(map) => Ok(map),
        Err(refusal) => Err(ProgramFault::Refused(refusal)),
    }
}

/// Returns the number of entries of an archive whose keys increase.
///
/// # Errors
///
/// As of `open`, and `Refused` with the first entry whose key isn't greater than the key before it.
#[tactic(auto, using(crate::proofs::Fits::texts_fit))]
pub fn strict_count(archive: &[u8]) -> Result<usize, ProgramFault>
    ensures ok { IfOk result (λ count. CountsStrict archive.now count) }
    ensures err { IfErr result (IsOpenFault RefusesStrictArchive archive.now) }
{
    match heading_of::<Texts>(archive) {
        Ok(_) => {}
        Err(fault) => return Err(ProgramFault::Misheaded(fault)),
    }
    match open_strict::<Texts>(archive) {
        Ok(map) => Ok(map.len()),
        Err(refusal) => Err(ProgramFault::Refused(refusal)),
    }
}

/// Returns the map of an archive whose keys increase. What comes before the tree isn't looked at.
///
/// # Errors
///
/// The first error of bytes that are no such archive.
#[tactic(auto, using(crate::proofs::Fits::texts_fit))]
pub(crate) fn strict_map(
    archive: &[u8],
) -> Result<StrictView<'_, ArchivedText, ArchivedText, 5>, Refusal>
    ensures ok { IfOk result (λ map.
        IsStrictArchive archive.now (entries_of text_kind text_kind 5 map.view)) }
    ensures err { IfErr result (RefusesStrictArchive archive.now) }
{
    match open_strict::<Texts>(archive) {
        Ok(map) => Ok(map),
        Err(refusal) => Err(refusal),
    }
}

/// Returns what a file begins with, and the map of its archive, whose keys increase.
///
/// # Errors
///
/// `Misheaded` if another header than that of the program's type comes first, and `Refused` with the first error of bytes that are no
/// such archive.
pub(crate) fn open_increasing(
    archive: &[u8],
) -> Result<(Heading, StrictView<'_, ArchivedText, ArchivedText, 5>), ArchiveFault>
    ensures headed { IfOk result (λ opened. IsHeaded texts_name archive.now opened.0) }
    ensures ok { IfOk result (λ opened.
        IsStrictArchive archive.now (entries_of text_kind text_kind 5 opened.1.view)) }
    ensures err { IfErr result (RefusesStrictFile archive.now) }
{
    let heading = match heading_of::<Texts>(archive) {
        Ok(heading) => heading,
        Err(fault) => return Err(ArchiveFault::Misheaded(fault)),
    };
    match strict_map(archive) {
        Ok(map) => Ok((heading, map)),
        Err(refusal) => Err(ArchiveFault::Refused(refusal)),
    }
}
