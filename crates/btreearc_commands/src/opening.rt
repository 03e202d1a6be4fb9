//! Opening archives that anybody wrote.
ghost use Rattle.std.specs.Prelude.{◌≡◌, ℕ, List, IfOk, IfErr, IsOk, OnOk, Err};
ghost use Rattle.rkyv_btree_portable.specs.declared.refusal.Refusal.{Refusal};
ghost use Rattle.btreearc_lines.specs.Headings.{IsHeaded};
ghost use Rattle.btreearc_commands.specs.Opening.{HasFitHeading, IsArchive, IsInput, IsOpenFault, numbers_name, RefusesArchive, entries_read, root_of};

use btreearc_lines::fault::ProgramFault;
use btreearc_lines::heading::{Heading, heading_of};
use rkyv_btree_portable::numbers::ArchivedU32;
use rkyv_btree_portable::refusal::Refusal;
use rkyv_btree_types::map::ArchivedBTreeMap;
use rkyv_btree_verify::verify::faults_are_exact;
use rkyv_btree_view::map_view::access;
use rkyv_btree_view::view::View;

/// The maps that the program archives.
pub type Numbers = ArchivedBTreeMap<ArchivedU32, ArchivedU32, 5>;

/// The bytes of a root.
const ROOT_SIZE: usize = 8;

/// Returns what a file begins with.
///
/// # Errors
///
/// `Misheaded` if another header than that of the program's type comes first.
pub fn tested_heading(archive: &[u8]) -> Result<Heading, ProgramFault>
    ensures ok { IfOk result (IsHeaded numbers_name archive.now) }
    ensures err { IfErr result (IsOpenFault archive.now) }
    ensures never { HasFitHeading archive.now → IsOk result }
{
    match heading_of::<Numbers>(archive) {
        Ok(heading) => Ok(heading),
        Err(fault) => Err(ProgramFault::Misheaded(fault)),
    }
}

/// The map of an archive, whose root is the last eight bytes. Fewer bytes are opened at position 0.
///
/// # Errors
///
/// `Misheaded` if another header than that of the program's type comes first. `Refused` by the first fact, in the order of checking,
/// for which the bytes are no archive.
#[tactic(auto, using(crate::proofs::Built::numbers_fit))]
pub fn open(archive: &[u8]) -> Result<View<'_, Numbers>, ProgramFault>
    ensures buffer { IfOk result (λ map. map.buf.now ≡ archive.now) }
    ensures position { IfOk result (λ map. map.pos ≡ root_of archive.now) }
    ensures accepted { IfOk result (λ map.
        IsArchive archive.now (entries_read map.buf.now map.pos)) }
    ensures headed { OnOk result (HasFitHeading archive.now) }
    ensures all_accepted { (entries : List (ℕ × ℕ)) → IsInput archive.now entries → IsOk result }
    ensures refused { IfErr result (IsOpenFault archive.now) }
    ensures all_refused { (refusal : Refusal) → HasFitHeading archive.now →
        RefusesArchive archive.now refusal → result ≡ Err (ProgramFault.Refused refusal) }
{
    match tested_heading(archive) {
        Ok(_) => {}
        Err(fault) => return Err(fault),
    }
    let root = archive.len().saturating_sub(ROOT_SIZE);
    let Ok(root) = u32::try_from(root) else {
        return Err(ProgramFault::Refused(Refusal::TooLong));
    };
    match access::<ArchivedU32, ArchivedU32, 5>(archive, root) {
        Ok(map) => Ok(map),
        Err(refusal) => Err(ProgramFault::Refused(refusal)),
    }
}

/// What is refused is no archive of any list.
#[tactic(auto, using(crate::proofs::Built::numbers_fit))]
pub fn refused_is_no_archive()
    ensures { (b : List ℕ) (refusal : Refusal) (entries : List (ℕ × ℕ)) → RefusesArchive b refusal →
        IsArchive b entries → ⊥ }
{
    faults_are_exact::<ArchivedU32, ArchivedU32, 5>();
}

/// Bytes are an archive of one list alone.
pub fn one_list()
    ensures { (b : List ℕ) (entries others : List (ℕ × ℕ)) → IsArchive b entries →
        IsArchive b others → entries ≡ others }
{}
