//! Archives whose keys increase: their check, and how others become such archives.
ghost use Rattle.std.specs.Prelude.{◌≡◌, ℕ, length, IfOk, OnOk, IfErr};
ghost use Rattle.std.specs.Ordering.{nat_cmp};
ghost use Rattle.rkyv_btree_format.specs.Increasing.{Increasing};
ghost use Rattle.btreearc_commands.specs.Archive.{IsArchived, IsBuildFault};
ghost use Rattle.btreearc_commands.specs.Commands.{last_values};
ghost use Rattle.btreearc_commands.specs.Opening.{IsInput, IsStrictOpenFault, entries_read};

use crate::opening::{Numbers, open};
use btreearc_lines::fault::ProgramFault;
use btreearc_lines::heading::{Heading, write_heading};
use rkyv_btree_convert::native_map::maps_are_given_by_entries;
use rkyv_btree_portable::numbers::ArchivedU32;
use rkyv_btree_strict::migrate::migrate;
use rkyv_btree_strict::strict_map::StrictView;
use rkyv_btree_view::view::View;
use rkyv_btree_writer::place::VecWriter;
use std::alloc::Global;

/// How many entries an archive has whose keys increase.
///
/// # Errors
///
/// `Refused` where `open` returns it, and with the index of the first entry whose key isn't greater than the key before it.
#[tactic(auto, using(crate::proofs::Built::numbers_fit))]
pub fn strict_count(archive: &[u8]) -> Result<usize, ProgramFault>
    ensures count { IfOk result (λ count. (entries : _) × IsInput archive.now entries
        × Increasing nat_cmp entries × (count ≡ length entries)) }
    ensures refused { IfErr result (IsStrictOpenFault archive.now) }
{
    match StrictView::of(open(archive)?) {
        Ok(map) => Ok(map.len()),
        Err(refusal) => Err(ProgramFault::Refused(refusal)),
    }
}

/// The archive of the last values of a map's keys, in increasing order, with a header or without one.
///
/// # Errors
///
/// `NotBuilt` where `archive` returns it for these entries.
#[tactic(auto, using(crate::proofs::Built::numbers_fit))]
pub fn migrated(
    alloc: Global,
    heading: Heading,
    map: &View<'_, Numbers>,
) -> Result<Vec<u8>, ProgramFault>
    ensures ok { IfOk result (λ bytes. IsArchived heading bytes.items
        (last_values (entries_read map.now.buf.now map.now.pos))) }
    ensures err { IfErr result
        (IsBuildFault heading (last_values (entries_read map.now.buf.now map.now.pos))) }
{
    maps_are_given_by_entries::<u32, u32, ArchivedU32, ArchivedU32, 5>();
    let mut writer = VecWriter::new(alloc);
    match write_heading::<Numbers, VecWriter>(alloc, heading, &mut writer) {
        Ok(()) => {}
        Err(fault) => return Err(ProgramFault::NotBuilt(fault)),
    }
    match migrate::<u32, u32, ArchivedU32, ArchivedU32, VecWriter>(alloc, map, &mut writer) {
        Ok(_) => Ok(writer.into_vec()),
        Err(fault) => Err(ProgramFault::NotBuilt(fault)),
    }
}
