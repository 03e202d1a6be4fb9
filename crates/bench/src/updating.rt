//! Times updates: the new archive of an old one and of a thousand changes. The building of such a map is timed beside it.

use crate::maps::write;
use crate::numbers::{entries, entry};
use crate::report::Report;
use anyhow::ensure;
use rkyv_btree::compare::ViewOrd;
use rkyv_btree::strict::{StrictView, access_strict};
use rkyv_btree_base::archive::{Archive, Serialize};
use rkyv_btree_base::layout;
use rkyv_btree_base::map::ArchivedBTreeMap;
use rkyv_btree_base::numbers::ArchivedU32;
use rkyv_btree_base::place::VecWriter;
use rkyv_btree_base::text::ArchivedText;
use rkyv_btree_update::change::Change;
use rkyv_btree_update::from_archived::FromArchived;
use rkyv_btree_update::update::update;
use std::alloc::{AllocError, Global};
use std::mem;

/// How many changes an update has, of a map that has as many entries.
const CHANGES: u32 = 1000;

/// Returns the indices of the entries whose keys change, spread over so many.
fn indices(alloc: Global, count: u32) -> Result<Vec<u32>, AllocError> {
    let many = CHANGES.min(count);
    let mut indices = Vec::with_capacity(alloc, many as usize)?;
    for number in 0..many {
        let index = u64::from(number) * u64::from(count) / u64::from(many);
        indices.push(index as u32)?;
    }
    Ok(indices)
}

/// Returns the change of a key: every fourth is deleted, and the others are put.
fn change_of(number: u32) -> Change<u32> {
    if number % 4 == 3 {
        Change::Delete
    } else {
        Change::Put(number)
    }
}

/// Writes a map after changes into room, whose bytes it drops first, and returns the map's position.
#[inline(never)]
fn rewrite<'a, KU, K>(
    alloc: Global,
    old: StrictView<'a, K, ArchivedU32, 5>,
    changes: &[(KU, Change<u32>)],
    room: &mut Vec<u8>,
) -> anyhow::Result<u32>
where
    KU: FromArchived<'a> + Archive<Archived = K> + Serialize<VecWriter, Global>,
    K: ViewOrd,
{
    ensure!(layout::fits::<K, ArchivedU32, 5>(), "too large");
    room.clear();
    let mut writer = VecWriter::from_vec(mem::replace(room, Vec::new(alloc)));
    let root = update(alloc, old, changes, &mut writer);
    *room = writer.into_vec();
    Ok(root?)
}

/// Times the update of a map, as many entries of which as the report says are read.
fn measure_map<'a, KU, K>(
    report: &Report,
    alloc: Global,
    what: &str,
    old: StrictView<'a, K, ArchivedU32, 5>,
    changes: &[(KU, Change<u32>)],
) -> anyhow::Result<()>
where
    KU: FromArchived<'a> + Archive<Archived = K> + Serialize<VecWriter, Global>,
    K: ViewOrd,
{
    let mut room = Vec::new(alloc);
    let again = 10 + 1000000 / report.count.max(1);
    report.time_often(
        "port",
        what,
        report.count,
        again,
        || rewrite(alloc, old, changes, &mut room),
    )??;
    Ok(())
}

/// Times the update of a map of numbers. Every second key that is changed isn't there.
fn measure_numbers(report: &Report, alloc: Global) -> anyhow::Result<()> {
    let entries = entries(alloc, report.count)?;
    let mut writer = VecWriter::new(alloc);
    let root = write(alloc, entries.as_slice(), &mut writer)?;
    ensure!(layout::fits::<ArchivedU32, ArchivedU32, 5>(), "too large");
    let old = access_strict::<ArchivedBTreeMap<ArchivedU32, ArchivedU32, 5>>(writer.bytes(), root)?;
    let mut changes = Vec::new(alloc);
    let mut number = 0u32;
    for index in indices(alloc, report.count)?.as_slice() {
        let (key, _) = entry(*index);
        changes.push((key.wrapping_add(number % 2), change_of(number)))?;
        number = number.wrapping_add(1);
    }
    measure_map(report, alloc, "update", old, changes.as_slice())
}

/// The same of a map of texts to numbers.
fn measure_texts(report: &Report, alloc: Global, texts: &[(String, u32)]) -> anyhow::Result<()> {
    let mut writer = VecWriter::new(alloc);
    let root = write(alloc, texts, &mut writer)?;
    ensure!(layout::fits::<ArchivedText, ArchivedU32, 5>(), "too large");
    let mut keys = Vec::new(alloc);
    for index in indices(alloc, report.count)?.as_slice() {
        let end = if keys.len() % 2 == 0 { "" } else { "y" };
        keys.push(format!(in alloc; "{:08}xxxxxxxx{end}", *index)?)?;
    }
    let mut changes = Vec::new(alloc);
    let mut number = 0u32;
    for key in keys.as_slice() {
        changes.push((key.as_str(), change_of(number)))?;
        number = number.wrapping_add(1);
    }
    let old = access_strict::<ArchivedBTreeMap<ArchivedText, ArchivedU32, 5>>(
        writer.bytes(),
        root,
    )?;
    measure_map(report, alloc, "update of texts", old, changes.as_slice())
}

/// Times the updates of a map of numbers, and of one of these texts to numbers.
pub fn measure(report: &Report, alloc: Global, texts: &[(String, u32)]) -> anyhow::Result<()> {
    measure_numbers(report, alloc)?;
    measure_texts(report, alloc, texts)
}
