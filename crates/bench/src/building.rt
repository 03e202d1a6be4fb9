//! Times building alone: of maps in memory, in room that is used again, and of a map that is written to a file while it is
//! built.

use crate::maps::write;
use crate::numbers::{Map, entries, entry};
use crate::report::Report;
use crate::updating;
use anyhow::{Context, ensure};
use rkyv_btree_base::archive::{Archive, Serialize};
use rkyv_btree_base::build::BuildMap;
use rkyv_btree_base::check::Portable;
use rkyv_btree_base::io_writer::IoWriter;
use rkyv_btree_base::layout;
use rkyv_btree_base::numbers::ArchivedU32;
use rkyv_btree_base::place::VecWriter;
use std::alloc::{AllocError, Global};
use std::fs::File;
use std::io::{BufWriter, Write};
use std::{fs, mem};

/// So many texts of 16 bytes, with their numbers.
fn texts(alloc: Global, count: u32) -> Result<Vec<(String, u32)>, AllocError> {
    let mut texts = Vec::with_capacity(alloc, count as usize)?;
    for number in 0..count {
        texts.push((format!(in alloc; "{number:08}xxxxxxxx")?, number))?;
    }
    Ok(texts)
}

/// Writes the map of the entries into room, whose bytes it drops first, and returns the map's position.
#[inline(never)]
fn build<KU, VU, K, V>(
    alloc: Global,
    entries: &[(KU, VU)],
    room: &mut Vec<u8>,
) -> anyhow::Result<u32>
where
    KU: Archive<Archived = K> + Serialize<VecWriter, Global>,
    VU: Archive<Archived = V> + Serialize<VecWriter, Global>,
    K: Portable,
    V: Portable,
{
    room.clear();
    let mut writer = VecWriter::from_vec(mem::replace(room, Vec::new(alloc)));
    let root = write(alloc, entries, &mut writer);
    *room = writer.into_vec();
    root
}

/// Times the building of a map of these entries, which are as many as the report says.
fn measure_entries<KU, VU, K, V>(
    report: &Report,
    alloc: Global,
    what: &str,
    entries: &[(KU, VU)],
) -> anyhow::Result<()>
where
    KU: Archive<Archived = K> + Serialize<VecWriter, Global>,
    VU: Archive<Archived = V> + Serialize<VecWriter, Global>,
    K: Portable,
    V: Portable,
{
    let mut room = Vec::new(alloc);
    let again = 10 + 1000000 / report.count.max(1);
    report.time_often(
        "port",
        what,
        report.count,
        again,
        || build::<KU, VU, K, V>(alloc, entries, &mut room),
    )??;
    Ok(())
}

/// Times the building of a map of numbers, and of one of texts to numbers, and their updates.
pub fn measure(report: &Report, alloc: Global) -> anyhow::Result<()> {
    let numbers = entries(alloc, report.count)?;
    measure_entries(report, alloc, "build", numbers.as_slice())?;
    let texts = texts(alloc, report.count)?;
    measure_entries(report, alloc, "build of texts", texts.as_slice())?;
    updating::measure(report, alloc, texts.as_slice())
}

/// Writes a map of so many entries to a file, each computed when the builder takes it, and returns the map's position.
fn build_to_file(alloc: Global, count: u32, file: File) -> anyhow::Result<u32> {
    ensure!(layout::fits::<ArchivedU32, ArchivedU32, 5>(), "too large");
    let mut writer = IoWriter::new(BufWriter::new(alloc, file)?);
    let items = (0..count).map(|index: u32| entry(index));
    let tree = Map::serialize_from_ordered_iter(alloc, count as usize, items, &mut writer)?;
    let root = Map::write_root(count as usize, tree, &mut writer)?;
    writer.into_inner().flush()?;
    Ok(root)
}

/// Times the building of a map of so many numbers to the file of this name.
pub fn measure_file(rt: &HostRuntime, count: u32, name: &str) -> anyhow::Result<()> {
    let report = Report { rt, count };
    report.time("port", "build to a file", count, || {
        let file = fs::create(rt, name)?;
        build_to_file(rt.alloc(), count, file)
    })??;
    Ok(())
}
