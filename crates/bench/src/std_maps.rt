//! Times std's maps of numbers and of texts to bytes, and from bytes back to std's maps.

use crate::report::Report;
use anyhow::{Context, ensure};
use rkyv_btree::deserialize::Deserialize;
use rkyv_btree::whole::open;
use rkyv_btree_base::archive::{Archive, Serialize};
use rkyv_btree_base::check::{CheckBytes, Portable};
use rkyv_btree_base::place::VecWriter;
use rkyv_btree_base::whole::to_archive;
use std::alloc::{AllocError, Global};
use std::collections::BTreeMap;

/// A map of so many numbers to themselves.
fn numbers(alloc: Global, count: u32) -> Result<BTreeMap<u32, u32>, AllocError> {
    let mut map = BTreeMap::new(alloc);
    for number in 0..count {
        map.insert(number, number)?;
    }
    Ok(map)
}

/// A map of the texts of so many numbers to these.
fn texts(alloc: Global, count: u32) -> Result<BTreeMap<String, u32>, AllocError> {
    let mut map = BTreeMap::new(alloc);
    for number in 0..count {
        map.insert(format!(in alloc; "{number:08}")?, number)?;
    }
    Ok(map)
}

/// Times the writing of a map's archive.
fn to_bytes<T: Serialize<VecWriter, Global>>(
    report: &Report,
    alloc: Global,
    what: &str,
    map: &T,
) -> anyhow::Result<Vec<u8>> {
    ensure!(T::Archived::fits(), "too large");
    report
        .time("port", what, report.count, || to_archive(alloc, map).ok())?
        .context("no archive")
}

/// Times the reading of a map from its archive.
fn from_bytes<T: Archive + PartialEq + Drop>(
    report: &Report,
    alloc: Global,
    what: &str,
    bytes: &[u8],
) -> anyhow::Result<T>
where
    T::Archived: CheckBytes + Deserialize<T>,
{
    ensure!(T::Archived::fits(), "too large");
    let view = open::<T::Archived>(bytes)?;
    report
        .time(
            "port",
            what,
            report.count,
            || T::Archived::deserialize(alloc, &view).ok(),
        )?
        .context("no map")
}

/// Times a map's writing and reading, and sees that it comes back.
fn measure_map<T>(
    report: &Report,
    alloc: Global,
    map: &T,
    writing: &str,
    reading: &str,
) -> anyhow::Result<()>
where
    T: Archive + Serialize<VecWriter, Global> + PartialEq + Drop,
    T::Archived: CheckBytes + Deserialize<T>,
{
    let bytes = to_bytes(report, alloc, writing, map)?;
    let back: T = from_bytes(report, alloc, reading, &bytes)?;
    ensure!(back == *map, "another map");
    Ok(())
}

/// Times a map of numbers and one of texts.
pub fn measure(report: &Report, alloc: Global) -> anyhow::Result<()> {
    let map = report
        .time(
            "std",
            "insert, u32",
            report.count,
            || numbers(alloc, report.count).ok(),
        )?
        .context("no map")?;
    measure_map(report, alloc, &map, "to bytes, u32", "to BTreeMap, u32")?;
    let map = texts(alloc, report.count)?;
    measure_map(report, alloc, &map, "to bytes, text", "to BTreeMap, text")
}
