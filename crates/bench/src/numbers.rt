//! Times maps of `u32` to `u32`, beside std's `BTreeMap` and a binary search in a sorted `Vec`: a million lookups of keys
//! that are there, in random order; walks; and ranges from such keys on, of a million entries in all.

use crate::maps::write;
use crate::report::Report;
use crate::{many, unverified, writes};
use anyhow::ensure;
use rkyv_btree::map::access;
use rkyv_btree::view::View;
use rkyv_btree_base::layout;
use rkyv_btree_base::map::ArchivedBTreeMap;
use rkyv_btree_base::numbers::ArchivedU32;
use rkyv_btree_base::place::VecWriter;
use std::alloc::{AllocError, Global};
use std::collections::BTreeMap;
use std::ops::{Bound, ControlFlow};

/// The maps that are timed.
pub(crate) type Map = ArchivedBTreeMap<ArchivedU32, ArchivedU32, 5>;

/// How many lookups are timed together.
pub(crate) const LOOKUPS: u32 = 1000000;

/// Key and value of entry `index`.
pub(crate) fn entry(index: u32) -> (u32, u32) {
    (
        index.wrapping_mul(4).wrapping_add(1),
        index.wrapping_mul(10),
    )
}

/// So many entries, in the order of their keys.
pub(crate) fn entries(alloc: Global, count: u32) -> Result<Vec<(u32, u32)>, AllocError> {
    let mut entries = Vec::with_capacity(alloc, count as usize)?;
    for index in 0..count {
        entries.push(entry(index))?;
    }
    Ok(entries)
}

/// Keys of such entries in random order, one a lookup.
fn queries(alloc: Global, count: u32) -> Result<Vec<u32>, AllocError> {
    let mut keys = Vec::with_capacity(alloc, LOOKUPS as usize)?;
    let mut state = 88172645463325252u64;
    for _ in 0..LOOKUPS {
        state ^= state.wrapping_shl(13);
        state ^= state.wrapping_shr(7);
        state ^= state.wrapping_shl(17);
        let index = state % u64::from(count.max(1));
        keys.push(entry(index as u32).0)?;
    }
    Ok(keys)
}

/// The sum of the values found in the archived map.
#[inline(never)]
fn get_archived(map: View<Map>, keys: &[u32]) -> u64 {
    let mut sum = 0u64;
    for key in keys {
        if let Some(value) = map.get_by(*key) {
            sum = sum.wrapping_add(u64::from(value.to_native()));
        }
    }
    sum
}

/// The sum of the values found in std's map.
#[inline(never)]
fn get_std(map: &BTreeMap<u32, u32>, keys: &[u32]) -> u64 {
    let mut sum = 0u64;
    for key in keys {
        if let Some(value) = map.get(key) {
            sum = sum.wrapping_add(u64::from(*value));
        }
    }
    sum
}

/// The sum of the values found by halves in sorted entries.
#[inline(never)]
fn get_sorted(entries: &[(u32, u32)], keys: &[u32]) -> u64 {
    let mut sum = 0u64;
    for key in keys {
        if let Ok(index) = entries.binary_search_by(|entry: &(u32, u32)| entry.0.cmp(key)) {
            if let Some(entry) = entries.get(index) {
                sum = sum.wrapping_add(u64::from(entry.1));
            }
        }
    }
    sum
}

/// The sum of `key ^ value` over the entries that a visit of the archived map is called with.
#[inline(never)]
fn visit_archived(map: View<Map>) -> u64 {
    let mut sum = 0u64;
    map.visit(|key: View<ArchivedU32>, value: View<ArchivedU32>| {
        sum = sum.wrapping_add(u64::from(key.to_native() ^ value.to_native()));
        ControlFlow::<(), ()>::Continue(())
    });
    sum
}

/// The same of the archived map's iterator.
#[inline(never)]
pub(crate) fn iter_archived(map: View<Map>) -> u64 {
    let mut sum = 0u64;
    for (key, value) in map.iter() {
        sum = sum.wrapping_add(u64::from(key.to_native() ^ value.to_native()));
    }
    sum
}

/// The same of std's iterator.
#[inline(never)]
pub(crate) fn iter_std(map: &BTreeMap<u32, u32>) -> u64 {
    let mut sum = 0u64;
    for (key, value) in map.iter() {
        sum = sum.wrapping_add(u64::from(*key ^ *value));
    }
    sum
}

/// The same of so many entries from each key on.
#[inline(never)]
fn range_archived(map: View<Map>, keys: &[u32], entries: u32) -> u64 {
    let mut sum = 0u64;
    for key in keys {
        let end = key.saturating_add(entries.saturating_mul(4));
        for (key, value) in map.range_by(Bound::Included(*key), Bound::Excluded(end)) {
            sum = sum.wrapping_add(u64::from(key.to_native() ^ value.to_native()));
        }
    }
    sum
}

/// The same of std's map.
#[inline(never)]
fn range_std(map: &BTreeMap<u32, u32>, keys: &[u32], entries: u32) -> u64 {
    let mut sum = 0u64;
    for key in keys {
        let end = key.saturating_add(entries.saturating_mul(4));
        for (key, value) in map.range(*key..end) {
            sum = sum.wrapping_add(u64::from(*key ^ *value));
        }
    }
    sum
}

/// Times walks of both maps.
fn measure_walks(
    report: &Report,
    map: View<Map>,
    std_map: &BTreeMap<u32, u32>,
) -> anyhow::Result<()> {
    let visited = report.time("port", "visit", report.count, || visit_archived(map))?;
    let (port, std) = measure_iterators(report, map, std_map)?;
    ensure!(visited == port && port == std, "sums differ");
    Ok(())
}

/// Times the iterators of both maps, and returns their sums.
fn measure_iterators(
    report: &Report,
    map: View<Map>,
    std_map: &BTreeMap<u32, u32>,
) -> anyhow::Result<(u64, u64)> {
    let port = report.time("port", "iter", report.count, || iter_archived(map))?;
    let std = report.time("std", "iter", report.count, || iter_std(std_map))?;
    Ok((port, std))
}

/// Times ranges of so many entries of both maps.
fn measure_ranges(
    report: &Report,
    what: &str,
    map: View<Map>,
    std_map: &BTreeMap<u32, u32>,
    starts: &[u32],
    entries: u32,
) -> anyhow::Result<()> {
    let ranges = LOOKUPS / entries.max(1);
    let port = report.time(
        "port",
        what,
        ranges,
        || range_archived(map, starts, entries),
    )?;
    let std = report.time("std", what, ranges, || range_std(std_map, starts, entries))?;
    ensure!(port == std, "sums differ");
    Ok(())
}

/// Times lookups in both maps and in the sorted entries.
fn measure_lookups(
    report: &Report,
    map: View<Map>,
    std_map: &BTreeMap<u32, u32>,
    entries: &[(u32, u32)],
    keys: &[u32],
) -> anyhow::Result<()> {
    let port = report.time("port", "get", LOOKUPS, || get_archived(map, keys))?;
    let std = report.time("std", "get", LOOKUPS, || get_std(std_map, keys))?;
    let sorted = report.time("sorted", "get", LOOKUPS, || get_sorted(entries, keys))?;
    ensure!(port == std && std == sorted, "sums differ");
    many::measure(report, map, keys, port)?;
    unverified::measure(report, map, keys, port)
}

/// Times lookups, iterations and ranges of an archive of the entries, whose map is at `root`.
fn measure_reads(
    report: &Report,
    bytes: &[u8],
    root: u32,
    std_map: &BTreeMap<u32, u32>,
    entries: &[(u32, u32)],
    keys: &[u32],
) -> anyhow::Result<()> {
    ensure!(layout::fits::<ArchivedU32, ArchivedU32, 5>(), "too large");
    let map = access::<ArchivedU32, ArchivedU32, 5>(bytes, root)?;
    measure_lookups(report, map, std_map, entries, keys)?;
    measure_walks(report, map, std_map)?;
    let (hundreds, _) = keys.split_at(keys.len() / 100);
    measure_ranges(report, "range of 100", map, std_map, hundreds, 100)?;
    let (tens, _) = keys.split_at(keys.len() / 10);
    measure_ranges(report, "range of 10", map, std_map, tens, 10)
}

/// Std's map of the entries.
fn std_map(alloc: Global, entries: &[(u32, u32)]) -> Result<BTreeMap<u32, u32>, AllocError> {
    let mut map = BTreeMap::new(alloc);
    for (key, value) in entries {
        map.insert(*key, *value)?;
    }
    Ok(map)
}

/// Times lookups, walks, ranges and writes of maps of so many entries.
pub fn measure(rt: &HostRuntime, count: u32) -> anyhow::Result<()> {
    let entries = entries(rt.alloc(), count)?;
    let keys = queries(rt.alloc(), count)?;
    let mut writer = VecWriter::new(rt.alloc());
    let root = write(rt.alloc(), entries.as_slice(), &mut writer)?;
    let mut std_map = std_map(rt.alloc(), &entries)?;
    let report = Report { rt, count };
    crate::access::measure(&report, writer.bytes(), root)?;
    measure_reads(&report, writer.bytes(), root, &std_map, &entries, &keys)?;
    let mut archive = writer.bytes().to_vec(rt.alloc())?;
    writes::measure(&report, &mut archive, root, &mut std_map, &keys)
}
