//! Times maps in memory, of so many entries as its one argument says: a map of texts to numbers, in nanoseconds an entry
//! for building, checking and walking it, lookups in a map of numbers, and std's maps to bytes and back. A second argument
//! is the name of a file, to which a map of so many numbers is built in place of all that. Without an argument it compares
//! the library's builder with one by recursion. With `look WAY FILE KEY` it times one lookup in a file.
#![tactic(auto)]

mod access;
mod builders;
mod building;
mod cold;
mod many;
mod maps;
mod numbers;
mod report;
mod std_maps;
mod unverified;
mod updating;
mod writes;

use crate::maps::write;
use crate::report::Report;
use anyhow::{Context, ensure};
use rkyv_btree::map;
use rkyv_btree::strict::access_strict;
use rkyv_btree::view::View;
use rkyv_btree_base::layout;
use rkyv_btree_base::map::ArchivedBTreeMap;
use rkyv_btree_base::numbers::ArchivedU32;
use rkyv_btree_base::place::VecWriter;
use rkyv_btree_base::text::ArchivedText;
use std::alloc::{AllocError, Global};
use std::ops::ControlFlow;
use std::time::{Duration, Instant};
use std::{env, io};

type Map = ArchivedBTreeMap<ArchivedText, ArchivedU32, 5>;

/// The key of a number of at most eight digits: 8 to 24 bytes.
fn key(alloc: Global, number: u32) -> Result<String, AllocError> {
    let mut key = format!(in alloc; "{number:08}")?;
    for _ in 0..number % 17 {
        key.push('x')?;
    }
    Ok(key)
}

/// So many entries, in the order of their keys.
fn entries(alloc: Global, count: u32) -> Result<Vec<(String, u32)>, AllocError> {
    let mut entries = Vec::new(alloc);
    for number in 0..count {
        entries.push((key(alloc, number)?, number))?;
    }
    Ok(entries)
}

/// Prints how long something took.
fn tell(rt: &impl Print, what: &str, time: Duration, count: u32) -> io::Result<()> {
    let each = time.as_nanos() / u128::from(count.max(1));
    println!(rt; "{what} {count} text entries: {each} ns an entry")
}

/// Times the writing of the map of the entries, and returns its position.
fn build(
    rt: &HostRuntime,
    entries: &[(String, u32)],
    count: u32,
    writer: &mut VecWriter,
) -> anyhow::Result<u32> {
    let start = Instant::now(rt)?;
    let root = write(rt.alloc(), entries, writer)?;
    tell(rt, "build", start.elapsed(rt)?, count)?;
    Ok(root)
}

/// Times the check of the map, and the strict check.
fn check<'a>(
    rt: &HostRuntime,
    bytes: &'a [u8],
    root: u32,
    count: u32,
) -> anyhow::Result<View<'a, Map>> {
    ensure!(layout::fits::<ArchivedText, ArchivedU32, 5>(), "too large");
    let start = Instant::now(rt)?;
    let map = map::access::<ArchivedText, ArchivedU32, 5>(bytes, root)?;
    tell(rt, "check", start.elapsed(rt)?, count)?;
    let start = Instant::now(rt)?;
    access_strict::<Map>(bytes, root)?;
    tell(rt, "strict check", start.elapsed(rt)?, count)?;
    Ok(map)
}

/// The sum of the values and of the lengths of the keys that a visit is called with.
fn visit(map: View<Map>) -> u64 {
    let mut met = 0u64;
    map.visit(|key: View<ArchivedText>, value: View<ArchivedU32>| {
        let len = key.as_str().len() as u64;
        met = met.wrapping_add(u64::from(value.to_native()).wrapping_add(len));
        ControlFlow::<(), ()>::Continue(())
    });
    met
}

/// Times a walk of the map.
fn walk(rt: &HostRuntime, map: View<Map>, count: u32) -> anyhow::Result<()> {
    let start = Instant::now(rt)?;
    let met = visit(map);
    tell(rt, "walk", start.elapsed(rt)?, count)?;
    ensure!(met > 0 || count == 0, "nothing was met");
    Ok(())
}

/// Builds, checks and walks the map of so many entries.
fn measure(rt: &HostRuntime, count: u32) -> anyhow::Result<()> {
    let entries = entries(rt.alloc(), count)?;
    let mut writer = VecWriter::new(rt.alloc());
    let root = build(rt, entries.as_slice(), count, &mut writer)?;
    let map = check(rt, writer.bytes(), root, count)?;
    walk(rt, map, count)?;
    unverified::measure_texts(&Report { rt, count }, map, entries.as_slice())
}

fn main(rt: HostRuntime) -> anyhow::Result<()> {
    let mut arguments = env::args(&rt)?;
    match arguments.nth(1) {
        Some(word) if word.as_str() == "look" => {
            let way = arguments.next().context("no way")?;
            let path = arguments.next().context("no file")?;
            let key = arguments.next().context("no key")?;
            let key = key.parse().context("no key")?;
            cold::measure(&rt, way.as_str(), path.as_str(), key)
        }
        Some(count) => {
            let count = count.parse().context("no number of entries")?;
            if let Some(name) = arguments.next() {
                return building::measure_file(&rt, count, name.as_str());
            }
            measure(&rt, count)?;
            numbers::measure(&rt, count)?;
            let report = Report { rt: &rt, count };
            building::measure(&report, rt.alloc())?;
            std_maps::measure(&report, rt.alloc())
        }
        None => builders::compare(&rt),
    }
}
