//! Builds lists by the library's builder and by recursion, and compares what both append: for 1 to 7 entries a node, of 0 to 300
//! entries with text keys, from positions 0 to 7.

use anyhow::ensure;
use bench_recursion::both::build_by_both;
use rkyv_btree_base::layout;
use rkyv_btree_base::numbers::ArchivedU32;
use rkyv_btree_base::place::VecWriter;
use rkyv_btree_base::text::ArchivedText;
use std::alloc::{AllocError, Global};

/// How many entries the longest list has.
const ENTRIES: u32 = 300;

/// The entries of the longest list: texts of 0 to 12 bytes, in no order, with numbers.
fn entries(alloc: Global) -> Result<Vec<(String, u32)>, AllocError> {
    let mut entries = Vec::new(alloc);
    for number in 0..ENTRIES {
        let mut key = String::new(alloc);
        for _ in 0..number % 13 {
            key.push('k')?;
        }
        entries.push((key, number))?;
    }
    Ok(entries)
}

/// Compares both builders on a list, from a position on.
fn compare_list<const E: usize>(
    alloc: Global,
    entries: &[(String, u32)],
    base: u64,
) -> anyhow::Result<()> {
    ensure!(layout::fits::<ArchivedText, ArchivedU32, E>(), "too large");
    ensure!(base < 8, "too far");
    let mut one = VecWriter::with_base(alloc, base);
    let mut other = VecWriter::with_base(alloc, base);
    let (_, root) = build_by_both::<_, _, _, _, _, _, E>(alloc, entries, &mut one, &mut other)?;
    ensure!(one.bytes() == other.bytes(), "other bytes");
    ensure!(entries.is_empty() || u64::from(root) >= base, "no root");
    Ok(())
}

/// Compares both builders on a list, from each position.
fn compare_at_positions<const E: usize>(
    alloc: Global,
    entries: &[(String, u32)],
) -> anyhow::Result<()> {
    for base in 0..8 {
        compare_list::<E>(alloc, entries, base)?;
    }
    Ok(())
}

/// Compares both builders on the first entries, as many as there are and each smaller number of them, and prints how many
/// lists these were.
fn compare_lists<const E: usize>(
    rt: &HostRuntime,
    entries: &[(String, u32)],
) -> anyhow::Result<()> {
    let mut lists = 0u32;
    for count in 0..=entries.len() {
        compare_at_positions::<E>(rt.alloc(), &entries[..count])?;
        lists = lists.wrapping_add(8);
    }
    println!(rt; "{E} entries a node: {lists} lists, the same bytes by both builders")?;
    Ok(())
}

/// Compares both builders on all lists.
pub fn compare(rt: &HostRuntime) -> anyhow::Result<()> {
    let entries = entries(rt.alloc())?;
    compare_lists::<1>(rt, &entries)?;
    compare_lists::<2>(rt, &entries)?;
    compare_lists::<3>(rt, &entries)?;
    compare_lists::<4>(rt, &entries)?;
    compare_lists::<5>(rt, &entries)?;
    compare_lists::<6>(rt, &entries)?;
    compare_lists::<7>(rt, &entries)
}
