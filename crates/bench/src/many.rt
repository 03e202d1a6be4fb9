//! Times lookups of many keys at once, beside those of one: by numbers, and by texts.

use crate::numbers::{LOOKUPS, Map};
use crate::report::Report;
use crate::unverified::{Texts, next};
use anyhow::ensure;
use rkyv_btree::unverified::Unverified;
use rkyv_btree::view::View;
use std::alloc::{AllocError, Global};

/// The sum of the values found of these numbers.
#[inline(never)]
fn get_numbers(map: View<Map>, keys: &[u32]) -> u64 {
    let mut sum = 0u64;
    for found in map.get_many_by(keys) {
        if let Some(value) = found {
            sum = sum.wrapping_add(u64::from(value.to_native()));
        }
    }
    sum
}

/// The same in bytes that nobody has validated, or 0 where a lookup fails.
#[inline(never)]
fn get_numbers_unverified(map: Unverified<Map>, keys: &[u32]) -> u64 {
    let mut sum = 0u64;
    for found in map.get_many_by(keys) {
        match found {
            Ok(Some(value)) => sum = sum.wrapping_add(u64::from(value.to_native())),
            Ok(None) => {}
            Err(_) => return 0,
        }
    }
    sum
}

/// Times lookups of these keys in a map of numbers, whose sum of found values is this.
pub(crate) fn measure(
    report: &Report,
    map: View<Map>,
    keys: &[u32],
    sum: u64,
) -> anyhow::Result<()> {
    let found = report.time("port", "get many", LOOKUPS, || get_numbers(map, keys))?;
    ensure!(found == sum, "sums differ");
    Ok(())
}

/// Times the same in bytes that nobody has validated.
pub(crate) fn measure_unverified(
    report: &Report,
    map: Unverified<Map>,
    keys: &[u32],
    sum: u64,
) -> anyhow::Result<()> {
    let found = report.time(
        "unverified",
        "get many",
        LOOKUPS,
        || get_numbers_unverified(map, keys),
    )?;
    ensure!(found == sum, "sums differ");
    Ok(())
}

/// A million texts that are there.
fn names<'e>(alloc: Global, entries: &'e [(String, u32)]) -> Result<Vec<&'e str>, AllocError> {
    let mut names = Vec::new(alloc);
    let mut index = 0usize;
    for _ in 0..LOOKUPS {
        index = next(index, entries.len());
        if let Some(entry) = entries.get(index) {
            names.push(entry.0.as_str())?;
        }
    }
    Ok(names)
}

/// The sum of the values found of these texts.
#[inline(never)]
fn get_texts(map: View<Texts>, names: &[&str]) -> u64 {
    let mut sum = 0u64;
    for found in map.get_many_by(names) {
        if let Some(value) = found {
            sum = sum.wrapping_add(u64::from(value.to_native()));
        }
    }
    sum
}

/// The same in bytes that nobody has validated, or 0 where a lookup fails.
#[inline(never)]
fn get_texts_unverified(map: Unverified<Texts>, names: &[&str]) -> u64 {
    let mut sum = 0u64;
    for found in map.get_many_by(names) {
        match found {
            Ok(Some(value)) => sum = sum.wrapping_add(u64::from(value.to_native())),
            Ok(None) => {}
            Err(_) => return 0,
        }
    }
    sum
}

/// Times lookups of texts in a map of the entries, whose sum of found values is this.
pub(crate) fn measure_texts(
    report: &Report,
    map: View<Texts>,
    unverified: Unverified<Texts>,
    entries: &[(String, u32)],
    sum: u64,
) -> anyhow::Result<()> {
    let names = names(report.rt.alloc(), entries)?;
    let found = report.time("port", "get many texts", LOOKUPS, || get_texts(map, &names))?;
    ensure!(found == sum, "sums differ");
    let found = report.time(
        "unverified",
        "get many texts",
        LOOKUPS,
        || get_texts_unverified(unverified, &names),
    )?;
    ensure!(found == sum, "sums differ");
    Ok(())
}
