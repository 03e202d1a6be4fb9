//! Times lookups in bytes that nobody has validated, beside those in a view: by numbers, and by texts.

use crate::many;
use crate::numbers::{LOOKUPS, Map};
use crate::report::Report;
use anyhow::ensure;
use rkyv_btree::unverified::Unverified;
use rkyv_btree::view::View;
use rkyv_btree_base::layout;
use rkyv_btree_base::map::ArchivedBTreeMap;
use rkyv_btree_base::numbers::ArchivedU32;
use rkyv_btree_base::text::ArchivedText;

/// The maps of texts that are timed.
pub(crate) type Texts = ArchivedBTreeMap<ArchivedText, ArchivedU32, 5>;

/// The sum of the values found, or 0 where a lookup fails.
#[inline(never)]
fn get_numbers(map: Unverified<Map>, keys: &[u32]) -> u64 {
    let mut sum = 0u64;
    for key in keys {
        match map.get_by(*key) {
            Ok(Some(value)) => sum = sum.wrapping_add(u64::from(value.to_native())),
            Ok(None) => {}
            Err(_) => return 0,
        }
    }
    sum
}

/// Times lookups of these keys in a map of numbers, whose sum of found values is this.
pub(crate) fn measure(
    report: &Report,
    map: View<Map>,
    keys: &[u32],
    sum: u64,
) -> anyhow::Result<()> {
    ensure!(layout::fits::<ArchivedU32, ArchivedU32, 5>(), "too large");
    let unverified = Unverified::<Map>::new(map.buf, map.pos);
    let found = report.time(
        "unverified",
        "get",
        LOOKUPS,
        || get_numbers(unverified, keys),
    )?;
    ensure!(found == sum, "sums differ");
    many::measure_unverified(report, unverified, keys, sum)
}

/// The index of the entry that is looked up after the one at this index.
pub(crate) fn next(index: usize, count: usize) -> usize {
    index.wrapping_add(7919) % count.max(1)
}

/// The sum of the values found of a million texts that are there.
#[inline(never)]
fn get_texts(map: View<Texts>, entries: &[(String, u32)]) -> u64 {
    let mut sum = 0u64;
    let mut index = 0usize;
    for _ in 0..LOOKUPS {
        index = next(index, entries.len());
        if let Some(entry) = entries.get(index) {
            if let Some(value) = map.get_by(entry.0.as_str()) {
                sum = sum.wrapping_add(u64::from(value.to_native()));
            }
        }
    }
    sum
}

/// The same in bytes that nobody has validated.
#[inline(never)]
fn get_texts_unverified(map: Unverified<Texts>, entries: &[(String, u32)]) -> u64 {
    let mut sum = 0u64;
    let mut index = 0usize;
    for _ in 0..LOOKUPS {
        index = next(index, entries.len());
        if let Some(entry) = entries.get(index) {
            if let Ok(Some(value)) = map.get_by(entry.0.as_str()) {
                sum = sum.wrapping_add(u64::from(value.to_native()));
            }
        }
    }
    sum
}

/// Times lookups of texts in a map of the entries.
pub(crate) fn measure_texts(
    report: &Report,
    map: View<Texts>,
    entries: &[(String, u32)],
) -> anyhow::Result<()> {
    ensure!(layout::fits::<ArchivedText, ArchivedU32, 5>(), "too large");
    let unverified = Unverified::<Texts>::new(map.buf, map.pos);
    let sum = report.time("port", "get of texts", LOOKUPS, || get_texts(map, entries))?;
    let found = report.time(
        "unverified",
        "get of texts",
        LOOKUPS,
        || get_texts_unverified(unverified, entries),
    )?;
    ensure!(found == sum, "sums differ");
    many::measure_texts(report, map, unverified, entries, sum)
}
