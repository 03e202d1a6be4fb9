//! Lookups and ranges, and strict maps.

use crate::input::Input;
use crate::opening::{opened, show_map};
use crate::shown::{Shown, show_entry};
use anyhow::{bail, ensure};
use rkyv_btree::prelude::*;
use rkyv_btree_base::layout;
use rkyv_btree_base::steps::StepCounter;
use std::alloc::Global;
use std::ops::Bound;

/// The value of a type at a position.
pub(crate) fn viewed<T: CheckBytes>(buf: &[u8], at: u32) -> anyhow::Result<View<'_, T>> {
    ensure!(T::fits(), "the type doesn't fit");
    match View::<T>::check(buf, at) {
        Ok(view) => Ok(view),
        Err(refusal) => bail!("no key: {refusal}"),
    }
}

/// Looks up a key of a case in its map, and counts the comparisons.
pub(crate) fn find<K: CheckBytes + ViewOrd + Shown, V: CheckBytes + Shown, const E: usize>(
    case: &[u8],
    out: &mut String,
) -> anyhow::Result<()> {
    let mut input = Input { rest: case };
    let pos = input.number()?;
    let at = input.number()?;
    let Some(map) = opened::<K, V, E>(input.rest, pos, out)? else {
        return Ok(());
    };
    let query = viewed::<K>(input.rest, at)?;
    let compare = |query: &View<'_, K>, key: View<K>| K::compare(query, &key);
    let mut steps = StepCounter::new();
    let found = map.get_key_value_counted(&query, compare, &mut steps);
    let compared = steps.count();
    write!(out, "{compared}")?;
    match found {
        None => write!(out, " none")?,
        Some((key, value)) => {
            let at = key.pos;
            show_entry(key, value, out)?;
            write!(out, " at {at}")?;
        }
    }
    Ok(())
}

/// Takes a bound of a case: its kind, and the position of its key in the buffer.
fn take_end(input: &mut Input<'_>) -> anyhow::Result<Bound<u32>> {
    let [kind] = input.array::<1>()?;
    let at = input.number()?;
    Ok(match kind {
        0 => Bound::Unbounded,
        1 => Bound::Included(at),
        _ => Bound::Excluded(at),
    })
}

/// The bound by the key at a bound's position.
fn viewed_end<T: CheckBytes>(buf: &[u8], end: Bound<u32>) -> anyhow::Result<Bound<View<'_, T>>> {
    Ok(match end {
        Bound::Unbounded => Bound::Unbounded,
        Bound::Included(at) => Bound::Included(viewed::<T>(buf, at)?),
        Bound::Excluded(at) => Bound::Excluded(viewed::<T>(buf, at)?),
    })
}

/// Lists the entries of a case's map between two bounds.
pub(crate) fn range<K: CheckBytes + ViewOrd + Shown, V: CheckBytes + Shown, const E: usize>(
    case: &[u8],
    out: &mut String,
) -> anyhow::Result<()> {
    let mut input = Input { rest: case };
    let pos = input.number()?;
    let low = take_end(&mut input)?;
    let high = take_end(&mut input)?;
    let Some(map) = opened::<K, V, E>(input.rest, pos, out)? else {
        return Ok(());
    };
    let low = viewed_end::<K>(input.rest, low)?;
    let high = viewed_end::<K>(input.rest, high)?;
    let mut entries = map.range(low, high);
    while let Some((key, value)) = entries.next() {
        show_entry(key, value, out)?;
    }
    if entries.next().is_some() || entries.next().is_some() {
        write!(out, " GOES ON")?;
    }
    Ok(())
}

/// Whether each lookup of an entry's key finds that entry.
fn is_found<K: ViewOrd, V: Portable, const E: usize>(
    map: StrictView<'_, K, V, E>,
    key: View<'_, K>,
    value: View<'_, V>,
) -> bool {
    let Some((found_key, found_value)) = map.get_key_value(key) else {
        return false;
    };
    let Some(found) = map.get(key) else {
        return false;
    };
    found_key.pos == key.pos
        && found_value.pos == value.pos
        && found.pos == value.pos
        && map.contains_key(key)
}

/// Appends how many entries are found by their own keys.
fn show_found<K: ViewOrd, V: Portable, const E: usize>(
    map: StrictView<'_, K, V, E>,
    out: &mut String,
) -> anyhow::Result<()> {
    let mut count: u32 = 0;
    for (key, value) in map.iter() {
        if is_found::<K, V, E>(map, key, value) {
            count = count.wrapping_add(1);
        }
    }
    write!(out, "; {count} found;")?;
    Ok(())
}

/// Appends the keys from the second up to the last, without that one; or all keys, if there are fewer than two.
fn show_between<K: ViewOrd + Shown, V: Portable, const E: usize>(
    map: StrictView<'_, K, V, E>,
    out: &mut String,
) -> anyhow::Result<()> {
    let mut entries = map.iter();
    entries.next();
    let (low, high) = match entries.next() {
        None => (Bound::Unbounded, Bound::Unbounded),
        Some((second, _)) => {
            let mut last = second;
            for (key, _) in entries {
                last = key;
            }
            (Bound::Included(second), Bound::Excluded(last))
        }
    };
    for (key, _) in map.range(low, high) {
        out.push(' ')?;
        K::show(&key, out)?;
    }
    Ok(())
}

/// Opens the map of a case as a strict one: lists it, looks up each of its keys, and lists the keys of a range.
pub(crate) fn strict<K: CheckBytes + ViewOrd + Shown, V: CheckBytes + Shown, const E: usize>(
    alloc: Global,
    case: &[u8],
    out: &mut String,
) -> anyhow::Result<()> {
    let mut input = Input { rest: case };
    let pos = input.number()?;
    ensure!(layout::fits::<K, V, E>(), "the map doesn't fit");
    match access_strict::<ArchivedBTreeMap<K, V, E>>(input.rest, pos) {
        Ok(map) => {
            show_map::<K, V, E>(alloc, &map.as_view(), out)?;
            show_found::<K, V, E>(map, out)?;
            show_between::<K, V, E>(map, out)
        }
        Err(refusal) => {
            write!(out, "refused: {refusal}")?;
            Ok(())
        }
    }
}
