//! Maps that are opened, walked, counted and compared, and values that are checked alone.

use crate::input::Input;
use crate::shown::{Shown, show_entry};
use anyhow::ensure;
use rkyv_btree::prelude::*;
use rkyv_btree_base::check::Window;
use rkyv_btree_base::layout;
use rkyv_btree_base::steps::StepCounter;
use rkyv_btree_base::verify::verify_counted;
use std::alloc::Global;
use std::hash::{DefaultHasher, Hash, Hasher};
use std::ops::ControlFlow;

/// Opens the map at a position of a buffer. Where it is refused, appends the refusal.
pub(crate) fn opened<'a, K: CheckBytes, V: CheckBytes, const E: usize>(
    buf: &'a [u8],
    pos: u32,
    out: &mut String,
) -> anyhow::Result<Option<View<'a, ArchivedBTreeMap<K, V, E>>>> {
    ensure!(layout::fits::<K, V, E>(), "the map doesn't fit");
    match access::<K, V, E>(buf, pos) {
        Ok(map) => Ok(Some(map)),
        Err(refusal) => {
            write!(out, "refused: {refusal}")?;
            Ok(None)
        }
    }
}

/// The entries with which a visit calls its closure.
fn visited<K: Shown, V: Shown, const E: usize>(
    alloc: Global,
    map: &View<ArchivedBTreeMap<K, V, E>>,
) -> anyhow::Result<String> {
    let mut visited = String::new(alloc);
    let failed = map.visit(|key: View<K>, value: View<V>| match show_entry(
        key,
        value,
        &mut visited,
    ) {
        Ok(()) => ControlFlow::Continue(()),
        Err(error) => ControlFlow::Break(error),
    });
    match failed {
        Some(error) => Err(error.into()),
        None => Ok(visited),
    }
}

/// Appends the length of a map and its entries by an iterator. Those of a visit follow where they differ.
pub(crate) fn show_map<K: Shown, V: Shown, const E: usize>(
    alloc: Global,
    map: &View<ArchivedBTreeMap<K, V, E>>,
    out: &mut String,
) -> anyhow::Result<()> {
    let mut walked = String::new(alloc);
    for (key, value) in map.iter() {
        show_entry(key, value, &mut walked)?;
    }
    let len = map.len();
    write!(out, "{len}:{walked}")?;
    let visited = visited::<K, V, E>(alloc, map)?;
    if walked.as_str() != visited.as_str() {
        write!(out, " VISIT DIFFERS:{visited}")?;
    }
    Ok(())
}

/// Lists the map at a position of a buffer, or appends the refusal.
pub(crate) fn list<K: CheckBytes + Shown, V: CheckBytes + Shown, const E: usize>(
    alloc: Global,
    buf: &[u8],
    pos: u32,
    out: &mut String,
) -> anyhow::Result<()> {
    match opened::<K, V, E>(buf, pos, out)? {
        Some(map) => show_map::<K, V, E>(alloc, &map, out),
        None => Ok(()),
    }
}

/// Lists the map of a case.
pub(crate) fn open<K: CheckBytes + Shown, V: CheckBytes + Shown, const E: usize>(
    alloc: Global,
    case: &[u8],
    out: &mut String,
) -> anyhow::Result<()> {
    let mut input = Input { rest: case };
    let pos = input.number()?;
    list::<K, V, E>(alloc, input.rest, pos, out)
}

/// Appends how many keys and values the map of a case has by their iterators, and its first and its last entry.
pub(crate) fn ends<K: CheckBytes + Shown, V: CheckBytes + Shown, const E: usize>(
    case: &[u8],
    out: &mut String,
) -> anyhow::Result<()> {
    let mut input = Input { rest: case };
    let pos = input.number()?;
    let Some(map) = opened::<K, V, E>(input.rest, pos, out)? else {
        return Ok(());
    };
    let (keys, values) = (map.keys().len(), map.values().len());
    write!(out, "{keys} keys, {values} values:")?;
    for end in [map.first(), map.last()] {
        match end {
            None => write!(out, " none")?,
            Some((key, value)) => show_entry(key, value, out)?,
        }
    }
    Ok(())
}

/// Appends how many items an iterator has left by its length, and whether its hint differs.
fn show_left(left: usize, hint: (usize, Option<usize>), out: &mut String) -> anyhow::Result<()> {
    write!(out, "/{left}")?;
    if hint != (left, Some(left)) {
        write!(out, " HINT DIFFERS")?;
    }
    Ok(())
}

fn walk_entries<K: Shown, V: Shown, const E: usize>(
    map: &View<ArchivedBTreeMap<K, V, E>>,
    out: &mut String,
) -> anyhow::Result<()> {
    let mut entries = map.iter();
    show_left(entries.len(), entries.size_hint(), out)?;
    while let Some((key, value)) = entries.next() {
        show_entry(key, value, out)?;
        show_left(entries.len(), entries.size_hint(), out)?;
    }
    for _ in 0..2 {
        if entries.next().is_some() {
            write!(out, " GOES ON")?;
        }
        show_left(entries.len(), entries.size_hint(), out)?;
    }
    Ok(())
}

fn walk_keys<K: Shown, V: Portable, const E: usize>(
    map: &View<ArchivedBTreeMap<K, V, E>>,
    out: &mut String,
) -> anyhow::Result<()> {
    let mut keys = map.keys();
    show_left(keys.len(), keys.size_hint(), out)?;
    while let Some(key) = keys.next() {
        out.push(' ')?;
        K::show(&key, out)?;
        show_left(keys.len(), keys.size_hint(), out)?;
    }
    for _ in 0..2 {
        if keys.next().is_some() {
            write!(out, " GOES ON")?;
        }
        show_left(keys.len(), keys.size_hint(), out)?;
    }
    Ok(())
}

fn walk_values<K: Portable, V: Shown, const E: usize>(
    map: &View<ArchivedBTreeMap<K, V, E>>,
    out: &mut String,
) -> anyhow::Result<()> {
    let mut values = map.values();
    show_left(values.len(), values.size_hint(), out)?;
    while let Some(value) = values.next() {
        out.push(' ')?;
        V::show(&value, out)?;
        show_left(values.len(), values.size_hint(), out)?;
    }
    for _ in 0..2 {
        if values.next().is_some() {
            write!(out, " GOES ON")?;
        }
        show_left(values.len(), values.size_hint(), out)?;
    }
    Ok(())
}

/// Walks the entries, the keys and the values of a case's map, each twice past the end.
pub(crate) fn walk<K: CheckBytes + Shown, V: CheckBytes + Shown, const E: usize>(
    case: &[u8],
    out: &mut String,
) -> anyhow::Result<()> {
    let mut input = Input { rest: case };
    let pos = input.number()?;
    let Some(map) = opened::<K, V, E>(input.rest, pos, out)? else {
        return Ok(());
    };
    walk_entries::<K, V, E>(&map, out)?;
    out.push(';')?;
    walk_keys::<K, V, E>(&map, out)?;
    out.push(';')?;
    walk_values::<K, V, E>(&map, out)
}

/// Checks the map of a case in a window, and counts the nodes that are begun.
pub(crate) fn count<K: CheckBytes, V: CheckBytes, const E: usize>(
    case: &[u8],
    out: &mut String,
) -> anyhow::Result<()> {
    let mut input = Input { rest: case };
    let pos = input.number()?;
    let lo = input.number()?;
    let hi = input.number()?;
    ensure!(layout::fits::<K, V, E>(), "the map doesn't fit");
    ensure!(lo <= hi && hi <= pos, "no window");
    let mut steps = StepCounter::new();
    let checked = verify_counted::<K, V, E>(input.rest, pos, Window { lo, hi }, &mut steps);
    let begun = steps.count();
    match checked {
        Ok(Window { lo, hi }) => write!(out, "{begun} {lo}..{hi}")?,
        Err(refusal) => write!(out, "{begun} refused: {refusal}")?,
    }
    Ok(())
}

/// Checks a key or a value of a case by itself.
pub(crate) fn check<K: CheckBytes + Shown, V: CheckBytes + Shown>(
    case: &[u8],
    out: &mut String,
) -> anyhow::Result<()> {
    let mut input = Input { rest: case };
    let [part] = input.array::<1>()?;
    let pos = input.number()?;
    if part == 0 {
        check_part::<K>(input.rest, pos, out)
    } else {
        check_part::<V>(input.rest, pos, out)
    }
}

fn check_part<T: CheckBytes + Shown>(buf: &[u8], pos: u32, out: &mut String) -> anyhow::Result<()> {
    ensure!(T::fits(), "the type doesn't fit");
    match View::<T>::check(buf, pos) {
        Ok(view) => T::show(&view, out)?,
        Err(refusal) => write!(out, "refused: {refusal}")?,
    }
    Ok(())
}

/// Compares three maps of a case, the last of which has four entries a node, and hashes the first.
pub(crate) fn same<
    K: CheckBytes + ViewEq + ViewHash,
    V: CheckBytes + ViewEq + ViewHash,
    const E: usize,
>(case: &[u8], out: &mut String) -> anyhow::Result<()> {
    let mut input = Input { rest: case };
    let first = input.number()?;
    let second = input.number()?;
    let third = input.number()?;
    let Some(map) = opened::<K, V, E>(input.rest, first, out)? else {
        return Ok(());
    };
    let Some(alike) = opened::<K, V, E>(input.rest, second, out)? else {
        return Ok(());
    };
    let Some(other) = opened::<K, V, 4>(input.rest, third, out)? else {
        return Ok(());
    };
    let is_equal = map == alike;
    let has_its_entries = map.eq_entries(alike);
    let has_same_entries = map.eq_entries(other);
    let mut state = DefaultHasher::new();
    map.hash(&mut state);
    let hash = state.finish();
    write!(
        out,
        "{is_equal} {has_its_entries} {has_same_entries} {hash}"
    )?;
    Ok(())
}
