//! Lookups in bytes that nobody has validated.

use crate::asking::viewed;
use crate::input::Input;
use crate::shown::{Shown, show_entry};
use anyhow::ensure;
use rkyv_btree::prelude::*;
use rkyv_btree_base::layout;
use rkyv_btree_base::steps::StepCounter;
use std::alloc::Global;

/// What a lookup finds, by the position of its key.
type Place = Result<Option<u32>, Refusal>;

/// Appends which of the other forms of a lookup don't find the same.
fn show_others<K: CheckBytes + ViewOrd, V: CheckBytes, const E: usize>(
    map: Unverified<'_, ArchivedBTreeMap<K, V, E>>,
    query: View<'_, K>,
    place: Place,
    out: &mut String,
) -> anyhow::Result<()> {
    let found = match map.get_key_value(query) {
        Ok(Some((key, _))) => Ok(Some(key.pos)),
        Ok(None) => Ok(None),
        Err(refusal) => Err(refusal),
    };
    let is_there = match place {
        Ok(key) => Ok(key.is_some()),
        Err(refusal) => Err(refusal),
    };
    if found != place || map.contains_key(query) != is_there {
        write!(out, " FORMS DIFFER")?;
    }
    if let Ok(view) = access::<K, V, E>(map.buf, map.pos) {
        let found = view.get_key_value(query).map(|entry| entry.0.pos);
        if place != Ok(found) {
            write!(out, " VIEW DIFFERS")?;
        }
    }
    Ok(())
}

/// Appends an entry and its position, or that there is none, and returns the position.
fn show_found<K: Shown, V: Shown>(
    entry: Option<(View<'_, K>, View<'_, V>)>,
    out: &mut String,
) -> anyhow::Result<Option<u32>> {
    let Some((key, value)) = entry else {
        write!(out, " none")?;
        return Ok(None);
    };
    let at = key.pos;
    show_entry(key, value, out)?;
    write!(out, " at {at}")?;
    Ok(Some(at))
}

/// Looks up a key of a case in bytes that aren't validated, and counts the keys and the nodes that are read.
pub(crate) fn lookup<K: CheckBytes + ViewOrd + Shown, V: CheckBytes + Shown, const E: usize>(
    case: &[u8],
    out: &mut String,
) -> anyhow::Result<()> {
    let mut input = Input { rest: case };
    let pos = input.number()?;
    let at = input.number()?;
    ensure!(layout::fits::<K, V, E>(), "the map doesn't fit");
    let query = viewed::<K>(input.rest, at)?;
    let map = Unverified::<ArchivedBTreeMap<K, V, E>>::new(input.rest, pos);
    let compare = |query: &View<'_, K>, key: View<K>| K::compare(query, &key);
    let mut keys = StepCounter::new();
    let mut nodes = StepCounter::new();
    let found = map.get_key_value_counted(&query, compare, &mut keys, &mut nodes);
    let (keys, nodes) = (keys.count(), nodes.count());
    write!(out, "{keys} {nodes}")?;
    let place = match found {
        Ok(entry) => Ok(show_found(entry, out)?),
        Err(refusal) => {
            write!(out, " refused: {refusal}")?;
            Err(refusal)
        }
    };
    show_others::<K, V, E>(map, query, place, out)
}

/// Appends an item of an iterator: the entry, or the refusal. Returns whether it is an entry.
fn show_item<K: Shown, V: Shown>(
    item: Result<(View<'_, K>, View<'_, V>), Refusal>,
    out: &mut String,
) -> anyhow::Result<bool> {
    match item {
        Ok((key, value)) => {
            show_entry(key, value, out)?;
            Ok(true)
        }
        Err(refusal) => {
            write!(out, " refused: {refusal}")?;
            Ok(false)
        }
    }
}

/// Goes along the entries of a case in bytes that aren't validated, up to their end or a refusal.
pub(crate) fn iterate<K: CheckBytes + Shown, V: CheckBytes + Shown, const E: usize>(
    alloc: Global,
    case: &[u8],
    out: &mut String,
) -> anyhow::Result<()> {
    let mut input = Input { rest: case };
    let pos = input.number()?;
    ensure!(layout::fits::<K, V, E>(), "the map doesn't fit");
    let map = Unverified::<ArchivedBTreeMap<K, V, E>>::new(input.rest, pos);
    let mut items = map.iter();
    let mut shown = String::new(alloc);
    let mut count = 0u32;
    while let Some(item) = items.next() {
        if show_item::<K, V>(item, &mut shown)? {
            count = count.wrapping_add(1);
        }
    }
    write!(out, "{count}:{shown}")?;
    if items.next().is_some() {
        write!(out, " GOES ON")?;
    }
    if let Ok(view) = access::<K, V, E>(map.buf, map.pos) {
        let mut entries = String::new(alloc);
        for (key, value) in view.iter() {
            show_entry(key, value, &mut entries)?;
        }
        if entries.as_str() != shown.as_str() {
            write!(out, " VIEW DIFFERS")?;
        }
    }
    Ok(())
}
