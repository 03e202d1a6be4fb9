//! The headline's functions, at maps of numbers.
use crate::shared::{number, same};
use examples::headline::{
    ArchiveAt, archived, archived_set, archived_std_map, archived_std_set, looked_up,
    looked_up_in_set, sealed, visited, walk_of_set, walks, within, within_set,
};
use rkyv_btree::base::fault::{Fault, IteratorLengthMismatch};
use rkyv_btree::base::layout;
use rkyv_btree::base::numbers::ArchivedU32;
use rkyv_btree::base::refusal::Refusal;
use rkyv_btree::map::access;
use rkyv_btree::view::View;
use std::alloc::{AllocError, Global};
use std::collections::{BTreeMap, BTreeSet};
use std::ops::{Bound, ControlFlow};
use std::process::Abort;
use std::test::Fail;

const ENTRIES: [(u32, u32); 5] = [(1, 10), (3, 30), (5, 50), (7, 70), (9, 90)];

/// The archive of the entries, two in a node, which are claimed to be so many.
fn archive(rt: &impl Abort, alloc: Global, claim: usize) -> Result<ArchiveAt, Fault<AllocError>> {
    assert!(rt; layout::fits::<ArchivedU32, ArchivedU32, 2>());
    let items = ENTRIES.iter().map(|entry| (&entry.0, &entry.1));
    archived::<ArchivedU32, ArchivedU32, u32, u32, _, 2>(alloc, claim, items)
}

// Three nodes of two entries at most: an inner one over two leaves, and of five entries one stands in it.
#[test]
fn items_are_archived(rt: HostRuntime) -> Result<(), Fail> {
    let made = archive(&rt, rt.alloc(), 5)?;
    same(&rt, made.pos as usize + 8, made.bytes.len());
    same(&rt, made.bytes.len(), 2 * 24 + 32 + 8);
    let told = match archive(&rt, rt.alloc(), 4) {
        Err(Fault::Length(IteratorLengthMismatch { expected, actual })) => (expected, actual),
        _ => (0, 0),
    };
    same(&rt, told, (4, 5));
    Ok(())
}

const KEYS: [u32; 5] = [1, 3, 5, 7, 9];

#[test]
fn keys_are_archived_and_found(rt: HostRuntime) -> Result<(), Fail> {
    assert!(rt; layout::fits::<ArchivedU32, (), 2>());
    let made = archived_set::<ArchivedU32, u32, _, 2>(rt.alloc(), KEYS.len(), KEYS.iter())?;
    same(&rt, made.bytes.len(), 2 * 16 + 24 + 8);
    let (len, given) = walk_of_set::<ArchivedU32, 2>(&made.bytes, made.pos)?;
    same(&rt, (len, given.count()), (5, 5));
    let (low, high) = (3u32.to_le_bytes(), 8u32.to_le_bytes());
    let low = View::<ArchivedU32>::check(&low, 0)?;
    let high = View::<ArchivedU32>::check(&high, 0)?;
    let found = looked_up_in_set::<ArchivedU32, 2>(&made.bytes, made.pos, low)?;
    same(&rt, found.is_some(), true);
    let found = looked_up_in_set::<ArchivedU32, 2>(&made.bytes, made.pos, high)?;
    same(&rt, found.is_some(), false);
    let (low, high) = (Bound::Included(low), Bound::Excluded(high));
    let mut left = &KEYS[1..4];
    for key in within_set::<ArchivedU32, 2>(&made.bytes, made.pos, low, high)? {
        let (wanted, rest) = left.split_first().ok_or("too many keys")?;
        same(&rt, key.to_native(), *wanted);
        left = rest;
    }
    assert!(rt; left.is_empty());
    Ok(())
}

#[test]
fn std_types_are_archived(rt: HostRuntime) -> Result<(), Fail> {
    let alloc = rt.alloc();
    assert!(rt; layout::fits::<ArchivedU32, ArchivedU32, 5>());
    assert!(rt; layout::fits::<ArchivedU32, (), 5>());
    let map = BTreeMap::from_array(alloc, ENTRIES)?;
    let mut set: BTreeSet<u32> = BTreeSet::new(alloc);
    set.insert(7)?;
    let made = archived_std_map(alloc, &map)?;
    let given = walks::<ArchivedU32, ArchivedU32, 5>(&made.bytes, made.pos)?;
    same(&rt, given.len, 5);
    let made = archived_std_set(alloc, &set)?;
    let opened = rkyv_btree::set::access::<ArchivedU32, 5>(made.bytes.as_slice(), made.pos)?;
    same(&rt, opened.len(), 1);
    Ok(())
}

#[test]
fn walks_give_the_entries(rt: HostRuntime) -> Result<(), Fail> {
    let made = archive(&rt, rt.alloc(), 5)?;
    assert!(rt; layout::fits::<ArchivedU32, ArchivedU32, 2>());
    let given = walks::<ArchivedU32, ArchivedU32, 2>(&made.bytes, made.pos)?;
    same(&rt, given.len, 5);
    let mut left = ENTRIES.as_slice();
    let mut keys = given.keys;
    let mut values = given.values;
    for (key, value) in given.entries {
        let (wanted, rest) = left.split_first().ok_or("too many entries")?;
        same(&rt, (key.to_native(), value.to_native()), *wanted);
        same(&rt, keys.next().map(number), Some(wanted.0));
        same(&rt, values.next().map(number), Some(wanted.1));
        left = rest;
    }
    assert!(rt; left.is_empty());
    Ok(())
}

#[test]
fn a_visit_ends_at_a_break(rt: HostRuntime) -> Result<(), Fail> {
    let made = archive(&rt, rt.alloc(), 5)?;
    assert!(rt; layout::fits::<ArchivedU32, ArchivedU32, 2>());
    let map = access::<ArchivedU32, ArchivedU32, 2>(&made.bytes, made.pos)?;
    let broken = visited(map, |key: View<ArchivedU32>, value: View<ArchivedU32>| {
        if key.to_native() > 4 {
            ControlFlow::Break(value.to_native())
        } else {
            ControlFlow::Continue(())
        }
    });
    same(&rt, broken, Some(50));
    Ok(())
}

#[test]
fn keys_are_looked_up(rt: HostRuntime) -> Result<(), Fail> {
    let made = archive(&rt, rt.alloc(), 5)?;
    for (key, wanted) in [
        (0u32, None),
        (1, Some(10)),
        (4, None),
        (9, Some(90)),
        (10, None),
    ] {
        same(&rt, finds(&rt, &made.bytes, made.pos, key)?, wanted);
    }
    Ok(())
}

#[test]
fn ranges_are_within_their_bounds(rt: HostRuntime) -> Result<(), Fail> {
    let made = archive(&rt, rt.alloc(), 5)?;
    assert!(rt; layout::fits::<ArchivedU32, ArchivedU32, 2>());
    let (low, high) = (3u32.to_le_bytes(), 8u32.to_le_bytes());
    let low = Bound::Included(View::<ArchivedU32>::check(&low, 0)?);
    let high = Bound::Excluded(View::<ArchivedU32>::check(&high, 0)?);
    let mut left = &ENTRIES[1..4];
    for (key, value) in within::<ArchivedU32, ArchivedU32, 2>(&made.bytes, made.pos, low, high)? {
        let (wanted, rest) = left.split_first().ok_or("too many entries")?;
        same(&rt, (key.to_native(), value.to_native()), *wanted);
        left = rest;
    }
    assert!(rt; left.is_empty());
    Ok(())
}

#[test]
fn one_value_is_sealed(rt: HostRuntime) -> Result<(), Fail> {
    let mut made = archive(&rt, rt.alloc(), 5)?;
    let before = made.bytes.clone()?;
    let is_written = writes(&rt, &mut made.bytes, made.pos, 5, 51);
    same(&rt, is_written, Ok(true));
    let changed = before
        .iter()
        .zip(made.bytes.iter())
        .filter(|pair| pair.0 != pair.1);
    same(&rt, changed.count(), 1);
    same(&rt, finds(&rt, &made.bytes, made.pos, 5)?, Some(51));
    let absent = writes(&rt, &mut made.bytes, made.pos, 6, 61);
    same(&rt, absent, Ok(false));
    let misplaced = writes(&rt, &mut made.bytes, 1, 5, 0);
    same(&rt, misplaced, Err(Refusal::Misaligned { pos: 1 }));
    Ok(())
}

/// Whether a key has a value that is written then.
fn writes(
    rt: &impl Abort,
    bytes: &mut [u8],
    pos: u32,
    key: u32,
    value: u32,
) -> Result<bool, Refusal> {
    assert!(rt; layout::fits::<ArchivedU32, ArchivedU32, 2>());
    let key = key.to_le_bytes();
    let key = View::<ArchivedU32>::check(&key, 0)?;
    sealed::<ArchivedU32, ArchivedU32, 2>(bytes, pos, key, value)
}

/// The value of a key.
fn finds(rt: &impl Abort, bytes: &[u8], pos: u32, key: u32) -> Result<Option<u32>, Refusal> {
    assert!(rt; layout::fits::<ArchivedU32, ArchivedU32, 2>());
    let key = key.to_le_bytes();
    let key = View::<ArchivedU32>::check(&key, 0)?;
    let found = looked_up::<ArchivedU32, ArchivedU32, 2>(bytes, pos, key)?;
    Ok(found.map(|entry: (View<ArchivedU32>, View<ArchivedU32>)| entry.1.to_native()))
}
