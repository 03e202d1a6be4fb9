//! Calls that take no memory. Each prints a line, which takes none either.

use crate::archives::{four_texts, map_of, set_of, tens};
use anyhow::{Context, ensure};
use linked_list_allocator::LocalHeap;
use rkyv_btree::prelude::*;
use rkyv_btree::seal::{LentKey, Seal};
use rkyv_btree::strict::verify_strict;
use rkyv_btree_base::check::Window;
use rkyv_btree_base::layout;
use rkyv_btree_base::place::Place;
use rkyv_btree_base::steps::StepCounter;
use rkyv_btree_base::verify::{verify, verify_counted};
use std::alloc::Global;
use std::collections::{BTreeMap, BTreeSet};
use std::hash::{DefaultHasher, Hash, Hasher};
use std::io;
use std::ops::{Bound, ControlFlow};

type Numbers = ArchivedBTreeMap<ArchivedU32, ArchivedU32, 5>;

/// The archives that are read, and the native values of which they were made.
#[derive(Drop)]
pub(crate) struct Archives {
    map: BTreeMap<u32, u32>,
    set: BTreeSet<u32>,
    numbers: Vec<u8>,
    keys: Vec<u8>,
    texts: Vec<u8>,
}

impl Archives {
    /// Returns the archives of 17 numbers with their tenfold, of 7 keys, and of 4 texts.
    pub(crate) fn new(alloc: Global) -> anyhow::Result<Archives> {
        ensure!(
            Archived::<BTreeMap<u32, u32>>::fits(),
            "no node of these types fits"
        );
        ensure!(
            Archived::<BTreeSet<u32>>::fits(),
            "no node of these types fits"
        );
        ensure!(
            Archived::<BTreeMap<String, i32>>::fits(),
            "no node of these types fits"
        );
        let map = map_of(alloc, tens(alloc, 17)?)?;
        let set = set_of(alloc, 7)?;
        let numbers = to_archive(alloc, &map)?;
        let keys = to_archive(alloc, &set)?;
        let texts = to_archive(alloc, &four_texts(alloc)?)?;
        Ok(Archives {
            map,
            set,
            numbers,
            keys,
            texts,
        })
    }
}

/// Prints whether the result of a call is right.
fn tell<R: Print>(rt: &R, name: &str, is_right: bool) -> io::Result<()> {
    let word = if is_right { "right" } else { "WRONG" };
    println!(rt; "without memory, {name}: {word}")
}

/// Validates an archive.
fn validate<R: Print>(rt: &R, buf: &[u8]) -> anyhow::Result<()> {
    ensure!(
        layout::fits::<ArchivedU32, ArchivedU32, 5>(),
        "no node of these types fits"
    );
    let hi = 212;
    let whole = Window { lo: 0, hi };
    let left = Ok(Window { lo: 212, hi });
    let mut steps = StepCounter::new();
    tell(
        rt,
        "verify",
        verify::<ArchivedU32, ArchivedU32, 5>(buf, hi, whole) == left,
    )?;
    let counted = verify_counted::<ArchivedU32, ArchivedU32, 5>(buf, hi, whole, &mut steps);
    tell(rt, "verify_counted", counted == left && steps.count() == 4)?;
    let strict = verify_strict::<ArchivedU32, ArchivedU32, 5>(buf, hi, whole);
    tell(rt, "verify_strict", strict == left)?;
    let number = View::<ArchivedU32>::check(buf, 4)?;
    tell(rt, "View::check", number.to_native() == 1)?;
    let opened = open_strict::<Numbers>(buf)?;
    tell(rt, "open_strict", opened.len() == 17)?;
    let (_, part) = buf.split_last().context("no bytes")?;
    let refused = open_strict::<Numbers>(part);
    tell(rt, "open_strict of a part", refused.is_err())?;
    Ok(())
}

/// Iterates over a map's entries, keys and values.
fn iterate<R: Print>(rt: &R, map: View<'_, Numbers>) -> anyhow::Result<()> {
    let mut sum: u32 = 0;
    for (key, value) in map.iter() {
        sum = sum
            .wrapping_add(key.to_native())
            .wrapping_add(value.to_native());
    }
    tell(rt, "iter", sum == 1683)?;
    let mut sum: u32 = 0;
    for key in map.keys() {
        sum = sum.wrapping_add(key.to_native());
    }
    tell(rt, "keys", sum == 153)?;
    let mut sum: u32 = 0;
    for value in map.values() {
        sum = sum.wrapping_add(value.to_native());
    }
    tell(rt, "values", sum == 1530)?;
    let seventh = map.visit(|key: View<ArchivedU32>, value: View<ArchivedU32>| {
        if key.to_native() == 7 {
            return ControlFlow::Break(value.to_native());
        }
        ControlFlow::Continue(())
    });
    tell(rt, "visit", seventh == Some(70))?;
    Ok(())
}

/// Looks up keys, and iterates over ranges.
fn look_up<R: Print>(rt: &R, map: View<'_, Numbers>) -> anyhow::Result<()> {
    let (key, value) = map.get_key_value_by(9).context("no entry")?;
    tell(rt, "get_key_value_by", value.to_native() == 90)?;
    tell(
        rt,
        "get",
        map.get(key).map(|found| found.to_native()) == Some(90),
    )?;
    tell(rt, "get_by", map.get_by(18).is_none())?;
    tell(
        rt,
        "contains_key",
        map.contains_key(key) && !map.contains_by(0),
    )?;
    let (first, _) = map.get_key_value_by(1).context("no entry")?;
    tell(rt, "< of keys", first < key)?;
    let mut sum: u32 = 0;
    for (key, _) in map.range_by(Bound::Included(5), Bound::Excluded(8)) {
        sum = sum.wrapping_add(key.to_native());
    }
    tell(rt, "range_by", sum == 18)?;
    let mut count: u32 = 0;
    for _ in map.range(Bound::Excluded(key), Bound::Unbounded) {
        count = count.wrapping_add(1);
    }
    tell(rt, "range", count == 8)?;
    Ok(())
}

/// Compares a map with itself and with a native one, and makes native values.
fn compare<R: Print>(
    rt: &R,
    map: View<'_, Numbers>,
    native: &BTreeMap<u32, u32>,
) -> anyhow::Result<()> {
    tell(rt, "==", map == map)?;
    tell(rt, "eq_entries", map.eq_entries(map))?;
    tell(rt, "eq_map", map.eq_map(native))?;
    let (mut first, mut second) = (DefaultHasher::new(), DefaultHasher::new());
    map.hash(&mut first);
    map.hash(&mut second);
    tell(rt, "hash", first.finish() == second.finish())?;
    Ok(())
}

/// Reads a set and a map of texts.
fn read_others<R: Print>(rt: &R, alloc: Global, archives: &Archives) -> anyhow::Result<()> {
    ensure!(
        layout::fits::<ArchivedU32, (), 5>(),
        "no node of these types fits"
    );
    ensure!(
        layout::fits::<ArchivedText, ArchivedI32, 5>(),
        "no node of these types fits"
    );
    ensure!(
        Archived::<BTreeSet<u32>>::fits(),
        "no node of these types fits"
    );
    let set = open::<ArchivedBTreeSet<ArchivedU32, 5>>(&archives.keys)?;
    tell(rt, "open of a set", set.len() == 7)?;
    tell(
        rt,
        "contains_by of a set",
        set.contains_by(7) && !set.contains_by(8),
    )?;
    tell(rt, "eq_set", set.eq_set(&archives.set))?;
    let strict = open_strict::<ArchivedBTreeSet<ArchivedU32, 5>>(&archives.keys)?;
    tell(rt, "open_strict of a set", strict.contains_by(3))?;
    let texts = open_strict::<ArchivedBTreeMap<ArchivedText, ArchivedI32, 5>>(&archives.texts)?;
    let (key, value) = texts.get_key_value_by("baz").context("no text")?;
    tell(rt, "as_str", key.as_str() == "baz")?;
    let number: i32 = ArchivedI32::deserialize(alloc, &value)?;
    tell(rt, "deserialize of a number", number == 40)?;
    Ok(())
}

/// Writes in place: by keys, by a visit, and along a cursor.
fn write_in_place<R: Print>(rt: &R, buf: &mut [u8]) -> anyhow::Result<()> {
    ensure!(
        layout::fits::<ArchivedU32, ArchivedU32, 5>(),
        "no node of these types fits"
    );
    let mut map = access_mut::<ArchivedU32, ArchivedU32, 5>(buf, 212)?;
    tell(rt, "set_by", map.set_by(9, 91) && !map.set_by(18, 1))?;
    map.visit_seal(|_: LentKey<ArchivedU32>, value: &mut Seal<ArchivedU32>| {
        let old = value.read();
        value.write(old.wrapping_add(1));
        ControlFlow::<(), ()>::Continue(())
    });
    tell(
        rt,
        "visit_seal",
        map.as_view().get_by(9).map(|value| value.to_native()) == Some(92),
    )?;
    let mut cursor = map.iter_seal();
    let mut sum: u32 = 0;
    for _ in 0..18 {
        if !cursor.next() {
            break;
        }
        let old = cursor.read();
        sum = sum.wrapping_add(old);
        cursor.write(old.wrapping_sub(1));
    }
    tell(rt, "iter_seal", sum == 1548)?;
    let mut map = access_mut::<ArchivedU32, ArchivedU32, 5>(buf, 212)?;
    tell(rt, "set_by again", map.set_by(9, 90))?;
    Ok(())
}

/// Writes in place by a seal, and along the cursors of a range and of the values.
fn write_along<R: Print>(rt: &R, buf: &mut [u8]) -> anyhow::Result<()> {
    ensure!(
        layout::fits::<ArchivedU32, ArchivedU32, 5>(),
        "no node of these types fits"
    );
    let mut map = access_mut::<ArchivedU32, ArchivedU32, 5>(buf, 212)?;
    let old = map.with_seal_by(
        9,
        |_: LentKey<ArchivedU32>, value: &mut Seal<ArchivedU32>| {
            let old = value.read();
            value.write(old);
            old
        },
    );
    tell(rt, "with_seal_by", old == Some(90))?;
    let mut range = map.range_seal_by(Bound::Included(5), Bound::Excluded(8));
    let mut sum: u32 = 0;
    for _ in 0..18 {
        if !range.next() {
            break;
        }
        sum = sum.wrapping_add(range.read());
        range.write(7);
    }
    tell(rt, "range_seal_by", sum == 180)?;
    let map = access_mut::<ArchivedU32, ArchivedU32, 5>(buf, 212)?;
    let mut values = map.values_seal();
    let mut tens: u32 = 0;
    let mut sum: u32 = 0;
    for _ in 0..18 {
        if !values.next() {
            break;
        }
        tens = tens.wrapping_add(10);
        sum = sum.wrapping_add(values.read());
        values.write(tens);
    }
    tell(rt, "values_seal", sum == 1371)?;
    Ok(())
}

/// Serializes what takes no memory, in the least heap, which has room for 16 bytes.
fn serialize<R: Print>(rt: &R, heap: &LocalHeap) -> anyhow::Result<()> {
    ensure!(
        layout::fits::<ArchivedU32, ArchivedU32, 5>(),
        "no node of these types fits"
    );
    ensure!(ArchivedU32::fits(), "no node of these types fits");
    let mut writer = IoWriter::new(io::sink());
    let none: [(u32, u32); 0] = [];
    let items = none.iter().map(|entry: &(u32, u32)| (&entry.0, &entry.1));
    let tree = Numbers::serialize_from_ordered_iter(heap, 0, items, &mut writer)?;
    let mut own = [9; 8];
    let resolved = Numbers::resolve_from_len(0, tree, Place::new(0, &mut own));
    tell(
        rt,
        "claim 0 and resolve_from_len",
        resolved.is_ok() && own == [1, 0, 0, 0, 0, 0, 0, 0],
    )?;
    let one = [(1, 10)];
    let items = one.iter().map(|entry: &(u32, u32)| (&entry.0, &entry.1));
    let passed = Numbers::serialize_from_ordered_iter(heap, 0, items, &mut writer);
    tell(
        rt,
        "claim 0, passed",
        matches!(passed, Err(Fault::Length(_))),
    )?;
    let items = one.iter().map(|entry: &(u32, u32)| (&entry.0, &entry.1));
    let refused = Numbers::serialize_from_ordered_iter(heap, 1, items, &mut writer);
    tell(
        rt,
        "claim 1 in the least heap",
        matches!(refused, Err(Fault::Memory(_))),
    )?;
    let number: Result<(), Fault<io::Error>> = 7u32.serialize(heap, &mut writer);
    tell(rt, "serialize of a number", number.is_ok())?;
    Ok(())
}

/// Makes each call once. The archives are as before then.
pub(crate) fn show<R: Print>(
    rt: &R,
    alloc: Global,
    archives: &mut Archives,
    heap: &LocalHeap,
) -> anyhow::Result<()> {
    ensure!(
        layout::fits::<ArchivedU32, ArchivedU32, 5>(),
        "no node of these types fits"
    );
    validate(rt, &archives.numbers)?;
    let map = access::<ArchivedU32, ArchivedU32, 5>(&archives.numbers, 212)?;
    tell(rt, "access", map.len() == 17 && !map.is_empty())?;
    iterate(rt, map)?;
    look_up(rt, map)?;
    compare(rt, map, &archives.map)?;
    read_others(rt, alloc, archives)?;
    write_in_place(rt, &mut archives.numbers)?;
    write_along(rt, &mut archives.numbers)?;
    serialize(rt, heap)
}
