//! Whole archives of std's sets, of its maps of sets, and of types that no case of `replay` has: there and back, told from
//! those of other values, and refused where a byte of them is another.

use crate::shared::same;
use rkyv_btree::prelude::*;
use std::alloc::Global;
use std::collections::{BTreeMap, BTreeSet};
use std::num::NonZeroU32;
use std::process::Abort;
use std::test::Fail;

/// Asserts that a value is the same as what its archive holds, and that what comes back of this is equal to it.
fn comes_back<T>(rt: &impl Abort, alloc: Global, value: &T) -> Result<(), Fail>
where
    T: Archive + Serialize<VecWriter, Global> + PartialEq + Drop,
    T::Archived: CheckBytes + Deserialize<T> + SameAs<T>,
{
    assert!(rt; T::Archived::fits());
    let bytes = to_archive(alloc, value)?;
    let view = open::<T::Archived>(bytes.as_slice())?;
    assert!(rt; T::Archived::same_as(&view, value));
    let back: T = from_archive(alloc, bytes.as_slice())?;
    assert!(rt; back == *value);
    Ok(())
}

/// Whether the archive of a value holds the same as another native value.
fn holds_the_same<T>(rt: &impl Abort, alloc: Global, value: &T, other: &T) -> Result<bool, Fail>
where
    T: Archive + Serialize<VecWriter, Global>,
    T::Archived: CheckBytes + SameAs<T>,
{
    assert!(rt; T::Archived::fits());
    let bytes = to_archive(alloc, value)?;
    let view = open::<T::Archived>(bytes.as_slice())?;
    Ok(T::Archived::same_as(&view, other))
}

/// Asserts that the archive of a value, with another byte at a place, is refused so.
fn is_refused_with<T>(
    rt: &impl Abort,
    alloc: Global,
    value: &T,
    change: (usize, u8),
    refusal: Refusal,
) -> Result<(), Fail>
where
    T: Archive + Serialize<VecWriter, Global> + PartialEq + Drop,
    T::Archived: CheckBytes + Deserialize<T>,
{
    assert!(rt; T::Archived::fits());
    let mut bytes = to_archive(alloc, value)?;
    *bytes.get_mut(change.0).expect(rt, "a byte") = change.1;
    let made: Result<T, FromArchiveFault> = from_archive(alloc, bytes.as_slice());
    same(rt, made.err(), Some(FromArchiveFault::Refused(refusal)));
    Ok(())
}

/// The numbers below a count.
fn numbers(alloc: Global, count: u32) -> Result<BTreeSet<u32>, Fail> {
    let mut keys = BTreeSet::new(alloc);
    for number in 0..count {
        keys.insert(number)?;
    }
    Ok(keys)
}

/// The set of one text.
fn set_of(alloc: Global, text: &str) -> Result<BTreeSet<String>, Fail> {
    Ok(BTreeSet::from_array(alloc, [String::from_str(alloc, text)?])?)
}

// 36 keys make a tree of three levels.
#[test]
fn sets_come_back(rt: HostRuntime) -> Result<(), Fail> {
    let alloc = rt.alloc();
    comes_back(&rt, alloc, &numbers(alloc, 0)?)?;
    comes_back(&rt, alloc, &numbers(alloc, 36)?)?;
    comes_back(
        &rt,
        alloc,
        &BTreeSet::from_array(alloc, [(1u32, 2u8), (1, 3), (3, 4)])?,
    )?;
    let sets = [(7u32, set_of(alloc, "a")?), (8, set_of(alloc, "")?)];
    comes_back(&rt, alloc, &BTreeMap::from_array(alloc, sets)?)
}

#[test]
fn numbers_come_back(rt: HostRuntime) -> Result<(), Fail> {
    let alloc = rt.alloc();
    let short = [(i8::MIN, true), (-1, false), (0, true), (i8::MAX, false)];
    comes_back(&rt, alloc, &BTreeMap::from_array(alloc, short)?)?;
    let usual = [(i16::MIN, i64::MAX), (-1, -1), (0, 0), (i16::MAX, i64::MIN)];
    comes_back(&rt, alloc, &BTreeMap::from_array(alloc, usual)?)?;
    let long = [(i64::MIN, i16::MAX), (-1, -1), (0, 0), (i64::MAX, i16::MIN)];
    comes_back(&rt, alloc, &BTreeMap::from_array(alloc, long)?)?;
    let unsigned = [(0, i8::MAX), (255, -1), (256, 0), (u16::MAX, i8::MIN)];
    comes_back(&rt, alloc, &BTreeMap::from_array(alloc, unsigned)?)?;
    comes_back(
        &rt,
        alloc,
        &BTreeMap::from_array(alloc, [(false, ()), (true, ())])?,
    )
}

#[test]
fn characters_and_texts_come_back(rt: HostRuntime) -> Result<(), Fail> {
    let alloc = rt.alloc();
    let (least, greatest) = (NonZeroU32::MIN, NonZeroU32::MAX);
    let letters = [
        ('\0', greatest),
        ('\u{D7FF}', least),
        ('\u{E000}', greatest),
    ];
    comes_back(&rt, alloc, &BTreeMap::from_array(alloc, letters)?)?;
    let numbers = [(least, '\u{10FFFF}'), (greatest, '\0')];
    comes_back(&rt, alloc, &BTreeMap::from_array(alloc, numbers)?)?;
    let mut texts: BTreeMap<String, String> = BTreeMap::new(alloc);
    for (key, value) in [("a", "\u{E9}"), ("", "b"), ("bc", "")] {
        texts.insert(
            String::from_str(alloc, key)?,
            String::from_str(alloc, value)?,
        )?;
    }
    comes_back(&rt, alloc, &texts)
}

#[test]
fn texts_of_numbers_come_back(rt: HostRuntime) -> Result<(), Fail> {
    let alloc = rt.alloc();
    for count in [0, 1, 2, 3, 4, 5, 6, 17, 35, 36, 112, 215, 100000] {
        let mut texts: BTreeMap<String, u32> = BTreeMap::new(alloc);
        for number in 0..count {
            texts.insert(format!(in alloc; "{number}")?, number)?;
        }
        comes_back(&rt, alloc, &texts)?;
    }
    Ok(())
}

#[test]
fn other_sets_are_told_apart(rt: HostRuntime) -> Result<(), Fail> {
    let alloc = rt.alloc();
    let own = BTreeSet::from_array(alloc, [(1u32, 2u8), (3, 4)])?;
    let rows = [
        ([(1, 2), (3, 4)], true),
        ([(1, 2), (3, 5)], false),
        ([(1, 2), (4, 4)], false),
        ([(0, 2), (3, 4)], false),
    ];
    for (keys, is_same) in rows {
        let other = BTreeSet::from_array(alloc, keys)?;
        same(&rt, holds_the_same(&rt, alloc, &own, &other)?, is_same);
    }
    Ok(())
}

// The text comes first, then four bytes on the set's leaf of 48 bytes. In the outer one the set is the value at 76.
#[test]
fn a_damaged_set_in_a_map_is_a_bad_entry(rt: HostRuntime) -> Result<(), Fail> {
    let alloc = rt.alloc();
    let map = BTreeMap::from_array(alloc, [(7u32, set_of(alloc, "a")?)])?;
    for change in [(0, 0xFF), (4, 2), (12, 5), (48, 6), (80, 2)] {
        is_refused_with(&rt, alloc, &map, change, Refusal::BadEntry { pos: 76 })?;
    }
    Ok(())
}
