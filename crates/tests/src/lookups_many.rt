//! Lookups of many keys at once, beside as many lookups of one.

use crate::convert::opened;
use crate::numbers::archive;
use crate::read::number;
use crate::same::same;
use crate::texts::with_texts;
use rkyv_btree::unverified::Unverified;
use rkyv_btree::view::View;
use rkyv_btree_base::layout;
use rkyv_btree_base::map::ArchivedBTreeMap;
use rkyv_btree_base::numbers::ArchivedU32;
use rkyv_btree_base::place::VecWriter;
use rkyv_btree_base::refusal::Refusal;
use rkyv_btree_base::text::ArchivedText;
use std::alloc::{AllocError, Global};
use std::process::Abort;
use std::test::Fail;

/// So many entries, whose keys are odd.
fn odd(alloc: Global, count: u32) -> Result<Vec<(u32, u32)>, AllocError> {
    let mut entries = Vec::new(alloc);
    for index in 0..count {
        entries.push((
            index.wrapping_mul(2).wrapping_add(1),
            index.wrapping_mul(10),
        ))?;
    }
    Ok(entries)
}

/// So many keys, in an order of their own. Each second one is even.
fn keys(alloc: Global, count: u32) -> Result<Vec<u32>, AllocError> {
    let mut keys = Vec::new(alloc);
    for index in 0..count {
        keys.push(index.wrapping_mul(7) % count.max(1))?;
    }
    Ok(keys)
}

/// Asserts that the lookups of these keys return what as many lookups of one return.
fn find_the_same<const E: usize>(
    rt: &impl Abort,
    map: View<ArchivedBTreeMap<ArchivedU32, ArchivedU32, E>>,
    keys: &[u32],
) {
    let mut found = map.get_many_by(keys);
    for (index, key) in keys.iter().enumerate() {
        assert_eq!(rt; found.len(), keys.len().saturating_sub(index));
        let value = found.next().expect(rt, "a result");
        assert_eq!(rt; value.map(number), map.get_by(*key).map(number), "{key}");
    }
    assert!(rt; found.next().is_none());
    assert!(rt; found.next().is_none());
}

/// Asserts that of lookups without validation, which may fail.
fn give_the_same<const E: usize>(rt: &impl Abort, buf: &[u8], pos: u32, keys: &[u32]) {
    assert!(rt; layout::fits::<ArchivedU32, ArchivedU32, E>());
    let map = Unverified::<ArchivedBTreeMap<ArchivedU32, ArchivedU32, E>>::new(buf, pos);
    let mut found = map.get_many_by(keys);
    for (index, key) in keys.iter().enumerate() {
        assert_eq!(rt; found.len(), keys.len().saturating_sub(index));
        let item = found.next().expect(rt, "a result");
        assert_eq!(rt; outcome(item), outcome(map.get_by(*key)), "{key}");
    }
    assert!(rt; found.next().is_none());
    assert!(rt; found.next().is_none());
}

/// Asserts that of a map of which each byte is changed in turn.
fn give_the_same_when_damaged<const E: usize>(
    rt: &impl Abort,
    bytes: &mut [u8],
    pos: u32,
    keys: &[u32],
) {
    for index in 0..bytes.len() {
        let byte = bytes[index];
        bytes[index] = byte.wrapping_add(1);
        give_the_same::<E>(rt, bytes, pos, keys);
        bytes[index] = byte;
    }
}

/// Returns the number that a lookup found, or its error.
fn outcome(found: Result<Option<View<ArchivedU32>>, Refusal>) -> Result<Option<u32>, Refusal> {
    match found {
        Err(refusal) => Err(refusal),
        Ok(value) => Ok(value.map(number)),
    }
}

/// Asserts that of maps of so many entries, some of which are a batch long or one more.
fn find_the_same_in_maps<const E: usize>(rt: &impl Abort, alloc: Global) -> Result<(), Fail> {
    for count in [0u32, 1, 2, 5, 6, 15, 16, 17, 33, 300] {
        let mut writer = VecWriter::new(alloc);
        let entries = odd(alloc, count)?;
        let root = archive::<E>(rt, alloc, entries.len(), &entries, &mut writer)?;
        let map = opened::<ArchivedU32, ArchivedU32, E>(rt, writer.bytes(), root);
        let keys = keys(alloc, count.wrapping_mul(2).wrapping_add(3))?;
        find_the_same::<E>(rt, map, &keys);
        for len in [0usize, 1, 15, 16, 17, 31, 32, 33] {
            if let Some(some) = keys.get(..len) {
                find_the_same::<E>(rt, map, some);
                give_the_same::<E>(rt, map.buf, map.pos, some);
            }
        }
    }
    Ok(())
}

#[test]
fn many_lookups_in_damaged_maps_give_what_single_ones_give(rt: HostRuntime) -> Result<(), Fail> {
    let alloc = rt.alloc();
    let mut writer = VecWriter::new(alloc);
    let entries = odd(alloc, 40)?;
    let root = archive::<2>(&rt, alloc, entries.len(), &entries, &mut writer)?;
    let keys = keys(alloc, 33)?;
    let mut bytes = writer.into_vec();
    give_the_same_when_damaged::<2>(&rt, bytes.as_mut_slice(), root, &keys);
    Ok(())
}

#[test]
fn many_lookups_find_what_single_ones_find(rt: HostRuntime) -> Result<(), Fail> {
    let alloc = rt.alloc();
    find_the_same_in_maps::<1>(&rt, alloc)?;
    find_the_same_in_maps::<2>(&rt, alloc)?;
    find_the_same_in_maps::<5>(&rt, alloc)
}

#[test]
fn many_lookups_of_texts_find_what_single_ones_find(rt: HostRuntime) -> Result<(), Fail> {
    let alloc = rt.alloc();
    let texts = with_texts(alloc, &[("", 1u32), ("apple", 2), ("fig", 3), ("pear", 4)])?;
    let mut writer = VecWriter::new(alloc);
    let root = crate::convert::archive::<String, u32, _, _, 2>(&rt, alloc, &texts, &mut writer)?;
    let map = opened::<ArchivedText, ArchivedU32, 2>(&rt, writer.bytes(), root);
    let names = ["pear", "plum", "", "fig", "apples", "apple", "apple"];
    let mut count = 0u32;
    for (name, value) in names.iter().zip(map.get_many_by(&names)) {
        same(&rt, value.map(number), map.get_by(*name).map(number));
        count = count.wrapping_add(u32::from(value.is_some()));
    }
    same(&rt, count, 5);
    Ok(())
}
