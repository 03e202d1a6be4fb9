//! Ranges between bounds that are native values, or that a function of one's own compares.

use crate::convert::{archive, opened};
use crate::read::text_and_number;
use crate::same::same;
use rkyv_btree::view::View;
use rkyv_btree_base::map::ArchivedBTreeMap;
use rkyv_btree_base::numbers::ArchivedU32;
use rkyv_btree_base::place::VecWriter;
use rkyv_btree_base::scalars::ArchivedChar;
use rkyv_btree_base::text::ArchivedText;
use std::alloc::Global;
use std::ops::Bound;
use std::process::Abort;
use std::test::Fail;

/// The letters from a to y, each with its number.
fn letters(alloc: Global) -> Result<Vec<(String, u32)>, Fail> {
    let mut entries = Vec::new(alloc);
    for letter in 'a'..='y' {
        let mut text = String::new(alloc);
        text.push(letter)?;
        entries.push((text, u32::from(letter)))?;
    }
    Ok(entries)
}

/// The range of letters from d to before w has their numbers.
fn has_range_by_first_characters(
    rt: &impl Abort,
    map: &View<ArchivedBTreeMap<ArchivedText, ArchivedU32, 5>>,
) {
    let mut range = map.range_with(
        Bound::Included(&'d'),
        Bound::Excluded(&'w'),
        |letter: &char, key: View<ArchivedText>| Some(*letter).cmp(&key.as_str().chars().next()),
    );
    for letter in 'd'..='v' {
        let met = range.next().map(text_and_number);
        let met_number = met.map(|entry: (&str, u32)| entry.1);
        same(rt, met_number, Some(u32::from(letter)));
    }
    assert!(rt; range.next().is_none());
}

// By the first character of each text, and by a text.
#[test]
fn ranges_of_texts(rt: HostRuntime) -> Result<(), Fail> {
    let entries = letters(rt.alloc())?;
    let mut writer = VecWriter::new(rt.alloc());
    let root = archive::<String, u32, _, _, 5>(&rt, rt.alloc(), &entries, &mut writer)?;
    let map = opened::<ArchivedText, ArchivedU32, 5>(&rt, writer.bytes(), root);
    has_range_by_first_characters(&rt, &map);
    let mut range = map.range_by(Bound::Excluded("wz"), Bound::Unbounded);
    same(&rt, range.next().map(text_and_number), Some(("x", 120)));
    Ok(())
}

// A bar is after all letters.
#[test]
fn ranges_of_characters(rt: HostRuntime) -> Result<(), Fail> {
    let mut entries = Vec::new(rt.alloc());
    for letter in 'a'..='y' {
        entries.push((letter, letter))?;
    }
    let mut writer = VecWriter::new(rt.alloc());
    let root = archive::<char, char, _, _, 5>(&rt, rt.alloc(), &entries, &mut writer)?;
    let map = opened::<ArchivedChar, ArchivedChar, 5>(&rt, writer.bytes(), root);
    let mut before = map.range_by(Bound::Unbounded, Bound::Excluded('a'));
    assert!(rt; before.next().is_none());
    let mut behind = map.range_by(Bound::Included('|'), Bound::Unbounded);
    assert!(rt; behind.next().is_none());
    let mut last = map.range_by(Bound::Included('y'), Bound::Unbounded);
    same(&rt, last.next().map(|(k, _)| k.to_native()), Some('y'));
    Ok(())
}
