//! How many comparisons lookups take, and lookups by comparisons of one's own.

use crate::lookups::compare;
use crate::numbers::{Numbers, archive, tens};
use crate::read::{numbers, value};
use crate::same::same;
use rkyv_btree::map::access;
use rkyv_btree::view::View;
use rkyv_btree_base::layout;
use rkyv_btree_base::map::ArchivedBTreeMap;
use rkyv_btree_base::numbers::ArchivedU32;
use rkyv_btree_base::place::VecWriter;
use rkyv_btree_base::steps::StepCounter;
use std::alloc::Global;
use std::cell::Cell;
use std::cmp::Ordering;
use std::process::Abort;
use std::test::Fail;

/// The value that is found and how many comparisons that takes, as the lookup and as the comparison count them.
pub(crate) fn counted<const E: usize>(
    rt: &impl Abort,
    map: View<ArchivedBTreeMap<ArchivedU32, ArchivedU32, E>>,
    key: u32,
) -> (Option<u32>, u64) {
    let calls = Cell::new(0u64);
    let count = |query: &u32, key: View<ArchivedU32>| {
        calls.set(calls.get().wrapping_add(1));
        compare(query, key)
    };
    let mut steps = StepCounter::new();
    let found = map.get_key_value_counted(&key, count, &mut steps);
    assert_eq!(rt; steps.count(), calls.get(), "{key}");
    (found.map(value), steps.count())
}

/// The map of 1 to 9, five a node: a leaf with 1 to 4 stands under 5 to 9.
pub(crate) fn nine<'a>(
    rt: &impl Abort,
    alloc: Global,
    writer: &'a mut VecWriter,
) -> Result<View<'a, Numbers>, Fail> {
    let root = archive::<5>(rt, alloc, 9, &tens(alloc, 9)?, writer)?;
    assert!(rt; layout::fits::<ArchivedU32, ArchivedU32, 5>());
    let opened = access::<ArchivedU32, ArchivedU32, 5>(writer.bytes(), root);
    Ok(opened.expect(rt, "a map"))
}

#[test]
fn comparisons_are_counted(rt: HostRuntime) -> Result<(), Fail> {
    let mut writer = VecWriter::new(rt.alloc());
    let map = nine(&rt, rt.alloc(), &mut writer)?;
    let rows = [
        (0, None, 2),
        (1, Some(10), 2),
        (2, Some(20), 3),
        (4, Some(40), 5),
        (5, Some(50), 1),
        (6, Some(60), 2),
        (9, Some(90), 5),
        (10, None, 5),
    ];
    for (key, value, comparisons) in rows {
        same(&rt, counted::<5>(&rt, map, key), (value, comparisons));
        // As many as a node has entries, times the levels.
        assert!(rt; comparisons <= 10);
    }
    Ok(())
}

#[test]
fn a_counter_goes_on_from_where_it_was(rt: HostRuntime) -> Result<(), Fail> {
    let mut writer = VecWriter::new(rt.alloc());
    let map = nine(&rt, rt.alloc(), &mut writer)?;
    let mut steps = StepCounter::new();
    for (key, comparisons) in [(4, 5), (9, 10), (5, 11)] {
        assert!(rt; steps.count() <= 10);
        let found = map.get_key_value_counted(&key, compare, &mut steps);
        assert!(rt; found.is_some());
        same(&rt, steps.count(), comparisons);
    }
    Ok(())
}

#[test]
fn a_map_is_searched_by_any_comparison(rt: HostRuntime) -> Result<(), Fail> {
    let mut writer = VecWriter::new(rt.alloc());
    let map = nine(&rt, rt.alloc(), &mut writer)?;
    let rows = [
        (Ordering::Less, None, 2),
        (Ordering::Equal, Some((5, 50)), 1),
        (Ordering::Greater, None, 5),
    ];
    for (answer, entry, comparisons) in rows {
        let mut steps = StepCounter::new();
        let always = |_: &(), _: View<ArchivedU32>| answer;
        let found = map.get_key_value_counted(&(), always, &mut steps);
        same(&rt, found.map(numbers), entry);
        same(&rt, steps.count(), comparisons);
    }
    let by_length = |text: &&str, key: View<ArchivedU32>| {
        let length = key.to_native() as usize;
        text.len().cmp(&length)
    };
    let found = map.get_key_value_with(&"letters", by_length);
    same(&rt, found.map(numbers), Some((7, 70)));
    Ok(())
}
