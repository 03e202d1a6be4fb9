//! Tuples of four to six beside native ones: their bytes, how they compare, what they show, and that they are written in place.

use crate::in_place::is_replaced;
use crate::same::{same, shown};
use crate::views::hashed;
use rkyv_btree::prelude::*;
use rkyv_btree_base::layout;
use std::collections::BTreeMap;
use std::test::Fail;

/// (true, 2, 3, 4, 5, 6), and the same with any bytes for padding and 256 for 6: a `bool`, a `u16` at 2, a `u8` at 4, a `u64` at 8, a
/// `u8` at 16, and a `u32` at 20.
const SIXES: [u8; 48] = [
    1, 0, 2, 0, 3, 0, 0, 0, 4, 0, 0, 0, 0, 0, 0, 0, 5, 0, 0, 0, 6, 0, 0, 0, 1, 7, 2, 0, 3, 7, 7, 7,
    4, 0, 0, 0, 0, 0, 0, 0, 5, 7, 7, 7, 0, 1, 0, 0,
];

const NATIVE: [(bool, u16, u8, u64, u8, u32); 2] = [(true, 2, 3, 4, 5, 6), (true, 2, 3, 4, 5, 256)];

type Six = ArchivedTuple6<bool, ArchivedU16, u8, ArchivedU64, u8, ArchivedU32>;

type Four = ArchivedTuple4<u8, ArchivedU32, ArchivedU16, ArchivedU64>;

type Five = ArchivedTuple5<ArchivedI16, ArchivedText, u8, ArchivedU64, ArchivedOption<ArchivedU32>>;

#[test]
fn tuples_of_six_compare_as_native_ones(rt: HostRuntime) {
    assert!(rt; Six::fits());
    for (i, left) in NATIVE.iter().enumerate() {
        let a = View::<Six>::check(&SIXES, 24 * i as u32).expect(&rt, "a tuple");
        same(&rt, hashed(&a), hashed(left));
        for (j, right) in NATIVE.iter().enumerate() {
            let b = View::<Six>::check(&SIXES, 24 * j as u32).expect(&rt, "a tuple");
            same(&rt, a == b, *left == *right);
            same(&rt, a.cmp(&b), left.cmp(right));
            same(&rt, Six::compare_with(left, &b), left.cmp(right));
            same(&rt, Six::same_as(&a, right), *left == *right);
        }
    }
}

#[test]
fn tuples_of_six_are_shown_as_native_ones(rt: HostRuntime) -> Result<(), Fail> {
    assert!(rt; Six::fits());
    let tuple = View::<Six>::check(&SIXES, 24).expect(&rt, "a tuple");
    let text = shown(rt.alloc(), &tuple)?;
    same(&rt, text.as_str(), "(true, 2, 3, 4, 5, 256)");
    Ok(())
}

#[test]
fn tuples_of_four_are_replaced(rt: HostRuntime) -> Result<(), Fail> {
    let (old, new) = (
        [(1, (9u8, 8u32, 7u16, 6u64))],
        [(1, (1u8, 0x0102_0304u32, 5u16, 4u64))],
    );
    is_replaced::<(u8, u32, u16, u64), (u8, u32, u16, u64), Four>(
        &rt,
        rt.alloc(),
        &old,
        &new,
        new[0].1,
    )
}

#[test]
fn typed_files_name_long_tuples(rt: HostRuntime) -> Result<(), Fail> {
    assert!(rt; layout::fits::<Four, Five, 5>());
    let alloc = rt.alloc();
    let mut map = BTreeMap::new(alloc);
    map.insert(
        (1u8, 2u32, 3u16, 4u64),
        (5i16, String::from_str(alloc, "six")?, 7u8, 8u64, Some(9u32)),
    )?;
    let bytes = to_typed_archive(alloc, &map)?;
    let name = type_name_of(&bytes).expect(&rt, "a header");
    same(
        &rt,
        name,
        "[(u8, u32, u16, u64) -> (i16, text, u8, u64, option(u32)) / 5]",
    );
    let back: BTreeMap<(u8, u32, u16, u64), (i16, String, u8, u64, Option<u32>)> =
        from_typed_archive(alloc, &bytes)?;
    same(&rt, back == map, true);
    Ok(())
}
