//! Tuples of three beside native ones: their bytes, how they compare, what holds them, and that they are written in place.

use crate::in_place::is_replaced;
use crate::lookups_types::are_found;
use crate::same::{same, shown};
use crate::views::hashed;
use rkyv_btree::prelude::*;
use rkyv_btree_base::layout;
use std::collections::BTreeMap;
use std::test::Fail;

/// (1, 2, 3), (1, 2, 256) with any bytes for padding, and (2, 0, 0): a `u8`, a `u32` at 4, and a `u16` at 8.
const TUPLES: [u8; 36] = [
    1, 0, 0, 0, 2, 0, 0, 0, 3, 0, 0, 0, 1, 7, 7, 7, 2, 0, 0, 0, 0, 1, 7, 7, 2, 0, 0, 0, 0, 0, 0, 0,
    0, 0, 0, 0,
];

const NATIVE: [(u8, u32, u16); 3] = [(1, 2, 3), (1, 2, 256), (2, 0, 0)];

type Triple = ArchivedTuple3<u8, ArchivedU32, ArchivedU16>;

type Keys = ArchivedTuple3<u8, bool, ArchivedU64>;

type Values = ArchivedTuple3<ArchivedI16, ArchivedText, ArchivedOption<ArchivedU32>>;

#[test]
fn tuples_compare_as_native_ones(rt: HostRuntime) {
    assert!(rt; Triple::fits());
    for (i, left) in NATIVE.iter().enumerate() {
        let a = View::<Triple>::check(&TUPLES, 12 * i as u32).expect(&rt, "a tuple");
        let (first, second, third): (View<u8>, View<ArchivedU32>, View<ArchivedU16>) = a.as_tuple();
        same(&rt, first.to_native(), left.0);
        same(&rt, second.to_native(), left.1);
        same(&rt, third.to_native(), left.2);
        same(&rt, hashed(&a), hashed(left));
        for (j, right) in NATIVE.iter().enumerate() {
            let b = View::<Triple>::check(&TUPLES, 12 * j as u32).expect(&rt, "a tuple");
            same(&rt, a == b, *left == *right);
            same(&rt, a.cmp(&b), left.cmp(right));
            same(&rt, Triple::compare_with(left, &b), left.cmp(right));
            same(&rt, Triple::same_as(&a, right), *left == *right);
        }
    }
}

#[test]
fn tuples_are_shown_as_native_ones(rt: HostRuntime) -> Result<(), Fail> {
    assert!(rt; Triple::fits());
    let tuple = View::<Triple>::check(&TUPLES, 0).expect(&rt, "a tuple");
    let text = shown(rt.alloc(), &tuple)?;
    same(&rt, text.as_str(), "(1, 2, 3)");
    Ok(())
}

#[test]
fn tuples_are_found(rt: HostRuntime) -> Result<(), Fail> {
    let keys: [((u8, u32, u16), u32); 3] = [(NATIVE[0], 1), (NATIVE[1], 2), (NATIVE[2], 3)];
    are_found::<(u8, u32, u16), (u8, u32, u16), Triple>(&rt, rt.alloc(), &keys, &NATIVE)
}

#[test]
fn tuples_are_replaced(rt: HostRuntime) -> Result<(), Fail> {
    let (old, new) = ([(1, (9u8, 8u32, 7u16))], [(1, (1u8, 0x0102_0304u32, 5u16))]);
    is_replaced::<(u8, u32, u16), (u8, u32, u16), Triple>(&rt, rt.alloc(), &old, &new, new[0].1)
}

#[test]
fn typed_files_name_tuples(rt: HostRuntime) -> Result<(), Fail> {
    assert!(rt; layout::fits::<Keys, Values, 5>());
    let alloc = rt.alloc();
    let mut map = BTreeMap::new(alloc);
    map.insert(
        (1u8, true, 3u64),
        (4i16, String::from_str(alloc, "five")?, Some(6u32)),
    )?;
    let bytes = to_typed_archive(alloc, &map)?;
    let name = type_name_of(&bytes).expect(&rt, "a header");
    same(
        &rt,
        name,
        "[(u8, bool, u64) -> (i16, text, option(u32)) / 5]",
    );
    let back: BTreeMap<(u8, bool, u64), (i16, String, Option<u32>)> = from_typed_archive(
        alloc, &bytes,
    )?;
    same(&rt, back == map, true);
    Ok(())
}
