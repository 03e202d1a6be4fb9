//! Floating-point numbers: their bytes, how they compare, what holds them, and that they are written in place.

use crate::in_place::is_replaced;
use crate::lookups_types::are_found;
use crate::same::{same, shown};
use crate::views::hashed;
use rkyv_btree::prelude::*;
use rkyv_btree_base::layout;
use std::alloc::Global;
use std::cmp::OrderedFloat;
use std::collections::BTreeMap;
use std::test::Fail;

/// -infinity, -0, 0, the least number above 0, 1.5, infinity, and two NaNs, of which one has a sign and other bits.
const NUMBERS: [u8; 64] = [
    0, 0, 0, 0, 0, 0, 0xF0, 0xFF, 0, 0, 0, 0, 0, 0, 0, 0x80, 0, 0, 0, 0, 0, 0, 0, 0, 1, 0, 0, 0, 0,
    0, 0, 0, 0, 0, 0, 0, 0, 0, 0xF8, 0x3F, 0, 0, 0, 0, 0, 0, 0xF0, 0x7F, 0, 0, 0, 0, 0, 0, 0xF8,
    0x7F, 1, 0, 0, 0, 0, 0, 0xF0, 0xFF,
];

const NATIVE: [f64; 8] = [
    f64::NEG_INFINITY,
    -0.0,
    0.0,
    5e-324,
    1.5,
    f64::INFINITY,
    f64::NAN,
    f64::NAN,
];

#[test]
fn floats_compare_as_ordered_ones(rt: HostRuntime) {
    for (i, left) in NATIVE.iter().enumerate() {
        let a = View::<ArchivedF64>::check(&NUMBERS, 8 * i as u32).expect(&rt, "a number");
        let left = OrderedFloat(*left);
        same(&rt, a.to_native() == left, true);
        same(&rt, hashed(&a), hashed(&left));
        for (j, right) in NATIVE.iter().enumerate() {
            let b = View::<ArchivedF64>::check(&NUMBERS, 8 * j as u32).expect(&rt, "a number");
            let right = OrderedFloat(*right);
            same(&rt, a == b, left == right);
            same(&rt, a.cmp(&b), left.cmp(&right));
            same(&rt, ArchivedF64::compare_with(&left, &b), left.cmp(&right));
            same(&rt, ArchivedF64::same_as(&a, &right), left == right);
            same(&rt, ArchivedF64::same_as(&a, &right.0), left == right);
        }
    }
}

/// The archive of a number, which is its own bytes.
fn bytes_of(alloc: Global, number: f64) -> Result<Vec<u8>, Fail> {
    Ok(to_archive(alloc, &number)?)
}

#[test]
fn floats_have_their_bits_as_bytes(rt: HostRuntime) -> Result<(), Fail> {
    for (i, number) in NATIVE.iter().take(7).enumerate() {
        let bytes = bytes_of(rt.alloc(), *number)?;
        same(&rt, bytes.as_slice(), &NUMBERS[8 * i..8 * i + 8]);
    }
    let bytes = to_archive(rt.alloc(), &-1.5f32)?;
    same(&rt, bytes.as_slice(), &[0, 0, 0xC0, 0xBF]);
    Ok(())
}

#[test]
fn floats_are_shown_as_ordered_ones(rt: HostRuntime) -> Result<(), Fail> {
    let number = View::<ArchivedF64>::check(&NUMBERS, 32).expect(&rt, "a number");
    let text = shown(rt.alloc(), &number)?;
    same(&rt, text.as_str(), "OrderedFloat(1.5)");
    Ok(())
}

#[test]
fn floats_are_found(rt: HostRuntime) -> Result<(), Fail> {
    let keys = [
        (OrderedFloat(f32::NEG_INFINITY), 1),
        (OrderedFloat(-1.5f32), 2),
        (OrderedFloat(0.0f32), 3),
        (OrderedFloat(f32::NAN), 4),
    ];
    let queries = [keys[0].0, keys[1].0, OrderedFloat(-0.0f32), keys[3].0];
    are_found::<OrderedFloat<f32>, OrderedFloat<f32>, ArchivedF32>(&rt, rt.alloc(), &keys, &queries)
}

#[test]
fn floats_are_replaced(rt: HostRuntime) -> Result<(), Fail> {
    let alloc = rt.alloc();
    is_replaced::<f32, f32, ArchivedF32>(&rt, alloc, &[(1, 0.5)], &[(1, -0.0)], -0.0)?;
    is_replaced::<f64, f64, ArchivedF64>(&rt, alloc, &[(1, 0.5)], &[(1, f64::NAN)], f64::NAN)?;
    is_replaced::<f64, f64, ArchivedF64>(&rt, alloc, &[(1, 0.5)], &[(1, 5e-324)], 5e-324)
}

/// Whether both are one number: a NaN is a NaN, and 0 isn't -0.
fn is_one_number(left: f64, right: f64) -> bool {
    if left.is_nan() || right.is_nan() {
        return left.is_nan() && right.is_nan();
    }
    left.to_bits() == right.to_bits()
}

#[test]
fn maps_of_floats_come_back(rt: HostRuntime) -> Result<(), Fail> {
    assert!(rt; layout::fits::<ArchivedU32, ArchivedF64, 5>());
    let mut map = BTreeMap::new(rt.alloc());
    for (i, number) in NATIVE.iter().enumerate() {
        map.insert(i as u32, *number)?;
    }
    let bytes = to_archive(rt.alloc(), &map)?;
    let view = open::<Archived<BTreeMap<u32, f64>>>(&bytes)?;
    same(&rt, view.eq_map(&map), true);
    let back: BTreeMap<u32, f64> = from_archive(rt.alloc(), &bytes)?;
    same(&rt, back.len(), map.len());
    for (key, number) in &map {
        let other = back.get(key).expect(&rt, "the key");
        same(&rt, is_one_number(*number, *other), true);
    }
    Ok(())
}

#[test]
fn typed_files_name_floats(rt: HostRuntime) -> Result<(), Fail> {
    assert!(rt; layout::fits::<ArchivedF64, ArchivedF32, 5>());
    let mut map = BTreeMap::new(rt.alloc());
    map.insert(OrderedFloat(1.5f64), 2.5f32)?;
    let bytes = to_typed_archive(rt.alloc(), &map)?;
    let name = type_name_of(&bytes).expect(&rt, "a header");
    same(&rt, name, "[f64 -> f32 / 5]");
    Ok(())
}
