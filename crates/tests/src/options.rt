//! Options beside native ones: how they compare, what holds them, and lookups by them.

use crate::lookups_types::are_found;
use crate::same::{same, shown};
use crate::views::hashed;
use rkyv_btree::prelude::*;
use rkyv_btree_base::layout;
use std::collections::BTreeMap;
use std::test::Fail;

/// None, with any bytes for its value; 7; and 256, with any bytes for padding.
const OPTIONS: [u8; 24] = [
    0, 1, 2, 3, 4, 5, 6, 7, 1, 0, 0, 0, 7, 0, 0, 0, 1, 255, 255, 255, 0, 1, 0, 0,
];

type Optional = ArchivedOption<ArchivedU32>;

#[test]
fn options_compare_as_native_ones(rt: HostRuntime) {
    let options: [Option<u32>; 3] = [None, Some(7), Some(256)];
    for (i, left) in options.iter().enumerate() {
        let a = View::<Optional>::check(&OPTIONS, 8 * i as u32).expect(&rt, "an option");
        same(
            &rt,
            a.as_option()
                .map(|value: View<ArchivedU32>| value.to_native()),
            *left,
        );
        same(&rt, hashed(&a), hashed(left));
        for (j, right) in options.iter().enumerate() {
            let b = View::<Optional>::check(&OPTIONS, 8 * j as u32).expect(&rt, "an option");
            same(&rt, a == b, *left == *right);
            same(&rt, a.cmp(&b), left.cmp(right));
            same(&rt, Optional::compare_with(left, &b), left.cmp(right));
            same(&rt, Optional::same_as(&a, right), *left == *right);
        }
    }
}

#[test]
fn options_are_shown_as_native_ones(rt: HostRuntime) -> Result<(), Fail> {
    let none = View::<Optional>::check(&OPTIONS, 0).expect(&rt, "an option");
    let some = View::<Optional>::check(&OPTIONS, 8).expect(&rt, "an option");
    let text = shown(rt.alloc(), &none)?;
    same(&rt, text.as_str(), "None");
    let text = shown(rt.alloc(), &some)?;
    same(&rt, text.as_str(), "Some(7)");
    Ok(())
}

#[test]
fn options_are_found(rt: HostRuntime) -> Result<(), Fail> {
    let keys: [(Option<u32>, u32); 4] = [(None, 1), (Some(0), 2), (Some(7), 3), (Some(300), 4)];
    let queries = [None, Some(0), Some(7), Some(300)];
    are_found::<Option<u32>, Option<u32>, Optional>(&rt, rt.alloc(), &keys, &queries)
}

#[test]
fn typed_files_name_options(rt: HostRuntime) -> Result<(), Fail> {
    assert!(rt; layout::fits::<Optional, ArchivedOption<ArchivedText>, 5>());
    let mut map = BTreeMap::new(rt.alloc());
    map.insert(Some(7u32), None::<String>)?;
    let bytes = to_typed_archive(rt.alloc(), &map)?;
    let name = type_name_of(&bytes).expect(&rt, "a header");
    same(&rt, name, "[option(u32) -> option(text) / 5]");
    Ok(())
}
