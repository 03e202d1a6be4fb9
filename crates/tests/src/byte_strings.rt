//! Byte strings beside native ones: how they compare, and lookups by them.

use crate::lookups_types::are_found;
use crate::same::{same, shown};
use crate::views::hashed;
use rkyv_btree::prelude::*;
use std::test::Fail;

/// "b", 255, "b" and "ba", then the four byte strings.
const STRINGS: [u8; 40] = [
    98, 255, 98, 98, 97, 0, 0, 0, 248, 255, 255, 255, 1, 0, 0, 0, 241, 255, 255, 255, 1, 0, 0, 0,
    234, 255, 255, 255, 1, 0, 0, 0, 227, 255, 255, 255, 2, 0, 0, 0,
];

#[test]
fn byte_strings_compare_as_native_ones(rt: HostRuntime) {
    let strings: [&[u8]; 4] = [&[98], &[255], &[98], &[98, 97]];
    for (i, left) in strings.iter().enumerate() {
        let a = View::<ArchivedBytes>::check(&STRINGS, 8 + 8 * i as u32).expect(&rt, "bytes");
        same(&rt, a.as_bytes(), *left);
        same(&rt, hashed(&a), hashed(left));
        for (j, right) in strings.iter().enumerate() {
            let b = View::<ArchivedBytes>::check(&STRINGS, 8 + 8 * j as u32).expect(&rt, "bytes");
            same(&rt, a == b, *left == *right);
            same(&rt, a.cmp(&b), (*left).cmp(*right));
        }
    }
}

#[test]
fn byte_strings_are_shown_as_slices(rt: HostRuntime) -> Result<(), Fail> {
    let last = View::<ArchivedBytes>::check(&STRINGS, 32).expect(&rt, "bytes");
    let text = shown(rt.alloc(), &last)?;
    same(&rt, text.as_str(), "[98, 97]");
    Ok(())
}

#[test]
fn byte_strings_are_found(rt: HostRuntime) -> Result<(), Fail> {
    let queries: [&[u8]; 4] = [&[], &[0], &[0, 255], &[255]];
    let keys = [
        (queries[0], 1),
        (queries[1], 2),
        (queries[2], 3),
        (queries[3], 4),
    ];
    are_found::<&[u8], &[u8], ArchivedBytes>(&rt, rt.alloc(), &keys, &queries)
}
