//! Views of values by themselves: what is read, compared, hashed and shown.

use crate::same::{same, shown};
use rkyv_btree::view::View;
use rkyv_btree_base::refusal::Refusal;
use rkyv_btree_base::scalars::{ArchivedChar, ArchivedNonZeroU32};
use rkyv_btree_base::signed::ArchivedI16;
use rkyv_btree_base::text::ArchivedText;
use std::hash::{DefaultHasher, Hash, Hasher};
use std::num::NonZeroU32;
use std::test::Fail;

#[test]
fn values_that_a_stranger_wrote_are_viewed(rt: HostRuntime) {
    let buf = [1u8, 2, 255, 255];
    assert!(rt; matches!(View::<bool>::check(&buf, 0), Ok(view) if view.to_native()));
    assert!(rt;
        matches!(
            View::<bool>::check(&buf, 1),
            Err(Refusal::BadEntry { pos: 1 })
        )
    );
    assert!(rt; matches!(View::<ArchivedI16>::check(&buf, 2), Ok(view) if view.to_native() == -1));
    assert!(rt;
        matches!(
            View::<ArchivedI16>::check(&buf, 3),
            Err(Refusal::OutOfRange { pos: 3 })
        )
    );
}

/// What a hasher returns that was fed a value.
pub(crate) fn hashed<T: Hash>(value: &T) -> u64 {
    let mut state = DefaultHasher::new();
    value.hash(&mut state);
    state.finish()
}

#[test]
fn texts_compare_as_native_ones(rt: HostRuntime) -> Result<(), Fail> {
    // "b", "a", "b" and "ba", then the four texts.
    let buf = [
        98u8, 97, 98, 98, 97, 0, 0, 0, 248, 255, 255, 255, 1, 0, 0, 0, 241, 255, 255, 255, 1, 0, 0,
        0, 234, 255, 255, 255, 1, 0, 0, 0, 227, 255, 255, 255, 2, 0, 0, 0,
    ];
    let texts = ["b", "a", "b", "ba"];
    for (i, left) in texts.iter().enumerate() {
        let at = 8 + 8 * i as u32;
        let a = View::<ArchivedText>::check(&buf, at).expect(&rt, "a text");
        same(&rt, a.as_str(), *left);
        same(&rt, hashed(&a), hashed(left));
        for (j, right) in texts.iter().enumerate() {
            let at = 8 + 8 * j as u32;
            let b = View::<ArchivedText>::check(&buf, at).expect(&rt, "a text");
            same(&rt, a == b, *left == *right);
            same(&rt, a.cmp(&b), (*left).cmp(*right));
        }
    }
    let first = View::<ArchivedText>::check(&buf, 8).expect(&rt, "a text");
    let told = shown(rt.alloc(), &first)?;
    same(&rt, told.as_str(), "\"b\"");
    Ok(())
}

#[test]
fn characters_that_a_stranger_wrote_are_viewed(rt: HostRuntime) {
    for code in [0, 0xD7FF, 0xD800, 0xDFFF, 0xE000, 0x10_FFFF, 0x11_0000] {
        let bytes = u32::to_le_bytes(code);
        let read = View::<ArchivedChar>::check(&bytes, 0).ok();
        same(&rt, read.map(|view| view.to_native()), char::from_u32(code));
    }
}

#[test]
fn numbers_other_than_0_and_nothing_that_a_stranger_wrote_are_viewed(rt: HostRuntime) {
    for number in [0, 1, u32::MAX] {
        let bytes = u32::to_le_bytes(number);
        let read = View::<ArchivedNonZeroU32>::check(&bytes, 0).ok();
        same(
            &rt,
            read.map(|view| view.to_native()),
            NonZeroU32::new(number),
        );
    }
    same(&rt, View::<()>::check(&[], 0).is_ok(), true);
    same(&rt, View::<()>::check(&[], 1).is_err(), true);
}
