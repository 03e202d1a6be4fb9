//! Values in their own bytes, and what is said of refused ones.

use crate::same::same;
use rkyv_btree_base::bytes::{num32, target};
use rkyv_btree_base::check::{CheckBytes, Window};
use rkyv_btree_base::numbers::ArchivedU16;
use rkyv_btree_base::place::{Place, RelPtr};
use rkyv_btree_base::refusal::{EntriesLengthMismatch, InvalidLength, Refusal};
use rkyv_btree_base::signed::{ArchivedI16, ArchivedI32, ArchivedI64};
use std::test::Fail;

#[test]
fn pointers_are_written_and_read(rt: HostRuntime) {
    let mut bytes = [9; 8];
    let (front, back) = bytes.split_at_mut(4);
    same(&rt, RelPtr::emplace(0, Place::new(48, front)), Ok(()));
    RelPtr::emplace_invalid(Place::new(52, back));
    same(&rt, bytes, [0xD0, 0xFF, 0xFF, 0xFF, 1, 0, 0, 0]);
    same(&rt, num32(&bytes, 0), 0xFFFF_FFD0);
    same(&rt, target(&bytes, 0), Some(-48));
    same(&rt, target(&bytes, 4), None);
}

#[test]
fn values_are_checked_by_themselves(rt: HostRuntime) {
    let bytes = [0, 1, 2, 255, 255, 255, 255, 255];
    let window = Window { lo: 0, hi: 0 };
    same(&rt, bool::check(&bytes, 0, window), Ok(window));
    same(&rt, bool::check(&bytes, 1, window), Ok(window));
    let bad = Refusal::BadEntry { pos: 2 };
    same(&rt, bool::check(&bytes, 2, window), Err(bad));
    same(&rt, i8::check(&bytes, 2, window), Ok(window));
    let odd = Refusal::Misaligned { pos: 1 };
    same(&rt, ArchivedU16::check(&bytes, 1, window), Err(odd));
    same(&rt, ArchivedI64::check(&bytes, 0, window), Ok(window));
    let past = Refusal::OutOfRange { pos: 6 };
    same(&rt, ArchivedI32::check(&bytes, 6, window), Err(past));
    same(&rt, ArchivedI16::check(&bytes, 6, window), Ok(window));
}

#[test]
fn refusals_are_told(rt: HostRuntime) -> Result<(), Fail> {
    let length = InvalidLength { len: 6, maximum: 5 };
    let total = EntriesLengthMismatch { entries: 0, len: 1 };
    let rows = [
        (
            Refusal::OutOfRange { pos: -1 },
            "position -1 is out of range",
        ),
        (Refusal::Misaligned { pos: 2 }, "position 2 is misaligned"),
        (
            Refusal::BadKind { pos: 0, byte: 2 },
            "position 0 holds kind 2, which is no node",
        ),
        (
            Refusal::InvalidLength(length),
            "Invalid length in B-tree node: len 6 was greater than maximum 5",
        ),
        (Refusal::BadEntry { pos: 4 }, "entry at position 4 is bad"),
        (
            Refusal::TooDeep { pos: 0 },
            "node at position 0 is deeper than 32 levels",
        ),
        (
            Refusal::EntriesLengthMismatch(total),
            "B-tree map claimed to have 1 entries, but actually had 0",
        ),
        (Refusal::TooLong, "buffer is longer than 4294967295 bytes"),
        (Refusal::OutOfOrder { index: 3 }, "entry 3 is out of order"),
    ];
    for (refusal, text) in rows {
        let told = format!(in rt.alloc(); "{refusal}")?;
        same(&rt, told.as_str(), text);
    }
    Ok(())
}
