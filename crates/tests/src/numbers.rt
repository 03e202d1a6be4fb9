//! Archives of numbers, byte for byte.

use crate::convert;
use crate::same::same;
use rkyv_btree::map::{access, access_mut};
use rkyv_btree::strict::verify_strict;
use rkyv_btree_base::check::{CheckBytes, Window};
use rkyv_btree_base::fault::Fault;
use rkyv_btree_base::layout;
use rkyv_btree_base::map::ArchivedBTreeMap;
use rkyv_btree_base::numbers::ArchivedU32;
use rkyv_btree_base::place::VecWriter;
use rkyv_btree_base::refusal::{EntriesLengthMismatch, Refusal};
use rkyv_btree_base::scalars::{ArchivedChar, ArchivedNonZeroU32};
use std::alloc::{AllocError, Global};
use std::num::NonZeroU32;
use std::process::Abort;
use std::test::Fail;

pub(crate) type Numbers = ArchivedBTreeMap<ArchivedU32, ArchivedU32, 5>;

/// The archive of numbers after what a writer holds already.
pub(crate) fn archive<const E: usize>(
    rt: &impl Abort,
    alloc: Global,
    claim: usize,
    entries: &[(u32, u32)],
    writer: &mut VecWriter,
) -> Result<u32, Fault<AllocError>> {
    convert::archive_claimed::<u32, u32, ArchivedU32, ArchivedU32, E>(
        rt, alloc, claim, entries, writer,
    )
}

#[test]
fn keys_other_than_0_are_archived_and_checked(rt: HostRuntime) -> Result<(), Fail> {
    let mut writer = VecWriter::new(rt.alloc());
    let seven = NonZeroU32::new(7).ok_or("7 is 0")?;
    let entries = [(seven, 11u32)];
    let pos = convert::archive::<NonZeroU32, u32, _, _, 5>(&rt, rt.alloc(), &entries, &mut writer)?;
    same(&rt, pos, 48);
    let want = [
        0, 0, 0, 0, 7, 0, 0, 0, 0, 0, 0, 0, 0, 0, 0, 0, 0, 0, 0, 0, 0, 0, 0, 0, // kind and keys
        11, 0, 0, 0, 0, 0, 0, 0, 0, 0, 0, 0, 0, 0, 0, 0, 0, 0, 0, 0, // values
        1, 0, 0, 0, // length
        208, 255, 255, 255, 1, 0, 0, 0, // map
    ];
    same(&rt, writer.bytes(), want.as_slice());
    assert!(rt; layout::fits::<ArchivedNonZeroU32, ArchivedU32, 5>());
    let window = Window { lo: 0, hi: pos };
    let left = verify_strict::<ArchivedNonZeroU32, ArchivedU32, 5>(&want, pos, window);
    same(&rt, left, Ok(Window { lo: 48, hi: 48 }));
    let mut zero = want;
    zero[4] = 0;
    let refused = access::<ArchivedNonZeroU32, ArchivedU32, 5>(&zero, pos).err();
    same(&rt, refused, Some(Refusal::BadEntry { pos: 4 }));
    // No clause says of a refused buffer that its bytes stay.
    let before = zero;
    let refused = access_mut::<ArchivedNonZeroU32, ArchivedU32, 5>(&mut zero, pos).err();
    same(&rt, refused, Some(Refusal::BadEntry { pos: 4 }));
    same(&rt, zero, before);
    zero[44] = 0;
    let refused = access::<ArchivedNonZeroU32, ArchivedU32, 5>(&zero, pos).err();
    let none = EntriesLengthMismatch { entries: 0, len: 1 };
    same(&rt, refused, Some(Refusal::EntriesLengthMismatch(none)));
    Ok(())
}

#[test]
fn characters_and_nothing_are_archived(rt: HostRuntime) -> Result<(), Fail> {
    type Map = ArchivedBTreeMap<ArchivedChar, (), 2>;
    assert!(rt; layout::fits::<ArchivedChar, (), 2>());
    let mut writer = VecWriter::new(rt.alloc());
    let entries = [('a', ()), ('\u{10FFFF}', ())];
    let pos = convert::archive::<char, (), _, _, 2>(&rt, rt.alloc(), &entries, &mut writer)?;
    let want = [
        0, 0, 0, 0, 97, 0, 0, 0, 0xFF, 0xFF, 0x10, 0, 2, 0, 0, 0, // leaf
        0xF0, 0xFF, 0xFF, 0xFF, 2, 0, 0, 0, // map
    ];
    same(&rt, pos, 16);
    same(&rt, writer.bytes(), want.as_slice());
    assert!(rt; Map::check(writer.bytes(), pos, Window { lo: 0, hi: pos }).is_ok());
    Ok(())
}

/// The keys 1 to `count`, each with ten times itself as its value.
pub(crate) fn tens(alloc: Global, count: u32) -> Result<Vec<(u32, u32)>, AllocError> {
    let mut entries = Vec::new(alloc);
    for key in 0..count {
        let key = key.wrapping_add(1);
        entries.push((key, key.wrapping_mul(10)))?;
    }
    Ok(entries)
}
