//! Lookups of keys of several types, by their views and by native values.

use crate::convert::{archive, opened};
use crate::read::number;
use rkyv_btree::compare::ViewOrd;
use rkyv_btree::compare_native::CompareWith;
use rkyv_btree::view::View;
use rkyv_btree_base::archive::{Archive, Serialize};
use rkyv_btree_base::check::CheckBytes;
use rkyv_btree_base::map::ArchivedBTreeMap;
use rkyv_btree_base::numbers::{ArchivedU16, ArchivedU32};
use rkyv_btree_base::place::VecWriter;
use rkyv_btree_base::scalars::{ArchivedChar, ArchivedNonZeroU32};
use rkyv_btree_base::signed::{ArchivedI16, ArchivedI32, ArchivedI64};
use rkyv_btree_base::text::ArchivedText;
use rkyv_btree_base::util::{Entry, EntryAdapter};
use std::alloc::Global;
use std::num::NonZeroU32;
use std::process::Abort;
use std::test::Fail;

/// Asserts that lookups of a key, by its view and by a native value, find this number.
fn finds<N, K>(
    rt: &impl Abort,
    map: &View<ArchivedBTreeMap<K, ArchivedU32, 2>>,
    key: View<K>,
    query: N,
    want: u32,
)
where
    N: Copy + Drop,
    K: CheckBytes + ViewOrd + CompareWith<N>,
{
    let found = map.get(key).map(number);
    assert_eq!(rt; found, Some(want));
    let found = map.get_by(query).map(number);
    assert_eq!(rt; found, Some(want));
}

/// In the map of some keys to numbers each key is found, by its view and by its query.
pub(crate) fn are_found<KU, N, K>(
    rt: &impl Abort,
    alloc: Global,
    entries: &[(KU, u32)],
    queries: &[N],
) -> Result<(), Fail>
where
    KU: Archive<Archived = K> + Serialize<VecWriter, Global>,
    N: Copy + Drop,
    K: CheckBytes + ViewOrd + CompareWith<N>,
{
    let mut writer = VecWriter::new(alloc);
    let pos = archive::<KU, u32, K, ArchivedU32, 2>(rt, alloc, entries, &mut writer)?;
    let map = opened::<K, ArchivedU32, 2>(rt, writer.bytes(), pos);
    for ((key, value), query) in map.iter().zip(queries) {
        finds::<N, K>(rt, &map, key, *query, value.to_native());
    }
    Ok(())
}

#[test]
fn numbers_are_found(rt: HostRuntime) -> Result<(), Fail> {
    let alloc = rt.alloc();
    let keys = [(0u16, 1), (1, 2), (255, 3), (256, 4), (u16::MAX, 5)];
    are_found::<u16, u16, ArchivedU16>(&rt, alloc, &keys, &[0, 1, 255, 256, u16::MAX])?;
    let keys = [(i8::MIN, 1), (-1, 2), (0, 3), (1, 4), (i8::MAX, 5)];
    are_found::<i8, i8, i8>(&rt, alloc, &keys, &[i8::MIN, -1, 0, 1, i8::MAX])?;
    let keys = [(i16::MIN, 1), (-1, 2), (0, 3), (1, 4), (i16::MAX, 5)];
    are_found::<i16, i16, ArchivedI16>(&rt, alloc, &keys, &[i16::MIN, -1, 0, 1, i16::MAX])?;
    let keys = [(i32::MIN, 1), (-1, 2), (0, 3), (1, 4), (i32::MAX, 5)];
    are_found::<i32, i32, ArchivedI32>(&rt, alloc, &keys, &[i32::MIN, -1, 0, 1, i32::MAX])?;
    let keys = [(i64::MIN, 1), (-1, 2), (0, 3), (1, 4), (i64::MAX, 5)];
    are_found::<i64, i64, ArchivedI64>(&rt, alloc, &keys, &[i64::MIN, -1, 0, 1, i64::MAX])
}

#[test]
fn other_scalars_are_found(rt: HostRuntime) -> Result<(), Fail> {
    let alloc = rt.alloc();
    are_found::<bool, bool, bool>(&rt, alloc, &[(false, 1), (true, 2)], &[false, true])?;
    let keys = [
        ('\0', 1),
        ('a', 2),
        ('\u{D7FF}', 3),
        ('\u{E000}', 4),
        ('\u{10FFFF}', 5),
    ];
    let queries = ['\0', 'a', '\u{D7FF}', '\u{E000}', '\u{10FFFF}'];
    are_found::<char, char, ArchivedChar>(&rt, alloc, &keys, &queries)?;
    let (least, greatest) = (NonZeroU32::MIN, NonZeroU32::MAX);
    let keys = [(least, 1), (greatest, 2)];
    are_found::<NonZeroU32, NonZeroU32, ArchivedNonZeroU32>(&rt, alloc, &keys, &[least, greatest])?;
    are_found::<(), (), ()>(&rt, alloc, &[((), 1)], &[()])
}

#[test]
fn texts_and_pairs_are_found(rt: HostRuntime) -> Result<(), Fail> {
    let alloc = rt.alloc();
    let (first, second) = (
        String::from_str(alloc, "a")?,
        String::from_str(alloc, "aa")?,
    );
    let keys = [
        (EntryAdapter::new(&first, &0u8), 1),
        (EntryAdapter::new(&second, &0u8), 2),
        (EntryAdapter::new(&second, &1u8), 3),
    ];
    are_found::<EntryAdapter<String, u8>, (&str, u8), Entry<ArchivedText, u8>>(
        &rt,
        alloc,
        &keys,
        &[("a", 0), ("aa", 0), ("aa", 1)],
    )
}

// No number or text here says its type.
#[test]
fn literals_take_the_type_of_the_keys(rt: HostRuntime) {
    let empty = [0, 0, 0, 0, 0, 0, 0, 0];
    assert!(rt; !opened::<ArchivedI16, (), 1>(&rt, &empty, 0).contains_by(-5));
    assert!(rt; !opened::<ArchivedText, (), 1>(&rt, &empty, 0).contains_by("a"));
    assert!(rt; !opened::<Entry<u8, ArchivedI64>, (), 1>(&rt, &empty, 0).contains_by((5, -5)));
}
