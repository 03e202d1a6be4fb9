//! Values of types that are written in place, by their keys.

use crate::convert::archive;
use crate::same::same;
use rkyv_btree::map::access_mut;
use rkyv_btree_base::archive::{Archive, Serialize};
use rkyv_btree_base::check::InPlace;
use rkyv_btree_base::layout;
use rkyv_btree_base::numbers::{ArchivedU16, ArchivedU32, ArchivedU64};
use rkyv_btree_base::place::VecWriter;
use rkyv_btree_base::scalars::{ArchivedChar, ArchivedNonZeroU32};
use rkyv_btree_base::signed::{ArchivedI16, ArchivedI64};
use rkyv_btree_base::util::{Entry, EntryAdapter};
use std::alloc::Global;
use std::num::NonZeroU32;
use std::process::Abort;
use std::test::Fail;

/// The value of key 1 is set in the map with the first entry: its archive is that of the map with the second entry then.
pub(crate) fn is_replaced<VU, N, V>(
    rt: &impl Abort,
    alloc: Global,
    old: &[(u32, VU)],
    new: &[(u32, VU)],
    value: N,
) -> Result<(), Fail>
where
    VU: Archive<Archived = V> + Serialize<VecWriter, Global>,
    N: Drop,
    V: InPlace<Native = N>,
{
    let mut writer = VecWriter::new(alloc);
    let pos = archive::<u32, VU, ArchivedU32, V, 2>(rt, alloc, old, &mut writer)?;
    let mut want = VecWriter::new(alloc);
    archive::<u32, VU, ArchivedU32, V, 2>(rt, alloc, new, &mut want)?;
    let mut bytes = writer.into_vec();
    assert!(rt; layout::fits::<ArchivedU32, V, 2>());
    let mut map = access_mut::<ArchivedU32, V, 2>(&mut bytes, pos)?;
    assert!(rt; map.set_by(1, value));
    same(rt, bytes.as_slice(), want.bytes());
    Ok(())
}

#[test]
fn numbers_are_replaced(rt: HostRuntime) -> Result<(), Fail> {
    let alloc = rt.alloc();
    is_replaced::<u16, u16, ArchivedU16>(&rt, alloc, &[(1, 0)], &[(1, 0x0102)], 0x0102)?;
    is_replaced::<u64, u64, ArchivedU64>(&rt, alloc, &[(1, u64::MAX)], &[(1, 1 << 32)], 1 << 32)?;
    is_replaced::<i8, i8, i8>(&rt, alloc, &[(1, 1)], &[(1, -2)], -2)?;
    is_replaced::<i16, i16, ArchivedI16>(&rt, alloc, &[(1, 1)], &[(1, -2)], -2)?;
    is_replaced::<i64, i64, ArchivedI64>(&rt, alloc, &[(1, i64::MAX)], &[(1, i64::MIN)], i64::MIN)?;
    is_replaced::<bool, bool, bool>(&rt, alloc, &[(1, false)], &[(1, true)], true)
}

#[test]
fn characters_and_pairs_are_replaced(rt: HostRuntime) -> Result<(), Fail> {
    let alloc = rt.alloc();
    is_replaced::<char, char, ArchivedChar>(
        &rt,
        alloc,
        &[(1, 'a')],
        &[(1, '\u{10FFFF}')],
        '\u{10FFFF}',
    )?;
    let (least, greatest) = (NonZeroU32::MIN, NonZeroU32::MAX);
    is_replaced::<NonZeroU32, NonZeroU32, ArchivedNonZeroU32>(
        &rt,
        alloc,
        &[(1, least)],
        &[(1, greatest)],
        greatest,
    )?;
    is_replaced::<EntryAdapter<i16, bool>, (i16, bool), Entry<ArchivedI16, bool>>(
        &rt,
        alloc,
        &[(1, EntryAdapter::new(&1, &false))],
        &[(1, EntryAdapter::new(&-2, &true))],
        (-2, true),
    )
}
