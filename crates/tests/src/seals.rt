//! Values written in place by visits, by seals and by their keys.
ghost use Rattle.std.specs.Prelude.{IsTrue};
ghost use Rattle.rkyv_btree_base.specs.Scalars.{u32_kind};
ghost use Rattle.rkyv_btree_base.specs.Views.{stands};
ghost use Rattle.rkyv_btree.specs.Alone.{StandsAlone};

use crate::lookups::compare;
use crate::numbers::archive;
use crate::same::same;
use rkyv_btree::map::{MapSeal, access_mut};
use rkyv_btree::seal::{LentKey, Seal};
use rkyv_btree::view::{Shows, View};
use rkyv_btree_base::layout;
use rkyv_btree_base::map::ArchivedBTreeMap;
use rkyv_btree_base::numbers::ArchivedU32;
use rkyv_btree_base::place::VecWriter;
use rkyv_btree_base::signed::ArchivedI32;
use rkyv_btree_base::text::ArchivedText;
use std::alloc::Global;
use std::ops::{Bound, ControlFlow};
use std::process::Abort;
use std::test::Fail;

/// The map of numbers at a position, to be written.
pub(crate) fn opened<'a, const E: usize>(
    rt: &impl Abort,
    bytes: &'a mut [u8],
    pos: u32,
) -> MapSeal<'a, ArchivedBTreeMap<ArchivedU32, ArchivedU32, E>> {
    assert!(rt; layout::fits::<ArchivedU32, ArchivedU32, E>());
    access_mut::<ArchivedU32, ArchivedU32, E>(bytes, pos).expect(rt, "a map")
}

/// The archive of numbers, and where the map stands.
pub(crate) fn archived<const E: usize>(
    rt: &impl Abort,
    alloc: Global,
    entries: &[(u32, u32)],
) -> Result<(Vec<u8>, u32), Fail> {
    let mut writer = VecWriter::new(alloc);
    let pos = archive::<E>(rt, alloc, entries.len(), entries, &mut writer)?;
    Ok((writer.into_vec(), pos))
}

#[test]
fn an_empty_map_lends_nothing(rt: HostRuntime) {
    let root = [1, 0, 0, 0, 0, 0, 0, 0];
    let mut bytes = root;
    let mut map = opened::<5>(&rt, &mut bytes, 0);
    let called = map.visit_seal(|_: LentKey<ArchivedU32>, _: &mut Seal<ArchivedU32>| {
        ControlFlow::Break(())
    });
    same(&rt, called, None);
    let mut values = opened::<5>(&rt, &mut bytes, 0).values_seal();
    same(&rt, values.next(), false);
    let from = Bound::Included(0u32);
    let mut range = opened::<5>(&rt, &mut bytes, 0).range_seal_by(from, Bound::Unbounded);
    same(&rt, range.next(), false);
    same(&rt, range.size_hint(), (0, None));
    same(&rt, bytes, root);
}

/// Replaces the value of a key by 7, and returns the key and the value that were met.
fn replaced<const E: usize>(
    rt: &impl Abort,
    bytes: &mut [u8],
    pos: u32,
    key: u32,
) -> Option<(u32, u32)> {
    let write = |lent: LentKey<ArchivedU32>, value: &mut Seal<ArchivedU32>|
        requires key { IsTrue (stands u32_kind lent.buf.now lent.pos) }
        requires value { StandsAlone u32_kind value.old.buf.now value.old.pos }
    {
        let old = value.read();
        value.write(7);
        (lent.view().to_native(), old)
    };
    opened::<E>(rt, bytes, pos).with_seal_by(key, write)
}

/// A seal at the place of a key writes its value.
fn write_at_its_place(rt: &impl Abort, bytes: &mut [u8], pos: u32, key: u32, value: u32) {
    let map = opened::<2>(rt, bytes, pos);
    let place = map.find_with(&key, compare).expect(rt, "an entry");
    same(rt, map.find_by(key), Some(place));
    let MapSeal { buf, pos, of: _ } = map;
    let mut seal = MapSeal::<ArchivedBTreeMap<ArchivedU32, ArchivedU32, 2>>::seal_at(
        buf, pos, place,
    );
    seal.write(value);
    same(rt, seal.read(), value);
}

#[test]
fn values_are_written_by_their_keys(rt: HostRuntime) -> Result<(), Fail> {
    let entries = [(1, 10), (2, 20), (3, 30), (4, 40), (5, 50)];
    let (mut bytes, pos) = archived::<2>(&rt, rt.alloc(), &entries)?;
    let query = u32::to_le_bytes(2);
    let view = View::<ArchivedU32>::at(&query, 0);
    same(&rt, opened::<2>(&rt, &mut bytes, pos).set(view, 21), true);
    same(&rt, opened::<2>(&rt, &mut bytes, pos).set_by(6, 61), false);
    same(&rt, replaced::<2>(&rt, &mut bytes, pos, 5), Some((5, 50)));
    same(&rt, replaced::<2>(&rt, &mut bytes, pos, 0), None);
    write_at_its_place(&rt, &mut bytes, pos, 3, 31);
    let changed = [(1, 10), (2, 21), (3, 31), (4, 40), (5, 7)];
    let (want, _) = archived::<2>(&rt, rt.alloc(), &changed)?;
    same(&rt, bytes.as_slice(), want.as_slice());
    Ok(())
}

// The break comes at the third key.
#[test]
fn a_visit_that_breaks_writes_no_more(rt: HostRuntime) -> Result<(), Fail> {
    let entries = [(1, 10), (2, 20), (3, 30), (4, 40), (5, 50)];
    let (mut bytes, pos) = archived::<2>(&rt, rt.alloc(), &entries)?;
    let mut map = opened::<2>(&rt, &mut bytes, pos);
    let broken = map.visit_seal(
        |lent: LentKey<ArchivedU32>, value: &mut Seal<ArchivedU32>|
            requires key { IsTrue (stands u32_kind lent.buf.now lent.pos) }
            requires value { StandsAlone u32_kind value.old.buf.now value.old.pos }
        {
            let old = value.read();
            if lent.view().to_native() == 3 {
                return ControlFlow::Break(old);
            }
            value.write(old.wrapping_add(1));
            ControlFlow::Continue(())
        },
    );
    same(&rt, broken, Some(30));
    let changed = [(1, 11), (2, 21), (3, 30), (4, 40), (5, 50)];
    let (want, _) = archived::<2>(&rt, rt.alloc(), &changed)?;
    same(&rt, bytes.as_slice(), want.as_slice());
    Ok(())
}

/// The archive of the texts bar, bat, baz and foo, whose numbers 20, 80, 40 and 10 are at 56, 60, 64 and 68. The map is at 80.
const FOUR_TEXTS: [u8; 88] = [
    98, 97, 114, 98, 97, 116, 98, 97, 122, 102, 111, 111, 0, 0, 0, 0, 240, 255, 255, 255, 3, 0, 0,
    0, 235, 255, 255, 255, 3, 0, 0, 0, 230, 255, 255, 255, 3, 0, 0, 0, 225, 255, 255, 255, 3, 0, 0,
    0, 0, 0, 0, 0, 0, 0, 0, 0, 20, 0, 0, 0, 80, 0, 0, 0, 40, 0, 0, 0, 10, 0, 0, 0, 0, 0, 0, 0, 4,
    0, 0, 0, 188, 255, 255, 255, 4, 0, 0, 0,
];

#[test]
fn a_visit_adds_to_the_values_of_texts(rt: HostRuntime) {
    let mut bytes = FOUR_TEXTS;
    assert!(rt; layout::fits::<ArchivedText, ArchivedI32, 5>());
    let map = access_mut::<ArchivedText, ArchivedI32, 5>(&mut bytes, 80);
    let mut map = map.expect(&rt, "a map");
    let broken = map.visit_seal(|_: LentKey<ArchivedText>, value: &mut Seal<ArchivedI32>| {
        let old = value.read();
        value.write(old.wrapping_add(10));
        ControlFlow::<(), ()>::Continue(())
    });
    same(&rt, broken, None);
    let mut want = FOUR_TEXTS;
    want[56] = 30;
    want[60] = 90;
    want[64] = 50;
    want[68] = 20;
    same(&rt, bytes, want);
}
