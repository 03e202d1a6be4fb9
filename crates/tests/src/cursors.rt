//! Cursors between bounds, whose values they write in place.
ghost use Rattle.std.specs.Prelude.{IsSome};
ghost use Rattle.rkyv_btree.specs.Cursor.{range_current_place};

use crate::lookups::compare;
use crate::same::same;
use crate::seals::{archived, opened};
use rkyv_btree::cursor::RangeSeal;
use rkyv_btree::map::MapSeal;
use rkyv_btree::native::ToNative;
use rkyv_btree_base::check::{InPlace, Portable};
use rkyv_btree_base::map::ArchivedBTreeMap;
use rkyv_btree_base::numbers::ArchivedU32;
use std::ops::Bound;
use std::process::Abort;
use std::test::Fail;

type Map<K, V, const E: usize> = ArchivedBTreeMap<K, V, E>;

type Range<'a> = RangeSeal<'a, Map<ArchivedU32, ArchivedU32, 2>>;

/// The key of the entry that a cursor between bounds lends.
fn key_within<K: ToNative<Native = u32>, V: InPlace, const E: usize>(
    cursor: &RangeSeal<'_, Map<K, V, E>>,
) -> u32
    requires { IsSome (range_current_place cursor.now) }
{
    cursor.key().to_native()
}

/// The value of the entry that a cursor between bounds lends.
fn value_within<K: Portable, V: InPlace<Native = u32>, const E: usize>(
    cursor: &RangeSeal<'_, Map<K, V, E>>,
) -> u32
    requires { IsSome (range_current_place cursor.now) }
{
    cursor.read()
}

/// A cursor between bounds lends this entry next, and raises its value.
fn next_within_is_raised<K: ToNative<Native = u32>, V: InPlace<Native = u32>, const E: usize>(
    rt: &impl Abort,
    cursor: &mut RangeSeal<'_, Map<K, V, E>>,
    key: u32,
    value: u32,
) {
    assert!(rt; cursor.next());
    same(rt, key_within::<K, V, E>(cursor), key);
    same(rt, value_within::<K, V, E>(cursor), value);
    cursor.write(value.wrapping_add(10));
    same(rt, cursor.size_hint(), (0, None));
}

/// A cursor between bounds lends these entries in order, and raises their values.
fn are_raised<K: ToNative<Native = u32>, V: InPlace<Native = u32>, const E: usize>(
    rt: &impl Abort,
    cursor: &mut RangeSeal<'_, Map<K, V, E>>,
    entries: &[(u32, u32)],
) {
    for (key, value) in entries {
        next_within_is_raised::<K, V, E>(rt, cursor, *key, *value);
    }
    for _ in 0..3 {
        assert!(rt; !cursor.next());
    }
}

// Above 1 and up to 4. Then the values are ten more, and the bounds are compared by a function.
#[test]
fn values_between_bounds_are_written_by_a_cursor(rt: HostRuntime) -> Result<(), Fail> {
    let entries = [(1, 10), (2, 20), (3, 30), (4, 40), (5, 50)];
    let (mut bytes, pos) = archived::<2>(&rt, rt.alloc(), &entries)?;
    let MapSeal {
        buf,
        pos: at,
        of: _,
    } = opened::<2>(&rt, &mut bytes, pos);
    let mut cursor = Range::by(buf, at, Bound::Excluded(1), Bound::Included(4));
    are_raised::<ArchivedU32, ArchivedU32, 2>(&rt, &mut cursor, &entries[1..4]);
    let raised = [(1, 10), (2, 30), (3, 40), (4, 50), (5, 50)];
    let (want, _) = archived::<2>(&rt, rt.alloc(), &raised)?;
    same(&rt, bytes.as_slice(), want.as_slice());
    let map = opened::<2>(&rt, &mut bytes, pos);
    let walk = map.walk_between(Bound::Included(&4), Bound::Unbounded, compare);
    let MapSeal {
        buf,
        pos: at,
        of: _,
    } = map;
    let mut cursor = Range::over(buf, at, walk);
    are_raised::<ArchivedU32, ArchivedU32, 2>(&rt, &mut cursor, &raised[3..]);
    let raised = [(1, 10), (2, 30), (3, 40), (4, 60), (5, 60)];
    let (want, _) = archived::<2>(&rt, rt.alloc(), &raised)?;
    same(&rt, bytes.as_slice(), want.as_slice());
    Ok(())
}
