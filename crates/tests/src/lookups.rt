//! Lookups in built maps of numbers.
ghost use Rattle.std.specs.Prelude.{◌≡◌};
ghost use Rattle.std.specs.Ordering.{nat_cmp};
ghost use Rattle.rkyv_btree.specs.View.{view_value};

use crate::lookups_counted::nine;
use crate::read::{number, numbers};
use rkyv_btree::view::{Shows, View};
use rkyv_btree_base::map::ArchivedBTreeMap;
use rkyv_btree_base::numbers::ArchivedU32;
use rkyv_btree_base::place::VecWriter;
use std::cmp::Ordering;
use std::process::Abort;
use std::test::Fail;

/// How a number compares with the one that a view reads.
pub(crate) fn compare(query: &u32, key: View<ArchivedU32>) -> Ordering
    ensures { result ≡ nat_cmp query.now (view_value key.entry) }
{
    query.cmp(&key.to_native())
}

/// Asserts that each lookup finds this entry of the key, or none.
fn finds_entry<const E: usize>(
    rt: &impl Abort,
    map: &View<ArchivedBTreeMap<ArchivedU32, ArchivedU32, E>>,
    view: &View<ArchivedU32>,
    want: Option<(u32, u32)>,
) {
    let key = view.to_native();
    assert_eq!(rt; map.get_key_value(*view).map(numbers), want, "{key}");
    assert_eq!(rt; map.get_key_value_by(key).map(numbers), want, "{key}");
    let compared = map.get_key_value_with(&key, compare);
    assert_eq!(rt; compared.map(numbers), want, "{key}");
}

/// Asserts that each lookup finds this value of the key, and that the key is there, or neither.
fn finds_value<const E: usize>(
    rt: &impl Abort,
    map: &View<ArchivedBTreeMap<ArchivedU32, ArchivedU32, E>>,
    view: &View<ArchivedU32>,
    want: Option<u32>,
) {
    let key = view.to_native();
    let value = map.get(*view).map(number);
    assert_eq!(rt; value, want, "{key}");
    let value = map.get_by(key).map(number);
    assert_eq!(rt; value, want, "{key}");
    assert_eq!(rt; map.contains_by(key), want.is_some(), "{key}");
    assert_eq!(rt; map.contains_key(*view), want.is_some(), "{key}");
}

#[test]
fn each_look_up_finds_the_keys_of_a_map(rt: HostRuntime) -> Result<(), Fail> {
    let mut writer = VecWriter::new(rt.alloc());
    let map = nine(&rt, rt.alloc(), &mut writer)?;
    for (key, value) in [
        (0, None),
        (1, Some(10)),
        (5, Some(50)),
        (9, Some(90)),
        (10, None),
    ] {
        let bytes = u32::to_le_bytes(key);
        let view = View::<ArchivedU32>::at(&bytes, 0);
        finds_entry::<5>(&rt, &map, &view, value.map(|value: u32| (key, value)));
        finds_value::<5>(&rt, &map, &view, value);
    }
    Ok(())
}
