//! What callers learn of lookups: each function calls some and says what it returns.
ghost use Rattle.std.specs.Prelude.{◌≡◌, ◌*◌, ◌≤◌};
ghost use Rattle.std.specs.Option.{option_map};
ghost use Rattle.std.specs.Ordering.{nat_cmp};
ghost use Rattle.rkyv_btree_base.specs.Scalars.{u32_kind};
ghost use Rattle.rkyv_btree.specs.Lookup.{found_in, height_of};
ghost use Rattle.rkyv_btree.specs.View.{view_value, entries_of};
ghost use Rattle.tests.specs.Lookups.{IsValueOf};

use crate::lookups::compare;
use crate::lookups_counted::nine;
use crate::numbers::Numbers;
use crate::same::same;
use rkyv_btree::view::{Shows, View};
use rkyv_btree_base::numbers::ArchivedU32;
use rkyv_btree_base::place::VecWriter;
use rkyv_btree_base::steps::StepCounter;
use std::test::Fail;

/// The value of a key, by a test and then by an index.
fn indexed(numbers: View<Numbers>, key: View<ArchivedU32>) -> Option<u32>
    ensures { result ≡ option_map (λ e. e.1)
        (found_in u32_kind u32_kind 5 numbers.entry (nat_cmp (view_value key.entry))) }
{
    if numbers.contains_key(key) {
        Some(numbers.index(key).to_native())
    } else {
        None
    }
}

/// The value of a key, by one lookup.
fn value_of(numbers: View<Numbers>, key: u32) -> Option<u32>
    ensures { IsValueOf (entries_of u32_kind u32_kind 5 numbers.entry) key result }
{
    match numbers.get_key_value_by(key) {
        None => None,
        Some((_, value)) => Some(value.to_native()),
    }
}

/// How many keys a search for one is compared with.
fn comparisons(numbers: View<Numbers>, key: u32) -> u64
    ensures { result ≤ 5 * height_of u32_kind u32_kind 5 numbers.entry }
{
    let mut steps = StepCounter::new();
    numbers.get_key_value_counted(&key, compare, &mut steps);
    steps.count()
}

#[test]
fn callers_look_up(rt: HostRuntime) -> Result<(), Fail> {
    let mut writer = VecWriter::new(rt.alloc());
    let map = nine(&rt, rt.alloc(), &mut writer)?;
    for (key, value, steps) in [(0, None, 2), (4, Some(40), 5), (9, Some(90), 5)] {
        let bytes = u32::to_le_bytes(key);
        let view = View::<ArchivedU32>::at(&bytes, 0);
        same(&rt, indexed(map, view), value);
        same(&rt, value_of(map, key), value);
        same(&rt, comparisons(map, key), steps);
    }
    Ok(())
}
