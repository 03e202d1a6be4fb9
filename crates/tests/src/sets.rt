//! Archived sets, by each of their calls.

use crate::read::number;
use crate::same::{same, shown};
use crate::views::hashed;
use rkyv_btree::set::access;
use rkyv_btree::strict::{access_strict, open_strict};
use rkyv_btree::unverified::Unverified;
use rkyv_btree::view::View;
use rkyv_btree_base::archive::{Archive, Serialize};
use rkyv_btree_base::build::BuildSet;
use rkyv_btree_base::check::{CheckBytes, Portable};
use rkyv_btree_base::fault::Fault;
use rkyv_btree_base::layout;
use rkyv_btree_base::map::ArchivedBTreeMap;
use rkyv_btree_base::numbers::ArchivedU32;
use rkyv_btree_base::place::VecWriter;
use rkyv_btree_base::refusal::Refusal;
use rkyv_btree_base::set::ArchivedBTreeSet;
use std::alloc::{AllocError, Global};
use std::collections::BTreeSet;
use std::ops::{Bound, ControlFlow};
use std::process::Abort;
use std::test::Fail;

/// Writes the tree and the root of a set, and returns where the root stands.
fn archive<KU, K, const E: usize>(
    rt: &impl Abort,
    alloc: Global,
    keys: &[KU],
    writer: &mut VecWriter,
) -> Result<u32, Fault<AllocError>>
where
    KU: Archive<Archived = K> + Serialize<VecWriter, Global>,
    K: Portable,
{
    assert!(rt; layout::fits::<K, (), E>());
    let len = keys.len();
    let root = ArchivedBTreeSet::<K, E>::serialize_from_ordered_iter(
        alloc,
        len,
        keys.iter(),
        writer,
    )?;
    ArchivedBTreeSet::<K, E>::write_root(len, root, writer)
}

#[test]
fn many_lookups_find_what_single_ones_find(rt: HostRuntime) -> Result<(), Fail> {
    let alloc = rt.alloc();
    let mut writer = VecWriter::new(alloc);
    let pos = archive::<u32, ArchivedU32, 2>(&rt, alloc, &[1, 3, 5, 7, 9, 11, 13], &mut writer)?;
    let keys = [
        9u32, 2, 1, 13, 14, 0, 3, 3, 4, 5, 6, 7, 8, 9, 10, 11, 12, 13, 1,
    ];
    let bytes = writer.bytes();
    assert!(rt; layout::fits::<ArchivedU32, (), 2>());
    let set = access::<ArchivedU32, 2>(bytes, pos)?;
    let unverified = Unverified::<ArchivedBTreeSet<ArchivedU32, 2>>::new(bytes, pos);
    let mut found = unverified.get_many_by(&keys);
    let mut count = 0u32;
    for (key, own) in keys.iter().zip(set.get_many_by(&keys)) {
        same(&rt, own.map(number), set.get_by(*key).map(number));
        let item = found.next().ok_or("no result")?;
        same(&rt, item?.map(number), own.map(number));
        count = count.wrapping_add(u32::from(own.is_some()));
    }
    same(&rt, count, 11);
    Ok(())
}

/// The set of keys is built strictly: what the writer holds then ends with these eight bytes, or a key is out of order.
fn built_strictly(
    rt: &impl Abort,
    alloc: Global,
    keys: &[u32],
    ends: Result<[u8; 8], u64>,
) -> Result<(), Fault<AllocError>> {
    let mut writer = VecWriter::new(alloc);
    let len = keys.len();
    assert!(rt; layout::fits::<ArchivedU32, (), 5>());
    match ArchivedBTreeSet::<ArchivedU32, 5>::serialize_strict_from_ordered_iter(
        alloc,
        len,
        keys.iter(),
        &mut writer,
    ) {
        Ok(root) => {
            let pos = ArchivedBTreeSet::<ArchivedU32, 5>::write_root(len, root, &mut writer)?;
            same(rt, pos, 28);
            let own = ends.unwrap_or([0; 8]);
            same(rt, writer.bytes().get(28..), Some(own.as_slice()));
        }
        Err(Fault::OutOfOrder { index }) => same(rt, Err(index), ends),
        Err(fault) => return Err(fault),
    }
    Ok(())
}

/// The set at a position.
fn opened<'a, K: CheckBytes, const E: usize>(
    rt: &impl Abort,
    bytes: &'a [u8],
    pos: u32,
) -> View<'a, ArchivedBTreeSet<K, E>> {
    assert!(rt; layout::fits::<K, (), E>());
    access::<K, E>(bytes, pos).expect(rt, "a set")
}

// Each of the two keys has a node of its own.
#[test]
fn an_iterator_counts_what_is_left(rt: HostRuntime) -> Result<(), Fail> {
    let mut writer = VecWriter::new(rt.alloc());
    let pos = archive::<u32, _, 1>(&rt, rt.alloc(), &[1, 2], &mut writer)?;
    let set = opened::<ArchivedU32, 1>(&rt, writer.bytes(), pos);
    same(&rt, (set.is_empty(), set.len()), (false, 2));
    let mut keys = set.iter();
    for (left, key) in [(2, Some(1)), (1, Some(2)), (0, None)] {
        same(&rt, keys.len(), left);
        same(&rt, keys.size_hint(), (left, Some(left)));
        same(&rt, keys.next().map(number), key);
    }
    Ok(())
}

// 1 and 3 have a leaf each, below 2.
#[test]
fn keys_are_visited_up_to_a_break_and_shown(rt: HostRuntime) -> Result<(), Fail> {
    let mut writer = VecWriter::new(rt.alloc());
    let pos = archive::<u32, _, 1>(&rt, rt.alloc(), &[1, 2, 3], &mut writer)?;
    let set = opened::<ArchivedU32, 1>(&rt, writer.bytes(), pos);
    let mut met = 0u32;
    let broken = set.visit_keys(|key: View<ArchivedU32>| {
        met = met.wrapping_add(1);
        if key.to_native() == 2 {
            ControlFlow::Break(key.to_native())
        } else {
            ControlFlow::Continue(())
        }
    });
    same(&rt, (broken, met), (Some(2), 2));
    let told = shown(rt.alloc(), &set)?;
    same(&rt, told.as_str(), "{1, 2, 3}");
    Ok(())
}

#[test]
fn keys_of_a_set_are_found(rt: HostRuntime) -> Result<(), Fail> {
    let mut writer = VecWriter::new(rt.alloc());
    let pos = archive::<u32, _, 2>(&rt, rt.alloc(), &[1, 3, 5, 7], &mut writer)?;
    let set = opened::<ArchivedU32, 2>(&rt, writer.bytes(), pos);
    for key in set.iter() {
        same(&rt, set.contains_key(key), true);
        same(&rt, set.get(key).map(number), Some(key.to_native()));
    }
    same(&rt, set.get_by(4).is_none(), true);
    same(&rt, set.contains_by(4), false);
    same(&rt, set.contains_by(7), true);
    built_strictly(
        &rt,
        rt.alloc(),
        &[1, 2],
        Ok([0xE4, 0xFF, 0xFF, 0xFF, 2, 0, 0, 0]),
    )?;
    built_strictly(&rt, rt.alloc(), &[2, 2], Err(1))?;
    built_strictly(&rt, rt.alloc(), &[1, 3, 2], Err(2))?;
    let strict = access_strict::<ArchivedBTreeSet<ArchivedU32, 2>>(writer.bytes(), pos)?;
    for key in strict.iter() {
        same(&rt, strict.contains_key(key), true);
        same(&rt, strict.get(key).map(number), Some(key.to_native()));
    }
    same(&rt, (strict.is_empty(), strict.len()), (false, 4));
    same(
        &rt,
        (strict.get_by(4).is_none(), strict.contains_by(7)),
        (true, true),
    );
    let map = access_strict::<ArchivedBTreeMap<ArchivedU32, (), 2>>(writer.bytes(), pos)?;
    same(&rt, (map.is_empty(), map.len()), (false, 4));
    same(
        &rt,
        (map.get_key_value_by(3).is_some(), map.contains_by(4)),
        (true, false),
    );
    let unordered = archive::<u32, _, 2>(&rt, rt.alloc(), &[1, 5, 3, 7], &mut writer)?;
    let refused = access_strict::<ArchivedBTreeSet<ArchivedU32, 2>>(
        writer.bytes(),
        unordered,
    ).err();
    same(&rt, refused, Some(Refusal::OutOfOrder { index: 2 }));
    Ok(())
}

#[test]
fn a_range_between_archived_keys(rt: HostRuntime) -> Result<(), Fail> {
    let mut writer = VecWriter::new(rt.alloc());
    let pos = archive::<u32, _, 2>(&rt, rt.alloc(), &[1, 3, 5, 7], &mut writer)?;
    let set = opened::<ArchivedU32, 2>(&rt, writer.bytes(), pos);
    let low = set.get_by(3).expect(&rt, "a key");
    let high = set.get_by(7).expect(&rt, "a key");
    let mut within = set.range(Bound::Included(low), Bound::Excluded(high));
    same(&rt, within.next().map(number), Some(3));
    same(&rt, within.next().map(number), Some(5));
    assert!(rt; within.next().is_none());
    let mut within = set.range_by(Bound::Excluded(5), Bound::Unbounded);
    same(&rt, within.next().map(number), Some(7));
    assert!(rt; within.next().is_none());
    let strict = access_strict::<ArchivedBTreeSet<ArchivedU32, 2>>(writer.bytes(), pos)?;
    same(
        &rt,
        strict
            .range(Bound::Excluded(low), Bound::Included(high))
            .next()
            .map(number),
        Some(5),
    );
    same(
        &rt,
        strict
            .range_by(Bound::Included(4), Bound::Unbounded)
            .next()
            .map(number),
        Some(5),
    );
    let again = open_strict::<ArchivedBTreeSet<ArchivedU32, 2>>(writer.bytes())?;
    same(&rt, again.as_view().pos, pos);
    Ok(())
}

/// Whether the sets of two lists of keys, of which the second stands after some bytes, are equal, and so are their hashes.
fn are_equal(
    rt: &impl Abort,
    alloc: Global,
    one: &[u32],
    other: &[u32],
) -> Result<(bool, bool), Fail> {
    let mut first = VecWriter::new(alloc);
    let pos = archive::<u32, _, 5>(rt, alloc, one, &mut first)?;
    let set = opened::<ArchivedU32, 5>(rt, first.bytes(), pos);
    let mut second = VecWriter::from_vec([7, 8, 9].to_vec(alloc)?);
    let pos = archive::<u32, _, 5>(rt, alloc, other, &mut second)?;
    let like = opened::<ArchivedU32, 5>(rt, second.bytes(), pos);
    same(rt, set != like, !(set == like));
    Ok((set == like, hashed(&set) == hashed(&like)))
}

#[test]
fn sets_of_equal_keys_are_equal(rt: HostRuntime) -> Result<(), Fail> {
    for (other, is_equal) in [([1, 2], true), ([1, 3], false)] {
        let told = are_equal(&rt, rt.alloc(), &[1, 2], &other)?;
        same(&rt, told, (is_equal, is_equal));
    }
    Ok(())
}

/// Whether the set of a list of keys is the same as the native set of another.
fn is_native_set(
    rt: &impl Abort,
    alloc: Global,
    keys: &[u32],
    others: &[u32],
) -> Result<bool, Fail> {
    let mut writer = VecWriter::new(alloc);
    let pos = archive::<u32, _, 2>(rt, alloc, keys, &mut writer)?;
    let set = opened::<ArchivedU32, 2>(rt, writer.bytes(), pos);
    let mut native = BTreeSet::new(alloc);
    for key in others {
        native.insert(*key)?;
    }
    Ok(set.eq_set(&native))
}

#[test]
fn a_set_is_the_same_as_its_own_keys_alone(rt: HostRuntime) -> Result<(), Fail> {
    let rows: [(&[u32], bool); 7] = [
        (&[5, 3, 1], true),
        (&[0, 3, 5], false),
        (&[1, 4, 5], false),
        (&[1, 3, 6], false),
        (&[1, 3], false),
        (&[1, 3, 5, 7], false),
        (&[], false),
    ];
    for (keys, is_same) in rows {
        same(
            &rt,
            is_native_set(&rt, rt.alloc(), &[1, 3, 5], keys)?,
            is_same,
        );
    }
    Ok(())
}
