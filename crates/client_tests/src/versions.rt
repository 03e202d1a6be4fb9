//! Maps of versions, as a program archives and reads them.

use crate::shared::{number, same};
use examples::version::{ArchivedVersion, NO_VERSION, Version};
use rkyv_btree::base::build::BuildMap;
use rkyv_btree::base::fault::{EntryFault, Fault};
use rkyv_btree::base::layout;
use rkyv_btree::base::map::ArchivedBTreeMap;
use rkyv_btree::base::numbers::ArchivedU32;
use rkyv_btree::base::place::VecWriter;
use rkyv_btree::base::refusal::Refusal;
use rkyv_btree::deserialize::Deserialize;
use rkyv_btree::map::access;
use rkyv_btree::view::View;
use std::alloc::{AllocError, Global};
use std::hash::{DefaultHasher, Hash, Hasher};
use std::process::Abort;
use std::test::Fail;

type Releases = ArchivedBTreeMap<ArchivedVersion, ArchivedU32, 2>;

const fn version(major: u8, minor: u8, patch: u8) -> Version {
    Version {
        major,
        minor,
        patch,
    }
}

/// Versions, each with the year in which it came out.
fn releases() -> [(Version, u32); 3] {
    [
        (version(0, 9, 1), 2019),
        (version(1, 0, 0), 2020),
        (version(1, 2, 10), 2023),
    ]
}

/// Archives the years in which versions came out after what the writer holds, and returns the map's position.
fn archive(
    rt: &impl Abort,
    alloc: Global,
    releases: &[(Version, u32)],
    writer: &mut VecWriter,
) -> Result<u32, Fault<AllocError>> {
    assert!(rt; layout::fits::<ArchivedVersion, ArchivedU32, 2>());
    let items = releases.iter().map(|release| (&release.0, &release.1));
    let root = Releases::serialize_from_ordered_iter(alloc, releases.len(), items, writer)?;
    Releases::write_root(releases.len(), root, writer)
}

/// The map of versions at a position.
fn opened<'a>(rt: &impl Abort, bytes: &'a [u8], pos: u32) -> View<'a, Releases> {
    assert!(rt; layout::fits::<ArchivedVersion, ArchivedU32, 2>());
    access::<ArchivedVersion, ArchivedU32, 2>(bytes, pos).expect(rt, "a map")
}

#[test]
fn versions_are_archived_and_read(rt: HostRuntime) -> Result<(), Fail> {
    let releases = releases();
    let mut writer = VecWriter::new(rt.alloc());
    let pos = archive(&rt, rt.alloc(), &releases, &mut writer)?;
    let map = opened(&rt, writer.bytes(), pos);
    let mut left = releases.as_slice();
    for (key, year) in map.iter() {
        let (first, rest) = left.split_first().ok_or("too many entries")?;
        same(&rt, year.to_native(), first.1);
        is_read_as(&rt, rt.alloc(), &key, first.0)?;
        left = rest;
    }
    same(&rt, left.len(), 0);
    Ok(())
}

/// A version is read so, whichever way.
fn is_read_as(
    rt: &impl Abort,
    alloc: Global,
    view: &View<ArchivedVersion>,
    wanted: Version,
) -> Result<(), Fail> {
    same(rt, view.to_native(), wanted);
    same(rt, ArchivedVersion::deserialize(alloc, view)?, wanted);
    Ok(())
}

#[test]
fn versions_are_looked_up(rt: HostRuntime) -> Result<(), Fail> {
    let mut writer = VecWriter::new(rt.alloc());
    let pos = archive(&rt, rt.alloc(), &releases(), &mut writer)?;
    let map = opened(&rt, writer.bytes(), pos);
    let rows = [
        (version(0, 9, 0), None),
        (version(0, 9, 1), Some(2019)),
        (version(1, 0, 0), Some(2020)),
        (version(1, 2, 9), None),
        (version(1, 2, 10), Some(2023)),
        (version(1, 10, 0), None),
        (version(0, 0, 0), None),
    ];
    for (wanted, year) in rows {
        is_looked_up(&rt, &map, wanted, year);
    }
    same(&rt, map.contains_by((1, 0, 0)), true);
    for (key, value) in map.iter() {
        same(&rt, map.get(key).map(number), Some(value.to_native()));
    }
    Ok(())
}

/// Lookups of a version, and of its numbers, find this year.
fn is_looked_up(rt: &impl Abort, map: &View<Releases>, wanted: Version, year: Option<u32>) {
    same(rt, map.get_by(wanted).map(number), year);
    let numbers = (wanted.major, wanted.minor, wanted.patch);
    same(rt, map.get_by(numbers).map(number), year);
    same(rt, map.contains_by(wanted), year.is_some());
}

// A leaf of one entry: its kind, both keys, padding, both values, the length and the map.
#[test]
fn a_version_takes_three_bytes(rt: HostRuntime) -> Result<(), Fail> {
    let mut writer = VecWriter::new(rt.alloc());
    let pos = archive(&rt, rt.alloc(), &[(version(1, 2, 3), 9)], &mut writer)?;
    let want = [
        0, 1, 2, 3, 0, 0, 0, 0, 9, 0, 0, 0, 0, 0, 0, 0, 1, 0, 0, 0, // leaf
        0xEC, 0xFF, 0xFF, 0xFF, 1, 0, 0, 0, // map
    ];
    same(&rt, pos, 20);
    same(&rt, writer.bytes(), want.as_slice());
    Ok(())
}

#[test]
fn no_version_is_refused_when_it_is_archived(rt: HostRuntime) -> Result<(), Fail> {
    let mut writer = VecWriter::from_vec([0xAA].to_vec(rt.alloc())?);
    let releases = [(version(0, 0, 1), 1), (version(0, 0, 0), 2)];
    let refused = archive(&rt, rt.alloc(), &releases, &mut writer);
    let code = match refused {
        Err(Fault::Entry(EntryFault { code })) => Some(code),
        _ => None,
    };
    same(&rt, code, Some(NO_VERSION));
    same(&rt, writer.bytes(), [0xAA].as_slice());
    Ok(())
}

#[test]
fn no_version_is_refused_when_it_is_read(rt: HostRuntime) {
    assert!(rt; layout::fits::<ArchivedVersion, ArchivedU32, 2>());
    let mut bytes = [
        0, 0, 0, 1, 0, 0, 0, 0, 9, 0, 0, 0, 0, 0, 0, 0, 1, 0, 0, 0, // leaf
        0xEC, 0xFF, 0xFF, 0xFF, 1, 0, 0, 0, // map
    ];
    assert!(rt; access::<ArchivedVersion, ArchivedU32, 2>(&bytes, 20).is_ok());
    bytes[3] = 0;
    let opened = access::<ArchivedVersion, ArchivedU32, 2>(&bytes, 20);
    same(&rt, opened.err(), Some(Refusal::BadEntry { pos: 1 }));
}

/// What a hasher returns that was fed a value.
fn hashed<T: Hash>(value: &T) -> u64 {
    let mut state = DefaultHasher::new();
    value.hash(&mut state);
    state.finish()
}

#[test]
fn views_of_versions_compare_as_versions(rt: HostRuntime) {
    let bytes = [1, 2, 3, 1, 3, 0, 1, 2, 3, 2, 0, 0];
    let versions = [
        version(1, 2, 3),
        version(1, 3, 0),
        version(1, 2, 3),
        version(2, 0, 0),
    ];
    for (i, left) in versions.iter().enumerate() {
        let a = View::<ArchivedVersion>::check(&bytes, 3 * i as u32).expect(&rt, "a version");
        same(&rt, hashed(&a), hashed(left));
        for (j, right) in versions.iter().enumerate() {
            let b = View::<ArchivedVersion>::check(&bytes, 3 * j as u32).expect(&rt, "a version");
            same(&rt, a == b, left == right);
            same(&rt, a.cmp(&b), left.cmp(right));
        }
    }
}
