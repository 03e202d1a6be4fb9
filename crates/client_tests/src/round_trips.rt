//! Whole archives of std's maps, at types of the kit.
use crate::shared::same;
use examples::round_trip::there_and_back;
use examples::whole::{is_equal_to_itself, looked_up, owned_entries};
use rkyv_btree::prelude::*;
use std::alloc::Global;
use std::collections::BTreeMap;
use std::num::NonZeroU32;
use std::process::Abort;
use std::test::Fail;

#[test]
fn keys_of_an_archive_are_looked_up(rt: HostRuntime) -> Result<(), Fail> {
    let map = BTreeMap::from_array(rt.alloc(), [(1, 10), (3, 30)])?;
    for (key, value) in [
        (0, None),
        (1, Some(10)),
        (2, None),
        (3, Some(30)),
        (4, None),
    ] {
        assert_eq!(rt; looked_up(rt.alloc(), &map, key)?, value, "{key}");
    }
    Ok(())
}

#[test]
fn texts_come_back_and_are_the_same(rt: HostRuntime) -> Result<(), Fail> {
    let mut map: BTreeMap<String, u32> = BTreeMap::new(rt.alloc());
    for (text, number) in [("b", 2), ("", 0), ("a", 1)] {
        map.insert(String::from_str(rt.alloc(), text)?, number)?;
        assert!(rt; is_equal_to_itself(rt.alloc(), &map)?);
        assert!(rt; there_and_back(rt.alloc(), &map).expect(&rt, "a map") == map);
    }
    Ok(())
}

/// The entries of a map's archive are made the map's.
fn are_owned<K: EntryType, V: EntryType>(
    rt: &impl Abort,
    alloc: Global,
    map: &BTreeMap<K::Owned, V::Owned>,
) -> Result<(), Fail>
where
    K::Owned: Archive<Archived = K> + Serialize<VecWriter, Global>,
    V::Owned: Archive<Archived = V> + Serialize<VecWriter, Global>,
{
    assert!(rt; ArchivedBTreeMap::<K, V, 5>::fits());
    let archive = to_archive(alloc, map)?;
    let view = open::<ArchivedBTreeMap<K, V, 5>>(archive.as_slice())?;
    let owned = owned_entries::<K, V>(alloc, view)?;
    same(rt, owned.len(), map.len());
    for (made, entry) in owned.iter().zip(map.iter()) {
        assert!(rt; made.0 == *entry.0);
        assert!(rt; made.1 == *entry.1);
    }
    Ok(())
}

#[test]
fn entries_of_five_types_are_made(rt: HostRuntime) -> Result<(), Fail> {
    let alloc = rt.alloc();
    let mut texts: BTreeMap<u32, String> = BTreeMap::new(alloc);
    let mut letters: BTreeMap<char, NonZeroU32> = BTreeMap::new(alloc);
    let mut pairs: BTreeMap<(u8, u16), u32> = BTreeMap::new(alloc);
    for number in 1..=12u8 {
        let text = format!(in alloc; "number {number}")?;
        texts.insert(u32::from(number), text)?;
        letters.insert(
            char::from(number),
            NonZeroU32::MIN.saturating_add(number.into()),
        )?;
        pairs.insert((number % 3, number.into()), number.into())?;
    }
    are_owned::<ArchivedU32, ArchivedText>(&rt, alloc, &texts)?;
    are_owned::<ArchivedChar, ArchivedNonZeroU32>(&rt, alloc, &letters)?;
    are_owned::<Entry<u8, ArchivedU16>, ArchivedU32>(&rt, alloc, &pairs)
}
