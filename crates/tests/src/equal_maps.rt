//! Maps are hashed and shown as their lists.

use crate::convert;
use crate::entries::Recorder;
use crate::same::{same, shown};
use crate::texts::with_texts;
use crate::views::hashed;
use rkyv_btree_base::place::VecWriter;
use rkyv_btree_base::signed::ArchivedI32;
use rkyv_btree_base::text::ArchivedText;
use std::hash::{DefaultHasher, Hash, Hasher};
use std::test::Fail;

#[test]
fn a_map_of_texts_is_hashed_and_shown_entry_by_entry(rt: HostRuntime) -> Result<(), Fail> {
    let entries = with_texts(rt.alloc(), &[("a", 1), ("b", 2)])?;
    let mut writer = VecWriter::new(rt.alloc());
    let pos = convert::archive::<String, i32, _, _, 5>(&rt, rt.alloc(), &entries, &mut writer)?;
    let map = convert::opened::<ArchivedText, ArchivedI32, 5>(&rt, writer.bytes(), pos);
    let mut state = DefaultHasher::new();
    "a".hash(&mut state);
    1i32.hash(&mut state);
    "b".hash(&mut state);
    2i32.hash(&mut state);
    same(&rt, hashed(&map), state.finish());
    let told = shown(rt.alloc(), &map)?;
    same(&rt, told.as_str(), "{\"a\": 1, \"b\": 2}");
    Ok(())
}

// The recorder keeps eight bytes, which two entries of two bytes fill.
#[test]
fn a_map_feeds_a_hasher_its_entries_and_no_length(rt: HostRuntime) -> Result<(), Fail> {
    let entries = [(1u8, 2u8), (3, 4)];
    let mut writer = VecWriter::new(rt.alloc());
    let pos = convert::archive::<u8, u8, _, _, 1>(&rt, rt.alloc(), &entries, &mut writer)?;
    let map = convert::opened::<u8, u8, 1>(&rt, writer.bytes(), pos);
    let mut taken = Recorder(0);
    map.hash(&mut taken);
    same(&rt, taken.finish(), 0x01_FF_02_FF_03_FF_04_FF);
    let told = shown(rt.alloc(), &map)?;
    same(&rt, told.as_str(), "{1: 2, 3: 4}");
    Ok(())
}
