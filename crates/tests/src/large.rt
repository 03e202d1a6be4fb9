//! Maps of more than a thousand entries: no call runs out of memory because a map is large.

use crate::same::same;
use rkyv_btree::strict::migrate;
use rkyv_btree::whole::{from_archive, open};
use rkyv_btree_base::layout;
use rkyv_btree_base::map::ArchivedBTreeMap;
use rkyv_btree_base::numbers::ArchivedU32;
use rkyv_btree_base::place::VecWriter;
use rkyv_btree_base::whole::to_archive;
use std::collections::BTreeMap;
use std::test::Fail;

type Map = ArchivedBTreeMap<ArchivedU32, ArchivedU32, 5>;

#[test]
fn a_large_map_comes_back_and_is_migrated(rt: HostRuntime) -> Result<(), Fail> {
    let alloc = rt.alloc();
    assert!(rt; layout::fits::<ArchivedU32, ArchivedU32, 5>());
    let mut map: BTreeMap<u32, u32> = BTreeMap::new(alloc);
    for key in 0..1500u32 {
        map.insert(key, key.wrapping_mul(10))?;
    }
    let bytes = to_archive(alloc, &map)?;
    let back: BTreeMap<u32, u32> = from_archive(alloc, bytes.as_slice())?;
    assert!(rt; back == map);
    let view = open::<Map>(bytes.as_slice())?;
    let mut writer = VecWriter::new(alloc);
    migrate::<u32, u32, _, _, _>(alloc, &view, &mut writer)?;
    same(&rt, writer.bytes(), bytes.as_slice());
    Ok(())
}
