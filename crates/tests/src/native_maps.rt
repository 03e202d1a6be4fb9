//! A native map that is made of an archived one, or a growth that is refused.

use crate::convert;
use crate::same::same;
use rkyv_btree::deserialize::{Deserialize, DeserializeFault};
use rkyv_btree_base::map::ArchivedBTreeMap;
use rkyv_btree_base::text::ArchivedText;
use std::alloc::{AllocError, Global};
use std::collections::BTreeMap;
use std::process::Abort;

/// What comes of deserialising a map of texts whose archive stands already.
fn texts_made(
    rt: &impl Abort,
    alloc: Global,
    bytes: &[u8],
) -> Result<BTreeMap<String, String>, DeserializeFault> {
    let map = convert::opened::<ArchivedText, ArchivedText, 1>(rt, bytes, 28);
    ArchivedBTreeMap::<ArchivedText, ArchivedText, 1>::deserialize(alloc, &map)
}

// A list, the key, the value, and then three growths for the map. `rt try --test --fail-alloc 1` to `6` refuses each.
#[test]
fn a_map_is_made_or_a_growth_is_refused(rt: HostRuntime) {
    let bytes = [
        b'a', b'b', 0, 0, // the texts
        0, 0, 0, 0, // kind
        0xF8, 0xFF, 0xFF, 0xFF, 1, 0, 0, 0, // the key
        0xF1, 0xFF, 0xFF, 0xFF, 1, 0, 0, 0, // the value
        1, 0, 0, 0, // length
        0xE8, 0xFF, 0xFF, 0xFF, 1, 0, 0, 0, // root
    ];
    match texts_made(&rt, rt.alloc(), &bytes) {
        Ok(map) => same(&rt, map.get("a").map(|value| value.as_str()), Some("b")),
        Err(fault) => same(&rt, fault, DeserializeFault::Memory(AllocError)),
    }
}
