//! Prices by name: serialized, validated, looked up, changed in place and deserialized.
#![tactic(auto)]

use anyhow::Result;
use rkyv_btree::prelude::*;
use std::collections::BTreeMap;

type Prices = Archived<BTreeMap<String, u32>>;

fn main(rt: HostRuntime) -> Result<()> {
    let alloc = rt.alloc();
    sizes_fit::<Prices>();
    let mut prices: BTreeMap<String, u32> = BTreeMap::new(alloc);
    for (name, price) in [("apple", 3), ("fig", 8), ("pear", 5)] {
        prices.insert(String::from_str(alloc, name)?, price)?;
    }
    let mut bytes = to_archive(alloc, &prices)?;
    println!(rt; "{} bytes", bytes.len())?;

    // Validates the bytes. Nothing is copied from them, then or later.
    let map = open::<Prices>(bytes.as_slice())?;
    if let Some(price) = map.get_native_by("pear") {
        println!(rt; "pear costs {price}")?;
    }
    for (name, price) in map.range_of("b"..) {
        println!(rt; "from b on: {name} {}", price.to_native())?;
    }

    // Overwrites the four bytes of one value.
    let mut map = open_mut::<Prices>(bytes.as_mut_slice())?;
    println!(rt; "changed: {}", map.set_by("pear", 6))?;

    let changed: BTreeMap<String, u32> = from_archive(alloc, bytes.as_slice())?;
    println!(rt; "{changed:?}")?;
    Ok(())
}
