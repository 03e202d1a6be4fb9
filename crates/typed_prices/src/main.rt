//! Prices by name in a typed file: written, opened as its type, and refused as another.
#![tactic(auto)]

use anyhow::Result;
use rkyv_btree::prelude::*;
use std::collections::BTreeMap;

type Prices = Archived<BTreeMap<String, u32>>;

type Squares = Archived<BTreeMap<u64, u64>>;

fn main(rt: HostRuntime) -> Result<()> {
    let alloc = rt.alloc();
    sizes_fit::<Prices>();
    sizes_fit::<Squares>();
    let mut prices: BTreeMap<String, u32> = BTreeMap::new(alloc);
    for (name, price) in [("apple", 3), ("fig", 8), ("pear", 5)] {
        prices.insert(String::from_str(alloc, name)?, price)?;
    }
    let mut bytes = to_typed_archive(alloc, &prices)?;
    println!(rt; "{} bytes of type {}", bytes.len(), type_name_of(&bytes)?)?;

    let map = open_typed::<Prices>(&bytes)?;
    println!(rt; "a pear costs {:?}", map.get_native_by("pear"))?;

    // The header has the name of another type.
    if let Err(refusal) = open_typed::<Squares>(&bytes) {
        println!(rt; "{refusal}")?;
    }

    // A plain archive has no header, and a typed file is a plain archive too.
    let plain = to_archive(alloc, &prices)?;
    if let Err(refusal) = open_typed::<Prices>(&plain) {
        println!(rt; "{refusal}")?;
    }
    println!(rt;
        "{} entries without the header",
        open::<Prices>(&bytes)?.len()
    )?;

    let mut map = open_typed_mut::<Prices>(&mut bytes)?;
    println!(rt; "changed: {}", map.set_by("pear", 6))?;
    let changed = open_typed_strict::<Prices>(&bytes)?;
    println!(rt; "a pear costs {:?}", changed.get_native_by("pear"))?;
    Ok(())
}
