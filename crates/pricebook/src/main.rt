//! A book of prices: serialized, validated and looked up.
#![tactic(auto)]

use anyhow::Result;
use rkyv_btree::prelude::*;
use std::collections::BTreeMap;

type Prices = Archived<BTreeMap<String, u64>>;

fn main(rt: HostRuntime) -> Result<()> {
    let alloc = rt.alloc();
    sizes_fit::<Prices>();
    let mut prices: BTreeMap<String, u64> = BTreeMap::new(alloc);
    for (name, price) in [("pear", 5), ("apple", 3), ("fig", 8), ("lemon", 12)] {
        prices.insert(String::from_str(alloc, name)?, price)?;
    }
    let bytes = to_archive(alloc, &prices)?;

    let book = open::<Prices>(&bytes)?;
    for name in ["fig", "plum"] {
        match book.get_native_by(name) {
            Some(price) => println!(rt; "{name}: {price}")?,
            None => println!(rt; "{name}: no price")?,
        }
    }
    for (name, price) in book.range_of("b".."m") {
        println!(rt; "from b to m: {name} {}", price.to_native())?;
    }
    Ok(())
}
