//! Sets one price of an archive that somebody else wrote: `set_price NAME PRICE < archive > archive`.
#![tactic(auto)]

use anyhow::{Result, bail};
use rkyv_btree::prelude::*;
use std::collections::BTreeMap;
use std::env;
use std::io::{Read, Write};

type Prices = Archived<BTreeMap<String, u64>>;

fn main(rt: HostRuntime) -> Result<()> {
    sizes_fit::<Prices>();
    let mut words = env::args(&rt)?.skip(1);
    let (Some(name), Some(price)) = (words.next(), words.next()) else {
        bail!("usage: set_price NAME PRICE < archive > archive");
    };
    let mut bytes = Vec::new(rt.alloc());
    rt.stdin().read_to_end(&mut bytes)?;
    let mut map = open_mut::<Prices>(bytes.as_mut_slice())?;
    if !map.set_by(name.as_str(), price.parse::<u64>()?) {
        bail!("no price of that name");
    }
    rt.stdout().write_all(bytes.as_slice())?;
    Ok(())
}
