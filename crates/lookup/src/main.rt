//! Looks a name up in a file that holds an archived map of texts to numbers: `lookup FILE NAME`. It prints the number, and how many
//! bytes of the file it has read.
#![tactic(auto)]

use anyhow::{Context, Result};
use rkyv_btree::prelude::*;
use rkyv_btree::source::{SeekSource, UnverifiedSource};
use std::collections::BTreeMap;
use std::fs::File;
use std::{env, fs};

type Prices = Archived<BTreeMap<String, u32>>;

/// The most bytes of the file that a lookup may read.
const BUDGET: u64 = 65_536;

fn main(rt: HostRuntime) -> Result<()> {
    sizes_fit::<Prices>();
    let mut words = env::args(&rt)?.skip(1);
    let path = words.next().context("no file")?;
    let name = words.next().context("no name")?;
    let file = fs::open(&rt, path.as_str())?;
    let source = SeekSource { file };
    let mut prices = UnverifiedSource::<SeekSource<File>, Prices>::open(source, BUDGET)?;
    let mut room = [0u8; 4096];
    match prices.get_by(name.as_str(), &mut room)? {
        Some(price) => println!(rt; "{name}: {}", price.to_native())?,
        None => println!(rt; "{name}: not found")?,
    }
    let read = BUDGET.saturating_sub(prices.budget_left());
    println!(rt; "{read} bytes read")?;
    Ok(())
}
