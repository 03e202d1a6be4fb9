//! An edit in bytes from elsewhere: validated, looked up and overwritten in place.
#![tactic(auto)]

use anyhow::Result;
use rkyv_btree::prelude::*;
use std::collections::BTreeMap;

type Numbers = Archived<BTreeMap<u32, u32>>;

/// The archive of 7 to 11, as docs/FORMAT.md shows it.
const ARCHIVE: [u8; 56] = [
    0, 0, 0, 0, 7, 0, 0, 0, 0, 0, 0, 0, 0, 0, 0, 0, 0, 0, 0, 0, 0, 0, 0, 0, 11, 0, 0, 0, 0, 0, 0,
    0, 0, 0, 0, 0, 0, 0, 0, 0, 0, 0, 0, 0, 1, 0, 0, 0, 0xD0, 0xFF, 0xFF, 0xFF, 1, 0, 0, 0,
];

/// Overwrites the value of a key, and prints it before and after.
fn overwrite(rt: &impl Print, bytes: &mut [u8], key: u32, value: u32) -> Result<()> {
    sizes_fit::<Numbers>();
    let mut map = open_mut::<Numbers>(bytes)?;
    println!(rt; "before: {:?}", map.as_view().get_native_by(key))?;
    map.set_by(key, value);
    println!(rt; "after: {:?}", map.as_view().get_native_by(key))?;
    Ok(())
}

fn main(rt: HostRuntime) -> Result<()> {
    let mut bytes = ARCHIVE;
    overwrite(&rt, &mut bytes, 7, 12)?;
    bytes[0] = 2;
    if let Err(refusal) = overwrite(&rt, &mut bytes, 7, 13) {
        println!(rt; "refused: {refusal}")?;
    }
    Ok(())
}
