//! A page of prices in a file, of which only the parts that it needs are read.

use crate::reading::Prices;
use anyhow::Result;
use rkyv_btree::prelude::*;
use rkyv_btree::source::{CachedSource, SeekSource, UnverifiedSource};
use std::alloc::Global;
use std::io::{Read, Seek};

/// The most bytes of a file that a page may read.
const BUDGET: u64 = 1_048_576;

/// Returns the first `count` prices whose names aren't before `first`, in a file that isn't read whole.
pub fn page<F: Read + Seek + Drop>(
    alloc: Global,
    file: F,
    first: &str,
    count: usize,
) -> Result<Vec<(String, u64)>> {
    sizes_fit::<Prices>();
    let source = CachedSource::new(alloc, SeekSource { file }, 16)?;
    let prices = UnverifiedSource::<CachedSource<SeekSource<F>>, Prices>::open(source, BUDGET)?;
    let mut entries = prices.range_of(first..);
    let mut room = [0u8; 4096];
    let mut page = Vec::new(alloc);
    for _ in 0..count {
        let Some((name, price)) = entries.next(&mut room)? else {
            break;
        };
        page.push((String::from_str(alloc, name.as_str())?, price.to_native()))?;
    }
    Ok(page)
}

/// Returns the last name and its price, in a file that isn't read whole.
pub fn last_price<F: Read + Seek + Drop>(alloc: Global, file: F) -> Result<Option<(String, u64)>> {
    sizes_fit::<Prices>();
    let source = SeekSource { file };
    let mut prices = UnverifiedSource::<SeekSource<F>, Prices>::open(source, BUDGET)?;
    let mut room = [0u8; 4096];
    let Some((name, price)) = prices.last(&mut room)? else {
        return Ok(None);
    };
    let name = String::from_str(alloc, name.as_str())?;
    Ok(Some((name, price.to_native())))
}
