//! Many lookups in a file of prices, of which only the parts that they need are read.

use crate::reading::Prices;
use anyhow::Result;
use rkyv_btree::prelude::*;
use rkyv_btree::source::{SeekSource, UnverifiedSource};
use std::io::{Read, Seek};

/// Adds up the prices of some names in a file, of which at most `budget` bytes are read. Returns the sum, and how many bytes the
/// lookups have read.
pub fn total_in<F: Read + Seek + Drop>(file: F, names: &[&str], budget: u64) -> Result<(u64, u64)> {
    sizes_fit::<Prices>();
    let source = SeekSource { file };
    let mut prices = UnverifiedSource::<SeekSource<F>, Prices>::open(source, budget)?;
    let mut room = [0u8; 4096];
    let mut total = 0u64;
    for name in names {
        if let Some(price) = prices.get_by(*name, &mut room)? {
            total = total.wrapping_add(price.to_native());
        }
    }
    Ok((total, budget.saturating_sub(prices.budget_left())))
}
