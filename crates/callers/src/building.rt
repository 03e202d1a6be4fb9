//! Archives of price lists that are in no std map.

use crate::reading::Prices;
use anyhow::Result;
use rkyv_btree::prelude::*;
use std::alloc::Global;
use std::collections::BTreeMap;
use std::fs::File;
use std::io::{BufWriter, Write};

/// Numbers by numbers.
pub type Squares = Archived<BTreeMap<u32, u64>>;

/// Serializes a list of prices, in its own order. Returns the bytes, and the position of the map in them.
pub fn archive_of(alloc: Global, prices: &[(String, u64)]) -> Result<(Vec<u8>, u32)> {
    sizes_fit::<Prices>();
    let items = prices
        .iter()
        .map(|price: &(String, u64)| (&price.0, &price.1));
    let mut writer = VecWriter::new(alloc);
    let tree = Prices::serialize_from_exact_iter(alloc, items, &mut writer)?;
    let root = Prices::write_root(prices.len(), tree, &mut writer)?;
    Ok((writer.into_vec(), root))
}

/// Returns the archive of a list of prices, in its own order.
pub fn prices_of(alloc: Global, prices: &[(String, u64)]) -> Result<Vec<u8>> {
    sizes_fit::<Prices>();
    let items = prices
        .iter()
        .map(|price: &(String, u64)| (&price.0, &price.1));
    Ok(Prices::to_archive_of(alloc, items)?)
}

/// Serializes a list of prices to a file, and returns the position of the map in it.
pub fn write_to(alloc: Global, file: File, prices: &[(String, u64)]) -> Result<u32> {
    sizes_fit::<Prices>();
    let items = prices
        .iter()
        .map(|price: &(String, u64)| (&price.0, &price.1));
    let mut writer = IoWriter::new(BufWriter::new(alloc, file)?);
    let tree = Prices::serialize_from_exact_iter(alloc, items, &mut writer)?;
    let root = Prices::write_root(prices.len(), tree, &mut writer)?;
    writer.into_inner().flush()?;
    Ok(root)
}

/// Returns the archive of the squares of the numbers below `count`. Each is computed when the builder takes it.
pub fn squares(alloc: Global, count: u32) -> Result<Vec<u8>> {
    sizes_fit::<Squares>();
    let items = (0..count).map(|n: u32| (n, u64::from(n).wrapping_mul(u64::from(n))));
    Ok(Squares::to_archive_of(alloc, items)?)
}

/// Serializes words and their lengths in their order, and copies no word before. Returns the bytes, and the position of the map in them.
pub fn word_lengths(alloc: Global, words: &[&str]) -> Result<(Vec<u8>, u32)> {
    sizes_fit::<Prices>();
    let items = words.iter().map(|word: &&str| (*word, word.len() as u64));
    let mut writer = VecWriter::new(alloc);
    let root = Prices::write_map(alloc, items, &mut writer)?;
    Ok((writer.into_vec(), root))
}
