//! Reading a price list in place.
ghost use Rattle.std.specs.Prelude.{◌≡◌, length};
ghost use Rattle.rkyv_btree_base.specs.Scalars.{u64_kind};
ghost use Rattle.rkyv_btree_base.specs.Text.{text_kind};
ghost use Rattle.rkyv_btree.specs.View.{entries_of};

use anyhow::Result;
use rkyv_btree::prelude::*;
use std::alloc::Global;
use std::collections::BTreeMap;

/// Names and their prices.
pub type Prices = Archived<BTreeMap<String, u64>>;

/// Validates the bytes, and returns the price of a name.
pub fn price_in(bytes: &[u8], name: &str) -> Result<Option<u64>> {
    sizes_fit::<Prices>();
    let map = open::<Prices>(bytes)?;
    Ok(price(map, name))
}

/// Returns the price of a name.
pub fn price(map: View<'_, Prices>, name: &str) -> Option<u64> {
    map.get_native_by(name)
}

/// Returns the last name and its price in a line of text, or `None` if there is none.
pub fn last_line(alloc: Global, map: View<'_, Prices>) -> Result<Option<String>> {
    let Some((name, price)) = map.last() else {
        return Ok(None);
    };
    Ok(Some(format!(in alloc; "{name} costs {price}")?))
}

/// Validates the bytes and the order of their keys, and returns the price of a name.
pub fn price_in_strict(bytes: &[u8], name: &str) -> Result<Option<u64>> {
    sizes_fit::<Prices>();
    let map = open_strict::<Prices>(bytes)?;
    Ok(map.get_native_by(name))
}

/// Validates the bytes and the order of their keys, and adds up the prices of the names that begin with `prefix`.
pub fn total_of_prefix(bytes: &[u8], prefix: &str) -> Result<u64> {
    sizes_fit::<Prices>();
    let map = open_strict::<Prices>(bytes)?;
    let named = map.with_prefix(prefix);
    Ok(named.fold(0, |sum: u64, entry| sum.wrapping_add(entry.1.to_native())))
}

/// Returns the price of a name. Only what the lookup reads is validated.
pub fn price_unverified(bytes: &[u8], name: &str) -> Result<Option<u64>> {
    sizes_fit::<Prices>();
    let map = Unverified::<Prices>::open(bytes)?;
    Ok(map.get_by(name)?.map(|price| price.to_native()))
}

/// Adds up all prices, modulo 2 to the power of 64. Each entry is validated when it is read.
pub fn total_unverified(bytes: &[u8]) -> Result<u64> {
    sizes_fit::<Prices>();
    let map = Unverified::<Prices>::open(bytes)?;
    let mut sum: u64 = 0;
    for entry in map.iter() {
        let (_, price) = entry?;
        sum = sum.wrapping_add(price.to_native());
    }
    Ok(sum)
}

/// Adds up the prices of the names from `low` to `high`, modulo 2 to the power of 64. Each entry is validated when it is read.
pub fn total_between_unverified(bytes: &[u8], low: &str, high: &str) -> Result<u64> {
    sizes_fit::<Prices>();
    let map = Unverified::<Prices>::open(bytes)?;
    let mut sum: u64 = 0;
    for entry in map.range_of(low..=high)? {
        let (_, price) = entry?;
        sum = sum.wrapping_add(price.to_native());
    }
    Ok(sum)
}

/// Returns the price of a name, by a comparison of the caller's own.
pub fn price_with(map: View<'_, Prices>, name: &str) -> Option<u64> {
    let found = map.get_key_value_with(&name, |name: &&str, key: View<ArchivedText>| {
        Ord::cmp(*name, key.as_str())
    });
    found.map(|entry| entry.1.to_native())
}

/// Adds up all prices, modulo 2 to the power of 64.
pub fn total(map: View<'_, Prices>) -> u64 {
    let mut sum: u64 = 0;
    for (_, price) in map {
        sum = sum.wrapping_add(price.to_native());
    }
    sum
}

/// Adds up the prices of the names from `low` to `high`.
pub fn total_between(map: View<'_, Prices>, low: &str, high: &str) -> u64 {
    map.range_of(low..=high)
        .fold(0, |sum: u64, entry| sum.wrapping_add(entry.1.to_native()))
}

/// Returns the first price whose name has more than `len` bytes.
pub fn first_longer(map: View<'_, Prices>, len: usize) -> Option<u64> {
    map.iter()
        .find(|entry| entry.0.as_str().len() > len)
        .map(|entry| entry.1.to_native())
}

/// Returns the first price above a limit, by a visit that stops there.
pub fn first_above(map: View<'_, Prices>, limit: u64) -> Option<u64> {
    map.visit(|_: View<ArchivedText>, price: View<ArchivedU64>| {
        let price = price.to_native();
        if price > limit {
            return ControlFlow::Break(price);
        }
        ControlFlow::Continue(())
    })
}

/// Adds up the prices of names, modulo 2 to the power of 64. A name without a price counts nothing.
pub fn total_of(map: View<'_, Prices>, names: &[&str]) -> u64 {
    let mut sum: u64 = 0;
    for found in map.get_many_by(names) {
        if let Some(price) = found {
            sum = sum.wrapping_add(price.to_native());
        }
    }
    sum
}

/// Counts the entries.
pub fn count(map: View<'_, Prices>) -> usize
    ensures { result ≡ length (entries_of text_kind u64_kind 5 map.entry) }
{
    map.iter().count()
}
