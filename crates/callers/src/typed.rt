//! Files that state their type.
ghost use Rattle.std.specs.Prelude.{◌≡◌, ◌++◌, codes, string_bytes, IfOk};

use crate::reading::Prices;
use rkyv_btree::prelude::*;
use rkyv_btree::source::CachedSource;
use rkyv_btree::typed::{NameOf, check_type, open_typed_source};
use std::alloc::{AllocError, Global};

/// A temperature, whose archived type has a name of its own.
pub struct Celsius;

impl StatedName for Celsius {
    ghost stated = { codes "Celsius" };

    fn stated_name() -> &'static str {
        "Celsius"
    }
}

/// Returns the name of archived temperatures.
pub fn name_of_celsius(alloc: Global) -> Result<String, AllocError>
    ensures { IfOk result (λ name. string_bytes name ≡ codes "<Celsius>") }
{
    NameOf::<ArchivedPlain<Celsius>>::new().to_string(alloc)
}

/// Serializes a list of prices, in its own order, after the header of its type.
pub fn typed_archive_of(alloc: Global, prices: &[(String, u64)]) -> anyhow::Result<Vec<u8>> {
    sizes_fit::<Prices>();
    let items = prices
        .iter()
        .map(|price: &(String, u64)| (&price.0, &price.1));
    let mut writer = VecWriter::new(alloc);
    write_header::<Prices, VecWriter>(alloc, &mut writer)?;
    let tree = Prices::serialize_from_exact_iter(alloc, items, &mut writer)?;
    Prices::write_root(prices.len(), tree, &mut writer)?;
    Ok(writer.into_vec())
}

/// Tests that the bytes are prices by name, as their header says.
pub fn are_prices(bytes: &[u8]) -> anyhow::Result<()> {
    check_type::<Prices>(bytes)?;
    Ok(())
}

/// Returns the price of a name in a typed file. Only what the lookup reads is validated.
pub fn price_typed(bytes: &[u8], name: &str) -> anyhow::Result<Option<u64>> {
    sizes_fit::<Prices>();
    let map = open_typed_unverified::<Prices>(bytes)?;
    Ok(map.get_by(name)?.map(|price| price.to_native()))
}

/// The most bytes of a file that a lookup may read.
const BUDGET: u64 = 65_536;

/// Returns the price of a name in a typed file that isn't read whole.
pub fn price_in_source(alloc: Global, file: &[u8], name: &str) -> anyhow::Result<Option<u64>> {
    sizes_fit::<Prices>();
    let mut room = [0u8; 4096];
    let source = CachedSource::new(alloc, file, 4)?;
    let mut prices = open_typed_source::<CachedSource<&[u8]>, Prices>(source, BUDGET, &mut room)?;
    Ok(
        prices
            .get_by(name, &mut room)?
            .map(|price| price.to_native()),
    )
}

/// Validates a typed file and the order of its keys, and changes the price of a name. Returns whether it is there.
pub fn change_typed(bytes: &mut [u8], name: &str, price: u64) -> anyhow::Result<bool> {
    sizes_fit::<Prices>();
    let mut map = open_typed_strict_mut::<Prices>(bytes)?;
    Ok(map.set_by(name, price))
}
