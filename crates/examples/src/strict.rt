//! A file of prices that anyone may have written. It is opened strictly, so what is found in it is what a sorted map has.
ghost use Rattle.std.specs.BTreeMap.{is_at};
ghost use Rattle.std.specs.Cmp.Lexicographic.{slice_cmp};
ghost use Rattle.std.specs.Map.{lookup};
ghost use Rattle.std.specs.Option.{option_map};
ghost use Rattle.std.specs.Ordering.{nat_cmp};
ghost use Rattle.std.specs.Prelude.{◌≡◌, ℕ, List, slice_get, string_bytes, IfOk};
ghost use Rattle.std.specs.declared.ops.Bound.TheVariants.{Included, Unbounded};
ghost use Rattle.rkyv_btree.specs.RoundTrip.{both_mean};
ghost use Rattle.rkyv_btree.specs.Bounds.{entries_within};
ghost use Rattle.examples.specs.Strict.{IsPriceFile};

use rkyv_btree::base::fault::Fault;
use rkyv_btree::base::map::ArchivedBTreeMap;
use rkyv_btree::base::numbers::ArchivedU32;
use rkyv_btree::base::refusal::Refusal;
use rkyv_btree::base::text::ArchivedText;
use rkyv_btree::base::whole::to_archive;
use rkyv_btree::laws::{natives_are_ordered_alike, std_maps_are_increasing};
use rkyv_btree::strict::open_strict;
use rkyv_btree::view::View;
use std::alloc::{AllocError, Global};
use std::collections::BTreeMap;
use std::ops::Bound;

/// A file of names and their prices.
type Prices = ArchivedBTreeMap<ArchivedText, ArchivedU32, 5>;

/// Returns the price of a name in a file.
pub fn price_in(bytes: &[u8], name: &str) -> Result<Option<u32>, Refusal>
    ensures { IfOk result (λ price. (prices : List (List ℕ × ℕ)) × IsPriceFile bytes.now prices
        × (price ≡ lookup (is_at (slice_cmp nat_cmp name.now)) prices)) }
{
    let prices = open_strict::<Prices>(bytes)?;
    let price = prices.get_by(name);
    Ok(price.map(|price: View<ArchivedU32>| price.to_native()))
}

/// Returns the price of the first name of a file from `low` on.
pub fn first_price_from(bytes: &[u8], low: &str) -> Result<Option<u32>, Refusal>
    ensures { IfOk result (λ price. (prices : List (List ℕ × ℕ)) × IsPriceFile bytes.now prices
        × (price ≡ option_map (λ e. e.1)
        (slice_get (entries_within (Included (slice_cmp nat_cmp low.now)) Unbounded prices) 0))) }
{
    let prices = open_strict::<Prices>(bytes)?;
    match prices
        .range_by(Bound::Included(low), Bound::Unbounded)
        .next()
    {
        None => Ok(None),
        Some((_, price)) => Ok(Some(price.to_native())),
    }
}

/// Returns the file of a map, which always opens strictly.
pub fn file_of(alloc: Global, prices: &BTreeMap<String, u32>) -> Result<Vec<u8>, Fault<AllocError>>
    ensures { IfOk result (λ file. IsPriceFile file.items
        (both_mean string_bytes (λ n. n) prices.now.entries)) }
{
    natives_are_ordered_alike();
    std_maps_are_increasing::<String, u32, ArchivedText, ArchivedU32>();
    // The contract of `len` says that the keys of the map increase.
    let _len = prices.len();
    let file = to_archive(alloc, prices)?;
    if open_strict::<Prices>(file.as_slice()).is_err() {
        unreachable!();
    }
    Ok(file)
}
