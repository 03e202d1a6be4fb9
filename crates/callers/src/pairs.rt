//! A map whose keys are pairs: visits of cities, by city and year.
//!
//! The size of a pair is rounded up to its alignment, so each function that names the type has the attribute by which the prover computes it.

use rkyv_btree::prelude::*;
use std::collections::BTreeMap;

/// Visits by city and year.
pub type Visits = Archived<BTreeMap<(String, u32), u64>>;

/// Validates the bytes, and returns the visits of a city in a year.
#[tactic(auto, unfolding(rkyv_btree_portable::specs::Rounding::round_up))]
pub fn visits(bytes: &[u8], city: &str, year: u32) -> Result<Option<u64>, Refusal> {
    sizes_fit::<Visits>();
    Ok(open::<Visits>(bytes)?.get_native_by((city, year)))
}

/// Validates the bytes, and adds up the visits of a city from one year to another.
#[tactic(auto, unfolding(rkyv_btree_portable::specs::Rounding::round_up))]
pub fn visits_between(bytes: &[u8], city: &str, first: u32, last: u32) -> Result<u64, Refusal> {
    sizes_fit::<Visits>();
    let years = open::<Visits>(bytes)?.range_of((city, first)..=(city, last));
    Ok(years.fold(0, |sum: u64, entry| sum.wrapping_add(entry.1.to_native())))
}

/// Validates the bytes, and adds up the visits of each city in a year.
#[tactic(auto, unfolding(rkyv_btree_portable::specs::Rounding::round_up))]
pub fn visits_in(bytes: &[u8], year: u32) -> Result<u64, Refusal> {
    sizes_fit::<Visits>();
    let all = open::<Visits>(bytes)?.iter();
    Ok(all.fold(0, |sum: u64, entry| {
        if entry.0.value().to_native() == year {
            sum.wrapping_add(entry.1.to_native())
        } else {
            sum
        }
    }))
}

/// Validates the bytes, and sets the visits of a city in a year. Returns whether they are there.
#[tactic(auto, unfolding(rkyv_btree_portable::specs::Rounding::round_up))]
pub fn correct(bytes: &mut [u8], city: &str, year: u32, count: u64) -> Result<bool, Refusal> {
    sizes_fit::<Visits>();
    Ok(open_mut::<Visits>(bytes)?.set_by((city, year), count))
}
