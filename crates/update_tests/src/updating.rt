//! New archives of price lists and of sets of names, from old ones and changes, and what is found in one of numbers.
ghost use Rattle.std.specs.BTreeMap.{is_at};
ghost use Rattle.std.specs.Map.{lookup};
ghost use Rattle.std.specs.Ordering.{nat_cmp};
ghost use Rattle.std.specs.Prelude.{◌≡◌, IfOk};
ghost use Rattle.rkyv_btree.specs.View.{entries_of};
ghost use Rattle.rkyv_btree_base.specs.Scalars.{u32_kind};
ghost use Rattle.rkyv_btree_update.specs.Updated.{last_word};

use anyhow::Result;
use rkyv_btree::prelude::*;
use rkyv_btree_update::change::Change;
use rkyv_btree_update::diff::diff;
use rkyv_btree_update::update::{merge, update};
use std::alloc::{AllocError, Global};
use std::collections::{BTreeMap, BTreeSet};

/// Prices by name.
pub type Prices = Archived<BTreeMap<String, u32>>;

/// A set of names.
pub type Names = Archived<BTreeSet<String>>;

/// Numbers by number.
pub type Numbers = Archived<BTreeMap<u32, u32>>;

/// Returns the archive of a price list after changes, whose names increase.
pub fn changed_prices<'a>(
    alloc: Global,
    bytes: &'a [u8],
    changes: &[(&'a str, Change<u32>)],
) -> Result<Vec<u8>> {
    sizes_fit::<Prices>();
    let old = open_strict::<Prices>(bytes)?;
    let mut writer = VecWriter::new(alloc);
    update(alloc, old, changes, &mut writer)?;
    Ok(writer.into_vec())
}

/// Returns the price of a name, if it is there.
pub fn price_of(bytes: &[u8], name: &str) -> Result<Option<u32>> {
    sizes_fit::<Prices>();
    let prices = open_strict::<Prices>(bytes)?;
    Ok(prices.get_native_by(name))
}

/// Returns the archive of two price lists. Of a name in both the price is that of the second list.
pub fn merged_prices(alloc: Global, first: &[u8], second: &[u8]) -> Result<Vec<u8>> {
    sizes_fit::<Prices>();
    let first = open_strict::<Prices>(first)?;
    let second = open_strict::<Prices>(second)?;
    let mut writer = VecWriter::new(alloc);
    merge::<_, _, &str, u32, _, 5>(alloc, first, second, &mut writer)?;
    Ok(writer.into_vec())
}

/// Returns the changes that lead from one price list to another, in the order of their names.
pub fn price_changes<'a>(
    alloc: Global,
    old: &'a [u8],
    new: &'a [u8],
) -> Result<Vec<(&'a str, Change<u32>)>> {
    sizes_fit::<Prices>();
    let old = open_strict::<Prices>(old)?;
    let new = open_strict::<Prices>(new)?;
    let mut changes = Vec::new(alloc);
    for change in diff(old, new) {
        changes.push(change)?;
    }
    Ok(changes)
}

/// Returns the archive of a set of names after changes, whose names increase.
pub fn changed_names<'a>(
    alloc: Global,
    bytes: &'a [u8],
    changes: &[(&'a str, Change<()>)],
) -> Result<Vec<u8>> {
    sizes_fit::<Names>();
    let old = open_strict::<Names>(bytes)?;
    let mut writer = VecWriter::new(alloc);
    update(alloc, old.as_map(), changes, &mut writer)?;
    Ok(writer.into_vec())
}

/// Returns whether a set has a name.
pub fn has_name(bytes: &[u8], name: &str) -> Result<bool> {
    sizes_fit::<Names>();
    let names = open_strict::<Names>(bytes)?;
    Ok(names.contains_by(name))
}

/// Writes numbers after changes, whose keys increase, and returns the value that a key has then.
pub fn value_after(
    alloc: Global,
    old: StrictView<'_, ArchivedU32, ArchivedU32, 5>,
    changes: &[(u32, Change<u32>)],
    key: u32,
) -> std::result::Result<Option<u32>, Fault<AllocError>>
    // The last word is that of the changes, if there is a change of the key.
    ensures { IfOk result (λ value. value ≡ last_word (lookup (is_at (nat_cmp key)) changes.now)
        (lookup (is_at (nat_cmp key)) (entries_of u32_kind u32_kind 5 old.entry.view))) }
{
    sizes_fit::<Numbers>();
    let mut writer = VecWriter::new(alloc);
    let pos = update(alloc, old, changes, &mut writer)?;
    match access_strict::<Numbers>(writer.bytes(), pos) {
        Ok(map) => Ok(map.get_native_by(key)),
        Err(_) => unreachable!(),
    }
}
