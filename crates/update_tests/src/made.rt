//! Maps and sets of texts that are changed, merged and compared.

use crate::updating::{
    Names, Prices, changed_names, changed_prices, has_name, merged_prices, price_changes, price_of,
};
use rkyv_btree::prelude::*;
use rkyv_btree_update::change::Change::{self, Delete, Put};
use std::alloc::Global;
use std::collections::{BTreeMap, BTreeSet};
use std::fmt::Debug;
use std::process::Abort;
use std::test::Fail;

/// Asserts that two values are equal.
fn same<T: PartialEq + Debug + Drop>(rt: &impl Abort, found: T, wanted: T) {
    assert_eq!(rt; found, wanted);
}

/// Returns the archive of a price list.
fn archive(alloc: Global, prices: &[(&str, u32)]) -> Result<Vec<u8>, Fail> {
    sizes_fit::<Prices>();
    let mut map = BTreeMap::new(alloc);
    for (name, price) in prices {
        map.insert(String::from_str(alloc, *name)?, *price)?;
    }
    Ok(to_archive(alloc, &map)?)
}

const OLD: [(&str, u32); 3] = [("apple", 120), ("fig", 45), ("plum", 7)];

/// Puts the first name, deletes the second one, and puts the others.
fn four_changed<'a>(
    alloc: Global,
    old: &'a [u8],
    first: &'a str,
    second: &'a str,
    third: &'a str,
    fourth: &'a str,
) -> anyhow::Result<Vec<u8>> {
    let changes = [
        (first, Put(1)),
        (second, Delete),
        (third, Put(50)),
        (fourth, Put(300)),
    ];
    changed_prices(alloc, old, &changes)
}

#[test]
fn prices_are_changed(rt: HostRuntime) -> Result<(), Fail> {
    let old = archive(rt.alloc(), &OLD)?;
    let new = four_changed(rt.alloc(), old.as_slice(), "", "apple", "fig", "quince")?;
    same(&rt, price_of(new.as_slice(), "")?, Some(1));
    same(&rt, price_of(new.as_slice(), "apple")?, None);
    same(&rt, price_of(new.as_slice(), "fig")?, Some(50));
    same(&rt, price_of(new.as_slice(), "plum")?, Some(7));
    same(&rt, price_of(new.as_slice(), "quince")?, Some(300));
    Ok(())
}

#[test]
fn prices_are_merged_and_compared(rt: HostRuntime) -> Result<(), Fail> {
    let alloc = rt.alloc();
    let old = archive(alloc, &OLD)?;
    let other = archive(alloc, &[("fig", 50), ("quince", 300)])?;
    let both = merged_prices(alloc, old.as_slice(), other.as_slice())?;
    let wanted = archive(
        alloc,
        &[("apple", 120), ("fig", 50), ("plum", 7), ("quince", 300)],
    )?;
    same(&rt, both.as_slice(), wanted.as_slice());
    let changes = price_changes(alloc, old.as_slice(), other.as_slice())?;
    let wanted: [(&str, Change<u32>); 4] = [
        ("apple", Delete),
        ("fig", Put(50)),
        ("plum", Delete),
        ("quince", Put(300)),
    ];
    same(&rt, changes.as_slice(), &wanted);
    let again = changed_prices(alloc, old.as_slice(), changes.as_slice())?;
    same(&rt, again.as_slice(), other.as_slice());
    Ok(())
}

/// Deletes the first name, and puts the second one.
fn two_changed<'a>(
    alloc: Global,
    old: &'a [u8],
    first: &'a str,
    second: &'a str,
) -> anyhow::Result<Vec<u8>> {
    let changes = [(first, Delete), (second, Put(()))];
    changed_names(alloc, old, &changes)
}

#[test]
fn names_are_changed(rt: HostRuntime) -> Result<(), Fail> {
    sizes_fit::<Names>();
    let mut names = BTreeSet::new(rt.alloc());
    for name in ["apple", "fig"] {
        names.insert(String::from_str(rt.alloc(), name)?)?;
    }
    let old = to_archive(rt.alloc(), &names)?;
    let new = two_changed(rt.alloc(), old.as_slice(), "apple", "pear")?;
    same(&rt, has_name(new.as_slice(), "apple")?, false);
    same(&rt, has_name(new.as_slice(), "fig")?, true);
    same(&rt, has_name(new.as_slice(), "pear")?, true);
    Ok(())
}
