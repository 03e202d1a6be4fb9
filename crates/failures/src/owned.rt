//! Strict building of owned texts: the bytes and the errors are those of the same texts by reference. A text that is out of order
//! ends the list before it.
ghost use Rattle.std.specs.Prelude.{◌+◌, ◌-◌, ◌<◌};

use crate::writers::FailingWriter;
use anyhow::{bail, ensure};
use rkyv_btree::base::build::BTreeMapResolver;
use rkyv_btree::prelude::*;
use rkyv_btree_base::layout;
use std::alloc::{AllocError, Global};

/// What building leaves: how it ended, and the bytes.
type Left = (Result<BTreeMapResolver, Fault<AllocError>>, Vec<u8>);

/// How the keys of items are lent.
#[derive(Clone, Copy)]
enum Lending {
    /// As owned texts, to the strict call.
    Owned,
    /// By reference, to the strict call.
    Reference,
    /// By reference, to the call that takes keys in any order.
    Plain,
}

/// The first numbers after 100, whose texts increase.
fn numbers(alloc: Global, count: u32) -> anyhow::Result<Vec<u32>> {
    let mut numbers = Vec::new(alloc);
    for index in 0..count {
        numbers.push(index.wrapping_add(101))?;
    }
    Ok(numbers)
}

/// Each number's text with the number.
fn entries(alloc: Global, numbers: &[u32]) -> anyhow::Result<Vec<(String, u32)>> {
    let mut entries = Vec::new(alloc);
    for number in numbers {
        let text = format!(in alloc; "{number}")?;
        entries.push((text, *number))?;
    }
    Ok(entries)
}

/// Builds the map of the texts of some numbers, of which so many are claimed.
fn build<const E: usize>(
    alloc: Global,
    lending: Lending,
    claim: usize,
    numbers: &[u32],
) -> anyhow::Result<Left> {
    ensure!(layout::fits::<ArchivedText, ArchivedU32, E>(), "too large");
    let entries = entries(alloc, numbers)?;
    let mut writer = FailingWriter::new(alloc, 0, &[], None)?;
    let built = match lending {
        Lending::Owned => {
            ArchivedBTreeMap::<ArchivedText, ArchivedU32, E>::serialize_strict_from_ordered_iter(
                alloc,
                claim,
                entries.into_iter(),
                &mut writer,
            )
        }
        Lending::Reference => {
            ArchivedBTreeMap::<ArchivedText, ArchivedU32, E>::serialize_strict_from_ordered_iter(
                alloc,
                claim,
                entries.iter().map(|entry| (&entry.0, &entry.1)),
                &mut writer,
            )
        }
        Lending::Plain => {
            ArchivedBTreeMap::<ArchivedText, ArchivedU32, E>::serialize_from_ordered_iter(
                alloc,
                claim,
                entries.iter().map(|entry| (&entry.0, &entry.1)),
                &mut writer,
            )
        }
    };
    Ok((built, writer.bytes))
}

/// How building ended, as a text.
fn ending<T: Drop>(alloc: Global, built: &Result<T, Fault<AllocError>>) -> anyhow::Result<String> {
    match built {
        Ok(_) => Ok(String::from_str(alloc, "built")?),
        Err(fault) => Ok(format!(in alloc; "{fault}")?),
    }
}

/// Compares lists of owned texts with the same by reference, also with wrong claims, and appends how many they were.
fn show_increasing<const E: usize>(alloc: Global, out: &mut String) -> anyhow::Result<()> {
    let mut lists = 0u32;
    for count in 0..42u32 {
        let numbers = numbers(alloc, count)?;
        for claim in [count as usize, count as usize + 1, (count / 2) as usize] {
            let (built, bytes) = build::<E>(alloc, Lending::Owned, claim, &numbers)?;
            for lending in [Lending::Reference, Lending::Plain] {
                let (wanted, same) = build::<E>(alloc, lending, claim, &numbers)?;
                ensure!(
                    bytes == same,
                    "other bytes of {count} texts, claimed as {claim}"
                );
                ensure!(
                    ending(alloc, &built)? == ending(alloc, &wanted)?,
                    "another end"
                );
            }
            lists = lists.wrapping_add(1);
        }
    }
    writeln!(
        out,
        "{lists} lists of owned texts, strict, {E} a node: the same as by reference"
    )?;
    Ok(())
}

/// Compares a list whose text at an index is out of order with the list that ends before it.
fn compare_out_of_order<const E: usize>(
    alloc: Global,
    index: u32,
    number: u32,
) -> anyhow::Result<()> {
    let mut all = numbers(alloc, index)?;
    let (_, same) = build::<E>(alloc, Lending::Plain, 41, &all)?;
    all.push(number)?;
    for later in index..41u32 {
        all.push(later.wrapping_add(101))?;
    }
    let (built, bytes) = build::<E>(alloc, Lending::Owned, 41, &all)?;
    ensure!(bytes == same, "other bytes before the text {index}");
    let Err(Fault::OutOfOrder { index: met }) = built else {
        bail!("the text {index} is out of order");
    };
    ensure!(met == u64::from(index), "another text than {index}");
    Ok(())
}

/// Goes over each index of a list at which a text equals the one before it, or is less than all, and appends how many they were.
fn show_out_of_order<const E: usize>(alloc: Global, out: &mut String) -> anyhow::Result<()> {
    let mut lists = 0u32;
    for index in 1..41u32 {
        for number in [index.wrapping_add(100), 100] {
            compare_out_of_order::<E>(alloc, index, number)?;
            lists = lists.wrapping_add(1);
        }
    }
    let mut more = numbers(alloc, 41)?;
    more.push(100)?;
    let (built, bytes) = build::<E>(alloc, Lending::Owned, 41, &more)?;
    let (wanted, same) = build::<E>(alloc, Lending::Plain, 41, &more)?;
    ensure!(bytes == same, "other bytes before an item too many");
    ensure!(
        ending(alloc, &built)? == ending(alloc, &wanted)?,
        "an item too many is compared"
    );
    writeln!(
        out,
        "{lists} lists with an owned text that is out of order, {E} a node: its index, after the texts before it"
    )?;
    Ok(())
}

/// Appends the lines for two and for five entries a node.
pub(crate) fn show(alloc: Global, out: &mut String) -> anyhow::Result<()> {
    show_increasing::<2>(alloc, out)?;
    show_increasing::<5>(alloc, out)?;
    show_out_of_order::<2>(alloc, out)?;
    show_out_of_order::<5>(alloc, out)
}
