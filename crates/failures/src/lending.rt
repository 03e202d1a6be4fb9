//! Items that are computed, and items that can fail: the bytes are those of the same entries by reference, or of the list that
//! ends before the item that failed.
ghost use Rattle.std.specs.Prelude.{◌+◌, ◌-◌, ◌<◌};
ghost use Rattle.std.specs.Iterator.{at_most};

use crate::writers::FailingWriter;
use anyhow::{bail, ensure};
use rkyv_btree::base::build::BTreeMapResolver;
use rkyv_btree::base::try_build::TryFault;
use rkyv_btree::prelude::*;
use rkyv_btree_base::layout;
use std::alloc::{AllocError, Global};

/// The entry at an index.
fn entry(index: u32) -> (u32, u32) {
    (
        index.wrapping_mul(7),
        index.wrapping_mul(index).wrapping_add(1),
    )
}

/// Entries that are computed one by one, of which the one at an index fails with the index.
#[derive(Drop)]
struct Tried {
    next: u32,
    end: u32,
    fails_at: u32,
}

impl Iterator for Tried {
    type Item = Result<(u32, u32), u32>;

    ghost remaining = { λ s. at_most (s.end - s.next) };

    fn next(&mut self) -> Option<Result<(u32, u32), u32>> {
        if self.next >= self.end {
            return None;
        }
        let index = self.next;
        self.next = index + 1;
        if index == self.fails_at {
            return Some(Err(index));
        }
        Some(Ok(entry(index)))
    }
}

/// What building leaves: how it ended, and the bytes.
type Left<T> = (T, Vec<u8>);

/// Builds the first entries by reference, of which so many are claimed.
fn by_reference<const E: usize>(
    alloc: Global,
    claim: usize,
    count: u32,
) -> anyhow::Result<Left<Result<BTreeMapResolver, Fault<AllocError>>>> {
    ensure!(layout::fits::<ArchivedU32, ArchivedU32, E>(), "too large");
    let mut entries = Vec::new(alloc);
    for index in 0..count {
        entries.push(entry(index))?;
    }
    let mut writer = FailingWriter::new(alloc, 0, &[], None)?;
    let items = entries.iter().map(|entry| (&entry.0, &entry.1));
    let built = ArchivedBTreeMap::<ArchivedU32, ArchivedU32, E>::serialize_from_ordered_iter(
        alloc,
        claim,
        items,
        &mut writer,
    );
    Ok((built, writer.bytes))
}

/// Builds the first entries as they are computed, of which so many are claimed.
fn computed<const E: usize>(
    alloc: Global,
    claim: usize,
    count: u32,
) -> anyhow::Result<Left<Result<BTreeMapResolver, Fault<AllocError>>>> {
    ensure!(layout::fits::<ArchivedU32, ArchivedU32, E>(), "too large");
    let mut writer = FailingWriter::new(alloc, 0, &[], None)?;
    let built = ArchivedBTreeMap::<ArchivedU32, ArchivedU32, E>::serialize_from_ordered_iter(
        alloc,
        claim,
        (0..count).map(entry),
        &mut writer,
    );
    Ok((built, writer.bytes))
}

/// Builds entries of which one fails.
fn failing<const E: usize>(
    alloc: Global,
    claim: usize,
    count: u32,
    fails_at: u32,
) -> anyhow::Result<Left<Result<BTreeMapResolver, TryFault<AllocError, u32>>>> {
    ensure!(layout::fits::<ArchivedU32, ArchivedU32, E>(), "too large");
    let mut writer = FailingWriter::new(alloc, 0, &[], None)?;
    let items = Tried {
        next: 0,
        end: count,
        fails_at,
    };
    let built = ArchivedBTreeMap::<ArchivedU32, ArchivedU32, E>::try_serialize_from_ordered_iter(
        alloc,
        claim,
        items,
        &mut writer,
    );
    Ok((built, writer.bytes))
}

/// How building ended, as a text.
fn ending<T: Drop>(alloc: Global, built: &Result<T, Fault<AllocError>>) -> anyhow::Result<String> {
    match built {
        Ok(_) => Ok(String::from_str(alloc, "built")?),
        Err(fault) => Ok(format!(in alloc; "{fault}")?),
    }
}

/// Compares lists of computed entries with the same by reference, also with wrong claims, and appends how many they were.
fn show_computed<const E: usize>(alloc: Global, out: &mut String) -> anyhow::Result<()> {
    let mut lists = 0u32;
    for count in 0..301u32 {
        for claim in [count as usize, count as usize + 1, (count / 2) as usize] {
            let (built, bytes) = computed::<E>(alloc, claim, count)?;
            let (wanted, same) = by_reference::<E>(alloc, claim, count)?;
            ensure!(
                bytes == same,
                "other bytes of {count} entries, claimed as {claim}"
            );
            ensure!(
                ending(alloc, &built)? == ending(alloc, &wanted)?,
                "another end"
            );
            lists = lists.wrapping_add(1);
        }
    }
    writeln!(
        out,
        "{lists} lists of computed entries, {E} a node: the same as by reference"
    )?;
    Ok(())
}

/// Compares lists of which one item fails with those that end before it, and appends how many they were.
fn show_failing<const E: usize>(alloc: Global, out: &mut String) -> anyhow::Result<()> {
    let mut lists = 0u32;
    for fails_at in 0..41u32 {
        let (built, bytes) = failing::<E>(alloc, 41, 41, fails_at)?;
        let (_, same) = by_reference::<E>(alloc, 41, fails_at)?;
        ensure!(bytes == same, "other bytes before the item {fails_at}");
        let Err(TryFault::Item(index)) = built else {
            bail!("item {fails_at} is lost");
        };
        ensure!(index == fails_at, "another item than {fails_at}");
        lists = lists.wrapping_add(1);
    }
    let (built, bytes) = failing::<E>(alloc, 41, 41, 41)?;
    let (_, same) = by_reference::<E>(alloc, 41, 41)?;
    ensure!(built.is_ok() && bytes == same, "no item fails");
    let (built, _) = failing::<E>(alloc, 41, 42, 41)?;
    ensure!(
        matches!(built, Err(TryFault::Item(41))),
        "the item after the last is lost"
    );
    writeln!(
        out,
        "{lists} lists with an item that fails, {E} a node: its error, after the items before it"
    )?;
    Ok(())
}

/// Appends a line for each number of entries a node.
pub(crate) fn show(alloc: Global, out: &mut String) -> anyhow::Result<()> {
    show_computed::<1>(alloc, out)?;
    show_computed::<2>(alloc, out)?;
    show_computed::<3>(alloc, out)?;
    show_computed::<4>(alloc, out)?;
    show_computed::<5>(alloc, out)?;
    show_computed::<6>(alloc, out)?;
    show_computed::<7>(alloc, out)?;
    show_failing::<2>(alloc, out)?;
    show_failing::<5>(alloc, out)
}
