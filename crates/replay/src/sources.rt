//! Lookups in a case's buffer as a source, which isn't read whole.

use crate::input::{Input, Wire};
use crate::shown::{Shown, show_entry};
use anyhow::{bail, ensure};
use rkyv_btree::prelude::*;
use rkyv_btree::source::{CachedSource, Fetch, ReadAt, SourceFault, UnverifiedSource};
use rkyv_btree_base::layout;
use std::alloc::Global;
use std::convert::Infallible;
use std::num::{NonZeroI8, NonZeroI32, NonZeroI64, NonZeroU8, NonZeroU16, NonZeroU32};
use std::ops::{Bound, RangeBounds};

/// Appends what a lookup in a source returns.
fn show_found<V: Shown>(
    found: Result<Option<View<'_, V>>, SourceFault<Infallible>>,
    out: &mut String,
) -> anyhow::Result<()> {
    match found {
        Ok(Some(value)) => {
            out.push_str(" =")?;
            V::show(&value, out)?;
        }
        Ok(None) => write!(out, " none")?,
        Err(SourceFault::Refused(refusal)) => write!(out, " refused: {refusal}")?,
        Err(SourceFault::Read(error)) => match error {},
        Err(SourceFault::NoRoom { needed }) => write!(out, " needs {needed}")?,
        Err(SourceFault::OverBudget) => write!(out, " over budget")?,
    }
    Ok(())
}

/// What a lookup in a source may read, how many bytes it is lent, and where the map is.
#[derive(Clone, Copy)]
struct Limits {
    budget: u64,
    lent: usize,
    pos: u32,
}

/// Takes the limits of a case.
fn take_limits(input: &mut Input<'_>) -> anyhow::Result<Limits> {
    let budget = input.number()?;
    let lent = input.number()?;
    let pos = input.number()?;
    Ok(Limits {
        budget: u64::from(budget),
        lent: lent as usize,
        pos,
    })
}

/// Returns how many bytes a lookup in a source reads, and what it returns.
fn shown_in<
    S: ReadAt<Error = Infallible> + Drop,
    T: Drop,
    K: Fetch + CompareWith<T>,
    V: Fetch + Shown,
    const E: usize,
>(alloc: Global, source: S, limits: Limits, key: T) -> anyhow::Result<String> {
    ensure!(layout::fits::<K, V, E>(), "the map doesn't fit");
    let mut room = [0u8; 4096];
    let room = &mut room[..limits.lent.min(4096)];
    let mut map = UnverifiedSource::<S, ArchivedBTreeMap<K, V, E>>::new(
        source,
        limits.pos,
        limits.budget,
    );
    let mut found = String::new(alloc);
    show_found(map.get_by(key, room), &mut found)?;
    let read = limits.budget.saturating_sub(map.budget_left());
    let mut shown = String::new(alloc);
    write!(shown, "{read}{found}")?;
    Ok(shown)
}

/// Looks up a key in a buffer as a source, and in the same with blocks that are kept.
fn look_up<T: Copy + Drop, K: Fetch + CompareWith<T>, V: Fetch + Shown, const E: usize>(
    alloc: Global,
    buffer: &[u8],
    limits: Limits,
    key: T,
    out: &mut String,
) -> anyhow::Result<()> {
    let shown = shown_in::<&[u8], T, K, V, E>(alloc, buffer, limits, key)?;
    out.push_str(&shown)?;
    let cached = CachedSource::new(alloc, buffer, 2)?;
    if shown_in::<CachedSource<&[u8]>, T, K, V, E>(alloc, cached, limits, key)? != shown {
        out.push_str(" CACHED DIFFERS")?;
    }
    Ok(())
}

/// Looks up a native key of a case in its buffer as a source, and counts the bytes that are read.
fn by_number<N: Wire + Copy, K: Fetch + CompareWith<N>, V: Fetch + Shown, const E: usize>(
    alloc: Global,
    case: &[u8],
    out: &mut String,
) -> anyhow::Result<()> {
    let mut input = Input { rest: case };
    let limits = take_limits(&mut input)?;
    let key = N::take(alloc, &mut input)?;
    look_up::<N, K, V, E>(alloc, input.rest, limits, key, out)
}

/// Does the same for a text.
fn by_text<V: Fetch + Shown, const E: usize>(
    alloc: Global,
    case: &[u8],
    out: &mut String,
) -> anyhow::Result<()> {
    let mut input = Input { rest: case };
    let limits = take_limits(&mut input)?;
    let key = String::take(alloc, &mut input)?;
    look_up::<&str, ArchivedText, V, E>(alloc, input.rest, limits, key.as_str(), out)
}

/// Does the same for a byte string.
fn by_bytes<V: Fetch + Shown, const E: usize>(
    alloc: Global,
    case: &[u8],
    out: &mut String,
) -> anyhow::Result<()> {
    let mut input = Input { rest: case };
    let limits = take_limits(&mut input)?;
    let key: Vec<u8> = Vec::take(alloc, &mut input)?;
    look_up::<&[u8], ArchivedBytes, V, E>(alloc, input.rest, limits, key.as_slice(), out)
}

/// Looks up a native key of a case in its buffer, by the name of the map's type.
pub(crate) fn lookup(
    alloc: Global,
    kind: &str,
    case: &[u8],
    out: &mut String,
) -> anyhow::Result<()> {
    match kind {
        "u32,u32,5" => by_number::<u32, ArchivedU32, ArchivedU32, 5>(alloc, case, out),
        "u32,u32,1" => by_number::<u32, ArchivedU32, ArchivedU32, 1>(alloc, case, out),
        "u32,u32,2" => by_number::<u32, ArchivedU32, ArchivedU32, 2>(alloc, case, out),
        "u32,u32,7" => by_number::<u32, ArchivedU32, ArchivedU32, 7>(alloc, case, out),
        "u64,u8,1" => by_number::<u64, ArchivedU64, u8, 1>(alloc, case, out),
        "u64,u8,5" => by_number::<u64, ArchivedU64, u8, 5>(alloc, case, out),
        "u32,unit,5" => by_number::<u32, ArchivedU32, (), 5>(alloc, case, out),
        "u8,u16,3" => by_number::<u8, u8, ArchivedU16, 3>(alloc, case, out),
        "u8,u16,5" => by_number::<u8, u8, ArchivedU16, 5>(alloc, case, out),
        "i32,unit,5" => by_number::<i32, ArchivedI32, (), 5>(alloc, case, out),
        "bool,u8,3" => by_number::<bool, bool, u8, 3>(alloc, case, out),
        "char,u16,2" => by_number::<char, ArchivedChar, ArchivedU16, 2>(alloc, case, out),
        "nonzero,u8,2" => by_number::<NonZeroU32, ArchivedNonZeroU32, u8, 2>(alloc, case, out),
        "nonzero8,nonzeroi8,3" => by_number::<NonZeroU8, NonZeroU8, NonZeroI8, 3>(alloc, case, out),
        "nonzero16,nonzeroi16,2" => {
            by_number::<NonZeroU16, ArchivedNonZeroU16, ArchivedNonZeroI16, 2>(alloc, case, out)
        }
        "nonzeroi64,nonzero64,5" => {
            by_number::<NonZeroI64, ArchivedNonZeroI64, ArchivedNonZeroU64, 5>(alloc, case, out)
        }
        "nonzeroi32,u8,1" => by_number::<NonZeroI32, ArchivedNonZeroI32, u8, 1>(alloc, case, out),
        "text,u32,1" => by_text::<ArchivedU32, 1>(alloc, case, out),
        "text,i32,5" => by_text::<ArchivedI32, 5>(alloc, case, out),
        "bytes,i32,5" => by_bytes::<ArchivedI32, 5>(alloc, case, out),
        _ => bail!("no such type of a source"),
    }
}

/// Takes a bound of a case: 0 if there is none, 1 before one that is included, and 2 before one that isn't.
fn take_bound<N: Wire>(alloc: Global, input: &mut Input<'_>) -> anyhow::Result<Bound<N>> {
    match input.array::<1>()? {
        [0] => Ok(Bound::Unbounded),
        [1] => Ok(Bound::Included(N::take(alloc, input)?)),
        [2] => Ok(Bound::Excluded(N::take(alloc, input)?)),
        _ => bail!("no such bound"),
    }
}

/// The most entries of a range that are shown.
const MOST_ENTRIES: usize = 1000;

/// Appends the entries of a range in a buffer as a source, and what comes after them. Each call is lent so many bytes.
fn show_range<
    T: Drop,
    K: Fetch + CompareWith<T> + Shown,
    V: Fetch + Shown,
    R: RangeBounds<T>,
    const E: usize,
>(buffer: &[u8], (pos, lent): (u32, u32), range: R, out: &mut String) -> anyhow::Result<()> {
    ensure!(layout::fits::<K, V, E>(), "the map doesn't fit");
    let mut room = [0u8; 4096];
    let lent = (lent as usize).min(4096);
    let map = UnverifiedSource::<&[u8], ArchivedBTreeMap<K, V, E>>::new(buffer, pos, u64::MAX);
    let mut entries = map.range_of::<T, R>(range);
    for _ in 0..MOST_ENTRIES {
        match entries.next(&mut room[..lent]) {
            Ok(Some((key, value))) => show_entry(key, value, out)?,
            Ok(None) => {
                out.push_str(" end")?;
                break;
            }
            Err(SourceFault::NoRoom { needed }) => {
                write!(out, " needs {needed}")?;
                break;
            }
            Err(fault) => {
                write!(out, " refused: {fault}")?;
                break;
            }
        }
    }
    Ok(())
}

/// Shows a range of numbers of a case.
fn range_of_numbers<
    N: Wire + Copy,
    K: Fetch + CompareWith<N> + Shown,
    V: Fetch + Shown,
    const E: usize,
>(alloc: Global, case: &[u8], out: &mut String) -> anyhow::Result<()> {
    let mut input = Input { rest: case };
    let limits = (input.number()?, input.number()?);
    let low = take_bound::<N>(alloc, &mut input)?;
    let high = take_bound::<N>(alloc, &mut input)?;
    show_range::<N, K, V, (Bound<N>, Bound<N>), E>(input.rest, limits, (low, high), out)
}

/// Returns a bound by a text that is lent.
fn lent_bound(bound: &Bound<String>) -> Bound<&str> {
    match bound {
        Bound::Unbounded => Bound::Unbounded,
        Bound::Included(text) => Bound::Included(text.as_str()),
        Bound::Excluded(text) => Bound::Excluded(text.as_str()),
    }
}

/// Shows a range of texts of a case.
fn range_of_texts<V: Fetch + Shown, const E: usize>(
    alloc: Global,
    case: &[u8],
    out: &mut String,
) -> anyhow::Result<()> {
    let mut input = Input { rest: case };
    let limits = (input.number()?, input.number()?);
    let low = take_bound::<String>(alloc, &mut input)?;
    let high = take_bound::<String>(alloc, &mut input)?;
    let range = (lent_bound(&low), lent_bound(&high));
    show_range::<&str, ArchivedText, V, (Bound<&str>, Bound<&str>), E>(
        input.rest, limits, range, out,
    )
}

/// Shows a range of a case's buffer as a source, by the name of the map's type.
pub(crate) fn range(
    alloc: Global,
    kind: &str,
    case: &[u8],
    out: &mut String,
) -> anyhow::Result<()> {
    match kind {
        "u32,u32,2" => range_of_numbers::<u32, ArchivedU32, ArchivedU32, 2>(alloc, case, out),
        "u8,u16,3" => range_of_numbers::<u8, u8, ArchivedU16, 3>(alloc, case, out),
        "text,i32,5" => range_of_texts::<ArchivedI32, 5>(alloc, case, out),
        _ => bail!("no such type of a range in a source"),
    }
}

/// Appends the last entry of a map in a case's buffer as a source.
fn show_last<K: Fetch + Shown, V: Fetch + Shown, const E: usize>(
    case: &[u8],
    out: &mut String,
) -> anyhow::Result<()> {
    ensure!(layout::fits::<K, V, E>(), "the map doesn't fit");
    let mut input = Input { rest: case };
    let (pos, lent) = (input.number()?, input.number()?);
    let mut room = [0u8; 4096];
    let lent = (lent as usize).min(4096);
    let mut map = UnverifiedSource::<&[u8], ArchivedBTreeMap<K, V, E>>::new(
        input.rest,
        pos,
        u64::MAX,
    );
    match map.last(&mut room[..lent]) {
        Ok(Some((key, value))) => show_entry(key, value, out)?,
        Ok(None) => out.push_str(" none")?,
        Err(SourceFault::NoRoom { needed }) => write!(out, " needs {needed}")?,
        Err(fault) => write!(out, " refused: {fault}")?,
    }
    Ok(())
}

/// Shows the last entry in a case's buffer as a source, by the name of the map's type.
pub(crate) fn last(kind: &str, case: &[u8], out: &mut String) -> anyhow::Result<()> {
    match kind {
        "u32,u32,2" => show_last::<ArchivedU32, ArchivedU32, 2>(case, out),
        "u8,u16,3" => show_last::<u8, ArchivedU16, 3>(case, out),
        "text,i32,5" => show_last::<ArchivedText, ArchivedI32, 5>(case, out),
        _ => bail!("no such type of a last entry in a source"),
    }
}
