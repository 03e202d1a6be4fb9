//! Two archives of counts that become a third one. The entries go from one to the other, and no list of them is in memory.

use rkyv_btree::base::place::Writer;
use rkyv_btree::base::try_build::TryFault;
use rkyv_btree::iter::Iter;
use rkyv_btree::prelude::*;
use std::alloc::{AllocError, Global};
use std::cmp::Ordering;
use std::collections::BTreeMap;
use std::iter::Peekable;

/// Words and their counts.
pub type Counts = Archived<BTreeMap<String, u64>>;

/// The entries that are left of a map.
type Entries<'a> = Peekable<Iter<'a, Counts>>;

/// Takes the next entry of two maps whose keys increase. Counts of equal words are added, modulo 2 to the power of 64.
fn next_of<'a>(
    left: &mut Entries<'a>,
    right: &mut Entries<'a>,
) -> Option<(View<'a, ArchivedText>, u64)> {
    let order = match (left.peek(), right.peek()) {
        (None, None) => return None,
        (Some(_), None) => Ordering::Less,
        (None, Some(_)) => Ordering::Greater,
        (Some(one), Some(other)) => one.0.as_str().cmp(other.0.as_str()),
    };
    if order == Ordering::Greater {
        let (word, count) = right.next()?;
        return Some((word, count.to_native()));
    }
    let (word, count) = left.next()?;
    if order == Ordering::Less {
        return Some((word, count.to_native()));
    }
    let (_, more) = right.next()?;
    Some((word, count.to_native().wrapping_add(more.to_native())))
}

/// Takes the next entry of two maps, and copies its word.
fn next_owned<'a>(
    alloc: Global,
    left: &mut Entries<'a>,
    right: &mut Entries<'a>,
) -> Option<Result<(String, u64), AllocError>> {
    let (word, count) = next_of(left, right)?;
    match String::from_str(alloc, word.as_str()) {
        Ok(word) => Some(Ok((word, count))),
        Err(error) => Some(Err(error)),
    }
}

/// Writes the archive of the entries of two maps, in the order of their words, and returns its map's position.
pub fn merge<'a, W: Writer>(
    alloc: Global,
    left: StrictView<'a, ArchivedText, ArchivedU64, 5>,
    right: StrictView<'a, ArchivedText, ArchivedU64, 5>,
    writer: &mut W,
) -> Result<u32, TryFault<W::Error, AllocError>> {
    sizes_fit::<Counts>();
    let most = left.len().saturating_add(right.len());
    let mut one = left.iter().peekable();
    let mut other = right.iter().peekable();
    let count = (0..most)
        .filter_map(|_: usize| next_of(&mut one, &mut other))
        .count();
    let mut one = left.iter().peekable();
    let mut other = right.iter().peekable();
    let items = (0..count).filter_map(|_: usize| next_owned(alloc, &mut one, &mut other));
    let tree = Counts::try_serialize_from_ordered_iter(alloc, count, items, writer)?;
    Counts::write_root(count, tree, writer).map_err(|fault| TryFault::Build(fault))
}
