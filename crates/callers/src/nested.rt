//! A map in a map: how many bytes each correspondent sent on each day.

use rkyv_btree::prelude::*;
use std::alloc::{AllocError, Global};
use std::collections::BTreeMap;

/// Bytes by day.
pub type Days = BTreeMap<u32, u64>;

/// Days by correspondent.
pub type Inbox = Archived<BTreeMap<String, Days>>;

/// Returns the archive of an inbox.
pub fn archive_of_inbox(
    alloc: Global,
    inbox: &BTreeMap<String, Days>,
) -> Result<Vec<u8>, Fault<AllocError>> {
    sizes_fit::<Archived<Days>>();
    sizes_fit::<Inbox>();
    to_archive(alloc, inbox)
}

/// Validates the bytes, and returns what a correspondent sent on a day.
pub fn sent_on(bytes: &[u8], name: &str, day: u32) -> Result<Option<u64>, Refusal> {
    sizes_fit::<Archived<Days>>();
    sizes_fit::<Inbox>();
    let inbox = open::<Inbox>(bytes)?;
    Ok(match inbox.get_by(name) {
        Some(days) => days.get_native_by(day),
        None => None,
    })
}

/// Validates the bytes, and adds up what a correspondent sent from one day to another.
pub fn sent_between(bytes: &[u8], name: &str, first: u32, last: u32) -> Result<u64, Refusal> {
    sizes_fit::<Archived<Days>>();
    sizes_fit::<Inbox>();
    let inbox = open::<Inbox>(bytes)?;
    let Some(days) = inbox.get_by(name) else {
        return Ok(0);
    };
    let days = days.range_of(first..=last);
    Ok(days.fold(0, |sum: u64, entry| sum.wrapping_add(entry.1.to_native())))
}
