//! Times the validation of an archived map of numbers, and the strict validation, which compares each key with the one before it.

use crate::report::Report;
use anyhow::ensure;
use rkyv_btree::map::access;
use rkyv_btree::strict::access_strict;
use rkyv_btree_base::layout;
use rkyv_btree_base::map::ArchivedBTreeMap;
use rkyv_btree_base::numbers::ArchivedU32;

/// Returns whether there is a map at `root`.
#[inline(never)]
fn is_map(bytes: &[u8], root: u32) -> bool {
    layout::fits::<ArchivedU32, ArchivedU32, 5>()
        && access::<ArchivedU32, ArchivedU32, 5>(bytes, root).is_ok()
}

/// Returns whether there is a map at `root` whose keys increase.
#[inline(never)]
fn is_strict_map(bytes: &[u8], root: u32) -> bool {
    layout::fits::<ArchivedU32, ArchivedU32, 5>()
        && access_strict::<ArchivedBTreeMap<ArchivedU32, ArchivedU32, 5>>(bytes, root).is_ok()
}

/// Times the validation of the map at `root`, and the strict validation.
pub(crate) fn measure(report: &Report, bytes: &[u8], root: u32) -> anyhow::Result<()> {
    let accepted = report.time("port", "access", report.count, || is_map(bytes, root))?;
    ensure!(accepted, "refused");
    let strict = report.time("port", "access_strict", report.count, || {
        is_strict_map(bytes, root)
    })?;
    ensure!(strict, "refused as strict");
    Ok(())
}
