//! Times writes over the values of a map of `u32` to `u32`, in place: of keys that are there, in random order, and of all
//! values in the order of the entries.
ghost use Rattle.std.specs.Prelude.{◌≡◌, ◌+◌, ◌%◌, ◌^◌};
ghost use Rattle.rkyv_btree_base.specs.Bytes.{bytes_at, from_le};
ghost use Rattle.rkyv_btree_base.specs.Natives.{u32_form};
ghost use Rattle.rkyv_btree_base.specs.Scalars.{u32_kind};
ghost use Rattle.rkyv_btree.specs.Alone.{StandsAlone};
ghost use Rattle.rkyv_btree.specs.Put.{put_bytes};

use crate::numbers::{LOOKUPS, Map, iter_archived, iter_std};
use crate::report::Report;
use anyhow::ensure;
use rkyv_btree::map::{MapSeal, access_mut};
use rkyv_btree::seal::{LentKey, Seal};
use rkyv_btree_base::layout;
use rkyv_btree_base::numbers::ArchivedU32;
use std::collections::BTreeMap;
use std::ops::ControlFlow;

/// Writes another value for each key, and returns how many of the keys are there.
#[inline(never)]
fn set_archived(map: &mut MapSeal<Map>, keys: &[u32]) -> u32 {
    let mut found = 0u32;
    for key in keys {
        if map.set_by(*key, *key) {
            found = found.wrapping_add(1);
        }
    }
    found
}

/// Does the same in std's map.
#[inline(never)]
fn set_std(map: &mut BTreeMap<u32, u32>, keys: &[u32]) -> u32 {
    let mut found = 0u32;
    for key in keys {
        if let Some(value) = map.get_mut(key) {
            *value = *key;
            found = found.wrapping_add(1);
        }
    }
    found
}

/// Adds 1 to the value that a seal covers.
fn add_one(seal: &mut Seal<'_, ArchivedU32>)
    requires { StandsAlone u32_kind seal.old.buf.now seal.old.pos }
    ensures same_reference { seal.new.buf.ghost_name ≡ seal.old.buf.ghost_name }
    ensures position { seal.new.pos ≡ seal.old.pos }
    ensures bytes { seal.new.buf.now ≡ put_bytes seal.old.buf.now seal.old.pos (u32_form.own_bytes
        ((from_le (bytes_at seal.old.buf.now seal.old.pos 4) + 1) % 2 ^ 32)) }
{
    let value = seal.read();
    seal.write(value.wrapping_add(1));
}

/// Adds 1 to each value by a visit.
#[inline(never)]
fn visit_archived(map: &mut MapSeal<Map>) {
    map.visit_seal(|_: LentKey<ArchivedU32>, seal: &mut Seal<ArchivedU32>| {
        add_one(seal);
        ControlFlow::<(), ()>::Continue(())
    });
}

/// Does the same in std's map.
#[inline(never)]
fn visit_std(map: &mut BTreeMap<u32, u32>) {
    for (_key, value) in map.iter_mut() {
        *value = value.wrapping_add(1);
    }
}

/// Times writes into the archived map, and returns how many keys were found.
fn measure_archived(report: &Report, map: &mut MapSeal<Map>, keys: &[u32]) -> anyhow::Result<u32> {
    let found = report.time("port", "set", LOOKUPS, || set_archived(map, keys))?;
    report.time("port", "visit_seal", report.count, || visit_archived(map))?;
    Ok(found)
}

/// The same of std's map.
fn measure_std(report: &Report, map: &mut BTreeMap<u32, u32>, keys: &[u32]) -> anyhow::Result<u32> {
    let found = report.time("std", "set", LOOKUPS, || set_std(map, keys))?;
    report.time("std", "iter_mut", report.count, || visit_std(map))?;
    Ok(found)
}

/// Times writes into the archive of a map at `root`, and into std's map of the same entries.
pub fn measure(
    report: &Report,
    archive: &mut [u8],
    root: u32,
    std_map: &mut BTreeMap<u32, u32>,
    keys: &[u32],
) -> anyhow::Result<()> {
    ensure!(layout::fits::<ArchivedU32, ArchivedU32, 5>(), "too large");
    let mut map = access_mut::<ArchivedU32, ArchivedU32, 5>(&mut *archive, root)?;
    let port = measure_archived(report, &mut map, keys)?;
    let std = measure_std(report, std_map, keys)?;
    ensure!(port == std, "counts differ");
    let sums = (iter_archived(map.as_view()), iter_std(std_map));
    ensure!(sums.0 == sums.1, "sums differ");
    Ok(())
}
