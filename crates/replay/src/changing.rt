//! New archives from old ones and changes, two archives as one, and the changes that lead from one to another.

use crate::building::show_built;
use crate::input::Input;
use crate::lent::Lent;
use crate::shown::show_bytes;
use anyhow::{Context, bail, ensure};
use rkyv_btree::prelude::*;
use rkyv_btree_base::layout;
use rkyv_btree_update::change::Change;
use rkyv_btree_update::diff::diff;
use rkyv_btree_update::update::{merge, update};
use std::alloc::{AllocError, Global};

/// What is done with an archive and changes, or with two archives.
#[derive(Clone, Copy)]
pub enum Mode {
    Update,
    Merge,
    Diff,
    EachChange,
}

impl Mode {
    pub fn named(name: &str) -> Option<Mode> {
        match name {
            "update" => Some(Mode::Update),
            "merge" => Some(Mode::Merge),
            "diff" => Some(Mode::Diff),
            "each-change" => Some(Mode::EachChange),
            _ => None,
        }
    }
}

/// Takes an archive of a strict map, after the number of its bytes, and returns both.
fn take_archive<'a, K: CheckBytes + ViewOrd, V: CheckBytes, const E: usize>(
    input: &mut Input<'a>,
) -> anyhow::Result<(&'a [u8], StrictView<'a, K, V, E>)> {
    ensure!(layout::fits::<K, V, E>(), "the map doesn't fit");
    let bytes = input.bytes()?;
    let map = open_strict::<ArchivedBTreeMap<K, V, E>>(bytes)?;
    Ok((bytes, map))
}

/// Takes changes, after their number. Each is a key, and 1 with a value that is put, or 0.
fn take_changes<'a, KU: Lent<'a>, VU: Lent<'a>>(
    alloc: Global,
    input: &mut Input<'a>,
) -> anyhow::Result<Vec<(KU, Change<VU>)>> {
    let count = input.number()?;
    let mut changes = Vec::new(alloc);
    for _ in 0..count {
        let key = KU::take_lent(alloc, input)?;
        let [tag] = input.array::<1>()?;
        let change = match tag {
            0 => Change::Delete,
            1 => Change::Put(VU::take_lent(alloc, input)?),
            _ => bail!("a change of the case has another tag"),
        };
        changes.push((key, change))?;
    }
    Ok(changes)
}

/// Writes a case's archive after its changes.
fn updated<'a, KU, VU, K, V, const E: usize>(
    alloc: Global,
    case: &'a [u8],
    out: &mut String,
) -> anyhow::Result<()>
where
    K: CheckBytes + ViewOrd,
    V: CheckBytes,
    KU: Lent<'a> + Archive<Archived = K> + Serialize<VecWriter, Global>,
    VU: Lent<'a> + Archive<Archived = V> + Serialize<VecWriter, Global>,
{
    let mut input = Input { rest: case };
    let (_, old) = take_archive::<K, V, E>(&mut input)?;
    let changes = take_changes::<KU, VU>(alloc, &mut input)?;
    let mut writer = VecWriter::new(alloc);
    let built = update(alloc, old, &changes, &mut writer);
    show_built(built, &writer, out)
}

/// Writes a case's two archives as one.
fn merged<'a, KU, VU, K, V, const E: usize>(
    alloc: Global,
    case: &'a [u8],
    out: &mut String,
) -> anyhow::Result<()>
where
    K: CheckBytes + ViewOrd,
    V: CheckBytes,
    KU: Lent<'a> + Archive<Archived = K> + Serialize<VecWriter, Global> + 'a,
    VU: Lent<'a> + Archive<Archived = V> + Serialize<VecWriter, Global> + 'a,
{
    let mut input = Input { rest: case };
    let (_, first) = take_archive::<K, V, E>(&mut input)?;
    let (_, second) = take_archive::<K, V, E>(&mut input)?;
    let mut writer = VecWriter::new(alloc);
    let built = merge::<K, V, KU, VU, VecWriter, E>(alloc, first, second, &mut writer);
    show_built(built, &writer, out)
}

/// Appends a change, after a blank: ` KEY=VALUE`, or ` KEY` if it deletes.
fn show_change<'a, KU: Lent<'a>, VU: Lent<'a>>(
    key: KU,
    change: Change<VU>,
    out: &mut String,
) -> Result<(), AllocError> {
    out.push(' ')?;
    key.show_lent(out)?;
    match change {
        Change::Put(value) => {
            out.push('=')?;
            value.show_lent(out)
        }
        Change::Delete => Ok(()),
    }
}

/// Lists the changes that lead from a case's first archive to its second, and updates the first one by them.
fn difference<'a, KU, VU, K, V, const E: usize>(
    alloc: Global,
    case: &'a [u8],
    out: &mut String,
) -> anyhow::Result<()>
where
    K: CheckBytes + ViewOrd,
    V: CheckBytes,
    KU: Lent<'a> + Archive<Archived = K> + Serialize<VecWriter, Global>,
    VU: Lent<'a> + Archive<Archived = V> + Serialize<VecWriter, Global>,
{
    let mut input = Input { rest: case };
    let (_, old) = take_archive::<K, V, E>(&mut input)?;
    let (bytes, new) = take_archive::<K, V, E>(&mut input)?;
    let mut changes = Vec::new(alloc);
    for (key, change) in diff::<K, V, ArchivedBTreeMap<K, V, E>, KU, VU>(old, new) {
        show_change(key, change, out)?;
        changes.push((key, change))?;
    }
    let mut writer = VecWriter::new(alloc);
    update(alloc, old, changes.as_slice(), &mut writer)?;
    if writer.bytes() != bytes {
        out.push_str(" UPDATE DIFFERS")?;
    }
    Ok(())
}

/// A number of 64 bits that is made of bytes: each changes it, and it is multiplied by a prime.
fn mixed(sum: u64, bytes: &[u8]) -> u64 {
    let mut sum = sum;
    for byte in bytes {
        sum = (sum ^ u64::from(*byte)).wrapping_mul(1099511628211);
    }
    sum
}

/// Changes one key of a case's archive at a time, each from 1 to one past the last, and mixes all new archives: those
/// with 7 put, and those after a deletion.
fn each_change<const E: usize>(alloc: Global, case: &[u8], out: &mut String) -> anyhow::Result<()> {
    let mut input = Input { rest: case };
    let (_, old) = take_archive::<ArchivedU32, ArchivedU32, E>(&mut input)?;
    let mut last = 0u32;
    for (key, _) in old {
        last = key.to_native();
    }
    for change in [Change::Put(7u32), Change::Delete] {
        let mut sum = 14695981039346656037;
        for key in 1..=last
            .checked_add(1)
            .context("the last key is the last number")?
        {
            let mut writer = VecWriter::new(alloc);
            update(alloc, old, &[(key, change)], &mut writer)?;
            sum = mixed(sum, writer.bytes());
        }
        out.push(' ')?;
        show_bytes(&sum.to_be_bytes(), out)?;
    }
    Ok(())
}

/// Runs a case of a map that is changed.
pub fn changed<'a, KU, VU, K, V, const E: usize>(
    alloc: Global,
    mode: Mode,
    case: &'a [u8],
    out: &mut String,
) -> anyhow::Result<()>
where
    K: CheckBytes + ViewOrd,
    V: CheckBytes,
    KU: Lent<'a> + Archive<Archived = K> + Serialize<VecWriter, Global> + 'a,
    VU: Lent<'a> + Archive<Archived = V> + Serialize<VecWriter, Global> + 'a,
{
    match mode {
        Mode::Update => updated::<KU, VU, K, V, E>(alloc, case, out),
        Mode::Merge => merged::<KU, VU, K, V, E>(alloc, case, out),
        Mode::Diff => difference::<KU, VU, K, V, E>(alloc, case, out),
        Mode::EachChange => each_change::<E>(alloc, case, out),
    }
}
