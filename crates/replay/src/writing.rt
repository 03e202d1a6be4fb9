//! Values that are written in place, by a key and along all entries.
ghost use Rattle.std.specs.Prelude.{IsSome};
ghost use Rattle.rkyv_btree.specs.Cursor.{current_place};

use crate::asking::viewed;
use crate::building::{show_native, take_all};
use crate::input::{Input, Wire};
use crate::opening::opened;
use crate::shown::{Shown, show_byte};
use anyhow::{bail, ensure};
use rkyv_btree::cursor::IterSeal;
use rkyv_btree::prelude::*;
use rkyv_btree_base::check::InPlace;
use rkyv_btree_base::layout;
use std::alloc::Global;

/// The map at a position, to be written.
pub(crate) fn sealed<'a, K: CheckBytes, V: CheckBytes, const E: usize>(
    buf: &'a mut [u8],
    pos: u32,
) -> anyhow::Result<MapSeal<'a, ArchivedBTreeMap<K, V, E>>> {
    ensure!(layout::fits::<K, V, E>(), "the map doesn't fit");
    match access_mut::<K, V, E>(buf, pos) {
        Ok(map) => Ok(map),
        Err(refusal) => bail!("refused to be written: {refusal}"),
    }
}

/// Appends the position and the new value of each byte that has changed.
fn show_changes(before: &[u8], after: &[u8], out: &mut String) -> anyhow::Result<()> {
    if before.len() != after.len() {
        write!(out, " LENGTH DIFFERS")?;
    }
    for ((at, old), new) in before.iter().enumerate().zip(after) {
        if *old != *new {
            write!(out, " {at}:")?;
            show_byte(*new, out)?;
        }
    }
    Ok(())
}

/// Sets the value of a key of a case.
pub(crate) fn put<
    VU: Wire + Copy,
    K: CheckBytes + ViewOrd,
    V: InPlace<Native = VU>,
    const E: usize,
>(alloc: Global, case: &[u8], out: &mut String) -> anyhow::Result<()> {
    let mut input = Input { rest: case };
    let pos = input.number()?;
    let at = input.number()?;
    let value = VU::take(alloc, &mut input)?;
    let buf = input.rest;
    if opened::<K, V, E>(buf, pos, out)?.is_none() {
        return Ok(());
    }
    let key = viewed::<K>(buf, at)?;
    let mut bytes = buf.to_vec(alloc)?;
    let mut map = sealed::<K, V, E>(&mut bytes, pos)?;
    let is_set = map.set(key, value);
    write!(out, "{is_set}")?;
    show_changes(buf, &bytes, out)
}

/// Writes the value of the entry at which a cursor is, and appends the entry as it was.
fn write_lent<
    VU: Archive<Archived = V> + Serialize<VecWriter, Global> + Copy + Drop,
    K: Shown,
    V: InPlace<Native = VU> + Shown,
    const E: usize,
>(
    alloc: Global,
    cursor: &mut IterSeal<'_, ArchivedBTreeMap<K, V, E>>,
    value: VU,
    out: &mut String,
) -> anyhow::Result<()>
    requires { IsSome (current_place cursor.old) }
{
    let old = cursor.read();
    cursor.write(value);
    out.push(' ')?;
    K::show(&cursor.key(), out)?;
    out.push('=')?;
    show_native::<VU, V>(alloc, &old, out)
}

/// Writes values along the first entries of a map.
fn write_along<
    VU: Archive<Archived = V> + Serialize<VecWriter, Global> + Copy + Drop,
    K: CheckBytes + Shown,
    V: InPlace<Native = VU> + Shown,
    const E: usize,
>(alloc: Global, buf: &mut [u8], pos: u32, values: &[VU], out: &mut String) -> anyhow::Result<()> {
    let map = sealed::<K, V, E>(buf, pos)?;
    let mut left = map.as_view().len();
    let mut cursor = map.iter_seal();
    for value in values {
        if cursor.len() != left || cursor.size_hint() != (left, Some(left)) {
            write!(out, " LEFT DIFFERS")?;
        }
        if !cursor.next() {
            break;
        }
        left = left.wrapping_sub(1);
        write_lent::<VU, K, V, E>(alloc, &mut cursor, *value, out)?;
    }
    if left == 0 && (cursor.next() || cursor.next()) {
        write!(out, " GOES ON")?;
    }
    Ok(())
}

/// Writes the values of a case along the first entries of its map.
pub(crate) fn put_all<
    VU: Archive<Archived = V> + Serialize<VecWriter, Global> + Wire + Copy,
    K: CheckBytes + Shown,
    V: InPlace<Native = VU> + Shown,
    const E: usize,
>(alloc: Global, case: &[u8], out: &mut String) -> anyhow::Result<()> {
    let mut input = Input { rest: case };
    let pos = input.number()?;
    let count = input.number()?;
    let values = take_all::<VU>(alloc, count, &mut input)?;
    let buf = input.rest;
    if opened::<K, V, E>(buf, pos, out)?.is_none() {
        return Ok(());
    }
    let mut bytes = buf.to_vec(alloc)?;
    write_along::<VU, K, V, E>(alloc, &mut bytes, pos, &values, out)?;
    out.push(';')?;
    show_changes(buf, &bytes, out)
}
