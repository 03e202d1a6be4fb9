//! Maps that are built, of the entries of a case, of std's maps or of archives, and std's maps that are made of archives.
ghost use Rattle.std.specs.Prelude.{IsTrue};
ghost use Rattle.rkyv_btree_base.specs.Layout.{are_fitting};

use crate::input::{Input, Wire};
use crate::opening::{list, opened};
use crate::shown::{Shown, show_bytes};
use anyhow::{Context, ensure};
use rkyv_btree::deserialize::DeserializeKey;
use rkyv_btree::prelude::*;
use rkyv_btree::strict::migrate;
use rkyv_btree_base::layout;
use std::alloc::{AllocError, Global};
use std::collections::BTreeMap;

/// Takes so many values of a case.
pub(crate) fn take_all<T: Wire>(
    alloc: Global,
    count: u32,
    input: &mut Input<'_>,
) -> anyhow::Result<Vec<T>> {
    let mut values = Vec::new(alloc);
    for _ in 0..count {
        values.push(T::take(alloc, input)?)?;
    }
    Ok(values)
}

/// Builds the map of entries of which a claim says how many there are, and returns its position.
fn write_map<
    KU: Archive<Archived = K> + Serialize<VecWriter, Global>,
    VU: Archive<Archived = V> + Serialize<VecWriter, Global>,
    K: Portable,
    V: Portable,
    const E: usize,
>(
    alloc: Global,
    claim: usize,
    entries: &[(KU, VU)],
    writer: &mut VecWriter,
) -> Result<u32, Fault<AllocError>>
    requires { IsTrue (are_fitting K.kind V.kind E) }
{
    let items = entries.iter().map(|entry: &(KU, VU)| (&entry.0, &entry.1));
    match ArchivedBTreeMap::<K, V, E>::serialize_from_ordered_iter(alloc, claim, items, writer) {
        Ok(tree) => ArchivedBTreeMap::<K, V, E>::write_root(claim, tree, writer),
        Err(fault) => Err(fault),
    }
}

/// Builds the map of entries whose keys must increase, and returns its position. A claim says how many entries there are.
fn write_strict_map<
    KU: Archive<Archived = K> + Serialize<VecWriter, Global> + Ord,
    VU: Archive<Archived = V> + Serialize<VecWriter, Global>,
    K: Portable,
    V: Portable,
    const E: usize,
>(
    alloc: Global,
    claim: usize,
    entries: &[(KU, VU)],
    writer: &mut VecWriter,
) -> Result<u32, Fault<AllocError>>
    requires { IsTrue (are_fitting K.kind V.kind E) }
{
    let items = entries.iter().map(|entry: &(KU, VU)| (&entry.0, &entry.1));
    match ArchivedBTreeMap::<K, V, E>::serialize_strict_from_ordered_iter(
        alloc, claim, items, writer,
    ) {
        Ok(tree) => ArchivedBTreeMap::<K, V, E>::write_root(claim, tree, writer),
        Err(fault) => Err(fault),
    }
}

/// Takes a whole case of a map that is built: a writer from the case's position on, the claim, and the entries.
fn take_claimed<KU: Wire, VU: Wire>(
    alloc: Global,
    case: &[u8],
) -> anyhow::Result<(VecWriter, usize, Vec<(KU, VU)>)> {
    let mut input = Input { rest: case };
    let base = u64::take(alloc, &mut input)?;
    let claim = u64::take(alloc, &mut input)? as usize;
    let count = input.number()?;
    let entries = take_all::<(KU, VU)>(alloc, count, &mut input)?;
    ensure!(base <= 9223372036854775807, "the base is too large");
    Ok((VecWriter::with_base(alloc, base), claim, entries))
}

/// Appends the position of a map and the bytes of its writer, or why it isn't built.
pub(crate) fn show_built(
    built: Result<u32, Fault<AllocError>>,
    writer: &VecWriter,
    out: &mut String,
) -> anyhow::Result<()> {
    match built {
        Ok(root) => {
            write!(out, "{root} ")?;
            show_bytes(writer.bytes(), out)?;
        }
        Err(fault) => write!(out, "not built: {fault}")?,
    }
    Ok(())
}

/// Builds the map of a case from a position on.
pub(crate) fn build<
    KU: Archive<Archived = K> + Serialize<VecWriter, Global> + Wire,
    VU: Archive<Archived = V> + Serialize<VecWriter, Global> + Wire,
    K: Portable,
    V: Portable,
    const E: usize,
>(alloc: Global, case: &[u8], out: &mut String) -> anyhow::Result<()> {
    ensure!(layout::fits::<K, V, E>(), "the map doesn't fit");
    let (mut writer, claim, entries) = take_claimed::<KU, VU>(alloc, case)?;
    let built = write_map::<KU, VU, K, V, E>(alloc, claim, &entries, &mut writer);
    show_built(built, &writer, out)
}

/// Builds the map of a case from a position on, if its keys increase.
pub(crate) fn build_strict<
    KU: Archive<Archived = K> + Serialize<VecWriter, Global> + Wire + Ord,
    VU: Archive<Archived = V> + Serialize<VecWriter, Global> + Wire,
    K: Portable,
    V: Portable,
    const E: usize,
>(alloc: Global, case: &[u8], out: &mut String) -> anyhow::Result<()> {
    ensure!(layout::fits::<K, V, E>(), "the map doesn't fit");
    let (mut writer, claim, entries) = take_claimed::<KU, VU>(alloc, case)?;
    let built = write_strict_map::<KU, VU, K, V, E>(alloc, claim, &entries, &mut writer);
    show_built(built, &writer, out)
}

/// Builds the map of a case's entries, compares its bytes with the archive of the case, and lists the latter's map.
pub(crate) fn golden<
    KU: Archive<Archived = K> + Serialize<VecWriter, Global> + Wire,
    VU: Archive<Archived = V> + Serialize<VecWriter, Global> + Wire,
    K: CheckBytes + Shown,
    V: CheckBytes + Shown,
    const E: usize,
>(alloc: Global, case: &[u8], out: &mut String) -> anyhow::Result<()> {
    ensure!(layout::fits::<K, V, E>(), "the map doesn't fit");
    let mut input = Input { rest: case };
    let start = input.number()? as usize;
    let count = input.number()?;
    let entries = take_all::<(KU, VU)>(alloc, count, &mut input)?;
    let (before, _) = input
        .rest
        .split_at_checked(start)
        .context("the archive ends before its start")?;
    let mut writer = VecWriter::from_vec(before.to_vec(alloc)?);
    let root = write_map::<KU, VU, K, V, E>(alloc, entries.len(), &entries, &mut writer)?;
    let is_equal = writer.bytes() == input.rest;
    write!(out, "{is_equal} ")?;
    list::<K, V, E>(alloc, input.rest, root, out)
}

/// Appends a native value, as the view of its archive.
pub(crate) fn show_native<
    VU: Archive<Archived = V> + Serialize<VecWriter, Global>,
    V: CheckBytes + Shown,
>(alloc: Global, value: &VU, out: &mut String) -> anyhow::Result<()> {
    ensure!(V::fits(), "the type doesn't fit");
    let bytes = to_archive(alloc, value)?;
    V::show(&open::<V>(&bytes)?, out)?;
    Ok(())
}

/// Makes a std map of the map of a case, and compares both.
pub(crate) fn make<
    KU: Archive<Archived = K> + Serialize<VecWriter, Global> + Ord + Drop,
    VU: Archive<Archived = V> + Serialize<VecWriter, Global> + PartialEq + Drop,
    K: CheckBytes + DeserializeKey<KU> + SameAs<KU> + Shown,
    V: CheckBytes + Deserialize<VU> + SameAs<VU> + Shown,
    const E: usize,
>(alloc: Global, case: &[u8], out: &mut String) -> anyhow::Result<()> {
    let mut input = Input { rest: case };
    let pos = input.number()?;
    let Some(map) = opened::<K, V, E>(input.rest, pos, out)? else {
        return Ok(());
    };
    let made: BTreeMap<KU, VU> = ArchivedBTreeMap::<K, V, E>::deserialize(alloc, &map)?;
    show_native::<BTreeMap<KU, VU>, ArchivedBTreeMap<K, V, 5>>(alloc, &made, out)?;
    let is_same = map.eq_map(&made);
    write!(out, " {is_same}")?;
    Ok(())
}

/// Makes the archive of the first std map of a case, compares it with both, and makes a std map of it again.
pub(crate) fn turn<
    KU: Archive<Archived = K> + Serialize<VecWriter, Global> + Wire + Ord,
    VU: Archive<Archived = V> + Serialize<VecWriter, Global> + Wire + PartialEq,
    K: CheckBytes + DeserializeKey<KU> + SameAs<KU>,
    V: CheckBytes + Deserialize<VU> + SameAs<VU>,
>(alloc: Global, case: &[u8], out: &mut String) -> anyhow::Result<()> {
    let mut input = Input { rest: case };
    let map = BTreeMap::<KU, VU>::take(alloc, &mut input)?;
    let other = BTreeMap::<KU, VU>::take(alloc, &mut input)?;
    ensure!(ArchivedBTreeMap::<K, V, 5>::fits(), "the map doesn't fit");
    let bytes = to_archive(alloc, &map)?;
    show_bytes(&bytes, out)?;
    let view = open::<ArchivedBTreeMap<K, V, 5>>(&bytes)?;
    let is_same = view.eq_map(&map);
    let is_other = view.eq_map(&other);
    let again: BTreeMap<KU, VU> = from_archive(alloc, &bytes)?;
    let is_back = again == map;
    write!(out, " {is_same} {is_other} {is_back}")?;
    Ok(())
}

/// Opens the map of a case, with 5 entries a node whatever the type of the case says, and migrates it into a new writer.
pub(crate) fn migrated<
    KU: Archive<Archived = K> + Serialize<VecWriter, Global> + Ord + Drop,
    VU: Archive<Archived = V> + Serialize<VecWriter, Global> + PartialEq + Drop,
    K: CheckBytes + DeserializeKey<KU>,
    V: CheckBytes + Deserialize<VU>,
>(alloc: Global, case: &[u8], out: &mut String) -> anyhow::Result<()> {
    let mut input = Input { rest: case };
    let pos = input.number()?;
    let Some(map) = opened::<K, V, 5>(input.rest, pos, out)? else {
        return Ok(());
    };
    let mut writer = VecWriter::new(alloc);
    let built = migrate::<KU, VU, K, V, VecWriter>(alloc, &map, &mut writer);
    show_built(built, &writer, out)
}
