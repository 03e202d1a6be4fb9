//! Archives of maps of any types of keys and values, five entries in a node.

use anyhow::ensure;
use rkyv_btree_base::archive::{Archive, Serialize};
use rkyv_btree_base::build::BuildMap;
use rkyv_btree_base::check::Portable;
use rkyv_btree_base::layout;
use rkyv_btree_base::map::ArchivedBTreeMap;
use rkyv_btree_base::place::VecWriter;
use std::alloc::Global;

/// Writes the map of these entries, and returns its position.
pub(crate) fn write<KU, VU, K, V>(
    alloc: Global,
    entries: &[(KU, VU)],
    writer: &mut VecWriter,
) -> anyhow::Result<u32>
where
    KU: Archive<Archived = K> + Serialize<VecWriter, Global>,
    VU: Archive<Archived = V> + Serialize<VecWriter, Global>,
    K: Portable,
    V: Portable,
{
    ensure!(layout::fits::<K, V, 5>(), "too large");
    let tree = ArchivedBTreeMap::<K, V, 5>::serialize_from_ordered_iter(
        alloc,
        entries.len(),
        entries.iter().map(|entry: &(KU, VU)| (&entry.0, &entry.1)),
        writer,
    )?;
    Ok(ArchivedBTreeMap::<K, V, 5>::write_root(entries.len(), tree, writer)?)
}
