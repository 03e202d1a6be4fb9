//! Maps of any types that are archived and opened, as other tests need them.

use rkyv_btree::map::access;
use rkyv_btree::view::View;
use rkyv_btree_base::archive::{Archive, Serialize};
use rkyv_btree_base::build::BuildMap;
use rkyv_btree_base::check::{CheckBytes, Portable};
use rkyv_btree_base::fault::Fault;
use rkyv_btree_base::layout;
use rkyv_btree_base::map::ArchivedBTreeMap;
use rkyv_btree_base::place::VecWriter;
use std::alloc::{AllocError, Global};
use std::process::Abort;
use std::test::Fail;

/// Archives entries that are claimed to be so many, and returns where their map stands.
pub(crate) fn archive_claimed<KU, VU, K, V, const E: usize>(
    rt: &impl Abort,
    alloc: Global,
    claim: usize,
    entries: &[(KU, VU)],
    writer: &mut VecWriter,
) -> Result<u32, Fault<AllocError>>
where
    KU: Archive<Archived = K> + Serialize<VecWriter, Global>,
    VU: Archive<Archived = V> + Serialize<VecWriter, Global>,
    K: Portable,
    V: Portable,
{
    assert!(rt; layout::fits::<K, V, E>());
    let root = ArchivedBTreeMap::<K, V, E>::serialize_from_ordered_iter(
        alloc,
        claim,
        entries.iter().map(|entry| (&entry.0, &entry.1)),
        writer,
    )?;
    ArchivedBTreeMap::<K, V, E>::write_root(claim, root, writer)
}

/// Archives entries, and returns where their map stands.
pub(crate) fn archive<KU, VU, K, V, const E: usize>(
    rt: &impl Abort,
    alloc: Global,
    entries: &[(KU, VU)],
    writer: &mut VecWriter,
) -> Result<u32, Fail>
where
    KU: Archive<Archived = K> + Serialize<VecWriter, Global>,
    VU: Archive<Archived = V> + Serialize<VecWriter, Global>,
    K: Portable,
    V: Portable,
{
    let len = entries.len();
    Ok(archive_claimed::<KU, VU, K, V, E>(rt, alloc, len, entries, writer)?)
}

/// The map at a position.
pub(crate) fn opened<'a, K: CheckBytes, V: CheckBytes, const E: usize>(
    rt: &impl Abort,
    bytes: &'a [u8],
    pos: u32,
) -> View<'a, ArchivedBTreeMap<K, V, E>> {
    assert!(rt; layout::fits::<K, V, E>());
    access::<K, V, E>(bytes, pos).expect(rt, "a map")
}
