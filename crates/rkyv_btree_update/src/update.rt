//! New archives of maps, from old ones and changes.
ghost use Rattle.std.specs.Prelude.{ℕ, IsErrOf, IsTrue, IfErr, IfOk, OnOk};
ghost use Rattle.rkyv_btree_format.specs.Increasing.{Increasing, IsOutOfOrder};
ghost use Rattle.rkyv_btree_format.specs.Layout.{are_fitting};
ghost use Rattle.rkyv_btree_update.specs.Natives.{IsLent, meaning, shown_of};
ghost use Rattle.rkyv_btree_update.specs.Updated.{all_put, changes_meant, updated};
ghost use Rattle.rkyv_btree_update.specs.Written.{IsAppended, IsCount, IsNotUpdated, IsNotWritten, IsWritten, WritesSmallest};
ghost use Rattle.rkyv_btree_update.specs.mirror.Merged.{changing_left};
ghost use Rattle.rkyv_btree_view.specs.View.{entries_of};

use crate::change::Change;
use crate::changing::Changing;
use crate::counting::{count_all, count_listed};
use crate::from_archived::FromArchived;
use crate::order::first_disorder;
use crate::updates::Updates;
use rkyv_btree_archive::archive::{Archive, Serialize};
use rkyv_btree_archive::build_map::BuildMap;
use rkyv_btree_portable::check::Portable;
use rkyv_btree_strict::strict_map::{Strict, StrictEntries, StrictView};
use rkyv_btree_types::map::ArchivedBTreeMap;
use rkyv_btree_view::compare::ViewOrd;
use rkyv_btree_walk::archived_map::ArchivedMap;
use rkyv_btree_writer::fault::Fault;
use rkyv_btree_writer::place::Writer;
use std::alloc::Global;

/// Writes the entries of a map after changes whose keys increase, of which there are `len`, or more than 32 bits can count.
fn write_updated<'a, 'x, K, V, M, KU, VU, W, const E: usize>(
    alloc: Global,
    old: Strict<'a, M>,
    changes: Changing<'a, 'x, M, KU, VU>,
    len: Option<usize>,
    writer: &mut W,
) -> Result<u32, Fault<W::Error>>
where
    K: ViewOrd,
    V: Portable,
    M: ArchivedMap<Key = K, Mapped = V> + StrictEntries,
    KU: FromArchived<'a> + Archive<Archived = K> + Serialize<W, Global>,
    VU: FromArchived<'a> + Archive<Archived = V> + Serialize<W, Global>,
    W: Writer,
    requires fitting { IsTrue (are_fitting K.kind V.kind E) }
    requires in_order { Increasing KU.order (changing_left KU.lent VU.lent KU.shown VU.shown changes) }
    requires counted { IsCount (updated KU.order
        (shown_of K.kind V.kind M.E KU.lent VU.lent old.view)
        (changing_left KU.lent VU.lent KU.shown VU.shown changes)) len }
    ensures smallest { (keys : IsLent KU.archival K.kind KU.shown KU.order KU.lent KU.cmp) →
        (values : IsLent VU.archival V.kind VU.shown VU.order VU.lent VU.cmp) →
        IfOk result (λ at. WritesSmallest K.kind V.kind E
        (updated K.kind.order (entries_of K.kind V.kind M.E old.entry.view)
        (changes_meant keys.meant values.meant
        (changing_left KU.lent VU.lent KU.shown VU.shown changes.entry)))
        (W.state writer.old) at (W.state writer.new)) }
    ensures err { IfErr result (λ fault. IsNotWritten K.kind V.kind E KU.archival VU.archival
        KU.shown VU.shown (updated KU.order
        (shown_of K.kind V.kind M.E KU.lent VU.lent old.entry.view)
        (changing_left KU.lent VU.lent KU.shown VU.shown changes.entry))
        (W.state writer.old) fault (W.state writer.new)) }
    ensures appended { IfOk result (λ at. IsAppended (W.state writer.old) at (W.state writer.new)) }
{
    KU::is_lent();
    VU::is_lent();
    let Some(len) = len else {
        return Err(Fault::LengthOverflow);
    };
    let entries = Updates::new(old, changes);
    let root = ArchivedBTreeMap::<K, V, E>::serialize_from_ordered_iter(
        alloc, len, entries, writer,
    )?;
    ArchivedBTreeMap::<K, V, E>::write_root(len, root, writer)
}

/// Writes the entries of a map after the changes of a list, if their keys increase.
fn write_listed<'a, 'x, K, V, M, KU, VU, W, const E: usize>(
    alloc: Global,
    old: Strict<'a, M>,
    changes: &'x [(KU, Change<VU>)],
    writer: &mut W,
) -> Result<u32, Fault<W::Error>>
where
    K: ViewOrd,
    V: Portable,
    M: ArchivedMap<Key = K, Mapped = V> + StrictEntries,
    KU: FromArchived<'a> + Archive<Archived = K> + Serialize<W, Global>,
    VU: FromArchived<'a> + Archive<Archived = V> + Serialize<W, Global>,
    W: Writer,
    requires fitting { IsTrue (are_fitting K.kind V.kind E) }
    ensures smallest { (keys : IsLent KU.archival K.kind KU.shown KU.order KU.lent KU.cmp) →
        (values : IsLent VU.archival V.kind VU.shown VU.order VU.lent VU.cmp) →
        IfOk result (λ at. WritesSmallest K.kind V.kind E
        (updated K.kind.order (entries_of K.kind V.kind M.E old.entry.view)
        (changes_meant keys.meant values.meant (changes_meant KU.shown VU.shown changes.now)))
        (W.state writer.old) at (W.state writer.new)) }
    ensures in_order { OnOk result (Increasing KU.cmp changes.now) }
    ensures out_of_order { (index : ℕ) → IsOutOfOrder KU.cmp changes.now index →
        IsErrOf result (Fault.OutOfOrder index) }
    ensures err { IfErr result (λ fault. IsNotUpdated K.kind V.kind E KU.archival VU.archival
        KU.shown VU.shown KU.cmp changes.now (updated KU.order
        (shown_of K.kind V.kind M.E KU.lent VU.lent old.entry.view)
        (changes_meant KU.shown VU.shown changes.now))
        (W.state writer.old) fault (W.state writer.new)) }
    ensures appended { IfOk result (λ at. IsAppended (W.state writer.old) at (W.state writer.new)) }
{
    if let Some(index) = first_disorder(changes) {
        return Err(Fault::OutOfOrder { index });
    }
    let len = count_listed(old, changes);
    write_updated::<K, V, M, KU, VU, W, E>(alloc, old, Changing::Listed(changes), len, writer)
}

/// Writes the entries of a map after those of another one are put.
fn write_merged<'a, K, V, M, KU, VU, W, const E: usize>(
    alloc: Global,
    old: Strict<'a, M>,
    new: Strict<'a, M>,
    writer: &mut W,
) -> Result<u32, Fault<W::Error>>
where
    K: ViewOrd,
    V: Portable,
    M: ArchivedMap<Key = K, Mapped = V> + StrictEntries,
    KU: FromArchived<'a> + Archive<Archived = K> + Serialize<W, Global> + 'a,
    VU: FromArchived<'a> + Archive<Archived = V> + Serialize<W, Global> + 'a,
    W: Writer,
    requires fitting { IsTrue (are_fitting K.kind V.kind E) }
    ensures smallest { (keys : IsLent KU.archival K.kind KU.shown KU.order KU.lent KU.cmp) →
        (values : IsLent VU.archival V.kind VU.shown VU.order VU.lent VU.cmp) →
        IfOk result (λ at. WritesSmallest K.kind V.kind E
        (updated K.kind.order (entries_of K.kind V.kind M.E old.entry.view)
        (changes_meant keys.meant values.meant (all_put (shown_of K.kind V.kind M.E KU.lent VU.lent new.entry.view))))
        (W.state writer.old) at (W.state writer.new)) }
    ensures err { IfErr result (λ fault. IsNotWritten K.kind V.kind E KU.archival VU.archival
        KU.shown VU.shown (updated KU.order
        (shown_of K.kind V.kind M.E KU.lent VU.lent old.entry.view) (all_put (shown_of K.kind V.kind M.E KU.lent VU.lent new.entry.view)))
        (W.state writer.old) fault (W.state writer.new)) }
    ensures appended { IfOk result (λ at. IsAppended (W.state writer.old) at (W.state writer.new)) }
{
    let len = count_all::<K, V, M, KU, VU>(old, Changing::puts(new));
    write_updated::<K, V, M, KU, VU, W, E>(alloc, old, Changing::puts(new), len, writer)
}

/// Serializes the entries of a strict map after changes as a new map, with the root after its tree, and returns the root's
/// position. A key that is put has the new value, a key that is deleted has no entry, and each other key keeps its value. The
/// order of the changes is tested first. Then the entries are counted: by one lookup for each change, or along the old map if it
/// has fewer than 64 entries for each change. Last, the old map and the changes are read and written. No value is allocated.
///
/// # Errors
///
/// - `Fault::OutOfOrder` with the index of the first change whose key isn't greater than the key before it. Nothing is written.
/// - `Fault::LengthOverflow` if there are more than 4294967295 entries after the changes. Nothing is written.
/// - Those of serializing the entries. The writer's contents begin with the old ones.
pub fn update<'a, 'x, K, V, KU, VU, W, const E: usize>(
    alloc: Global,
    old: StrictView<'a, K, V, E>,
    changes: &'x [(KU, Change<VU>)],
    writer: &mut W,
) -> Result<u32, Fault<W::Error>>
where
    K: ViewOrd,
    V: Portable,
    KU: FromArchived<'a> + Archive<Archived = K> + Serialize<W, Global>,
    VU: FromArchived<'a> + Archive<Archived = V> + Serialize<W, Global>,
    W: Writer,
    requires fitting { IsTrue (are_fitting K.kind V.kind E) }
    // The old entries after the changes were written, as the smallest strict map.
    ensures ok { (keys : IsLent KU.archival K.kind KU.shown KU.order KU.lent KU.cmp) →
        (values : IsLent VU.archival V.kind VU.shown VU.order VU.lent VU.cmp) →
        IfOk result (λ at. IsWritten K.kind V.kind E
        (updated K.kind.order (entries_of K.kind V.kind E old.entry.view)
        (changes_meant (meaning KU.archival keys.same) (meaning VU.archival values.same)
        changes.now)) (W.state writer.old) at (W.state writer.new)) }
    // It is the last of the writer's bytes.
    ensures appended { IfOk result (λ at. IsAppended (W.state writer.old) at (W.state writer.new)) }
    // The keys of the changes increase, or the error has the index of the first one that is out of order.
    ensures in_order { OnOk result (Increasing KU.cmp changes.now) }
    ensures out_of_order { (index : ℕ) → IsOutOfOrder KU.cmp changes.now index →
        IsErrOf result (Fault.OutOfOrder index) }
    // Each error's cause is there, and the contents begin with the old ones.
    ensures err { IfErr result (λ fault. IsNotUpdated K.kind V.kind E KU.archival VU.archival
        KU.shown VU.shown KU.cmp changes.now (updated KU.order
        (shown_of K.kind V.kind E KU.lent VU.lent old.entry.view)
        (changes_meant KU.shown VU.shown changes.now)) (W.state writer.old) fault
        (W.state writer.new)) }
{
    write_listed::<K, V, ArchivedBTreeMap<K, V, E>, KU, VU, W, E>(alloc, old, changes, writer)
}

/// Serializes the entries of two strict maps as one map, with the root after its tree, and returns the root's position. Of a
/// key that both have, the value is the second map's. Both maps are read twice. No value is allocated.
///
/// # Errors
///
/// Those of `update`. No error is `Fault::OutOfOrder`.
pub fn merge<'a, K, V, KU, VU, W, const E: usize>(
    alloc: Global,
    first: StrictView<'a, K, V, E>,
    second: StrictView<'a, K, V, E>,
    writer: &mut W,
) -> Result<u32, Fault<W::Error>>
where
    K: ViewOrd,
    V: Portable,
    KU: FromArchived<'a> + Archive<Archived = K> + Serialize<W, Global> + 'a,
    VU: FromArchived<'a> + Archive<Archived = V> + Serialize<W, Global> + 'a,
    W: Writer,
    requires fitting { IsTrue (are_fitting K.kind V.kind E) }
    // The first map's entries after those of the second are put were written, as the smallest strict map.
    ensures ok { (keys : IsLent KU.archival K.kind KU.shown KU.order KU.lent KU.cmp) →
        (values : IsLent VU.archival V.kind VU.shown VU.order VU.lent VU.cmp) →
        IfOk result (λ at. IsWritten K.kind V.kind E
        (updated K.kind.order (entries_of K.kind V.kind E first.entry.view)
        (all_put (entries_of K.kind V.kind E second.entry.view)))
        (W.state writer.old) at (W.state writer.new)) }
    // It is the last of the writer's bytes.
    ensures appended { IfOk result (λ at. IsAppended (W.state writer.old) at (W.state writer.new)) }
    // Each error's cause is there, and the contents begin with the old ones.
    ensures err { IfErr result (λ fault. IsNotWritten K.kind V.kind E KU.archival VU.archival
        KU.shown VU.shown (updated KU.order
        (shown_of K.kind V.kind E KU.lent VU.lent first.entry.view)
        (all_put (shown_of K.kind V.kind E KU.lent VU.lent second.entry.view))) (W.state writer.old) fault
        (W.state writer.new)) }
{
    write_merged::<K, V, ArchivedBTreeMap<K, V, E>, KU, VU, W, E>(alloc, first, second, writer)
}
