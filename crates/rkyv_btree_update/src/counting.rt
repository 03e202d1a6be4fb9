//! The number of entries after changes.
ghost use Rattle.std.specs.BTreeMap.{is_at};
ghost use Rattle.std.specs.Map.{lookup};
ghost use Rattle.std.specs.Prelude.{◌≡◌, ◌<◌, ◌^◌, is_some};
ghost use Rattle.rkyv_btree_format.specs.Increasing.{Increasing};
ghost use Rattle.rkyv_btree_update.specs.Natives.{IsLent, shown_of};
ghost use Rattle.rkyv_btree_update.specs.Updated.{changes_meant, updated};
ghost use Rattle.rkyv_btree_update.specs.Written.{IsCount};
ghost use Rattle.rkyv_btree_update.specs.mirror.Counted.{count_after};
ghost use Rattle.rkyv_btree_update.specs.mirror.Merged.{CanMerge, changing_left, merged, new_left, old_left};
ghost use Rattle.rkyv_btree_view.specs.View.{entries_of};

use crate::change::Change;
use crate::changing::Changing;
use crate::compare_archived::CompareArchived;
use crate::from_archived::FromArchived;
use crate::updates::Updates;
use rkyv_btree_archive::archive::Archive;
use rkyv_btree_portable::check::Portable;
use rkyv_btree_strict::strict_map::{Strict, StrictEntries};
use rkyv_btree_view::compare::ViewOrd;
use rkyv_btree_view::view::View;
use rkyv_btree_walk::archived_map::ArchivedMap;

/// The most entries of a map.
const MOST: usize = 4294967295;

/// About so many entries are passed over in the time of one lookup.
const LOOKUP: usize = 64;

/// Returns the number of entries after changes, if it has 32 bits. All entries are passed over.
fn count<'a, 'x, K, V, M, KU, VU>(updates: Updates<'a, 'x, M, KU, VU>) -> Option<usize>
where
    K: ViewOrd,
    V: Portable,
    M: ArchivedMap<Key = K, Mapped = V> + StrictEntries,
    KU: FromArchived<'a> + Archive<Archived = K>,
    VU: FromArchived<'a> + Archive<Archived = V>,
    requires { CanMerge KU.order KU.lent VU.lent KU.shown VU.shown updates }
    ensures { IsCount (merged KU.order (old_left KU.lent VU.lent KU.shown VU.shown)
        (new_left KU.lent VU.lent KU.shown VU.shown) updates.entry) result }
{
    let mut updates = updates;
    let mut len = 0;
    while let Some(_) = updates.next() {
        if len == MOST {
            return None;
        }
        len += 1;
    }
    Some(len)
}

/// Returns the number of a map's entries after changes whose keys increase, if it has 32 bits. All entries are passed over.
pub(crate) fn count_all<'a, 'x, K, V, M, KU, VU>(
    old: Strict<'a, M>,
    changes: Changing<'a, 'x, M, KU, VU>,
) -> Option<usize>
where
    K: ViewOrd,
    V: Portable,
    M: ArchivedMap<Key = K, Mapped = V> + StrictEntries,
    KU: FromArchived<'a> + Archive<Archived = K>,
    VU: FromArchived<'a> + Archive<Archived = V>,
    requires { Increasing KU.order (changing_left KU.lent VU.lent KU.shown VU.shown changes) }
    ensures { IsCount (updated KU.order (shown_of K.kind V.kind M.E KU.lent VU.lent old.entry.view)
        (changing_left KU.lent VU.lent KU.shown VU.shown changes.entry)) result }
{
    KU::is_lent();
    VU::is_lent();
    count(Updates::new(old, changes))
}

/// Returns whether a map has a key.
fn has_key<'a, K, V, M, KU>(map: Strict<'a, M>, key: &KU) -> bool
where
    K: ViewOrd,
    V: Portable,
    M: ArchivedMap<Key = K, Mapped = V> + StrictEntries,
    KU: CompareArchived + Archive<Archived = K>,
    ensures { (keys : IsLent KU.archival K.kind KU.shown KU.order KU.lent KU.cmp) →
        result ≡ is_some (lookup (is_at (K.kind.order (keys.meant (KU.shown key.now))))
        (entries_of K.kind V.kind M.E map.entry.view)) }
{
    let compare = |query: &KU, own: View<K>| query.compare_at(own.buf, own.pos);
    map.view.get_key_value_with(key, compare).is_some()
}

/// Returns the number of entries after a change, by whether there is an entry of its key.
fn len_after<VU>(has: bool, change: &Change<VU>, len: u128) -> u128
    requires { len < 2 ^ 127 }
    ensures { result ≡ count_after has change.now len }
{
    match change {
        Change::Put(_) => if has { len } else { len + 1 },
        Change::Delete => if has { len.saturating_sub(1) } else { len },
    }
}

/// Returns the number of entries after the changes of a list, if it has 32 bits. Each key is looked up.
fn count_by_lookups<'a, K, V, M, KU, VU>(
    old: Strict<'a, M>,
    changes: &[(KU, Change<VU>)],
) -> Option<usize>
where
    K: ViewOrd,
    V: Portable,
    M: ArchivedMap<Key = K, Mapped = V> + StrictEntries,
    KU: CompareArchived + Archive<Archived = K>,
    VU: CompareArchived + Archive<Archived = V>,
    requires { Increasing KU.order (changes_meant KU.shown VU.shown changes.now) }
    ensures { IsCount (updated KU.order (shown_of K.kind V.kind M.E KU.lent VU.lent old.entry.view)
        (changes_meant KU.shown VU.shown changes.now)) result }
{
    KU::is_lent();
    VU::is_lent();
    let mut len = old.len() as u128;
    let mut rest = changes.iter();
    while let Some(item) = rest.next() {
        len = len_after(has_key(old, &item.0), &item.1, len);
    }
    if len > MOST as u128 {
        return None;
    }
    Some(len as usize)
}

/// Returns the number of entries after the changes of a list, if it has 32 bits. The keys of few changes are looked up.
pub(crate) fn count_listed<'a, K, V, M, KU, VU>(
    old: Strict<'a, M>,
    changes: &[(KU, Change<VU>)],
) -> Option<usize>
where
    K: ViewOrd,
    V: Portable,
    M: ArchivedMap<Key = K, Mapped = V> + StrictEntries,
    KU: FromArchived<'a> + Archive<Archived = K>,
    VU: FromArchived<'a> + Archive<Archived = V>,
    requires { Increasing KU.order (changes_meant KU.shown VU.shown changes.now) }
    ensures { IsCount (updated KU.order (shown_of K.kind V.kind M.E KU.lent VU.lent old.entry.view)
        (changes_meant KU.shown VU.shown changes.now)) result }
{
    if changes.len() <= old.len() / LOOKUP {
        return count_by_lookups(old, changes);
    }
    count_all(old, Changing::Listed(changes))
}
