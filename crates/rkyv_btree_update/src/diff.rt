//! The changes that lead from one strict map to another.
ghost use Rattle.std.specs.Iterator.{Drains, IsFinite, YieldsFirst, item_count};
ghost use Rattle.std.specs.Option.{option_map};
ghost use Rattle.std.specs.Prelude.{◌≡◌, ◌<◌, List, map, MatchOption};
ghost use Rattle.rkyv_btree_update.specs.Differences.{IsDifference};
ghost use Rattle.rkyv_btree_update.specs.Natives.{IsLent, meaning, shown_of};
ghost use Rattle.rkyv_btree_update.specs.Updated.{changes_meant, key_change, updated};
ghost use Rattle.rkyv_btree_update.specs.mirror.Merged.{diff_left, diff_size};
ghost use Rattle.rkyv_btree_view.specs.View.{entries_of};

use crate::change::Change;
use crate::entries::Entries;
use crate::from_archived::FromArchived;
use rkyv_btree_archive::archive::Archive;
use rkyv_btree_portable::check::Portable;
use rkyv_btree_strict::strict_map::{Strict, StrictEntries};
use rkyv_btree_view::compare::ViewOrd;
use rkyv_btree_walk::archived_map::ArchivedMap;
use std::cmp::Ordering;

/// The changes that lead from one strict map to another, in order of their keys. `diff` makes one.
#[derive(Drop)]
pub struct Differences<'a, M: ArchivedMap, KU, VU> {
    from: Entries<'a, M, KU, VU>,
    to: Entries<'a, M, KU, VU>,
}

impl<'a, K, V, M, KU, VU> Differences<'a, M, KU, VU>
where
    K: ViewOrd,
    V: Portable,
    M: ArchivedMap<Key = K, Mapped = V> + StrictEntries,
    KU: FromArchived<'a> + Archive<Archived = K>,
    VU: FromArchived<'a> + Archive<Archived = V>,
{
    /// Takes the next change, or passes over an entry that both maps have.
    fn step(&mut self) -> Option<Option<(KU, Change<VU>)>>
        ensures { MatchOption (option_map (option_map (key_change KU.shown VU.shown)) result)
            ((diff_left KU.order VU.order KU.lent VU.lent KU.shown VU.shown self.old
            ≡ diff_left KU.order VU.order KU.lent VU.lent KU.shown VU.shown self.new)
            × (diff_size KU.lent VU.lent KU.shown VU.shown self.new
            < diff_size KU.lent VU.lent KU.shown VU.shown self.old))
            (λ item. YieldsFirst
            (diff_left KU.order VU.order KU.lent VU.lent KU.shown VU.shown)
            self.old item self.new) }
    {
        KU::is_lent();
        VU::is_lent();
        let Some((old_key, old_value)) = self.from.next else {
            let Some((new_key, new_value)) = self.to.next else {
                return Some(None);
            };
            let _ = self.to.take();
            return Some(Some((new_key, Change::Put(new_value))));
        };
        let Some((new_key, new_value)) = self.to.next else {
            let _ = self.from.take();
            return Some(Some((old_key, Change::Delete)));
        };
        match old_key.cmp(&new_key) {
            Ordering::Less => {
                let _ = self.from.take();
                Some(Some((old_key, Change::Delete)))
            }
            Ordering::Equal => {
                let _ = self.from.take();
                let _ = self.to.take();
                if old_value.cmp(&new_value).is_eq() {
                    None
                } else {
                    Some(Some((new_key, Change::Put(new_value))))
                }
            }
            Ordering::Greater => {
                let _ = self.to.take();
                Some(Some((new_key, Change::Put(new_value))))
            }
        }
    }
}

impl<'a, K, V, M, KU, VU> Iterator for Differences<'a, M, KU, VU>
where
    K: ViewOrd,
    V: Portable,
    M: ArchivedMap<Key = K, Mapped = V> + StrictEntries,
    KU: FromArchived<'a> + Archive<Archived = K>,
    VU: FromArchived<'a> + Archive<Archived = V>,
{
    type Item = (KU, Change<VU>);

    ghost next_gives = { λ s r t. YieldsFirst
        (diff_left KU.order VU.order KU.lent VU.lent KU.shown VU.shown)
        s (option_map (key_change KU.shown VU.shown) r) t };

    ghost remaining = { item_count
        (diff_left KU.order VU.order KU.lent VU.lent KU.shown VU.shown) };

    fn next(&mut self) -> Option<(KU, Change<VU>)> {
        loop {
            if let Some(item) = self.step() {
                return item;
            }
        }
    }
}

/// Returns the changes that lead from one strict map to another, as an iterator in order of their keys. A key that the new map
/// doesn't have is deleted. A key that it has with another value, or that the old map doesn't have, is put. Nothing is
/// allocated.
pub fn diff<'a, K, V, M, KU, VU>(
    old: Strict<'a, M>,
    new: Strict<'a, M>,
) -> Differences<'a, M, KU, VU>
where
    K: ViewOrd,
    V: Portable,
    M: ArchivedMap<Key = K, Mapped = V> + StrictEntries,
    KU: FromArchived<'a> + Archive<Archived = K>,
    VU: FromArchived<'a> + Archive<Archived = V>,
    // The keys of the changes increase, no change is in vain, and together they lead from the old entries to the new ones.
    ensures difference { (changes : List (KU × Change VU)) →
        Drains ⟦<Differences<'a, M, KU, VU> as Iterator>⟧.next_gives result changes →
        IsDifference KU.order
        (shown_of K.kind V.kind M.E KU.lent VU.lent old.entry.view)
        (shown_of K.kind V.kind M.E KU.lent VU.lent new.entry.view)
        (changes_meant KU.shown VU.shown changes) }
    // So an update of the old map by the changes has the entries of the new one.
    ensures leads { (keys : IsLent KU.archival K.kind KU.shown KU.order KU.lent KU.cmp) →
        (values : IsLent VU.archival V.kind VU.shown VU.order VU.lent VU.cmp) →
        (changes : List (KU × Change VU)) →
        Drains ⟦<Differences<'a, M, KU, VU> as Iterator>⟧.next_gives result changes →
        updated K.kind.order (entries_of K.kind V.kind M.E old.entry.view)
        (changes_meant (meaning KU.archival keys.same) (meaning VU.archival values.same) changes)
        ≡ entries_of K.kind V.kind M.E new.entry.view }
    ensures ends { IsFinite (⟦<Differences<'a, M, KU, VU> as Iterator>⟧.remaining result) }
{
    KU::is_lent();
    VU::is_lent();
    Differences {
        from: Entries::of(old),
        to: Entries::of(new),
    }
}
