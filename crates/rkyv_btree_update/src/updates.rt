//! The entries of a map after changes, one after another.
ghost use Rattle.std.specs.Iterator.{YieldsFirst, item_count};
ghost use Rattle.std.specs.Option.{option_map};
ghost use Rattle.std.specs.Prelude.{◌≡◌, ◌∷◌, None, false, IfNone, IfSome, IsTrue};
ghost use Rattle.rkyv_btree_format.specs.Increasing.{Increasing};
ghost use Rattle.rkyv_btree_update.specs.Natives.{both, shown_of};
ghost use Rattle.rkyv_btree_update.specs.mirror.Merged.{AreOrdered, CanCross, CanMerge, IsBeforeAll, IsQuiet, MayTake, Steps};
ghost use Rattle.rkyv_btree_update.specs.mirror.Merged.{changing_left, entry_put, merged, new_left, old_left, shown_left};

use crate::change::Change;
use crate::changing::Changing;
use crate::entries::{native_at_hand, next_native};
use crate::from_archived::FromArchived;
use rkyv_btree_archive::archive::Archive;
use rkyv_btree_portable::check::Portable;
use rkyv_btree_strict::strict_map::{Strict, StrictEntries};
use rkyv_btree_view::compare::ViewOrd;
use rkyv_btree_view::iter::Iter;
use rkyv_btree_walk::archived_map::ArchivedMap;
use std::cmp::Ordering;

/// The entries of a strict map after changes whose keys increase: a merge of both.
#[derive(Drop)]
pub(crate) struct Updates<'a, 'x, M: ArchivedMap, KU, VU> {
    /// Whether the entries at hand come before the next change, and are taken without a comparison.
    quiet: bool,
    /// An entry that was taken and comes next, since a change came before it.
    ahead: Option<(KU, VU)>,
    /// The entries after it.
    entries: Iter<'a, M>,
    /// The next change.
    change: Option<(KU, Change<VU>)>,
    /// Those after it.
    changes: Changing<'a, 'x, M, KU, VU>,
}

/// Returns the entry of a key after a change, if there is one.
#[inline(always)]
fn put_entry<KU: Drop, VU: Drop>(key: KU, change: Change<VU>) -> Option<Option<(KU, VU)>>
    ensures { result ≡ entry_put key change }
{
    match change {
        Change::Put(value) => Some(Some((key, value))),
        Change::Delete => None,
    }
}

impl<'a, 'x, K, V, M, KU, VU> Updates<'a, 'x, M, KU, VU>
where
    K: ViewOrd,
    V: Portable,
    M: ArchivedMap<Key = K, Mapped = V> + StrictEntries,
    KU: FromArchived<'a> + Archive<Archived = K>,
    VU: FromArchived<'a> + Archive<Archived = V>,
{
    /// Returns the merge of a map's entries and of changes.
    pub(crate) fn new(
        view: Strict<'a, M>,
        changes: Changing<'a, 'x, M, KU, VU>,
    ) -> Updates<'a, 'x, M, KU, VU>
        ensures old { old_left KU.lent VU.lent KU.shown VU.shown result
            ≡ shown_of K.kind V.kind M.E KU.lent VU.lent view.entry.view }
        ensures new { new_left KU.lent VU.lent KU.shown VU.shown result
            ≡ changing_left KU.lent VU.lent KU.shown VU.shown changes.entry }
        ensures compared { result.quiet ≡ false }
    {
        KU::is_lent();
        VU::is_lent();
        let mut changes = changes;
        Updates {
            quiet: false,
            ahead: None,
            entries: view.iter(),
            change: changes.take(),
            changes,
        }
    }

    /// Takes the next entry of the map.
    #[inline(always)]
    fn take_own(&mut self) -> Option<(KU, VU)>
        ensures taken { YieldsFirst (old_left KU.lent VU.lent KU.shown VU.shown) self.old
            (option_map (both KU.shown VU.shown) result) self.new }
        ensures none { self.new.ahead ≡ None }
        ensures change { self.new.change ≡ self.old.change }
        ensures changes { self.new.changes ≡ self.old.changes }
    {
        match self.ahead {
            Some(entry) => {
                self.ahead = None;
                Some(entry)
            }
            None => next_native(&mut self.entries),
        }
    }

    /// Passes over the next change, if there is one.
    #[inline(never)]
    fn pass_change(&mut self)
        ensures rest { new_left KU.lent VU.lent KU.shown VU.shown self.new
            ≡ changing_left KU.lent VU.lent KU.shown VU.shown self.old.changes }
        ensures old { old_left KU.lent VU.lent KU.shown VU.shown self.new
            ≡ old_left KU.lent VU.lent KU.shown VU.shown self.old }
    {
        self.change = self.changes.take();
    }

    /// Takes the next entry, or passes over a change that deletes.
    #[inline(always)]
    fn step(&mut self) -> Option<Option<(KU, VU)>>
        requires { AreOrdered KU.order (old_left KU.lent VU.lent KU.shown VU.shown)
            (new_left KU.lent VU.lent KU.shown VU.shown)
            self.old }
        ensures { Steps KU.order (old_left KU.lent VU.lent KU.shown VU.shown)
            (new_left KU.lent VU.lent KU.shown VU.shown)
            self.old (option_map (option_map (both KU.shown VU.shown)) result) self.new }
    {
        KU::is_lent();
        let Some(entry) = self.take_own() else {
            let Some((key, change)) = self.change else {
                return Some(None);
            };
            self.pass_change();
            return put_entry(key, change);
        };
        let Some((key, change)) = self.change else {
            return Some(Some(entry));
        };
        match entry.0.cmp(&key) {
            Ordering::Less => Some(Some(entry)),
            Ordering::Equal => {
                self.pass_change();
                put_entry(entry.0, change)
            }
            Ordering::Greater => {
                self.ahead = Some(entry);
                self.pass_change();
                put_entry(key, change)
            }
        }
    }

    /// Takes the next entry, after the changes that delete and come before it.
    fn next_compared(&mut self) -> Option<(KU, VU)>
        requires { AreOrdered KU.order (old_left KU.lent VU.lent KU.shown VU.shown)
            (new_left KU.lent VU.lent KU.shown VU.shown) self.old }
        ensures gives { YieldsFirst (merged KU.order
            (old_left KU.lent VU.lent KU.shown VU.shown) (new_left KU.lent VU.lent KU.shown VU.shown))
            self.old (option_map (both KU.shown VU.shown) result) self.new }
        ensures ordered { IfSome result (λ _.
            AreOrdered KU.order (old_left KU.lent VU.lent KU.shown VU.shown)
            (new_left KU.lent VU.lent KU.shown VU.shown) self.new) }
    {
        loop {
            if let Some(item) = self.step() {
                return item;
            }
        }
    }

    /// Returns whether the entries at hand come before the next change, since the last of them does.
    #[inline(always)]
    fn is_quiet(&self) -> bool
        requires { AreOrdered KU.order (old_left KU.lent VU.lent KU.shown VU.shown)
            (new_left KU.lent VU.lent KU.shown VU.shown) self.now }
        ensures quiet { IsTrue result → IsQuiet KU.order KU.lent VU.lent KU.shown VU.shown self.now }
        // So does an entry before them.
        ensures earlier { IsTrue result → (e : KU.Shown × VU.Shown) →
            Increasing KU.order (e ∷ shown_left KU.lent VU.lent self.now.entries) →
            IsBeforeAll KU.order e (new_left KU.lent VU.lent KU.shown VU.shown self.now) }
    {
        KU::is_lent();
        VU::is_lent();
        if self.ahead.is_some() {
            return false;
        }
        let Some(last) = self.entries.last_at_hand() else {
            return false;
        };
        match self.change {
            None => true,
            Some(next) => KU::from_archived(last.0.buf, last.0.pos)
                .cmp(&next.0)
                .is_lt(),
        }
    }

    /// Takes the next entry, of a node above the leaf, if the entries of the next leaf come before the next change. Otherwise that
    /// entry comes next. Nothing is taken if the entries at hand were compared.
    #[inline(always)]
    fn next_crossing(&mut self) -> Option<(KU, VU)>
        requires { CanCross KU.order KU.lent VU.lent KU.shown VU.shown self.old }
        ensures takes { MayTake KU.order KU.lent VU.lent KU.shown VU.shown self.old result self.new }
        ensures ordered { IfNone result
            (AreOrdered KU.order (old_left KU.lent VU.lent KU.shown VU.shown)
            (new_left KU.lent VU.lent KU.shown VU.shown) self.new) }
    {
        KU::is_lent();
        if !self.quiet {
            return None;
        }
        self.quiet = false;
        let entry = next_native(&mut self.entries)?;
        if self.is_quiet() {
            self.quiet = true;
            return Some(entry);
        }
        self.ahead = Some(entry);
        None
    }

    /// Takes the next entry by comparison, and at the start of a leaf compares its last entry.
    #[inline(never)]
    fn next_by_comparison(&mut self) -> Option<(KU, VU)>
        requires { AreOrdered KU.order (old_left KU.lent VU.lent KU.shown VU.shown)
            (new_left KU.lent VU.lent KU.shown VU.shown) self.old }
        ensures gives { YieldsFirst (merged KU.order
            (old_left KU.lent VU.lent KU.shown VU.shown) (new_left KU.lent VU.lent KU.shown VU.shown))
            self.old (option_map (both KU.shown VU.shown) result) self.new }
        ensures can { IfSome result (λ _. CanMerge KU.order KU.lent VU.lent KU.shown VU.shown self.new) }
    {
        let at_end = self.entries.last_at_hand().is_none();
        let item = self.next_compared()?;
        self.quiet = at_end && self.is_quiet();
        Some(item)
    }

    /// Takes the next entry, which isn't at hand. It is compared if the entries of the next leaf are to be.
    #[inline(never)]
    fn next_apart(&mut self) -> Option<(KU, VU)>
        requires { CanCross KU.order KU.lent VU.lent KU.shown VU.shown self.old }
        ensures gives { YieldsFirst (merged KU.order
            (old_left KU.lent VU.lent KU.shown VU.shown) (new_left KU.lent VU.lent KU.shown VU.shown))
            self.old (option_map (both KU.shown VU.shown) result) self.new }
        ensures can { IfSome result (λ _. CanMerge KU.order KU.lent VU.lent KU.shown VU.shown self.new) }
    {
        if let Some(entry) = self.next_crossing() {
            return Some(entry);
        }
        self.next_by_comparison()
    }

    /// Takes the next entry if it is at hand and comes before the next change, without a comparison.
    #[inline(always)]
    fn next_quiet(&mut self) -> Option<(KU, VU)>
        requires { CanMerge KU.order KU.lent VU.lent KU.shown VU.shown self.old }
        ensures takes { MayTake KU.order KU.lent VU.lent KU.shown VU.shown self.old result self.new }
        ensures ordered { IfNone result (CanCross KU.order KU.lent VU.lent KU.shown VU.shown self.new) }
    {
        KU::is_lent();
        if !self.quiet {
            return None;
        }
        native_at_hand(&mut self.entries)
    }
}

impl<'a, 'x, K, V, M, KU, VU> Iterator for Updates<'a, 'x, M, KU, VU>
where
    K: ViewOrd,
    V: Portable,
    M: ArchivedMap<Key = K, Mapped = V> + StrictEntries,
    KU: FromArchived<'a> + Archive<Archived = K>,
    VU: FromArchived<'a> + Archive<Archived = V>,
{
    type Item = (KU, VU);

    ghost can_next = { CanMerge KU.order KU.lent VU.lent KU.shown VU.shown };

    ghost next_gives = { λ s r t. YieldsFirst (merged KU.order
        (old_left KU.lent VU.lent KU.shown VU.shown) (new_left KU.lent VU.lent KU.shown VU.shown))
        s (option_map (both KU.shown VU.shown) r) t };

    ghost remaining = { item_count (merged KU.order
        (old_left KU.lent VU.lent KU.shown VU.shown) (new_left KU.lent VU.lent KU.shown VU.shown)) };

    #[inline(always)]
    fn next(&mut self) -> Option<(KU, VU)> {
        if let Some(entry) = self.next_quiet() {
            return Some(entry);
        }
        if self.quiet {
            return self.next_apart();
        }
        self.next_by_comparison()
    }
}
