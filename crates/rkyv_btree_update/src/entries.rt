//! The entries of a strict map as native values, of which the next one is known.
ghost use Rattle.std.specs.Iterator.{YieldsFirst};
ghost use Rattle.std.specs.Option.{option_map};
ghost use Rattle.std.specs.Prelude.{◌≡◌, ◌+◌, ◌∷◌, IfNone, IfSome};
ghost use Rattle.rkyv_btree_update.specs.Natives.{both, shown_of};
ghost use Rattle.rkyv_btree_update.specs.mirror.Merged.{entries_ahead, shown_left};
ghost use Rattle.rkyv_btree_view.specs.Iter.{at_hand};

use crate::from_archived::FromArchived;
use rkyv_btree_archive::archive::Archive;
use rkyv_btree_portable::check::Portable;
use rkyv_btree_strict::strict_map::{Strict, StrictEntries};
use rkyv_btree_view::compare::ViewOrd;
use rkyv_btree_view::iter::Iter;
use rkyv_btree_walk::archived_map::ArchivedMap;

/// The entries of a map that are to come.
#[derive(Drop)]
pub(crate) struct Entries<'a, M: ArchivedMap, KU, VU> {
    /// The next entry.
    pub(crate) next: Option<(KU, VU)>,
    /// Those after it.
    later: Iter<'a, M>,
}

/// Takes the next entry of a map, as native values.
#[inline(always)]
pub(crate) fn next_native<'a, K, V, M, KU, VU>(entries: &mut Iter<'a, M>) -> Option<(KU, VU)>
where
    K: Portable,
    V: Portable,
    M: ArchivedMap<Key = K, Mapped = V>,
    KU: FromArchived<'a> + Archive<Archived = K>,
    VU: FromArchived<'a> + Archive<Archived = V>,
    ensures { YieldsFirst (shown_left KU.lent VU.lent) entries.old
        (option_map (both KU.shown VU.shown) result) entries.new }
{
    KU::is_lent();
    VU::is_lent();
    let (key, value) = entries.next()?;
    Some((
        KU::from_archived(key.buf, key.pos),
        VU::from_archived(value.buf, value.pos),
    ))
}

/// Takes the next entry of a map, as native values, if it is at hand.
#[inline(always)]
pub(crate) fn native_at_hand<'a, K, V, M, KU, VU>(entries: &mut Iter<'a, M>) -> Option<(KU, VU)>
where
    K: Portable,
    V: Portable,
    M: ArchivedMap<Key = K, Mapped = V>,
    KU: FromArchived<'a> + Archive<Archived = K>,
    VU: FromArchived<'a> + Archive<Archived = V>,
    ensures takes { IfSome result (λ e. (shown_left KU.lent VU.lent entries.old
        ≡ both KU.shown VU.shown e ∷ shown_left KU.lent VU.lent entries.new)
        × (at_hand entries.old ≡ 1 + at_hand entries.new)) }
    ensures none { IfNone result (at_hand entries.old ≡ 0) }
    ensures kept { IfNone result (shown_left KU.lent VU.lent entries.new
        ≡ shown_left KU.lent VU.lent entries.old) }
{
    KU::is_lent();
    VU::is_lent();
    let (key, value) = entries.next_at_hand()?;
    Some((
        KU::from_archived(key.buf, key.pos),
        VU::from_archived(value.buf, value.pos),
    ))
}

impl<'a, K, V, M, KU, VU> Entries<'a, M, KU, VU>
where
    K: ViewOrd,
    V: Portable,
    M: ArchivedMap<Key = K, Mapped = V> + StrictEntries,
    KU: FromArchived<'a> + Archive<Archived = K>,
    VU: FromArchived<'a> + Archive<Archived = V>,
{
    /// Returns the entries of a map.
    pub(crate) fn of(map: Strict<'a, M>) -> Entries<'a, M, KU, VU>
        ensures { entries_ahead KU.lent VU.lent KU.shown VU.shown result
            ≡ shown_of K.kind V.kind M.E KU.lent VU.lent map.entry.view }
    {
        KU::is_lent();
        VU::is_lent();
        let mut later = map.iter();
        Entries {
            next: next_native(&mut later),
            later,
        }
    }

    /// Takes the next entry.
    #[inline(always)]
    pub(crate) fn take(&mut self) -> Option<(KU, VU)>
        ensures { YieldsFirst (entries_ahead KU.lent VU.lent KU.shown VU.shown) self.old
            (option_map (both KU.shown VU.shown) result) self.new }
    {
        let entry = self.next?;
        self.next = next_native(&mut self.later);
        Some(entry)
    }
}
