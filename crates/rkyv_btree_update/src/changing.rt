//! Changes, one after another: those of a list, or the entries of a map, each put.
ghost use Rattle.std.specs.Iterator.{YieldsFirst};
ghost use Rattle.std.specs.Option.{option_map};
ghost use Rattle.std.specs.Prelude.{◌≡◌, length};
ghost use Rattle.rkyv_btree_format.specs.Increasing.{Increasing};
ghost use Rattle.rkyv_btree_update.specs.Natives.{shown_of};
ghost use Rattle.rkyv_btree_update.specs.Updated.{all_put, key_change};
ghost use Rattle.rkyv_btree_update.specs.mirror.Merged.{changing_left};

use crate::change::Change;
use crate::entries::next_native;
use crate::from_archived::FromArchived;
use rkyv_btree_archive::archive::Archive;
use rkyv_btree_portable::check::Portable;
use rkyv_btree_strict::strict_map::{Strict, StrictEntries};
use rkyv_btree_view::compare::ViewOrd;
use rkyv_btree_view::iter::Iter;
use rkyv_btree_walk::archived_map::ArchivedMap;

/// Changes that are to come.
#[derive(Drop)]
pub(crate) enum Changing<'a, 'x, M: ArchivedMap, KU, VU> {
    /// Those of a list.
    Listed(&'x [(KU, Change<VU>)]),
    /// The entries of a map, each of which is put.
    Puts(Iter<'a, M>),
}

impl<'a, 'x, K, V, M, KU, VU> Changing<'a, 'x, M, KU, VU>
where
    K: Portable,
    V: Portable,
    M: ArchivedMap<Key = K, Mapped = V>,
    KU: FromArchived<'a> + Archive<Archived = K>,
    VU: FromArchived<'a> + Archive<Archived = V>,
{
    /// Takes the next key with its change.
    pub(crate) fn take(&mut self) -> Option<(KU, Change<VU>)>
        ensures { YieldsFirst (changing_left KU.lent VU.lent KU.shown VU.shown) self.old
            (option_map (key_change KU.shown VU.shown) result) self.new }
    {
        match self {
            Changing::Listed(changes) => {
                let (first, rest) = changes.split_first()?;
                *changes = rest;
                Some(*first)
            }
            Changing::Puts(entries) => {
                let (key, value) = next_native(entries)?;
                Some((key, Change::Put(value)))
            }
        }
    }
}

impl<'a, K, V, M, KU, VU> Changing<'a, 'a, M, KU, VU>
where
    K: ViewOrd,
    V: Portable,
    M: ArchivedMap<Key = K, Mapped = V> + StrictEntries,
    KU: FromArchived<'a> + Archive<Archived = K> + 'a,
    VU: FromArchived<'a> + Archive<Archived = V> + 'a,
{
    /// Returns the entries of a map, each put.
    pub(crate) fn puts(map: Strict<'a, M>) -> Changing<'a, 'a, M, KU, VU>
        ensures shown { changing_left KU.lent VU.lent KU.shown VU.shown result
            ≡ all_put (shown_of K.kind V.kind M.E KU.lent VU.lent map.entry.view) }
        ensures in_order { Increasing KU.order
            (changing_left KU.lent VU.lent KU.shown VU.shown result) }
    {
        KU::is_lent();
        VU::is_lent();
        Changing::Puts(map.iter())
    }
}
