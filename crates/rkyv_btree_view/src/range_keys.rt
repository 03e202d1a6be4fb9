//! Iterators over the keys of a range.
ghost use Rattle.std.specs.Prelude.{◌≡◌, map};
ghost use Rattle.rkyv_btree_view.specs.View.{view_value};

use crate::range::Range;
use crate::view::View;
use rkyv_btree_portable::check::Portable;
use rkyv_btree_walk::archived_map::ArchivedMap;
use std::iter::FusedIterator;

/// The keys of a range of a map, in order.
#[derive(Drop)]
pub struct RangeKeys<'a, M: ArchivedMap> {
    entries: Range<'a, M>,
}

impl<'a, M: ArchivedMap> RangeKeys<'a, M> {
    ghost use Rattle.rkyv_btree_view.specs.Keys.{range_keys_left};
    ghost use Rattle.rkyv_btree_view.specs.Range.{range_left};

    /// The keys of these entries.
    pub(crate) fn of(entries: Range<'a, M>) -> RangeKeys<'a, M>
        ensures { range_keys_left result ≡ map (λ e. e.0) (range_left entries.entry) }
    {
        RangeKeys { entries }
    }
}

impl<'a, K: Portable, V: Portable, M: ArchivedMap<Key = K, Mapped = V>> Iterator
    for RangeKeys<'a, M> {
    ghost use Rattle.std.specs.Iterator.{YieldsFirstBy, item_count, at_most, UpTo};
    ghost use Rattle.std.specs.Iterator.SizeHint.{IsWithinCount};
    ghost use Rattle.std.specs.Prelude.{IfSome, None, length};
    ghost use Rattle.rkyv_btree_view.specs.Keys.{range_keys_left};

    type Item = View<'a, K>;

    ghost next_gives = { YieldsFirstBy view_value range_keys_left };

    ghost remaining = { item_count range_keys_left };

    #[inline(always)]
    fn next(&mut self) -> Option<View<'a, K>> {
        match self.entries.next() {
            None => None,
            Some((key, _)) => Some(key),
        }
    }

    /// Returns `(0, None)`, because the keys that are left aren't counted.
    fn size_hint(&self) -> (usize, Option<usize>)
        ensures lower { IsWithinCount result.0 (at_most (length (range_keys_left self.now))) }
        ensures upper { IfSome result.1 (UpTo (at_most (length (range_keys_left self.now)))) }
        ensures zero { result.0 ≡ 0 }
        ensures unknown { result.1 ≡ None }
    {
        (0, None)
    }
}

impl<'a, K: Portable, V: Portable, M: ArchivedMap<Key = K, Mapped = V>> FusedIterator
    for RangeKeys<'a, M> {}
