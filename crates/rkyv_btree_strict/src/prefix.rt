//! Entries of strict maps whose keys begin with a text.
ghost use Rattle.std.specs.Prelude.{◌≡◌, filter};
ghost use Rattle.rkyv_btree_portable.specs.Text.{text_kind};
ghost use Rattle.rkyv_btree_strict.specs.Prefix.{begins_with, prefix_cmp};
ghost use Rattle.rkyv_btree_view.specs.Range.{range_left};
ghost use Rattle.rkyv_btree_view.specs.Ranges.{IsRange};
ghost use Rattle.rkyv_btree_view.specs.View.{entries_of, view_entry};

use crate::strict_map::{Strict, StrictEntries};
use rkyv_btree_portable::check::Portable;
use rkyv_btree_portable::text::ArchivedText;
use rkyv_btree_view::range::Range;
use rkyv_btree_view::view::View;
use rkyv_btree_walk::archived_map::ArchivedMap;
use std::cmp::Ordering;
use std::ops::Bound;

/// Compares a prefix with as many first bytes of a key.
pub fn compare_prefix(prefix: &str, key: &str) -> Ordering
    ensures { result ≡ prefix_cmp prefix.now key.now }
{
    let prefix = prefix.as_bytes();
    let key = key.as_bytes();
    if prefix.len() < key.len() {
        prefix.cmp(&key[..prefix.len()])
    } else {
        prefix.cmp(key)
    }
}

impl<'a, V: Portable, M: ArchivedMap<Key = ArchivedText, Mapped = V> + StrictEntries> Strict<
    'a,
    M,
> {
    /// Returns an iterator over the entries whose keys begin with `prefix`, in the order of their keys.
    pub fn with_prefix(self, prefix: &str) -> Range<'a, M>
        ensures range { IsRange ⟦<Range<'a, M> as Iterator>⟧ view_entry result (range_left result)
            (entries_of text_kind V.kind M.E self.entry.view) }
        ensures within { range_left result
            ≡ filter (begins_with prefix.now) (entries_of text_kind V.kind M.E self.entry.view) }
    {
        self.view.range_with(
            Bound::Included(&prefix),
            Bound::Included(&prefix),
            |prefix: &&str, key: View<ArchivedText>| compare_prefix(prefix, key.as_str()),
        )
    }
}
