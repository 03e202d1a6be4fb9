//! Entries whose keys begin with a text.
ghost use Rattle.std.specs.Iterator.{IsFinite};
ghost use Rattle.rkyv_btree_view.specs.Items.{ShowsAll};
ghost use Rattle.rkyv_btree_view.specs.Range.{range_left};
ghost use Rattle.rkyv_btree_view.specs.View.{entries_of, view_entry};
ghost use Rattle.rkyv_btree_portable.specs.Text.{text_kind};
ghost use Rattle.btreekv_commands.specs.Prefixes.{HasPrefix};

use crate::opening::Texts;
use rkyv_btree_portable::text::ArchivedText;
use rkyv_btree_strict::prefix::compare_prefix;
use rkyv_btree_view::range::Range;
use rkyv_btree_view::view::View;
use std::ops::Bound;

/// Returns an iterator over the entries whose keys begin with a text, in order. If the keys don't increase, its items are
/// some contiguous run of entries.
pub fn with_prefix<'a>(map: View<'a, Texts>, prefix: &str) -> Range<'a, Texts>
    ensures yields { ShowsAll ⟦<Range<'a, Texts> as Iterator>⟧.next_gives view_entry result
        (range_left result) }
    ensures ends { IsFinite (⟦<Range<'a, Texts> as Iterator>⟧.remaining result) }
    ensures has_prefix { HasPrefix prefix.now (entries_of text_kind text_kind 5 map.entry)
        (range_left result) }
{
    map.range_with(
        Bound::Included(&prefix),
        Bound::Included(&prefix),
        |prefix: &&str, key: View<ArchivedText>| compare_prefix(prefix, key.as_str()),
    )
}
