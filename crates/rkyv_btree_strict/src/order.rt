//! The order of a map's keys.
ghost use Rattle.std.specs.Prelude.{◌≡◌, ◌↔◌, IsTrue, MatchOption};
ghost use Rattle.std.specs.declared.cmp.Ordering.TheVariants.{Less};
ghost use Rattle.rkyv_btree_format.specs.Increasing.{Increasing, IsOutOfOrder};
ghost use Rattle.rkyv_btree_view.specs.View.{entries_of, view_value};

use rkyv_btree_portable::check::Portable;
use rkyv_btree_view::compare::ViewOrd;
use rkyv_btree_view::map_view::ShowsEntries;
use rkyv_btree_view::view::View;
use rkyv_btree_walk::archived_map::ArchivedMap;

/// Returns whether the first key is less than the second.
#[inline(always)]
fn is_less<K: ViewOrd>(first: &View<'_, K>, second: &View<'_, K>) -> bool
    ensures { IsTrue result ↔ (K.kind.order (view_value first.now) (view_value second.now) ≡ Less) }
{
    K::compare(first, second).is_lt()
}

/// Returns the index of the first entry whose key isn't greater than the key before it.
pub(crate) fn first_out_of_order<
    K: ViewOrd,
    V: Portable,
    M: ArchivedMap<Key = K, Mapped = V> + ShowsEntries,
>(map: View<'_, M>) -> Option<u64>
    ensures { let entries = entries_of K.kind V.kind M.E map.entry in
        MatchOption result (Increasing K.kind.order entries)
        (IsOutOfOrder K.kind.order entries) }
{
    // The length has 32 bits, so the index doesn't overflow.
    let _len = map.len();
    let mut entries = map.iter();
    let Some((first, _)) = entries.next() else {
        return None;
    };
    let mut last = first;
    let mut index: u64 = 1;
    while let Some((key, _)) = entries.next() {
        if !is_less(&last, &key) {
            return Some(index);
        }
        last = key;
        index += 1;
    }
    None
}
