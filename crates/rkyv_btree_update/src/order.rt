//! The order of the keys of changes.
ghost use Rattle.std.specs.Prelude.{MatchOption, map};
ghost use Rattle.rkyv_btree_format.specs.Increasing.{Increasing, IsOutOfOrder};
ghost use Rattle.rkyv_btree_update.specs.Updated.{changes_meant};

use crate::change::Change;
use crate::from_archived::FromArchived;

/// Returns the index of the first change whose key isn't greater than the key before it.
pub(crate) fn first_out_of_order<K: Ord, V>(changes: &[(K, Change<V>)]) -> Option<u64>
    ensures { MatchOption result (Increasing K.cmp changes.now)
        (IsOutOfOrder K.cmp changes.now) }
{
    // The number has 64 bits, so the index doesn't overflow.
    let _len = changes.len();
    let mut rest = changes.iter();
    let first = rest.next()?;
    let mut last = &first.0;
    let mut index: u64 = 1;
    while let Some(next) = rest.next() {
        if !last.cmp(&next.0).is_lt() {
            return Some(index);
        }
        last = &next.0;
        index += 1;
    }
    None
}

/// Returns the index of the first change out of order. Where there is none, what the keys show increases too.
pub(crate) fn first_disorder<'a, KU: FromArchived<'a>, VU: FromArchived<'a>>(
    changes: &[(KU, Change<VU>)],
) -> Option<u64>
    ensures { MatchOption result
        (Increasing KU.cmp changes.now
        × Increasing KU.order (changes_meant KU.shown VU.shown changes.now))
        (IsOutOfOrder KU.cmp changes.now) }
{
    KU::is_lent();
    first_out_of_order(changes)
}
