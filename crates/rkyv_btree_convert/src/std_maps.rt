//! What lookups in the archive of a std map find, and that it is the same as the map.
ghost use Rattle.rkyv_btree_convert.specs.StdMaps.{OrdersAlike, FindsAsStd, IsSameAsStd};

use rkyv_btree_portable::check::Portable;
use rkyv_btree_view::compare::ViewOrd;

/// If keys are ordered as what they mean, a lookup in the archive of a std map finds the value that the map itself has for
/// the key.
pub fn look_ups_find_as_std<T: Ord, U, K: ViewOrd, V: Portable, const E: usize>()
    ensures { (key : T → K.kind.Value) (value : U → V.kind.Value) →
        OrdersAlike T.cmp K.kind.order key → FindsAsStd K.kind V.kind E key value T.cmp }
{}

/// If keys and values are the same as what they mean, the archive of a std map is the same as the map.
pub fn archives_are_same_as_std<T, U, K: Portable, V: Portable, const E: usize>()
    ensures { (key : T → K.kind.Value) (value : U → V.kind.Value) →
        IsSameAsStd K.kind V.kind E key value }
{}
