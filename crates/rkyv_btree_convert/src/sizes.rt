//! Maps whose nodes are known to fit, by the sizes of their types.
ghost use Rattle.std.specs.Prelude.{◌≤◌, IsTrue};
ghost use Rattle.rkyv_btree_format.specs.Layout.{are_fitting};
ghost use Rattle.rkyv_btree_convert.specs.Sizes.{IsSmall};

use rkyv_btree_walk::archived_map::ArchivedMap;

/// Ghost step, no code. From small keys and values it concludes that a node fits 32 bits, as every call over the map requires.
///
/// # Requires
///
/// Keys and values have at most 1048576 own bytes, and a node has at most 1000 entries.
pub fn sizes_fit<M: ArchivedMap>()
    requires keys { IsSmall M.Key.kind }
    requires values { IsSmall M.Mapped.kind }
    requires some { 1 ≤ M.E }
    requires few { M.E ≤ 1000 }
    ensures { IsTrue (are_fitting M.Key.kind M.Mapped.kind M.E) }
{}
