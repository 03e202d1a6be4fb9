//! What a write over one value makes of a map.
ghost use Rattle.std.specs.Prelude.{IsTrue};
ghost use Rattle.rkyv_btree_format.specs.Layout.{are_fitting};
ghost use Rattle.rkyv_btree_portable.specs.InPlace.{LiesAlone};
ghost use Rattle.rkyv_btree_seal.specs.Apart.{ValuesAreApart};
ghost use Rattle.rkyv_btree_seal.specs.Put.{WritesValues};

use rkyv_btree_portable::check::Portable;

/// Where values lie in their own bytes alone, each value of a map may be written over by other own bytes. The buffer
/// then has the map with that one value put in: keys and other values are as they were, and all entries have the
/// places that they had, so that further writes may follow.
pub fn writes_put_values<K: Portable, V: Portable, const E: usize>()
    requires { IsTrue (are_fitting K.kind V.kind E) }
    ensures { LiesAlone V.kind → WritesValues K.kind V.kind E }
{}

/// A value of a map shares no own byte with another value, with a key, or with the kind, the length or the pointers of
/// an entry's node.
pub fn values_are_apart<K: Portable, V: Portable, const E: usize>()
    requires { IsTrue (are_fitting K.kind V.kind E) }
    ensures { ValuesAreApart K.kind V.kind E }
{}
