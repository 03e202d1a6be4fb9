//! Laws of lookups in bytes that nobody has validated. Each is an empty function: a call of it brings its clauses into scope.
ghost use Rattle.std.specs.Prelude.{IsTrue};
ghost use Rattle.rkyv_btree_format.specs.Layout.{are_fitting};
ghost use Rattle.rkyv_btree_unverified.specs.Lookups.{LookupsAreDetermined, FoundIsValid, MapsAreSearched};

use rkyv_btree_portable::check::CheckBytes;

/// States that a lookup returns one thing, whatever the bytes. If that is an entry, its key is valid and equal, and its value is valid.
pub fn lookups_are_determined<K: CheckBytes, V: CheckBytes, const E: usize>()
    requires { IsTrue (are_fitting K.kind V.kind E) }
    ensures one { LookupsAreDetermined K.kind V.kind E K.Refuses V.Refuses }
    ensures valid { FoundIsValid K.kind V.kind E K.Refuses V.Refuses }
{}

/// States that in an accepted map a lookup returns no error, and finds what a lookup in a view of the map finds.
pub fn maps_are_searched<K: CheckBytes, V: CheckBytes, const E: usize>()
    requires { IsTrue (are_fitting K.kind V.kind E) }
    ensures { MapsAreSearched K.kind V.kind E K.Refuses V.Refuses }
{}
