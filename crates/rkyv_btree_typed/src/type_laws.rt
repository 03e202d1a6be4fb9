//! Laws of the names of types.
ghost use Rattle.std.specs.Prelude.{◌≡◌};
ghost use Rattle.rkyv_btree_typed.specs.TypeNames.{TypeTerm, IsNameable, name_of};

/// Two types of one name are the same type: no two types of the library have the same name, nor have two stated types of different
/// stated names.
pub fn names_are_apart()
    ensures { (s t : TypeTerm) → IsNameable s → IsNameable t → name_of s ≡ name_of t → s ≡ t }
{}
