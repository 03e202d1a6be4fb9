//! Native values that are keys of native maps.
ghost use Rattle.std.specs.Prelude.{◌≡◌, IsTrue};
ghost use Rattle.std.specs.Cmp.{IsTotalOrder, nat_cmp_total};
ghost use Rattle.std.specs.Cmp.Lexicographic.{nat_list_cmp_total};
ghost use Rattle.std.specs.declared.cmp.Ordering.TheVariants.{Equal};
ghost use Rattle.std.proofs.Common.{refl};

use crate::deserialize::Deserialize;
use crate::deserialize_native::DeserializeNative;
use rkyv_btree_portable::scalars::ArchivedNonZeroU32;
use rkyv_btree_portable::text::ArchivedText;
use std::num::NonZeroU32;

/// An archived type whose native values can be keys of native maps: they are ordered as their models are.
pub trait DeserializeKey<T: Ord>: Deserialize<T> {
    /// Returns whether any two keys that are equal by their order have the same model. It may return `false` although they
    /// have.
    fn equal_keys_are_same() -> bool
        ensures { IsTrue result → (x y : Self.Model) → Self.model_order x y ≡ Equal → x ≡ y }
    {
        false
    }

    ghost ordered_as_model: { (x y : T)
        → T.cmp x y ≡ Self.model_order (Self.model x) (Self.model y) };

    ghost total: { IsTotalOrder Self.model_order };
}

impl<T: DeserializeNative> DeserializeKey<T::Native> for T {
    fn equal_keys_are_same() -> bool {
        T::equal_values_are_same()
    }

    ghost ordered_as_model = { λ x y. refl };

    ghost total = { T.Native.total };
}

impl DeserializeKey<NonZeroU32> for ArchivedNonZeroU32 {
    fn equal_keys_are_same() -> bool {
        true
    }

    ghost ordered_as_model = { λ x y. refl };

    ghost total = { nat_cmp_total };
}

impl DeserializeKey<String> for ArchivedText {
    fn equal_keys_are_same() -> bool {
        true
    }

    ghost ordered_as_model = { λ x y. refl };

    ghost total = { nat_list_cmp_total };
}
