//! Archived types that are deserialized to the native values that `ToNative` reads.
ghost use Rattle.std.specs.Prelude.{◌≡◌, IsTrue};
ghost use Rattle.std.specs.declared.cmp.Ordering.TheVariants.{Equal};

use rkyv_btree_portable::numbers::{ArchivedU16, ArchivedU32, ArchivedU64};
use rkyv_btree_portable::scalars::ArchivedChar;
use rkyv_btree_portable::signed::{ArchivedI16, ArchivedI32, ArchivedI64};
use rkyv_btree_view::native::ToNative;

/// A type whose values are deserialized as `ToNative` reads them. Implement it for a type of your own by an empty `impl`.
// `ToNative` alone can't say so, since a text might have it one day, as far as this crate knows.
pub trait DeserializeNative: ToNative {
    /// Returns whether any two native values that are equal by their order are the same. It may return `false` although they
    /// are.
    fn equal_values_are_same() -> bool
        ensures { IsTrue result → (x y : Self.Native) → Self.Native.cmp x y ≡ Equal → x ≡ y }
    {
        false
    }
}

impl DeserializeNative for u8 {
    fn equal_values_are_same() -> bool {
        true
    }
}

impl DeserializeNative for i8 {
    fn equal_values_are_same() -> bool {
        true
    }
}

impl DeserializeNative for bool {
    fn equal_values_are_same() -> bool {
        true
    }
}

impl DeserializeNative for () {
    fn equal_values_are_same() -> bool {
        true
    }
}

impl DeserializeNative for ArchivedU16 {
    fn equal_values_are_same() -> bool {
        true
    }
}

impl DeserializeNative for ArchivedI16 {
    fn equal_values_are_same() -> bool {
        true
    }
}

impl DeserializeNative for ArchivedU32 {
    fn equal_values_are_same() -> bool {
        true
    }
}

impl DeserializeNative for ArchivedI32 {
    fn equal_values_are_same() -> bool {
        true
    }
}

impl DeserializeNative for ArchivedU64 {
    fn equal_values_are_same() -> bool {
        true
    }
}

impl DeserializeNative for ArchivedI64 {
    fn equal_values_are_same() -> bool {
        true
    }
}

impl DeserializeNative for ArchivedChar {
    fn equal_values_are_same() -> bool {
        true
    }
}
