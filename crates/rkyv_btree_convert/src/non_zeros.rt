//! Numbers other than 0 as keys and values that are made native.
ghost use Rattle.std.specs.Prelude.{◌≡◌, IsTrue};
ghost use Rattle.std.specs.declared.cmp.Ordering.TheVariants.{Equal};

use crate::deserialize_native::DeserializeNative;
use crate::entry_type::EntryType;
use rkyv_btree_portable::non_zeros::{
    ArchivedNonZeroI16, ArchivedNonZeroI32, ArchivedNonZeroI64, ArchivedNonZeroU16,
    ArchivedNonZeroU64,
};
use std::num::{NonZeroI8, NonZeroI16, NonZeroI32, NonZeroI64, NonZeroU8, NonZeroU16, NonZeroU64};

impl DeserializeNative for NonZeroU8 {
    fn equal_values_are_same() -> bool {
        true
    }
}

impl EntryType for NonZeroU8 {
    type Owned = NonZeroU8;
}

impl DeserializeNative for ArchivedNonZeroU16 {
    fn equal_values_are_same() -> bool {
        true
    }
}

impl EntryType for ArchivedNonZeroU16 {
    type Owned = NonZeroU16;
}

impl DeserializeNative for ArchivedNonZeroU64 {
    fn equal_values_are_same() -> bool {
        true
    }
}

impl EntryType for ArchivedNonZeroU64 {
    type Owned = NonZeroU64;
}

impl DeserializeNative for NonZeroI8 {
    fn equal_values_are_same() -> bool {
        true
    }
}

impl EntryType for NonZeroI8 {
    type Owned = NonZeroI8;
}

impl DeserializeNative for ArchivedNonZeroI16 {
    fn equal_values_are_same() -> bool {
        true
    }
}

impl EntryType for ArchivedNonZeroI16 {
    type Owned = NonZeroI16;
}

impl DeserializeNative for ArchivedNonZeroI32 {
    fn equal_values_are_same() -> bool {
        true
    }
}

impl EntryType for ArchivedNonZeroI32 {
    type Owned = NonZeroI32;
}

impl DeserializeNative for ArchivedNonZeroI64 {
    fn equal_values_are_same() -> bool {
        true
    }
}

impl EntryType for ArchivedNonZeroI64 {
    type Owned = NonZeroI64;
}
