//! Numbers of 128 bits as keys and values that are made native.
ghost use Rattle.std.specs.Prelude.{◌≡◌, IsTrue};
ghost use Rattle.std.specs.declared.cmp.Ordering.TheVariants.{Equal};

use crate::deserialize_native::DeserializeNative;
use crate::entry_type::EntryType;
use rkyv_btree_compound::wide::{
    ArchivedI128, ArchivedNonZeroI128, ArchivedNonZeroU128, ArchivedU128,
};
use std::num::{NonZeroI128, NonZeroU128};

impl DeserializeNative for ArchivedU128 {
    fn equal_values_are_same() -> bool {
        true
    }
}

impl EntryType for ArchivedU128 {
    type Owned = u128;
}

impl DeserializeNative for ArchivedI128 {
    fn equal_values_are_same() -> bool {
        true
    }
}

impl EntryType for ArchivedI128 {
    type Owned = i128;
}

impl DeserializeNative for ArchivedNonZeroU128 {
    fn equal_values_are_same() -> bool {
        true
    }
}

impl EntryType for ArchivedNonZeroU128 {
    type Owned = NonZeroU128;
}

impl DeserializeNative for ArchivedNonZeroI128 {
    fn equal_values_are_same() -> bool {
        true
    }
}

impl EntryType for ArchivedNonZeroI128 {
    type Owned = NonZeroI128;
}
