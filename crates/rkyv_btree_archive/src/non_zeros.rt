//! Numbers other than 0, archived in their own bytes.
ghost use Rattle.std.specs.Prelude.{◌≡◌};
ghost use Rattle.rkyv_btree_portable.specs.NonZeros.{non_zero_u8_kind, non_zero_u16_kind, non_zero_u64_kind, non_zero_i8_kind};
ghost use Rattle.rkyv_btree_portable.specs.NonZeros.{non_zero_i16_kind, non_zero_i32_kind, non_zero_i64_kind};
ghost use Rattle.rkyv_btree_writer.specs.Archiving.{itself};

use crate::archive::Native;
use rkyv_btree_portable::non_zeros::{
    ArchivedNonZeroI16, ArchivedNonZeroI32, ArchivedNonZeroI64, ArchivedNonZeroU16,
    ArchivedNonZeroU64,
};
use std::num::{NonZeroI8, NonZeroI16, NonZeroI32, NonZeroI64, NonZeroU8, NonZeroU16, NonZeroU64};

impl Native for NonZeroU8 {
    type Plain = NonZeroU8;

    fn is_in(self) {}

    ghost same_plain = { itself non_zero_u8_kind };
}

impl Native for NonZeroU16 {
    type Plain = ArchivedNonZeroU16;

    fn is_in(self) {}

    ghost same_plain = { itself non_zero_u16_kind };
}

impl Native for NonZeroU64 {
    type Plain = ArchivedNonZeroU64;

    fn is_in(self) {}

    ghost same_plain = { itself non_zero_u64_kind };
}

impl Native for NonZeroI8 {
    type Plain = NonZeroI8;

    fn is_in(self) {}

    ghost same_plain = { itself non_zero_i8_kind };
}

impl Native for NonZeroI16 {
    type Plain = ArchivedNonZeroI16;

    fn is_in(self) {}

    ghost same_plain = { itself non_zero_i16_kind };
}

impl Native for NonZeroI32 {
    type Plain = ArchivedNonZeroI32;

    fn is_in(self) {}

    ghost same_plain = { itself non_zero_i32_kind };
}

impl Native for NonZeroI64 {
    type Plain = ArchivedNonZeroI64;

    fn is_in(self) {}

    ghost same_plain = { itself non_zero_i64_kind };
}
