//! Numbers of 128 bits, archived in their own bytes.
ghost use Rattle.std.specs.Prelude.{◌≡◌};
ghost use Rattle.rkyv_btree_compound.specs.Wide.{u128_kind, i128_kind, non_zero_u128_kind, non_zero_i128_kind};
ghost use Rattle.rkyv_btree_writer.specs.Archiving.{itself};

use crate::archive::Native;
use rkyv_btree_compound::wide::{
    ArchivedI128, ArchivedNonZeroI128, ArchivedNonZeroU128, ArchivedU128,
};
use std::num::{NonZeroI128, NonZeroU128};

impl Native for u128 {
    type Plain = ArchivedU128;

    fn is_in(self) {}

    ghost same_plain = { itself u128_kind };
}

impl Native for i128 {
    type Plain = ArchivedI128;

    fn is_in(self) {}

    ghost same_plain = { itself i128_kind };
}

impl Native for NonZeroU128 {
    type Plain = ArchivedNonZeroU128;

    fn is_in(self) {}

    ghost same_plain = { itself non_zero_u128_kind };
}

impl Native for NonZeroI128 {
    type Plain = ArchivedNonZeroI128;

    fn is_in(self) {}

    ghost same_plain = { itself non_zero_i128_kind };
}
