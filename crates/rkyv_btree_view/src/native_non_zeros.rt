//! Numbers other than 0 as native values.
ghost use Rattle.std.specs.Prelude.{◌≡◌};
ghost use Rattle.rkyv_btree_portable.specs.NonZeros.{non_zero_u8_kind, non_zero_u16_kind, non_zero_u64_kind, non_zero_i8_kind};
ghost use Rattle.rkyv_btree_portable.specs.NonZeros.{non_zero_i16_kind, non_zero_i32_kind, non_zero_i64_kind};
ghost use Rattle.rkyv_btree_view.specs.Native.{as_itself};

use crate::native::{ToNative, num16, num64};
use crate::view::View;
use rkyv_btree_portable::bytes::num32;
use rkyv_btree_portable::non_zeros::{
    ArchivedNonZeroI16, ArchivedNonZeroI32, ArchivedNonZeroI64, ArchivedNonZeroU16,
    ArchivedNonZeroU64, non_zero_i8, non_zero_i16, non_zero_i32, non_zero_i64, non_zero_u8,
    non_zero_u16, non_zero_u64,
};
use std::num::{NonZeroI8, NonZeroI16, NonZeroI32, NonZeroI64, NonZeroU8, NonZeroU16, NonZeroU64};

impl ToNative for NonZeroU8 {
    type Native = NonZeroU8;

    ghost read_native = { non_zero_u8_kind.read };

    fn native(view: &View<'_, NonZeroU8>) -> NonZeroU8 {
        non_zero_u8(view.buf[view.pos as usize])
    }

    ghost read_as = { as_itself non_zero_u8_kind };
}

impl ToNative for ArchivedNonZeroU16 {
    type Native = NonZeroU16;

    ghost read_native = { non_zero_u16_kind.read };

    fn native(view: &View<'_, ArchivedNonZeroU16>) -> NonZeroU16 {
        non_zero_u16(num16(view.buf, view.pos))
    }

    ghost read_as = { as_itself non_zero_u16_kind };
}

impl ToNative for ArchivedNonZeroU64 {
    type Native = NonZeroU64;

    ghost read_native = { non_zero_u64_kind.read };

    fn native(view: &View<'_, ArchivedNonZeroU64>) -> NonZeroU64 {
        non_zero_u64(num64(view.buf, view.pos))
    }

    ghost read_as = { as_itself non_zero_u64_kind };
}

impl ToNative for NonZeroI8 {
    type Native = NonZeroI8;

    ghost read_native = { non_zero_i8_kind.read };

    fn native(view: &View<'_, NonZeroI8>) -> NonZeroI8 {
        non_zero_i8(view.buf[view.pos as usize].cast_signed())
    }

    ghost read_as = { as_itself non_zero_i8_kind };
}

impl ToNative for ArchivedNonZeroI16 {
    type Native = NonZeroI16;

    ghost read_native = { non_zero_i16_kind.read };

    fn native(view: &View<'_, ArchivedNonZeroI16>) -> NonZeroI16 {
        non_zero_i16(num16(view.buf, view.pos).cast_signed())
    }

    ghost read_as = { as_itself non_zero_i16_kind };
}

impl ToNative for ArchivedNonZeroI32 {
    type Native = NonZeroI32;

    ghost read_native = { non_zero_i32_kind.read };

    #[tactic(auto, unfolding(rkyv_btree_portable::specs::Bytes::number_at))]
    fn native(view: &View<'_, ArchivedNonZeroI32>) -> NonZeroI32 {
        non_zero_i32(num32(view.buf, view.pos).cast_signed())
    }

    ghost read_as = { as_itself non_zero_i32_kind };
}

impl ToNative for ArchivedNonZeroI64 {
    type Native = NonZeroI64;

    ghost read_native = { non_zero_i64_kind.read };

    fn native(view: &View<'_, ArchivedNonZeroI64>) -> NonZeroI64 {
        non_zero_i64(num64(view.buf, view.pos).cast_signed())
    }

    ghost read_as = { as_itself non_zero_i64_kind };
}
