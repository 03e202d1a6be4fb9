//! Numbers with a sign as text: in decimal, with a minus sign if they are negative.
ghost use Rattle.std.specs.Fmt.{signed_decimal};
ghost use Rattle.std.specs.Int.{w8, w16, w32, w64};
ghost use Rattle.std.specs.Ordering.{int_cmp};
ghost use Rattle.std.specs.Prelude.{◌≡◌, ℤ, FitsSigned};
ghost use Rattle.btreekv_items.specs.laws.Signed.{i8_apart, i8_same, i16_apart, i16_same, i32_apart, i32_same, i64_apart, i64_same};
ghost use Rattle.rkyv_btree_portable.specs.Scalars.{i8_kind, i16_kind, i32_kind, i64_kind};

use crate::decimals::{number_of, push_number};
use crate::item::{BytesStyle, Item};
use rkyv_btree_portable::signed::{ArchivedI16, ArchivedI32, ArchivedI64};
use rkyv_btree_view::view::View;
use std::alloc::{AllocError, Global};
use std::cmp::Ordering;

impl Item for i8 {
    type Native = i8;

    ghost Value = { ℤ };

    ghost IsValue = { FitsSigned w8 };

    ghost spelling = { λ style number. signed_decimal number };

    ghost order = { int_cmp };

    ghost value_at = { i8_kind.read };

    ghost native_value = { λ number. number };

    fn push_text(
        out: &mut String,
        _style: BytesStyle,
        view: &View<'_, i8>,
    ) -> Result<(), AllocError> {
        push_number(out, view.to_native())
    }

    fn parse(_alloc: Global, _style: BytesStyle, text: &str) -> Result<Option<i8>, AllocError> {
        Ok(number_of::<i8>(text))
    }

    fn compare_native(native: &i8, view: &View<'_, i8>) -> Ordering {
        native.cmp(&view.to_native())
    }

    ghost apart = { i8_apart };

    ghost same_values = { i8_same };
}

impl Item for ArchivedI16 {
    type Native = i16;

    ghost Value = { ℤ };

    ghost IsValue = { FitsSigned w16 };

    ghost spelling = { λ style number. signed_decimal number };

    ghost order = { int_cmp };

    ghost value_at = { i16_kind.read };

    ghost native_value = { λ number. number };

    fn push_text(
        out: &mut String,
        _style: BytesStyle,
        view: &View<'_, ArchivedI16>,
    ) -> Result<(), AllocError> {
        push_number(out, view.to_native())
    }

    fn parse(_alloc: Global, _style: BytesStyle, text: &str) -> Result<Option<i16>, AllocError> {
        Ok(number_of::<i16>(text))
    }

    fn compare_native(native: &i16, view: &View<'_, ArchivedI16>) -> Ordering {
        native.cmp(&view.to_native())
    }

    ghost apart = { i16_apart };

    ghost same_values = { i16_same };
}

impl Item for ArchivedI32 {
    type Native = i32;

    ghost Value = { ℤ };

    ghost IsValue = { FitsSigned w32 };

    ghost spelling = { λ style number. signed_decimal number };

    ghost order = { int_cmp };

    ghost value_at = { i32_kind.read };

    ghost native_value = { λ number. number };

    fn push_text(
        out: &mut String,
        _style: BytesStyle,
        view: &View<'_, ArchivedI32>,
    ) -> Result<(), AllocError> {
        push_number(out, view.to_native())
    }

    fn parse(_alloc: Global, _style: BytesStyle, text: &str) -> Result<Option<i32>, AllocError> {
        Ok(number_of::<i32>(text))
    }

    fn compare_native(native: &i32, view: &View<'_, ArchivedI32>) -> Ordering {
        native.cmp(&view.to_native())
    }

    ghost apart = { i32_apart };

    ghost same_values = { i32_same };
}

impl Item for ArchivedI64 {
    type Native = i64;

    ghost Value = { ℤ };

    ghost IsValue = { FitsSigned w64 };

    ghost spelling = { λ style number. signed_decimal number };

    ghost order = { int_cmp };

    ghost value_at = { i64_kind.read };

    ghost native_value = { λ number. number };

    fn push_text(
        out: &mut String,
        _style: BytesStyle,
        view: &View<'_, ArchivedI64>,
    ) -> Result<(), AllocError> {
        push_number(out, view.to_native())
    }

    fn parse(_alloc: Global, _style: BytesStyle, text: &str) -> Result<Option<i64>, AllocError> {
        Ok(number_of::<i64>(text))
    }

    fn compare_native(native: &i64, view: &View<'_, ArchivedI64>) -> Ordering {
        native.cmp(&view.to_native())
    }

    ghost apart = { i64_apart };

    ghost same_values = { i64_same };
}
