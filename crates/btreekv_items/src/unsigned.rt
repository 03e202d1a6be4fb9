//! Numbers without a sign as text: in decimal, with no zeros before them and no plus sign.
ghost use Rattle.std.specs.Fmt.{decimal};
ghost use Rattle.std.specs.Ordering.{nat_cmp};
ghost use Rattle.std.specs.Prelude.{◌≡◌, ◌<◌, ◌^◌, ℕ};
ghost use Rattle.btreekv_items.specs.laws.Unsigned.{u8_apart, u8_same, u16_apart, u16_same, u32_apart, u32_same, u64_apart, u64_same};
ghost use Rattle.rkyv_btree_portable.specs.Scalars.{u8_kind, u16_kind, u32_kind, u64_kind};

use crate::decimals::{number_of, push_number};
use crate::item::{BytesStyle, Item};
use rkyv_btree_portable::numbers::{ArchivedU16, ArchivedU32, ArchivedU64};
use rkyv_btree_view::view::View;
use std::alloc::{AllocError, Global};
use std::cmp::Ordering;

impl Item for u8 {
    type Native = u8;

    ghost Value = { ℕ };

    ghost IsValue = { λ number. number < 2 ^ 8 };

    ghost spelling = { λ style number. decimal number };

    ghost order = { nat_cmp };

    ghost value_at = { u8_kind.read };

    ghost native_value = { λ number. number };

    fn push_text(
        out: &mut String,
        _style: BytesStyle,
        view: &View<'_, u8>,
    ) -> Result<(), AllocError> {
        push_number(out, view.to_native())
    }

    fn parse(_alloc: Global, _style: BytesStyle, text: &str) -> Result<Option<u8>, AllocError> {
        Ok(number_of::<u8>(text))
    }

    fn compare_native(native: &u8, view: &View<'_, u8>) -> Ordering {
        native.cmp(&view.to_native())
    }

    ghost apart = { u8_apart };

    ghost same_values = { u8_same };
}

impl Item for ArchivedU16 {
    type Native = u16;

    ghost Value = { ℕ };

    ghost IsValue = { λ number. number < 2 ^ 16 };

    ghost spelling = { λ style number. decimal number };

    ghost order = { nat_cmp };

    ghost value_at = { u16_kind.read };

    ghost native_value = { λ number. number };

    fn push_text(
        out: &mut String,
        _style: BytesStyle,
        view: &View<'_, ArchivedU16>,
    ) -> Result<(), AllocError> {
        push_number(out, view.to_native())
    }

    fn parse(_alloc: Global, _style: BytesStyle, text: &str) -> Result<Option<u16>, AllocError> {
        Ok(number_of::<u16>(text))
    }

    fn compare_native(native: &u16, view: &View<'_, ArchivedU16>) -> Ordering {
        native.cmp(&view.to_native())
    }

    ghost apart = { u16_apart };

    ghost same_values = { u16_same };
}

impl Item for ArchivedU32 {
    type Native = u32;

    ghost Value = { ℕ };

    ghost IsValue = { λ number. number < 2 ^ 32 };

    ghost spelling = { λ style number. decimal number };

    ghost order = { nat_cmp };

    ghost value_at = { u32_kind.read };

    ghost native_value = { λ number. number };

    fn push_text(
        out: &mut String,
        _style: BytesStyle,
        view: &View<'_, ArchivedU32>,
    ) -> Result<(), AllocError> {
        push_number(out, view.to_native())
    }

    fn parse(_alloc: Global, _style: BytesStyle, text: &str) -> Result<Option<u32>, AllocError> {
        Ok(number_of::<u32>(text))
    }

    fn compare_native(native: &u32, view: &View<'_, ArchivedU32>) -> Ordering {
        native.cmp(&view.to_native())
    }

    ghost apart = { u32_apart };

    ghost same_values = { u32_same };
}

impl Item for ArchivedU64 {
    type Native = u64;

    ghost Value = { ℕ };

    ghost IsValue = { λ number. number < 2 ^ 64 };

    ghost spelling = { λ style number. decimal number };

    ghost order = { nat_cmp };

    ghost value_at = { u64_kind.read };

    ghost native_value = { λ number. number };

    fn push_text(
        out: &mut String,
        _style: BytesStyle,
        view: &View<'_, ArchivedU64>,
    ) -> Result<(), AllocError> {
        push_number(out, view.to_native())
    }

    fn parse(_alloc: Global, _style: BytesStyle, text: &str) -> Result<Option<u64>, AllocError> {
        Ok(number_of::<u64>(text))
    }

    fn compare_native(native: &u64, view: &View<'_, ArchivedU64>) -> Ordering {
        native.cmp(&view.to_native())
    }

    ghost apart = { u64_apart };

    ghost same_values = { u64_same };
}
