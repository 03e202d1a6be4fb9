//! Numbers of 128 bits as text.
ghost use Rattle.std.specs.Fmt.{decimal, signed_decimal};
ghost use Rattle.std.specs.Int.{w128};
ghost use Rattle.std.specs.Ordering.{int_cmp, nat_cmp};
ghost use Rattle.std.specs.Prelude.{◌≡◌, ◌<◌, ◌^◌, ℕ, ℤ, FitsSigned};
ghost use Rattle.btreekv_items.specs.laws.Signed.{i128_apart, i128_same};
ghost use Rattle.btreekv_items.specs.laws.Unsigned.{u128_apart, u128_same};
ghost use Rattle.rkyv_btree_compound.specs.Wide.{i128_kind, u128_kind};

use crate::decimals::{number_of, push_number};
use crate::item::{BytesStyle, Item};
use rkyv_btree_compound::wide::{ArchivedI128, ArchivedU128};
use rkyv_btree_view::view::View;
use std::alloc::{AllocError, Global};
use std::cmp::Ordering;

impl Item for ArchivedU128 {
    type Native = u128;

    ghost Value = { ℕ };

    ghost IsValue = { λ number. number < 2 ^ 128 };

    ghost spelling = { λ style number. decimal number };

    ghost order = { nat_cmp };

    ghost value_at = { u128_kind.read };

    ghost native_value = { λ number. number };

    fn push_text(
        out: &mut String,
        _style: BytesStyle,
        view: &View<'_, ArchivedU128>,
    ) -> Result<(), AllocError> {
        push_number(out, view.to_native())
    }

    fn parse(_alloc: Global, _style: BytesStyle, text: &str) -> Result<Option<u128>, AllocError> {
        Ok(number_of::<u128>(text))
    }

    fn compare_native(native: &u128, view: &View<'_, ArchivedU128>) -> Ordering {
        native.cmp(&view.to_native())
    }

    ghost apart = { u128_apart };

    ghost same_values = { u128_same };
}

impl Item for ArchivedI128 {
    type Native = i128;

    ghost Value = { ℤ };

    ghost IsValue = { FitsSigned w128 };

    ghost spelling = { λ style number. signed_decimal number };

    ghost order = { int_cmp };

    ghost value_at = { i128_kind.read };

    ghost native_value = { λ number. number };

    fn push_text(
        out: &mut String,
        _style: BytesStyle,
        view: &View<'_, ArchivedI128>,
    ) -> Result<(), AllocError> {
        push_number(out, view.to_native())
    }

    fn parse(_alloc: Global, _style: BytesStyle, text: &str) -> Result<Option<i128>, AllocError> {
        Ok(number_of::<i128>(text))
    }

    fn compare_native(native: &i128, view: &View<'_, ArchivedI128>) -> Ordering {
        native.cmp(&view.to_native())
    }

    ghost apart = { i128_apart };

    ghost same_values = { i128_same };
}
