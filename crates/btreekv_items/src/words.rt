//! Truth values as `true` and `false`, and characters as themselves.
ghost use Rattle.std.specs.Char.{IsScalar, encode_utf8};
ghost use Rattle.std.specs.Ordering.{bool_cmp, nat_cmp};
ghost use Rattle.std.specs.Prelude.{◌≡◌, ℕ, Bool};
ghost use Rattle.btreekv_items.specs.Words.{bool_text};
ghost use Rattle.btreekv_items.specs.laws.Words.{bool_apart, bool_same, char_apart, char_same};
ghost use Rattle.rkyv_btree_portable.specs.Scalars.{bool_kind, char_kind};

use crate::item::{BytesStyle, Item};
use rkyv_btree_portable::scalars::ArchivedChar;
use rkyv_btree_view::view::View;
use std::alloc::{AllocError, Global};
use std::cmp::Ordering;

impl Item for bool {
    type Native = bool;

    ghost Value = { Bool };

    ghost IsValue = { λ value. Unit {0} };

    ghost spelling = { λ style value. bool_text value };

    ghost order = { bool_cmp };

    ghost value_at = { bool_kind.read };

    ghost native_value = { λ value. value };

    fn push_text(
        out: &mut String,
        _style: BytesStyle,
        view: &View<'_, bool>,
    ) -> Result<(), AllocError> {
        if view.to_native() {
            out.push_str("true")
        } else {
            out.push_str("false")
        }
    }

    fn parse(_alloc: Global, _style: BytesStyle, text: &str) -> Result<Option<bool>, AllocError> {
        match text.parse::<bool>() {
            Ok(value) => Ok(Some(value)),
            Err(_) => Ok(None),
        }
    }

    fn compare_native(native: &bool, view: &View<'_, bool>) -> Ordering {
        native.cmp(&view.to_native())
    }

    ghost apart = { bool_apart };

    ghost same_values = { bool_same };
}

impl Item for ArchivedChar {
    type Native = char;

    ghost Value = { ℕ };

    ghost IsValue = { IsScalar };

    ghost spelling = { λ style character. encode_utf8 character };

    ghost order = { nat_cmp };

    ghost value_at = { char_kind.read };

    ghost native_value = { λ character. character };

    fn push_text(
        out: &mut String,
        _style: BytesStyle,
        view: &View<'_, ArchivedChar>,
    ) -> Result<(), AllocError> {
        out.push(view.to_native())
    }

    fn parse(_alloc: Global, _style: BytesStyle, text: &str) -> Result<Option<char>, AllocError> {
        match text.parse::<char>() {
            Ok(character) => Ok(Some(character)),
            Err(_) => Ok(None),
        }
    }

    fn compare_native(native: &char, view: &View<'_, ArchivedChar>) -> Ordering {
        native.cmp(&view.to_native())
    }

    ghost apart = { char_apart };

    ghost same_values = { char_same };
}
