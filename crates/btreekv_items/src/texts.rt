//! Texts as themselves.
ghost use Rattle.std.specs.Cmp.Lexicographic.{slice_cmp};
ghost use Rattle.std.specs.Ordering.{nat_cmp};
ghost use Rattle.std.specs.Prelude.{◌≡◌, ℕ, IsUtf8, List, string_bytes};
ghost use Rattle.btreekv_items.specs.laws.Texts.{text_apart, text_same};
ghost use Rattle.rkyv_btree_portable.specs.Text.{text_kind};

use crate::item::{BytesStyle, Item};
use rkyv_btree_portable::text::ArchivedText;
use rkyv_btree_view::view::View;
use std::alloc::{AllocError, Global};
use std::cmp::Ordering;

impl Item for ArchivedText {
    type Native = String;

    ghost Value = { List ℕ };

    ghost IsValue = { IsUtf8 };

    ghost spelling = { λ style text. text };

    ghost order = { slice_cmp nat_cmp };

    ghost value_at = { text_kind.read };

    ghost native_value = { string_bytes };

    fn push_text(
        out: &mut String,
        _style: BytesStyle,
        view: &View<'_, ArchivedText>,
    ) -> Result<(), AllocError> {
        out.push_str(view.as_str())
    }

    fn parse(alloc: Global, _style: BytesStyle, text: &str) -> Result<Option<String>, AllocError> {
        let text = String::from_str(alloc, text)?;
        Ok(Some(text))
    }

    fn compare_native(native: &String, view: &View<'_, ArchivedText>) -> Ordering {
        native.as_str().cmp(view.as_str())
    }

    ghost apart = { text_apart };

    ghost same_values = { text_same };
}
