//! Byte strings as text, in a style.
ghost use Rattle.std.specs.Cmp.Lexicographic.{slice_cmp};
ghost use Rattle.std.specs.Ordering.{nat_cmp};
ghost use Rattle.std.specs.Prelude.{◌≡◌, ℕ, List};
ghost use Rattle.btreekv_items.specs.Bytes.{AreBytes, bytes_text};
ghost use Rattle.btreekv_items.specs.laws.ByteStrings.{bytes_apart, bytes_same};
ghost use Rattle.rkyv_btree_portable.specs.ByteStrings.{bytes_kind};

use crate::byte_texts::{bytes_of, push_bytes};
use crate::item::{BytesStyle, Item};
use rkyv_btree_portable::byte_string::ArchivedBytes;
use rkyv_btree_view::view::View;
use std::alloc::{AllocError, Global};
use std::cmp::Ordering;

impl Item for ArchivedBytes {
    type Native = Vec<u8>;

    ghost Value = { List ℕ };

    ghost IsValue = { AreBytes };

    ghost spelling = { bytes_text };

    ghost order = { slice_cmp nat_cmp };

    ghost value_at = { bytes_kind.read };

    ghost native_value = { λ bytes. bytes.items };

    fn push_text(
        out: &mut String,
        style: BytesStyle,
        view: &View<'_, ArchivedBytes>,
    ) -> Result<(), AllocError> {
        push_bytes(out, style, view.as_bytes())
    }

    fn parse(alloc: Global, style: BytesStyle, text: &str) -> Result<Option<Vec<u8>>, AllocError> {
        bytes_of(alloc, style, text)
    }

    fn compare_native(native: &Vec<u8>, view: &View<'_, ArchivedBytes>) -> Ordering {
        native.as_slice().cmp(view.as_bytes())
    }

    ghost apart = { bytes_apart };

    ghost same_values = { bytes_same };
}
