//! Options as text: the text of the value, and the empty text for none.
ghost use Rattle.std.specs.Option.{option_cmp};
ghost use Rattle.std.specs.Prelude.{◌≡◌, Option, option_map};
ghost use Rattle.btreekv_items.specs.Optional.{IsNeverEmpty, IsOptional, optional_at, optional_text};
ghost use Rattle.btreekv_items.specs.laws.Optional.{optional_apart, optional_same};

use crate::item::{BytesStyle, Item};
use rkyv_btree_compound::option::ArchivedOption;
use rkyv_btree_compound::option_view::ViewOption;
use rkyv_btree_view::view::View;
use std::alloc::{AllocError, Global};
use std::cmp::Ordering;

/// An item whose text is never empty, so that an option of it can be the empty text.
pub trait NonEmpty: Item {
    ghost some: { IsNeverEmpty Self.Item.IsValue Self.Item.spelling };
}

impl<T: NonEmpty> Item for ArchivedOption<T> {
    type Native = Option<T::Native>;

    ghost Value = { Option T.Value };

    ghost IsValue = { IsOptional T.IsValue };

    ghost spelling = { optional_text T.spelling };

    ghost order = { option_cmp T.order };

    ghost value_at = { optional_at T.kind.align T.value_at };

    ghost native_value = { option_map T.native_value };

    fn push_text(
        out: &mut String,
        style: BytesStyle,
        view: &View<'_, ArchivedOption<T>>,
    ) -> Result<(), AllocError> {
        match view.as_option() {
            Some(value) => T::push_text(out, style, &value),
            None => Ok(()),
        }
    }

    fn parse(
        alloc: Global,
        style: BytesStyle,
        text: &str,
    ) -> Result<Option<Option<T::Native>>, AllocError> {
        if text.is_empty() {
            return Ok(Some(None));
        }
        match T::parse(alloc, style, text)? {
            Some(value) => Ok(Some(Some(value))),
            None => Ok(None),
        }
    }

    fn compare_native(native: &Option<T::Native>, view: &View<'_, ArchivedOption<T>>) -> Ordering {
        match view.as_option() {
            Some(value) => match native {
                Some(native) => T::compare_native(native, &value),
                None => Ordering::Less,
            },
            None => match native {
                Some(_) => Ordering::Greater,
                None => Ordering::Equal,
            },
        }
    }

    ghost apart = { optional_apart T.some T.apart };

    ghost same_values = { optional_same T.same_values };
}
