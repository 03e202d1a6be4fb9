//! The value of no bytes, which the entries of a set have, as the empty text.
ghost use Rattle.std.specs.Prelude.{◌≡◌, []};
ghost use Rattle.std.specs.declared.cmp.Ordering.TheVariants.{Equal};
ghost use Rattle.btreekv_items.specs.laws.Units.{unit_apart, unit_same};
ghost use Rattle.rkyv_btree_portable.specs.Scalars.{unit_kind};

use crate::item::{BytesStyle, Item};
use rkyv_btree_view::view::View;
use std::alloc::{AllocError, Global};
use std::cmp::Ordering;

impl Item for () {
    type Native = ();

    ghost Value = { Unit {0} };

    ghost IsValue = { λ value. Unit {0} };

    ghost spelling = { λ style value. [] };

    ghost order = { λ x y. Equal };

    ghost value_at = { unit_kind.read };

    ghost native_value = { λ value. value };

    fn push_text(
        _out: &mut String,
        _style: BytesStyle,
        _view: &View<'_, ()>,
    ) -> Result<(), AllocError> {
        Ok(())
    }

    fn parse(_alloc: Global, _style: BytesStyle, text: &str) -> Result<Option<()>, AllocError> {
        if text.is_empty() {
            Ok(Some(()))
        } else {
            Ok(None)
        }
    }

    fn compare_native(_native: &(), _view: &View<'_, ()>) -> Ordering {
        Ordering::Equal
    }

    ghost apart = { unit_apart };

    ghost same_values = { unit_same };
}
