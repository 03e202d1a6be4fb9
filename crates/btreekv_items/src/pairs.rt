//! Pairs as text: both with a comma between.
ghost use Rattle.std.specs.Ordering.{ordering_then};
ghost use Rattle.std.specs.Prelude.{◌≡◌, ◌++◌, ◌∷◌, ℕ, IfSome, List, MatchOption};
ghost use Rattle.btreekv_items.specs.Pairs.{IsPairOf, IsWithoutComma, HasNoComma, pair_at, pair_text};
ghost use Rattle.btreekv_items.specs.laws.Pairs.{pair_apart, pair_same};
ghost use Rattle.rkyv_btree_portable.specs.Entry.{value_offset};

use crate::item::{BytesStyle, Item};
use rkyv_btree_portable::entry::Entry;
use rkyv_btree_view::view::View;
use std::alloc::{AllocError, Global};
use std::cmp::Ordering;

/// An item whose text has no comma, so that one can follow it in a pair or a triple.
pub trait CommaFree: Item {
    ghost no_comma: { IsWithoutComma Self.Item.IsValue Self.Item.spelling };
}

/// Returns the parts of a text before and after its first comma, or `None` if it has none.
pub(crate) fn at_comma(text: &str) -> Option<(&str, &str)>
    ensures parts { IfSome result (λ parts. text.now ≡ parts.0.now ++ 44 ∷ parts.1.now) }
    ensures first { (xs ys : List ℕ) → HasNoComma xs → text.now ≡ xs ++ 44 ∷ ys
        → MatchOption result ⊥ (λ parts. (parts.0.now ≡ xs) × (parts.1.now ≡ ys)) }
{
    text.split_once(',')
}

impl<A: CommaFree, B: Item> Item for Entry<A, B> {
    type Native = (A::Native, B::Native);

    ghost Value = { A.Value × B.Value };

    ghost IsValue = { IsPairOf A.IsValue B.IsValue };

    ghost spelling = { pair_text A.spelling B.spelling };

    ghost order = { λ x y. ordering_then (A.order x.0 y.0) (B.order x.1 y.1) };

    ghost value_at = { pair_at (value_offset A.kind B.kind) A.value_at B.value_at };

    ghost native_value = { λ pair. (A.native_value pair.0, B.native_value pair.1) };

    fn push_text(
        out: &mut String,
        style: BytesStyle,
        view: &View<'_, Entry<A, B>>,
    ) -> Result<(), AllocError> {
        A::push_text(out, style, &view.key())?;
        out.push_str(",")?;
        B::push_text(out, style, &view.value())
    }

    fn parse(
        alloc: Global,
        style: BytesStyle,
        text: &str,
    ) -> Result<Option<(A::Native, B::Native)>, AllocError> {
        let Some((first, second)) = at_comma(text) else {
            return Ok(None);
        };
        let Some(first) = A::parse(alloc, style, first)? else {
            return Ok(None);
        };
        let Some(second) = B::parse(alloc, style, second)? else {
            return Ok(None);
        };
        Ok(Some((first, second)))
    }

    fn compare_native(native: &(A::Native, B::Native), view: &View<'_, Entry<A, B>>) -> Ordering {
        match A::compare_native(&native.0, &view.key()) {
            Ordering::Equal => B::compare_native(&native.1, &view.value()),
            unequal => unequal,
        }
    }

    ghost apart = { pair_apart A.no_comma A.apart B.apart };

    ghost same_values = { pair_same A.same_values B.same_values };
}
