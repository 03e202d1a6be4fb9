//! Triples as text: all three with commas between.
ghost use Rattle.std.specs.Ordering.{ordering_then};
ghost use Rattle.btreekv_items.specs.Triples.{IsTripleOf, triple_at, triple_text};
ghost use Rattle.btreekv_items.specs.laws.Triples.{triple_apart, triple_same};
ghost use Rattle.rkyv_btree_compound.specs.Tuples.{third_offset};
ghost use Rattle.rkyv_btree_portable.specs.Entry.{value_offset};

use crate::item::{BytesStyle, Item};
use crate::pairs::{CommaFree, at_comma};
use rkyv_btree_compound::tuple::ArchivedTuple3;
use rkyv_btree_compound::tuple_view::ViewTuple3;
use rkyv_btree_view::view::View;
use std::alloc::{AllocError, Global};
use std::cmp::Ordering;

impl<A: CommaFree, B: CommaFree, C: Item> Item for ArchivedTuple3<A, B, C> {
    type Native = (A::Native, B::Native, C::Native);

    ghost Value = { (A.Value × B.Value) × C.Value };

    ghost IsValue = { IsTripleOf A.IsValue B.IsValue C.IsValue };

    ghost spelling = { triple_text A.spelling B.spelling C.spelling };

    ghost order = { λ x y. ordering_then (ordering_then (A.order x.0.0 y.0.0) (B.order x.0.1 y.0.1)) (C.order x.1 y.1) };

    ghost value_at = { triple_at (value_offset A.kind B.kind) (third_offset A.kind B.kind C.kind) A.value_at B.value_at C.value_at };

    ghost native_value = { λ triple. ((A.native_value triple.0, B.native_value triple.1), C.native_value triple.2) };

    fn push_text(
        out: &mut String,
        style: BytesStyle,
        view: &View<'_, ArchivedTuple3<A, B, C>>,
    ) -> Result<(), AllocError> {
        let (first, second, third) = view.as_tuple();
        A::push_text(out, style, &first)?;
        out.push_str(",")?;
        B::push_text(out, style, &second)?;
        out.push_str(",")?;
        C::push_text(out, style, &third)
    }

    fn parse(
        alloc: Global,
        style: BytesStyle,
        text: &str,
    ) -> Result<Option<(A::Native, B::Native, C::Native)>, AllocError> {
        let Some((first, rest)) = at_comma(text) else {
            return Ok(None);
        };
        let Some((second, third)) = at_comma(rest) else {
            return Ok(None);
        };
        let Some(first) = A::parse(alloc, style, first)? else {
            return Ok(None);
        };
        let Some(second) = B::parse(alloc, style, second)? else {
            return Ok(None);
        };
        let Some(third) = C::parse(alloc, style, third)? else {
            return Ok(None);
        };
        Ok(Some((first, second, third)))
    }

    fn compare_native(
        native: &(A::Native, B::Native, C::Native),
        view: &View<'_, ArchivedTuple3<A, B, C>>,
    ) -> Ordering {
        let (first, second, third) = view.as_tuple();
        match A::compare_native(&native.0, &first) {
            Ordering::Equal => match B::compare_native(&native.1, &second) {
                Ordering::Equal => C::compare_native(&native.2, &third),
                unequal => unequal,
            },
            unequal => unequal,
        }
    }

    ghost apart = { triple_apart A.no_comma B.no_comma A.apart B.apart C.apart };

    ghost same_values = { triple_same A.same_values B.same_values C.same_values };
}
