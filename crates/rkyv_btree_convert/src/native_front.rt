//! Native values of the first fields of archived tuples, from views of them.
ghost use Rattle.std.specs.Prelude.{◌≡◌, ℕ, List, Result, IfOk, IfErr, Ok};
ghost use Rattle.rkyv_btree_convert.specs.Deserializing.{IsRefused};
ghost use Rattle.rkyv_btree_convert.specs.laws.Tuples.{fields_decoded};
ghost use Rattle.rkyv_btree_writer.specs.declared.fault.EntryFault.{EntryFault};

use crate::deserialize::{Deserialize, DeserializeFault};
use rkyv_btree_compound::front::{First, Next, TupleFront};
use rkyv_btree_compound::front_view::{FrontView, fields_of};
use rkyv_btree_compound::tuple::ArchivedTuple;
use rkyv_btree_portable::check::Portable;
use rkyv_btree_view::view::View;
use std::alloc::Global;

/// The first fields of a tuple, which are deserialized to native ones: to a `T` for one field, and else to a pair of those before the
/// last and the last.
pub trait DeserializeFront<T: PartialEq>: TupleFront {
    /// The type of models of the native values.
    ghost Model: { Type 0 };

    /// The model of native values.
    ghost model: { T → Model };

    /// The result of deserializing the bytes at a position of a buffer.
    ghost decoded: { List ℕ → ℕ → Result Model EntryFault };

    /// Returns the native values of what the view reads, in memory of `alloc`.
    fn deserialize_front(alloc: Global, view: &FrontView<'_, Self>) -> Result<T, DeserializeFault>
        ensures ok { IfOk result (λ value. decoded view.now.buf.now view.now.pos
            ≡ Ok (model value)) }
        ensures refused { IfErr result (IsRefused (decoded view.now.buf.now view.now.pos)) };
}

/// Returns the native values of a tuple's fields before the last, and of the last, which are made in turn.
pub fn deserialize_fields<
    S: PartialEq + Drop,
    T: PartialEq,
    P: DeserializeFront<S>,
    L: Deserialize<T>,
>(alloc: Global, view: &View<'_, ArchivedTuple<P, L>>) -> Result<(S, T), DeserializeFault>
    ensures ok { IfOk result (λ value.
        fields_decoded P.kind L.kind P.decoded L.decoded view.now.buf.now view.now.pos
        ≡ Ok (P.model value.0, L.model value.1)) }
    ensures refused { IfErr result (IsRefused
        (fields_decoded P.kind L.kind P.decoded L.decoded view.now.buf.now view.now.pos)) }
{
    let (front, last) = fields_of(*view);
    let front = P::deserialize_front(alloc, &front)?;
    let last = L::deserialize(alloc, &last)?;
    Ok((front, last))
}

impl<T: PartialEq, A: Deserialize<T>> DeserializeFront<T> for First<A> {
    ghost Model = { A.Model };

    ghost model = { A.model };

    ghost decoded = { A.decoded };

    fn deserialize_front(
        alloc: Global,
        view: &FrontView<'_, First<A>>,
    ) -> Result<T, DeserializeFault> {
        A::deserialize(alloc, &view.field())
    }
}

impl<S: PartialEq + Drop, T: PartialEq, P: DeserializeFront<S>, L: Deserialize<T>> DeserializeFront<
    (S, T),
> for Next<P, L> {
    ghost Model = { P.Model × L.Model };

    ghost model = { λ x. (P.model x.0, L.model x.1) };

    ghost decoded = { fields_decoded P.kind L.kind P.decoded L.decoded };

    fn deserialize_front(
        alloc: Global,
        view: &FrontView<'_, Next<P, L>>,
    ) -> Result<(S, T), DeserializeFault> {
        let (front, last) = view.split();
        let front = P::deserialize_front(alloc, &front)?;
        let last = L::deserialize(alloc, &last)?;
        Ok((front, last))
    }
}
