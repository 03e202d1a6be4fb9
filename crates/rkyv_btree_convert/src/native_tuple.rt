//! Native tuples from views of archived ones.
ghost use Rattle.rkyv_btree_compound.specs.Tuples.{front_kind, three_kind, four_kind, five_kind};
ghost use Rattle.rkyv_btree_convert.specs.laws.Pairs.{then_alike};
ghost use Rattle.rkyv_btree_convert.specs.laws.Tuples.{fields_decoded, fields_order, fields_total, fields_by_meaning, tuple_by_meaning, parts_model_whole};

use crate::deserialize::{Deserialize, DeserializeFault};
use crate::entry_type::EntryType;
use crate::native_front::{DeserializeFront, deserialize_fields};
use crate::native_key::DeserializeKey;
use rkyv_btree_compound::tuple::{ArchivedTuple3, ArchivedTuple4, ArchivedTuple5, ArchivedTuple6};
use rkyv_btree_view::view::View;
use std::alloc::Global;

impl<
    T: PartialEq + Drop,
    U: PartialEq + Drop,
    W: PartialEq,
    A: Deserialize<T>,
    B: Deserialize<U>,
    C: Deserialize<W>,
> Deserialize<(T, U, W)> for ArchivedTuple3<A, B, C> {
    ghost Model = { (A.Model × B.Model) × C.Model };

    ghost model = { λ x. ((A.model x.0, B.model x.1), C.model x.2) };

    ghost model_order = { fields_order (fields_order A.model_order B.model_order) C.model_order };

    ghost decoded = { fields_decoded (front_kind A.kind B.kind) C.kind (fields_decoded A.kind B.kind A.decoded B.decoded) C.decoded };

    /// The tuple of the native values of the fields, which are made in turn.
    fn deserialize(
        alloc: Global,
        view: &View<'_, ArchivedTuple3<A, B, C>>,
    ) -> Result<(T, U, W), DeserializeFault> {
        let ((first, second), third) = deserialize_fields(alloc, view)?;
        Ok((first, second, third))
    }

    ghost by_meaning = { tuple_by_meaning (fields_by_meaning A.by_meaning B.by_meaning) C.by_meaning };

    ghost model_whole = { parts_model_whole (λ x. ((x.0, x.1), x.2)) (parts_model_whole (λ x. x) A.model_whole B.model_whole) C.model_whole };
}

impl<
    T: Ord + Drop,
    U: Ord + Drop,
    W: Ord,
    A: DeserializeKey<T>,
    B: DeserializeKey<U>,
    C: DeserializeKey<W>,
> DeserializeKey<(T, U, W)> for ArchivedTuple3<A, B, C> {
    fn equal_keys_are_same() -> bool {
        A::equal_keys_are_same() && B::equal_keys_are_same() && C::equal_keys_are_same()
    }

    ghost ordered_as_model = { λ x y. then_alike (then_alike (A.ordered_as_model x.0 y.0)
        (B.ordered_as_model x.1 y.1))
        (C.ordered_as_model x.2 y.2) };

    ghost total = { fields_total (fields_total A.total B.total) C.total };
}

impl<
    T: PartialEq + Drop,
    U: PartialEq + Drop,
    W: PartialEq + Drop,
    X: PartialEq,
    A: Deserialize<T>,
    B: Deserialize<U>,
    C: Deserialize<W>,
    D: Deserialize<X>,
> Deserialize<(T, U, W, X)> for ArchivedTuple4<A, B, C, D> {
    ghost Model = { ((A.Model × B.Model) × C.Model) × D.Model };

    ghost model = { λ x. (((A.model x.0, B.model x.1), C.model x.2), D.model x.3) };

    ghost model_order = { fields_order (fields_order (fields_order A.model_order B.model_order) C.model_order) D.model_order };

    ghost decoded = { fields_decoded (three_kind A.kind B.kind C.kind) D.kind (fields_decoded (front_kind A.kind B.kind) C.kind (fields_decoded A.kind B.kind A.decoded B.decoded) C.decoded) D.decoded };

    /// The tuple of the native values of the fields, which are made in turn.
    fn deserialize(
        alloc: Global,
        view: &View<'_, ArchivedTuple4<A, B, C, D>>,
    ) -> Result<(T, U, W, X), DeserializeFault> {
        let (((first, second), third), fourth) = deserialize_fields(alloc, view)?;
        Ok((first, second, third, fourth))
    }

    ghost by_meaning = { tuple_by_meaning (fields_by_meaning (fields_by_meaning A.by_meaning B.by_meaning) C.by_meaning) D.by_meaning };

    ghost model_whole = { parts_model_whole (λ x. (((x.0, x.1), x.2), x.3)) (parts_model_whole (λ x. x) (parts_model_whole (λ x. x) A.model_whole B.model_whole) C.model_whole) D.model_whole };
}

impl<
    T: Ord + Drop,
    U: Ord + Drop,
    W: Ord + Drop,
    X: Ord,
    A: DeserializeKey<T>,
    B: DeserializeKey<U>,
    C: DeserializeKey<W>,
    D: DeserializeKey<X>,
> DeserializeKey<(T, U, W, X)> for ArchivedTuple4<A, B, C, D> {
    fn equal_keys_are_same() -> bool {
        let first_three = A::equal_keys_are_same()
            && B::equal_keys_are_same()
            && C::equal_keys_are_same();
        first_three && D::equal_keys_are_same()
    }

    ghost ordered_as_model = { λ x y. then_alike (then_alike (then_alike (A.ordered_as_model x.0 y.0)
        (B.ordered_as_model x.1 y.1))
        (C.ordered_as_model x.2 y.2))
        (D.ordered_as_model x.3 y.3) };

    ghost total = { fields_total (fields_total (fields_total A.total B.total) C.total) D.total };
}

impl<
    T: PartialEq + Drop,
    U: PartialEq + Drop,
    W: PartialEq + Drop,
    X: PartialEq + Drop,
    Y: PartialEq,
    A: Deserialize<T>,
    B: Deserialize<U>,
    C: Deserialize<W>,
    D: Deserialize<X>,
    E: Deserialize<Y>,
> Deserialize<(T, U, W, X, Y)> for ArchivedTuple5<A, B, C, D, E> {
    ghost Model = { (((A.Model × B.Model) × C.Model) × D.Model) × E.Model };

    ghost model = { λ x. ((((A.model x.0, B.model x.1), C.model x.2), D.model x.3), E.model x.4) };

    ghost model_order = { fields_order (fields_order (fields_order (fields_order A.model_order B.model_order) C.model_order) D.model_order) E.model_order };

    ghost decoded = { fields_decoded (four_kind A.kind B.kind C.kind D.kind) E.kind (fields_decoded (three_kind A.kind B.kind C.kind) D.kind (fields_decoded (front_kind A.kind B.kind) C.kind (fields_decoded A.kind B.kind A.decoded B.decoded) C.decoded) D.decoded) E.decoded };

    /// The tuple of the native values of the fields, which are made in turn.
    fn deserialize(
        alloc: Global,
        view: &View<'_, ArchivedTuple5<A, B, C, D, E>>,
    ) -> Result<(T, U, W, X, Y), DeserializeFault> {
        let ((((first, second), third), fourth), fifth) = deserialize_fields(alloc, view)?;
        Ok((first, second, third, fourth, fifth))
    }

    ghost by_meaning = { tuple_by_meaning (fields_by_meaning (fields_by_meaning (fields_by_meaning A.by_meaning B.by_meaning) C.by_meaning) D.by_meaning) E.by_meaning };

    ghost model_whole = { parts_model_whole (λ x. ((((x.0, x.1), x.2), x.3), x.4)) (parts_model_whole (λ x. x) (parts_model_whole (λ x. x) (parts_model_whole (λ x. x) A.model_whole B.model_whole) C.model_whole) D.model_whole) E.model_whole };
}

impl<
    T: Ord + Drop,
    U: Ord + Drop,
    W: Ord + Drop,
    X: Ord + Drop,
    Y: Ord,
    A: DeserializeKey<T>,
    B: DeserializeKey<U>,
    C: DeserializeKey<W>,
    D: DeserializeKey<X>,
    E: DeserializeKey<Y>,
> DeserializeKey<(T, U, W, X, Y)> for ArchivedTuple5<A, B, C, D, E> {
    fn equal_keys_are_same() -> bool {
        let first_four = A::equal_keys_are_same()
            && B::equal_keys_are_same()
            && C::equal_keys_are_same()
            && D::equal_keys_are_same();
        first_four && E::equal_keys_are_same()
    }

    ghost ordered_as_model = { λ x y. then_alike (then_alike (then_alike (then_alike (A.ordered_as_model x.0 y.0)
        (B.ordered_as_model x.1 y.1))
        (C.ordered_as_model x.2 y.2))
        (D.ordered_as_model x.3 y.3))
        (E.ordered_as_model x.4 y.4) };

    ghost total = { fields_total (fields_total (fields_total (fields_total A.total B.total) C.total) D.total) E.total };
}

impl<
    T: PartialEq + Drop,
    U: PartialEq + Drop,
    W: PartialEq + Drop,
    X: PartialEq + Drop,
    Y: PartialEq + Drop,
    Z: PartialEq,
    A: Deserialize<T>,
    B: Deserialize<U>,
    C: Deserialize<W>,
    D: Deserialize<X>,
    E: Deserialize<Y>,
    F: Deserialize<Z>,
> Deserialize<(T, U, W, X, Y, Z)> for ArchivedTuple6<A, B, C, D, E, F> {
    ghost Model = { ((((A.Model × B.Model) × C.Model) × D.Model) × E.Model) × F.Model };

    ghost model = { λ x. (((((A.model x.0, B.model x.1), C.model x.2), D.model x.3), E.model x.4), F.model x.5) };

    ghost model_order = { fields_order (fields_order (fields_order (fields_order (fields_order A.model_order B.model_order) C.model_order) D.model_order) E.model_order) F.model_order };

    ghost decoded = { fields_decoded (five_kind A.kind B.kind C.kind D.kind E.kind) F.kind (fields_decoded (four_kind A.kind B.kind C.kind D.kind) E.kind (fields_decoded (three_kind A.kind B.kind C.kind) D.kind (fields_decoded (front_kind A.kind B.kind) C.kind (fields_decoded A.kind B.kind A.decoded B.decoded) C.decoded) D.decoded) E.decoded) F.decoded };

    /// The tuple of the native values of the fields, which are made in turn.
    fn deserialize(
        alloc: Global,
        view: &View<'_, ArchivedTuple6<A, B, C, D, E, F>>,
    ) -> Result<(T, U, W, X, Y, Z), DeserializeFault> {
        let (((((first, second), third), fourth), fifth), sixth) = deserialize_fields(alloc, view)?;
        Ok((first, second, third, fourth, fifth, sixth))
    }

    ghost by_meaning = { tuple_by_meaning (fields_by_meaning (fields_by_meaning (fields_by_meaning (fields_by_meaning A.by_meaning B.by_meaning) C.by_meaning) D.by_meaning) E.by_meaning) F.by_meaning };

    ghost model_whole = { parts_model_whole (λ x. (((((x.0, x.1), x.2), x.3), x.4), x.5)) (parts_model_whole (λ x. x) (parts_model_whole (λ x. x) (parts_model_whole (λ x. x) (parts_model_whole (λ x. x) A.model_whole B.model_whole) C.model_whole) D.model_whole) E.model_whole) F.model_whole };
}

impl<
    T: Ord + Drop,
    U: Ord + Drop,
    W: Ord + Drop,
    X: Ord + Drop,
    Y: Ord + Drop,
    Z: Ord,
    A: DeserializeKey<T>,
    B: DeserializeKey<U>,
    C: DeserializeKey<W>,
    D: DeserializeKey<X>,
    E: DeserializeKey<Y>,
    F: DeserializeKey<Z>,
> DeserializeKey<(T, U, W, X, Y, Z)> for ArchivedTuple6<A, B, C, D, E, F> {
    fn equal_keys_are_same() -> bool {
        let first_five = A::equal_keys_are_same()
            && B::equal_keys_are_same()
            && C::equal_keys_are_same()
            && D::equal_keys_are_same()
            && E::equal_keys_are_same();
        first_five && F::equal_keys_are_same()
    }

    ghost ordered_as_model = { λ x y. then_alike (then_alike (then_alike (then_alike (then_alike (A.ordered_as_model x.0 y.0)
        (B.ordered_as_model x.1 y.1))
        (C.ordered_as_model x.2 y.2))
        (D.ordered_as_model x.3 y.3))
        (E.ordered_as_model x.4 y.4))
        (F.ordered_as_model x.5 y.5) };

    ghost total = { fields_total (fields_total (fields_total (fields_total (fields_total A.total B.total) C.total) D.total) E.total) F.total };
}

impl<A: EntryType, B: EntryType, C: EntryType> EntryType for ArchivedTuple3<A, B, C> {
    type Owned = (A::Owned, B::Owned, C::Owned);
}

impl<A: EntryType, B: EntryType, C: EntryType, D: EntryType> EntryType
    for ArchivedTuple4<A, B, C, D> {
    type Owned = (A::Owned, B::Owned, C::Owned, D::Owned);
}

impl<A: EntryType, B: EntryType, C: EntryType, D: EntryType, E: EntryType> EntryType
    for ArchivedTuple5<A, B, C, D, E> {
    type Owned = (A::Owned, B::Owned, C::Owned, D::Owned, E::Owned);
}

impl<A: EntryType, B: EntryType, C: EntryType, D: EntryType, E: EntryType, F: EntryType> EntryType
    for ArchivedTuple6<A, B, C, D, E, F> {
    type Owned = (A::Owned, B::Owned, C::Owned, D::Owned, E::Owned, F::Owned);
}
