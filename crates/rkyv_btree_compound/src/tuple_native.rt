//! Comparisons of views of tuples with native tuples, field by field.
ghost use Rattle.rkyv_btree_compound.specs.Joined.{joined_end};
ghost use Rattle.rkyv_btree_compound.specs.TupleNatives.{tuple3_compared_at, tuple4_compared_at, tuple5_compared_at, tuple6_compared_at};
ghost use Rattle.rkyv_btree_compound.specs.TupleNatives.{tuple3_same_at, tuple4_same_at, tuple5_same_at, tuple6_same_at};
ghost use Rattle.rkyv_btree_compound.specs.laws.TupleComparing.{fields_compare, tuple_compares, fields_test, tuple_tests};

use crate::tuple::{ArchivedTuple3, ArchivedTuple4, ArchivedTuple5, ArchivedTuple6};
use crate::tuple_view::{ViewTuple3, ViewTuple4, ViewTuple5, ViewTuple6};
use rkyv_btree_view::compare_native::{CompareWith, SameAs};
use rkyv_btree_view::view::View;
use std::cmp::Ordering;

impl<M, N, O, A: CompareWith<M>, B: CompareWith<N>, C: CompareWith<O>> CompareWith<(M, N, O)>
    for ArchivedTuple3<A, B, C> {
    ghost compared_at = { tuple3_compared_at A.kind B.kind C.kind A.compared_at B.compared_at C.compared_at };

    fn compare_with(native: &(M, N, O), view: &View<'_, ArchivedTuple3<A, B, C>>) -> Ordering {
        let (first, second, third) = view.as_tuple();
        let front = A::compare_with(&native.0, &first).then(B::compare_with(&native.1, &second));
        front.then(C::compare_with(&native.2, &third))
    }

    ghost compares = { tuple_compares (λ n. ((n.0, n.1), n.2))
        (fields_compare A.compares B.compares) C.compares };
}

impl<M, N, O, A: SameAs<M>, B: SameAs<N>, C: SameAs<O>> SameAs<(M, N, O)>
    for ArchivedTuple3<A, B, C> {
    ghost same_at = { tuple3_same_at A.kind B.kind C.kind A.same_at B.same_at C.same_at };

    fn same_as(view: &View<'_, ArchivedTuple3<A, B, C>>, native: &(M, N, O)) -> bool {
        let (first, second, third) = view.as_tuple();
        let front = A::same_as(&first, &native.0) && B::same_as(&second, &native.1);
        front && C::same_as(&third, &native.2)
    }

    ghost tests = { tuple_tests (λ n. ((n.0, n.1), n.2))
        (fields_test A.tests B.tests) C.tests };
}

impl<
    M,
    N,
    O,
    Q,
    A: CompareWith<M>,
    B: CompareWith<N>,
    C: CompareWith<O>,
    D: CompareWith<Q>,
> CompareWith<(M, N, O, Q)> for ArchivedTuple4<A, B, C, D> {
    ghost compared_at = { tuple4_compared_at A.kind B.kind C.kind A.compared_at B.compared_at C.compared_at D.kind D.compared_at };

    fn compare_with(
        native: &(M, N, O, Q),
        view: &View<'_, ArchivedTuple4<A, B, C, D>>,
    ) -> Ordering {
        let (first, second, third, fourth) = view.as_tuple();
        let front = A::compare_with(&native.0, &first)
            .then(B::compare_with(&native.1, &second))
            .then(C::compare_with(&native.2, &third));
        front.then(D::compare_with(&native.3, &fourth))
    }

    ghost compares = { tuple_compares (λ n. (((n.0, n.1), n.2), n.3))
        (fields_compare (fields_compare A.compares B.compares) C.compares) D.compares };
}

impl<M, N, O, Q, A: SameAs<M>, B: SameAs<N>, C: SameAs<O>, D: SameAs<Q>> SameAs<(M, N, O, Q)>
    for ArchivedTuple4<A, B, C, D> {
    ghost same_at = { tuple4_same_at A.kind B.kind C.kind A.same_at B.same_at C.same_at D.kind D.same_at };

    fn same_as(view: &View<'_, ArchivedTuple4<A, B, C, D>>, native: &(M, N, O, Q)) -> bool {
        let (first, second, third, fourth) = view.as_tuple();
        let front = A::same_as(&first, &native.0)
            && B::same_as(&second, &native.1)
            && C::same_as(&third, &native.2);
        front && D::same_as(&fourth, &native.3)
    }

    ghost tests = { tuple_tests (λ n. (((n.0, n.1), n.2), n.3))
        (fields_test (fields_test A.tests B.tests) C.tests) D.tests };
}

impl<
    M,
    N,
    O,
    Q,
    R,
    A: CompareWith<M>,
    B: CompareWith<N>,
    C: CompareWith<O>,
    D: CompareWith<Q>,
    E: CompareWith<R>,
> CompareWith<(M, N, O, Q, R)> for ArchivedTuple5<A, B, C, D, E> {
    ghost compared_at = { tuple5_compared_at A.kind B.kind C.kind A.compared_at B.compared_at C.compared_at D.kind D.compared_at E.kind E.compared_at };

    fn compare_with(
        native: &(M, N, O, Q, R),
        view: &View<'_, ArchivedTuple5<A, B, C, D, E>>,
    ) -> Ordering {
        let (first, second, third, fourth, fifth) = view.as_tuple();
        let front = A::compare_with(&native.0, &first)
            .then(B::compare_with(&native.1, &second))
            .then(C::compare_with(&native.2, &third))
            .then(D::compare_with(&native.3, &fourth));
        front.then(E::compare_with(&native.4, &fifth))
    }

    ghost compares = { tuple_compares (λ n. ((((n.0, n.1), n.2), n.3), n.4))
        (fields_compare (fields_compare (fields_compare A.compares B.compares) C.compares) D.compares) E.compares };
}

impl<M, N, O, Q, R, A: SameAs<M>, B: SameAs<N>, C: SameAs<O>, D: SameAs<Q>, E: SameAs<R>> SameAs<
    (M, N, O, Q, R),
> for ArchivedTuple5<A, B, C, D, E> {
    ghost same_at = { tuple5_same_at A.kind B.kind C.kind A.same_at B.same_at C.same_at D.kind D.same_at E.kind E.same_at };

    fn same_as(view: &View<'_, ArchivedTuple5<A, B, C, D, E>>, native: &(M, N, O, Q, R)) -> bool {
        let (first, second, third, fourth, fifth) = view.as_tuple();
        let front = A::same_as(&first, &native.0)
            && B::same_as(&second, &native.1)
            && C::same_as(&third, &native.2)
            && D::same_as(&fourth, &native.3);
        front && E::same_as(&fifth, &native.4)
    }

    ghost tests = { tuple_tests (λ n. ((((n.0, n.1), n.2), n.3), n.4))
        (fields_test (fields_test (fields_test A.tests B.tests) C.tests) D.tests) E.tests };
}

impl<
    M,
    N,
    O,
    Q,
    R,
    S,
    A: CompareWith<M>,
    B: CompareWith<N>,
    C: CompareWith<O>,
    D: CompareWith<Q>,
    E: CompareWith<R>,
    F: CompareWith<S>,
> CompareWith<(M, N, O, Q, R, S)> for ArchivedTuple6<A, B, C, D, E, F> {
    ghost compared_at = { tuple6_compared_at A.kind B.kind C.kind A.compared_at B.compared_at C.compared_at D.kind D.compared_at E.kind E.compared_at F.kind F.compared_at };

    fn compare_with(
        native: &(M, N, O, Q, R, S),
        view: &View<'_, ArchivedTuple6<A, B, C, D, E, F>>,
    ) -> Ordering {
        let (first, second, third, fourth, fifth, sixth) = view.as_tuple();
        let front = A::compare_with(&native.0, &first)
            .then(B::compare_with(&native.1, &second))
            .then(C::compare_with(&native.2, &third))
            .then(D::compare_with(&native.3, &fourth))
            .then(E::compare_with(&native.4, &fifth));
        front.then(F::compare_with(&native.5, &sixth))
    }

    ghost compares = { tuple_compares (λ n. (((((n.0, n.1), n.2), n.3), n.4), n.5))
        (fields_compare (fields_compare (fields_compare (fields_compare A.compares B.compares) C.compares) D.compares) E.compares) F.compares };
}

impl<
    M,
    N,
    O,
    Q,
    R,
    S,
    A: SameAs<M>,
    B: SameAs<N>,
    C: SameAs<O>,
    D: SameAs<Q>,
    E: SameAs<R>,
    F: SameAs<S>,
> SameAs<(M, N, O, Q, R, S)> for ArchivedTuple6<A, B, C, D, E, F> {
    ghost same_at = { tuple6_same_at A.kind B.kind C.kind A.same_at B.same_at C.same_at D.kind D.same_at E.kind E.same_at F.kind F.same_at };

    fn same_as(
        view: &View<'_, ArchivedTuple6<A, B, C, D, E, F>>,
        native: &(M, N, O, Q, R, S),
    ) -> bool {
        let (first, second, third, fourth, fifth, sixth) = view.as_tuple();
        let front = A::same_as(&first, &native.0)
            && B::same_as(&second, &native.1)
            && C::same_as(&third, &native.2)
            && D::same_as(&fourth, &native.3)
            && E::same_as(&fifth, &native.4);
        front && F::same_as(&sixth, &native.5)
    }

    ghost tests = { tuple_tests (λ n. (((((n.0, n.1), n.2), n.3), n.4), n.5))
        (fields_test (fields_test (fields_test (fields_test A.tests B.tests) C.tests) D.tests) E.tests) F.tests };
}
