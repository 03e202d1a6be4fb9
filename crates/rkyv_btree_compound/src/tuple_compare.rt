//! Comparisons of views of tuples, and of their first fields.
ghost use Rattle.std.specs.Cmp.{IsEquivalence, IsTotalOrder};
ghost use Rattle.std.specs.List.{fold};
ghost use Rattle.std.specs.Ordering.{is_eq};
ghost use Rattle.std.specs.Prelude.{◌≡◌, IsTrue};
ghost use Rattle.rkyv_btree_compound.specs.FrontView.{front_value};
ghost use Rattle.rkyv_btree_compound.specs.Joined.{joined_end};
ghost use Rattle.rkyv_btree_compound.specs.Tuples.{tuple_size};
ghost use Rattle.rkyv_btree_compound.specs.laws.TupleComparing.{joined_equivalence, joined_total, joined_tied, joined_respects};

use crate::front::{First, Next, TupleFront};
use crate::front_view::{FrontView, fields_of};
use crate::tuple::ArchivedTuple;
use rkyv_btree_view::compare::{ViewEq, ViewHash, ViewOrd};
use rkyv_btree_view::view::View;
use std::cmp::Ordering;
use std::hash::Hasher;

/// The first fields of tuples whose views can be tested for equality.
pub trait FrontEq: TupleFront {
    /// Whether what both views read is equal, field by field.
    fn is_same_front(a: &FrontView<'_, Self>, b: &FrontView<'_, Self>) -> bool
        ensures { result ≡ Self.kind.same (front_value a.now) (front_value b.now) };

    ghost equivalence: { IsEquivalence Self.kind.same };
}

/// The first fields of tuples whose views are ordered.
pub trait FrontOrd: FrontEq {
    /// How what the first view reads compares to what the second reads, field by field.
    fn compare_front(a: &FrontView<'_, Self>, b: &FrontView<'_, Self>) -> Ordering
        ensures { result ≡ Self.kind.order (front_value a.now) (front_value b.now) };

    ghost total: { IsTotalOrder Self.kind.order };

    ghost matches_same: { (x y : Self.kind.Value)
        → Self.kind.same x y ≡ is_eq (Self.kind.order x y) };
}

/// The first fields of tuples whose views can be hashed.
pub trait FrontHash: FrontEq {
    /// Feeds the hasher what the view reads, field by field.
    fn hash_front<H: Hasher>(view: &FrontView<'_, Self>, state: &mut H)
        ensures { state.new
            ≡ fold H.write state.old (Self.kind.hash_input (front_value view.now)) };

    ghost respects_same: { (x y : Self.kind.Value) → IsTrue (Self.kind.same x y)
        → Self.kind.hash_input x ≡ Self.kind.hash_input y };
}

impl<A: ViewEq> FrontEq for First<A> {
    fn is_same_front(a: &FrontView<'_, First<A>>, b: &FrontView<'_, First<A>>) -> bool {
        A::is_same(&a.field(), &b.field())
    }

    ghost equivalence = { A.equivalence };
}

impl<P: FrontEq, L: ViewEq> FrontEq for Next<P, L> {
    fn is_same_front(a: &FrontView<'_, Next<P, L>>, b: &FrontView<'_, Next<P, L>>) -> bool {
        let (front, last) = a.split();
        let (other_front, other_last) = b.split();
        P::is_same_front(&front, &other_front) && L::is_same(&last, &other_last)
    }

    ghost equivalence = { joined_equivalence P.kind L.kind (joined_end P.kind L.kind) P.equivalence L.equivalence };
}

impl<A: ViewOrd> FrontOrd for First<A> {
    fn compare_front(a: &FrontView<'_, First<A>>, b: &FrontView<'_, First<A>>) -> Ordering {
        A::compare(&a.field(), &b.field())
    }

    ghost total = { A.total };

    ghost matches_same = { A.matches_same };
}

impl<P: FrontOrd, L: ViewOrd> FrontOrd for Next<P, L> {
    fn compare_front(a: &FrontView<'_, Next<P, L>>, b: &FrontView<'_, Next<P, L>>) -> Ordering {
        let (front, last) = a.split();
        let (other_front, other_last) = b.split();
        P::compare_front(&front, &other_front).then(L::compare(&last, &other_last))
    }

    ghost total = { joined_total P.kind L.kind (joined_end P.kind L.kind) P.total L.total };

    ghost matches_same = { joined_tied P.kind L.kind (joined_end P.kind L.kind) P.matches_same L.matches_same };
}

impl<A: ViewHash> FrontHash for First<A> {
    fn hash_front<H: Hasher>(view: &FrontView<'_, First<A>>, state: &mut H) {
        A::hash_view(&view.field(), state);
    }

    ghost respects_same = { A.respects_same };
}

impl<P: FrontHash, L: ViewHash> FrontHash for Next<P, L> {
    fn hash_front<H: Hasher>(view: &FrontView<'_, Next<P, L>>, state: &mut H) {
        let (front, last) = view.split();
        P::hash_front(&front, state);
        L::hash_view(&last, state);
    }

    ghost respects_same = { joined_respects P.kind L.kind (joined_end P.kind L.kind) P.respects_same L.respects_same };
}

impl<P: FrontEq, L: ViewEq> ViewEq for ArchivedTuple<P, L> {
    fn is_same(a: &View<'_, ArchivedTuple<P, L>>, b: &View<'_, ArchivedTuple<P, L>>) -> bool {
        let (a1, a2) = fields_of(*a);
        let (b1, b2) = fields_of(*b);
        P::is_same_front(&a1, &b1) && L::is_same(&a2, &b2)
    }

    ghost equivalence = { joined_equivalence P.kind L.kind (tuple_size P.kind L.kind) P.equivalence L.equivalence };
}

impl<P: FrontOrd, L: ViewOrd> ViewOrd for ArchivedTuple<P, L> {
    fn compare(a: &View<'_, ArchivedTuple<P, L>>, b: &View<'_, ArchivedTuple<P, L>>) -> Ordering {
        let (a1, a2) = fields_of(*a);
        let (b1, b2) = fields_of(*b);
        P::compare_front(&a1, &b1).then(L::compare(&a2, &b2))
    }

    ghost total = { joined_total P.kind L.kind (tuple_size P.kind L.kind) P.total L.total };

    ghost matches_same = { joined_tied P.kind L.kind (tuple_size P.kind L.kind) P.matches_same L.matches_same };
}

impl<P: FrontHash, L: ViewHash> ViewHash for ArchivedTuple<P, L> {
    /// Feeds what a native tuple feeds: each field in turn.
    fn hash_view<H: Hasher>(view: &View<'_, ArchivedTuple<P, L>>, state: &mut H) {
        let (fields, last_one) = fields_of(*view);
        P::hash_front(&fields, state);
        L::hash_view(&last_one, state);
    }

    ghost respects_same = { joined_respects P.kind L.kind (tuple_size P.kind L.kind) P.respects_same L.respects_same };
}
