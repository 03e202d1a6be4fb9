//! Comparisons of views of vectors: as those of slices of what the elements read.
ghost use Rattle.std.specs.Cmp.Lexicographic.{lists_equiv, lists_ties, lists_total, pointwise, slice_cmp};
ghost use Rattle.std.specs.Prelude.{◌≡◌, ℕ, Bool, List};
ghost use Rattle.rkyv_btree_compound.specs.VecLeft.{elements_left};
ghost use Rattle.rkyv_btree_compound.specs.laws.VectorComparing.{vector_tests, vectors_respect};
ghost use Rattle.rkyv_btree_compound.specs.VectorNatives.{vector_same_at};

use crate::vec_iter::VecIter;
use crate::vector::ArchivedVec;
use crate::vector_view::ViewVec;
use rkyv_btree_view::compare::{ViewEq, ViewHash, ViewOrd};
use rkyv_btree_view::compare_native::SameAs;
use rkyv_btree_view::view::View;
use std::cmp::Ordering;
use std::hash::Hasher;

/// Whether the elements that two iterators have left are as many and agree one by one.
fn rest_is_same<T: ViewEq>(mut left: VecIter<'_, T>, mut right: VecIter<'_, T>) -> bool
    ensures { result
        ≡ pointwise T.kind.same (elements_left left.entry) (elements_left right.entry) }
{
    while let Some(element) = left.next() {
        let Some(other) = right.next() else {
            return false;
        };
        if !T::is_same(&element, &other) {
            return false;
        }
    }
    right.next().is_none()
}

/// How the elements that one iterator has left compare to those of another: the first that differ decide, or else their numbers.
fn order_of_rest<T: ViewOrd>(mut left: VecIter<'_, T>, mut right: VecIter<'_, T>) -> Ordering
    ensures { result
        ≡ slice_cmp T.kind.order (elements_left left.entry) (elements_left right.entry) }
{
    while let Some(element) = left.next() {
        let Some(other) = right.next() else {
            return Ordering::Greater;
        };
        match T::compare(&element, &other) {
            Ordering::Equal => {}
            unequal => return unequal,
        }
    }
    if right.next().is_some() {
        Ordering::Less
    } else {
        Ordering::Equal
    }
}

impl<T: ViewEq> ViewEq for ArchivedVec<T> {
    fn is_same(a: &View<'_, ArchivedVec<T>>, b: &View<'_, ArchivedVec<T>>) -> bool {
        rest_is_same(VecIter::new(*a), VecIter::new(*b))
    }

    ghost equivalence = { lists_equiv T.equivalence };
}

impl<T: ViewOrd> ViewOrd for ArchivedVec<T> {
    fn compare(a: &View<'_, ArchivedVec<T>>, b: &View<'_, ArchivedVec<T>>) -> Ordering {
        order_of_rest(VecIter::new(*a), VecIter::new(*b))
    }

    ghost total = { lists_total T.total };

    ghost matches_same = { lists_ties T.kind.order T.matches_same };
}

impl<T: ViewHash> ViewHash for ArchivedVec<T> {
    /// Feeds what a slice of the native values feeds: their number, and then each of them.
    fn hash_view<H: Hasher>(view: &View<'_, ArchivedVec<T>>, state: &mut H) {
        state.write_usize(view.len());
        let mut elements = VecIter::new(*view);
        while let Some(element) = elements.next() {
            T::hash_view(&element, state);
        }
    }

    ghost respects_same = { vectors_respect T.kind T.respects_same };
}

/// Whether the elements that an iterator has left are as many as native values, and the same one by one.
fn are_same_as<N, T: SameAs<N>>(mut elements: VecIter<'_, T>, natives: &[N]) -> bool
    ensures { (same : T.kind.Value → N → Bool) →
        ((n : N) (b : List ℕ) (at : ℕ) → T.same_at n b at ≡ same (T.kind.read b at) n) →
        result ≡ pointwise same (elements_left elements.entry) natives.now }
{
    for native in natives {
        let Some(element) = elements.next() else {
            return false;
        };
        if !T::same_as(&element, native) {
            return false;
        }
    }
    elements.next().is_none()
}

impl<N, T: SameAs<N>> SameAs<Vec<N>> for ArchivedVec<T> {
    ghost same_at = { λ native b at. vector_same_at T.kind T.same_at native.items b at };

    fn same_as(view: &View<'_, ArchivedVec<T>>, native: &Vec<N>) -> bool {
        are_same_as::<N, T>(VecIter::new(*view), native.as_slice())
    }

    ghost tests = { vector_tests T.tests (λ native. native.items) };
}
