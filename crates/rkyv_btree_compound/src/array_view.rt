//! Views of arrays: their elements, and their comparisons.
ghost use Rattle.std.specs.Cmp.Lexicographic.{lists_equiv, lists_ties, lists_total};
ghost use Rattle.std.specs.Hash.{items_Alike};
ghost use Rattle.std.specs.Prelude.{◌≡◌, ◌+◌, ◌*◌, ◌<◌, ℕ, IfSome, List, option_map};
ghost use Rattle.std.specs.List.{slice_get};
ghost use Rattle.rkyv_btree_compound.specs.Elements.{elements_read};
ghost use Rattle.rkyv_btree_compound.specs.ArrayNatives.{array_compared_at, array_same_at};
ghost use Rattle.rkyv_btree_compound.specs.laws.ArrayComparing.{arrays_compare, arrays_test};

use crate::array::ArchivedArray;
use rkyv_btree_portable::check::Portable;
use rkyv_btree_view::compare::{ViewEq, ViewHash, ViewOrd};
use rkyv_btree_view::compare_native::{CompareWith, SameAs};
use rkyv_btree_view::debug::ViewDebug;
use rkyv_btree_view::view::View;
use rkyv_btree_walk::shows::Shows;
use std::cmp::Ordering;
use std::fmt;
use std::hash::Hasher;
use std::marker::PhantomData;

/// A view of an array, whose elements are shown in place. `View<'a, ArchivedArray<T, N>>` is the one.
pub trait ViewArray<'a> {
    /// The archived type of the elements.
    type Element: Portable;

    /// The type of views of the elements.
    type Shown: Shows<'a, Self::Element>;

    /// The number of elements.
    ghost count: { ℕ };

    /// The buffer with the array.
    ghost bytes: { Self → List ℕ };

    /// The position of the array.
    ghost place: { Self → ℕ };

    /// Returns the number of elements.
    fn len(self) -> usize
        ensures { result ≡ count };

    /// Returns the view of the element at an index, or `None` if there is no such element.
    fn get(self, index: usize) -> Option<Self::Shown>
        ensures value { option_map
            (λ shown. Self.Element.kind.read (Self.Shown.bytes shown) (Self.Shown.place shown))
            result
            ≡ slice_get (elements_read Self.Element.kind (bytes self) count (place self)) index }
        ensures buffer { IfSome result (λ shown. Self.Shown.bytes shown ≡ bytes self) }
        ensures position { IfSome result (λ shown.
            Self.Shown.place shown ≡ place self + index * Self.Element.kind.size) };
}

impl<'a, T: Portable, const N: usize> ViewArray<'a> for View<'a, ArchivedArray<T, N>> {
    type Element = T;

    type Shown = View<'a, T>;

    ghost count = { N };

    ghost bytes = { λ view. view.buf.now };

    ghost place = { λ view. view.pos };

    fn len(self) -> usize {
        N
    }

    fn get(self, index: usize) -> Option<View<'a, T>> {
        if index >= N {
            return None;
        }
        Some(element(&self, index))
    }
}

/// Returns the view of the element at an index.
pub fn element<'a, T: Portable, const N: usize>(
    view: &View<'a, ArchivedArray<T, N>>,
    index: usize,
) -> View<'a, T>
    requires { index < N }
    ensures buffer { result.buf.now ≡ view.now.buf.now }
    ensures position { result.pos ≡ view.now.pos + index * T.kind.size }
{
    View {
        buf: view.buf,
        pos: view.pos + index as u32 * T::size(),
        of: PhantomData,
    }
}

impl<T: ViewEq, const N: usize> ViewEq for ArchivedArray<T, N> {
    fn is_same(a: &View<'_, ArchivedArray<T, N>>, b: &View<'_, ArchivedArray<T, N>>) -> bool {
        for i in 0..N {
            if !T::is_same(&element(a, i), &element(b, i)) {
                return false;
            }
        }
        true
    }

    ghost equivalence = { lists_equiv T.equivalence };
}

impl<T: ViewOrd, const N: usize> ViewOrd for ArchivedArray<T, N> {
    fn compare(a: &View<'_, ArchivedArray<T, N>>, b: &View<'_, ArchivedArray<T, N>>) -> Ordering {
        for i in 0..N {
            match T::compare(&element(a, i), &element(b, i)) {
                Ordering::Equal => {}
                unequal => return unequal,
            }
        }
        Ordering::Equal
    }

    ghost total = { lists_total T.total };

    ghost matches_same = { lists_ties T.kind.order T.matches_same };
}

impl<T: ViewHash, const N: usize> ViewHash for ArchivedArray<T, N> {
    /// Feeds what a native array feeds: the number of elements, and then each in turn.
    fn hash_view<H: Hasher>(view: &View<'_, ArchivedArray<T, N>>, state: &mut H) {
        state.write_usize(N);
        for i in 0..N {
            T::hash_view(&element(view, i), state);
        }
    }

    ghost respects_same = { (items_Alike (record { fed = T.respects_same })).fed };
}

impl<T: ViewDebug, const N: usize> ViewDebug for ArchivedArray<T, N> {
    fn show<W: fmt::Write>(
        view: &View<'_, ArchivedArray<T, N>>,
        f: &mut fmt::Formatter<W>,
    ) -> fmt::Result {
        let mut list = f.debug_list();
        for i in 0..N {
            list.entry(&element(view, i));
        }
        list.finish()
    }
}

impl<M, T: CompareWith<M>, const N: usize> CompareWith<[M; N]> for ArchivedArray<T, N> {
    ghost compared_at = { array_compared_at T.kind N T.compared_at };

    fn compare_with(native: &[M; N], view: &View<'_, ArchivedArray<T, N>>) -> Ordering {
        for i in 0..N {
            match T::compare_with(&native[i], &element(view, i)) {
                Ordering::Equal => {}
                unequal => return unequal,
            }
        }
        Ordering::Equal
    }

    #[inline(always)]
    fn is_plain() -> bool {
        false
    }

    ghost compares = { arrays_compare T.kind N T.compares };
}

impl<M, T: SameAs<M>, const N: usize> SameAs<[M; N]> for ArchivedArray<T, N> {
    ghost same_at = { array_same_at T.kind N T.same_at };

    fn same_as(view: &View<'_, ArchivedArray<T, N>>, native: &[M; N]) -> bool {
        for i in 0..N {
            if !T::same_as(&element(view, i), &native[i]) {
                return false;
            }
        }
        true
    }

    ghost tests = { arrays_test T.kind N T.tests };
}
