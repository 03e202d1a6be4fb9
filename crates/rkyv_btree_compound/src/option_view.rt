//! Views of options: the values in them, and their comparisons.
ghost use Rattle.std.specs.Cmp.Lexicographic.{options_equiv, options_total};
ghost use Rattle.std.specs.Prelude.{◌≡◌, ◌+◌, ℕ, IfSome, List, option_map};
ghost use Rattle.rkyv_btree_compound.specs.Option.{option_read};
ghost use Rattle.rkyv_btree_compound.specs.OptionNatives.{option_compared_at, option_same_at};
ghost use Rattle.rkyv_btree_compound.specs.laws.OptionComparing.{options_tied, options_respect, option_compares, option_tests};

use crate::option::{ArchivedOption, SOME};
use rkyv_btree_portable::check::Portable;
use rkyv_btree_view::compare::{ViewEq, ViewHash, ViewOrd};
use rkyv_btree_view::compare_native::{CompareWith, SameAs};
use rkyv_btree_view::debug::ViewDebug;
use rkyv_btree_view::view::View;
use rkyv_btree_walk::shows::Shows;
use std::cmp::Ordering;
use std::fmt;
use std::hash::{Hash, Hasher};
use std::marker::PhantomData;

/// A view of an option, whose value is shown in place. `View<'a, ArchivedOption<T>>` is the one.
pub trait ViewOption<'a> {
    /// The archived type of the value.
    type Value: Portable;

    /// The type of views of the value.
    type Shown: Shows<'a, Self::Value>;

    /// The buffer with the option.
    ghost bytes: { Self → List ℕ };

    /// The position of the option.
    ghost place: { Self → ℕ };

    /// Returns the view of the value, or `None` if the option has none. The value is at the option's position plus the value's
    /// alignment.
    fn as_option(self) -> Option<Self::Shown>
        ensures value { option_map
            (λ shown. Self.Value.kind.read (Self.Shown.bytes shown) (Self.Shown.place shown)) result
            ≡ option_read Self.Value.kind (bytes self) (place self) }
        ensures buffer { IfSome result (λ shown. Self.Shown.bytes shown ≡ bytes self) }
        ensures position { IfSome result (λ shown.
            Self.Shown.place shown ≡ place self + Self.Value.kind.align) };
}

impl<'a, T: Portable> ViewOption<'a> for View<'a, ArchivedOption<T>> {
    type Value = T;

    type Shown = View<'a, T>;

    ghost bytes = { λ view. view.buf.now };

    ghost place = { λ view. view.pos };

    fn as_option(self) -> Option<View<'a, T>> {
        if self.buf[self.pos as usize] != SOME {
            return None;
        }
        Some(View {
            buf: self.buf,
            pos: self.pos + T::align(),
            of: PhantomData,
        })
    }
}

impl<T: ViewEq> ViewEq for ArchivedOption<T> {
    fn is_same(a: &View<'_, ArchivedOption<T>>, b: &View<'_, ArchivedOption<T>>) -> bool {
        match a.as_option() {
            Some(x) => match b.as_option() {
                Some(y) => T::is_same(&x, &y),
                None => false,
            },
            None => b.as_option().is_none(),
        }
    }

    ghost equivalence = { options_equiv T.equivalence };
}

impl<T: ViewOrd> ViewOrd for ArchivedOption<T> {
    /// No value is less than each value, as of `Option`.
    fn compare(a: &View<'_, ArchivedOption<T>>, b: &View<'_, ArchivedOption<T>>) -> Ordering {
        match a.as_option() {
            Some(x) => match b.as_option() {
                Some(y) => T::compare(&x, &y),
                None => Ordering::Greater,
            },
            None => match b.as_option() {
                Some(_) => Ordering::Less,
                None => Ordering::Equal,
            },
        }
    }

    ghost total = { options_total T.total };

    ghost matches_same = { options_tied T.kind T.matches_same };
}

impl<T: ViewHash> ViewHash for ArchivedOption<T> {
    /// Feeds what an `Option` of the native value feeds: 0 or 1 as an `isize`, and then the value.
    fn hash_view<H: Hasher>(view: &View<'_, ArchivedOption<T>>, state: &mut H) {
        match view.as_option() {
            Some(value) => {
                state.write_isize(1);
                T::hash_view(&value, state);
            }
            None => state.write_isize(0),
        }
    }

    ghost respects_same = { options_respect T.kind T.respects_same };
}

impl<T: ViewDebug> ViewDebug for ArchivedOption<T> {
    fn show<W: fmt::Write>(
        view: &View<'_, ArchivedOption<T>>,
        f: &mut fmt::Formatter<W>,
    ) -> fmt::Result {
        fmt::Debug::fmt(&view.as_option(), f)
    }
}

impl<N, T: CompareWith<N>> CompareWith<Option<N>> for ArchivedOption<T> {
    ghost compared_at = { option_compared_at T.kind T.compared_at };

    fn compare_with(native: &Option<N>, view: &View<'_, ArchivedOption<T>>) -> Ordering {
        match native {
            Some(n) => match view.as_option() {
                Some(value) => T::compare_with(n, &value),
                None => Ordering::Greater,
            },
            None => match view.as_option() {
                Some(_) => Ordering::Less,
                None => Ordering::Equal,
            },
        }
    }

    ghost compares = { option_compares T.kind T.compares };
}

impl<N, T: SameAs<N>> SameAs<Option<N>> for ArchivedOption<T> {
    ghost same_at = { option_same_at T.kind T.same_at };

    fn same_as(view: &View<'_, ArchivedOption<T>>, native: &Option<N>) -> bool {
        match view.as_option() {
            Some(value) => match native {
                Some(n) => T::same_as(&value, n),
                None => false,
            },
            None => native.is_none(),
        }
    }

    ghost tests = { option_tests T.kind T.tests };
}
