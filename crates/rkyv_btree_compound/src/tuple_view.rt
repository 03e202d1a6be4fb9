//! Views of tuples of three to six: their fields in place.
ghost use Rattle.std.specs.Prelude.{◌≡◌, ◌+◌, ℕ, List};
ghost use Rattle.rkyv_btree_compound.specs.Tuples.{third_offset, fourth_offset, fifth_offset, sixth_offset};
ghost use Rattle.rkyv_btree_portable.specs.Entry.{value_offset};

use crate::front_view::fields_of;
use crate::tuple::{ArchivedTuple3, ArchivedTuple4, ArchivedTuple5, ArchivedTuple6};
use rkyv_btree_portable::check::Portable;
use rkyv_btree_view::debug::ViewDebug;
use rkyv_btree_view::view::View;
use rkyv_btree_walk::shows::Shows;
use std::fmt;

/// A view of a tuple of three, whose fields are shown in place. `View<'a, ArchivedTuple3<A, B, C>>` is the one.
pub trait ViewTuple3<'a> {
    /// The archived type of the first field.
    type First: Portable;

    /// The archived type of the second field.
    type Second: Portable;

    /// The archived type of the third field.
    type Third: Portable;

    /// The type of views of the first field.
    type ShownFirst: Shows<'a, Self::First>;

    /// The type of views of the second field.
    type ShownSecond: Shows<'a, Self::Second>;

    /// The type of views of the third field.
    type ShownThird: Shows<'a, Self::Third>;

    /// The buffer with the tuple.
    ghost bytes: { Self → List ℕ };

    /// The position of the tuple.
    ghost place: { Self → ℕ };

    /// Returns the views of the fields, each at its place in the tuple's buffer.
    fn as_tuple(self) -> (Self::ShownFirst, Self::ShownSecond, Self::ShownThird)
        ensures first_buffer { Self.ShownFirst.bytes result.0 ≡ bytes self }
        ensures first_place { Self.ShownFirst.place result.0 ≡ place self }
        ensures second_buffer { Self.ShownSecond.bytes result.1 ≡ bytes self }
        ensures second_place { Self.ShownSecond.place result.1
            ≡ place self + value_offset Self.First.kind Self.Second.kind }
        ensures third_buffer { Self.ShownThird.bytes result.2 ≡ bytes self }
        ensures third_place { Self.ShownThird.place result.2
            ≡ place self + third_offset Self.First.kind Self.Second.kind Self.Third.kind };
}

impl<'a, A: Portable, B: Portable, C: Portable> ViewTuple3<'a>
    for View<'a, ArchivedTuple3<A, B, C>> {
    type First = A;

    type Second = B;

    type Third = C;

    type ShownFirst = View<'a, A>;

    type ShownSecond = View<'a, B>;

    type ShownThird = View<'a, C>;

    ghost bytes = { λ view. view.buf.now };

    ghost place = { λ view. view.pos };

    fn as_tuple(self) -> (View<'a, A>, View<'a, B>, View<'a, C>) {
        let (front, third) = fields_of(self);
        let (front, second) = front.split();
        (front.field(), second, third)
    }
}

/// A view of a tuple of four, whose fields are shown in place. `View<'a, ArchivedTuple4<A, B, C, D>>` is the one.
pub trait ViewTuple4<'a> {
    /// The archived type of the first field.
    type First: Portable;

    /// The archived type of the second field.
    type Second: Portable;

    /// The archived type of the third field.
    type Third: Portable;

    /// The archived type of the fourth field.
    type Fourth: Portable;

    /// The type of views of the first field.
    type ShownFirst: Shows<'a, Self::First>;

    /// The type of views of the second field.
    type ShownSecond: Shows<'a, Self::Second>;

    /// The type of views of the third field.
    type ShownThird: Shows<'a, Self::Third>;

    /// The type of views of the fourth field.
    type ShownFourth: Shows<'a, Self::Fourth>;

    /// The buffer with the tuple.
    ghost bytes: { Self → List ℕ };

    /// The position of the tuple.
    ghost place: { Self → ℕ };

    /// Returns the views of the fields, each at its place in the tuple's buffer.
    fn as_tuple(
        self,
    ) -> (
        Self::ShownFirst,
        Self::ShownSecond,
        Self::ShownThird,
        Self::ShownFourth,
    )
        ensures first_buffer { Self.ShownFirst.bytes result.0 ≡ bytes self }
        ensures first_place { Self.ShownFirst.place result.0 ≡ place self }
        ensures second_buffer { Self.ShownSecond.bytes result.1 ≡ bytes self }
        ensures second_place { Self.ShownSecond.place result.1
            ≡ place self + value_offset Self.First.kind Self.Second.kind }
        ensures third_buffer { Self.ShownThird.bytes result.2 ≡ bytes self }
        ensures third_place { Self.ShownThird.place result.2
            ≡ place self + third_offset Self.First.kind Self.Second.kind Self.Third.kind }
        ensures fourth_buffer { Self.ShownFourth.bytes result.3 ≡ bytes self }
        ensures fourth_place { Self.ShownFourth.place result.3
            ≡ place self + fourth_offset Self.First.kind Self.Second.kind Self.Third.kind Self.Fourth.kind };
}

impl<'a, A: Portable, B: Portable, C: Portable, D: Portable> ViewTuple4<'a>
    for View<'a, ArchivedTuple4<A, B, C, D>> {
    type First = A;

    type Second = B;

    type Third = C;

    type Fourth = D;

    type ShownFirst = View<'a, A>;

    type ShownSecond = View<'a, B>;

    type ShownThird = View<'a, C>;

    type ShownFourth = View<'a, D>;

    ghost bytes = { λ view. view.buf.now };

    ghost place = { λ view. view.pos };

    fn as_tuple(self) -> (View<'a, A>, View<'a, B>, View<'a, C>, View<'a, D>) {
        let (front, fourth) = fields_of(self);
        let (front, third) = front.split();
        let (front, second) = front.split();
        (front.field(), second, third, fourth)
    }
}

/// A view of a tuple of five, whose fields are shown in place. `View<'a, ArchivedTuple5<A, B, C, D, E>>` is the one.
pub trait ViewTuple5<'a> {
    /// The archived type of the first field.
    type First: Portable;

    /// The archived type of the second field.
    type Second: Portable;

    /// The archived type of the third field.
    type Third: Portable;

    /// The archived type of the fourth field.
    type Fourth: Portable;

    /// The archived type of the fifth field.
    type Fifth: Portable;

    /// The type of views of the first field.
    type ShownFirst: Shows<'a, Self::First>;

    /// The type of views of the second field.
    type ShownSecond: Shows<'a, Self::Second>;

    /// The type of views of the third field.
    type ShownThird: Shows<'a, Self::Third>;

    /// The type of views of the fourth field.
    type ShownFourth: Shows<'a, Self::Fourth>;

    /// The type of views of the fifth field.
    type ShownFifth: Shows<'a, Self::Fifth>;

    /// The buffer with the tuple.
    ghost bytes: { Self → List ℕ };

    /// The position of the tuple.
    ghost place: { Self → ℕ };

    /// Returns the views of the fields, each at its place in the tuple's buffer.
    fn as_tuple(
        self,
    ) -> (
        Self::ShownFirst,
        Self::ShownSecond,
        Self::ShownThird,
        Self::ShownFourth,
        Self::ShownFifth,
    )
        ensures first_buffer { Self.ShownFirst.bytes result.0 ≡ bytes self }
        ensures first_place { Self.ShownFirst.place result.0 ≡ place self }
        ensures second_buffer { Self.ShownSecond.bytes result.1 ≡ bytes self }
        ensures second_place { Self.ShownSecond.place result.1
            ≡ place self + value_offset Self.First.kind Self.Second.kind }
        ensures third_buffer { Self.ShownThird.bytes result.2 ≡ bytes self }
        ensures third_place { Self.ShownThird.place result.2
            ≡ place self + third_offset Self.First.kind Self.Second.kind Self.Third.kind }
        ensures fourth_buffer { Self.ShownFourth.bytes result.3 ≡ bytes self }
        ensures fourth_place { Self.ShownFourth.place result.3
            ≡ place self + fourth_offset Self.First.kind Self.Second.kind Self.Third.kind Self.Fourth.kind }
        ensures fifth_buffer { Self.ShownFifth.bytes result.4 ≡ bytes self }
        ensures fifth_place { Self.ShownFifth.place result.4
            ≡ place self + fifth_offset Self.First.kind Self.Second.kind Self.Third.kind Self.Fourth.kind Self.Fifth.kind };
}

impl<'a, A: Portable, B: Portable, C: Portable, D: Portable, E: Portable> ViewTuple5<'a>
    for View<'a, ArchivedTuple5<A, B, C, D, E>> {
    type First = A;

    type Second = B;

    type Third = C;

    type Fourth = D;

    type Fifth = E;

    type ShownFirst = View<'a, A>;

    type ShownSecond = View<'a, B>;

    type ShownThird = View<'a, C>;

    type ShownFourth = View<'a, D>;

    type ShownFifth = View<'a, E>;

    ghost bytes = { λ view. view.buf.now };

    ghost place = { λ view. view.pos };

    fn as_tuple(
        self,
    ) -> (
        View<'a, A>,
        View<'a, B>,
        View<'a, C>,
        View<'a, D>,
        View<'a, E>,
    ) {
        let (front, fifth) = fields_of(self);
        let (front, fourth) = front.split();
        let (front, third) = front.split();
        let (front, second) = front.split();
        (front.field(), second, third, fourth, fifth)
    }
}

/// A view of a tuple of six, whose fields are shown in place. `View<'a, ArchivedTuple6<A, B, C, D, E, F>>` is the one.
pub trait ViewTuple6<'a> {
    /// The archived type of the first field.
    type First: Portable;

    /// The archived type of the second field.
    type Second: Portable;

    /// The archived type of the third field.
    type Third: Portable;

    /// The archived type of the fourth field.
    type Fourth: Portable;

    /// The archived type of the fifth field.
    type Fifth: Portable;

    /// The archived type of the sixth field.
    type Sixth: Portable;

    /// The type of views of the first field.
    type ShownFirst: Shows<'a, Self::First>;

    /// The type of views of the second field.
    type ShownSecond: Shows<'a, Self::Second>;

    /// The type of views of the third field.
    type ShownThird: Shows<'a, Self::Third>;

    /// The type of views of the fourth field.
    type ShownFourth: Shows<'a, Self::Fourth>;

    /// The type of views of the fifth field.
    type ShownFifth: Shows<'a, Self::Fifth>;

    /// The type of views of the sixth field.
    type ShownSixth: Shows<'a, Self::Sixth>;

    /// The buffer with the tuple.
    ghost bytes: { Self → List ℕ };

    /// The position of the tuple.
    ghost place: { Self → ℕ };

    /// Returns the views of the fields, each at its place in the tuple's buffer.
    fn as_tuple(
        self,
    ) -> (
        Self::ShownFirst,
        Self::ShownSecond,
        Self::ShownThird,
        Self::ShownFourth,
        Self::ShownFifth,
        Self::ShownSixth,
    )
        ensures first_buffer { Self.ShownFirst.bytes result.0 ≡ bytes self }
        ensures first_place { Self.ShownFirst.place result.0 ≡ place self }
        ensures second_buffer { Self.ShownSecond.bytes result.1 ≡ bytes self }
        ensures second_place { Self.ShownSecond.place result.1
            ≡ place self + value_offset Self.First.kind Self.Second.kind }
        ensures third_buffer { Self.ShownThird.bytes result.2 ≡ bytes self }
        ensures third_place { Self.ShownThird.place result.2
            ≡ place self + third_offset Self.First.kind Self.Second.kind Self.Third.kind }
        ensures fourth_buffer { Self.ShownFourth.bytes result.3 ≡ bytes self }
        ensures fourth_place { Self.ShownFourth.place result.3
            ≡ place self + fourth_offset Self.First.kind Self.Second.kind Self.Third.kind Self.Fourth.kind }
        ensures fifth_buffer { Self.ShownFifth.bytes result.4 ≡ bytes self }
        ensures fifth_place { Self.ShownFifth.place result.4
            ≡ place self + fifth_offset Self.First.kind Self.Second.kind Self.Third.kind Self.Fourth.kind Self.Fifth.kind }
        ensures sixth_buffer { Self.ShownSixth.bytes result.5 ≡ bytes self }
        ensures sixth_place { Self.ShownSixth.place result.5
            ≡ place self + sixth_offset Self.First.kind Self.Second.kind Self.Third.kind Self.Fourth.kind Self.Fifth.kind Self.Sixth.kind };
}

impl<'a, A: Portable, B: Portable, C: Portable, D: Portable, E: Portable, F: Portable> ViewTuple6<
    'a,
> for View<'a, ArchivedTuple6<A, B, C, D, E, F>> {
    type First = A;

    type Second = B;

    type Third = C;

    type Fourth = D;

    type Fifth = E;

    type Sixth = F;

    type ShownFirst = View<'a, A>;

    type ShownSecond = View<'a, B>;

    type ShownThird = View<'a, C>;

    type ShownFourth = View<'a, D>;

    type ShownFifth = View<'a, E>;

    type ShownSixth = View<'a, F>;

    ghost bytes = { λ view. view.buf.now };

    ghost place = { λ view. view.pos };

    fn as_tuple(
        self,
    ) -> (
        View<'a, A>,
        View<'a, B>,
        View<'a, C>,
        View<'a, D>,
        View<'a, E>,
        View<'a, F>,
    ) {
        let (front, sixth) = fields_of(self);
        let (front, fifth) = front.split();
        let (front, fourth) = front.split();
        let (front, third) = front.split();
        let (front, second) = front.split();
        (front.field(), second, third, fourth, fifth, sixth)
    }
}

impl<A: ViewDebug, B: ViewDebug, C: ViewDebug> ViewDebug for ArchivedTuple3<A, B, C> {
    fn show<W: fmt::Write>(
        view: &View<'_, ArchivedTuple3<A, B, C>>,
        f: &mut fmt::Formatter<W>,
    ) -> fmt::Result {
        fmt::Debug::fmt(&view.as_tuple(), f)
    }
}

impl<A: ViewDebug, B: ViewDebug, C: ViewDebug, D: ViewDebug> ViewDebug
    for ArchivedTuple4<A, B, C, D> {
    fn show<W: fmt::Write>(
        view: &View<'_, ArchivedTuple4<A, B, C, D>>,
        f: &mut fmt::Formatter<W>,
    ) -> fmt::Result {
        fmt::Debug::fmt(&view.as_tuple(), f)
    }
}

impl<A: ViewDebug, B: ViewDebug, C: ViewDebug, D: ViewDebug, E: ViewDebug> ViewDebug
    for ArchivedTuple5<A, B, C, D, E> {
    fn show<W: fmt::Write>(
        view: &View<'_, ArchivedTuple5<A, B, C, D, E>>,
        f: &mut fmt::Formatter<W>,
    ) -> fmt::Result {
        fmt::Debug::fmt(&view.as_tuple(), f)
    }
}

impl<A: ViewDebug, B: ViewDebug, C: ViewDebug, D: ViewDebug, E: ViewDebug, F: ViewDebug> ViewDebug
    for ArchivedTuple6<A, B, C, D, E, F> {
    fn show<W: fmt::Write>(
        view: &View<'_, ArchivedTuple6<A, B, C, D, E, F>>,
        f: &mut fmt::Formatter<W>,
    ) -> fmt::Result {
        fmt::Debug::fmt(&view.as_tuple(), f)
    }
}
