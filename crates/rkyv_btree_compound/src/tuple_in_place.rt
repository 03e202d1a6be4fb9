//! Tuples whose values lie in their own bytes alone.
ghost use Rattle.std.specs.Prelude.{◌≡◌, IsTrue, length};
ghost use Rattle.rkyv_btree_compound.specs.TupleInPlace.{joined_bytes, tuple3_form, tuple4_form, tuple5_form, tuple6_form};
ghost use Rattle.rkyv_btree_compound.specs.Tuples.{tuple_kind, tuple_size};
ghost use Rattle.rkyv_btree_compound.specs.laws.TupleInPlaceLaws.{first_alone, next_alone, tuple_alone};
ghost use Rattle.rkyv_btree_portable.specs.Bytes.{bytes_at};
ghost use Rattle.rkyv_btree_portable.specs.Entry.{value_offset};
ghost use Rattle.rkyv_btree_portable.specs.InPlace.{IsOwn};

use crate::front::{First, Next, TupleFront};
use crate::front_in_place::{InPlaceFront, read_next, write_next};
use crate::tuple::{ArchivedTuple3, ArchivedTuple4, ArchivedTuple5, ArchivedTuple6};
use rkyv_btree_portable::check::Portable;
use rkyv_btree_portable::in_place::InPlace;

/// Returns the values of a tuple's fields, those before the last and that of the last.
pub fn read_fields<P: InPlaceFront, L: InPlace>(bytes: &[u8]) -> (P::Native, L::Native)
    requires fitting { IsTrue (tuple_kind P.kind L.kind).is_fitting }
    requires is_own { IsOwn (tuple_kind P.kind L.kind) bytes.now }
    ensures front { P.in_place.model result.0
        ≡ P.in_place.model_of_bytes (bytes_at bytes.now 0 P.kind.size) }
    ensures last { L.in_place.model result.1
        ≡ L.in_place.model_of_bytes (bytes_at bytes.now (value_offset P.kind L.kind) L.kind.size) }
{
    read_next::<P, L>(bytes)
}

/// Writes the values of a tuple's fields. The bytes between and after them become zero.
pub fn write_fields<P: InPlaceFront, L: InPlace>(
    front: P::Native,
    last: L::Native,
    bytes: &mut [u8],
)
    requires fitting { IsTrue (tuple_kind P.kind L.kind).is_fitting }
    requires size { length bytes.old ≡ tuple_size P.kind L.kind }
    ensures bytes { bytes.new ≡ joined_bytes P.kind L.kind (tuple_size P.kind L.kind)
        (P.in_place.own_bytes front) (L.in_place.own_bytes last) }
    // What is read of the written bytes are the values again.
    ensures front { P.in_place.model_of_bytes (bytes_at
        (joined_bytes P.kind L.kind (tuple_size P.kind L.kind)
        (P.in_place.own_bytes front) (L.in_place.own_bytes last))
        0 P.kind.size) ≡ P.in_place.model front }
    ensures last { L.in_place.model_of_bytes (bytes_at
        (joined_bytes P.kind L.kind (tuple_size P.kind L.kind)
        (P.in_place.own_bytes front) (L.in_place.own_bytes last))
        (value_offset P.kind L.kind) L.kind.size) ≡ L.in_place.model last }
{
    write_next::<P, L>(front, last, bytes);
}

impl<A: InPlace, B: InPlace, C: InPlace> InPlace for ArchivedTuple3<A, B, C> {
    type Native = (A::Native, B::Native, C::Native);

    ghost in_place = { tuple3_form A.kind B.kind C.kind A.in_place B.in_place C.in_place };

    fn read(bytes: &[u8]) -> (A::Native, B::Native, C::Native) {
        let ((first, second), third) = read_fields::<Next<First<A>, B>, C>(bytes);
        (first, second, third)
    }

    /// Writes the fields. The bytes between and after them become zero.
    fn write(value: (A::Native, B::Native, C::Native), bytes: &mut [u8]) {
        let front = (value.0, value.1);
        write_fields::<Next<First<A>, B>, C>(front, value.2, bytes);
    }

    ghost is_in_place = { tuple_alone (next_alone (first_alone A.laws A.is_in_place) B.laws B.is_in_place)
        C.laws C.is_in_place (λ x. ((x.0, x.1), x.2)) };
}

impl<A: InPlace, B: InPlace, C: InPlace, D: InPlace> InPlace for ArchivedTuple4<A, B, C, D> {
    type Native = (A::Native, B::Native, C::Native, D::Native);

    ghost in_place = { tuple4_form A.kind B.kind C.kind A.in_place B.in_place C.in_place D.kind D.in_place };

    fn read(bytes: &[u8]) -> (A::Native, B::Native, C::Native, D::Native) {
        let (((first, second), third), fourth) = read_fields::<Next<Next<First<A>, B>, C>, D>(
            bytes,
        );
        (first, second, third, fourth)
    }

    /// Writes the fields. The bytes between and after them become zero.
    fn write(value: (A::Native, B::Native, C::Native, D::Native), bytes: &mut [u8]) {
        let front = ((value.0, value.1), value.2);
        write_fields::<Next<Next<First<A>, B>, C>, D>(front, value.3, bytes);
    }

    ghost is_in_place = { tuple_alone (next_alone (next_alone (first_alone A.laws A.is_in_place) B.laws B.is_in_place) C.laws C.is_in_place)
        D.laws D.is_in_place (λ x. (((x.0, x.1), x.2), x.3)) };
}

impl<A: InPlace, B: InPlace, C: InPlace, D: InPlace, E: InPlace> InPlace
    for ArchivedTuple5<A, B, C, D, E> {
    type Native = (A::Native, B::Native, C::Native, D::Native, E::Native);

    ghost in_place = { tuple5_form A.kind B.kind C.kind A.in_place B.in_place C.in_place D.kind D.in_place E.kind E.in_place };

    fn read(bytes: &[u8]) -> (A::Native, B::Native, C::Native, D::Native, E::Native) {
        let ((((first, second), third), fourth), fifth) = read_fields::<
            Next<Next<Next<First<A>, B>, C>, D>,
            E,
        >(bytes);
        (first, second, third, fourth, fifth)
    }

    /// Writes the fields. The bytes between and after them become zero.
    fn write(value: (A::Native, B::Native, C::Native, D::Native, E::Native), bytes: &mut [u8]) {
        let front = (((value.0, value.1), value.2), value.3);
        write_fields::<Next<Next<Next<First<A>, B>, C>, D>, E>(front, value.4, bytes);
    }

    ghost is_in_place = { tuple_alone (next_alone (next_alone (next_alone (first_alone A.laws A.is_in_place) B.laws B.is_in_place) C.laws C.is_in_place) D.laws D.is_in_place)
        E.laws E.is_in_place (λ x. ((((x.0, x.1), x.2), x.3), x.4)) };
}

impl<A: InPlace, B: InPlace, C: InPlace, D: InPlace, E: InPlace, F: InPlace> InPlace
    for ArchivedTuple6<A, B, C, D, E, F> {
    type Native = (
        A::Native,
        B::Native,
        C::Native,
        D::Native,
        E::Native,
        F::Native,
    );

    ghost in_place = { tuple6_form A.kind B.kind C.kind A.in_place B.in_place C.in_place D.kind D.in_place E.kind E.in_place F.kind F.in_place };

    fn read(
        bytes: &[u8],
    ) -> (
        A::Native,
        B::Native,
        C::Native,
        D::Native,
        E::Native,
        F::Native,
    ) {
        let (((((first, second), third), fourth), fifth), sixth) = read_fields::<
            Next<Next<Next<Next<First<A>, B>, C>, D>, E>,
            F,
        >(bytes);
        (first, second, third, fourth, fifth, sixth)
    }

    /// Writes the fields. The bytes between and after them become zero.
    fn write(
        value: (
            A::Native,
            B::Native,
            C::Native,
            D::Native,
            E::Native,
            F::Native,
        ),
        bytes: &mut [u8],
    ) {
        let front = ((((value.0, value.1), value.2), value.3), value.4);
        write_fields::<Next<Next<Next<Next<First<A>, B>, C>, D>, E>, F>(front, value.5, bytes);
    }

    ghost is_in_place = { tuple_alone (next_alone (next_alone (next_alone (next_alone (first_alone A.laws A.is_in_place) B.laws B.is_in_place) C.laws C.is_in_place) D.laws D.is_in_place) E.laws E.is_in_place)
        F.laws F.is_in_place (λ x. (((((x.0, x.1), x.2), x.3), x.4), x.5)) };
}
