//! The first fields of tuples whose values lie in their own bytes alone.
ghost use Rattle.std.specs.Prelude.{◌≡◌, ◌≤◌, IsTrue, length};
ghost use Rattle.rkyv_btree_compound.specs.Joined.{joined_end, joined_kind};
ghost use Rattle.rkyv_btree_compound.specs.TupleInPlace.{joined_bytes, front_form};
ghost use Rattle.rkyv_btree_compound.specs.Tuples.{front_kind};
ghost use Rattle.rkyv_btree_compound.specs.laws.TupleInPlaceLaws.{LieAlone, first_alone, next_alone};
ghost use Rattle.rkyv_btree_portable.specs.Bytes.{bytes_at};
ghost use Rattle.rkyv_btree_portable.specs.Entry.{value_offset};
ghost use Rattle.rkyv_btree_portable.specs.InPlace.{InPlaceForm, IsOwn};

use crate::front::{CheckFront, First, Next, TupleFront, next_offset};
use rkyv_btree_portable::check::Portable;
use rkyv_btree_portable::in_place::InPlace;

/// The first fields of a tuple, whose values lie in their own bytes alone.
pub trait InPlaceFront: CheckFront {
    /// The type of the fields' values: one value, or those of the fields before the last, and that of the last.
    type Native: Copy + Drop;

    /// The own bytes of native values, and what own bytes tell of them.
    ghost in_place: { InPlaceForm Self.Native };

    /// Returns the values that own bytes mean.
    fn read_front(bytes: &[u8]) -> Self::Native
        requires fitting { IsTrue Self.kind.is_fitting }
        requires is_own { IsOwn Self.kind bytes.now }
        ensures { in_place.model result ≡ in_place.model_of_bytes bytes.now };

    /// Writes the own bytes of the fields' values. What is read of them are the values again.
    fn write_front(value: Self::Native, bytes: &mut [u8])
        requires fitting { IsTrue Self.kind.is_fitting }
        requires size { length bytes.old ≡ Self.kind.size }
        ensures bytes { bytes.new ≡ in_place.own_bytes value }
        ensures model { in_place.model_of_bytes (in_place.own_bytes value) ≡ in_place.model value };

    ghost alone: { LieAlone Self.kind in_place };
}

/// Returns the values of the first fields and of the next one, of bytes that are both fields' own.
pub fn read_next<P: InPlaceFront, L: InPlace>(bytes: &[u8]) -> (P::Native, L::Native)
    requires room { joined_end P.kind L.kind ≤ length bytes.now }
    requires fitting { IsTrue (joined_kind P.kind L.kind (length bytes.now)).is_fitting }
    requires is_own { IsOwn (joined_kind P.kind L.kind (length bytes.now)) bytes.now }
    ensures front { P.in_place.model result.0
        ≡ P.in_place.model_of_bytes (bytes_at bytes.now 0 P.kind.size) }
    ensures last { L.in_place.model result.1
        ≡ L.in_place.model_of_bytes (bytes_at bytes.now (value_offset P.kind L.kind) L.kind.size) }
{
    let offset = next_offset::<P, L>() as usize;
    let front = P::read_front(&bytes[..P::end() as usize]);
    let last = L::read(&bytes[offset..offset + L::size() as usize]);
    (front, last)
}

/// Writes the first fields and the next one. The bytes between and after them become zero.
pub fn write_next<P: InPlaceFront, L: InPlace>(front: P::Native, last: L::Native, bytes: &mut [u8])
    requires fitting { IsTrue (front_kind P.kind L.kind).is_fitting }
    requires room { joined_end P.kind L.kind ≤ length bytes.old }
    ensures bytes { bytes.new ≡ joined_bytes P.kind L.kind (length bytes.old)
        (P.in_place.own_bytes front) (L.in_place.own_bytes last) }
    ensures front { P.in_place.model_of_bytes (P.in_place.own_bytes front)
        ≡ P.in_place.model front }
    ensures last { L.in_place.model_of_bytes (L.in_place.own_bytes last)
        ≡ L.in_place.model last }
{
    bytes.fill(0);
    let (first, second) = bytes.split_at_mut(next_offset::<P, L>() as usize);
    P::write_front(front, &mut first[..P::end() as usize]);
    L::write(last, &mut second[..L::size() as usize]);
}

impl<A: InPlace> InPlaceFront for First<A> {
    type Native = A::Native;

    ghost in_place = { A.in_place };

    fn read_front(bytes: &[u8]) -> A::Native {
        A::read(bytes)
    }

    fn write_front(value: A::Native, bytes: &mut [u8]) {
        A::write(value, bytes);
    }

    ghost alone = { first_alone A.laws A.is_in_place };
}

impl<P: InPlaceFront, L: InPlace> InPlaceFront for Next<P, L> {
    type Native = (P::Native, L::Native);

    ghost in_place = { front_form P.kind L.kind P.in_place L.in_place };

    fn read_front(bytes: &[u8]) -> (P::Native, L::Native) {
        read_next::<P, L>(bytes)
    }

    fn write_front(value: (P::Native, L::Native), bytes: &mut [u8]) {
        write_next::<P, L>(value.0, value.1, bytes);
    }

    ghost alone = { next_alone P.alone L.laws L.is_in_place };
}
