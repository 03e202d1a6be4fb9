//! The archived types of plain values.
ghost use Rattle.std.specs.Prelude.{◌≡◌, true, IsTrue};
ghost use Rattle.rkyv_btree_portable.specs.InPlace.{scalar_form};
ghost use Rattle.rkyv_btree_portable.specs.Plain.{plain_kind};
ghost use Rattle.rkyv_btree_portable.specs.Refusing.{RefusesWhole};
ghost use Rattle.rkyv_btree_portable.specs.laws.InPlace.{scalar_in_place};
ghost use Rattle.rkyv_btree_portable.specs.laws.Refusing.{whole_refusals};
ghost use Rattle.rkyv_btree_plain.specs.PlainValues.{plain_of, plain_form};
ghost use Rattle.rkyv_btree_plain.specs.laws.PlainValues.{plain_faithful};
ghost use Rattle.rkyv_btree_view.specs.Native.{as_itself};

use crate::plain_value::PlainValue;
use rkyv_btree_convert::deserialize_native::DeserializeNative;
use rkyv_btree_convert::entry_type::EntryType;
use rkyv_btree_portable::check::{CheckBytes, Portable, Scalar, Window, check_in_place};
use rkyv_btree_portable::in_place::InPlace;
use rkyv_btree_portable::refusal::Refusal;
use rkyv_btree_view::native::ToNative;
use rkyv_btree_view::view::View;
use std::marker::PhantomData;

/// A plain value of a native type `N`, in its own bytes.
pub struct ArchivedPlain<N> {
    of: PhantomData<N>,
}

impl<N: PlainValue> Scalar for ArchivedPlain<N> {
    type Native = N;

    ghost form = { plain_form N.eq N.cmp N.hash_input N.layout };

    ghost faithful = { plain_faithful N.eq N.cmp N.hash_input N.lawful };

    fn size_and_align() -> (u32, u32) {
        N::size_and_align()
    }

    fn read(bytes: &[u8]) -> N {
        N::from_bytes(bytes)
    }

    fn write(value: N, bytes: &mut [u8]) {
        value.is_in();
        value.write_bytes(bytes);
    }

    fn is_value(buf: &[u8], pos: u32) -> bool {
        let at = pos as usize;
        N::is_value(&buf[at..at + N::size_and_align().0 as usize])
    }
}

impl<N: PlainValue> Portable for ArchivedPlain<N> {
    ghost kind = { plain_kind (plain_of N.eq N.cmp N.hash_input N.layout) };

    fn size() -> u32 {
        N::size_and_align().0
    }

    fn align() -> u32 {
        N::size_and_align().1
    }

    fn fits() -> bool {
        true
    }

    ghost laws = { (plain_faithful N.eq N.cmp N.hash_input N.lawful).lawful };
}

impl<N: PlainValue> CheckBytes for ArchivedPlain<N> {
    ghost Refuses = { RefusesWhole (plain_kind (plain_of N.eq N.cmp N.hash_input N.layout)) };

    fn check(buf: &[u8], pos: u32, window: Window) -> Result<Window, Refusal> {
        check_in_place::<ArchivedPlain<N>>(buf, pos, window)
    }

    ghost refusals = { λ _. whole_refusals
        (plain_faithful N.eq N.cmp N.hash_input N.lawful).lawful };
}

impl<N: PlainValue> InPlace for ArchivedPlain<N> {
    type Native = N;

    ghost in_place = { scalar_form (plain_form N.eq N.cmp N.hash_input N.layout) };

    fn read(bytes: &[u8]) -> N {
        N::from_bytes(bytes)
    }

    fn write(value: N, bytes: &mut [u8]) {
        <ArchivedPlain<N> as Scalar>::write(value, bytes);
    }

    ghost is_in_place = { scalar_in_place (plain_faithful N.eq N.cmp N.hash_input N.lawful) };
}

impl<N: PlainValue> ToNative for ArchivedPlain<N> {
    type Native = N;

    ghost read_native = { (plain_kind (plain_of N.eq N.cmp N.hash_input N.layout)).read };

    fn native(view: &View<'_, ArchivedPlain<N>>) -> N {
        let at = view.pos as usize;
        N::from_bytes(&view.buf[at..at + N::size_and_align().0 as usize])
    }

    ghost read_as = { as_itself (plain_kind (plain_of N.eq N.cmp N.hash_input N.layout)) };
}

impl<N: PlainValue> DeserializeNative for ArchivedPlain<N> {}

impl<N: PlainValue> EntryType for ArchivedPlain<N> {
    type Owned = N;
}
