//! The archived `()`, `char` and `NonZeroU32`.
ghost use Rattle.rkyv_btree_portable.specs.InPlace.{scalar_form};
ghost use Rattle.rkyv_btree_portable.specs.laws.InPlace.{scalar_in_place};
ghost use Rattle.rkyv_btree_portable.specs.Natives.{unit_form, char_form, non_zero_form};
ghost use Rattle.rkyv_btree_portable.specs.laws.Natives.{unit_faithful, char_faithful, non_zero_faithful};
ghost use Rattle.rkyv_btree_portable.specs.Refusing.{RefusesWhole};
ghost use Rattle.rkyv_btree_portable.specs.Scalars.{unit_kind};
ghost use Rattle.rkyv_btree_portable.specs.laws.Refusing.{whole_refusals};
ghost use Rattle.rkyv_btree_portable.specs.laws.Scalars.{unit_laws};

use crate::bytes::num32;
use crate::check::{CheckBytes, Portable, Scalar, Window, check_in_place};
use crate::in_place::InPlace;
use crate::little_endian::LittleEndian;
use crate::refusal::Refusal;
use std::num::NonZeroU32;

impl Scalar for () {
    type Native = ();

    ghost form = { unit_form };

    ghost faithful = { unit_faithful };

    fn size_and_align() -> (u32, u32) {
        (0, 1)
    }

    fn read(_bytes: &[u8]) {}

    fn write(_value: (), _bytes: &mut [u8]) {}

    fn is_value(_buf: &[u8], _pos: u32) -> bool {
        true
    }
}

/// A `char`, by its code in four bytes, the least first.
pub type ArchivedChar = LittleEndian<char>;

impl Scalar for ArchivedChar {
    type Native = char;

    ghost form = { char_form };

    ghost faithful = { char_faithful };

    fn size_and_align() -> (u32, u32) {
        (4, 4)
    }

    #[tactic(auto, unfolding(crate::specs::Bytes::number_at))]
    fn read(bytes: &[u8]) -> char {
        // No other code is a value.
        unsafe { char::from_u32_unchecked(num32(bytes, 0)) }
    }

    fn write(value: char, bytes: &mut [u8]) {
        bytes.copy_from_slice(&u32::from(value).to_le_bytes());
    }

    #[tactic(auto, unfolding(crate::specs::Bytes::number_at))]
    fn is_value(buf: &[u8], pos: u32) -> bool {
        char::from_u32(num32(buf, pos)).is_some()
    }
}

/// A `u32` other than 0 in four bytes, the least first.
pub type ArchivedNonZeroU32 = LittleEndian<NonZeroU32>;

impl Scalar for ArchivedNonZeroU32 {
    type Native = NonZeroU32;

    ghost form = { non_zero_form };

    ghost faithful = { non_zero_faithful };

    fn size_and_align() -> (u32, u32) {
        (4, 4)
    }

    #[tactic(auto, unfolding(crate::specs::Bytes::number_at))]
    fn read(bytes: &[u8]) -> NonZeroU32 {
        // 0 is no value.
        unsafe { NonZeroU32::new_unchecked(num32(bytes, 0)) }
    }

    fn write(value: NonZeroU32, bytes: &mut [u8]) {
        bytes.copy_from_slice(&value.get().to_le_bytes());
    }

    #[tactic(auto, unfolding(crate::specs::Bytes::number_at))]
    fn is_value(buf: &[u8], pos: u32) -> bool {
        num32(buf, pos) != 0
    }
}

// A `()` is archived as itself, so what `LittleEndian` has by one impl stands here.
impl Portable for () {
    ghost kind = { unit_kind };

    fn size() -> u32 {
        0
    }

    fn align() -> u32 {
        1
    }

    fn fits() -> bool {
        true
    }

    ghost laws = { unit_laws };
}

impl CheckBytes for () {
    ghost Refuses = { RefusesWhole unit_kind };

    fn check(buf: &[u8], pos: u32, window: Window) -> Result<Window, Refusal> {
        check_in_place::<()>(buf, pos, window)
    }

    ghost refusals = { λ _. whole_refusals unit_laws };
}

impl InPlace for () {
    type Native = ();

    ghost in_place = { scalar_form unit_form };

    fn read(bytes: &[u8]) {
        <() as Scalar>::read(bytes);
    }

    fn write(value: (), bytes: &mut [u8]) {
        <() as Scalar>::write(value, bytes);
    }

    ghost is_in_place = { scalar_in_place unit_faithful };
}
