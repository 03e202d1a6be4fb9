//! The archived numbers with a sign.
ghost use Rattle.rkyv_btree_portable.specs.InPlace.{scalar_form};
ghost use Rattle.rkyv_btree_portable.specs.laws.InPlace.{scalar_in_place};
ghost use Rattle.rkyv_btree_portable.specs.Natives.{i8_form, i16_form, i32_form, i64_form};
ghost use Rattle.rkyv_btree_portable.specs.laws.Natives.{i8_faithful, i16_faithful, i32_faithful, i64_faithful};
ghost use Rattle.rkyv_btree_portable.specs.Refusing.{RefusesWhole};
ghost use Rattle.rkyv_btree_portable.specs.Scalars.{i8_kind};
ghost use Rattle.rkyv_btree_portable.specs.laws.Refusing.{whole_refusals};
ghost use Rattle.rkyv_btree_portable.specs.laws.Scalars.{i8_laws};

use crate::bytes::num32;
use crate::check::{CheckBytes, Portable, Scalar, Window, check_in_place};
use crate::in_place::InPlace;
use crate::little_endian::LittleEndian;
use crate::refusal::Refusal;

impl Scalar for i8 {
    type Native = i8;

    ghost form = { i8_form };

    ghost faithful = { i8_faithful };

    fn size_and_align() -> (u32, u32) {
        (1, 1)
    }

    fn read(bytes: &[u8]) -> i8 {
        bytes[0].cast_signed()
    }

    fn write(value: i8, bytes: &mut [u8]) {
        bytes.copy_from_slice(&value.to_le_bytes());
    }

    fn is_value(_buf: &[u8], _pos: u32) -> bool {
        true
    }
}

/// An `i16` in two bytes, the least first, in two's complement.
pub type ArchivedI16 = LittleEndian<i16>;

impl Scalar for ArchivedI16 {
    type Native = i16;

    ghost form = { i16_form };

    ghost faithful = { i16_faithful };

    fn size_and_align() -> (u32, u32) {
        (2, 2)
    }

    fn read(bytes: &[u8]) -> i16 {
        u16::from_le_bytes([bytes[0], bytes[1]]).cast_signed()
    }

    fn write(value: i16, bytes: &mut [u8]) {
        bytes.copy_from_slice(&value.to_le_bytes());
    }

    fn is_value(_buf: &[u8], _pos: u32) -> bool {
        true
    }
}

/// An `i32` in four bytes, the least first, in two's complement.
pub type ArchivedI32 = LittleEndian<i32>;

impl Scalar for ArchivedI32 {
    type Native = i32;

    ghost form = { i32_form };

    ghost faithful = { i32_faithful };

    fn size_and_align() -> (u32, u32) {
        (4, 4)
    }

    #[tactic(auto, unfolding(crate::specs::Bytes::number_at))]
    fn read(bytes: &[u8]) -> i32 {
        num32(bytes, 0).cast_signed()
    }

    fn write(value: i32, bytes: &mut [u8]) {
        bytes.copy_from_slice(&value.to_le_bytes());
    }

    fn is_value(_buf: &[u8], _pos: u32) -> bool {
        true
    }
}

/// An `i64` in eight bytes, the least first, in two's complement.
pub type ArchivedI64 = LittleEndian<i64>;

impl Scalar for ArchivedI64 {
    type Native = i64;

    ghost form = { i64_form };

    ghost faithful = { i64_faithful };

    fn size_and_align() -> (u32, u32) {
        (8, 8)
    }

    fn read(bytes: &[u8]) -> i64 {
        u64::from_le_bytes([
            bytes[0], bytes[1], bytes[2], bytes[3], bytes[4], bytes[5], bytes[6], bytes[7],
        ])
        .cast_signed()
    }

    fn write(value: i64, bytes: &mut [u8]) {
        bytes.copy_from_slice(&value.to_le_bytes());
    }

    fn is_value(_buf: &[u8], _pos: u32) -> bool {
        true
    }
}

// An `i8` is archived as itself, so what `LittleEndian` has by one impl stands here.
impl Portable for i8 {
    ghost kind = { i8_kind };

    fn size() -> u32 {
        1
    }

    fn align() -> u32 {
        1
    }

    fn fits() -> bool {
        true
    }

    ghost laws = { i8_laws };
}

impl CheckBytes for i8 {
    ghost Refuses = { RefusesWhole i8_kind };

    fn check(buf: &[u8], pos: u32, window: Window) -> Result<Window, Refusal> {
        check_in_place::<i8>(buf, pos, window)
    }

    ghost refusals = { λ _. whole_refusals i8_laws };
}

impl InPlace for i8 {
    type Native = i8;

    ghost in_place = { scalar_form i8_form };

    fn read(bytes: &[u8]) -> i8 {
        <i8 as Scalar>::read(bytes)
    }

    fn write(value: i8, bytes: &mut [u8]) {
        <i8 as Scalar>::write(value, bytes);
    }

    ghost is_in_place = { scalar_in_place i8_faithful };
}
