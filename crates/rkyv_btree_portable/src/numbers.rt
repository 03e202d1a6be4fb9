//! The archived numbers without a sign, and `bool`.
ghost use Rattle.rkyv_btree_portable.specs.InPlace.{scalar_form};
ghost use Rattle.rkyv_btree_portable.specs.laws.InPlace.{scalar_in_place};
ghost use Rattle.rkyv_btree_portable.specs.Natives.{u8_form, u16_form, u32_form, u64_form, bool_form};
ghost use Rattle.rkyv_btree_portable.specs.laws.Natives.{u8_faithful, u16_faithful, u32_faithful, u64_faithful, bool_faithful};
ghost use Rattle.rkyv_btree_portable.specs.Refusing.{RefusesWhole};
ghost use Rattle.rkyv_btree_portable.specs.Scalars.{u8_kind, bool_kind};
ghost use Rattle.rkyv_btree_portable.specs.laws.Refusing.{whole_refusals};
ghost use Rattle.rkyv_btree_portable.specs.laws.Scalars.{u8_laws, bool_laws};

use crate::bytes::num32;
use crate::check::{CheckBytes, Portable, Scalar, Window, check_in_place};
use crate::in_place::InPlace;
use crate::little_endian::LittleEndian;
use crate::refusal::Refusal;

/// The byte of `true`. That of `false` is 0, and no other byte is a `bool`.
const TRUE: u8 = 1;

impl Scalar for u8 {
    type Native = u8;

    ghost form = { u8_form };

    ghost faithful = { u8_faithful };

    fn size_and_align() -> (u32, u32) {
        (1, 1)
    }

    fn read(bytes: &[u8]) -> u8 {
        bytes[0]
    }

    fn write(value: u8, bytes: &mut [u8]) {
        bytes.copy_from_slice(&value.to_le_bytes());
    }

    fn is_value(_buf: &[u8], _pos: u32) -> bool {
        true
    }
}

/// A `u16` in two bytes, the least first.
pub type ArchivedU16 = LittleEndian<u16>;

impl Scalar for ArchivedU16 {
    type Native = u16;

    ghost form = { u16_form };

    ghost faithful = { u16_faithful };

    fn size_and_align() -> (u32, u32) {
        (2, 2)
    }

    fn read(bytes: &[u8]) -> u16 {
        u16::from_le_bytes([bytes[0], bytes[1]])
    }

    fn write(value: u16, bytes: &mut [u8]) {
        bytes.copy_from_slice(&value.to_le_bytes());
    }

    fn is_value(_buf: &[u8], _pos: u32) -> bool {
        true
    }
}

/// A `u32` in four bytes, the least first.
pub type ArchivedU32 = LittleEndian<u32>;

impl Scalar for ArchivedU32 {
    type Native = u32;

    ghost form = { u32_form };

    ghost faithful = { u32_faithful };

    fn size_and_align() -> (u32, u32) {
        (4, 4)
    }

    #[tactic(auto, unfolding(crate::specs::Bytes::number_at))]
    fn read(bytes: &[u8]) -> u32 {
        num32(bytes, 0)
    }

    fn write(value: u32, bytes: &mut [u8]) {
        bytes.copy_from_slice(&value.to_le_bytes());
    }

    fn is_value(_buf: &[u8], _pos: u32) -> bool {
        true
    }
}

/// A `u64` in eight bytes, the least first.
pub type ArchivedU64 = LittleEndian<u64>;

impl Scalar for ArchivedU64 {
    type Native = u64;

    ghost form = { u64_form };

    ghost faithful = { u64_faithful };

    fn size_and_align() -> (u32, u32) {
        (8, 8)
    }

    fn read(bytes: &[u8]) -> u64 {
        u64::from_le_bytes([
            bytes[0], bytes[1], bytes[2], bytes[3], bytes[4], bytes[5], bytes[6], bytes[7],
        ])
    }

    fn write(value: u64, bytes: &mut [u8]) {
        bytes.copy_from_slice(&value.to_le_bytes());
    }

    fn is_value(_buf: &[u8], _pos: u32) -> bool {
        true
    }
}

impl Scalar for bool {
    type Native = bool;

    ghost form = { bool_form };

    ghost faithful = { bool_faithful };

    fn size_and_align() -> (u32, u32) {
        (1, 1)
    }

    fn read(bytes: &[u8]) -> bool {
        bytes[0] == TRUE
    }

    fn write(value: bool, bytes: &mut [u8]) {
        bytes[0] = u8::from(value);
    }

    fn is_value(buf: &[u8], pos: u32) -> bool {
        buf[pos as usize] <= TRUE
    }
}

// A `u8` and a `bool` are archived as themselves, so what `LittleEndian` has by one impl stands here for each.
impl Portable for u8 {
    ghost kind = { u8_kind };

    fn size() -> u32 {
        1
    }

    fn align() -> u32 {
        1
    }

    fn fits() -> bool {
        true
    }

    ghost laws = { u8_laws };
}

impl CheckBytes for u8 {
    ghost Refuses = { RefusesWhole u8_kind };

    fn check(buf: &[u8], pos: u32, window: Window) -> Result<Window, Refusal> {
        check_in_place::<u8>(buf, pos, window)
    }

    ghost refusals = { λ _. whole_refusals u8_laws };
}

impl InPlace for u8 {
    type Native = u8;

    ghost in_place = { scalar_form u8_form };

    fn read(bytes: &[u8]) -> u8 {
        <u8 as Scalar>::read(bytes)
    }

    fn write(value: u8, bytes: &mut [u8]) {
        <u8 as Scalar>::write(value, bytes);
    }

    ghost is_in_place = { scalar_in_place u8_faithful };
}

impl Portable for bool {
    ghost kind = { bool_kind };

    fn size() -> u32 {
        1
    }

    fn align() -> u32 {
        1
    }

    fn fits() -> bool {
        true
    }

    ghost laws = { bool_laws };
}

impl CheckBytes for bool {
    ghost Refuses = { RefusesWhole bool_kind };

    fn check(buf: &[u8], pos: u32, window: Window) -> Result<Window, Refusal> {
        check_in_place::<bool>(buf, pos, window)
    }

    ghost refusals = { λ _. whole_refusals bool_laws };
}

impl InPlace for bool {
    type Native = bool;

    ghost in_place = { scalar_form bool_form };

    fn read(bytes: &[u8]) -> bool {
        <bool as Scalar>::read(bytes)
    }

    fn write(value: bool, bytes: &mut [u8]) {
        <bool as Scalar>::write(value, bytes);
    }

    ghost is_in_place = { scalar_in_place bool_faithful };
}
