//! The archived numbers other than 0, without `NonZeroU32`.
ghost use Rattle.std.specs.Prelude.{◌≡◌, ◌+◌, ◌≤◌, length};
ghost use Rattle.rkyv_btree_portable.specs.Bytes.{bytes_at};
ghost use Rattle.rkyv_btree_portable.specs.InPlace.{scalar_form};
ghost use Rattle.rkyv_btree_portable.specs.NonZeros.{non_zero_u8, non_zero_u8_form, non_zero_u8_kind, non_zero_u16, non_zero_u16_form};
ghost use Rattle.rkyv_btree_portable.specs.NonZeros.{non_zero_u64, non_zero_u64_form, non_zero_i8, non_zero_i8_form, non_zero_i8_kind};
ghost use Rattle.rkyv_btree_portable.specs.NonZeros.{non_zero_i16, non_zero_i16_form, non_zero_i32, non_zero_i32_form};
ghost use Rattle.rkyv_btree_portable.specs.NonZeros.{non_zero_i64, non_zero_i64_form};
ghost use Rattle.rkyv_btree_portable.specs.Refusing.{RefusesWhole};
ghost use Rattle.rkyv_btree_portable.specs.laws.InPlace.{scalar_in_place};
ghost use Rattle.rkyv_btree_portable.specs.laws.NonZeros.{non_zero_u8_laws, non_zero_u8_faithful, non_zero_u16_faithful};
ghost use Rattle.rkyv_btree_portable.specs.laws.NonZeros.{non_zero_u64_faithful, non_zero_i8_laws, non_zero_i8_faithful};
ghost use Rattle.rkyv_btree_portable.specs.laws.NonZeros.{non_zero_i16_faithful, non_zero_i32_faithful, non_zero_i64_faithful};
ghost use Rattle.rkyv_btree_portable.specs.laws.Refusing.{whole_refusals};

use crate::check::{CheckBytes, Portable, Scalar, Window, check_in_place};
use crate::in_place::InPlace;
use crate::little_endian::LittleEndian;
use crate::refusal::Refusal;
use std::num::{NonZeroI8, NonZeroI16, NonZeroI32, NonZeroI64, NonZeroU8, NonZeroU16, NonZeroU64};

/// Returns a number as one that isn't 0. For 0 it returns the least number of the type.
pub fn non_zero_u8(number: u8) -> NonZeroU8
    ensures { result ≡ non_zero_u8 number }
{
    NonZeroU8::new(number).unwrap_or(NonZeroU8::MIN)
}

/// Returns a number as one that isn't 0. For 0 it returns the least number of the type.
pub fn non_zero_u16(number: u16) -> NonZeroU16
    ensures { result ≡ non_zero_u16 number }
{
    NonZeroU16::new(number).unwrap_or(NonZeroU16::MIN)
}

/// Returns a number as one that isn't 0. For 0 it returns the least number of the type.
pub fn non_zero_u64(number: u64) -> NonZeroU64
    ensures { result ≡ non_zero_u64 number }
{
    NonZeroU64::new(number).unwrap_or(NonZeroU64::MIN)
}

/// Returns a number as one that isn't 0. For 0 it returns the least number of the type.
pub fn non_zero_i8(number: i8) -> NonZeroI8
    ensures { result ≡ non_zero_i8 number }
{
    NonZeroI8::new(number).unwrap_or(NonZeroI8::MIN)
}

/// Returns a number as one that isn't 0. For 0 it returns the least number of the type.
pub fn non_zero_i16(number: i16) -> NonZeroI16
    ensures { result ≡ non_zero_i16 number }
{
    NonZeroI16::new(number).unwrap_or(NonZeroI16::MIN)
}

/// Returns a number as one that isn't 0. For 0 it returns the least number of the type.
pub fn non_zero_i32(number: i32) -> NonZeroI32
    ensures { result ≡ non_zero_i32 number }
{
    NonZeroI32::new(number).unwrap_or(NonZeroI32::MIN)
}

/// Returns a number as one that isn't 0. For 0 it returns the least number of the type.
pub fn non_zero_i64(number: i64) -> NonZeroI64
    ensures { result ≡ non_zero_i64 number }
{
    NonZeroI64::new(number).unwrap_or(NonZeroI64::MIN)
}

impl Scalar for NonZeroU8 {
    type Native = NonZeroU8;

    ghost form = { non_zero_u8_form };

    ghost faithful = { non_zero_u8_faithful };

    fn size_and_align() -> (u32, u32) {
        (1, 1)
    }

    fn read(bytes: &[u8]) -> NonZeroU8 {
        non_zero_u8(bytes[0])
    }

    fn write(value: NonZeroU8, bytes: &mut [u8]) {
        bytes.copy_from_slice(&value.get().to_le_bytes());
    }

    fn is_value(buf: &[u8], pos: u32) -> bool {
        buf[pos as usize] != 0
    }
}

/// A `u16` other than 0 in two bytes, the least first.
pub type ArchivedNonZeroU16 = LittleEndian<NonZeroU16>;

impl Scalar for ArchivedNonZeroU16 {
    type Native = NonZeroU16;

    ghost form = { non_zero_u16_form };

    ghost faithful = { non_zero_u16_faithful };

    fn size_and_align() -> (u32, u32) {
        (2, 2)
    }

    fn read(bytes: &[u8]) -> NonZeroU16 {
        non_zero_u16(u16::from_le_bytes([bytes[0], bytes[1]]))
    }

    fn write(value: NonZeroU16, bytes: &mut [u8]) {
        bytes.copy_from_slice(&value.get().to_le_bytes());
    }

    fn is_value(buf: &[u8], pos: u32) -> bool {
        let at = pos as usize;
        u16::from_le_bytes([buf[at], buf[at + 1]]) != 0
    }
}

/// A `u64` other than 0 in eight bytes, the least first.
pub type ArchivedNonZeroU64 = LittleEndian<NonZeroU64>;

impl Scalar for ArchivedNonZeroU64 {
    type Native = NonZeroU64;

    ghost form = { non_zero_u64_form };

    ghost faithful = { non_zero_u64_faithful };

    fn size_and_align() -> (u32, u32) {
        (8, 8)
    }

    fn read(bytes: &[u8]) -> NonZeroU64 {
        non_zero_u64(u64::from_le_bytes([
            bytes[0], bytes[1], bytes[2], bytes[3], bytes[4], bytes[5], bytes[6], bytes[7],
        ]))
    }

    fn write(value: NonZeroU64, bytes: &mut [u8]) {
        bytes.copy_from_slice(&value.get().to_le_bytes());
    }

    fn is_value(buf: &[u8], pos: u32) -> bool {
        let at = pos as usize;
        u64::from_le_bytes([
            buf[at],
            buf[at + 1],
            buf[at + 2],
            buf[at + 3],
            buf[at + 4],
            buf[at + 5],
            buf[at + 6],
            buf[at + 7],
        ]) != 0
    }
}

impl Scalar for NonZeroI8 {
    type Native = NonZeroI8;

    ghost form = { non_zero_i8_form };

    ghost faithful = { non_zero_i8_faithful };

    fn size_and_align() -> (u32, u32) {
        (1, 1)
    }

    fn read(bytes: &[u8]) -> NonZeroI8 {
        non_zero_i8(bytes[0].cast_signed())
    }

    fn write(value: NonZeroI8, bytes: &mut [u8]) {
        bytes.copy_from_slice(&value.get().to_le_bytes());
    }

    fn is_value(buf: &[u8], pos: u32) -> bool {
        buf[pos as usize].cast_signed() != 0
    }
}

/// An `i16` other than 0 in two bytes, the least first, in two's complement.
pub type ArchivedNonZeroI16 = LittleEndian<NonZeroI16>;

impl Scalar for ArchivedNonZeroI16 {
    type Native = NonZeroI16;

    ghost form = { non_zero_i16_form };

    ghost faithful = { non_zero_i16_faithful };

    fn size_and_align() -> (u32, u32) {
        (2, 2)
    }

    fn read(bytes: &[u8]) -> NonZeroI16 {
        non_zero_i16(u16::from_le_bytes([bytes[0], bytes[1]]).cast_signed())
    }

    fn write(value: NonZeroI16, bytes: &mut [u8]) {
        bytes.copy_from_slice(&value.get().to_le_bytes());
    }

    fn is_value(buf: &[u8], pos: u32) -> bool {
        let at = pos as usize;
        u16::from_le_bytes([buf[at], buf[at + 1]]).cast_signed() != 0
    }
}

/// An `i32` other than 0 in four bytes, the least first, in two's complement.
pub type ArchivedNonZeroI32 = LittleEndian<NonZeroI32>;

impl Scalar for ArchivedNonZeroI32 {
    type Native = NonZeroI32;

    ghost form = { non_zero_i32_form };

    ghost faithful = { non_zero_i32_faithful };

    fn size_and_align() -> (u32, u32) {
        (4, 4)
    }

    fn read(bytes: &[u8]) -> NonZeroI32 {
        non_zero_i32(u32::from_le_bytes([bytes[0], bytes[1], bytes[2], bytes[3]]).cast_signed())
    }

    fn write(value: NonZeroI32, bytes: &mut [u8]) {
        bytes.copy_from_slice(&value.get().to_le_bytes());
    }

    fn is_value(buf: &[u8], pos: u32) -> bool {
        let at = pos as usize;
        u32::from_le_bytes([buf[at], buf[at + 1], buf[at + 2], buf[at + 3]]).cast_signed() != 0
    }
}

/// An `i64` other than 0 in eight bytes, the least first, in two's complement.
pub type ArchivedNonZeroI64 = LittleEndian<NonZeroI64>;

impl Scalar for ArchivedNonZeroI64 {
    type Native = NonZeroI64;

    ghost form = { non_zero_i64_form };

    ghost faithful = { non_zero_i64_faithful };

    fn size_and_align() -> (u32, u32) {
        (8, 8)
    }

    fn read(bytes: &[u8]) -> NonZeroI64 {
        non_zero_i64(u64::from_le_bytes([
            bytes[0], bytes[1], bytes[2], bytes[3], bytes[4], bytes[5], bytes[6], bytes[7],
        ])
        .cast_signed())
    }

    fn write(value: NonZeroI64, bytes: &mut [u8]) {
        bytes.copy_from_slice(&value.get().to_le_bytes());
    }

    fn is_value(buf: &[u8], pos: u32) -> bool {
        let at = pos as usize;
        u64::from_le_bytes([
            buf[at],
            buf[at + 1],
            buf[at + 2],
            buf[at + 3],
            buf[at + 4],
            buf[at + 5],
            buf[at + 6],
            buf[at + 7],
        ])
        .cast_signed()
            != 0
    }
}

// A number of one byte is archived as itself, so what `LittleEndian` has by one impl stands here for each.
impl Portable for NonZeroU8 {
    ghost kind = { non_zero_u8_kind };

    fn size() -> u32 {
        1
    }

    fn align() -> u32 {
        1
    }

    fn fits() -> bool {
        true
    }

    ghost laws = { non_zero_u8_laws };
}

impl CheckBytes for NonZeroU8 {
    ghost Refuses = { RefusesWhole non_zero_u8_kind };

    fn check(buf: &[u8], pos: u32, window: Window) -> Result<Window, Refusal> {
        check_in_place::<NonZeroU8>(buf, pos, window)
    }

    ghost refusals = { λ _. whole_refusals non_zero_u8_laws };
}

impl InPlace for NonZeroU8 {
    type Native = NonZeroU8;

    ghost in_place = { scalar_form non_zero_u8_form };

    fn read(bytes: &[u8]) -> NonZeroU8 {
        <NonZeroU8 as Scalar>::read(bytes)
    }

    fn write(value: NonZeroU8, bytes: &mut [u8]) {
        <NonZeroU8 as Scalar>::write(value, bytes);
    }

    ghost is_in_place = { scalar_in_place non_zero_u8_faithful };
}

impl Portable for NonZeroI8 {
    ghost kind = { non_zero_i8_kind };

    fn size() -> u32 {
        1
    }

    fn align() -> u32 {
        1
    }

    fn fits() -> bool {
        true
    }

    ghost laws = { non_zero_i8_laws };
}

impl CheckBytes for NonZeroI8 {
    ghost Refuses = { RefusesWhole non_zero_i8_kind };

    fn check(buf: &[u8], pos: u32, window: Window) -> Result<Window, Refusal> {
        check_in_place::<NonZeroI8>(buf, pos, window)
    }

    ghost refusals = { λ _. whole_refusals non_zero_i8_laws };
}

impl InPlace for NonZeroI8 {
    type Native = NonZeroI8;

    ghost in_place = { scalar_form non_zero_i8_form };

    fn read(bytes: &[u8]) -> NonZeroI8 {
        <NonZeroI8 as Scalar>::read(bytes)
    }

    fn write(value: NonZeroI8, bytes: &mut [u8]) {
        <NonZeroI8 as Scalar>::write(value, bytes);
    }

    ghost is_in_place = { scalar_in_place non_zero_i8_faithful };
}
