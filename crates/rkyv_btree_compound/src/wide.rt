//! Archived numbers of 128 bits, and those other than 0.
ghost use Rattle.std.specs.Prelude.{◌≡◌, ◌+◌, ◌≤◌, length};
ghost use Rattle.rkyv_btree_compound.specs.Wide.{u128_form, i128_form, non_zero_u128, non_zero_u128_form, non_zero_i128};
ghost use Rattle.rkyv_btree_compound.specs.Wide.{non_zero_i128_form, u128_kind, i128_kind, non_zero_u128_kind, non_zero_i128_kind};
ghost use Rattle.rkyv_btree_compound.specs.laws.WideLaws.{u128_faithful, i128_faithful, non_zero_u128_faithful};
ghost use Rattle.rkyv_btree_compound.specs.laws.WideLaws.{non_zero_i128_faithful};
ghost use Rattle.rkyv_btree_portable.specs.Bytes.{bytes_at, from_le};
ghost use Rattle.rkyv_btree_portable.specs.InPlace.{scalar_form};
ghost use Rattle.rkyv_btree_portable.specs.Plain.{plain_kind};
ghost use Rattle.rkyv_btree_portable.specs.Refusing.{RefusesWhole};
ghost use Rattle.rkyv_btree_portable.specs.laws.InPlace.{scalar_in_place};
ghost use Rattle.rkyv_btree_portable.specs.laws.Refusing.{whole_refusals};
ghost use Rattle.rkyv_btree_view.specs.Native.{as_itself};

use rkyv_btree_portable::check::{CheckBytes, Portable, Scalar, Window, check_in_place};
use rkyv_btree_portable::in_place::InPlace;
use rkyv_btree_portable::refusal::Refusal;
use rkyv_btree_view::native::ToNative;
use rkyv_btree_view::view::View;
use std::marker::PhantomData;
use std::num::{NonZeroI128, NonZeroU128};

/// The number of own bytes, and what their position is a multiple of.
const SIZE_AND_ALIGN: (u32, u32) = (16, 16);

/// A number in 16 bytes, the least first, aligned to 16.
pub struct ArchivedWide<N> {
    of: PhantomData<N>,
}

/// A `u128` in 16 bytes, the least first.
pub type ArchivedU128 = ArchivedWide<u128>;

/// An `i128` in 16 bytes, the least first, in two's complement.
pub type ArchivedI128 = ArchivedWide<i128>;

/// A `u128` other than 0 in 16 bytes, the least first.
pub type ArchivedNonZeroU128 = ArchivedWide<NonZeroU128>;

/// An `i128` other than 0 in 16 bytes, the least first, in two's complement.
pub type ArchivedNonZeroI128 = ArchivedWide<NonZeroI128>;

/// Returns the number of the 16 bytes at `pos`.
fn num128(buf: &[u8], pos: u32) -> u128
    requires { pos + 16 ≤ length buf.now }
    ensures { result ≡ from_le (bytes_at buf.now pos 16) }
{
    let at = pos as usize;
    u128::from_le_bytes([
        buf[at],
        buf[at + 1],
        buf[at + 2],
        buf[at + 3],
        buf[at + 4],
        buf[at + 5],
        buf[at + 6],
        buf[at + 7],
        buf[at + 8],
        buf[at + 9],
        buf[at + 10],
        buf[at + 11],
        buf[at + 12],
        buf[at + 13],
        buf[at + 14],
        buf[at + 15],
    ])
}

/// Returns a number as one that isn't 0. For 0 it returns the least number of the type.
pub fn non_zero_u128(number: u128) -> NonZeroU128
    ensures { result ≡ non_zero_u128 number }
{
    NonZeroU128::new(number).unwrap_or(NonZeroU128::MIN)
}

/// Returns a number as one that isn't 0. For 0 it returns the least number of the type.
pub fn non_zero_i128(number: i128) -> NonZeroI128
    ensures { result ≡ non_zero_i128 number }
{
    NonZeroI128::new(number).unwrap_or(NonZeroI128::MIN)
}

impl Scalar for ArchivedU128 {
    type Native = u128;

    ghost form = { u128_form };

    ghost faithful = { u128_faithful };

    fn size_and_align() -> (u32, u32) {
        SIZE_AND_ALIGN
    }

    fn read(bytes: &[u8]) -> u128 {
        num128(bytes, 0)
    }

    fn write(value: u128, bytes: &mut [u8]) {
        bytes.copy_from_slice(&value.to_le_bytes());
    }

    fn is_value(_buf: &[u8], _pos: u32) -> bool {
        true
    }
}

impl Scalar for ArchivedI128 {
    type Native = i128;

    ghost form = { i128_form };

    ghost faithful = { i128_faithful };

    fn size_and_align() -> (u32, u32) {
        SIZE_AND_ALIGN
    }

    fn read(bytes: &[u8]) -> i128 {
        num128(bytes, 0).cast_signed()
    }

    fn write(value: i128, bytes: &mut [u8]) {
        bytes.copy_from_slice(&value.to_le_bytes());
    }

    fn is_value(_buf: &[u8], _pos: u32) -> bool {
        true
    }
}

impl Scalar for ArchivedNonZeroU128 {
    type Native = NonZeroU128;

    ghost form = { non_zero_u128_form };

    ghost faithful = { non_zero_u128_faithful };

    fn size_and_align() -> (u32, u32) {
        SIZE_AND_ALIGN
    }

    fn read(bytes: &[u8]) -> NonZeroU128 {
        non_zero_u128(num128(bytes, 0))
    }

    fn write(value: NonZeroU128, bytes: &mut [u8]) {
        bytes.copy_from_slice(&value.get().to_le_bytes());
    }

    fn is_value(buf: &[u8], pos: u32) -> bool {
        num128(buf, pos) != 0
    }
}

impl Scalar for ArchivedNonZeroI128 {
    type Native = NonZeroI128;

    ghost form = { non_zero_i128_form };

    ghost faithful = { non_zero_i128_faithful };

    fn size_and_align() -> (u32, u32) {
        SIZE_AND_ALIGN
    }

    fn read(bytes: &[u8]) -> NonZeroI128 {
        non_zero_i128(num128(bytes, 0).cast_signed())
    }

    fn write(value: NonZeroI128, bytes: &mut [u8]) {
        bytes.copy_from_slice(&value.get().to_le_bytes());
    }

    fn is_value(buf: &[u8], pos: u32) -> bool {
        num128(buf, pos).cast_signed() != 0
    }
}

impl<N> Portable for ArchivedWide<N>
where
    ArchivedWide<N>: Scalar,
{
    ghost kind = { plain_kind ⟦<ArchivedWide<N> as Scalar>⟧.form.plain };

    fn size() -> u32 {
        ArchivedWide::<N>::size_and_align().0
    }

    fn align() -> u32 {
        ArchivedWide::<N>::size_and_align().1
    }

    fn fits() -> bool {
        true
    }

    ghost laws = { ⟦<ArchivedWide<N> as Scalar>⟧.faithful.lawful };
}

impl<N> CheckBytes for ArchivedWide<N>
where
    ArchivedWide<N>: Scalar,
{
    ghost Refuses = { RefusesWhole (plain_kind ⟦<ArchivedWide<N> as Scalar>⟧.form.plain) };

    fn check(buf: &[u8], pos: u32, window: Window) -> Result<Window, Refusal> {
        check_in_place::<ArchivedWide<N>>(buf, pos, window)
    }

    ghost refusals = { λ _. whole_refusals ⟦<ArchivedWide<N> as Scalar>⟧.faithful.lawful };
}

impl<N> InPlace for ArchivedWide<N>
where
    ArchivedWide<N>: Scalar,
{
    type Native = <ArchivedWide<N> as Scalar>::Native;

    ghost in_place = { scalar_form ⟦<ArchivedWide<N> as Scalar>⟧.form };

    #[tactic(auto, using(rkyv_btree_portable::specs::laws::InPlace::plain_is_value))]
    fn read(bytes: &[u8]) -> <ArchivedWide<N> as Scalar>::Native {
        <ArchivedWide<N> as Scalar>::read(bytes)
    }

    fn write(value: <ArchivedWide<N> as Scalar>::Native, bytes: &mut [u8]) {
        <ArchivedWide<N> as Scalar>::write(value, bytes);
    }

    ghost is_in_place = { scalar_in_place ⟦<ArchivedWide<N> as Scalar>⟧.faithful };
}

impl ToNative for ArchivedU128 {
    type Native = u128;

    ghost read_native = { u128_kind.read };

    fn native(view: &View<'_, ArchivedU128>) -> u128 {
        num128(view.buf, view.pos)
    }

    ghost read_as = { as_itself u128_kind };
}

impl ToNative for ArchivedI128 {
    type Native = i128;

    ghost read_native = { i128_kind.read };

    fn native(view: &View<'_, ArchivedI128>) -> i128 {
        num128(view.buf, view.pos).cast_signed()
    }

    ghost read_as = { as_itself i128_kind };
}

impl ToNative for ArchivedNonZeroU128 {
    type Native = NonZeroU128;

    ghost read_native = { non_zero_u128_kind.read };

    fn native(view: &View<'_, ArchivedNonZeroU128>) -> NonZeroU128 {
        non_zero_u128(num128(view.buf, view.pos))
    }

    ghost read_as = { as_itself non_zero_u128_kind };
}

impl ToNative for ArchivedNonZeroI128 {
    type Native = NonZeroI128;

    ghost read_native = { non_zero_i128_kind.read };

    fn native(view: &View<'_, ArchivedNonZeroI128>) -> NonZeroI128 {
        non_zero_i128(num128(view.buf, view.pos).cast_signed())
    }

    ghost read_as = { as_itself non_zero_i128_kind };
}
