//! Archived types whose values are native ones.
ghost use Rattle.std.specs.Prelude.{◌≡◌, ◌+◌, ◌≤◌, ℕ, List, length};
ghost use Rattle.std.specs.Int.NonZero.{non_zero_u32_get};
ghost use Rattle.rkyv_btree_portable.specs.Bytes.{from_le, bytes_at};
ghost use Rattle.rkyv_btree_portable.specs.Scalars.{u8_kind, i8_kind, bool_kind, unit_kind, char_kind, non_zero_kind, u16_kind};
ghost use Rattle.rkyv_btree_portable.specs.Scalars.{i16_kind, u32_kind, i32_kind, u64_kind, i64_kind};
ghost use Rattle.rkyv_btree_view.specs.Native.{ReadAs, as_itself};

use crate::view::View;
use rkyv_btree_portable::bytes::num32;
use rkyv_btree_portable::check::Portable;
use rkyv_btree_portable::numbers::{ArchivedU16, ArchivedU32, ArchivedU64};
use rkyv_btree_portable::scalars::{ArchivedChar, ArchivedNonZeroU32};
use rkyv_btree_portable::signed::{ArchivedI16, ArchivedI32, ArchivedI64};
use std::fmt::Debug;
use std::hash::Hash;
use std::num::NonZeroU32;

/// An archived type whose values are native ones, and are compared, ordered, hashed and shown as these.
pub trait ToNative: Portable {
    /// The type of the values as the program has them.
    type Native: Copy + Debug + Ord + Hash;

    /// The native value that is read at a position of a buffer.
    ghost read_native: { List ℕ → ℕ → Self.Native };

    /// The native value at the view's position.
    fn native(view: &View<'_, Self>) -> Self::Native
        ensures { result ≡ read_native view.now.buf.now view.now.pos };

    ghost read_as: { ReadAs Self.kind read_native
        Self.Native.eq Self.Native.cmp Self.Native.hash_input };
}

impl<T: ToNative> View<'_, T> {
    /// Returns the native value at the view's position: a number of so many bytes, the least first, in two's complement where it
    /// has a sign; a character by its code; or the one value of no bytes.
    pub fn to_native(self) -> T::Native
        ensures { result ≡ T.read_native self.entry.buf.now self.entry.pos }
    {
        T::native(&self)
    }
}

impl ToNative for u8 {
    type Native = u8;

    ghost read_native = { u8_kind.read };

    fn native(view: &View<'_, u8>) -> u8 {
        view.buf[view.pos as usize]
    }

    ghost read_as = { as_itself u8_kind };
}

impl ToNative for i8 {
    type Native = i8;

    ghost read_native = { i8_kind.read };

    fn native(view: &View<'_, i8>) -> i8 {
        view.buf[view.pos as usize].cast_signed()
    }

    ghost read_as = { as_itself i8_kind };
}

impl ToNative for bool {
    type Native = bool;

    ghost read_native = { bool_kind.read };

    fn native(view: &View<'_, bool>) -> bool {
        view.buf[view.pos as usize] == 1
    }

    ghost read_as = { as_itself bool_kind };
}

impl ToNative for () {
    type Native = ();

    ghost read_native = { unit_kind.read };

    fn native(_view: &View<'_, ()>) {}

    ghost read_as = { as_itself unit_kind };
}

impl ToNative for ArchivedU16 {
    type Native = u16;

    ghost read_native = { u16_kind.read };

    fn native(view: &View<'_, ArchivedU16>) -> u16 {
        num16(view.buf, view.pos)
    }

    ghost read_as = { as_itself u16_kind };
}

impl ToNative for ArchivedI16 {
    type Native = i16;

    ghost read_native = { i16_kind.read };

    fn native(view: &View<'_, ArchivedI16>) -> i16 {
        num16(view.buf, view.pos).cast_signed()
    }

    ghost read_as = { as_itself i16_kind };
}

impl ToNative for ArchivedU32 {
    type Native = u32;

    ghost read_native = { u32_kind.read };

    #[tactic(auto, unfolding(rkyv_btree_portable::specs::Bytes::number_at))]
    fn native(view: &View<'_, ArchivedU32>) -> u32 {
        num32(view.buf, view.pos)
    }

    ghost read_as = { as_itself u32_kind };
}

impl ToNative for ArchivedI32 {
    type Native = i32;

    ghost read_native = { i32_kind.read };

    #[tactic(auto, unfolding(rkyv_btree_portable::specs::Bytes::number_at))]
    fn native(view: &View<'_, ArchivedI32>) -> i32 {
        num32(view.buf, view.pos).cast_signed()
    }

    ghost read_as = { as_itself i32_kind };
}

impl ToNative for ArchivedU64 {
    type Native = u64;

    ghost read_native = { u64_kind.read };

    fn native(view: &View<'_, ArchivedU64>) -> u64 {
        num64(view.buf, view.pos)
    }

    ghost read_as = { as_itself u64_kind };
}

impl ToNative for ArchivedI64 {
    type Native = i64;

    ghost read_native = { i64_kind.read };

    fn native(view: &View<'_, ArchivedI64>) -> i64 {
        num64(view.buf, view.pos).cast_signed()
    }

    ghost read_as = { as_itself i64_kind };
}

impl ToNative for ArchivedChar {
    type Native = char;

    ghost read_native = { char_kind.read };

    #[tactic(auto, unfolding(rkyv_btree_portable::specs::Bytes::number_at))]
    fn native(view: &View<'_, ArchivedChar>) -> char {
        // No view stands on another code.
        unsafe { char::from_u32_unchecked(num32(view.buf, view.pos)) }
    }

    ghost read_as = { as_itself char_kind };
}

// A `NonZeroU32` isn't read of every four bytes, so it has no part in `ToNative`.
impl View<'_, ArchivedNonZeroU32> {
    /// Returns the number of the four bytes from the view's position on, which isn't 0.
    #[tactic(auto, unfolding(rkyv_btree_portable::specs::Bytes::number_at))]
    pub fn to_native(self) -> NonZeroU32
        ensures { non_zero_u32_get result ≡ non_zero_kind.read self.entry.buf.now self.entry.pos }
    {
        // No view stands on 0.
        unsafe { NonZeroU32::new_unchecked(num32(self.buf, self.pos)) }
    }
}

/// The number of the two bytes at `pos`.
pub(crate) fn num16(buf: &[u8], pos: u32) -> u16
    requires { pos + 2 ≤ length buf.now }
    ensures { result ≡ from_le (bytes_at buf.now pos 2) }
{
    let at = pos as usize;
    u16::from_le_bytes([buf[at], buf[at + 1]])
}

/// The number of the eight bytes at `pos`.
pub(crate) fn num64(buf: &[u8], pos: u32) -> u64
    requires { pos + 8 ≤ length buf.now }
    ensures { result ≡ from_le (bytes_at buf.now pos 8) }
{
    let at = pos as usize;
    u64::from_le_bytes([
        buf[at],
        buf[at + 1],
        buf[at + 2],
        buf[at + 3],
        buf[at + 4],
        buf[at + 5],
        buf[at + 6],
        buf[at + 7],
    ])
}
