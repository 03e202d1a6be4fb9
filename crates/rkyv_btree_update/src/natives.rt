//! Numbers, truth values, characters, `()`, text and byte strings, made of archived ones.
ghost use Rattle.std.specs.Int.NonZero.{non_zero_u32_get};
ghost use Rattle.std.specs.Prelude.{◌≡◌, IsTrue};
ghost use Rattle.rkyv_btree_portable.specs.ByteStrings.{bytes_kind};
ghost use Rattle.rkyv_btree_portable.specs.Scalars.{bool_kind, char_kind, i16_kind, i32_kind, i64_kind, i8_kind, non_zero_kind};
ghost use Rattle.rkyv_btree_portable.specs.Scalars.{u16_kind, u32_kind, u64_kind, u8_kind};
ghost use Rattle.rkyv_btree_portable.specs.Text.{text_kind};
ghost use Rattle.rkyv_btree_portable.specs.Views.{stands};

use crate::from_archived::FromArchived;
use rkyv_btree_portable::byte_string::ArchivedBytes;
use rkyv_btree_portable::numbers::{ArchivedU16, ArchivedU32, ArchivedU64};
use rkyv_btree_portable::scalars::{ArchivedChar, ArchivedNonZeroU32};
use rkyv_btree_portable::signed::{ArchivedI16, ArchivedI32, ArchivedI64};
use rkyv_btree_portable::text::ArchivedText;
use rkyv_btree_view::view::View;
use rkyv_btree_walk::shows::Shows;
use std::num::NonZeroU32;

impl<'a> FromArchived<'a> for u8 {
    fn from_archived(buf: &'a [u8], pos: u32) -> u8
        requires { IsTrue (stands u8_kind buf.now pos) }
        ensures { result ≡ u8_kind.read buf.now pos }
    {
        View::<u8>::at(buf, pos).to_native()
    }
}

impl<'a> FromArchived<'a> for u16 {
    fn from_archived(buf: &'a [u8], pos: u32) -> u16
        requires { IsTrue (stands u16_kind buf.now pos) }
        ensures { result ≡ u16_kind.read buf.now pos }
    {
        View::<ArchivedU16>::at(buf, pos).to_native()
    }
}

impl<'a> FromArchived<'a> for u32 {
    fn from_archived(buf: &'a [u8], pos: u32) -> u32
        requires { IsTrue (stands u32_kind buf.now pos) }
        ensures { result ≡ u32_kind.read buf.now pos }
    {
        View::<ArchivedU32>::at(buf, pos).to_native()
    }
}

impl<'a> FromArchived<'a> for u64 {
    fn from_archived(buf: &'a [u8], pos: u32) -> u64
        requires { IsTrue (stands u64_kind buf.now pos) }
        ensures { result ≡ u64_kind.read buf.now pos }
    {
        View::<ArchivedU64>::at(buf, pos).to_native()
    }
}

impl<'a> FromArchived<'a> for i8 {
    fn from_archived(buf: &'a [u8], pos: u32) -> i8
        requires { IsTrue (stands i8_kind buf.now pos) }
        ensures { result ≡ i8_kind.read buf.now pos }
    {
        View::<i8>::at(buf, pos).to_native()
    }
}

impl<'a> FromArchived<'a> for i16 {
    fn from_archived(buf: &'a [u8], pos: u32) -> i16
        requires { IsTrue (stands i16_kind buf.now pos) }
        ensures { result ≡ i16_kind.read buf.now pos }
    {
        View::<ArchivedI16>::at(buf, pos).to_native()
    }
}

impl<'a> FromArchived<'a> for i32 {
    fn from_archived(buf: &'a [u8], pos: u32) -> i32
        requires { IsTrue (stands i32_kind buf.now pos) }
        ensures { result ≡ i32_kind.read buf.now pos }
    {
        View::<ArchivedI32>::at(buf, pos).to_native()
    }
}

impl<'a> FromArchived<'a> for i64 {
    fn from_archived(buf: &'a [u8], pos: u32) -> i64
        requires { IsTrue (stands i64_kind buf.now pos) }
        ensures { result ≡ i64_kind.read buf.now pos }
    {
        View::<ArchivedI64>::at(buf, pos).to_native()
    }
}

impl<'a> FromArchived<'a> for bool {
    fn from_archived(buf: &'a [u8], pos: u32) -> bool
        requires { IsTrue (stands bool_kind buf.now pos) }
        ensures { result ≡ bool_kind.read buf.now pos }
    {
        View::<bool>::at(buf, pos).to_native()
    }
}

impl<'a> FromArchived<'a> for char {
    fn from_archived(buf: &'a [u8], pos: u32) -> char
        requires { IsTrue (stands char_kind buf.now pos) }
        ensures { result ≡ char_kind.read buf.now pos }
    {
        View::<ArchivedChar>::at(buf, pos).to_native()
    }
}

impl<'a> FromArchived<'a> for NonZeroU32 {
    fn from_archived(buf: &'a [u8], pos: u32) -> NonZeroU32
        requires { IsTrue (stands non_zero_kind buf.now pos) }
        ensures { non_zero_u32_get result ≡ non_zero_kind.read buf.now pos }
    {
        View::<ArchivedNonZeroU32>::at(buf, pos).to_native()
    }
}

impl<'a> FromArchived<'a> for () {
    fn from_archived(_buf: &'a [u8], _pos: u32) {}
}

impl<'a> FromArchived<'a> for &'a str {
    fn from_archived(buf: &'a [u8], pos: u32) -> &'a str
        requires { IsTrue (stands text_kind buf.now pos) }
        ensures { result.now ≡ text_kind.read buf.now pos }
    {
        View::<ArchivedText>::at(buf, pos).as_str()
    }
}

impl<'a> FromArchived<'a> for &'a [u8] {
    fn from_archived(buf: &'a [u8], pos: u32) -> &'a [u8]
        requires { IsTrue (stands bytes_kind buf.now pos) }
        ensures { result.now ≡ bytes_kind.read buf.now pos }
    {
        View::<ArchivedBytes>::at(buf, pos).as_bytes()
    }
}
