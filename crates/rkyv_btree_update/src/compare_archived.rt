//! Numbers, truth values, characters, `()`, text and byte strings that are compared with archived ones.
ghost use Rattle.std.specs.Cmp.Lexicographic.{slice_cmp};
ghost use Rattle.std.specs.Int.NonZero.{non_zero_u32_get};
ghost use Rattle.std.specs.Ordering.{bool_cmp, int_cmp, nat_cmp};
ghost use Rattle.std.specs.Prelude.{◌≡◌, ℕ, ℤ, Bool, IsTrue, List};
ghost use Rattle.std.specs.declared.cmp.Ordering.{Ordering as Comparison};
ghost use Rattle.std.specs.declared.cmp.Ordering.TheVariants.{Equal};
ghost use Rattle.rkyv_btree_portable.specs.ByteStrings.{bytes_kind};
ghost use Rattle.rkyv_btree_portable.specs.Scalars.{bool_kind, char_kind, i16_kind, i32_kind, i64_kind, i8_kind, non_zero_kind};
ghost use Rattle.rkyv_btree_portable.specs.Scalars.{u16_kind, u32_kind, u64_kind, u8_kind, unit_kind};
ghost use Rattle.rkyv_btree_portable.specs.Text.{text_kind};
ghost use Rattle.rkyv_btree_writer.specs.BytesArchival.{bytes_archival};
ghost use Rattle.rkyv_btree_writer.specs.TextArchival.{text_archival};
ghost use Rattle.rkyv_btree_portable.specs.Views.{stands};
ghost use Rattle.rkyv_btree_update.specs.Natives.{IsLent};

use rkyv_btree_archive::archive::Archive;
use rkyv_btree_portable::byte_string::ArchivedBytes;
use rkyv_btree_portable::numbers::{ArchivedU16, ArchivedU32, ArchivedU64};
use rkyv_btree_portable::scalars::{ArchivedChar, ArchivedNonZeroU32};
use rkyv_btree_portable::signed::{ArchivedI16, ArchivedI32, ArchivedI64};
use rkyv_btree_portable::text::ArchivedText;
use rkyv_btree_view::compare_native::CompareWith;
use rkyv_btree_view::view::View;
use rkyv_btree_walk::shows::Shows;
use std::cmp::Ordering;
use std::num::NonZeroU32;

/// A native value that is compared with archived ones where these lie.
pub trait CompareArchived: Archive + Copy + Ord {
    /// What values are compared by: a number itself, or the bytes of a text, wherever they are.
    ghost Shown: { Type 0 };

    /// What a value shows.
    ghost shown: { Self → Shown };

    /// The order of what values show.
    ghost order: { Shown → Shown → Comparison };

    /// What is read at a position of a buffer.
    ghost lent: { List ℕ → ℕ → Shown };

    /// Returns how the value compares to the archived one at position `pos` of `buf`: `Greater` means that it is greater.
    fn compare_at(&self, buf: &[u8], pos: u32) -> Ordering
        requires { IsTrue (stands Self.Archived.kind buf.now pos) }
        ensures { result ≡ order (shown self.now) (lent buf.now pos) };

    /// Does nothing. Its contract says that values are read as what the bytes mean, and ordered as what they mean.
    fn is_lent()
        ensures { IsLent Self.archival Self.Archived.kind shown order lent Self.cmp };
}

impl CompareArchived for u8 {
    ghost Shown = { ℕ };

    ghost shown = { λ x. x };

    ghost order = { nat_cmp };

    ghost lent = { u8_kind.read };

    fn compare_at(&self, buf: &[u8], pos: u32) -> Ordering
        requires { IsTrue (stands u8_kind buf.now pos) }
        ensures { result ≡ nat_cmp self.now (u8_kind.read buf.now pos) }
    {
        self.cmp(&View::<u8>::at(buf, pos).to_native())
    }

    fn is_lent() {}
}

impl CompareArchived for u16 {
    ghost Shown = { ℕ };

    ghost shown = { λ x. x };

    ghost order = { nat_cmp };

    ghost lent = { u16_kind.read };

    fn compare_at(&self, buf: &[u8], pos: u32) -> Ordering
        requires { IsTrue (stands u16_kind buf.now pos) }
        ensures { result ≡ nat_cmp self.now (u16_kind.read buf.now pos) }
    {
        self.cmp(&View::<ArchivedU16>::at(buf, pos).to_native())
    }

    fn is_lent() {}
}

impl CompareArchived for u32 {
    ghost Shown = { ℕ };

    ghost shown = { λ x. x };

    ghost order = { nat_cmp };

    ghost lent = { u32_kind.read };

    fn compare_at(&self, buf: &[u8], pos: u32) -> Ordering
        requires { IsTrue (stands u32_kind buf.now pos) }
        ensures { result ≡ nat_cmp self.now (u32_kind.read buf.now pos) }
    {
        self.cmp(&View::<ArchivedU32>::at(buf, pos).to_native())
    }

    fn is_lent() {}
}

impl CompareArchived for u64 {
    ghost Shown = { ℕ };

    ghost shown = { λ x. x };

    ghost order = { nat_cmp };

    ghost lent = { u64_kind.read };

    fn compare_at(&self, buf: &[u8], pos: u32) -> Ordering
        requires { IsTrue (stands u64_kind buf.now pos) }
        ensures { result ≡ nat_cmp self.now (u64_kind.read buf.now pos) }
    {
        self.cmp(&View::<ArchivedU64>::at(buf, pos).to_native())
    }

    fn is_lent() {}
}

impl CompareArchived for i8 {
    ghost Shown = { ℤ };

    ghost shown = { λ x. x };

    ghost order = { int_cmp };

    ghost lent = { i8_kind.read };

    fn compare_at(&self, buf: &[u8], pos: u32) -> Ordering
        requires { IsTrue (stands i8_kind buf.now pos) }
        ensures { result ≡ int_cmp self.now (i8_kind.read buf.now pos) }
    {
        self.cmp(&View::<i8>::at(buf, pos).to_native())
    }

    fn is_lent() {}
}

impl CompareArchived for i16 {
    ghost Shown = { ℤ };

    ghost shown = { λ x. x };

    ghost order = { int_cmp };

    ghost lent = { i16_kind.read };

    fn compare_at(&self, buf: &[u8], pos: u32) -> Ordering
        requires { IsTrue (stands i16_kind buf.now pos) }
        ensures { result ≡ int_cmp self.now (i16_kind.read buf.now pos) }
    {
        self.cmp(&View::<ArchivedI16>::at(buf, pos).to_native())
    }

    fn is_lent() {}
}

impl CompareArchived for i32 {
    ghost Shown = { ℤ };

    ghost shown = { λ x. x };

    ghost order = { int_cmp };

    ghost lent = { i32_kind.read };

    fn compare_at(&self, buf: &[u8], pos: u32) -> Ordering
        requires { IsTrue (stands i32_kind buf.now pos) }
        ensures { result ≡ int_cmp self.now (i32_kind.read buf.now pos) }
    {
        self.cmp(&View::<ArchivedI32>::at(buf, pos).to_native())
    }

    fn is_lent() {}
}

impl CompareArchived for i64 {
    ghost Shown = { ℤ };

    ghost shown = { λ x. x };

    ghost order = { int_cmp };

    ghost lent = { i64_kind.read };

    fn compare_at(&self, buf: &[u8], pos: u32) -> Ordering
        requires { IsTrue (stands i64_kind buf.now pos) }
        ensures { result ≡ int_cmp self.now (i64_kind.read buf.now pos) }
    {
        self.cmp(&View::<ArchivedI64>::at(buf, pos).to_native())
    }

    fn is_lent() {}
}

impl CompareArchived for bool {
    ghost Shown = { Bool };

    ghost shown = { λ x. x };

    ghost order = { bool_cmp };

    ghost lent = { bool_kind.read };

    fn compare_at(&self, buf: &[u8], pos: u32) -> Ordering
        requires { IsTrue (stands bool_kind buf.now pos) }
        ensures { result ≡ bool_cmp self.now (bool_kind.read buf.now pos) }
    {
        self.cmp(&View::<bool>::at(buf, pos).to_native())
    }

    fn is_lent() {}
}

impl CompareArchived for char {
    ghost Shown = { ℕ };

    ghost shown = { λ x. x };

    ghost order = { nat_cmp };

    ghost lent = { char_kind.read };

    fn compare_at(&self, buf: &[u8], pos: u32) -> Ordering
        requires { IsTrue (stands char_kind buf.now pos) }
        ensures { result ≡ nat_cmp self.now (char_kind.read buf.now pos) }
    {
        self.cmp(&View::<ArchivedChar>::at(buf, pos).to_native())
    }

    fn is_lent() {}
}

impl CompareArchived for NonZeroU32 {
    ghost Shown = { ℕ };

    ghost shown = { non_zero_u32_get };

    ghost order = { nat_cmp };

    ghost lent = { non_zero_kind.read };

    fn compare_at(&self, buf: &[u8], pos: u32) -> Ordering
        requires { IsTrue (stands non_zero_kind buf.now pos) }
        ensures { result ≡ nat_cmp (non_zero_u32_get self.now) (non_zero_kind.read buf.now pos) }
    {
        self.cmp(&View::<ArchivedNonZeroU32>::at(buf, pos).to_native())
    }

    fn is_lent() {}
}

impl CompareArchived for () {
    ghost Shown = { Unit {0} };

    ghost shown = { λ x. x };

    ghost order = { λ x y. Equal };

    ghost lent = { unit_kind.read };

    fn compare_at(&self, _buf: &[u8], _pos: u32) -> Ordering {
        Ordering::Equal
    }

    fn is_lent() {}
}

impl<'a> CompareArchived for &'a str {
    ghost Shown = { List ℕ };

    ghost shown = { λ text. text.now };

    ghost order = { slice_cmp nat_cmp };

    ghost lent = { text_kind.read };

    fn compare_at(&self, buf: &[u8], pos: u32) -> Ordering
        requires { IsTrue (stands text_kind buf.now pos) }
        ensures { result ≡ slice_cmp nat_cmp self.now.now (text_kind.read buf.now pos) }
    {
        ArchivedText::compare_with(self, &View::at(buf, pos))
    }

    fn is_lent()
        ensures { IsLent (text_archival (λ text. text.now)) text_kind (λ text. text.now)
            (slice_cmp nat_cmp) text_kind.read ⟦<&'a str as Ord>⟧.cmp }
    {}
}

impl<'a> CompareArchived for &'a [u8] {
    ghost Shown = { List ℕ };

    ghost shown = { λ bytes. bytes.now };

    ghost order = { slice_cmp nat_cmp };

    ghost lent = { bytes_kind.read };

    fn compare_at(&self, buf: &[u8], pos: u32) -> Ordering
        requires { IsTrue (stands bytes_kind buf.now pos) }
        ensures { result ≡ slice_cmp nat_cmp self.now.now (bytes_kind.read buf.now pos) }
    {
        ArchivedBytes::compare_with(self, &View::at(buf, pos))
    }

    fn is_lent()
        ensures { IsLent (bytes_archival (λ bytes. bytes.now)) bytes_kind (λ bytes. bytes.now)
            (slice_cmp nat_cmp) bytes_kind.read ⟦<&'a [u8] as Ord>⟧.cmp }
    {}
}
