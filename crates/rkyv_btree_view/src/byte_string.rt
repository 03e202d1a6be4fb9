//! Views of byte strings, and their comparisons.
ghost use Rattle.std.proofs.Common.{rules};
ghost use Rattle.std.specs.Cmp.Lexicographic.{nat_list_cmp_total, nat_list_eq_equiv, pointwise, slice_cmp, texts_ties};
ghost use Rattle.std.specs.Ordering.{nat_cmp};
ghost use Rattle.std.specs.Prelude.{◌≡◌, nat_eq};
ghost use Rattle.rkyv_btree_portable.specs.ByteStrings.{bytes_kind};
ghost use Rattle.rkyv_btree_view.specs.View.{view_value};
ghost use Rattle.rkyv_btree_view.specs.laws.Cuts.{order_compares};
ghost use Rattle.rkyv_btree_view.specs.laws.SameAs.{same_tests};

use crate::compare::{ViewEq, ViewHash, ViewOrd};
use crate::compare_native::{CompareWith, SameAs};
use crate::debug::ViewDebug;
use crate::view::View;
use rkyv_btree_portable::byte_string::ArchivedBytes;
use rkyv_btree_portable::bytes::{num32, pointed_at};
use std::cmp::Ordering;
use std::fmt;
use std::hash::{Hash, Hasher};

impl<'a> View<'a, ArchivedBytes> {
    /// Returns the bytes, which stay in the buffer.
    pub fn as_bytes(self) -> &'a [u8]
        ensures { result.now ≡ view_value self.entry }
    {
        // A view stands on a byte string whose bytes lie before it.
        let start = pointed_at(self.buf, self.pos) as usize;
        let len = num32(self.buf, self.pos + 4) as usize;
        &self.buf[start..start + len]
    }
}

impl ViewEq for ArchivedBytes {
    fn is_same(a: &View<'_, ArchivedBytes>, b: &View<'_, ArchivedBytes>) -> bool {
        a.as_bytes() == b.as_bytes()
    }

    ghost equivalence = { nat_list_eq_equiv };
}

impl ViewOrd for ArchivedBytes {
    #[inline(always)]
    fn compare(a: &View<'_, ArchivedBytes>, b: &View<'_, ArchivedBytes>) -> Ordering {
        a.as_bytes().cmp(b.as_bytes())
    }

    ghost total = { nat_list_cmp_total };

    ghost matches_same = { texts_ties };
}

impl ViewHash for ArchivedBytes {
    fn hash_view<H: Hasher>(view: &View<'_, ArchivedBytes>, state: &mut H) {
        view.as_bytes().hash(state);
    }

    ghost respects_same = { Prim.search rules };
}

impl ViewDebug for ArchivedBytes {
    fn show<W: fmt::Write>(
        view: &View<'_, ArchivedBytes>,
        f: &mut fmt::Formatter<W>,
    ) -> fmt::Result {
        fmt::Debug::fmt(view.as_bytes(), f)
    }
}

impl<'t> CompareWith<&'t [u8]> for ArchivedBytes {
    ghost compared_at = { λ native b at. slice_cmp nat_cmp native.now (bytes_kind.read b at) };

    fn compare_with(native: &&'t [u8], view: &View<'_, ArchivedBytes>) -> Ordering {
        (*native).cmp(view.as_bytes())
    }

    ghost compares = { order_compares bytes_kind nat_list_cmp_total (λ native. native.now) };
}

impl<'t> SameAs<&'t [u8]> for ArchivedBytes {
    ghost same_at = { λ native b at. pointwise nat_eq (bytes_kind.read b at) native.now };

    fn same_as(view: &View<'_, ArchivedBytes>, native: &&'t [u8]) -> bool {
        view.as_bytes() == *native
    }

    ghost tests = { same_tests bytes_kind nat_list_eq_equiv (λ native. native.now) };
}

impl SameAs<Vec<u8>> for ArchivedBytes {
    ghost same_at = { λ native b at. pointwise nat_eq (bytes_kind.read b at) native.items };

    fn same_as(view: &View<'_, ArchivedBytes>, native: &Vec<u8>) -> bool {
        view.as_bytes() == native.as_slice()
    }

    ghost tests = { same_tests bytes_kind nat_list_eq_equiv (λ native. native.items) };
}
