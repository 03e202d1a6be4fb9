//! Values in a buffer.
ghost use Rattle.std.specs.Prelude.{◌≡◌, ◌↔◌, IsTrue, IsOk, IfOk, Err, ⊤};
ghost use Rattle.rkyv_btree_portable.specs.Views.{stands, MeansAt};
ghost use Rattle.rkyv_btree_portable.specs.declared.refusal.Refusal.{Refusal};

use rkyv_btree_portable::bytes::{num32, pointed_at};
use rkyv_btree_portable::check::{CheckBytes, Portable, Window};
use rkyv_btree_portable::refusal::Refusal;
use rkyv_btree_portable::text::ArchivedText;
use rkyv_btree_walk::shows::Shows;
use std::alloc::AllocError;
use std::convert::AsStr;
use std::marker::PhantomData;
use std::str::from_utf8_unchecked;

/// The value of `T` at position `pos` of `buf`, where the bytes mean one. All calls read in place: nothing is copied,
/// and no memory is taken. A view is made by `View::check`, `access` or `access_valid`, or by a call on another view.
pub struct View<'a, T: Portable> {
    pub buf: &'a [u8],
    pub pos: u32,
    pub of: PhantomData<T>,
    // The type's own decision, so a call on a view asks nothing of its caller.
    pub ghost valid: { IsTrue (stands T.kind buf.now pos) },
}

impl<'a, T: Portable> Copy for View<'a, T> {}

impl<'a, T: Portable> Clone for View<'a, T> {
    ghost is_clone = { λ s r. r ≡ s };

    ghost is_infallible = { λ _. ⊤ };

    fn clone(&self) -> Result<View<'a, T>, AllocError> {
        Ok(*self)
    }
}

impl<'a, T: Portable> View<'a, T> {
    /// Returns the position of the value's own bytes in the buffer.
    pub fn position(self) -> u32
        ensures { result ≡ self.entry.pos }
    {
        self.pos
    }
}

impl<'a, T: CheckBytes> View<'a, T> {
    ghost use Rattle.rkyv_btree_view.specs.View.{view_value};

    /// Returns the view of the value at position `pos`, if the bytes mean one in the window of all bytes before it.
    ///
    /// # Errors
    ///
    /// The error of `T::check`.
    pub fn check(buf: &'a [u8], pos: u32) -> Result<View<'a, T>, Refusal>
        requires { IsTrue T.kind.is_fitting }
        ensures buffer { IfOk result (λ view. view.buf.now ≡ buf.now) }
        ensures position { IfOk result (λ view. view.pos ≡ pos) }
        // The result is a view exactly for bytes that mean a value, and the view reads that value.
        ensures accepts { IsOk result ↔ ((v : T.kind.Value) × MeansAt T.kind buf.now pos v) }
        ensures value { IfOk result (λ view. MeansAt T.kind buf.now pos (view_value view)) }
        // The result is an error exactly for bytes with that error.
        ensures refuses { (refusal : Refusal) →
            (result ≡ Err refusal) ↔ T.Refuses buf.now 0 pos pos refusal }
    {
        match T::check(buf, pos, Window { lo: 0, hi: pos }) {
            Ok(_) => Ok(View::<T>::at(buf, pos)),
            Err(refusal) => Err(refusal),
        }
    }
}

impl<'a, T: Portable> Shows<'a, T> for View<'a, T> {
    ghost bytes = { λ v. v.buf.now };

    ghost place = { λ v. v.pos };

    fn at(buf: &'a [u8], pos: u32) -> View<'a, T> {
        View {
            buf,
            pos,
            of: PhantomData,
        }
    }
}

impl<'a> View<'a, ArchivedText> {
    ghost use Rattle.rkyv_btree_view.specs.View.{view_value};

    /// Returns the text, which stays in the buffer.
    pub fn as_str(self) -> &'a str
        ensures { result.now ≡ view_value self.entry }
    {
        // A view stands on a text whose bytes lie before it, and are UTF-8.
        let start = pointed_at(self.buf, self.pos) as usize;
        let len = num32(self.buf, self.pos + 4) as usize;
        unsafe { from_utf8_unchecked(&self.buf[start..start + len]) }
    }
}

impl<'a> AsStr for View<'a, ArchivedText> {
    ghost use Rattle.rkyv_btree_view.specs.View.{view_value};

    ghost text = { λ view. view_value view };

    /// Returns the text, which stays in the buffer.
    fn as_str(&self) -> &str {
        View::<ArchivedText>::as_str(*self)
    }
}
