//! What shows the value at a place: a walk hands such views out, and needs no more of them.
ghost use Rattle.std.specs.Prelude.{◌≡◌, ℕ, IsTrue, List};
ghost use Rattle.rkyv_btree_portable.specs.Views.{stands};

use rkyv_btree_portable::check::Portable;

/// A type of views of `T`. `View<'a, T>` is the one: a call that takes a closure over views has a type parameter for
/// each, which the closure's own types determine.
pub trait Shows<'a, T: Portable> {
    /// The buffer with the view's value.
    ghost bytes: { Self → List ℕ };

    /// The position of that value.
    ghost place: { Self → ℕ };

    /// The view of the value at position `pos` of `buf`.
    fn at(buf: &'a [u8], pos: u32) -> Self
        requires { IsTrue (stands T.kind buf.now pos) }
        ensures buffer { bytes result ≡ buf.now }
        ensures position { place result ≡ pos };
}
