//! Views of vectors: their elements.
ghost use Rattle.std.specs.Prelude.{◌≡◌, ℕ, IfSome, List, length, option_map};
ghost use Rattle.std.specs.List.{slice_get};
ghost use Rattle.rkyv_btree_compound.specs.Vectors.{vector_read};

use crate::vector::ArchivedVec;
use rkyv_btree_portable::bytes::{num32, pointed_at};
use rkyv_btree_portable::check::Portable;
use rkyv_btree_view::view::View;
use rkyv_btree_walk::shows::Shows;
use std::marker::PhantomData;

/// A view of a vector, whose elements are shown in place. `View<'a, ArchivedVec<T>>` is the one.
pub trait ViewVec<'a> {
    /// The archived type of the elements.
    type Element: Portable;

    /// The type of views of an element.
    type Shown: Shows<'a, Self::Element>;

    /// The buffer with the vector.
    ghost bytes: { Self → List ℕ };

    /// The position of the vector.
    ghost place: { Self → ℕ };

    /// Returns the number of elements.
    fn len(self) -> usize
        ensures { result ≡ length (vector_read Self.Element.kind (bytes self) (place self)) };

    /// Returns the view of the element at an index, or `None` if there is no such element.
    fn get(self, index: usize) -> Option<Self::Shown>
        ensures value { option_map
            (λ shown. Self.Element.kind.read (Self.Shown.bytes shown) (Self.Shown.place shown))
            result
            ≡ slice_get (vector_read Self.Element.kind (bytes self) (place self)) index }
        ensures buffer { IfSome result (λ shown. Self.Shown.bytes shown ≡ bytes self) };
}

impl<'a, T: Portable> ViewVec<'a> for View<'a, ArchivedVec<T>> {
    type Element = T;

    type Shown = View<'a, T>;

    ghost bytes = { λ view. view.buf.now };

    ghost place = { λ view. view.pos };

    fn len(self) -> usize {
        num32(self.buf, self.pos + 4) as usize
    }

    fn get(self, index: usize) -> Option<View<'a, T>> {
        if index >= num32(self.buf, self.pos + 4) as usize {
            return None;
        }
        let start = pointed_at(self.buf, self.pos) as u32;
        Some(View {
            buf: self.buf,
            pos: start + index as u32 * T::size(),
            of: PhantomData,
        })
    }
}
