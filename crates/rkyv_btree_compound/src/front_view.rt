//! Views of the first fields of tuples.
ghost use Rattle.std.specs.Prelude.{◌≡◌, ◌+◌, IsTrue, ⊤};
ghost use Rattle.rkyv_btree_portable.specs.Entry.{value_offset};
ghost use Rattle.rkyv_btree_portable.specs.Views.{stands};

use crate::front::{First, Next, TupleFront, next_offset};
use crate::tuple::ArchivedTuple;
use rkyv_btree_portable::check::Portable;
use rkyv_btree_view::view::View;
use std::alloc::AllocError;
use std::marker::PhantomData;

/// The first fields of a tuple at position `pos` of `buf`, where the bytes mean some.
pub struct FrontView<'a, P: TupleFront> {
    pub buf: &'a [u8],
    pub pos: u32,
    pub of: PhantomData<P>,
    pub ghost valid: { IsTrue (stands P.kind buf.now pos) },
}

impl<'a, P: TupleFront> Copy for FrontView<'a, P> {}

impl<'a, P: TupleFront> Clone for FrontView<'a, P> {
    ghost is_clone = { λ s r. r ≡ s };

    ghost is_infallible = { λ _. ⊤ };

    fn clone(&self) -> Result<FrontView<'a, P>, AllocError> {
        Ok(*self)
    }
}

impl<'a, A: Portable> FrontView<'a, First<A>> {
    /// Returns the view of the field.
    pub fn field(self) -> View<'a, A>
        ensures buffer { result.buf.now ≡ self.entry.buf.now }
        ensures position { result.pos ≡ self.entry.pos }
    {
        View {
            buf: self.buf,
            pos: self.pos,
            of: PhantomData,
        }
    }
}

impl<'a, P: TupleFront, L: Portable> FrontView<'a, Next<P, L>> {
    /// Returns the views of the fields before the last, and of the last.
    pub fn split(self) -> (FrontView<'a, P>, View<'a, L>)
        ensures front_buffer { result.0.buf.now ≡ self.entry.buf.now }
        ensures front_position { result.0.pos ≡ self.entry.pos }
        ensures last_buffer { result.1.buf.now ≡ self.entry.buf.now }
        ensures last_position { result.1.pos ≡ self.entry.pos + value_offset P.kind L.kind }
    {
        let front = FrontView {
            buf: self.buf,
            pos: self.pos,
            of: PhantomData,
        };
        let last = View {
            buf: self.buf,
            pos: self.pos + next_offset::<P, L>(),
            of: PhantomData,
        };
        (front, last)
    }
}

/// Returns the views of a tuple's fields before the last, and of the last.
pub fn fields_of<'a, P: TupleFront, L: Portable>(
    tuple: View<'a, ArchivedTuple<P, L>>,
) -> (FrontView<'a, P>, View<'a, L>)
    ensures front_buffer { result.0.buf.now ≡ tuple.entry.buf.now }
    ensures front_position { result.0.pos ≡ tuple.entry.pos }
    ensures last_buffer { result.1.buf.now ≡ tuple.entry.buf.now }
    ensures last_position { result.1.pos ≡ tuple.entry.pos + value_offset P.kind L.kind }
{
    let front = FrontView {
        buf: tuple.buf,
        pos: tuple.pos,
        of: PhantomData,
    };
    let last = View {
        buf: tuple.buf,
        pos: tuple.pos + next_offset::<P, L>(),
        of: PhantomData,
    };
    (front, last)
}
