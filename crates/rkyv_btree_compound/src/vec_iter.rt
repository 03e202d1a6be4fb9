//! Iterators over the elements of vectors.
ghost use Rattle.std.specs.Prelude.{◌≡◌, IsTrue, length};
ghost use Rattle.rkyv_btree_compound.specs.Vectors.{vector_kind};
ghost use Rattle.rkyv_btree_portable.specs.Views.{stands};
ghost use Rattle.rkyv_btree_view.specs.View.{view_value};

use crate::vector::ArchivedVec;
use crate::vector_view::ViewVec;
use rkyv_btree_portable::bytes::num32;
use rkyv_btree_portable::check::Portable;
use rkyv_btree_view::debug::ViewDebug;
use rkyv_btree_view::view::View;
use std::fmt;
use std::marker::PhantomData;

/// An iterator over the elements of a vector, in order.
#[derive(Drop)]
pub struct VecIter<'a, T: Portable> {
    buf: &'a [u8],
    pos: u32,
    next: usize,
    of: PhantomData<T>,
    ghost valid: { IsTrue (stands (vector_kind T.kind) buf.now pos) },
}

impl<'a, T: Portable> VecIter<'a, T> {
    ghost use Rattle.rkyv_btree_compound.specs.Vectors.{vector_read};
    ghost use Rattle.rkyv_btree_compound.specs.VecLeft.{elements_left};

    /// Returns an iterator over the elements of a vector.
    pub fn new(vec: View<'a, ArchivedVec<T>>) -> VecIter<'a, T>
        ensures { elements_left result ≡ vector_read T.kind vec.entry.buf.now vec.entry.pos }
    {
        VecIter {
            buf: vec.buf,
            pos: vec.pos,
            next: 0,
            of: PhantomData,
        }
    }
}

impl<'a, T: Portable> Iterator for VecIter<'a, T> {
    ghost use Rattle.std.specs.Iterator.{YieldsFirstBy, item_count, at_most, UpTo};
    ghost use Rattle.std.specs.Iterator.SizeHint.{IsWithinCount};
    ghost use Rattle.std.specs.Prelude.{IfSome, Some};
    ghost use Rattle.rkyv_btree_compound.specs.VecLeft.{elements_left};

    type Item = View<'a, T>;

    ghost next_gives = { YieldsFirstBy view_value elements_left };

    ghost remaining = { item_count elements_left };

    fn next(&mut self) -> Option<View<'a, T>> {
        let vec: View<'a, ArchivedVec<T>> = View {
            buf: self.buf,
            pos: self.pos,
            of: PhantomData,
        };
        let element = vec.get(self.next)?;
        self.next += 1;
        Some(element)
    }

    fn size_hint(&self) -> (usize, Option<usize>)
        ensures lower { IsWithinCount result.0 (at_most (length (elements_left self.now))) }
        ensures upper { IfSome result.1 (UpTo (at_most (length (elements_left self.now)))) }
        ensures exact { result.0 ≡ length (elements_left self.now) }
        ensures exact_upper { result.1 ≡ Some (length (elements_left self.now)) }
    {
        let left = self.len();
        (left, Some(left))
    }
}

impl<'a, T: Portable> ExactSizeIterator for VecIter<'a, T> {
    fn len(&self) -> usize {
        let count = num32(self.buf, self.pos + 4) as usize;
        count.saturating_sub(self.next)
    }
}

impl<T: ViewDebug> ViewDebug for ArchivedVec<T> {
    fn show<W: fmt::Write>(
        view: &View<'_, ArchivedVec<T>>,
        f: &mut fmt::Formatter<W>,
    ) -> fmt::Result {
        f.debug_list().entries(VecIter::new(*view)).finish()
    }
}
