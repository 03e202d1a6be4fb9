//! Views of entries.
ghost use Rattle.std.specs.Prelude.{◌≡◌, ◌+◌};
ghost use Rattle.rkyv_btree_portable.specs.Entry.{value_offset};
ghost use Rattle.rkyv_btree_view.specs.View.{view_value};

use crate::view::View;
use rkyv_btree_portable::check::Portable;
use rkyv_btree_portable::entry::{Entry, value_offset};
use std::marker::PhantomData;

impl<'a, K: Portable, V: Portable> View<'a, Entry<K, V>> {
    /// Returns the key, at the entry's own position.
    pub fn key(self) -> View<'a, K>
        ensures buffer { result.buf.now ≡ self.entry.buf.now }
        ensures position { result.pos ≡ self.entry.pos }
        ensures value { view_value result ≡ (view_value self.entry).0 }
    {
        View {
            buf: self.buf,
            pos: self.pos,
            of: PhantomData,
        }
    }

    /// Returns the value, after the key.
    pub fn value(self) -> View<'a, V>
        ensures buffer { result.buf.now ≡ self.entry.buf.now }
        ensures position { result.pos ≡ self.entry.pos + value_offset K.kind V.kind }
        ensures value { view_value result ≡ (view_value self.entry).1 }
    {
        View {
            buf: self.buf,
            pos: self.pos + value_offset::<K, V>(),
            of: PhantomData,
        }
    }
}
