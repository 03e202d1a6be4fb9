//! What is lent to a closure beside a seal.
ghost use Rattle.std.specs.Prelude.{◌≡◌, IsTrue};
ghost use Rattle.rkyv_btree_portable.specs.Views.{stands};

use rkyv_btree_portable::check::Portable;
use rkyv_btree_view::view::View;
use std::marker::PhantomData;

/// The key of `K` at position `pos` of `buf`, of an entry whose value is lent. The bytes end where the value begins.
#[derive(Clone, Copy, Drop)]
pub struct LentKey<'a, K> {
    pub buf: &'a [u8],
    pub pos: u32,
    pub of: PhantomData<K>,
}

impl<'a, K> LentKey<'a, K> {
    /// Returns the key at position `pos` of `buf`. `view` requires that a key is stored there.
    pub fn at(buf: &'a [u8], pos: u32) -> LentKey<'a, K>
        ensures buffer { result.buf.now ≡ buf.now }
        ensures position { result.pos ≡ pos }
    {
        LentKey {
            buf,
            pos,
            of: PhantomData,
        }
    }
}

impl<'a, K: Portable> LentKey<'a, K> {
    /// Returns the view of the key.
    pub fn view(self) -> View<'a, K>
        requires { IsTrue (stands K.kind self.buf.now self.pos) }
        ensures buffer { result.buf.now ≡ self.entry.buf.now }
        ensures position { result.pos ≡ self.entry.pos }
    {
        View {
            buf: self.buf,
            pos: self.pos,
            of: PhantomData,
        }
    }
}
