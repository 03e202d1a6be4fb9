//! One value of a buffer, to read and to write in place.
ghost use Rattle.std.specs.Prelude.{◌≡◌};
ghost use Rattle.rkyv_btree_portable.specs.Bytes.{bytes_at};
ghost use Rattle.rkyv_btree_seal.specs.Put.{put_bytes};
ghost use Rattle.rkyv_btree_seal.specs.Alone.{StandsAlone};

use rkyv_btree_portable::in_place::InPlace;
use std::marker::PhantomData;

/// The value of `V` at position `pos` of `buf`, which is read and written there.
#[derive(Drop)]
pub struct Seal<'a, V> {
    pub buf: &'a mut [u8],
    pub pos: u32,
    pub of: PhantomData<V>,
}

impl<'a, V: InPlace> Seal<'a, V> {
    /// Returns the seal of the value at position `pos` of `buf`. `read` and `write` require that a value is stored there.
    pub fn at(buf: &'a mut [u8], pos: u32) -> Seal<'a, V>
        ensures same_reference { result.buf.ghost_name ≡ buf.entry.ghost_name }
        ensures buffer { result.buf.now ≡ buf.entry.now }
        ensures position { result.pos ≡ pos }
    {
        Seal {
            buf,
            pos,
            of: PhantomData,
        }
    }

    /// Returns the value.
    pub fn read(&self) -> V::Native
        requires { StandsAlone V.kind self.now.buf.now self.now.pos }
        ensures { V.in_place.model result
            ≡ V.in_place.model_of_bytes (bytes_at self.now.buf.now self.now.pos V.kind.size) }
    {
        let at = self.pos as usize;
        V::read(&self.buf[at..at + V::size() as usize])
    }

    /// Replaces the value by another, and no other byte.
    pub fn write(&mut self, value: V::Native)
        requires { StandsAlone V.kind self.old.buf.now self.old.pos }
        ensures same_reference { self.new.buf.ghost_name ≡ self.old.buf.ghost_name }
        ensures position { self.new.pos ≡ self.old.pos }
        ensures bytes { self.new.buf.now
            ≡ put_bytes self.old.buf.now self.old.pos (V.in_place.own_bytes value) }
        ensures stands { StandsAlone V.kind self.new.buf.now self.new.pos }
        ensures model { V.in_place.model value
            ≡ V.in_place.model_of_bytes (bytes_at self.new.buf.now self.new.pos V.kind.size) }
    {
        let at = self.pos as usize;
        V::write(value, &mut self.buf[at..at + V::size() as usize]);
    }
}
