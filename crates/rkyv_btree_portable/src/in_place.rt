//! Archived types of which one value is written over another.
ghost use Rattle.std.specs.Prelude.{◌≡◌, length, IsTrue};
ghost use Rattle.rkyv_btree_portable.specs.InPlace.{InPlaceForm, IsOwn, IsInPlace, scalar_form, pair_form};
ghost use Rattle.rkyv_btree_portable.specs.laws.InPlace.{scalar_in_place, pair_in_place};

use crate::check::{CheckBytes, Portable, Scalar};
use crate::entry::{Entry, value_offset};
use crate::little_endian::LittleEndian;

/// An archived type whose values lie in their own bytes alone, so that one is written over another: numbers, truth values,
/// characters, the empty value, and pairs of such.
pub trait InPlace: CheckBytes {
    /// The type of the values as the program has them.
    type Native: Copy + Drop;

    /// The own bytes of a native value, and what own bytes tell of one.
    ghost in_place: { InPlaceForm Self.Native };

    /// The value that own bytes mean.
    fn read(bytes: &[u8]) -> Self::Native
        requires fitting { IsTrue Self.kind.is_fitting }
        requires is_own { IsOwn Self.kind bytes.now }
        ensures { in_place.model result ≡ in_place.model_of_bytes bytes.now };

    /// Writes the own bytes of a value. What is read of them is the value again.
    fn write(value: Self::Native, bytes: &mut [u8])
        requires fitting { IsTrue Self.kind.is_fitting }
        requires size { length bytes.old ≡ Self.kind.size }
        ensures bytes { bytes.new ≡ in_place.own_bytes value }
        ensures model { in_place.model_of_bytes (in_place.own_bytes value) ≡ in_place.model value };

    ghost is_in_place: { IsInPlace Self.kind in_place };
}

impl<N> InPlace for LittleEndian<N>
where
    LittleEndian<N>: Scalar,
{
    type Native = <LittleEndian<N> as Scalar>::Native;

    ghost in_place = { scalar_form ⟦<LittleEndian<N> as Scalar>⟧.form };

    #[tactic(auto, using(crate::specs::laws::InPlace::plain_is_value))]
    fn read(bytes: &[u8]) -> <LittleEndian<N> as Scalar>::Native {
        <LittleEndian<N> as Scalar>::read(bytes)
    }

    fn write(value: <LittleEndian<N> as Scalar>::Native, bytes: &mut [u8]) {
        <LittleEndian<N> as Scalar>::write(value, bytes);
    }

    ghost is_in_place = { scalar_in_place ⟦<LittleEndian<N> as Scalar>⟧.faithful };
}

impl<K: InPlace, V: InPlace> InPlace for Entry<K, V> {
    type Native = (K::Native, V::Native);

    ghost in_place = { pair_form K.kind V.kind K.in_place V.in_place };

    fn read(bytes: &[u8]) -> (K::Native, V::Native) {
        let offset = value_offset::<K, V>() as usize;
        let key = K::read(&bytes[..K::size() as usize]);
        let value = V::read(&bytes[offset..offset + V::size() as usize]);
        (key, value)
    }

    /// Writes the key, and then the value. The bytes between and after them become zero.
    fn write(value: (K::Native, V::Native), bytes: &mut [u8]) {
        bytes.fill(0);
        let (front, back) = bytes.split_at_mut(value_offset::<K, V>() as usize);
        K::write(value.0, &mut front[..K::size() as usize]);
        V::write(value.1, &mut back[..V::size() as usize]);
    }

    ghost is_in_place = { pair_in_place K.kind V.kind K.laws V.laws K.is_in_place V.is_in_place };
}
