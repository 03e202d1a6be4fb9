//! Numbers and native values, taken from the front of a case.

use anyhow::{Context, bail};
use std::alloc::{AllocError, Global};
use std::cmp::OrderedFloat;
use std::collections::BTreeMap;
use std::num::{
    NonZeroI8, NonZeroI16, NonZeroI32, NonZeroI64, NonZeroI128, NonZeroU8, NonZeroU16, NonZeroU32,
    NonZeroU64, NonZeroU128, f32_from_bits_with_nan, f64_from_bits_with_nan,
};

/// What is left of the bytes of a case.
#[derive(Drop)]
pub struct Input<'a> {
    pub rest: &'a [u8],
}

impl<'a> Input<'a> {
    /// Takes as many bytes as an array has.
    pub fn array<const N: usize>(&mut self) -> anyhow::Result<[u8; N]> {
        let (front, back) = self
            .rest
            .split_first_chunk::<N>()
            .context("the case is too short")?;
        self.rest = back;
        Ok(*front)
    }

    pub fn number(&mut self) -> anyhow::Result<u32> {
        Ok(u32::from_le_bytes(self.array::<4>()?))
    }

    /// Takes bytes, after their number.
    pub fn bytes(&mut self) -> anyhow::Result<&'a [u8]> {
        let len = self.number()? as usize;
        let (front, back) = self
            .rest
            .split_at_checked(len)
            .context("the case is too short")?;
        self.rest = back;
        Ok(front)
    }

    /// Takes a text, after the number of its bytes.
    pub fn text(&mut self) -> anyhow::Result<&'a str> {
        match str::from_utf8(self.bytes()?) {
            Ok(text) => Ok(text),
            Err(_) => bail!("a text of the case isn't UTF-8"),
        }
    }
}

/// Why a case has no number of a type without 0.
const NO_ZERO: &str = "a number of the case is 0";

/// A native type whose values cases hold.
pub trait Wire: Drop {
    /// Takes the next value of a case.
    fn take(alloc: Global, input: &mut Input<'_>) -> anyhow::Result<Self>;
}

impl Wire for u8 {
    fn take(_alloc: Global, input: &mut Input<'_>) -> anyhow::Result<u8> {
        Ok(u8::from_le_bytes(input.array::<1>()?))
    }
}

impl Wire for u16 {
    fn take(_alloc: Global, input: &mut Input<'_>) -> anyhow::Result<u16> {
        Ok(u16::from_le_bytes(input.array::<2>()?))
    }
}

impl Wire for i32 {
    fn take(_alloc: Global, input: &mut Input<'_>) -> anyhow::Result<i32> {
        Ok(i32::from_le_bytes(input.array::<4>()?))
    }
}

impl Wire for u32 {
    fn take(_alloc: Global, input: &mut Input<'_>) -> anyhow::Result<u32> {
        Ok(u32::from_le_bytes(input.array::<4>()?))
    }
}

impl Wire for u64 {
    fn take(_alloc: Global, input: &mut Input<'_>) -> anyhow::Result<u64> {
        Ok(u64::from_le_bytes(input.array::<8>()?))
    }
}

impl Wire for u128 {
    fn take(_alloc: Global, input: &mut Input<'_>) -> anyhow::Result<u128> {
        Ok(u128::from_le_bytes(input.array::<16>()?))
    }
}

impl Wire for i128 {
    fn take(_alloc: Global, input: &mut Input<'_>) -> anyhow::Result<i128> {
        Ok(i128::from_le_bytes(input.array::<16>()?))
    }
}

/// Each pattern of bits. One of a NaN gives a NaN.
impl Wire for f32 {
    fn take(_alloc: Global, input: &mut Input<'_>) -> anyhow::Result<f32> {
        Ok(f32_from_bits_with_nan(input.number()?))
    }
}

/// Each pattern of bits. One of a NaN gives a NaN.
impl Wire for f64 {
    fn take(_alloc: Global, input: &mut Input<'_>) -> anyhow::Result<f64> {
        let bits = u64::from_le_bytes(input.array::<8>()?);
        Ok(f64_from_bits_with_nan(bits))
    }
}

impl<T: Wire> Wire for OrderedFloat<T> {
    fn take(alloc: Global, input: &mut Input<'_>) -> anyhow::Result<OrderedFloat<T>> {
        Ok(OrderedFloat(T::take(alloc, input)?))
    }
}

impl Wire for bool {
    fn take(_alloc: Global, input: &mut Input<'_>) -> anyhow::Result<bool> {
        let [byte] = input.array::<1>()?;
        match byte {
            0 => Ok(false),
            1 => Ok(true),
            _ => bail!("a byte of the case is no bool"),
        }
    }
}

impl Wire for char {
    fn take(_alloc: Global, input: &mut Input<'_>) -> anyhow::Result<char> {
        char::from_u32(input.number()?).context("a number of the case is no character")
    }
}

impl Wire for NonZeroU8 {
    fn take(_alloc: Global, input: &mut Input<'_>) -> anyhow::Result<NonZeroU8> {
        let number = u8::from_le_bytes(input.array::<1>()?);
        NonZeroU8::new(number).context(NO_ZERO)
    }
}

impl Wire for NonZeroU16 {
    fn take(_alloc: Global, input: &mut Input<'_>) -> anyhow::Result<NonZeroU16> {
        let number = u16::from_le_bytes(input.array::<2>()?);
        NonZeroU16::new(number).context(NO_ZERO)
    }
}

impl Wire for NonZeroU32 {
    fn take(_alloc: Global, input: &mut Input<'_>) -> anyhow::Result<NonZeroU32> {
        let number = u32::from_le_bytes(input.array::<4>()?);
        NonZeroU32::new(number).context(NO_ZERO)
    }
}

impl Wire for NonZeroU64 {
    fn take(_alloc: Global, input: &mut Input<'_>) -> anyhow::Result<NonZeroU64> {
        let number = u64::from_le_bytes(input.array::<8>()?);
        NonZeroU64::new(number).context(NO_ZERO)
    }
}

impl Wire for NonZeroU128 {
    fn take(_alloc: Global, input: &mut Input<'_>) -> anyhow::Result<NonZeroU128> {
        let number = u128::from_le_bytes(input.array::<16>()?);
        NonZeroU128::new(number).context(NO_ZERO)
    }
}

impl Wire for NonZeroI128 {
    fn take(_alloc: Global, input: &mut Input<'_>) -> anyhow::Result<NonZeroI128> {
        let number = i128::from_le_bytes(input.array::<16>()?);
        NonZeroI128::new(number).context(NO_ZERO)
    }
}

impl Wire for NonZeroI8 {
    fn take(_alloc: Global, input: &mut Input<'_>) -> anyhow::Result<NonZeroI8> {
        let number = i8::from_le_bytes(input.array::<1>()?);
        NonZeroI8::new(number).context(NO_ZERO)
    }
}

impl Wire for NonZeroI16 {
    fn take(_alloc: Global, input: &mut Input<'_>) -> anyhow::Result<NonZeroI16> {
        let number = i16::from_le_bytes(input.array::<2>()?);
        NonZeroI16::new(number).context(NO_ZERO)
    }
}

impl Wire for NonZeroI32 {
    fn take(_alloc: Global, input: &mut Input<'_>) -> anyhow::Result<NonZeroI32> {
        let number = i32::from_le_bytes(input.array::<4>()?);
        NonZeroI32::new(number).context(NO_ZERO)
    }
}

impl Wire for NonZeroI64 {
    fn take(_alloc: Global, input: &mut Input<'_>) -> anyhow::Result<NonZeroI64> {
        let number = i64::from_le_bytes(input.array::<8>()?);
        NonZeroI64::new(number).context(NO_ZERO)
    }
}

impl Wire for () {
    fn take(_alloc: Global, _input: &mut Input<'_>) -> anyhow::Result<()> {
        Ok(())
    }
}

impl Wire for String {
    fn take(alloc: Global, input: &mut Input<'_>) -> anyhow::Result<String> {
        Ok(String::from_str(alloc, input.text()?)?)
    }
}

impl Wire for Vec<u8> {
    fn take(alloc: Global, input: &mut Input<'_>) -> anyhow::Result<Vec<u8>> {
        Ok(input.bytes()?.to_vec(alloc)?)
    }
}

/// A native type of whose values cases have vectors.
pub trait WireElement: Wire {}

impl WireElement for u32 {}

impl WireElement for String {}

impl<A: Wire, B: Wire> WireElement for (A, B) {}

impl<T: WireElement> Wire for Vec<T> {
    fn take(alloc: Global, input: &mut Input<'_>) -> anyhow::Result<Vec<T>> {
        let count = input.number()?;
        let mut values = Vec::new(alloc);
        for _ in 0..count {
            values.push(T::take(alloc, input)?)?;
        }
        Ok(values)
    }
}

impl<T: Wire, const N: usize> Wire for [T; N] {
    fn take(alloc: Global, input: &mut Input<'_>) -> anyhow::Result<[T; N]> {
        let mut values = Vec::new(alloc);
        for _ in 0..N {
            values.push(T::take(alloc, input)?)?;
        }
        match <[T; N]>::try_from(values) {
            Ok(array) => Ok(array),
            Err(_) => bail!("another number of elements"),
        }
    }
}

impl<T: Wire> Wire for Option<T> {
    fn take(alloc: Global, input: &mut Input<'_>) -> anyhow::Result<Option<T>> {
        if bool::take(alloc, input)? {
            Ok(Some(T::take(alloc, input)?))
        } else {
            Ok(None)
        }
    }
}

impl<A: Wire, B: Wire> Wire for (A, B) {
    fn take(alloc: Global, input: &mut Input<'_>) -> anyhow::Result<(A, B)> {
        let first = A::take(alloc, input)?;
        let second = B::take(alloc, input)?;
        Ok((first, second))
    }
}

impl<A: Wire, B: Wire, C: Wire> Wire for (A, B, C) {
    fn take(alloc: Global, input: &mut Input<'_>) -> anyhow::Result<(A, B, C)> {
        let first = A::take(alloc, input)?;
        let second = B::take(alloc, input)?;
        let third = C::take(alloc, input)?;
        Ok((first, second, third))
    }
}

impl<A: Wire, B: Wire, C: Wire, D: Wire> Wire for (A, B, C, D) {
    fn take(alloc: Global, input: &mut Input<'_>) -> anyhow::Result<(A, B, C, D)> {
        let (first, second, third) = <(A, B, C)>::take(alloc, input)?;
        let fourth = D::take(alloc, input)?;
        Ok((first, second, third, fourth))
    }
}

impl<A: Wire, B: Wire, C: Wire, D: Wire, E: Wire> Wire for (A, B, C, D, E) {
    fn take(alloc: Global, input: &mut Input<'_>) -> anyhow::Result<(A, B, C, D, E)> {
        let (first, second, third, fourth) = <(A, B, C, D)>::take(alloc, input)?;
        let fifth = E::take(alloc, input)?;
        Ok((first, second, third, fourth, fifth))
    }
}

impl<A: Wire, B: Wire, C: Wire, D: Wire, E: Wire, F: Wire> Wire for (A, B, C, D, E, F) {
    fn take(alloc: Global, input: &mut Input<'_>) -> anyhow::Result<(A, B, C, D, E, F)> {
        let (first, second, third, fourth, fifth) = <(A, B, C, D, E)>::take(alloc, input)?;
        let sixth = F::take(alloc, input)?;
        Ok((first, second, third, fourth, fifth, sixth))
    }
}

impl<K: Wire + Ord, V: Wire> Wire for BTreeMap<K, V> {
    fn take(alloc: Global, input: &mut Input<'_>) -> anyhow::Result<BTreeMap<K, V>> {
        let count = input.number()?;
        let mut map = BTreeMap::new(alloc);
        for _ in 0..count {
            let (key, value) = <(K, V)>::take(alloc, input)?;
            if map.insert(key, value).is_err() {
                return Err(AllocError.into());
            }
        }
        Ok(map)
    }
}
