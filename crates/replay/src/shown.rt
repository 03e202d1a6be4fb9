//! The text of archived values, and of bytes.

use rkyv_btree::array::element;
use rkyv_btree::prelude::*;
use std::alloc::AllocError;
use std::num::{NonZeroI8, NonZeroU8};

const DIGITS: [u8; 16] = *b"0123456789abcdef";

/// Appends a byte: two digits of base 16, or a dot for 0.
pub fn show_byte(byte: u8, out: &mut String) -> Result<(), AllocError> {
    if byte == 0 {
        return out.push('.');
    }
    out.push(char::from(DIGITS[usize::from(byte / 16)]))?;
    out.push(char::from(DIGITS[usize::from(byte % 16)]))
}

/// Appends each byte.
pub fn show_bytes(bytes: &[u8], out: &mut String) -> Result<(), AllocError> {
    for byte in bytes {
        show_byte(*byte, out)?;
    }
    Ok(())
}

/// An archived type whose values have a text. A number has its decimal digits.
pub trait Shown: Portable {
    fn show(view: &View<'_, Self>, out: &mut String) -> Result<(), AllocError>;
}

impl Shown for u8 {
    fn show(view: &View<'_, u8>, out: &mut String) -> Result<(), AllocError> {
        let number = view.to_native();
        write!(out, "{number}")
    }
}

impl Shown for ArchivedU16 {
    fn show(view: &View<'_, ArchivedU16>, out: &mut String) -> Result<(), AllocError> {
        let number = view.to_native();
        write!(out, "{number}")
    }
}

impl Shown for ArchivedI32 {
    fn show(view: &View<'_, ArchivedI32>, out: &mut String) -> Result<(), AllocError> {
        let number = view.to_native();
        write!(out, "{number}")
    }
}

impl Shown for ArchivedU32 {
    fn show(view: &View<'_, ArchivedU32>, out: &mut String) -> Result<(), AllocError> {
        let number = view.to_native();
        write!(out, "{number}")
    }
}

impl Shown for ArchivedU64 {
    fn show(view: &View<'_, ArchivedU64>, out: &mut String) -> Result<(), AllocError> {
        let number = view.to_native();
        write!(out, "{number}")
    }
}

/// The number of its bits, or `nan`.
impl Shown for ArchivedF32 {
    fn show(view: &View<'_, ArchivedF32>, out: &mut String) -> Result<(), AllocError> {
        let number = view.to_native().into_inner();
        if number.is_nan() {
            return out.push_str("nan");
        }
        let bits = number.to_bits();
        write!(out, "{bits}")
    }
}

/// The number of its bits, or `nan`.
impl Shown for ArchivedF64 {
    fn show(view: &View<'_, ArchivedF64>, out: &mut String) -> Result<(), AllocError> {
        let number = view.to_native().into_inner();
        if number.is_nan() {
            return out.push_str("nan");
        }
        let bits = number.to_bits();
        write!(out, "{bits}")
    }
}

/// 0 or 1.
impl Shown for bool {
    fn show(view: &View<'_, bool>, out: &mut String) -> Result<(), AllocError> {
        out.push(if view.to_native() { '1' } else { '0' })
    }
}

/// Its code.
impl Shown for ArchivedChar {
    fn show(view: &View<'_, ArchivedChar>, out: &mut String) -> Result<(), AllocError> {
        let code = u32::from(view.to_native());
        write!(out, "{code}")
    }
}

impl Shown for NonZeroU8 {
    fn show(view: &View<'_, NonZeroU8>, out: &mut String) -> Result<(), AllocError> {
        let number = view.to_native().get();
        write!(out, "{number}")
    }
}

impl Shown for NonZeroI8 {
    fn show(view: &View<'_, NonZeroI8>, out: &mut String) -> Result<(), AllocError> {
        let number = view.to_native().get();
        write!(out, "{number}")
    }
}

impl Shown for ArchivedNonZeroU16 {
    fn show(view: &View<'_, ArchivedNonZeroU16>, out: &mut String) -> Result<(), AllocError> {
        let number = view.to_native().get();
        write!(out, "{number}")
    }
}

impl Shown for ArchivedNonZeroI16 {
    fn show(view: &View<'_, ArchivedNonZeroI16>, out: &mut String) -> Result<(), AllocError> {
        let number = view.to_native().get();
        write!(out, "{number}")
    }
}

impl Shown for ArchivedNonZeroU32 {
    fn show(view: &View<'_, ArchivedNonZeroU32>, out: &mut String) -> Result<(), AllocError> {
        let number = view.to_native().get();
        write!(out, "{number}")
    }
}

impl Shown for ArchivedNonZeroI32 {
    fn show(view: &View<'_, ArchivedNonZeroI32>, out: &mut String) -> Result<(), AllocError> {
        let number = view.to_native().get();
        write!(out, "{number}")
    }
}

impl Shown for ArchivedNonZeroU64 {
    fn show(view: &View<'_, ArchivedNonZeroU64>, out: &mut String) -> Result<(), AllocError> {
        let number = view.to_native().get();
        write!(out, "{number}")
    }
}

impl Shown for ArchivedNonZeroI64 {
    fn show(view: &View<'_, ArchivedNonZeroI64>, out: &mut String) -> Result<(), AllocError> {
        let number = view.to_native().get();
        write!(out, "{number}")
    }
}

impl Shown for ArchivedU128 {
    fn show(view: &View<'_, ArchivedU128>, out: &mut String) -> Result<(), AllocError> {
        let number = view.to_native();
        write!(out, "{number}")
    }
}

impl Shown for ArchivedI128 {
    fn show(view: &View<'_, ArchivedI128>, out: &mut String) -> Result<(), AllocError> {
        let number = view.to_native();
        write!(out, "{number}")
    }
}

impl Shown for ArchivedNonZeroU128 {
    fn show(view: &View<'_, ArchivedNonZeroU128>, out: &mut String) -> Result<(), AllocError> {
        let number = view.to_native().get();
        write!(out, "{number}")
    }
}

impl Shown for ArchivedNonZeroI128 {
    fn show(view: &View<'_, ArchivedNonZeroI128>, out: &mut String) -> Result<(), AllocError> {
        let number = view.to_native().get();
        write!(out, "{number}")
    }
}

/// A dot.
impl Shown for () {
    fn show(view: &View<'_, ()>, out: &mut String) -> Result<(), AllocError> {
        view.to_native();
        out.push('.')
    }
}

/// Its bytes, after `x`.
impl Shown for ArchivedText {
    fn show(view: &View<'_, ArchivedText>, out: &mut String) -> Result<(), AllocError> {
        out.push('x')?;
        show_bytes(view.as_str().as_bytes(), out)
    }
}

/// Its bytes, after `x`.
impl Shown for ArchivedBytes {
    fn show(view: &View<'_, ArchivedBytes>, out: &mut String) -> Result<(), AllocError> {
        out.push('x')?;
        show_bytes(view.as_bytes(), out)
    }
}

/// The value after `some`, or `none`.
impl<T: Shown> Shown for ArchivedOption<T> {
    fn show(view: &View<'_, ArchivedOption<T>>, out: &mut String) -> Result<(), AllocError> {
        match view.as_option() {
            Some(value) => {
                out.push_str("some ")?;
                T::show(&value, out)
            }
            None => out.push_str("none"),
        }
    }
}

/// Its elements, in brackets.
impl<T: Shown> Shown for ArchivedVec<T> {
    fn show(view: &View<'_, ArchivedVec<T>>, out: &mut String) -> Result<(), AllocError> {
        out.push('[')?;
        for element in VecIter::new(*view) {
            out.push(' ')?;
            T::show(&element, out)?;
        }
        out.push(']')
    }
}

/// Its elements, in brackets.
impl<T: Shown, const N: usize> Shown for ArchivedArray<T, N> {
    fn show(view: &View<'_, ArchivedArray<T, N>>, out: &mut String) -> Result<(), AllocError> {
        out.push('[')?;
        for i in 0..N {
            out.push(' ')?;
            T::show(&element(view, i), out)?;
        }
        out.push(']')
    }
}

/// Both parts, in parentheses.
impl<K: Shown, V: Shown> Shown for Entry<K, V> {
    fn show(view: &View<'_, Entry<K, V>>, out: &mut String) -> Result<(), AllocError> {
        out.push('(')?;
        K::show(&view.key(), out)?;
        out.push(',')?;
        V::show(&view.value(), out)?;
        out.push(')')
    }
}

/// Its fields, in parentheses.
impl<A: Shown, B: Shown, C: Shown> Shown for ArchivedTuple3<A, B, C> {
    fn show(view: &View<'_, ArchivedTuple3<A, B, C>>, out: &mut String) -> Result<(), AllocError> {
        let (first, second, third) = view.as_tuple();
        out.push('(')?;
        A::show(&first, out)?;
        out.push(',')?;
        B::show(&second, out)?;
        out.push(',')?;
        C::show(&third, out)?;
        out.push(')')
    }
}

/// Its fields, in parentheses.
impl<A: Shown, B: Shown, C: Shown, D: Shown> Shown for ArchivedTuple4<A, B, C, D> {
    fn show(
        view: &View<'_, ArchivedTuple4<A, B, C, D>>,
        out: &mut String,
    ) -> Result<(), AllocError> {
        let (first, second, third, fourth) = view.as_tuple();
        out.push('(')?;
        A::show(&first, out)?;
        out.push(',')?;
        B::show(&second, out)?;
        out.push(',')?;
        C::show(&third, out)?;
        out.push(',')?;
        D::show(&fourth, out)?;
        out.push(')')
    }
}

/// Its fields, in parentheses.
impl<A: Shown, B: Shown, C: Shown, D: Shown, E: Shown> Shown for ArchivedTuple5<A, B, C, D, E> {
    fn show(
        view: &View<'_, ArchivedTuple5<A, B, C, D, E>>,
        out: &mut String,
    ) -> Result<(), AllocError> {
        let (first, second, third, fourth, fifth) = view.as_tuple();
        out.push('(')?;
        A::show(&first, out)?;
        out.push(',')?;
        B::show(&second, out)?;
        out.push(',')?;
        C::show(&third, out)?;
        out.push(',')?;
        D::show(&fourth, out)?;
        out.push(',')?;
        E::show(&fifth, out)?;
        out.push(')')
    }
}

/// Its fields, in parentheses.
impl<A: Shown, B: Shown, C: Shown, D: Shown, E: Shown, F: Shown> Shown
    for ArchivedTuple6<A, B, C, D, E, F> {
    fn show(
        view: &View<'_, ArchivedTuple6<A, B, C, D, E, F>>,
        out: &mut String,
    ) -> Result<(), AllocError> {
        let (first, second, third, fourth, fifth, sixth) = view.as_tuple();
        out.push('(')?;
        A::show(&first, out)?;
        out.push(',')?;
        B::show(&second, out)?;
        out.push(',')?;
        C::show(&third, out)?;
        out.push(',')?;
        D::show(&fourth, out)?;
        out.push(',')?;
        E::show(&fifth, out)?;
        out.push(',')?;
        F::show(&sixth, out)?;
        out.push(')')
    }
}

/// Its entries, in braces.
impl<K: Shown, V: Shown, const E: usize> Shown for ArchivedBTreeMap<K, V, E> {
    fn show(
        view: &View<'_, ArchivedBTreeMap<K, V, E>>,
        out: &mut String,
    ) -> Result<(), AllocError> {
        out.push('{')?;
        for (key, value) in view.iter() {
            show_entry(key, value, out)?;
        }
        out.push('}')
    }
}

/// Appends an entry, after a blank: ` KEY=VALUE`.
pub fn show_entry<K: Shown, V: Shown>(
    key: View<'_, K>,
    value: View<'_, V>,
    out: &mut String,
) -> Result<(), AllocError> {
    out.push(' ')?;
    K::show(&key, out)?;
    out.push('=')?;
    V::show(&value, out)
}
