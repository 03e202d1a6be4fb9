//! Archived arrays.
ghost use Rattle.rkyv_btree_compound.specs.Arrays.{array_kind, RefusesArray};
ghost use Rattle.rkyv_btree_compound.specs.laws.ArrayLaws.{array_laws, array_refusals};

use crate::elements::check_elements;
use rkyv_btree_portable::check::{CheckBytes, Portable, Window, check_place};
use rkyv_btree_portable::refusal::Refusal;
use std::marker::PhantomData;

/// An array of `N` values, one after another. It is compared, ordered and hashed as a slice of them.
pub struct ArchivedArray<T, const N: usize> {
    of: PhantomData<T>,
}

impl<T: Portable, const N: usize> Portable for ArchivedArray<T, N> {
    ghost kind = { array_kind T.kind N };

    fn size() -> u32 {
        N as u32 * T::size()
    }

    fn align() -> u32 {
        T::align()
    }

    fn fits() -> bool {
        let limit = u64::from(u32::MAX);
        T::fits() && N as u64 <= limit && N as u64 * u64::from(T::size()) <= limit
    }

    ghost laws = { array_laws T.kind N T.laws };
}

impl<T: CheckBytes, const N: usize> CheckBytes for ArchivedArray<T, N> {
    ghost Refuses = { RefusesArray T.kind N };

    fn check(buf: &[u8], pos: u32, window: Window) -> Result<Window, Refusal> {
        check_place::<ArchivedArray<T, N>>(buf, pos)?;
        let lo = check_elements::<T>(buf, pos, N as u32, window.lo, window.hi)?;
        Ok(Window { lo, hi: window.hi })
    }

    ghost refusals = { λ _. array_refusals T.kind N T.laws };
}
