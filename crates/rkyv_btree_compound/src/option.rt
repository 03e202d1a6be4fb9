//! Archived options.
ghost use Rattle.rkyv_btree_compound.specs.Option.{option_kind, RefusesOption};
ghost use Rattle.rkyv_btree_compound.specs.laws.OptionLaws.{option_laws};
ghost use Rattle.rkyv_btree_compound.specs.laws.OptionRefusals.{option_refusals};

use rkyv_btree_portable::check::{CheckBytes, Portable, Window, check_part, check_place};
use rkyv_btree_portable::refusal::Refusal;
use std::marker::PhantomData;

/// The tag of an option without a value.
pub const NONE: u8 = 0;

/// The tag of an option with a value.
pub const SOME: u8 = 1;

/// A value or none: a tag of one byte, 0 for none and 1 for a value, and the value at its own alignment.
pub struct ArchivedOption<T> {
    of: PhantomData<T>,
}

impl<T: Portable> Portable for ArchivedOption<T> {
    ghost kind = { option_kind T.kind };

    fn size() -> u32 {
        T::align() + T::size()
    }

    fn align() -> u32 {
        T::align()
    }

    fn fits() -> bool {
        T::fits() && u64::from(T::align()) + u64::from(T::size()) <= u64::from(u32::MAX)
    }

    ghost laws = { option_laws T.kind T.laws };
}

impl<T: CheckBytes> CheckBytes for ArchivedOption<T> {
    ghost Refuses = { RefusesOption T.kind };

    fn check(buf: &[u8], pos: u32, window: Window) -> Result<Window, Refusal> {
        check_place::<ArchivedOption<T>>(buf, pos)?;
        let tag = buf[pos as usize];
        if tag == NONE {
            return Ok(window);
        }
        if tag != SOME {
            return Err(Refusal::BadEntry { pos });
        }
        let lo = check_part::<T>(buf, pos + T::align(), window.lo, window.hi)?;
        Ok(Window { lo, hi: window.hi })
    }

    ghost refusals = { λ _. option_refusals T.kind };
}
