//! Archived vectors.
ghost use Rattle.std.specs.Prelude.{◌≡◌, ◌+◌, ◌*◌, ◌≤◌, ℕ, length, IfSome, IfNone, IsTrue};
ghost use Rattle.rkyv_btree_portable.specs.Text.{text_len};
ghost use Rattle.rkyv_btree_compound.specs.Vectors.{HasRoom, RefusesVector, vector_kind};
ghost use Rattle.rkyv_btree_compound.specs.laws.VectorLaws.{vector_laws};
ghost use Rattle.rkyv_btree_compound.specs.laws.VectorRefusals.{vector_refusals};

use crate::elements::check_elements;
use rkyv_btree_portable::bytes::{num32, pointed_at};
use rkyv_btree_portable::check::{CheckBytes, Portable, Window, check_place};
use rkyv_btree_portable::refusal::Refusal;
use std::marker::PhantomData;

/// A vector: an offset to its elements and their number, four bytes each. The elements lie one after another before it.
pub struct ArchivedVec<T> {
    of: PhantomData<T>,
}

impl<T: Portable> Portable for ArchivedVec<T> {
    ghost kind = { vector_kind T.kind };

    fn size() -> u32 {
        8
    }

    fn align() -> u32 {
        4
    }

    /// Whether the elements fit, and have bytes of their own.
    fn fits() -> bool {
        T::fits() && T::size() > 0
    }

    ghost laws = { vector_laws T.kind T.laws };
}

/// Returns where the own bytes of the elements of the vector at `pos` are, or `None` if they aren't in `window`.
fn row_range<T: Portable>(buf: &[u8], pos: u32, window: Window) -> Option<Window>
    requires fitting { IsTrue T.kind.is_fitting }
    requires short { length buf.now ≤ 4294967295 }
    requires room { pos + 8 ≤ length buf.now }
    ensures range { IfSome result (λ row.
        HasRoom T.kind buf.now window.lo window.hi pos row.lo
        × (row.hi ≡ row.lo + text_len buf.now pos * T.kind.size)) }
    ensures outside { IfNone result
        ((start : ℕ) → HasRoom T.kind buf.now window.lo window.hi pos start → ⊥) }
{
    let lo = u32::try_from(pointed_at(buf, pos)).ok()?;
    let count = num32(buf, pos + 4);
    let hi = u64::from(lo) + u64::from(count) * u64::from(T::size());
    if lo < window.lo || hi > u64::from(window.hi) {
        return None;
    }
    Some(Window { lo, hi: hi as u32 })
}

impl<T: CheckBytes> CheckBytes for ArchivedVec<T> {
    ghost Refuses = { RefusesVector T.kind };

    fn check(buf: &[u8], pos: u32, window: Window) -> Result<Window, Refusal> {
        check_place::<ArchivedVec<T>>(buf, pos)?;
        let count = num32(buf, pos + 4);
        let Some(row) = row_range::<T>(buf, pos, window) else {
            return Err(Refusal::BadEntry { pos });
        };
        check_elements::<T>(buf, row.lo, count, window.lo, row.lo)?;
        Ok(Window {
            lo: row.hi,
            hi: window.hi,
        })
    }

    ghost refusals = { λ _. vector_refusals T.kind T.laws };
}
