//! The check of values in a row.
ghost use Rattle.std.specs.Prelude.{◌≡◌, ℕ, ◌+◌, ◌*◌, ◌≤◌, ◌<◌, ◌^◌, List, length, IsTrue, IfOk, IfErr};
ghost use Rattle.rkyv_btree_portable.specs.declared.refusal.Refusal.{Refusal};
ghost use Rattle.rkyv_btree_compound.specs.Elements.{Elements, FirstBad};

use rkyv_btree_portable::check::{CheckBytes, Portable, check_part};
use rkyv_btree_portable::refusal::Refusal;

/// Validates `n` values one after another from `start` on, whose outlying bytes may lie from `lo` up to `hi`, and returns the start
/// of the window that they leave.
///
/// # Errors
///
/// `BadEntry` at the first of them whose bytes mean no value.
pub fn check_elements<T: CheckBytes>(
    buf: &[u8],
    start: u32,
    n: u32,
    lo: u32,
    hi: u32,
) -> Result<u32, Refusal>
    requires fitting { IsTrue T.kind.is_fitting }
    requires ordered { lo ≤ hi }
    requires before { hi ≤ start }
    requires room { start + n * T.kind.size < 2 ^ 32 }
    ensures ok { IfOk result (λ left.
        (vs : List T.kind.Value) × (length vs ≡ n)
        × Elements T.kind buf.now lo hi start left vs) }
    ensures err { IfErr result (λ refusal.
        (place : ℕ) × FirstBad T.kind buf.now n lo hi start place
        × (refusal ≡ Refusal.BadEntry place)) }
{
    let size = T::size();
    let mut left = lo;
    for i in 0..n {
        left = check_part::<T>(buf, start + i * size, left, hi)?;
    }
    Ok(left)
}
