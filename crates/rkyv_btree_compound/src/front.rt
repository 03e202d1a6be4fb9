//! The first fields of archived tuples, each at the next multiple of its alignment.
ghost use Rattle.std.specs.Prelude.{◌≡◌, ℕ, ◌+◌, ◌≤◌, ◌<◌, ◌^◌, IsTrue, IfOk, IfErr, List};
ghost use Rattle.rkyv_btree_compound.specs.Joined.{joined_end, IsLaidOut};
ghost use Rattle.rkyv_btree_compound.specs.Tuples.{front_kind, RefusesFirst, RefusesFields};
ghost use Rattle.rkyv_btree_compound.specs.laws.JoinedLaws.{laid_out_of};
ghost use Rattle.rkyv_btree_compound.specs.laws.TupleLaws.{front_laid_out};
ghost use Rattle.rkyv_btree_compound.specs.laws.TupleRefusals.{first_refusals, fields_refusals};
ghost use Rattle.rkyv_btree_portable.specs.Entry.{value_offset};
ghost use Rattle.rkyv_btree_portable.specs.Kind.{Kind};
ghost use Rattle.rkyv_btree_portable.specs.Refusing.{HasPlace, AreRefusals};
ghost use Rattle.rkyv_btree_portable.specs.declared.refusal.Refusal.{Refusal};

use rkyv_btree_portable::check::{CheckBytes, Portable, check_part};
use rkyv_btree_portable::refusal::Refusal;
use rkyv_btree_portable::rounding::round_up;
use std::marker::PhantomData;

/// The first fields of a tuple, which end where the last of them does: `First` or `Next`.
pub trait TupleFront {
    /// What their bytes mean, and what deciding and reading them gives.
    ghost kind: { Kind };

    /// Returns where the last of the fields ends.
    fn end() -> u32
        requires { IsTrue kind.is_fitting }
        ensures { result ≡ kind.size };

    /// Returns the greatest alignment of the fields: 1, 2, 4, 8 or 16.
    fn align() -> u32
        ensures value { result ≡ kind.align }
        ensures positive { 0 < result }
        ensures small { result ≤ 16 };

    /// Tests that the sizes of the fields, and where each ends, fit 32 bits.
    fn fits() -> bool
        ensures { result ≡ kind.is_fitting };

    ghost laid_out: { IsLaidOut kind };
}

/// The first field of a tuple.
pub struct First<A> {
    of: PhantomData<A>,
}

/// The first fields of a tuple and the next one, at the next multiple of its alignment.
pub struct Next<P, L> {
    of: PhantomData<(P, L)>,
}

/// Returns where the next field ends, which may be past 32 bits.
pub fn wide_end<P: TupleFront, L: Portable>() -> u64
    requires front { IsTrue P.kind.is_fitting }
    requires last { IsTrue L.kind.is_fitting }
    ensures value { result ≡ joined_end P.kind L.kind }
    ensures small { result < 2 ^ 34 }
{
    round_up(u64::from(P::end()), L::align()) + u64::from(L::size())
}

/// Returns the offset of the field after the first ones.
pub fn next_offset<P: TupleFront, L: Portable>() -> u32
    requires { IsTrue (front_kind P.kind L.kind).is_fitting }
    ensures value { result ≡ value_offset P.kind L.kind }
    ensures inside { result + L.kind.size ≡ joined_end P.kind L.kind }
    ensures small { joined_end P.kind L.kind < 2 ^ 32 }
{
    wide_end::<P, L>() as u32 - L::size()
}

impl<A: Portable> TupleFront for First<A> {
    ghost kind = { A.kind };

    fn end() -> u32 {
        A::size()
    }

    fn align() -> u32 {
        A::align()
    }

    fn fits() -> bool {
        A::fits()
    }

    ghost laid_out = { laid_out_of A.laws };
}

impl<P: TupleFront, L: Portable> TupleFront for Next<P, L> {
    ghost kind = { front_kind P.kind L.kind };

    fn end() -> u32 {
        wide_end::<P, L>() as u32
    }

    fn align() -> u32 {
        P::align().max(L::align())
    }

    fn fits() -> bool {
        P::fits() && L::fits() && wide_end::<P, L>() <= u64::from(u32::MAX)
    }

    ghost laid_out = { front_laid_out P.kind L.kind P.laid_out (laid_out_of L.laws) };
}

/// The first fields of a tuple, whose bytes can be checked, whoever wrote them.
pub trait CheckFront: TupleFront {
    /// Which refusal they get that have their place.
    ghost Refuses: { List ℕ → ℕ → ℕ → ℕ → Refusal → Type 0 };

    /// Validates the fields at position `pos`, whose outlying bytes may lie from `lo` up to `hi`, and returns the start of the window
    /// that they leave.
    ///
    /// # Errors
    ///
    /// `BadEntry` at the position of the first field whose bytes mean no value.
    fn check_front(buf: &[u8], pos: u32, lo: u32, hi: u32) -> Result<u32, Refusal>
        requires fitting { IsTrue Self.kind.is_fitting }
        requires ordered { lo ≤ hi }
        requires before { hi ≤ pos }
        requires place { HasPlace buf.now Self.kind.size Self.kind.align pos }
        ensures ok { IfOk result (λ left.
            (v : Self.kind.Value) × Self.kind.Means buf.now lo hi pos left v) }
        ensures err { IfErr result (λ refusal. Refuses buf.now lo hi pos refusal) };

    ghost refusals: { AreRefusals Self.kind Refuses };
}

/// Validates the first fields of a tuple and the next one, and returns the start of the window that they leave.
///
/// # Errors
///
/// `BadEntry` at the position of the first field whose bytes mean no value.
pub fn check_next<P: CheckFront, L: CheckBytes>(
    buf: &[u8],
    pos: u32,
    lo: u32,
    hi: u32,
) -> Result<u32, Refusal>
    requires fitting { IsTrue (front_kind P.kind L.kind).is_fitting }
    requires ordered { lo ≤ hi }
    requires before { hi ≤ pos }
    requires place { HasPlace buf.now (front_kind P.kind L.kind).size (front_kind P.kind L.kind).align pos }
    ensures ok { IfOk result (λ left.
        (v : (front_kind P.kind L.kind).Value)
        × (front_kind P.kind L.kind).Means buf.now lo hi pos left v) }
    ensures err { IfErr result (λ refusal.
        RefusesFields P.kind L.kind P.Refuses buf.now lo hi pos refusal) }
{
    let front = P::check_front(buf, pos, lo, hi)?;
    let left = check_part::<L>(buf, pos + next_offset::<P, L>(), front, hi)?;
    Ok(left)
}

impl<A: CheckBytes> CheckFront for First<A> {
    ghost Refuses = { RefusesFirst A.kind };

    fn check_front(buf: &[u8], pos: u32, lo: u32, hi: u32) -> Result<u32, Refusal> {
        let left = check_part::<A>(buf, pos, lo, hi)?;
        Ok(left)
    }

    ghost refusals = { first_refusals A.kind };
}

impl<P: CheckFront, L: CheckBytes> CheckFront for Next<P, L> {
    ghost Refuses = { RefusesFields P.kind L.kind P.Refuses };

    fn check_front(buf: &[u8], pos: u32, lo: u32, hi: u32) -> Result<u32, Refusal> {
        check_next::<P, L>(buf, pos, lo, hi)
    }

    ghost refusals = { fields_refusals P.kind L.kind P.laid_out (laid_out_of L.laws) P.refusals };
}
