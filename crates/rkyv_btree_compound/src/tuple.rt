//! Archived tuples of three to six fields. A pair is an `Entry`.
ghost use Rattle.std.specs.Prelude.{◌≡◌, IsTrue};
ghost use Rattle.rkyv_btree_compound.specs.Tuples.{tuple_size, tuple_kind, RefusesTuple};
ghost use Rattle.rkyv_btree_compound.specs.laws.JoinedLaws.{laid_out_of};
ghost use Rattle.rkyv_btree_compound.specs.laws.TupleLaws.{tuple_laws};
ghost use Rattle.rkyv_btree_compound.specs.laws.TupleRefusals.{tuple_refusals};

use crate::front::{CheckFront, First, Next, TupleFront, check_next, wide_end};
use rkyv_btree_portable::check::{CheckBytes, Portable, Window, check_place};
use rkyv_btree_portable::refusal::Refusal;
use rkyv_btree_portable::rounding::round_up;
use std::marker::PhantomData;

/// A tuple of all fields but the last, and the last one, compared, ordered and hashed field by field. Each field is at the next
/// multiple of its alignment, and after the last one is padding up to a multiple of the greatest alignment.
pub struct ArchivedTuple<P, L> {
    of: PhantomData<(P, L)>,
}

/// A tuple of three.
pub type ArchivedTuple3<A, B, C> = ArchivedTuple<Next<First<A>, B>, C>;

/// A tuple of four.
pub type ArchivedTuple4<A, B, C, D> = ArchivedTuple<Next<Next<First<A>, B>, C>, D>;

/// A tuple of five.
pub type ArchivedTuple5<A, B, C, D, E> = ArchivedTuple<Next<Next<Next<First<A>, B>, C>, D>, E>;

/// A tuple of six.
pub type ArchivedTuple6<A, B, C, D, E, F> = ArchivedTuple<
    Next<Next<Next<Next<First<A>, B>, C>, D>, E>,
    F,
>;

/// The size of a tuple, which may be past 32 bits.
fn wide_size<P: TupleFront, L: Portable>() -> u64
    requires front { IsTrue P.kind.is_fitting }
    requires last { IsTrue L.kind.is_fitting }
    ensures { result ≡ tuple_size P.kind L.kind }
{
    round_up(wide_end::<P, L>(), P::align().max(L::align()))
}

impl<P: TupleFront, L: Portable> Portable for ArchivedTuple<P, L> {
    ghost kind = { tuple_kind P.kind L.kind };

    fn size() -> u32 {
        wide_size::<P, L>() as u32
    }

    fn align() -> u32 {
        P::align().max(L::align())
    }

    fn fits() -> bool {
        P::fits() && L::fits() && wide_size::<P, L>() <= u64::from(u32::MAX)
    }

    ghost laws = { tuple_laws P.kind L.kind P.laid_out (laid_out_of L.laws) };
}

impl<P: CheckFront, L: CheckBytes> CheckBytes for ArchivedTuple<P, L> {
    ghost Refuses = { RefusesTuple P.kind L.kind P.Refuses };

    fn check(buf: &[u8], pos: u32, window: Window) -> Result<Window, Refusal> {
        check_place::<ArchivedTuple<P, L>>(buf, pos)?;
        let lo = check_next::<P, L>(buf, pos, window.lo, window.hi)?;
        Ok(Window { lo, hi: window.hi })
    }

    ghost refusals = { λ _. tuple_refusals P.kind L.kind P.laid_out (laid_out_of L.laws) P.refusals };
}
