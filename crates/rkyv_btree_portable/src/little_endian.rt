//! Numbers of several bytes.
ghost use Rattle.rkyv_btree_portable.specs.Plain.{plain_kind};
ghost use Rattle.rkyv_btree_portable.specs.Refusing.{RefusesWhole};
ghost use Rattle.rkyv_btree_portable.specs.laws.Refusing.{whole_refusals};

use crate::check::{CheckBytes, Portable, Scalar, Window, check_in_place};
use crate::refusal::Refusal;
use std::marker::PhantomData;

/// A native value as a number of several bytes, the least first.
pub struct LittleEndian<N> {
    of: PhantomData<N>,
}

// An impl for every type in place would fit by its head what has an impl of its own, as text. Functions over a struct with
// the bound `Portable` and a ghost field, as a view of text, would then get no proof.
impl<N> Portable for LittleEndian<N>
where
    LittleEndian<N>: Scalar,
{
    ghost kind = { plain_kind ⟦<LittleEndian<N> as Scalar>⟧.form.plain };

    fn size() -> u32 {
        LittleEndian::<N>::size_and_align().0
    }

    fn align() -> u32 {
        LittleEndian::<N>::size_and_align().1
    }

    fn fits() -> bool {
        true
    }

    ghost laws = { ⟦<LittleEndian<N> as Scalar>⟧.faithful.lawful };
}

impl<N> CheckBytes for LittleEndian<N>
where
    LittleEndian<N>: Scalar,
{
    ghost Refuses = { RefusesWhole (plain_kind ⟦<LittleEndian<N> as Scalar>⟧.form.plain) };

    fn check(buf: &[u8], pos: u32, window: Window) -> Result<Window, Refusal> {
        check_in_place::<LittleEndian<N>>(buf, pos, window)
    }

    ghost refusals = { λ _. whole_refusals ⟦<LittleEndian<N> as Scalar>⟧.faithful.lawful };
}
