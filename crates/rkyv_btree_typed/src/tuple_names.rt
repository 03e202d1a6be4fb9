//! The names of archived tuples of four to six.
ghost use Rattle.std.specs.Prelude.{◌++◌, codes};
ghost use Rattle.rkyv_btree_typed.specs.Stripping.{Strips};
ghost use Rattle.rkyv_btree_typed.specs.TypeNames.{name_of};
ghost use Rattle.rkyv_btree_typed.specs.TypeNames as term;

use crate::type_name::{NameOf, TypeName, strip};
use rkyv_btree_compound::tuple::{ArchivedTuple4, ArchivedTuple5, ArchivedTuple6};
use std::fmt;

/// Returns the bytes that come after a comma and the name of a type, or `None` if they don't begin with these.
fn strip_next<T: TypeName>(bytes: &[u8]) -> Option<&[u8]>
    ensures { Strips (codes ", " ++ name_of T.term) bytes.now result }
{
    let name = strip(bytes, ", ")?;
    T::strip_name(name)
}

impl<A: TypeName, B: TypeName, C: TypeName, D: TypeName> TypeName for ArchivedTuple4<A, B, C, D> {
    ghost term = { term.quadruple A.term B.term C.term D.term };

    fn write_name<W: fmt::Write>(f: &mut fmt::Formatter<W>) -> fmt::Result {
        let first = NameOf::<A>::new();
        let second = NameOf::<B>::new();
        let third = NameOf::<C>::new();
        let fourth = NameOf::<D>::new();
        write!(f, "({first}, {second}, {third}, {fourth})")
    }

    fn strip_name(bytes: &[u8]) -> Option<&[u8]> {
        let first = strip(bytes, "(")?;
        let second = A::strip_name(first)?;
        let third = strip_next::<B>(second)?;
        let fourth = strip_next::<C>(third)?;
        let end_of_four = strip_next::<D>(fourth)?;
        strip(end_of_four, ")")
    }
}

impl<A: TypeName, B: TypeName, C: TypeName, D: TypeName, E: TypeName> TypeName
    for ArchivedTuple5<A, B, C, D, E> {
    ghost term = { term.quintuple A.term B.term C.term D.term E.term };

    fn write_name<W: fmt::Write>(f: &mut fmt::Formatter<W>) -> fmt::Result {
        let first = NameOf::<A>::new();
        let second = NameOf::<B>::new();
        let third = NameOf::<C>::new();
        let fourth = NameOf::<D>::new();
        let fifth = NameOf::<E>::new();
        write!(f, "({first}, {second}, {third}, {fourth}, {fifth})")
    }

    fn strip_name(bytes: &[u8]) -> Option<&[u8]> {
        let first = strip(bytes, "(")?;
        let second = A::strip_name(first)?;
        let third = strip_next::<B>(second)?;
        let fourth = strip_next::<C>(third)?;
        let fifth = strip_next::<D>(fourth)?;
        let end_of_five = strip_next::<E>(fifth)?;
        strip(end_of_five, ")")
    }
}

impl<A: TypeName, B: TypeName, C: TypeName, D: TypeName, E: TypeName, F: TypeName> TypeName
    for ArchivedTuple6<A, B, C, D, E, F> {
    ghost term = { term.sextuple A.term B.term C.term D.term E.term F.term };

    fn write_name<W: fmt::Write>(f: &mut fmt::Formatter<W>) -> fmt::Result {
        let first = NameOf::<A>::new();
        let second = NameOf::<B>::new();
        let third = NameOf::<C>::new();
        let fourth = NameOf::<D>::new();
        let fifth = NameOf::<E>::new();
        let sixth = NameOf::<F>::new();
        write!(
            f,
            "({first}, {second}, {third}, {fourth}, {fifth}, {sixth})"
        )
    }

    fn strip_name(bytes: &[u8]) -> Option<&[u8]> {
        let first = strip(bytes, "(")?;
        let second = A::strip_name(first)?;
        let third = strip_next::<B>(second)?;
        let fourth = strip_next::<C>(third)?;
        let fifth = strip_next::<D>(fourth)?;
        let sixth = strip_next::<E>(fifth)?;
        let end_of_six = strip_next::<F>(sixth)?;
        strip(end_of_six, ")")
    }
}
