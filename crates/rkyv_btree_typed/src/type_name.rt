//! The names of archived types.
ghost use Rattle.std.specs.Fmt.{DisplaysOnOk};
ghost use Rattle.std.specs.Prelude.{◌≡◌, ◌++◌, List, ℕ, Some, codes, decimal};
ghost use Rattle.rkyv_btree_typed.specs.Stripping.{Strips};
ghost use Rattle.rkyv_btree_typed.specs.TypeNames.{TypeTerm, name_of};
ghost use Rattle.rkyv_btree_typed.specs.TypeNames as term;

use rkyv_btree_compound::array::ArchivedArray;
use rkyv_btree_compound::floats::{ArchivedF32, ArchivedF64};
use rkyv_btree_compound::option::ArchivedOption;
use rkyv_btree_compound::tuple::ArchivedTuple3;
use rkyv_btree_compound::vector::ArchivedVec;
use rkyv_btree_plain::archived_plain::ArchivedPlain;
use rkyv_btree_portable::byte_string::ArchivedBytes;
use rkyv_btree_portable::entry::Entry;
use rkyv_btree_portable::numbers::{ArchivedU16, ArchivedU32, ArchivedU64};
use rkyv_btree_portable::scalars::{ArchivedChar, ArchivedNonZeroU32};
use rkyv_btree_portable::signed::{ArchivedI16, ArchivedI32, ArchivedI64};
use rkyv_btree_portable::text::ArchivedText;
use rkyv_btree_types::map::ArchivedBTreeMap;
use rkyv_btree_types::set::ArchivedBTreeSet;
use std::fmt;
use std::marker::PhantomData;

/// An archived type that has a name.
pub trait TypeName {
    /// What the type is.
    ghost term: { TypeTerm };

    /// Writes the name.
    fn write_name<W: fmt::Write>(f: &mut fmt::Formatter<W>) -> fmt::Result
        ensures { DisplaysOnOk W.write_str_gives f.old result (Some (name_of term)) f.new };

    /// Returns the bytes that come after the name, or `None` if they don't begin with it.
    fn strip_name(bytes: &[u8]) -> Option<&[u8]>
        ensures { Strips (name_of term) bytes.now result };
}

/// A type of one's own that states the name of its archived type.
pub trait StatedName {
    /// The name. It has no `>`, and each type of a program must have another.
    ghost stated: { List ℕ };

    /// Returns the name.
    fn stated_name() -> &'static str
        ensures { result.now ≡ stated };
}

/// The name of a type, in messages.
#[derive(Drop)]
pub struct NameOf<T> {
    of: PhantomData<T>,
}

impl<T: TypeName> NameOf<T> {
    /// Returns the name of the type.
    pub fn new() -> NameOf<T> {
        NameOf { of: PhantomData }
    }
}

impl<T: TypeName> fmt::Display for NameOf<T> {
    ghost output = { λ _. Some (name_of T.term) };

    fn fmt<W: fmt::Write>(&self, f: &mut fmt::Formatter<W>) -> fmt::Result {
        T::write_name(f)
    }
}

/// Returns the bytes that come after a text, or `None` if they don't begin with it.
pub fn strip<'a>(bytes: &'a [u8], text: &str) -> Option<&'a [u8]>
    ensures { Strips text.now bytes.now result }
{
    bytes.strip_prefix(text.as_bytes())
}

/// Returns the bytes that come after a number, or `None` if they don't begin with it.
fn strip_number(bytes: &[u8], number: usize) -> Option<&[u8]>
    ensures { Strips (decimal number) bytes.now result }
{
    let mut digits = itoa::Buffer::new();
    strip(bytes, digits.format(number))
}

/// Returns the bytes that come after a separator, a number and a bracket at the end of a name, or `None` if they don't begin with
/// these.
fn strip_numbered<'a>(bytes: &'a [u8], separator: &str, number: usize) -> Option<&'a [u8]>
    ensures { Strips (separator.now ++ (decimal number ++ codes "]")) bytes.now result }
{
    let digits = strip(bytes, separator)?;
    let end = strip_number(digits, number)?;
    strip(end, "]")
}

impl TypeName for u8 {
    ghost term = { term.u8 };

    fn write_name<W: fmt::Write>(f: &mut fmt::Formatter<W>) -> fmt::Result {
        write!(f, "u8")
    }

    fn strip_name(bytes: &[u8]) -> Option<&[u8]> {
        strip(bytes, "u8")
    }
}

impl TypeName for ArchivedU16 {
    ghost term = { term.u16 };

    fn write_name<W: fmt::Write>(f: &mut fmt::Formatter<W>) -> fmt::Result {
        write!(f, "u16")
    }

    fn strip_name(bytes: &[u8]) -> Option<&[u8]> {
        strip(bytes, "u16")
    }
}

impl TypeName for ArchivedU32 {
    ghost term = { term.u32 };

    fn write_name<W: fmt::Write>(f: &mut fmt::Formatter<W>) -> fmt::Result {
        write!(f, "u32")
    }

    fn strip_name(bytes: &[u8]) -> Option<&[u8]> {
        strip(bytes, "u32")
    }
}

impl TypeName for ArchivedU64 {
    ghost term = { term.u64 };

    fn write_name<W: fmt::Write>(f: &mut fmt::Formatter<W>) -> fmt::Result {
        write!(f, "u64")
    }

    fn strip_name(bytes: &[u8]) -> Option<&[u8]> {
        strip(bytes, "u64")
    }
}

impl TypeName for i8 {
    ghost term = { term.i8 };

    fn write_name<W: fmt::Write>(f: &mut fmt::Formatter<W>) -> fmt::Result {
        write!(f, "i8")
    }

    fn strip_name(bytes: &[u8]) -> Option<&[u8]> {
        strip(bytes, "i8")
    }
}

impl TypeName for ArchivedI16 {
    ghost term = { term.i16 };

    fn write_name<W: fmt::Write>(f: &mut fmt::Formatter<W>) -> fmt::Result {
        write!(f, "i16")
    }

    fn strip_name(bytes: &[u8]) -> Option<&[u8]> {
        strip(bytes, "i16")
    }
}

impl TypeName for ArchivedI32 {
    ghost term = { term.i32 };

    fn write_name<W: fmt::Write>(f: &mut fmt::Formatter<W>) -> fmt::Result {
        write!(f, "i32")
    }

    fn strip_name(bytes: &[u8]) -> Option<&[u8]> {
        strip(bytes, "i32")
    }
}

impl TypeName for ArchivedI64 {
    ghost term = { term.i64 };

    fn write_name<W: fmt::Write>(f: &mut fmt::Formatter<W>) -> fmt::Result {
        write!(f, "i64")
    }

    fn strip_name(bytes: &[u8]) -> Option<&[u8]> {
        strip(bytes, "i64")
    }
}

impl TypeName for bool {
    ghost term = { term.bool };

    fn write_name<W: fmt::Write>(f: &mut fmt::Formatter<W>) -> fmt::Result {
        write!(f, "bool")
    }

    fn strip_name(bytes: &[u8]) -> Option<&[u8]> {
        strip(bytes, "bool")
    }
}

impl TypeName for ArchivedF32 {
    ghost term = { term.f32 };

    fn write_name<W: fmt::Write>(f: &mut fmt::Formatter<W>) -> fmt::Result {
        write!(f, "f32")
    }

    fn strip_name(bytes: &[u8]) -> Option<&[u8]> {
        strip(bytes, "f32")
    }
}

impl TypeName for ArchivedF64 {
    ghost term = { term.f64 };

    fn write_name<W: fmt::Write>(f: &mut fmt::Formatter<W>) -> fmt::Result {
        write!(f, "f64")
    }

    fn strip_name(bytes: &[u8]) -> Option<&[u8]> {
        strip(bytes, "f64")
    }
}

impl TypeName for ArchivedChar {
    ghost term = { term.char };

    fn write_name<W: fmt::Write>(f: &mut fmt::Formatter<W>) -> fmt::Result {
        write!(f, "char")
    }

    fn strip_name(bytes: &[u8]) -> Option<&[u8]> {
        strip(bytes, "char")
    }
}

impl TypeName for ArchivedNonZeroU32 {
    ghost term = { term.non_zero_u32 };

    fn write_name<W: fmt::Write>(f: &mut fmt::Formatter<W>) -> fmt::Result {
        write!(f, "NonZeroU32")
    }

    fn strip_name(bytes: &[u8]) -> Option<&[u8]> {
        strip(bytes, "NonZeroU32")
    }
}

impl TypeName for () {
    ghost term = { term.unit_type };

    fn write_name<W: fmt::Write>(f: &mut fmt::Formatter<W>) -> fmt::Result {
        write!(f, "()")
    }

    fn strip_name(bytes: &[u8]) -> Option<&[u8]> {
        strip(bytes, "()")
    }
}

impl TypeName for ArchivedText {
    ghost term = { term.text };

    fn write_name<W: fmt::Write>(f: &mut fmt::Formatter<W>) -> fmt::Result {
        write!(f, "text")
    }

    fn strip_name(bytes: &[u8]) -> Option<&[u8]> {
        strip(bytes, "text")
    }
}

impl TypeName for ArchivedBytes {
    ghost term = { term.byte_string };

    fn write_name<W: fmt::Write>(f: &mut fmt::Formatter<W>) -> fmt::Result {
        write!(f, "bytes")
    }

    fn strip_name(bytes: &[u8]) -> Option<&[u8]> {
        strip(bytes, "bytes")
    }
}

impl<N: StatedName> TypeName for ArchivedPlain<N> {
    ghost term = { term.own N.stated };

    fn write_name<W: fmt::Write>(f: &mut fmt::Formatter<W>) -> fmt::Result {
        let name = N::stated_name();
        write!(f, "<{name}>")
    }

    fn strip_name(bytes: &[u8]) -> Option<&[u8]> {
        let name = strip(bytes, "<")?;
        let end = strip(name, N::stated_name())?;
        strip(end, ">")
    }
}

impl<T: TypeName> TypeName for ArchivedOption<T> {
    ghost term = { term.option T.term };

    fn write_name<W: fmt::Write>(f: &mut fmt::Formatter<W>) -> fmt::Result {
        let value = NameOf::<T>::new();
        write!(f, "option({value})")
    }

    fn strip_name(bytes: &[u8]) -> Option<&[u8]> {
        let value = strip(bytes, "option(")?;
        let end = T::strip_name(value)?;
        strip(end, ")")
    }
}

impl<T: TypeName> TypeName for ArchivedVec<T> {
    ghost term = { term.vector T.term };

    fn write_name<W: fmt::Write>(f: &mut fmt::Formatter<W>) -> fmt::Result {
        let element = NameOf::<T>::new();
        write!(f, "vec({element})")
    }

    fn strip_name(bytes: &[u8]) -> Option<&[u8]> {
        let element = strip(bytes, "vec(")?;
        let end = T::strip_name(element)?;
        strip(end, ")")
    }
}

impl<A: TypeName, B: TypeName> TypeName for Entry<A, B> {
    ghost term = { term.pair A.term B.term };

    fn write_name<W: fmt::Write>(f: &mut fmt::Formatter<W>) -> fmt::Result {
        let first = NameOf::<A>::new();
        let second = NameOf::<B>::new();
        write!(f, "({first}, {second})")
    }

    fn strip_name(bytes: &[u8]) -> Option<&[u8]> {
        let first = strip(bytes, "(")?;
        let comma = A::strip_name(first)?;
        let second = strip(comma, ", ")?;
        let end = B::strip_name(second)?;
        strip(end, ")")
    }
}

impl<A: TypeName, B: TypeName, C: TypeName> TypeName for ArchivedTuple3<A, B, C> {
    ghost term = { term.triple A.term B.term C.term };

    fn write_name<W: fmt::Write>(f: &mut fmt::Formatter<W>) -> fmt::Result {
        let first = NameOf::<A>::new();
        let second = NameOf::<B>::new();
        let third = NameOf::<C>::new();
        write!(f, "({first}, {second}, {third})")
    }

    fn strip_name(bytes: &[u8]) -> Option<&[u8]> {
        let first = strip(bytes, "(")?;
        let first_comma = A::strip_name(first)?;
        let second = strip(first_comma, ", ")?;
        let second_comma = B::strip_name(second)?;
        let third = strip(second_comma, ", ")?;
        let end = C::strip_name(third)?;
        strip(end, ")")
    }
}

impl<T: TypeName, const N: usize> TypeName for ArchivedArray<T, N> {
    ghost term = { term.array T.term N };

    fn write_name<W: fmt::Write>(f: &mut fmt::Formatter<W>) -> fmt::Result {
        let element = NameOf::<T>::new();
        write!(f, "[{element}; {N}]")
    }

    fn strip_name(bytes: &[u8]) -> Option<&[u8]> {
        let element = strip(bytes, "[")?;
        let semicolon = T::strip_name(element)?;
        strip_numbered(semicolon, "; ", N)
    }
}

impl<K: TypeName, const E: usize> TypeName for ArchivedBTreeSet<K, E> {
    ghost term = { term.set K.term E };

    fn write_name<W: fmt::Write>(f: &mut fmt::Formatter<W>) -> fmt::Result {
        let key = NameOf::<K>::new();
        write!(f, "[{key} / {E}]")
    }

    fn strip_name(bytes: &[u8]) -> Option<&[u8]> {
        let key = strip(bytes, "[")?;
        let slash = K::strip_name(key)?;
        strip_numbered(slash, " / ", E)
    }
}

impl<K: TypeName, V: TypeName, const E: usize> TypeName for ArchivedBTreeMap<K, V, E> {
    ghost term = { term.map K.term V.term E };

    fn write_name<W: fmt::Write>(f: &mut fmt::Formatter<W>) -> fmt::Result {
        let key = NameOf::<K>::new();
        let value = NameOf::<V>::new();
        write!(f, "[{key} -> {value} / {E}]")
    }

    fn strip_name(bytes: &[u8]) -> Option<&[u8]> {
        let key = strip(bytes, "[")?;
        let arrow = K::strip_name(key)?;
        let value = strip(arrow, " -> ")?;
        let slash = V::strip_name(value)?;
        strip_numbered(slash, " / ", E)
    }
}
