//! The names of numbers other than 0.
ghost use Rattle.std.specs.Fmt.{DisplaysOnOk};
ghost use Rattle.std.specs.Prelude.{◌≡◌, Some};
ghost use Rattle.rkyv_btree_typed.specs.Stripping.{Strips};
ghost use Rattle.rkyv_btree_typed.specs.TypeNames.{name_of};
ghost use Rattle.rkyv_btree_typed.specs.TypeNames as term;

use crate::type_name::{TypeName, strip};
use rkyv_btree_portable::non_zeros::{
    ArchivedNonZeroI16, ArchivedNonZeroI32, ArchivedNonZeroI64, ArchivedNonZeroU16,
    ArchivedNonZeroU64,
};
use std::fmt;
use std::num::{NonZeroI8, NonZeroI16, NonZeroI32, NonZeroI64, NonZeroU8, NonZeroU16, NonZeroU64};

impl TypeName for NonZeroU8 {
    ghost term = { term.non_zero_u8 };

    fn write_name<W: fmt::Write>(f: &mut fmt::Formatter<W>) -> fmt::Result {
        write!(f, "NonZeroU8")
    }

    fn strip_name(bytes: &[u8]) -> Option<&[u8]> {
        strip(bytes, "NonZeroU8")
    }
}

impl TypeName for ArchivedNonZeroU16 {
    ghost term = { term.non_zero_u16 };

    fn write_name<W: fmt::Write>(f: &mut fmt::Formatter<W>) -> fmt::Result {
        write!(f, "NonZeroU16")
    }

    fn strip_name(bytes: &[u8]) -> Option<&[u8]> {
        strip(bytes, "NonZeroU16")
    }
}

impl TypeName for ArchivedNonZeroU64 {
    ghost term = { term.non_zero_u64 };

    fn write_name<W: fmt::Write>(f: &mut fmt::Formatter<W>) -> fmt::Result {
        write!(f, "NonZeroU64")
    }

    fn strip_name(bytes: &[u8]) -> Option<&[u8]> {
        strip(bytes, "NonZeroU64")
    }
}

impl TypeName for NonZeroI8 {
    ghost term = { term.non_zero_i8 };

    fn write_name<W: fmt::Write>(f: &mut fmt::Formatter<W>) -> fmt::Result {
        write!(f, "NonZeroI8")
    }

    fn strip_name(bytes: &[u8]) -> Option<&[u8]> {
        strip(bytes, "NonZeroI8")
    }
}

impl TypeName for ArchivedNonZeroI16 {
    ghost term = { term.non_zero_i16 };

    fn write_name<W: fmt::Write>(f: &mut fmt::Formatter<W>) -> fmt::Result {
        write!(f, "NonZeroI16")
    }

    fn strip_name(bytes: &[u8]) -> Option<&[u8]> {
        strip(bytes, "NonZeroI16")
    }
}

impl TypeName for ArchivedNonZeroI32 {
    ghost term = { term.non_zero_i32 };

    fn write_name<W: fmt::Write>(f: &mut fmt::Formatter<W>) -> fmt::Result {
        write!(f, "NonZeroI32")
    }

    fn strip_name(bytes: &[u8]) -> Option<&[u8]> {
        strip(bytes, "NonZeroI32")
    }
}

impl TypeName for ArchivedNonZeroI64 {
    ghost term = { term.non_zero_i64 };

    fn write_name<W: fmt::Write>(f: &mut fmt::Formatter<W>) -> fmt::Result {
        write!(f, "NonZeroI64")
    }

    fn strip_name(bytes: &[u8]) -> Option<&[u8]> {
        strip(bytes, "NonZeroI64")
    }
}
