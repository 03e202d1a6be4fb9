//! The names of numbers of 128 bits.
ghost use Rattle.std.specs.Fmt.{DisplaysOnOk};
ghost use Rattle.std.specs.Prelude.{◌≡◌, Some};
ghost use Rattle.rkyv_btree_typed.specs.Stripping.{Strips};
ghost use Rattle.rkyv_btree_typed.specs.TypeNames.{name_of};
ghost use Rattle.rkyv_btree_typed.specs.TypeNames as term;

use crate::type_name::{TypeName, strip};
use rkyv_btree_compound::wide::{
    ArchivedI128, ArchivedNonZeroI128, ArchivedNonZeroU128, ArchivedU128,
};
use std::fmt;

impl TypeName for ArchivedU128 {
    ghost term = { term.u128 };

    fn write_name<W: fmt::Write>(f: &mut fmt::Formatter<W>) -> fmt::Result {
        write!(f, "u128")
    }

    fn strip_name(bytes: &[u8]) -> Option<&[u8]> {
        strip(bytes, "u128")
    }
}

impl TypeName for ArchivedI128 {
    ghost term = { term.i128 };

    fn write_name<W: fmt::Write>(f: &mut fmt::Formatter<W>) -> fmt::Result {
        write!(f, "i128")
    }

    fn strip_name(bytes: &[u8]) -> Option<&[u8]> {
        strip(bytes, "i128")
    }
}

impl TypeName for ArchivedNonZeroU128 {
    ghost term = { term.non_zero_u128 };

    fn write_name<W: fmt::Write>(f: &mut fmt::Formatter<W>) -> fmt::Result {
        write!(f, "NonZeroU128")
    }

    fn strip_name(bytes: &[u8]) -> Option<&[u8]> {
        strip(bytes, "NonZeroU128")
    }
}

impl TypeName for ArchivedNonZeroI128 {
    ghost term = { term.non_zero_i128 };

    fn write_name<W: fmt::Write>(f: &mut fmt::Formatter<W>) -> fmt::Result {
        write!(f, "NonZeroI128")
    }

    fn strip_name(bytes: &[u8]) -> Option<&[u8]> {
        strip(bytes, "NonZeroI128")
    }
}
