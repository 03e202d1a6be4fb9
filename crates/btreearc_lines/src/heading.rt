//! What a file begins with: the header of its type, or none.
ghost use Rattle.std.specs.Prelude.{◌≡◌, IfErr, IfOk, OnOk};
ghost use Rattle.rkyv_btree_typed.specs.TypeNames.{name_of};
ghost use Rattle.rkyv_btree_writing_laws.specs.Whole.{fresh};
ghost use Rattle.btreearc_lines.specs.Headings.{IsHeaded, IsMisheaded, IsNamed, IsUnbegun, begun};

use rkyv_btree_typed::found_name::FoundName;
use rkyv_btree_typed::header::HeaderFault;
use rkyv_btree_typed::to_typed::write_header;
use rkyv_btree_typed::type_check::{TypedRefusal, check_type};
use rkyv_btree_typed::type_name::TypeName;
use rkyv_btree_writer::fault::Fault;
use rkyv_btree_writer::place::Writer;
use std::alloc::Global;
use std::fmt;

/// What a file begins with.
#[derive(Clone, Copy, Debug, PartialEq, Eq)]
pub enum Heading {
    /// The header of its type.
    Typed,
    /// No header.
    Untyped,
}

/// Why a file isn't read, by what it begins with.
#[derive(Drop)]
pub enum HeadingFault {
    /// A header of a version other than 1.
    OtherVersion(u16),
    /// The header of another type, which has this name.
    OtherType(FoundName),
}

impl fmt::Debug for HeadingFault {
    fn fmt<W: fmt::Write>(&self, f: &mut fmt::Formatter<W>) -> fmt::Result {
        match self {
            HeadingFault::OtherVersion(version) => write!(f, "OtherVersion({version})"),
            HeadingFault::OtherType(found) => write!(f, "OtherType({found})"),
        }
    }
}

/// Returns what bytes begin with, if it isn't another header than that of the type.
///
/// # Errors
///
/// `OtherVersion` and `OtherType` with what the header has.
pub fn heading_of<M: TypeName>(bytes: &[u8]) -> Result<Heading, HeadingFault>
    ensures ok { IfOk result (IsHeaded (name_of M.term) bytes.now) }
    ensures err { IfErr result (IsMisheaded (name_of M.term) bytes.now) }
{
    match check_type::<M>(bytes) {
        Ok(()) => Ok(Heading::Typed),
        Err(TypedRefusal::Header(HeaderFault::NoHeader)) => Ok(Heading::Untyped),
        Err(TypedRefusal::Header(HeaderFault::OtherVersion { version })) => {
            Err(HeadingFault::OtherVersion(version))
        }
        Err(TypedRefusal::OtherType(other)) => Err(HeadingFault::OtherType(other.found)),
        Err(TypedRefusal::Refused(_)) => unreachable!(),
    }
}

/// Writes what a file begins with whose type is archived as `M`, to a writer that holds nothing.
///
/// # Errors
///
/// Those of `write_header`, if there is a header.
pub fn write_heading<M: TypeName, W: Writer>(
    alloc: Global,
    heading: Heading,
    writer: &mut W,
) -> Result<(), Fault<W::Error>>
    requires { W.state writer.old ≡ fresh }
    ensures ok { OnOk result (W.state writer.new ≡ begun (name_of M.term) heading) }
    ensures named { OnOk result (IsNamed (name_of M.term) heading) }
    ensures err { IfErr result (IsUnbegun (name_of M.term) heading) }
{
    match heading {
        Heading::Typed => write_header::<M, W>(alloc, writer),
        Heading::Untyped => Ok(()),
    }
}
