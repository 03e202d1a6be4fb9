//! The test that bytes are of a type.
ghost use Rattle.std.specs.Prelude.{◌≡◌, ◌≢◌, ◌↔◌, IfErr, IsOk, MatchBool};
ghost use Rattle.rkyv_btree_typed.specs.TypeHeader.{HasHeader};
ghost use Rattle.rkyv_btree_typed.specs.TypedOpening.{IsMistyped, typed_output};
ghost use Rattle.rkyv_btree_typed.specs.TypeNames.{name_of};
ghost use Rattle.rkyv_btree_typed.specs.declared.type_check.TypedRefusal.TheVariants.{Header, Refused};

use crate::found_name::FoundName;
use crate::header::{HeaderFault, type_name_of};
use crate::type_name::{NameOf, TypeName};
use rkyv_btree_portable::refusal::Refusal;
use std::error::Error;
use std::fmt;

/// The names of two types: the one that bytes state, and the one that was expected.
#[derive(Drop)]
pub struct OtherType<M> {
    pub found: FoundName,
    pub expected: NameOf<M>,
}

/// The reason why bytes aren't opened as a typed file of type `M`.
#[derive(Drop)]
pub enum TypedRefusal<M> {
    /// The bytes begin with no header that is read.
    Header(HeaderFault),
    /// The header has the name of another type.
    OtherType(OtherType<M>),
    /// The header is that of the type, and the bytes are refused as an untyped archive.
    Refused(Refusal),
}

impl<M: TypeName> fmt::Display for TypedRefusal<M> {
    ghost output = { typed_output };

    fn fmt<W: fmt::Write>(&self, f: &mut fmt::Formatter<W>) -> fmt::Result {
        match self {
            TypedRefusal::Header(fault) => write!(f, "{fault}"),
            TypedRefusal::OtherType(other) => {
                let found = &other.found;
                let expected = &other.expected;
                write!(f, "the bytes are of type {found}, not {expected}")
            }
            TypedRefusal::Refused(refusal) => write!(f, "{refusal}"),
        }
    }
}

impl<M: TypeName> fmt::Debug for TypedRefusal<M> {
    fn fmt<W: fmt::Write>(&self, f: &mut fmt::Formatter<W>) -> fmt::Result {
        fmt::Display::fmt(self, f)
    }
}

impl<M: TypeName> Error for TypedRefusal<M> {}

/// Returns whether a text is the name of the type.
fn is_name_of<M: TypeName>(text: &str) -> bool
    ensures { MatchBool result (text.now ≡ name_of M.term) (text.now ≢ name_of M.term) }
{
    match M::strip_name(text.as_bytes()) {
        Some(rest) => rest.is_empty(),
        None => false,
    }
}

/// Tests that bytes begin with the header of the type. Nothing after the header is looked at.
///
/// # Errors
///
/// `Header` with the error of `type_name_of`, and `OtherType` with both names if the header has another one.
pub fn check_type<M: TypeName>(bytes: &[u8]) -> Result<(), TypedRefusal<M>>
    ensures accepts { IsOk result ↔ HasHeader (name_of M.term) bytes.now }
    ensures refuses { IfErr result (IsMistyped (name_of M.term) bytes.now) }
{
    let found = match type_name_of(bytes) {
        Ok(found) => found,
        Err(fault) => return Err(TypedRefusal::Header(fault)),
    };
    if is_name_of::<M>(found) {
        Ok(())
    } else {
        Err(TypedRefusal::OtherType(OtherType {
            found: FoundName::new(found),
            expected: NameOf::new(),
        }))
    }
}
