//! Native values from typed files.
ghost use Rattle.std.specs.Prelude.{◌≡◌, Ok, IfErr, IfOk, IsTrue};
ghost use Rattle.rkyv_btree_format.specs.OwnBytes.{IsArchiveOf, own_at};
ghost use Rattle.rkyv_btree_typed.specs.TypeHeader.{HasHeader};
ghost use Rattle.rkyv_btree_typed.specs.TypedMaking.{IsTypedUnmade, made_output};
ghost use Rattle.rkyv_btree_typed.specs.TypeNames.{name_of};

use crate::open_typed::open_typed;
use crate::type_check::TypedRefusal;
use crate::type_name::TypeName;
use rkyv_btree_archive::archive::Archive;
use rkyv_btree_convert::deserialize::{Deserialize, DeserializeFault};
use rkyv_btree_portable::check::CheckBytes;
use std::alloc::Global;
use std::error::Error;
use std::fmt;

/// The error of `from_typed_archive`.
#[derive(Drop)]
pub enum FromTypedFault<M> {
    /// The bytes are no typed file of the type.
    Refused(TypedRefusal<M>),
    /// The bytes are a typed file, but its value wasn't deserialized.
    NotMade(DeserializeFault),
}

impl<M: TypeName> fmt::Display for FromTypedFault<M> {
    ghost output = { made_output };

    fn fmt<W: fmt::Write>(&self, f: &mut fmt::Formatter<W>) -> fmt::Result {
        match self {
            FromTypedFault::Refused(refusal) => write!(f, "{refusal}"),
            FromTypedFault::NotMade(fault) => write!(f, "{fault}"),
        }
    }
}

impl<M: TypeName> fmt::Debug for FromTypedFault<M> {
    fn fmt<W: fmt::Write>(&self, f: &mut fmt::Formatter<W>) -> fmt::Result {
        fmt::Display::fmt(self, f)
    }
}

impl<M: TypeName> Error for FromTypedFault<M> {}

/// Returns the native value that a typed file holds, in memory of `alloc`.
///
/// # Errors
///
/// `Refused` with the error of `open_typed`, and `NotMade` with the error of deserializing what the file holds.
pub fn from_typed_archive<T: Archive + PartialEq>(
    alloc: Global,
    bytes: &[u8],
) -> Result<T, FromTypedFault<T::Archived>>
where
    T::Archived: CheckBytes + Deserialize<T> + TypeName,
    requires { IsTrue T.Archived.kind.is_fitting }
    ensures header { IfOk result (λ _. HasHeader (name_of T.Archived.term) bytes.now) }
    ensures archive { IfOk result (λ _. (v : T.Archived.kind.Value)
        × IsArchiveOf T.Archived.kind bytes.now v) }
    ensures made { IfOk result (λ value.
        T.Archived.decoded bytes.now (own_at T.Archived.kind bytes.now)
        ≡ Ok (T.Archived.model value)) }
    ensures err { IfErr result (IsTypedUnmade T.Archived.kind (name_of T.Archived.term)
        T.Archived.Refuses T.Archived.decoded bytes.now) }
{
    let view = match open_typed::<T::Archived>(bytes) {
        Ok(view) => view,
        Err(refusal) => return Err(FromTypedFault::Refused(refusal)),
    };
    match T::Archived::deserialize(alloc, &view) {
        Ok(value) => Ok(value),
        Err(fault) => Err(FromTypedFault::NotMade(fault)),
    }
}
