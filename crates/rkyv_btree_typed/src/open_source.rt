//! Typed files that are opened as sources.
ghost use Rattle.std.specs.Prelude.{◌≡◌, ◌+◌, ◌≤◌, ◌<◌, List, ℕ, IfErr, IfOk, IsTrue, length, min};
ghost use Rattle.rkyv_btree_format.specs.Layout.{are_fitting};
ghost use Rattle.rkyv_btree_format.specs.OwnBytes.{own_at};
ghost use Rattle.rkyv_btree_source.specs.Known.{AreOf};
ghost use Rattle.rkyv_btree_typed.specs.TypeHeader.{HasHeader};
ghost use Rattle.rkyv_btree_typed.specs.TypeNames.{name_of};
ghost use Rattle.rkyv_btree_typed.specs.TypedSources.{IfSourceRead, IsSourceRefused};
ghost use Rattle.rkyv_btree_verify.specs.Map.{map_kind};

use crate::type_check::{TypedRefusal, check_type};
use crate::type_name::TypeName;
use rkyv_btree_source::fault::SourceFault;
use rkyv_btree_source::source::ReadAt;
use rkyv_btree_source::unverified_source::UnverifiedSource;
use rkyv_btree_walk::archived_map::ArchivedMap;
use std::error::Error;
use std::fmt;
use std::fmt::Display;

/// The reason why a source isn't opened as a typed file of type `M`. `E` is the source's own error.
#[derive(Drop)]
pub enum TypedSourceFault<M, E> {
    /// The source doesn't begin with the header of the type.
    Mistyped(TypedRefusal<M>),
    /// The source isn't opened, or its first bytes aren't read.
    Source(SourceFault<E>),
}

impl<M: TypeName, E: Display> Display for TypedSourceFault<M, E> {
    fn fmt<W: fmt::Write>(&self, f: &mut fmt::Formatter<W>) -> fmt::Result {
        match self {
            TypedSourceFault::Mistyped(refusal) => write!(f, "{refusal}"),
            TypedSourceFault::Source(fault) => write!(f, "{fault}"),
        }
    }
}

impl<M: TypeName, E: Display> fmt::Debug for TypedSourceFault<M, E> {
    fn fmt<W: fmt::Write>(&self, f: &mut fmt::Formatter<W>) -> fmt::Result {
        Display::fmt(self, f)
    }
}

impl<M: TypeName, E: Display + Drop> Error for TypedSourceFault<M, E> {}

/// Opens a source as `UnverifiedSource::open` does, and tests that it begins with the header of type `M`. As many first bytes are read
/// as `lent` has, or all of a shorter source: a header that is longer isn't found. They count for the budget.
///
/// # Errors
///
/// `Source` with the error of `UnverifiedSource::open`, or of the read: `OverBudget` if it needs more bytes than the budget has. Then
/// `Mistyped` with the error of `check_type` for these bytes.
///
/// # Examples
///
/// ```rust
/// let mut room = [0u8; 4096];
/// let source = CachedSource::new(alloc, file, 4)?;
/// let mut prices = open_typed_source::<CachedSource<&[u8]>, Prices>(source, BUDGET, &mut room)?;
/// ```
pub fn open_typed_source<S: ReadAt + Drop, M: ArchivedMap + TypeName>(
    source: S,
    budget: u64,
    lent: &mut [u8],
) -> Result<UnverifiedSource<S, M>, TypedSourceFault<M, S::Error>>
    requires { IsTrue (are_fitting M.Key.kind M.Mapped.kind M.E) }
    ensures source { IfOk result (λ map. S.known map.reader.source ≡ S.known source) }
    ensures position { (b : List ℕ) → AreOf (S.known source) b →
        IfOk result (λ map. map.pos ≡ own_at (map_kind M.Key.kind M.Mapped.kind M.E) b) }
    ensures typed { (b : List ℕ) → AreOf (S.known source) b →
        IfOk result (λ _. HasHeader (name_of M.term) b) }
    ensures refused { (b : List ℕ) → AreOf (S.known source) b → IfErr result
        (IsSourceRefused (name_of M.term) b (length lent.old) budget) }
    ensures fails { IfErr result (IfSourceRead (S.Fails (S.known source))) }
    ensures budget { IfOk result (λ map.
        (map.reader.left ≤ budget) × (budget ≤ map.reader.left + length lent.old)) }
    ensures spent { (b : List ℕ) → AreOf (S.known source) b → IfOk result (λ map.
        budget ≡ map.reader.left + min (length b) (length lent.old)) }
{
    let mut map = match UnverifiedSource::<S, M>::open(source, budget) {
        Ok(map) => map,
        Err(fault) => return Err(TypedSourceFault::Source(fault)),
    };
    let size = match map.reader.size() {
        Ok(size) => size,
        Err(fault) => return Err(TypedSourceFault::Source(fault)),
    };
    let len = size.min(lent.len() as u64) as usize;
    let first = &mut lent[..len];
    match map.reader.read(0, first) {
        Ok(()) => {}
        Err(fault) => return Err(TypedSourceFault::Source(fault)),
    }
    match check_type::<M>(first) {
        Ok(()) => Ok(map),
        Err(refusal) => Err(TypedSourceFault::Mistyped(refusal)),
    }
}
