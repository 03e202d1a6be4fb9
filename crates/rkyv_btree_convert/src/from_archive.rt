//! Whole archives: opened for reading, opened for in-place updates, and deserialized.
ghost use Rattle.std.specs.Prelude.{◌≡◌, ◌↔◌, Some, Ok, Err, IsTrue, IsOk, IfOk, IfErr};
ghost use Rattle.rkyv_btree_portable.specs.declared.refusal.Refusal.{Refusal};
ghost use Rattle.rkyv_btree_format.specs.OwnBytes.{IsArchiveOf, own_at};
ghost use Rattle.rkyv_btree_convert.specs.Whole.{IsUnopened, IsUnmade, archive_text};
ghost use Rattle.rkyv_btree_convert.specs.declared.from_archive.FromArchiveFault.TheVariants.{Refused, NotMade};
ghost use Rattle.rkyv_btree_view.specs.View.{view_value};

use crate::deserialize::{Deserialize, DeserializeFault};
use rkyv_btree_archive::archive::Archive;
use rkyv_btree_portable::check::CheckBytes;
use rkyv_btree_portable::refusal::Refusal;
use rkyv_btree_seal::map_seal::MapSeal;
use rkyv_btree_view::view::View;
use std::alloc::Global;
use std::error::Error;
use std::fmt;

/// The error of `from_archive`.
#[derive(Clone, Copy, Debug, PartialEq, Eq)]
pub enum FromArchiveFault {
    /// The bytes are no archive.
    Refused(Refusal),
    /// The bytes are an archive, but its value wasn't deserialized.
    NotMade(DeserializeFault),
}

impl From<Refusal> for FromArchiveFault {
    ghost from_gives = { λ refusal fault. fault ≡ Refused refusal };

    fn from(refusal: Refusal) -> FromArchiveFault {
        FromArchiveFault::Refused(refusal)
    }
}

impl From<DeserializeFault> for FromArchiveFault {
    ghost from_gives = { λ fault whole. whole ≡ NotMade fault };

    fn from(fault: DeserializeFault) -> FromArchiveFault {
        FromArchiveFault::NotMade(fault)
    }
}

impl fmt::Display for FromArchiveFault {
    ghost output = { λ fault. Some (archive_text fault) };

    fn fmt<W: fmt::Write>(&self, f: &mut fmt::Formatter<W>) -> fmt::Result {
        match self {
            FromArchiveFault::Refused(refusal) => write!(f, "{refusal}"),
            FromArchiveFault::NotMade(fault) => write!(f, "{fault}"),
        }
    }
}

impl Error for FromArchiveFault {}

/// Returns the view of the value whose own bytes are the last of `bytes`, if these are an archive of an `A`.
///
/// # Errors
///
/// `Refusal::TooLong` if positions of 32 bits don't reach all bytes. Otherwise the error of `A::check` at the position that is the
/// length less the size of an `A`, or 0 if there are fewer bytes.
///
/// # Examples
///
/// ```rust
/// let map = open::<Prices>(bytes)?;
/// Ok(price(map, name))
/// ```
pub fn open<'a, A: CheckBytes>(bytes: &'a [u8]) -> Result<View<'a, A>, Refusal>
    requires { IsTrue A.kind.is_fitting }
    ensures buffer { IfOk result (λ view. view.buf.now ≡ bytes.now) }
    ensures position { IfOk result (λ view. view.pos ≡ own_at A.kind bytes.now) }
    // The result is a view exactly for an archive of a value, and the view reads that value.
    ensures accepts { IsOk result ↔ ((v : A.kind.Value) × IsArchiveOf A.kind bytes.now v) }
    ensures value { IfOk result (λ view. IsArchiveOf A.kind bytes.now (view_value view)) }
    // The result is an error exactly for bytes with that error.
    ensures refuses { (e : Refusal) →
        (result ≡ Err e) ↔ IsUnopened A.kind A.Refuses bytes.now e }
{
    let Ok(len) = u32::try_from(bytes.len()) else {
        return Err(Refusal::TooLong);
    };
    View::<A>::check(bytes, len.saturating_sub(A::size()))
}

/// Validates a whole archive as `open` does, and returns its map or set for in-place updates.
///
/// # Errors
///
/// As of `open`. All bytes are unchanged.
///
/// # Examples
///
/// ```rust
/// let mut map = open_mut::<Prices>(bytes.as_mut_slice())?;
/// println!(rt; "changed: {}", map.set_by("pear", 6))?;
/// ```
pub fn open_mut<'a, M: CheckBytes>(bytes: &'a mut [u8]) -> Result<MapSeal<'a, M>, Refusal>
    requires { IsTrue M.kind.is_fitting }
    ensures same_reference { IfOk result (λ map. map.buf.ghost_name ≡ bytes.entry.ghost_name) }
    ensures buffer { IfOk result (λ map. map.buf.now ≡ bytes.entry.now) }
    ensures position { IfOk result (λ map. map.pos ≡ own_at M.kind bytes.entry.now) }
    // The result is a seal exactly for an archive of a value, and the seal reads that value.
    ensures accepts { IsOk result ↔ ((v : M.kind.Value) × IsArchiveOf M.kind bytes.entry.now v) }
    ensures value { IfOk result (λ map.
        IsArchiveOf M.kind bytes.entry.now (M.kind.read map.buf.now map.pos)) }
    // The result is an error exactly for bytes with that error.
    ensures refuses { (e : Refusal) →
        (result ≡ Err e) ↔ IsUnopened M.kind M.Refuses bytes.entry.now e }
{
    match open::<M>(bytes) {
        Ok(map) => {
            let pos = map.pos;
            Ok(MapSeal::at(bytes, pos))
        }
        Err(refusal) => Err(refusal),
    }
}

/// Returns the native value that an archive holds, in memory of `alloc`.
///
/// # Errors
///
/// `Refused` with the error of `open`, and `NotMade` with the error of deserializing what the archive holds.
///
/// # Examples
///
/// ```rust
/// let changed: BTreeMap<String, u32> = from_archive(alloc, bytes.as_slice())?;
/// println!(rt; "{changed:?}")?;
/// ```
pub fn from_archive<T: Archive + PartialEq>(
    alloc: Global,
    bytes: &[u8],
) -> Result<T, FromArchiveFault>
where
    T::Archived: CheckBytes + Deserialize<T>,
    requires { IsTrue T.Archived.kind.is_fitting }
    ensures archive { IfOk result (λ _. (v : T.Archived.kind.Value)
        × IsArchiveOf T.Archived.kind bytes.now v) }
    ensures made { IfOk result (λ value.
        T.Archived.decoded bytes.now (own_at T.Archived.kind bytes.now)
        ≡ Ok (T.Archived.model value)) }
    ensures err { IfErr result
        (IsUnmade T.Archived.kind T.Archived.Refuses T.Archived.decoded bytes.now) }
{
    let view = open::<T::Archived>(bytes)?;
    Ok(T::Archived::deserialize(alloc, &view)?)
}
