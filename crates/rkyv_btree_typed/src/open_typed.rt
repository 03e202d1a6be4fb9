//! Typed files: opened for reading, for edits in place, and for lookups without validation.
ghost use Rattle.std.specs.Prelude.{◌≡◌, ◌≤◌, ◌<◌, IfOk, IsTrue, length};
ghost use Rattle.rkyv_btree_convert.specs.Whole.{IsUnopened};
ghost use Rattle.rkyv_btree_format.specs.Layout.{are_fitting};
ghost use Rattle.rkyv_btree_format.specs.OwnBytes.{IsArchiveOf, own_at};
ghost use Rattle.rkyv_btree_format.specs.Read.{read_map};
ghost use Rattle.rkyv_btree_portable.specs.declared.refusal.Refusal.TheVariants.{TooLong};
ghost use Rattle.rkyv_btree_strict.specs.Strict.{RefusesStrict};
ghost use Rattle.rkyv_btree_strict.specs.StrictOpening.{IsStrictArchive};
ghost use Rattle.rkyv_btree_typed.specs.TypedOpening.{IsTypedOpening};
ghost use Rattle.rkyv_btree_typed.specs.TypeNames.{name_of};
ghost use Rattle.rkyv_btree_verify.specs.Map.{map_kind};
ghost use Rattle.rkyv_btree_view.specs.View.{entries_of, view_value};

use crate::type_check::{TypedRefusal, check_type};
use crate::type_name::TypeName;
use rkyv_btree_convert::from_archive::{open, open_mut};
use rkyv_btree_portable::check::CheckBytes;
use rkyv_btree_portable::refusal::Refusal;
use rkyv_btree_seal::map_seal::MapSeal;
use rkyv_btree_strict::strict::{CheckStrict, open_strict, open_strict_mut};
use rkyv_btree_strict::strict_map::Strict;
use rkyv_btree_unverified::unverified::Unverified;
use rkyv_btree_view::view::View;
use rkyv_btree_walk::archived_map::ArchivedMap;

/// The number of own bytes of a map or a set.
const ROOT_SIZE: u32 = 8;

/// Tests that bytes begin with the header of type `M`, and then opens them as `open` does. Positions count from the first byte of the
/// header.
///
/// # Errors
///
/// `Header` and `OtherType` as of `check_type`, and then `Refused` with the error of `open`.
///
/// # Examples
///
/// ```rust
/// let map = open_typed::<Prices>(&bytes)?;
/// println!(rt; "a pear costs {:?}", map.get_native_by("pear"))?;
/// ```
pub fn open_typed<'a, M: CheckBytes + TypeName>(
    bytes: &'a [u8],
) -> Result<View<'a, M>, TypedRefusal<M>>
    requires { IsTrue M.kind.is_fitting }
    ensures buffer { IfOk result (λ view. view.buf.now ≡ bytes.now) }
    ensures position { IfOk result (λ view. view.pos ≡ own_at M.kind bytes.now) }
    // The result is a view exactly for bytes with the header of `M` that `open` accepts, and the view reads the archive's value.
    ensures exact { IsTypedOpening (name_of M.term) bytes.now
        ((v : M.kind.Value) × IsArchiveOf M.kind bytes.now v)
        (IsUnopened M.kind M.Refuses bytes.now) result }
    ensures value { IfOk result (λ view. IsArchiveOf M.kind bytes.now (view_value view)) }
{
    check_type::<M>(bytes)?;
    match open::<M>(bytes) {
        Ok(view) => Ok(view),
        Err(refusal) => Err(TypedRefusal::Refused(refusal)),
    }
}

/// Tests that bytes begin with the header of type `M`, and then opens them for in-place updates as `open_mut` does.
///
/// # Errors
///
/// As of `open_typed`. All bytes are unchanged.
///
/// # Examples
///
/// ```rust
/// let mut map = open_typed_mut::<Prices>(&mut bytes)?;
/// println!(rt; "changed: {}", map.set_by("pear", 6))?;
/// ```
pub fn open_typed_mut<'a, M: CheckBytes + TypeName>(
    bytes: &'a mut [u8],
) -> Result<MapSeal<'a, M>, TypedRefusal<M>>
    requires { IsTrue M.kind.is_fitting }
    ensures same_reference { IfOk result (λ map. map.buf.ghost_name ≡ bytes.entry.ghost_name) }
    ensures buffer { IfOk result (λ map. map.buf.now ≡ bytes.entry.now) }
    ensures position { IfOk result (λ map. map.pos ≡ own_at M.kind bytes.entry.now) }
    // The result is a seal exactly for bytes with the header of `M` that `open_mut` accepts, and the seal reads the archive's value.
    ensures exact { IsTypedOpening (name_of M.term) bytes.entry.now
        ((v : M.kind.Value) × IsArchiveOf M.kind bytes.entry.now v)
        (IsUnopened M.kind M.Refuses bytes.entry.now) result }
    ensures value { IfOk result (λ map.
        IsArchiveOf M.kind bytes.entry.now (M.kind.read map.buf.now map.pos)) }
{
    match open_typed::<M>(bytes) {
        Ok(view) => {
            let pos = view.pos;
            Ok(MapSeal::at(bytes, pos))
        }
        Err(refusal) => Err(refusal),
    }
}

/// Tests that bytes begin with the header of type `M`, and then opens them as `open_strict` does: the keys must increase.
///
/// # Errors
///
/// `Header` and `OtherType` as of `check_type`, and then `Refused` with the error of `open_strict`.
///
/// # Examples
///
/// ```rust
/// let changed = open_typed_strict::<Prices>(&bytes)?;
/// println!(rt; "a pear costs {:?}", changed.get_native_by("pear"))?;
/// ```
pub fn open_typed_strict<'a, M: CheckStrict + TypeName>(
    bytes: &'a [u8],
) -> Result<Strict<'a, M>, TypedRefusal<M>>
    requires { IsTrue (are_fitting M.Key.kind M.Mapped.kind M.E) }
    ensures buffer { IfOk result (λ map. map.view.buf.now ≡ bytes.now) }
    ensures position { IfOk result (λ map.
        map.view.pos ≡ own_at (map_kind M.Key.kind M.Mapped.kind M.E) bytes.now) }
    // The result is a view exactly for bytes with the header of `M` that `open_strict` accepts, and the view reads the archive's list.
    ensures exact { IsTypedOpening (name_of M.term) bytes.now
        ((m : _) × IsStrictArchive M.Key.kind M.Mapped.kind M.E bytes.now m)
        (IsUnopened (map_kind M.Key.kind M.Mapped.kind M.E)
        (RefusesStrict M.Key.kind M.Mapped.kind M.E) bytes.now) result }
    ensures entries { IfOk result (λ map. IsStrictArchive M.Key.kind M.Mapped.kind M.E bytes.now
        (entries_of M.Key.kind M.Mapped.kind M.E map.view)) }
{
    check_type::<M>(bytes)?;
    match open_strict::<M>(bytes) {
        Ok(map) => Ok(map),
        Err(refusal) => Err(TypedRefusal::Refused(refusal)),
    }
}

/// Tests that bytes begin with the header of type `M`, and then opens them for in-place updates as `open_strict_mut` does.
///
/// # Errors
///
/// As of `open_typed_strict`. All bytes are unchanged.
pub fn open_typed_strict_mut<'a, M: CheckStrict + TypeName>(
    bytes: &'a mut [u8],
) -> Result<MapSeal<'a, M>, TypedRefusal<M>>
    requires { IsTrue (are_fitting M.Key.kind M.Mapped.kind M.E) }
    ensures same_reference { IfOk result (λ map. map.buf.ghost_name ≡ bytes.entry.ghost_name) }
    ensures buffer { IfOk result (λ map. map.buf.now ≡ bytes.entry.now) }
    ensures position { IfOk result (λ map.
        map.pos ≡ own_at (map_kind M.Key.kind M.Mapped.kind M.E) bytes.entry.now) }
    // The result is a seal exactly for bytes with the header of `M` that `open_strict_mut` accepts, and the seal reads the archive's list.
    ensures exact { IsTypedOpening (name_of M.term) bytes.entry.now
        ((m : _) × IsStrictArchive M.Key.kind M.Mapped.kind M.E bytes.entry.now m)
        (IsUnopened (map_kind M.Key.kind M.Mapped.kind M.E)
        (RefusesStrict M.Key.kind M.Mapped.kind M.E) bytes.entry.now) result }
    ensures entries { IfOk result (λ map.
        IsStrictArchive M.Key.kind M.Mapped.kind M.E bytes.entry.now
        (read_map M.Key.kind M.Mapped.kind M.E map.buf.now map.pos)) }
{
    match open_typed_strict::<M>(bytes) {
        Ok(map) => {
            let pos = map.view.pos;
            Ok(MapSeal::at(bytes, pos))
        }
        Err(refusal) => Err(refusal),
    }
}

/// Tests that bytes begin with the header of type `M`, and returns the position of its own bytes for lookups without validation, as
/// `Unverified::open` does. Nothing after the header is looked at.
///
/// # Errors
///
/// `Header` and `OtherType` as of `check_type`, and `Refused` with `Refusal::TooLong` if positions of 32 bits don't reach all bytes.
pub fn open_typed_unverified<'a, M: ArchivedMap + TypeName>(
    bytes: &'a [u8],
) -> Result<Unverified<'a, M>, TypedRefusal<M>>
where
    M::Key: CheckBytes,
    M::Mapped: CheckBytes,
    requires { IsTrue (are_fitting M.Key.kind M.Mapped.kind M.E) }
    ensures buffer { IfOk result (λ map. map.buf.now ≡ bytes.now) }
    ensures position { IfOk result (λ map.
        map.pos ≡ own_at (map_kind M.Key.kind M.Mapped.kind M.E) bytes.now) }
    // The result is a position exactly for bytes with the header of `M` that positions of 32 bits reach.
    ensures exact { IsTypedOpening (name_of M.term) bytes.now
        (length bytes.now ≤ 4294967295)
        (λ refusal. (refusal ≡ TooLong) × (4294967295 < length bytes.now)) result }
{
    check_type::<M>(bytes)?;
    match u32::try_from(bytes.len()) {
        Ok(len) => Ok(Unverified::new(bytes, len.saturating_sub(ROOT_SIZE))),
        Err(_) => Err(TypedRefusal::Refused(Refusal::TooLong)),
    }
}
