//! Values of a fixed size that are written over in the bytes of a file.
ghost use Rattle.std.specs.Prelude.{◌≡◌, true, false, IfErr, IfNone, IfOk, IfSome, IsTrue};
ghost use Rattle.rkyv_btree_format.specs.Layout.{are_fitting};
ghost use Rattle.rkyv_btree_typed.specs.TypeNames.{name_of};
ghost use Rattle.rkyv_btree_typed.specs.TypeNames as term;
ghost use Rattle.rkyv_btree_portable.specs.Views.{stands};
ghost use Rattle.rkyv_btree_seal.specs.Places.{IsEntry, PutsEntry};
ghost use Rattle.rkyv_btree_seal.specs.Put.{value_place};
ghost use Rattle.rkyv_btree_verify.specs.Map.{map_kind};
ghost use Rattle.rkyv_btree_view.specs.Lookup.{ByNative};
ghost use Rattle.rkyv_btree_walk.specs.EntryPlaces.{place_of};
ghost use Rattle.btreearc_lines.specs.Headings.{IsHeaded};
ghost use Rattle.btreekv_types.specs.Overwriting.{EndsWith, FailsToOverwrite, HasNone, IsReheaded, PutsOver};
ghost use Rattle.btreekv_types.specs.Typed.{ByValues, IsTypedOpenFault, RefusesTyped, items_by};

use crate::natives::native_of;
use crate::reading::open;
use btreearc_lines::fault::ProgramFault;
use btreearc_lines::heading::{Heading, heading_of};
use btreekv_items::item::{BytesStyle, Item};
use rkyv_btree_archive::archive::Archive;
use rkyv_btree_portable::in_place::InPlace;
use rkyv_btree_portable::numbers::{ArchivedU16, ArchivedU32, ArchivedU64};
use rkyv_btree_portable::signed::{ArchivedI32, ArchivedI64};
use rkyv_btree_seal::edit_laws::writes_put_values;
use rkyv_btree_seal::map_seal::MapSeal;
use rkyv_btree_typed::type_name::TypeName;
use rkyv_btree_types::map::ArchivedBTreeMap;
use rkyv_btree_view::view::View;
use rkyv_btree_walk::entry_place::EntryPlace;
use std::alloc::Global;

/// Where a value is in a file.
#[derive(Clone, Copy, Debug, PartialEq, Eq)]
pub struct Place {
    /// The position of its first byte.
    pub start: u32,
    /// The number of its bytes.
    pub len: u32,
}

/// Why a value isn't written over.
#[derive(Debug, Drop)]
pub enum OverwriteFault {
    /// Why any command fails.
    Program(ProgramFault),
    /// The word is no text of the type of keys.
    NoKey,
    /// The word is no text of the type of values.
    NoValue,
    /// The file would have another header: the value is in it.
    InHeader,
    /// Values of the type aren't written over.
    NotOverwritten,
}

/// An item whose values have a fixed size, and are written over in place.
pub(crate) trait Overwrite: Item + InPlace {
    /// Returns the native value whose own bytes mean this one.
    fn own(native: &<Self as Item>::Native) -> <Self as InPlace>::Native
        ensures { Self.value_at (Self.in_place.own_bytes result) 0 ≡ Self.native_value native.now };
}

impl Overwrite for u8 {
    fn own(native: &u8) -> u8 {
        *native
    }
}

impl Overwrite for ArchivedU16 {
    fn own(native: &u16) -> u16 {
        *native
    }
}

impl Overwrite for ArchivedU32 {
    fn own(native: &u32) -> u32 {
        *native
    }
}

impl Overwrite for ArchivedU64 {
    fn own(native: &u64) -> u64 {
        *native
    }
}

impl Overwrite for ArchivedI32 {
    fn own(native: &i32) -> i32 {
        *native
    }
}

impl Overwrite for ArchivedI64 {
    fn own(native: &i64) -> i64 {
        *native
    }
}

/// Returns whether bytes begin with this heading.
fn keeps_heading<M: TypeName>(heading: Heading, bytes: &[u8]) -> bool
    ensures yes { result ≡ true → IsHeaded (name_of M.term) bytes.now heading }
    ensures no { result ≡ false → IsReheaded (name_of M.term) heading bytes.now }
{
    match heading_of::<M>(bytes) {
        Err(_) => false,
        Ok(Heading::Typed) => match heading {
            Heading::Typed => true,
            Heading::Untyped => false,
        },
        Ok(Heading::Untyped) => match heading {
            Heading::Typed => false,
            Heading::Untyped => true,
        },
    }
}

/// Writes a value over that of an entry in an archive, and returns where it is.
fn put_at<K: Item, V: Overwrite>(
    value: <V as InPlace>::Native,
    pos: u32,
    place: EntryPlace,
    archive: &mut [u8],
) -> Place
    requires stands { IsTrue (stands (map_kind K.kind V.kind 5) archive.old pos) }
    requires entry { IsEntry K.kind V.kind 5 archive.old pos (place_of place) }
    ensures start { result.start ≡ value_place K.kind V.kind 5 (place_of place) }
    ensures size { result.len ≡ V.kind.size }
    ensures puts { PutsEntry K.kind V.kind 5 archive.old pos (place_of place)
        (V.in_place.own_bytes value) archive.new }
{
    let mut seal = MapSeal::<ArchivedBTreeMap<K, V, 5>>::seal_at(archive, pos, place);
    let start = seal.pos;
    seal.write(value);
    Place {
        start,
        len: V::size(),
    }
}

/// Writes a value over that of a key in an archive, and returns where it is, or `None` if a look-up of the key finds none. All other bytes
/// are unchanged.
///
/// # Errors
///
/// As of `open`.
fn write_over<K: Item, V: Overwrite>(
    key: &K::Native,
    value: <V as InPlace>::Native,
    archive: &mut [u8],
) -> Result<Option<Place>, ProgramFault>
    requires { IsTrue (are_fitting K.kind V.kind 5) }
    ensures some { IfOk result (λ found. IfSome found (λ place.
        ByNative K.kind (λ native b at. K.order (K.native_value native) (K.value_at b at)) key.now (λ comparison.
        PutsOver K.kind V.kind archive.old comparison (V.in_place.own_bytes value) place.start archive.new))) }
    ensures size { IfOk result (λ found. IfSome found (λ place. place.len ≡ V.kind.size)) }
    ensures none { IfOk result (λ found. IfNone found
        (ByNative K.kind (λ native b at. K.order (K.native_value native) (K.value_at b at)) key.now
        (HasNone K.kind V.kind archive.old))) }
    ensures absent { IfOk result (λ found. IfNone found (archive.new ≡ archive.old)) }
    ensures refused { IfErr result (λ _. archive.new ≡ archive.old) }
    ensures err { IfErr result (IsTypedOpenFault K.kind V.kind (name_of (term.map K.term V.term 5))
        (RefusesTyped K.kind V.kind (name_of (term.map K.term V.term 5))) archive.old) }
{
    writes_put_values::<K, V, 5>();
    let pos = match open::<K, V>(archive) {
        Ok(map) => map.pos,
        Err(fault) => return Err(fault),
    };
    let compare = |key: &K::Native, view: View<K>| K::compare_native(key, &view);
    let found = MapSeal::<ArchivedBTreeMap<K, V, 5>>::at(archive, pos).find_with(key, compare);
    let Some(place) = found else {
        return Ok(None);
    };
    Ok(Some(put_at::<K, V>(value, pos, place, archive)))
}

/// Writes the value of a text over that of a key in the bytes of a file, and returns where it is, or `None` if a look-up of the key finds none.
/// All other bytes are unchanged.
///
/// # Errors
///
/// `NoKey` and `NoValue` if a word is no text of its type, `Misheaded` if another header than that of the map's type comes first, `Refused` with the
/// first error of bytes that are no archive, `InHeader` if the write changes the header, and `Memory` if an allocation fails.
pub(crate) fn overwrite_value<K: Item, V: Overwrite>(
    alloc: Global,
    style: BytesStyle,
    key: &str,
    value: &str,
    file: &mut [u8],
) -> Result<Option<Place>, OverwriteFault>
    requires { IsTrue (are_fitting K.kind V.kind 5) }
    ensures ok { IfOk result (λ found.
        ByValues K.Native.archival K.kind K.order K.value_at K.native_value
        ⟦<<V as Item>::Native as Archive>⟧.archival V.kind V.order V.value_at V.native_value (λ key_to value_to.
        EndsWith K.kind V.kind (name_of (term.map K.term V.term 5))
        (items_by K.IsValue (K.spelling style) key_to) (items_by V.IsValue (V.spelling style) value_to)
        file.old key.now value.now found file.new)) }
    ensures err { IfErr result (λ fault.
        ByValues K.Native.archival K.kind K.order K.value_at K.native_value
        ⟦<<V as Item>::Native as Archive>⟧.archival V.kind V.order V.value_at V.native_value (λ key_to value_to.
        FailsToOverwrite K.kind V.kind (name_of (term.map K.term V.term 5))
        (items_by K.IsValue (K.spelling style) key_to) (items_by V.IsValue (V.spelling style) value_to)
        file.old key.now value.now (Unit {0}) file.new fault)) }
{
    let heading = match heading_of::<ArchivedBTreeMap<K, V, 5>>(file) {
        Ok(heading) => heading,
        Err(fault) => return Err(OverwriteFault::Program(ProgramFault::Misheaded(fault))),
    };
    let key = match native_of::<K>(alloc, style, key) {
        Ok(Some(key)) => key,
        Ok(None) => return Err(OverwriteFault::NoKey),
        Err(_) => return Err(OverwriteFault::Program(ProgramFault::Memory)),
    };
    let value = match native_of::<V>(alloc, style, value) {
        Ok(Some(value)) => value,
        Ok(None) => return Err(OverwriteFault::NoValue),
        Err(_) => return Err(OverwriteFault::Program(ProgramFault::Memory)),
    };
    let place = match write_over::<K, V>(&key, V::own(&value), file) {
        Ok(Some(place)) => place,
        Ok(None) => return Ok(None),
        Err(fault) => return Err(OverwriteFault::Program(fault)),
    };
    if keeps_heading::<ArchivedBTreeMap<K, V, 5>>(heading, file) {
        Ok(Some(place))
    } else {
        Err(OverwriteFault::InHeader)
    }
}
