//! Look-ups in typed archives that aren't read whole.
ghost use Rattle.std.specs.Option.{option_map};
ghost use Rattle.std.specs.Prelude.{◌≡◌, ◌+◌, ◌≤◌, ℕ, List, IfErr, IfOk, IsTrue, OnOk, length, string_bytes};
ghost use Rattle.rkyv_btree_format.specs.Layout.{are_fitting};
ghost use Rattle.rkyv_btree_format.specs.OwnBytes.{own_at};
ghost use Rattle.rkyv_btree_source.specs.Known.{AreOf};
ghost use Rattle.rkyv_btree_typed.specs.TypeNames.{name_of};
ghost use Rattle.rkyv_btree_typed.specs.TypeNames as term;
ghost use Rattle.rkyv_btree_verify.specs.Map.{map_kind};
ghost use Rattle.btreearc_lines.specs.Headings.{IsHeaded, IsMisheaded};
ghost use Rattle.btreekv_commands.specs.Sourced.{IsReadFailure, IsValueLine, lookup_fault};
ghost use Rattle.btreekv_commands.specs.Forms.{value_line};
ghost use Rattle.btreekv_items.specs.ItemTypes.{term_at};
ghost use Rattle.btreekv_types.specs.AnyTypes.{item_of, kind_at};
ghost use Rattle.btreekv_types.specs.Sourced.{FailsToFind, FindsText, HasFitName, IfProgram, IsLengthened, IsUnopened};
ghost use Rattle.btreekv_types.specs.SourcedTypes.{AppendsFoundAt, FailsToFindAt, FailsToFindTo, FindsTextAt, FindsTextTo, IsSameArchive, IsSourceOf, WritesFoundAt};
ghost use Rattle.btreekv_types.specs.Typed.{ByValues, items_by};
ghost use Rattle.btreekv_types.specs.Types.{map_name, types_of};
ghost use Rattle.btreekv_types.specs.declared.any_type.AnyType.TheVariants.{Plain};

use crate::at_plain;
use crate::fault::TypedFault;
use crate::natives::native_of;
use crate::plain_type::PlainType;
use crate::reading::text_of;
use crate::sought::{KeyOf, Sought};
use crate::types::PlainTypes;
use btreearc_lines::fault::ProgramFault;
use btreearc_lines::heading::{Heading, HeadingFault, heading_of};
use btreekv_commands::forms::{Form, push_value};
use btreekv_commands::sourced::BUDGET;
use btreekv_items::item::{BytesStyle, Item};
use rkyv_btree_portable::byte_string::ArchivedBytes;
use rkyv_btree_portable::numbers::{ArchivedU16, ArchivedU32, ArchivedU64};
use rkyv_btree_portable::refusal::Refusal;
use rkyv_btree_portable::signed::{ArchivedI32, ArchivedI64};
use rkyv_btree_portable::text::ArchivedText;
use rkyv_btree_source::fault::SourceFault;
use rkyv_btree_source::fetch::Fetch;
use rkyv_btree_source::reader::Reader;
use rkyv_btree_source::source::ReadAt;
use rkyv_btree_source::unverified_source::UnverifiedSource;
use rkyv_btree_types::map::ArchivedBTreeMap;
use rkyv_btree_unverified::laws::maps_are_searched;
use std::alloc::Global;

/// The archive of a map of two types without parts that is all of a source.
#[derive(Drop)]
pub struct TypedSource<S> {
    pub types: PlainTypes,
    /// The source, and how many more bytes of it may be read.
    pub reader: Reader<S>,
    /// Where the map's own bytes are.
    pub pos: u32,
}

/// The most bytes that a look-up is lent.
pub(crate) const MOST_ROOM: usize = 4294967295;

/// Returns what bytes begin with, if it isn't another header than that of a map of two archived types.
fn heading_to<K: Item, V: Item>(bytes: &[u8]) -> Result<Heading, HeadingFault>
    ensures ok { IfOk result (IsHeaded (name_of (term.map K.term V.term 5)) bytes.now) }
    ensures err { IfErr result (IsMisheaded (name_of (term.map K.term V.term 5)) bytes.now) }
{
    heading_of::<ArchivedBTreeMap<K, V, 5>>(bytes)
}

/// Returns what bytes begin with, if it isn't another header than that of a map to values of a type.
fn heading_with<K: Item>(value_type: PlainType, bytes: &[u8]) -> Result<Heading, HeadingFault>
    ensures ok { IfOk result
        (IsHeaded (name_of (term.map K.term (term_at (item_of (Plain value_type))) 5)) bytes.now) }
    ensures err { IfErr result
        (IsMisheaded (name_of (term.map K.term (term_at (item_of (Plain value_type))) 5)) bytes.now) }
{
    at_plain!(value_type, heading_to::<K>(bytes))
}

/// Returns what bytes begin with, if it isn't another header than that of maps of two types.
fn heading_at(types: PlainTypes, bytes: &[u8]) -> Result<Heading, HeadingFault>
    ensures ok { IfOk result (IsHeaded (map_name (types_of types)) bytes.now) }
    ensures err { IfErr result (IsMisheaded (map_name (types_of types)) bytes.now) }
{
    let value = types.value;
    at_plain!(types.key, heading_with(value, bytes))
}

/// Tests that a source begins with the header of maps of two types, or with none. As many first bytes are read as `room` has.
///
/// # Errors
///
/// `Misheaded` with what the header has, and `InputFailed` if the source fails.
fn check_first<S: ReadAt>(
    types: PlainTypes,
    source: &mut S,
    room: &mut [u8],
) -> Result<(), ProgramFault>
    requires { length room.old ≡ 4096 }
    ensures ok { (b : List ℕ) → AreOf (S.known source.old) b →
        OnOk result (HasFitName (map_name (types_of types)) b) }
    ensures err { (b : List ℕ) → AreOf (S.known source.old) b →
        IfErr result (IsUnopened (map_name (types_of types)) b) }
    ensures same { S.known source.new ≡ S.known source.old }
{
    let size = match source.size() {
        Ok(size) => size,
        Err(_) => return Err(ProgramFault::InputFailed),
    };
    let len = size.min(room.len() as u64) as usize;
    let first = &mut room[..len];
    match source.read_at(0, first) {
        Ok(()) => {}
        Err(_) => return Err(ProgramFault::InputFailed),
    }
    match heading_at(types, first) {
        Ok(_) => Ok(()),
        Err(fault) => Err(ProgramFault::Misheaded(fault)),
    }
}

/// Returns the archive of a map of two types that is all of a source. Nothing is read but the number of bytes, and up to 4096 first
/// bytes: a header isn't known whose name ends after them.
///
/// # Errors
///
/// `Misheaded` if another header than that of the types comes first; `Refused` if positions of 32 bits don't reach all bytes;
/// `InputFailed` if the source fails.
pub fn open<S: ReadAt + Drop>(
    types: PlainTypes,
    mut source: S,
) -> Result<TypedSource<S>, ProgramFault>
    ensures headed { (b : List ℕ) → AreOf (S.known source) b →
        OnOk result (HasFitName (map_name (types_of types)) b) }
    ensures types { IfOk result (λ archive. archive.types ≡ types) }
    ensures source { (b : List ℕ) → AreOf (S.known source) b →
        IfOk result (λ archive. IsSourceOf S.known archive b) }
    ensures budget { IfOk result (λ archive. archive.reader.left ≡ 18446744073709551615) }
    ensures refused { (b : List ℕ) → AreOf (S.known source) b →
        IfErr result (IsUnopened (map_name (types_of types)) b) }
{
    match check_first(types, &mut source, &mut [0; 4096]) {
        Ok(()) => {}
        Err(fault) => return Err(fault),
    }
    let mut reader = Reader {
        source,
        left: BUDGET,
    };
    let size = match reader.size() {
        Ok(size) => size,
        Err(_) => return Err(ProgramFault::InputFailed),
    };
    let Ok(len) = u32::try_from(size) else {
        return Err(ProgramFault::Refused(Refusal::TooLong));
    };
    Ok(TypedSource {
        types,
        reader,
        pos: len.saturating_sub(8),
    })
}

/// Makes a buffer as long as a look-up needs it that has failed since the buffer was too short.
///
/// # Errors
///
/// The error of any other failed look-up. `Memory` if the allocation fails, or no look-up can be lent so many bytes.
pub(crate) fn lengthen<E: Drop>(
    room: &mut Vec<u8>,
    fault: SourceFault<E>,
) -> Result<(), ProgramFault>
    ensures ok { OnOk result (IsLengthened fault room.new.items) }
    ensures err { IfErr result (λ error. error ≡ lookup_fault fault) }
{
    let needed = match fault {
        SourceFault::Refused(refusal) => return Err(ProgramFault::Refused(refusal)),
        SourceFault::Read(_) => return Err(ProgramFault::InputFailed),
        SourceFault::OverBudget => return Err(ProgramFault::InputFailed),
        SourceFault::NoRoom { needed } => needed,
    };
    let Ok(needed) = u32::try_from(needed) else {
        return Err(ProgramFault::Memory);
    };
    match room.resize(needed as usize, 0) {
        Ok(()) => Ok(()),
        Err(_) => Err(ProgramFault::Memory),
    }
}

/// Returns the text of the value of a word, which is a key, in the archive that is all of a source. What is read goes into `room`,
/// which is lengthened if need be. The word is parsed again then.
///
/// # Errors
///
/// `NoKey` if the word is the text of no key. `Refused` with the first error in what the look-up reads; `InputFailed` if the source
/// fails, or the budget is too small; `Memory` if an allocation fails, or the look-up needs more than 4294967295 bytes.
#[inline(never)]
fn value_of<S: ReadAt, K: Item + Fetch, V: Item + Fetch>(
    alloc: Global,
    style: BytesStyle,
    map: &mut UnverifiedSource<S, ArchivedBTreeMap<KeyOf<K>, V, 5>>,
    room: &mut Vec<u8>,
    word: &str,
) -> Result<Option<String>, TypedFault>
    requires { IsTrue (are_fitting K.kind V.kind 5) }
    ensures ok { (b : List ℕ) → AreOf (S.known map.old.reader.source) b →
        map.old.pos ≡ own_at (map_kind K.kind V.kind 5) b → IfOk result (λ value.
        ByValues K.Native.archival K.kind K.order K.value_at K.native_value
        V.Native.archival V.kind V.order V.value_at V.native_value (λ key_to value_to.
        FindsText K.kind V.kind (name_of (term.map K.term V.term 5))
        (items_by K.IsValue (K.spelling style) key_to) (items_by V.IsValue (V.spelling style) value_to)
        K.Refuses V.Refuses b word.now (option_map string_bytes value))) }
    ensures err { (b : List ℕ) → AreOf (S.known map.old.reader.source) b →
        map.old.pos ≡ own_at (map_kind K.kind V.kind 5) b → IfErr result (λ fault.
        ByValues K.Native.archival K.kind K.order K.value_at K.native_value
        V.Native.archival V.kind V.order V.value_at V.native_value (λ key_to value_to.
        FailsToFind K.kind V.kind (name_of (term.map K.term V.term 5))
        (items_by K.IsValue (K.spelling style) key_to) (items_by V.IsValue (V.spelling style) value_to)
        K.Refuses V.Refuses b word.now fault)) }
    ensures failed { IfErr result (IfProgram
        (IsReadFailure (S.Fails (S.known map.old.reader.source)) (map.old.pos + 8)
        map.new.reader.left)) }
    ensures source { S.known map.new.reader.source ≡ S.known map.old.reader.source }
    ensures position { map.new.pos ≡ map.old.pos }
    ensures left { map.new.reader.left ≤ map.old.reader.left }
{
    maps_are_searched::<K, V, 5>();
    'longer: loop {
        let key = match native_of::<K>(alloc, style, word) {
            Ok(Some(key)) => key,
            Ok(None) => return Err(TypedFault::NoKey),
            Err(fault) => return Err(fault),
        };
        let lent = room.len().min(MOST_ROOM);
        let sought = Sought::<K> { native: key };
        let fault = match map.get_by(sought, &mut room.as_mut_slice()[..lent]) {
            Ok(None) => return Ok(None),
            Ok(Some(value)) => {
                return match text_of::<V>(alloc, style, &value) {
                    Ok(text) => Ok(Some(text)),
                    Err(fault) => Err(TypedFault::Program(fault)),
                };
            }
            Err(fault) => fault,
        };
        match lengthen(room, fault) {
            Ok(()) => {}
            Err(fault) => return Err(TypedFault::Program(fault)),
        }
    }
}

/// Returns the text of the value of a word, as `value_of`, and the archive.
fn find<S: ReadAt + Drop, K: Item + Fetch, V: Item + Fetch>(
    alloc: Global,
    style: BytesStyle,
    archive: TypedSource<S>,
    room: &mut Vec<u8>,
    word: &str,
) -> Result<(Option<String>, TypedSource<S>), TypedFault>
    requires { IsTrue (are_fitting K.kind V.kind 5) }
    ensures ok { (b : List ℕ) → AreOf (S.known archive.reader.source) b →
        archive.pos ≡ own_at (map_kind K.kind V.kind 5) b → IfOk result (λ r.
        ByValues K.Native.archival K.kind K.order K.value_at K.native_value
        V.Native.archival V.kind V.order V.value_at V.native_value (λ key_to value_to.
        FindsText K.kind V.kind (name_of (term.map K.term V.term 5))
        (items_by K.IsValue (K.spelling style) key_to) (items_by V.IsValue (V.spelling style) value_to)
        K.Refuses V.Refuses b word.now (option_map string_bytes r.0))) }
    ensures err { (b : List ℕ) → AreOf (S.known archive.reader.source) b →
        archive.pos ≡ own_at (map_kind K.kind V.kind 5) b → IfErr result (λ fault.
        ByValues K.Native.archival K.kind K.order K.value_at K.native_value
        V.Native.archival V.kind V.order V.value_at V.native_value (λ key_to value_to.
        FailsToFind K.kind V.kind (name_of (term.map K.term V.term 5))
        (items_by K.IsValue (K.spelling style) key_to) (items_by V.IsValue (V.spelling style) value_to)
        K.Refuses V.Refuses b word.now fault)) }
    ensures same { IfOk result (λ r. IsSameArchive S.known archive r.1) }
{
    let TypedSource { types, reader, pos } = archive;
    let Reader { source, left } = reader;
    let mut map = UnverifiedSource::<S, ArchivedBTreeMap<KeyOf<K>, V, 5>>::new(source, pos, left);
    match value_of::<S, K, V>(alloc, style, &mut map, room, word) {
        Ok(value) => {
            let reader = map.reader;
            Ok((value, TypedSource { types, reader, pos }))
        }
        Err(fault) => Err(fault),
    }
}

/// Returns the text of the value of a word in a map to values of a type, and the archive.
fn find_with<S: ReadAt + Drop, K: Item + Fetch>(
    value_type: PlainType,
    alloc: Global,
    style: BytesStyle,
    archive: TypedSource<S>,
    room: &mut Vec<u8>,
    word: &str,
) -> Result<(Option<String>, TypedSource<S>), TypedFault>
    requires { IsTrue (are_fitting K.kind (kind_at (Plain value_type)) 5) }
    ensures ok { (b : List ℕ) → AreOf (S.known archive.reader.source) b →
        archive.pos ≡ own_at (map_kind K.kind (kind_at (Plain value_type)) 5) b → IfOk result (λ r.
        FindsTextTo K.Native.archival K.kind K.order K.value_at K.native_value K.term K.IsValue
        (K.spelling style) K.Refuses value_type style b word.now (option_map string_bytes r.0)) }
    ensures err { (b : List ℕ) → AreOf (S.known archive.reader.source) b →
        archive.pos ≡ own_at (map_kind K.kind (kind_at (Plain value_type)) 5) b → IfErr result
        (FailsToFindTo K.Native.archival K.kind K.order K.value_at K.native_value K.term K.IsValue
        (K.spelling style) K.Refuses value_type style b word.now) }
    ensures same { IfOk result (λ r. IsSameArchive S.known archive r.1) }
{
    at_plain!(value_type, find::<S, K>(alloc, style, archive, room, word))
}

/// Returns the text of the value of a word in the archive that is all of a source, and the archive. What is read goes into `room`,
/// which is lengthened if need be.
///
/// # Errors
///
/// `NoKey` if the word is the text of no key. `Refused` with the first error in what the look-up reads; `InputFailed` if the source
/// fails, or the budget is too small; `Memory` if an allocation fails, or the look-up needs more than 4294967295 bytes.
pub fn text_of_value<S: ReadAt + Drop>(
    alloc: Global,
    style: BytesStyle,
    archive: TypedSource<S>,
    room: &mut Vec<u8>,
    word: &str,
) -> Result<(Option<String>, TypedSource<S>), TypedFault>
    ensures ok { (b : List ℕ) → IsSourceOf S.known archive b → IfOk result (λ r.
        FindsTextAt archive.types style b word.now (option_map string_bytes r.0)) }
    ensures err { (b : List ℕ) → IsSourceOf S.known archive b →
        IfErr result (FailsToFindAt archive.types style b word.now) }
    ensures same { IfOk result (λ r. IsSameArchive S.known archive r.1) }
{
    let value = archive.types.value;
    at_plain!(
        archive.types.key,
        find_with::<S>(value, alloc, style, archive, room, word)
    )
}

/// Returns a value as it is written, and the exit status 0, or nothing and the status 1 if there is none.
///
/// # Errors
///
/// `Memory` if an allocation fails.
fn value_line(alloc: Global, value: Option<String>, form: Form) -> Result<(Vec<u8>, u8), TypedFault>
    ensures ok { IfOk result (λ r.
        IsValueLine (value_line form) (option_map string_bytes value) r.0.items r.1) }
    ensures err { IfErr result (λ fault. fault ≡ TypedFault.Program ProgramFault.Memory) }
{
    let mut line = Vec::new(alloc);
    let Some(value) = value else {
        return Ok((line, 1));
    };
    match push_value(&mut line, form, value.as_str()) {
        Ok(()) => Ok((line, 0)),
        Err(_) => Err(TypedFault::Program(ProgramFault::Memory)),
    }
}

/// Returns a word's value, as `get` writes it, the exit status, and the archive. Nothing is written if no value is found: the status is
/// 1 then, and else 0. The archive is all of a source, which isn't read whole. What is read goes into `room`, which is lengthened if
/// need be.
///
/// # Errors
///
/// As of `text_of_value`.
pub fn line_of<S: ReadAt + Drop>(
    alloc: Global,
    style: BytesStyle,
    archive: TypedSource<S>,
    room: &mut Vec<u8>,
    word: &String,
    form: Form,
) -> Result<(Vec<u8>, u8, TypedSource<S>), TypedFault>
    ensures ok { (b : List ℕ) → IsSourceOf S.known archive b → IfOk result (λ r.
        WritesFoundAt archive.types style b word.now form r.0.items r.1) }
    ensures same { IfOk result (λ r. IsSameArchive S.known archive r.2) }
    ensures err { (b : List ℕ) → IsSourceOf S.known archive b →
        IfErr result (FailsToFindAt archive.types style b (string_bytes word.now)) }
{
    let (value, archive) = match text_of_value(alloc, style, archive, room, word.as_str()) {
        Ok(found) => found,
        Err(fault) => return Err(fault),
    };
    match value_line(alloc, value, form) {
        Ok((line, status)) => Ok((line, status, archive)),
        Err(fault) => Err(fault),
    }
}

/// Writes the line of a word and its value at the end, if a value is found. Returns whether it is, and the archive. The archive is all
/// of a source, which isn't read whole. What is read goes into `room`, which is lengthened if need be.
///
/// # Errors
///
/// As of `text_of_value`. A beginning of the line may be written then.
pub fn push_found<S: ReadAt + Drop>(
    alloc: Global,
    style: BytesStyle,
    archive: TypedSource<S>,
    room: &mut Vec<u8>,
    word: &str,
    lines: &mut String,
) -> Result<(bool, TypedSource<S>), TypedFault>
    ensures ok { (b : List ℕ) → IsSourceOf S.known archive b → IfOk result (λ r.
        AppendsFoundAt archive.types style b word.now (string_bytes lines.old) (string_bytes lines.new) r.0) }
    ensures err { (b : List ℕ) → IsSourceOf S.known archive b →
        IfErr result (FailsToFindAt archive.types style b word.now) }
    ensures same { IfOk result (λ r. IsSameArchive S.known archive r.1) }
{
    let (value, archive) = match text_of_value(alloc, style, archive, room, word) {
        Ok(found) => found,
        Err(fault) => return Err(fault),
    };
    let Some(value) = value else {
        return Ok((false, archive));
    };
    if writeln!(lines, "{word}\t{value}").is_err() {
        return Err(TypedFault::Program(ProgramFault::Memory));
    }
    Ok((true, archive))
}
