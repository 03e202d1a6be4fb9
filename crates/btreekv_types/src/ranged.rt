//! The ends of typed archives that aren't read whole, and entries between two keys.
ghost use Rattle.std.specs.Prelude.{◌≡◌, ◌+◌, ◌<◌, ◌++◌, ℕ, List, IfErr, IfOk, IsTrue, OnOk};
ghost use Rattle.rkyv_btree_format.specs.Layout.{are_fitting};
ghost use Rattle.rkyv_btree_format.specs.OwnBytes.{own_at};
ghost use Rattle.rkyv_btree_source.specs.Known.{AreOf};
ghost use Rattle.rkyv_btree_source.specs.LastEntry.{LastFails};
ghost use Rattle.rkyv_btree_source.specs.SourceRange.{source_left, source_of, turns_left};
ghost use Rattle.rkyv_btree_typed.specs.TypeNames.{name_of};
ghost use Rattle.rkyv_btree_typed.specs.TypeNames as term;
ghost use Rattle.rkyv_btree_unverified.specs.Walks.{Fails};
ghost use Rattle.rkyv_btree_verify.specs.Map.{map_kind};
ghost use Rattle.btreekv_commands.specs.Forms.{entry_line, text_in};
ghost use Rattle.btreekv_commands.specs.Sourced.{IsLookupFault, IsReadFailure};
ghost use Rattle.btreekv_types.specs.AnyTypes.{kind_at};
ghost use Rattle.btreekv_types.specs.Ranged.{FailsToWrite, PushesNext, WritesPart};
ghost use Rattle.btreekv_types.specs.SourcedTypes.{FailsToWriteAt, FailsToWriteTo, IsSourceOf, WritesPartAt, WritesPartTo};
ghost use Rattle.btreekv_types.specs.Typed.{ByValues, items_by, spelled, texts_shown};
ghost use Rattle.btreekv_types.specs.declared.any_type.AnyType.TheVariants.{Plain};
ghost use Rattle.btreekv_types.specs.declared.ranged.Part.TheVariants.{Between, First, Last};

use crate::at_plain;
use crate::fault::TypedFault;
use crate::natives::native_of;
use crate::plain_type::PlainType;
use crate::reading::text_of;
use crate::sought::{KeyOf, Sought, item_of};
use crate::sourced::{MOST_ROOM, TypedSource, lengthen};
use btreearc_lines::fault::ProgramFault;
use btreekv_commands::forms::{Form, push_entry};
use btreekv_items::item::{BytesStyle, Item};
use rkyv_btree_portable::byte_string::ArchivedBytes;
use rkyv_btree_portable::numbers::{ArchivedU16, ArchivedU32, ArchivedU64};
use rkyv_btree_portable::signed::{ArchivedI32, ArchivedI64};
use rkyv_btree_portable::text::ArchivedText;
use rkyv_btree_source::fetch::Fetch;
use rkyv_btree_source::range::SourceRange;
use rkyv_btree_source::reader::Reader;
use rkyv_btree_source::source::ReadAt;
use rkyv_btree_source::unverified_source::UnverifiedSource;
use rkyv_btree_types::map::ArchivedBTreeMap;
use rkyv_btree_view::view::View;
use std::alloc::Global;
use std::ops::Bound;

/// Which entries of a map are sought.
#[derive(Debug, Drop)]
pub enum Part {
    /// The first entry.
    First,
    /// The last entry.
    Last,
    /// The entries of the keys from the first to the second, both included.
    Between(String, String),
}

/// The archive of a map that is all of a source.
type Map<S, K, V> = UnverifiedSource<S, ArchivedBTreeMap<KeyOf<K>, V, 5>>;

/// The entries of a range of keys in such an archive.
type Entries<S, K, V> = SourceRange<
    S,
    ArchivedBTreeMap<KeyOf<K>, V, 5>,
    Sought<K>,
    (Bound<Sought<K>>, Bound<Sought<K>>),
>;

/// Writes an entry at the end.
///
/// # Errors
///
/// `Memory` if an allocation fails. A beginning may be written then.
fn push_texts<K: Item, V: Item>(
    alloc: Global,
    style: BytesStyle,
    form: Form,
    key: &View<'_, KeyOf<K>>,
    value: &View<'_, V>,
    out: &mut Vec<u8>,
) -> Result<(), ProgramFault>
    ensures ok { OnOk result (out.new.items ≡ out.old.items ++ entry_line form
        (texts_shown (K.spelling style) K.value_at (V.spelling style) V.value_at (key.now, value.now))) }
    ensures err { IfErr result (λ fault. fault ≡ ProgramFault.Memory) }
{
    let key = match text_of::<K>(alloc, style, &item_of::<K>(key)) {
        Ok(key) => key,
        Err(fault) => return Err(fault),
    };
    let value = match text_of::<V>(alloc, style, value) {
        Ok(value) => value,
        Err(fault) => return Err(fault),
    };
    match push_entry(out, form, key.as_str(), value.as_str()) {
        Ok(()) => Ok(()),
        Err(_) => Err(ProgramFault::Memory),
    }
}

/// Writes the next entry of a range at the end. Returns whether there is one. What is read goes into `room`, which is lengthened if need
/// be.
///
/// # Errors
///
/// `Refused` with the first error in what is read; `InputFailed` if the source fails, or the budget is too small; `Memory` if an
/// allocation fails, or an entry needs more than 4294967295 bytes. A beginning of the entry may be written then.
#[inline(never)]
fn push_next<S: ReadAt + Drop, K: Item + Fetch, V: Item + Fetch>(
    alloc: Global,
    style: BytesStyle,
    form: Form,
    entries: &mut Entries<S, K, V>,
    room: &mut Vec<u8>,
    out: &mut Vec<u8>,
) -> Result<bool, ProgramFault>
    ensures pushes { (b : List ℕ) → AreOf (S.known (source_of entries.old).reader.source) b →
        IfOk result (λ more. ByValues K.Native.archival K.kind K.order K.value_at K.native_value
        V.Native.archival V.kind V.order V.value_at V.native_value (λ key_to value_to. PushesNext form
        (spelled (items_by K.IsValue (K.spelling style) key_to) (items_by V.IsValue (V.spelling style) value_to)
        (source_left b (λ s b at. K.order (K.native_value s.native) (K.value_at b at)) (λ s. s.0) (λ s. s.1) entries.old))
        (spelled (items_by K.IsValue (K.spelling style) key_to) (items_by V.IsValue (V.spelling style) value_to)
        (source_left b (λ s b at. K.order (K.native_value s.native) (K.value_at b at)) (λ s. s.0) (λ s. s.1) entries.new))
        out.old.items out.new.items more)) }
    ensures refused { (b : List ℕ) → AreOf (S.known (source_of entries.old).reader.source) b → IfErr result
        (IsLookupFault (Fails K.kind V.kind 5 b K.Refuses V.Refuses (source_of entries.old).pos)) }
    ensures failed { IfErr result
        (IsReadFailure (S.Fails (S.known (source_of entries.old).reader.source))
        ((source_of entries.old).pos + 8) (source_of entries.new).reader.left) }
    ensures same { S.known (source_of entries.new).reader.source
        ≡ S.known (source_of entries.old).reader.source }
    ensures position { (source_of entries.new).pos ≡ (source_of entries.old).pos }
    ensures turns { IfOk result (λ more. IsTrue more → turns_left entries.new < turns_left entries.old) }
{
    'longer: loop {
        let lent = room.len().min(MOST_ROOM);
        let fault = match entries.next(&mut room.as_mut_slice()[..lent]) {
            Ok(None) => return Ok(false),
            Ok(Some((key, value))) => {
                return match push_texts::<K, V>(alloc, style, form, &key, &value, out) {
                    Ok(()) => Ok(true),
                    Err(fault) => Err(fault),
                };
            }
            Err(fault) => fault,
        };
        match lengthen(room, fault) {
            Ok(()) => {}
            Err(fault) => return Err(fault),
        }
    }
}

/// Returns the first entry as it is written, the exit status, and how many more bytes may be read. Nothing is written if there is no
/// entry: the status is 1 then, and else 0.
///
/// # Errors
///
/// As of `push_next`.
fn first_in<S: ReadAt + Drop, K: Item + Fetch, V: Item + Fetch>(
    alloc: Global,
    style: BytesStyle,
    form: Form,
    map: Map<S, K, V>,
    room: &mut Vec<u8>,
) -> Result<(Vec<u8>, u8, u64), ProgramFault>
    ensures ok { (b : List ℕ) → AreOf (S.known map.reader.source) b →
        map.pos ≡ own_at (map_kind K.kind V.kind 5) b → IfOk result (λ r.
        ByValues K.Native.archival K.kind K.order K.value_at K.native_value
        V.Native.archival V.kind V.order V.value_at V.native_value (λ key_to value_to.
        WritesPart K.kind V.kind (name_of (term.map K.term V.term 5))
        (items_by K.IsValue (K.spelling style) key_to) (items_by V.IsValue (V.spelling style) value_to)
        K.Refuses V.Refuses b First form r.0.items r.1)) }
    ensures err { (b : List ℕ) → AreOf (S.known map.reader.source) b → IfErr result
        (IsLookupFault (Fails K.kind V.kind 5 b K.Refuses V.Refuses map.pos)) }
{
    let all: (Bound<Sought<K>>, Bound<Sought<K>>) = (Bound::Unbounded, Bound::Unbounded);
    let mut entries = map.range_of(all);
    let mut text = Vec::new(alloc);
    match push_next::<S, K, V>(alloc, style, form, &mut entries, room, &mut text) {
        Ok(true) => Ok((text, 0, entries.into_source().budget_left())),
        Ok(false) => Ok((text, 1, entries.into_source().budget_left())),
        Err(fault) => Err(fault),
    }
}

/// Returns the last entry as it is written, and the exit status. Nothing is written if there is none: the status is 1 then, and else 0.
///
/// # Errors
///
/// As of `push_next`.
#[inline(never)]
fn last_in<S: ReadAt, K: Item + Fetch, V: Item + Fetch>(
    alloc: Global,
    style: BytesStyle,
    form: Form,
    map: &mut Map<S, K, V>,
    room: &mut Vec<u8>,
) -> Result<(Vec<u8>, u8), ProgramFault>
    ensures ok { (b : List ℕ) → AreOf (S.known map.old.reader.source) b →
        map.old.pos ≡ own_at (map_kind K.kind V.kind 5) b → IfOk result (λ r.
        ByValues K.Native.archival K.kind K.order K.value_at K.native_value
        V.Native.archival V.kind V.order V.value_at V.native_value (λ key_to value_to.
        WritesPart K.kind V.kind (name_of (term.map K.term V.term 5))
        (items_by K.IsValue (K.spelling style) key_to) (items_by V.IsValue (V.spelling style) value_to)
        K.Refuses V.Refuses b Last form r.0.items r.1)) }
    ensures err { (b : List ℕ) → AreOf (S.known map.old.reader.source) b → IfErr result
        (IsLookupFault (LastFails K.kind V.kind 5 b map.old.pos K.Refuses V.Refuses)) }
    ensures failed { IfErr result
        (IsReadFailure (S.Fails (S.known map.old.reader.source)) (map.old.pos + 8)
        map.new.reader.left) }
{
    'longer: loop {
        let lent = room.len().min(MOST_ROOM);
        let fault = match map.last(&mut room.as_mut_slice()[..lent]) {
            Ok(None) => return Ok((Vec::new(alloc), 1)),
            Ok(Some((key, value))) => {
                let mut text = Vec::new(alloc);
                return match push_texts::<K, V>(alloc, style, form, &key, &value, &mut text) {
                    Ok(()) => Ok((text, 0)),
                    Err(fault) => Err(fault),
                };
            }
            Err(fault) => fault,
        };
        match lengthen(room, fault) {
            Ok(()) => {}
            Err(fault) => return Err(fault),
        }
    }
}

/// Writes all entries of a range at the end. What is read goes into `room`, which is lengthened if need be.
///
/// # Errors
///
/// As of `push_next`. The entries before may be written then.
fn push_all<S: ReadAt + Drop, K: Item + Fetch, V: Item + Fetch>(
    alloc: Global,
    style: BytesStyle,
    form: Form,
    entries: &mut Entries<S, K, V>,
    room: &mut Vec<u8>,
    out: &mut Vec<u8>,
) -> Result<(), ProgramFault>
    ensures writes { (b : List ℕ) → AreOf (S.known (source_of entries.old).reader.source) b → OnOk result
        (ByValues K.Native.archival K.kind K.order K.value_at K.native_value
        V.Native.archival V.kind V.order V.value_at V.native_value (λ key_to value_to.
        out.new.items ≡ out.old.items ++ text_in form
        (spelled (items_by K.IsValue (K.spelling style) key_to) (items_by V.IsValue (V.spelling style) value_to)
        (source_left b (λ s b at. K.order (K.native_value s.native) (K.value_at b at)) (λ s. s.0) (λ s. s.1) entries.old)))) }
    ensures refused { (b : List ℕ) → AreOf (S.known (source_of entries.old).reader.source) b → IfErr result
        (IsLookupFault (Fails K.kind V.kind 5 b K.Refuses V.Refuses (source_of entries.old).pos)) }
{
    'more: loop {
        match push_next::<S, K, V>(alloc, style, form, entries, room, out) {
            Ok(true) => {}
            Ok(false) => return Ok(()),
            Err(fault) => return Err(fault),
        }
    }
}

/// Returns the entries of the keys from one to another as they are written, and how many more bytes may be read.
///
/// # Errors
///
/// `NoLow` or `NoHigh` if a word is the text of no key, and those of `push_next`.
fn between_in<S: ReadAt + Drop, K: Item + Fetch, V: Item + Fetch>(
    alloc: Global,
    style: BytesStyle,
    form: Form,
    map: Map<S, K, V>,
    low: &String,
    high: &String,
    room: &mut Vec<u8>,
) -> Result<(Vec<u8>, u64), TypedFault>
    ensures ok { (b : List ℕ) → AreOf (S.known map.reader.source) b →
        map.pos ≡ own_at (map_kind K.kind V.kind 5) b → IfOk result (λ r.
        ByValues K.Native.archival K.kind K.order K.value_at K.native_value
        V.Native.archival V.kind V.order V.value_at V.native_value (λ key_to value_to.
        WritesPart K.kind V.kind (name_of (term.map K.term V.term 5))
        (items_by K.IsValue (K.spelling style) key_to) (items_by V.IsValue (V.spelling style) value_to)
        K.Refuses V.Refuses b (Between low.now high.now) form r.0.items 0)) }
    ensures err { (b : List ℕ) → AreOf (S.known map.reader.source) b →
        map.pos ≡ own_at (map_kind K.kind V.kind 5) b → IfErr result (λ fault.
        ByValues K.Native.archival K.kind K.order K.value_at K.native_value
        V.Native.archival V.kind V.order V.value_at V.native_value (λ key_to value_to.
        FailsToWrite K.kind V.kind (name_of (term.map K.term V.term 5))
        (items_by K.IsValue (K.spelling style) key_to) (items_by V.IsValue (V.spelling style) value_to)
        K.Refuses V.Refuses b (Between low.now high.now) fault)) }
{
    let low = match native_of::<K>(alloc, style, low.as_str()) {
        Ok(Some(key)) => key,
        Ok(None) => return Err(TypedFault::NoLow),
        Err(fault) => return Err(fault),
    };
    let high = match native_of::<K>(alloc, style, high.as_str()) {
        Ok(Some(key)) => key,
        Ok(None) => return Err(TypedFault::NoHigh),
        Err(fault) => return Err(fault),
    };
    let low = Bound::Included(Sought::<K> { native: low });
    let high = Bound::Included(Sought::<K> { native: high });
    let mut entries = map.range_of((low, high));
    let mut text = Vec::new(alloc);
    match push_all::<S, K, V>(alloc, style, form, &mut entries, room, &mut text) {
        Ok(()) => Ok((text, entries.into_source().budget_left())),
        Err(fault) => Err(TypedFault::Program(fault)),
    }
}

/// Returns what a part of the entries is written as, the exit status, and how many more bytes may be read.
fn part_of<S: ReadAt + Drop, K: Item + Fetch, V: Item + Fetch>(
    alloc: Global,
    style: BytesStyle,
    form: Form,
    archive: TypedSource<S>,
    room: &mut Vec<u8>,
    part: &Part,
) -> Result<(Vec<u8>, u8, u64), TypedFault>
    requires { IsTrue (are_fitting K.kind V.kind 5) }
    ensures ok { (b : List ℕ) → AreOf (S.known archive.reader.source) b →
        archive.pos ≡ own_at (map_kind K.kind V.kind 5) b → IfOk result (λ r.
        ByValues K.Native.archival K.kind K.order K.value_at K.native_value
        V.Native.archival V.kind V.order V.value_at V.native_value (λ key_to value_to.
        WritesPart K.kind V.kind (name_of (term.map K.term V.term 5))
        (items_by K.IsValue (K.spelling style) key_to) (items_by V.IsValue (V.spelling style) value_to)
        K.Refuses V.Refuses b part.now form r.0.items r.1)) }
    ensures err { (b : List ℕ) → AreOf (S.known archive.reader.source) b →
        archive.pos ≡ own_at (map_kind K.kind V.kind 5) b → IfErr result (λ fault.
        ByValues K.Native.archival K.kind K.order K.value_at K.native_value
        V.Native.archival V.kind V.order V.value_at V.native_value (λ key_to value_to.
        FailsToWrite K.kind V.kind (name_of (term.map K.term V.term 5))
        (items_by K.IsValue (K.spelling style) key_to) (items_by V.IsValue (V.spelling style) value_to)
        K.Refuses V.Refuses b part.now fault)) }
{
    let Reader { source, left } = archive.reader;
    let mut map = UnverifiedSource::<S, ArchivedBTreeMap<KeyOf<K>, V, 5>>::new(
        source,
        archive.pos,
        left,
    );
    match part {
        Part::First => match first_in::<S, K, V>(alloc, style, form, map, room) {
            Ok(found) => Ok(found),
            Err(fault) => Err(TypedFault::Program(fault)),
        },
        Part::Last => match last_in::<S, K, V>(alloc, style, form, &mut map, room) {
            Ok((text, status)) => Ok((text, status, map.budget_left())),
            Err(fault) => Err(TypedFault::Program(fault)),
        },
        Part::Between(low, high) => {
            match between_in::<S, K, V>(alloc, style, form, map, low, high, room) {
                Ok((text, left)) => Ok((text, 0, left)),
                Err(fault) => Err(fault),
            }
        }
    }
}

/// Returns the same of a map to values of a type.
fn part_with<S: ReadAt + Drop, K: Item + Fetch>(
    value_type: PlainType,
    alloc: Global,
    style: BytesStyle,
    form: Form,
    archive: TypedSource<S>,
    room: &mut Vec<u8>,
    part: &Part,
) -> Result<(Vec<u8>, u8, u64), TypedFault>
    requires { IsTrue (are_fitting K.kind (kind_at (Plain value_type)) 5) }
    ensures ok { (b : List ℕ) → AreOf (S.known archive.reader.source) b →
        archive.pos ≡ own_at (map_kind K.kind (kind_at (Plain value_type)) 5) b → IfOk result (λ r.
        WritesPartTo K.Native.archival K.kind K.order K.value_at K.native_value K.term K.IsValue
        (K.spelling style) K.Refuses value_type style b part.now form r.0.items r.1) }
    ensures err { (b : List ℕ) → AreOf (S.known archive.reader.source) b →
        archive.pos ≡ own_at (map_kind K.kind (kind_at (Plain value_type)) 5) b → IfErr result
        (FailsToWriteTo K.Native.archival K.kind K.order K.value_at K.native_value K.term K.IsValue
        (K.spelling style) K.Refuses value_type style b part.now) }
{
    at_plain!(
        value_type,
        part_of::<S, K>(alloc, style, form, archive, room, part)
    )
}

/// Returns what a part of the entries is written as, the exit status, and how many more bytes may be read. Of an end of the list nothing
/// is written if there is no entry: the status is 1 then, and else 0. The archive is all of a source, which isn't read whole. What is
/// read goes into `room`, which is lengthened if need be.
///
/// # Errors
///
/// `NoLow` or `NoHigh` if a word is the text of no key; `Refused` with the first error in what is read; `InputFailed` if the source
/// fails, or the budget is too small; `Memory` if an allocation fails, or an entry needs more than 4294967295 bytes.
pub fn text_of_part<S: ReadAt + Drop>(
    alloc: Global,
    style: BytesStyle,
    form: Form,
    archive: TypedSource<S>,
    room: &mut Vec<u8>,
    part: &Part,
) -> Result<(Vec<u8>, u8, u64), TypedFault>
    ensures ok { (b : List ℕ) → IsSourceOf S.known archive b →
        IfOk result (λ r. WritesPartAt archive.types style b part.now form r.0.items r.1) }
    ensures err { (b : List ℕ) → IsSourceOf S.known archive b →
        IfErr result (FailsToWriteAt archive.types style b part.now) }
{
    let value = archive.types.value;
    at_plain!(
        archive.types.key,
        part_with::<S>(value, alloc, style, form, archive, room, part)
    )
}
