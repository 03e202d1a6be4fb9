//! Archives that are changed: entries are added to those of an archive, as texts, and all are archived anew.
ghost use Rattle.std.specs.Prelude.{◌≡◌, ◌++◌, ◌∷◌, [], IfErr, IfOk, IsTrue, OnOk, map, string_bytes};
ghost use Rattle.std.specs.Iterator.{IsFinite};
ghost use Rattle.rkyv_btree_format.specs.Layout.{are_fitting};
ghost use Rattle.rkyv_btree_typed.specs.TypeNames.{name_of};
ghost use Rattle.rkyv_btree_typed.specs.TypeNames as term;
ghost use Rattle.btreearc_lines.specs.Headings.{IsHeaded};
ghost use Rattle.btreekv_commands.specs.Texts.{texts_of};
ghost use Rattle.btreekv_types.specs.Commands.{AppendsEach, AppendsTexts, Fails, FailsToMerge, FailsToRead, IsMergeOf, IsUnreadAmong, Outputs};
ghost use Rattle.btreekv_types.specs.Listing.{AppendsShown};
ghost use Rattle.btreekv_types.specs.Typed.{ByValues, RefusesTypedStrict, items_by, texts_shown};
ghost use Rattle.btreekv_types.specs.declared.command.TypedCommand.TheVariants.{Set};
ghost use Rattle.btreekv_types.specs.declared.fault.TypedFault.TheVariants.{Program};

use crate::building::archive;
use crate::command::Order;
use crate::fault::TypedFault;
use crate::reading::text_of;
use btreearc_lines::fault::ProgramFault;
use btreearc_lines::heading::{Heading, heading_of};
use btreekv_items::item::{BytesStyle, Item};
use rkyv_btree_strict::strict::open_strict;
use rkyv_btree_types::map::ArchivedBTreeMap;
use rkyv_btree_view::view::View;
use std::alloc::Global;

/// Appends an entry of two texts.
///
/// # Errors
///
/// `Memory` if an allocation fails.
fn push_pair(
    texts: &mut Vec<(String, String)>,
    key: String,
    value: String,
) -> Result<(), ProgramFault>
    ensures ok { OnOk result
        (map texts_of texts.new.items
        ≡ map texts_of texts.old.items ++ (string_bytes key, string_bytes value) ∷ []) }
    ensures err { IfErr result (λ fault. fault ≡ ProgramFault.Memory) }
{
    match texts.push((key, value)) {
        Ok(()) => Ok(()),
        Err(_) => Err(ProgramFault::Memory),
    }
}

/// Returns a copy of a text.
///
/// # Errors
///
/// `Memory` if an allocation fails.
fn copied(alloc: Global, text: &str) -> Result<String, ProgramFault>
    ensures ok { IfOk result (λ copy. string_bytes copy ≡ text.now) }
    ensures err { IfErr result (λ fault. fault ≡ ProgramFault.Memory) }
{
    match String::from_str(alloc, text) {
        Ok(copy) => Ok(copy),
        Err(_) => Err(ProgramFault::Memory),
    }
}

/// Appends the texts of an entry.
///
/// # Errors
///
/// `Memory` if an allocation fails.
fn push_texts<K: Item, V: Item>(
    alloc: Global,
    style: BytesStyle,
    key: &View<'_, K>,
    value: &View<'_, V>,
    texts: &mut Vec<(String, String)>,
) -> Result<(), ProgramFault>
    ensures ok { OnOk result (map texts_of texts.new.items ≡ map texts_of texts.old.items
        ++ texts_shown (K.spelling style) K.value_at (V.spelling style) V.value_at (key.now, value.now) ∷ []) }
    ensures err { IfErr result (λ fault. fault ≡ ProgramFault.Memory) }
{
    let key = match text_of::<K>(alloc, style, key) {
        Ok(key) => key,
        Err(fault) => return Err(fault),
    };
    let value = match text_of::<V>(alloc, style, value) {
        Ok(value) => value,
        Err(fault) => return Err(fault),
    };
    push_pair(texts, key, value)
}

/// Appends the texts of the entries of an iterator.
///
/// # Errors
///
/// `Memory` if an allocation fails. The entries before may have been appended then.
pub(crate) fn push_all<'a, K: Item, V: Item, I: Iterator<Item = (View<'a, K>, View<'a, V>)>>(
    alloc: Global,
    style: BytesStyle,
    mut entries: I,
    texts: &mut Vec<(String, String)>,
) -> Result<(), ProgramFault>
    requires can { I.can_next entries }
    requires ends { IsFinite (I.remaining entries) }
    ensures ok { OnOk result (AppendsShown I.next_gives
        (texts_shown (K.spelling style) K.value_at (V.spelling style) V.value_at) entries
        (map texts_of texts.old.items) (map texts_of texts.new.items)) }
    ensures err { IfErr result (λ fault. fault ≡ ProgramFault.Memory) }
{
    while let Some((key, value)) = entries.next() {
        match push_texts::<K, V>(alloc, style, &key, &value, texts) {
            Ok(()) => {}
            Err(fault) => return Err(fault),
        }
    }
    Ok(())
}

/// Appends the texts of the entries of an archive, whose keys must increase, and returns what its file begins with.
///
/// # Errors
///
/// Those of `strict_count`, and `Memory` if an allocation fails. Entries may have been appended then.
#[inline(never)]
pub(crate) fn push_entries<K: Item, V: Item>(
    alloc: Global,
    style: BytesStyle,
    archive: &[u8],
    texts: &mut Vec<(String, String)>,
) -> Result<Heading, ProgramFault>
    requires { IsTrue (are_fitting K.kind V.kind 5) }
    ensures headed { IfOk result (IsHeaded (name_of (term.map K.term V.term 5)) archive.now) }
    ensures ok { OnOk result (
        ByValues K.Native.archival K.kind K.order K.value_at K.native_value
        V.Native.archival V.kind V.order V.value_at V.native_value (λ key_to value_to.
        AppendsTexts K.kind V.kind (name_of (term.map K.term V.term 5))
        (items_by K.IsValue (K.spelling style) key_to) (items_by V.IsValue (V.spelling style) value_to)
        archive.now (map texts_of texts.old.items) (map texts_of texts.new.items))) }
    ensures err { IfErr result (λ fault.
        ByValues K.Native.archival K.kind K.order K.value_at K.native_value
        V.Native.archival V.kind V.order V.value_at V.native_value (λ key_to value_to.
        FailsToRead K.kind V.kind (name_of (term.map K.term V.term 5))
        (items_by K.IsValue (K.spelling style) key_to) (items_by V.IsValue (V.spelling style) value_to)
        (RefusesTypedStrict K.kind V.kind (name_of (term.map K.term V.term 5))) archive.now (Program fault))) }
{
    let heading = match heading_of::<ArchivedBTreeMap<K, V, 5>>(archive) {
        Ok(heading) => heading,
        Err(fault) => return Err(ProgramFault::Misheaded(fault)),
    };
    let map = match open_strict::<ArchivedBTreeMap<K, V, 5>>(archive) {
        Ok(map) => map,
        Err(refusal) => return Err(ProgramFault::Refused(refusal)),
    };
    match push_all::<K, V, _>(alloc, style, map.iter(), texts) {
        Ok(()) => Ok(heading),
        Err(fault) => Err(fault),
    }
}

/// Returns the file of an archive's entries with one put: the key has the value. It has a header if the old file has one.
#[inline(never)]
pub(crate) fn set<K: Item, V: Item>(
    alloc: Global,
    style: BytesStyle,
    key: &String,
    value: &String,
    bytes: &[u8],
) -> Result<Vec<u8>, TypedFault>
    requires { IsTrue (are_fitting K.kind V.kind 5) }
    ensures ok { IfOk result (λ file.
        ByValues K.Native.archival K.kind K.order K.value_at K.native_value
        V.Native.archival V.kind V.order V.value_at V.native_value (λ key_to value_to.
        Outputs K.kind V.kind (name_of (term.map K.term V.term 5))
        (items_by K.IsValue (K.spelling style) key_to) (items_by V.IsValue (V.spelling style) value_to)
        (Set key.now value.now) bytes.now file.items 0)) }
    ensures err { IfErr result (λ fault.
        ByValues K.Native.archival K.kind K.order K.value_at K.native_value
        V.Native.archival V.kind V.order V.value_at V.native_value (λ key_to value_to.
        Fails K.kind V.kind (name_of (term.map K.term V.term 5))
        (items_by K.IsValue (K.spelling style) key_to) (items_by V.IsValue (V.spelling style) value_to)
        K.Native.archival V.Native.archival (Set key.now value.now) bytes.now fault)) }
{
    let mut texts = Vec::new(alloc);
    let heading = match push_entries::<K, V>(alloc, style, bytes, &mut texts) {
        Ok(heading) => heading,
        Err(fault) => return Err(TypedFault::Program(fault)),
    };
    let key = match copied(alloc, key.as_str()) {
        Ok(key) => key,
        Err(fault) => return Err(TypedFault::Program(fault)),
    };
    let value = match copied(alloc, value.as_str()) {
        Ok(value) => value,
        Err(fault) => return Err(TypedFault::Program(fault)),
    };
    match push_pair(&mut texts, key, value) {
        Ok(()) => {}
        Err(fault) => return Err(TypedFault::Program(fault)),
    }
    archive::<K, V>(alloc, style, Order::Any, heading, texts.as_slice())
}

/// Appends the texts of the entries of archives, one after the other.
///
/// # Errors
///
/// `Archive` with the number of the first archive that isn't read, counted from 1, and why. Entries may have been appended then.
fn push_others<K: Item, V: Item>(
    alloc: Global,
    style: BytesStyle,
    others: &[Vec<u8>],
    texts: &mut Vec<(String, String)>,
) -> Result<(), TypedFault>
    requires { IsTrue (are_fitting K.kind V.kind 5) }
    ensures ok { OnOk result (
        ByValues K.Native.archival K.kind K.order K.value_at K.native_value
        V.Native.archival V.kind V.order V.value_at V.native_value (λ key_to value_to.
        AppendsEach K.kind V.kind (name_of (term.map K.term V.term 5))
        (items_by K.IsValue (K.spelling style) key_to) (items_by V.IsValue (V.spelling style) value_to)
        (map (λ file. file.items) others.now)
        (map texts_of texts.old.items) (map texts_of texts.new.items))) }
    ensures err { IfErr result (λ fault.
        ByValues K.Native.archival K.kind K.order K.value_at K.native_value
        V.Native.archival V.kind V.order V.value_at V.native_value (λ key_to value_to.
        IsUnreadAmong K.kind V.kind (name_of (term.map K.term V.term 5))
        (items_by K.IsValue (K.spelling style) key_to) (items_by V.IsValue (V.spelling style) value_to)
        (map (λ file. file.items) others.now) fault)) }
{
    'others: for index in 0..others.len() {
        match push_entries::<K, V>(alloc, style, others[index].as_slice(), texts) {
            Ok(_) => {}
            Err(fault) => return Err(TypedFault::Archive(index as u64 + 1, fault)),
        }
    }
    Ok(())
}

/// Returns the file of the entries of several archives. Of a key that several have the last value counts. It has a header if the first has
/// one.
#[inline(never)]
pub(crate) fn merge<K: Item, V: Item>(
    alloc: Global,
    style: BytesStyle,
    others: &[Vec<u8>],
    bytes: &[u8],
) -> Result<Vec<u8>, TypedFault>
    requires { IsTrue (are_fitting K.kind V.kind 5) }
    ensures ok { IfOk result (λ file.
        ByValues K.Native.archival K.kind K.order K.value_at K.native_value
        V.Native.archival V.kind V.order V.value_at V.native_value (λ key_to value_to.
        IsMergeOf K.kind V.kind (name_of (term.map K.term V.term 5))
        (items_by K.IsValue (K.spelling style) key_to) (items_by V.IsValue (V.spelling style) value_to)
        bytes.now (map (λ file. file.items) others.now) file.items)) }
    ensures err { IfErr result (λ fault.
        ByValues K.Native.archival K.kind K.order K.value_at K.native_value
        V.Native.archival V.kind V.order V.value_at V.native_value (λ key_to value_to.
        FailsToMerge K.kind V.kind (name_of (term.map K.term V.term 5))
        (items_by K.IsValue (K.spelling style) key_to) (items_by V.IsValue (V.spelling style) value_to)
        K.Native.archival V.Native.archival bytes.now (map (λ file. file.items) others.now) fault)) }
{
    let mut texts = Vec::new(alloc);
    let heading = match push_entries::<K, V>(alloc, style, bytes, &mut texts) {
        Ok(heading) => heading,
        Err(fault) => return Err(TypedFault::Archive(0, fault)),
    };
    match push_others::<K, V>(alloc, style, others, &mut texts) {
        Ok(()) => {}
        Err(fault) => return Err(fault),
    }
    archive::<K, V>(alloc, style, Order::Any, heading, texts.as_slice())
}
