//! Archives that are updated: the changes of lines are made in turn, by their keys, and all entries are archived anew.
ghost use Rattle.std.specs.List.{AllByRecursion};
ghost use Rattle.std.specs.Prelude.{◌≡◌, true, false, ℕ, List, IfErr, IfOk, IsTrue, OnOk, String as StringOf, map, string_bytes};
ghost use Rattle.std.specs.declared.alloc.Global.{Global as AllocatorOf};
ghost use Rattle.rkyv_btree_convert.specs.Maps.{last_wins};
ghost use Rattle.rkyv_btree_format.specs.Increasing.{Increasing};
ghost use Rattle.rkyv_btree_format.specs.Layout.{are_fitting};
ghost use Rattle.rkyv_btree_typed.specs.TypeNames.{name_of};
ghost use Rattle.rkyv_btree_typed.specs.TypeNames as term;
ghost use Rattle.rkyv_btree_update.specs.Updated.{change_meant, changed, changes_meant, updated};
ghost use Rattle.btreekv_commands.specs.Lines.{Entry};
ghost use Rattle.btreekv_commands.specs.Texts.{texts_of};
ghost use Rattle.btreekv_items.specs.Bytes.{AreBytes};
ghost use Rattle.btreekv_types.specs.Changes.{AreTypedChanges, IsFirstBadKey, IsFirstBadValue, IsMemoryIf, IsTestFault, PutsNoText, PutsText};
ghost use Rattle.btreekv_types.specs.Commands.{FailsToUpdate, IsBuiltOf, IsUnbuiltOf, IsUpdateOf};
ghost use Rattle.btreekv_types.specs.Natives.{IsText};
ghost use Rattle.btreekv_types.specs.Typed.{AreTyped, ByValues, items, items_by};
ghost use Rattle.btreekv_types.specs.declared.command.Order.TheVariants.{Any};
ghost use Rattle.btreekv_types.specs.declared.fault.TypedFault.TheVariants.{Program};

use crate::building::{disorder, insert, map_file, sorted};
use crate::change_lines::parse_changes;
use crate::changing::push_entries;
use crate::command::Order;
use crate::fault::TypedFault;
use crate::natives::native_of;
use btreearc_lines::fault::ProgramFault;
use btreearc_lines::heading::Heading;
use btreekv_items::item::{BytesStyle, Item};
use rkyv_btree_update::change::Change;
use rkyv_btree_writer::fault::Fault;
use std::alloc::Global;
use std::collections::BTreeMap;

/// Returns a change with a text of its own.
///
/// # Errors
///
/// `Memory` if an allocation fails.
fn owned(alloc: Global, change: Change<&str>) -> Result<Change<String>, TypedFault>
    ensures ok { IfOk result (λ owned.
        change_meant string_bytes owned ≡ change_meant (λ v. v.now) change.entry) }
    ensures err { IfErr result (λ fault. fault ≡ TypedFault.Program ProgramFault.Memory) }
{
    match change {
        Change::Delete => Ok(Change::Delete),
        Change::Put(text) => match String::from_str(alloc, text) {
            Ok(text) => Ok(Change::Put(text)),
            Err(_) => Err(TypedFault::Program(ProgramFault::Memory)),
        },
    }
}

/// Returns the native keys of changes, with what becomes of their entries.
///
/// # Errors
///
/// `BadKey` with the number of the first change whose key is no text of the type, and `Memory` if an allocation fails.
fn keyed<K: Item>(
    alloc: Global,
    style: BytesStyle,
    changes: &[(&str, Change<&str>)],
) -> Result<Vec<(K::Native, Change<String>)>, TypedFault>
    ensures good { IfOk result (λ keyed.
        AllByRecursion (λ c. K.IsValue (K.native_value c.0)) keyed.items) }
    ensures same { IfOk result (λ keyed.
        changes_meant (λ x. K.spelling style (K.native_value x)) string_bytes keyed.items
        ≡ changes_meant (λ k. k.now) (λ v. v.now) changes.now) }
    ensures err { IfErr result (IsTestFault TypedFault.BadKey
        (IsFirstBadKey (items_by K.IsValue (K.spelling style) K.native_value)
        (items K.IsValue (K.spelling style)) (changes_meant (λ k. k.now) (λ v. v.now) changes.now))) }
{
    let mut keyed = Vec::new(alloc);
    'changes: for index in 0..changes.len() {
        let change = &changes[index];
        let key = match native_of::<K>(alloc, style, change.0) {
            Ok(Some(key)) => key,
            Ok(None) => return Err(TypedFault::BadKey(index as u64 + 1)),
            Err(fault) => return Err(fault),
        };
        let change = match owned(alloc, change.1) {
            Ok(change) => change,
            Err(fault) => return Err(fault),
        };
        if keyed.push((key, change)).is_err() {
            return Err(TypedFault::Program(ProgramFault::Memory));
        }
    }
    Ok(keyed)
}

/// Returns whether a change puts the text of a value of the type, or deletes.
///
/// # Errors
///
/// `Memory` if an allocation fails.
fn puts_text<V: Item>(
    alloc: Global,
    style: BytesStyle,
    change: Change<&str>,
) -> Result<bool, TypedFault>
    ensures yes { IfOk result (λ puts. puts ≡ true →
        PutsText (items_by V.IsValue (V.spelling style) V.native_value)
        (change_meant (λ v. v.now) change.entry)) }
    ensures no { IfOk result (λ puts. puts ≡ false →
        PutsNoText (items V.IsValue (V.spelling style)) (change_meant (λ v. v.now) change.entry)) }
    ensures err { IfErr result (λ fault. fault ≡ TypedFault.Program ProgramFault.Memory) }
{
    match change {
        Change::Delete => Ok(true),
        Change::Put(text) => match native_of::<V>(alloc, style, text) {
            Ok(Some(_)) => Ok(true),
            Ok(None) => Ok(false),
            Err(fault) => Err(fault),
        },
    }
}

/// Tests that all changes put texts of values of the type, or delete.
///
/// # Errors
///
/// `BadValue` with the number of the first change that puts another text, and `Memory` if an allocation fails.
fn test_values<V: Item>(
    alloc: Global,
    style: BytesStyle,
    changes: &[(&str, Change<&str>)],
) -> Result<(), TypedFault>
    ensures ok { OnOk result (
        AllByRecursion (λ c. PutsText (items_by V.IsValue (V.spelling style) V.native_value) c.1)
        (changes_meant (λ k. k.now) (λ v. v.now) changes.now)) }
    ensures err { IfErr result (IsTestFault TypedFault.BadValue
        (IsFirstBadValue (items_by V.IsValue (V.spelling style) V.native_value)
        (items V.IsValue (V.spelling style)) (changes_meant (λ k. k.now) (λ v. v.now) changes.now))) }
{
    'changes: for index in 0..changes.len() {
        match puts_text::<V>(alloc, style, changes[index].1) {
            Ok(true) => {}
            Ok(false) => return Err(TypedFault::BadValue(index as u64 + 1)),
            Err(fault) => return Err(fault),
        }
    }
    Ok(())
}

/// Returns the changes of lines, tested in turn: each line is a change, the keys and the values are of the types, and the keys are in order.
fn tested<K: Item, V: Item>(
    alloc: Global,
    style: BytesStyle,
    order: Order,
    lines: &[u8],
) -> Result<Vec<(K::Native, Change<String>)>, TypedFault>
    ensures ok { IfOk result (λ changes.
        AreTypedChanges (items_by K.IsValue (K.spelling style) K.native_value)
        (items_by V.IsValue (V.spelling style) V.native_value) lines.now
        (changes_meant (λ x. x) string_bytes changes.items)) }
    ensures in_order { IfOk result (λ changes.
        order ≡ Order.Increasing → Increasing K.Native.cmp changes.items) }
    ensures err { IfErr result (λ fault.
        ByValues K.Native.archival K.kind K.order K.value_at K.native_value
        V.Native.archival V.kind V.order V.value_at V.native_value (λ key_to value_to.
        (input : List ℕ) → FailsToUpdate K.kind V.kind (name_of (term.map K.term V.term 5))
        (items_by K.IsValue (K.spelling style) key_to) (items_by V.IsValue (V.spelling style) value_to)
        K.Native.archival V.Native.archival order input lines.now fault)) }
{
    let changes = match parse_changes(alloc, lines) {
        Ok(changes) => changes,
        Err(fault) => return Err(TypedFault::Program(fault)),
    };
    let keyed = match keyed::<K>(alloc, style, changes.as_slice()) {
        Ok(keyed) => keyed,
        Err(fault) => return Err(fault),
    };
    match test_values::<V>(alloc, style, changes.as_slice()) {
        Ok(()) => {}
        Err(fault) => return Err(fault),
    }
    match disorder(order, keyed.as_slice()) {
        None => Ok(keyed),
        Some(index) => {
            let index = index as u64;
            Err(TypedFault::Program(ProgramFault::NotBuilt(Fault::OutOfOrder { index })))
        }
    }
}

/// Returns the std map of entries, with their values as texts.
///
/// # Errors
///
/// `NoKey` if the key of an entry is no text of the type, and `Memory` if an allocation fails.
fn text_map<K: Item>(
    alloc: Global,
    style: BytesStyle,
    entries: Vec<(String, String)>,
) -> Result<BTreeMap<K::Native, String>, TypedFault>
    ensures ok { IfOk result (λ found. (pairs : List (K.Native × StringOf AllocatorOf)) ×
        AreTyped (items_by K.IsValue (K.spelling style) K.native_value)
        (items (λ text. Unit {0}) string_bytes) (map texts_of entries.items) pairs
        × (found.entries ≡ last_wins K.Native.cmp pairs)) }
    ensures err { IfErr result (IsMemoryIf
        (AllByRecursion (λ e. IsText (items K.IsValue (K.spelling style)) e.0) (map texts_of entries.items))) }
{
    let mut map: BTreeMap<K::Native, String> = BTreeMap::new(alloc);
    for (key, value) in entries {
        let key = match native_of::<K>(alloc, style, key.as_str()) {
            Ok(Some(key)) => key,
            Ok(None) => return Err(TypedFault::NoKey),
            Err(fault) => return Err(fault),
        };
        match insert(&mut map, key, value) {
            Ok(()) => {}
            Err(fault) => return Err(fault),
        }
    }
    Ok(map)
}

/// Makes a change in a std map.
///
/// # Errors
///
/// `Memory` if an allocation fails.
fn make_change<T: Ord + Drop, U: Drop>(
    map: &mut BTreeMap<T, U>,
    key: T,
    change: Change<U>,
) -> Result<(), TypedFault>
    ensures ok { OnOk result (map.new.entries ≡ changed T.cmp map.old.entries (key, change)) }
    ensures err { IfErr result (λ fault. fault ≡ TypedFault.Program ProgramFault.Memory) }
{
    match change {
        Change::Put(value) => insert(map, key, value),
        Change::Delete => {
            let _ = map.remove(&key);
            Ok(())
        }
    }
}

/// Makes changes in a std map, in turn.
///
/// # Errors
///
/// `Memory` if an allocation fails. The changes before may have been made then.
fn make_changes<T: Ord + Drop, U: Drop>(
    map: &mut BTreeMap<T, U>,
    changes: Vec<(T, Change<U>)>,
) -> Result<(), TypedFault>
    ensures ok { OnOk result (map.new.entries ≡ updated T.cmp map.old.entries changes.items) }
    ensures err { IfErr result (λ fault. fault ≡ TypedFault.Program ProgramFault.Memory) }
{
    for (key, change) in changes {
        match make_change(map, key, change) {
            Ok(()) => {}
            Err(fault) => return Err(fault),
        }
    }
    Ok(())
}

/// Returns the entries of a std map with native values.
///
/// # Errors
///
/// `BadValue` with the number of an entry whose value is no text of the type, and `Memory` if an allocation fails.
fn native_entries<K: Item, V: Item>(
    alloc: Global,
    style: BytesStyle,
    entries: BTreeMap<K::Native, String>,
) -> Result<Vec<(K::Native, V::Native)>, TypedFault>
    ensures ok { IfOk result (λ natives.
        AllByRecursion (λ e. K.IsValue (K.native_value e.0)) entries.entries → AreTyped (items_by K.IsValue (K.spelling style) K.native_value)
        (items_by V.IsValue (V.spelling style) V.native_value)
        (map (λ e. (K.spelling style (K.native_value e.0), string_bytes e.1)) entries.entries) natives.items) }
    ensures err { IfErr result (IsMemoryIf
        (AllByRecursion (λ e. IsText (items V.IsValue (V.spelling style)) (string_bytes e.1)) entries.entries)) }
{
    let mut natives = Vec::new(alloc);
    for (key, text) in entries {
        let value = match native_of::<V>(alloc, style, text.as_str()) {
            Ok(Some(value)) => value,
            Ok(None) => return Err(TypedFault::BadValue(natives.len() as u64 + 1)),
            Err(fault) => return Err(fault),
        };
        if natives.push((key, value)).is_err() {
            return Err(TypedFault::Program(ProgramFault::Memory));
        }
    }
    Ok(natives)
}

/// Returns the file of native entries. Of equal keys the last value counts.
///
/// # Errors
///
/// `NotBuilt` with the error of building the archive or its header, and `Memory` if an allocation fails.
fn file_of<K: Item, V: Item>(
    alloc: Global,
    style: BytesStyle,
    heading: Heading,
    natives: Vec<(K::Native, V::Native)>,
) -> Result<Vec<u8>, ProgramFault>
    requires { IsTrue (are_fitting K.kind V.kind 5) }
    ensures ok { IfOk result (λ bytes.
        ByValues K.Native.archival K.kind K.order K.value_at K.native_value
        V.Native.archival V.kind V.order V.value_at V.native_value (λ key_to value_to.
        (texts : List Entry) → AreTyped (items_by K.IsValue (K.spelling style) K.native_value)
        (items_by V.IsValue (V.spelling style) V.native_value) texts natives.items →
        IsBuiltOf K.kind V.kind (name_of (term.map K.term V.term 5))
        (items_by K.IsValue (K.spelling style) key_to) (items_by V.IsValue (V.spelling style) value_to)
        Any heading texts bytes.items)) }
    ensures err { IfErr result (λ fault.
        ByValues K.Native.archival K.kind K.order K.value_at K.native_value
        V.Native.archival V.kind V.order V.value_at V.native_value (λ key_to value_to.
        (texts : List Entry) → AreTyped (items_by K.IsValue (K.spelling style) K.native_value)
        (items_by V.IsValue (V.spelling style) V.native_value) texts natives.items →
        IsUnbuiltOf K.kind V.kind (name_of (term.map K.term V.term 5))
        (items_by K.IsValue (K.spelling style) key_to) (items_by V.IsValue (V.spelling style) value_to)
        K.Native.archival V.Native.archival Any heading texts (Program fault))) }
{
    let _style = style;
    let map = match sorted(alloc, natives) {
        Ok(map) => map,
        Err(_) => return Err(ProgramFault::Memory),
    };
    match map_file::<K, V>(alloc, heading, &map) {
        Ok(bytes) => Ok(bytes),
        Err(fault) => Err(ProgramFault::NotBuilt(fault)),
    }
}

/// States that bytes are bytes.
pub(crate) fn are_bytes(bytes: &[u8])
    ensures { AreBytes bytes.now }
{
    let _bytes = bytes;
}

/// Returns the file of an archive's entries after the changes of lines, which are made in turn. It has a header if the old file has one.
pub(crate) fn update<K: Item, V: Item>(
    alloc: Global,
    style: BytesStyle,
    order: Order,
    lines: &[u8],
    bytes: &[u8],
) -> Result<Vec<u8>, TypedFault>
    requires { IsTrue (are_fitting K.kind V.kind 5) }
    ensures ok { IfOk result (λ file.
        ByValues K.Native.archival K.kind K.order K.value_at K.native_value
        V.Native.archival V.kind V.order V.value_at V.native_value (λ key_to value_to.
        IsUpdateOf K.kind V.kind (name_of (term.map K.term V.term 5))
        (items_by K.IsValue (K.spelling style) key_to) (items_by V.IsValue (V.spelling style) value_to)
        order bytes.now lines.now file.items)) }
    ensures err { IfErr result (λ fault.
        ByValues K.Native.archival K.kind K.order K.value_at K.native_value
        V.Native.archival V.kind V.order V.value_at V.native_value (λ key_to value_to.
        FailsToUpdate K.kind V.kind (name_of (term.map K.term V.term 5))
        (items_by K.IsValue (K.spelling style) key_to) (items_by V.IsValue (V.spelling style) value_to)
        K.Native.archival V.Native.archival order bytes.now lines.now fault)) }
{
    are_bytes(bytes);
    let mut texts = Vec::new(alloc);
    let heading = match push_entries::<K, V>(alloc, style, bytes, &mut texts) {
        Ok(heading) => heading,
        Err(fault) => return Err(TypedFault::Program(fault)),
    };
    let changes = match tested::<K, V>(alloc, style, order, lines) {
        Ok(changes) => changes,
        Err(fault) => return Err(fault),
    };
    let mut map = match text_map::<K>(alloc, style, texts) {
        Ok(map) => map,
        Err(fault) => return Err(fault),
    };
    match make_changes(&mut map, changes) {
        Ok(()) => {}
        Err(fault) => return Err(fault),
    }
    let natives = match native_entries::<K, V>(alloc, style, map) {
        Ok(natives) => natives,
        Err(fault) => return Err(fault),
    };
    match file_of::<K, V>(alloc, style, heading, natives) {
        Ok(file) => Ok(file),
        Err(fault) => Err(TypedFault::Program(fault)),
    }
}
