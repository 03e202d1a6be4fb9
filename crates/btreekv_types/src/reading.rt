//! What typed archives have, as text.
ghost use Rattle.std.specs.Option.{option_map};
ghost use Rattle.std.specs.Prelude.{◌≡◌, ◌++◌, ◌∷◌, [], IfErr, IfOk, IsTrue, List, OnOk, length, string_bytes};
ghost use Rattle.std.specs.Iterator.{Drains, IsFinite};
ghost use Rattle.rkyv_btree_format.specs.Increasing.{Increasing};
ghost use Rattle.rkyv_btree_format.specs.Layout.{are_fitting};
ghost use Rattle.rkyv_btree_format.specs.OwnBytes.{own_at};
ghost use Rattle.rkyv_btree_typed.specs.TypeNames.{name_of};
ghost use Rattle.rkyv_btree_typed.specs.TypeNames as term;
ghost use Rattle.rkyv_btree_verify.specs.Map.{map_kind};
ghost use Rattle.rkyv_btree_view.specs.View.{entries_of};
ghost use Rattle.btreekv_commands.specs.Commands.{WrittenEntry, total};
ghost use Rattle.btreekv_commands.specs.Lines.{Entry};
ghost use Rattle.btreekv_types.specs.Commands.{Fails, Outputs};
ghost use Rattle.btreekv_types.specs.Typed.{ByValues, CountsTyped, IsTypedInput, IsTypedOpenFault, RefusesTyped, RefusesTypedStrict, items_by, texts_shown};
ghost use Rattle.btreekv_types.specs.declared.command.TypedCommand.TheVariants.{Check, CheckStrict, First, Get, Last, List as ListEntries, Range};
ghost use Rattle.btreekv_types.specs.declared.fault.TypedFault.TheVariants.{Program};

use crate::fault::TypedFault;
use crate::natives::native_of;
use btreearc_lines::fault::ProgramFault;
use btreearc_lines::heading::heading_of;
use btreekv_commands::forms::{Form, push_entry, push_value};
use btreekv_items::item::{BytesStyle, Item};
use rkyv_btree_convert::from_archive as whole;
use rkyv_btree_strict::strict::open_strict;
use rkyv_btree_types::map::ArchivedBTreeMap;
use rkyv_btree_view::view::View;
use std::alloc::Global;

/// Returns the map of an archive.
///
/// # Errors
///
/// `Misheaded` if another header than that of the map's type comes first, and `Refused` with the first error of bytes that are no
/// archive.
#[inline(never)]
pub(crate) fn open<K: Item, V: Item>(
    archive: &[u8],
) -> Result<View<'_, ArchivedBTreeMap<K, V, 5>>, ProgramFault>
    requires { IsTrue (are_fitting K.kind V.kind 5) }
    ensures buffer { IfOk result (λ map. map.buf.now ≡ archive.now) }
    ensures position { IfOk result (λ map. map.pos ≡ own_at (map_kind K.kind V.kind 5) archive.now) }
    ensures input { IfOk result (λ map.
        IsTypedInput K.kind V.kind (name_of (term.map K.term V.term 5)) archive.now (entries_of K.kind V.kind 5 map)) }
    ensures err { IfErr result
        (IsTypedOpenFault K.kind V.kind (name_of (term.map K.term V.term 5))
        (RefusesTyped K.kind V.kind (name_of (term.map K.term V.term 5))) archive.now) }
{
    match heading_of::<ArchivedBTreeMap<K, V, 5>>(archive) {
        Ok(_) => {}
        Err(fault) => return Err(ProgramFault::Misheaded(fault)),
    }
    match whole::open::<ArchivedBTreeMap<K, V, 5>>(archive) {
        Ok(map) => Ok(map),
        Err(refusal) => Err(ProgramFault::Refused(refusal)),
    }
}

/// Returns the number of entries of an archive whose keys increase.
///
/// # Errors
///
/// As of `open`, and `Refused` with the first entry whose key isn't greater than the key before it.
#[inline(never)]
pub(crate) fn strict_count<K: Item, V: Item>(archive: &[u8]) -> Result<usize, ProgramFault>
    requires { IsTrue (are_fitting K.kind V.kind 5) }
    ensures ok { IfOk result (CountsTyped K.kind V.kind (name_of (term.map K.term V.term 5)) archive.now) }
    ensures err { IfErr result
        (IsTypedOpenFault K.kind V.kind (name_of (term.map K.term V.term 5))
        (RefusesTypedStrict K.kind V.kind (name_of (term.map K.term V.term 5))) archive.now) }
{
    match heading_of::<ArchivedBTreeMap<K, V, 5>>(archive) {
        Ok(_) => {}
        Err(fault) => return Err(ProgramFault::Misheaded(fault)),
    }
    match open_strict::<ArchivedBTreeMap<K, V, 5>>(archive) {
        Ok(map) => Ok(map.len()),
        Err(refusal) => Err(ProgramFault::Refused(refusal)),
    }
}

/// Returns the text of what a view reads.
///
/// # Errors
///
/// `Memory` if an allocation fails.
pub(crate) fn text_of<T: Item>(
    alloc: Global,
    style: BytesStyle,
    view: &View<'_, T>,
) -> Result<String, ProgramFault>
    ensures ok { IfOk result (λ text.
        string_bytes text ≡ T.spelling style (T.value_at view.now.buf.now view.now.pos)) }
    ensures err { IfErr result (λ fault. fault ≡ ProgramFault.Memory) }
{
    let mut text = String::new(alloc);
    match T::push_text(&mut text, style, view) {
        Ok(()) => Ok(text),
        Err(_) => Err(ProgramFault::Memory),
    }
}

/// Returns an entry as it is written, or nothing and the status 1 if there is none.
///
/// # Errors
///
/// `Memory` if an allocation fails.
#[inline(never)]
fn written_entry<K: Item, V: Item>(
    alloc: Global,
    style: BytesStyle,
    form: Form,
    entry: Option<(View<'_, K>, View<'_, V>)>,
) -> Result<(Vec<u8>, u8), ProgramFault>
    ensures ok { IfOk result (λ r. WrittenEntry form
        (option_map (texts_shown (K.spelling style) K.value_at (V.spelling style) V.value_at) entry.entry)
        r.0.items r.1) }
    ensures err { IfErr result (λ fault. fault ≡ ProgramFault.Memory) }
{
    let mut out = Vec::new(alloc);
    let Some((key, value)) = entry else {
        return Ok((out, 1));
    };
    let key = match text_of::<K>(alloc, style, &key) {
        Ok(key) => key,
        Err(fault) => return Err(fault),
    };
    let value = match text_of::<V>(alloc, style, &value) {
        Ok(value) => value,
        Err(fault) => return Err(fault),
    };
    match push_entry(&mut out, form, key.as_str(), value.as_str()) {
        Ok(()) => Ok((out, 0)),
        Err(_) => Err(ProgramFault::Memory),
    }
}

/// Returns the first entry as it is written, or nothing and the status 1.
#[inline(never)]
pub(crate) fn first<K: Item, V: Item>(
    alloc: Global,
    style: BytesStyle,
    form: Form,
    archive: &[u8],
) -> Result<(Vec<u8>, u8), ProgramFault>
    requires { IsTrue (are_fitting K.kind V.kind 5) }
    ensures ok { IfOk result (λ r.
        ByValues K.Native.archival K.kind K.order K.value_at K.native_value
        V.Native.archival V.kind V.order V.value_at V.native_value (λ key_to value_to.
        Outputs K.kind V.kind (name_of (term.map K.term V.term 5))
        (items_by K.IsValue (K.spelling style) key_to) (items_by V.IsValue (V.spelling style) value_to)
        (First form) archive.now r.0.items r.1)) }
    ensures err { IfErr result (λ fault.
        ByValues K.Native.archival K.kind K.order K.value_at K.native_value
        V.Native.archival V.kind V.order V.value_at V.native_value (λ key_to value_to.
        Fails K.kind V.kind (name_of (term.map K.term V.term 5))
        (items_by K.IsValue (K.spelling style) key_to) (items_by V.IsValue (V.spelling style) value_to)
        K.Native.archival V.Native.archival (First form) archive.now (Program fault))) }
{
    let map = match open::<K, V>(archive) {
        Ok(map) => map,
        Err(fault) => return Err(fault),
    };
    written_entry::<K, V>(alloc, style, form, map.first())
}

/// Returns the last entry as it is written, or nothing and the status 1.
#[inline(never)]
pub(crate) fn last<K: Item, V: Item>(
    alloc: Global,
    style: BytesStyle,
    form: Form,
    archive: &[u8],
) -> Result<(Vec<u8>, u8), ProgramFault>
    requires { IsTrue (are_fitting K.kind V.kind 5) }
    ensures ok { IfOk result (λ r.
        ByValues K.Native.archival K.kind K.order K.value_at K.native_value
        V.Native.archival V.kind V.order V.value_at V.native_value (λ key_to value_to.
        Outputs K.kind V.kind (name_of (term.map K.term V.term 5))
        (items_by K.IsValue (K.spelling style) key_to) (items_by V.IsValue (V.spelling style) value_to)
        (Last form) archive.now r.0.items r.1)) }
    ensures err { IfErr result (λ fault.
        ByValues K.Native.archival K.kind K.order K.value_at K.native_value
        V.Native.archival V.kind V.order V.value_at V.native_value (λ key_to value_to.
        Fails K.kind V.kind (name_of (term.map K.term V.term 5))
        (items_by K.IsValue (K.spelling style) key_to) (items_by V.IsValue (V.spelling style) value_to)
        K.Native.archival V.Native.archival (Last form) archive.now (Program fault))) }
{
    let map = match open::<K, V>(archive) {
        Ok(map) => map,
        Err(fault) => return Err(fault),
    };
    written_entry::<K, V>(alloc, style, form, map.last())
}

/// Returns a key's value as it is written, or nothing and the status 1.
#[inline(never)]
pub(crate) fn get<K: Item, V: Item>(
    alloc: Global,
    style: BytesStyle,
    key: &String,
    form: Form,
    archive: &[u8],
) -> Result<(Vec<u8>, u8), TypedFault>
    requires { IsTrue (are_fitting K.kind V.kind 5) }
    ensures ok { IfOk result (λ r.
        ByValues K.Native.archival K.kind K.order K.value_at K.native_value
        V.Native.archival V.kind V.order V.value_at V.native_value (λ key_to value_to.
        Outputs K.kind V.kind (name_of (term.map K.term V.term 5))
        (items_by K.IsValue (K.spelling style) key_to) (items_by V.IsValue (V.spelling style) value_to)
        (Get key.now form) archive.now r.0.items r.1)) }
    ensures err { IfErr result (λ fault.
        ByValues K.Native.archival K.kind K.order K.value_at K.native_value
        V.Native.archival V.kind V.order V.value_at V.native_value (λ key_to value_to.
        Fails K.kind V.kind (name_of (term.map K.term V.term 5))
        (items_by K.IsValue (K.spelling style) key_to) (items_by V.IsValue (V.spelling style) value_to)
        K.Native.archival V.Native.archival (Get key.now form) archive.now fault)) }
{
    let key = match native_of::<K>(alloc, style, key.as_str()) {
        Ok(Some(key)) => key,
        Ok(None) => return Err(TypedFault::NoKey),
        Err(fault) => return Err(fault),
    };
    let map = match open::<K, V>(archive) {
        Ok(map) => map,
        Err(fault) => return Err(TypedFault::Program(fault)),
    };
    let compare = |key: &K::Native, view: View<K>| K::compare_native(key, &view);
    let mut out = Vec::new(alloc);
    let Some((_, value)) = map.get_key_value_with(&key, compare) else {
        return Ok((out, 1));
    };
    let text = match text_of::<V>(alloc, style, &value) {
        Ok(text) => text,
        Err(fault) => return Err(TypedFault::Program(fault)),
    };
    match push_value(&mut out, form, text.as_str()) {
        Ok(()) => Ok((out, 0)),
        Err(_) => Err(TypedFault::Program(ProgramFault::Memory)),
    }
}

/// Returns the line of an archive of so many entries.
///
/// # Errors
///
/// `Memory` if an allocation fails.
fn total(alloc: Global, count: usize) -> Result<Vec<u8>, ProgramFault>
    ensures ok { IfOk result (λ text. text.items ≡ total count) }
    ensures err { IfErr result (λ fault. fault ≡ ProgramFault.Memory) }
{
    let mut text = String::new(alloc);
    if writeln!(text, "ok {count} entries").is_err() {
        return Err(ProgramFault::Memory);
    }
    Ok(text.into_bytes())
}

/// Returns the line of an archive.
#[inline(never)]
pub(crate) fn check<K: Item, V: Item>(
    alloc: Global,
    style: BytesStyle,
    archive: &[u8],
) -> Result<Vec<u8>, ProgramFault>
    requires { IsTrue (are_fitting K.kind V.kind 5) }
    ensures ok { IfOk result (λ text.
        ByValues K.Native.archival K.kind K.order K.value_at K.native_value
        V.Native.archival V.kind V.order V.value_at V.native_value (λ key_to value_to.
        Outputs K.kind V.kind (name_of (term.map K.term V.term 5))
        (items_by K.IsValue (K.spelling style) key_to) (items_by V.IsValue (V.spelling style) value_to)
        Check archive.now text.items 0)) }
    ensures err { IfErr result (λ fault.
        ByValues K.Native.archival K.kind K.order K.value_at K.native_value
        V.Native.archival V.kind V.order V.value_at V.native_value (λ key_to value_to.
        Fails K.kind V.kind (name_of (term.map K.term V.term 5))
        (items_by K.IsValue (K.spelling style) key_to) (items_by V.IsValue (V.spelling style) value_to)
        K.Native.archival V.Native.archival Check archive.now (Program fault))) }
{
    let _style = style;
    let map = match open::<K, V>(archive) {
        Ok(map) => map,
        Err(fault) => return Err(fault),
    };
    total(alloc, map.len())
}

/// Returns the line of an archive whose keys increase.
#[inline(never)]
pub(crate) fn check_strict<K: Item, V: Item>(
    alloc: Global,
    style: BytesStyle,
    archive: &[u8],
) -> Result<Vec<u8>, ProgramFault>
    requires { IsTrue (are_fitting K.kind V.kind 5) }
    ensures ok { IfOk result (λ text.
        ByValues K.Native.archival K.kind K.order K.value_at K.native_value
        V.Native.archival V.kind V.order V.value_at V.native_value (λ key_to value_to.
        Outputs K.kind V.kind (name_of (term.map K.term V.term 5))
        (items_by K.IsValue (K.spelling style) key_to) (items_by V.IsValue (V.spelling style) value_to)
        CheckStrict archive.now text.items 0)) }
    ensures err { IfErr result (λ fault.
        ByValues K.Native.archival K.kind K.order K.value_at K.native_value
        V.Native.archival V.kind V.order V.value_at V.native_value (λ key_to value_to.
        Fails K.kind V.kind (name_of (term.map K.term V.term 5))
        (items_by K.IsValue (K.spelling style) key_to) (items_by V.IsValue (V.spelling style) value_to)
        K.Native.archival V.Native.archival CheckStrict archive.now (Program fault))) }
{
    let _style = style;
    let count = match strict_count::<K, V>(archive) {
        Ok(count) => count,
        Err(fault) => return Err(fault),
    };
    total(alloc, count)
}
