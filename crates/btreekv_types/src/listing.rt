//! The entries of typed archives, written one by one.
ghost use Rattle.std.specs.Prelude.{◌≡◌, IfErr, IfOk, IsTrue, OnOk, Some, string_bytes};
ghost use Rattle.std.specs.Iterator.{IsFinite};
ghost use Rattle.rkyv_btree_format.specs.Layout.{are_fitting};
ghost use Rattle.rkyv_btree_typed.specs.TypeNames.{name_of};
ghost use Rattle.rkyv_btree_typed.specs.TypeNames as term;
ghost use Rattle.btreearc_lines.specs.Faults.{IsWriteFault};
ghost use Rattle.btreekv_commands.specs.List.{StreamsEntries};
ghost use Rattle.btreekv_types.specs.Commands.{Does};
ghost use Rattle.btreekv_types.specs.Listing.{list_body, list_item, list_text};
ghost use Rattle.btreekv_types.specs.Typed.{ByValues, items_by, texts_shown};
ghost use Rattle.btreekv_types.specs.declared.command.TypedCommand.TheVariants.{List as ListEntries, Range};

use crate::fault::TypedFault;
use crate::list_form::ListForm;
use crate::natives::native_of;
use crate::reading::open;
use btreearc_lines::fault::ProgramFault;
use btreearc_lines::streams::write_all;
use btreekv_commands::forms::Form;
use btreekv_items::item::{BytesStyle, Item};
use rkyv_btree_view::view::View;
use std::alloc::{AllocError, Global};
use std::io::Write;
use std::ops::Bound;

/// Memory for the texts of one entry, and for what is written of it.
#[derive(Drop)]
pub(crate) struct Buffers {
    pub key: String,
    pub value: String,
    pub item: Vec<u8>,
}

/// Returns memory in which nothing is made.
pub(crate) fn no_buffers(alloc: Global) -> Buffers {
    Buffers {
        key: String::new(alloc),
        value: String::new(alloc),
        item: Vec::new(alloc),
    }
}

/// Makes the texts of an entry, in place of those before.
///
/// # Errors
///
/// Where a text finds no room.
pub(crate) fn make_texts<K: Item, V: Item>(
    style: BytesStyle,
    key: &View<'_, K>,
    value: &View<'_, V>,
    buffers: &mut Buffers,
) -> Result<(), AllocError>
    ensures { OnOk result ((string_bytes buffers.new.key, string_bytes buffers.new.value)
        ≡ texts_shown (K.spelling style) K.value_at (V.spelling style) V.value_at (key.now, value.now)) }
{
    buffers.key.clear();
    buffers.value.clear();
    K::push_text(&mut buffers.key, style, key)?;
    V::push_text(&mut buffers.value, style, value)
}

/// Makes what is written of an entry whose texts are made, in place of the one before.
///
/// # Errors
///
/// Where it finds no room.
fn make_item(
    alloc: Global,
    form: ListForm,
    is_first: bool,
    buffers: &mut Buffers,
) -> Result<(), AllocError>
    ensures { OnOk result (buffers.new.item.items
        ≡ list_item form is_first (string_bytes buffers.old.key, string_bytes buffers.old.value)) }
{
    buffers.item.clear();
    let (key, value) = (buffers.key.as_str(), buffers.value.as_str());
    form.push_item(alloc, &mut buffers.item, is_first, key, value)
}

/// Writes each entry of an iterator, in memory for one of them.
///
/// # Errors
///
/// `OutputFailed` if the writer fails, or there is no memory for an entry.
fn stream<'a, W: Write, K: Item, V: Item, I: Iterator<Item = (View<'a, K>, View<'a, V>)>>(
    alloc: Global,
    style: BytesStyle,
    form: ListForm,
    mut entries: I,
    output: &mut W,
) -> Result<(), ProgramFault>
    requires can { I.can_next entries }
    requires ends { IsFinite (I.remaining entries) }
    ensures ok { OnOk result (StreamsEntries (list_body form) I.next_gives
        (texts_shown (K.spelling style) K.value_at (V.spelling style) V.value_at) entries
        (W.contents output.old) (W.contents output.new)) }
    ensures err { IfErr result IsWriteFault }
{
    let mut buffers = no_buffers(alloc);
    let mut is_first = true;
    while let Some((key, value)) = entries.next() {
        match make_texts::<K, V>(style, &key, &value, &mut buffers) {
            Ok(()) => {}
            Err(_) => return Err(ProgramFault::OutputFailed),
        }
        match make_item(alloc, form, is_first, &mut buffers) {
            Ok(()) => {}
            Err(_) => return Err(ProgramFault::OutputFailed),
        }
        write_all(output, &buffers.item)?;
        is_first = false;
    }
    Ok(())
}

/// Writes the list of the entries of an iterator.
///
/// # Errors
///
/// As of `stream`.
fn stream_list<'a, W: Write, K: Item, V: Item, I: Iterator<Item = (View<'a, K>, View<'a, V>)>>(
    alloc: Global,
    style: BytesStyle,
    form: ListForm,
    entries: I,
    output: &mut W,
) -> Result<(), ProgramFault>
    requires can { I.can_next entries }
    requires ends { IsFinite (I.remaining entries) }
    ensures ok { OnOk result (StreamsEntries (list_text form) I.next_gives
        (texts_shown (K.spelling style) K.value_at (V.spelling style) V.value_at) entries
        (W.contents output.old) (W.contents output.new)) }
    ensures err { IfErr result IsWriteFault }
{
    let mut start = Vec::new(alloc);
    match form.push_start(alloc, &mut start) {
        Ok(()) => {}
        Err(_) => return Err(ProgramFault::OutputFailed),
    }
    write_all(output, &start)?;
    stream::<W, K, V, I>(alloc, style, form, entries, output)?;
    write_all(output, form.end())?;
    Ok(())
}

/// Writes the list of the entries of an iterator, and returns the exit status.
///
/// # Errors
///
/// As of `stream`.
#[inline(never)]
fn write_list<'a, W: Write, K: Item, V: Item, I: Iterator<Item = (View<'a, K>, View<'a, V>)>>(
    alloc: Global,
    style: BytesStyle,
    form: ListForm,
    entries: I,
    output: &mut W,
) -> Result<u8, TypedFault>
    requires can { I.can_next entries }
    requires ends { IsFinite (I.remaining entries) }
    ensures ok { IfOk result (λ status. (status ≡ 0) × StreamsEntries (list_text form) I.next_gives
        (texts_shown (K.spelling style) K.value_at (V.spelling style) V.value_at) entries
        (W.contents output.old) (W.contents output.new)) }
    ensures err { IfErr result (λ fault. fault ≡ TypedFault.Program ProgramFault.OutputFailed) }
{
    match stream_list::<W, K, V, I>(alloc, style, form, entries, output) {
        Ok(()) => Ok(0),
        Err(_) => Err(TypedFault::Program(ProgramFault::OutputFailed)),
    }
}

/// Writes the entries of an archive, in their order, and returns the exit status. In memory is one of them at a time.
///
/// # Errors
///
/// As of `open`, and then nothing is written. `OutputFailed` if the writer fails, or there is no memory for an entry: how much was
/// written isn't known then.
pub(crate) fn list<W: Write, K: Item, V: Item>(
    alloc: Global,
    style: BytesStyle,
    form: ListForm,
    archive: &[u8],
    output: &mut W,
) -> Result<u8, TypedFault>
    requires { IsTrue (are_fitting K.kind V.kind 5) }
    ensures { ByValues K.Native.archival K.kind K.order K.value_at K.native_value
        V.Native.archival V.kind V.order V.value_at V.native_value (λ key_to value_to.
        Does K.kind V.kind (name_of (term.map K.term V.term 5))
        (items_by K.IsValue (K.spelling style) key_to) (items_by V.IsValue (V.spelling style) value_to)
        K.Native.archival V.Native.archival (ListEntries form) (Some archive.now)
        (W.contents output.old) (W.contents output.new) result) }
{
    let map = match open::<K, V>(archive) {
        Ok(map) => map,
        Err(fault) => return Err(TypedFault::Program(fault)),
    };
    write_list::<W, K, V, _>(alloc, style, form, map.iter(), output)
}

/// Writes the entries of the keys from one to another, in the order of the archive, and returns the exit status. In memory is one of them
/// at a time.
///
/// # Errors
///
/// `NoLow` and `NoHigh` if a word is no text of the type of keys, and those of `list`.
pub(crate) fn range<W: Write, K: Item, V: Item>(
    alloc: Global,
    style: BytesStyle,
    low: &String,
    high: &String,
    form: Form,
    archive: &[u8],
    output: &mut W,
) -> Result<u8, TypedFault>
    requires { IsTrue (are_fitting K.kind V.kind 5) }
    ensures { ByValues K.Native.archival K.kind K.order K.value_at K.native_value
        V.Native.archival V.kind V.order V.value_at V.native_value (λ key_to value_to.
        Does K.kind V.kind (name_of (term.map K.term V.term 5))
        (items_by K.IsValue (K.spelling style) key_to) (items_by V.IsValue (V.spelling style) value_to)
        K.Native.archival V.Native.archival (Range low.now high.now form) (Some archive.now)
        (W.contents output.old) (W.contents output.new) result) }
{
    let low = match native_of::<K>(alloc, style, low.as_str()) {
        Ok(Some(key)) => key,
        Ok(None) => return Err(TypedFault::NoLow),
        Err(fault) => return Err(fault),
    };
    let high = match native_of::<K>(alloc, style, high.as_str()) {
        Ok(Some(key)) => key,
        Ok(None) => return Err(TypedFault::NoHigh),
        Err(fault) => return Err(fault),
    };
    let map = match open::<K, V>(archive) {
        Ok(map) => map,
        Err(fault) => return Err(TypedFault::Program(fault)),
    };
    let compare = |key: &K::Native, view: View<K>| K::compare_native(key, &view);
    let entries = map.range_with(Bound::Included(&low), Bound::Included(&high), compare);
    write_list::<W, K, V, _>(alloc, style, ListForm::Lines(form), entries, output)
}
