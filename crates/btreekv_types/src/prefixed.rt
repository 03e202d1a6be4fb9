//! The entries of an archive whose keys' texts begin with a text, written one by one.
ghost use Rattle.std.specs.Iterator.{IsFinite};
ghost use Rattle.std.specs.Prelude.{◌≡◌, ◌++◌, ◌∷◌, [], IfErr, IfOk, IsTrue, OnOk, Some, string_bytes};
ghost use Rattle.rkyv_btree_format.specs.Layout.{are_fitting};
ghost use Rattle.rkyv_btree_typed.specs.TypeNames.{name_of};
ghost use Rattle.rkyv_btree_typed.specs.TypeNames as term;
ghost use Rattle.btreearc_lines.specs.Faults.{IsWriteFault};
ghost use Rattle.btreekv_commands.specs.List.{StreamsEntries};
ghost use Rattle.btreekv_types.specs.Commands.{Does};
ghost use Rattle.btreekv_types.specs.Listing.{prefixed_text};
ghost use Rattle.btreekv_types.specs.Typed.{ByValues, items_by, texts_shown};
ghost use Rattle.btreekv_types.specs.declared.command.TypedCommand.TheVariants.{Prefix};

use crate::fault::TypedFault;
use crate::listing::{Buffers, make_texts, no_buffers};
use crate::reading::open;
use btreearc_lines::fault::ProgramFault;
use btreearc_lines::streams::write_all;
use btreekv_commands::forms::{Form, push_entry};
use btreekv_items::item::{BytesStyle, Item};
use rkyv_btree_view::view::View;
use std::alloc::{AllocError, Global};
use std::io::Write;

/// Writes an entry at the end, if its key begins with a text.
///
/// # Errors
///
/// Where the entry finds no room.
fn push_prefixed(
    out: &mut Vec<u8>,
    prefix: &str,
    form: Form,
    key: &str,
    value: &str,
) -> Result<(), AllocError>
    ensures { OnOk result (out.new.items ≡ out.old.items
        ++ prefixed_text prefix.now form ((key.now, value.now) ∷ [])) }
{
    if !key.as_bytes().starts_with(prefix.as_bytes()) {
        return Ok(());
    }
    push_entry(out, form, key, value)
}

/// Makes what is written of an entry whose texts are made, in place of the one before: nothing if its key doesn't begin with a text.
///
/// # Errors
///
/// Where it finds no room.
fn make_prefixed(prefix: &str, form: Form, buffers: &mut Buffers) -> Result<(), AllocError>
    ensures { OnOk result (buffers.new.item.items
        ≡ prefixed_text prefix.now form ((string_bytes buffers.old.key, string_bytes buffers.old.value) ∷ [])) }
{
    buffers.item.clear();
    let (key, value) = (buffers.key.as_str(), buffers.value.as_str());
    push_prefixed(&mut buffers.item, prefix, form, key, value)
}

/// Writes each entry of an iterator whose key's text begins with a text, in memory for one of them.
///
/// # Errors
///
/// `OutputFailed` if the writer fails, or there is no memory for an entry.
fn stream<'a, W: Write, K: Item, V: Item, I: Iterator<Item = (View<'a, K>, View<'a, V>)>>(
    alloc: Global,
    style: BytesStyle,
    prefix: &str,
    form: Form,
    mut entries: I,
    output: &mut W,
) -> Result<(), ProgramFault>
    requires can { I.can_next entries }
    requires ends { IsFinite (I.remaining entries) }
    ensures ok { OnOk result (StreamsEntries (prefixed_text prefix.now form) I.next_gives
        (texts_shown (K.spelling style) K.value_at (V.spelling style) V.value_at) entries
        (W.contents output.old) (W.contents output.new)) }
    ensures err { IfErr result IsWriteFault }
{
    let mut buffers = no_buffers(alloc);
    while let Some((key, value)) = entries.next() {
        match make_texts::<K, V>(style, &key, &value, &mut buffers) {
            Ok(()) => {}
            Err(_) => return Err(ProgramFault::OutputFailed),
        }
        match make_prefixed(prefix, form, &mut buffers) {
            Ok(()) => {}
            Err(_) => return Err(ProgramFault::OutputFailed),
        }
        write_all(output, &buffers.item)?;
    }
    Ok(())
}

/// Writes each entry of an iterator whose key's text begins with a text, and returns the exit status.
///
/// # Errors
///
/// As of `stream`.
#[inline(never)]
fn write_prefixed<'a, W: Write, K: Item, V: Item, I: Iterator<Item = (View<'a, K>, View<'a, V>)>>(
    alloc: Global,
    style: BytesStyle,
    prefix: &str,
    form: Form,
    entries: I,
    output: &mut W,
) -> Result<u8, TypedFault>
    requires can { I.can_next entries }
    requires ends { IsFinite (I.remaining entries) }
    ensures ok { IfOk result (λ status. (status ≡ 0) × StreamsEntries (prefixed_text prefix.now form) I.next_gives
        (texts_shown (K.spelling style) K.value_at (V.spelling style) V.value_at) entries
        (W.contents output.old) (W.contents output.new)) }
    ensures err { IfErr result (λ fault. fault ≡ TypedFault.Program ProgramFault.OutputFailed) }
{
    match stream::<W, K, V, I>(alloc, style, prefix, form, entries, output) {
        Ok(()) => Ok(0),
        Err(_) => Err(TypedFault::Program(ProgramFault::OutputFailed)),
    }
}

/// Writes the entries whose keys' texts begin with a text, in the order of the archive, and returns the exit status. In memory is one of
/// them at a time.
///
/// # Errors
///
/// As of a list.
pub(crate) fn prefix<W: Write, K: Item, V: Item>(
    alloc: Global,
    style: BytesStyle,
    prefix: &String,
    form: Form,
    archive: &[u8],
    output: &mut W,
) -> Result<u8, TypedFault>
    requires { IsTrue (are_fitting K.kind V.kind 5) }
    ensures { ByValues K.Native.archival K.kind K.order K.value_at K.native_value
        V.Native.archival V.kind V.order V.value_at V.native_value (λ key_to value_to.
        Does K.kind V.kind (name_of (term.map K.term V.term 5))
        (items_by K.IsValue (K.spelling style) key_to) (items_by V.IsValue (V.spelling style) value_to)
        K.Native.archival V.Native.archival (Prefix prefix.now form) (Some archive.now)
        (W.contents output.old) (W.contents output.new) result) }
{
    let map = match open::<K, V>(archive) {
        Ok(map) => map,
        Err(fault) => return Err(TypedFault::Program(fault)),
    };
    write_prefixed::<W, K, V, _>(alloc, style, prefix.as_str(), form, map.iter(), output)
}
