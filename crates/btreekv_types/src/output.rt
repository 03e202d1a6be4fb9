//! What the commands over typed maps write of known bytes.
ghost use Rattle.std.specs.Prelude.{◌≡◌, IfErr, IfOk, IsTrue, Some, map};
ghost use Rattle.rkyv_btree_format.specs.Layout.{are_fitting};
ghost use Rattle.rkyv_btree_typed.specs.TypeNames.{name_of};
ghost use Rattle.rkyv_btree_typed.specs.TypeNames as term;
ghost use Rattle.btreekv_types.specs.Commands.{Does, Fails, IsMadeFirst, Outputs};
ghost use Rattle.btreekv_types.specs.Typed.{ByValues, items_by};
ghost use Rattle.btreekv_types.specs.declared.command.TypedCommand.TheVariants.{Build};

use crate::building::archive;
use crate::changing::{merge, set};
use crate::command::{Order, TypedCommand};
use crate::differing::diff;
use crate::fault::TypedFault;
use crate::listing::{list, range};
use crate::prefixed::prefix;
use crate::reading::{check, check_strict, first, get, last};
use crate::source::{Source, parse_entries};
use crate::updating::update;
use btreearc_lines::fault::ProgramFault;
use btreearc_lines::heading::Heading;
use btreearc_lines::streams::write_all;
use btreekv_items::item::{BytesStyle, Item};
use std::alloc::Global;
use std::io::Write;

/// Returns the archive of the entries of a text.
fn build<K: Item, V: Item>(
    alloc: Global,
    style: BytesStyle,
    source: Source,
    order: Order,
    heading: Heading,
    text: &[u8],
) -> Result<Vec<u8>, TypedFault>
    requires { IsTrue (are_fitting K.kind V.kind 5) }
    ensures ok { IfOk result (λ bytes.
        ByValues K.Native.archival K.kind K.order K.value_at K.native_value
        V.Native.archival V.kind V.order V.value_at V.native_value (λ key_to value_to.
        Outputs K.kind V.kind (name_of (term.map K.term V.term 5))
        (items_by K.IsValue (K.spelling style) key_to) (items_by V.IsValue (V.spelling style) value_to)
        (Build source order heading) text.now bytes.items 0)) }
    ensures err { IfErr result (λ fault.
        ByValues K.Native.archival K.kind K.order K.value_at K.native_value
        V.Native.archival V.kind V.order V.value_at V.native_value (λ key_to value_to.
        Fails K.kind V.kind (name_of (term.map K.term V.term 5))
        (items_by K.IsValue (K.spelling style) key_to) (items_by V.IsValue (V.spelling style) value_to)
        K.Native.archival V.Native.archival (Build source order heading) text.now fault)) }
{
    let entries = match parse_entries(alloc, source, text) {
        Ok(entries) => entries,
        Err(fault) => return Err(TypedFault::Program(fault)),
    };
    archive::<K, V>(alloc, style, order, heading, entries.as_slice())
}

/// Returns what a command over maps of two types writes of an input, and its status, if it makes its output first.
#[inline(never)]
fn output_of<K: Item, V: Item>(
    alloc: Global,
    style: BytesStyle,
    command: &TypedCommand,
    input: &[u8],
) -> Result<(Vec<u8>, u8), TypedFault>
    requires fit { IsTrue (are_fitting K.kind V.kind 5) }
    requires made { IsMadeFirst command.now }
    ensures ok { IfOk result (λ r.
        ByValues K.Native.archival K.kind K.order K.value_at K.native_value
        V.Native.archival V.kind V.order V.value_at V.native_value (λ key_to value_to.
        Outputs K.kind V.kind (name_of (term.map K.term V.term 5))
        (items_by K.IsValue (K.spelling style) key_to) (items_by V.IsValue (V.spelling style) value_to)
        command.now input.now r.0.items r.1)) }
    ensures err { IfErr result (λ fault.
        ByValues K.Native.archival K.kind K.order K.value_at K.native_value
        V.Native.archival V.kind V.order V.value_at V.native_value (λ key_to value_to.
        Fails K.kind V.kind (name_of (term.map K.term V.term 5))
        (items_by K.IsValue (K.spelling style) key_to) (items_by V.IsValue (V.spelling style) value_to)
        K.Native.archival V.Native.archival command.now input.now fault)) }
{
    match command {
        TypedCommand::Build(source, order, heading) => {
            match build::<K, V>(alloc, style, *source, *order, *heading, input) {
                Ok(bytes) => Ok((bytes, 0)),
                Err(fault) => Err(fault),
            }
        }
        TypedCommand::Check => match check::<K, V>(alloc, style, input) {
            Ok(text) => Ok((text, 0)),
            Err(fault) => Err(TypedFault::Program(fault)),
        },
        TypedCommand::CheckStrict => match check_strict::<K, V>(alloc, style, input) {
            Ok(text) => Ok((text, 0)),
            Err(fault) => Err(TypedFault::Program(fault)),
        },
        TypedCommand::First(form) => match first::<K, V>(alloc, style, *form, input) {
            Ok(output) => Ok(output),
            Err(fault) => Err(TypedFault::Program(fault)),
        },
        TypedCommand::Last(form) => match last::<K, V>(alloc, style, *form, input) {
            Ok(output) => Ok(output),
            Err(fault) => Err(TypedFault::Program(fault)),
        },
        TypedCommand::Get(key, form) => get::<K, V>(alloc, style, key, *form, input),
        TypedCommand::Set(key, value) => match set::<K, V>(alloc, style, key, value, input) {
            Ok(bytes) => Ok((bytes, 0)),
            Err(fault) => Err(fault),
        },
        TypedCommand::Merge(others) => match merge::<K, V>(alloc, style, others.as_slice(), input) {
            Ok(bytes) => Ok((bytes, 0)),
            Err(fault) => Err(fault),
        },
        TypedCommand::Update(order, lines) => {
            match update::<K, V>(alloc, style, *order, lines.as_slice(), input) {
                Ok(bytes) => Ok((bytes, 0)),
                Err(fault) => Err(fault),
            }
        }
        TypedCommand::Diff(other) => match diff::<K, V>(alloc, style, other.as_slice(), input) {
            Ok(text) => Ok((text, 0)),
            Err(fault) => Err(fault),
        },
        TypedCommand::List(_) | TypedCommand::Range(..) | TypedCommand::Prefix(..) =>
            unreachable!(),
    }
}

/// Runs a command that makes its output first over an input, as a map of two types, and returns the exit status.
fn write_output<W: Write, K: Item, V: Item>(
    alloc: Global,
    style: BytesStyle,
    command: &TypedCommand,
    input: &[u8],
    output: &mut W,
) -> Result<u8, TypedFault>
    requires fit { IsTrue (are_fitting K.kind V.kind 5) }
    requires made { IsMadeFirst command.now }
    ensures { ByValues K.Native.archival K.kind K.order K.value_at K.native_value
        V.Native.archival V.kind V.order V.value_at V.native_value (λ key_to value_to.
        Does K.kind V.kind (name_of (term.map K.term V.term 5))
        (items_by K.IsValue (K.spelling style) key_to) (items_by V.IsValue (V.spelling style) value_to)
        K.Native.archival V.Native.archival command.now (Some input.now)
        (W.contents output.old) (W.contents output.new) result) }
{
    let (text, status) = match output_of::<K, V>(alloc, style, command, input) {
        Ok(made) => made,
        Err(fault) => return Err(fault),
    };
    match write_all(output, &text) {
        Ok(()) => Ok(status),
        Err(fault) => Err(TypedFault::Program(fault)),
    }
}

/// Runs a command over an input, as a map of two types, and returns the exit status.
#[inline(never)]
pub(crate) fn run_of<W: Write, K: Item, V: Item>(
    alloc: Global,
    style: BytesStyle,
    command: &TypedCommand,
    input: &[u8],
    output: &mut W,
) -> Result<u8, TypedFault>
    requires { IsTrue (are_fitting K.kind V.kind 5) }
    ensures { ByValues K.Native.archival K.kind K.order K.value_at K.native_value
        V.Native.archival V.kind V.order V.value_at V.native_value (λ key_to value_to.
        Does K.kind V.kind (name_of (term.map K.term V.term 5))
        (items_by K.IsValue (K.spelling style) key_to) (items_by V.IsValue (V.spelling style) value_to)
        K.Native.archival V.Native.archival command.now (Some input.now)
        (W.contents output.old) (W.contents output.new) result) }
{
    match command {
        TypedCommand::List(form) => list::<W, K, V>(alloc, style, *form, input, output),
        TypedCommand::Range(low, high, form) => {
            range::<W, K, V>(alloc, style, low, high, *form, input, output)
        }
        TypedCommand::Prefix(text, form) => {
            prefix::<W, K, V>(alloc, style, text, *form, input, output)
        }
        _ => write_output::<W, K, V>(alloc, style, command, input, output),
    }
}
