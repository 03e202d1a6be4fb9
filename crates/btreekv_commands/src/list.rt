//! Archives that are listed entry by entry.
ghost use Rattle.std.specs.Prelude.{◌≡◌, ◌++◌, OnOk, IfErr};
ghost use Rattle.std.specs.Io.KnownBytes.{Appends, Keeps};
ghost use Rattle.std.specs.Iterator.{IsFinite};
ghost use Rattle.rkyv_btree_view.specs.View.{view_entry};
ghost use Rattle.btreearc_lines.specs.Faults.{IsWriteFault};
ghost use Rattle.btreekv_commands.specs.CsvRecords.{entry_row, rows_text, table_text};
ghost use Rattle.btreekv_commands.specs.Forms.{entry_line, text_in};
ghost use Rattle.btreekv_commands.specs.Json.{json_line, member, members};
ghost use Rattle.btreekv_commands.specs.List.{FailsToList, Lists, StreamsEntries};

use crate::csv_records::{Table, row_of};
use crate::forms::{Form, push_entry};
use crate::json_text::push_member;
use crate::opening::open;
use btreearc_lines::fault::ProgramFault;
use btreearc_lines::streams::write_all;
use rkyv_btree_portable::text::ArchivedText;
use rkyv_btree_view::view::View;
use std::alloc::Global;
use std::io::Write;

/// Flushes an output.
///
/// # Errors
///
/// `OutputFailed` if the writer fails.
fn flush<W: Write>(output: &mut W) -> Result<(), ProgramFault>
    ensures kept { Keeps (W.contents output.old) (W.contents output.new) }
    ensures err { IfErr result IsWriteFault }
{
    match output.flush() {
        Ok(()) => Ok(()),
        Err(_) => Err(ProgramFault::OutputFailed),
    }
}

/// Makes the line of an entry, in place of a buffer's old bytes.
///
/// # Errors
///
/// `OutputFailed` if an allocation fails.
fn make_line(line: &mut Vec<u8>, form: Form, key: &str, value: &str) -> Result<(), ProgramFault>
    ensures ok { OnOk result (line.new.items ≡ entry_line form (key.now, value.now)) }
    ensures err { IfErr result IsWriteFault }
{
    line.clear();
    match push_entry(line, form, key, value) {
        Ok(()) => Ok(()),
        Err(_) => Err(ProgramFault::OutputFailed),
    }
}

/// Makes a member of a JSON object with what separates it from the one before, in place of a buffer's old bytes.
///
/// # Errors
///
/// `OutputFailed` if an allocation fails.
fn make_member(
    text: &mut Vec<u8>,
    separator: &[u8],
    key: &str,
    value: &str,
) -> Result<(), ProgramFault>
    ensures ok { OnOk result (text.new.items ≡ separator.now ++ member (key.now, value.now)) }
    ensures err { IfErr result IsWriteFault }
{
    text.clear();
    match text.extend_from_slice(separator) {
        Ok(()) => {}
        Err(_) => return Err(ProgramFault::OutputFailed),
    }
    match push_member(text, key, value) {
        Ok(()) => Ok(()),
        Err(_) => Err(ProgramFault::OutputFailed),
    }
}

/// Writes each entry, in memory for one of them, and flushes.
///
/// # Errors
///
/// `OutputFailed` if the writer fails, or there is no memory for an entry.
fn stream_entries<
    'a,
    I: Iterator<Item = (View<'a, ArchivedText>, View<'a, ArchivedText>)>,
    W: Write,
>(alloc: Global, form: Form, mut entries: I, output: &mut W) -> Result<(), ProgramFault>
    requires can { I.can_next entries }
    requires ends { IsFinite (I.remaining entries) }
    ensures ok { OnOk result (StreamsEntries (text_in form) I.next_gives view_entry entries
        (W.contents output.old) (W.contents output.new)) }
    ensures err { IfErr result IsWriteFault }
{
    let mut line = Vec::new(alloc);
    while let Some((key, value)) = entries.next() {
        make_line(&mut line, form, key.as_str(), value.as_str())?;
        write_all(output, &line)?;
    }
    flush(output)?;
    Ok(())
}

/// Writes a member of a JSON object for each entry, with commas between.
///
/// # Errors
///
/// As of `stream_entries`.
fn stream_members<
    'a,
    I: Iterator<Item = (View<'a, ArchivedText>, View<'a, ArchivedText>)>,
    W: Write,
>(alloc: Global, mut entries: I, output: &mut W) -> Result<(), ProgramFault>
    requires can { I.can_next entries }
    requires ends { IsFinite (I.remaining entries) }
    ensures ok { OnOk result (StreamsEntries members I.next_gives view_entry entries
        (W.contents output.old) (W.contents output.new)) }
    ensures err { IfErr result IsWriteFault }
{
    let mut text = Vec::new(alloc);
    let mut separator: &[u8] = b"";
    while let Some((key, value)) = entries.next() {
        make_member(&mut text, separator, key.as_str(), value.as_str())?;
        write_all(output, &text)?;
        separator = b",";
    }
    Ok(())
}

/// Writes the record of two texts.
///
/// # Errors
///
/// `OutputFailed` if the writer fails, or there is no memory for the record.
fn write_row<W: Write>(
    alloc: Global,
    table: Table,
    key: &str,
    value: &str,
    output: &mut W,
) -> Result<(), ProgramFault>
    ensures ok { OnOk result (Appends (W.contents output.old) (W.contents output.new)
        (entry_row table (key.now, value.now))) }
    ensures err { IfErr result IsWriteFault }
{
    let Ok(row) = row_of(alloc, table, key, value) else {
        return Err(ProgramFault::OutputFailed);
    };
    write_all(output, &row)?;
    Ok(())
}

/// Writes a record for each entry.
///
/// # Errors
///
/// As of `stream_entries`.
fn stream_rows<'a, I: Iterator<Item = (View<'a, ArchivedText>, View<'a, ArchivedText>)>, W: Write>(
    alloc: Global,
    table: Table,
    mut entries: I,
    output: &mut W,
) -> Result<(), ProgramFault>
    requires can { I.can_next entries }
    requires ends { IsFinite (I.remaining entries) }
    ensures ok { OnOk result (StreamsEntries (rows_text table) I.next_gives view_entry entries
        (W.contents output.old) (W.contents output.new)) }
    ensures err { IfErr result IsWriteFault }
{
    while let Some((key, value)) = entries.next() {
        write_row(alloc, table, key.as_str(), value.as_str(), output)?;
    }
    Ok(())
}

/// Writes the entries of an archive, in their order. In memory is one of them at a time.
///
/// # Errors
///
/// As of `open`, and then nothing is written. `OutputFailed` if the writer fails, or there is no memory for an entry: how much was
/// written isn't known then.
pub fn list<W: Write>(
    alloc: Global,
    archive: &[u8],
    form: Form,
    output: &mut W,
) -> Result<(), ProgramFault>
    ensures ok { OnOk result
        (Lists (text_in form) archive.now (W.contents output.old) (W.contents output.new)) }
    ensures err { IfErr result
        (FailsToList archive.now (W.contents output.new ≡ W.contents output.old)) }
{
    let map = open(archive)?;
    stream_entries(alloc, form, map.iter(), output)?;
    Ok(())
}

/// Writes the line of the JSON object of an archive. In memory is one entry at a time.
///
/// # Errors
///
/// As of `list`.
pub fn list_object<W: Write>(
    alloc: Global,
    archive: &[u8],
    output: &mut W,
) -> Result<(), ProgramFault>
    ensures ok { OnOk result
        (Lists json_line archive.now (W.contents output.old) (W.contents output.new)) }
    ensures err { IfErr result
        (FailsToList archive.now (W.contents output.new ≡ W.contents output.old)) }
{
    let map = open(archive)?;
    write_all(output, b"{")?;
    stream_members(alloc, map.iter(), output)?;
    write_all(output, b"}\n")?;
    flush(output)?;
    Ok(())
}

/// Writes the table of the entries of an archive, in their order: the record `key,value`, and a record an entry. In memory is one of
/// them at a time.
///
/// # Errors
///
/// As of `list`.
pub fn list_table<W: Write>(
    alloc: Global,
    archive: &[u8],
    table: Table,
    output: &mut W,
) -> Result<(), ProgramFault>
    ensures ok { OnOk result
        (Lists (table_text table) archive.now (W.contents output.old) (W.contents output.new)) }
    ensures err { IfErr result
        (FailsToList archive.now (W.contents output.new ≡ W.contents output.old)) }
{
    let map = open(archive)?;
    write_row(alloc, table, "key", "value", output)?;
    stream_rows(alloc, table, map.iter(), output)?;
    flush(output)?;
    Ok(())
}
