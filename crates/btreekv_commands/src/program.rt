//! The commands over a reader and a writer.
ghost use Rattle.std.specs.Prelude.{◌≡◌, IfOk, IfErr, string_bytes};
ghost use Rattle.btreekv_commands.specs.Commands.{Does, Fails, FailsToBuild, FailsToRead, Outputs, total};
ghost use Rattle.btreekv_commands.specs.declared.command.Command.TheVariants.{Build, BuildFrom, BuildJson, BuildStrict, BuildSorted, BuildTable};
ghost use Rattle.btreekv_commands.specs.declared.command.Command.TheVariants.{Check, CheckStrict, First, Get, Last, Prefix, Range, Stat};

use crate::building;
use crate::command::Command;
use crate::csv_records::{Table, parse_table};
use crate::entries::{check_order, count_lines};
use crate::figures::figures_of;
use crate::forms::{Form, push_value};
use crate::json_objects::parse_object;
use crate::lines::parse_lines;
use crate::listing::{write_entries, written_entry};
use crate::opening::{open, strict_count};
use crate::prefixes::with_prefix;
use crate::records::{Records, parse_records};
use btreearc_lines::fault::ProgramFault;
use btreearc_lines::heading::Heading;
use btreearc_lines::streams::{read_all, write_all};
use std::alloc::Global;
use std::io::{Read, Write};
use std::ops::Bound;

/// Returns the line of an archive of so many entries.
///
/// # Errors
///
/// `Memory` if an allocation fails.
fn total(alloc: Global, count: usize) -> Result<String, ProgramFault>
    ensures ok { IfOk result (λ text. string_bytes text ≡ total count) }
    ensures err { IfErr result (λ fault. fault ≡ ProgramFault.Memory) }
{
    let mut text = String::new(alloc);
    if writeln!(text, "ok {count} entries").is_err() {
        return Err(ProgramFault::Memory);
    }
    Ok(text)
}

/// Returns the line of an archive.
fn check(alloc: Global, archive: &[u8]) -> Result<String, ProgramFault>
    ensures ok { IfOk result (λ text. Outputs Check archive.now (string_bytes text) 0) }
    ensures err { IfErr result (Fails Check archive.now) }
{
    let map = open(archive)?;
    total(alloc, map.len())
}

/// Returns the line of an archive whose keys increase.
fn check_strict(alloc: Global, archive: &[u8]) -> Result<String, ProgramFault>
    ensures ok { IfOk result (λ text. Outputs CheckStrict archive.now (string_bytes text) 0) }
    ensures err { IfErr result (Fails CheckStrict archive.now) }
{
    let count = strict_count(archive)?;
    total(alloc, count)
}

/// Returns the lines of the figures of an archive.
fn stat(alloc: Global, archive: &[u8]) -> Result<String, ProgramFault>
    ensures ok { IfOk result (λ text. Outputs Stat archive.now (string_bytes text) 0) }
    ensures err { IfErr result (Fails Stat archive.now) }
{
    let map = open(archive)?;
    figures_of(alloc, archive, map.pos, map.len())
}

/// Returns the first entry as it is written, or nothing and the status 1.
fn first(alloc: Global, archive: &[u8], form: Form) -> Result<(Vec<u8>, u8), ProgramFault>
    ensures ok { IfOk result (λ r. Outputs (First form) archive.now r.0.items r.1) }
    ensures err { IfErr result (Fails (First form) archive.now) }
{
    let map = open(archive)?;
    written_entry(alloc, map.first(), form)
}

/// Returns the last entry as it is written, or nothing and the status 1.
fn last(alloc: Global, archive: &[u8], form: Form) -> Result<(Vec<u8>, u8), ProgramFault>
    ensures ok { IfOk result (λ r. Outputs (Last form) archive.now r.0.items r.1) }
    ensures err { IfErr result (Fails (Last form) archive.now) }
{
    let map = open(archive)?;
    written_entry(alloc, map.last(), form)
}

/// Returns a key's value as it is written, or nothing and the status 1.
fn get(
    alloc: Global,
    archive: &[u8],
    key: &String,
    form: Form,
) -> Result<(Vec<u8>, u8), ProgramFault>
    ensures ok { IfOk result (λ r. Outputs (Get key.now form) archive.now r.0.items r.1) }
    ensures err { IfErr result (Fails (Get key.now form) archive.now) }
{
    let map = open(archive)?;
    let mut out = Vec::new(alloc);
    match map.get_by(key.as_str()) {
        None => Ok((out, 1)),
        Some(value) => match push_value(&mut out, form, value.as_str()) {
            Ok(()) => Ok((out, 0)),
            Err(_) => Err(ProgramFault::Memory),
        },
    }
}

/// Returns the entries of the keys from one to another as they are written.
fn range(
    alloc: Global,
    archive: &[u8],
    low: &String,
    high: &String,
    form: Form,
) -> Result<Vec<u8>, ProgramFault>
    ensures ok { IfOk result (λ text.
        Outputs (Range low.now high.now form) archive.now text.items 0) }
    ensures err { IfErr result (Fails (Range low.now high.now form) archive.now) }
{
    let map = open(archive)?;
    let entries = map.range_by(
        Bound::Included(low.as_str()),
        Bound::Included(high.as_str()),
    );
    let mut text = Vec::new(alloc);
    match write_entries(&mut text, form, entries) {
        Ok(()) => Ok(text),
        Err(_) => Err(ProgramFault::Memory),
    }
}

/// Returns the entries of the keys that begin with a text as they are written.
fn prefix(
    alloc: Global,
    archive: &[u8],
    prefix: &String,
    form: Form,
) -> Result<Vec<u8>, ProgramFault>
    ensures ok { IfOk result (λ text.
        Outputs (Prefix prefix.now form) archive.now text.items 0) }
    ensures err { IfErr result (Fails (Prefix prefix.now form) archive.now) }
{
    let map = open(archive)?;
    let entries = with_prefix(map, prefix.as_str());
    let mut text = Vec::new(alloc);
    match write_entries(&mut text, form, entries) {
        Ok(()) => Ok(text),
        Err(_) => Err(ProgramFault::Memory),
    }
}

/// Returns the archive of lines, in their order.
fn build(alloc: Global, heading: Heading, text: &[u8]) -> Result<Vec<u8>, ProgramFault>
    ensures ok { IfOk result (λ bytes. Outputs (Build heading) text.now bytes.items 0) }
    ensures err { IfErr result (Fails (Build heading) text.now) }
{
    let mut lines = text;
    match count_lines(alloc, &mut lines) {
        Ok(count) => building::archive(alloc, heading, text, count),
        Err(fault) => Err(fault),
    }
}

/// Returns the archive of lines whose keys increase.
fn build_strict(alloc: Global, heading: Heading, text: &[u8]) -> Result<Vec<u8>, ProgramFault>
    ensures ok { IfOk result (λ bytes. Outputs (BuildStrict heading) text.now bytes.items 0) }
    ensures err { IfErr result (Fails (BuildStrict heading) text.now) }
{
    let mut lines = text;
    let count = match count_lines(alloc, &mut lines) {
        Ok(count) => count,
        Err(fault) => return Err(fault),
    };
    match check_order(alloc, text, count) {
        Ok(()) => building::archive(alloc, heading, text, count),
        Err(fault) => Err(fault),
    }
}

/// Returns the archive of lines in increasing order of their keys.
fn build_sorted(alloc: Global, heading: Heading, text: &[u8]) -> Result<Vec<u8>, ProgramFault>
    ensures ok { IfOk result (λ bytes. Outputs (BuildSorted heading) text.now bytes.items 0) }
    ensures err { IfErr result (Fails (BuildSorted heading) text.now) }
{
    let entries = parse_lines(alloc, text)?;
    building::sorted_archive(alloc, heading, entries)
}

/// Returns the archive of records in increasing order of their keys.
fn build_from(
    alloc: Global,
    form: Records,
    heading: Heading,
    text: &[u8],
) -> Result<Vec<u8>, ProgramFault>
    ensures ok { IfOk result (λ bytes.
        Outputs (BuildFrom form heading) text.now bytes.items 0) }
    ensures err { IfErr result (Fails (BuildFrom form heading) text.now) }
{
    let entries = parse_records(alloc, form, text)?;
    building::sorted_archive(alloc, heading, entries)
}

/// Returns the archive of a table in increasing order of its keys.
fn build_table(
    alloc: Global,
    table: Table,
    heading: Heading,
    text: &[u8],
) -> Result<Vec<u8>, ProgramFault>
    ensures ok { IfOk result (λ bytes.
        Outputs (BuildTable table heading) text.now bytes.items 0) }
    ensures err { IfErr result (Fails (BuildTable table heading) text.now) }
{
    let entries = parse_table(alloc, table, text)?;
    building::sorted_archive(alloc, heading, entries)
}

/// Returns the archive of the members of a JSON object in increasing order of their keys.
fn build_json(alloc: Global, heading: Heading, text: &[u8]) -> Result<Vec<u8>, ProgramFault>
    ensures ok { IfOk result (λ bytes. Outputs (BuildJson heading) text.now bytes.items 0) }
    ensures err { IfErr result (Fails (BuildJson heading) text.now) }
{
    let Some(entries) = parse_object(alloc, text)? else {
        return Err(ProgramFault::Line(1));
    };
    building::sorted_archive(alloc, heading, entries)
}

/// Returns what a command writes of an input, and its status.
fn output_of(alloc: Global, command: &Command, input: &[u8]) -> Result<(Vec<u8>, u8), ProgramFault>
    ensures ok { IfOk result (λ r. Outputs command.now input.now r.0.items r.1) }
    ensures err { IfErr result (Fails command.now input.now) }
{
    match command {
        Command::Build(heading) => Ok((build(alloc, *heading, input)?, 0)),
        Command::BuildStrict(heading) => Ok((build_strict(alloc, *heading, input)?, 0)),
        Command::BuildSorted(heading) => Ok((build_sorted(alloc, *heading, input)?, 0)),
        Command::BuildFrom(form, heading) => { Ok((build_from(alloc, *form, *heading, input)?, 0)) }
        Command::BuildTable(table, heading) => {
            Ok((build_table(alloc, *table, *heading, input)?, 0))
        }
        Command::BuildJson(heading) => Ok((build_json(alloc, *heading, input)?, 0)),
        Command::Check => Ok((check(alloc, input)?.into_bytes(), 0)),
        Command::CheckStrict => Ok((check_strict(alloc, input)?.into_bytes(), 0)),
        Command::Stat => Ok((stat(alloc, input)?.into_bytes(), 0)),
        Command::First(form) => first(alloc, input, *form),
        Command::Last(form) => last(alloc, input, *form),
        Command::Get(key, form) => get(alloc, input, key, *form),
        Command::Range(low, high, form) => Ok((range(alloc, input, low, high, *form)?, 0)),
        Command::Prefix(text, form) => Ok((prefix(alloc, input, text, *form)?, 0)),
    }
}

/// Runs a command, and returns the exit status. Nothing is written before all of the input is read and tested, and all of
/// the output is made.
///
/// # Errors
///
/// `Line`, `Refused`, `Misheaded` and `NotBuilt` as the command has them. `InputFailed` and `OutputFailed` if the reader or the writer
/// fails, and `Memory` if an allocation fails. An error leaves the output as it was, except for `OutputFailed`.
pub fn run<R: Read, W: Write>(
    alloc: Global,
    command: &Command,
    input: &mut R,
    output: &mut W,
) -> Result<u8, ProgramFault>
    ensures { Does command.now (R.remaining input.old) (W.contents output.old)
        (W.contents output.new) result }
{
    let bytes = read_all(alloc, input)?;
    let (text, status) = output_of(alloc, command, &bytes)?;
    write_all(output, &text)?;
    Ok(status)
}
