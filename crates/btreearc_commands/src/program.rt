//! The commands over a reader and a writer.
ghost use Rattle.std.specs.Prelude.{◌≡◌, ℕ, codes, Err, OnOk};
ghost use Rattle.std.specs.Io.KnownBytes.{IsAtEnd};
ghost use Rattle.btreearc_commands.specs.Commands.{Builds, Lists, Checks, Gets, Ranges, Sets, BuildsStrict, ChecksStrict, Migrates};
ghost use Rattle.btreearc_commands.specs.Streaming.{BuildsSo};
ghost use Rattle.btreearc_lines.specs.Words.{IsWord, IsWordAndNumber, IsWordAndNumbers, IsNoCommand, NamesBuild};
ghost use Rattle.btreearc_lines.specs.declared.heading.Heading.{Heading};

use crate::build;
use crate::listing::write_entries;
use crate::migrating::{migrated, strict_count};
use crate::opening::{open, tested_heading};
use crate::setting::set_value;
use btreearc_lines::command::Command;
use btreearc_lines::fault::ProgramFault;
use btreearc_lines::heading::Heading;
use btreearc_lines::streams::{read_all, write_all};
use std::alloc::Global;
use std::io::{Read, Write};
use std::ops::Bound;

/// Runs the command that the words name, and gives the exit status.
///
/// # Errors
///
/// `Usage` where the words name no command, and then nothing is read. Each command names its own. Nothing is written
/// before all of the input is read and tested and all of the output is made. So an error leaves the output as it was,
/// except for `OutputFailed`.
pub fn run<R: Read, W: Write>(
    alloc: Global,
    args: &[String],
    input: &mut R,
    output: &mut W,
) -> Result<u8, ProgramFault>
    ensures build { (heading : Heading) → NamesBuild (codes "build") args.now heading →
        Builds heading (R.remaining input.old) (W.contents output.old) (W.contents output.new)
        result }
    ensures list { IsWord (codes "list") args.now →
        Lists (R.remaining input.old) (W.contents output.old) (W.contents output.new) result }
    ensures check { IsWord (codes "check") args.now →
        Checks (R.remaining input.old) (W.contents output.old) (W.contents output.new) result }
    ensures get { (key : ℕ) → IsWordAndNumber (codes "get") key args.now →
        Gets key (R.remaining input.old) (W.contents output.old) (W.contents output.new) result }
    ensures range { (low high : ℕ) → IsWordAndNumbers (codes "range") low high args.now →
        Ranges low high (R.remaining input.old) (W.contents output.old) (W.contents output.new)
        result }
    ensures set { (key value : ℕ) → IsWordAndNumbers (codes "set") key value args.now →
        Sets key value (R.remaining input.old) (W.contents output.old) (W.contents output.new)
        result }
    ensures build_strict { (heading : Heading) → NamesBuild (codes "build-strict") args.now heading →
        BuildsStrict heading (R.remaining input.old) (W.contents output.old)
        (W.contents output.new) result }
    ensures check_strict { IsWord (codes "check-strict") args.now →
        ChecksStrict (R.remaining input.old) (W.contents output.old) (W.contents output.new)
        result }
    ensures migrate { IsWord (codes "migrate") args.now →
        Migrates (R.remaining input.old) (W.contents output.old) (W.contents output.new) result }
    ensures usage { IsNoCommand args.now → result ≡ Err ProgramFault.Usage }
    ensures unread { IsNoCommand args.now → R.remaining input.new ≡ R.remaining input.old }
    ensures unwritten { IsNoCommand args.now → W.contents output.new ≡ W.contents output.old }
    ensures end { OnOk result (IsAtEnd (R.remaining input.new)) }
{
    match Command::from_words(args) {
        Some(Command::Build(heading)) => build(alloc, false, heading, input, output),
        Some(Command::List) => list(alloc, input, output),
        Some(Command::Check) => check(alloc, input, output),
        Some(Command::Get(key)) => get(alloc, key, input, output),
        Some(Command::Range(low, high)) => range(alloc, low, high, input, output),
        Some(Command::Set(key, value)) => set(alloc, key, value, input, output),
        Some(Command::BuildStrict(heading)) => build(alloc, true, heading, input, output),
        Some(Command::CheckStrict) => check_strict(alloc, input, output),
        Some(Command::Migrate) => migrate(alloc, input, output),
        None => Err(ProgramFault::Usage),
    }
}

/// Writes the archive of the input's lines, whose keys must increase if it is strict.
///
/// # Errors
///
/// `Line` for the first bad line, `NotBuilt`, and `InputFailed`, `OutputFailed` or `Memory`.
fn build<R: Read, W: Write>(
    alloc: Global,
    is_strict: bool,
    heading: Heading,
    input: &mut R,
    output: &mut W,
) -> Result<u8, ProgramFault>
    ensures done { BuildsSo is_strict heading (R.remaining input.old) (W.contents output.old)
        (W.contents output.new) result }
    ensures end { OnOk result (IsAtEnd (R.remaining input.new)) }
{
    let text = match read_all(alloc, input) {
        Ok(text) => text,
        Err(fault) => return Err(fault),
    };
    let archive = match build::archive(alloc, is_strict, heading, &text) {
        Ok(archive) => archive,
        Err(fault) => return Err(fault),
    };
    match write_all(output, &archive) {
        Ok(()) => Ok(0),
        Err(fault) => Err(fault),
    }
}

/// Writes a line for each entry of the input's archive.
///
/// # Errors
///
/// `Refused` for the first fact for which the input is no archive, and `InputFailed`, `OutputFailed` or `Memory`.
fn list<R: Read, W: Write>(alloc: Global, input: &mut R, output: &mut W) -> Result<u8, ProgramFault>
    ensures done { Lists (R.remaining input.old) (W.contents output.old) (W.contents output.new)
        result }
    ensures end { OnOk result (IsAtEnd (R.remaining input.new)) }
{
    let archive = read_all(alloc, input)?;
    let map = open(&archive)?;
    let mut text = String::new(alloc);
    match write_entries(&mut text, map.iter()) {
        Ok(()) => {}
        Err(_) => return Err(ProgramFault::Memory),
    }
    write_all(output, text.as_str().as_bytes())?;
    Ok(0)
}

/// Writes how many entries the input's archive has.
///
/// # Errors
///
/// `Refused` for the first fact for which the input is no archive, and `InputFailed`, `OutputFailed` or `Memory`.
fn check<R: Read, W: Write>(
    alloc: Global,
    input: &mut R,
    output: &mut W,
) -> Result<u8, ProgramFault>
    ensures done { Checks (R.remaining input.old) (W.contents output.old) (W.contents output.new)
        result }
    ensures end { OnOk result (IsAtEnd (R.remaining input.new)) }
{
    let archive = read_all(alloc, input)?;
    let count = open(&archive)?.len();
    let mut text = String::new(alloc);
    if writeln!(text, "ok {count} entries").is_err() {
        return Err(ProgramFault::Memory);
    }
    write_all(output, text.as_str().as_bytes())?;
    Ok(0)
}

/// Writes the value of the entry whose key is this, and returns 1 where a search of the input's archive finds none.
///
/// # Errors
///
/// `Refused` for the first fact for which the input is no archive, and `InputFailed`, `OutputFailed` or `Memory`.
fn get<R: Read, W: Write>(
    alloc: Global,
    key: u32,
    input: &mut R,
    output: &mut W,
) -> Result<u8, ProgramFault>
    ensures done { Gets key (R.remaining input.old) (W.contents output.old)
        (W.contents output.new) result }
    ensures end { OnOk result (IsAtEnd (R.remaining input.new)) }
{
    let archive = read_all(alloc, input)?;
    let Some(value) = open(&archive)?.get_by(key) else {
        return Ok(1);
    };
    let mut text = String::new(alloc);
    if writeln!(text, "{}", value.to_native()).is_err() {
        return Err(ProgramFault::Memory);
    }
    write_all(output, text.as_str().as_bytes())?;
    Ok(0)
}

/// Writes a line for each entry of the input's archive whose key is from `low` to `high`. Where the keys are out of
/// order, these are some entries that stand one after the other.
///
/// # Errors
///
/// `Refused` for the first fact for which the input is no archive, and `InputFailed`, `OutputFailed` or `Memory`.
fn range<R: Read, W: Write>(
    alloc: Global,
    low: u32,
    high: u32,
    input: &mut R,
    output: &mut W,
) -> Result<u8, ProgramFault>
    ensures done { Ranges low high (R.remaining input.old) (W.contents output.old)
        (W.contents output.new) result }
    ensures end { OnOk result (IsAtEnd (R.remaining input.new)) }
{
    let archive = read_all(alloc, input)?;
    let map = open(&archive)?;
    let entries = map.range_by(Bound::Included(low), Bound::Included(high));
    let mut text = String::new(alloc);
    match write_entries(&mut text, entries) {
        Ok(()) => {}
        Err(_) => return Err(ProgramFault::Memory),
    }
    write_all(output, text.as_str().as_bytes())?;
    Ok(0)
}

/// Writes the input's archive with this value of the entry whose key is this, and returns 1 where a
/// search of the archive finds none. The value is written in place: the archive isn't copied.
///
/// # Errors
///
/// `Refused` for the first fact for which the input is no archive, and `InputFailed`, `OutputFailed` or `Memory`.
fn set<R: Read, W: Write>(
    alloc: Global,
    key: u32,
    value: u32,
    input: &mut R,
    output: &mut W,
) -> Result<u8, ProgramFault>
    ensures done { Sets key value (R.remaining input.old) (W.contents output.old)
        (W.contents output.new) result }
    ensures end { OnOk result (IsAtEnd (R.remaining input.new)) }
{
    let mut archive = read_all(alloc, input)?;
    let root = open(&archive)?.pos;
    if set_value(&mut archive, root, key, value) {
        write_all(output, &archive)?;
        Ok(0)
    } else {
        Ok(1)
    }
}

/// Writes how many entries the input's archive has, whose keys must increase.
///
/// # Errors
///
/// `Refused` for the first fact for which the input is no such archive, and `InputFailed`, `OutputFailed` or `Memory`.
fn check_strict<R: Read, W: Write>(
    alloc: Global,
    input: &mut R,
    output: &mut W,
) -> Result<u8, ProgramFault>
    ensures done { ChecksStrict (R.remaining input.old) (W.contents output.old)
        (W.contents output.new) result }
    ensures end { OnOk result (IsAtEnd (R.remaining input.new)) }
{
    let archive = read_all(alloc, input)?;
    let count = strict_count(&archive)?;
    let mut text = String::new(alloc);
    if writeln!(text, "ok {count} entries").is_err() {
        return Err(ProgramFault::Memory);
    }
    write_all(output, text.as_str().as_bytes())?;
    Ok(0)
}

/// Writes the archive of the last values of the input's archive, in increasing order of their keys.
///
/// # Errors
///
/// `Refused` for the first fact for which the input is no archive, `NotBuilt`, and `InputFailed`, `OutputFailed` or
/// `Memory`.
fn migrate<R: Read, W: Write>(
    alloc: Global,
    input: &mut R,
    output: &mut W,
) -> Result<u8, ProgramFault>
    ensures done { Migrates (R.remaining input.old) (W.contents output.old) (W.contents output.new)
        result }
    ensures end { OnOk result (IsAtEnd (R.remaining input.new)) }
{
    let archive = read_all(alloc, input)?;
    let heading = tested_heading(&archive)?;
    let map = open(&archive)?;
    let made = match migrated(alloc, heading, &map) {
        Ok(made) => made,
        Err(fault) => return Err(fault),
    };
    write_all(output, &made)?;
    Ok(0)
}
