//! Maps of other types than texts to texts: their types are those of the words, or those that a file's header names.

use crate::inputs::{file_named, file_of};
use crate::lookups::{get_several_in, in_all, is_regular, write_stats};
use crate::output::Output;
use crate::progress::Progress;
use crate::sink::Sink;
use crate::system::{Ended, Named, Names, System, bad_byte_of};
use crate::typed_lookups::{get_keys, get_keys_in_bytes, in_parts};
use crate::{archives, inputs, listed, overwritten, words};
use btreearc_lines::fault::ProgramFault;
use btreearc_lines::heading::HeadingFault;
use btreearc_lines::streams::read_all;
use btreekv_items::item::BytesStyle;
use btreekv_types::any_type::AnyType;
use btreekv_types::command::TypedCommand;
use btreekv_types::fault::TypedFault;
use btreekv_types::plain_type::PlainType;
use btreekv_types::program;
use btreekv_types::source::Source;
use btreekv_types::types::{PlainTypes, Types};
use clap::ArgMatches;
use rkyv_btree_typed::header::type_name_of;
use rkyv_btree_writer::fault::Fault;
use std::fs::File;
use std::io::{Read, Write};

/// The number of bytes that are read to find a header: more than that of each type that the program knows has.
const HEADER_LEN: u64 = 256;

/// A command over maps of two types.
#[derive(Drop)]
pub(crate) struct TypedRun {
    pub types: Types,
    pub style: BytesStyle,
    pub command: TypedCommand,
}

/// Returns a list of one file.
fn one_file(system: &System<'_>, file: Vec<u8>) -> Result<Vec<Vec<u8>>, Ended> {
    let mut files = Vec::new(system.alloc());
    match files.push(file) {
        Ok(()) => Ok(files),
        Err(_) => Err(system.fail(Names::of_input(None), &ProgramFault::Memory)),
    }
}

/// Returns the files that a subcommand reads after the first: the further archives of `merge`, the lines of `update`, and the new archive of
/// `diff`.
fn other_files(
    system: &System<'_>,
    name: &str,
    matches: &ArgMatches<'_>,
) -> Result<Vec<Vec<u8>>, Ended> {
    match name {
        "merge" => archives::read_each(system, matches.get_strs("OTHERS").unwrap_or(&[])),
        "update" => {
            let lines = archives::read(system, file_of(matches, "CHANGES"))?;
            one_file(system, lines)
        }
        "diff" => {
            let new = archives::read(system, file_of(matches, "NEW"))?;
            one_file(system, new)
        }
        _ => Ok(Vec::new(system.alloc())),
    }
}

/// Returns the command of the words of a subcommand over maps of two types. All files but the first are read for it.
fn typed_run(
    system: &System<'_>,
    types: Types,
    name: &str,
    matches: &ArgMatches<'_>,
) -> Result<TypedRun, Ended> {
    let others = other_files(system, name, matches)?;
    match words::typed_command_of(system.alloc(), name, matches, others) {
        Ok(command) => Ok(TypedRun {
            types,
            style: words::style_of(matches),
            command,
        }),
        Err(_) => Err(system.fail(Names::of_input(None), &ProgramFault::Memory)),
    }
}

/// Runs a command over an input and an output, and flushes that.
fn run_to<R: Read>(
    system: &System<'_>,
    typed: &TypedRun,
    input: &mut R,
    mut output: Sink<'_, '_>,
) -> Result<u8, TypedFault> {
    let status = match program::run(
        system.alloc(),
        typed.types,
        typed.style,
        &typed.command,
        input,
        &mut output,
    ) {
        Ok(status) => status,
        Err(fault) => return Err(fault),
    };
    match output.flush() {
        Ok(()) => Ok(status),
        Err(_) => Err(TypedFault::Program(ProgramFault::OutputFailed)),
    }
}

/// Runs a command over an input, into a file that takes the place of an old one.
fn run_into<R: Read>(
    system: &System<'_>,
    typed: &TypedRun,
    input: &mut R,
    path: &str,
) -> Result<u8, TypedFault> {
    let output = match Output::open(system, path) {
        Ok(output) => output,
        Err(fault) => return Err(TypedFault::Program(fault)),
    };
    let done = match output.file() {
        Ok(file) => run_to(system, typed, input, Sink::File(system.writing(file))),
        Err(fault) => Err(TypedFault::Program(fault)),
    };
    match done {
        Ok(_) => {}
        Err(fault) => {
            output.abandon();
            return Err(fault);
        }
    }
    match output.finish() {
        Ok(()) => Ok(0),
        Err(fault) => Err(TypedFault::Program(fault)),
    }
}

/// Runs a command over an input, and the file of this name or standard output.
fn run_over<R: Read>(
    system: &System<'_>,
    typed: &TypedRun,
    input: &mut R,
    output: Option<&str>,
) -> Result<u8, TypedFault> {
    if let Some(path) = output {
        return run_into(system, typed, input, path);
    }
    match Sink::stdout(system) {
        Ok(output) => run_to(system, typed, input, output),
        Err(fault) => Err(TypedFault::Program(fault)),
    }
}

/// Returns whether a command looks up entries, and has the flags `--validate` and `--stats`.
fn is_look_up(command: &TypedCommand) -> bool {
    match command {
        TypedCommand::First(_) | TypedCommand::Last(_) => true,
        TypedCommand::Get(..) | TypedCommand::Range(..) => true,
        TypedCommand::Prefix(..) => true,
        _ => false,
    }
}

/// Returns the types of a map of which a command reads a part, if it is in a regular file: those of a map whose keys and values have no
/// parts.
fn types_in_parts(typed: &TypedRun) -> Option<PlainTypes> {
    match typed.command {
        TypedCommand::First(_) | TypedCommand::Last(_) => typed.types.plain(),
        TypedCommand::Get(..) | TypedCommand::Range(..) => typed.types.plain(),
        _ => None,
    }
}

/// Returns the status of a run that read so many bytes, or writes the line of its error.
fn ended(
    system: &System<'_>,
    typed: &TypedRun,
    names: Names<'_>,
    matches: &ArgMatches<'_>,
    done: Result<u8, TypedFault>,
    read: u64,
) -> Result<u8, Ended> {
    match done {
        Ok(status) => {
            if is_look_up(&typed.command) {
                write_stats(system, matches, read, read);
            }
            Ok(status)
        }
        Err(fault) => Err(fail(system, typed, names, matches, &fault)),
    }
}

/// Writes the line of an error of an update by lines, which is no error of the archive's.
fn fail_update(
    system: &System<'_>,
    typed: &TypedRun,
    matches: &ArgMatches<'_>,
    lines: &[u8],
    fault: &TypedFault,
) -> Ended {
    let name = file_of(matches, "CHANGES");
    let (key, value) = (typed.types.key(), typed.types.value());
    match fault {
        TypedFault::BadKey(line) => bad_line(system, name, *line, "key", key),
        TypedFault::BadValue(line) => bad_line(system, name, *line, "value", value),
        TypedFault::Program(ProgramFault::Line(line)) => {
            let byte = bad_byte_of(system.alloc(), &lines, *line).unwrap_or(1);
            system.not_utf8(name, *line, byte)
        }
        TypedFault::Program(ProgramFault::NotBuilt(Fault::OutOfOrder { index })) => {
            system.out_of_order(name, index.saturating_add(1))
        }
        TypedFault::Program(fault) => {
            let names = Names::of_input(file_of(matches, "ARCHIVE"));
            fail_of(system, typed.types, names, fault)
        }
        _ => system.fail(Names::of_input(None), &ProgramFault::Usage),
    }
}

/// Writes the line of an error of a command over maps of two types.
fn fail(
    system: &System<'_>,
    typed: &TypedRun,
    names: Names<'_>,
    matches: &ArgMatches<'_>,
    fault: &TypedFault,
) -> Ended {
    let (key, value) = (typed.types.key(), typed.types.value());
    if let TypedCommand::Update(_, lines) = &typed.command {
        return fail_update(system, typed, matches, lines.as_slice(), fault);
    }
    match fault {
        TypedFault::Archive(number, fault) => {
            let names = name_at(&typed.command, matches, *number);
            fail_of(system, typed.types, names, fault)
        }
        TypedFault::BadKey(number) => match typed.command {
            TypedCommand::Set(..) => bad_word(system, matches, "KEY", key),
            _ => bad_entry(system, names, *number, "key", key),
        },
        TypedFault::BadValue(number) => match typed.command {
            TypedCommand::Set(..) => bad_word(system, matches, "VALUE", value),
            _ => bad_entry(system, names, *number, "value", value),
        },
        TypedFault::NoKey => bad_word(system, matches, "KEY", key),
        TypedFault::NoLow => bad_word(system, matches, "LOW", key),
        TypedFault::NoHigh => bad_word(system, matches, "HIGH", key),
        TypedFault::Program(ProgramFault::Line(number)) => {
            bad_record(system, &typed.command, names, *number)
        }
        TypedFault::Program(fault) => fail_of(system, typed.types, names, fault),
    }
}

/// Returns the name of the archive with this number, of which the first is number 0: of those of `merge`, or of both of `diff`.
fn name_at<'a>(command: &TypedCommand, matches: &ArgMatches<'a>, number: u64) -> Names<'a> {
    let (first, others) = match command {
        TypedCommand::Diff(_) => ("OLD", "NEW"),
        _ => ("ARCHIVE", "OTHERS"),
    };
    let Some(index) = number.checked_sub(1) else {
        return Names::of_input(file_of(matches, first));
    };
    let others = matches.get_strs(others).unwrap_or(&[]);
    match others.get(index as usize) {
        Some(name) => Names::of_input(file_named(*name)),
        None => Names::of_input(None),
    }
}

/// Writes the line of an error of any command over maps of two types.
pub(crate) fn fail_of(
    system: &System<'_>,
    types: Types,
    names: Names<'_>,
    fault: &ProgramFault,
) -> Ended {
    let (key, value) = (types.key(), types.value());
    match fault {
        ProgramFault::Misheaded(HeadingFault::OtherType(found)) => {
            let rt = system.rt;
            let name = Named(": ", names.input);
            let _ = eprintln!(rt;
                "btreekv: refused{name}: the bytes are of type {found}, not [{key} -> {value} / 5]"
            );
            Ended::failed()
        }
        _ => system.fail(names, fault),
    }
}

/// Writes the line of an entry whose key or value is no text of its type.
fn bad_entry(
    system: &System<'_>,
    names: Names<'_>,
    number: u64,
    part: &str,
    item: AnyType,
) -> Ended {
    let rt = system.rt;
    let of = Named(" of ", names.input);
    let _ = eprintln!(rt; "btreekv: entry {number}{of}: the {part} is no {item}");
    Ended::failed()
}

/// Writes the line of a change whose key or value is no text of its type.
fn bad_line(
    system: &System<'_>,
    name: Option<&str>,
    number: u64,
    part: &str,
    item: AnyType,
) -> Ended {
    let rt = system.rt;
    let of = Named(" of ", name);
    let _ = eprintln!(rt; "btreekv: line {number}{of}: the {part} is no {item}");
    Ended::failed()
}

/// Writes the line of a word that is no text of the type of keys.
pub(crate) fn bad_word(
    system: &System<'_>,
    matches: &ArgMatches<'_>,
    argument: &str,
    item: AnyType,
) -> Ended {
    let rt = system.rt;
    let word = matches.get_str(argument).unwrap_or("");
    let _ = eprintln!(rt; "btreekv: {word} is no {item}");
    Ended::failed()
}

/// Writes the line of an input's first line or record that is no entry.
fn bad_record(system: &System<'_>, command: &TypedCommand, names: Names<'_>, number: u64) -> Ended {
    match command {
        TypedCommand::Build(Source::Records(form), _, _) => {
            system.bad_record(names.input, number, *form)
        }
        TypedCommand::Build(Source::Table(_), _, _) => system.bad_row(names.input, number),
        TypedCommand::Build(Source::Object, _, _) => system.no_object(names.input),
        _ => system.fail(names, &ProgramFault::Line(number)),
    }
}

/// Returns the files of a command.
fn names_of<'a>(name: &str, matches: &ArgMatches<'a>) -> Names<'a> {
    Names {
        input: inputs::input_of(name, matches),
        output: inputs::output_of(name, matches),
    }
}

/// Writes the line of a map in which several keys aren't looked up, since its keys or values have parts.
fn no_keys_in(system: &System<'_>, types: Types) -> Ended {
    let rt = system.rt;
    let (key, value) = (types.key(), types.value());
    let _ = eprintln!(rt;
        "btreekv: several keys aren't looked up in a map of type [{key} -> {value} / 5]"
    );
    Ended::failed()
}

/// Runs a command over a file, of which a part is read if it can be, and the words don't ask for all.
fn run_in_file(
    system: &System<'_>,
    typed: &TypedRun,
    names: Names<'_>,
    matches: &ArgMatches<'_>,
    file: File,
) -> Result<u8, Ended> {
    if let Some(types) = types_in_parts(typed) {
        if is_regular(&file) && !matches.get_flag("validate") {
            return match in_parts(system, types, typed, matches, file) {
                Ok(status) => Ok(status),
                Err(fault) => Err(fail(system, typed, names, matches, &fault)),
            };
        }
    }
    let mut input = Progress::of_file(system, file);
    let done = run_over(system, typed, &mut input, names.output);
    ended(system, typed, names, matches, done, input.bytes_read())
}

/// Runs a command over maps of the types that the words name.
fn run_as(
    system: &System<'_>,
    types: Types,
    name: &str,
    matches: &ArgMatches<'_>,
) -> Result<u8, Ended> {
    if words::has_several_keys(name, matches) {
        return match types.plain() {
            Some(types) => get_keys(system, types, matches),
            None => Err(no_keys_in(system, types)),
        };
    }
    let typed = typed_run(system, types, name, matches)?;
    let names = names_of(name, matches);
    match names.input {
        None => {
            let mut input = Progress::new(system, system.stdin()?);
            let done = run_over(system, &typed, &mut input, names.output);
            ended(system, &typed, names, matches, done, input.bytes_read())
        }
        Some(path) => {
            let file = system.open(path)?;
            run_in_file(system, &typed, names, matches, file)
        }
    }
}

/// Returns the types of two names, or `None` if the program has no maps of both.
fn types_of(key: &str, value: &str) -> Option<Types> {
    Types::of(AnyType::from_name(key)?, AnyType::from_name(value)?)
}

/// Returns the types of words as `u32:text`.
fn types_of_words(words: &str) -> Option<Types> {
    let (key, value) = words.split_once(":")?;
    types_of(key, value)
}

/// Returns the types of a map of this name, as `[u32 -> text / 5]`.
fn types_of_map(name: &str) -> Option<Types> {
    let (key, value) = name
        .strip_prefix("[")?
        .strip_suffix(" / 5]")?
        .split_once(" -> ")?;
    types_of(key, value)
}

/// Returns whether keys and values are texts.
fn is_texts(types: Types) -> bool {
    types
        == Types::Plain(PlainTypes {
            key: PlainType::Text,
            value: PlainType::Text,
        })
}

/// Returns the types that the header names with which bytes begin, if they are known and aren't texts to texts.
pub(crate) fn header_types(bytes: &[u8]) -> Option<Types> {
    let Ok(name) = type_name_of(bytes) else {
        return None;
    };
    let types = types_of_map(name)?;
    if is_texts(types) {
        return None;
    }
    Some(types)
}

/// Reads up to the first bytes of an input, by which a header is known.
fn first_bytes<R: Read>(
    system: &System<'_>,
    input: &mut Progress<'_, '_, R>,
) -> Result<Vec<u8>, ProgramFault> {
    let mut bytes = Vec::new(system.alloc());
    match input.take(HEADER_LEN).read_to_end(&mut bytes) {
        Ok(_) => Ok(bytes),
        Err(_) => Err(ProgramFault::InputFailed),
    }
}

/// Runs a command over an input that can't be read again, as a map of texts.
fn run_texts<R: Read + Drop>(
    system: &System<'_>,
    name: &str,
    matches: &ArgMatches<'_>,
    mut input: Progress<'_, '_, R>,
) -> Result<u8, Ended> {
    let names = Names::of_input(file_of(matches, "FILE"));
    if name == "set" || name == "list" {
        let archive = match read_all(system.alloc(), &mut input) {
            Ok(archive) => archive,
            Err(fault) => return Err(system.fail(names, &fault)),
        };
        if name == "set" {
            return archives::set_in(system, matches, names.input, &archive);
        }
        return listed::write(system, matches, names, &archive);
    }
    match in_all(system, name, matches, input) {
        Ok(status) => Ok(status),
        Err(fault) => Err(system.fail(names, &fault)),
    }
}

/// Looks up several keys in an archive of maps of two types.
fn get_keys_in_types(
    system: &System<'_>,
    types: Types,
    matches: &ArgMatches<'_>,
    bytes: Vec<u8>,
) -> Result<u8, Ended> {
    match types.plain() {
        Some(types) => get_keys_in_bytes(system, types, matches, bytes),
        None => Err(no_keys_in(system, types)),
    }
}

/// Looks up several keys in an archive of texts, or runs a command of which it is the first of several files.
fn run_texts_in(
    system: &System<'_>,
    name: &str,
    matches: &ArgMatches<'_>,
    archive: &[u8],
) -> Result<u8, Ended> {
    if words::has_several_keys(name, matches) {
        return get_several_in(system, matches, archive);
    }
    archives::run_in(system, name, matches, archive)
}

/// Returns the first bytes of an input, by which a header is known. They are all bytes, if the command reads more files, or looks up several
/// keys.
fn first_of<R: Read>(
    system: &System<'_>,
    input: &mut Progress<'_, '_, R>,
    are_all: bool,
) -> Result<Vec<u8>, ProgramFault> {
    if are_all {
        read_all(system.alloc(), input)
    } else {
        first_bytes(system, input)
    }
}

/// Runs a command over an input that can't be read again, as a map of the types that its header names, or of texts.
fn run_stream<R: Read + Drop>(
    system: &System<'_>,
    name: &str,
    matches: &ArgMatches<'_>,
    input: R,
) -> Result<u8, Ended> {
    let names = names_of(name, matches);
    let has_several_keys = words::has_several_keys(name, matches);
    let are_all = has_several_keys || words::reads_several(name);
    let mut input = Progress::new(system, input);
    let first = match first_of(system, &mut input, are_all) {
        Ok(first) => first,
        Err(fault) => return Err(system.fail(names, &fault)),
    };
    let Some(types) = header_types(&first) else {
        if are_all {
            return run_texts_in(system, name, matches, &first);
        }
        return run_texts(system, name, matches, input.with_first(&first));
    };
    if has_several_keys {
        return get_keys_in_types(system, types, matches, first);
    }
    let typed = typed_run(system, types, name, matches)?;
    let mut input = input.with_first(&first);
    let done = run_over(system, &typed, &mut input, names.output);
    ended(system, &typed, names, matches, done, input.bytes_read())
}

/// Runs a command that reads an archive as a map of the types that its header names, and returns the exit status. There is none if the
/// archive is a regular file without such a header: nothing is done then.
fn run_by_header(
    system: &System<'_>,
    name: &str,
    matches: &ArgMatches<'_>,
) -> Result<Option<u8>, Ended> {
    let Some(path) = inputs::input_of(name, matches) else {
        return Ok(Some(run_stream(system, name, matches, system.stdin()?)?));
    };
    let file = system.open(path)?;
    if !is_regular(&file) {
        return Ok(Some(run_stream(system, name, matches, file)?));
    }
    let first = match first_bytes(system, &mut Progress::silent(system, file)) {
        Ok(first) => first,
        Err(fault) => return Err(system.fail(Names::of_input(Some(path)), &fault)),
    };
    match header_types(&first) {
        Some(types) => Ok(Some(run_as(system, types, name, matches)?)),
        None => Ok(None),
    }
}

/// Returns the types that the words name, if they do.
///
/// # Errors
///
/// If they are no types that the program knows: the line of the error is written.
pub(crate) fn named_types(
    system: &System<'_>,
    matches: &ArgMatches<'_>,
) -> Result<Option<Types>, Ended> {
    let Some(word) = matches.get_str("types") else {
        return Ok(None);
    };
    let Some(types) = types_of_words(word) else {
        let rt = system.rt;
        let _ = eprintln!(rt; "btreekv: {word} are no types KEY:VALUE (see btreekv help build)");
        return Err(Ended::failed());
    };
    Ok(Some(types))
}

/// Runs a command over maps of other types than texts, if the words or the header of its input name them, and returns the exit status.
/// There is none if they are texts: nothing is done then. `build` archives texts too, if the words name them: it sorts then.
pub fn run(system: &System<'_>, name: &str, matches: &ArgMatches<'_>) -> Result<Option<u8>, Ended> {
    if !words::takes_types(name) {
        return Ok(None);
    }
    if words::is_in_place(name, matches) {
        return Ok(Some(overwritten::run(system, matches)?));
    }
    let Some(types) = named_types(system, matches)? else {
        if name == "build" {
            return Ok(None);
        }
        return run_by_header(system, name, matches);
    };
    if is_texts(types) && name != "build" {
        return Ok(None);
    }
    Ok(Some(run_as(system, types, name, matches)?))
}
