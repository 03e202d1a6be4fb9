//! Look-ups in maps of other types than texts. A regular file isn't read whole.

use crate::archives::read;
use crate::inputs::input_of;
use crate::lookups::{
    Archive, FEW_BLOCKS, KeyList, SizedFile, are_many, asked_keys, blocks_for, cached, get_keys_in,
    is_regular, write_stats,
};
use crate::progress::Progress;
use crate::sink::Sink;
use crate::system::{Ended, Names, System};
use crate::typed::{TypedRun, fail_of};
use crate::words;
use btreearc_lines::fault::ProgramFault;
use btreearc_lines::streams::{read_all, write_all};
use btreekv_commands::forms::Form;
use btreekv_commands::sourced::{BUDGET, first_room};
use btreekv_items::item::BytesStyle;
use btreekv_types::any_type::AnyType;
use btreekv_types::command::TypedCommand;
use btreekv_types::fault::TypedFault;
use btreekv_types::ranged::{Part, text_of_part};
use btreekv_types::sourced::TypedSource;
use btreekv_types::types::{PlainTypes, Types};
use btreekv_types::{program, sourced};
use clap::ArgMatches;
use rkyv_btree_source::cached::CachedSource;
use rkyv_btree_source::source::ReadAt;
use std::alloc::Global;
use std::fs::File;
use std::io;
use std::io::ErrorKind;

/// The number of blocks that a range keeps.
const BLOCKS: usize = 16;

/// What look-ups read, so that there is one copy of them for both.
#[derive(Drop)]
enum Input {
    /// Blocks of a regular file.
    Blocks(CachedSource<SizedFile>),
    /// All bytes, in memory.
    Bytes(Vec<u8>),
}

impl ReadAt for Input {
    type Error = io::Error;

    fn size(&mut self) -> Result<u64, io::Error> {
        match self {
            Input::Blocks(source) => source.size(),
            Input::Bytes(bytes) => Ok(bytes.len() as u64),
        }
    }

    fn read_at(&mut self, pos: u32, part: &mut [u8]) -> Result<(), io::Error> {
        match self {
            Input::Blocks(source) => source.read_at(pos, part),
            Input::Bytes(bytes) => {
                let start = pos as usize;
                let Some(found) = bytes.get(start..start + part.len()) else {
                    return Err(io::Error::from(ErrorKind::UnexpectedEof));
                };
                part.copy_from_slice(found);
                Ok(())
            }
        }
    }
}

/// Returns the same, with an error of any command as one of a command over typed maps.
fn typed<T>(done: Result<T, ProgramFault>) -> Result<T, TypedFault> {
    match done {
        Ok(value) => Ok(value),
        Err(fault) => Err(TypedFault::Program(fault)),
    }
}

/// Returns which entries a command writes that looks up no key, and how.
fn part_of(
    alloc: Global,
    matches: &ArgMatches<'_>,
    command: &TypedCommand,
) -> Result<(Part, Form), TypedFault> {
    match command {
        TypedCommand::First(form) => Ok((Part::First, *form)),
        TypedCommand::Last(form) => Ok((Part::Last, *form)),
        TypedCommand::Range(_, _, form) => {
            let low = words::owned(alloc, matches, "LOW");
            let (Ok(low), Ok(high)) = (low, words::owned(alloc, matches, "HIGH")) else {
                return Err(TypedFault::Program(ProgramFault::Memory));
            };
            Ok((Part::Between(low, high), *form))
        }
        _ => Err(TypedFault::Program(ProgramFault::Usage)),
    }
}

/// Returns what a command finds in an archive, its status, and how many more bytes may be read.
fn text_of(
    system: &System<'_>,
    run: &TypedRun,
    matches: &ArgMatches<'_>,
    archive: TypedSource<Input>,
) -> Result<(Vec<u8>, u8, u64), TypedFault> {
    let alloc = system.alloc();
    let mut room = typed(first_room(alloc))?;
    if let TypedCommand::Get(key, form) = &run.command {
        let (line, status, archive) = sourced::line_of(
            alloc, run.style, archive, &mut room, key, *form,
        )?;
        return Ok((line, status, archive.reader.left));
    }
    let (part, form) = part_of(alloc, matches, &run.command)?;
    text_of_part(alloc, run.style, form, archive, &mut room, &part)
}

/// Writes what a command finds in a regular file, of which that and the way to it are read and validated.
pub(crate) fn in_parts(
    system: &System<'_>,
    types: PlainTypes,
    run: &TypedRun,
    matches: &ArgMatches<'_>,
    file: File,
) -> Result<u8, TypedFault> {
    let blocks = match &run.command {
        TypedCommand::Range(_, _, _) => BLOCKS,
        _ => FEW_BLOCKS,
    };
    let mut source = Input::Blocks(typed(cached(system, file, blocks))?);
    let Ok(size) = source.size() else {
        return Err(TypedFault::Program(ProgramFault::InputFailed));
    };
    let archive = typed(sourced::open(types, source))?;
    let (text, status, left) = text_of(system, run, matches, archive)?;
    typed(write_all(&mut system.stdout(), &text))?;
    write_stats(system, matches, BUDGET.saturating_sub(left), size);
    Ok(status)
}

/// An archive of a map of two types.
#[derive(Drop)]
struct TypedArchive {
    style: BytesStyle,
    archive: TypedSource<Input>,
}

impl Archive for TypedArchive {
    fn key_type(&self) -> AnyType {
        AnyType::Plain(self.archive.types.key)
    }

    fn push_found(
        self,
        alloc: Global,
        room: &mut Vec<u8>,
        key: &str,
        lines: &mut String,
    ) -> Result<(bool, TypedArchive), TypedFault> {
        let TypedArchive { style, archive } = self;
        match sourced::push_found(alloc, style, archive, room, key, lines) {
            Ok((is_found, archive)) => Ok((is_found, TypedArchive { style, archive })),
            Err(fault) => Err(fault),
        }
    }

    fn bytes_read(&self) -> u64 {
        BUDGET.saturating_sub(self.archive.reader.left)
    }
}

/// Validates all bytes of an archive.
fn validate(
    system: &System<'_>,
    types: Types,
    style: BytesStyle,
    bytes: &[u8],
) -> Result<(), TypedFault> {
    let alloc = system.alloc();
    let mut input = bytes;
    match program::run(
        alloc,
        types,
        style,
        &TypedCommand::Check,
        &mut input,
        &mut Sink::Nothing,
    ) {
        Ok(_) => Ok(()),
        Err(fault) => Err(fault),
    }
}

/// Returns a file as what look-ups of these keys read, or all of it, which is validated if it is no regular file, or the words ask for it.
fn source_of(
    system: &System<'_>,
    types: Types,
    matches: &ArgMatches<'_>,
    file: File,
    keys: &KeyList<'_>,
) -> Result<Input, TypedFault> {
    let in_parts = is_regular(&file) && !matches.get_flag("validate");
    if in_parts && !are_many(system, &file, keys) {
        return Ok(Input::Blocks(typed(cached(system, file, blocks_for(keys)))?));
    }
    let bytes = typed(read_all(system.alloc(), &mut Progress::of_file(system, file)))?;
    if !in_parts {
        validate(system, types, words::style_of(matches), &bytes)?;
    }
    Ok(Input::Bytes(bytes))
}

/// Writes the line of an error of look-ups of several keys.
fn fail(system: &System<'_>, types: Types, names: Names<'_>, fault: &TypedFault) -> Ended {
    match fault {
        TypedFault::Program(fault) => fail_of(system, types, names, fault),
        _ => system.fail(names, &ProgramFault::Usage),
    }
}

/// Returns all bytes of an input, which comes from this file, and validates them.
fn validated(
    system: &System<'_>,
    types: Types,
    matches: &ArgMatches<'_>,
    path: Option<&str>,
    bytes: Vec<u8>,
) -> Result<Input, Ended> {
    match validate(system, types, words::style_of(matches), &bytes) {
        Ok(()) => Ok(Input::Bytes(bytes)),
        Err(fault) => Err(fail(system, types, Names::of_input(path), &fault)),
    }
}

/// Returns what look-ups of these keys read of a file of this name, or of standard input.
fn source_named(
    system: &System<'_>,
    types: Types,
    matches: &ArgMatches<'_>,
    path: Option<&str>,
    keys: &KeyList<'_>,
) -> Result<Input, Ended> {
    let Some(name) = path else {
        return validated(system, types, matches, path, read(system, None)?);
    };
    match source_of(system, types, matches, system.open(name)?, keys) {
        Ok(source) => Ok(source),
        Err(fault) => Err(fail(system, types, Names::of_input(path), &fault)),
    }
}

/// Looks up keys in a source, which comes from this file.
fn get_keys_of(
    system: &System<'_>,
    types: PlainTypes,
    matches: &ArgMatches<'_>,
    path: Option<&str>,
    mut source: Input,
    keys: &KeyList<'_>,
) -> Result<u8, Ended> {
    let names = Names::of_input(path);
    let Ok(size) = source.size() else {
        return Err(system.fail(names, &ProgramFault::InputFailed));
    };
    match sourced::open(types, source) {
        Ok(archive) => {
            let style = words::style_of(matches);
            let archive = TypedArchive { style, archive };
            get_keys_in(system, matches, names, size, archive, keys)
        }
        Err(fault) => Err(fail_of(system, Types::Plain(types), names, &fault)),
    }
}

/// Looks up several keys in the archive that the words name, as a map of two types.
pub(crate) fn get_keys(
    system: &System<'_>,
    types: PlainTypes,
    matches: &ArgMatches<'_>,
) -> Result<u8, Ended> {
    let path = input_of("get", matches);
    let keys = asked_keys(system, matches)?;
    let source = source_named(system, Types::Plain(types), matches, path, &keys)?;
    get_keys_of(system, types, matches, path, source, &keys)
}

/// Looks them up in the archive that all of an input has.
pub(crate) fn get_keys_in_bytes(
    system: &System<'_>,
    types: PlainTypes,
    matches: &ArgMatches<'_>,
    bytes: Vec<u8>,
) -> Result<u8, Ended> {
    let path = input_of("get", matches);
    let source = validated(system, Types::Plain(types), matches, path, bytes)?;
    let keys = asked_keys(system, matches)?;
    get_keys_of(system, types, matches, path, source, &keys)
}
