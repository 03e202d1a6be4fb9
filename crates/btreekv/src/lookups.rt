//! Look-ups of one key, and of many. A file isn't read whole.

use crate::archives::read;
use crate::inputs::{file_named, file_of, input_of};
use crate::progress::Progress;
use crate::system::{Ended, Named, Names, System};
use crate::words;
use btreearc_lines::fault::ProgramFault;
use btreearc_lines::spool::buffered;
use btreearc_lines::streams::{read_all, read_line, write_all};
use btreekv_commands::lines::bad_byte;
use btreekv_commands::opening::Texts;
use btreekv_commands::program::run;
use btreekv_commands::{opening, sourced};
use btreekv_types::any_type::AnyType;
use btreekv_types::fault::TypedFault;
use btreekv_types::plain_type::PlainType;
use clap::ArgMatches;
use rkyv_btree_source::cached::CachedSource;
use rkyv_btree_source::source::ReadAt;
use rkyv_btree_source::unverified_source::UnverifiedSource;
use std::alloc::Global;
use std::fs::{File, metadata};
use std::io;
use std::io::{BufRead, Read};
use std::os::unix::fs::FileExt;
use std::slice::Iter;
use std::str::from_utf8;

/// The number of blocks, of 4 kilobytes each, that the look-up of one entry keeps: it goes down the tree, and seldom comes back to one that it has
/// left.
pub(crate) const FEW_BLOCKS: usize = 4;

/// The number of blocks that the look-ups of many keys keep.
const MANY_BLOCKS: usize = 2048;

/// The number of blocks that the look-ups of a few keys keep for each of them.
const BLOCKS_FOR_A_KEY: usize = 16;

/// The most bytes of a regular file that is read whole for many keys.
const MOST_WHOLE: u64 = 268435456;

/// How many bytes of a regular file are read for each byte of the keys, where it is read whole.
const BYTES_FOR_A_BYTE: u64 = 128;

/// A regular file as a source, whose size was asked for once: a lookup asks for it each time. Each read is one call of the system.
#[derive(Drop)]
pub(crate) struct SizedFile {
    file: File,
    size: u64,
}

impl SizedFile {
    /// Asks for the size of a file.
    fn new(file: File) -> Result<SizedFile, ProgramFault> {
        match file.metadata() {
            Ok(metadata) => Ok(SizedFile {
                size: metadata.len(),
                file,
            }),
            Err(_) => Err(ProgramFault::InputFailed),
        }
    }
}

impl ReadAt for SizedFile {
    type Error = io::Error;

    fn size(&mut self) -> Result<u64, io::Error> {
        Ok(self.size)
    }

    fn read_at(&mut self, pos: u32, part: &mut [u8]) -> Result<(), io::Error> {
        self.file.read_exact_at(part, u64::from(pos))
    }
}

/// Returns a file as a source that keeps so many blocks.
pub(crate) fn cached(
    system: &System<'_>,
    file: File,
    blocks: usize,
) -> Result<CachedSource<SizedFile>, ProgramFault> {
    let source = SizedFile::new(file)?;
    match CachedSource::new(system.alloc(), source, blocks) {
        Ok(cached) => Ok(cached),
        Err(_) => Err(ProgramFault::Memory),
    }
}

/// Writes how much of an input was read, if the words ask for it.
pub(crate) fn write_stats(system: &System<'_>, matches: &ArgMatches<'_>, read: u64, size: u64) {
    if matches.get_flag("stats") {
        let rt = system.rt;
        let _ = eprintln!(rt; "btreekv: {read} of {size} bytes read");
    }
}

/// Validates all of an input, and writes what a command finds in it.
pub(crate) fn in_all<R: Read + Drop>(
    system: &System<'_>,
    name: &str,
    matches: &ArgMatches<'_>,
    mut input: Progress<'_, '_, R>,
) -> Result<u8, ProgramFault> {
    let Ok(command) = words::command_of(system.alloc(), name, matches) else {
        return Err(ProgramFault::Memory);
    };
    let status = run(system.alloc(), &command, &mut input, &mut system.stdout())?;
    let read = input.bytes_read();
    write_stats(system, matches, read, read);
    Ok(status)
}

/// Writes the line of a key's value in a regular file, of which the look-up alone is read and validated.
fn get_in_parts(
    system: &System<'_>,
    matches: &ArgMatches<'_>,
    file: File,
) -> Result<u8, ProgramFault> {
    let alloc = system.alloc();
    let Ok(key) = words::owned(alloc, matches, "KEY") else {
        return Err(ProgramFault::Memory);
    };
    let mut source = cached(system, file, FEW_BLOCKS)?;
    let Ok(size) = source.size() else {
        return Err(ProgramFault::InputFailed);
    };
    let mut map = sourced::open(source)?;
    let mut room = sourced::first_room(alloc)?;
    let form = words::form_of(matches);
    let (line, status) = sourced::line_of(alloc, &mut map, &mut room, &key, form)?;
    write_all(&mut system.stdout(), &line)?;
    let read = sourced::BUDGET.saturating_sub(map.budget_left());
    write_stats(system, matches, read, size);
    Ok(status)
}

/// Keys, one after the other.
trait Keys {
    /// Reads the next key, which has this number, into a buffer, and returns whether there is one.
    fn read(&mut self, system: &System<'_>, number: u64, key: &mut Vec<u8>) -> Result<bool, Ended>;

    /// Writes the line of a key, which has this number and is no text of a type.
    fn bad_key(&self, system: &System<'_>, number: u64, key: &str, item: AnyType) -> Ended;
}

/// The lines of keys, with the name of their file.
#[derive(Drop)]
struct KeyLines<'n, R> {
    input: R,
    name: Option<&'n str>,
}

impl<'n, R: BufRead> Keys for KeyLines<'n, R> {
    fn read(&mut self, system: &System<'_>, number: u64, key: &mut Vec<u8>) -> Result<bool, Ended> {
        match read_line(&mut self.input, key) {
            Ok(false) => return Ok(false),
            Ok(true) => {}
            Err(fault) => return Err(system.fail(Names::of_input(self.name), &fault)),
        }
        match bad_byte(key) {
            None => Ok(true),
            Some(byte) => Err(system.not_utf8(self.name, number, byte)),
        }
    }

    fn bad_key(&self, system: &System<'_>, number: u64, _key: &str, item: AnyType) -> Ended {
        let rt = system.rt;
        let of = Named(" of ", self.name);
        let _ = eprintln!(rt; "btreekv: line {number}{of}: the key is no {item}");
        Ended::failed()
    }
}

/// Keys that are words of the command line.
#[derive(Drop)]
struct KeyWords<'w> {
    words: Iter<'w, &'w str>,
}

impl<'w> Keys for KeyWords<'w> {
    fn read(
        &mut self,
        system: &System<'_>,
        _number: u64,
        key: &mut Vec<u8>,
    ) -> Result<bool, Ended> {
        let Some(word) = self.words.next() else {
            return Ok(false);
        };
        key.clear();
        match key.extend_from_slice(word.as_bytes()) {
            Ok(()) => Ok(true),
            Err(_) => Err(system.fail(Names::of_input(None), &ProgramFault::Memory)),
        }
    }

    fn bad_key(&self, system: &System<'_>, _number: u64, key: &str, item: AnyType) -> Ended {
        let rt = system.rt;
        let _ = eprintln!(rt; "btreekv: {key} is no {item}");
        Ended::failed()
    }
}

/// An archive that is all of a source, in which keys are looked up one after the other.
pub(crate) trait Archive: Drop {
    /// Returns the type of the keys.
    fn key_type(&self) -> AnyType;

    /// Writes the line of a key and its value at the end, if the key is found. Returns whether it is, and the archive.
    fn push_found(
        self,
        alloc: Global,
        room: &mut Vec<u8>,
        key: &str,
        lines: &mut String,
    ) -> Result<(bool, Self), TypedFault>;

    /// Returns how many bytes were read.
    fn bytes_read(&self) -> u64;
}

/// An archive of texts.
#[derive(Drop)]
struct ArchiveOfTexts<S> {
    map: UnverifiedSource<S, Texts>,
}

impl<S: ReadAt + Drop> Archive for ArchiveOfTexts<S> {
    fn key_type(&self) -> AnyType {
        AnyType::Plain(PlainType::Text)
    }

    fn push_found(
        mut self,
        alloc: Global,
        room: &mut Vec<u8>,
        key: &str,
        lines: &mut String,
    ) -> Result<(bool, ArchiveOfTexts<S>), TypedFault> {
        match sourced::push_found(alloc, &mut self.map, room, key, lines) {
            Ok(is_found) => Ok((is_found, self)),
            Err(fault) => Err(TypedFault::Program(fault)),
        }
    }

    fn bytes_read(&self) -> u64 {
        sourced::BUDGET.saturating_sub(self.map.budget_left())
    }
}

/// Where the keys of a call are.
#[derive(Drop)]
pub(crate) enum KeyList<'w> {
    /// In the file of this name, or in standard input if it is `-`.
    From(&'w str),
    /// Among the words of the command line.
    Words(Vec<&'w str>),
}

/// Looks up keys in an archive, and writes the line of each that is found. Returns the exit status, and the archive.
fn write_keys<A: Archive, K: Keys + Drop>(
    system: &System<'_>,
    names: Names<'_>,
    mut archive: A,
    mut keys: K,
) -> Result<(u8, A), Ended> {
    let alloc = system.alloc();
    let mut room = match sourced::first_room(alloc) {
        Ok(room) => room,
        Err(fault) => return Err(system.fail(names, &fault)),
    };
    let mut lines = String::new(alloc);
    let mut line = Vec::new(alloc);
    let mut status = 0;
    for number in 1..u64::MAX {
        if !keys.read(system, number, &mut line)? {
            break;
        }
        let Ok(key) = from_utf8(&line) else {
            break;
        };
        let item = archive.key_type();
        match archive.push_found(alloc, &mut room, key, &mut lines) {
            Ok((is_found, rest)) => {
                archive = rest;
                if !is_found {
                    status = 1;
                }
            }
            Err(TypedFault::Program(fault)) => return Err(system.fail(names, &fault)),
            Err(_) => return Err(keys.bad_key(system, number, key, item)),
        }
    }
    match write_all(&mut system.stdout(), lines.as_bytes()) {
        Ok(()) => Ok((status, archive)),
        Err(fault) => Err(system.fail(names, &fault)),
    }
}

/// Looks up the keys that a reader has.
fn write_keys_of<A: Archive, R: Read + Drop>(
    system: &System<'_>,
    names: Names<'_>,
    archive: A,
    input: R,
    name: Option<&str>,
) -> Result<(u8, A), Ended> {
    match buffered(system.alloc(), Progress::silent(system, input)) {
        Ok(input) => write_keys(system, names, archive, KeyLines { input, name }),
        Err(fault) => Err(system.fail(names, &fault)),
    }
}

/// Looks up keys in an archive of so many bytes, and returns the exit status.
pub(crate) fn get_keys_in<A: Archive>(
    system: &System<'_>,
    matches: &ArgMatches<'_>,
    names: Names<'_>,
    size: u64,
    archive: A,
    keys: &KeyList<'_>,
) -> Result<u8, Ended> {
    let (status, archive) = match keys {
        KeyList::From(word) => match file_named(*word) {
            None => write_keys_of(system, names, archive, system.stdin()?, None)?,
            Some(name) => {
                let file = system.open(name)?;
                write_keys_of(system, names, archive, file, Some(name))?
            }
        },
        KeyList::Words(words) => {
            let words = words.iter();
            write_keys(system, names, archive, KeyWords { words })?
        }
    };
    write_stats(system, matches, archive.bytes_read(), size);
    Ok(status)
}

/// Looks up keys in an archive of texts that is all of a source, and has this name.
fn get_texts_in<S: ReadAt + Drop>(
    system: &System<'_>,
    matches: &ArgMatches<'_>,
    path: Option<&str>,
    mut source: S,
    keys: &KeyList<'_>,
) -> Result<u8, Ended> {
    let names = Names::of_input(path);
    let Ok(size) = source.size() else {
        return Err(system.fail(names, &ProgramFault::InputFailed));
    };
    match sourced::open(source) {
        Ok(map) => get_keys_in(system, matches, names, size, ArchiveOfTexts { map }, keys),
        Err(fault) => Err(system.fail(names, &fault)),
    }
}

/// Returns whether there are so many keys that it takes less time to read all of a regular file than what the look-ups need of it.
pub(crate) fn are_many(system: &System<'_>, file: &File, keys: &KeyList<'_>) -> bool {
    let KeyList::From(keys) = keys else {
        return false;
    };
    let (Ok(archive), Ok(keys)) = (file.metadata(), metadata(system.rt, *keys)) else {
        return false;
    };
    let size = archive.len();
    keys.is_file() && size <= MOST_WHOLE && size / BYTES_FOR_A_BYTE <= keys.len()
}

/// Reads all of an archive, and validates it if it is no regular file, or the words ask for it.
fn read_archive(
    system: &System<'_>,
    matches: &ArgMatches<'_>,
    file: File,
) -> Result<Vec<u8>, ProgramFault> {
    let is_validated = !is_regular(&file) || matches.get_flag("validate");
    let bytes = read_all(system.alloc(), &mut Progress::of_file(system, file))?;
    if is_validated {
        opening::open(&bytes)?;
    }
    Ok(bytes)
}

/// Returns how many blocks the look-ups of keys keep.
pub(crate) fn blocks_for(keys: &KeyList<'_>) -> usize {
    match keys {
        KeyList::From(_) => MANY_BLOCKS,
        KeyList::Words(words) => {
            let blocks = words.len().saturating_mul(BLOCKS_FOR_A_KEY);
            blocks.min(MANY_BLOCKS)
        }
    }
}

/// Looks up keys in the archive of texts that all of an input has, which comes from this file.
fn get_keys_in_bytes(
    system: &System<'_>,
    matches: &ArgMatches<'_>,
    path: Option<&str>,
    bytes: &[u8],
    keys: &KeyList<'_>,
) -> Result<u8, Ended> {
    match opening::open(bytes) {
        Ok(_) => get_texts_in(system, matches, path, bytes, keys),
        Err(fault) => Err(system.fail(Names::of_input(path), &fault)),
    }
}

/// Looks up keys in the archive of texts of this name, or in that of standard input.
fn get_keys(
    system: &System<'_>,
    matches: &ArgMatches<'_>,
    path: Option<&str>,
    keys: &KeyList<'_>,
) -> Result<u8, Ended> {
    let Some(name) = path else {
        return get_keys_in_bytes(system, matches, path, &read(system, None)?, keys);
    };
    let file = system.open(name)?;
    let in_parts = is_regular(&file) && !matches.get_flag("validate");
    if in_parts && !are_many(system, &file, keys) {
        return match cached(system, file, blocks_for(keys)) {
            Ok(source) => get_texts_in(system, matches, path, source, keys),
            Err(fault) => Err(system.fail(Names::of_input(path), &fault)),
        };
    }
    match read_archive(system, matches, file) {
        Ok(bytes) => get_texts_in(system, matches, path, bytes.as_slice(), keys),
        Err(fault) => Err(system.fail(Names::of_input(path), &fault)),
    }
}

/// Returns the keys that are all of the words of `get` but the last, which is the file.
fn key_words<'a>(system: &System<'_>, matches: &ArgMatches<'a>) -> Result<Vec<&'a str>, Ended> {
    let mut keys = Vec::new(system.alloc());
    let first = [
        matches.get_str("KEY").unwrap_or(""),
        matches.get_str("FILE").unwrap_or(""),
    ];
    let Some((_, more)) = matches.get_strs("MORE").unwrap_or(&[]).split_last() else {
        return Ok(keys);
    };
    if keys.extend_from_slice(&first).is_err() || keys.extend_from_slice(more).is_err() {
        return Err(system.fail(Names::of_input(None), &ProgramFault::Memory));
    }
    Ok(keys)
}

/// Returns where the words of `get` have several keys.
pub(crate) fn asked_keys<'a>(
    system: &System<'_>,
    matches: &ArgMatches<'a>,
) -> Result<KeyList<'a>, Ended> {
    match matches.get_str("keys-from") {
        Some(name) => Ok(KeyList::From(name)),
        None => Ok(KeyList::Words(key_words(system, matches)?)),
    }
}

/// Looks up several keys in the archive of texts that the words name.
fn get_several(system: &System<'_>, matches: &ArgMatches<'_>) -> Result<u8, Ended> {
    let keys = asked_keys(system, matches)?;
    get_keys(system, matches, input_of("get", matches), &keys)
}

/// Looks them up in the archive of texts that all of an input has.
pub(crate) fn get_several_in(
    system: &System<'_>,
    matches: &ArgMatches<'_>,
    bytes: &[u8],
) -> Result<u8, Ended> {
    let keys = asked_keys(system, matches)?;
    get_keys_in_bytes(system, matches, input_of("get", matches), bytes, &keys)
}

/// Returns whether a file is a regular one.
pub(crate) fn is_regular(file: &File) -> bool {
    match file.metadata() {
        Ok(metadata) => metadata.is_file(),
        Err(_) => false,
    }
}

/// Writes the line of a key's value in a file.
fn get_in_file(
    system: &System<'_>,
    matches: &ArgMatches<'_>,
    file: File,
) -> Result<u8, ProgramFault> {
    if is_regular(&file) && !matches.get_flag("validate") {
        get_in_parts(system, matches, file)
    } else {
        in_all(system, "get", matches, Progress::of_file(system, file))
    }
}

/// Runs `get`, and returns the exit status.
pub fn get(system: &System<'_>, matches: &ArgMatches<'_>) -> Result<u8, Ended> {
    if words::has_several_keys("get", matches) {
        return get_several(system, matches);
    }
    let path = file_of(matches, "FILE");
    let done = match path {
        None => in_all(
            system,
            "get",
            matches,
            Progress::new(system, system.stdin()?),
        ),
        Some(path) => {
            let file = system.open(path)?;
            get_in_file(system, matches, file)
        }
    };
    match done {
        Ok(status) => Ok(status),
        Err(fault) => Err(system.fail(Names::of_input(path), &fault)),
    }
}
