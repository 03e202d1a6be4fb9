//! The command `set --in-place`.

use crate::inputs::file_of;
use crate::lookups::is_regular;
use crate::progress::Progress;
use crate::system::{Ended, Names, System};
use crate::typed::{bad_word, fail_of, header_types, named_types};
use crate::words;
use btreearc_lines::fault::ProgramFault;
use btreearc_lines::streams::read_all;
use btreekv_types::overwriting::{OverwriteFault, Place};
use btreekv_types::overwriting_types::overwrite_at;
use btreekv_types::types::Types;
use clap::ArgMatches;
use std::fs::{File, OpenOptions};
use std::os::unix::fs::FileExt;

/// The status if no entry has the key.
const NOT_FOUND: u8 = 1;

/// Why a value isn't written over that is no number.
const NO_NUMBERS: &str = "the values are no numbers";

/// Why a value isn't written over in what is no file.
const NO_FILE: &str = "it is no regular file";

/// Opens a file to read and to write it.
fn open(system: &System<'_>, path: &str) -> Result<File, Ended> {
    match OpenOptions::new()
        .read(true)
        .write(true)
        .open(system.rt, path)
    {
        Ok(file) => Ok(file),
        Err(error) => {
            system.read_failed(&error);
            Err(system.fail(Names::of_input(Some(path)), &ProgramFault::InputFailed))
        }
    }
}

/// Returns another handle of a file, which reads from its first byte.
fn handle(system: &System<'_>, path: &str, file: &File) -> Result<File, Ended> {
    match file.try_clone() {
        Ok(file) => Ok(file),
        Err(error) => {
            system.read_failed(&error);
            Err(system.fail(Names::of_input(Some(path)), &ProgramFault::InputFailed))
        }
    }
}

/// Writes the bytes of a place into a file, and waits until they are on the disk.
fn write(system: &System<'_>, file: &File, place: Place, bytes: &[u8]) -> Result<(), ProgramFault> {
    let start = place.start as usize;
    let Some(value) = bytes.get(start..start.saturating_add(place.len as usize)) else {
        return Err(ProgramFault::OutputFailed);
    };
    match file.write_all_at(value, u64::from(place.start)) {
        Ok(()) => {}
        Err(error) => return Err(system.write_failed(&error)),
    }
    match file.sync_all() {
        Ok(()) => Ok(()),
        Err(error) => Err(system.write_failed(&error)),
    }
}

/// Writes the line of a file in which nothing is written, and why.
fn refuse(system: &System<'_>, path: &str, why: &str) -> Ended {
    let rt = system.rt;
    let _ = eprintln!(rt; "btreekv: not written: {path}: {why}");
    Ended::failed()
}

/// Writes the line of a value that isn't written over.
fn fail(
    system: &System<'_>,
    types: Types,
    matches: &ArgMatches<'_>,
    path: &str,
    fault: &OverwriteFault,
) -> Ended {
    match fault {
        OverwriteFault::Program(fault) => {
            fail_of(system, types, Names::of_input(Some(path)), fault)
        }
        OverwriteFault::NoKey => bad_word(system, matches, "KEY", types.key()),
        OverwriteFault::NoValue => bad_word(system, matches, "VALUE", types.value()),
        OverwriteFault::InHeader => refuse(system, path, "the value is in the header"),
        OverwriteFault::NotOverwritten => refuse(system, path, NO_NUMBERS),
    }
}

/// Writes a value over that of a key in the bytes of a file of maps of these types, and then in the file. Returns the exit status.
fn overwrite(
    system: &System<'_>,
    types: Types,
    matches: &ArgMatches<'_>,
    path: &str,
    file: &File,
    mut bytes: Vec<u8>,
) -> Result<u8, Ended> {
    let key = matches.get_str("KEY").unwrap_or("");
    let value = matches.get_str("VALUE").unwrap_or("");
    let style = words::style_of(matches);
    match overwrite_at(types, system.alloc(), style, key, value, &mut bytes) {
        Ok(Some(place)) => match write(system, file, place, &bytes) {
            Ok(()) => Ok(0),
            Err(fault) => Err(system.fail(
                Names {
                    input: None,
                    output: Some(path),
                },
                &fault,
            )),
        },
        Ok(None) => {
            let rt = system.rt;
            let _ = eprintln!(rt; "btreekv: not written: {path}: no entry has the key {key}");
            Ok(NOT_FOUND)
        }
        Err(fault) => Err(fail(system, types, matches, path, &fault)),
    }
}

/// Runs `set --in-place`, and returns the exit status. If it isn't 0, the file is unchanged, unless the write failed.
pub(crate) fn run(system: &System<'_>, matches: &ArgMatches<'_>) -> Result<u8, Ended> {
    let named = named_types(system, matches)?;
    let Some(path) = file_of(matches, "FILE") else {
        return Err(refuse(system, "-", NO_FILE));
    };
    let file = open(system, path)?;
    if !is_regular(&file) {
        return Err(refuse(system, path, NO_FILE));
    }
    let mut input = Progress::of_file(system, handle(system, path, &file)?);
    let bytes = match read_all(system.alloc(), &mut input) {
        Ok(bytes) => bytes,
        Err(fault) => return Err(system.fail(Names::of_input(Some(path)), &fault)),
    };
    match named.or(header_types(&bytes)) {
        Some(types) => overwrite(system, types, matches, path, &file, bytes),
        None => Err(refuse(system, path, NO_NUMBERS)),
    }
}
