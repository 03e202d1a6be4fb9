//! The command `list`.

use crate::archives::read;
use crate::inputs::file_of;
use crate::sink::WRITE_LEN;
use crate::system::{Ended, Names, System};
use crate::words::{form_of, table_of};
use btreearc_lines::fault::ProgramFault;
use btreekv_commands::list::{list, list_object, list_table};
use clap::ArgMatches;
use std::io::BufWriter;

/// Writes the entries of an archive, as its words say.
fn write_entries(
    system: &System<'_>,
    matches: &ArgMatches<'_>,
    archive: &[u8],
) -> Result<(), ProgramFault> {
    let alloc = system.alloc();
    let Ok(mut output) = BufWriter::with_capacity(alloc, WRITE_LEN, system.stdout()) else {
        return Err(ProgramFault::Memory);
    };
    if matches.get_flag("json") {
        return list_object(alloc, archive, &mut output);
    }
    match table_of(matches) {
        Some(table) => list_table(alloc, archive, table, &mut output),
        None => list(alloc, archive, form_of(matches), &mut output),
    }
}

/// Writes the entries of an archive, which came from this file, and returns the exit status.
pub(crate) fn write(
    system: &System<'_>,
    matches: &ArgMatches<'_>,
    names: Names<'_>,
    archive: &[u8],
) -> Result<u8, Ended> {
    match write_entries(system, matches, archive) {
        Ok(()) => Ok(0),
        Err(fault) => Err(system.fail(names, &fault)),
    }
}

/// Writes the entries of a file, or of standard input, and returns the exit status.
pub fn run(system: &System<'_>, matches: &ArgMatches<'_>) -> Result<u8, Ended> {
    let path = file_of(matches, "FILE");
    let archive = read(system, path)?;
    write(system, matches, Names::of_input(path), &archive)
}
