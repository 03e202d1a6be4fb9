//! The first and the last entry, ranges of keys, and keys that begin with a text. A regular file isn't read whole.

use crate::inputs::file_of;
use crate::lookups::{FEW_BLOCKS, cached, in_all, is_regular, write_stats};
use crate::progress::Progress;
use crate::system::{Ended, Names, System};
use crate::words;
use btreearc_lines::fault::ProgramFault;
use btreearc_lines::streams::write_all;
use btreekv_commands::forms::Form;
use btreekv_commands::opening::Texts;
use btreekv_commands::{ranged, sourced};
use clap::ArgMatches;
use rkyv_btree_source::cached::CachedSource;
use rkyv_btree_source::source::ReadAt;
use rkyv_btree_source::unverified_source::UnverifiedSource;
use std::fs::File;

/// The number of blocks that a range keeps.
const BLOCKS: usize = 64;

/// Returns the lines of a range, or of the keys that begin with a text, and the archive.
fn lines_of<S: ReadAt + Drop>(
    system: &System<'_>,
    name: &str,
    matches: &ArgMatches<'_>,
    map: UnverifiedSource<S, Texts>,
    form: Form,
) -> Result<(Vec<u8>, UnverifiedSource<S, Texts>), ProgramFault> {
    let alloc = system.alloc();
    let mut room = sourced::first_room(alloc)?;
    let low = if name == "range" { "LOW" } else { "TEXT" };
    let Ok(low) = words::owned(alloc, matches, low) else {
        return Err(ProgramFault::Memory);
    };
    if name != "range" {
        return ranged::prefix_in(alloc, map, &mut room, &low, form);
    }
    let Ok(high) = words::owned(alloc, matches, "HIGH") else {
        return Err(ProgramFault::Memory);
    };
    ranged::range_in(alloc, map, &mut room, &low, &high, form)
}

/// Returns what a command writes of the archive that is all of a source, its status, and the archive.
fn text_of<S: ReadAt + Drop>(
    system: &System<'_>,
    name: &str,
    matches: &ArgMatches<'_>,
    mut map: UnverifiedSource<S, Texts>,
) -> Result<(Vec<u8>, u8, UnverifiedSource<S, Texts>), ProgramFault> {
    let alloc = system.alloc();
    let form = words::form_of(matches);
    match name {
        "first" => {
            let mut room = sourced::first_room(alloc)?;
            ranged::first_in(alloc, map, &mut room, form)
        }
        "last" => {
            let mut room = sourced::first_room(alloc)?;
            let (text, status) = ranged::last_in(alloc, &mut map, &mut room, form)?;
            Ok((text, status, map))
        }
        _ => {
            let (text, map) = lines_of(system, name, matches, map, form)?;
            Ok((text, 0, map))
        }
    }
}

/// Writes an end or the lines of a range in a regular file, of which only these and the ways to them are read and validated.
fn in_parts(
    system: &System<'_>,
    name: &str,
    matches: &ArgMatches<'_>,
    file: File,
) -> Result<u8, ProgramFault> {
    let blocks = match name {
        "first" | "last" => FEW_BLOCKS,
        _ => BLOCKS,
    };
    let mut source = cached(system, file, blocks)?;
    let Ok(size) = source.size() else {
        return Err(ProgramFault::InputFailed);
    };
    let map = sourced::open(source)?;
    let (text, status, map) = text_of(system, name, matches, map)?;
    write_all(&mut system.stdout(), &text)?;
    let read = sourced::BUDGET.saturating_sub(map.budget_left());
    write_stats(system, matches, read, size);
    Ok(status)
}

/// Writes an end or the lines of a range in a file.
fn in_file(
    system: &System<'_>,
    name: &str,
    matches: &ArgMatches<'_>,
    file: File,
) -> Result<u8, ProgramFault> {
    if is_regular(&file) && !matches.get_flag("validate") {
        in_parts(system, name, matches, file)
    } else {
        in_all(system, name, matches, Progress::of_file(system, file))
    }
}

/// Runs `first`, `last`, `range` or `prefix`, and returns the exit status.
pub fn run(system: &System<'_>, name: &str, matches: &ArgMatches<'_>) -> Result<u8, Ended> {
    let path = file_of(matches, "FILE");
    let done = match path {
        None => in_all(
            system,
            name,
            matches,
            Progress::new(system, system.stdin()?),
        ),
        Some(path) => {
            let file = system.open(path)?;
            in_file(system, name, matches, file)
        }
    };
    match done {
        Ok(status) => Ok(status),
        Err(fault) => Err(system.fail(Names::of_input(path), &fault)),
    }
}
