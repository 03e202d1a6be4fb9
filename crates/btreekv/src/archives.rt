//! Commands that hold whole files in memory: updates, entries that are set, merges, differences and sidecars.

use crate::inputs::{file_named, file_of, input_of, output_of};
use crate::output::Output;
use crate::progress::Progress;
use crate::system::{Ended, Names, System, bad_byte_of};
use btreearc_lines::fault::ProgramFault;
use btreearc_lines::streams::{read_all, write_all};
use btreekv_commands::opening::ArchiveFault;
use btreekv_commands::sidecar::sidecar;
use btreekv_commands::update_fault::UpdateFault;
use btreekv_commands::{differences, merging, updating};
use clap::ArgMatches;

/// Writes the line of an error of archives of these names.
fn fail(system: &System<'_>, archives: &[&str], fault: UpdateFault) -> Ended {
    let nameless = Names::of_input(None);
    match fault {
        UpdateFault::Line(line) => system.fail(nameless, &ProgramFault::Line(line)),
        UpdateFault::OutOfOrder(line) => system.out_of_order(None, line),
        UpdateFault::Archive(which, fault) => {
            let name = match archives.get(which) {
                Some(name) => file_named(*name),
                None => None,
            };
            let fault = match fault {
                ArchiveFault::Misheaded(fault) => ProgramFault::Misheaded(fault),
                ArchiveFault::Refused(refusal) => ProgramFault::Refused(refusal),
            };
            system.fail(Names::of_input(name), &fault)
        }
        UpdateFault::NotBuilt(fault) => system.fail(nameless, &ProgramFault::NotBuilt(fault)),
        UpdateFault::Memory => system.fail(nameless, &ProgramFault::Memory),
    }
}

/// Writes the line of an error of an update by lines of this name.
fn fail_update(
    system: &System<'_>,
    archive: &str,
    name: Option<&str>,
    changes: &[u8],
    fault: UpdateFault,
) -> Ended {
    match fault {
        UpdateFault::Line(line) => {
            let byte = bad_byte_of(system.alloc(), &changes, line).unwrap_or(1);
            system.not_utf8(name, line, byte)
        }
        UpdateFault::OutOfOrder(line) => system.out_of_order(name, line),
        fault => fail(system, &[archive], fault),
    }
}

/// Reads a file, or standard input.
pub(crate) fn read(system: &System<'_>, path: Option<&str>) -> Result<Vec<u8>, Ended> {
    let alloc = system.alloc();
    let read = match path {
        None => read_all(alloc, &mut Progress::new(system, system.stdin()?)),
        Some(path) => {
            let file = system.open(path)?;
            read_all(alloc, &mut Progress::of_file(system, file))
        }
    };
    match read {
        Ok(bytes) => Ok(bytes),
        Err(fault) => Err(system.fail(Names::of_input(path), &fault)),
    }
}

/// Writes bytes to a file, in place of an old one.
fn write_file(system: &System<'_>, path: &str, bytes: &[u8]) -> Result<(), ProgramFault> {
    let output = Output::open(system, path)?;
    let written = match output.file() {
        Ok(file) => write_all(&mut system.writing(file), bytes),
        Err(fault) => Err(fault),
    };
    match written {
        Ok(()) => output.finish(),
        Err(fault) => {
            output.abandon();
            Err(fault)
        }
    }
}

/// Writes bytes to a file or to standard output, and returns the exit status.
fn write(system: &System<'_>, output: Option<&str>, bytes: &[u8]) -> Result<u8, Ended> {
    let written = match output {
        Some(path) => write_file(system, path, bytes),
        None => write_all(&mut system.stdout(), bytes),
    };
    match written {
        Ok(()) => Ok(0),
        Err(fault) => Err(system.fail(
            Names {
                input: None,
                output,
            },
            &fault,
        )),
    }
}

/// Runs `update` over an archive, and returns the exit status.
fn update(system: &System<'_>, matches: &ArgMatches<'_>, archive: &[u8]) -> Result<u8, Ended> {
    let name = matches.get_str("ARCHIVE").unwrap_or("");
    let changes_name = file_of(matches, "CHANGES");
    let changes = read(system, changes_name)?;
    let sorts = matches.get_flag("sort");
    match updating::update(system.alloc(), sorts, archive, &changes) {
        Ok(bytes) => write(system, output_of("update", matches), &bytes),
        Err(fault) => { Err(fail_update(system, name, changes_name, &changes, fault)) }
    }
}

/// Writes an archive, which came from this file, with one entry put, and returns the exit status.
pub(crate) fn set_in(
    system: &System<'_>,
    matches: &ArgMatches<'_>,
    name: Option<&str>,
    archive: &[u8],
) -> Result<u8, Ended> {
    let key = matches.get_str("KEY").unwrap_or("");
    let value = matches.get_str("VALUE").unwrap_or("");
    match (updating::set(system.alloc(), archive, key, value), name) {
        (Ok(bytes), _) => write(system, output_of("set", matches), &bytes),
        (Err(fault), Some(name)) => Err(fail(system, &[name], fault)),
        (Err(fault), None) => Err(fail(system, &[], fault)),
    }
}

/// Runs `set`, and returns the exit status.
pub fn set(system: &System<'_>, matches: &ArgMatches<'_>) -> Result<u8, Ended> {
    let name = file_of(matches, "FILE");
    let archive = read(system, name)?;
    set_in(system, matches, name, &archive)
}

/// Reads files, in their order.
pub(crate) fn read_each(system: &System<'_>, names: &[&str]) -> Result<Vec<Vec<u8>>, Ended> {
    let mut files = Vec::new(system.alloc());
    for name in names {
        let file = read(system, file_named(*name))?;
        if files.push(file).is_err() {
            return Err(system.fail(Names::of_input(None), &ProgramFault::Memory));
        }
    }
    Ok(files)
}

/// Runs `merge` over an archive and the others, and returns the exit status.
fn merge(system: &System<'_>, matches: &ArgMatches<'_>, archive: &[u8]) -> Result<u8, Ended> {
    let alloc = system.alloc();
    let first = matches.get_str("ARCHIVE").unwrap_or("");
    let other_names = matches.get_strs("OTHERS").unwrap_or(&[]);
    let mut names = Vec::new(alloc);
    if names.push(first).is_err() || names.extend_from_slice(other_names).is_err() {
        return Err(system.fail(Names::of_input(None), &ProgramFault::Memory));
    }
    let others = read_each(system, other_names)?;
    match merging::merge(alloc, archive, &others) {
        Ok(bytes) => write(system, output_of("merge", matches), &bytes),
        Err(fault) => { Err(fail(system, &names, fault)) }
    }
}

/// Runs `diff` over an old archive, and returns the exit status.
fn diff(system: &System<'_>, matches: &ArgMatches<'_>, old: &[u8]) -> Result<u8, Ended> {
    let old_name = matches.get_str("OLD").unwrap_or("");
    let new_name = matches.get_str("NEW").unwrap_or("");
    let new = read(system, file_named(new_name))?;
    match differences::diff(system.alloc(), old, &new) {
        Ok(text) => write(system, None, text.as_bytes()),
        Err(fault) => { Err(fail(system, &[old_name, new_name], fault)) }
    }
}

/// Runs `update`, `merge` or `diff` over an archive, which is the first of its files, and returns the exit status.
pub(crate) fn run_in(
    system: &System<'_>,
    name: &str,
    matches: &ArgMatches<'_>,
    archive: &[u8],
) -> Result<u8, Ended> {
    match name {
        "update" => update(system, matches, archive),
        "merge" => merge(system, matches, archive),
        _ => diff(system, matches, archive),
    }
}

/// Runs `update`, `merge` or `diff`, and returns the exit status.
pub fn run(system: &System<'_>, name: &str, matches: &ArgMatches<'_>) -> Result<u8, Ended> {
    let archive = read(system, input_of(name, matches))?;
    run_in(system, name, matches, &archive)
}

/// Runs `top`, and returns the exit status.
pub fn top(system: &System<'_>, matches: &ArgMatches<'_>) -> Result<u8, Ended> {
    let name = file_of(matches, "FILE");
    let levels = matches.get_one::<u32>("LEVELS").unwrap_or(1);
    let archive = read(system, name)?;
    match sidecar(system.alloc(), levels, &archive) {
        Ok(bytes) => write(system, output_of("top", matches), &bytes),
        Err(fault) => Err(system.fail(Names::of_input(name), &fault)),
    }
}
