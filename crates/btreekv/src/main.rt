//! Archived maps of texts to texts: built from lines, checked, listed and looked up in.
#![tactic(auto)]

mod archives;
mod explained;
mod files;
mod inputs;
mod listed;
mod lookups;
mod output;
mod overwritten;
mod progress;
mod ranges;
mod sink;
mod system;
mod typed;
mod typed_lookups;
mod words;

use btreearc_lines::fault::ProgramFault;
use btreearc_lines::reopen::{Reopen, from_start};
use btreearc_lines::spool::{Bytes, read_bytes};
use btreekv_commands::command::Command;
use btreekv_commands::program::run;
use btreekv_commands::streaming;
use clap::ArgMatches;
use files::Lines;
use output::Output;
use progress::Progress;
use std::env;
use std::fs::File;
use std::io::{BufWriter, Read};
use std::process::ExitCode;
use system::{Ended, Names, System};

/// The number of bytes that one write of an archive has.
const WRITE_LEN: usize = 65536;

/// Runs a command over an input, and a file or standard output.
fn run_over<R: Read>(
    system: &System<'_>,
    command: &Command,
    input: &mut R,
    output: Option<File>,
) -> Result<u8, ProgramFault> {
    match output {
        Some(file) => run(system.alloc(), command, input, &mut system.writing(file)),
        None => run(system.alloc(), command, input, &mut system.stdout()),
    }
}

/// Writes the archive of the lines of an input that can be read again, to a file or to standard output.
fn build_lines<R: Reopen>(
    system: &System<'_>,
    command: &Command,
    input: &R,
    output: Option<File>,
) -> Result<u8, ProgramFault> {
    let (is_strict, heading) = match command {
        Command::Build(heading) => (false, *heading),
        Command::BuildStrict(heading) => (true, *heading),
        _ => return run_over(system, command, &mut input.reopen()?, output),
    };
    let alloc = system.alloc();
    if let Some(file) = output {
        let Ok(output) = BufWriter::with_capacity(alloc, WRITE_LEN, system.writing(file)) else {
            return Err(ProgramFault::Memory);
        };
        return streaming::build(alloc, is_strict, heading, input, output).0;
    }
    let Ok(output) = BufWriter::with_capacity(alloc, WRITE_LEN, system.stdout()) else {
        return Err(ProgramFault::Memory);
    };
    streaming::build(alloc, is_strict, heading, input, output).0
}

/// Writes the archive of the lines of an input that can be read again. An error names the first line that is no entry.
fn build_named<R: Reopen>(
    system: &System<'_>,
    command: &Command,
    names: Names<'_>,
    input: &R,
    output: Option<File>,
) -> Result<u8, Ended> {
    match (build_lines(system, command, input, output), command) {
        (
            Ok(status),
            Command::BuildFrom(_, _) | Command::BuildJson(_) | Command::BuildTable(_, _),
        ) => { Ok(status) }
        (Ok(status), _) => {
            system.warn_of_returns(names.input, input);
            Ok(status)
        }
        (Err(ProgramFault::Line(number)), Command::BuildFrom(form, _)) => {
            Err(system.bad_record(names.input, number, *form))
        }
        (Err(ProgramFault::Line(number)), Command::BuildTable(_, _)) => {
            Err(system.bad_row(names.input, number))
        }
        (Err(ProgramFault::Line(_)), Command::BuildJson(_)) => Err(system.no_object(names.input)),
        (Err(fault), _) => Err(system.fail_at(names, input, &fault)),
    }
}

/// Writes the archive of the lines of an input that can't seek.
fn build_bytes<R: Read + Drop>(
    system: &System<'_>,
    command: &Command,
    names: Names<'_>,
    input: R,
    output: Option<File>,
) -> Result<u8, Ended> {
    match read_bytes(system.rt, Progress::new(system, input)) {
        Ok(Bytes::Held(bytes)) => { build_named(system, command, names, &bytes.as_slice(), output) }
        Ok(Bytes::Spooled(spooled)) => build_named(system, command, names, &spooled, output),
        Err(fault) => Err(system.fail(names, &fault)),
    }
}

/// Writes the archive of the lines of a file, or of standard input.
fn build(
    system: &System<'_>,
    command: &Command,
    names: Names<'_>,
    output: Option<File>,
) -> Result<u8, Ended> {
    let Some(path) = names.input else {
        return build_bytes(system, command, names, system.stdin()?, output);
    };
    let file = system.open(path)?;
    if from_start(&file).is_ok() {
        build_named(system, command, names, &Lines::new(system, file), output)
    } else {
        build_bytes(system, command, names, file, output)
    }
}

/// Runs a command over an archive, which is a file or standard input.
fn read(system: &System<'_>, command: &Command, names: Names<'_>) -> Result<u8, Ended> {
    let done = match names.input {
        None => {
            let mut input = Progress::new(system, system.stdin()?);
            run_over(system, command, &mut input, None)
        }
        Some(path) => {
            let file = system.open(path)?;
            run_over(system, command, &mut Progress::of_file(system, file), None)
        }
    };
    match done {
        Ok(status) => Ok(status),
        Err(fault) => Err(system.fail(names, &fault)),
    }
}

/// Writes an archive of lines that takes the place of a file.
fn build_into(
    system: &System<'_>,
    command: &Command,
    names: Names<'_>,
    path: &str,
) -> Result<u8, Ended> {
    let output = match Output::open(system, path) {
        Ok(output) => output,
        Err(fault) => return Err(system.fail(names, &fault)),
    };
    let file = match output.file() {
        Ok(file) => file,
        Err(fault) => {
            output.abandon();
            return Err(system.fail(names, &fault));
        }
    };
    match build(system, command, names, Some(file)) {
        Ok(_) => {}
        Err(ended) => {
            output.abandon();
            return Err(ended);
        }
    }
    match output.finish() {
        Ok(()) => Ok(0),
        Err(fault) => Err(system.fail(names, &fault)),
    }
}

/// Returns the words of the command line.
fn arguments(system: &System<'_>) -> Result<Vec<String>, ProgramFault> {
    let Ok(args) = env::args(system.rt) else {
        return Err(ProgramFault::Usage);
    };
    let mut words = Vec::new(system.alloc());
    for word in args {
        if words.push(word).is_err() {
            return Err(ProgramFault::Memory);
        }
    }
    Ok(words)
}

/// Does what the words of a command over one file say, and returns the exit status.
fn one_file(system: &System<'_>, name: &str, matches: &ArgMatches<'_>) -> Result<u8, Ended> {
    let names = Names {
        input: inputs::input_of(name, matches),
        output: inputs::output_of(name, matches),
    };
    let Ok(command) = words::command_of(system.alloc(), name, matches) else {
        return Err(system.fail(names, &ProgramFault::Memory));
    };
    match names.output {
        Some(output) => build_into(system, &command, names, output),
        None if name == "build" => build(system, &command, names, None),
        None => read(system, &command, names),
    }
}

/// Does what the words say, and returns the exit status.
fn status(system: &System<'_>) -> Result<u8, Ended> {
    let words = match arguments(system) {
        Ok(words) => words,
        Err(fault) => return Err(system.fail(Names::of_input(None), &fault)),
    };
    let matches = match words::parse(system.alloc(), words.as_slice()) {
        Ok(matches) => matches,
        Err(error) => {
            let _ = error.print(system.rt);
            return Ok(if error.use_stderr() { 2 } else { 0 });
        }
    };
    let Some((name, matches)) = matches.subcommand() else {
        return Err(system.fail(Names::of_input(None), &ProgramFault::Usage));
    };
    if inputs::reads_stdin_twice(name, matches) {
        return Err(system.stdin_twice());
    }
    if inputs::output_of(name, matches).is_none() {
        system.writes_to_stdout();
    }
    if let Some(status) = typed::run(system, name, matches)? {
        return Ok(status);
    }
    match name {
        "update" | "merge" | "diff" => archives::run(system, name, matches),
        "set" => archives::set(system, matches),
        "top" => archives::top(system, matches),
        "explain" => explained::run(system, matches),
        "list" => listed::run(system, matches),
        "get" => lookups::get(system, matches),
        "first" | "last" | "range" | "prefix" => ranges::run(system, name, matches),
        _ => one_file(system, name, matches),
    }
}

fn main(rt: HostRuntime) -> ExitCode {
    match status(&System::new(&rt)) {
        Ok(status) => ExitCode::from(status),
        Err(ended) => ExitCode::from(ended.status),
    }
}
