//! Archived maps of `u32` to `u32`: built from lines, checked, listed, looked up in and edited.
#![tactic(auto)]

use btreearc_commands::{program, streaming};
use btreearc_lines::command::Command;
use btreearc_lines::fault::ProgramFault;
use btreearc_lines::heading::Heading;
use btreearc_lines::spool::{Bytes, read_bytes};
use std::env;
use std::io::{BufWriter, ErrorKind};
use std::process::ExitCode;

/// The number of bytes that one write of an archive has.
const WRITE_LEN: usize = 65536;

/// The words after the program's name. A word that isn't UTF-8 is a wrong use.
fn words(rt: &HostRuntime) -> Result<Vec<String>, ProgramFault> {
    let args = match env::args(rt) {
        Ok(args) => args,
        Err(error) if error.kind() == ErrorKind::OutOfMemory => return Err(ProgramFault::Memory),
        Err(_) => return Err(ProgramFault::Usage),
    };
    let mut words = Vec::new(rt.alloc());
    for word in args.skip(1) {
        if words.push(word).is_err() {
            return Err(ProgramFault::Memory);
        }
    }
    Ok(words)
}

/// Runs a command that builds, which the words name, over the standard streams. A few megabytes of lines are held in memory, and more
/// are read again from a file.
fn build(
    rt: &HostRuntime,
    words: &[String],
    is_strict: bool,
    heading: Heading,
) -> Result<u8, ProgramFault> {
    match read_bytes(rt, rt.stdin())? {
        Bytes::Held(bytes) => {
            let mut output = rt.stdout();
            program::run(rt.alloc(), words, &mut bytes.as_slice(), &mut output)
        }
        Bytes::Spooled(lines) => {
            let Ok(output) = BufWriter::with_capacity(rt.alloc(), WRITE_LEN, rt.stdout()) else {
                return Err(ProgramFault::Memory);
            };
            streaming::build(rt.alloc(), is_strict, heading, &lines, output).0
        }
    }
}

/// Runs the command of the arguments over the standard streams.
fn start(rt: &HostRuntime) -> Result<u8, ProgramFault> {
    let words = words(rt)?;
    match Command::from_words(&words) {
        Some(Command::Build(heading)) => return build(rt, &words, false, heading),
        Some(Command::BuildStrict(heading)) => return build(rt, &words, true, heading),
        _ => {}
    }
    let mut input = rt.stdin();
    let mut output = rt.stdout();
    program::run(rt.alloc(), &words, &mut input, &mut output)
}

fn main(rt: HostRuntime) -> ExitCode {
    match start(&rt) {
        Ok(status) => ExitCode::from(status),
        Err(fault) => {
            let _ = eprintln!(rt; "{fault}");
            ExitCode::from(2)
        }
    }
}
