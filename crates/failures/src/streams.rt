//! The commands of the program over readers and writers that give or take one byte at a time, and fail at one call.

use crate::archives::{Case, archived, cases, swapped_tens, tens};
use crate::writes::show_bytes;
use btreearc_commands::program;
use btreearc_lines::fault::ProgramFault;
use rkyv_btree::prelude::*;
use std::alloc::{AllocError, Global};
use std::io::{self, ErrorKind, Read, Write};

/// A reader that gives one byte a read, and may fail at one read. The first has the number 1.
#[derive(Drop)]
struct SlowReader<'a> {
    rest: &'a [u8],
    reads: u32,
    fails_at: Option<u32>,
}

impl Read for SlowReader<'_> {
    fn read(&mut self, buf: &mut [u8]) -> io::Result<usize> {
        self.reads = self.reads.wrapping_add(1);
        if self.fails_at == Some(self.reads) {
            return Err(ErrorKind::Other.into());
        }
        let (Some((first, rest)), Some(place)) = (self.rest.split_first(), buf.first_mut()) else {
            return Ok(0);
        };
        *place = *first;
        self.rest = rest;
        Ok(1)
    }
}

/// A writer that takes one byte a write, and may fail at one write. The first has the number 1.
#[derive(Drop)]
struct SlowWriter {
    bytes: Vec<u8>,
    writes: u32,
    fails_at: Option<u32>,
}

impl Write for SlowWriter {
    fn write(&mut self, buf: &[u8]) -> io::Result<usize> {
        self.writes = self.writes.wrapping_add(1);
        if self.fails_at == Some(self.writes) {
            return Err(ErrorKind::StorageFull.into());
        }
        let Some(first) = buf.first() else {
            return Ok(0);
        };
        self.bytes.push(*first)?;
        Ok(1)
    }

    fn flush(&mut self) -> io::Result<()> {
        Ok(())
    }
}

/// The call that fails in a run of a command.
#[derive(Clone, Copy)]
enum Fails {
    Nothing,
    Read(u32),
    Write(u32),
}

/// What a run of a command has done.
#[derive(Drop)]
struct CommandRun {
    /// The status, or the line on standard error.
    said: String,
    written: Vec<u8>,
    reads: u32,
    writes: u32,
}

/// Returns the words as the program gets them.
fn words_of(alloc: Global, words: &str) -> Result<Vec<String>, AllocError> {
    let mut args = Vec::new(alloc);
    for word in words.split(' ') {
        args.push(String::from_str(alloc, word)?)?;
    }
    Ok(args)
}

/// Returns what a result says.
fn said(alloc: Global, answer: Result<u8, ProgramFault>) -> Result<String, AllocError> {
    match answer {
        Ok(status) => format!(in alloc; "status {status}"),
        Err(fault) => format!(in alloc; "{fault}"),
    }
}

/// Runs a command over streams of one byte a call, one of which fails.
fn run(alloc: Global, words: &str, input: &[u8], fails: Fails) -> Result<CommandRun, AllocError> {
    let (read_at, write_at) = match fails {
        Fails::Nothing => (None, None),
        Fails::Read(at) => (Some(at), None),
        Fails::Write(at) => (None, Some(at)),
    };
    let args = words_of(alloc, words)?;
    let mut reader = SlowReader {
        rest: input,
        reads: 0,
        fails_at: read_at,
    };
    let mut writer = SlowWriter {
        bytes: Vec::new(alloc),
        writes: 0,
        fails_at: write_at,
    };
    let answer = program::run(alloc, &args, &mut reader, &mut writer);
    Ok(CommandRun {
        said: said(alloc, answer)?,
        written: writer.bytes,
        reads: reader.reads,
        writes: writer.writes,
    })
}

impl CommandRun {
    /// Returns whether the input has failed at a read, and nothing was written.
    fn has_no_input(&self, at: u32) -> bool {
        self.said.as_str() == "btreearc: input failed"
            && self.written.is_empty()
            && self.reads == at
    }

    /// Returns whether the output has failed at a write, and all bytes before it were written.
    fn is_cut(&self, at: u32, whole: &[u8]) -> bool {
        self.said.as_str() == "btreearc: output failed"
            && whole.starts_with(&self.written)
            && self.written.len().checked_add(1) == Some(at as usize)
            && self.writes == at
    }
}

/// Appends three lines for a command: how many reads and writes it makes and what it writes, at how many of its reads the input
/// fails, and at how many of its writes the output.
fn show_command(alloc: Global, words: &str, input: &[u8], out: &mut String) -> anyhow::Result<()> {
    let whole = run(alloc, words, input, Fails::Nothing)?;
    let (said, reads, writes) = (&whole.said, whole.reads, whole.writes);
    write!(out, "{words}: {said}; {reads} reads, {writes} writes: ")?;
    show_bytes(&whole.written, out)?;
    out.push('\n')?;
    let mut refused: u32 = 0;
    for at in 1..=reads {
        if run(alloc, words, input, Fails::Read(at))?.has_no_input(at) {
            refused = refused.wrapping_add(1);
        }
    }
    write!(
        out,
        "{words}: input failed, nothing written: {refused} reads of {reads}\n"
    )?;
    let mut cut: u32 = 0;
    for at in 1..=writes {
        if run(alloc, words, input, Fails::Write(at))?.is_cut(at, &whole.written) {
            cut = cut.wrapping_add(1);
        }
    }
    write!(
        out,
        "{words}: output failed, the bytes before it written: {cut} writes of {writes}\n"
    )?;
    Ok(())
}

/// Archives a case over a writer of std that takes one byte a write, and may fail at one write.
fn hand_on(
    alloc: Global,
    case: &Case,
    fails_at: Option<u32>,
) -> anyhow::Result<(Result<u32, Fault<io::Error>>, SlowWriter)> {
    let writer = SlowWriter {
        bytes: case.old.to_vec(alloc)?,
        writes: 0,
        fails_at,
    };
    let mut writer = IoWriter::with_base(writer, case.old.len() as u64);
    let answer = case
        .content
        .write::<IoWriter<SlowWriter>, Global>(alloc, alloc, &mut writer)?;
    Ok((answer, writer.into_inner()))
}

/// Returns whether a write has failed by the writer's own error.
fn is_full(answer: &Result<u32, Fault<io::Error>>) -> bool {
    match answer {
        Err(Fault::Writer(error)) => error.kind() == ErrorKind::StorageFull,
        _ => false,
    }
}

/// Appends a line for a case: how many writes of one byte it makes, and at how many of them the writer's own error is told, with
/// all bytes before it written.
fn show_case(alloc: Global, case: &Case, out: &mut String) -> anyhow::Result<()> {
    let (_, whole) = hand_on(alloc, case, None)?;
    let writes = whole.writes;
    let mut cut: u32 = 0;
    for at in 1..=writes {
        let (answer, writer) = hand_on(alloc, case, Some(at))?;
        let taken = writer.bytes.len().checked_sub(case.old.len());
        if is_full(&answer)
            && whole.bytes.starts_with(&writer.bytes)
            && taken == Some(at as usize - 1)
            && writer.writes == at
        {
            cut = cut.wrapping_add(1);
        }
    }
    let name = case.name;
    write!(
        out,
        "{name}, one byte a write: writer failed, the bytes before it written: {cut} writes of {writes}\n"
    )?;
    Ok(())
}

/// Appends the lines of each case over a writer of std, and of each command.
pub(crate) fn show(alloc: Global, out: &mut String) -> anyhow::Result<()> {
    let archive = archived(alloc, tens(alloc, 17)?)?;
    let unordered = archived(alloc, swapped_tens(alloc, 17, 5)?)?;
    for case in &cases(alloc)? {
        show_case(alloc, case, out)?;
    }
    show_command(alloc, "build", b"1 10\n2 20\n3 30\n4 40\n5 50\n6 60\n", out)?;
    show_command(alloc, "build", b"", out)?;
    show_command(
        alloc,
        "build-strict",
        b"1 10\n2 20\n3 30\n4 40\n5 50\n6 60\n",
        out,
    )?;
    for words in [
        "list",
        "check",
        "check-strict",
        "get 17",
        "get 18",
        "range 5 7",
        "range 7 5",
        "set 9 7",
        "set 18 7",
    ] {
        show_command(alloc, words, &archive, out)?;
    }
    for words in ["check-strict", "migrate"] {
        show_command(alloc, words, &unordered, out)?;
    }
    Ok(())
}
