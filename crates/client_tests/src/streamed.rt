//! Archives of lines that are written as they are built, into memory, also of an input that changes while it is read.
ghost use Rattle.std.specs.Prelude.{None};

use crate::commands::words_of;
use crate::shared::same;
use btreearc_commands::{program, streaming};
use btreearc_lines::fault::ProgramFault;
use btreearc_lines::heading::Heading;
use btreearc_lines::reopen::Reopen;
use btreekv_commands::command::Command;
use btreekv_commands::program::run;
use btreekv_commands::streaming::build;
use std::alloc::Global;
use std::cell::Cell;
use std::io;
use std::io::{BufReader, Read};
use std::process::Abort;
use std::test::Fail;

/// Builds of lines do what the command does: the same archive, or no byte and the same error.
fn builds_the_same(
    rt: &impl Abort,
    alloc: Global,
    is_strict: bool,
    heading: Heading,
    lines: &[u8],
) -> Result<(), Fail> {
    let command = if is_strict {
        Command::BuildStrict(heading)
    } else {
        Command::Build(heading)
    };
    let mut input = lines;
    let mut whole = Vec::new(alloc);
    let expected = run(alloc, &command, &mut input, &mut whole);
    let (streamed, output) = build(alloc, is_strict, heading, &lines, Vec::new(alloc));
    same(rt, output.as_slice(), whole.as_slice());
    same(rt, fault_of(alloc, streamed)?, fault_of(alloc, expected)?);
    Ok(())
}

/// The same of lines of numbers.
fn numbers_build_the_same(
    rt: &impl Abort,
    alloc: Global,
    is_strict: bool,
    heading: Heading,
    lines: &[u8],
) -> Result<(), Fail> {
    let word = if is_strict { "build-strict" } else { "build" };
    let words = match heading {
        Heading::Typed => words_of(alloc, &[word])?,
        Heading::Untyped => words_of(alloc, &[word, "untyped"])?,
    };
    let mut input = lines;
    let mut whole = Vec::new(alloc);
    let expected = program::run(alloc, &words, &mut input, &mut whole);
    let (streamed, output) = streaming::build(alloc, is_strict, heading, &lines, Vec::new(alloc));
    same(rt, output.as_slice(), whole.as_slice());
    same(rt, fault_of(alloc, streamed)?, fault_of(alloc, expected)?);
    Ok(())
}

/// The line of an error, or nothing.
fn fault_of(alloc: Global, built: Result<u8, ProgramFault>) -> Result<String, Fail> {
    match built {
        Ok(_) => Ok(String::new(alloc)),
        Err(fault) => Ok(format!(in alloc; "{fault}")?),
    }
}

#[test]
fn lines_are_streamed_as_they_are_built(rt: HostRuntime) -> Result<(), Fail> {
    let alloc = rt.alloc();
    let texts: [&[u8]; 8] = [
        b"",
        b"a\t1\n",
        b"a\t1\nb\t2\nc\t3\nd\t4\ne\t5\nf\t6\ng",
        b"a\t1\nb\t2\nc\t3\nd\t4\ne\t5\nf\t6\ng\t7",
        b"\t\n\t\n",
        b"b\t1\na\t2\nc",
        b"b\t1\na\t2\n",
        b"a\xff\tb\n",
    ];
    for lines in texts {
        builds_the_same(&rt, alloc, false, Heading::Typed, lines)?;
        builds_the_same(&rt, alloc, true, Heading::Untyped, lines)?;
    }
    Ok(())
}

#[test]
fn numbers_are_streamed_as_they_are_built(rt: HostRuntime) -> Result<(), Fail> {
    let alloc = rt.alloc();
    let texts: [&[u8]; 8] = [
        b"",
        b"1 1\n",
        b"1 1\n2 2\n3 3\n4 4\n5 5\n6 6\n7",
        b"1 1\n2 2\n3 3\n4 4\n5 5\n6 6\n7 7",
        b"1 1\n\n",
        b"2 1\n1 2\n3",
        b"2 1\n1 2\n",
        b"1 1\n1 2 \n",
    ];
    for lines in texts {
        numbers_build_the_same(&rt, alloc, false, Heading::Typed, lines)?;
        numbers_build_the_same(&rt, alloc, true, Heading::Untyped, lines)?;
    }
    Ok(())
}

/// A reader of which no clause knows the bytes.
#[derive(Drop)]
struct Plain<'b> {
    rest: &'b [u8],
}

impl<'b> Read for Plain<'b> {
    fn read(&mut self, buf: &mut [u8]) -> io::Result<usize> {
        self.rest.read(buf)
    }
}

/// An input that has other bytes each time it is opened.
#[derive(Drop)]
struct Changing<'b> {
    alloc: Global,
    texts: [&'b [u8]; 4],
    at: Cell<usize>,
}

impl<'b> Reopen for Changing<'b> {
    type Reader = BufReader<Plain<'b>>;

    ghost bytes = { λ _. None };

    fn reopen(&self) -> Result<BufReader<Plain<'b>>, ProgramFault> {
        let at = self.at.get();
        self.at.set(at.wrapping_add(1));
        let rest = if at < 4 { self.texts[at] } else { b"" };
        match BufReader::with_capacity(self.alloc, 16, Plain { rest }) {
            Ok(reader) => Ok(reader),
            Err(_) => Err(ProgramFault::Memory),
        }
    }
}

/// Building of an input that has these bytes, one after another, returns this error. Returns how many bytes were written.
fn fails(rt: &impl Abort, alloc: Global, texts: [&[u8]; 4], line: &str) -> Result<usize, Fail> {
    let input = Changing {
        alloc,
        texts,
        at: Cell::new(0),
    };
    let (built, output) = build(alloc, true, Heading::Typed, &input, Vec::new(alloc));
    same(rt, fault_of(alloc, built)?.as_str(), line);
    Ok(output.len())
}

#[test]
fn an_input_that_changes_is_an_error(rt: HostRuntime) -> Result<(), Fail> {
    let alloc = rt.alloc();
    let two = b"a\t1\nb\t2\n".as_slice();
    let one = b"a\t1\n".as_slice();
    let bad = b"a\t1\nb2\n".as_slice();
    let read = "btreearc: input failed";
    same(&rt, fails(&rt, alloc, [two, two, two, two], "")?, 132);
    same(&rt, fails(&rt, alloc, [two, one, two, two], read)?, 0);
    same(&rt, fails(&rt, alloc, [two, two, bad, two], read)?, 0);
    fails(&rt, alloc, [two, two, two, one], "btreearc: output failed")?;
    fails(&rt, alloc, [two, two, two, bad], "btreearc: output failed")?;
    Ok(())
}

/// Building of an input that has these lines of numbers when it is tested, and others later, returns this error. Returns how many bytes
/// were written.
fn fails_later(
    rt: &impl Abort,
    alloc: Global,
    texts: [&[u8]; 2],
    line: &str,
) -> Result<usize, Fail> {
    let input = Changing {
        alloc,
        texts: [texts[0], texts[1], b"", b""],
        at: Cell::new(0),
    };
    let (built, output) = streaming::build(alloc, true, Heading::Typed, &input, Vec::new(alloc));
    same(rt, fault_of(alloc, built)?.as_str(), line);
    Ok(output.len())
}

#[test]
fn numbers_that_change_are_an_error(rt: HostRuntime) -> Result<(), Fail> {
    let alloc = rt.alloc();
    let two = b"1 1\n2 2000000000\n".as_slice();
    let output = "btreearc: output failed";
    same(&rt, fails_later(&rt, alloc, [two, two], "")?, 88);
    fails_later(&rt, alloc, [two, b"1 1\n"], output)?;
    fails_later(&rt, alloc, [two, b"1 1\n2\n"], output)?;
    let bad = "btreearc: line 2: not KEY VALUE";
    same(&rt, fails_later(&rt, alloc, [b"1 1\n2\n", two], bad)?, 0);
    Ok(())
}
