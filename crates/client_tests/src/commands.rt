//! The commands over readers and writers in memory: what is read of a wrong use, and what fails. `tools/processes.sh` has
//! what they write.

use crate::shared::same;
use btreearc_commands::laws::round_trip;
use btreearc_commands::program::run;
use btreearc_lines::fault::ProgramFault;
use rkyv_btree_base::fault::{EntryFault, Fault, IteratorLengthMismatch};
use std::alloc::{AllocError, Global};
use std::io::{self, ErrorKind, Read, Write};
use std::process::Abort;
use std::test::Fail;

/// The line of a wrong use.
const USAGE: &str =
    "usage: btreearc build [untyped] | list | get KEY | range LOW HIGH | check | set KEY VALUE | build-strict [untyped] | check-strict | migrate";

/// The archive of the one entry 7 and 11.
const SEVEN: [u8; 56] = [
    0, 0, 0, 0, 7, 0, 0, 0, 0, 0, 0, 0, 0, 0, 0, 0, 0, 0, 0, 0, 0, 0, 0, 0, 11, 0, 0, 0, 0, 0, 0,
    0, 0, 0, 0, 0, 0, 0, 0, 0, 0, 0, 0, 0, 1, 0, 0, 0, 0xD0, 0xFF, 0xFF, 0xFF, 1, 0, 0, 0,
];

/// The words as the program gets them.
pub(crate) fn words_of(alloc: Global, words: &[&str]) -> Result<Vec<String>, AllocError> {
    let mut args = Vec::new(alloc);
    for word in words {
        args.push(format!(in alloc; "{word}")?)?;
    }
    Ok(args)
}

/// The words name no command: the usage is told, and nothing is read or written.
fn reads_nothing(rt: &impl Abort, alloc: Global, words: &[&str]) -> Result<(), Fail> {
    let args = words_of(alloc, words)?;
    let mut input = SEVEN.as_slice();
    let mut output = Vec::new(alloc);
    let result = run(alloc, &args, &mut input, &mut output);
    same(rt, input.len(), 56);
    assert!(rt; output.is_empty());
    says(rt, alloc, result, USAGE)
}

/// The result is a fault of this line.
fn says(
    rt: &impl Abort,
    alloc: Global,
    answer: Result<u8, ProgramFault>,
    line: &str,
) -> Result<(), Fail> {
    let text = match answer {
        Ok(status) => format!(in alloc; "status {status}")?,
        Err(fault) => format!(in alloc; "{fault}")?,
    };
    same(rt, text.as_str(), line);
    Ok(())
}

#[test]
fn a_wrong_use_reads_nothing(rt: HostRuntime) -> Result<(), Fail> {
    let alloc = rt.alloc();
    let uses: [&[&str]; 6] = [
        &[],
        &["lists"],
        &["build", "1"],
        &["get", "4294967296"],
        &["range", "1"],
        &["set", "7", "x"],
    ];
    for words in uses {
        reads_nothing(&rt, alloc, words)?;
    }
    Ok(())
}

#[test]
fn lines_are_listed_again(rt: HostRuntime) -> Result<(), Fail> {
    let listed = round_trip(rt.alloc(), b"0001 10\n2 0020\n3 30")?;
    same(&rt, listed.as_slice(), b"1 10\n2 20\n3 30\n".as_slice());
    Ok(())
}

#[test]
fn a_fault_of_building_says_its_cause(rt: HostRuntime) -> Result<(), Fail> {
    let alloc = rt.alloc();
    let mismatch = IteratorLengthMismatch {
        expected: 2,
        actual: 3,
    };
    let causes = [
        (
            Fault::Length(mismatch),
            "btreearc: not built: iterator claimed that it contained 2 elements, but yielded 3 items during iteration",
        ),
        (
            Fault::LengthOverflow,
            "btreearc: not built: length is past 32 bits",
        ),
        (
            Fault::PositionOverflow,
            "btreearc: not built: position is past 32 bits",
        ),
        (
            Fault::OffsetOverflow,
            "btreearc: not built: offset is past 32 bits",
        ),
        (
            Fault::Writer(AllocError),
            "btreearc: not built: writer failed",
        ),
        (
            Fault::Memory(AllocError),
            "btreearc: not built: out of memory",
        ),
        (
            Fault::Entry(EntryFault { code: 1 }),
            "btreearc: not built: entry refused",
        ),
        (
            Fault::OutOfOrder { index: 1 },
            "btreearc: not built: entry 1 is out of order",
        ),
    ];
    for (fault, line) in causes {
        says(&rt, alloc, Err(ProgramFault::NotBuilt(fault)), line)?;
    }
    says(
        &rt,
        alloc,
        Err(ProgramFault::Memory),
        "btreearc: out of memory",
    )
}

/// Gives the bytes, and then fails.
#[derive(Drop)]
struct FailingReader<'a> {
    bytes: &'a [u8],
}

impl Read for FailingReader<'_> {
    fn read(&mut self, buf: &mut [u8]) -> io::Result<usize> {
        if self.bytes.is_empty() {
            return Err(ErrorKind::Other.into());
        }
        self.bytes.read(buf)
    }
}

/// Takes a byte, and then fails.
#[derive(Drop)]
struct FailingWriter {
    is_full: bool,
}

impl Write for FailingWriter {
    fn write(&mut self, buf: &[u8]) -> io::Result<usize> {
        if self.is_full || buf.is_empty() {
            return Err(ErrorKind::Other.into());
        }
        self.is_full = true;
        Ok(1)
    }

    fn flush(&mut self) -> io::Result<()> {
        Ok(())
    }
}

#[test]
fn a_failed_read_is_told(rt: HostRuntime) -> Result<(), Fail> {
    let alloc = rt.alloc();
    let uses: [&[&str]; 8] = [
        &["build"],
        &["list"],
        &["check"],
        &["range", "1", "2"],
        &["set", "1", "2"],
        &["build-strict"],
        &["check-strict"],
        &["migrate"],
    ];
    for words in uses {
        let args = words_of(alloc, words)?;
        let mut input = FailingReader { bytes: b"1 x\n" };
        let mut output = Vec::new(alloc);
        let result = run(alloc, &args, &mut input, &mut output);
        assert!(rt; output.is_empty());
        says(&rt, alloc, result, "btreearc: input failed")?;
    }
    Ok(())
}

#[test]
fn a_failed_write_is_told(rt: HostRuntime) -> Result<(), Fail> {
    let alloc = rt.alloc();
    let uses: [(&[&str], &[u8]); 8] = [
        (&["build"], b"7 11"),
        (&["list"], &SEVEN),
        (&["check"], &SEVEN),
        (&["range", "7", "7"], &SEVEN),
        (&["set", "7", "13"], &SEVEN),
        (&["build-strict"], b"7 11"),
        (&["check-strict"], &SEVEN),
        (&["migrate"], &SEVEN),
    ];
    for (words, input) in uses {
        let args = words_of(alloc, words)?;
        let mut input = input;
        let mut output = FailingWriter { is_full: false };
        let result = run(alloc, &args, &mut input, &mut output);
        says(&rt, alloc, result, "btreearc: output failed")?;
    }
    Ok(())
}
