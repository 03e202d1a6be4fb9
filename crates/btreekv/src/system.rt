//! A run of the program: what it reads and writes, and the lines of its errors.

use crate::progress::Progress;
use btreearc_lines::fault::ProgramFault;
use btreearc_lines::heading::HeadingFault;
use btreearc_lines::reopen::Reopen;
use btreearc_lines::streams::read_line;
use btreekv_commands::lines::bad_byte;
use btreekv_commands::opening::Texts;
use btreekv_commands::records::Records;
use rkyv_btree_typed::header::HeaderFault;
use rkyv_btree_typed::type_name::NameOf;
use std::alloc::Global;
use std::cell::Cell;
use std::fs::{File, Metadata};
use std::io::{Error, ErrorKind, Result as IoResult, Stdin, Stdout, Write};
use std::os::unix::fs::MetadataExt;
use std::{fmt, fs};

/// The status after an error.
const FAILED: u8 = 2;

/// The status if the reader of the output has gone: that of a process which the signal `SIGPIPE` ends.
const UNREAD: u8 = 141;

/// The end of the program by an error, whose line is written.
#[derive(Drop)]
pub struct Ended {
    pub status: u8,
}

impl Ended {
    /// Returns the end by an error whose line is written.
    pub fn failed() -> Ended {
        Ended { status: FAILED }
    }
}

/// The files of a command, which its errors name. Standard input and output have no names.
#[derive(Clone, Copy)]
pub struct Names<'a> {
    pub input: Option<&'a str>,
    pub output: Option<&'a str>,
}

impl<'a> Names<'a> {
    /// Returns the name of an input, whose output is standard output.
    pub fn of_input(input: Option<&'a str>) -> Names<'a> {
        Names {
            input,
            output: None,
        }
    }
}

/// Words before a name, if there is one, and the name.
#[derive(Clone, Copy)]
pub(crate) struct Named<'a>(pub(crate) &'a str, pub(crate) Option<&'a str>);

impl<'a> fmt::Display for Named<'a> {
    fn fmt<W: fmt::Write>(&self, f: &mut fmt::Formatter<W>) -> fmt::Result {
        match self.1 {
            Some(name) => write!(f, "{}{name}", self.0),
            None => Ok(()),
        }
    }
}

/// A colon and the system's cause of an error, if it is known.
#[derive(Clone, Copy)]
struct Cause(Option<i32>);

impl fmt::Display for Cause {
    fn fmt<W: fmt::Write>(&self, f: &mut fmt::Formatter<W>) -> fmt::Result {
        match self.0 {
            Some(code) => write!(f, ": {}", Error::from_raw_os_error(code)),
            None => Ok(()),
        }
    }
}

/// Which regular file it is: its device, and its number there.
#[derive(Clone, Copy, PartialEq, Eq)]
struct FileId {
    device: u64,
    number: u64,
}

/// Returns which regular file it is, if it is one.
fn id_of(metadata: IoResult<Metadata>) -> Option<FileId> {
    let Ok(metadata) = metadata else {
        return None;
    };
    if !metadata.is_file() {
        return None;
    }
    Some(FileId {
        device: metadata.dev(),
        number: metadata.ino(),
    })
}

/// What a run reads and writes, with the system's codes of the last read and the last write that failed.
#[derive(Drop)]
pub struct System<'a> {
    pub rt: &'a HostRuntime,
    /// Standard output, if it is a regular file that the run writes.
    output: Cell<Option<FileId>>,
    read: Cell<Option<i32>>,
    written: Cell<Option<i32>>,
}

impl<'a> System<'a> {
    /// Returns the run of a process, before it reads or writes.
    pub fn new(rt: &'a HostRuntime) -> System<'a> {
        System {
            rt,
            output: Cell::new(None),
            read: Cell::new(None),
            written: Cell::new(None),
        }
    }

    /// Returns the allocator.
    pub fn alloc(&self) -> Global {
        self.rt.alloc()
    }

    /// Keeps why a read failed.
    pub fn read_failed(&self, error: &Error) {
        self.read.set(error.raw_os_error());
    }

    /// Keeps why a write failed, and returns the fault.
    pub fn write_failed(&self, error: &Error) -> ProgramFault {
        self.written.set(error.raw_os_error());
        ProgramFault::OutputFailed
    }

    /// Notes that the run writes to standard output. No input may be the same regular file from then on.
    pub fn writes_to_stdout(&self) {
        self.output.set(id_of(fs::metadata(self.rt, "/dev/stdout")));
    }

    /// Writes the line of an input that is standard output, if it is.
    fn refuse_output(&self, name: Option<&str>, input: Option<FileId>) -> Result<(), Ended> {
        if input.is_none() || input != self.output.get() {
            return Ok(());
        }
        let rt = self.rt;
        let name = Named(": ", name);
        let _ = eprintln!(rt; "btreekv: input is output{name}");
        Err(Ended { status: FAILED })
    }

    /// Writes the line of two inputs that both are standard input.
    pub fn stdin_twice(&self) -> Ended {
        let rt = self.rt;
        let _ = eprintln!(rt; "btreekv: two inputs are standard input");
        Ended { status: FAILED }
    }

    /// Returns standard input.
    pub fn stdin(&self) -> Result<Stdin, Ended> {
        self.refuse_output(None, id_of(fs::metadata(self.rt, "/dev/stdin")))?;
        Ok(self.rt.stdin())
    }

    /// Returns standard output.
    pub fn stdout(&self) -> Writing<'_, 'a, Stdout> {
        self.writing(self.rt.stdout())
    }

    /// Returns a writer that keeps why it failed.
    pub fn writing<'s, W>(&'s self, output: W) -> Writing<'s, 'a, W> {
        Writing {
            system: self,
            output,
        }
    }

    /// Opens a file to read it.
    pub fn open(&self, path: &str) -> Result<File, Ended> {
        match File::open(self.rt, path) {
            Ok(file) => {
                self.refuse_output(Some(path), id_of(file.metadata()))?;
                Ok(file)
            }
            Err(error) => {
                self.read_failed(&error);
                Err(self.fail(Names::of_input(Some(path)), &ProgramFault::InputFailed))
            }
        }
    }

    /// Writes the line of an error.
    pub fn fail(&self, names: Names<'_>, fault: &ProgramFault) -> Ended {
        let rt = self.rt;
        let name = Named(": ", names.input);
        let _ = match fault {
            ProgramFault::Usage => eprintln!(rt; "btreekv: arguments failed"),
            ProgramFault::Line(line) => {
                let of = Named(" of ", names.input);
                eprintln!(rt; "btreekv: line {line}{of}: not KEY TAB VALUE")
            }
            ProgramFault::Refused(refusal) => eprintln!(rt; "btreekv: refused{name}: {refusal}"),
            ProgramFault::Misheaded(HeadingFault::OtherVersion(version)) => {
                let fault = HeaderFault::OtherVersion { version: *version };
                eprintln!(rt; "btreekv: refused{name}: {fault}")
            }
            ProgramFault::Misheaded(HeadingFault::OtherType(found)) => {
                let expected = NameOf::<Texts>::new();
                eprintln!(rt;
                    "btreekv: refused{name}: the bytes are of type {found}, not {expected}"
                )
            }
            ProgramFault::NotBuilt(fault) => eprintln!(rt; "btreekv: not built{name}: {fault}"),
            ProgramFault::InputFailed => {
                let cause = Cause(self.read.get());
                eprintln!(rt; "btreekv: input failed{name}{cause}")
            }
            ProgramFault::OutputFailed => return self.output_failed(names.output),
            ProgramFault::Memory => eprintln!(rt; "btreekv: out of memory"),
        };
        Ended { status: FAILED }
    }

    /// Writes the line of a write that failed. There is none if the reader of the output has gone.
    fn output_failed(&self, name: Option<&str>) -> Ended {
        let rt = self.rt;
        let code = self.written.get();
        if let Some(code) = code {
            if Error::from_raw_os_error(code).kind() == ErrorKind::BrokenPipe {
                return Ended { status: UNREAD };
            }
        }
        let (name, cause) = (Named(": ", name), Cause(code));
        let _ = eprintln!(rt; "btreekv: output failed{name}{cause}");
        Ended { status: FAILED }
    }

    /// Writes the line of a line with a byte that isn't UTF-8. Bytes and lines are counted from 1.
    pub fn not_utf8(&self, name: Option<&str>, line: u64, byte: u64) -> Ended {
        let rt = self.rt;
        let of = Named(" of ", name);
        let _ = eprintln!(rt; "btreekv: line {line}{of}: byte {byte} is not UTF-8");
        Ended { status: FAILED }
    }

    /// Writes the line of a line whose key isn't greater than that of the line before it. Lines are counted from 1.
    pub fn out_of_order(&self, name: Option<&str>, line: u64) -> Ended {
        let rt = self.rt;
        let of = Named(" of ", name);
        let _ = eprintln!(rt; "btreekv: line {line}{of}: out of order");
        Ended { status: FAILED }
    }

    /// Writes the line of a record that is no entry. Records are counted from 1.
    pub fn bad_record(&self, name: Option<&str>, number: u64, form: Records) -> Ended {
        let rt = self.rt;
        let of = Named(" of ", name);
        let wanted = match form {
            Records::Escaped | Records::Null => "KEY TAB VALUE with escapes",
            Records::Json => "a JSON object of key and value",
        };
        let _ = eprintln!(rt; "btreekv: entry {number}{of}: not {wanted}");
        Ended { status: FAILED }
    }

    /// Writes the line of a record of a table that isn't two texts. Records are counted from 1, with the header.
    pub fn bad_row(&self, name: Option<&str>, number: u64) -> Ended {
        let rt = self.rt;
        let of = Named(" of ", name);
        let _ = eprintln!(rt; "btreekv: record {number}{of}: not two fields of UTF-8");
        Ended { status: FAILED }
    }

    /// Writes the line of an input that is no JSON object, or has a member that is no string.
    pub fn no_object(&self, name: Option<&str>) -> Ended {
        let rt = self.rt;
        let name = Named(": ", name);
        let _ = eprintln!(rt; "btreekv: input is no JSON object of strings{name}");
        Ended { status: FAILED }
    }

    /// Writes a warning if each line of an input ends with a carriage return.
    pub fn warn_of_returns<R: Reopen>(&self, name: Option<&str>, lines: &R) {
        let rt = self.rt;
        if has_returns(self.alloc(), lines).unwrap_or(false) {
            let of = Named(" of ", name);
            let _ = eprintln!(rt;
                "btreekv: warning: each line{of} ends with CR LF, and the CR is part of the value"
            );
        }
    }

    /// Writes the line of an error of lines that can be read again.
    pub fn fail_at<R: Reopen>(&self, names: Names<'_>, lines: &R, fault: &ProgramFault) -> Ended {
        if let ProgramFault::Line(line) = fault {
            if let Some(byte) = bad_byte_of(self.alloc(), lines, *line) {
                return self.not_utf8(names.input, *line, byte);
            }
        }
        self.fail(names, fault)
    }
}

/// Returns whether there are lines, and each ends with a carriage return before its line feed.
fn has_returns<R: Reopen>(alloc: Global, lines: &R) -> Result<bool, ProgramFault> {
    let mut reader = lines.reopen()?;
    let mut line = Vec::new(alloc);
    let mut has_any = false;
    for _ in 0..u64::MAX {
        if !read_line(&mut reader, &mut line)? {
            break;
        }
        if line.last() != Some(&b'\r') {
            return Ok(false);
        }
        has_any = true;
    }
    Ok(has_any)
}

/// Returns the first byte of a line that isn't UTF-8, if there is one and the lines can be read again. Bytes and lines are counted
/// from 1.
pub fn bad_byte_of<R: Reopen>(alloc: Global, lines: &R, number: u64) -> Option<u64> {
    let Ok(mut reader) = lines.reopen() else {
        return None;
    };
    let mut line = Vec::new(alloc);
    for _ in 0..number {
        match read_line(&mut reader, &mut line) {
            Ok(true) => {}
            _ => return None,
        }
    }
    bad_byte(&line)
}

/// A writer that keeps why it failed.
#[derive(Drop)]
pub struct Writing<'s, 'a, W> {
    system: &'s System<'a>,
    output: W,
}

impl<'s, 'a, W: Write> Write for Writing<'s, 'a, W> {
    fn write(&mut self, buf: &[u8]) -> IoResult<usize> {
        match self.output.write(buf) {
            Ok(count) => Ok(count),
            Err(error) => {
                let _ = self.system.write_failed(&error);
                Err(error)
            }
        }
    }

    fn flush(&mut self) -> IoResult<()> {
        match self.output.flush() {
            Ok(()) => Ok(()),
            Err(error) => {
                let _ = self.system.write_failed(&error);
                Err(error)
            }
        }
    }
}
