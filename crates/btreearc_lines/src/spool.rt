//! Files that are read more than once, and what comes by a pipe.
ghost use Rattle.std.specs.Prelude.{None, IfErr};
ghost use Rattle.btreearc_lines.specs.Faults.{IsReadFault};

use crate::fault::ProgramFault;
use crate::reopen::{Reopen, from_start};
use crate::streams::read_fault;
use std::alloc::Global;
use std::fs::File;
use std::io::{BufReader, ErrorKind, Read, Write};
use std::{env, fs, io, process};

/// The number of bytes that one read of a file asks for.
const READ_LEN: usize = 65536;

/// What comes by a pipe is held in memory up to this number of bytes.
const HELD_LEN: u64 = 4194304;

/// The most bytes that one write of it into a file has.
const SPOOLED_LEN: usize = 262144;

/// Returns a reader with a buffer.
///
/// # Errors
///
/// `Memory` if the allocation fails.
pub fn buffered<R: Read + Drop>(alloc: Global, input: R) -> Result<BufReader<R>, ProgramFault>
    ensures { IfErr result IsReadFault }
{
    match BufReader::with_capacity(alloc, READ_LEN, input) {
        Ok(reader) => Ok(reader),
        Err(_) => Err(ProgramFault::Memory),
    }
}

/// Makes an empty file that has no name, so that it is gone when the program ends.
fn nameless(rt: &HostRuntime) -> Result<File, ProgramFault>
    ensures { IfErr result IsReadFault }
{
    let alloc = rt.alloc();
    let id = process::id(rt.process());
    for number in 0..1000u32 {
        let Ok(mut path) = env::temp_dir(rt) else {
            return Err(ProgramFault::InputFailed);
        };
        let Ok(name) = format!(in alloc; "btree-lines-{id}-{number}") else {
            return Err(ProgramFault::Memory);
        };
        if path.push(name).is_err() {
            return Err(ProgramFault::Memory);
        }
        match File::create_new(rt, &path) {
            Ok(file) => {
                if fs::remove_file(rt, &path).is_err() {
                    return Err(ProgramFault::InputFailed);
                }
                return Ok(file);
            }
            Err(error) => {
                if error.kind() != ErrorKind::AlreadyExists {
                    return Err(ProgramFault::InputFailed);
                }
            }
        }
    }
    Err(ProgramFault::InputFailed)
}

/// Writes the first bytes of an input, and then the rest of it, into a file.
fn spool<R: Read>(mut bytes: Vec<u8>, input: &mut R, file: &mut File) -> io::Result<()> {
    file.write_all(&bytes)?;
    bytes.resize(SPOOLED_LEN, 0)?;
    for _ in 0..u64::MAX {
        match input.read(&mut bytes) {
            Ok(0) => return Ok(()),
            Ok(count) => file.write_all(&bytes[..count])?,
            Err(error) => {
                if error.kind() != ErrorKind::Interrupted {
                    return Err(error);
                }
            }
        }
    }
    Ok(())
}

/// All bytes of an input that can't seek.
#[derive(Drop)]
pub enum Bytes {
    /// In memory, if they are few.
    Held(Vec<u8>),
    /// In a file without a name.
    Spooled(Spooled),
}

/// A file without a name, which is gone when the program ends.
#[derive(Drop)]
pub struct Spooled {
    alloc: Global,
    file: File,
}

impl Reopen for Spooled {
    type Reader = BufReader<File>;

    ghost bytes = { λ _. None };

    fn reopen(&self) -> Result<BufReader<File>, ProgramFault> {
        match from_start(&self.file) {
            Ok(file) => buffered(self.alloc, file),
            Err(fault) => Err(fault),
        }
    }
}

/// Reads to the end of an input that can't seek. More than a few megabytes are written into a file.
///
/// # Errors
///
/// `InputFailed` if a read fails, or the file can't be made or written. `Memory` if an allocation fails.
pub fn read_bytes<R: Read + Drop>(rt: &HostRuntime, mut input: R) -> Result<Bytes, ProgramFault>
    ensures { IfErr result IsReadFault }
{
    let alloc = rt.alloc();
    let mut first = Vec::new(alloc);
    match input.by_ref().take(HELD_LEN).read_to_end(&mut first) {
        Ok(count) if (count as u64) < HELD_LEN => return Ok(Bytes::Held(first)),
        Ok(_) => {}
        Err(error) => return Err(read_fault(&error)),
    }
    let mut file = nameless(rt)?;
    match spool(first, &mut input, &mut file) {
        Ok(()) => Ok(Bytes::Spooled(Spooled { alloc, file })),
        Err(error) => Err(read_fault(&error)),
    }
}
