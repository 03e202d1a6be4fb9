//! Outputs of commands over maps of other types than texts.

use crate::system::{System, Writing};
use btreearc_lines::fault::ProgramFault;
use std::fs::File;
use std::io;
use std::io::{BufWriter, Stdout, Write};

/// The number of bytes that one write of entries has.
pub(crate) const WRITE_LEN: usize = 65536;

/// Where a command writes. It is one type, so that there is one copy of the commands.
#[derive(Drop)]
pub(crate) enum Sink<'s, 'a> {
    /// To a file.
    File(Writing<'s, 'a, File>),
    /// To standard output.
    Stdout(BufWriter<Writing<'s, 'a, Stdout>>),
    /// Nowhere.
    Nothing,
}

impl<'s, 'a> Sink<'s, 'a> {
    /// Returns standard output.
    ///
    /// # Errors
    ///
    /// `Memory` if an allocation fails.
    pub(crate) fn stdout(system: &'s System<'a>) -> Result<Sink<'s, 'a>, ProgramFault> {
        match BufWriter::with_capacity(system.alloc(), WRITE_LEN, system.stdout()) {
            Ok(output) => Ok(Sink::Stdout(output)),
            Err(_) => Err(ProgramFault::Memory),
        }
    }
}

impl<'s, 'a> Write for Sink<'s, 'a> {
    fn write(&mut self, buf: &[u8]) -> io::Result<usize> {
        match self {
            Sink::File(output) => output.write(buf),
            Sink::Stdout(output) => output.write(buf),
            Sink::Nothing => Ok(buf.len()),
        }
    }

    fn flush(&mut self) -> io::Result<()> {
        match self {
            Sink::File(output) => output.flush(),
            Sink::Stdout(output) => output.flush(),
            Sink::Nothing => Ok(()),
        }
    }
}
