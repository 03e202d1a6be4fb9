//! Files that are read more than once.
ghost use Rattle.std.specs.Prelude.{None};

use crate::progress::Progress;
use crate::system::System;
use btreearc_lines::fault::ProgramFault;
use btreearc_lines::reopen::{Reopen, from_start};
use btreearc_lines::spool::buffered;
use std::cell::Cell;
use std::fs::File;
use std::io::BufReader;

/// A file that can seek. When it is read for the first time, lines are written on standard error, as `Progress` does.
#[derive(Drop)]
pub struct Lines<'s, 'a> {
    system: &'s System<'a>,
    file: File,
    is_read: Cell<bool>,
}

impl<'s, 'a> Lines<'s, 'a> {
    /// Returns the input of all bytes of a file.
    pub fn new(system: &'s System<'a>, file: File) -> Lines<'s, 'a> {
        let is_read = Cell::new(false);
        Lines {
            system,
            file,
            is_read,
        }
    }
}

impl<'s, 'a> Reopen for Lines<'s, 'a> {
    type Reader = BufReader<Progress<'s, 'a, File>>;

    ghost bytes = { λ _. None };

    fn reopen(&self) -> Result<BufReader<Progress<'s, 'a, File>>, ProgramFault> {
        let file = from_start(&self.file)?;
        let file = if self.is_read.replace(true) {
            Progress::silent(self.system, file)
        } else {
            Progress::of_file(self.system, file)
        };
        buffered(self.system.alloc(), file)
    }
}
