//! Outputs that are files: a reader sees the old file or the new one.

use crate::system::System;
use btreearc_lines::fault::ProgramFault;
use std::fs::{File, OpenOptions};
use std::io::ErrorKind;
use std::path::{Path, PathBuf};
use std::{fs, io, process};

/// A file under a temporary name, in the folder of the file that it is to replace.
#[derive(Drop)]
pub struct NewFile<'s, 'a> {
    system: &'s System<'a>,
    file: File,
    temporary: PathBuf,
    path: PathBuf,
}

/// Where an output goes.
#[derive(Drop)]
pub enum Output<'s, 'a> {
    /// To a file that takes the place of an old one, if there is one.
    Replaces(NewFile<'s, 'a>),
    /// To what is no regular file, as a pipe or a device.
    Direct(File),
}

/// Returns the path of the file that is to be replaced: of a link, that of the file it leads to.
fn real_path(rt: &HostRuntime, path: &str) -> Result<PathBuf, ProgramFault> {
    if let Ok(real) = fs::canonicalize(rt, path) {
        return Ok(real);
    }
    match PathBuf::from_str(rt.alloc(), path) {
        Ok(path) => Ok(path),
        Err(_) => Err(ProgramFault::Memory),
    }
}

/// Makes an empty file in the folder of another one. No file that is there has its name.
fn beside(system: &System<'_>, path: &Path<'_>) -> Result<(File, PathBuf), ProgramFault> {
    let rt = system.rt;
    let alloc = rt.alloc();
    let id = process::id(rt.process());
    for number in 0..1000u32 {
        let Ok(name) = format!(in alloc; ".btreekv-{id}-{number}.tmp") else {
            return Err(ProgramFault::Memory);
        };
        let Ok(temporary) = path.with_file_name(alloc, name.as_str()) else {
            return Err(ProgramFault::Memory);
        };
        match File::create_new(rt, &temporary) {
            Ok(file) => return Ok((file, temporary)),
            Err(error) => {
                if error.kind() != ErrorKind::AlreadyExists {
                    return Err(system.write_failed(&error));
                }
            }
        }
    }
    Err(ProgramFault::OutputFailed)
}

impl<'s, 'a> NewFile<'s, 'a> {
    /// Removes the file.
    fn remove(self) {
        let _ = fs::remove_file(self.system.rt, &self.temporary);
    }

    /// Gives the file the name, if all of it is on the disk.
    fn renamed(&self) -> io::Result<()> {
        self.file.sync_all()?;
        fs::rename(self.system.rt, &self.temporary, &self.path)
    }

    /// Gives the file the name, in place of the old file, or removes it.
    fn rename(self) -> Result<(), ProgramFault> {
        let fault = match self.renamed() {
            Ok(()) => return Ok(()),
            Err(error) => self.system.write_failed(&error),
        };
        self.remove();
        Err(fault)
    }
}

impl<'s, 'a> Output<'s, 'a> {
    /// Opens the output of a path. A file that is there stays as it is until `finish`, and the new one has its mode.
    ///
    /// # Errors
    ///
    /// `OutputFailed` if no file can be made or written there, and `Memory` if an allocation fails.
    pub fn open(system: &'s System<'a>, path: &str) -> Result<Output<'s, 'a>, ProgramFault> {
        let rt = system.rt;
        let path = real_path(rt, path)?;
        let old = fs::metadata(rt, &path);
        if let Ok(metadata) = &old {
            if !metadata.is_file() {
                return match OpenOptions::new().write(true).open(rt, &path) {
                    Ok(file) => Ok(Output::Direct(file)),
                    Err(error) => Err(system.write_failed(&error)),
                };
            }
        }
        let (file, temporary) = beside(system, &path.as_path())?;
        let new = NewFile {
            system,
            file,
            temporary,
            path,
        };
        if let Ok(metadata) = old {
            if let Err(error) = new.file.set_permissions(metadata.permissions()) {
                new.remove();
                return Err(system.write_failed(&error));
            }
        }
        Ok(Output::Replaces(new))
    }

    /// Returns another handle of the file.
    ///
    /// # Errors
    ///
    /// `OutputFailed` if there is none.
    pub fn file(&self) -> Result<File, ProgramFault> {
        let file = match self {
            Output::Replaces(new) => new.file.try_clone(),
            Output::Direct(file) => file.try_clone(),
        };
        match file {
            Ok(file) => Ok(file),
            Err(_) => Err(ProgramFault::OutputFailed),
        }
    }

    /// Removes the file, and leaves the old one as it was.
    pub fn abandon(self) {
        if let Output::Replaces(new) = self {
            new.remove();
        }
    }

    /// Puts the file in its place.
    ///
    /// # Errors
    ///
    /// `OutputFailed` if it can't be put there. It is removed then.
    pub fn finish(self) -> Result<(), ProgramFault> {
        match self {
            Output::Direct(_) => Ok(()),
            Output::Replaces(new) => new.rename(),
        }
    }
}
