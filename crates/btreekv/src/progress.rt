//! A line on standard error that says how much was read, how fast, and how long the rest takes.

use crate::system::System;
use std::fs::File;
use std::io::{Chain, IsTerminal, Read, Result};
use std::time::{Duration, Instant};

/// When a reader began, and when it wrote its last line.
#[derive(Clone, Copy, Drop)]
struct Times {
    began: Instant,
    last: Instant,
}

/// A reader that keeps why it failed. If standard error is a terminal, it writes there once a second how many bytes were read, and how many a
/// second. Of a file it also says how many bytes there are, and in how many seconds the others are read at this rate.
#[derive(Drop)]
pub struct Progress<'s, 'a, R> {
    system: &'s System<'a>,
    input: R,
    /// When reading began, and when the last line was written. Without it no line is written.
    times: Option<Times>,
    /// The number of bytes of the input, if it is known.
    len: Option<u64>,
    bytes: u64,
    is_written: bool,
}

impl<'s, 'a, R> Progress<'s, 'a, R> {
    /// Returns a reader over a reader.
    pub fn new(system: &'s System<'a>, input: R) -> Progress<'s, 'a, R> {
        let rt = system.rt;
        let mut times = None;
        if rt.stderr().is_terminal() {
            if let Ok(now) = Instant::now(rt) {
                times = Some(Times {
                    began: now,
                    last: now,
                });
            }
        }
        let mut progress = Progress::silent(system, input);
        progress.times = times;
        progress
    }

    /// Returns a reader over a reader that writes no lines.
    pub fn silent(system: &'s System<'a>, input: R) -> Progress<'s, 'a, R> {
        Progress {
            system,
            input,
            times: None,
            len: None,
            bytes: 0,
            is_written: false,
        }
    }

    /// Returns how many bytes were read.
    pub fn bytes_read(&self) -> u64 {
        self.bytes
    }

    /// Returns a reader over these bytes, which were read first, and the rest. None of them counts as read. The time goes on.
    pub fn with_first<'b>(self, first: &'b [u8]) -> Progress<'s, 'a, Chain<&'b [u8], R>>
    where
        R: Read,
    {
        let Progress {
            system,
            input,
            times,
            len,
            is_written,
            ..
        } = self;
        Progress {
            system,
            input: first.chain(input),
            times,
            len,
            bytes: 0,
            is_written,
        }
    }
}

impl<'s, 'a> Progress<'s, 'a, File> {
    /// Returns a reader over a file. Its lines name the number of bytes of a regular file.
    pub fn of_file(system: &'s System<'a>, file: File) -> Progress<'s, 'a, File> {
        let mut len = None;
        if let Ok(metadata) = file.metadata() {
            if metadata.is_file() {
                len = Some(metadata.len());
            }
        }
        let mut progress = Progress::new(system, file);
        progress.len = len;
        progress
    }
}

/// Returns the times with this one as that of the last line, if a second has passed since then.
fn second_after(rt: &HostRuntime, times: Option<Times>) -> Option<Times> {
    let Times { began, last } = times?;
    let Ok(now) = Instant::now(rt) else {
        return None;
    };
    if now.duration_since(last) < Duration::from_secs(1) {
        return None;
    }
    Some(Times { began, last: now })
}

/// Writes over the line on standard error.
fn write_line(rt: &HostRuntime, bytes: u64, len: Option<u64>, times: Times) {
    let seconds = times.last.duration_since(times.began).as_secs().max(1);
    let rate = bytes / seconds;
    let _ = match len {
        Some(len) if rate > 0 && len >= bytes => {
            let left = (len - bytes) / rate;
            eprint!(rt; "\rbtreekv: {bytes} of {len} bytes read, {rate} a second, {left} s left ")
        }
        _ => eprint!(rt; "\rbtreekv: {bytes} bytes read, {rate} a second "),
    };
}

impl<'s, 'a, R: Read> Read for Progress<'s, 'a, R> {
    ghost remaining = { λ progress. R.remaining progress.input };

    fn read(&mut self, buf: &mut [u8]) -> Result<usize> {
        let count = match self.input.read(buf) {
            Ok(count) => count,
            Err(error) => {
                self.system.read_failed(&error);
                return Err(error);
            }
        };
        self.bytes = self.bytes.saturating_add(count as u64);
        let rt = self.system.rt;
        if let Some(times) = second_after(rt, self.times) {
            write_line(rt, self.bytes, self.len, times);
            self.times = Some(times);
            self.is_written = true;
        }
        if count == 0 && self.is_written {
            let _ = eprintln!(rt);
            self.is_written = false;
        }
        Ok(count)
    }
}
