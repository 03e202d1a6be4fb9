//! Writers into files, pipes and all else that std can write to.
ghost use Rattle.std.specs.Prelude.{◌≡◌, ◌≤◌, [], length, take, IfSome, OnOk};
ghost use Rattle.std.specs.Io.KnownBytes.{Appends};
ghost use Rattle.rkyv_btree_writer.specs.StdWriters.{HoldsAll, begun};

use crate::place::Writer;
use crate::taken::Taken;
use std::io;
use std::io::{Error, ErrorKind, Write};
use std::marker::Model;
use std::snapshot::Snapshot;

/// A writer over one of std. It passes the bytes on as they come, and keeps none of them. Its contents are the bytes that the
/// inner writer was known to hold at the start, and then those that it has taken.
#[derive(Drop)]
pub struct IoWriter<W: Write> {
    inner: W,
    pos: u64,
    failures: u64,
    first: Snapshot<W>,
    taken: Taken,
}

impl<W: Write> Model for IoWriter<W> {
    ghost use Rattle.std.specs.Prelude.{◌≡◌, ℕ, ◌-◌, ◌^◌, ◌<◌, ◌≤◌, ◌++◌, length};
    ghost use Rattle.rkyv_btree_writer.specs.StdWriters.{known_bytes, HoldsAll};
    ghost use Rattle.rkyv_btree_writer.specs.Writing.{Writing};

    ghost Value = { Writing };

    ghost view = { λ w. record {
      base = w.pos - length (known_bytes (W.contents w.first.value) ++ w.taken.bytes);
      contents = known_bytes (W.contents w.first.value) ++ w.taken.bytes;
      failures = w.failures;
    } };

    ghost invariant = { λ w. (w.pos < 2 ^ 64)
        × (length (known_bytes (W.contents w.first.value) ++ w.taken.bytes) ≤ w.pos)
        × HoldsAll W.contents w.inner (known_bytes (W.contents w.first.value) ++ w.taken.bytes) };
}

impl<W: Write> IoWriter<W> {
    /// Returns a writer whose first byte has position 0.
    pub fn new(inner: W) -> IoWriter<W>
        requires { IfSome (W.contents inner) (λ held. held ≡ []) }
        ensures { result ≡ record { base = 0; contents = []; failures = 0 } }
    {
        IoWriter::with_base(inner, 0)
    }

    /// Returns a writer whose next byte has position `base`. What `inner` is known to hold counts as written before.
    pub fn with_base(inner: W, base: u64) -> IoWriter<W>
        requires { IfSome (W.contents inner) (λ held. length held ≤ base) }
        ensures { result ≡ begun base (W.contents inner) }
    {
        let first = Snapshot::of(&inner);
        IoWriter {
            inner,
            pos: base,
            failures: 0,
            first,
            taken: Taken::new(),
        }
    }

    /// Returns the inner writer. The caller flushes it, if it is a buffer.
    pub fn into_inner(self) -> W
        ensures { HoldsAll W.contents result self.contents }
    {
        self.inner
    }
}

impl<W: Write> Writer for IoWriter<W> {
    type Error = Error;

    ghost state = { λ w. w };

    fn pos(&self) -> u64 {
        self.pos
    }

    /// Fails if the inner writer fails, if it takes no more bytes, or if a position would be past 64 bits.
    fn write(&mut self, bytes: &[u8]) -> Result<(), Error> {
        if bytes.len() as u64 > u64::MAX - self.pos {
            self.failures = self.failures.wrapping_add(1);
            return Err(Error::new(ErrorKind::FileTooLarge, "position is past 64 bits"));
        }
        let (count, outcome) = hand_on(&mut self.inner, bytes);
        self.taken.add(&bytes[..count]);
        self.pos += count as u64;
        if outcome.is_err() {
            self.failures = self.failures.wrapping_add(1);
        }
        outcome
    }
}

/// Writes until all bytes are taken or a write fails, and returns how many were taken.
fn hand_on<W: Write>(writer: &mut W, bytes: &[u8]) -> (usize, io::Result<()>)
    ensures count { result.0 ≤ length bytes.now }
    ensures all { OnOk result.1 (result.0 ≡ length bytes.now) }
    ensures taken { Appends (W.contents writer.old) (W.contents writer.new)
        (take result.0 bytes.now) }
{
    let mut count = 0;
    for _ in 0..u64::MAX {
        if count == bytes.len() {
            return (count, Ok(()));
        }
        match writer.write(&bytes[count..]) {
            Ok(0) => {
                let error = Error::new(ErrorKind::WriteZero, "writer takes no more bytes");
                return (count, Err(error));
            }
            Ok(more) => count += more,
            Err(error) => {
                if error.kind() != ErrorKind::Interrupted {
                    return (count, Err(error));
                }
            }
        }
    }
    let error = Error::new(ErrorKind::TimedOut, "writer was interrupted too often");
    (count, Err(error))
}
