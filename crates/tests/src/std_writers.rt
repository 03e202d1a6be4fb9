//! Archives that are handed to writers of std while they are built.
ghost use Rattle.std.specs.Prelude.{◌≡◌, [], ◌∷◌, IfOk, Some};

use crate::faults::tree;
use crate::numbers::Numbers;
use crate::same::same;
use rkyv_btree_base::build::BuildMap;
use rkyv_btree_base::fault::Fault;
use rkyv_btree_base::io_writer::IoWriter;
use rkyv_btree_base::place::{VecWriter, Writer};
use std::alloc::Global;
use std::io;
use std::io::{BufWriter, ErrorKind, Write};
use std::process::Abort;
use std::test::Fail;

/// Some numbers, whose map has three levels.
fn entries() -> [(u32, u32); 40] {
    let mut entries = [(0, 0); 40];
    let mut key = 7u32;
    for entry in &mut entries {
        *entry = (key, key.wrapping_mul(3));
        key = key.wrapping_add(11);
    }
    entries
}

/// Writes the archive of some numbers, and returns the map's position.
fn archive_in<W: Writer>(
    rt: &impl Abort,
    alloc: Global,
    entries: &[(u32, u32)],
    writer: &mut W,
) -> Result<u32, Fault<W::Error>> {
    let resolver = tree::<W>(rt, alloc, entries, writer)?;
    Numbers::write_root(entries.len(), resolver, writer)
}

/// The archive of these numbers, as a writer in memory has it.
fn whole(rt: &impl Abort, alloc: Global) -> Result<Vec<u8>, Fail> {
    let mut writer = VecWriter::new(alloc);
    archive_in(rt, alloc, &entries(), &mut writer)?;
    Ok(writer.into_vec())
}

/// A writer that is interrupted at each odd call, takes three bytes at most at each even one, and fails at one call.
#[derive(Drop)]
struct Slow {
    bytes: Vec<u8>,
    calls: u64,
    fails_at: u64,
}

impl io::Write for Slow {
    ghost contents = { λ w. Some w.bytes.items };

    fn write(&mut self, bytes: &[u8]) -> io::Result<usize> {
        self.calls = self.calls.wrapping_add(1);
        if self.calls == self.fails_at {
            return Err(io::Error::from(ErrorKind::StorageFull));
        }
        if self.calls % 2 == 1 {
            return Err(io::Error::from(ErrorKind::Interrupted));
        }
        let count = bytes.len().min(3);
        self.bytes.extend_from_slice(&bytes[..count])?;
        Ok(count)
    }

    fn flush(&mut self) -> io::Result<()> {
        Ok(())
    }
}

/// What comes of the archive at a writer that fails at a call.
fn fails_at(rt: &impl Abort, alloc: Global, call: u64) -> (Result<u32, Fault<io::Error>>, Slow) {
    let mut writer = IoWriter::new(Slow {
        bytes: Vec::new(alloc),
        calls: 0,
        fails_at: call,
    });
    let outcome = archive_in(rt, alloc, &entries(), &mut writer);
    (outcome, writer.into_inner())
}

/// Whether the writer is named, with its own error.
fn is_full(outcome: &Result<u32, Fault<io::Error>>) -> bool {
    match outcome {
        Err(Fault::Writer(error)) => error.kind() == ErrorKind::StorageFull,
        _ => false,
    }
}

// A writer that doesn't fail is handed bytes until it has taken all.
#[test]
fn a_failed_write_leaves_a_beginning(rt: HostRuntime) -> Result<(), Fail> {
    let whole = whole(&rt, rt.alloc())?;
    let (outcome, writer) = fails_at(&rt, rt.alloc(), 0);
    assert!(rt; outcome.is_ok());
    same(&rt, writer.bytes.as_slice(), whole.as_slice());
    // The first leaf has 48 bytes. The inner node after it has 68, of which the last two are taken by call 78.
    let rows = [
        (1, 0),
        (2, 0),
        (3, 3),
        (4, 3),
        (33, 48),
        (34, 48),
        (35, 51),
        (78, 114),
        (79, 116),
        (80, 116),
        (262, 389),
    ];
    for (call, taken) in rows {
        let (outcome, writer) = fails_at(&rt, rt.alloc(), call);
        same(&rt, is_full(&outcome), true);
        same(&rt, writer.calls, call);
        same(&rt, writer.bytes.len(), taken);
        same(
            &rt,
            whole.as_slice().starts_with(writer.bytes.as_slice()),
            true,
        );
    }
    Ok(())
}

/// Two bytes after one that a vector holds already.
fn behind_a_header(header: Vec<u8>) -> io::Result<Vec<u8>>
    requires { header.items ≡ 7 ∷ [] }
    ensures { IfOk result (λ bytes. bytes.items ≡ 7 ∷ 1 ∷ 2 ∷ []) }
{
    let mut writer = IoWriter::with_base(header, 1);
    writer.write(&[1, 2])?;
    Ok(writer.into_inner())
}

/// Two bytes through a buffer.
fn through_a_buffer(alloc: Global) -> io::Result<Vec<u8>>
    ensures { IfOk result (λ bytes. bytes.items ≡ 1 ∷ 2 ∷ []) }
{
    let mut writer = IoWriter::new(BufWriter::new(alloc, Vec::new(alloc))?);
    writer.write(&[1, 2])?;
    let mut buffer = writer.into_inner();
    buffer.flush()?;
    let (bytes, _) = buffer.into_parts();
    Ok(bytes)
}

#[test]
fn callers_conclude_what_vectors_hold(rt: HostRuntime) -> Result<(), Fail> {
    let mut header = Vec::new(rt.alloc());
    header.push(7)?;
    same(
        &rt,
        behind_a_header(header)?.as_slice(),
        [7, 1, 2].as_slice(),
    );
    same(
        &rt,
        through_a_buffer(rt.alloc())?.as_slice(),
        [1, 2].as_slice(),
    );
    Ok(())
}

/// A writer that takes nothing.
#[derive(Drop)]
struct Full;

impl io::Write for Full {
    fn write(&mut self, _bytes: &[u8]) -> io::Result<usize> {
        Ok(0)
    }

    fn flush(&mut self) -> io::Result<()> {
        Ok(())
    }
}

/// The kind of error at which a writer fails.
fn kind(outcome: Result<(), io::Error>) -> Option<ErrorKind> {
    outcome.err().map(|error: io::Error| error.kind())
}

#[test]
fn a_writer_that_takes_nothing_fails(rt: HostRuntime) {
    let mut writer = IoWriter::with_base(Full, 8);
    same(&rt, kind(writer.write(&[1])), Some(ErrorKind::WriteZero));
    same(&rt, writer.pos(), 8);
}

#[test]
fn no_position_passes_64_bits(rt: HostRuntime) {
    let mut writer = IoWriter::with_base(io::sink(), u64::MAX - 1);
    same(
        &rt,
        kind(writer.write(&[1, 2])),
        Some(ErrorKind::FileTooLarge),
    );
    same(&rt, writer.pos(), u64::MAX - 1);
    same(&rt, kind(writer.write(&[1])), None);
    same(&rt, writer.pos(), u64::MAX);
}

/// A writer that takes one byte a call, after an interruption, and counts its calls.
#[derive(Drop)]
struct OneByte {
    taken: u64,
    calls: u64,
}

impl io::Write for OneByte {
    fn write(&mut self, bytes: &[u8]) -> io::Result<usize> {
        self.calls = self.calls.wrapping_add(1);
        if self.calls % 2 == 1 {
            return Err(ErrorKind::Interrupted.into());
        }
        self.taken = self.taken.wrapping_add(1);
        Ok(bytes.len().min(1))
    }

    fn flush(&mut self) -> io::Result<()> {
        Ok(())
    }
}

#[test]
fn a_long_write_is_handed_over_byte_by_byte(rt: HostRuntime) {
    let mut writer = IoWriter::new(OneByte { taken: 0, calls: 0 });
    same(&rt, kind(writer.write(&[7; 10000])), None);
    same(&rt, writer.pos(), 10000);
    let inner = writer.into_inner();
    same(&rt, (inner.taken, inner.calls), (10000, 20000));
}

#[test]
fn positions_about_31_and_32_bits_are_written(rt: HostRuntime) {
    for base in [
        2147483646u64,
        2147483648,
        3221225472,
        4294967294,
        4294967296,
    ] {
        let mut writer = IoWriter::with_base(io::sink(), base);
        same(&rt, kind(writer.write(&[1, 2, 3, 4])), None);
        same(&rt, writer.pos(), base.wrapping_add(4));
    }
}
