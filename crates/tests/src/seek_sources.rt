//! Lookups in a file, by a reader of std that gives little at a time, fails at one call, or changes between calls.
ghost use Rattle.std.specs.Prelude.{◌≤◌, length};

use crate::convert::archive;
use crate::same::same;
use rkyv_btree::source::{SeekSource, SourceFault, UnverifiedSource};
use rkyv_btree_base::layout;
use rkyv_btree_base::map::ArchivedBTreeMap;
use rkyv_btree_base::numbers::ArchivedU32;
use rkyv_btree_base::place::VecWriter;
use std::alloc::Global;
use std::io;
use std::io::{ErrorKind, Read, Seek, SeekFrom};
use std::process::Abort;
use std::test::Fail;

type Map = ArchivedBTreeMap<ArchivedU32, ArchivedU32, 2>;

/// A file in memory. Each read is interrupted at first, and then gives one byte. The call `fails_at` fails, and from the call
/// `changes_at` on the file has other bytes. No call has the number 0.
#[derive(Drop)]
struct File<'b> {
    bytes: &'b [u8],
    others: &'b [u8],
    pos: u64,
    calls: u32,
    fails_at: u32,
    changes_at: u32,
    is_interrupted: bool,
}

impl<'b> File<'b> {
    /// The bytes at the present call.
    fn held(&self) -> &'b [u8] {
        if self.changes_at > 0 && self.changes_at <= self.calls {
            self.others
        } else {
            self.bytes
        }
    }

    /// Counts a call, and returns whether it is the one that fails.
    fn fails(&mut self) -> bool {
        self.calls = self.calls.wrapping_add(1);
        self.calls == self.fails_at
    }
}

impl Read for File<'_> {
    fn read(&mut self, buf: &mut [u8]) -> io::Result<usize> {
        if self.fails() {
            return Err(ErrorKind::ConnectionReset.into());
        }
        self.is_interrupted = !self.is_interrupted;
        if self.is_interrupted {
            return Err(ErrorKind::Interrupted.into());
        }
        let at = usize::try_from(self.pos).unwrap_or(usize::MAX);
        let (Some(byte), Some(place)) = (self.held().get(at), buf.first_mut()) else {
            return Ok(0);
        };
        *place = *byte;
        self.pos = self.pos.wrapping_add(1);
        Ok(1)
    }
}

impl Seek for File<'_> {
    fn seek(&mut self, to: SeekFrom) -> io::Result<u64> {
        if self.fails() {
            return Err(ErrorKind::ConnectionReset.into());
        }
        match to {
            SeekFrom::Start(pos) => self.pos = pos,
            SeekFrom::End(_) => self.pos = self.held().len() as u64,
            SeekFrom::Current(_) => {}
        }
        Ok(self.pos)
    }
}

/// The bytes as a file whose call of this number fails.
fn source_of(bytes: &[u8], fails_at: u32) -> SeekSource<File<'_>> {
    SeekSource {
        file: File {
            bytes,
            others: bytes,
            pos: 0,
            calls: 0,
            fails_at,
            changes_at: 0,
            is_interrupted: false,
        },
    }
}

/// What comes of a lookup: the value, or which error.
#[derive(Debug, PartialEq, Drop)]
enum Outcome {
    Found(Option<u32>),
    Reset,
    Ended,
    Refused,
    Other,
}

fn outcome_of(fault: SourceFault<io::Error>) -> Outcome {
    match fault {
        SourceFault::Read(error) if error.kind() == ErrorKind::ConnectionReset => Outcome::Reset,
        SourceFault::Read(error) if error.kind() == ErrorKind::UnexpectedEof => Outcome::Ended,
        SourceFault::Refused(_) => Outcome::Refused,
        _ => Outcome::Other,
    }
}

/// Looks a key up in a source, and returns the outcome, how many bytes of the budget were read, and how many calls were made.
fn look(
    rt: &impl Abort,
    source: SeekSource<File<'_>>,
    budget: u64,
    key: u32,
) -> (Outcome, u64, u32) {
    assert!(rt; layout::fits::<ArchivedU32, ArchivedU32, 2>());
    let mut map = match UnverifiedSource::<SeekSource<File<'_>>, Map>::open(source, budget) {
        Ok(map) => map,
        Err(fault) => return (outcome_of(fault), 0, 0),
    };
    let mut room = [7u8; 64];
    let found = match map.get_by(key, &mut room) {
        Ok(found) => Outcome::Found(found.map(|value| value.to_native())),
        Err(fault) => outcome_of(fault),
    };
    let calls = map.reader.source.file.calls;
    (found, budget.saturating_sub(map.budget_left()), calls)
}

/// The bytes as a file that has others from a call on.
fn changing<'b>(bytes: &'b [u8], others: &'b [u8], changes_at: u32) -> SeekSource<File<'b>> {
    SeekSource {
        file: File {
            bytes,
            others,
            pos: 0,
            calls: 0,
            fails_at: 0,
            changes_at,
            is_interrupted: false,
        },
    }
}

/// The archive of eight numbers, two entries a node: three levels.
fn numbers(rt: &impl Abort, alloc: Global) -> Result<Vec<u8>, Fail> {
    let entries = [
        (1u32, 10u32),
        (2, 20),
        (3, 30),
        (4, 40),
        (5, 50),
        (6, 60),
        (7, 70),
        (8, 80),
    ];
    let mut writer = VecWriter::new(alloc);
    archive::<u32, u32, ArchivedU32, ArchivedU32, 2>(rt, alloc, &entries, &mut writer)?;
    Ok(writer.into_vec())
}

// A short read is read on, an interrupted one is read again, and the size is the file's, wherever it was read last.
#[test]
fn a_file_is_read_at_each_position(rt: HostRuntime) -> Result<(), Fail> {
    let bytes = numbers(&rt, rt.alloc())?;
    for key in 1..9u32 {
        let (found, _, _) = look(&rt, source_of(&bytes, 0), u64::MAX, key);
        same(&rt, found, Outcome::Found(Some(key.wrapping_mul(10))));
    }
    let (absent, _, _) = look(&rt, source_of(&bytes, 0), u64::MAX, 9);
    same(&rt, absent, Outcome::Found(None));
    Ok(())
}

// Each call of the file fails in turn, with its own error, and what was to be read counts.
#[test]
fn a_failed_call_is_named_and_counts(rt: HostRuntime) -> Result<(), Fail> {
    let bytes = numbers(&rt, rt.alloc())?;
    let (_, whole, calls) = look(&rt, source_of(&bytes, 0), u64::MAX, 5);
    assert!(rt; calls > 4);
    let mut last = 0u64;
    for call in 1..calls.saturating_add(1) {
        let (failed, read, _) = look(&rt, source_of(&bytes, call), u64::MAX, 5);
        same(&rt, failed, Outcome::Reset);
        assert!(rt; last <= read && read <= whole);
        last = read;
    }
    same(&rt, last, whole);
    Ok(())
}

// A budget is spent by what is read, and refused where the next part is longer.
#[test]
fn a_small_budget_opens(rt: HostRuntime) -> Result<(), Fail> {
    let bytes = numbers(&rt, rt.alloc())?;
    let (_, whole, _) = look(&rt, source_of(&bytes, 0), u64::MAX, 5);
    for budget in [0, 7, whole.saturating_sub(1)] {
        let (failed, read, calls) = look(&rt, source_of(&bytes, 0), budget, 5);
        same(&rt, failed, Outcome::Other);
        assert!(rt; read <= budget && calls > 0);
    }
    let (found, _, _) = look(&rt, source_of(&bytes, 0), whole, 5);
    same(&rt, found, Outcome::Found(Some(50)));
    Ok(())
}

// A read fails where the file has ended meanwhile. A file that has shrunk is refused, and one that has grown is read where it was. The
// first call asks for the size.
#[test]
fn a_file_may_change_after_it_is_opened(rt: HostRuntime) -> Result<(), Fail> {
    let mut bytes = numbers(&rt, rt.alloc())?;
    let len = bytes.len();
    bytes.extend_from_slice(&[1, 2, 3])?;
    let (archive, _) = bytes.as_slice().split_at(len);
    let (failed, _, _) = look(&rt, changing(archive, &[], 6), u64::MAX, 5);
    same(&rt, failed, Outcome::Ended);
    let (failed, _, _) = look(&rt, changing(archive, &[0; 4], 2), u64::MAX, 5);
    same(&rt, failed, Outcome::Refused);
    let (found, _, _) = look(&rt, changing(archive, &bytes, 2), u64::MAX, 5);
    same(&rt, found, Outcome::Found(Some(50)));
    Ok(())
}

// Of a lent buffer the bytes that a lookup doesn't need are unchanged.
#[test]
fn a_long_buffer_is_written_at_its_start(rt: HostRuntime) -> Result<(), Fail> {
    let bytes = numbers(&rt, rt.alloc())?;
    assert!(rt; layout::fits::<ArchivedU32, ArchivedU32, 2>());
    let mut map = UnverifiedSource::<SeekSource<File<'_>>, Map>::open(
        source_of(&bytes, 0),
        u64::MAX,
    ).expect(&rt, "opened");
    let mut room = [7u8; 256];
    let found = map.contains_by(5u32, &mut room).expect(&rt, "a lookup");
    same(&rt, found, true);
    same(&rt, &room[128..], [7u8; 128].as_slice());
    Ok(())
}
