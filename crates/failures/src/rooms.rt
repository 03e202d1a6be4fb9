//! Archives whose memory comes from a heap that has no room for one of the growths.

use crate::archives::{Case, built_cases};
use crate::writers::FailingWriter;
use anyhow::{bail, ensure};
use linked_list_allocator::LocalHeap;
use rkyv_btree::prelude::*;
use std::alloc::{AllocError, Global};

/// What comes of a case in a heap of some room.
#[derive(Clone, Copy, PartialEq, Eq)]
enum RoomOutcome {
    Whole,
    /// An error of memory, after which the writer holds so many bytes, the old ones first.
    NoMemory(usize),
    Wrong,
}

/// Archives a case in a heap of some room.
fn outcome(alloc: Global, case: &Case, room: usize, whole: &[u8]) -> anyhow::Result<RoomOutcome> {
    let heap = LocalHeap::new(alloc, room)?;
    let mut writer = FailingWriter::new(alloc, 0, case.old, None)?;
    let answer = case
        .content
        .write::<FailingWriter, &LocalHeap>(alloc, &heap, &mut writer)?;
    let is_whole = writer.bytes.as_slice() == whole;
    let is_kept = writer.bytes.starts_with(case.old) && whole.starts_with(&writer.bytes);
    Ok(match answer {
        Ok(_) if is_whole && heap.used() == 0 => RoomOutcome::Whole,
        Err(Fault::Memory(_)) if is_kept && heap.used() == 0 => {
            RoomOutcome::NoMemory(writer.bytes.len())
        }
        _ => RoomOutcome::Wrong,
    })
}

/// Appends what came of the rooms up to one.
fn show_outcome(
    name: &str,
    room: usize,
    outcome: RoomOutcome,
    out: &mut String,
) -> Result<(), AllocError> {
    match outcome {
        RoomOutcome::Whole => write!(out, "{name}, room {room}: whole\n"),
        RoomOutcome::NoMemory(left) => {
            write!(
                out,
                "{name}, up to room {room}: out of memory; {left} bytes\n"
            )
        }
        RoomOutcome::Wrong => write!(out, "{name}, room {room}: WRONG\n"),
    }
}

/// Appends a line for each length that a writer has after an error of memory, with the largest room at which that comes, and one
/// for the least room that is enough.
fn show_case(alloc: Global, case: &Case, out: &mut String) -> anyhow::Result<()> {
    let mut writer = FailingWriter::new(alloc, 0, case.old, None)?;
    let answer = case
        .content
        .write::<FailingWriter, Global>(alloc, alloc, &mut writer)?;
    ensure!(answer.is_ok(), "not archived");
    let whole = writer.bytes;
    let mut before: Option<(usize, RoomOutcome)> = None;
    for units in 0..1000 {
        let room = 16 * units;
        let now = outcome(alloc, case, room, &whole)?;
        if let Some((less, last)) = before {
            if last != now {
                show_outcome(case.name, less, last, out)?;
            }
        }
        if now == RoomOutcome::Whole {
            show_outcome(case.name, room, now, out)?;
            return Ok(());
        }
        before = Some((room, now));
    }
    bail!("no heap has room")
}

/// Appends the lines of each case.
pub(crate) fn show(alloc: Global, out: &mut String) -> anyhow::Result<()> {
    for case in &built_cases(alloc)? {
        show_case(alloc, case, out)?;
    }
    Ok(())
}
