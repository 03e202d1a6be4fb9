//! Entries of a range in archives that aren't read whole.
ghost use Rattle.std.specs.Prelude.{◌≡◌, ◌+◌, ◌<◌, ◌++◌, ℕ, List, IfErr, IfOk, IsTrue};
ghost use Rattle.rkyv_btree_source.specs.Known.{AreOf};
ghost use Rattle.rkyv_btree_source.specs.SourceRange.{AreBetween, source_left, source_of, turns_left};
ghost use Rattle.rkyv_btree_format.specs.OwnBytes.{own_at};
ghost use Rattle.rkyv_btree_portable.specs.Text.{text_kind};
ghost use Rattle.rkyv_btree_unverified.specs.EntriesFrom.{entries_between};
ghost use Rattle.btreekv_commands.specs.Forms.{text_in};
ghost use Rattle.btreekv_commands.specs.Opening.{texts};
ghost use Rattle.btreekv_commands.specs.Ranged.{IsLastFault, IsRangeFault, PushesNext, WritesFirst, WritesLast, WritesPrefix, WritesRange, sought_in, text_compared_at};
ghost use Rattle.btreekv_commands.specs.Sourced.{IsReadFailure};

use crate::forms::{Form, push_entry};
use crate::listing::written_entry;
use crate::opening::Texts;
use crate::sourced::{MOST_ROOM, lengthen, lookup_fault};
use btreearc_lines::fault::ProgramFault;
use rkyv_btree_source::fault::SourceFault;
use rkyv_btree_source::range::SourceRange;
use rkyv_btree_source::source::ReadAt;
use rkyv_btree_source::unverified_source::UnverifiedSource;
use std::alloc::Global;
use std::ops::Bound;

/// The entries of a range of keys in the archive that is all of a source.
type Entries<'k, S> = SourceRange<S, Texts, &'k str, (Bound<&'k str>, Bound<&'k str>)>;

/// Writes the next entry of a range at the end, if its key begins with `prefix`. Returns whether there is one. What is read goes into
/// `room`, which is lengthened if need be.
///
/// # Errors
///
/// `Refused` with the first error in what is read; `InputFailed` if the source fails, or the budget is too small; `Memory` if an
/// allocation fails, or an entry needs more than 4294967295 bytes.
fn push_next<'k, S: ReadAt + Drop>(
    entries: &mut Entries<'k, S>,
    room: &mut Vec<u8>,
    prefix: &str,
    form: Form,
    out: &mut Vec<u8>,
) -> Result<bool, ProgramFault>
    ensures pushes { (b : List ℕ) → AreOf (S.known (source_of entries.old).reader.source) b →
        IfOk result (PushesNext prefix.now form
        (source_left b text_compared_at (λ s. s.0) (λ s. s.1) entries.old)
        (source_left b text_compared_at (λ s. s.0) (λ s. s.1) entries.new)
        out.old.items out.new.items) }
    ensures refused { (b : List ℕ) → AreOf (S.known (source_of entries.old).reader.source) b →
        IfErr result (IsRangeFault b (source_of entries.old).pos) }
    ensures failed { IfErr result
        (IsReadFailure (S.Fails (S.known (source_of entries.old).reader.source))
        ((source_of entries.old).pos + 8) (source_of entries.new).reader.left) }
    ensures same { S.known (source_of entries.new).reader.source
        ≡ S.known (source_of entries.old).reader.source }
    ensures position { (source_of entries.new).pos ≡ (source_of entries.old).pos }
    ensures turns { IfOk result (λ more. IsTrue more → turns_left entries.new < turns_left entries.old) }
{
    'longer: loop {
        let lent = room.len().min(MOST_ROOM);
        let needed = match entries.next(&mut room.as_mut_slice()[..lent]) {
            Ok(None) => return Ok(false),
            Ok(Some((key, value))) => {
                if !key.as_str().as_bytes().starts_with(prefix.as_bytes()) {
                    return Ok(false);
                }
                return match push_entry(out, form, key.as_str(), value.as_str()) {
                    Ok(()) => Ok(true),
                    Err(_) => Err(ProgramFault::Memory),
                };
            }
            Err(SourceFault::NoRoom { needed }) => needed,
            Err(fault) => return Err(lookup_fault(fault)),
        };
        if let Err(fault) = lengthen(room, needed) {
            return Err(fault);
        }
    }
}

/// Which entries are sought: those whose keys are between two bounds, up to the first that doesn't begin with a prefix.
#[derive(Clone, Copy)]
pub struct Sought<'k> {
    pub low: Bound<&'k str>,
    pub high: Bound<&'k str>,
    pub prefix: &'k str,
}

/// Writes entries of the archive that is all of a source at the end, and returns the archive. What is read goes into `room`, which is
/// lengthened if need be.
///
/// # Errors
///
/// `Refused` with the first error in what is read; `InputFailed` if the source fails; `Memory` if an allocation fails, or an entry
/// needs more than 4294967295 bytes. The entries before may be written then.
#[tactic(auto, using(crate::proofs::Fits::texts_fit))]
pub fn push_sought<'k, S: ReadAt + Drop>(
    map: UnverifiedSource<S, Texts>,
    sought: Sought<'k>,
    room: &mut Vec<u8>,
    form: Form,
    out: &mut Vec<u8>,
) -> Result<UnverifiedSource<S, Texts>, ProgramFault>
    ensures writes { (b : List ℕ) → AreOf (S.known map.reader.source) b → IfOk result (λ _.
        out.new.items ≡ out.old.items ++ text_in form
        (sought_in b map.pos sought.entry.low sought.entry.high sought.entry.prefix.now)) }
    ensures between { (b : List ℕ) → AreOf (S.known map.reader.source) b →
        AreBetween text_kind text_kind 5 b map.pos text_compared_at sought.entry.low sought.entry.high
        (entries_between text_kind text_kind 5 text_compared_at b sought.entry.low sought.entry.high map.pos) }
    ensures refused { (b : List ℕ) → AreOf (S.known map.reader.source) b →
        IfErr result (IsRangeFault b map.pos) }
    ensures source { IfOk result (λ rest. S.known rest.reader.source ≡ S.known map.reader.source) }
    ensures position { IfOk result (λ rest. rest.pos ≡ map.pos) }
{
    let mut entries = map.range_of((sought.low, sought.high));
    'more: loop {
        match push_next(&mut entries, room, sought.prefix, form, out) {
            Ok(true) => {}
            Ok(false) => return Ok(entries.into_source()),
            Err(fault) => return Err(fault),
        }
    }
}

/// Returns the first entry as it is written, the exit status, and the archive. Nothing is written if there is none: the status is 1
/// then, and else 0. The archive is all of a source, of which the way to that entry is read. What is read goes into `room`, which is
/// lengthened if need be.
///
/// # Errors
///
/// As of `push_sought`.
pub fn first_in<S: ReadAt + Drop>(
    alloc: Global,
    map: UnverifiedSource<S, Texts>,
    room: &mut Vec<u8>,
    form: Form,
) -> Result<(Vec<u8>, u8, UnverifiedSource<S, Texts>), ProgramFault>
    ensures ok { (b : List ℕ) → AreOf (S.known map.reader.source) b → map.pos ≡ own_at texts b →
        IfOk result (λ r. WritesFirst b form r.0.items r.1) }
    ensures err { (b : List ℕ) → AreOf (S.known map.reader.source) b →
        IfErr result (IsRangeFault b map.pos) }
{
    let mut entries = map.range_of((Bound::Unbounded, Bound::Unbounded));
    let mut text = Vec::new(alloc);
    match push_next(&mut entries, room, "", form, &mut text) {
        Ok(true) => Ok((text, 0, entries.into_source())),
        Ok(false) => Ok((text, 1, entries.into_source())),
        Err(fault) => Err(fault),
    }
}

/// Returns the last entry as it is written, and the exit status. Nothing is written if there is none: the status is 1 then, and else 0.
/// The archive is all of a source, of which the way to that entry is read. What is read goes into `room`, which is lengthened if need
/// be.
///
/// # Errors
///
/// `Refused` with the first error in what is read; `InputFailed` if the source fails, or the budget is too small; `Memory` if an
/// allocation fails, or the entry needs more than 4294967295 bytes.
#[tactic(auto, using(crate::proofs::Fits::texts_fit))]
pub fn last_in<S: ReadAt>(
    alloc: Global,
    map: &mut UnverifiedSource<S, Texts>,
    room: &mut Vec<u8>,
    form: Form,
) -> Result<(Vec<u8>, u8), ProgramFault>
    ensures ok { (b : List ℕ) → AreOf (S.known map.old.reader.source) b →
        map.old.pos ≡ own_at texts b → IfOk result (λ r. WritesLast b form r.0.items r.1) }
    ensures err { (b : List ℕ) → AreOf (S.known map.old.reader.source) b →
        IfErr result (IsLastFault b map.old.pos) }
    ensures failed { IfErr result
        (IsReadFailure (S.Fails (S.known map.old.reader.source)) (map.old.pos + 8)
        map.new.reader.left) }
    ensures source { S.known map.new.reader.source ≡ S.known map.old.reader.source }
    ensures position { map.new.pos ≡ map.old.pos }
{
    'longer: loop {
        let lent = room.len().min(MOST_ROOM);
        let needed = match map.last(&mut room.as_mut_slice()[..lent]) {
            Ok(entry) => return written_entry(alloc, entry, form),
            Err(SourceFault::NoRoom { needed }) => needed,
            Err(fault) => return Err(lookup_fault(fault)),
        };
        if let Err(fault) = lengthen(room, needed) {
            return Err(fault);
        }
    }
}

/// Returns the entries of the keys from one to another as they are written, and the archive. The archive is all of a source, which
/// isn't read whole. What is read goes into `room`, which is lengthened if need be.
///
/// # Errors
///
/// As of `push_sought`.
pub fn range_in<S: ReadAt + Drop>(
    alloc: Global,
    map: UnverifiedSource<S, Texts>,
    room: &mut Vec<u8>,
    low: &String,
    high: &String,
    form: Form,
) -> Result<(Vec<u8>, UnverifiedSource<S, Texts>), ProgramFault>
    ensures ok { (b : List ℕ) → AreOf (S.known map.reader.source) b → map.pos ≡ own_at texts b →
        IfOk result (λ r. WritesRange b low.now high.now form r.0.items) }
    ensures err { (b : List ℕ) → AreOf (S.known map.reader.source) b →
        IfErr result (IsRangeFault b map.pos) }
{
    let sought = Sought {
        low: Bound::Included(low.as_str()),
        high: Bound::Included(high.as_str()),
        prefix: "",
    };
    let mut text = Vec::new(alloc);
    match push_sought(map, sought, room, form, &mut text) {
        Ok(map) => Ok((text, map)),
        Err(fault) => Err(fault),
    }
}

/// Returns the entries of the keys that begin with a text as they are written, and the archive. The archive is all of a source, which
/// isn't read whole. What is read goes into `room`, which is lengthened if need be.
///
/// # Errors
///
/// As of `push_sought`.
pub fn prefix_in<S: ReadAt + Drop>(
    alloc: Global,
    map: UnverifiedSource<S, Texts>,
    room: &mut Vec<u8>,
    prefix: &String,
    form: Form,
) -> Result<(Vec<u8>, UnverifiedSource<S, Texts>), ProgramFault>
    ensures ok { (b : List ℕ) → AreOf (S.known map.reader.source) b → map.pos ≡ own_at texts b →
        IfOk result (λ r. WritesPrefix b prefix.now form r.0.items) }
    ensures err { (b : List ℕ) → AreOf (S.known map.reader.source) b →
        IfErr result (IsRangeFault b map.pos) }
{
    let sought = Sought {
        low: Bound::Included(prefix.as_str()),
        high: Bound::Unbounded,
        prefix: prefix.as_str(),
    };
    let mut text = Vec::new(alloc);
    match push_sought(map, sought, room, form, &mut text) {
        Ok(map) => Ok((text, map)),
        Err(fault) => Err(fault),
    }
}
