//! Look-ups in archives that aren't read whole.
ghost use Rattle.std.specs.Prelude.{◌≡◌, ◌+◌, ◌≤◌, ◌++◌, ◌∷◌, [], ℕ, List, IfOk, IfErr, OnOk, length, string_bytes};
ghost use Rattle.rkyv_btree_format.specs.OwnBytes.{own_at};
ghost use Rattle.btreearc_lines.specs.Headings.{IsMisheaded};
ghost use Rattle.rkyv_btree_source.specs.Known.{AreOf};
ghost use Rattle.rkyv_btree_view.specs.View.{view_value};
ghost use Rattle.btreekv_commands.specs.Forms.{value_line};
ghost use Rattle.btreekv_commands.specs.Opening.{HasFitHeading, texts, texts_name};
ghost use Rattle.btreekv_commands.specs.Sourced.{AppendsFound, FailsToSearch, GivesValue, IfMisheaded, IsReadFailure, IsUnopenedSource};
ghost use Rattle.btreekv_commands.specs.Sourced.{WritesFound, first_bytes, lookup_fault};

use crate::forms::{Form, push_value};
use crate::listing::write_entry;
use crate::opening::Texts;
use btreearc_lines::fault::ProgramFault;
use btreearc_lines::heading::heading_of;
use rkyv_btree_portable::text::ArchivedText;
use rkyv_btree_source::fault::SourceFault;
use rkyv_btree_source::source::ReadAt;
use rkyv_btree_source::unverified_source::UnverifiedSource;
use rkyv_btree_unverified::laws::maps_are_searched;
use rkyv_btree_view::view::View;
use std::alloc::Global;

/// The number of bytes that a look-up is lent at first.
const FIRST_ROOM: usize = 65536;

/// The most bytes that a look-up is lent.
pub(crate) const MOST_ROOM: usize = 4294967295;

/// The most bytes that all look-ups in a source read together.
pub const BUDGET: u64 = 18446744073709551615;

/// Returns the error of the program for one of a source.
pub(crate) fn lookup_fault<E: Drop>(fault: SourceFault<E>) -> ProgramFault
    ensures { result ≡ lookup_fault fault }
{
    match fault {
        SourceFault::Refused(refusal) => ProgramFault::Refused(refusal),
        SourceFault::Read(_) => ProgramFault::InputFailed,
        SourceFault::OverBudget => ProgramFault::InputFailed,
        SourceFault::NoRoom { needed: _ } => ProgramFault::Memory,
    }
}

/// Tests that a source begins with the header of the program's type, or with none. As many first bytes are read as `room` has.
///
/// # Errors
///
/// `Misheaded` with what the header has, and `InputFailed` if the source fails.
fn check_first<S: ReadAt>(source: &mut S, room: &mut [u8]) -> Result<(), ProgramFault>
    requires { length room.old ≡ 4096 }
    ensures ok { (b : List ℕ) → AreOf (S.known source.old) b →
        OnOk result (HasFitHeading (first_bytes b)) }
    ensures err { (b : List ℕ) → AreOf (S.known source.old) b →
        IfErr result (IsUnopenedSource b) }
    ensures same { S.known source.new ≡ S.known source.old }
{
    let size = match source.size() {
        Ok(size) => size,
        Err(_) => return Err(ProgramFault::InputFailed),
    };
    let len = size.min(room.len() as u64) as usize;
    let first = &mut room[..len];
    match source.read_at(0, first) {
        Ok(()) => {}
        Err(_) => return Err(ProgramFault::InputFailed),
    }
    match heading_of::<Texts>(first) {
        Ok(_) => Ok(()),
        Err(fault) => Err(ProgramFault::Misheaded(fault)),
    }
}

/// Returns the archive that is all of a source. Nothing is read but the number of bytes, and up to 4096 first bytes: a header isn't
/// known whose name ends after them.
///
/// # Errors
///
/// `Misheaded` if another header than that of the program's type comes first; `Refused` if positions of 32 bits don't reach all bytes;
/// `InputFailed` if the source fails.
#[tactic(auto, using(crate::proofs::Fits::texts_fit))]
pub fn open<S: ReadAt + Drop>(mut source: S) -> Result<UnverifiedSource<S, Texts>, ProgramFault>
    ensures headed { (b : List ℕ) → AreOf (S.known source) b →
        OnOk result (HasFitHeading (first_bytes b)) }
    ensures source { IfOk result (λ map. S.known map.reader.source ≡ S.known source) }
    ensures position { (b : List ℕ) → AreOf (S.known source) b →
        IfOk result (λ map. map.pos ≡ own_at texts b) }
    ensures budget { IfOk result (λ map. map.reader.left ≡ 18446744073709551615) }
    ensures refused { (b : List ℕ) → AreOf (S.known source) b →
        IfErr result (IsUnopenedSource b) }
{
    match check_first(&mut source, &mut [0; 4096]) {
        Ok(()) => {}
        Err(fault) => return Err(fault),
    }
    match UnverifiedSource::<S, Texts>::open(source, BUDGET) {
        Ok(map) => Ok(map),
        Err(fault) => Err(lookup_fault(fault)),
    }
}

/// Returns a copy of a text that was found.
fn copied(alloc: Global, text: View<'_, ArchivedText>) -> Result<String, ProgramFault>
    ensures ok { IfOk result (λ copy. string_bytes copy ≡ view_value text.entry) }
    ensures err { IfErr result (λ fault. fault ≡ ProgramFault.Memory) }
{
    match String::from_str(alloc, text.as_str()) {
        Ok(copy) => Ok(copy),
        Err(_) => Err(ProgramFault::Memory),
    }
}

/// Makes a buffer as long as a look-up needs it.
///
/// # Errors
///
/// `Memory` if the allocation fails, or no look-up can be lent so many bytes.
pub(crate) fn lengthen(room: &mut Vec<u8>, needed: u64) -> Result<(), ProgramFault>
    ensures ok { OnOk result ((length room.new.items ≡ needed) × (needed ≤ 4294967295)) }
    ensures err { IfErr result (λ fault. fault ≡ ProgramFault.Memory) }
{
    let Ok(needed) = u32::try_from(needed) else {
        return Err(ProgramFault::Memory);
    };
    match room.resize(needed as usize, 0) {
        Ok(()) => Ok(()),
        Err(_) => Err(ProgramFault::Memory),
    }
}

/// Returns the value of a key in the archive that is all of a source. What is read goes into `room`, which is lengthened if need be.
///
/// # Errors
///
/// `Refused` with the first error in what the look-up reads; `InputFailed` if the source fails, or the budget is too small; `Memory` if
/// an allocation fails, or a text of the archive needs more than 4294967295 bytes.
#[tactic(auto, using(crate::proofs::Fits::texts_fit))]
pub fn value_of<S: ReadAt>(
    alloc: Global,
    map: &mut UnverifiedSource<S, Texts>,
    room: &mut Vec<u8>,
    key: &str,
) -> Result<Option<String>, ProgramFault>
    ensures value { (b : List ℕ) → AreOf (S.known map.old.reader.source) b →
        map.old.pos ≡ own_at texts b → GivesValue b key.now result }
    ensures failed { IfErr result
        (IsReadFailure (S.Fails (S.known map.old.reader.source)) (map.old.pos + 8)
        map.new.reader.left) }
    ensures source { S.known map.new.reader.source ≡ S.known map.old.reader.source }
    ensures position { map.new.pos ≡ map.old.pos }
    ensures left { map.new.reader.left ≤ map.old.reader.left }
{
    maps_are_searched::<ArchivedText, ArchivedText, 5>();
    'longer: loop {
        let lent = room.len().min(MOST_ROOM);
        let needed = match map.get_by(key, &mut room.as_mut_slice()[..lent]) {
            Ok(None) => return Ok(None),
            Ok(Some(value)) => {
                return match copied(alloc, value) {
                    Ok(copy) => Ok(Some(copy)),
                    Err(fault) => Err(fault),
                };
            }
            Err(SourceFault::NoRoom { needed }) => needed,
            Err(fault) => return Err(lookup_fault(fault)),
        };
        if let Err(fault) = lengthen(room, needed) {
            return Err(fault);
        }
    }
}

/// Returns the buffer that a look-up is lent at first.
///
/// # Errors
///
/// `Memory` if the allocation fails.
pub fn first_room(alloc: Global) -> Result<Vec<u8>, ProgramFault>
    ensures ok { IfOk result (λ room. length room.items ≡ 65536) }
    ensures err { IfErr result (λ fault. fault ≡ ProgramFault.Memory) }
{
    let mut room = Vec::new(alloc);
    match room.resize(FIRST_ROOM, 0) {
        Ok(()) => Ok(room),
        Err(_) => Err(ProgramFault::Memory),
    }
}

/// Returns the value of a key in the archive that is all of a source, which isn't read whole.
///
/// # Errors
///
/// `Misheaded` as of `open`; `Refused` with the first error in what the look-up reads; `InputFailed` if the source fails; `Memory` if an allocation fails, or a
/// text of the archive needs more than 4294967295 bytes.
pub fn value_in<S: ReadAt + Drop>(
    alloc: Global,
    source: S,
    key: &str,
) -> Result<Option<String>, ProgramFault>
    ensures value { (b : List ℕ) → AreOf (S.known source) b → HasFitHeading (first_bytes b) →
        GivesValue b key.now result }
    ensures misheaded { (b : List ℕ) → AreOf (S.known source) b →
        IfErr result (IfMisheaded (IsMisheaded texts_name (first_bytes b))) }
{
    let mut map = match open(source) {
        Ok(map) => map,
        Err(fault) => return Err(fault),
    };
    let mut room = match first_room(alloc) {
        Ok(room) => room,
        Err(fault) => return Err(fault),
    };
    value_of(alloc, &mut map, &mut room, key)
}

/// Returns a value as it is written.
///
/// # Errors
///
/// `Memory` if an allocation fails.
fn value_line(alloc: Global, value: &str, form: Form) -> Result<Vec<u8>, ProgramFault>
    ensures ok { IfOk result (λ line. line.items ≡ value_line form value.now) }
    ensures err { IfErr result (λ fault. fault ≡ ProgramFault.Memory) }
{
    let mut line = Vec::new(alloc);
    match push_value(&mut line, form, value) {
        Ok(()) => Ok(line),
        Err(_) => Err(ProgramFault::Memory),
    }
}

/// Returns a key's value, as `get` writes it, and the exit status, or nothing and the status 1. The archive is all of a
/// source, which isn't read whole. What is read goes into `room`, which is lengthened if need be.
///
/// # Errors
///
/// As of `value_of`.
pub fn line_of<S: ReadAt>(
    alloc: Global,
    map: &mut UnverifiedSource<S, Texts>,
    room: &mut Vec<u8>,
    key: &String,
    form: Form,
) -> Result<(Vec<u8>, u8), ProgramFault>
    ensures ok { (b : List ℕ) → AreOf (S.known map.old.reader.source) b →
        map.old.pos ≡ own_at texts b →
        IfOk result (λ r. WritesFound b form key.now r.0.items r.1) }
    ensures err { (b : List ℕ) → AreOf (S.known map.old.reader.source) b →
        map.old.pos ≡ own_at texts b → IfErr result (FailsToSearch b (string_bytes key.now)) }
    ensures source { S.known map.new.reader.source ≡ S.known map.old.reader.source }
    ensures position { map.new.pos ≡ map.old.pos }
{
    match value_of(alloc, map, room, key.as_str()) {
        Ok(None) => Ok((Vec::new(alloc), 1)),
        Ok(Some(value)) => match value_line(alloc, value.as_str(), form) {
            Ok(line) => Ok((line, 0)),
            Err(fault) => Err(fault),
        },
        Err(fault) => Err(fault),
    }
}

/// Writes the line of a key and its value at the end, if the key is found, and returns whether it is. The archive is all of a source,
/// which isn't read whole. What is read goes into `room`, which is lengthened if need be.
///
/// # Errors
///
/// As of `value_of`. A beginning of the line may be written then.
pub fn push_found<S: ReadAt>(
    alloc: Global,
    map: &mut UnverifiedSource<S, Texts>,
    room: &mut Vec<u8>,
    key: &str,
    lines: &mut String,
) -> Result<bool, ProgramFault>
    ensures ok { (b : List ℕ) → AreOf (S.known map.old.reader.source) b →
        map.old.pos ≡ own_at texts b →
        IfOk result (AppendsFound b key.now (string_bytes lines.old) (string_bytes lines.new)) }
    ensures err { (b : List ℕ) → AreOf (S.known map.old.reader.source) b →
        map.old.pos ≡ own_at texts b → IfErr result (FailsToSearch b key.now) }
    ensures source { S.known map.new.reader.source ≡ S.known map.old.reader.source }
    ensures position { map.new.pos ≡ map.old.pos }
{
    match value_of(alloc, map, room, key) {
        Ok(None) => Ok(false),
        Ok(Some(value)) => match write_entry(lines, key, value.as_str()) {
            Ok(()) => Ok(true),
            Err(_) => Err(ProgramFault::Memory),
        },
        Err(fault) => Err(fault),
    }
}
