//! Archives of entries: in the order of their lines, and sorted.
ghost use Rattle.std.specs.Prelude.{◌≡◌, ◌⊎◌, List, length, IfOk, OnOk, IfErr, IfSome, map};
ghost use Rattle.std.specs.BTreeMap.{insert_entry};
ghost use Rattle.std.specs.String.{string_cmp};
ghost use Rattle.rkyv_btree_writer.specs.Archiving.{IsArchived};
ghost use Rattle.rkyv_btree_writer.specs.Causes.{HasCauses};
ghost use Rattle.rkyv_btree_writing_laws.specs.Whole.{fresh};
ghost use Rattle.btreearc_lines.specs.Faults.{IsReadTry};
ghost use Rattle.btreekv_commands.specs.Building.{last_values, IsBuildFault, IsBuilt, IsBuiltMap, IsReadOrBuildFault, IsTried, IsTriedAfter};
ghost use Rattle.btreekv_commands.specs.Building.{IsUnbuilt, IsUnbuiltMap, bytes_archival};
ghost use Rattle.btreekv_commands.specs.Files.{IsWrittenAfter};
ghost use Rattle.btreekv_commands.specs.Lines.{AreLines, Entry};
ghost use Rattle.btreekv_commands.specs.Opening.{KeysIncrease, texts};
ghost use Rattle.btreekv_commands.specs.Texts.{texts_of};

use crate::entries::Entries;
use crate::opening::Texts;
use crate::text::Text;
use btreearc_lines::fault::{ProgramFault, program_fault};
use btreearc_lines::heading::{Heading, write_heading};
use rkyv_btree_archive::archive::{Archive, Serialize};
use rkyv_btree_archive::build_map::BuildMap;
use rkyv_btree_archive::to_archive::write_value;
use rkyv_btree_archive::try_build::TryFault;
use rkyv_btree_convert::native_map::last_values_count;
use rkyv_btree_portable::text::ArchivedText;
use rkyv_btree_writer::fault::Fault;
use rkyv_btree_writer::place::{VecWriter, Writer};
use std::alloc::{AllocError, Global};
use std::collections::BTreeMap;
use std::io::BufRead;

/// States that archiving a type is lawful, and the causes of its errors are true ones.
fn archiving_is_lawful<T: Archive>()
    ensures archived { IsArchived T.archival }
    ensures causes { HasCauses T.archival }
{}

/// Serializes the entries of the lines of a reader and then their map, after what a writer holds. `count` is the number of lines.
///
/// # Errors
///
/// `Item` if a read fails, a line is no entry, there are fewer lines, or there is no memory for an entry. `Build` if the archive
/// would be longer than 4 GiB, a pointer would reach over more than 2 GiB, the writer fails, or there is no memory.
#[tactic(auto, using(crate::proofs::Fits::texts_fit))]
fn serialize_entries<B: BufRead + Drop, W: Writer>(
    alloc: Global,
    count: usize,
    input: B,
    writer: &mut W,
) -> Result<(), TryFault<W::Error, ProgramFault>>
    ensures ok { OnOk result (IfSome (B.remaining input) (λ bytes. (entries : List Entry) →
        AreLines bytes entries → count ≡ length entries →
        IsWrittenAfter bytes_archival texts (W.state writer.old) entries
        (W.state writer.new).contents)) }
    ensures err { IfErr result (λ fault. IfSome (B.remaining input) (λ bytes.
        (entries : List Entry) → AreLines bytes entries → count ≡ length entries →
        IsTriedAfter (W.state writer.old) entries fault)) }
    ensures read { IfErr result IsReadTry }
{
    archiving_is_lawful::<Text>();
    let items = Entries::new(alloc, input, count);
    let root = match Texts::try_serialize_from_ordered_iter(alloc, count, items, writer) {
        Ok(root) => root,
        Err(fault) => return Err(fault),
    };
    match Texts::write_root(count, root, writer) {
        Ok(_) => Ok(()),
        Err(fault) => Err(TryFault::Build(fault)),
    }
}

/// Writes the file of the entries of the lines of a reader: the header if it is typed, the tree, and the map. `count` is the number
/// of lines.
///
/// # Errors
///
/// Those of `serialize_entries`, and `Build` if the header isn't written.
pub(crate) fn serialize_lines<B: BufRead + Drop, W: Writer>(
    alloc: Global,
    heading: Heading,
    count: usize,
    input: B,
    writer: &mut W,
) -> Result<(), TryFault<W::Error, ProgramFault>>
    requires { W.state writer.old ≡ fresh }
    ensures ok { OnOk result (IfSome (B.remaining input) (λ bytes. (entries : List Entry) →
        AreLines bytes entries → count ≡ length entries →
        IsBuilt heading (W.state writer.new).contents entries)) }
    ensures err { IfErr result (λ fault. IfSome (B.remaining input) (λ bytes.
        (entries : List Entry) → AreLines bytes entries → count ≡ length entries →
        IsTried heading entries fault)) }
    ensures read { IfErr result IsReadTry }
{
    archiving_is_lawful::<Text>();
    match write_heading::<Texts, W>(alloc, heading, writer) {
        Ok(()) => serialize_entries(alloc, count, input, writer),
        Err(fault) => Err(TryFault::Build(fault)),
    }
}

/// Returns the file of the entries of lines, of which there are `count`.
///
/// # Errors
///
/// `NotBuilt` if the archive would be longer than 4 GiB, a pointer would reach over more than 2 GiB, or there is no memory for the
/// archive. `Memory` if there is none for an entry.
pub fn archive(
    alloc: Global,
    heading: Heading,
    text: &[u8],
    count: usize,
) -> Result<Vec<u8>, ProgramFault>
    ensures ok { IfOk result (λ bytes. (entries : List Entry) → AreLines text.now entries →
        count ≡ length entries → IsBuilt heading bytes.items entries) }
    ensures err { IfErr result (IsReadOrBuildFault (λ fault. (entries : List Entry) →
        AreLines text.now entries → count ≡ length entries → IsUnbuilt heading entries fault)) }
{
    let mut writer = VecWriter::new(alloc);
    match serialize_lines(alloc, heading, count, text, &mut writer) {
        Ok(()) => Ok(writer.into_vec()),
        Err(fault) => Err(program_fault(fault)),
    }
}

/// Inserts an entry into a std map. A key that is equal stays, and gets the value.
///
/// # Errors
///
/// `Memory` if an allocation fails.
fn insert(
    map: &mut BTreeMap<String, String>,
    key: String,
    value: String,
) -> Result<(), ProgramFault>
    ensures ok { OnOk result
        (map.new.entries ≡ insert_entry string_cmp map.old.entries key value) }
    ensures err { IfErr result (λ fault. fault ≡ ProgramFault.Memory) }
{
    match map.insert(key, value) {
        Ok(_) => Ok(()),
        Err(_) => Err(ProgramFault::Memory),
    }
}

/// Returns the std map of entries. Of equal keys the last value counts.
///
/// # Errors
///
/// `Memory` if an allocation fails.
fn sorted(
    alloc: Global,
    entries: Vec<(String, String)>,
) -> Result<BTreeMap<String, String>, ProgramFault>
    ensures ok { IfOk result (λ map_of.
        map texts_of map_of.entries ≡ last_values (map texts_of entries.items)) }
    ensures increase { OnOk result (KeysIncrease (last_values (map texts_of entries.items))) }
    ensures err { IfErr result (λ fault. fault ≡ ProgramFault.Memory) }
{
    last_values_count::<String, String, ArchivedText, ArchivedText>();
    let mut sorted: BTreeMap<String, String> = BTreeMap::new(alloc);
    for (key, value) in entries {
        insert(&mut sorted, key, value)?;
    }
    Ok(sorted)
}

/// Returns the file of a std map.
///
/// # Errors
///
/// Those of building an archive, and of its header.
#[tactic(auto, using(crate::proofs::Fits::texts_fit))]
fn map_file(
    alloc: Global,
    heading: Heading,
    sorted: &BTreeMap<String, String>,
) -> Result<Vec<u8>, Fault<AllocError>>
    ensures ok { IfOk result (λ bytes.
        IsBuiltMap heading bytes.items (map texts_of sorted.now.entries)) }
    ensures err { IfErr result (IsUnbuiltMap heading (map texts_of sorted.now.entries)) }
{
    archiving_is_lawful::<String>();
    let mut writer = VecWriter::new(alloc);
    match write_heading::<Texts, VecWriter>(alloc, heading, &mut writer) {
        Ok(()) => {}
        Err(fault) => return Err(fault),
    }
    let resolver = match sorted.serialize(alloc, &mut writer) {
        Ok(resolver) => resolver,
        Err(fault) => return Err(fault),
    };
    match write_value(alloc, sorted, resolver, &mut writer) {
        Ok(_) => Ok(writer.into_vec()),
        Err(fault) => Err(fault),
    }
}

/// Returns the file of entries in increasing order of their keys. Of equal keys the last value counts.
///
/// # Errors
///
/// As of `archive`, and `Memory` if an allocation fails.
pub fn sorted_archive(
    alloc: Global,
    heading: Heading,
    entries: Vec<(String, String)>,
) -> Result<Vec<u8>, ProgramFault>
    ensures ok { IfOk result (λ bytes.
        IsBuiltMap heading bytes.items (last_values (map texts_of entries.items))) }
    ensures increase { OnOk result (KeysIncrease (last_values (map texts_of entries.items))) }
    ensures err { IfErr result (λ fault. (fault ≡ ProgramFault.Memory)
        ⊎ IsBuildFault (IsUnbuiltMap heading (last_values (map texts_of entries.items))) fault) }
{
    let map = sorted(alloc, entries)?;
    match map_file(alloc, heading, &map) {
        Ok(bytes) => Ok(bytes),
        Err(fault) => Err(ProgramFault::NotBuilt(fault)),
    }
}
