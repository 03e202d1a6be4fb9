//! Tables of two columns as CSV and TSV, whose first record names the columns.
ghost use Rattle.std.specs.Prelude.{◌≡◌, ◌++◌, ℕ, [], IfOk, IfErr, IfSome, IfNone, IsUtf8, List, OnOk, Some, map, string_bytes, true};
ghost use Rattle.std.specs.List.{AllByRecursion};
ghost use Rattle.csv.specs.Reading.{Ready, error_kind, is_flexible, reader_config, reader_state, reader_trim, source_of, stops_reader, strip_bom};
ghost use Rattle.csv.specs.Records.{field_at, fields_of};
ghost use Rattle.csv.specs.declared.parser.State.TheVariants.{StartRecord};
ghost use Rattle.csv.specs.declared.reader.Trim.TheVariants as trims;
ghost use Rattle.btreekv_commands.specs.CsvRecords.{AreTableEntries, HasWritten, IsBadRow, IsPair, IsTable, IsTableFault};
ghost use Rattle.btreekv_commands.specs.CsvRecords.{delimiter_of, entry_row, reading, stop_of, table_text};
ghost use Rattle.btreekv_commands.specs.Lines.{Entry};
ghost use Rattle.btreekv_commands.specs.Records.{AreUtf8};
ghost use Rattle.btreekv_commands.specs.Texts.{texts_of};

use btreearc_lines::fault::ProgramFault;
use csv::{ByteRecord, Error, Reader, ReaderBuilder, Writer, WriterBuilder};
use std::alloc::Global;
use std::str::from_utf8;

/// What stands between the fields of a table.
#[derive(Clone, Copy, Debug, PartialEq, Eq)]
pub enum Table {
    /// A comma.
    Csv,
    /// A tab.
    Tsv,
}

/// States that the table which is written of entries is read as the same entries.
pub fn written_tables_are_read()
    ensures { (table : Table) (entries : List Entry) → AllByRecursion AreUtf8 entries →
        AreTableEntries table (table_text table entries) entries }
{}

/// States that a text is the table of one list of entries at most, and that it has no bad record then.
pub fn tables_are_determined()
    ensures entries { (table : Table) (bytes : List ℕ) (entries others : List Entry) →
        AreTableEntries table bytes entries → AreTableEntries table bytes others → entries ≡ others }
    ensures records { (table : Table) (bytes : List ℕ) (entries : List Entry) (n : ℕ) →
        AreTableEntries table bytes entries → ¬ IsBadRow table bytes n }
{}

/// Returns the byte between the fields of a table.
fn delimiter_of(table: Table) -> u8
    ensures { result ≡ delimiter_of table }
{
    match table {
        Table::Csv => b',',
        Table::Tsv => b'\t',
    }
}

/// Returns a reader of the records of a table, which can have any numbers of fields. The first one is given too.
fn reader_of(alloc: Global, table: Table, bytes: &[u8]) -> Reader<&[u8]>
    ensures config { reader_config result ≡ reading table }
    ensures flexible { is_flexible result ≡ true }
    ensures trim { reader_trim result ≡ trims.None }
    ensures ready { Ready result }
    ensures state { reader_state result ≡ StartRecord }
    ensures source { source_of (λ s. Some s.now) result ≡ Some (strip_bom bytes.now) }
{
    ReaderBuilder::new()
        .delimiter(delimiter_of(table))
        .has_headers(false)
        .flexible(true)
        .from_reader(alloc, bytes)
}

/// Returns the program's error for one that stops a reader.
fn fault_of(error: &Error) -> ProgramFault
    requires { stops_reader (error_kind error.now) ≡ true }
    ensures { result ≡ stop_of (error_kind error.now) }
{
    if error.is_io_error() {
        ProgramFault::InputFailed
    } else {
        ProgramFault::Memory
    }
}

/// Returns a copy of a field of a record, or `None` if there is none or it isn't UTF-8.
///
/// # Errors
///
/// `Memory` if an allocation fails.
fn text_at(alloc: Global, row: &ByteRecord, place: usize) -> Result<Option<String>, ProgramFault>
    ensures some { IfOk result (λ found. IfSome found (λ text.
        field_at (fields_of row.now) place ≡ Some (string_bytes text))) }
    ensures utf8 { IfOk result (λ found. IfSome found (λ text. IsUtf8 (string_bytes text))) }
    ensures none { IfOk result (λ found. IfNone found ((text : List ℕ) → IsUtf8 text →
        ¬ (field_at (fields_of row.now) place ≡ Some text))) }
    ensures err { IfErr result (λ fault. fault ≡ ProgramFault.Memory) }
{
    let Some(field) = row.get(place) else {
        return Ok(None);
    };
    let Ok(text) = from_utf8(field) else {
        return Ok(None);
    };
    match String::from_str(alloc, text) {
        Ok(text) => Ok(Some(text)),
        Err(_) => Err(ProgramFault::Memory),
    }
}

/// Returns the two texts of a record, or `None` if it isn't two texts.
///
/// # Errors
///
/// `Memory` if an allocation fails.
fn pair_of(alloc: Global, row: &ByteRecord) -> Result<Option<(String, String)>, ProgramFault>
    ensures some { IfOk result (λ found. IfSome found (λ e.
        IsPair (fields_of row.now) (texts_of e))) }
    ensures none { IfOk result (λ found. IfNone found
        ((x : Entry) → ¬ IsPair (fields_of row.now) x)) }
    ensures err { IfErr result (λ fault. fault ≡ ProgramFault.Memory) }
{
    if row.len() != 2 {
        return Ok(None);
    }
    let key = match text_at(alloc, row, 0) {
        Ok(Some(key)) => key,
        Ok(None) => return Ok(None),
        Err(fault) => return Err(fault),
    };
    match text_at(alloc, row, 1) {
        Ok(Some(value)) => Ok(Some((key, value))),
        Ok(None) => Ok(None),
        Err(fault) => Err(fault),
    }
}

/// Returns the pairs of texts that all records of a table are.
///
/// # Errors
///
/// As of `parse_table`.
fn parse_pairs(
    alloc: Global,
    table: Table,
    bytes: &[u8],
) -> Result<Vec<(String, String)>, ProgramFault>
    ensures ok { IfOk result (λ found. IsTable table bytes.now (map texts_of found.items)) }
    ensures err { IfErr result (IsTableFault table bytes.now) }
{
    let mut pairs = Vec::new(alloc);
    for row in reader_of(alloc, table, bytes).into_byte_records() {
        let row = match row {
            Ok(row) => row,
            Err(error) => return Err(fault_of(&error)),
        };
        let pair = match pair_of(alloc, &row) {
            Ok(Some(pair)) => pair,
            Ok(None) => return Err(ProgramFault::Line(pairs.len() as u64 + 1)),
            Err(fault) => return Err(fault),
        };
        if pairs.push(pair).is_err() {
            return Err(ProgramFault::Memory);
        }
    }
    Ok(pairs)
}

/// Returns the entries of a table: its records after the first one, which names the columns. Each record is two texts.
///
/// # Errors
///
/// `Line` with the number of the first record that isn't two texts, where the one with the names is record 1. `Memory` if an
/// allocation fails, and `InputFailed` if the reader of the bytes does.
pub fn parse_table(
    alloc: Global,
    table: Table,
    bytes: &[u8],
) -> Result<Vec<(String, String)>, ProgramFault>
    ensures ok { IfOk result (λ found. AreTableEntries table bytes.now (map texts_of found.items)) }
    ensures err { IfErr result (IsTableFault table bytes.now) }
{
    let mut pairs = match parse_pairs(alloc, table, bytes) {
        Ok(pairs) => pairs,
        Err(fault) => return Err(fault),
    };
    if pairs.len() > 0 {
        let _names = pairs.remove(0);
    }
    Ok(pairs)
}

/// Returns a writer of the records of a table, which has written nothing.
pub fn writer_of(alloc: Global, table: Table) -> Writer<Vec<u8>>
    ensures { HasWritten table result [] }
{
    WriterBuilder::new()
        .delimiter(delimiter_of(table))
        .from_writer(Vec::new(alloc))
}

/// Writes a record of two texts.
///
/// # Errors
///
/// `Memory` if an allocation fails.
pub fn write_pair(writer: &mut Writer<Vec<u8>>, key: &str, value: &str) -> Result<(), ProgramFault>
    ensures ok { OnOk result ((table : Table) (text : List ℕ) → HasWritten table writer.old text
        → HasWritten table writer.new (text ++ entry_row table (key.now, value.now))) }
    ensures err { IfErr result (λ fault. fault ≡ ProgramFault.Memory) }
{
    match writer.write_fields(&[key.as_bytes(), value.as_bytes()]) {
        Ok(()) => Ok(()),
        Err(_) => Err(ProgramFault::Memory),
    }
}

/// Returns the record of two texts, with what ends it.
///
/// # Errors
///
/// `Memory` if an allocation fails.
pub fn row_of(alloc: Global, table: Table, key: &str, value: &str) -> Result<Vec<u8>, ProgramFault>
    ensures ok { IfOk result (λ row. row.items ≡ entry_row table (key.now, value.now)) }
    ensures err { IfErr result (λ fault. fault ≡ ProgramFault.Memory) }
{
    let mut writer = writer_of(alloc, table);
    write_pair(&mut writer, key, value)?;
    match writer.into_inner() {
        Ok(row) => Ok(row),
        Err(_) => Err(ProgramFault::Memory),
    }
}
