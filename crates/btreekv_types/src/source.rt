//! Entries of texts as they are read: of lines, of records, of a JSON object, or of a table.
ghost use Rattle.std.specs.Prelude.{IfOk, IfErr, map};
ghost use Rattle.btreekv_commands.specs.Texts.{texts_of};
ghost use Rattle.btreekv_types.specs.Sources.{AreTexts, IsTextFault};

use btreearc_lines::fault::ProgramFault;
use btreekv_commands::csv_records::{Table, parse_table};
use btreekv_commands::json_objects::parse_object;
use btreekv_commands::lines::parse_lines;
use btreekv_commands::records::{Records, parse_records};
use std::alloc::Global;

/// What entries are read from.
#[derive(Clone, Copy, Debug, PartialEq, Eq)]
pub enum Source {
    /// Lines of a key, a tab and a value.
    Lines,
    /// Records of another form.
    Records(Records),
    /// A table after its header.
    Table(Table),
    /// The members of one JSON object.
    Object,
}

/// Returns the entries of a text.
///
/// # Errors
///
/// `Line` with the number of the first line or record that is no entry, or with 1 if the text isn't the JSON object. `Memory` if an
/// allocation fails, and `InputFailed` if the reader of a table does.
pub fn parse_entries(
    alloc: Global,
    source: Source,
    text: &[u8],
) -> Result<Vec<(String, String)>, ProgramFault>
    ensures ok { IfOk result (λ found. AreTexts source text.now (map texts_of found.items)) }
    ensures err { IfErr result (IsTextFault source text.now) }
{
    match source {
        Source::Lines => parse_lines(alloc, text),
        Source::Records(form) => parse_records(alloc, form, text),
        Source::Table(table) => parse_table(alloc, table, text),
        Source::Object => match parse_object(alloc, text) {
            Ok(Some(entries)) => Ok(entries),
            Ok(None) => Err(ProgramFault::Line(1)),
            Err(fault) => Err(fault),
        },
    }
}
