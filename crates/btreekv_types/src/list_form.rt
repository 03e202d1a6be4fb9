//! Lists of entries as they are written: in lines, as a JSON object, or as a table.
ghost use Rattle.std.specs.Prelude.{◌≡◌, ◌++◌, OnOk};
ghost use Rattle.btreekv_commands.specs.CsvRecords.{entry_row};
ghost use Rattle.btreekv_commands.specs.Json.{member};
ghost use Rattle.btreekv_types.specs.Listing.{comma, list_end, list_item, list_start};

use btreekv_commands::csv_records::{Table, row_of};
use btreekv_commands::forms::{Form, push_entry};
use btreekv_commands::json_text::push_member;
use std::alloc::{AllocError, Global};

/// How a list of entries is written.
#[derive(Clone, Copy, Debug, PartialEq, Eq)]
pub enum ListForm {
    /// Each entry with what ends it.
    Lines(Form),
    /// One JSON object in a line.
    Object,
    /// A header, and a record an entry.
    Table(Table),
}

/// Writes a member of a JSON object at the end, after a comma if it isn't the first.
fn push_next_member(
    out: &mut Vec<u8>,
    is_first: bool,
    key: &str,
    value: &str,
) -> Result<(), AllocError>
    ensures { OnOk result
        (out.new.items ≡ out.old.items ++ (comma is_first ++ member (key.now, value.now))) }
{
    if !is_first {
        out.extend_from_slice(b",")?;
    }
    push_member(out, key, value)
}

/// Writes the record of two texts at the end.
fn push_row(
    alloc: Global,
    out: &mut Vec<u8>,
    table: Table,
    key: &str,
    value: &str,
) -> Result<(), AllocError>
    ensures { OnOk result
        (out.new.items ≡ out.old.items ++ entry_row table (key.now, value.now)) }
{
    let Ok(row) = row_of(alloc, table, key, value) else {
        return Err(AllocError);
    };
    out.extend_from_slice(&row)
}

impl ListForm {
    /// Writes what a list begins with at the end.
    pub(crate) fn push_start(self, alloc: Global, out: &mut Vec<u8>) -> Result<(), AllocError>
        ensures { OnOk result (out.new.items ≡ out.old.items ++ list_start self) }
    {
        match self {
            ListForm::Lines(_) => Ok(()),
            ListForm::Object => out.extend_from_slice(b"{"),
            ListForm::Table(table) => push_row(alloc, out, table, "key", "value"),
        }
    }

    /// Writes one more entry at the end, with what separates it from the one before.
    pub(crate) fn push_item(
        self,
        alloc: Global,
        out: &mut Vec<u8>,
        is_first: bool,
        key: &str,
        value: &str,
    ) -> Result<(), AllocError>
        ensures { OnOk result
            (out.new.items ≡ out.old.items ++ list_item self is_first (key.now, value.now)) }
    {
        match self {
            ListForm::Lines(form) => push_entry(out, form, key, value),
            ListForm::Object => push_next_member(out, is_first, key, value),
            ListForm::Table(table) => push_row(alloc, out, table, key, value),
        }
    }

    /// Returns what a list ends with.
    pub(crate) fn end(self) -> &'static [u8]
        ensures { result.now ≡ list_end self }
    {
        match self {
            ListForm::Object => b"}\n",
            _ => b"",
        }
    }
}
