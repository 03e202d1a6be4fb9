//! The commands.

use crate::csv_records::Table;
use crate::forms::Form;
use crate::records::Records;
use btreearc_lines::heading::Heading;

/// A command of the program.
#[derive(Debug, Drop)]
pub enum Command {
    /// Archive the input's lines, in their order.
    Build(Heading),
    /// Archive the input's lines, whose keys must increase.
    BuildStrict(Heading),
    /// Archive the input's lines in increasing order of their keys. Of equal keys the last value counts.
    BuildSorted(Heading),
    /// Archive the entries of the input's records in increasing order of their keys. Of equal keys the last value counts.
    BuildFrom(Records, Heading),
    /// Archive the entries of the input's table in increasing order of their keys. Of equal keys the last value counts.
    BuildTable(Table, Heading),
    /// Archive the members of the input's JSON object in increasing order of their keys. Of equal keys the last value counts.
    BuildJson(Heading),
    /// Write how many entries the input's archive has.
    Check,
    /// Write how many entries the input's archive has, whose keys must increase.
    CheckStrict,
    /// Write how large the input's archive is.
    Stat,
    /// Write the first entry.
    First(Form),
    /// Write the last entry.
    Last(Form),
    /// Write the value of this key.
    Get(String, Form),
    /// Write the entries of the keys from the first to the second, both included.
    Range(String, String, Form),
    /// Write the entries of the keys that begin with this text.
    Prefix(String, Form),
}
