//! The commands over typed maps.

use crate::list_form::ListForm;
use crate::source::Source;
use btreearc_lines::heading::Heading;
use btreekv_commands::forms::Form;

/// How the entries of an input may come.
#[derive(Clone, Copy, Debug, PartialEq, Eq)]
pub enum Order {
    /// In any order. They are sorted by keys, and of equal keys the last value counts.
    Any,
    /// In increasing order of their keys.
    Increasing,
}

/// A command over a map of two types.
#[derive(Debug, Drop)]
pub enum TypedCommand {
    /// Archive the input's entries in increasing order of their keys.
    Build(Source, Order, Heading),
    /// Write the entries of the input's archive.
    List(ListForm),
    /// Write how many entries the input's archive has.
    Check,
    /// Write how many entries the input's archive has, whose keys must increase.
    CheckStrict,
    /// Write the first entry.
    First(Form),
    /// Write the last entry.
    Last(Form),
    /// Write the value of this key.
    Get(String, Form),
    /// Write the entries of the keys from the first to the second, both included.
    Range(String, String, Form),
    /// Archive the entries of the input's archive, whose keys must increase, and this one: the key has the value.
    Set(String, String),
    /// Archive the entries of the input's archive and of these. Their keys must increase. Of a key that several have the last value counts.
    Merge(Vec<Vec<u8>>),
    /// Archive the entries of the input's archive, whose keys must increase, after the changes of these lines, which are made in turn. The
    /// keys of the lines must come in this order.
    Update(Order, Vec<u8>),
    /// Write the lines of the changes that lead from the entries of the input's archive to those of this one. The keys of both must increase.
    Diff(Vec<u8>),
    /// Write the entries whose keys' texts begin with this text.
    Prefix(String, Form),
}
