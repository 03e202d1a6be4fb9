//! Why commands over typed maps fail.

use btreearc_lines::fault::ProgramFault;

/// Why a command over maps of two types fails.
#[derive(Debug, Drop)]
pub enum TypedFault {
    /// Why any command fails.
    Program(ProgramFault),
    /// Why the archive of this number isn't read. The input is number 0.
    Archive(u64, ProgramFault),
    /// The first entry, counted from 1, that is bad, and its key is no text of the type of keys.
    BadKey(u64),
    /// The first entry, counted from 1, that is bad, and its key is good and its value no text of the type of values.
    BadValue(u64),
    /// The word is no text of the type of keys.
    NoKey,
    /// The word for the first key of a range is no text of the type of keys.
    NoLow,
    /// The word for the last key of a range is no text of the type of keys.
    NoHigh,
}
