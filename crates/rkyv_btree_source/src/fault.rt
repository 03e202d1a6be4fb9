//! Errors of lookups in a source of bytes.
use rkyv_btree_portable::refusal::Refusal;
use std::error::Error;
use std::fmt;
use std::fmt::{Debug, Display};

/// An error of a lookup in a source. `E` is the source's own error.
#[derive(Debug, Drop)]
pub enum SourceFault<E> {
    /// What the lookup read is no part of a map: the first fault in it.
    Refused(Refusal),
    /// The source failed.
    Read(E),
    /// The lent buffer is shorter than this number of bytes, which the lookup needed.
    NoRoom { needed: u64 },
    /// The next part has more bytes than the budget.
    OverBudget,
}

impl<E: Display> Display for SourceFault<E> {
    fn fmt<W: fmt::Write>(&self, f: &mut fmt::Formatter<W>) -> fmt::Result {
        match self {
            SourceFault::Refused(refusal) => write!(f, "{refusal}"),
            SourceFault::Read(error) => write!(f, "{error}"),
            SourceFault::NoRoom { needed } => {
                let needed = *needed;
                write!(f, "the lookup needs a buffer of {needed} bytes")
            }
            SourceFault::OverBudget => write!(f, "the lookup would read more bytes than it may"),
        }
    }
}

impl<E: Debug + Display + Drop> Error for SourceFault<E> {}
