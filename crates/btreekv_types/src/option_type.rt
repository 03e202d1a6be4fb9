//! Types of values that may be none.

/// A type of values that may be none.
#[derive(Clone, Copy, Debug, PartialEq, Eq)]
pub enum OptionType {
    U32,
    U64,
    I64,
}
