//! Types of keys and values that have no parts.

/// A type of keys or of values that has no parts.
#[derive(Clone, Copy, Debug, PartialEq, Eq)]
pub enum PlainType {
    U8,
    U16,
    U32,
    U64,
    I32,
    I64,
    Text,
    Bytes,
}
