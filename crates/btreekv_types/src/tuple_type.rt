//! Types of tuples.

/// A type of keys or of values that are tuples.
#[derive(Clone, Copy, Debug, PartialEq, Eq)]
pub enum TupleType {
    PairU32U32,
    PairU64U64,
    PairU32Text,
    TripleU32,
    TripleU64,
}
