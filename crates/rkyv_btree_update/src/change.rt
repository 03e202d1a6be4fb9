//! Changes of the entries of a map.

/// What becomes of the entry of a key.
#[derive(Debug, Copy, Clone, PartialEq, Eq, Drop)]
pub enum Change<V> {
    /// The key has this value: an entry that is there takes it, and one that isn't is added.
    Put(V),
    /// There is no entry of this key.
    Delete,
}
