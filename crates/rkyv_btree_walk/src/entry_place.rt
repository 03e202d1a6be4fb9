//! The entries of a map by their places.

/// The place of an entry of a map: its node, and its number there. Writes of values leave all places as they are.
#[derive(Clone, Copy, Debug, PartialEq, Eq, Drop)]
pub struct EntryPlace {
    /// The position of the node.
    pub node: u32,
    /// The number of the entry in the node.
    pub index: usize,
}
