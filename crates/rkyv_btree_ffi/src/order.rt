//! Orders of keys.

/// The order of the keys of entries.
#[derive(Clone, Copy, Debug, PartialEq, Eq, Drop)]
pub enum Order {
    /// Any order.
    Any,
    /// Each key is greater than the key before it.
    Increasing,
}
