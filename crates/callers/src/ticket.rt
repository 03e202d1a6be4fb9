//! Tickets by the hashes of their texts: values with arrays of bytes and an enum, whose impls a script wrote.

/// How urgent a ticket is.
#[derive(Clone, Copy, Debug, PartialEq, Eq, PartialOrd, Ord, Hash)]
pub enum Priority {
    Low,
    Normal,
    High,
}

/// A ticket: the hash of its text, how urgent it is, and when it was opened, in seconds.
#[derive(Clone, Copy, Debug, PartialEq, Eq, PartialOrd, Ord, Hash)]
pub struct Ticket {
    pub hash: [u8; 32],
    pub priority: Priority,
    pub opened: u64,
    pub country: [u8; 2],
}
