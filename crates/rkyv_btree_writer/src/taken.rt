//! The bytes that a writer has taken, for clauses alone.
ghost use Rattle.std.specs.Prelude.{◌≡◌, ℕ, List, [], ◌++◌};
ghost use Rattle.std.specs.Borrow.{ftrue};

use std::marker::Model;

/// Bytes in the order in which they were taken. It takes no memory, and its methods do nothing when they run.
#[derive(Drop)]
pub(crate) struct Taken {
    ghost bytes: { List ℕ },
}

impl Model for Taken {
    ghost also_owns = { λ _. ftrue };
}

impl Taken {
    /// Returns no bytes.
    pub(crate) fn new() -> Taken
        ensures { result.bytes ≡ [] }
    {
        Taken {}
    }

    /// Appends more bytes.
    pub(crate) fn add(&mut self, _more: &[u8])
        ensures { self.new.bytes ≡ self.old.bytes ++ _more.now }
    {}
}
