//! A writer into memory that fails at one of its writes.
ghost use Rattle.std.specs.Prelude.{◌≤◌};

use rkyv_btree_base::place::Writer;
use std::alloc::{AllocError, Global};

/// How much is taken of the write that fails.
#[derive(Clone, Copy)]
pub(crate) enum Taken {
    Nothing,
    /// Half of its bytes, rounded down.
    Half,
}

/// The write that fails. The first has the number 1.
#[derive(Clone, Copy)]
pub(crate) struct Failure {
    pub(crate) at: u32,
    pub(crate) taken: Taken,
}

#[derive(Drop)]
pub(crate) struct FailingWriter {
    base: u32,
    pub(crate) bytes: Vec<u8>,
    pub(crate) writes: u32,
    failure: Option<Failure>,
    failures: u64,
}

impl FailingWriter {
    /// Returns a writer that holds these bytes, the first of which has position `base`.
    pub(crate) fn new(
        alloc: Global,
        base: u32,
        old: &[u8],
        failure: Option<Failure>,
    ) -> Result<FailingWriter, AllocError> {
        Ok(FailingWriter {
            base,
            bytes: old.to_vec(alloc)?,
            writes: 0,
            failure,
            failures: 0,
        })
    }

    /// Returns how many bytes the present write takes.
    fn taken(&self, len: usize) -> usize
        ensures { result ≤ len }
    {
        match self.failure {
            Some(Failure { at, taken }) if at == self.writes => match taken {
                Taken::Nothing => 0,
                Taken::Half => len / 2,
            },
            _ => len,
        }
    }
}

impl Writer for FailingWriter {
    type Error = AllocError;

    ghost state = { λ w.
        record { base = w.base; contents = w.bytes.items; failures = w.failures } };

    fn pos(&self) -> u64 {
        u64::from(self.base) + self.bytes.len() as u64
    }

    fn write(&mut self, bytes: &[u8]) -> Result<(), AllocError> {
        self.writes = self.writes.wrapping_add(1);
        let (front, rest) = bytes.split_at(self.taken(bytes.len()));
        if self.bytes.extend_from_slice(front).is_ok() && rest.is_empty() {
            return Ok(());
        }
        self.failures = self.failures.wrapping_add(1);
        Err(AllocError)
    }
}
