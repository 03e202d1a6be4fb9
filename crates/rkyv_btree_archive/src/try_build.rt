//! Building archived maps from iterators that can fail: from a reader, or a parser.
ghost use Rattle.std.specs.Prelude.{◌≡◌, Some};
ghost use Rattle.rkyv_btree_archive.specs.TryBuilding.{try_text};
ghost use Rattle.rkyv_btree_archive.specs.mirror.UntilError.{GivesUntilError, tried, tried_fault};

use crate::build::BTreeMapResolver;
use rkyv_btree_writer::fault::Fault;
use std::error::Error;
use std::fmt;

/// An error of serialization from an iterator that can fail. `W` is the writer's error, and `X` the iterator's.
#[derive(Debug, Drop)]
pub enum TryFault<W, X> {
    /// The iterator's own error.
    Item(X),
    /// An error of serialization.
    Build(Fault<W>),
}

impl<W: fmt::Debug + Drop, X: fmt::Debug + Drop> fmt::Display for TryFault<W, X> {
    ghost output = { λ fault. Some (try_text fault) };

    fn fmt<F: fmt::Write>(&self, f: &mut fmt::Formatter<F>) -> fmt::Result {
        match self {
            TryFault::Item(_) => write!(f, "item failed"),
            TryFault::Build(fault) => write!(f, "{fault}"),
        }
    }
}

impl<W: fmt::Debug + Drop, X: fmt::Debug + Drop> Error for TryFault<W, X> {}

/// The items of an iterator of results, up to the first error, which is kept.
#[derive(Drop)]
pub(crate) struct UntilError<I, X> {
    pub(crate) items: I,
    pub(crate) error: Option<X>,
}

impl<T, X: Drop, I: Iterator<Item = Result<T, X>>> Iterator for UntilError<I, X> {
    type Item = T;

    ghost can_next = { λ s. I.can_next s.items };

    ghost next_gives = { GivesUntilError I.next_gives };

    ghost remaining = { λ s. I.remaining s.items };

    fn next(&mut self) -> Option<T> {
        match self.items.next() {
            Some(Ok(item)) => Some(item),
            Some(Err(error)) => {
                self.error = Some(error);
                None
            }
            None => None,
        }
    }
}

/// Returns the error of building from an iterator that may have failed: the iterator's, if items were counted.
fn tried_fault<W: Drop, X: Drop>(error: Option<X>, fault: Fault<W>) -> TryFault<W, X>
    ensures { result ≡ tried_fault error fault }
{
    let Some(error) = error else {
        return TryFault::Build(fault);
    };
    match fault {
        Fault::Length(_) => TryFault::Item(error),
        Fault::LengthOverflow => TryFault::Build(Fault::LengthOverflow),
        Fault::PositionOverflow => TryFault::Build(Fault::PositionOverflow),
        Fault::OffsetOverflow => TryFault::Build(Fault::OffsetOverflow),
        Fault::Writer(error) => TryFault::Build(Fault::Writer(error)),
        Fault::Memory(error) => TryFault::Build(Fault::Memory(error)),
        Fault::Entry(fault) => TryFault::Build(Fault::Entry(fault)),
        Fault::OutOfOrder { index } => TryFault::Build(Fault::OutOfOrder { index }),
    }
}

/// Returns what building from an iterator that may have failed returns.
pub(crate) fn tried<W: Drop, X: Drop>(
    error: Option<X>,
    built: Result<BTreeMapResolver, Fault<W>>,
) -> Result<BTreeMapResolver, TryFault<W, X>>
    ensures { result ≡ tried error built }
{
    match built {
        Ok(resolver) => match error {
            None => Ok(resolver),
            Some(error) => Err(TryFault::Item(error)),
        },
        Err(fault) => Err(tried_fault(error, fault)),
    }
}
