//! The order of keys while a map is built whose keys must increase.
ghost use Rattle.std.specs.Prelude.{◌≡◌, IfSome, MatchBool, MatchOption};
ghost use Rattle.std.specs.declared.cmp.Ordering.TheVariants.{Less};
ghost use Rattle.std.specs.Option.{option_copied};
ghost use Rattle.rkyv_btree_archive.specs.mirror.InOrder.{IsNext, IsNotNext, met_out_of_order};

use crate::borrow::Borrow;
use crate::items::Look;
use rkyv_btree_writer::fault::Fault;
use rkyv_btree_writer::place::Writer;
use std::marker::PhantomData;

/// Passes keys that increase, as far as their items are claimed.
#[derive(Drop)]
pub(crate) struct InOrder<M> {
    /// How many claimed items are to come.
    pub(crate) left: usize,
    /// Whether a key was out of order.
    pub(crate) stopped: bool,
    pub(crate) of: PhantomData<M>,
}

/// Returns whether a key is greater than the last one, if there is a last one.
fn is_next<B: Borrow<M>, M: Ord>(last: Option<&B>, key: &B) -> bool
    ensures { MatchBool result
        (IfSome (option_copied last.entry)
        (λ last. M.cmp (B.borrowed last) (B.borrowed key.now) ≡ Less))
        (MatchOption (option_copied last.entry) ⊥
        (λ last. ¬ (M.cmp (B.borrowed last) (B.borrowed key.now) ≡ Less))) }
{
    match last {
        Some(last) => last.borrow().cmp(key.borrow()).is_lt(),
        None => true,
    }
}

impl<B: Borrow<M>, M: Ord> Look<B> for InOrder<M> {
    ghost passes = { IsNext M.cmp B.borrowed };

    ghost stops = { IsNotNext M.cmp B.borrowed };

    fn look(&mut self, last: Option<&B>, key: &B) -> bool {
        if self.left > 0 {
            if !is_next::<B, M>(last, key) {
                self.stopped = true;
                return false;
            }
            self.left -= 1;
        }
        true
    }
}

/// Returns the error of building whose source was stopped by a key: where items were missing, one was out of order.
pub(crate) fn out_of_order<E: Drop>(fault: Fault<E>) -> Fault<E>
    ensures { result ≡ met_out_of_order fault }
{
    match fault {
        Fault::Length(miscount) => Fault::OutOfOrder {
            index: miscount.actual as u64,
        },
        Fault::LengthOverflow => Fault::LengthOverflow,
        Fault::PositionOverflow => Fault::PositionOverflow,
        Fault::OffsetOverflow => Fault::OffsetOverflow,
        Fault::Writer(error) => Fault::Writer(error),
        Fault::Memory(error) => Fault::Memory(error),
        Fault::Entry(fault) => Fault::Entry(fault),
        Fault::OutOfOrder { index } => Fault::OutOfOrder { index },
    }
}
