//! Taking items from an iterator, and counting those that are left.
ghost use Rattle.std.specs.Prelude.{◌≡◌, ◌+◌, ◌-◌, ◌<◌, ◌≤◌, List, [], Option, None, length, true, false, vec_capacity, OnOk, IfErr, ⊤};
ghost use Rattle.std.specs.Iterator.{MakesProgress, Yields, YieldsThen, IsFinite, UpTo, size};
ghost use Rattle.std.specs.Option.{option_copied};
ghost use Rattle.rkyv_btree_archive.specs.mirror.Source.{Gives, key_of, key_before};

use crate::waiting::push;
use rkyv_btree_writer::fault::IteratorLengthMismatch;
use std::alloc::Allocator;

/// What building tests of each item's key when it takes the item.
pub trait Look<B> {
    /// Holds of the state before a key that passes, the last item's key, the key, and the state after.
    ghost passes: { Self → Option B → B → Self → Type 0 };

    /// Holds of the state before a key that doesn't pass, the last item's key, the key, and the state after.
    ghost stops: { Self → Option B → B → Self → Type 0 };

    /// Returns whether the key passes after the last item's key, if there is a last item.
    fn look(&mut self, last: Option<&B>, key: &B) -> bool
        ensures passes { result ≡ true → passes self.old (option_copied last.entry) key.now self.new }
        ensures stops { result ≡ false → stops self.old (option_copied last.entry) key.now self.new };
}

/// Passes keys in any order.
#[derive(Drop)]
pub struct AnyOrder {}

impl<B> Look<B> for AnyOrder {
    ghost passes = { λ _ _ _ _. ⊤ };

    ghost stops = { λ _ _ _ _. ⊥ };

    fn look(&mut self, _last: Option<&B>, _key: &B) -> bool {
        true
    }
}

/// The items of an iterator, up to one whose key doesn't pass.
#[derive(Drop)]
pub struct Source<I, L> {
    pub items: I,
    pub look: L,
}

impl<I: Drop, L: Drop> Source<I, L> {
    /// Returns the next item, if there is one and its key passes after the last item's.
    pub fn next<B: Drop, C: Drop>(&mut self, last: Option<&B>) -> Option<(B, C)>
    where
        I: Iterator<Item = (B, C)>,
        L: Look<B>,
        requires { I.can_next self.old.items }
        ensures steps { Gives I.next_gives L.passes L.stops (self.old, option_copied last.entry) result
            (self.new, key_of result) }
        ensures goes { MakesProgress (λ s. I.can_next s.items) (λ s. I.remaining s.items) self.old
            result self.new }
    {
        let item = self.items.next()?;
        if self.look.look(last, &item.0) {
            Some(item)
        } else {
            None
        }
    }
}

/// Returns the key of the last item, or `before` if there are no items.
#[inline(always)]
pub fn last_key<'a, B, C>(items: &'a [(B, C)], before: Option<&'a B>) -> Option<&'a B>
    ensures { option_copied result ≡ key_before (option_copied before.entry) items.now }
{
    match items.last() {
        Some(item) => Some(&item.0),
        None => before,
    }
}

/// Takes items until there are `count`, and returns whether there were that many. The key of the last item that was taken
/// earlier is `before`.
pub fn take_items<B: Drop, C: Drop, A: Allocator, I: Iterator<Item = (B, C)>, L: Look<B> + Drop>(
    items: &mut Vec<(B, C), A>,
    count: usize,
    before: Option<&B>,
    source: &mut Source<I, L>,
) -> bool
    requires empty { items.old.items ≡ [] }
    requires room { count ≤ vec_capacity items.old }
    requires can { I.can_next source.old.items }
    requires ends { IsFinite (I.remaining source.old.items) }
    ensures all { result ≡ true →
        Yields (Gives I.next_gives L.passes L.stops) (source.old, option_copied before.entry)
        items.new.items (source.new, key_before (option_copied before.entry) items.new.items) }
    ensures few { result ≡ false →
        YieldsThen (Gives I.next_gives L.passes L.stops) (source.old, option_copied before.entry)
        items.new.items None (source.new, None) }
    ensures len { result ≡ true → length items.new.items ≡ count }
    ensures short { result ≡ false → length items.new.items < count }
    ensures can { result ≡ true → I.can_next source.new.items }
    ensures ends { result ≡ true → IsFinite (I.remaining source.new.items) }
    ensures left { result ≡ true →
        size (I.remaining source.new.items) + count ≤ size (I.remaining source.old.items) }
    ensures capacity { vec_capacity items.old ≤ vec_capacity items.new }
{
    while items.len() < count {
        match source.next::<B, C>(last_key(items, before)) {
            Some(item) => push(items, item),
            None => return false,
        }
    }
    true
}

/// Returns the key of an item, if there is one.
fn key_in<B, C>(item: &Option<(B, C)>) -> Option<&B>
    ensures { option_copied result ≡ key_of item.now }
{
    match item {
        Some(item) => Some(&item.0),
        None => None,
    }
}

/// Takes all items that are left. The last item that was taken earlier is `last`.
///
/// # Errors
///
/// `Length` with the count of all items, if a source that has yielded `len` items yields more.
pub fn none_left<B: Drop, C: Drop, I: Iterator<Item = (B, C)>, L: Look<B> + Drop>(
    source: &mut Source<I, L>,
    last: Option<(B, C)>,
    len: usize,
) -> Result<(), IteratorLengthMismatch>
    requires can { I.can_next source.old.items }
    requires ends { UpTo (I.remaining source.old.items) (18446744073709551615 - len) }
    ensures ok { OnOk result
        (YieldsThen (Gives I.next_gives L.passes L.stops) (source.old, key_of last) [] None
        (source.new, None)) }
    ensures expected { IfErr result (λ miscount. miscount.expected ≡ len) }
    ensures more { IfErr result (λ miscount. len < miscount.actual) }
    ensures actual { IfErr result (λ miscount. (left : List (B × C))
        × YieldsThen (Gives I.next_gives L.passes L.stops) (source.old, key_of last) left None
        (source.new, None)
        × (miscount.actual ≡ len + length left)) }
{
    let mut last = last;
    let mut more = 0;
    while let Some(item) = source.next::<B, C>(key_in(&last)) {
        last = Some(item);
        more += 1;
    }
    if more != 0 {
        return Err(IteratorLengthMismatch {
            expected: len,
            actual: len + more,
        });
    }
    Ok(())
}
