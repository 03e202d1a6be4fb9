//! The lines of a reader: counted, each an entry, and whether their keys increase.
ghost use Rattle.std.specs.Prelude.{◌≡◌, ℕ, ◌∷◌, ◌++◌, [], List, length, true, false, Some, None, IfOk, OnOk, IfErr, IfSome};
ghost use Rattle.std.specs.Ordering.{nat_cmp};
ghost use Rattle.std.specs.declared.cmp.Ordering.TheVariants.{Less};
ghost use Rattle.btreearc_lines.specs.declared.heading.Heading.{Heading};
ghost use Rattle.btreearc_commands.specs.Streaming.{AreCounted, FailsToTest, KnowsOrder, NamesFirst};

use btreearc_lines::entries::{NextLine, next_line};
use btreearc_lines::fault::ProgramFault;
use rkyv_btree_writer::fault::Fault;
use std::alloc::Global;
use std::io::BufRead;

/// Returns whether a key comes before another one.
fn is_less(before: u32, key: u32) -> bool
    ensures less { result ≡ true → nat_cmp before key ≡ Less }
    ensures not_less { result ≡ false → ¬ (nat_cmp before key ≡ Less) }
{
    before.cmp(&key).is_lt()
}

/// Returns the index of the first entry whose key isn't greater than the key before it, after one more entry. `first` is what it was
/// before, `last` the last key, and `index` the number of entries before.
fn first_after(first: Option<u64>, last: Option<u32>, key: u32, index: usize) -> Option<u64>
    ensures { (entries : List (ℕ × ℕ)) (value : ℕ) → KnowsOrder last first entries →
        index ≡ length entries → KnowsOrder (Some key) result (entries ++ (key, value) ∷ []) }
{
    match first {
        Some(found) => return Some(found),
        None => {}
    }
    match last {
        None => None,
        Some(before) => {
            if is_less(before, key) {
                return None;
            }
            Some(index as u64)
        }
    }
}

/// Returns the number of entries, unless keys must increase and one doesn't.
///
/// # Errors
///
/// `NotBuilt` with the index of the first entry out of order.
fn in_order(is_strict: bool, first: Option<u64>, count: usize) -> Result<usize, ProgramFault>
    ensures count { IfOk result (λ n. n ≡ count) }
    ensures order { OnOk result (is_strict ≡ true → first ≡ None) }
    ensures err { IfErr result (λ fault. (is_strict ≡ true) × NamesFirst first fault) }
{
    if !is_strict {
        return Ok(count);
    }
    match first {
        None => Ok(count),
        Some(index) => Err(ProgramFault::NotBuilt(Fault::OutOfOrder { index })),
    }
}

/// Returns how many lines a reader has, if each is an entry, and if their keys increase where they must.
///
/// # Errors
///
/// `Line` with the number of the first line that is no entry. `NotBuilt` with the index of the first entry whose key isn't greater than
/// the key before it, if keys must increase. `InputFailed` if a read fails, and `Memory` if an allocation fails.
pub fn count_lines<B: BufRead>(
    alloc: Global,
    is_strict: bool,
    input: &mut B,
) -> Result<usize, ProgramFault>
    ensures ok { IfOk result (λ count. IfSome (B.remaining input.old)
        (AreCounted is_strict count)) }
    ensures err { (heading : Heading) →
        IfErr result (FailsToTest is_strict heading (B.remaining input.old)) }
{
    let mut line = Vec::new(alloc);
    let mut last = None;
    let mut first = None;
    for count in 0..usize::MAX {
        match next_line(input, &mut line) {
            Ok(NextLine::Entry((key, _))) => {
                first = first_after(first, last, key, count);
                last = Some(key);
            }
            Ok(NextLine::Bad) => return Err(ProgramFault::Line(count as u64 + 1)),
            Ok(NextLine::End) => return in_order(is_strict, first, count),
            Err(fault) => return Err(fault),
        }
    }
    Err(ProgramFault::InputFailed)
}
