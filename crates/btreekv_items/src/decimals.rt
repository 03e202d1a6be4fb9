//! Numbers in decimal, with no zeros before them and no plus sign.
ghost use Rattle.std.specs.Prelude.{◌≡◌, ◌++◌, ◌↔◌, IfNone, IfOk, IfSome, IsTrue, OnOk, Result, string_bytes};

use itoa::{Buffer, Integer};
use std::alloc::AllocError;
use std::str::FromStr;

/// Appends a number in decimal.
pub(crate) fn push_number<I: Integer>(out: &mut String, number: I) -> Result<(), AllocError>
    ensures { OnOk result (string_bytes out.new ≡ string_bytes out.old ++ I.text number) }
{
    let mut digits = Buffer::new();
    out.push_str(digits.format(number))
}

/// Returns whether a text is what a number is written as.
pub(crate) fn is_written<I: Integer>(number: I, text: &str) -> bool
    ensures { IsTrue result ↔ (I.text number ≡ text.now) }
{
    let mut digits = Buffer::new();
    digits.format(number) == text
}

/// Returns the number that is written as a text, or `None` if the text isn't parsed as such a number.
pub(crate) fn number_of<I: Integer + FromStr>(text: &str) -> Option<I>
where
    I::Err: Drop,
    ensures some { IfSome result (λ number. I.text number ≡ text.now) }
    ensures none { IfNone result ((parsed : Result I I.Err) × I.from_str_gives text.now parsed
        × IfOk parsed (λ number. I.text number ≡ text.now → ⊥)) }
{
    let Ok(number) = text.parse::<I>() else {
        return None;
    };
    if is_written(number, text) {
        Some(number)
    } else {
        None
    }
}
