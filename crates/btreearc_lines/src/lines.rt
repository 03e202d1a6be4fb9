//! Entries in lines of two numbers.
ghost use Rattle.std.specs.Prelude.{◌≡◌, ℕ, ◌-◌, ◌<◌, ◌≤◌, List, ◌∷◌, length, get_or, true, false, IfSome, IfNone};
ghost use Rattle.btreearc_lines.specs.Grammar.{IsDigit, IsEntry, IsNumber};
ghost use Rattle.btreearc_lines.specs.Reading.{IsMost, NumberFirst, PairFirst, ReadDigits};

/// The most digits of a number.
const MOST_DIGITS: usize = 10;

/// A line of two numbers that has its line feed is no longer than this.
pub(crate) const LONGEST_LINE: usize = 22;

/// The value of a digit.
#[inline(always)]
fn digit_of(byte: u8) -> Option<u64>
    ensures found { IfSome result (λ d. IsDigit byte × (d ≡ byte - 48)) }
    ensures none { IfNone result (¬ IsDigit byte) }
{
    let digit = u64::from(byte).wrapping_sub(48);
    if digit > 9 {
        return None;
    }
    Some(digit)
}

/// Whether the byte at a position is a digit. There is none past the end.
fn is_digit_at(bytes: &[u8], at: usize) -> bool
    ensures digit { result ≡ true → IsDigit (get_or bytes.now at 0) }
    ensures other { result ≡ false → ¬ IsDigit (get_or bytes.now at 0) }
{
    match bytes.get(at) {
        Some(byte) => byte.is_ascii_digit(),
        None => false,
    }
}

/// The value of the digits at the front, and how many they are: no more than 10. `most` is 10, or the number of bytes if they are fewer.
#[inline(always)]
fn digits_in(bytes: &[u8], most: usize) -> (u64, usize)
    requires most { IsMost bytes.now most }
    ensures digits { ReadDigits bytes.now result.1 result.0 }
    ensures end { result.1 < 10 → ¬ IsDigit (get_or bytes.now result.1 0) }
{
    let mut value: u64 = 0;
    let mut len: usize = 0;
    while len < most {
        match digit_of(bytes[len]) {
            Some(digit) => {
                value = value * 10 + digit;
                len += 1;
            }
            None => return (value, len),
        }
    }
    (value, len)
}

/// The number of all digits at the front, and what is after them. `most` is as above.
#[inline(always)]
fn number_in(bytes: &[u8], most: usize) -> Option<(u32, &[u8])>
    requires most { IsMost bytes.now most }
    ensures found { IfSome result (λ r. NumberFirst bytes.now r.0 r.1.now) }
    ensures none { IfNone result ((n : ℕ) (rest : List ℕ) → NumberFirst bytes.now n rest → ⊥) }
{
    let (value, len) = digits_in(bytes, most);
    if len == 0 {
        return None;
    }
    if len < MOST_DIGITS {
        return Some((value as u32, &bytes[len..]));
    }
    if is_digit_at(bytes, len) {
        return None;
    }
    if value > 4294967295 {
        return None;
    }
    Some((value as u32, &bytes[len..]))
}

/// The number of all digits at the front, and what is after them.
fn first_number(bytes: &[u8]) -> Option<(u32, &[u8])>
    ensures found { IfSome result (λ r. NumberFirst bytes.now r.0 r.1.now) }
    ensures none { IfNone result ((n : ℕ) (rest : List ℕ) → NumberFirst bytes.now n rest → ⊥) }
{
    if bytes.len() < MOST_DIGITS {
        return number_in(bytes, bytes.len());
    }
    number_in(bytes, MOST_DIGITS)
}

/// The number that a word is.
pub fn whole_number(word: &str) -> Option<u32>
    ensures found { IfSome result (IsNumber word.now) }
    ensures none { IfNone result ((n : ℕ) → IsNumber word.now n → ⊥) }
{
    let (number, rest) = first_number(word.as_bytes())?;
    if rest.is_empty() { Some(number) } else { None }
}

/// What is after a space.
fn after_space(bytes: &[u8]) -> Option<&[u8]>
    ensures found { IfSome result (λ rest. bytes.now ≡ 32 ∷ rest.now) }
    ensures none { IfNone result ((rest : List ℕ) → bytes.now ≡ 32 ∷ rest → ⊥) }
{
    let (first, rest) = bytes.split_first()?;
    if *first == b' ' { Some(rest) } else { None }
}

/// Returns the key and the value at the front, with a space between, and the bytes after them.
pub(crate) fn first_pair(bytes: &[u8]) -> Option<((u32, u32), &[u8])>
    ensures found { IfSome result (λ r. PairFirst bytes.now r.0 r.1.now) }
    ensures none { IfNone result ((x : ℕ × ℕ) (rest : List ℕ) → PairFirst bytes.now x rest → ⊥) }
{
    let Some((key, space)) = first_number(bytes) else {
        return None;
    };
    let Some(digits) = after_space(space) else {
        return None;
    };
    let Some((value, rest)) = first_number(digits) else {
        return None;
    };
    Some(((key, value), rest))
}

/// Returns the key and the value at the front, with a space between, and the bytes after them. So many bytes are there that no number
/// goes past them.
#[inline(always)]
pub(crate) fn pair_within(bytes: &[u8]) -> Option<((u32, u32), &[u8])>
    requires room { 22 ≤ length bytes.now }
    ensures found { IfSome result (λ r. PairFirst bytes.now r.0 r.1.now) }
    ensures none { IfNone result ((x : ℕ × ℕ) (rest : List ℕ) → PairFirst bytes.now x rest → ⊥) }
{
    let Some((key, space)) = number_in(bytes, MOST_DIGITS) else {
        return None;
    };
    if space[0] != b' ' {
        return None;
    }
    let Some((value, after)) = number_in(&space[1..], MOST_DIGITS) else {
        return None;
    };
    Some(((key, value), after))
}

/// Returns the entry that a line is.
pub fn entry_of(line: &[u8]) -> Option<(u32, u32)>
    ensures found { IfSome result (IsEntry line.now) }
    ensures none { IfNone result ((x : ℕ × ℕ) → ¬ IsEntry line.now x) }
{
    let Some((entry, rest)) = first_pair(line) else {
        return None;
    };
    if rest.len() > 0 {
        return None;
    }
    Some(entry)
}
