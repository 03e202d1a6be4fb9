//! Archived text.
ghost use Rattle.std.specs.Prelude.{◌≡◌, ℕ, ◌+◌, ◌≤◌, ◌<◌, length, string_bytes, IfSome, IfNone, OnOk, IfErr, IsErrOf, IsTrue, IsUtf8, MatchBool, ◌↔◌};
ghost use Rattle.std.specs.Str.{IsAscii};
ghost use Rattle.rkyv_btree_portable.specs.Bytes.{bytes_at};
ghost use Rattle.rkyv_btree_portable.specs.Refusing.{RefusesWhole};
ghost use Rattle.rkyv_btree_portable.specs.Text.{IsTextRange, text_kind};
ghost use Rattle.rkyv_btree_portable.specs.laws.Refusing.{whole_refusals};
ghost use Rattle.rkyv_btree_portable.specs.laws.TextLaws.{text_laws};

use crate::bytes::{num32, pointed_at};
use crate::check::{CheckBytes, Portable, Window, check_place};
use crate::refusal::Refusal;
use std::simd::u8x32;
use std::str::from_utf8;

/// A text, by an offset to its bytes and their number, four bytes each.
pub struct ArchivedText;

impl Portable for ArchivedText {
    ghost kind = { text_kind };

    fn size() -> u32 {
        8
    }

    fn align() -> u32 {
        4
    }

    fn fits() -> bool {
        true
    }

    ghost laws = { text_laws };
}

/// Returns where the bytes of the text at `pos` are, or `None` if they aren't in `window`.
pub fn text_range(buf: &[u8], pos: u32, window: Window) -> Option<Window>
    requires short { length buf.now ≤ 4294967295 }
    requires room { pos + 8 ≤ length buf.now }
    ensures range { IfSome result (λ text. IsTextRange buf.now pos text.lo text.hi) }
    ensures inside { IfSome result (λ text. (window.lo ≤ text.lo) × (text.hi ≤ window.hi)) }
    ensures outside { IfNone result
        ((start end : ℕ) → IsTextRange buf.now pos start end → window.lo ≤ start →
        end ≤ window.hi → ⊥) }
{
    let lo = u32::try_from(pointed_at(buf, pos)).ok()?;
    let hi = lo.checked_add(num32(buf, pos + 4))?;
    if lo < window.lo || window.hi < hi {
        return None;
    }
    Some(Window { lo, hi })
}

/// Returns whether bytes are valid UTF-8.
// Most texts are ASCII, which is tested a word at a time.
#[inline(always)]
pub fn is_utf8(bytes: &[u8]) -> bool
    ensures { MatchBool result (IsUtf8 bytes.now) (¬ IsUtf8 bytes.now) }
{
    bytes.is_ascii() || from_utf8(bytes).is_ok()
}

/// Returns whether `len` bytes from `lo` on are ASCII, if a block that begins with them lies in the buffer. It is read as a whole, so
/// that no jump depends on their number.
#[inline(always)]
fn is_ascii_in_block(buf: &[u8], lo: usize, len: usize) -> bool
    requires { lo + len ≤ length buf.now }
    ensures { IsTrue result → IsAscii (bytes_at buf.now lo len) }
{
    if len > u8x32::LEN || buf.len() - lo < u8x32::LEN {
        return false;
    }
    let others = u8x32::from_slice(&buf[lo..]).simd_ge(u8x32::splat(0x80));
    len <= others.to_bitmask().trailing_zeros() as usize
}

/// Returns whether the bytes of a long text, or of one that isn't ASCII, are valid UTF-8.
#[inline(never)]
fn is_other_utf8(bytes: &[u8]) -> bool
    ensures { MatchBool result (IsUtf8 bytes.now) (¬ IsUtf8 bytes.now) }
{
    is_utf8(bytes)
}

/// Returns whether `len` bytes from `lo` on are valid UTF-8.
#[inline(always)]
fn is_text(buf: &[u8], lo: usize, len: usize) -> bool
    requires { lo + len ≤ length buf.now }
    ensures { MatchBool result (IsUtf8 (bytes_at buf.now lo len)) (¬ IsUtf8 (bytes_at buf.now lo len)) }
{
    is_ascii_in_block(buf, lo, len) || is_other_utf8(&buf[lo..lo + len])
}

impl CheckBytes for ArchivedText {
    ghost Refuses = { RefusesWhole text_kind };

    #[inline(always)]
    fn check(buf: &[u8], pos: u32, window: Window) -> Result<Window, Refusal> {
        check_place::<ArchivedText>(buf, pos)?;
        let Some(text) = text_range(buf, pos, window) else {
            return Err(Refusal::BadEntry { pos });
        };
        if !is_text(buf, text.lo as usize, (text.hi - text.lo) as usize) {
            return Err(Refusal::BadEntry { pos });
        }
        Ok(Window {
            lo: text.hi,
            hi: window.hi,
        })
    }

    ghost refusals = { λ _. whole_refusals text_laws };
}
