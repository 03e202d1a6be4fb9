//! Keys or values that C has one after the other, as columns of a table are.
ghost use Rattle.std.specs.Prelude.{◌≡◌, ◌+◌, ◌*◌, ◌≤◌, ◌<◌, IfSome, None, length};
ghost use Rattle.rkyv_btree_portable.specs.Bytes.{number_at};
ghost use Rattle.rkyv_btree_ffi.specs.Columns.{HasBytes, HasOffset, IsText, bytes_in, offset};

use std::str::from_utf8;

/// Numbers one after the other, the least byte of each first; or texts or byte strings by their offsets in one buffer.
#[repr(C)]
#[derive(Clone, Copy, Drop)]
pub struct BtreeColumn<'a> {
    /// The numbers, of four or eight bytes as the type has them; or the bytes of all texts or byte strings.
    pub buf: &'a [u8],
    /// Of texts and byte strings where each begins in `buf`, and then where the last ends. Of numbers nothing.
    pub offsets: &'a [u8],
    /// How many bytes each offset has: 4 or 8. Of numbers it isn't read.
    pub offset_size: u32,
}

/// Returns the number in the four bytes of an index, or `None` if they aren't all there.
#[tactic(auto, unfolding(rkyv_btree_portable::specs::Bytes::number_at))]
pub(crate) fn narrow_at(bytes: &[u8], index: usize) -> Option<u32>
    ensures there { IfSome result (λ _. 4 * index + 4 ≤ length bytes.now) }
    ensures number { IfSome result (λ number. number ≡ number_at bytes.now (4 * index) 4) }
    ensures none { result ≡ None → length bytes.now < 4 * index + 4 }
{
    if index >= bytes.len() / 4 {
        return None;
    }
    let at = 4 * index;
    Some(u32::from_le_bytes([bytes[at], bytes[at + 1], bytes[at + 2], bytes[at + 3]]))
}

/// Returns the number in the eight bytes of an index, or `None` if they aren't all there.
#[tactic(auto, unfolding(rkyv_btree_portable::specs::Bytes::number_at))]
pub(crate) fn wide_at(bytes: &[u8], index: usize) -> Option<u64>
    ensures there { IfSome result (λ _. 8 * index + 8 ≤ length bytes.now) }
    ensures number { IfSome result (λ number. number ≡ number_at bytes.now (8 * index) 8) }
    ensures none { result ≡ None → length bytes.now < 8 * index + 8 }
{
    if index >= bytes.len() / 8 {
        return None;
    }
    let at = 8 * index;
    Some(u64::from_le_bytes([
        bytes[at],
        bytes[at + 1],
        bytes[at + 2],
        bytes[at + 3],
        bytes[at + 4],
        bytes[at + 5],
        bytes[at + 6],
        bytes[at + 7],
    ]))
}

/// Returns the offset at an index, or `None` if the column has none there.
fn offset_at(column: &BtreeColumn<'_>, index: usize) -> Option<u64>
    ensures there { IfSome result (λ _. HasOffset column.now index) }
    ensures number { IfSome result (λ number. number ≡ offset column.now index) }
    ensures none { result ≡ None → HasOffset column.now index → ⊥ }
{
    match column.offset_size {
        4 => match narrow_at(column.offsets, index) {
            Some(number) => Some(u64::from(number)),
            None => None,
        },
        8 => wide_at(column.offsets, index),
        _ => None,
    }
}

/// Returns the bytes at an index, or `None` if the column has none there.
pub(crate) fn bytes_at<'t>(column: &BtreeColumn<'t>, index: usize) -> Option<&'t [u8]>
    requires { index < 18446744073709551615 }
    ensures there { IfSome result (λ _. HasBytes column.now index) }
    ensures bytes { IfSome result (λ bytes. bytes.now ≡ bytes_in column.now index) }
    ensures none { result ≡ None → HasBytes column.now index → ⊥ }
{
    let start = offset_at(column, index)?;
    let end = offset_at(column, index + 1)?;
    if start > end || end > column.buf.len() as u64 {
        return None;
    }
    Some(&column.buf[start as usize..end as usize])
}

/// Returns the text at an index, or `None` if the column has none there.
pub(crate) fn text_at<'t>(column: &BtreeColumn<'t>, index: usize) -> Option<&'t str>
    requires { index < 18446744073709551615 }
    ensures there { IfSome result (λ _. IsText column.now index) }
    ensures text { IfSome result (λ text. text.now ≡ bytes_in column.now index) }
    ensures none { result ≡ None → IsText column.now index → ⊥ }
{
    match from_utf8(bytes_at(column, index)?) {
        Ok(text) => Some(text),
        Err(_) => None,
    }
}
