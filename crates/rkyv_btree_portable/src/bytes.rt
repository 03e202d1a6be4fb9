//! Readers of little-endian numbers and relative pointers.
ghost use Rattle.std.specs.Prelude.{◌≡◌, ◌+◌, ◌≤◌, length};
ghost use Rattle.rkyv_btree_portable.specs.Bytes.{number_at, place_at, target_at};

/// Returns the number of the four bytes at `pos`.
#[tactic(auto, unfolding(crate::specs::Bytes::number_at))]
pub fn num32(buf: &[u8], pos: u32) -> u32
    requires { pos + 4 ≤ length buf.now }
    ensures { result ≡ number_at buf.now pos 4 }
{
    let at = pos as usize;
    u32::from_le_bytes([buf[at], buf[at + 1], buf[at + 2], buf[at + 3]])
}

/// Returns where the relative pointer at `pos` leads, whatever its offset.
#[tactic(auto, unfolding(crate::specs::Bytes::place_at))]
pub fn pointed_at(buf: &[u8], pos: u32) -> i64
    requires { pos + 4 ≤ length buf.now }
    ensures { result ≡ place_at buf.now pos }
{
    i64::from(pos) + i64::from(num32(buf, pos).cast_signed())
}

/// Returns where the relative pointer at `pos` leads, or `None` if its offset is 1.
#[tactic(auto, unfolding(crate::specs::Bytes::target_at))]
pub fn target(buf: &[u8], pos: u32) -> Option<i64>
    requires { pos + 4 ≤ length buf.now }
    ensures { result ≡ target_at buf.now pos }
{
    match num32(buf, pos) {
        1 => None,
        _ => Some(pointed_at(buf, pos)),
    }
}
