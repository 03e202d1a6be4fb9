//! A block of a source that is kept in memory.

/// The number of bytes of a block, but for the last one of a source.
pub const BLOCK_LEN: u32 = 4096;

/// A block of a source: its bytes from position `pos` on, which are the first `len` of `bytes`.
#[derive(Drop)]
pub struct Block {
    pub pos: u32,
    pub len: u32,
    pub bytes: [u8; 4096],
}
