//! A piece of a source that is in memory, and a part that is in no piece.

/// A piece of a source: `len` bytes from position `pos` on, which a buffer has from `start` on.
#[repr(C)]
#[derive(Clone, Copy, Debug, PartialEq, Eq)]
pub struct Piece {
    /// The position of the first byte in the source.
    pub pos: u32,
    /// The position of the first byte in the buffer.
    pub start: u32,
    /// The number of bytes.
    pub len: u32,
}

/// A part of a source that no piece has whole. A caller fetches it, and looks up again.
#[derive(Clone, Copy, Debug, PartialEq, Eq, Drop)]
pub struct Missing {
    /// The position of the first byte in the source.
    pub pos: u32,
    /// The number of bytes.
    pub len: u64,
}
