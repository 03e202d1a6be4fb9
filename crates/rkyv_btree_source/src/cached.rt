//! A source that keeps blocks of another one in memory.
ghost use Rattle.std.specs.Prelude.{◌≡◌, ◌≤◌, List, ℕ, IfErr, IfOk, IfSome, length};
ghost use Rattle.rkyv_btree_portable.specs.Bytes.{bytes_at};
ghost use Rattle.rkyv_btree_source.specs.Cached.{AreBlocks, IsBlock};
ghost use Rattle.rkyv_btree_source.specs.Known.{AreOf};

use crate::block::{BLOCK_LEN, Block};
use crate::source::ReadAt;
use std::alloc::{AllocError, Global};

impl Block {
    /// Returns a block without bytes.
    fn new() -> Block
        ensures { (b : List ℕ) → IsBlock b result }
    {
        Block {
            pos: 0,
            len: 0,
            bytes: [0; 4096],
        }
    }

    /// Returns the `len` bytes of the source from position `pos` on, if the block has all of them.
    fn part(&self, pos: u32, len: usize) -> Option<&[u8]>
        ensures len { IfSome result (λ part. length part.now ≡ len) }
        ensures same { IfSome result (λ part. (b : List ℕ) → IsBlock b self.now →
            part.now ≡ bytes_at b pos len) }
    {
        if pos < self.pos {
            return None;
        }
        let from = (pos - self.pos) as usize;
        let held = (self.len as usize).min(4096);
        if from > held {
            return None;
        }
        if len > held - from {
            return None;
        }
        Some(&self.bytes[from..from + len])
    }

    /// Reads the block of the source in which position `pos` is. After an error the block has no bytes.
    fn read_around<S: ReadAt>(&mut self, source: &mut S, pos: u32) -> Result<(), S::Error>
        requires { (b : List ℕ) → AreOf (S.known source.old) b → pos ≤ length b }
        ensures kept { (b : List ℕ) → AreOf (S.known source.old) b → IsBlock b self.new }
        ensures same { S.known source.new ≡ S.known source.old }
        ensures fails { IfErr result (S.Fails (S.known source.old)) }
    {
        self.len = 0;
        let start = pos - pos % BLOCK_LEN;
        let size = match source.size() {
            Ok(size) => size,
            Err(error) => return Err(error),
        };
        let len = size.saturating_sub(u64::from(start)).min(4096) as u32;
        match source.read_at(start, &mut self.bytes[..len as usize]) {
            Ok(()) => {}
            Err(error) => return Err(error),
        }
        self.pos = start;
        self.len = len;
        Ok(())
    }
}

/// A source that keeps blocks of another one in memory, so that the other isn't read again where it was read last. A part that
/// lies in two blocks is read from the other source each time.
///
/// The other source must have the same bytes for as long as it is used.
#[derive(Drop)]
pub struct CachedSource<S: ReadAt> {
    pub source: S,
    /// The blocks. Each has a remainder: the blocks of the source whose number has it are kept there, one at a time.
    pub blocks: Vec<Block>,
    pub ghost kept: { AreBlocks (S.known source) blocks.items },
}

impl<S: ReadAt> CachedSource<S> {
    /// Returns a source that keeps `count` blocks of 4096 bytes. Nothing is read.
    ///
    /// # Errors
    ///
    /// `AllocError` if the memory is refused.
    pub fn new(alloc: Global, source: S, count: usize) -> Result<CachedSource<S>, AllocError>
    where
        S: Drop,
        ensures source { IfOk result (λ cached. cached.source ≡ source) }
        ensures blocks { IfOk result (λ cached. length cached.blocks.items ≡ count) }
    {
        let mut blocks = Vec::with_capacity(alloc, count)?;
        while blocks.len() < count {
            blocks.push(Block::new())?;
        }
        Ok(CachedSource { source, blocks })
    }
}

impl<S: ReadAt> ReadAt for CachedSource<S> {
    type Error = S::Error;

    ghost known = { λ s. S.known s.source };

    ghost Fails = { S.Fails };

    fn size(&mut self) -> Result<u64, S::Error> {
        self.source.size()
    }

    /// Copies the part from its block, which is read first if it isn't kept. A part that isn't all in one block is read from the other
    /// source.
    fn read_at(&mut self, pos: u32, part: &mut [u8]) -> Result<(), S::Error> {
        if self.blocks.is_empty() {
            return self.source.read_at(pos, part);
        }
        let index = (pos / BLOCK_LEN) as usize % self.blocks.len();
        let block = &mut self.blocks[index];
        if let Some(bytes) = block.part(pos, part.len()) {
            part.copy_from_slice(bytes);
            return Ok(());
        }
        block.read_around(&mut self.source, pos)?;
        match block.part(pos, part.len()) {
            Some(bytes) => {
                part.copy_from_slice(bytes);
                Ok(())
            }
            None => self.source.read_at(pos, part),
        }
    }
}
