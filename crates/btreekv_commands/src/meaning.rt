//! What the bytes of an archive mean.

use crate::hexadecimal::digits_of;
use itoa::{Buffer, Integer};
use std::alloc::AllocError;

/// A text of an entry.
#[derive(Clone, Copy, Drop)]
pub(crate) enum Part {
    Key,
    Value,
}

/// What a pointer leads to.
#[derive(Clone, Copy, Drop)]
pub(crate) enum Link {
    Root,
    Child(usize),
}

/// What bytes of an archive mean.
#[derive(Clone, Copy, Drop)]
pub(crate) enum Meaning {
    Header,
    NameLen(u32),
    Name,
    Unused,
    /// The bytes of a text of an entry of the node at a position.
    Text(Part, usize, u32),
    /// Where the bytes of such a text are.
    TextStart(Part, usize, u32),
    /// How many bytes it has.
    TextLen(Part, usize, u32),
    Leaf,
    InnerNode,
    LeafLen(u32),
    MapLen(u32),
    /// A pointer to a node at a position, or to none.
    Pointer(Link, Option<u32>),
}

/// Writes a number in decimal at the end.
fn push_number<I: Integer>(line: &mut Vec<u8>, number: I) -> Result<(), AllocError> {
    let mut digits = Buffer::new();
    line.extend_from_slice(digits.format(number).as_bytes())
}

/// Writes a number and what it counts at the end.
fn push_count(line: &mut Vec<u8>, count: u32, counted: &[u8]) -> Result<(), AllocError> {
    push_number(line, count)?;
    line.extend_from_slice(counted)
}

/// Writes what is at a position at the end, and the position.
fn push_place(line: &mut Vec<u8>, placed: &[u8], pos: u32) -> Result<(), AllocError> {
    line.extend_from_slice(placed)?;
    line.extend_from_slice(&digits_of(pos))
}

impl Part {
    /// Writes which text of a node it is at the end.
    fn push(self, line: &mut Vec<u8>, index: usize) -> Result<(), AllocError> {
        match self {
            Part::Key => line.extend_from_slice(b"key ")?,
            Part::Value => line.extend_from_slice(b"value ")?,
        }
        push_number(line, index)
    }
}

impl Link {
    /// Writes what it leads to at the end.
    fn push(self, line: &mut Vec<u8>) -> Result<(), AllocError> {
        match self {
            Link::Root => line.extend_from_slice(b"root node"),
            Link::Child(index) => {
                line.extend_from_slice(b"child ")?;
                push_number(line, index)
            }
        }
    }
}

impl Meaning {
    /// Writes the meaning at the end of a line.
    pub(crate) fn push(self, line: &mut Vec<u8>) -> Result<(), AllocError> {
        match self {
            Meaning::Header => line.extend_from_slice(b"header of a typed file"),
            Meaning::NameLen(len) => {
                line.extend_from_slice(b"the name of the type has ")?;
                push_count(line, len, b" bytes")
            }
            Meaning::Name => line.extend_from_slice(b"the name of the type"),
            Meaning::Unused => line.extend_from_slice(b"unused"),
            Meaning::Text(part, index, node) => {
                part.push(line, index)?;
                push_place(line, b" of the node at ", node)
            }
            Meaning::TextStart(part, index, start) => {
                part.push(line, index)?;
                push_place(line, b": its bytes are at ", start)
            }
            Meaning::TextLen(part, index, len) => {
                part.push(line, index)?;
                line.extend_from_slice(b": it has ")?;
                push_count(line, len, b" bytes")
            }
            Meaning::Leaf => line.extend_from_slice(b"leaf"),
            Meaning::InnerNode => line.extend_from_slice(b"inner node"),
            Meaning::LeafLen(count) => push_count(line, count, b" entries in the leaf"),
            Meaning::MapLen(count) => push_count(line, count, b" entries in the map"),
            Meaning::Pointer(link, Some(node)) => {
                link.push(line)?;
                push_place(line, b": it is at ", node)
            }
            Meaning::Pointer(link, None) => {
                link.push(line)?;
                line.extend_from_slice(b": there is none")
            }
        }
    }
}
