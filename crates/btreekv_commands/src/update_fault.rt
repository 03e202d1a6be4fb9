//! Why archives aren't updated, merged or compared.

use crate::opening::ArchiveFault;
use rkyv_btree_writer::fault::Fault;
use std::alloc::AllocError;

/// Why archives aren't updated, merged or compared.
#[derive(Debug, Drop)]
pub enum UpdateFault {
    /// The first line that is no change, counted from 1.
    Line(u64),
    /// The first line whose key isn't greater than that of the line before it, counted from 1.
    OutOfOrder(u64),
    /// The first of the files that isn't an archive whose keys increase, counted from 0, and why.
    Archive(usize, ArchiveFault),
    /// The entries can't be archived.
    NotBuilt(Fault<AllocError>),
    /// There is no memory.
    Memory,
}
