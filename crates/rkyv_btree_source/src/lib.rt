//! Lookups in a source of bytes that isn't read whole, as a file: a lookup reads one node a level, and the texts that it
//! compares. It validates what it reads, and nothing else.
#![tactic(auto)]

pub mod block;
pub mod cached;
pub mod fault;
pub mod fetch;
mod fetch_pair;
mod fetch_scalars;
pub mod last_entry;
pub mod laws;
mod node;
pub mod piece;
pub mod pieces;
pub mod range;
pub mod reader;
pub mod search;
mod seek;
pub mod source;
pub mod tree;
pub mod unverified_source;
pub mod walk;
