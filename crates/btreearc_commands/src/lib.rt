//! What the program `btreearc` does: archived maps of `u32` to `u32` are built from lines, checked, listed, looked up in
//! and edited, by commands over a reader and a writer.
#![tactic(auto)]

pub mod build;
pub mod entries;
pub mod laws;
pub mod listing;
pub mod migrating;
pub mod opening;
pub mod program;
pub mod setting;
pub mod streaming;
