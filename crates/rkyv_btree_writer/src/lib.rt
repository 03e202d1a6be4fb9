//! Writers of bytes, places for archived values, relative pointers, and the errors of serialization.
#![tactic(auto)]

pub mod bounded_writes;
pub mod fault;
pub mod io_writer;
pub mod place;
mod taken;
