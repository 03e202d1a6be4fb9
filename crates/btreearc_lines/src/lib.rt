//! What the program `btreearc` reads and says: entries in lines of two numbers, the words of its commands, all bytes of a
//! reader and to a writer, and its faults with their texts.
#![tactic(auto)]

pub mod command;
pub mod entries;
pub mod fault;
pub mod heading;
pub mod lines;
pub mod reopen;
pub mod spool;
pub mod streams;
