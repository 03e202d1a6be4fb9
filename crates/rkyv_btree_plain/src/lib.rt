//! Types of one's own whose archived values are a fixed number of bytes, as a struct of numbers.
#![tactic(auto)]

pub mod archived_plain;
pub mod plain_value;
