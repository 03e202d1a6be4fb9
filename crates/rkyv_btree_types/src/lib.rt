//! Archived maps and sets, as types of bytes: what reads them and what builds them both name these.
#![tactic(auto)]

pub mod map;
pub mod set;
