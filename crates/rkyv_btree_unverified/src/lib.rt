//! Lookups in bytes that nobody has validated: a lookup validates what it reads, and nothing else.
#![tactic(auto)]

pub mod get_many;
pub mod iter;
pub mod keys;
pub mod laws;
pub mod many;
pub mod node;
pub mod range;
pub mod range_keys;
pub mod search;
pub mod seek;
pub mod set;
pub mod unverified;
pub mod walk;
