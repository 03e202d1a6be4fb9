//! Archived maps for C.
#![tactic(auto)]

mod at_type;
pub mod bound;
pub mod building;
pub mod codes;
pub mod column;
pub mod cursor;
pub mod editing;
pub mod finding;
pub mod given;
pub mod handle;
pub mod item;
pub mod map_type;
pub mod messages;
pub mod opening;
pub mod order;
pub mod pieces;
pub mod query;
pub mod reading;
pub mod typed;
