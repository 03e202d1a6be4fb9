//! Walks along the entries of an archived map, over the places of its nodes.
#![tactic(auto)]

pub mod archived_map;
pub mod entry_place;
pub mod entry_walk;
pub mod last_entry;
pub mod many;
pub mod node;
pub mod path;
pub mod range_ends;
pub mod range_walk;
pub mod search;
pub mod seek;
pub mod shows;
pub mod visit_loop;
