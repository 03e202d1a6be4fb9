//! A new archive of a map, from an old one and changes or from two, and the changes that lead from one to another.
#![tactic(auto)]

pub mod change;
mod changing;
pub mod compare_archived;
mod counting;
pub mod diff;
mod entries;
pub mod from_archived;
mod natives;
mod options;
mod order;
mod pairs;
pub mod update;
pub mod update_laws;
mod updates;
