//! Maps and sets whose keys increase: validation of the order, views that rely on it, and laws.
#![tactic(auto)]

pub mod migrate;
mod order;
pub mod prefix;
pub mod strict;
pub mod strict_laws;
pub mod strict_map;
pub mod strict_set;
