//! Archived maps as a program of one's own uses them: an entry type of its own, values edited in place, and a std map there
//! and back.
#![tactic(auto)]

pub mod editing;
pub mod headline;
pub mod many;
pub mod round_trip;
pub mod strict;
pub mod version;
pub mod whole;
