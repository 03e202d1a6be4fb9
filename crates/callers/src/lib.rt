//! Small callers of the library, which the documents show. One loop needs a measure; nothing else needs a proof file.
#![tactic(auto)]

pub mod accounts;
pub mod building;
pub mod editing;
pub mod many;
pub mod merging;
pub mod nested;
pub mod pages;
pub mod pairs;
pub mod reading;
pub mod ticket;
pub mod ticket_archived;
#[cfg(test)]
mod tried;
pub mod typed;
pub mod weather;
pub mod weather_archived;
