//! What the program `btreekv` does with maps of other types than texts: their entries are read and written as texts, and the types are
//! known when it runs.
#![tactic(auto)]

pub mod any_type;
mod at_type;
mod building;
mod change_lines;
mod changing;
pub mod command;
pub mod common_type;
mod differing;
pub mod fault;
pub mod list_form;
mod listing;
mod natives;
pub mod option_type;
mod output;
pub mod overwriting;
pub mod overwriting_types;
pub mod plain_type;
mod prefixed;
pub mod program;
pub mod ranged;
mod reading;
mod sought;
pub mod source;
pub mod sourced;
pub mod tuple_type;
pub mod types;
mod updating;
