//! What the program `btreekv` does: archives of texts to texts are built from lines, checked, listed and looked up in, by commands
//! over a reader and a writer.
#![tactic(auto)]

pub mod building;
pub mod changes;
pub mod command;
pub mod csv_records;
pub mod differences;
mod entries;
pub mod escapes;
pub mod explaining;
pub mod figures;
pub mod forms;
mod hexadecimal;
pub mod json_objects;
mod json_records;
pub mod json_text;
pub mod lines;
pub mod list;
pub mod listing;
mod meaning;
pub mod merging;
mod nodes;
pub mod opening;
pub mod prefixes;
pub mod program;
pub mod ranged;
pub mod records;
pub mod sidecar;
pub mod sourced;
pub mod streaming;
mod text;
mod top;
mod tree_figures;
pub mod update_fault;
pub mod updating;
pub mod way;
