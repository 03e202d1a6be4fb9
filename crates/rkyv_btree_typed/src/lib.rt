//! Files that state the type of their map: a header with its name, and then an archive.
#![tactic(auto)]

pub mod found_name;
pub mod from_typed;
pub mod header;
mod non_zero_names;
pub mod open_source;
pub mod open_typed;
pub mod to_typed;
mod tuple_names;
pub mod type_check;
pub mod type_laws;
pub mod type_name;
mod wide_names;
