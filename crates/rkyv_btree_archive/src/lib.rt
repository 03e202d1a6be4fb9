//! What archiving a value does: of native values, of text, of a key with its value, and of maps as trees of nodes.
#![tactic(auto)]

pub mod archive;
pub mod array;
pub mod borrow;
pub mod build;
pub mod build_map;
pub mod build_set;
pub mod byte_string;
pub mod element;
mod entries;
pub mod floats;
pub mod front_refs;
pub mod front_serialize;
pub mod items;
mod node_bytes;
pub mod node_writes;
mod non_zeros;
pub mod option;
pub mod std_types;
pub mod strict_build;
pub mod string;
pub mod to_archive;
mod tree;
pub mod try_build;
pub mod tuple;
pub mod tuples;
pub mod util;
pub mod vector;
pub mod waiting;
mod wide;
