//! Native values that are made of archived ones.
#![tactic(auto)]

mod byte_string;
pub mod deserialize;
pub mod deserialize_native;
pub mod entry_type;
pub mod from_archive;
mod native_array;
mod native_floats;
pub mod native_front;
pub mod native_key;
pub mod native_map;
mod native_option;
mod native_pair;
pub mod native_set;
mod native_tuple;
mod native_vec;
mod non_zeros;
pub mod round_trip;
pub mod sizes;
pub mod std_maps;
mod wide;
