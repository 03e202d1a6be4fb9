//! Views of archived values and maps, and what is made of them.
#![tactic(auto)]

mod byte_string;
pub mod compare;
pub mod compare_native;
pub mod debug;
pub mod display;
pub mod ends;
pub mod entry_view;
pub mod get_many;
pub mod iter;
pub mod keys;
pub mod lookup;
pub mod map_view;
pub mod native;
mod native_non_zeros;
pub mod range;
pub mod range_keys;
pub mod set_view;
pub mod view;
mod visit;
