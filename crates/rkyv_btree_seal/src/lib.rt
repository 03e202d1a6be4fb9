//! Values of an archived map, written in place.
#![tactic(auto)]

mod closures;
pub mod cursor;
pub mod edit_laws;
pub mod lent_key;
pub mod lookup;
pub mod map_seal;
pub mod range_cursor;
pub mod seal;
pub mod value_place;
mod visit_seal;
