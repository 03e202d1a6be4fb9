//! Archived types that are made of another one, floating-point numbers, and numbers of 128 bits.
#![tactic(auto)]

pub mod array;
pub mod array_view;
pub mod elements;
pub mod floats;
pub mod front;
pub mod front_in_place;
pub mod front_view;
pub mod option;
pub mod option_view;
pub mod tuple;
pub mod tuple_compare;
pub mod tuple_in_place;
pub mod tuple_native;
pub mod tuple_view;
pub mod vec_compare;
pub mod vec_iter;
pub mod vector;
pub mod vector_view;
pub mod wide;
