//! What archived values are, and how foreign bytes are checked for one.
#![tactic(auto)]

pub mod byte_string;
pub mod bytes;
pub mod check;
pub mod entry;
pub mod in_place;
pub mod little_endian;
pub mod non_zeros;
pub mod numbers;
pub mod refusal;
pub mod rounding;
pub mod scalars;
pub mod signed;
pub mod steps;
pub mod text;
