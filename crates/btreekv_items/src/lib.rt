//! Keys and values as text: how the values of archived types are written and read.
#![tactic(auto)]

pub mod archived;
mod at_item;
mod byte_texts;
mod bytes;
mod decimals;
pub mod item;
pub mod item_type;
pub mod optional;
pub mod pairs;
mod signed;
#[cfg(test)]
mod tests;
mod text_forms;
mod texts;
pub mod triples;
mod unit;
mod unsigned;
mod wide;
mod words;
