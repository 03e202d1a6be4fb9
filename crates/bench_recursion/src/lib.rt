//! The maps of the library by another builder, with the same contract: plain recursion over the sizes of subtrees. The bench
//! compares and times both.
#![tactic(auto)]

pub mod both;
pub mod build;
mod tree;
