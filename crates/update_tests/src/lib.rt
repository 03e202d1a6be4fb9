//! Updates of archives: callers, which the documents show, and what they do with texts.
#![tactic(auto)]

#[cfg(test)]
mod made;
pub mod updating;
