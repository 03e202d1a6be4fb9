//! What a tree of entries writes, and what follows for a buffer that holds these writes. It has no code.
#![tactic(auto)]
