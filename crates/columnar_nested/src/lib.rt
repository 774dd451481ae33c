//! Trees: their nodes level by level in one column, with the first child of each node and the start of each tree.
#![tactic(auto)]

pub mod laws;
pub mod tree;
pub mod trees;
