//! Ranges of the rows of a column; comparing and hashing rows by their meaning.
#![tactic(auto)]

pub mod ordered;
pub mod slice;
