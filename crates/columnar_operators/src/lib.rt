//! Sorts, gathers, filters, merges and searches columns by their rows.
#![tactic(auto)]

pub mod extremes;
pub mod merge;
mod runs;
pub mod search;
pub mod select;
pub mod sort;
