//! Names of slices: for a type with bytes, the path of fields that leads to each of its slices.
#![tactic(auto)]

pub mod fault;
pub mod lists;
pub mod names;
pub mod plain;
pub mod sums;
pub mod tuple;
pub mod units;
pub mod variants;
pub mod wraps;
