//! Columns in which a row may refer to an earlier one.
#![tactic(auto)]

pub mod lookbacks;
pub mod repeats;
pub mod same;
